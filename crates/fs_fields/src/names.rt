//! Names in the fields of entries.

ghost use Rattle.std.specs.Prelude.{◌≡◌, ◌≤◌, length};
ghost use Rattle.fs_trees.specs.Names.{name_lt};
ghost use Rattle.fs_trees.specs.Fields.{unpadded};

/// The field without the zeros at its end.
pub fn trimmed(field: &[u8]) -> &[u8]
    ensures value { result.now ≡ unpadded field.now }
    ensures fits { length result.now ≤ length field.now }
{
    let mut len = field.len();
    while len > 0 && field[len - 1] == 0 {
        len -= 1;
    }
    &field[..len]
}

/// Whether a name stands before another: by their bytes.
pub fn is_below(name: &[u8], other: &[u8]) -> bool
    ensures { result ≡ name_lt name.now other.now }
{
    name < other
}
