//! Names that stand once.

ghost use Rattle.std.specs.Prelude.{◌≡◌, ◌≤◌, ◌*◌, length};
ghost use Rattle.std.specs.List.{list_any};
ghost use Rattle.fs_trees.specs.Names.{are_distinct};
ghost use Rattle.fs_trees.specs.Fields.{entries, entry_names};
ghost use Rattle.chain_layout.specs.Listed.{is_among};

use crate::directory::name_at;

/// Whether a name is that of one of so many entries.
fn is_among(name: &[u8], list: &[u8], count: usize) -> bool
    requires { 32 * count ≤ length list.now }
    ensures { result ≡ is_among (entry_names (entries count list.now)) name.now }
{
    for position in 0..count {
        if name == name_at(list, position) {
            return true;
        }
    }
    false
}

/// Whether each name of so many entries stands once.
pub fn are_distinct(list: &[u8], count: usize) -> bool
    requires { 32 * count ≤ length list.now }
    ensures { result ≡ are_distinct (entry_names (entries count list.now)) }
{
    for position in 0..count {
        let rest = &list[32 * position + 32..];
        if is_among(name_at(list, position), rest, count - position - 1) {
            return false;
        }
    }
    true
}

/// Whether a name of so many entries is that of one of others.
pub fn are_shared(list: &[u8], count: usize, others: &[u8], other_count: usize) -> bool
    requires fits { 32 * count ≤ length list.now }
    requires others_fit { 32 * other_count ≤ length others.now }
    ensures { result ≡ list_any (is_among (entry_names (entries other_count others.now)))
        (entry_names (entries count list.now)) }
{
    for position in 0..count {
        if is_among(name_at(list, position), others, other_count) {
            return true;
        }
    }
    false
}
