//! Bytes without the zeros at their end.

ghost use Rattle.std.specs.Prelude.{◌≡◌, ◌≤◌, length};
ghost use Rattle.script_text.specs.Texts.{up_to_last};

/// How many zeros are looked at together.
const GROUP: usize = 32;

/// The bytes up to the last that isn't zero.
pub fn trimmed(bytes: &[u8]) -> &[u8]
    ensures value { result.now ≡ up_to_last bytes.now }
    ensures shorter { length result.now ≤ length bytes.now }
{
    let front = before_groups(bytes);
    let mut end = front.len();
    while end > 0 && front[end - 1] == 0 {
        end -= 1;
    }
    &front[..end]
}

/// The bytes without whole groups of zeros at their end.
fn before_groups(bytes: &[u8]) -> &[u8]
    ensures same { up_to_last result.now ≡ up_to_last bytes.now }
    ensures shorter { length result.now ≤ length bytes.now }
{
    let mut left = bytes;
    while let Some((front, group)) = left.split_last_chunk::<GROUP>() {
        if *group != [0; GROUP] {
            break;
        }
        left = front;
    }
    left
}
