//! Hexadecimal digits as bytes.

ghost use Rattle.std.specs.Prelude.{◌≡◌, ◌*◌, cond, length, unwrap_or, Some, None};
ghost use Rattle.std.specs.Result.{result_ok};
ghost use Rattle.hex.specs.Hex.{decode_sized, hex_digit_value};

/// The value of a hexadecimal digit of either case, and 255 for a byte that is none.
fn value_of(digit: u8) -> u8
    ensures { result ≡ unwrap_or (hex_digit_value digit) 255 }
{
    let number = digit.wrapping_sub(b'0');
    let upper = digit.wrapping_sub(b'A');
    let lower = digit.wrapping_sub(b'a');
    if number < 10 {
        number
    } else if upper < 6 {
        upper + 10
    } else if lower < 6 {
        lower + 10
    } else {
        255
    }
}

/// Puts the bytes that digits spell into `bytes`, two digits a byte, and answers whether they spell any. No pair waits
/// for what the one before it was, so a compiler can have many of them read at once.
pub(crate) fn decode(digits: &[u8], bytes: &mut [u8]) -> bool
    requires { length digits.now ≡ 2 * length bytes.old }
    ensures value { result_ok (decode_sized digits.now (length bytes.old)) ≡ cond result (Some bytes.new) None }
    ensures size { length bytes.new ≡ length bytes.old }
{
    let mut worst = 0u8;
    for i in 0..bytes.len() {
        let high = value_of(digits[2 * i]);
        let low = value_of(digits[2 * i + 1]);
        bytes[i] = high % 16 * 16 + low % 16;
        worst = worst.max(high).max(low);
    }
    worst < 16
}
