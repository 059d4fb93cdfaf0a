//! Numbers of a line.

ghost use Rattle.std.specs.Prelude.{◌≡◌, ℕ, Some, IfSome};
ghost use Rattle.std.specs.Char.{is_ascii_digit};
ghost use Rattle.std.specs.Fmt.{decimal};
ghost use Rattle.std.specs.List.{list_all};
ghost use Rattle.floor_text.specs.Numbers.{IsLineNumber, is_spelled, number_of};

use crate::limits::GREATEST_NUMBER;

fn are_digits(bytes: &[u8]) -> bool
    ensures { result ≡ list_all is_ascii_digit bytes.now }
{
    bytes.iter().all(|byte| byte.is_ascii_digit())
}

/// Tells whether the bytes are digits with no zero in front, or the one digit `0`.
fn is_spelled(bytes: &[u8]) -> bool
    ensures { result ≡ is_spelled bytes.now }
{
    match bytes {
        [] => false,
        [only] => only.is_ascii_digit(),
        [first, ..] => *first != b'0' && are_digits(bytes),
    }
}

/// Reads a number: `0`, or a digit 1 to 9 and further digits, at most 9007199254740991.
/// `None` exactly where the bytes are no such number. Each number has one spelling.
pub fn read_number(bytes: &[u8]) -> Option<u64>
    ensures exact { result ≡ number_of bytes.now }
    ensures found { IfSome result (λ n. IsLineNumber n × (bytes.now ≡ decimal n)) }
    ensures only { (n : ℕ) → IsLineNumber n → bytes.now ≡ decimal n → result ≡ Some n }
{
    if !is_spelled(bytes) {
        return None;
    }
    let mut number = 0u64;
    for digit in bytes {
        number = 10 * number + u64::from(digit - b'0');
        if number > GREATEST_NUMBER {
            return None;
        }
    }
    Some(number)
}
