//! What an integer means.
ghost use Rattle.std.specs.Prelude.{◌≡◌, ◌≤◌, ◌^◌, true, false, ◌&&◌, IfSome, IfNone};
ghost use Rattle.std.specs.List.{list_all};
ghost use Rattle.std.specs.Str.Parse.{digits_value};
ghost use Rattle.mars_tokens.specs.Bytes.{is_digit_byte};
ghost use Rattle.mars_tokens.specs.Integers.{are_digits, is_integer_text, is_in_range, integer_value};

use crate::bytes::is_digit;

/// The number that digits write, if it is of u64. One pass.
fn magnitude(digits: &[u8]) -> Option<u64>
    ensures some { IfSome result (λ n. (list_all is_digit_byte digits.now ≡ true) × (n ≡ digits_value 10 digits.now)) }
    ensures none { IfNone result (list_all is_digit_byte digits.now ≡ true → 2 ^ 64 ≤ digits_value 10 digits.now) }
{
    let mut n: u64 = 0;
    for d in digits {
        if !is_digit(*d) {
            return None;
        }
        n = n.checked_mul(10)?.checked_add((*d - b'0') as u64)?;
    }
    Some(n)
}

/// The number of an integer's text, with its sign; `None` exactly where the text is no integer or the number isn't of i64.
/// `-0` is 0. One pass.
pub fn read_integer(text: &[u8]) -> Option<i64>
    ensures some { IfSome result (λ z. z ≡ integer_value text.now) }
    ensures fits { IfSome result (λ z. (is_integer_text text.now && is_in_range text.now) ≡ true) }
    ensures none { IfNone result ((is_integer_text text.now && is_in_range text.now) ≡ false) }
{
    let (first, rest) = text.split_first()?;
    if *first != b'-' {
        return 0i64.checked_add_unsigned(magnitude(text)?);
    }
    if rest.is_empty() {
        return None;
    }
    0i64.checked_sub_unsigned(magnitude(rest)?)
}
