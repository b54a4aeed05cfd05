//! Decimal digits.
ghost use Rattle.std.specs.Prelude.{◌≡◌, ◌≤◌, ◌+◌, ◌^◌, length, min};
ghost use Rattle.elem_descr.specs.Clauses.{is_ascii_digit, list_all, prefix_len, value_of, count_of, max_size};

use crate::scalar::MAX_ITEM_SIZE;

/// How many digits the text begins with.
pub fn digits_len(text: &[u8]) -> usize
    ensures value { result ≡ prefix_len is_ascii_digit text.now }
    ensures within { result ≤ length text.now }
{
    text.iter().take_while(|b| b.is_ascii_digit()).count()
}

pub fn are_digits(text: &[u8]) -> bool
    ensures { result ≡ list_all is_ascii_digit text.now }
{
    text.iter().all(|b| b.is_ascii_digit())
}

/// The number that digits spell, or `most` + 1 if it is larger: there may be thousands of digits.
pub fn capped_value(digits: &[u8], most: usize) -> usize
    requires { most ≤ 2 ^ 32 }
    ensures { result ≡ min (value_of digits.now) (most + 1) }
{
    let mut value = 0usize;
    for digit in digits {
        value = (value * 10 + usize::from(digit.saturating_sub(b'0'))).min(most + 1);
    }
    value
}

/// The number of bytes that digits spell: 1 if there are no digits, and one more than the greatest
/// size of an item if it is larger.
pub fn count(digits: &[u8]) -> usize
    ensures { result ≡ min (count_of digits.now) (max_size + 1) }
{
    if digits.is_empty() {
        return 1;
    }
    capped_value(digits, MAX_ITEM_SIZE)
}
