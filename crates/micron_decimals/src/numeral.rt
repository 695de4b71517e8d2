//! Whole numbers with an optional sign.
ghost use Rattle.std.specs.Prelude.{◌≡◌, ◌≤◌, ◌<◌, ◌^◌};
ghost use Rattle.std.specs.Option.{option_map};
ghost use Rattle.std.specs.Str.Parse.{starts_with_minus, without_leading_sign};
ghost use Rattle.micron_decimals.specs.Decimals.{signed as signed_of_parts, signed_of};
ghost use Rattle.micron_decimals.specs.Places.{far, clamped};

use crate::digits::{are_digits, number};

/// Whether a minus stands in front, and the text behind the sign, where there is one.
pub fn split_sign(text: &[u8]) -> (bool, &[u8])
    ensures negative { result.0 ≡ starts_with_minus text.now }
    ensures rest { result.1.now ≡ without_leading_sign text.now }
{
    match text {
        [b'-', rest @ ..] => (true, rest),
        [b'+', rest @ ..] => (false, rest),
        _ => (false, text),
    }
}

/// A number with a minus, or without.
pub fn signed(negative: bool, size: u128) -> i128
    requires { size ≤ far }
    ensures { result ≡ signed_of_parts negative size }
{
    if negative {
        -(size as i128)
    } else {
        size as i128
    }
}

/// The whole number that an optional sign and one digit or more write, up to `FAR` either way from 0; `None` for any other text.
pub fn numeral(text: &[u8]) -> Option<i128>
    ensures { result ≡ option_map clamped (signed_of text.now) }
{
    let (negative, digits) = split_sign(text);
    if digits.is_empty() {
        return None;
    }
    if !are_digits(digits) {
        return None;
    }
    Some(signed(negative, number(0, digits)))
}
