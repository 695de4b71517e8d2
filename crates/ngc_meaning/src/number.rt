//! The numbers of words.
ghost use Rattle.std.specs.Prelude.{◌≡◌, ◌<◌, ◌&&◌, not, is_some, nat_lt, nat_le, length, min, IfSome, true, position, ◌==◌};
ghost use Rattle.std.specs.Char.{is_ascii_digit};
ghost use Rattle.std.specs.List.{list_any};
ghost use Rattle.std.specs.Str.Parse.{digits_value, starts_with_minus, without_leading_sign};
ghost use Rattle.micron_decimals.specs.Decimals.{are_digits as digits_alone, micron_of, plain_of, is_point};
ghost use Rattle.ngc_meaning.specs.Numbers.{coordinate_of, small_number as small_number_of};

use micron_decimals::read_micron;
use nest_base::CODE_RANGE;

/// Numbers from here on have no meaning behind G or M.
const SMALL: u8 = 100;

/// A coordinate that a word tells, in micrometres, or that it lies beyond the range of places in code.
#[derive(Clone, Copy, Debug, PartialEq, Eq, Drop)]
pub enum Coordinate {
    At(i64),
    TooFar,
}

impl Coordinate {
    /// The coordinate that a number in millimetres is.
    pub fn read(number: &[u8]) -> Coordinate
        ensures { result ≡ coordinate_of (micron_of number.now) }
    {
        match read_micron(number, CODE_RANGE) {
            Ok(n) => Coordinate::At(n),
            Err(_) => Coordinate::TooFar,
        }
    }
}

/// Whether all bytes are digits.
fn are_digits(text: &[u8]) -> bool
    ensures { result ≡ digits_alone text.now }
{
    text.iter().all(|byte| byte.is_ascii_digit())
}

/// The number that these digits write, up to `SMALL`.
fn value(digits: &[u8]) -> u8
    requires { digits_alone digits.now ≡ true }
    ensures { result ≡ min (digits_value 10 digits.now) 100 }
{
    let mut value: u8 = 0;
    for digit in digits {
        value = (10 * u16::from(value) + u16::from(*digit - b'0')).min(u16::from(SMALL)) as u8;
    }
    value
}

/// The number that digits alone write, where it's below 100; `None` for any other text.
pub fn small_number(text: &[u8]) -> Option<u8>
    ensures { result ≡ small_number_of text.now }
{
    if text.is_empty() {
        return None;
    }
    if !are_digits(text) {
        return None;
    }
    let value = value(text);
    if value < SMALL { Some(value) } else { None }
}

/// Whether the text is 1 to 5 digits.
pub fn is_short(text: &[u8]) -> bool
    ensures { result ≡ (nat_lt 0 (length text.now) && nat_le (length text.now) 5 && digits_alone text.now) }
{
    if text.is_empty() {
        return false;
    }
    if text.len() > 5 {
        return false;
    }
    are_digits(text)
}

/// Whether a digit other than 0 stands in the text.
fn has_value(text: &[u8]) -> bool
    ensures { result ≡ list_any (λ b. is_ascii_digit b && not (b == 48)) text.now }
{
    text.iter()
        .any(|byte| byte.is_ascii_digit() && *byte != b'0')
}

/// Whether the number has a minus, and a digit other than 0.
pub fn is_negative(text: &[u8]) -> bool
    ensures { result ≡ (starts_with_minus text.now && list_any (λ b. is_ascii_digit b && not (b == 48)) text.now) }
{
    match text {
        [b'-', ..] => has_value(text),
        _ => false,
    }
}

/// The place of the first point.
fn point(text: &[u8]) -> Option<usize>
    ensures place { result ≡ position is_point text.now }
    ensures within { IfSome result (λ i. i < length text.now) }
{
    text.iter().position(|byte| *byte == b'.')
}

/// The text without one sign at its beginning.
fn without_sign(text: &[u8]) -> &[u8]
    ensures { result.now ≡ without_leading_sign text.now }
{
    match text {
        [b'+' | b'-', rest @ ..] => rest,
        _ => text,
    }
}

/// Whether the text is an optional sign and digits, at most one point and at least one digit among them.
pub fn is_plain(text: &[u8]) -> bool
    ensures { result ≡ is_some (plain_of text.now) }
{
    let rest = without_sign(text);
    let (whole, part) = match point(rest) {
        Some(i) => (&rest[..i], &rest[i + 1..]),
        None => (rest, &rest[rest.len()..]),
    };
    if whole.is_empty() && part.is_empty() {
        return false;
    }
    if !are_digits(whole) {
        return false;
    }
    are_digits(part)
}
