//! Group codes.
ghost use Rattle.std.specs.Prelude.{◌≡◌, ◌<◌, ◌≤◌, ◌^◌, ◌&&◌, nat_lt, nat_le, if◌then◌else◌, length, Some, None, IsTrue, pos};
ghost use Rattle.std.specs.Char.{is_ascii_digit};
ghost use Rattle.std.specs.List.{list_all};
ghost use Rattle.std.specs.Str.Parse.{digits_value};
ghost use Rattle.dxf_groups.specs.Pairs.{code_of, code_in};

use nest_base::trimmed;

/// The most digits of a group code.
const DIGITS: usize = 4;

/// Whether all bytes are digits.
fn are_digits(text: &[u8]) -> bool
    ensures { result ≡ list_all is_ascii_digit text.now }
{
    text.iter().all(|byte| byte.is_ascii_digit())
}

/// The number that these digits write.
fn number(digits: &[u8]) -> u16
    requires short { length digits.now ≤ 4 }
    requires digits { IsTrue (list_all is_ascii_digit digits.now) }
    ensures value { result ≡ digits_value 10 digits.now }
    ensures small { result < 10 ^ 4 }
{
    let mut value = 0;
    for digit in digits {
        value = 10 * value + u16::from(*digit - b'0');
    }
    value
}

/// The number that 1 to 4 digits write; `None` for any other text.
fn short_number(digits: &[u8]) -> Option<i32>
    ensures { result ≡ code_in digits.now }
{
    if digits.is_empty() || digits.len() > DIGITS {
        return None;
    }
    if !are_digits(digits) {
        return None;
    }
    Some(i32::from(number(digits)))
}

#[tactic(auto, unfolding(crate::specs::Pairs::code_of))]
/// The group code that a line is: an optional `-` and 1 to 4 digits, with blanks and tabs at both ends; `None` for any other line.
pub fn group_code(line: &[u8]) -> Option<i32>
    ensures { result ≡ code_of line.now }
{
    match trimmed(line) {
        [b'-', digits @ ..] => {
            let value = short_number(digits)?;
            Some(-value)
        }
        digits => short_number(digits),
    }
}
