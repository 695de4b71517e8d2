//! Digits as whole numbers, up to a number that lies beyond all that matter.
ghost use Rattle.std.specs.Prelude.{◌≡◌, ◌≤◌, ◌*◌, ◌^◌, IsTrue, take, drop, slice_index};
ghost use Rattle.std.specs.List.{list_all};
ghost use Rattle.std.specs.Str.Parse.{digits_value_after};
ghost use Rattle.micron_decimals.specs.Decimals.{are_digits as digits_alone};
ghost use Rattle.micron_decimals.specs.Places.{far, capped, is_zero, rounds_up};

/// Numbers from here on are all taken for this one: it lies beyond every limit, and no text has as many bytes.
pub const FAR: u128 = 100_000_000_000_000_000_000;

/// How many zeros behind a digit other than 0 make a number that is at least `FAR`.
const ZEROS: u128 = 20;

/// Whether all bytes are digits.
pub fn are_digits(text: &[u8]) -> bool
    ensures { result ≡ digits_alone text.now }
{
    text.iter().all(|byte| byte.is_ascii_digit())
}

/// Whether all bytes are the digit 0.
pub fn are_zeros(text: &[u8]) -> bool
    ensures { result ≡ list_all is_zero text.now }
{
    text.iter().all(|byte| *byte == b'0')
}

/// Whether the first digit is 5 or more.
pub fn is_half(digits: &[u8]) -> bool
    ensures { result ≡ rounds_up (slice_index digits.now 0) }
{
    matches!(digits, [first, ..] if *first >= b'5')
}

/// The number that these digits write behind those of `before`, up to `FAR`.
pub fn number(before: u128, digits: &[u8]) -> u128
    requires before { before ≤ far }
    requires digits { IsTrue (digits_alone digits.now) }
    ensures { result ≡ capped (digits_value_after 10 before digits.now) }
{
    let mut value = before;
    for digit in digits {
        value = (10 * value + u128::from(*digit - b'0')).min(FAR);
    }
    value
}

/// The number with this many zeros written behind it, up to `FAR`.
pub fn with_zeros(number: u128, zeros: u128) -> u128
    requires { number ≤ far }
    ensures { result ≡ capped (number * 10 ^ zeros) }
{
    let mut value = number;
    for done in 0..zeros.min(ZEROS) {
        value = (10 * value).min(FAR);
    }
    value
}

/// The digits before this place, and the others.
pub fn cut(digits: &[u8], place: u128) -> (&[u8], &[u8])
    ensures front { result.0.now ≡ take place digits.now }
    ensures behind { result.1.now ≡ drop place digits.now }
{
    digits.split_at(place.min(digits.len() as u128) as usize)
}
