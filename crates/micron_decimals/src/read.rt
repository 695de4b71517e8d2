//! Numbers, read from text.
ghost use Rattle.std.specs.Prelude.{◌≡◌, ◌≤◌, ◌<◌, ◌↔◌, Some, None, IfOk, pos, negsuc, ℤ, ◌≤ℤ◌, unsigned_abs, ok_or};
ghost use Rattle.std.specs.Option.{option_map};
ghost use Rattle.nest_base.specs.Range.{widest};
ghost use Rattle.micron_decimals.specs.Decimals.{decimal_of, micron_of, equals_of, integer_of, micron_text, IsMicron, IsMicronBeyond};
ghost use Rattle.micron_decimals.specs.Places.{clamped};

use crate::decimal::Decimal;
use crate::numeral::{numeral, split_sign};
use nest_base::trim::trimmed;
use thiserror::Error;

/// Why a text wasn't read as a number.
#[derive(Clone, Copy, Debug, PartialEq, Eq, Drop, Error)]
pub enum NumberError {
    #[error("the text isn't a number")]
    NotANumber,
    #[error("the number is too far from zero")]
    TooFar,
}

/// The whole micrometre nearest to a text in millimetres, up to `FAR` either way from 0; `None` where it isn't a decimal.
fn micron(text: &[u8]) -> Option<i128>
    ensures { result ≡ option_map clamped (micron_of text.now) }
{
    let decimal = Decimal::read(text)?;
    Some(decimal.micron())
}

/// The whole micrometre that is nearest to a decimal in millimetres, of two the one further from zero.
///
/// A decimal has an optional `+` or `-`, digits with at most one point and at least one digit among them, and optionally
/// `e` or `E`, an optional sign and at least one digit. Blanks and tabs at both ends are dropped first.
///
/// `NotANumber` comes exactly where the text is anything else, and `TooFar` exactly where it's a decimal whose nearest
/// micrometre lies beyond plus and minus `limit`. No memory is taken.
pub fn read_micron(text: &[u8], limit: i64) -> Result<i64, NumberError>
    requires low { pos 0 ≤ℤ limit }
    requires high { limit ≤ℤ pos widest }

    ensures nearest { IfOk result (λ n. IsMicron text.now n) }
    ensures within { IfOk result (λ n. unsigned_abs n ≤ unsigned_abs limit) }
    ensures not_a_number { (result ≡ Err NumberError.NotANumber) ↔ (decimal_of text.now ≡ None) }
    ensures too_far { (result ≡ Err NumberError.TooFar) ↔ IsMicronBeyond text.now limit }

    // The same number by a division, and what was written is read again.
    ensures computed { IfOk result (λ n. micron_of text.now ≡ Some n) }
    ensures written { (n : ℤ) → unsigned_abs n ≤ unsigned_abs limit → text.now ≡ micron_text n → result ≡ Ok n }
{
    let Some(n) = micron(text) else {
        return Err(NumberError::NotANumber);
    };
    if n.unsigned_abs() > u128::from(limit.unsigned_abs()) {
        return Err(NumberError::TooFar);
    }
    Ok(n as i64)
}

/// Whether a decimal, as `read_micron` reads it, is exactly this whole number.
///
/// `NotANumber` comes exactly where the text isn't a decimal, and `TooFar` never. No memory is taken.
pub fn read_equals(text: &[u8], whole: i64) -> Result<bool, NumberError>
    requires low { negsuc 999 ≤ℤ whole }
    requires high { whole ≤ℤ pos 1000 }
    ensures { result ≡ ok_or (equals_of text.now whole) NumberError.NotANumber }
{
    let Some(decimal) = Decimal::read(text) else {
        return Err(NumberError::NotANumber);
    };
    Ok(decimal.is_exactly(whole))
}

/// The whole number that an optional sign and 1 to 9 digits write. Blanks and tabs at both ends are dropped first.
///
/// `NotANumber` comes exactly where the text is anything else, and `TooFar` never. No memory is taken.
pub fn read_integer(text: &[u8]) -> Result<i64, NumberError>
    ensures { result ≡ ok_or (integer_of text.now) NumberError.NotANumber }
{
    let text = trimmed(text);
    let (_, digits) = split_sign(text);
    if digits.len() > 9 {
        return Err(NumberError::NotANumber);
    }
    let Some(n) = numeral(text) else {
        return Err(NumberError::NotANumber);
    };
    Ok(n as i64)
}
