//! Decimals, taken apart into their sign, digits and exponent.
ghost use Rattle.std.specs.Prelude.{◌≡◌, ◌≤◌, ◌<◌, IfSome, length, drop, position, slice_index, pos, ◌≤ℤ◌, unsigned_abs};
ghost use Rattle.std.specs.List.{before_first, after_first, list_all};
ghost use Rattle.std.specs.Option.{option_map};
ghost use Rattle.micron_decimals.specs.Decimals.{is_point, is_exponent_mark, plain_of, with_power, power_of, decimal_of, nearest_micron, is_exactly as is_number, Decimal as Parts};
ghost use Rattle.micron_decimals.specs.Places.{far, capped, clamped, digits_of, front_value, is_zero, point_place, rounded_at, rounds_up, with_clamped_power};

use crate::digits::{FAR, are_digits, are_zeros, cut, is_half, number, with_zeros};
use crate::numeral::{numeral, signed, split_sign};
use nest_base::trim::trimmed;
use std::marker::Model;

/// A decimal: its sign, the digits before and after the point, and its exponent, up to `FAR` either way from 0.
#[derive(Drop)]
pub struct Decimal<'a> {
    negative: bool,
    whole: &'a [u8],
    part: &'a [u8],
    power: i128,
}

impl<'a> Model for Decimal<'a> {
    ghost use Rattle.micron_decimals.specs.Decimals.{Decimal as Parts};
    ghost use Rattle.micron_decimals.specs.Places.{IsReadable};

    ghost Value = { Parts };

    ghost view = { λ d. record { negative = d.negative; whole = d.whole.now; part = d.part.now; power = d.power } };

    ghost invariant = { λ d. IsReadable (record { negative = d.negative; whole = d.whole.now; part = d.part.now; power = d.power }) };
}

/// The place of the first point.
fn point(text: &[u8]) -> Option<usize>
    ensures place { result ≡ position is_point text.now }
    ensures within { IfSome result (λ i. i < length text.now) }
{
    text.iter().position(|byte| *byte == b'.')
}

/// The place of the first `e` or `E`.
fn mark(text: &[u8]) -> Option<usize>
    ensures place { result ≡ position is_exponent_mark text.now }
    ensures within { IfSome result (λ i. i < length text.now) }
{
    text.iter().position(|byte| *byte == b'e' || *byte == b'E')
}

/// The text before the first point, and the text behind it.
fn cut_at_point(text: &[u8]) -> (&[u8], &[u8])
    ensures whole { result.0.now ≡ before_first is_point text.now }
    ensures part { result.1.now ≡ after_first is_point text.now }
{
    match point(text) {
        Some(i) => (&text[..i], &text[i + 1..]),
        None => (text, &text[text.len()..]),
    }
}

/// The text before the first `e` or `E`.
fn before_mark(text: &[u8]) -> &[u8]
    ensures { result.now ≡ before_first is_exponent_mark text.now }
{
    match mark(text) {
        Some(i) => &text[..i],
        None => text,
    }
}

/// The exponent behind the first `e` or `E`, or 0 where there is none.
fn power(text: &[u8]) -> Option<i128>
    ensures { result ≡ option_map clamped (power_of text.now) }
{
    match mark(text) {
        Some(i) => numeral(&text[i + 1..]),
        None => Some(0),
    }
}

impl<'a> Decimal<'a> {
    /// The decimal that a text is with this exponent, where it has none of its own.
    fn plain(text: &'a [u8], power: i128) -> Option<Decimal<'a>>
        requires { unsigned_abs power ≤ far }
        ensures { result ≡ with_power (plain_of text.now) power }
    {
        let (negative, rest) = split_sign(text);
        let (whole, part) = cut_at_point(rest);
        if whole.is_empty() && part.is_empty() {
            return None;
        }
        if !are_digits(whole) {
            return None;
        }
        if !are_digits(part) {
            return None;
        }
        Some(Decimal {
            negative,
            whole,
            part,
            power,
        })
    }

    /// The decimal that a text is, without blanks and tabs at both ends; `None` where it isn't in the grammar.
    pub fn read(text: &'a [u8]) -> Option<Decimal<'a>>
        ensures { result ≡ option_map with_clamped_power (decimal_of text.now) }
    {
        let text = trimmed(text);
        let power = power(text)?;
        Decimal::plain(before_mark(text), power)
    }

    /// How many of the digits stand before the point of ten to the power `shift` times the value.
    fn place(&self, shift: i128) -> i128
        requires low { pos 0 ≤ℤ shift }
        requires high { shift ≤ℤ pos 9 }
        ensures { result ≡ point_place self.now shift }
    {
        self.whole.len() as i128 + self.power + shift
    }

    /// The digits before this place as a whole number up to `FAR`, with zeros where the digits end.
    fn front(&self, place: u128) -> u128
        ensures { result ≡ capped (front_value place (digits_of self.now)) }
    {
        let (whole, _) = cut(self.whole, place);
        let behind = place.saturating_sub(self.whole.len() as u128);
        let (part, _) = cut(self.part, behind);
        let zeros = behind.saturating_sub(self.part.len() as u128);
        with_zeros(number(number(0, whole), part), zeros)
    }

    /// Whether the digit at this place is 5 or more.
    fn is_half_at(&self, place: u128) -> bool
        ensures { result ≡ rounds_up (slice_index (digits_of self.now) place) }
    {
        let (_, whole) = cut(self.whole, place);
        if !whole.is_empty() {
            return is_half(whole);
        }
        let (_, part) = cut(self.part, place.saturating_sub(self.whole.len() as u128));
        is_half(part)
    }

    /// Whether no digit from this place on is other than 0.
    fn ends_before(&self, place: u128) -> bool
        ensures { result ≡ list_all is_zero (drop place (digits_of self.now)) }
    {
        let (_, whole) = cut(self.whole, place);
        if !are_zeros(whole) {
            return false;
        }
        let (_, part) = cut(self.part, place.saturating_sub(self.whole.len() as u128));
        are_zeros(part)
    }

    /// The size of the whole micrometre that is nearest to the value in millimetres, up to `FAR`.
    fn micron_size(&self) -> u128
        ensures { result ≡ capped (rounded_at (point_place self.now (pos 3)) (digits_of self.now)) }
    {
        let place = self.place(3);
        if place < 0 {
            return 0;
        }
        let place = place as u128;
        let front = self.front(place);
        if self.is_half_at(place) {
            (front + 1).min(FAR)
        } else {
            front
        }
    }

    /// The whole micrometre that is nearest to the value in millimetres, of two the one further from zero, up to `FAR` either
    /// way from 0.
    pub fn micron(&self) -> i128
        ensures { (d : Parts) → with_clamped_power d ≡ self.now → result ≡ clamped (nearest_micron d) }
    {
        signed(self.negative, self.micron_size())
    }

    /// Whether the value is exactly this whole number.
    pub fn is_exactly(&self, whole: i64) -> bool
        requires { unsigned_abs whole < far }
        ensures { (d : Parts) → with_clamped_power d ≡ self.now → result ≡ is_number d whole }
    {
        let place = self.place(0).max(0) as u128;
        if signed(self.negative, self.front(place)) != i128::from(whole) {
            return false;
        }
        self.ends_before(place)
    }
}
