//! The words of a line, by what they say together.
ghost use Rattle.std.specs.Prelude.{◌≡◌, ◌≤◌, ◌<◌, IsTrue, IfSome, [], length, position};
ghost use Rattle.std.specs.Char.{is_ascii_alphabetic};
ghost use Rattle.std.specs.List.{position_or_len};
ghost use Rattle.code_moves.specs.Words.{Word};
ghost use Rattle.ngc_meaning.specs.Blocks.{Says, fits_g, with_g, fits_m, with_m, fits_in, with_word};
ghost use Rattle.ngc_meaning.specs.Contents.{IsTextRead};

use crate::number::{Coordinate, is_negative, is_plain, is_short, small_number};
use std::mem::replace;

/// What the words of a line say together.
#[derive(Drop)]
pub struct Block {
    /// No word has come.
    pub is_empty: bool,
    /// G0 or G1.
    pub motion: bool,
    /// G4, and its time P.
    pub dwell: bool,
    pub time: bool,
    /// G21.
    pub unit: bool,
    /// G90 (`true`) or G91.
    pub absolute: Option<bool>,
    /// M3 (`true`) or M5.
    pub lit: Option<bool>,
    /// M2 or M30.
    pub ending: bool,
    /// F and S.
    pub feed: bool,
    pub speed: bool,
    /// X and Y.
    pub x: Option<Coordinate>,
    pub y: Option<Coordinate>,
    /// A word without a meaning.
    pub unknown: bool,
}

impl Block {
    /// The block of no word.
    pub fn new() -> Block
        ensures { Says [] result }
    {
        Block {
            is_empty: true,
            motion: false,
            dwell: false,
            time: false,
            unit: false,
            absolute: None,
            lit: None,
            ending: false,
            feed: false,
            speed: false,
            x: None,
            y: None,
            unknown: false,
        }
    }

    /// Adds a G with this number, and answers whether it fits.
    fn put_g(&mut self, number: Option<u8>) -> bool
        ensures fits { result ≡ fits_g self.old number }
        ensures put { IsTrue result → self.new ≡ with_g self.old number }
    {
        match number {
            Some(0 | 1) => !replace(&mut self.motion, true),
            Some(4) => !replace(&mut self.dwell, true),
            Some(21) => !replace(&mut self.unit, true),
            Some(90) => replace(&mut self.absolute, Some(true)).is_none(),
            Some(91) => replace(&mut self.absolute, Some(false)).is_none(),
            Some(17 | 40 | 49 | 94) => true,
            _ => {
                self.unknown = true;
                true
            }
        }
    }

    /// Adds an M with this number, and answers whether it fits.
    fn put_m(&mut self, number: Option<u8>) -> bool
        ensures fits { result ≡ fits_m self.old number }
        ensures put { IsTrue result → self.new ≡ with_m self.old number }
    {
        match number {
            Some(3) => replace(&mut self.lit, Some(true)).is_none(),
            Some(5) => replace(&mut self.lit, Some(false)).is_none(),
            Some(2 | 30) => !replace(&mut self.ending, true),
            _ => {
                self.unknown = true;
                true
            }
        }
    }

    /// Adds a word with this letter, in upper case, and this number, and answers whether it fits.
    fn put(&mut self, letter: u8, number: &[u8]) -> bool
        ensures fits { result ≡ fits_in self.old (record { letter = letter; number = number.now }) }
        ensures put { IsTrue result → self.new ≡ with_word self.old (record { letter = letter; number = number.now }) }
    {
        let is_first = replace(&mut self.is_empty, false);
        match letter {
            b'G' => self.put_g(small_number(number)),
            b'M' => self.put_m(small_number(number)),
            b'N' => is_first & is_short(number),
            b'F' => !replace(&mut self.feed, true) & !is_negative(number),
            b'S' => !replace(&mut self.speed, true) & !is_negative(number),
            b'P' => !replace(&mut self.time, true) & !is_negative(number),
            b'X' => replace(&mut self.x, Some(Coordinate::read(number))).is_none(),
            b'Y' => replace(&mut self.y, Some(Coordinate::read(number))).is_none(),
            _ => {
                self.unknown = true;
                true
            }
        }
    }

    /// What the words of a text say together, without comments and blanks; `None` where it's no list of words, or they contradict
    /// one another.
    pub fn read(text: &[u8]) -> Option<Block>
        ensures { IsTextRead text.now result }
    {
        let mut block = Block::new();
        let mut rest = text;
        'words: loop {
            let [letter, behind @ ..] = rest else {
                return Some(block);
            };
            if !letter.is_ascii_alphabetic() {
                return None;
            }
            let (number, next) = behind.split_at(next_letter(behind));
            if !is_plain(number) {
                return None;
            }
            if !block.put(letter.to_ascii_uppercase(), number) {
                return None;
            }
            rest = next;
        }
    }
}

/// The place of the first letter.
fn first_letter(text: &[u8]) -> Option<usize>
    ensures place { result ≡ position is_ascii_alphabetic text.now }
    ensures within { IfSome result (λ i. i < length text.now) }
{
    text.iter().position(|byte| byte.is_ascii_alphabetic())
}

/// The place of the first letter, or of the end where there is none.
fn next_letter(text: &[u8]) -> usize
    ensures place { result ≡ position_or_len is_ascii_alphabetic text.now }
    ensures within { result ≤ length text.now }
{
    match first_letter(text) {
        Some(place) => place,
        None => text.len(),
    }
}
