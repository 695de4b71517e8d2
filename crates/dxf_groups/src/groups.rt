//! The reader of pairs that takes one byte after the other.
ghost use Rattle.std.specs.Prelude.{◌≡◌, ◌<◌, ◌≤◌, ◌+◌, ◌^◌, ◌&&◌, nat_eq, ℕ, List, [], ◌∷◌, ◌++◌, length, Some, None, IfOk, IsTrue, if◌then◌else◌, is_some};
ghost use Rattle.std.specs.Str.Lines.{strip_carriage_return};
ghost use Rattle.nest_base.specs.Limits.{most_bytes};
ghost use Rattle.dxf_groups.specs.Pairs.{fault_of, at_the_end};
ghost use Rattle.dxf_groups.specs.Steps.{line_behind, pair_of, number_of, IsReadyAt, goes_on, last_reading, stop_of_end, gives_pair};
ghost use Rattle.dxf_groups.specs.Taking.{GroupsAt, EndedAt, found_at, found_at_end, found_last, found_at_stop, pair_or, value_of, is_open, stop_with};

use crate::answers::{Found, GroupError, Stop};
use crate::line::Line;
use crate::step::{self, read_line};
use nest_base::OutOfMemory;
use std::alloc::Global;
use std::marker::Model;

/// The bytes with which a binary drawing begins.
const BINARY_HEAD: &[u8] = b"AutoCAD Binary DXF";

/// The reader of pairs, as far as it has come.
#[derive(Drop)]
pub struct Groups {
    taken: u32,
    stop: Stop,
    /// The bytes of the unended line; or the value of the pair that the last call gave.
    line: Line,
    /// Whether the last call gave a pair.
    has_value: bool,
    /// Of the last call of `end`.
    answer: Option<Found>,
    /// How many bytes at the front are those of a binary drawing.
    matched: usize,
}

impl Model for Groups {
    ghost use Rattle.std.specs.Prelude.{◌≤◌, ◌^◌, ◌+◌, Some, None, [], length, if◌then◌else◌};
    ghost use Rattle.nest_base.specs.Limits.{most_bytes};
    ghost use Rattle.dxf_groups.specs.Taking.{Progress};
    ghost use Rattle.dxf_groups.specs.Steps.{number_of};

    ghost Value = { Progress };

    ghost view = { λ g. record { taken = g.taken; stop = g.stop; value = if g.has_value then Some g.line else None; answer = g.answer; matched = g.matched; line = if g.has_value then [] else g.line } };

    ghost invariant = { λ g. (g.taken ≤ most_bytes) × (length (if g.has_value then [] else g.line) + number_of g.stop ≤ g.taken + 1) × (g.matched ≤ g.taken) };
}

impl Groups {
    #[tactic(auto, unfolding(crate::specs::Taking::reading_so_far))]
    /// A reader that has taken no byte. It takes memory for the longest line, and no call takes more.
    pub fn new(alloc: Global) -> Result<Groups, OutOfMemory>
        ensures { IfOk result (λ groups. GroupsAt groups []) }
    {
        let line = Line::new(alloc)?;
        Ok(Groups {
            taken: 0,
            stop: Stop::BeforeCode(1),
            line,
            has_value: false,
            answer: None,
            matched: 0,
        })
    }

    /// Takes the next byte, and tells what it completed.
    pub fn take(&mut self, byte: u8) -> Found
        requires few { self.old.taken < most_bytes }
        requires not_ended { self.old.answer ≡ None }
        ensures at { (bytes : List ℕ) → GroupsAt self.old bytes → GroupsAt self.new (bytes ++ byte ∷ []) }
        ensures found { (bytes : List ℕ) → GroupsAt self.old bytes → result ≡ found_at (bytes ++ byte ∷ []) }
        ensures counted { self.new.taken ≡ self.old.taken + 1 }
        ensures not_ended { self.new.answer ≡ None }
        ensures value { is_some self.new.value ≡ gives_pair result }
    {
        self.drop_value();
        self.taken += 1;
        match self.stop {
            Stop::AtEof => Found::Done,
            Stop::AtFault(_) => Found::Refused,
            Stop::BeforeCode(line) => self.take_open(line, byte),
            Stop::BeforeValue { line, .. } => self.take_open(line, byte),
        }
    }

    /// Tells that the input has ended, and what its end completes.
    pub fn end(&mut self) -> Found
        ensures at { (bytes : List ℕ) → GroupsAt self.old bytes → EndedAt self.new bytes }
        ensures found { (bytes : List ℕ) → GroupsAt self.old bytes → result ≡ found_at_end bytes }
        ensures at_again { (bytes : List ℕ) → EndedAt self.old bytes → EndedAt self.new bytes }
        ensures found_again { (bytes : List ℕ) → EndedAt self.old bytes → result ≡ found_last bytes }
        ensures answered { self.new.answer ≡ Some result }
        ensures value { is_some self.new.value ≡ gives_pair result }
    {
        self.drop_value();
        let found = self.take_end();
        self.answer = Some(found);
        found
    }

    /// The value of the pair that the last call gave.
    pub fn value(&self) -> &[u8]
        requires { IsTrue (is_some self.now.value) }
        ensures { self.now.value ≡ Some result.now }
    {
        self.line.as_slice()
    }

    /// Why the lines aren't pairs, once that is known.
    pub fn fault(&self) -> Option<GroupError>
        ensures { result ≡ fault_of self.now.stop }
    {
        match self.stop {
            Stop::AtFault(fault) => Some(fault),
            _ => None,
        }
    }

    /// Drops the value of the pair that the call before gave.
    fn drop_value(&mut self)
        ensures { self.new ≡ record self.old { value = None } }
    {
        if self.has_value {
            self.line.clear();
            self.has_value = false;
        }
    }

    /// Takes a byte, counted already, of the line with this number.
    fn take_open(&mut self, line: u32, byte: u8) -> Found
        requires line { line ≡ number_of self.old.stop }
        requires open { IsTrue (is_open self.old.stop) }
        requires short { length self.old.line + line ≤ self.old.taken }
        requires no_value { self.old.value ≡ None }
        requires not_ended { self.old.answer ≡ None }
        ensures at { (bytes : List ℕ) → IsReadyAt self.old bytes → GroupsAt self.new (bytes ++ byte ∷ []) }
        ensures found { (bytes : List ℕ) → IsReadyAt self.old bytes → result ≡ found_at (bytes ++ byte ∷ []) }
        ensures counted { self.new.taken ≡ self.old.taken }
        ensures not_ended { self.new.answer ≡ None }
        ensures value { is_some self.new.value ≡ gives_pair result }
    {
        if self.completes_head(byte) {
            return self.refuse(GroupError::Binary);
        }
        if byte == b'\n' {
            return self.end_line();
        }
        self.lengthen(line, byte)
    }

    /// Takes the line, which ends here.
    // Kept out of `take_open`, so that the many other bytes pay nothing for it.
    #[inline(never)]
    fn end_line(&mut self) -> Found
        requires no_value { self.old.value ≡ None }
        requires short { number_of self.old.stop ≤ self.old.taken }
        ensures stop { self.new.stop ≡ (line_behind self.old.stop (strip_carriage_return self.old.line)).stop }
        ensures value { self.new.value ≡ value_of (pair_of (line_behind self.old.stop (strip_carriage_return self.old.line))) }
        ensures found { result ≡ pair_or (pair_of (line_behind self.old.stop (strip_carriage_return self.old.line))) (found_at_stop self.new.stop) }
        ensures rest { self.new ≡ record self.old { stop = self.new.stop; value = self.new.value; line = [] } }
    {
        self.line.strip();
        self.take_line()
    }

    /// Adds a byte to the line with this number.
    fn lengthen(&mut self, line: u32, byte: u8) -> Found
        requires line { line ≡ number_of self.old.stop }
        requires open { IsTrue (is_open self.old.stop) }
        requires short { length self.old.line + line ≤ self.old.taken }
        requires no_value { self.old.value ≡ None }
        ensures stop { self.new.stop ≡ stop_with (self.old.line ++ byte ∷ []) self.old.stop }
        ensures line { IsTrue (is_open self.new.stop) → self.new.line ≡ self.old.line ++ byte ∷ [] }
        ensures rest { self.new ≡ record self.old { stop = self.new.stop; line = self.new.line } }
        ensures found { result ≡ found_at_stop self.new.stop }
    {
        if !self.line.push(byte) {
            return self.refuse(GroupError::LineTooLong(line));
        }
        Found::More
    }

    /// Counts a byte that goes on with the front of a binary drawing, and answers whether it completes this front.
    fn completes_head(&mut self, byte: u8) -> bool
        ensures counted { self.new ≡ record self.old { matched = if goes_on self.old byte then self.old.matched + 1 else self.old.matched } }
        ensures completes { result ≡ (goes_on self.old byte && nat_eq self.new.matched 18) }
    {
        if self.matched + 1 != self.taken as usize || self.matched >= BINARY_HEAD.len() {
            return false;
        }
        if BINARY_HEAD[self.matched] != byte {
            return false;
        }
        self.matched += 1;
        self.matched == BINARY_HEAD.len()
    }

    /// Takes the line as it stands, without its end.
    fn take_line(&mut self) -> Found
        requires no_value { self.old.value ≡ None }
        requires short { number_of self.old.stop ≤ self.old.taken }
        ensures stop { self.new.stop ≡ (line_behind self.old.stop self.old.line).stop }
        ensures value { self.new.value ≡ value_of (pair_of (line_behind self.old.stop self.old.line)) }
        ensures found { result ≡ pair_or (pair_of (line_behind self.old.stop self.old.line)) (found_at_stop self.new.stop) }
        ensures rest { self.new ≡ record self.old { stop = self.new.stop; value = self.new.value; line = [] } }
    {
        let next = read_line(self.stop, self.line.as_slice());
        self.stop = next.stop;
        if matches!(next.found, Found::Pair { .. }) {
            self.has_value = true;
        } else {
            self.line.clear();
        }
        next.found
    }

    /// Takes the end of the input.
    fn take_end(&mut self) -> Found
        requires no_value { self.old.value ≡ None }
        ensures stop { self.new.stop ≡ stop_of_end (pair_of (last_reading self.old)) ((last_reading self.old).stop) }
        ensures value { self.new.value ≡ value_of (pair_of (last_reading self.old)) }
        ensures found { result ≡ pair_or (pair_of (last_reading self.old)) (found_at_stop self.new.stop) }
    {
        let found = self.take_last_line();
        if matches!(found, Found::Pair { .. }) {
            return found;
        }
        self.settle()
    }

    /// Takes the unended line, where there is one and this is the first call of `end`.
    fn take_last_line(&mut self) -> Found
        requires no_value { self.old.value ≡ None }
        ensures stop { self.new.stop ≡ (last_reading self.old).stop }
        ensures value { self.new.value ≡ value_of (pair_of (last_reading self.old)) }
        ensures found { result ≡ pair_or (pair_of (last_reading self.old)) (found_at_stop self.new.stop) }
    {
        if self.answer.is_some() || self.line.is_empty() {
            return step::found_at(self.stop);
        }
        self.take_line()
    }

    /// Refuses the drawing where its lines stop before `0 EOF`.
    fn settle(&mut self) -> Found
        ensures stop { self.new ≡ record self.old { stop = at_the_end self.old.stop } }
        ensures found { result ≡ found_at_stop self.new.stop }
    {
        match self.stop {
            Stop::BeforeCode(line) => self.refuse(GroupError::Truncated(line)),
            Stop::BeforeValue { line, .. } => self.refuse(GroupError::Truncated(line)),
            closed => step::found_at(closed),
        }
    }

    /// Refuses the drawing.
    fn refuse(&mut self, fault: GroupError) -> Found
        ensures stop { self.new ≡ record self.old { stop = Stop.AtFault fault } }
        ensures found { result ≡ Found.Refused }
    {
        self.stop = Stop::AtFault(fault);
        Found::Refused
    }
}
