//! The machine that code moves.
ghost use Rattle.std.specs.Prelude.{◌≡◌, ◌≢◌, ◌<◌, ◌^◌, ◌+◌, not, ◌&&◌, ◌∷◌, [], IsTrue, Some, None, unwrap_or, IfSome, IsSome, List, false, if◌then◌else◌};
ghost use Rattle.nest_base.specs.Range.{IsWithin, IsNear};
ghost use Rattle.nest_base.specs.Order.{is_place};
ghost use Rattle.code_moves.specs.Words.{Content, Mark, Words, content_of, Word};
ghost use Rattle.code_moves.specs.History.{place_after};
ghost use Rattle.code_moves.specs.Meaning.{code_range, is_near as is_near_origin, content_or_empty, line_fault, closing_move};
ghost use Rattle.ngc_meaning.specs.Contents.{IsBlockOf};
ghost use Rattle.ngc_meaning.specs.Machines.{State, MachineAt, IsStep, IsTaken, listed, moved, closed, reached, target_of, state_behind, lawful_in, DoesNothing};

use crate::block::Block;
use crate::line::Line;
use crate::number::Coordinate;
use code_moves::{CodeFault, Move};
use nest_base::{CODE_RANGE, Point};
use std::marker::Model;

/// What one line does.
#[derive(Drop)]
pub struct Stepped {
    /// Its move, where the place changes.
    pub made: Option<Move>,
    /// The move on the spot of a lighting that the line ends before it burnt anything. It comes before `made`, where both are there.
    pub closing: Option<Move>,
    /// Whether the line ends the program.
    pub ended: bool,
    /// Why the line is refused; then there is no move, and no end.
    pub fault: Option<CodeFault>,
}

impl Stepped {
    fn refused(fault: CodeFault) -> Stepped
        ensures { result ≡ record { made = None; closing = None; ended = false; fault = Some fault } }
    {
        Stepped {
            made: None,
            closing: None,
            ended: false,
            fault: Some(fault),
        }
    }
}

/// A torch, as the lines of code so far left it. Places are in micrometres.
#[derive(Drop)]
pub struct Machine {
    place: Point,
    is_lit: bool,
    /// A G0 or G1 has come.
    has_motion: bool,
    is_absolute: bool,
    /// A lit move was made since the torch was lit.
    has_burnt: bool,
    /// A line that isn't empty has come.
    has_begun: bool,
    /// The first such line was `%` alone.
    is_marked: bool,
    /// How many lines were taken.
    lines: u32,
}

impl Model for Machine {
    ghost use Rattle.nest_base.specs.Range.{IsWithin};
    ghost use Rattle.code_moves.specs.Meaning.{code_range};
    ghost use Rattle.ngc_meaning.specs.Machines.{State};

    ghost Value = { State };

    ghost view = { λ m. record { place = m.place; is_lit = m.is_lit; has_motion = m.has_motion; is_absolute = m.is_absolute; has_burnt = m.has_burnt; has_begun = m.has_begun; is_marked = m.is_marked; lines = m.lines } };

    ghost invariant = { λ m. IsWithin code_range m.place };
}

/// Whether a coordinate lies within the range of places in code.
fn is_near(z: i64) -> bool
    ensures { result ≡ is_near_origin z }
{
    z.unsigned_abs() <= CODE_RANGE.unsigned_abs()
}

/// A coordinate within the range of places in code.
fn near(z: i64) -> Option<i64>
    ensures value { result ≡ (if is_near_origin z then Some z else None) }
    ensures near { IfSome result (λ n. IsNear code_range n) }
{
    if is_near(z) { Some(z) } else { None }
}

/// Where a coordinate leads from an old one, in absolute or relative places; `None` beyond the range of places in code.
fn coordinate(is_absolute: bool, old: i64, told: Option<Coordinate>) -> Option<i64>
    requires { IsNear code_range old }
    ensures value { result ≡ reached is_absolute old told }
    ensures near { IfSome result (λ z. IsNear code_range z) }
{
    match told {
        None => Some(old),
        Some(Coordinate::TooFar) => None,
        Some(Coordinate::At(n)) => {
            if is_absolute {
                near(n)
            } else {
                near(old.checked_add(n)?)
            }
        }
    }
}

impl Machine {
    /// A machine before the first line: at the origin, with the torch out, in absolute places.
    pub fn new() -> Machine
        ensures { MachineAt [] result }
    {
        Machine {
            place: Point { x: 0, y: 0 },
            is_lit: false,
            has_motion: false,
            is_absolute: true,
            has_burnt: false,
            has_begun: false,
            is_marked: false,
            lines: 0,
        }
    }

    /// How many lines it took.
    pub fn lines(&self) -> u32
        ensures { result ≡ self.now.lines }
    {
        self.lines
    }

    /// The move from here to the next state.
    fn made(&self, next: &Machine) -> Option<Move>
        requires { self.now.lines < 2 ^ 27 }
        ensures { listed result ≡ moved self.now next.now }
    {
        if next.place == self.place {
            return None;
        }
        Some(Move {
            from: self.place,
            to: next.place,
            lit: next.is_lit,
            fresh: next.is_lit & !self.has_burnt,
            line: self.lines + 1,
        })
    }

    /// A lit move on the spot, on the line with this number.
    fn spot(&self, line: u32) -> Move
        ensures { result ≡ closing_move self.now.place line }
    {
        Move {
            from: self.place,
            to: self.place,
            lit: true,
            fresh: true,
            line,
        }
    }

    /// The closing move from here to the next state: of a lighting that burnt nothing.
    fn closing(&self, next: &Machine, ends: bool) -> Option<Move>
        requires { self.now.lines < 2 ^ 27 }
        ensures { listed result ≡ closed self.now next.now ends }
    {
        let line = self.lines + 1;
        if self.is_lit & !next.is_lit & !self.has_burnt {
            return Some(self.spot(line));
        }
        if ends & next.is_lit & !next.has_burnt {
            return Some(next.spot(line));
        }
        None
    }

    /// Goes to the next state.
    fn advance(&mut self, next: Machine, ends: bool) -> Stepped
        requires { self.old.lines < 2 ^ 27 }
        ensures made { listed result.made ≡ moved self.old next }
        ensures closing { listed result.closing ≡ closed self.old next ends }
        ensures ended { result.ended ≡ ends }
        ensures fault { result.fault ≡ None }
        ensures next { self.new ≡ next }
    {
        let made = self.made(&next);
        let closing = self.closing(&next, ends);
        *self = next;
        Stepped {
            made,
            closing,
            ended: ends,
            fault: None,
        }
    }

    /// The state behind a line that is `%` alone.
    fn behind_mark(&self) -> Machine
        requires { self.now.lines < 2 ^ 27 }
        ensures { (earlier : List Content) → MachineAt earlier self.now → MachineAt (Mark ∷ earlier) result }
    {
        Machine {
            place: self.place,
            is_lit: self.is_lit,
            has_motion: self.has_motion,
            is_absolute: self.is_absolute,
            has_burnt: self.is_lit & self.has_burnt,
            has_begun: true,
            is_marked: self.is_marked | !self.has_begun,
            lines: self.lines + 1,
        }
    }

    /// Whether the words of a line, which don't contradict one another, are lawful here: a dwell has its time, no other line has one, and
    /// no X or Y comes before the first G0 or G1.
    fn is_lawful(&self, block: &Block) -> bool
        ensures { result ≡ lawful_in self.now block.now }
    {
        if block.dwell != block.time {
            return false;
        }
        if block.x.is_none() & block.y.is_none() {
            return true;
        }
        self.has_motion | block.motion
    }

    /// Where the words of a line lead; `None` beyond the range of places in code.
    fn target(&self, block: &Block) -> Option<Point>
        ensures value { result ≡ target_of self.now block.now }
        ensures near { IfSome result (IsWithin code_range) }
    {
        let is_absolute = block.absolute.unwrap_or(self.is_absolute);
        let x = coordinate(is_absolute, self.place.x, block.x)?;
        let y = coordinate(is_absolute, self.place.y, block.y)?;
        Some(Point { x, y })
    }

    /// The state behind a line with these words, which lead to this place.
    fn behind_words(&self, block: &Block, place: Point) -> Machine
        requires few { self.now.lines < 2 ^ 27 }
        requires near { IsWithin code_range place }
        ensures { result ≡ state_behind self.now block.now place }
    {
        let is_lit = block.lit.unwrap_or(self.is_lit);
        let is_moving = place != self.place;
        Machine {
            place,
            is_lit,
            has_motion: self.has_motion | block.motion,
            is_absolute: block.absolute.unwrap_or(self.is_absolute),
            has_burnt: is_lit & (is_moving | self.has_burnt),
            has_begun: self.has_begun | !block.is_empty,
            is_marked: self.is_marked,
            lines: self.lines + 1,
        }
    }

    /// Takes a line that is `%` alone: the first line that isn't empty, or the end of a program that began so.
    fn step_mark(&mut self) -> Stepped
        requires { self.old.lines < 2 ^ 27 }
        ensures step { (earlier : List Content) → MachineAt earlier self.old → IsStep earlier (Some Mark) result self.new }
        ensures same { IsSome result.fault → self.new ≡ self.old }
        ensures nothing { IsSome result.fault → DoesNothing result }
    {
        if self.has_begun & !self.is_marked {
            return Stepped::refused(CodeFault::BadLine);
        }
        let next = self.behind_mark();
        let ends = self.has_begun;
        self.advance(next, ends)
    }

    /// Takes a line of words.
    fn step_words(&mut self, block: &Block) -> Stepped
        requires { self.old.lines < 2 ^ 27 }
        ensures step { (earlier : List Content) (ws : List Word) → MachineAt earlier self.old → IsBlockOf ws block.now → IsStep earlier (Some (Words ws)) result self.new }
        ensures same { IsSome result.fault → self.new ≡ self.old }
        ensures nothing { IsSome result.fault → DoesNothing result }
    {
        if !self.is_lawful(block) {
            return Stepped::refused(CodeFault::BadLine);
        }
        if block.unknown {
            return Stepped::refused(CodeFault::UnknownWord);
        }
        let Some(place) = self.target(block) else {
            return Stepped::refused(CodeFault::TooFar);
        };
        let next = self.behind_words(block, place);
        self.advance(next, block.ending)
    }

    /// Takes the next line of code, without its end.
    ///
    /// A fault is the first of `BadLine`, `UnknownWord` and `TooFar` that the line has, and leaves the machine as it was. No memory is
    /// taken.
    pub fn step(&mut self, line: &[u8]) -> Stepped
        requires { self.old.lines < 2 ^ 27 }
        ensures fault { (earlier : List Content) → MachineAt earlier self.old → result.fault ≡ line_fault (content_of line.now) earlier }
        ensures taken { (earlier : List Content) → MachineAt earlier self.old → result.fault ≡ None → IsTaken earlier (content_or_empty line.now) result }
        ensures next { (earlier : List Content) → MachineAt earlier self.old → result.fault ≡ None → MachineAt (content_or_empty line.now ∷ earlier) self.new }
        ensures same { IsSome result.fault → self.new ≡ self.old }
        ensures nothing { IsSome result.fault → DoesNothing result }
    {
        match Line::read(line) {
            None => Stepped::refused(CodeFault::BadLine),
            Some(Line::Mark) => self.step_mark(),
            Some(Line::Words(block)) => self.step_words(&block),
        }
    }
}
