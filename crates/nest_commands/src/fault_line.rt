//! The lines that are printed for statuses.
ghost use Rattle.std.specs.Prelude.{◌≡◌, ◌≤◌, ◌++◌, List, ℕ, length, codes};
ghost use Rattle.std.specs.Fmt.{signed_decimal};
ghost use Rattle.nest_commands.specs.Statuses.{refusal_text, fault_text};
ghost use Rattle.segment_split.specs.declared.splitting.SplitError.TheVariants.{Crossing};
ghost use Rattle.part_scrap.specs.declared.error.PartError.TheVariants.{TwoNames};
ghost use Rattle.nest_commands.specs.FaultText.{at_line, group_text, kind_text, naming_text, reading_text, splitting_text};

use crate::line::FaultLine;
use crate::status::{Refusal, Status};
use crate::verdict_line::{code_line, verdict_line};
use dxf_drawing::{DrawingError, Kind};
use dxf_groups::GroupError;
use nest_base::Point;
use part_scrap::PartError;
use segment_split::SplitError;

/// The line of a refusal at a line of the drawing or of the code, before the reason.
fn line_at(refused: &[u8], line: u32) -> FaultLine
    requires { length refused.now ≤ 16 }
    ensures text { (why : List ℕ) → result ++ why ≡ at_line refused.now line why }
    ensures short { length result ≤ 64 }
{
    let mut text = FaultLine::of(refused);
    text.put(b" line ");
    text.put_number(line);
    text.put(b" ");
    text
}

/// The line of a refusal at a line of the drawing or of the code, with its reason.
pub(crate) fn refusal_at(refused: &[u8], line: u32, why: &[u8]) -> FaultLine
    requires refused { length refused.now ≤ 16 }
    requires why { length why.now ≤ 64 }
    ensures text { result ≡ at_line refused.now line why.now }
    ensures short { length result ≤ 255 }
{
    let mut text = line_at(refused, line);
    text.put(why);
    text
}

/// The line of a file whose lines aren't pairs.
fn group_line(e: GroupError) -> FaultLine
    ensures text { result ≡ group_text e }
    ensures short { length result ≤ 255 }
{
    match e {
        GroupError::Binary => FaultLine::of(b"refused E1 binary DXF"),
        GroupError::BadCode(line) => refusal_at(b"refused E2", line, b"no group code"),
        GroupError::LineTooLong(line) => refusal_at(b"refused E3", line, b"longer than 4096 bytes"),
        GroupError::Truncated(line) => refusal_at(b"refused E4", line, b"missing"),
    }
}

/// The line of an entity that isn't planned.
fn unsupported_line(line: u32, kind: &Kind) -> FaultLine
    ensures text { result ≡ at_line (codes "refused E8") line (kind_text kind.now) }
    ensures short { length result ≤ 255 }
{
    let mut text = line_at(b"refused E8", line);
    match kind {
        Kind::Entity(label) => text.put_name(label.as_slice()),
        Kind::Flags(flags) => {
            text.put(b"POLYLINE flags ");
            text.put_signed(*flags);
        }
        Kind::Bulge => text.put(b"bulge"),
        Kind::Extrusion => text.put(b"extrusion"),
    }
    text
}

/// The line of an entity that lacks a group.
fn missing_line(line: u32, code: i32) -> FaultLine
    ensures text { result ≡ at_line (codes "refused E7") line (codes "lacks group " ++ signed_decimal code) }
    ensures short { length result ≤ 255 }
{
    let mut text = line_at(b"refused E7", line);
    text.put(b"lacks group ");
    text.put_signed(i64::from(code));
    text
}

/// The line of a drawing that can't be read, without its end.
fn reading_line(e: &DrawingError) -> FaultLine
    ensures text { result ≡ reading_text e.now }
    ensures short { length result ≤ 255 }
{
    match e {
        DrawingError::Groups(e) => group_line(*e),
        DrawingError::NotANumber(line) => refusal_at(b"refused E5", *line, b"not a number"),
        DrawingError::TooFar(line) => refusal_at(b"refused E6", *line, b"beyond the range"),
        DrawingError::Missing(line, code) => missing_line(*line, *code),
        DrawingError::Unsupported(line, kind) => unsupported_line(*line, kind),
        DrawingError::TooMany(line) => refusal_at(b"refused E9", *line, b"too many"),
        DrawingError::Nothing => FaultLine::of(b"refused E10 nothing to cut"),
        DrawingError::OutOfMemory => FaultLine::of(b"out of memory"),
    }
}

/// The line of two segments that cross off the lattice, without its end.
fn crossing_line(first: u32, second: u32, place: Point) -> FaultLine
    ensures text { result ≡ splitting_text (Crossing first second place) }
    ensures short { length result ≤ 255 }
{
    let mut text = FaultLine::of(b"refused E11 segments ");
    text.put_number(first);
    text.put(b" and ");
    text.put_number(second);
    text.put(b" cross off the lattice near ");
    text.put_micron(place.x);
    text.put(b" ");
    text.put_micron(place.y);
    text
}

/// The line of a drawing that isn't split, without its end.
fn splitting_line(e: &SplitError) -> FaultLine
    ensures text { result ≡ splitting_text e.now }
    ensures short { length result ≤ 255 }
{
    match e {
        SplitError::Crossing {
            first,
            second,
            place,
        } => crossing_line(*first, *second, *place),
        SplitError::TooManyPieces => FaultLine::of(b"refused E12 more than 2000000 pieces"),
        SplitError::OutOfMemory => FaultLine::of(b"out of memory"),
    }
}

/// The line of two names in one face, without its end.
fn two_names_line(first: u32, second: u32) -> FaultLine
    ensures text { result ≡ naming_text (TwoNames first second) }
    ensures short { length result ≤ 255 }
{
    let mut text = FaultLine::of(b"refused E15 lines ");
    text.put_number(first);
    text.put(b" and ");
    text.put_number(second);
    text.put(b" name one face");
    text
}

/// The line of names that don't name parts, without its end.
fn naming_line(e: PartError) -> FaultLine
    ensures text { result ≡ naming_text e }
    ensures short { length result ≤ 255 }
{
    match e {
        PartError::OnLine(line) => refusal_at(b"refused E13", line, b"name on a line"),
        PartError::NamesOuter(line) => {
            refusal_at(b"refused E14", line, b"name outside every part")
        }
        PartError::TwoNames(first, second) => two_names_line(first, second),
        PartError::OutOfMemory => FaultLine::of(b"out of memory"),
    }
}

/// The line of a drawing that is refused.
fn refused_line(refusal: &Refusal) -> FaultLine
    ensures { result ≡ refusal_text refusal.now }
{
    let mut line = match refusal {
        Refusal::Reading(e) => reading_line(e),
        Refusal::Splitting(e) => splitting_line(e),
        Refusal::Naming(e) => naming_line(*e),
    };
    line.put(b"\n");
    line
}

/// The line that is printed for a status, with its LF; none for `Done` and `PrintFault`.
pub fn fault_line(status: &Status) -> FaultLine
    ensures { result ≡ fault_text status.now }
{
    match status {
        Status::Done | Status::PrintFault => FaultLine::of(b""),
        Status::Words => FaultLine::of(b"usage: plan IN OUT | replay IN CODE\n"),
        Status::ReadFault => FaultLine::of(b"read fault\n"),
        Status::TooLong => FaultLine::of(b"file too long\n"),
        Status::Drawing(refusal) => refused_line(refusal),
        Status::WriteFault => FaultLine::of(b"write fault\n"),
        Status::Memory => FaultLine::of(b"out of memory\n"),
        Status::Code(fault) => code_line(*fault),
        Status::Unsound(verdict) => verdict_line(*verdict),
    }
}
