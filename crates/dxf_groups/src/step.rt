//! What one more line gives.
ghost use Rattle.std.specs.Prelude.{◌≡◌, ◌<◌, ◌+◌, ◌^◌, Some, None, if◌then◌else◌, pos};
ghost use Rattle.std.specs.Ordering.{int_eq};
ghost use Rattle.dxf_groups.specs.Pairs.{stopped, with_value, with_code};
ghost use Rattle.dxf_groups.specs.Steps.{line_behind, pair_of, number_of, gives_pair};
ghost use Rattle.dxf_groups.specs.Taking.{pair_or, found_at_stop, value_of};

use crate::answers::{Found, GroupError, Stop};
use crate::code::group_code;
use nest_base::trimmed;

/// The most bytes of a line without its end.
pub const LONGEST: usize = 4096;

/// The code of pairs that are dropped.
const COMMENT: i32 = 999;

/// Where the lines stop behind one more, and what it completes.
#[derive(Clone, Copy, Drop)]
pub struct Step {
    pub stop: Stop,
    pub found: Found,
}

/// Where the lines stop behind a line with this number, which is to hold a code.
fn behind_code(line: u32, bytes: &[u8]) -> Stop
    requires { line + 1 < 2 ^ 32 }
    ensures { result ≡ (line_behind (Stop.BeforeCode line) bytes.now).stop }
{
    if bytes.len() > LONGEST {
        return Stop::AtFault(GroupError::LineTooLong(line));
    }
    let Some(code) = group_code(bytes) else {
        return Stop::AtFault(GroupError::BadCode(line));
    };
    Stop::BeforeValue {
        code,
        line: line + 1,
    }
}

/// What a stop tells where no pair was completed.
pub fn found_at(stop: Stop) -> Found
    ensures { result ≡ found_at_stop stop }
{
    match stop {
        Stop::AtEof => Found::Done,
        Stop::AtFault(_) => Found::Refused,
        Stop::BeforeCode(_) | Stop::BeforeValue { .. } => Found::More,
    }
}

/// What a pair gives: nothing where it's a comment.
fn found_pair(code: i32, line: u32) -> Found
    ensures { result ≡ if int_eq code (pos 999) then Found.More else Found.Pair code line }
{
    if code == COMMENT {
        Found::More
    } else {
        Found::Pair { code, line }
    }
}

/// What a line with this number gives, which holds the value of a code.
fn read_value(code: i32, line: u32, bytes: &[u8]) -> Step
    requires { line + 1 < 2 ^ 32 }
    ensures stop { result.stop ≡ (line_behind (Stop.BeforeValue code line) bytes.now).stop }
    ensures found { result.found ≡ pair_or (pair_of (line_behind (Stop.BeforeValue code line) bytes.now)) (found_at_stop result.stop) }
    ensures value { value_of (pair_of (line_behind (Stop.BeforeValue code line) bytes.now)) ≡ if gives_pair result.found then Some bytes.now else None }
{
    if bytes.len() > LONGEST {
        return Step {
            stop: Stop::AtFault(GroupError::LineTooLong(line)),
            found: Found::Refused,
        };
    }
    if code == 0 && trimmed(bytes) == b"EOF".as_slice() {
        return Step {
            stop: Stop::AtEof,
            found: Found::Pair { code, line },
        };
    }
    Step {
        stop: Stop::BeforeCode(line + 1),
        found: found_pair(code, line),
    }
}

/// What one more line gives behind lines that stopped so.
pub fn read_line(stop: Stop, bytes: &[u8]) -> Step
    requires { number_of stop + 1 < 2 ^ 32 }
    ensures stop { result.stop ≡ (line_behind stop bytes.now).stop }
    ensures found { result.found ≡ pair_or (pair_of (line_behind stop bytes.now)) (found_at_stop ((line_behind stop bytes.now).stop)) }
    ensures value { value_of (pair_of (line_behind stop bytes.now)) ≡ if gives_pair result.found then Some bytes.now else None }
{
    match stop {
        Stop::BeforeCode(line) => {
            let stop = behind_code(line, bytes);
            Step {
                stop,
                found: found_at(stop),
            }
        }
        Stop::BeforeValue { code, line } => read_value(code, line, bytes),
        closed => Step {
            stop: closed,
            found: found_at(closed),
        },
    }
}
