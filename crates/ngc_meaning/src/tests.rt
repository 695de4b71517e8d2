//! Codes by their bytes: those of the format, and what they mean.
ghost use Rattle.std.specs.Prelude.{◌≡◌};

use crate::{Machine, read_code};
use anyhow::{Result, ensure};
use code_moves::{CodeError, CodeFault, Move};
use nest_base::Point;

/// A place in millimetres.
fn at(x: i64, y: i64) -> Point {
    Point {
        x: x.clamp(-1_000, 1_000) * 1_000,
        y: y.clamp(-1_000, 1_000) * 1_000,
    }
}

/// A move with the torch out.
fn unlit(from: Point, to: Point, line: u32) -> Move {
    Move {
        from,
        to,
        lit: false,
        fresh: false,
        line,
    }
}

/// The first move that burns since the torch was lit.
fn fresh(from: Point, to: Point, line: u32) -> Move {
    Move {
        from,
        to,
        lit: true,
        fresh: true,
        line,
    }
}

/// A later one.
fn burnt(from: Point, to: Point, line: u32) -> Move {
    Move {
        from,
        to,
        lit: true,
        fresh: false,
        line,
    }
}

/// Checks that a code means these moves.
fn means(rt: &HostRuntime, code: &[u8], expected: &[Move]) -> Result<()> {
    ensure!(code.len() <= 1 << 26);
    let moves = read_code(rt.alloc(), code)?;
    ensure!(moves.as_slice() == expected);
    Ok(())
}

/// Checks that each code is refused by this error, or isn't refused.
fn are_answered(rt: &HostRuntime, rows: &[(&str, Option<CodeError>)]) -> Result<()> {
    for (code, expected) in rows {
        ensure!(code.len() <= 1 << 26);
        ensure!(
            read_code(rt.alloc(), code.as_bytes()).err() == *expected,
            "{code}"
        );
    }
    Ok(())
}

#[test]
fn square(rt: HostRuntime) -> Result<()> {
    let code =
        b"G21 G90\nF1000 S1\nG0 X0.000 Y10.000\nM3\nG1 X10.000 Y10.000\nG1 X10.000 Y0.000\nG1 X0.000 Y0.000\nG1 X0.000 Y10.000\nM5\nM2\n";
    let moves = [
        unlit(at(0, 0), at(0, 10), 3),
        fresh(at(0, 10), at(10, 10), 5),
        burnt(at(10, 10), at(10, 0), 6),
        burnt(at(10, 0), at(0, 0), 7),
        burnt(at(0, 0), at(0, 10), 8),
    ];
    means(&rt, code.as_slice(), &moves)
}

/// Small letters, comments, leading zeros, labels, and `%` at both ends.
#[test]
fn free_forms(rt: HostRuntime) -> Result<()> {
    let code = b"%\nN12345 g21 (cut)\nF1000S1\ng0x4 y+12.\nM03\r\nG01 X0 Y10.0000\ng91\nx-.5\n%\n";
    let left = Point { x: -500, y: 10_000 };
    let moves = [
        unlit(at(0, 0), at(4, 12), 4),
        fresh(at(4, 12), at(0, 10), 6),
        burnt(at(0, 10), left, 8),
    ];
    means(&rt, code.as_slice(), &moves)
}

/// A lighting that burns nothing gives a move on the spot.
#[test]
fn spots(rt: HostRuntime) -> Result<()> {
    means(&rt, b"M3 M2".as_slice(), &[fresh(at(0, 0), at(0, 0), 1)])?;
    let before = [
        fresh(at(0, 0), at(0, 0), 2),
        unlit(at(0, 0), at(1, 0), 2),
        fresh(at(1, 0), at(0, 0), 3),
    ];
    means(&rt, b"M3\nG0 X1 M5\nM3 G1 X0\nX0 M2".as_slice(), &before)?;
    let after = [unlit(at(0, 0), at(1, 0), 1), fresh(at(1, 0), at(1, 0), 2)];
    means(&rt, b"G0 X1\nM3 M2".as_slice(), &after)
}

/// `M3` while the torch burns changes nothing; after `M5` the next move is fresh again.
#[test]
fn lightings(rt: HostRuntime) -> Result<()> {
    let moves = [
        fresh(at(0, 0), at(1, 0), 1),
        burnt(at(1, 0), at(2, 0), 2),
        fresh(at(2, 0), at(3, 0), 4),
    ];
    means(&rt, b"G0 M3 X1\nM3 X2\nM5\nM3 X3 M2".as_slice(), &moves)
}

/// In relative mode each number is rounded and then added; G90 ends it.
#[test]
fn relative_places(rt: HostRuntime) -> Result<()> {
    let moves = [
        unlit(at(0, 0), at(1, 2), 1),
        unlit(at(1, 2), at(1, 4), 2),
        unlit(at(1, 4), at(5, 4), 3),
    ];
    means(&rt, b"G91 G0 X1 Y2\nY2\nG90 X5\nM30".as_slice(), &moves)
}

#[test]
fn accepted(rt: HostRuntime) -> Result<()> {
    let rows = [
        ("G17 G17 G40 G49 G94 M02", None),
        ("G4 P5.5 M30", None),
        ("F-0.0 M2", None),
        ("X1 G0 M2", None),
        ("M2\n?!", None),
        ("\n(c)\n%\n%\n%%", None),
        ("%\n%", None),
        ("G0 X100010\nM2", None),
        ("G0 X-100010.0004\nM2", None),
        ("N1\nn00002 M2", None),
        (" (a) \t\r\nM2", None),
    ];
    are_answered(&rt, &rows)
}

#[test]
fn bad_texts(rt: HostRuntime) -> Result<()> {
    let rows = [
        ("G21 (a(b)\nM2\n", Some(CodeError::BadLine(1))),
        ("G21 a)\nM2\n", Some(CodeError::BadLine(1))),
        ("(a\n)\nM2", Some(CodeError::BadLine(1))),
        ("G21\n%\n", Some(CodeError::BadLine(2))),
        ("%%\nM2", Some(CodeError::BadLine(1))),
        ("M2 %", Some(CodeError::BadLine(1))),
        ("M2\r", Some(CodeError::BadLine(1))),
        ("5 M2", Some(CodeError::BadLine(1))),
        ("M", Some(CodeError::BadLine(1))),
        ("G0 X1.2.3\nM2", Some(CodeError::BadLine(1))),
        ("G0 X.\nM2", Some(CodeError::BadLine(1))),
        ("G0 X+-1\nM2", Some(CodeError::BadLine(1))),
    ];
    are_answered(&rt, &rows)
}

#[test]
fn bad_words(rt: HostRuntime) -> Result<()> {
    let rows = [
        ("N123456\nM2", Some(CodeError::BadLine(1))),
        ("N1.\nM2", Some(CodeError::BadLine(1))),
        ("M2 N1", Some(CodeError::BadLine(1))),
        ("N1 N2 M2", Some(CodeError::BadLine(1))),
        ("G4 M30", Some(CodeError::BadLine(1))),
        ("P5 M30", Some(CodeError::BadLine(1))),
        ("F0 S-1 M2", Some(CodeError::BadLine(1))),
        ("X1 M2", Some(CodeError::BadLine(1))),
        ("M3 M5 M2", Some(CodeError::BadLine(1))),
        ("G0 G1 M2", Some(CodeError::BadLine(1))),
        ("G21 G21 M2", Some(CodeError::BadLine(1))),
        ("M2 M30", Some(CodeError::BadLine(1))),
        ("G0 X1 X1 M2", Some(CodeError::BadLine(1))),
        ("G21\nG2 X1\nM2\n", Some(CodeError::BadLine(2))),
    ];
    are_answered(&rt, &rows)
}

#[test]
fn other_faults(rt: HostRuntime) -> Result<()> {
    let rows = [
        ("G21\nG1\nG2 X1\nM2\n", Some(CodeError::UnknownWord(3))),
        ("G1. M2", Some(CodeError::UnknownWord(1))),
        ("G+1 M2", Some(CodeError::UnknownWord(1))),
        ("G1 X1E5 M2", Some(CodeError::UnknownWord(1))),
        ("G1 X999999 T0", Some(CodeError::UnknownWord(1))),
        ("M2 G100", Some(CodeError::UnknownWord(1))),
        ("G0 X100010.001\nM2", Some(CodeError::TooFar(1))),
        (
            "G91 G0 X100010\nX-.001\nX.002\nM2",
            Some(CodeError::TooFar(3)),
        ),
        (
            "G91 G0 X999999999999999999999\nM2",
            Some(CodeError::TooFar(1)),
        ),
        ("G21\nG90\n", Some(CodeError::NoEnd(3))),
        ("", Some(CodeError::NoEnd(1))),
    ];
    are_answered(&rt, &rows)
}

#[test]
fn long_lines(rt: HostRuntime) -> Result<()> {
    let mut code = b"M2".to_vec(rt.alloc())?;
    code.resize(256, b' ')?;
    ensure!(read_code(rt.alloc(), &code).err().is_none());
    code.push(b' ')?;
    ensure!(read_code(rt.alloc(), &code).err() == Some(CodeError::BadLine(1)));
    Ok(())
}

/// A refused line leaves the machine as it was, and isn't counted.
#[test]
fn refused_lines(_rt: HostRuntime) -> Result<()> {
    let mut machine = Machine::new();
    ensure!(machine.step(b"G91 G0 X1 M3".as_slice()).made == Some(fresh(at(0, 0), at(1, 0), 1)));
    ensure!(machine.lines() == 1);
    ensure!(machine.step(b"M5 G90 X5 T0".as_slice()).fault == Some(CodeFault::UnknownWord));
    ensure!(machine.lines() == 1);
    let stepped = machine.step(b"X1 M2".as_slice());
    ensure!(stepped.made == Some(burnt(at(1, 0), at(2, 0), 2)));
    ensure!(stepped.closing.is_none() && stepped.ended);
    Ok(())
}
