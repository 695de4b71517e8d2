//! `replay IN CODE`: verdicts on code, and what stands after each answer.
use super::{
    Led, ROOM, SQUARE_CODE, code_of, desk_with, drawing_of, planned_desk, square_file, words_of,
};
use crate::run::run;
use crate::status::Status;
use anyhow::{Result, ensure};
use cut_desk::MemoryDesk;
use drawing_samples::Ends;
use std::alloc::{AllocError, Global};
use std::str;

/// The lines of the square's code, from 1.
const LINES: [&str; 11] = [
    "G21 G90",
    "F1000 S1",
    "G0 X4.000 Y12.000",
    "M3",
    "G1 X0.000 Y10.000",
    "G1 X10.000 Y10.000",
    "G1 X10.000 Y0.000",
    "G1 X0.000 Y0.000",
    "G1 X0.000 Y10.000",
    "M5",
    "M2",
];

/// An edit of code: these lines stand in the place of line `line`.
#[derive(Drop)]
struct Edit<'a> {
    line: usize,
    new: &'a [&'a str],
}

/// Code, what is printed of it, and the exit code.
#[derive(Drop)]
struct Case<'a> {
    edit: Edit<'a>,
    printed: &'a str,
    exit: u8,
}

/// The square's code with an edit.
fn edited(alloc: Global, edit: &Edit) -> Result<String, AllocError> {
    let mut code = String::from_str(alloc, "")?;
    for (k, line) in LINES.iter().enumerate() {
        if k + 1 == edit.line {
            for new in edit.new {
                code.push_str(new)?;
                code.push_str("\n")?;
            }
        } else {
            code.push_str(line)?;
            code.push_str("\n")?;
        }
    }
    Ok(code)
}

/// Runs `replay a.dxf b.ngc` over these files.
fn replayed(alloc: Global, drawing: &[u8], code: &[u8]) -> Result<(Status, MemoryDesk)> {
    let mut desk = desk_with(alloc, drawing, ROOM)?;
    desk.put_file("b.ngc", code)?;
    let words = words_of(alloc, &["replay", "a.dxf", "b.ngc"])?;
    let status = run(alloc, &words, &mut desk);
    Ok((status, desk))
}

/// Whether the code gives this line and exit code, and both files are as before.
fn is_judged(alloc: Global, drawing: &[u8], code: &[u8], expected: &str, exit: u8) -> Result<()> {
    let (status, desk) = replayed(alloc, drawing, code)?;
    let printed = str::from_utf8(desk.printed())?;
    let line = format!(in alloc; "{expected}\n")?;
    ensure!(printed == line.as_str(), "{expected}: {printed}");
    ensure!(status.code() == exit, "{expected}: {status:?}");
    ensure!(desk.file("a.dxf") == Some(drawing), "{expected}");
    ensure!(desk.file("b.ngc") == Some(code), "{expected}");
    Ok(())
}

#[test]
fn edits_of_the_squares_code(rt: HostRuntime) -> Result<()> {
    let alloc = rt.alloc();
    let drawing = square_file(alloc)?;
    is_judged(
        alloc,
        &drawing,
        SQUARE_CODE.as_bytes(),
        "sound pierces 1",
        0,
    )?;
    let cases = [
        Case {
            edit: Edit {
                line: 9,
                new: &["G1 X0.000 Y10.000", "G1 X10.000 Y10.000"],
            },
            printed: "unsound line 10 edge burnt twice",
            exit: 7,
        },
        Case {
            edit: Edit { line: 9, new: &[] },
            printed: "unsound edge 0.000 0.000 to 0.000 10.000 not burnt",
            exit: 7,
        },
        Case {
            edit: Edit {
                line: 10,
                new: &["G0 X4.000 Y12.000"],
            },
            printed: "unsound line 10 off the drawing",
            exit: 7,
        },
        Case {
            edit: Edit {
                line: 6,
                new: &["G1 X5.000 Y10.000", "G1 X10.000 Y10.000"],
            },
            printed: "unsound line 6 not one whole edge",
            exit: 7,
        },
        Case {
            edit: Edit {
                line: 3,
                new: &["G0 X12.000 Y2.000"],
            },
            printed: "unsound line 5 lead-in not free",
            exit: 7,
        },
        Case {
            edit: Edit {
                line: 3,
                new: &["G0 X4.000 Y2.000"],
            },
            printed: "sound pierces 1",
            exit: 0,
        },
        Case {
            edit: Edit { line: 11, new: &[] },
            printed: "code line 11 end missing",
            exit: 8,
        },
        Case {
            edit: Edit {
                line: 6,
                new: &["G2 X10.000 Y10.000"],
            },
            printed: "code line 6 unknown word",
            exit: 8,
        },
        Case {
            edit: Edit {
                line: 7,
                new: &["G1 X10.001 Y0.000"],
            },
            printed: "unsound line 7 off the drawing",
            exit: 7,
        },
        Case {
            edit: Edit {
                line: 4,
                new: &["M3 M5"],
            },
            printed: "code line 4 bad line",
            exit: 8,
        },
        Case {
            edit: Edit {
                line: 3,
                new: &["G0 X100010.001 Y12.000"],
            },
            printed: "code line 3 beyond the range",
            exit: 8,
        },
    ];
    for case in cases {
        let code = edited(alloc, &case.edit)?;
        is_judged(alloc, &drawing, code.as_bytes(), case.printed, case.exit)?;
    }
    Ok(())
}

#[test]
fn other_forms_of_code(rt: HostRuntime) -> Result<()> {
    let alloc = rt.alloc();
    let drawing = square_file(alloc)?;
    // A lighting without a motion burns the spot.
    is_judged(
        alloc,
        &drawing,
        b"M3 M2\n",
        "unsound line 1 off the drawing",
        7,
    )?;
    let small =
        b"%\nG21 G90\nF1000 S1 (cut)\nG0 X4.000 Y12.000\nM3\ng01 X0.000 Y10.000\ng01 X10.000 Y10.000\n\
        g01 X10.000 Y0.000\ng01 X0.000 Y0.000\ng01 X0.000 Y10.000\nM5\n%\n";
    is_judged(alloc, &drawing, small, "sound pierces 1", 0)?;
    let relative = b"N1 G21 G91\nN2 G0 X4 Y12\nM3\nG1 X-4 Y-2\nX10\nY-10\nX-10\nY10\nM30";
    is_judged(alloc, &drawing, relative, "sound pierces 1", 0)
}

/// Two squares, one in the other.
const NESTED: [Ends; 8] = [
    [0, 0, 30, 0],
    [30, 0, 30, 30],
    [30, 30, 0, 30],
    [0, 30, 0, 0],
    [10, 10, 20, 10],
    [20, 10, 20, 20],
    [20, 20, 10, 20],
    [10, 20, 10, 10],
];

#[test]
fn the_outer_square_last(rt: HostRuntime) -> Result<()> {
    let alloc = rt.alloc();
    let drawing = drawing_of(alloc, &NESTED)?;
    let outer = Led {
        lead: None,
        chain: &[(0, 30), (30, 30), (30, 0), (0, 0), (0, 30)],
    };
    let inner = Led {
        lead: None,
        chain: &[(10, 20), (20, 20), (20, 10), (10, 10), (10, 20)],
    };
    let sound = code_of(alloc, &[inner, outer])?;
    is_judged(alloc, &drawing, sound.as_bytes(), "sound pierces 2", 0)?;
    let outer = Led {
        lead: None,
        chain: &[(0, 30), (30, 30), (30, 0), (0, 0), (0, 30)],
    };
    let inner = Led {
        lead: None,
        chain: &[(10, 20), (20, 20), (20, 10), (10, 10), (10, 20)],
    };
    let detached = code_of(alloc, &[outer, inner])?;
    is_judged(
        alloc,
        &drawing,
        detached.as_bytes(),
        "unsound line 15 detached",
        7,
    )
}

#[test]
fn each_call_of_a_replay_fails_in_turn(rt: HostRuntime) -> Result<()> {
    let alloc = rt.alloc();
    let drawing = square_file(alloc)?;
    // The calls are two reads of the drawing, two of the code, and the print.
    let cases = [
        (1, 3, "read fault\n"),
        (2, 3, "read fault\n"),
        (3, 3, "read fault\n"),
        (4, 3, "read fault\n"),
        (5, 5, ""),
        (6, 0, "sound pierces 1\n"),
    ];
    for (number, exit, printed) in cases {
        let mut desk = desk_with(alloc, &drawing, ROOM)?;
        desk.put_file("b.ngc", SQUARE_CODE.as_bytes())?;
        desk.fail_call(number)?;
        let words = words_of(alloc, &["replay", "a.dxf", "b.ngc"])?;
        let status = run(alloc, &words, &mut desk);
        ensure!(status.code() == exit, "{number}: {status:?}");
        ensure!(desk.printed() == printed.as_bytes(), "{number}");
        ensure!(
            desk.file("b.ngc") == Some(SQUARE_CODE.as_bytes()),
            "{number}"
        );
    }
    Ok(())
}

#[test]
fn faults_of_both_files(rt: HostRuntime) -> Result<()> {
    let alloc = rt.alloc();
    let drawing = square_file(alloc)?;
    let mut desk = desk_with(alloc, &drawing, ROOM)?;
    let words = words_of(alloc, &["replay", "a.dxf", "absent.ngc"])?;
    let status = run(alloc, &words, &mut desk);
    ensure!(matches!(status, Status::ReadFault) && status.code() == 3);
    // A drawing that is refused is told before faults of the code; as code it has a bad first line.
    is_judged(alloc, b"", b"?", "refused E4 line 1 missing", 4)?;
    is_judged(alloc, &drawing, &drawing, "code line 1 bad line", 8)?;
    let words = words_of(alloc, &["replay", "a.dxf", "a.dxf"])?;
    let status = run(alloc, &words, &mut desk);
    ensure!(matches!(status, Status::Code(_)));
    ensure!(desk.printed() == b"read fault\ncode line 1 bad line\n".as_slice());
    // One byte too many.
    let long = vec![in alloc; b' '; 67_108_865]?;
    is_judged(alloc, &drawing, &long, "file too long", 3)
}

#[test]
fn what_was_planned_is_sound(rt: HostRuntime) -> Result<()> {
    let alloc = rt.alloc();
    let mut desk = planned_desk(alloc, "nested", &drawing_of(alloc, &NESTED)?, ROOM)?;
    let words = words_of(alloc, &["replay", "a.dxf", "a.ngc"])?;
    let status = run(alloc, &words, &mut desk);
    ensure!(matches!(status, Status::Done), "{status:?}");
    ensure!(
        desk.printed()
            .ends_with(b"total pierces 2 bound 2\nfewest\nsound pierces 2\n")
    );
    Ok(())
}
