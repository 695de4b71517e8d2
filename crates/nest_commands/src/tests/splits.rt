//! Drawings whose lines overlap, touch and cross.

use super::loops::{code_through, file_of_lines};
use super::{SQUARE_CODE, SQUARE_REPORT, drawing_of, is_planned, is_refused, report_of};
use anyhow::Result;
use drawing_samples::Ends;
use drawing_samples::samples::SQUARE;

/// Drawings with lines that cross off the lattice.
const OFF_LATTICE: [(&[&str], &str); 9] = [
    (
        &["0 0 10 7", "0 2 10 0", "0 5 10 0"],
        "E11 segments 1 and 2 cross off the lattice near 2.222 1.555",
    ),
    // A line of no length is no segment.
    (
        &["3 3 3 3", "0 0 10 7", "1 1 1 1", "0 5 10 0"],
        "E11 segments 1 and 2 cross off the lattice near 4.166 2.916",
    ),
    // Down is down on both sides of zero.
    (
        &["0 0 -10 7", "0 2 -10 0"],
        "E11 segments 1 and 2 cross off the lattice near -2.223 1.555",
    ),
    (
        &["0 0 -10 -7", "0 -2 -10 0"],
        "E11 segments 1 and 2 cross off the lattice near -2.223 -1.556",
    ),
    // The pair with the least first segment comes, and not the westernmost one, nor the one with the least second.
    (
        &["50 0 60 7", "50 2 60 0", "0 0 10 7", "0 2 10 0"],
        "E11 segments 1 and 2 cross off the lattice near 52.222 1.555",
    ),
    (
        &["0 0 10 7", "20 0 30 7", "20 2 30 0", "0 2 10 0"],
        "E11 segments 1 and 4 cross off the lattice near 2.222 1.555",
    ),
    // Of a first segment the least second one.
    (
        &["0 0 10 7", "90 0 91 1", "0 5 10 0", "0 2 10 0"],
        "E11 segments 1 and 3 cross off the lattice near 4.166 2.916",
    ),
    // On the lattice in x alone, and in y alone.
    (
        &["0 0 10 0.003", "5 0 5 1"],
        "E11 segments 1 and 2 cross off the lattice near 5.000 0.001",
    ),
    (
        &["0 0 0.003 10", "0 5 1 5"],
        "E11 segments 1 and 2 cross off the lattice near 0.001 5.000",
    ),
];

#[test]
fn crossings_off_the_lattice_are_refused(rt: HostRuntime) -> Result<()> {
    let alloc = rt.alloc();
    for (lines, why) in OFF_LATTICE {
        is_refused(alloc, why, &file_of_lines(alloc, lines)?, why)?;
    }
    Ok(())
}

/// What is drawn behind a square that changes nothing: lines of no length, and sides once more, either way round.
const BEHIND_A_SQUARE: [&[Ends]; 4] = [
    &[[3, 3, 3, 3], [0, 0, 10, 0], [10, 0, 0, 0]],
    &[[0, 0, 10, 0]],
    &[[10, 0, 0, 0]],
    &[[0, 10, 10, 10], [0, 0, 0, 10]],
];

#[test]
fn lines_that_are_drawn_again_are_cut_once(rt: HostRuntime) -> Result<()> {
    let alloc = rt.alloc();
    for lines in BEHIND_A_SQUARE {
        let mut segments = Vec::new(alloc);
        segments.extend_from_slice(SQUARE.segments)?;
        segments.extend_from_slice(lines)?;
        let drawing = drawing_of(alloc, &segments)?;
        is_planned(
            alloc,
            "a repeated line",
            &drawing,
            SQUARE_CODE,
            SQUARE_REPORT,
        )?;
    }
    Ok(())
}

/// The three other sides of a square whose lower side is drawn in some other way.
const SIDES: [&str; 3] = ["10 0 10 10", "10 10 0 10", "0 10 0 0"];

/// Where the lead-in begins, and the places of the route up to the lower right corner.
const FRONT: [&str; 4] = [
    "X4.000 Y12.000",
    "X0.000 Y10.000",
    "X10.000 Y10.000",
    "X10.000 Y0.000",
];

/// Lower sides, and the places of the route between the lower right corner and the lower left one.
const LOWER_SIDES: [(&str, &[&str], &[&str]); 5] = [
    (
        "two lines that overlap",
        &["0 0 6 0", "4 0 10 0"],
        &["X6.000 Y0.000", "X4.000 Y0.000"],
    ),
    (
        "two lines that touch",
        &["4 0 10 0", "4 0 0 0"],
        &["X4.000 Y0.000"],
    ),
    (
        "a line that covers another one",
        &["0 0 10 0", "7 0 3 0"],
        &["X7.000 Y0.000", "X3.000 Y0.000"],
    ),
    (
        "a line in three pieces, and whole",
        &["3 0 0 0", "7 0 10 0", "10 0 0 0", "3 0 7 0"],
        &["X7.000 Y0.000", "X3.000 Y0.000"],
    ),
    (
        "three lines that overlap by a micrometre",
        &["0 0 5 0", "4.999 0 6 0", "5.999 0 10 0"],
        &[
            "X6.000 Y0.000",
            "X5.999 Y0.000",
            "X5.000 Y0.000",
            "X4.999 Y0.000",
        ],
    ),
];

#[test]
fn overlapping_lines_are_one_cut_in_pieces(rt: HostRuntime) -> Result<()> {
    let alloc = rt.alloc();
    for (what, lower, between) in LOWER_SIDES {
        let mut lines = Vec::new(alloc);
        lines.extend_from_slice(lower)?;
        lines.extend_from_slice(&SIDES)?;
        let mut places = Vec::new(alloc);
        places.extend_from_slice(&FRONT)?;
        places.extend_from_slice(between)?;
        places.extend_from_slice(&["X0.000 Y0.000", "X0.000 Y10.000"])?;
        let code = code_through(alloc, &places)?;
        let report = report_of(alloc, &[(4 + between.len(), 0)])?;
        let drawing = file_of_lines(alloc, &lines)?;
        is_planned(alloc, what, &drawing, code.as_str(), report.as_str())?;
    }
    Ok(())
}
