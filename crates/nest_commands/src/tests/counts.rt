//! Drawings of as many segments and names as there is room for, and of more.

use super::{ACCEPTED, HEAD, is_answered, is_planned_at_all, planned_desk, put_lines};
use anyhow::{Result, ensure};
use std::alloc::{AllocError, Global};

/// Twelve lines for a segment. `#` stands for its number, from 0.
const LINE: &str = "0=LINE|8=0|10=#|20=0|11=#.5|21=0|";

/// A segment on which all these lie, so that they are one cut, and are burnt in one chain.
const LONG_LINE: &str = "|0=LINE|8=0|10=0|20=0|11=20000|21=0|";

/// Twelve lines for two vertices, and for two segments where more vertices follow.
const VERTICES: &str = "0=VERTEX|10=#|20=0|0=VERTEX|10=#.5|20=0|";

/// Eight lines for a name.
const NAME: &str = "0=TEXT|10=5|20=5|1=A|";

/// A level and an upright line of a grid of a thousand by a thousand cells.
const GRID: &str = "0=LINE|10=0|20=#|11=1000|21=#|0=LINE|10=#|20=0|11=#|21=1000|";

/// The same of a grid with one line less each way.
const SMALLER_GRID: &str = "0=LINE|10=0|20=#|11=999|21=#|0=LINE|10=#|20=0|11=#|21=999|";

/// The same of a grid of 316 by 316 cells.
const SMALL_GRID: &str = "0=LINE|10=0|20=#|11=316|21=#|0=LINE|10=#|20=0|11=#|21=316|";

/// A comment of a hundred bytes, with its code and the ends of both lines.
const COMMENT: &str =
    "999=A level line of the grid and an upright one stand behind comments that make the file a large one|";

/// Half a square, beside others, and a name in it.
const NAMED_SQUARE: &str = "0=LINE|10=#|20=0|11=#.5|21=0|0=LINE|10=#.5|20=0|11=#.5|21=1|\
    0=LINE|10=#.5|20=1|11=#|21=1|0=LINE|10=#|20=1|11=#|21=0|0=TEXT|10=#.25|20=.5|1=N#|";

/// What stands behind the head of an ENTITIES section: one text, another one so often, a third one, and why that's refused, if it is.
type Case = (
    &'static str,
    &'static str,
    usize,
    &'static str,
    &'static str,
);

const LINES: [Case; 7] = [
    (
        LONG_LINE,
        LINE,
        20_000,
        "0=ENDSEC|0=EOF|",
        "E9 line 240006 too many",
    ),
    (LONG_LINE, LINE, 19_999, "0=ENDSEC|0=EOF|", ACCEPTED),
    // A segment of no length is no segment.
    (
        LONG_LINE,
        LINE,
        19_999,
        "0=LINE|10=3|20=3|11=3|21=3|0=ENDSEC|0=EOF|",
        ACCEPTED,
    ),
    // The count comes behind all else that is wrong with an entity.
    (
        LONG_LINE,
        LINE,
        19_999,
        "0=LINE|10=3|20=3|11=4|0=ENDSEC|0=EOF|",
        "E7 line 240006 lacks group 21",
    ),
    // It comes before all that is wrong with a later one.
    (
        LONG_LINE,
        LINE,
        20_000,
        "0=ARC|67=x|0=EOF|",
        "E9 line 240006 too many",
    ),
    (
        LONG_LINE,
        LINE,
        20_000,
        "0=ENDSEC|",
        "E4 line 240019 missing",
    ),
    (LONG_LINE, LINE, 20_000, "0=1x", "E4 line 240019 missing"),
];

const POLYLINES: [Case; 6] = [
    // A side has the line of its first vertex.
    (
        "|",
        LINE,
        20_000,
        "0=POLYLINE|0=VERTEX|10=0|20=0|0=VERTEX|10=1|20=0|0=EOF|",
        "E9 line 240008 too many",
    ),
    (
        "|",
        LINE,
        20_000,
        "0=POLYLINE|0=VERTEX|10=0|20=0|0=VERTEX|10=1|0=EOF|",
        "E7 line 240014 lacks group 20",
    ),
    (
        "|0=POLYLINE|",
        VERTICES,
        10_001,
        "0=SEQEND|0=EOF|",
        "E9 line 120008 too many",
    ),
    // The closing side comes at the end of the polyline, before what is wrong with the entity that ends it.
    (
        "|0=POLYLINE|70=1|",
        VERTICES,
        10_000,
        "0=VERTEX|10=0|20=1|0=LINE|67=x|0=EOF|",
        "E9 line 120010 too many",
    ),
    (
        "|0=POLYLINE|70=0|",
        VERTICES,
        10_000,
        "0=VERTEX|10=0|20=1|0=LINE|67=x|0=EOF|",
        "E5 line 120018 not a number",
    ),
    (
        "|0=POLYLINE|70=1|",
        VERTICES,
        10_000,
        "0=SEQEND|0=EOF|",
        ACCEPTED,
    ),
];

const NAMES: [Case; 3] = [
    (
        "|",
        NAME,
        5_001,
        "0=ENDSEC|0=EOF|",
        "E9 line 40006 too many",
    ),
    ("|", NAME, 5_000, "0=ENDSEC|0=EOF|", "E10 nothing to cut"),
    (
        "|",
        NAME,
        5_000,
        "0=TEXT|10=5|20=5|1=A|230=0|0=EOF|",
        "E8 line 40006 extrusion",
    ),
];

/// Grids and what is drawn beside them. The larger one has 2,002,000 pieces, the smaller one 1,998,000; a level line across the
/// smaller one cuts the upright ones once more, which gives 1,999 pieces.
const GRIDS: [Case; 3] = [
    // A name on a line comes behind.
    (
        "|",
        GRID,
        1_001,
        "0=TEXT|10=10|20=5|1=A|0=ENDSEC|0=EOF|",
        "E12 more than 2000000 pieces",
    ),
    (
        "|",
        SMALLER_GRID,
        1_000,
        "0=LINE|10=0|20=0.5|11=999|21=0.5|0=LINE|10=-5|20=0|11=-5|21=1|0=LINE|10=-5|20=1|11=-5|21=0|0=ENDSEC|0=EOF|",
        "E12 more than 2000000 pieces",
    ),
    // A crossing off the lattice comes first.
    (
        "|",
        GRID,
        1_001,
        "0=LINE|10=0|20=-10|11=10|21=-3|0=LINE|10=0|20=-8|11=10|21=-10|0=ENDSEC|0=EOF|",
        "E11 segments 2003 and 2004 cross off the lattice near 2.222 -8.445",
    ),
];

/// Appends a text with a number in the place of each `#`.
fn put_numbered(alloc: Global, text: &[u8], number: usize, out: &mut Vec<u8>) -> Result<()> {
    for byte in text {
        if *byte == b'#' {
            out.extend_from_slice(format!(in alloc; "{number}")?.as_bytes())?;
        } else {
            out.push(*byte)?;
        }
    }
    Ok(())
}

/// The file of one text, another one so often, and a third one, behind the head of an ENTITIES section.
fn file_of(alloc: Global, front: &str, piece: &str, count: usize, rear: &str) -> Result<Vec<u8>> {
    let mut lines = Vec::new(alloc);
    put_lines(piece, "\n", &mut lines)?;
    let mut file = Vec::new(alloc);
    put_lines(HEAD, "\n", &mut file)?;
    put_lines(front, "\n", &mut file)?;
    for number in 0..count {
        put_numbered(alloc, &lines, number, &mut file)?;
    }
    put_lines(rear, "\n", &mut file)?;
    Ok(file)
}

fn are_counted(alloc: Global, cases: &[Case]) -> Result<()> {
    for (front, piece, count, rear, why) in cases {
        let file = file_of(alloc, front, piece, *count, rear)?;
        is_answered(alloc, rear, &file, why)?;
    }
    Ok(())
}

#[test]
fn lines_are_counted(rt: HostRuntime) -> Result<()> {
    are_counted(rt.alloc(), &LINES)
}

#[test]
fn sides_of_polylines_are_counted(rt: HostRuntime) -> Result<()> {
    are_counted(rt.alloc(), &POLYLINES)
}

#[test]
fn names_are_counted(rt: HostRuntime) -> Result<()> {
    are_counted(rt.alloc(), &NAMES)
}

#[test]
fn pieces_are_counted(rt: HostRuntime) -> Result<()> {
    are_counted(rt.alloc(), &GRIDS)
}

/// A line to the end of all others on it. The k-th of n, from 0, has n - k pieces.
const LEVEL_LINE: &str = "0=LINE|10=#|20=0|11=1999|21=0|";

#[test]
fn two_million_pieces_are_planned(rt: HostRuntime) -> Result<()> {
    let alloc = rt.alloc();
    // 1,999,000 pieces, and a thousand of one line more.
    let rear = "0=LINE|10=0|20=0|11=1000|21=0|0=ENDSEC|0=EOF|";
    let file = file_of(alloc, "|", LEVEL_LINE, 1_999, rear)?;
    is_planned_at_all(alloc, "two million pieces", &file, 4_000_000)
}

/// A piece with so many comments before it.
fn commented(alloc: Global, comments: usize, piece: &str) -> Result<String, AllocError> {
    let mut text = String::from_str(alloc, "")?;
    for _ in 0..comments {
        text.push_str(COMMENT)?;
    }
    text.push_str(piece)?;
    Ok(text)
}

#[test]
fn a_large_file_of_many_edges_is_planned(rt: HostRuntime) -> Result<()> {
    let alloc = rt.alloc();
    let piece = commented(alloc, 126, SMALL_GRID)?;
    let file = file_of(alloc, "|", piece.as_str(), 317, "0=ENDSEC|0=EOF|")?;
    ensure!(file.len() > 4_000_000);
    let desk = planned_desk(alloc, "a large file", &file, 10_000_000)?;
    let report = b"component 1 edges 200344 odd 1260 bound 630 limit 1259 pierces ";
    ensure!(desk.printed().starts_with(report.as_slice()));
    Ok(())
}

#[test]
fn as_many_parts_as_names_may_be_are_planned(rt: HostRuntime) -> Result<()> {
    let alloc = rt.alloc();
    let file = file_of(alloc, "|", NAMED_SQUARE, 5_000, "0=ENDSEC|0=EOF|")?;
    let desk = planned_desk(alloc, "many parts", &file, 1_000_000)?;
    let report = b"part N4999 rank 1\ntotal pierces 5000 bound 5000\nfewest\n";
    ensure!(desk.printed().ends_with(report.as_slice()));
    Ok(())
}
