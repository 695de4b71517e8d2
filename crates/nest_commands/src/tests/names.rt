//! Names: where they stand, what they name, and what is printed of them.

use super::{
    ACCEPTED, HEAD, Part, SQUARE, TAIL, file_of, is_answered, is_refused, is_reported,
    named_drawing_of, parts_report_of,
};
use anyhow::Result;
use drawing_samples::Sample;
use drawing_samples::samples::{
    BETWEEN_ARMS, BOW_TIE, FIVE_NESTED, LINE, LINE_IN_SQUARES, NOTCH, SQUARE_IN_FOUR,
    SQUARE_IN_NINE, SQUARE_IN_SQUARE, TOUCHING_SQUARES, TWO_IN_SQUARE, TWO_RECTANGLES, TWO_SPIKES,
};
use std::alloc::Global;

/// A square that stands on a corner.
const DIAMOND: Sample = Sample {
    name: "a diamond",
    segments: &[[0, 5, 5, 10], [5, 10, 10, 5], [10, 5, 5, 0], [5, 0, 0, 5]],
};

/// Drawings, names on their lines or beside them, each as x and y of its place and its text, and why they are refused, if they are.
const ON_LINES: [(Sample, &[&str], &str); 14] = [
    // On a line, at an end of one, and where two meet.
    (TWO_RECTANGLES, &["10 5 A"], "E13 line 102 name on a line"),
    (TWO_RECTANGLES, &["5 0 A"], "E13 line 102 name on a line"),
    (TWO_RECTANGLES, &["0 0 A"], "E13 line 102 name on a line"),
    (TWO_RECTANGLES, &["10 10 A"], "E13 line 102 name on a line"),
    (DIAMOND, &["2.5 7.5 A"], "E13 line 54 name on a line"),
    (TWO_SPIKES, &["25 2.5 A"], "E13 line 78 name on a line"),
    (TWO_SPIKES, &["25 10 A"], "E13 line 78 name on a line"),
    (LINE, &["5 0 A"], "E13 line 18 name on a line"),
    (LINE_IN_SQUARES, &["25 25 A"], "E13 line 114 name on a line"),
    // A micrometre beside a line, and less, which is on it after rounding.
    (TWO_RECTANGLES, &["9.999 5 A"], ACCEPTED),
    (TWO_RECTANGLES, &["10.001 5 A"], ACCEPTED),
    (
        TWO_RECTANGLES,
        &["9.9996 5 A"],
        "E13 line 102 name on a line",
    ),
    (DIAMOND, &["2.501 7.5 A"], ACCEPTED),
    (
        DIAMOND,
        &["2.499 7.5 A"],
        "E14 line 54 name outside every part",
    ),
];

/// Names at the height of a vertex.
const AT_HEIGHTS: [(Sample, &[&str], &str); 12] = [
    // At the height of a vertex, and a micrometre above it and below.
    (DIAMOND, &["5 5 A"], ACCEPTED),
    (DIAMOND, &["5 5.001 A"], ACCEPTED),
    (DIAMOND, &["5 4.999 A"], ACCEPTED),
    (DIAMOND, &["0.001 5 A"], ACCEPTED),
    (
        DIAMOND,
        &["-0.001 5 A"],
        "E14 line 54 name outside every part",
    ),
    (
        DIAMOND,
        &["10.001 5 A"],
        "E14 line 54 name outside every part",
    ),
    (
        DIAMOND,
        &["5 10.001 A"],
        "E14 line 54 name outside every part",
    ),
    (DIAMOND, &["5 9.999 A"], ACCEPTED),
    (DIAMOND, &["5 0.001 A"], ACCEPTED),
    (
        DIAMOND,
        &["5 -0.001 A"],
        "E14 line 54 name outside every part",
    ),
    (
        NOTCH,
        &["5 20.001 A"],
        "E14 line 138 name outside every part",
    ),
    (NOTCH, &["5 19.999 A"], ACCEPTED),
];

/// Names outside of all parts.
const OUTSIDE: [(Sample, &[&str], &str); 6] = [
    // Outside of all lines.
    (
        TWO_RECTANGLES,
        &["25 5 A"],
        "E14 line 102 name outside every part",
    ),
    (
        TWO_RECTANGLES,
        &["-1 5 A"],
        "E14 line 102 name outside every part",
    ),
    (LINE, &["5 1 A"], "E14 line 18 name outside every part"),
    // Between parts that touch, or the arms of one.
    (
        TOUCHING_SQUARES,
        &["15 5 A"],
        "E14 line 102 name outside every part",
    ),
    (BOW_TIE, &["2 3 A"], "E14 line 54 name outside every part"),
    (
        BETWEEN_ARMS,
        &["15 25 A"],
        "E14 line 150 name outside every part",
    ),
];

/// More names than one.
const IN_ONE_FACE: [(Sample, &[&str], &str); 12] = [
    // Two names of one face.
    (
        TWO_RECTANGLES,
        &["5 5 A", "6 6 B"],
        "E15 lines 102 and 114 name one face",
    ),
    (
        TWO_RECTANGLES,
        &["5 5 A", "5 5 A"],
        "E15 lines 102 and 114 name one face",
    ),
    (
        BETWEEN_ARMS,
        &["15 2 A", "2 15 B"],
        "E15 lines 150 and 162 name one face",
    ),
    (
        TWO_IN_SQUARE,
        &["18 15 A", "35 15 B"],
        "E15 lines 150 and 162 name one face",
    ),
    (
        LINE_IN_SQUARES,
        &["25 22 A", "22 25 B"],
        "E15 lines 114 and 126 name one face",
    ),
    // Spikes don't divide a face.
    (
        TWO_SPIKES,
        &["25 6 A", "5 25 B"],
        "E15 lines 78 and 90 name one face",
    ),
    // The first later name decides, with the earlier name of its own face.
    (
        TWO_RECTANGLES,
        &["5 5 A", "15 5 B", "16 6 C", "6 6 D"],
        "E15 lines 114 and 126 name one face",
    ),
    (
        TWO_RECTANGLES,
        &["5 5 A", "15 5 B", "6 6 C", "7 7 D"],
        "E15 lines 102 and 126 name one face",
    ),
    // Names that stand nowhere come before those of one face, in their own order.
    (
        TWO_RECTANGLES,
        &["5 5 A", "6 6 B", "25 5 C"],
        "E14 line 126 name outside every part",
    ),
    (
        TWO_RECTANGLES,
        &["5 5 A", "6 6 B", "10 5 C"],
        "E13 line 126 name on a line",
    ),
    (
        TWO_RECTANGLES,
        &["25 5 A", "10 5 B"],
        "E14 line 102 name outside every part",
    ),
    (
        TWO_RECTANGLES,
        &["10 5 A", "25 5 B"],
        "E13 line 102 name on a line",
    ),
];

/// Whether each drawing with these names is planned or refused as its row says.
fn are_answered(alloc: Global, rows: &[(Sample, &[&str], &str)]) -> Result<()> {
    for (sample, names, why) in rows {
        let file = named_drawing_of(alloc, sample.segments, names)?;
        is_answered(alloc, sample.name, &file, why)?;
    }
    Ok(())
}

#[test]
fn names_on_lines_are_refused(rt: HostRuntime) -> Result<()> {
    are_answered(rt.alloc(), &ON_LINES)
}

#[test]
fn names_stand_at_the_height_of_a_vertex(rt: HostRuntime) -> Result<()> {
    are_answered(rt.alloc(), &AT_HEIGHTS)
}

#[test]
fn names_outside_every_part_are_refused(rt: HostRuntime) -> Result<()> {
    are_answered(rt.alloc(), &OUTSIDE)
}

#[test]
fn names_have_faces_of_their_own(rt: HostRuntime) -> Result<()> {
    are_answered(rt.alloc(), &IN_ONE_FACE)
}

/// Files with a name that stands nowhere, which are refused for something else.
const OTHERWISE_WRONG: [(&[&str], &str); 4] = [
    (
        &[HEAD, SQUARE, "0=TEXT|10=10|20=5|1=A|0=ARC", TAIL],
        "E8 line 62 ARC",
    ),
    (
        &[HEAD, SQUARE, "0=TEXT|10=50|20=50|1=A"],
        "E4 line 61 missing",
    ),
    (
        &[
            HEAD,
            "0=TEXT|10=50|20=50|1=A|0=LINE|10=3|20=3|11=3|21=3",
            TAIL,
        ],
        "E10 nothing to cut",
    ),
    (
        &[
            HEAD,
            "0=TEXT|10=0|20=0|1=A|0=LINE|10=0|20=0|11=10|21=7|0=LINE|10=0|20=2|11=10|21=0",
            TAIL,
        ],
        "E11 segments 1 and 2 cross off the lattice near 2.222 1.555",
    ),
];

#[test]
fn names_are_refused_behind_all_else(rt: HostRuntime) -> Result<()> {
    let alloc = rt.alloc();
    for (pieces, why) in OTHERWISE_WRONG {
        is_refused(alloc, why, &file_of(alloc, pieces, "\n")?, why)?;
    }
    Ok(())
}

/// A drawing whose components take one pierce each, by their edges and odd vertices; its names; and what is printed of them.
struct Named {
    sample: Sample,
    names: &'static [&'static str],
    components: &'static [(usize, usize)],
    parts: &'static [Part<'static>],
}

const NAMED: [Named; 10] = [
    Named {
        sample: TWO_RECTANGLES,
        names: &["5 5 A", "15 5 B"],
        components: &[(7, 2)],
        parts: &[("A", 1), ("B", 1)],
    },
    // In the order of the file, and two parts may have one name.
    Named {
        sample: TWO_RECTANGLES,
        names: &["15 5 SAME", "5 5 SAME"],
        components: &[(7, 2)],
        parts: &[("SAME", 1), ("SAME", 1)],
    },
    Named {
        sample: TOUCHING_SQUARES,
        names: &["15 15 A", "5 5 B"],
        components: &[(8, 0)],
        parts: &[("A", 1), ("B", 1)],
    },
    Named {
        sample: BOW_TIE,
        names: &["1 2 LEFT", "3 2 RIGHT"],
        components: &[(6, 0)],
        parts: &[("LEFT", 1), ("RIGHT", 1)],
    },
    // A part with a hole, and a part in the hole.
    Named {
        sample: SQUARE_IN_SQUARE,
        names: &["15 15 H", "5 5 W"],
        components: &[(4, 0), (4, 0)],
        parts: &[("H", 2), ("W", 1)],
    },
    // East of the hole, and a micrometre above it.
    Named {
        sample: SQUARE_IN_SQUARE,
        names: &["25 15 W"],
        components: &[(4, 0), (4, 0)],
        parts: &[("W", 1)],
    },
    Named {
        sample: SQUARE_IN_SQUARE,
        names: &["15 20.001 W"],
        components: &[(4, 0), (4, 0)],
        parts: &[("W", 1)],
    },
    // A loop in a loop, and so on.
    Named {
        sample: FIVE_NESTED,
        names: &["50 50 A", "5 5 B", "35 35 C", "15 15 D", "25 25 E"],
        components: &[(4, 0), (4, 0), (4, 0), (4, 0), (4, 0)],
        parts: &[("A", 5), ("B", 1), ("C", 4), ("D", 2), ("E", 3)],
    },
    Named {
        sample: TWO_IN_SQUARE,
        names: &["18 15 A", "25 15 B", "10 15 C"],
        components: &[(4, 0), (4, 0), (4, 0)],
        parts: &[("A", 1), ("B", 2), ("C", 2)],
    },
    // A part between the arms of another one is in no hole of it.
    Named {
        sample: BETWEEN_ARMS,
        names: &["15 2 A", "15 15 B"],
        components: &[(8, 0), (4, 0)],
        parts: &[("A", 1), ("B", 1)],
    },
];

#[test]
fn parts_are_reported_with_their_ranks(rt: HostRuntime) -> Result<()> {
    let alloc = rt.alloc();
    for named in &NAMED {
        let file = named_drawing_of(alloc, named.sample.segments, named.names)?;
        let report = parts_report_of(alloc, named.components, named.parts)?;
        is_reported(alloc, named.sample.name, &file, report.as_str())?;
    }
    Ok(())
}

/// Drawings that take more pierces, with their names and their reports.
const MORE_PIERCES: [(Sample, &[&str], &str); 3] = [
    // Between the spikes.
    (
        TWO_SPIKES,
        &["25 6 A"],
        "component 1 edges 6 odd 2 bound 1 limit 2 pierces 2\npart A rank 1\ntotal pierces 2 bound 1\nnot shown fewest\n",
    ),
    (
        SQUARE_IN_FOUR,
        &["15 5 2", "5 5 1", "15 15 4", "5 15 3"],
        "component 1 edges 12 odd 4 bound 2 limit 3 pierces 3\npart 2 rank 1\npart 1 rank 1\npart 4 rank 1\npart 3 rank 1\ntotal pierces 3 bound 2\nnot shown fewest\n",
    ),
    // All round the middle lie other parts.
    (
        SQUARE_IN_NINE,
        &["15 15 M", "5 5 C"],
        "component 1 edges 24 odd 8 bound 4 limit 7 pierces 7\npart M rank 2\npart C rank 1\ntotal pierces 7 bound 4\nnot shown fewest\n",
    ),
];

#[test]
fn parts_are_reported_behind_the_components(rt: HostRuntime) -> Result<()> {
    let alloc = rt.alloc();
    for (sample, names, report) in &MORE_PIERCES {
        let file = named_drawing_of(alloc, sample.segments, names)?;
        is_reported(alloc, sample.name, &file, report)?;
    }
    Ok(())
}
