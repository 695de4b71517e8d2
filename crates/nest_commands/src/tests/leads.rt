//! Lead-ins: from where each chain is led in, and which chains are pierced on the line.

use super::{HEAD, ROOM, TAIL, planned_desk, put_lines, put_name};
use anyhow::{Result, ensure};
use std::alloc::{AllocError, Global};

/// A drawing of loops, each through its vertices and back to the first one; its names, each as x and y of its place and its text; and its
/// chains, each as the places along it, from the one where the torch is lit: there its lead-in begins, or its first edge where it has
/// none. Places are `X,Y` in millimetres.
struct Row {
    what: &'static str,
    loops: &'static [&'static str],
    names: &'static [&'static str],
    chains: &'static [&'static str],
}

const SHARED_CUTS: [Row; 7] = [
    // Parts on both sides of a shared cut, on the left one, and on the right one.
    Row {
        what: "two parts that share a cut",
        loops: &["0,0 10,0 10,10 0,10", "10,0 20,0 20,10 10,10"],
        names: &["5 5 P", "15 5 P"],
        chains: &["10,0 10,10 20,10 20,0 10,0 0,0 0,10 10,10"],
    },
    Row {
        what: "a part on the left of a shared cut",
        loops: &["0,0 10,0 10,10 0,10", "10,0 20,0 20,10 10,10"],
        names: &["5 5 P"],
        chains: &["14,2 10,0 10,10 20,10 20,0 10,0 0,0 0,10 10,10"],
    },
    Row {
        what: "a part on the right of a shared cut",
        loops: &["0,0 10,0 10,10 0,10", "10,0 20,0 20,10 10,10"],
        names: &["15 5 P"],
        chains: &["8,4 10,0 10,10 20,10 20,0 10,0 0,0 0,10 10,10"],
    },
    Row {
        what: "two parts one above the other",
        loops: &["0,0 10,0 10,10 0,10", "0,10 10,10 10,20 0,20"],
        names: &["5 5 P", "5 15 P"],
        chains: &["10,10 0,10 0,20 10,20 10,10 10,0 0,0 0,10"],
    },
    Row {
        what: "a part below a shared cut",
        loops: &["0,0 10,0 10,10 0,10", "0,10 10,10 10,20 0,20"],
        names: &["5 5 P"],
        chains: &["8,14 10,10 0,10 0,20 10,20 10,10 10,0 0,0 0,10"],
    },
    Row {
        what: "no part at a shared cut",
        loops: &["0,0 10,0 10,10 0,10", "0,10 10,10 10,20 0,20"],
        names: &[],
        chains: &["6,8 10,10 0,10 0,20 10,20 10,10 10,0 0,0 0,10"],
    },
    // Cells that every try leaves.
    Row {
        what: "cells of less than half a millimetre",
        loops: &[
            "0,0 0.400,0 0.400,0.400 0,0.400",
            "0.400,0 0.800,0 0.800,0.400 0.400,0.400",
        ],
        names: &[],
        chains: &["0.400,0 0.400,0.400 0.800,0.400 0.800,0 0.400,0 0,0 0,0.400 0.400,0.400"],
    },
];

/// Scrap round parts and in them.
const STRIPS_AND_HOLES: [Row; 9] = [
    // Round a square lies a strip. Its first try goes two millimetres up, and the first of the short ones half a millimetre.
    Row {
        what: "a strip of three millimetres",
        loops: &["0,0 16,0 16,16 0,16", "3,3 13,3 13,13 3,13"],
        names: &[],
        chains: &[
            "7,15 3,13 13,13 13,3 3,3 3,13",
            "4,18 0,16 16,16 16,0 0,0 0,16",
        ],
    },
    Row {
        what: "a strip of two millimetres and a micrometre",
        loops: &[
            "0,0 14.002,0 14.002,14.002 0,14.002",
            "2.001,2.001 12.001,2.001 12.001,12.001 2.001,12.001",
        ],
        names: &[],
        chains: &[
            "6.001,14.001 2.001,12.001 12.001,12.001 12.001,2.001 2.001,2.001 2.001,12.001",
            "4,16.002 0,14.002 14.002,14.002 14.002,0 0,0 0,14.002",
        ],
    },
    Row {
        what: "a strip of two millimetres",
        loops: &["0,0 14,0 14,14 0,14", "2,2 12,2 12,12 2,12"],
        names: &[],
        chains: &[
            "3,12.500 2,12 12,12 12,2 2,2 2,12",
            "4,16 0,14 14,14 14,0 0,0 0,14",
        ],
    },
    Row {
        what: "a strip of half a millimetre and a micrometre",
        loops: &[
            "0,0 11.002,0 11.002,11.002 0,11.002",
            "0.501,0.501 10.501,0.501 10.501,10.501 0.501,10.501",
        ],
        names: &[],
        chains: &[
            "1.501,11.001 0.501,10.501 10.501,10.501 10.501,0.501 0.501,0.501 0.501,10.501",
            "4,13.002 0,11.002 11.002,11.002 11.002,0 0,0 0,11.002",
        ],
    },
    Row {
        what: "a strip of half a millimetre, and scrap in it",
        loops: &[
            "0,0 11,0 11,11 0,11",
            "0.500,0.500 10.500,0.500 10.500,10.500 0.500,10.500",
        ],
        names: &[],
        chains: &[
            "2.500,6.500 0.500,10.500 10.500,10.500 10.500,0.500 0.500,0.500 0.500,10.500",
            "4,13 0,11 11,11 11,0 0,0 0,11",
        ],
    },
    Row {
        what: "a strip of half a millimetre round a part",
        loops: &[
            "0,0 11,0 11,11 0,11",
            "0.500,0.500 10.500,0.500 10.500,10.500 0.500,10.500",
        ],
        names: &["5 5 P"],
        chains: &[
            "0.500,10.500 10.500,10.500 10.500,0.500 0.500,0.500 0.500,10.500",
            "4,13 0,11 11,11 11,0 0,0 0,11",
        ],
    },
    // A hole is scrap where nothing names it, and so is what is round a part in a hole.
    Row {
        what: "a hole in a part",
        loops: &["0,0 30,0 30,30 0,30", "10,10 20,10 20,20 10,20"],
        names: &["5 5 P"],
        chains: &[
            "12,16 10,20 20,20 20,10 10,10 10,20",
            "4,32 0,30 30,30 30,0 0,0 0,30",
        ],
    },
    Row {
        what: "a part in a square of scrap",
        loops: &["0,0 30,0 30,30 0,30", "10,10 20,10 20,20 10,20"],
        names: &["15 15 P"],
        chains: &[
            "14,22 10,20 20,20 20,10 10,10 10,20",
            "4,32 0,30 30,30 30,0 0,0 0,30",
        ],
    },
    Row {
        what: "a part in the hole of a part",
        loops: &["0,0 30,0 30,30 0,30", "10,10 20,10 20,20 10,20"],
        names: &["15 15 P", "5 5 P"],
        chains: &[
            "10,20 20,20 20,10 10,10 10,20",
            "4,32 0,30 30,30 30,0 0,0 0,30",
        ],
    },
];

/// Slots, wedges and spikes.
const NARROW: [Row; 11] = [
    // Slots in a part.
    Row {
        what: "a slot of a millimetre",
        loops: &["0,0 20,0 20,20 0,20", "5,5 6,5 6,15 5,15"],
        names: &["10 10 P"],
        chains: &[
            "5.500,14 5,15 6,15 6,5 5,5 5,15",
            "4,22 0,20 20,20 20,0 0,0 0,20",
        ],
    },
    Row {
        what: "a slot of half a millimetre and a micrometre",
        loops: &["0,0 20,0 20,20 0,20", "5,5 5.501,5 5.501,15 5,15"],
        names: &["10 10 P"],
        chains: &[
            "5.500,14 5,15 5.501,15 5.501,5 5,5 5,15",
            "4,22 0,20 20,20 20,0 0,0 0,20",
        ],
    },
    Row {
        what: "a slot of half a millimetre",
        loops: &["0,0 20,0 20,20 0,20", "5,5 5.500,5 5.500,15 5,15"],
        names: &["10 10 P"],
        chains: &[
            "5,15 5.500,15 5.500,5 5,5 5,15",
            "4,22 0,20 20,20 20,0 0,0 0,20",
        ],
    },
    // Directions: one inside the corner, one along its edge, and none.
    Row {
        what: "a wedge with one direction inside",
        loops: &["0,0 20,0 20,20 0,20", "5,10 15,4 15,10"],
        names: &["10 5 P"],
        chains: &["9,8 5,10 15,10 15,4 5,10", "4,22 0,20 20,20 20,0 0,0 0,20"],
    },
    Row {
        what: "a wedge with one direction along its edge",
        loops: &["0,0 20,0 20,20 0,20", "5,10 15,5 15,10"],
        names: &["10 4 P"],
        chains: &["5,10 15,10 15,5 5,10", "4,22 0,20 20,20 20,0 0,0 0,20"],
    },
    Row {
        what: "a wedge with none",
        loops: &["0,0 20,0 20,20 0,20", "5,10 15,9 15,10"],
        names: &["10 5 P"],
        chains: &["5,10 15,10 15,9 5,10", "4,22 0,20 20,20 20,0 0,0 0,20"],
    },
    // At a vertex with one edge every direction lies inside but that of the edge.
    Row {
        what: "a line to the west",
        loops: &["0,0 10,0"],
        names: &[],
        chains: &["14,0 10,0 0,0"],
    },
    Row {
        what: "a line to the north",
        loops: &["0,0 0,10"],
        names: &[],
        chains: &["4,0 0,0 0,10"],
    },
    Row {
        what: "a spike whose edge goes east",
        loops: &["0,0 30,0 30,30 0,30", "20,15 30,15"],
        names: &[],
        chains: &["24,17 20,15 30,15 30,0 0,0 0,30 30,30 30,15"],
    },
    Row {
        what: "a spike in a part",
        loops: &["0,0 30,0 30,30 0,30", "20,15 30,15"],
        names: &["5 5 P"],
        chains: &["20,15 30,15 30,0 0,0 0,30 30,30 30,15"],
    },
    Row {
        what: "a line in a part",
        loops: &["0,0 30,0 30,30 0,30", "10,15 20,15"],
        names: &["5 5 P"],
        chains: &["20,15 10,15", "4,32 0,30 30,30 30,0 0,0 0,30"],
    },
];

/// What a lead-in may not touch.
const TOUCHING: [Row; 8] = [
    // The drawing is touched nowhere else: not at a vertex on the way, nor where the lead-in begins.
    Row {
        what: "a vertex on the way",
        loops: &["0,0 10,0", "12,0 20,-5"],
        names: &[],
        chains: &["14,2 10,0 0,0", "24,-5 20,-5 12,0"],
    },
    Row {
        what: "a vertex on a slanting way",
        loops: &["-1,0 0,0 0,-1", "0,0 1,0 0,1"],
        names: &[],
        chains: &["1,4 -1,0 0,0 0,1 1,0 0,0 0,-1 -1,0"],
    },
    Row {
        what: "a vertex at the beginning",
        loops: &["0,0 10,0", "14,0 20,-5"],
        names: &[],
        chains: &["14,2 10,0 0,0", "24,-5 20,-5 14,0"],
    },
    Row {
        what: "a vertex a micrometre behind it",
        loops: &["0,0 10,0", "14.001,0 20,-5"],
        names: &[],
        chains: &["14,0 10,0 0,0", "24,-5 20,-5 14.001,0"],
    },
    Row {
        what: "a line along the way",
        loops: &["0,0 10,0", "12,0 20,0"],
        names: &[],
        chains: &["14,2 10,0 0,0", "24,0 20,0 12,0"],
    },
    Row {
        what: "a line that begins at the beginning",
        loops: &["0,0 10,0", "14,0 20,0"],
        names: &[],
        chains: &["14,2 10,0 0,0", "24,0 20,0 14,0"],
    },
    // Nor is an earlier lead-in touched.
    Row {
        what: "an earlier lead-in across the way",
        loops: &["0,0 10,0 10,10 0,10", "1,20 1,11"],
        names: &[],
        chains: &["4,12 0,10 10,10 10,0 0,0 0,10", "5,13 1,11 1,20"],
    },
    Row {
        what: "an earlier lead-in that begins on the way",
        loops: &["0,0 10,0 10,10 0,10", "1,20 2,12"],
        names: &[],
        chains: &["4,12 0,10 10,10 10,0 0,0 0,10", "6,14 2,12 1,20"],
    },
];

const AT_THE_RANGE: [Row; 4] = [
    // Lead-ins begin beyond the range of drawings.
    Row {
        what: "an upper right corner of the range",
        loops: &["0,0 100000,100000"],
        names: &[],
        chains: &["100004,100000 100000,100000 0,0"],
    },
    Row {
        what: "a lower right corner of the range",
        loops: &["100000,100000 100000,-100000"],
        names: &[],
        chains: &["100004,-100000 100000,-100000 100000,100000"],
    },
    Row {
        what: "an upper left corner of the range",
        loops: &["-100000,99990 -99990,99990 -99990,100000 -100000,100000"],
        names: &[],
        chains: &[
            "-99996,100002 -100000,100000 -99990,100000 -99990,99990 -100000,99990 -100000,100000",
        ],
    },
    Row {
        what: "the west of the range, beside a line",
        loops: &["-100000,0 -100000,10", "-99999.600,-10 -99999.600,20"],
        names: &[],
        chains: &[
            "-100002,4 -100000,0 -100000,10",
            "-99995.600,-10 -99999.600,-10 -99999.600,20",
        ],
    },
];

/// Appends a closed polyline through these vertices.
fn put_loop(vertices: &str, file: &mut Vec<u8>) -> Result<(), AllocError> {
    put_lines("0=POLYLINE|70=1|", "\n", file)?;
    for place in vertices.split(' ') {
        for (code, number) in ["0\nVERTEX\n10\n", "20\n"].iter().zip(place.split(',')) {
            file.extend_from_slice(code.as_bytes())?;
            file.extend_from_slice(number.as_bytes())?;
            file.push(b'\n')?;
        }
    }
    Ok(())
}

/// The file of a drawing of loops and names.
fn file_of(alloc: Global, loops: &[&str], names: &[&str]) -> Result<Vec<u8>, AllocError> {
    let mut file = Vec::new(alloc);
    put_lines(HEAD, "\n", &mut file)?;
    file.push(b'\n')?;
    for vertices in loops {
        put_loop(vertices, &mut file)?;
    }
    for name in names {
        put_name(name, &mut file)?;
    }
    put_lines(TAIL, "\n", &mut file)?;
    file.push(b'\n')?;
    Ok(file)
}

/// Appends the words of a place. Whole numbers get their decimals.
fn put_place(place: &str, code: &mut String) -> Result<(), AllocError> {
    for (letter, number) in ["X", " Y"].iter().zip(place.split(',')) {
        code.push_str(letter)?;
        code.push_str(number)?;
        if number.bytes().all(|byte| byte != b'.') {
            code.push_str(".000")?;
        }
    }
    Ok(())
}

/// Appends the code of the chain along these places.
fn put_chain(places: &str, code: &mut String) -> Result<(), AllocError> {
    for (k, place) in places.split(' ').enumerate() {
        code.push_str(if k == 0 { "G0 " } else { "G1 " })?;
        put_place(place, code)?;
        code.push_str(if k == 0 { "\nM3\n" } else { "\n" })?;
    }
    code.push_str("M5\n")
}

/// The code of chains.
fn code_of(alloc: Global, chains: &[&str]) -> Result<String, AllocError> {
    let mut code = String::from_str(alloc, "G21 G90\nF1000 S1\n")?;
    for places in chains {
        put_chain(places, &mut code)?;
    }
    code.push_str("M2\n")?;
    Ok(code)
}

/// Whether the chains of each drawing are led in as the row says.
fn are_led_in(alloc: Global, rows: &[Row]) -> Result<()> {
    for row in rows {
        let drawing = file_of(alloc, row.loops, row.names)?;
        let code = code_of(alloc, row.chains)?;
        let desk = planned_desk(alloc, row.what, &drawing, ROOM)?;
        ensure!(desk.file("a.ngc") == Some(code.as_bytes()), "{}", row.what);
    }
    Ok(())
}

#[test]
fn shared_cuts_are_led_in_beside_parts(rt: HostRuntime) -> Result<()> {
    are_led_in(rt.alloc(), &SHARED_CUTS)
}

#[test]
fn strips_and_holes_are_scrap(rt: HostRuntime) -> Result<()> {
    are_led_in(rt.alloc(), &STRIPS_AND_HOLES)
}

#[test]
fn narrow_corners_are_led_in_where_a_try_fits(rt: HostRuntime) -> Result<()> {
    are_led_in(rt.alloc(), &NARROW)
}

#[test]
fn lead_ins_touch_nothing_else(rt: HostRuntime) -> Result<()> {
    are_led_in(rt.alloc(), &TOUCHING)
}

#[test]
fn lead_ins_begin_beyond_the_range(rt: HostRuntime) -> Result<()> {
    are_led_in(rt.alloc(), &AT_THE_RANGE)
}
