//! Drawings of lines that are one loop, or one way.
ghost use Rattle.std.specs.Prelude.{◌<◌};

use super::{HEAD, TAIL, is_planned, put_lines, report_of};
use anyhow::Result;
use std::alloc::{AllocError, Global};

/// The file of a drawing of lines, each given as x and y of its two ends.
pub fn file_of_lines(alloc: Global, lines: &[&str]) -> Result<Vec<u8>, AllocError> {
    let mut file = Vec::new(alloc);
    put_lines(HEAD, "\n", &mut file)?;
    for line in lines {
        file.extend_from_slice(b"\n0\nLINE\n8\n0")?;
        for (code, number) in ["\n10\n", "\n20\n", "\n11\n", "\n21\n"]
            .iter()
            .zip(line.split(' '))
        {
            file.extend_from_slice(code.as_bytes())?;
            file.extend_from_slice(number.as_bytes())?;
        }
    }
    file.push(b'\n')?;
    put_lines(TAIL, "\n", &mut file)?;
    file.push(b'\n')?;
    Ok(file)
}

/// The code of one chain through these places, each given as its words; its lead-in begins at the first of them.
pub fn code_through(alloc: Global, places: &[&str]) -> Result<String, AllocError> {
    let mut code = String::from_str(alloc, "G21 G90\nF1000 S1\n")?;
    for (k, place) in places.iter().enumerate() {
        code.push_str(if k == 0 { "G0 " } else { "G1 " })?;
        code.push_str(place)?;
        code.push_str(if k == 0 { "\nM3\n" } else { "\n" })?;
    }
    code.push_str("M5\nM2\n")?;
    Ok(code)
}

#[test]
fn loops_are_burnt_from_the_mark_vertex_along_the_mark_side(rt: HostRuntime) -> Result<()> {
    let alloc = rt.alloc();
    let cases: [(&str, &[&str], &[&str]); 4] = [
        (
            "a square in any order and direction",
            &["0 10 10 10", "10 0 0 0", "0 0 0 10", "10 0 10 10"],
            &[
                "X4.000 Y12.000",
                "X0.000 Y10.000",
                "X10.000 Y10.000",
                "X10.000 Y0.000",
                "X0.000 Y0.000",
                "X0.000 Y10.000",
            ],
        ),
        (
            "both edges at the mark vertex go to the right",
            &["5 -1 0 0", "0 0 5 3", "5 3 2 0", "2 0 5 -1"],
            &[
                "X4.000 Y4.000",
                "X0.000 Y0.000",
                "X5.000 Y3.000",
                "X2.000 Y0.000",
                "X5.000 Y-1.000",
                "X0.000 Y0.000",
            ],
        ),
        (
            "the upper one of two places with the least x, and a vertex on a straight line",
            &["0 0 4 0", "4 0 0 6", "0 6 0 3", "0 3 0 0"],
            &[
                "X4.000 Y6.000",
                "X0.000 Y6.000",
                "X4.000 Y0.000",
                "X0.000 Y0.000",
                "X0.000 Y3.000",
                "X0.000 Y6.000",
            ],
        ),
        (
            "the ends of the range",
            &[
                "-100000 -100000.0004 100000.0004 -1E5",
                "100000 -100000 100000 100000",
                "100000 100000 -100000 -100000",
            ],
            &[
                "X-99998.000 Y-99996.000",
                "X-100000.000 Y-100000.000",
                "X100000.000 Y100000.000",
                "X100000.000 Y-100000.000",
                "X-100000.000 Y-100000.000",
            ],
        ),
    ];
    for (what, lines, places) in cases {
        let drawing = file_of_lines(alloc, lines)?;
        let code = code_through(alloc, places)?;
        let report = report_of(alloc, &[(lines.len(), 0)])?;
        is_planned(alloc, what, &drawing, code.as_str(), report.as_str())?;
    }
    Ok(())
}

#[test]
fn open_ways_are_burnt_towards_the_end_that_comes_first(rt: HostRuntime) -> Result<()> {
    let alloc = rt.alloc();
    let cases: [(&str, &[&str], &[&str]); 4] = [
        (
            "coordinates are rounded, ties away from zero",
            &["0.0005 -0.0005 1.5E+1 .5"],
            &["X19.000 Y0.500", "X15.000 Y0.500", "X0.001 Y-0.001"],
        ),
        (
            "coordinates are rounded to zero",
            &["0.00049 0E400 5. 1E-400"],
            &["X9.000 Y0.000", "X5.000 Y0.000", "X0.000 Y0.000"],
        ),
        (
            "the end of the range",
            &["0 0 100000.000 0"],
            &["X100004.000 Y0.000", "X100000.000 Y0.000", "X0.000 Y0.000"],
        ),
        (
            "a loop that isn't closed by a micrometre",
            &["0 0 9 0", "9 0 9 9", "9 9 0 9", "0 9 0 0.001"],
            &[
                "X4.000 Y2.000",
                "X0.000 Y0.000",
                "X9.000 Y0.000",
                "X9.000 Y9.000",
                "X0.000 Y9.000",
                "X0.000 Y0.001",
            ],
        ),
    ];
    for (what, lines, places) in cases {
        let drawing = file_of_lines(alloc, lines)?;
        let code = code_through(alloc, places)?;
        let report = report_of(alloc, &[(lines.len(), 2)])?;
        is_planned(alloc, what, &drawing, code.as_str(), report.as_str())?;
    }
    Ok(())
}

/// The lines of a loop round the places from 0 to `width` on two levels, `2 * width + 2` in all.
fn strip_of(alloc: Global, width: u32) -> Result<Vec<String>, AllocError>
    requires { width < 10000 }
{
    let mut lines = Vec::new(alloc);
    for k in 0..width {
        lines.push(format!(in alloc; "{k} 0 {} 0", k + 1)?)?;
        lines.push(format!(in alloc; "{k} 1 {} 1", k + 1)?)?;
    }
    lines.push(String::from_str(alloc, "0 0 0 1")?)?;
    lines.push(format!(in alloc; "{width} 0 {width} 1")?)?;
    Ok(lines)
}

/// A drawing of the first lines of a strip, `most` at most.
fn strip_file_of(alloc: Global, width: u32, most: usize) -> Result<Vec<u8>, AllocError>
    requires { width < 10000 }
{
    let strip = strip_of(alloc, width)?;
    let mut lines = Vec::new(alloc);
    for line in strip.iter().take(most) {
        lines.push(line.as_str())?;
    }
    file_of_lines(alloc, &lines)
}

/// The code of the strip: along the upper level to the east, and along the lower one back, led in from above.
fn strip_code_of(alloc: Global, width: u32) -> Result<String, AllocError>
    requires { width < 10000 }
{
    let mut code = String::from_str(alloc, "G21 G90\nF1000 S1\nG0 X4.000 Y3.000\nM3\n")?;
    for k in 0..width + 1 {
        code.push_str(format!(in alloc; "G1 X{k}.000 Y1.000\n")?.as_str())?;
    }
    for k in 0..width + 1 {
        code.push_str(format!(in alloc; "G1 X{}.000 Y0.000\n", width - k)?.as_str())?;
    }
    code.push_str("G1 X0.000 Y1.000\nM5\nM2\n")?;
    Ok(code)
}

#[test]
fn loops_of_many_edges_are_planned(rt: HostRuntime) -> Result<()> {
    let alloc = rt.alloc();
    for (width, edges) in [(1, 4), (99, 200), (500, 1_002)] {
        let drawing = strip_file_of(alloc, width, edges)?;
        let code = strip_code_of(alloc, width)?;
        let report = report_of(alloc, &[(edges, 0)])?;
        is_planned(alloc, "strip", &drawing, code.as_str(), report.as_str())?;
    }
    Ok(())
}

/// The code of the strip without the edge at its right end, which is burnt towards the upper one of the two odd vertices there. Its
/// lead-in comes from the east.
fn open_strip_code_of(alloc: Global, width: u32) -> Result<String, AllocError>
    requires { width < 10000 }
{
    let mut code = String::from_str(alloc, "G21 G90\nF1000 S1\n")?;
    code.push_str(format!(in alloc; "G0 X{}.000 Y0.000\nM3\n", width + 4)?.as_str())?;
    for k in 0..width + 1 {
        code.push_str(format!(in alloc; "G1 X{}.000 Y0.000\n", width - k)?.as_str())?;
    }
    for k in 0..width + 1 {
        code.push_str(format!(in alloc; "G1 X{k}.000 Y1.000\n")?.as_str())?;
    }
    code.push_str("M5\nM2\n")?;
    Ok(code)
}

#[test]
fn a_long_way_is_planned(rt: HostRuntime) -> Result<()> {
    let alloc = rt.alloc();
    for (width, lines) in [(1, 3), (9_999, 19_999)] {
        let drawing = strip_file_of(alloc, width, lines)?;
        let code = open_strip_code_of(alloc, width)?;
        let report = report_of(alloc, &[(lines, 2)])?;
        is_planned(alloc, "way", &drawing, code.as_str(), report.as_str())?;
    }
    Ok(())
}
