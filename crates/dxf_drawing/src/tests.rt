//! A drawing that is read.
use crate::read_drawing;
use anyhow::{Result, ensure};
use nest_base::{Point, Segment};

/// A line and a name.
const DRAWING: &[u8] = b"0\nSECTION\n2\nENTITIES\n0\nLINE\n8\n0\n10\n0.5\n20\n0\n11\n10\n21\n-2\n\
0\nTEXT\n8\n0\n10\n5\n20\n1.25\n40\n3\n1\nA 1\n0\nENDSEC\n0\nEOF\n";

#[test]
fn a_line_and_a_name_are_read(rt: HostRuntime) -> Result<()> {
    let drawing = read_drawing(rt.alloc(), DRAWING)?;
    let line = Segment {
        a: Point { x: 500, y: 0 },
        b: Point {
            x: 10_000,
            y: -2_000,
        },
        line: 6,
    };
    ensure!(drawing.segments() == [line].as_slice());
    ensure!(drawing.names().len() == 1);
    let name = &drawing.names()[0];
    ensure!(name.at == Point { x: 5_000, y: 1_250 });
    ensure!(name.text.as_slice() == b"A 1".as_slice());
    ensure!(name.line == 18);
    Ok(())
}
