//! Large drawings that are taken to their edges, graph or faces.
//!
//! The kinds are `grid`, so many level and so many upright lines, each of which crosses all others that way; `scattered`, so many short
//! lines of which no two meet; `slanted`, so many long lines side by side, in one another's boxes; and `squares`, so many in a row. The
//! steps are `edges`, `graph` and `faces`, each after the one before.
use anyhow::{Result, bail};
use drawing_samples::edges_from;
use face_nesting::Faces;
use half_edges::PlaneGraph;
use nest_base::{Drawing, OutOfMemory, Point, Segment};
use std::alloc::Global;

/// From each line to the next, in micrometres.
const STEP: i64 = 10_000;

fn put(drawing: &mut Drawing, a: [i64; 2], b: [i64; 2]) -> Result<(), OutOfMemory> {
    drawing.push_segment(Segment {
        a: Point { x: a[0], y: a[1] },
        b: Point { x: b[0], y: b[1] },
        line: 1,
    })
}

/// So many level and so many upright lines, a step apart, and a step longer than need be at both ends.
fn put_grid(drawing: &mut Drawing, count: u16) -> Result<(), OutOfMemory> {
    let end = i64::from(count) * STEP;
    for k in 0..count {
        let at = i64::from(k) * STEP;
        put(drawing, [-STEP, at], [end, at])?;
        put(drawing, [at, -STEP], [at, end])?;
    }
    Ok(())
}

/// So many short lines in rows of 200.
fn put_scattered(drawing: &mut Drawing, count: u16) -> Result<(), OutOfMemory> {
    for k in 0..count {
        let x = i64::from(k % 200) * STEP;
        let y = i64::from(k / 200) * STEP;
        put(drawing, [x, y], [x + 7_000, y + i64::from(k % 5) * 1_500])?;
    }
    Ok(())
}

/// So many long lines, each shifted a little against the one before.
fn put_slanted(drawing: &mut Drawing, count: u16) -> Result<(), OutOfMemory> {
    for k in 0..count {
        let x = i64::from(k) * 1_000;
        put(drawing, [x, 0], [x + 60_000_000, 60_000_000])?;
    }
    Ok(())
}

/// So many squares in a row, each a step from the one before.
fn put_squares(drawing: &mut Drawing, count: u16) -> Result<(), OutOfMemory> {
    for k in 0..count {
        let west = 2 * STEP * i64::from(k);
        let east = west + STEP;
        put(drawing, [west, 0], [east, 0])?;
        put(drawing, [east, 0], [east, STEP])?;
        put(drawing, [east, STEP], [west, STEP])?;
        put(drawing, [west, STEP], [west, 0])?;
    }
    Ok(())
}

/// How many edges a drawing has; or at a later step, how many vertices its graph has, or how many faces there are.
fn count_at(alloc: Global, drawing: &Drawing, step: &str) -> Result<usize> {
    let edges = edges_from(alloc, drawing)?;
    if step == "edges" {
        return Ok(edges.as_slice().len());
    }
    let graph = PlaneGraph::build(alloc, &edges)?;
    if step == "graph" {
        return Ok(graph.vertex_count() as usize);
    }
    let faces = Faces::build(alloc, &graph, &edges)?;
    Ok(faces.face_count() as usize)
}

/// How many edges, vertices or faces there are in a drawing of this kind with so many lines or squares, at this step.
pub fn count_of(alloc: Global, kind: &str, count: u16, step: &str) -> Result<usize> {
    let mut drawing = Drawing::new(alloc);
    match kind {
        "grid" => put_grid(&mut drawing, count)?,
        "scattered" => put_scattered(&mut drawing, count)?,
        "slanted" => put_slanted(&mut drawing, count)?,
        "squares" => put_squares(&mut drawing, count)?,
        _ => bail!("no such kind"),
    }
    count_at(alloc, &drawing, step)
}
