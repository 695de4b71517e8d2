//! The edges of segments, found by splitting.

ghost use Rattle.std.specs.Prelude.{◌≤◌, ◌≢◌, IsTrue, All, AllPairs, IfOk, length};
ghost use Rattle.nest_base.specs.Order.{IsBefore};
ghost use Rattle.nest_base.specs.Range.{IsSegmentWithin, IsEdgeWithin, widest};
ghost use Rattle.nest_base.specs.Limits.{most_segments, most_edges};
ghost use Rattle.plate_edges.specs.Points.{EdgesMeetAtEndsOnly};

use crate::samples::Ends;
use anyhow::{Result, bail};
use nest_base::{Drawing, Edges, OutOfMemory, Point, Segment};
use segment_split::split;
use std::alloc::Global;

/// Whether segments can be split: not too many, each with length and in range.
fn is_ready(segments: &[Segment]) -> bool
    ensures few { IsTrue result → length segments.now ≤ most_segments }
    ensures lengths { IsTrue result → All (λ s. s.a ≢ s.b) segments.now }
    ensures within { IsTrue result → All (IsSegmentWithin widest) segments.now }
{
    segments.len() <= 20_000
        && segments.iter().all(|s| s.has_length())
        && segments.iter().all(|s| s.is_in_range())
}

/// The drawing of segments between these ends.
fn drawing_of(alloc: Global, ends: &[Ends]) -> Result<Drawing, OutOfMemory> {
    let mut drawing = Drawing::new(alloc);
    for &[ax, ay, bx, by] in ends {
        drawing.push_segment(Segment {
            a: Point { x: ax, y: ay },
            b: Point { x: bx, y: by },
            line: 1,
        })?;
    }
    Ok(drawing)
}

/// The edges of a drawing, where it can be split.
pub fn edges_from(alloc: Global, drawing: &Drawing) -> Result<Edges>
    ensures few { IfOk result (λ edges. length edges ≤ most_edges) }
    ensures within { IfOk result (λ edges. All (IsEdgeWithin widest) edges) }
    ensures ends_in_order { IfOk result (λ edges. All (λ e. IsBefore e.low e.high) edges) }
    ensures apart { IfOk result (λ edges. AllPairs EdgesMeetAtEndsOnly edges) }
{
    if !is_ready(drawing.segments()) {
        bail!("no drawing");
    }
    Ok(split(alloc, drawing)?)
}

/// The edges of these segments.
pub fn edges_of(alloc: Global, ends: &[Ends]) -> Result<Edges>
    ensures few { IfOk result (λ edges. length edges ≤ most_edges) }
    ensures within { IfOk result (λ edges. All (IsEdgeWithin widest) edges) }
    ensures ends_in_order { IfOk result (λ edges. All (λ e. IsBefore e.low e.high) edges) }
    ensures apart { IfOk result (λ edges. AllPairs EdgesMeetAtEndsOnly edges) }
{
    let drawing = drawing_of(alloc, ends)?;
    edges_from(alloc, &drawing)
}
