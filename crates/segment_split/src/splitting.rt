//! The edges of a drawing.
ghost use Rattle.std.specs.Prelude.{◌≡◌, ◌≤◌, length, All, AllPairs, IfOk, IfErr, ℕ, ◌↔◌};
ghost use Rattle.nest_base.specs.Order.{IsBefore};
ghost use Rattle.nest_base.specs.Plane.{RationalPoint, rational};
ghost use Rattle.nest_base.specs.Range.{IsSegmentWithin, IsEdgeWithin, widest};
ghost use Rattle.nest_base.specs.Limits.{most_segments, most_edges};
ghost use Rattle.plate_edges.specs.Cuts.{HasLength};
ghost use Rattle.plate_edges.specs.Edges.{IsInside};
ghost use Rattle.plate_edges.specs.Points.{IsOnSegments, IsOnEdges, EdgesMeetAtEndsOnly, IsSomeVertex};
ghost use Rattle.segment_split.specs.Splits.{IsSplit, IsSplitRefusal};

use crate::cuts::{CutError, cut_points};
use crate::pieces::Pieces;
use nest_base::{Drawing, Edges, OutOfMemory, Point};
use std::alloc::Global;
use thiserror::Error;

/// Why a drawing isn't split.
#[derive(Clone, Copy, Debug, Drop, Error)]
pub enum SplitError {
    /// These two segments cross at a point that is no place; segments are numbered from 1. `place` is that point, with each
    /// coordinate rounded down.
    #[error("two segments cross off the lattice")]
    Crossing {
        first: u32,
        second: u32,
        place: Point,
    },
    /// The segments have more than 2,000,000 pieces in all.
    #[error("the drawing has more than 2000000 pieces")]
    TooManyPieces,
    /// Memory ran out.
    #[error("out of memory")]
    OutOfMemory,
}

impl From<OutOfMemory> for SplitError {
    ghost use Rattle.segment_split.specs.declared.splitting.SplitError.TheVariants.{OutOfMemory as NoMemory};

    ghost from_gives = { λ _ e. e ≡ NoMemory };

    fn from(_: OutOfMemory) -> Self {
        SplitError::OutOfMemory
    }
}

/// The edges of a drawing: the pieces of its segments between neighbouring cut points, each once, by low end, then by high
/// end. A cut point is a place of a segment at which some segment ends or another one crosses it.
///
/// Coordinates are micrometres and lie within 2,000,000,000. `Crossing` comes where two segments that aren't parallel meet at a
/// point that is no place, and names the first such pair: the least first, then the least second. `TooManyPieces` comes where
/// there is none, and the pieces of all segments are more than 2,000,000; a piece that several share counts for each.
///
/// Takes **O(n² + m log m)** for n segments with m pieces, and memory for the pieces. `OutOfMemory` comes for want of it.
pub fn split(alloc: Global, drawing: &Drawing) -> Result<Edges, SplitError>
    requires few { length drawing.now.segments ≤ most_segments }
    requires lengths { All HasLength drawing.now.segments }
    requires within { All (IsSegmentWithin widest) drawing.now.segments }
    // What the edges are.
    ensures split { IfOk result (λ edges. IsSplit drawing.now.segments edges) }
    ensures most_edges { IfOk result (λ edges. length edges ≤ most_edges) }
    // That they are a plane graph of just the points that were drawn.
    ensures points_stay { IfOk result (λ edges. (p : RationalPoint) → IsOnEdges edges p ↔ IsOnSegments drawing.now.segments p) }
    ensures ends_in_order { IfOk result (λ edges. All (λ e. IsBefore e.low e.high) edges) }
    ensures apart { IfOk result (λ edges. AllPairs EdgesMeetAtEndsOnly edges) }
    ensures no_vertex_inside { IfOk result (λ edges. (v : Point) → IsSomeVertex edges v → All (λ e. IsInside (rational v) e.low e.high → ⊥) edges) }
    ensures within { IfOk result (λ edges. (n : ℕ) → All (IsSegmentWithin n) drawing.now.segments → All (IsEdgeWithin n) edges) }
    // Why there are none.
    ensures refused { IfErr result (λ why. IsSplitRefusal why drawing.now.segments) }
{
    let segments = drawing.segments();
    let mut pieces = Pieces::new(alloc);
    for (index, s) in segments.iter().enumerate() {
        let places = match cut_points(alloc, segments, s) {
            Ok(places) => places,
            Err(CutError::OffLattice { other, place }) => {
                return Err(SplitError::Crossing {
                    first: index as u32 + 1,
                    second: other as u32 + 1,
                    place,
                });
            }
            Err(CutError::OutOfMemory) => return Err(SplitError::OutOfMemory),
        };
        pieces.put(&places)?;
    }
    if pieces.are_too_many() {
        return Err(SplitError::TooManyPieces);
    }
    Ok(Edges::from_list(pieces.in_order()))
}
