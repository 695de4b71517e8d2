//! The pieces of the segments that have been cut so far.
ghost use Rattle.std.specs.Prelude.{◌≡◌, ◌+◌, ◌-◌, ◌^◌, ◌≤◌, ◌<◌, ◌++◌, [], length, Contains, IsTrue, ◌↔◌, OnOk};
ghost use Rattle.nest_base.specs.Selection.{EnumeratesBy};
ghost use Rattle.nest_base.specs.Limits.{most_edges};
ghost use Rattle.plate_edges.specs.Edges.{IsEdgeBefore};
ghost use Rattle.segment_split.specs.Pieces.{pieces_between};

use nest_base::{Edge, OutOfMemory, Point};
use std::alloc::Global;

/// How many pieces the segments of a drawing may have in all.
const MOST_PIECES: u64 = 2_000_000;

/// The pieces so far: how many they are, and as long as these aren't too many, the pieces themselves.
#[derive(Drop)]
pub struct Pieces {
    pub edges: Vec<Edge>,
    pub count: u64,
}

impl Pieces {
    /// No pieces. It takes no memory yet.
    pub fn new(alloc: Global) -> Pieces
        ensures edges { result.edges.items ≡ [] }
        ensures count { result.count ≡ 0 }
    {
        Pieces {
            edges: Vec::new(alloc),
            count: 0,
        }
    }

    /// Adds the pieces between neighbours among these cut points of one more segment.
    pub fn put(&mut self, places: &[Point]) -> Result<(), OutOfMemory>
        requires some { 0 < length places.now }
        requires fits { self.old.count + length places.now < 2 ^ 64 }
        ensures count { OnOk result (self.new.count ≡ self.old.count + (length places.now - 1)) }
        ensures edges { OnOk result (self.new.count ≤ most_edges → self.new.edges.items ≡ self.old.edges.items ++ pieces_between places.now) }
    {
        self.count += (places.len() - 1) as u64;
        if self.count <= MOST_PIECES {
            put_pieces(places, &mut self.edges)?;
        }
        Ok(())
    }

    /// Whether they are more than a drawing may have.
    pub fn are_too_many(&self) -> bool
        ensures { IsTrue result ↔ (most_edges < self.now.count) }
    {
        self.count > MOST_PIECES
    }

    /// The pieces, each once, by low end, then by high end.
    pub fn in_order(self) -> Vec<Edge>
        ensures enumerates { EnumeratesBy IsEdgeBefore (Contains self.edges.items) result.items }
        ensures not_more { length result.items ≤ length self.edges.items }
    {
        let mut edges = self.edges;
        edges.sort_unstable();
        edges.dedup();
        edges
    }
}

/// Adds the pieces between neighbours among these places.
fn put_pieces(places: &[Point], edges: &mut Vec<Edge>) -> Result<(), OutOfMemory>
    ensures { OnOk result (edges.new.items ≡ edges.old.items ++ pieces_between places.now) }
{
    for k in 1..places.len() {
        edges.push(Edge {
            low: places[k - 1],
            high: places[k],
        })?;
    }
    Ok(())
}
