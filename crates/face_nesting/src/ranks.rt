//! The ranks of faces: how many edges are crossed from each to the outer one.
ghost use Rattle.std.specs.Prelude.{◌≡◌, ◌≤◌, ◌<◌, ◌+◌, length, All, IfOk, OnOk, List, ℕ, slice_get, Some};
ghost use Rattle.half_edges.specs.Numbers.{half_edges_of};
ghost use Rattle.nest_base.specs.Limits.{most_half_edges};
ghost use Rattle.face_nesting.specs.Numbering.{face_numbers_of, outer_face};
ghost use Rattle.face_nesting.specs.Ranks.{AreDistances, AreLinked, GetsRank, IsSpread, no_rank, unranked};

use crate::numbering::{FaceId, OUTER};
use half_edges::PlaneGraph;
use nest_base::{OutOfMemory, Side};
use std::alloc::Global;

/// The half-edges of each face, each with the one before it.
#[derive(Drop)]
struct Borders {
    /// The last half-edge of each face, by number.
    last: Vec<Option<Side>>,
    /// The one before it of the same face, by number of a half-edge.
    before: Vec<Option<Side>>,
}

impl Borders {
    /// The half-edges of each of these many faces, where the face of each half-edge is told.
    fn of(alloc: Global, faces: &[FaceId], count: u32) -> Result<Borders, OutOfMemory>
        requires few { length faces.now ≤ most_half_edges }
        requires below { All (λ f. f.0 < count) faces.now }
        ensures lasts { IfOk result (λ borders. length borders.last.items ≡ count) }
        ensures befores { IfOk result (λ borders. length borders.before.items ≡ length faces.now) }
        ensures linked { IfOk result (λ borders. AreLinked (face_numbers_of faces.now) (length faces.now) borders.last.items borders.before.items) }
    {
        let mut last = vec![in alloc; None; count as usize]?;
        let mut before = Vec::new(alloc);
        for (s, f) in faces.iter().enumerate() {
            before.push(last[f.0 as usize])?;
            last[f.0 as usize] = Some(Side(s as u32));
        }
        Ok(Borders { last, before })
    }
}

/// The rank of a face that has none yet: more than there are faces.
const NONE: u32 = u32::MAX;

/// The ranks found so far, and the faces that have one, in the order in which they got it.
#[derive(Drop)]
struct Spread {
    ranks: Vec<u32>,
    queue: Vec<FaceId>,
}

impl Spread {
    /// Of so many faces the outer one alone has its rank.
    fn new(alloc: Global, count: u32) -> Result<Spread, OutOfMemory>
        requires some { 0 < count }
        ensures as_many { IfOk result (λ spread. length spread.ranks.items ≡ count) }
        ensures spread { IfOk result (λ spread. (faces : List ℕ) → IsSpread faces spread.ranks.items (face_numbers_of spread.queue.items) 0) }
    {
        let mut spread = Spread {
            ranks: vec![in alloc; NONE; count as usize]?,
            queue: Vec::new(alloc),
        };
        spread.reach(OUTER, 0)?;
        Ok(spread)
    }

    /// Gives a rank to a face that has none.
    fn reach(&mut self, f: FaceId, rank: u32) -> Result<(), OutOfMemory>
        requires within { f.0 < length self.old.ranks.items }
        ensures reached { OnOk result (GetsRank self.old.ranks.items (face_numbers_of self.old.queue.items) f.0 rank
            self.new.ranks.items (face_numbers_of self.new.queue.items)) }
    {
        if self.ranks[f.0 as usize] != NONE {
            return Ok(());
        }
        self.ranks[f.0 as usize] = rank;
        self.queue.push(f)?;
        Ok(())
    }

    /// Gives the next rank to the faces across the edges of the one at this place of the queue.
    fn cross_from(
        &mut self,
        graph: &PlaneGraph,
        faces: &[FaceId],
        borders: &Borders,
        place: usize,
    ) -> Result<(), OutOfMemory>
        requires few { length self.old.ranks.items ≤ most_half_edges + 1 }
        requires below { All (λ f. f.0 < length self.old.ranks.items) faces.now }
        requires sides { length faces.now ≡ length (half_edges_of graph.now.edges) }
        requires lasts { length borders.now.last.items ≡ length self.old.ranks.items }
        requires befores { length borders.now.before.items ≡ length faces.now }
        requires linked { AreLinked (face_numbers_of faces.now) (length faces.now) borders.now.last.items borders.now.before.items }
        requires waiting { place < length self.old.queue.items }
        requires spread { IsSpread (face_numbers_of faces.now) self.old.ranks.items (face_numbers_of self.old.queue.items) place }
        ensures spread { OnOk result (IsSpread (face_numbers_of faces.now) self.new.ranks.items (face_numbers_of self.new.queue.items) (place + 1)) }
        ensures as_many { OnOk result (length self.new.ranks.items ≡ length self.old.ranks.items) }
        ensures fewer { OnOk result (unranked self.new.ranks.items + length self.new.queue.items ≡ unranked self.old.ranks.items + length self.old.queue.items) }
    {
        let f = self.queue[place];
        let rank = self.ranks[f.0 as usize] + 1;
        let mut at = borders.last[f.0 as usize];
        while let Some(s) = at {
            self.reach(faces[graph.twin(s).0 as usize], rank)?;
            at = borders.before[s.0 as usize];
        }
        Ok(())
    }
}

/// The fewest edges to be crossed from each of so many faces to the outer one, by the face of each half-edge:
/// outward from the outer face, each face in turn.
///
/// Takes **O(n)** for n half-edges and faces. `OutOfMemory` comes for want of memory alone.
pub fn ranks_of(
    alloc: Global,
    graph: &PlaneGraph,
    faces: &[FaceId],
    count: u32,
) -> Result<Vec<u32>, OutOfMemory>
    requires few { length faces.now ≤ most_half_edges }
    requires some { 0 < count }
    requires fits { count ≤ most_half_edges + 1 }
    requires below { All (λ f. f.0 < count) faces.now }
    requires sides { length faces.now ≡ length (half_edges_of graph.now.edges) }
    ensures as_many { IfOk result (λ ranks. length ranks.items ≡ count) }
    ensures outer { IfOk result (λ ranks. slice_get ranks.items outer_face ≡ Some 0) }
    ensures distances { IfOk result (λ ranks. AreDistances (face_numbers_of faces.now) ranks.items) }
{
    let borders = Borders::of(alloc, faces, count)?;
    let mut spread = Spread::new(alloc, count)?;
    let mut done = 0;
    while done < spread.queue.len() {
        spread.cross_from(graph, faces, &borders, done)?;
        done += 1;
    }
    Ok(spread.ranks)
}
