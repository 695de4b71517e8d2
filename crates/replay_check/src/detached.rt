//! Edges that burn when they are cut off from the plate.
ghost use Rattle.std.specs.Prelude.{◌≡◌, ◌⊎◌, ◌↔◌, ◌<◌, ◌∷◌, [], List, ℕ, All, IfOk, IfSome, IfNone, IsTrue, length, slice_index};
ghost use Rattle.half_edges.specs.Numbers.{half_edges_of};
ghost use Rattle.face_nesting.specs.Nesting.{IsFaceCount};
ghost use Rattle.rotation_systems.specs.Twins.{twin_number};
ghost use Rattle.replay_check.specs.Burning.{AreReached, burnt_sides, IsFaceReached, IsLastCut, GrowsThroughout};

use crate::burns::Burn;
use face_nesting::Faces;
use half_edges::PlaneGraph;
use nest_base::{OutOfMemory, Side};
use std::alloc::Global;

/// By number of a face, whether it is the outer one.
fn outer_reached(alloc: Global, faces: &Faces) -> Result<Vec<bool>, OutOfMemory>
    requires count { IsFaceCount faces.now.faces faces.now.count }
    ensures { IfOk result (λ is_reached. AreReached faces.now.faces faces.now.count [] is_reached.items) }
{
    let mut is_reached = vec![in alloc; false; faces.face_count() as usize]?;
    is_reached[faces.outer().0 as usize] = true;
    Ok(is_reached)
}

/// Whether one of the two faces of an edge is reached. Then both are.
fn reach_over(graph: &PlaneGraph, faces: &Faces, side: Side, is_reached: &mut [bool]) -> bool
    requires as_many { length faces.now.faces ≡ length (half_edges_of graph.now.edges) }
    requires count { IsFaceCount faces.now.faces faces.now.count }
    requires within { side.0 < length (half_edges_of graph.now.edges) }
    requires each_flag { length is_reached.old ≡ faces.now.count }
    ensures grows { (later : List ℕ) → AreReached faces.now.faces faces.now.count later is_reached.old → IsTrue result ↔
        (IsFaceReached faces.now.faces later (slice_index faces.now.faces side.0) ⊎ IsFaceReached faces.now.faces later (slice_index faces.now.faces (twin_number side.0))) }
    ensures reached { (later : List ℕ) → AreReached faces.now.faces faces.now.count later is_reached.old → IsTrue result →
        AreReached faces.now.faces faces.now.count (side.0 ∷ later) is_reached.new }
{
    let one = faces.face_of(side).0 as usize;
    let other = faces.face_of(graph.twin(side)).0 as usize;
    if !is_reached[one] && !is_reached[other] {
        return false;
    }
    is_reached[one] = true;
    is_reached[other] = true;
    true
}

/// The line of the last edge that burns when neither of its faces is the outer one, or that of an edge that burns later.
///
/// In one pass from the end, which keeps the faces that the later edges reach: **O(n + f)** for n edges and f faces.
pub fn last_cut(
    alloc: Global,
    graph: &PlaneGraph,
    faces: &Faces,
    burns: &[Burn],
) -> Result<Option<u32>, OutOfMemory>
    requires as_many { length faces.now.faces ≡ length (half_edges_of graph.now.edges) }
    requires count { IsFaceCount faces.now.faces faces.now.count }
    requires within { All (λ s. s < length (half_edges_of graph.now.edges)) (burnt_sides burns.now) }
    ensures cut { IfOk result (λ line. IfSome line (IsLastCut faces.now.faces burns.now)) }
    ensures none { IfOk result (λ line. IfNone line (GrowsThroughout faces.now.faces burns.now)) }
{
    let mut is_reached = outer_reached(alloc, faces)?;
    for burn in burns.iter().rev() {
        if !reach_over(graph, faces, burn.side, &mut is_reached) {
            return Ok(Some(burn.line));
        }
    }
    Ok(None)
}
