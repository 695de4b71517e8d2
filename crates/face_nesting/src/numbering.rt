//! Faces and parents by number.
ghost use Rattle.std.specs.Prelude.{◌≡◌, ◌≤◌, ◌<◌, length, All, IfOk, Some, None, slice_get, slice_index, map, option_map, ℕ};
ghost use Rattle.nest_base.specs.declared.numbers.Component.{Component};
ghost use Rattle.half_edges.specs.Numbers.{half_edges_of};
ghost use Rattle.half_edges.specs.Graph.{component_of, origin_of};
ghost use Rattle.face_nesting.specs.Numbering.{cycle_numbers_of, face_numbers_of, sight_numbers_of, number_seen, face_of_cycle as face_by_definition, AreOuterFaces, SeesEarlier};
ghost use Rattle.nest_base.specs.NumberLists.{parent_numbers};
ghost use Rattle.nest_base.specs.Limits.{most_half_edges};

use crate::cycles::CycleId;
use half_edges::PlaneGraph;
use nest_base::{Component, OutOfMemory, Side};
use std::alloc::Global;

/// A face by number; `OUTER` is the one that holds the outside.
#[derive(Clone, Copy, Debug, PartialEq, Eq, PartialOrd, Ord, Hash, Drop)]
pub struct FaceId(pub u32);

/// The face that holds the outside.
pub const OUTER: FaceId = FaceId(0);

/// The face of a cycle, where the faces of the outer cycles of the components are told as far as they are known; each cycle inside
/// a component has a face of its own.
fn face_of_cycle(cycle: CycleId, components: u32, outer: &[FaceId]) -> FaceId
    requires fits { cycle.0 < most_half_edges }
    requires known { cycle.0 < components → cycle.0 < length outer.now }
    ensures { result.0 ≡ face_by_definition components (face_numbers_of outer.now) cycle.0 }
{
    if cycle.0 < components {
        outer[cycle.0 as usize]
    } else {
        FaceId(cycle.0 - components + 1)
    }
}

/// The face in which each component lies, by what it sees: the outer face, or that of the cycle of the half-edge that is seen.
pub fn outer_faces(
    alloc: Global,
    cycle_of: &[CycleId],
    sights: &[Option<Side>],
) -> Result<Vec<FaceId>, OutOfMemory>
    requires few { length sights.now ≤ most_half_edges }
    requires cycles { All (λ r. r.0 < most_half_edges) cycle_of.now }
    requires sides { All (λ sight. (s : ℕ) → number_seen sight ≡ Some s → s < length cycle_of.now) sights.now }
    requires earlier { SeesEarlier (cycle_numbers_of cycle_of.now) (sight_numbers_of sights.now) (length sights.now) }
    ensures as_many { IfOk result (λ outer. length outer.items ≡ length sights.now) }
    ensures faces { IfOk result (λ outer. AreOuterFaces (cycle_numbers_of cycle_of.now) (sight_numbers_of sights.now) (length sights.now) (face_numbers_of outer.items)) }
{
    let components = sights.len() as u32;
    let mut outer = Vec::new(alloc);
    for sight in sights {
        let face = match sight {
            None => OUTER,
            Some(s) => face_of_cycle(cycle_of[s.0 as usize], components, &outer),
        };
        outer.push(face)?;
    }
    Ok(outer)
}

/// The face of each half-edge: that of its cycle.
pub fn faces_of(
    alloc: Global,
    cycle_of: &[CycleId],
    outer: &[FaceId],
) -> Result<Vec<FaceId>, OutOfMemory>
    requires few { length outer.now ≤ most_half_edges }
    requires cycles { All (λ r. r.0 < most_half_edges) cycle_of.now }
    ensures { IfOk result (λ faces. face_numbers_of faces.items ≡
        map (face_by_definition (length outer.now) (face_numbers_of outer.now)) (cycle_numbers_of cycle_of.now)) }
{
    let components = outer.len() as u32;
    let mut faces = Vec::new(alloc);
    for cycle in cycle_of {
        faces.push(face_of_cycle(*cycle, components, outer))?;
    }
    Ok(faces)
}

/// The component of what is seen, if anything is.
fn component_seen(graph: &PlaneGraph, sight: Option<Side>) -> Option<Component>
    requires { (s : ℕ) → number_seen sight ≡ Some s → s < length (half_edges_of graph.now.edges) }
    ensures { option_map (λ (c : Component). c.0) result ≡ option_map (λ s. component_of graph.now (origin_of graph.now s)) (number_seen sight) }
{
    let seen = sight?;
    Some(graph.component_of(graph.from(seen)))
}

/// The parent of each component: the component of what it sees.
pub fn parents_of(
    alloc: Global,
    graph: &PlaneGraph,
    sights: &[Option<Side>],
) -> Result<Vec<Option<Component>>, OutOfMemory>
    requires sides { All (λ sight. (s : ℕ) → number_seen sight ≡ Some s → s < length (half_edges_of graph.now.edges)) sights.now }
    ensures { IfOk result (λ parents. parent_numbers parents.items ≡
        map (option_map (λ s. component_of graph.now (origin_of graph.now s))) (sight_numbers_of sights.now)) }
{
    let mut parents = Vec::new(alloc);
    for sight in sights {
        parents.push(component_seen(graph, *sight))?;
    }
    Ok(parents)
}
