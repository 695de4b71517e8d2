//! The choice of the edge by which a walk goes on.
ghost use Rattle.std.specs.Prelude.{◌≡◌, ℕ, List};
ghost use Rattle.rotation_systems.specs.RotationSystem.{IsRotationSystem};
ghost use Rattle.half_edges.specs.Graph.{rotations_of};
ghost use Rattle.cover_walks.specs.Choices.{CanChoose, IsReference, IsChosen};
ghost use Rattle.component_route.specs.Scans.{burnt_in, moved_last};

use crate::scan::{Turn, is_avoided, scan};
use half_edges::PlaneGraph;
use nest_base::Side;

/// What a choice is made beside: a half-edge of the stack, which is both, or the outer corner, which lies between the two.
#[derive(Clone, Copy, Drop)]
pub struct Reference {
    pub left: Side,
    pub right: Side,
}

impl Reference {
    /// A half-edge of the stack.
    pub fn at(side: Side) -> Reference
        ensures { result ≡ record { left = side; right = side } }
    {
        Reference {
            left: side,
            right: side,
        }
    }
}

/// An unburnt edge at the vertex of the reference that may burn before the stack and after all that is done: the first one
/// counterclockwise after the reference, but clockwise where the avoided half-edge comes first.
pub fn choose(graph: &PlaneGraph, reference: Reference, avoid: Option<Side>) -> Side
    requires rotation { IsRotationSystem (rotations_of graph.now) }
    requires known { (start : ℕ) × (z : ℕ) × (done : List ℕ) × (stack : List ℕ)
        × CanChoose (rotations_of graph.now) (burnt_in graph.now) (moved_last (rotations_of graph.now) avoid) z done stack
        × IsReference (rotations_of graph.now) start stack z reference.left.0 reference.right.0 }
    ensures { (start z : ℕ) (done stack : List ℕ) →
        CanChoose (rotations_of graph.now) (burnt_in graph.now) (moved_last (rotations_of graph.now) avoid) z done stack →
        IsReference (rotations_of graph.now) start stack z reference.left.0 reference.right.0 →
        IsChosen (rotations_of graph.now) start z done stack result.0 }
{
    let chosen = scan(graph, Turn::Ccw, reference.left, avoid);
    if is_avoided(avoid, chosen) {
        scan(graph, Turn::Cw, reference.right, avoid)
    } else {
        chosen
    }
}
