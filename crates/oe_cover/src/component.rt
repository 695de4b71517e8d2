//! One component is covered.
ghost use Rattle.std.specs.Prelude.{◌≡◌, ◌<◌, ◌↔◌, ◌⊎◌, ℕ, length, slice_get, Some, IfOk, OnOk, OnErr};
ghost use Rattle.nest_base.specs.declared.places.Point.{Point};
ghost use Rattle.nest_base.specs.Plane.{HalfEdge};
ghost use Rattle.plate_sides.specs.ComponentCovers.{IsComponentCover, LastEndsAt};
ghost use Rattle.half_edges.specs.Numbers.{IsSide};
ghost use Rattle.half_edges.specs.Burns.{IsBurnt, with_burnt};
ghost use Rattle.face_nesting.specs.Nesting.{AreOuterCycles, cycle_at};
ghost use Rattle.oe_cover.specs.Starts.{IsLawfulStart};
ghost use Rattle.oe_cover.specs.Trails.{IsOf, trails_by};

use crate::plan::Plan;
use crate::planner::Planner;
use face_nesting::Faces;
use half_edges::PlaneGraph;
use nest_base::{Component, OutOfMemory, Side};
use std::alloc::Global;

/// The plan of a component alone: trails that cover it, no edge of which is detached before it burns, and no more than its limit. The
/// last one ends at the vertex that `start` leaves. Its edges are burnt then, and no others.
///
/// Takes **O(n)** for a component of n edges of bounded degree, and room for all edges of the graph. `OutOfMemory` comes for want of
/// memory alone, before any edge is burnt.
pub fn cover_component(
    alloc: Global,
    graph: &mut PlaneGraph,
    faces: &Faces,
    c: Component,
    start: Side,
) -> Result<Plan, OutOfMemory>
    requires cycles { AreOuterCycles graph.old faces.now }
    requires within { c.0 < length graph.old.marks }
    requires unburnt { (s : ℕ) → IsOf graph.old c.0 s → IsBurnt graph.old s → ⊥ }
    requires start { IsLawfulStart graph.old (cycle_at faces.now c.0) start.0 }
    ensures component_cover { IfOk result (λ plan. (mark : Point) → slice_get graph.old.marks c.0 ≡ Some mark → IsComponentCover graph.old.edges mark (trails_by graph.old.edges plan)) }
    ensures ends { IfOk result (λ plan. (h : HalfEdge) → IsSide graph.old.edges start.0 h → LastEndsAt (trails_by graph.old.edges plan) h.from) }
    ensures burnt { OnOk result ((s : ℕ) → IsBurnt graph.new s ↔ (IsBurnt graph.old s ⊎ IsOf graph.old c.0 s)) }
    ensures same { graph.new ≡ with_burnt graph.old graph.new.burnt }
    ensures err { OnErr result (graph.new ≡ graph.old) }
{
    let mut planner = Planner::new(alloc, graph)?;
    planner.cover(graph, start, &|to, from| to == from);
    Ok(planner.finish())
}
