//! All components are covered, in burning order.
ghost use Rattle.std.specs.Prelude.{◌≡◌, ◌<◌, [], ℕ, List, length, All, IfOk, OnOk, OnErr};
ghost use Rattle.nest_base.specs.Plane.{HalfEdge};
ghost use Rattle.plate_sides.specs.Nesting.{AreParents, HasMarkSides};
ghost use Rattle.plate_nesting.specs.Order.{IsBurningOrder};
ghost use Rattle.plate_plans.specs.Plans.{AreComponentCovers, IsPlan, all_trails};
ghost use Rattle.half_edges.specs.Numbers.{half_edges_of};
ghost use Rattle.half_edges.specs.Burns.{IsBurnt, with_burnt};
ghost use Rattle.face_nesting.specs.Nesting.{AreOuterCycles};
ghost use Rattle.oe_cover.specs.Ends.{EndAtFirstStarts};
ghost use Rattle.oe_cover.specs.Trails.{trails_by};

use crate::plan::Plan;
use crate::planner::Planner;
use crate::start::first_start;
use burning_order::burning_order;
use face_nesting::Faces;
use half_edges::PlaneGraph;
use nest_base::OutOfMemory;
use std::alloc::Global;

/// The plan of a whole drawing: its components in burning order, each covered from its first start.
///
/// Takes **O(n)** for n edges at vertices of bounded degree. `OutOfMemory` comes for want of memory alone, before any edge is burnt.
pub fn cover_all(alloc: Global, graph: &mut PlaneGraph, faces: &Faces) -> Result<Plan, OutOfMemory>
    requires unburnt { graph.old.burnt ≡ [] }
    requires parents { AreParents graph.old.edges graph.old.marks faces.now.parents }
    requires cycles { AreOuterCycles graph.old faces.now }
    requires mark_sides { HasMarkSides graph.old.edges }
    ensures plan { IfOk result (λ plan. IsPlan graph.old.edges (trails_by graph.old.edges plan)) }
    ensures in_order { IfOk result (λ plan. (order : List ℕ) × IsBurningOrder faces.now.parents order
        × (component_covers : List (List (List HalfEdge))) × AreComponentCovers graph.old.edges graph.old.marks order component_covers
        × EndAtFirstStarts graph.old.edges graph.old.marks order component_covers
        × (trails_by graph.old.edges plan ≡ all_trails component_covers)) }
    ensures within { IfOk result (λ plan. All (All (λ s. s < length (half_edges_of graph.old.edges))) plan) }
    ensures burnt { OnOk result ((s : ℕ) → s < length (half_edges_of graph.old.edges) → IsBurnt graph.new s) }
    ensures same { graph.new ≡ with_burnt graph.old graph.new.burnt }
    ensures err { OnErr result (graph.new ≡ graph.old) }
{
    let mut planner = Planner::new(alloc, graph)?;
    let order = burning_order(alloc, faces.parents())?;
    for c in &order {
        let start = first_start(graph, faces, *c);
        planner.cover(graph, start, &|to, from| to == from);
    }
    Ok(planner.finish())
}
