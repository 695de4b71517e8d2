//! The lead-ins of all chains of a plan.
ghost use Rattle.std.specs.Prelude.{◌≡◌, ◌<◌, [], List, All, IfOk, IfSome, OnOk, length};
ghost use Rattle.nest_base.specs.declared.places.Point.{Point};
ghost use Rattle.nest_base.specs.Range.{IsWithin, IsEdgeWithin, range};
ghost use Rattle.half_edges.specs.Numbers.{half_edges_of};
ghost use Rattle.face_nesting.specs.Nesting.{IsFaceCount};
ghost use Rattle.cover_plan.specs.Trails.{half_edge_of};
ghost use Rattle.oe_cover.specs.Trails.{trails_by};
ghost use Rattle.code_moves.specs.Meaning.{code_range};
ghost use Rattle.plate_parts.specs.LeadIns.{AreFirstLeadIns, with_lead};
ghost use Rattle.part_scrap.specs.Naming.{TellsScrap};
ghost use Rattle.sound_code.specs.Lightings.{first_sides};
ghost use Rattle.lead_ins.specs.Tries.{lead_range};

use crate::corners::beginning_of;
use crate::leading::lead;
use face_nesting::Faces;
use half_edges::PlaneGraph;
use nest_base::{OutOfMemory, Point, Side};
use oe_cover::Plan;
use part_scrap::Parts;
use plate_parts::Lead;
use std::alloc::Global;

/// Appends the lead-in of a chain that begins with `first`, where it has one.
fn keep_lead(
    graph: &PlaneGraph,
    first: Side,
    place: Option<Point>,
    earlier: &mut Vec<Lead>,
) -> Result<(), OutOfMemory>
    requires { first.0 < length (half_edges_of graph.now.edges) }
    ensures { OnOk result (earlier.new.items ≡ with_lead (half_edge_of graph.now first.0) place earlier.old.items) }
{
    match place {
        Some(from) => {
            let to = beginning_of(graph, first);
            earlier.push(Lead { from, to })?;
            Ok(())
        }
        None => Ok(()),
    }
}

/// Where the lead-in of each chain of a plan begins, `None` where it has none: for one chain after another the first try that is free with
/// all lead-ins before it.
///
/// Vertices lie within 1,999,000,000 micrometres. Takes **O(kn + k²)** for k chains and n edges, and memory for the lead-ins.
/// `OutOfMemory` comes for want of memory alone.
pub fn lead_all(
    alloc: Global,
    graph: &PlaneGraph,
    faces: &Faces,
    parts: &Parts,
    plan: &Plan,
) -> Result<Vec<Option<Point>>, OutOfMemory>
    requires within { All (All (λ s. s < length (half_edges_of graph.now.edges))) plan.now }
    requires near { All (IsEdgeWithin lead_range) graph.now.edges }
    requires as_many { length faces.now.faces ≡ length (half_edges_of graph.now.edges) }
    requires count { IsFaceCount faces.now.faces faces.now.count }
    requires as_many_names { length parts.now.names ≡ faces.now.count }
    ensures first { IfOk result (λ leads. (places : List Point) → TellsScrap graph.now.edges places faces.now.faces parts.now.names →
        AreFirstLeadIns graph.now.edges places [] (first_sides (trails_by graph.now.edges plan.now)) leads.items) }
    ensures as_many { IfOk result (λ leads. length leads.items ≡ length plan.now) }
    ensures near { IfOk result (λ leads. All (IsEdgeWithin range) graph.now.edges → All (λ lead. IfSome lead (IsWithin code_range)) leads.items) }
{
    let mut leads = Vec::new(alloc);
    let mut earlier = Vec::new(alloc);
    for i in 0..plan.len() {
        let first = plan.chain(i)[0];
        let place = lead(graph, faces, parts, first, &earlier);
        keep_lead(graph, first, place, &mut earlier)?;
        leads.push(place)?;
    }
    Ok(leads)
}
