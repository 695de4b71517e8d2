//! The report on a plan.
ghost use Rattle.std.specs.Prelude.{◌≡◌, ◌≤◌, All, IfOk, length};
ghost use Rattle.nest_base.specs.Limits.{most_names};
ghost use Rattle.plate_sides.specs.Cover.{IsTrail, HasTrailsIn};
ghost use Rattle.face_nesting.specs.Nesting.{AreOuterCycles, AreRanks, IsFaceCount};
ghost use Rattle.part_scrap.specs.Naming.{IsNaming, places_of};
ghost use Rattle.pierce_report.specs.Report.{IsReport};
ghost use Rattle.oe_cover.specs.Trails.{trails_by};

use crate::counts::chain_counts;
use crate::parts::put_parts;
use crate::rows::{all_numbers, total_bound};
use crate::text::{put_rows, put_totals, put_verdict};
use face_nesting::Faces;
use half_edges::PlaneGraph;
use nest_base::{Name, OutOfMemory, Text};
use oe_cover::Plan;
use part_scrap::Parts;
use pierce_bound::plane::graph_is_plane;
use std::alloc::Global;

/// The report on a plan whose chains are trails of the graph: each is one pierce, of the component in which it lies; and on the parts
/// that these names name.
///
/// Takes **O(n)** for n edges, chains and bytes of names. `OutOfMemory` comes for want of memory alone.
pub fn report(
    alloc: Global,
    graph: &PlaneGraph,
    faces: &Faces,
    parts: &Parts,
    names: &[Name],
    plan: &Plan,
) -> Result<Text, OutOfMemory>
    requires parents { length faces.now.parents ≡ length graph.now.marks }
    requires outer_cycles { AreOuterCycles graph.now faces.now }
    requires trails { All (IsTrail graph.now.edges) (trails_by graph.now.edges plan.now) }
    requires ranks { AreRanks graph.now.edges faces.now.faces faces.now.ranks }
    requires face_count { IsFaceCount faces.now.faces faces.now.count }
    requires naming { IsNaming graph.now.edges faces.now (places_of names.now) parts.now }
    requires few_names { length names.now ≤ most_names }
    ensures { IfOk result (λ text. IsReport graph.now.edges names.now (λ mark n. HasTrailsIn graph.now.edges mark (trails_by graph.now.edges plan.now) n) text) }
{
    graph_is_plane(graph);
    let pierces = chain_counts(alloc, graph, plan)?;
    let rows = all_numbers(alloc, graph, faces, &pierces)?;
    let mut text = Text::new(alloc);
    put_rows(&rows, &mut text)?;
    put_parts(faces, parts, names, &mut text)?;
    let total = plan.len();
    let bound = total_bound(&rows);
    put_totals(total, bound, &mut text)?;
    put_verdict(total == bound, &mut text)?;
    Ok(text)
}
