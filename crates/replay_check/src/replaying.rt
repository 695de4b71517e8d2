//! The verdict.
ghost use Rattle.std.specs.Prelude.{◌≡◌, List, IfOk, length};
ghost use Rattle.std.specs.List.{AllZip};
ghost use Rattle.nest_base.specs.declared.places.Point.{Point};
ghost use Rattle.half_edges.specs.Numbers.{half_edges_of};
ghost use Rattle.face_nesting.specs.Nesting.{AreFaces, IsFaceCount};
ghost use Rattle.part_scrap.specs.Naming.{TellsScrap};
ghost use Rattle.ngc_meaning.specs.CodeMoves.{AreCodeMoves};
ghost use Rattle.half_edges.specs.Burns.{AreFlagsOf};
ghost use Rattle.half_edges.specs.PlaneGraphs.{IsPlaneGraph};
ghost use Rattle.sound_code.specs.Sound.{AreLeadIns};
ghost use Rattle.replay_check.specs.Burning.{AreBurnt, burnt_sides};
ghost use Rattle.replay_check.specs.Kinds.{IsKind};
ghost use Rattle.replay_check.specs.Verdicts.{BurnBehindLeadIns, BurnEdges, IsVerdict};

use crate::burns::{Burn, burn_each, burns_of};
use crate::detached::last_cut;
use crate::first::{first_along, first_off, pierces};
use crate::kinds::{Kind, kinds_of};
use crate::leads::first_bad_lead;
use crate::missed::least_unburnt;
use crate::verdict::Verdict;
use code_moves::Move;
use face_nesting::Faces;
use half_edges::PlaneGraph;
use nest_base::{Edge, OutOfMemory};
use part_scrap::Parts;
use std::alloc::Global;

/// The verdict on moves that burn edges once, behind lead-ins: whether they miss an edge, and then their order.
fn judge_order(
    alloc: Global,
    graph: &PlaneGraph,
    faces: &Faces,
    moves: &[Move],
    burns: &[Burn],
    is_burnt: &[bool],
) -> Result<Verdict, OutOfMemory>
    requires as_many { length faces.now.faces ≡ length (half_edges_of graph.now.edges) }
    requires faces { AreFaces graph.now.edges faces.now.faces }
    requires count { IsFaceCount faces.now.faces faces.now.count }
    requires moves { AreCodeMoves moves.now }
    requires plane_graph { IsPlaneGraph graph.now }
    requires burns { AreBurnt graph.now.edges moves.now burns.now }
    requires flags { AreFlagsOf is_burnt.now (burnt_sides burns.now) }
    requires each_flag { length is_burnt.now ≡ length graph.now.edges }
    ensures { IfOk result (λ verdict. (places : List Point) → BurnBehindLeadIns graph.now.edges places moves.now →
        AreLeadIns graph.now.edges places moves.now → IsVerdict graph.now.edges places moves.now verdict) }
{
    if let Some(Edge { low, high }) = least_unburnt(graph, is_burnt) {
        return Ok(Verdict::Missed(low, high));
    }
    if let Some(line) = last_cut(alloc, graph, faces, burns)? {
        return Ok(Verdict::Detached(line));
    }
    Ok(Verdict::Sound {
        pierces: pierces(moves),
    })
}

/// The verdict on moves of these kinds that burn edges and lead-ins: whether they burn an edge again, then their lead-ins, and then the rest.
fn judge_burns(
    alloc: Global,
    graph: &PlaneGraph,
    faces: &Faces,
    parts: &Parts,
    moves: &[Move],
    kinds: &[Kind],
    burns: &[Burn],
) -> Result<Verdict, OutOfMemory>
    requires as_many { length faces.now.faces ≡ length (half_edges_of graph.now.edges) }
    requires faces { AreFaces graph.now.edges faces.now.faces }
    requires count { IsFaceCount faces.now.faces faces.now.count }
    requires as_many_names { length parts.now.names ≡ faces.now.count }
    requires moves { AreCodeMoves moves.now }
    requires kinds { AllZip (IsKind graph.now.edges) moves.now kinds.now }
    requires burns { AreBurnt graph.now.edges moves.now burns.now }
    requires burn_edges { BurnEdges graph.now.edges moves.now }
    ensures { IfOk result (λ verdict. (places : List Point) → TellsScrap graph.now.edges places faces.now.faces parts.now.names →
        IsVerdict graph.now.edges places moves.now verdict) }
{
    let mut is_burnt = vec![in alloc; false; graph.edge_count() as usize]?;
    if let Some(line) = burn_each(burns, &mut is_burnt) {
        return Ok(Verdict::Twice(line));
    }
    if let Some(line) = first_bad_lead(alloc, graph, faces, parts, moves, kinds)? {
        return Ok(Verdict::BadLead(line));
    }
    judge_order(alloc, graph, faces, moves, burns, &is_burnt)
}

/// The verdict on moves of these kinds.
fn judge(
    alloc: Global,
    graph: &PlaneGraph,
    faces: &Faces,
    parts: &Parts,
    moves: &[Move],
    kinds: &[Kind],
) -> Result<Verdict, OutOfMemory>
    requires as_many { length faces.now.faces ≡ length (half_edges_of graph.now.edges) }
    requires faces { AreFaces graph.now.edges faces.now.faces }
    requires count { IsFaceCount faces.now.faces faces.now.count }
    requires as_many_names { length parts.now.names ≡ faces.now.count }
    requires moves { AreCodeMoves moves.now }
    requires kinds { AllZip (IsKind graph.now.edges) moves.now kinds.now }
    ensures { IfOk result (λ verdict. (places : List Point) → TellsScrap graph.now.edges places faces.now.faces parts.now.names →
        IsVerdict graph.now.edges places moves.now verdict) }
{
    if let Some(line) = first_off(moves, kinds) {
        return Ok(Verdict::OffDrawing(line));
    }
    if let Some(line) = first_along(moves, kinds) {
        return Ok(Verdict::PartEdge(line));
    }
    let burns = burns_of(alloc, moves, kinds)?;
    judge_burns(alloc, graph, faces, parts, moves, kinds, &burns)
}

/// Whether the moves of a code cut a drawing soundly, or the first fault that they have in the order of `Verdict`.
///
/// For n edges, at most d of them at one vertex, m moves and l moves along no edge takes **O(n + m log d + ln + l²)**, as hashing goes, and
/// memory for the moves and the edges. `OutOfMemory` comes for want of memory alone.
pub fn replay(
    alloc: Global,
    graph: &PlaneGraph,
    faces: &Faces,
    parts: &Parts,
    moves: &[Move],
) -> Result<Verdict, OutOfMemory>
    requires as_many { length faces.now.faces ≡ length (half_edges_of graph.now.edges) }
    requires faces { AreFaces graph.now.edges faces.now.faces }
    requires count { IsFaceCount faces.now.faces faces.now.count }
    requires as_many_names { length parts.now.names ≡ faces.now.count }
    requires moves { AreCodeMoves moves.now }
    ensures { IfOk result (λ verdict. (places : List Point) → TellsScrap graph.now.edges places faces.now.faces parts.now.names →
        IsVerdict graph.now.edges places moves.now verdict) }
{
    let kinds = kinds_of(alloc, graph, moves)?;
    judge(alloc, graph, faces, parts, moves, &kinds)
}
