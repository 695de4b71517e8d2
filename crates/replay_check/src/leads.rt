//! Lead-ins: moves that begin a lighting and come to a vertex.
ghost use Rattle.std.specs.Prelude.{◌≡◌, ◌<◌, ◌+◌, ◌↔◌, Some, IsTrue, List, take, drop, slice_get, IfOk, IfSome, IfNone, length};
ghost use Rattle.std.specs.List.{AllZip};
ghost use Rattle.nest_base.specs.declared.places.Point.{Point};
ghost use Rattle.half_edges.specs.Numbers.{half_edges_of};
ghost use Rattle.face_nesting.specs.Nesting.{IsFaceCount};
ghost use Rattle.part_scrap.specs.Naming.{TellsScrap};
ghost use Rattle.ngc_meaning.specs.CodeMoves.{AreCodeMoves};
ghost use Rattle.replay_check.specs.Kinds.{IsKind};
ghost use Rattle.replay_check.specs.Verdicts.{IsFirst, LeadsBadly};
ghost use Rattle.replay_check.specs.Leads.{LeadInsHold, GoesOnAlong, AreLeadsBefore};
ghost use Rattle.nest_base.specs.declared.numbers.Side.{Side};
ghost use Rattle.code_moves.specs.declared.moves.Move.{Move};
ghost use Rattle.sound_code.specs.Sound.{IsLeadIn, lead_of};

use crate::kinds::Kind;
use code_moves::Move;
use face_nesting::Faces;
use half_edges::PlaneGraph;
use lead_ins::{Lead, is_free_off_edges};
use nest_base::{OutOfMemory, Side};
use part_scrap::Parts;
use std::alloc::Global;

/// The half-edge that the move at place `i` goes along, where there is such a move and it doesn't begin a lighting.
fn side_behind(moves: &[Move], kinds: &[Kind], i: usize) -> Option<Side>
    ensures found { IfSome result (GoesOnAlong moves.now kinds.now i) }
    ensures none { IfNone result ((side : Side) → GoesOnAlong moves.now kinds.now i side → ⊥) }
{
    if moves.get(i)?.fresh {
        return None;
    }
    match *kinds.get(i)? {
        Kind::OnEdge(side) => Some(side),
        _ => None,
    }
}

/// The way that a move goes, as a lead-in.
fn lead_of(step: &Move) -> Lead
    ensures { result ≡ lead_of step.now }
{
    Lead {
        from: step.from,
        to: step.to,
    }
}

/// Whether the move at place `i`, which may be a lead-in and touches no edge before its end, is one: the next move goes along an edge in the
/// same lighting, and it is free before that edge.
fn leads_in(
    graph: &PlaneGraph,
    faces: &Faces,
    parts: &Parts,
    moves: &[Move],
    kinds: &[Kind],
    i: usize,
    earlier: &[Lead],
) -> bool
    requires as_many { length faces.now.faces ≡ length (half_edges_of graph.now.edges) }
    requires count { IsFaceCount faces.now.faces faces.now.count }
    requires as_many_names { length parts.now.names ≡ faces.now.count }
    requires moves { AreCodeMoves moves.now }
    requires kinds { AllZip (IsKind graph.now.edges) moves.now kinds.now }
    requires within { i < length moves.now }
    requires lead { slice_get kinds.now i ≡ Some Kind.LeadIn }
    requires earlier { AreLeadsBefore graph.now.edges moves.now i earlier.now }
    ensures { (places : List Point) → TellsScrap graph.now.edges places faces.now.faces parts.now.names →
        (m : Move) → slice_get moves.now i ≡ Some m → IsTrue result ↔ IsLeadIn graph.now.edges places (take i moves.now) m (drop (i + 1) moves.now) }
{
    match side_behind(moves, kinds, i + 1) {
        Some(side) => is_free_off_edges(graph, faces, parts, moves[i].from, side, earlier),
        None => false,
    }
}

/// The line of the first move that may be a lead-in and is none.
///
/// For m moves, l of them along no edge, takes **O(m + l²)**, and memory for these l.
pub fn first_bad_lead(
    alloc: Global,
    graph: &PlaneGraph,
    faces: &Faces,
    parts: &Parts,
    moves: &[Move],
    kinds: &[Kind],
) -> Result<Option<u32>, OutOfMemory>
    requires as_many { length faces.now.faces ≡ length (half_edges_of graph.now.edges) }
    requires count { IsFaceCount faces.now.faces faces.now.count }
    requires as_many_names { length parts.now.names ≡ faces.now.count }
    requires moves { AreCodeMoves moves.now }
    requires kinds { AllZip (IsKind graph.now.edges) moves.now kinds.now }
    ensures bad { IfOk result (λ line. (places : List Point) → TellsScrap graph.now.edges places faces.now.faces parts.now.names →
        IfSome line (IsFirst (LeadsBadly graph.now.edges places) moves.now)) }
    ensures none { IfOk result (λ line. (places : List Point) → TellsScrap graph.now.edges places faces.now.faces parts.now.names →
        IfNone line (LeadInsHold graph.now.edges places moves.now)) }
{
    let mut leads = Vec::new(alloc);
    for i in 0..moves.len() {
        match kinds[i] {
            Kind::Unlit | Kind::OnEdge(_) => {}
            Kind::Along | Kind::Off => leads.push(lead_of(&moves[i]))?,
            Kind::Blocked => return Ok(Some(moves[i].line)),
            Kind::LeadIn => {
                if !leads_in(graph, faces, parts, moves, kinds, i, &leads) {
                    return Ok(Some(moves[i].line));
                }
                leads.push(lead_of(&moves[i]))?;
            }
        }
    }
    Ok(None)
}
