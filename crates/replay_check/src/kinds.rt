//! What each move is.
ghost use Rattle.std.specs.Prelude.{◌≢◌, ◌↔◌, All, Contains, IfOk, IsTrue};
ghost use Rattle.std.specs.List.{AllZip};
ghost use Rattle.nest_base.specs.declared.places.Edge.{Edge};
ghost use Rattle.nest_base.specs.Range.{IsWithin, widest};
ghost use Rattle.plate_sides.specs.HalfEdges.{IsVertex};
ghost use Rattle.ngc_meaning.specs.CodeMoves.{IsCodeMove};
ghost use Rattle.sound_code.specs.Sound.{IsLitOffEdges};
ghost use Rattle.replay_check.specs.Kinds.{IsKind, ShareMorePoints};

use crate::sharing::shares_more;
use code_moves::Move;
use half_edges::PlaneGraph;
use lead_ins::{edge_at, is_off_edges};
use nest_base::{OutOfMemory, Point, Side};
use std::alloc::Global;

/// What a move is to a drawing.
#[derive(Clone, Copy, Debug, PartialEq, Eq, Drop)]
pub enum Kind {
    /// It doesn't burn.
    Unlit,
    /// It burns an edge, from one end to the other.
    OnEdge(Side),
    /// It burns along an edge, but not one whole edge.
    Along,
    /// It begins a lighting and comes to a vertex, and touches no edge before.
    LeadIn,
    /// It begins a lighting and comes to a vertex, but touches an edge before.
    Blocked,
    /// It burns, and is nothing of this.
    Off,
}

/// Whether the straight way from `a` to `b` has more than one point in common with some edge.
///
/// Takes **O(n)** for n edges.
fn is_along(graph: &PlaneGraph, a: Point, b: Point) -> bool
    requires apart { a ≢ b }
    requires a_within { IsWithin widest a }
    requires b_within { IsWithin widest b }
    ensures along { IsTrue result → (e : Edge) × Contains graph.now.edges e × ShareMorePoints a b e.low e.high }
    ensures not_along { (e : Edge) → Contains graph.now.edges e → ShareMorePoints a b e.low e.high → IsTrue result }
{
    for k in 0..graph.edge_count() {
        let e = edge_at(graph, k);
        if shares_more(a, b, &e) {
            return true;
        }
    }
    false
}

/// Whether a vertex is at a place.
fn is_vertex(graph: &PlaneGraph, p: Point) -> bool
    ensures { IsTrue result ↔ IsVertex graph.now.edges p }
{
    match graph.find_vertex(p) {
        Some(v) => {
            prove!(v.0 < graph.vertex_count());
            true
        }
        None => false,
    }
}

/// Whether a move begins a lighting and comes to a vertex.
fn begins_to_vertex(graph: &PlaneGraph, step: &Move) -> bool
    ensures { IsTrue result ↔ (IsTrue step.now.fresh × IsVertex graph.now.edges step.now.to) }
{
    if !step.fresh {
        return false;
    }
    is_vertex(graph, step.to)
}

/// What a lit move is that goes along no edge from one end to the other.
///
/// Takes **O(n)** for n edges. What touches no edge before its end goes along none, so a good lead-in is held against all edges only once.
fn kind_off_edges(graph: &PlaneGraph, step: &Move) -> Kind
    requires code { IsCodeMove step.now }
    requires off_edges { IsLitOffEdges graph.now.edges step.now }
    ensures { IsKind graph.now.edges step.now result }
{
    if step.from == step.to {
        return Kind::Off;
    }
    let comes_to_vertex = begins_to_vertex(graph, step);
    if comes_to_vertex && is_off_edges(graph, step.to, step.from) {
        return Kind::LeadIn;
    }
    if is_along(graph, step.from, step.to) {
        return Kind::Along;
    }
    if comes_to_vertex {
        return Kind::Blocked;
    }
    Kind::Off
}

/// What a move is.
fn kind_of(graph: &PlaneGraph, step: &Move) -> Kind
    requires code { IsCodeMove step.now }
    ensures { IsKind graph.now.edges step.now result }
{
    if !step.lit {
        return Kind::Unlit;
    }
    match graph.find_side(step.from, step.to) {
        Some(s) => Kind::OnEdge(s),
        None => kind_off_edges(graph, step),
    }
}

/// What each move is, in order.
pub fn kinds_of(alloc: Global, graph: &PlaneGraph, moves: &[Move]) -> Result<Vec<Kind>, OutOfMemory>
    requires code { All IsCodeMove moves.now }
    ensures { IfOk result (λ kinds. AllZip (IsKind graph.now.edges) moves.now kinds.items) }
{
    let mut kinds = Vec::with_capacity(alloc, moves.len())?;
    for step in moves {
        kinds.push(kind_of(graph, step))?;
    }
    Ok(kinds)
}
