//! Edges that nothing burns.
ghost use Rattle.std.specs.Prelude.{◌≡◌, ◌⊎◌, ◌↔◌, ℕ, IfSome, IfNone, IsTrue, length};
ghost use Rattle.nest_base.specs.declared.places.Edge.{Edge};
ghost use Rattle.plate_edges.specs.Edges.{IsEdgeBefore};
ghost use Rattle.replay_check.specs.Burning.{IsLeastUnburnt, IsUnburntAt};

use half_edges::PlaneGraph;
use lead_ins::edge_at;
use nest_base::Edge;

/// The least edge that isn't burnt, by low end and then by high end.
///
/// Takes **O(n)** for n edges.
pub fn least_unburnt(graph: &PlaneGraph, is_burnt: &[bool]) -> Option<Edge>
    requires { length is_burnt.now ≡ length graph.now.edges }
    ensures least { IfSome result (IsLeastUnburnt graph.now.edges is_burnt.now) }
    ensures none { IfNone result ((k : ℕ) (e : Edge) → IsUnburntAt graph.now.edges is_burnt.now k e → ⊥) }
{
    let mut least: Option<Edge> = None;
    for k in 0..graph.edge_count() {
        if !is_burnt[k as usize] {
            least = Some(lesser(least, edge_at(graph, k)));
        }
    }
    least
}

/// Whether `e` comes before `f` by low end, then by high end.
fn is_before(e: Edge, f: Edge) -> bool
    ensures { IsTrue result ↔ IsEdgeBefore e f }
{
    e < f
}

/// The lesser of two edges, where there are two.
fn lesser(least: Option<Edge>, e: Edge) -> Edge
    ensures alone { IfNone least (result ≡ e) }
    ensures one { IfSome least (λ f. (result ≡ e) ⊎ (result ≡ f)) }
    ensures first { IfSome least (λ f. (IsEdgeBefore e result → ⊥) × (IsEdgeBefore f result → ⊥)) }
{
    let Some(f) = least else {
        return e;
    };
    if is_before(f, e) {
        return f;
    }
    e
}
