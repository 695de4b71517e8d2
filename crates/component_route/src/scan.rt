//! Scans of the half-edges round a vertex.
ghost use Rattle.std.specs.Prelude.{◌≡◌, ◌≢◌, ◌<◌, ◌↔◌, ◌⊎◌, ℕ, IsTrue, false};
ghost use Rattle.rotation_systems.specs.RotationSystem.{IsRotationSystem};
ghost use Rattle.half_edges.specs.Graph.{rotations_of, origin_of};
ghost use Rattle.cover_walks.specs.Choices.{HasUnburnt, AllBurnt, Stops};
ghost use Rattle.component_route.specs.Scans.{avoided_of, burnt_in, seen};

use half_edges::PlaneGraph;
use nest_base::Side;

/// Whether a half-edge is the one to be avoided.
pub fn is_avoided(avoid: Option<Side>, s: Side) -> bool
    ensures { (sides : ℕ) → s.0 < sides → IsTrue result ↔ (s.0 ≡ avoided_of sides avoid) }
{
    match avoid {
        Some(avoided) => avoided == s,
        None => false,
    }
}

/// Whether a scan stops at a half-edge, which is unburnt or to be avoided.
fn stops(graph: &PlaneGraph, avoid: Option<Side>, s: Side) -> bool
    requires rotation { IsRotationSystem (rotations_of graph.now) }
    requires side { s.0 < (rotations_of graph.now).sides }
    ensures yes { IsTrue result → (IsTrue (burnt_in graph.now s.0) → ⊥) ⊎ (s.0 ≡ avoided_of (rotations_of graph.now).sides avoid) }
    ensures no { result ≡ false → IsTrue (burnt_in graph.now s.0) × (s.0 ≢ avoided_of (rotations_of graph.now).sides avoid) }
{
    if !graph.is_burnt(s) {
        return true;
    }
    is_avoided(avoid, s)
}

/// Which way a scan goes round its vertex.
#[derive(Clone, Copy, Drop)]
pub enum Turn {
    Ccw,
    Cw,
}

impl Turn {
    /// The next half-edge this way round the vertex that `s` leaves.
    fn next(self, graph: &PlaneGraph, s: Side) -> Side
        requires { s.0 < (rotations_of graph.now).sides }
        ensures { result.0 ≡ (seen self (rotations_of graph.now)).ccw s.0 }
    {
        match self {
            Turn::Ccw => graph.ccw(s),
            Turn::Cw => graph.cw(s),
        }
    }
}

/// The first half-edge after `after`, going round its vertex this way, that is unburnt or to be avoided; it may be `after` itself. Some
/// edge there is unburnt.
///
/// Takes **O(d)** at a vertex of degree d.
pub fn scan(graph: &PlaneGraph, turn: Turn, after: Side, avoid: Option<Side>) -> Side
    requires rotation { IsRotationSystem (rotations_of graph.now) }
    requires side { after.0 < (rotations_of graph.now).sides }
    requires free { HasUnburnt (rotations_of graph.now) (burnt_in graph.now) (origin_of graph.now after.0) }
    ensures { Stops (seen turn (rotations_of graph.now)) (burnt_in graph.now) after.0 (avoided_of (rotations_of graph.now).sides avoid) result.0 }
{
    let mut s = turn.next(graph, after);
    for _i in 0..graph.degree(graph.from(after)) {
        if stops(graph, avoid, s) {
            return s;
        }
        s = turn.next(graph, s);
    }
    s
}

/// Whether every edge at the vertex that `s` leaves is burnt.
///
/// Takes **O(d)** at a vertex of degree d.
pub fn is_exhausted(graph: &PlaneGraph, s: Side) -> bool
    requires rotation { IsRotationSystem (rotations_of graph.now) }
    requires side { s.0 < (rotations_of graph.now).sides }
    ensures yes { IsTrue result → AllBurnt (rotations_of graph.now) (burnt_in graph.now) (origin_of graph.now s.0) }
    ensures no { result ≡ false → HasUnburnt (rotations_of graph.now) (burnt_in graph.now) (origin_of graph.now s.0) }
{
    let mut at = s;
    for _i in 0..graph.degree(graph.from(s)) {
        at = graph.ccw(at);
        if !graph.is_burnt(at) {
            return false;
        }
    }
    true
}
