//! One component is covered.
ghost use Rattle.std.specs.Prelude.{◌≡◌, ◌<◌, ◌≤◌, ◌+◌, ◌%◌, ◌⊎◌, ◌↔◌, [], ℕ, List, length, IsTrue};
ghost use Rattle.half_edges.specs.Graph.{Graph, rotations_of, origin_of, component_of};
ghost use Rattle.half_edges.specs.Burns.{IsBurnt, with_burnt};
ghost use Rattle.cover_walks.specs.Orders.{Has, Encloses};
ghost use Rattle.cover_walks.specs.Walks.{AreBelow, EndsAt, breaks, is_odd};
ghost use Rattle.cover_walks.specs.Covers.{HasFewChains, IsEdgeOrder};
ghost use Rattle.cover_walks.specs.Choices.{HasUnburnt};
ghost use Rattle.component_route.specs.Courses.{order_of};
ghost use Rattle.component_route.specs.Scans.{burnt_in};
ghost use Rattle.component_route.specs.States.{MainHead, FromRoot, RootWalk, IsFresh, IsUnburnt, CountsWithinAt};

use crate::choice::Reference;
use crate::finish::{Until, finish};
use crate::route::Route;
use crate::undo::give_up_done;
use crate::walk::walk;
use half_edges::PlaneGraph;
use nest_base::Side;

/// A walk from the root, beside the outer corner. Answers a half-edge that leaves the vertex where it ends.
fn walk_from_root(graph: &mut PlaneGraph, route: &mut Route, start: Side) -> Side
    requires known { (o : Graph) × FromRoot o start.0 graph.old route.old }
    requires free { HasUnburnt (rotations_of graph.old) (burnt_in graph.old) (origin_of graph.old start.0) }
    ensures head { (o : Graph) → FromRoot o start.0 graph.old route.old → MainHead o start.0 graph.new route.new
        × FromRoot o start.0 graph.new route.new }
    ensures counted { (o : Graph) (vertices most : ℕ) → FromRoot o start.0 graph.old route.old →
        AreBelow (rotations_of o) vertices →
        CountsWithinAt o start.0 vertices most (origin_of o start.0) route.old →
        CountsWithinAt o start.0 vertices most (origin_of o start.0) route.new }
    ensures walked { (o : Graph) → FromRoot o start.0 graph.old route.old →
        RootWalk o start.0 result.0 route.old.stack route.new.stack }
    ensures within { result.0 < (rotations_of graph.new).sides }
    ensures room { route.new.room ≡ route.old.room }
{
    let reference = Reference {
        left: start,
        right: graph.ccw(start),
    };
    walk(graph, route, reference, None)
}

/// Walks from the root, at which an odd number of edges is unburnt, and finishes the stack.
fn second_walk(graph: &mut PlaneGraph, route: &mut Route, start: Side)
    requires known { (o : Graph) × FromRoot o start.0 graph.old route.old }
    requires free { HasUnburnt (rotations_of graph.old) (burnt_in graph.old) (origin_of graph.old start.0) }
    ensures head { (o : Graph) → FromRoot o start.0 graph.old route.old → MainHead o start.0 graph.new route.new }
    ensures empty { route.new.stack ≡ [] }
    ensures few { (o : Graph) (vertices most : ℕ) → FromRoot o start.0 graph.old route.old → AreBelow (rotations_of o) vertices →
        is_odd (rotations_of o) (order_of route.old) (origin_of o start.0) ≡ 1 →
        CountsWithinAt o start.0 vertices most (origin_of o start.0) route.old →
        breaks (rotations_of o) (order_of route.new) + 1 ≤ most }
    ensures room { route.new.room ≡ route.old.room }
{
    walk_from_root(graph, route, start);
    finish(graph, route, start, Until::Done);
}

/// The work of `cover`. Where the first walk is open and the root had an even number of edges, a second walk makes it even again; where
/// the first walks were closed, the first open one is kept, what is done is given up, and the second walk follows.
fn cover_component(graph: &mut PlaneGraph, route: &mut Route, start: Side)
    requires fresh { IsFresh graph.old start.0 }
    requires done { route.old.done ≡ [] }
    requires stack { route.old.stack ≡ [] }
    requires room { (rotations_of graph.old).sides ≤ route.old.room + route.old.room }
    ensures main { MainHead graph.old start.0 graph.new route.new }
    ensures empty { route.new.stack ≡ [] }
    ensures few { HasFewChains (rotations_of graph.old) (component_of graph.old) start.0 (order_of route.new) }
    ensures room { route.new.room ≡ route.old.room }
{
    let checkpoint = graph.mark();
    let root = graph.from(start);
    let even = graph.degree(root) % 2 == 0;
    let last = walk_from_root(graph, route, start);
    if graph.from(last) != root {
        if even {
            second_walk(graph, route, start);
        } else {
            finish(graph, route, start, Until::Done);
        }
    } else if finish(graph, route, start, Until::Open) {
        give_up_done(graph, route, checkpoint);
        second_walk(graph, route, start);
    }
}

/// Covers the component of `start`, an outer half-edge: afterwards its edges are burnt, and the route's order has each of them once,
/// in burning direction. The edges from each on, with it, join both its half-edges to `start`; the last edge leads to the vertex that
/// `start` leaves. The route must be empty, with room for all edges, and no edge of the component burnt; other edges stay as they are.
///
/// Takes **O(nd)** for n edges of the component, where no vertex has more than d, and no memory.
pub fn cover(graph: &mut PlaneGraph, route: &mut Route, start: Side)
    requires start { start.0 < (rotations_of graph.old).sides }
    requires unburnt { IsUnburnt graph.old start.0 }
    requires done { route.old.done ≡ [] }
    requires stack { route.old.stack ≡ [] }
    requires room { length graph.old.edges ≤ route.old.room }
    ensures edges { IsEdgeOrder (rotations_of graph.old) (component_of graph.old) start.0 route.new.done }
    ensures encloses { Encloses (rotations_of graph.old) (λ s. s ≡ start.0) route.new.done }
    ensures last { EndsAt (rotations_of graph.old) (origin_of graph.old start.0) route.new.done }
    ensures few { HasFewChains (rotations_of graph.old) (component_of graph.old) start.0 route.new.done }
    ensures empty { route.new.stack ≡ [] }
    ensures burnt { (s : ℕ) → IsBurnt graph.new s ↔ IsBurnt graph.old s ⊎ Has (rotations_of graph.old) route.new.done s }
    ensures same { graph.new ≡ with_burnt graph.old graph.new.burnt }
    ensures room { route.new.room ≡ route.old.room }
{
    prove!(start.0 / 2 < graph.edge_count());
    cover_component(graph, route, start);
}
