//! Walks: from a vertex on by unburnt edges, until one is exhausted.
ghost use Rattle.std.specs.Prelude.{◌≡◌, ◌<◌, ◌∷◌, ℕ, List, length};
ghost use Rattle.half_edges.specs.Graph.{Graph, rotations_of, origin_of};
ghost use Rattle.cover_walks.specs.Walks.{IsExhausted};
ghost use Rattle.cover_walks.specs.Choices.{HasUnburnt, IsReference};
ghost use Rattle.component_route.specs.Courses.{StackGrows, order_of};
ghost use Rattle.component_route.specs.Scans.{burnt_in};
ghost use Rattle.component_route.specs.States.{WalkHead};

use crate::choice::{Reference, choose};
use crate::route::Route;
use crate::scan::is_exhausted;
use half_edges::PlaneGraph;
use nest_base::Side;

/// One step of a walk: burns an edge at the vertex of the reference, puts it on the stack, and answers its half-edge that leaves the
/// vertex where the walk then stands.
fn advance(
    graph: &mut PlaneGraph,
    route: &mut Route,
    reference: Reference,
    avoid: Option<Side>,
) -> Side
    requires known { (o : Graph) × (start v : ℕ) × (base : List ℕ)
        × WalkHead o start avoid v (origin_of o reference.left.0) base graph.old route.old
        × IsReference (rotations_of o) start route.old.stack (origin_of o reference.left.0) reference.left.0 reference.right.0 }
    requires free { HasUnburnt (rotations_of graph.old) (burnt_in graph.old) (origin_of graph.old reference.left.0) }
    ensures head { (o : Graph) (start v : ℕ) (base : List ℕ) →
        WalkHead o start avoid v (origin_of o reference.left.0) base graph.old route.old →
        IsReference (rotations_of o) start route.old.stack (origin_of o reference.left.0) reference.left.0 reference.right.0 →
        WalkHead o start avoid v (origin_of o result.0) base graph.new route.new }
    ensures pushed { route.new ≡ record route.old { stack = result.0 ∷ route.old.stack } }
    ensures within { result.0 < (rotations_of graph.new).sides }
{
    let chosen = choose(graph, reference, avoid);
    let side = graph.twin(chosen);
    graph.burn(side);
    route.push(side);
    side
}

/// Walks from the vertex of the reference, which isn't exhausted, to one that is, and answers a half-edge that leaves it.
pub fn walk(
    graph: &mut PlaneGraph,
    route: &mut Route,
    reference: Reference,
    avoid: Option<Side>,
) -> Side
    requires known { (o : Graph) × (start v : ℕ) × (base : List ℕ)
        × WalkHead o start avoid v (origin_of o reference.left.0) base graph.old route.old
        × IsReference (rotations_of o) start route.old.stack (origin_of o reference.left.0) reference.left.0 reference.right.0 }
    requires free { HasUnburnt (rotations_of graph.old) (burnt_in graph.old) (origin_of graph.old reference.left.0) }
    ensures head { (o : Graph) (start v : ℕ) (base : List ℕ) →
        WalkHead o start avoid v (origin_of o reference.left.0) base graph.old route.old →
        IsReference (rotations_of o) start route.old.stack (origin_of o reference.left.0) reference.left.0 reference.right.0 →
        WalkHead o start avoid v (origin_of o result.0) base graph.new route.new
        × IsExhausted (rotations_of o) (order_of route.new) (origin_of o result.0) }
    ensures grows { StackGrows route.old route.new }
    ensures longer { length route.old.stack < length route.new.stack }
    ensures within { result.0 < (rotations_of graph.new).sides }
{
    let mut side = advance(graph, route, reference, avoid);
    'steps: while !is_exhausted(graph, side) {
        side = advance(graph, route, Reference::at(side), avoid);
    }
    side
}
