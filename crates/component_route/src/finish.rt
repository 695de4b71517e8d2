//! The edges of the stack become done, from the top on.
ghost use Rattle.std.specs.Prelude.{◌≡◌, ◌≢◌, ◌<◌, ◌≤◌, ◌∷◌, [], true, false, ℕ, List, length, IsTrue};
ghost use Rattle.rotation_systems.specs.RotationSystem.{to};
ghost use Rattle.half_edges.specs.Graph.{Graph, rotations_of, origin_of};
ghost use Rattle.cover_walks.specs.Walks.{AreBelow, IsExhausted};
ghost use Rattle.cover_walks.specs.Choices.{HasUnburnt, IsReference};
ghost use Rattle.component_route.specs.Courses.{weight, StackGrows, order_of};
ghost use Rattle.component_route.specs.Scans.{burnt_in, moved_last};
ghost use Rattle.component_route.specs.States.{WalkHead, MainHead, JustMoved, CountsWithin, CountsWithinAt, IsUnbroken, IsUnbrokenAt, Opened, HasOpened};

use crate::choice::Reference;
use crate::route::Route;
use crate::scan::is_exhausted;
use crate::walk::walk;
use half_edges::PlaneGraph;
use nest_base::Side;

/// How far walks go on.
#[derive(Clone, Copy, Drop)]
pub enum Until {
    /// Up to the first open walk, or until all is done.
    Open,
    /// Until all is done.
    Done,
}

impl Until {
    /// Whether walks stop after one that led from the vertex that `first` leaves to the one that `last` leaves.
    fn stops_after(self, graph: &PlaneGraph, first: Side, last: Side) -> bool
        requires first { first.0 < (rotations_of graph.now).sides }
        requires last { last.0 < (rotations_of graph.now).sides }
        ensures until { result ≡ true → self ≡ Until.Open }
        ensures apart { result ≡ true → origin_of graph.now first.0 ≢ origin_of graph.now last.0 }
        ensures closed { result ≡ false → self ≡ Until.Open → origin_of graph.now last.0 ≡ origin_of graph.now first.0 }
    {
        match self {
            Until::Open => graph.from(first) != graph.from(last),
            Until::Done => false,
        }
    }
}

/// Walks from the vertex of the reference until it is exhausted, or up to the first open walk. Answers whether one has stopped them.
fn exhaust(
    graph: &mut PlaneGraph,
    route: &mut Route,
    reference: Reference,
    avoid: Option<Side>,
    until: Until,
) -> bool
    requires known { (o : Graph) × (start : ℕ)
        × WalkHead o start avoid (origin_of o reference.left.0) (origin_of o reference.left.0) route.old.stack graph.old route.old
        × IsReference (rotations_of o) start route.old.stack (origin_of o reference.left.0) reference.left.0 reference.right.0 }
    ensures head { result ≡ false → (o : Graph) (start : ℕ) →
        let v = origin_of o reference.left.0 in WalkHead o start avoid v v route.old.stack graph.old route.old →
        IsReference (rotations_of o) start route.old.stack v reference.left.0 reference.right.0 →
        WalkHead o start avoid v v route.new.stack graph.new route.new × IsExhausted (rotations_of o) (order_of route.new) v }
    ensures counted { result ≡ false → (o : Graph) (start vertices most : ℕ) →
        let v = origin_of o reference.left.0 in WalkHead o start avoid v v route.old.stack graph.old route.old →
        IsReference (rotations_of o) start route.old.stack v reference.left.0 reference.right.0 →
        AreBelow (rotations_of o) vertices → CountsWithinAt o start vertices most v route.old →
        CountsWithinAt o start vertices most v route.new }
    ensures unbroken { result ≡ false → until ≡ Until.Open → (o : Graph) (start : ℕ) →
        let v = origin_of o reference.left.0 in WalkHead o start avoid v v route.old.stack graph.old route.old →
        IsReference (rotations_of o) start route.old.stack v reference.left.0 reference.right.0 →
        IsUnbrokenAt (rotations_of o) (moved_last (rotations_of o) avoid) v route.old →
        IsUnbrokenAt (rotations_of o) (moved_last (rotations_of o) avoid) v route.new }
    ensures opened { result ≡ true → (o : Graph) (start : ℕ) →
        let v = origin_of o reference.left.0 in WalkHead o start avoid v v route.old.stack graph.old route.old →
        IsReference (rotations_of o) start route.old.stack v reference.left.0 reference.right.0 →
        IsUnbrokenAt (rotations_of o) (moved_last (rotations_of o) avoid) v route.old →
        Opened o start avoid v graph.new route.new }
    ensures until { result ≡ true → until ≡ Until.Open }
    ensures grows { StackGrows route.old route.new }
{
    'walks: while !is_exhausted(graph, reference.left) {
        let last = walk(graph, route, reference, avoid);
        if until.stops_after(graph, reference.left, last) {
            return true;
        }
    }
    false
}

/// The reference for walks from the vertex that `at` leaves: the top of the stack where it leaves that vertex, else the outer corner.
pub fn reference_at(graph: &PlaneGraph, route: &Route, start: Side, at: Side) -> Reference
    requires known { (o : Graph) × (f : ℕ) × JustMoved o start.0 f graph.now route.now
        × (origin_of o at.0 ≡ to (rotations_of o) f) }
    requires side { at.0 < (rotations_of graph.now).sides }
    requires free { HasUnburnt (rotations_of graph.now) (burnt_in graph.now) (origin_of graph.now at.0) }
    ensures { (o : Graph) (f : ℕ) → JustMoved o start.0 f graph.now route.now → origin_of o at.0 ≡ to (rotations_of o) f →
        IsReference (rotations_of o) start.0 route.now.stack (to (rotations_of o) f) result.left.0 result.right.0 }
{
    if let Some(top) = route.top() {
        if graph.from(top) == graph.from(at) {
            return Reference::at(top);
        }
    }
    Reference {
        left: start,
        right: graph.ccw(start),
    }
}

/// Exhausts the vertex to which `side` leads, which was just moved, or walks from there up to the first open walk. Answers whether one
/// has stopped it.
fn finish_end(
    graph: &mut PlaneGraph,
    route: &mut Route,
    start: Side,
    side: Side,
    until: Until,
) -> bool
    requires known { (o : Graph) × JustMoved o start.0 side.0 graph.old route.old }
    ensures head { result ≡ false → (o : Graph) → JustMoved o start.0 side.0 graph.old route.old →
        MainHead o start.0 graph.new route.new }
    ensures within { result ≡ false → (o : Graph) (vertices most : ℕ) → JustMoved o start.0 side.0 graph.old route.old →
        AreBelow (rotations_of o) vertices →
        CountsWithinAt o start.0 vertices most (to (rotations_of o) side.0) route.old → CountsWithin o start.0 vertices most route.new }
    ensures unbroken { result ≡ false → until ≡ Until.Open → (o : Graph) → JustMoved o start.0 side.0 graph.old route.old →
        IsUnbrokenAt (rotations_of o) side.0 (to (rotations_of o) side.0) route.old → IsUnbroken (rotations_of o) route.new }
    ensures opened { result ≡ true → (o : Graph) → JustMoved o start.0 side.0 graph.old route.old →
        IsUnbrokenAt (rotations_of o) side.0 (to (rotations_of o) side.0) route.old → HasOpened o start.0 graph.new route.new }
    ensures until { result ≡ true → until ≡ Until.Open }
    ensures grows { StackGrows route.old route.new }
{
    let at = graph.twin(side);
    if is_exhausted(graph, at) {
        return false;
    }
    let reference = reference_at(graph, route, start, at);
    exhaust(graph, route, reference, Some(at), until)
}

/// Finishes every edge of the stack, or goes on up to the first open walk. Answers whether one has stopped it: where walks go on until
/// all is done, none has.
pub fn finish(graph: &mut PlaneGraph, route: &mut Route, start: Side, until: Until) -> bool
    requires known { (o : Graph) × MainHead o start.0 graph.old route.old }
    ensures head { result ≡ false → (o : Graph) → MainHead o start.0 graph.old route.old → MainHead o start.0 graph.new route.new }
    ensures within { result ≡ false → (o : Graph) (vertices most : ℕ) → MainHead o start.0 graph.old route.old →
        AreBelow (rotations_of o) vertices →
        CountsWithin o start.0 vertices most route.old → CountsWithin o start.0 vertices most route.new }
    ensures unbroken { result ≡ false → until ≡ Until.Open → (o : Graph) → MainHead o start.0 graph.old route.old →
        IsUnbroken (rotations_of o) route.old → IsUnbroken (rotations_of o) route.new }
    ensures empty { result ≡ false → route.new.stack ≡ [] }
    ensures opened { result ≡ true → (o : Graph) → MainHead o start.0 graph.old route.old → IsUnbroken (rotations_of o) route.old →
        HasOpened o start.0 graph.new route.new }
    ensures done { until ≡ Until.Done → result ≡ false }
    ensures room { route.new.room ≡ route.old.room }
{
    'turns: while let Some(side) = route.move_top() {
        if finish_end(graph, route, start, side, until) {
            return true;
        }
    }
    false
}
