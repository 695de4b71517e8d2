//! The edges that are done are given up.
ghost use Rattle.std.specs.Prelude.{◌≡◌, ◌++◌, [], take, reverse};
ghost use Rattle.half_edges.specs.Burns.{with_burnt};
ghost use Rattle.component_route.specs.States.{CanReburn};

use crate::route::Route;
use half_edges::PlaneGraph;

/// Unburns all edges but the first `checkpoint`, and burns those of the stack again, from its bottom. Nothing is done then.
pub fn give_up_done(graph: &mut PlaneGraph, route: &mut Route, checkpoint: u32)
    requires { CanReburn graph.old checkpoint route.old.stack }
    ensures graph { graph.new ≡ with_burnt graph.old (take checkpoint graph.old.burnt ++ reverse route.old.stack) }
    ensures route { route.new ≡ record route.old { done = [] } }
{
    graph.unburn_to(checkpoint);
    for side in route.stack() {
        graph.burn(*side);
    }
    route.forget_done();
}
