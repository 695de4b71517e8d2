//! Components are covered one after another.
ghost use Rattle.std.specs.Prelude.{◌≡◌, ◌<◌, length, IfOk};
ghost use Rattle.half_edges.specs.Numbers.{half_edges_of};
ghost use Rattle.half_edges.specs.Graph.{Graph};
ghost use Rattle.component_route.specs.States.{IsUnburnt};
ghost use Rattle.oe_cover.specs.Cuts.{AnswersBy};
ghost use Rattle.oe_cover.specs.Drafts.{chains_in};
ghost use Rattle.oe_cover.specs.Planning.{HasEnds, IsPlanning, HasAppended, NothingPlanned};

use crate::draft::Draft;
use crate::plan::Plan;
use component_route::{Route, cover};
use half_edges::PlaneGraph;
use nest_base::{OutOfMemory, Side, VertexId};
use std::alloc::Global;

/// A plan while it is made, and the route of the component that is being covered. Both have room for all edges.
#[derive(Drop)]
pub struct Planner {
    route: Route,
    pub draft: Draft,
}

impl Planner {
    /// Nothing is planned yet.
    pub fn new(alloc: Global, graph: &PlaneGraph) -> Result<Planner, OutOfMemory>
        ensures ready { IfOk result (λ p. IsPlanning graph.now graph.now p) }
        ensures empty { IfOk result (λ p. NothingPlanned p) }
        ensures ends { IfOk result (λ p. HasEnds p) }
    {
        let edges = graph.edge_count();
        Ok(Planner {
            route: Route::new(alloc, edges)?,
            draft: Draft::new(alloc, edges)?,
        })
    }

    /// Covers the component of `start`, and appends its order to the plan, cut into chains as `Draft::push_order` does. Takes no memory.
    pub fn cover<F: Fn(VertexId, VertexId) -> bool>(
        &mut self,
        graph: &mut PlaneGraph,
        start: Side,
        goes_on: &F,
    )
        requires test { F.IsAlwaysCallable goes_on.now }
        requires known { (o : Graph) × IsPlanning o graph.old self.old }
        requires start { start.0 < length (half_edges_of graph.old.edges) }
        requires unburnt { IsUnburnt graph.old start.0 }
        ensures ready { (o : Graph) → IsPlanning o graph.old self.old → IsPlanning o graph.new self.new }
        ensures covered { (o : Graph) → IsPlanning o graph.old self.old → HasAppended o start.0 (AnswersBy (F.post goes_on.now)) self.old self.new }
        ensures ends { HasEnds self.new }
    {
        cover(graph, &mut self.route, start);
        self.draft.push_order(graph, self.route.order(), goes_on);
        self.route.clear();
    }

    /// What is planned.
    pub fn finish(self) -> Plan
        requires { HasEnds self }
        ensures { result ≡ chains_in self.draft }
    {
        Plan::of(self.draft)
    }
}
