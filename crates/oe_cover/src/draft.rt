//! A plan while it is made.
ghost use Rattle.std.specs.Prelude.{◌≡◌, ◌≤◌, ◌<◌, ◌+◌, ◌∷◌, [], ◌++◌, ℕ, Bool, length, All, IfOk, drop};
ghost use Rattle.half_edges.specs.Numbers.{half_edges_of};
ghost use Rattle.half_edges.specs.Graph.{rotations_of};
ghost use Rattle.nest_base.specs.NumberLists.{side_numbers};
ghost use Rattle.nest_base.specs.Limits.{most_edges};
ghost use Rattle.oe_cover.specs.Cuts.{AnswersBy, chain_length, chains_by};
ghost use Rattle.oe_cover.specs.Drafts.{IsDraft, chains_in};

use half_edges::PlaneGraph;
use nest_base::{OutOfMemory, Side, VertexId};
use std::alloc::Global;

/// A plan that is being made. Its room is taken at once, so that it grows without memory.
#[derive(Drop)]
pub struct Draft {
    pub sides: Vec<Side>,
    /// Where each chain ends in `sides`.
    pub ends: Vec<u32>,
}

impl Draft {
    /// Nothing yet, with room for so many half-edges, each of which may be a chain of its own.
    pub fn new(alloc: Global, edges: u32) -> Result<Draft, OutOfMemory>
        ensures empty { IfOk result (λ d. d.sides.items ≡ []) }
        ensures chains { IfOk result (λ d. chains_in d ≡ []) }
        ensures room { IfOk result (λ d. IsDraft edges d) }
    {
        Ok(Draft {
            sides: Vec::with_capacity(alloc, edges as usize)?,
            ends: Vec::with_capacity(alloc, edges as usize)?,
        })
    }

    /// Appends a chain.
    fn push_chain(&mut self, chain: &[Side])
        requires known { (room : ℕ) × IsDraft room self.old × (room ≤ most_edges) × (length self.old.sides.items + length chain.now ≤ room) }
        requires some { 0 < length chain.now }
        ensures chains { chains_in self.new ≡ chains_in self.old ++ side_numbers chain.now ∷ [] }
        ensures sides { self.new.sides.items ≡ self.old.sides.items ++ chain.now }
        ensures room { (room : ℕ) → IsDraft room self.old → IsDraft room self.new }
    {
        self.sides.extend_from_slice(chain).unwrap();
        self.ends.push(self.sides.len() as u32).unwrap();
    }

    /// Appends an order, cut into chains: of the vertex to which a half-edge leads and the one that the next leaves, `goes_on` says
    /// whether its chain goes on.
    pub fn push_order<F: Fn(VertexId, VertexId) -> bool>(
        &mut self,
        graph: &PlaneGraph,
        order: &[Side],
        goes_on: &F,
    )
        requires test { F.IsAlwaysCallable goes_on.now }
        requires known { (room : ℕ) × IsDraft room self.old × (room ≤ most_edges) × (length self.old.sides.items + length order.now ≤ room) }
        requires within { All (λ s. s.0 < length (half_edges_of graph.now.edges)) order.now }
        ensures chains { (rule : ℕ → ℕ → Bool) → AnswersBy (F.post goes_on.now) rule
            → chains_in self.new ≡ chains_in self.old ++ chains_by rule (rotations_of graph.now) (side_numbers order.now) }
        ensures sides { self.new.sides.items ≡ self.old.sides.items ++ order.now }
        ensures room { (room : ℕ) → IsDraft room self.old → IsDraft room self.new }
    {
        let mut first = 0;
        while first < order.len() {
            let behind = chain_end(graph, order, first, goes_on);
            self.push_chain(&order[first..behind]);
            first = behind;
        }
    }
}

/// The place behind the chain that begins at place `first` of an order.
fn chain_end<F: Fn(VertexId, VertexId) -> bool>(
    graph: &PlaneGraph,
    order: &[Side],
    first: usize,
    goes_on: &F,
) -> usize
    requires test { F.IsAlwaysCallable goes_on.now }
    requires within { All (λ s. s.0 < length (half_edges_of graph.now.edges)) order.now }
    requires some { first < length order.now }
    ensures long { (rule : ℕ → ℕ → Bool) → AnswersBy (F.post goes_on.now) rule
        → result ≡ first + chain_length rule (rotations_of graph.now) (drop first (side_numbers order.now)) }
    ensures some { first < result }
    ensures bound { result ≤ length order.now }
{
    let mut last = first;
    while last + 1 < order.len() && goes_on(graph.to(order[last]), graph.from(order[last + 1])) {
        last += 1;
    }
    last + 1
}
