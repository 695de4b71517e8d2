//! Which edges are burnt, and in which order.
ghost use Rattle.std.specs.Prelude.{◌≡◌, ◌≤◌, ◌<◌, ◌*◌, ◌/◌, ◌-◌, [], ◌∷◌, ◌++◌, length, take, All, AllPairs, IfOk, IsTrue, ◌↔◌};
ghost use Rattle.half_edges.specs.Burns.{HasEdgeOf, AreOfTwoEdges};

use nest_base::{OutOfMemory, Side};
use std::alloc::Global;
use std::marker::Model;

/// The burnt edges of so many. Contracts see how many edges there are, and the half-edges that were burnt, in order.
#[derive(Drop)]
pub struct Burns {
    /// The half-edges that were burnt, the latest last. An edge is burnt once, so there is room for all.
    order: Vec<Side>,
    /// By number of an edge.
    is_burnt: Vec<bool>,
}

impl Model for Burns {
    ghost use Rattle.half_edges.specs.Burns.{Burning};

    ghost Value = { Burning };

    ghost use Rattle.half_edges.specs.BurnsView.{burns_view, AreBurnLists};

    ghost view = { burns_view };

    ghost invariant = { AreBurnLists };
}

/// The number of the edge of a half-edge.
fn edge_of(s: Side) -> usize
    ensures { result ≡ s.0 / 2 }
{
    (s.0 / 2) as usize
}

impl Burns {
    /// None of so many edges is burnt.
    pub fn none(alloc: Global, edges: usize) -> Result<Burns, OutOfMemory>
        ensures edges { IfOk result (λ burns. burns.edges ≡ edges) }
        ensures none { IfOk result (λ burns. burns.burnt ≡ []) }
    {
        Ok(Burns {
            order: Vec::with_capacity(alloc, edges)?,
            is_burnt: vec![in alloc; false; edges]?,
        })
    }

    /// How many edges are burnt.
    pub fn mark(&self) -> usize
        ensures count { result ≡ length self.now.burnt }
        ensures few { length self.now.burnt ≤ self.now.edges }
        ensures within { All (λ s. s < 2 * self.now.edges) self.now.burnt }
        ensures once { AllPairs AreOfTwoEdges self.now.burnt }
    {
        self.order.len()
    }

    /// Whether the edge of `s` is burnt.
    pub fn is_burnt(&self, s: Side) -> bool
        requires { s.0 < 2 * self.now.edges }
        ensures { IsTrue result ↔ HasEdgeOf self.now.burnt s.0 }
    {
        self.is_burnt[edge_of(s)]
    }

    /// Burns the edge of `s`.
    pub fn burn(&mut self, s: Side)
        requires within { s.0 < 2 * self.old.edges }
        requires unburnt { HasEdgeOf self.old.burnt s.0 → ⊥ }
        ensures { self.new ≡ record self.old { burnt = self.old.burnt ++ s.0 ∷ [] } }
    {
        self.is_burnt[edge_of(s)] = true;
        let pushed = self.order.push(s);
        prove!(pushed.is_ok());
    }

    /// Unburns the edge that was burnt last.
    fn unburn_last(&mut self)
        requires { 0 < length self.old.burnt }
        ensures { self.new ≡ record self.old { burnt = take (length self.old.burnt - 1) self.old.burnt } }
    {
        if let Some(s) = self.order.pop() {
            self.is_burnt[edge_of(s)] = false;
        }
    }

    /// Unburns the edges that were burnt last, until `mark` are left.
    pub fn unburn_to(&mut self, mark: usize)
        requires { mark ≤ length self.old.burnt }
        ensures { self.new ≡ record self.old { burnt = take mark self.old.burnt } }
    {
        while self.mark() > mark {
            self.unburn_last();
        }
    }
}
