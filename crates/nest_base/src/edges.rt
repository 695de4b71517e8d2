//! The edges of a drawing.
ghost use Rattle.std.specs.Prelude.{◌≡◌, ◌∷◌, ◌++◌, [], OnOk, OnErr};

use crate::memory::OutOfMemory;
use crate::places::Edge;
use std::alloc::Global;
use std::marker::Model;

/// A list of edges. The edges of a drawing stand in it by low end, then by high end.
#[derive(Drop)]
pub struct Edges {
    edge_list: Vec<Edge>,
}

impl Model for Edges {
    ghost use Rattle.std.specs.Prelude.{List};
    ghost use Rattle.nest_base.specs.declared.places.Edge.{Edge};

    ghost Value = { List Edge };

    ghost view = { λ e. e.edge_list.items };
}

impl Edges {
    /// The empty list. It takes no memory yet.
    pub fn new(alloc: Global) -> Edges
        ensures { result ≡ [] }
    {
        Edges {
            edge_list: Vec::new(alloc),
        }
    }

    /// The edges of a list that was made elsewhere. Nothing is copied.
    pub fn from_list(edge_list: Vec<Edge>) -> Edges
        ensures { result ≡ edge_list.items }
    {
        Edges { edge_list }
    }

    /// Adds an edge at the end.
    pub fn push_edge(&mut self, e: Edge) -> Result<(), OutOfMemory>
        ensures ok { OnOk result (self.new ≡ self.old ++ e ∷ []) }
        ensures err { OnErr result (self.new ≡ self.old) }
    {
        self.edge_list.push(e)?;
        Ok(())
    }

    /// The edges, in order.
    pub fn as_slice(&self) -> &[Edge]
        ensures { result.now ≡ self.now }
    {
        self.edge_list.as_slice()
    }
}
