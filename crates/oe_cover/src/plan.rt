//! The plan, and what is read of it.
ghost use Rattle.std.specs.Prelude.{◌≡◌, ◌<◌, length, slice_get, Some};
ghost use Rattle.nest_base.specs.NumberLists.{side_numbers};
ghost use Rattle.oe_cover.specs.Pieces.{AreEnds, begins_at};
ghost use Rattle.oe_cover.specs.Drafts.{chains_in};

use crate::draft::Draft;
use nest_base::Side;
use std::marker::Model;

/// Chains in burning order. A chain is at least one half-edge, each followed in the direction in which it burns. Contracts see the list
/// of the chains, each as the numbers of its half-edges.
#[derive(Drop)]
pub struct Plan {
    sides: Vec<Side>,
    /// Where each chain ends in `sides`.
    ends: Vec<u32>,
}

impl Model for Plan {
    ghost use Rattle.std.specs.Prelude.{List, ℕ, length};
    ghost use Rattle.nest_base.specs.NumberLists.{side_numbers};
    ghost use Rattle.oe_cover.specs.Pieces.{pieces, AreEnds};

    ghost Value = { List (List ℕ) };

    ghost view = { λ p. pieces (side_numbers p.sides.items) 0 p.ends.items };

    ghost invariant = { λ p. AreEnds 0 p.ends.items (length p.sides.items) };
}

impl Plan {
    /// What was made.
    pub(crate) fn of(draft: Draft) -> Plan
        requires { AreEnds 0 draft.ends.items (length draft.sides.items) }
        ensures { result ≡ chains_in draft }
    {
        Plan {
            sides: draft.sides,
            ends: draft.ends,
        }
    }

    /// How many chains there are.
    pub fn len(&self) -> usize
        ensures { result ≡ length self.now }
    {
        self.ends.len()
    }

    /// The chain at place `index`.
    pub fn chain(&self, index: usize) -> &[Side]
        requires { index < length self.now }
        ensures chain { slice_get self.now index ≡ Some (side_numbers result.now) }
        ensures some { 0 < length result.now }
    {
        let first = beginning(&self.ends, index);
        &self.sides[first..self.ends[index] as usize]
    }
}

/// Where the chain at place `index` begins: where the one before it ends.
fn beginning(ends: &[u32], index: usize) -> usize
    requires { index < length ends.now }
    ensures { result ≡ begins_at 0 ends.now index }
{
    if index == 0 {
        0
    } else {
        ends[index - 1] as usize
    }
}
