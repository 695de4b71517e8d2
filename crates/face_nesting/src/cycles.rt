//! The cycles of a graph.
ghost use Rattle.std.specs.Prelude.{◌≡◌, ◌≤◌, ◌<◌, ◌+◌, ◌∷◌, [], ◌++◌, length, List, ℕ, All, AllPairs, Some, slice_get, true, false, IfOk, OnOk};
ghost use Rattle.half_edges.specs.Numbers.{half_edges_of};
ghost use Rattle.rotation_systems.specs.RotationSystem.{IsRotationSystem};
ghost use Rattle.half_edges.specs.Graph.{rotations_of};
ghost use Rattle.half_edges.specs.PlaneGraphs.{IsPlaneGraph};
ghost use Rattle.face_nesting.specs.Cycles.{AreCyclesOf, AreTold, AreAllCycles, OnOneCycle};
ghost use Rattle.face_nesting.specs.Numbering.{cycle_numbers_of};
ghost use Rattle.nest_base.specs.NumberLists.{side_numbers};
ghost use Rattle.nest_base.specs.Limits.{most_half_edges};

use half_edges::PlaneGraph;
use nest_base::{OutOfMemory, Side};
use std::alloc::Global;

/// A cycle, by number.
#[derive(Clone, Copy, Debug, PartialEq, Eq, Drop)]
pub struct CycleId(pub u32);

/// All cycles of a graph.
#[derive(Drop)]
pub struct Cycles {
    /// The cycle of each half-edge, by number.
    pub cycle_of: Vec<CycleId>,
    /// The half-edges, cycle by cycle.
    pub sides: Vec<Side>,
    /// Where each cycle begins in `sides`, and where the last one ends.
    pub starts: Vec<u32>,
}

/// The cycles found so far.
#[derive(Drop)]
struct Tracing {
    cycles: Cycles,
    /// Whether a half-edge stands in one of them, by number.
    is_traced: Vec<bool>,
}

impl Tracing {
    /// Nothing is found yet of a graph with this many half-edges.
    fn new(alloc: Global, sides: u32) -> Result<Tracing, OutOfMemory>
        ensures cycle_of { IfOk result (λ t. length t.cycles.cycle_of.items ≡ sides) }
        ensures is_traced { IfOk result (λ t. length t.is_traced.items ≡ sides) }
        ensures none_traced { IfOk result (λ t. All (λ told. told ≡ false) t.is_traced.items) }
        ensures empty { IfOk result (λ t. t.cycles.sides.items ≡ []) }
        ensures starts { IfOk result (λ t. t.cycles.starts.items ≡ 0 ∷ []) }
    {
        let mut starts = Vec::new(alloc);
        starts.push(0)?;
        Ok(Tracing {
            cycles: Cycles {
                cycle_of: vec![in alloc; CycleId(0); sides as usize]?,
                sides: Vec::new(alloc),
                starts,
            },
            is_traced: vec![in alloc; false; sides as usize]?,
        })
    }

    /// Follows the cycle of a half-edge that stands in none yet.
    fn trace(&mut self, graph: &PlaneGraph, first: Side) -> Result<(), OutOfMemory>
        requires rotation { IsRotationSystem (rotations_of graph.now) }
        requires few { length (half_edges_of graph.now.edges) ≤ most_half_edges }
        requires known { (heads : List ℕ) × AreCyclesOf (rotations_of graph.now) heads (cycle_numbers_of self.old.cycles.cycle_of.items)
            (side_numbers self.old.cycles.sides.items) self.old.cycles.starts.items }
        requires told { AreTold (rotations_of graph.now) self.old.is_traced.items (side_numbers self.old.cycles.sides.items) }
        requires untraced { slice_get self.old.is_traced.items first.0 ≡ Some false }
        ensures cycles { OnOk result ((heads : List ℕ) →
            AreCyclesOf (rotations_of graph.now) heads (cycle_numbers_of self.old.cycles.cycle_of.items) (side_numbers self.old.cycles.sides.items) self.old.cycles.starts.items →
            AreCyclesOf (rotations_of graph.now) (heads ++ first.0 ∷ []) (cycle_numbers_of self.new.cycles.cycle_of.items) (side_numbers self.new.cycles.sides.items)
            self.new.cycles.starts.items) }
        ensures told { OnOk result (AreTold (rotations_of graph.now) self.new.is_traced.items (side_numbers self.new.cycles.sides.items)) }
        ensures kept { OnOk result ((s : ℕ) → slice_get self.old.is_traced.items s ≡ Some true → slice_get self.new.is_traced.items s ≡ Some true) }
        ensures traced { OnOk result (slice_get self.new.is_traced.items first.0 ≡ Some true) }
    {
        let cycle = CycleId(self.cycles.starts.len() as u32 - 1);
        let mut s = first;
        loop {
            self.cycles.cycle_of[s.0 as usize] = cycle;
            self.is_traced[s.0 as usize] = true;
            self.cycles.sides.push(s)?;
            s = graph.along(s);
            if s == first {
                break;
            }
        }
        self.cycles.starts.push(self.cycles.sides.len() as u32)?;
        Ok(())
    }
}

/// All cycles of a graph: first those of the half-edges `firsts`, of which no two stand in one cycle, each from there on.
///
/// Takes **O(n)** for n edges. `OutOfMemory` comes for want of memory alone.
pub fn cycles_of(alloc: Global, graph: &PlaneGraph, firsts: &[Side]) -> Result<Cycles, OutOfMemory>
    requires plane_graph { IsPlaneGraph graph.now }
    requires within { All (λ s. s.0 < length (half_edges_of graph.now.edges)) firsts.now }
    requires apart { AllPairs (λ s t. OnOneCycle (rotations_of graph.now) s.0 t.0 → ⊥) firsts.now }
    ensures { IfOk result (λ cycles. AreAllCycles (rotations_of graph.now) (side_numbers firsts.now) (cycle_numbers_of cycles.cycle_of.items)
        (side_numbers cycles.sides.items) cycles.starts.items) }
{
    let count = graph.side_count();
    let mut tracing = Tracing::new(alloc, count)?;
    for first in firsts {
        tracing.trace(graph, *first)?;
    }
    for s in 0..count {
        if !tracing.is_traced[s as usize] {
            tracing.trace(graph, Side(s))?;
        }
    }
    Ok(tracing.cycles)
}
