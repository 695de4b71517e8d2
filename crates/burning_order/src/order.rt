//! The burning order.
ghost use Rattle.std.specs.Prelude.{◌≤◌, ◌+◌, [], length, IfOk, OnOk};
ghost use Rattle.plate_nesting.specs.Order.{ParentsComeFirst, IsReadyAfter, IsBurningOrder};
ghost use Rattle.nest_base.specs.NumberLists.{parent_numbers, component_numbers};
ghost use Rattle.nest_base.specs.Limits.{most_half_edges};
ghost use Rattle.burning_order.specs.Turns.{AreWaitedFor, HaveHadTurns};

use nest_base::{Component, OutOfMemory};
use std::alloc::Global;

/// How many components lie in each one.
fn children_of(alloc: Global, parents: &[Option<Component>]) -> Result<Vec<u32>, OutOfMemory>
    requires few { length parents.now ≤ most_half_edges }
    requires first { ParentsComeFirst (parent_numbers parents.now) }
    ensures { IfOk result (λ children. AreWaitedFor (parent_numbers parents.now) [] children.items) }
{
    let mut children = vec![in alloc; 0; parents.len()]?;
    for parent in parents {
        if let Some(p) = parent {
            children[p.0 as usize] += 1;
        }
    }
    Ok(children)
}

/// Burns a component in which none lies, then each one around it that becomes ready.
fn burn_outward(
    parents: &[Option<Component>],
    leaf: Component,
    waiting: &mut [u32],
    order: &mut Vec<Component>,
) -> Result<(), OutOfMemory>
    requires few { length parents.now ≤ most_half_edges }
    requires first { ParentsComeFirst (parent_numbers parents.now) }
    requires turn { HaveHadTurns (parent_numbers parents.now) leaf.0 (component_numbers order.old.items) waiting.old }
    requires ready { IsReadyAfter (parent_numbers parents.now) (component_numbers order.old.items) leaf.0 }
    ensures { OnOk result (HaveHadTurns (parent_numbers parents.now) (leaf.0 + 1) (component_numbers order.new.items) waiting.new) }
{
    let mut c = leaf;
    loop {
        order.push(c)?;
        let Some(p) = parents[c.0 as usize] else {
            return Ok(());
        };
        waiting[p.0 as usize] -= 1;
        if waiting[p.0 as usize] > 0 {
            return Ok(());
        }
        c = p;
    }
}

/// The order in which components burn, by the parent of each: children before their parent, and of those that are ready the one
/// with the least number.
///
/// Takes **O(n)** for n components. `OutOfMemory` comes for want of memory alone.
pub fn burning_order(
    alloc: Global,
    parents: &[Option<Component>],
) -> Result<Vec<Component>, OutOfMemory>
    requires few { length parents.now ≤ most_half_edges }
    requires first { ParentsComeFirst (parent_numbers parents.now) }
    ensures { IfOk result (λ order. IsBurningOrder (parent_numbers parents.now) (component_numbers order.items)) }
{
    let mut waiting = children_of(alloc, parents)?;
    let mut order = Vec::new(alloc);
    for c in 0..parents.len() {
        if waiting[c] == 0 {
            burn_outward(parents, Component(c as u32), &mut waiting, &mut order)?;
        }
    }
    Ok(order)
}
