//! Orders worked out by hand.
use crate::burning_order;
use anyhow::{Result, bail, ensure};
use nest_base::{Component, OutOfMemory};
use std::alloc::Global;

/// The parent of each component, or `NONE`, and the order in which they burn.
type Row = (&'static str, &'static [Option<u32>], &'static [u32]);

const ROWS: [Row; 8] = [
    ("no component", &[], &[]),
    ("one", &[None], &[0]),
    ("side by side", &[None, None, None], &[0, 1, 2]),
    ("one in another", &[None, Some(0)], &[1, 0]),
    (
        "ten deep",
        &[
            None,
            Some(0),
            Some(1),
            Some(2),
            Some(3),
            Some(4),
            Some(5),
            Some(6),
            Some(7),
            Some(8),
        ],
        &[9, 8, 7, 6, 5, 4, 3, 2, 1, 0],
    ),
    (
        "several in one",
        &[None, Some(0), Some(0), Some(0), None],
        &[1, 2, 3, 0, 4],
    ),
    // 1 is ready once 3 is done, before 2 has its turn.
    (
        "two families in one",
        &[None, Some(0), Some(0), Some(1), Some(2)],
        &[3, 1, 4, 2, 0],
    ),
    // 0 and 4 wait for 5 while 1 to 3 are done.
    (
        "a late child",
        &[None, None, Some(1), None, Some(0), Some(4)],
        &[2, 1, 3, 5, 4, 0],
    ),
];

fn order_of(alloc: Global, parents: &[Option<u32>]) -> Result<Vec<Component>> {
    ensure!(parents.len() <= 4_000_000, "too many components");
    let mut list = Vec::new(alloc);
    for parent in parents {
        match parent {
            Some(p) => {
                if *p as usize >= list.len() {
                    bail!("a parent comes later");
                }
                list.push(Some(Component(*p)))?;
            }
            None => list.push(None)?,
        }
    }
    Ok(burning_order(alloc, &list)?)
}

#[test]
fn orders_of_each_kind(rt: HostRuntime) -> Result<()> {
    for (name, parents, expected) in &ROWS {
        let order = order_of(rt.alloc(), parents)?;
        ensure!(order.len() == expected.len(), "{name}");
        ensure!(
            order.iter().zip(*expected).all(|(c, n)| c.0 == *n),
            "{name}"
        );
    }
    Ok(())
}
