//! The pairs of a long drawing, read byte by byte: a small one over and over, and then the pair `0 EOF`.
ghost use Rattle.std.specs.Prelude.{◌≡◌, ◌+◌, ◌≤◌, ◌^◌, None, length};
ghost use Rattle.nest_base.specs.Limits.{most_bytes};

use crate::sample::{DRAWING, LAST_PAIR};
use anyhow::Result;
use dxf_groups::{Found, Groups};
use std::alloc::Global;

/// The most drawings that one reader takes.
const MOST: u32 = 90_000;

/// How many pairs these bytes complete.
fn pairs_in(groups: &mut Groups, bytes: &[u8]) -> u32
    requires few { groups.old.taken + length bytes.now ≤ most_bytes }
    requires not_ended { groups.old.answer ≡ None }
    ensures counted { groups.new.taken ≡ groups.old.taken + length bytes.now }
    ensures not_ended { groups.new.answer ≡ None }
{
    let mut count = 0u32;
    for byte in bytes {
        if matches!(groups.take(*byte), Found::Pair { .. }) {
            count = count.saturating_add(1);
        }
    }
    count
}

/// How many pairs come of so many drawings, or of the most, and the last pair.
pub fn pairs_of(alloc: Global, drawings: u32) -> Result<u32> {
    let mut groups = Groups::new(alloc)?;
    let mut count = 0u32;
    for _ in 0..drawings.min(MOST) {
        count = count.saturating_add(pairs_in(&mut groups, DRAWING));
    }
    Ok(count.saturating_add(pairs_in(&mut groups, LAST_PAIR)))
}
