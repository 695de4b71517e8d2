ghost use Rattle.std.specs.Prelude.{IsTrue, ◌↔◌};

use crate::share_point;
use anyhow::{Result, ensure};
use nest_base::{Point, Segment};

const FAR: i64 = 2_000_000_000;

fn segment(ends: [i64; 4]) -> Segment {
    let [ax, ay, bx, by] = ends;
    Segment {
        a: Point { x: ax, y: ay },
        b: Point { x: bx, y: by },
        line: 1,
    }
}

/// What the two segments are, and the coordinates of their ends.
type Pair = (&'static str, [i64; 4], [i64; 4]);

const APART: [Pair; 9] = [
    ("far apart", [0, 0, 1, 1], [90, 70, 80, 95]),
    ("parallel", [0, 0, 4, 4], [1, 0, 5, 4]),
    ("apart on one line", [0, 0, 1, 1], [2, 2, 3, 3]),
    ("lines that cross beside", [0, 0, 4, 4], [3, 0, 2, 1]),
    ("a place beside", [0, 0, 2, 2], [1, 0, 1, 0]),
    ("a place beyond", [0, 0, 2, 2], [3, 3, 3, 3]),
    ("two places", [1, 1, 1, 1], [1, 2, 1, 2]),
    (
        "parallel, far",
        [-FAR, -FAR, FAR, 0],
        [-FAR, 1 - FAR, FAR, 1],
    ),
    ("one short, far", [-FAR, -FAR, FAR, FAR], [0, 1, -FAR, FAR]),
];

const AT_ENDS: [Pair; 7] = [
    ("a square corner", [0, 0, 4, 0], [4, 0, 4, 4]),
    ("a sharp corner", [0, 0, 4, 0], [4, 1, 0, 0]),
    ("end to end", [0, 0, 2, 0], [2, 0, 5, 0]),
    ("end to end, upright", [0, 5, 0, 2], [0, 2, 0, -1]),
    ("a place at an end", [0, 0, 2, 2], [2, 2, 2, 2]),
    ("one place twice", [1, 1, 1, 1], [1, 1, 1, 1]),
    (
        "sharp, far",
        [-FAR, -FAR, FAR, FAR],
        [-FAR, 1 - FAR, FAR, FAR],
    ),
];

const AT_MORE: [Pair; 14] = [
    ("crossing at a place", [0, 0, 4, 4], [0, 4, 4, 0]),
    ("crossing between places", [0, 0, 3, 1], [0, 1, 3, 0]),
    ("a T-joint", [0, 0, 4, 0], [2, 0, 2, 3]),
    ("a slanted T-joint", [0, 0, 4, 2], [2, 1, 3, -5]),
    ("overlapping", [0, 0, 4, 0], [2, 0, 6, 0]),
    ("overlapping upright", [1, 0, 1, 4], [1, 6, 1, 2]),
    ("one inside the other", [0, 0, 9, 3], [3, 1, 6, 2]),
    ("folded", [0, 0, 4, 4], [0, 0, 2, 2]),
    ("folded upright", [0, 3, 0, 0], [0, 3, 0, 1]),
    ("folded to the west", [5, 0, 0, 0], [1, 0, 5, 0]),
    ("equal", [0, 0, 4, 1], [0, 0, 4, 1]),
    ("equal and turned", [0, 0, 4, 1], [4, 1, 0, 0]),
    ("a place inside", [0, 0, 2, 2], [1, 1, 1, 1]),
    (
        "crossing, far",
        [-FAR, -FAR, FAR, FAR],
        [-FAR, FAR, FAR, -FAR],
    ),
];

/// Checks the answer for each pair, either way round.
fn check(pairs: &[Pair], share: bool) -> Result<()> {
    for (name, first, second) in pairs {
        let s = segment(*first);
        let t = segment(*second);
        ensure!(s.is_in_range() && t.is_in_range(), "{name}");
        ensure!(share_point(&s, &t) == share, "{name}");
        ensure!(share_point(&t, &s) == share, "{name}");
    }
    Ok(())
}

#[test]
fn pairs_of_each_kind() -> Result<()> {
    check(&APART, false)?;
    check(&AT_ENDS, true)?;
    check(&AT_MORE, true)
}
