//! Edges that the ray west meets or misses, and which of two is nearer.
use crate::{Edge, Point, is_nearer, west_of};
use anyhow::{Result, bail, ensure};

const FAR: i64 = 2_000_000_000;

/// An edge by the coordinates of its low end and of its high one.
type Ends = [i64; 4];

/// Whether an edge is met from a place.
const RAYS: [(&str, Ends, [i64; 2], bool); 16] = [
    ("an upright edge", [0, 0, 0, 10], [5, 5], true),
    ("a micrometre east of it", [0, 0, 0, 10], [1, 5], true),
    ("on it", [0, 0, 0, 10], [0, 5], false),
    ("a micrometre west of it", [0, 0, 0, 10], [-1, 5], false),
    (
        "at the height of its lower end",
        [0, 0, 0, 10],
        [5, 0],
        true,
    ),
    (
        "at the height of its upper end",
        [0, 0, 0, 10],
        [5, 10],
        false,
    ),
    ("just below its upper end", [0, 0, 0, 10], [5, 9], true),
    ("just below its lower end", [0, 0, 0, 10], [5, -1], false),
    ("its lower end", [0, 0, 0, 10], [0, 0], false),
    ("a level edge", [0, 5, 10, 5], [20, 5], false),
    ("east of one that goes up", [0, 0, 10, 10], [6, 5], true),
    ("on one that goes up", [0, 0, 10, 10], [5, 5], false),
    (
        "west of one that goes up, in its box",
        [0, 0, 10, 10],
        [4, 5],
        false,
    ),
    ("east of one that goes down", [0, 10, 10, 0], [6, 5], true),
    (
        "west of one that goes down, in its box",
        [0, 10, 10, 0],
        [4, 5],
        false,
    ),
    (
        "the ends of the range",
        [-FAR, -FAR, FAR - 1, FAR],
        [FAR, FAR - 1],
        true,
    ),
];

/// Whether from a place the first of two edges is nearer than the second, both being met.
const NEARER: [(&str, [i64; 2], Ends, Ends, bool); 9] = [
    (
        "the one further east",
        [9, 5],
        [4, 0, 4, 10],
        [1, 0, 1, 10],
        true,
    ),
    (
        "the one further west",
        [9, 5],
        [1, 0, 1, 10],
        [4, 0, 4, 10],
        false,
    ),
    // At the height 5 they are at 5 and at 3; both ends of the second lie further east than the first's lower end.
    (
        "by x at the height, not by the ends",
        [9, 5],
        [0, 0, 10, 10],
        [3, 0, 3, 10],
        true,
    ),
    (
        "by x at the height, where the other's ends lie further east",
        [99, 50],
        [0, 0, 30, 100],
        [24, 100, 25, 0],
        false,
    ),
    // Both begin in (5, 0); just above it the second lies further west.
    (
        "by x just above it",
        [9, 0],
        [5, 0, 8, 10],
        [2, 10, 5, 0],
        true,
    ),
    (
        "by x just above it, the other way",
        [9, 0],
        [2, 10, 5, 0],
        [5, 0, 8, 10],
        false,
    ),
    (
        "by x just above it, both to the right",
        [9, 0],
        [5, 0, 8, 10],
        [5, 0, 7, 10],
        true,
    ),
    (
        "not nearer than itself",
        [9, 5],
        [4, 0, 4, 10],
        [4, 0, 4, 10],
        false,
    ),
    (
        "the ends of the range",
        [FAR, FAR - 1],
        [-FAR, -FAR, FAR - 1, FAR],
        [-FAR, 1 - FAR, FAR - 1, FAR],
        true,
    ),
];

fn edge(ends: Ends) -> Edge {
    let [ax, ay, bx, by] = ends;
    Edge {
        low: Point { x: ax, y: ay },
        high: Point { x: bx, y: by },
    }
}

fn is_met(e: &Edge, p: Point) -> Result<bool> {
    if !e.is_in_range() || !p.is_in_range() {
        bail!("out of range");
    }
    Ok(west_of(e, p))
}

fn is_first(p: Point, d: &Edge, e: &Edge) -> Result<bool> {
    ensure!(is_met(d, p)? && is_met(e, p)?, "not met");
    if !d.is_in_range() || !e.is_in_range() || !p.is_in_range() {
        bail!("out of range");
    }
    Ok(is_nearer(p, d, e))
}

#[test]
fn rays_meet_what_is_west_just_above_the_height() -> Result<()> {
    for (what, ends, [x, y], expected) in RAYS {
        ensure!(is_met(&edge(ends), Point { x, y })? == expected, "{what}");
    }
    Ok(())
}

#[test]
fn of_two_edges_one_is_nearer() -> Result<()> {
    for (what, [x, y], first, second, expected) in NEARER {
        let p = Point { x, y };
        ensure!(
            is_first(p, &edge(first), &edge(second))? == expected,
            "{what}"
        );
    }
    Ok(())
}
