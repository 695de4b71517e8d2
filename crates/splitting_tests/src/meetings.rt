//! Where pairs of segments meet, by `segment_split`.
ghost use Rattle.std.specs.Prelude.{IsTrue, ◌↔◌};

use anyhow::{Result, ensure};
use drawing_samples::Ends;
use drawing_samples::samples::FAR;
use nest_base::{Point, Segment};
use segment_split::Meeting::{Apart, At, OffLattice, Parallel};
use segment_split::{Meeting, meeting_of};

/// What the two segments are, their ends, and the place of their meeting.
type Meet = (&'static str, Ends, Ends, [i64; 2]);

/// What the two segments are, and their ends.
type Pair = (&'static str, Ends, Ends);

const AT: [Meet; 8] = [
    ("crossing", [0, 0, 10, 10], [0, 10, 10, 0], [5, 5]),
    ("upright, level", [1, -3, 1, 3], [-3, 2, 3, 2], [1, 2]),
    ("a T-joint", [0, 0, 4, 0], [2, 0, 2, 3], [2, 0]),
    ("a slanted T-joint", [0, 0, 4, 2], [2, 1, 3, -5], [2, 1]),
    ("a corner", [0, 0, 4, 0], [4, 0, 4, 4], [4, 0]),
    ("a sharp corner", [0, 0, 4, 0], [4, 1, 0, 0], [0, 0]),
    (
        "diagonals, far",
        [-FAR, -FAR, FAR, FAR],
        [-FAR, FAR, FAR, -FAR],
        [0, 0],
    ),
    (
        "a corner, far",
        [-FAR, FAR, FAR, FAR],
        [FAR, -FAR, FAR, FAR],
        [FAR, FAR],
    ),
];

const OFF_LATTICE: [Meet; 6] = [
    // 10 y = 7 x and 5 y = 10000 - x, so at 20000 / 9, 14000 / 9
    (
        "at ninths",
        [0, 0, 10_000, 7_000],
        [0, 2_000, 10_000, 0],
        [2_222, 1_555],
    ),
    (
        "at ninths below 0",
        [0, 0, -10_000, -7_000],
        [0, -2_000, -10_000, 0],
        [-2_223, -1_556],
    ),
    ("x whole", [0, 0, 2, 1], [1, -5, 1, 5], [1, 0]),
    ("y whole", [0, 0, 1, 2], [-5, 1, 5, 1], [0, 1]),
    (
        "at halves below 0",
        [0, 0, -1, -1],
        [0, -1, -1, 0],
        [-1, -1],
    ),
    // just beyond 1 / 4, and as far below 0
    (
        "far",
        [-FAR, -FAR, FAR, FAR - 1],
        [-FAR, FAR, FAR, -FAR],
        [0, -1],
    ),
];

const APART: [Pair; 6] = [
    ("far apart", [0, 0, 1, 1], [90, 70, 80, 95]),
    ("beside", [0, 0, 4, 4], [3, 0, 2, 1]),
    ("parallel", [0, 0, 4, 4], [1, 0, 5, 4]),
    ("on one line", [0, 0, 1, 1], [2, 2, 3, 3]),
    ("a place beside", [0, 0, 2, 2], [1, 0, 1, 0]),
    ("sides, far", [-FAR, -FAR, -FAR, FAR], [FAR, -FAR, FAR, FAR]),
];

const PARALLEL: [Pair; 4] = [
    ("overlapping", [0, 0, 4, 0], [2, 0, 6, 0]),
    ("end to end", [0, 5, 0, 2], [0, 2, 0, -1]),
    ("one inside the other", [0, 0, 9, 3], [3, 1, 6, 2]),
    ("a place inside", [0, 0, 2, 2], [1, 1, 1, 1]),
];

fn point(place: [i64; 2]) -> Point {
    let [x, y] = place;
    Point { x, y }
}

fn segment(ends: Ends) -> Segment {
    let [ax, ay, bx, by] = ends;
    Segment {
        a: Point { x: ax, y: ay },
        b: Point { x: bx, y: by },
        line: 1,
    }
}

/// Where the two meet, if that is so either way round.
fn meeting(first: Ends, second: Ends) -> Result<Meeting> {
    let s = segment(first);
    let t = segment(second);
    ensure!(s.is_in_range() && t.is_in_range());
    let meeting = meeting_of(&s, &t);
    ensure!(meeting_of(&t, &s) == meeting);
    Ok(meeting)
}

#[test]
fn meetings_of_each_kind() -> Result<()> {
    for (name, first, second, place) in &AT {
        ensure!(meeting(*first, *second)? == At(point(*place)), "{name}");
    }
    for (name, first, second, place) in &OFF_LATTICE {
        ensure!(
            meeting(*first, *second)? == OffLattice(point(*place)),
            "{name}"
        );
    }
    for (name, first, second) in &APART {
        ensure!(meeting(*first, *second)? == Apart, "{name}");
    }
    for (name, first, second) in &PARALLEL {
        ensure!(meeting(*first, *second)? == Parallel, "{name}");
    }
    Ok(())
}
