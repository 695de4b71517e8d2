//! Small drawings and their edges, by `segment_split`.
ghost use Rattle.std.specs.Prelude.{IsTrue, ◌↔◌, ◌≢◌, All};
ghost use Rattle.nest_base.specs.Range.{IsSegmentWithin, widest};

use anyhow::{Result, anyhow, ensure};
use drawing_samples::samples::{
    BRIDGE, CROSS, CUT_CORNER, LINE, SQUARE, SQUARE_IN_FOUR, SQUARE_IN_NINE, TWO_RECTANGLES,
};
use drawing_samples::{Ends, Sample};
use nest_base::{Drawing, Edge, Edges, OutOfMemory, Point, Segment};
use segment_split::{SplitError, split};
use std::alloc::Global;

const FAR: i64 = 100_000_000;

fn are_within(segments: &[Segment]) -> bool
    ensures { IsTrue result → All (IsSegmentWithin widest) segments.now }
{
    segments.iter().all(|s| s.is_in_range())
}

fn have_length(segments: &[Segment]) -> bool
    ensures { IsTrue result → All (λ s. s.a ≢ s.b) segments.now }
{
    segments.iter().all(|s| s.has_length())
}

fn drawing_of(alloc: Global, ends: &[Ends]) -> Result<Drawing, OutOfMemory> {
    let mut drawing = Drawing::new(alloc);
    for &[ax, ay, bx, by] in ends {
        drawing.push_segment(Segment {
            a: Point { x: ax, y: ay },
            b: Point { x: bx, y: by },
            line: 1,
        })?;
    }
    Ok(drawing)
}

/// Splits the segments between these ends.
fn answer(alloc: Global, ends: &[Ends]) -> Result<Result<Edges, SplitError>> {
    let drawing = drawing_of(alloc, ends)?;
    ensure!(drawing.segments().len() <= 20_000);
    ensure!(are_within(drawing.segments()));
    ensure!(have_length(drawing.segments()));
    Ok(split(alloc, &drawing))
}

fn is_edge(e: &Edge, ends: &Ends) -> bool {
    let [low_x, low_y, high_x, high_y] = *ends;
    e.low.x == low_x && e.low.y == low_y && e.high.x == high_x && e.high.y == high_y
}

fn are_edges(edges: &[Edge], wanted: &[Ends]) -> bool {
    edges.len() == wanted.len() && edges.iter().zip(wanted).all(|(e, ends)| is_edge(e, ends))
}

/// What the drawing is, its segments, and its edges in order.
type Drawn = (&'static str, &'static [Ends], &'static [Ends]);

/// Lines that share points with no other, or ends alone.
const APART: [Drawn; 7] = [
    ("nothing", &[], &[]),
    ("one line", &[[0, 0, 10, 3]], &[[0, 0, 10, 3]]),
    ("one line back", &[[10, 3, 0, 0]], &[[0, 0, 10, 3]]),
    (
        "far apart",
        &[[5, 5, 6, 7], [0, 0, 1, 1]],
        &[[0, 0, 1, 1], [5, 5, 6, 7]],
    ),
    (
        "parallel",
        &[[0, 0, 4, 4], [1, 0, 5, 4]],
        &[[0, 0, 4, 4], [1, 0, 5, 4]],
    ),
    (
        "end to end",
        &[[4, 0, 9, 0], [0, 0, 4, 0]],
        &[[0, 0, 4, 0], [4, 0, 9, 0]],
    ),
    (
        "a corner",
        &[[0, 0, 4, 0], [4, 3, 4, 0]],
        &[[0, 0, 4, 0], [4, 0, 4, 3]],
    ),
];

/// Lines that have a part in common.
const OVERLAPPING: [Drawn; 7] = [
    (
        "repeated",
        &[[0, 0, 10, 3], [0, 0, 10, 3], [0, 0, 10, 3]],
        &[[0, 0, 10, 3]],
    ),
    (
        "repeated and turned",
        &[[0, 0, 10, 3], [10, 3, 0, 0]],
        &[[0, 0, 10, 3]],
    ),
    (
        "covered",
        &[[3, 1, 6, 2], [0, 0, 9, 3]],
        &[[0, 0, 3, 1], [3, 1, 6, 2], [6, 2, 9, 3]],
    ),
    (
        "folded",
        &[[0, 0, 9, 0], [3, 0, 0, 0]],
        &[[0, 0, 3, 0], [3, 0, 9, 0]],
    ),
    (
        "upright",
        &[[2, 8, 2, 3], [2, 0, 2, 5]],
        &[[2, 0, 2, 3], [2, 3, 2, 5], [2, 5, 2, 8]],
    ),
    (
        "three in a row",
        &[[0, 0, 6, 0], [4, 0, 10, 0], [5, 0, 12, 0]],
        &[
            [0, 0, 4, 0],
            [4, 0, 5, 0],
            [5, 0, 6, 0],
            [6, 0, 10, 0],
            [10, 0, 12, 0],
        ],
    ),
    (
        "a square with a side of two lines",
        &[
            [0, 0, 6, 0],
            [4, 0, 10, 0],
            [10, 0, 10, 10],
            [10, 10, 0, 10],
            [0, 10, 0, 0],
        ],
        &[
            [0, 0, 0, 10],
            [0, 0, 4, 0],
            [0, 10, 10, 10],
            [4, 0, 6, 0],
            [6, 0, 10, 0],
            [10, 0, 10, 10],
        ],
    ),
];

/// Lines that meet at places.
const MEETING: [Drawn; 8] = [
    (
        "a T-joint",
        &[[0, 0, 10, 0], [4, 7, 4, 0]],
        &[[0, 0, 4, 0], [4, 0, 4, 7], [4, 0, 10, 0]],
    ),
    (
        "a slanted T-joint",
        &[[2, 1, 3, -5], [0, 0, 4, 2]],
        &[[0, 0, 2, 1], [2, 1, 3, -5], [2, 1, 4, 2]],
    ),
    (
        "upright and level",
        &[[3, 0, 3, 8], [9, 4, 0, 4]],
        &[[0, 4, 3, 4], [3, 0, 3, 4], [3, 4, 3, 8], [3, 4, 9, 4]],
    ),
    (
        "steep and flat",
        &[[0, 0, 2, 100], [-99, 49, 101, 51]],
        &[
            [-99, 49, 1, 50],
            [0, 0, 1, 50],
            [1, 50, 2, 100],
            [1, 50, 101, 51],
        ],
    ),
    (
        "three through one place, one of them from it",
        &[[0, 0, 10, 10], [0, 10, 10, 0], [5, 5, 5, 20]],
        &[
            [0, 0, 5, 5],
            [0, 10, 5, 5],
            [5, 5, 5, 20],
            [5, 5, 10, 0],
            [5, 5, 10, 10],
        ],
    ),
    (
        "four through one place",
        &[[0, 2, 4, 2], [2, 0, 2, 4], [0, 0, 4, 4], [4, 0, 0, 4]],
        &[
            [0, 0, 2, 2],
            [0, 2, 2, 2],
            [0, 4, 2, 2],
            [2, 0, 2, 2],
            [2, 2, 2, 4],
            [2, 2, 4, 0],
            [2, 2, 4, 2],
            [2, 2, 4, 4],
        ],
    ),
    (
        "a ladder",
        &[[0, 0, 0, 6], [3, 6, 3, 0], [0, 2, 3, 2], [3, 4, 0, 4]],
        &[
            [0, 0, 0, 2],
            [0, 2, 0, 4],
            [0, 2, 3, 2],
            [0, 4, 0, 6],
            [0, 4, 3, 4],
            [3, 0, 3, 2],
            [3, 2, 3, 4],
            [3, 4, 3, 6],
        ],
    ),
    (
        "the corners of the range",
        &[[-FAR, -FAR, FAR, FAR], [-FAR, FAR, FAR, -FAR]],
        &[
            [-FAR, -FAR, 0, 0],
            [-FAR, FAR, 0, 0],
            [0, 0, FAR, -FAR],
            [0, 0, FAR, FAR],
        ],
    ),
];

/// Samples, and their edges in order.
const SAMPLES: [(Sample, &[Ends]); 3] = [
    (
        SQUARE,
        &[
            [0, 0, 0, 10],
            [0, 0, 10, 0],
            [0, 10, 10, 10],
            [10, 0, 10, 10],
        ],
    ),
    (
        CROSS,
        &[[0, 0, 5, 5], [0, 10, 5, 5], [5, 5, 10, 0], [5, 5, 10, 10]],
    ),
    (
        TWO_RECTANGLES,
        &[
            [0, 0, 0, 10],
            [0, 0, 10, 0],
            [0, 10, 10, 10],
            [10, 0, 10, 10],
            [10, 0, 20, 0],
            [10, 10, 20, 10],
            [20, 0, 20, 10],
        ],
    ),
];

/// Checks the edges of a drawing.
fn check(alloc: Global, name: &str, segments: &[Ends], wanted: &[Ends]) -> Result<()> {
    let Ok(edges) = answer(alloc, segments)? else {
        return Err(anyhow!("{name}: refused"));
    };
    ensure!(are_edges(edges.as_slice(), wanted), "{name}: other edges");
    Ok(())
}

/// Checks the edges of each drawing.
fn check_all(alloc: Global, drawings: &[Drawn]) -> Result<()> {
    for (name, segments, wanted) in drawings {
        check(alloc, name, segments, wanted)?;
    }
    Ok(())
}

#[test]
fn drawings_of_each_kind(rt: HostRuntime) -> Result<()> {
    check_all(rt.alloc(), &APART)?;
    check_all(rt.alloc(), &OVERLAPPING)?;
    check_all(rt.alloc(), &MEETING)?;
    for (sample, wanted) in &SAMPLES {
        check(rt.alloc(), sample.name, sample.segments, wanted)?;
    }
    Ok(())
}

/// A drawing with each kind of cut point, its lines in two orders and either way round.
#[test]
fn the_order_of_lines_does_not_matter(rt: HostRuntime) -> Result<()> {
    let drawn = [
        [0, 0, 6, 0],
        [4, 0, 10, 0],
        [10, 0, 10, 10],
        [10, 10, 0, 0],
        [0, 10, 10, 0],
        [7, 7, 7, 20],
    ];
    let turned = [
        [7, 20, 7, 7],
        [10, 0, 4, 0],
        [10, 0, 0, 10],
        [0, 0, 10, 10],
        [6, 0, 0, 0],
        [10, 10, 10, 0],
    ];
    let wanted = [
        [0, 0, 4, 0],
        [0, 0, 5, 5],
        [0, 10, 5, 5],
        [4, 0, 6, 0],
        [5, 5, 7, 7],
        [5, 5, 10, 0],
        [6, 0, 10, 0],
        [7, 7, 7, 20],
        [7, 7, 10, 10],
        [10, 0, 10, 10],
    ];
    for ends in [&drawn, &turned] {
        check(rt.alloc(), "cut points of each kind", ends, &wanted)?;
    }
    Ok(())
}

/// What the drawing is, its segments, the numbers of the two that cross, and their crossing, rounded down.
type Crossed = (&'static str, &'static [Ends], [u32; 2], [i64; 2]);

const CROSSED: [Crossed; 8] = [
    (
        "between places",
        &[[0, 0, 3, 1], [0, 1, 3, 0]],
        [1, 2],
        [1, 0],
    ),
    (
        "west and south of the origin",
        &[[0, 0, -3, -1], [0, -1, -3, 0]],
        [1, 2],
        [-2, -1],
    ),
    (
        "between in y alone",
        &[[0, 0, 2, 1], [0, 1, 2, 0]],
        [1, 2],
        [1, 0],
    ),
    (
        "between in x alone",
        &[[0, 0, 1, 2], [1, 0, 0, 2]],
        [1, 2],
        [0, 1],
    ),
    (
        "behind other meetings",
        &[[0, 0, 0, 3], [0, 0, 3, 1], [0, 1, 3, 0]],
        [2, 3],
        [1, 0],
    ),
    (
        "one line and two that cross it",
        &[
            [0, 0, 10000, 7000],
            [0, 2000, 10000, 0],
            [0, 5000, 10000, 0],
        ],
        [1, 2],
        [2222, 1555],
    ),
    (
        "two pairs, the second of which ends first",
        &[[0, 0, 3, 1], [10, 0, 13, 1], [10, 1, 13, 0], [0, 1, 3, 0]],
        [1, 4],
        [1, 0],
    ),
    (
        "far",
        &[[-FAR, -FAR, FAR, FAR], [-FAR, FAR, FAR, 1 - FAR]],
        [1, 2],
        [0, 0],
    ),
];

#[test]
fn crossings_off_the_lattice(rt: HostRuntime) -> Result<()> {
    for (name, ends, numbers, coordinates) in &CROSSED {
        let Err(
            SplitError::Crossing {
                first,
                second,
                place,
            },
        ) = answer(rt.alloc(), ends)?
        else {
            return Err(anyhow!("{name}: not refused as crossing"));
        };
        ensure!([first, second] == *numbers, "{name}: other lines");
        ensure!([place.x, place.y] == *coordinates, "{name}: elsewhere");
    }
    Ok(())
}

/// A drawing, and how many edges and vertices it has.
type Counted = (Sample, usize, usize);

const COUNTED: [Counted; 13] = [
    (LINE, 1, 2),
    (SQUARE, 4, 4),
    (TWO_RECTANGLES, 7, 6),
    (SQUARE_IN_FOUR, 12, 9),
    (SQUARE_IN_NINE, 24, 16),
    (CUT_CORNER, 11, 10),
    (BRIDGE, 11, 10),
    (
        Sample {
            name: "a comb of ten teeth",
            segments: &[
                [0, 0, 90, 0],
                [0, 0, 0, 5],
                [10, 0, 10, 5],
                [20, 5, 20, 0],
                [30, 0, 30, 5],
                [40, 5, 40, 0],
                [50, 0, 50, 5],
                [60, 5, 60, 0],
                [70, 0, 70, 5],
                [80, 5, 80, 0],
                [90, 0, 90, 5],
            ],
        },
        19,
        20,
    ),
    (
        Sample {
            name: "a star of eight rays",
            segments: &[[-6, 0, 6, 0], [0, -6, 0, 6], [-6, -6, 6, 6], [-6, 6, 6, -6]],
        },
        8,
        9,
    ),
    (
        Sample {
            name: "a grid turned by half a right angle",
            segments: &[
                [-12, -8, 8, 12],
                [-10, -10, 10, 10],
                [-8, -12, 12, 8],
                [-12, 8, 8, -12],
                [-10, 10, 10, -10],
                [-8, 12, 12, -8],
            ],
        },
        24,
        21,
    ),
    (
        Sample {
            name: "lines that cover one another",
            segments: &[
                [0, 0, 100, 0],
                [90, 0, 10, 0],
                [20, 0, 80, 0],
                [70, 0, 30, 0],
            ],
        },
        7,
        8,
    ),
    (
        Sample {
            name: "a fan of five lines from one place",
            segments: &[
                [0, 0, 10, 0],
                [10, 3, 0, 0],
                [0, 0, 10, 6],
                [3, 10, 0, 0],
                [0, 0, 0, 10],
            ],
        },
        5,
        6,
    ),
    (
        Sample {
            name: "a fan of five lines that end on another one",
            segments: &[
                [0, 0, 10, 0],
                [0, 0, 10, 5],
                [10, 10, 0, 0],
                [0, 0, 10, 15],
                [10, 20, 0, 0],
                [10, 0, 10, 20],
            ],
        },
        9,
        6,
    ),
];

/// Whether no edge before the one at `k` ends at `p`.
fn is_new(edges: &[Edge], k: usize, p: Point) -> bool {
    edges.iter().take(k).all(|e| e.low != p && e.high != p)
}

/// How many places edges end at.
fn vertices_of(edges: &[Edge]) -> usize {
    let lows = edges.iter().enumerate();
    let highs = edges.iter().enumerate();
    lows.filter(|(k, e)| is_new(edges, *k, e.low)).count()
        + highs.filter(|(k, e)| is_new(edges, *k, e.high)).count()
}

#[test]
fn edges_and_vertices_are_as_many_as_one_counts(rt: HostRuntime) -> Result<()> {
    for (sample, edges, vertices) in &COUNTED {
        let name = sample.name;
        let Ok(answer) = answer(rt.alloc(), sample.segments)? else {
            return Err(anyhow!("{name}: refused"));
        };
        ensure!(answer.as_slice().len() == *edges, "{name}: other edges");
        ensure!(
            vertices_of(answer.as_slice()) == *vertices,
            "{name}: other vertices"
        );
    }
    Ok(())
}
