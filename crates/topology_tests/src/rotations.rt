//! The rotations and faces of the graphs of `half_edges`.
ghost use Rattle.std.specs.Prelude.{◌<◌, length, IfOk};
ghost use Rattle.half_edges.specs.Numbers.{half_edges_of};

use crate::graphs::graph_of;
use anyhow::{Result, bail, ensure};
use drawing_samples::samples::{ALL_ROUND, FAR, FROM_CORNER, LINE, SQUARE_IN_FOUR, TRIANGLE};
use drawing_samples::{Ends, Sample, edges_of};
use half_edges::PlaneGraph;
use nest_base::{Point, Side, VertexId};
use std::alloc::{AllocError, Global};

/// A vertex, and where the half-edges that leave it lead, counterclockwise from west.
type Rotation = ((i64, i64), &'static [(i64, i64)]);

/// A drawing, how many edges it has, its rotations, and the places round each of its faces, which lie on the left.
struct Case {
    sample: Sample,
    edges: u32,
    rotations: &'static [Rotation],
    faces: &'static [&'static [(i64, i64)]],
}

const CASES: [Case; 4] = [
    Case {
        sample: LINE,
        edges: 1,
        rotations: &[((0, 0), &[(10, 0)]), ((10, 0), &[(0, 0)])],
        faces: &[&[(0, 0), (10, 0)]],
    },
    Case {
        sample: SQUARE_IN_FOUR,
        edges: 12,
        rotations: &[
            ((0, 20), &[(0, 10), (10, 20)]),
            ((0, 10), &[(0, 0), (10, 10), (0, 20)]),
            ((0, 0), &[(10, 0), (0, 10)]),
            ((10, 20), &[(0, 20), (10, 10), (20, 20)]),
            ((10, 10), &[(0, 10), (10, 0), (20, 10), (10, 20)]),
            ((10, 0), &[(0, 0), (20, 0), (10, 10)]),
            ((20, 20), &[(10, 20), (20, 10)]),
            ((20, 10), &[(10, 10), (20, 0), (20, 20)]),
            ((20, 0), &[(10, 0), (20, 10)]),
        ],
        faces: &[
            &[(0, 0), (10, 0), (10, 10), (0, 10)],
            &[(10, 0), (20, 0), (20, 10), (10, 10)],
            &[(0, 10), (10, 10), (10, 20), (0, 20)],
            &[(10, 10), (20, 10), (20, 20), (10, 20)],
            &[
                (0, 0),
                (0, 10),
                (0, 20),
                (10, 20),
                (20, 20),
                (20, 10),
                (20, 0),
                (10, 0),
            ],
        ],
    },
    Case {
        sample: ALL_ROUND,
        edges: 9,
        rotations: &[(
            (0, 0),
            &[
                (-FAR, 0),
                (-FAR, -1),
                (-1, -FAR),
                (0, -FAR),
                (FAR, -1),
                (FAR, 0),
                (FAR, 1),
                (0, FAR),
                (-FAR, 1),
            ],
        )],
        faces: &[&[
            (0, 0),
            (-FAR, 0),
            (0, 0),
            (-FAR, 1),
            (0, 0),
            (0, FAR),
            (0, 0),
            (FAR, 1),
            (0, 0),
            (FAR, 0),
            (0, 0),
            (FAR, -1),
            (0, 0),
            (0, -FAR),
            (0, 0),
            (-1, -FAR),
            (0, 0),
            (-FAR, -1),
        ]],
    },
    Case {
        sample: FROM_CORNER,
        edges: 5,
        rotations: &[(
            (-FAR, -FAR),
            &[
                (FAR, -FAR),
                (FAR - 1, FAR - 2),
                (FAR, FAR - 1),
                (FAR, FAR),
                (-FAR, FAR),
            ],
        )],
        faces: &[],
    },
];

/// The vertex at a place.
fn vertex_at(graph: &PlaneGraph, at: (i64, i64)) -> Result<VertexId>
    ensures { IfOk result (λ v. v.0 < length graph.now.vertices) }
{
    let Some(v) = graph.find_vertex(Point { x: at.0, y: at.1 }) else {
        bail!("no vertex");
    };
    ensure!(v.0 < graph.vertex_count(), "no such vertex");
    Ok(v)
}

/// The half-edge from one place to another.
fn side_between(graph: &PlaneGraph, a: (i64, i64), b: (i64, i64)) -> Result<Side>
    ensures { IfOk result (λ s. s.0 < length (half_edges_of graph.now.edges)) }
{
    let Some(s) = graph.find_side(Point { x: a.0, y: a.1 }, Point { x: b.0, y: b.1 }) else {
        bail!("no half-edge");
    };
    ensure!(s.0 < graph.side_count(), "no such half-edge");
    Ok(s)
}

/// Checks what is read of one rotation, from its first half-edge on.
fn check_rotation(graph: &PlaneGraph, (at, ends): &Rotation) -> Result<()> {
    let v = vertex_at(graph, *at)?;
    ensure!(graph.place(v) == Point { x: at.0, y: at.1 }, "place");
    ensure!(graph.degree(v) as usize == ends.len(), "degree");
    let mut s = graph.first_side(v);
    for (k, end) in ends.iter().enumerate() {
        ensure!(side_between(graph, *at, *end)? == s, "the next side");
        ensure!(s.0 < graph.side_count(), "no such half-edge");
        ensure!(graph.from(s) == v, "from");
        ensure!(graph.to(s) == vertex_at(graph, *end)?, "to");
        ensure!(graph.position(s) as usize == k, "position");
        ensure!(graph.twin(s) == side_between(graph, *end, *at)?, "twin");
        let next = graph.ccw(s);
        ensure!(next.0 < graph.side_count(), "no such half-edge");
        ensure!(graph.cw(next) == s, "clockwise");
        s = next;
    }
    ensure!(s == graph.first_side(v), "once round");
    Ok(())
}

/// Checks that a face goes on from each half-edge round it to the next.
fn check_face(graph: &PlaneGraph, places: &[(i64, i64)]) -> Result<()> {
    for k in 0..places.len() {
        let s = side_between(graph, places[k], places[(k + 1) % places.len()])?;
        let next = side_between(
            graph,
            places[(k + 1) % places.len()],
            places[(k + 2) % places.len()],
        )?;
        ensure!(graph.along(s) == next, "along from place {k}");
    }
    Ok(())
}

#[test]
fn rotations_and_faces(rt: HostRuntime) -> Result<()> {
    for case in &CASES {
        let graph = graph_of(rt.alloc(), &case.sample)?;
        ensure!(graph.edge_count() == case.edges, "{}", case.sample.name);
        for rotation in case.rotations {
            check_rotation(&graph, rotation)?;
        }
        for face in case.faces {
            check_face(&graph, face)?;
        }
    }
    Ok(())
}

#[test]
fn what_is_not_there(rt: HostRuntime) -> Result<()> {
    let graph = graph_of(rt.alloc(), &TRIANGLE)?;
    for (x, y) in [(2, 0), (4, 2), (-1, 0), (0, 1), (5, 5)] {
        ensure!(graph.find_vertex(Point { x, y }).is_none(), "{x}, {y}");
    }
    let corner = Point { x: 0, y: 0 };
    for (x, y) in [(0, 0), (2, 0), (2, 2), (0, 4)] {
        ensure!(
            graph.find_side(corner, Point { x, y }).is_none(),
            "{x}, {y}"
        );
        ensure!(
            graph.find_side(Point { x, y }, corner).is_none(),
            "{x}, {y}"
        );
    }
    Ok(())
}

/// Lines from one place to 5,000 others side by side, from west to east.
fn star_of(alloc: Global) -> Result<Vec<Ends>, AllocError> {
    let mut ends = Vec::new(alloc);
    for k in -2500..0 {
        ends.push([k, 5000, 0, 0])?;
    }
    for k in 0..2500 {
        ends.push([0, 0, k, 5000])?;
    }
    Ok(ends)
}

#[test]
fn a_star_of_five_thousand_lines(rt: HostRuntime) -> Result<()> {
    let edges = edges_of(rt.alloc(), &star_of(rt.alloc())?)?;
    let graph = PlaneGraph::build(rt.alloc(), &edges)?;
    let middle = vertex_at(&graph, (0, 0))?;
    ensure!(graph.degree(middle) == 5000);
    // Counterclockwise from west, the easternmost line is met first.
    let mut s = graph.first_side(middle);
    for k in 0..5000 {
        ensure!(s.0 < graph.side_count(), "no such half-edge");
        ensure!(graph.position(s) == k, "{k}");
        let x = 2499 - i64::from(k);
        ensure!(graph.place(graph.to(s)) == Point { x, y: 5000 }, "{k}");
        s = graph.ccw(s);
    }
    ensure!(s == graph.first_side(middle));
    Ok(())
}
