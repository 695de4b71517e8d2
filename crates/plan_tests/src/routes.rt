//! Orders of `component_route`, worked out by hand: the one place where the route itself is asked for.
ghost use Rattle.std.specs.Prelude.{◌≡◌, [], IfOk, length};
ghost use Rattle.half_edges.specs.Numbers.{half_edges_of};

use anyhow::{Result, bail, ensure};
use component_route::{Route, cover};
use drawing_samples::samples::{
    BRIDGE, CROSS, CUT_CORNER, FOUR_SPIKES, LINE, SQUARE, SQUARE_IN_FOUR, TOUCHING_SQUARES,
    TWO_RECTANGLES, TWO_SPIKES,
};
use drawing_samples::{Ends, Sample, edges_of};
use half_edges::PlaneGraph;
use nest_base::{Point, Side};
use std::alloc::Global;

/// A drawing; the outer half-edge at whose corner the cover ends; and the places of each chain of the cover, in burning order.
struct Case {
    sample: Sample,
    start: Ends,
    chains: &'static [&'static [(i64, i64)]],
}

const CASES: [Case; 10] = [
    Case {
        sample: LINE,
        start: [0, 0, 10, 0],
        chains: &[&[(10, 0), (0, 0)]],
    },
    Case {
        sample: SQUARE,
        start: [0, 10, 10, 10],
        chains: &[&[(0, 10), (10, 10), (10, 0), (0, 0), (0, 10)]],
    },
    Case {
        sample: TWO_RECTANGLES,
        start: [10, 10, 20, 10],
        chains: &[&[
            (10, 0),
            (10, 10),
            (20, 10),
            (20, 0),
            (10, 0),
            (0, 0),
            (0, 10),
            (10, 10),
        ]],
    },
    Case {
        sample: SQUARE_IN_FOUR,
        start: [0, 10, 0, 20],
        chains: &[
            &[(10, 0), (10, 10)],
            &[(20, 10), (10, 10)],
            &[
                (10, 20),
                (10, 10),
                (0, 10),
                (0, 20),
                (10, 20),
                (20, 20),
                (20, 10),
                (20, 0),
                (10, 0),
                (0, 0),
                (0, 10),
            ],
        ],
    },
    Case {
        sample: CUT_CORNER,
        start: [0, 20, 0, 30],
        chains: &[&[
            (5, 30),
            (0, 20),
            (0, 30),
            (5, 30),
            (30, 30),
            (30, 0),
            (0, 0),
            (0, 20),
        ]],
    },
    Case {
        sample: TOUCHING_SQUARES,
        start: [0, 10, 10, 10],
        chains: &[&[
            (0, 10),
            (10, 10),
            (10, 20),
            (20, 20),
            (20, 10),
            (10, 10),
            (10, 0),
            (0, 0),
            (0, 10),
        ]],
    },
    Case {
        sample: TWO_SPIKES,
        start: [0, 30, 30, 30],
        chains: &[
            &[(25, 10), (30, 0), (30, 30), (0, 30)],
            &[(20, 5), (30, 0), (0, 0), (0, 30)],
        ],
    },
    Case {
        sample: BRIDGE,
        start: [0, 10, 10, 10],
        chains: &[
            &[(5, 5), (10, 10), (0, 10)],
            &[
                (25, 5),
                (20, 10),
                (30, 10),
                (30, 0),
                (20, 0),
                (20, 10),
                (10, 10),
                (10, 0),
                (0, 0),
                (0, 10),
            ],
        ],
    },
    Case {
        sample: FOUR_SPIKES,
        start: [0, 40, 40, 40],
        chains: &[
            &[(30, 35), (40, 40), (0, 40)],
            &[(35, 30), (40, 40), (40, 0)],
            &[(35, 10), (40, 0)],
            &[(30, 5), (40, 0), (0, 0), (0, 40)],
        ],
    },
    Case {
        sample: CROSS,
        start: [0, 10, 5, 5],
        chains: &[
            &[(0, 0), (5, 5)],
            &[(10, 0), (5, 5)],
            &[(10, 10), (5, 5), (0, 10)],
        ],
    },
];

/// The edges of chains one after another, in burning direction.
fn edges_in(alloc: Global, chains: &[&[(i64, i64)]]) -> Result<Vec<Ends>> {
    let mut edges = Vec::new(alloc);
    for chain in chains {
        for (a, b) in chain.iter().zip(chain.iter().skip(1)) {
            edges.push([a.0, a.1, b.0, b.1])?;
        }
    }
    Ok(edges)
}

/// The edges of an order.
fn edges_by(alloc: Global, graph: &PlaneGraph, order: &[Side]) -> Result<Vec<Ends>> {
    let mut edges = Vec::new(alloc);
    for &side in order {
        if side.0 >= graph.side_count() {
            bail!("no such half-edge");
        }
        let a = graph.place(graph.from(side));
        let b = graph.place(graph.to(side));
        edges.push([a.x, a.y, b.x, b.y])?;
    }
    Ok(edges)
}

/// The half-edge between two ends.
fn side_of(graph: &PlaneGraph, ends: Ends) -> Result<Side> {
    let [ax, ay, bx, by] = ends;
    match graph.find_side(Point { x: ax, y: ay }, Point { x: bx, y: by }) {
        Some(side) => Ok(side),
        None => bail!("no such edge"),
    }
}

/// The graph of a drawing, and its edges in the order in which they are burnt from `start` on.
fn burnt_from(alloc: Global, case: &Case) -> Result<Vec<Ends>> {
    let split = edges_of(alloc, case.sample.segments)?;
    let mut graph = PlaneGraph::build(alloc, &split)?;
    let start = side_of(&graph, case.start)?;
    if start.0 >= graph.side_count() {
        bail!("no such half-edge");
    }
    let mut route = Route::new(alloc, graph.edge_count())?;
    cover(&mut graph, &mut route, start);
    let burnt = edges_by(alloc, &graph, route.order())?;
    ensure!(
        burnt.len() == graph.mark() as usize,
        "more is burnt than covered"
    );
    route.clear();
    ensure!(route.order().is_empty(), "the route is not empty");
    Ok(burnt)
}

fn are_same(a: &[Ends], b: &[Ends]) -> bool {
    a.len() == b.len() && a.iter().zip(b).all(|(x, y)| *x == *y)
}

#[test]
fn orders_are_as_by_hand(rt: HostRuntime) -> Result<()> {
    for case in &CASES {
        let burnt = burnt_from(rt.alloc(), case)?;
        let by_hand = edges_in(rt.alloc(), case.chains)?;
        ensure!(
            are_same(burnt.as_slice(), by_hand.as_slice()),
            "{}",
            case.sample.name
        );
    }
    Ok(())
}
