//! The components of the graphs of `half_edges`.
use crate::graphs::graph_of;
use anyhow::{Context, Result, ensure};
use drawing_samples::Sample;
use drawing_samples::samples::{
    LINE, NOTHING, SQUARE_IN_SQUARE, STAR, THERE_AND_BACK, THREE_ABOVE,
};
use nest_base::{Component, Point};

/// A drawing, how many components it has, and for some places the component.
struct Case {
    sample: Sample,
    count: u32,
    places: &'static [(i64, i64, u32)],
}

const CASES: [Case; 6] = [
    Case {
        sample: NOTHING,
        count: 0,
        places: &[],
    },
    Case {
        sample: LINE,
        count: 1,
        places: &[(0, 0, 0), (10, 0, 0)],
    },
    Case {
        sample: STAR,
        count: 1,
        places: &[(-3, 0, 0), (-1, -4, 0), (0, 0, 0), (0, 5, 0), (7, -2, 0)],
    },
    Case {
        sample: THREE_ABOVE,
        count: 3,
        places: &[
            (0, 9, 0),
            (5, 9, 0),
            (0, 4, 1),
            (5, 5, 1),
            (0, 0, 2),
            (5, 0, 2),
        ],
    },
    Case {
        sample: SQUARE_IN_SQUARE,
        count: 2,
        places: &[
            (0, 0, 0),
            (30, 30, 0),
            (30, 0, 0),
            (10, 10, 1),
            (20, 20, 1),
            (20, 10, 1),
        ],
    },
    Case {
        sample: THERE_AND_BACK,
        count: 2,
        places: &[
            (0, 0, 0),
            (1, 9, 0),
            (8, 9, 0),
            (9, 5, 0),
            (2, 4, 1),
            (3, 4, 1),
        ],
    },
];

#[test]
fn components_of_each_kind(rt: HostRuntime) -> Result<()> {
    for case in &CASES {
        let what = case.sample.name;
        let graph = graph_of(rt.alloc(), &case.sample)?;
        ensure!(graph.component_count() == case.count, "{what}");
        for (x, y, component) in case.places {
            let v = graph.find_vertex(Point { x: *x, y: *y }).context(what)?;
            ensure!(graph.component_of(v) == Component(*component), "{what}");
        }
    }
    Ok(())
}
