//! Odd vertices, bounds and limits, by `pierce_bound`.
ghost use Rattle.std.specs.Prelude.{◌≡◌, length};
ghost use Rattle.face_nesting.specs.Nesting.{AreOuterCycles};

use anyhow::{Result, ensure};
use drawing_samples::samples::{
    BRIDGE, FOUR_SPIKES, LINE, SQUARE, SQUARE_IN_FOUR, THREE_KINDS, TWO_RECTANGLES, TWO_SPIKES,
};
use drawing_samples::{Sample, edges_of};
use face_nesting::Faces;
use half_edges::PlaneGraph;
use nest_base::Component;
use pierce_bound::{bound, has_odd_outer, limit, odd_count, total_bound};
use pierce_report::counts::odd_counts;

/// What is expected of one component.
struct Numbers {
    odd: u32,
    has_outer: bool,
    bound: u32,
    limit: u32,
}

/// A drawing, what is expected of each of its components, and the bound of all.
struct Drawing {
    sample: Sample,
    components: &'static [Numbers],
    total: u32,
}

const NO_ODD: Numbers = Numbers {
    odd: 0,
    has_outer: false,
    bound: 1,
    limit: 1,
};

const TWO_OUTER: Numbers = Numbers {
    odd: 2,
    has_outer: true,
    bound: 1,
    limit: 1,
};

const FOUR_OUTER: Numbers = Numbers {
    odd: 4,
    has_outer: true,
    bound: 2,
    limit: 3,
};

const TWO_INNER: Numbers = Numbers {
    odd: 2,
    has_outer: false,
    bound: 1,
    limit: 2,
};

const FOUR_INNER: Numbers = Numbers {
    odd: 4,
    has_outer: false,
    bound: 2,
    limit: 4,
};

const DRAWINGS: [Drawing; 8] = [
    Drawing {
        sample: SQUARE,
        components: &[NO_ODD],
        total: 1,
    },
    Drawing {
        sample: TWO_RECTANGLES,
        components: &[TWO_OUTER],
        total: 1,
    },
    Drawing {
        sample: SQUARE_IN_FOUR,
        components: &[FOUR_OUTER],
        total: 2,
    },
    Drawing {
        sample: TWO_SPIKES,
        components: &[TWO_INNER],
        total: 1,
    },
    Drawing {
        sample: FOUR_SPIKES,
        components: &[FOUR_INNER],
        total: 2,
    },
    Drawing {
        sample: BRIDGE,
        components: &[TWO_INNER],
        total: 1,
    },
    Drawing {
        sample: LINE,
        components: &[TWO_OUTER],
        total: 1,
    },
    Drawing {
        sample: THREE_KINDS,
        components: &[FOUR_OUTER, NO_ODD, TWO_OUTER],
        total: 4,
    },
];

/// An error where a component has other numbers than expected.
fn ensure_numbers(graph: &PlaneGraph, faces: &Faces, c: Component, numbers: &Numbers) -> Result<()>
    requires parents { length faces.now.parents ≡ length graph.now.marks }
    requires outer_cycles { AreOuterCycles graph.now faces.now }
{
    ensure!(c.0 < graph.component_count(), "{c:?}");
    ensure!(odd_count(graph, c) == numbers.odd, "{c:?}");
    ensure!(has_odd_outer(graph, faces, c) == numbers.has_outer, "{c:?}");
    ensure!(bound(graph, c) == numbers.bound, "{c:?}");
    ensure!(limit(graph, faces, c) == numbers.limit, "{c:?}");
    Ok(())
}

/// An error where the components aren't as they were drawn.
fn ensure_as_drawn(drawing: &Drawing, graph: &PlaneGraph, faces: &Faces) -> Result<()>
    requires parents { length faces.now.parents ≡ length graph.now.marks }
    requires outer_cycles { AreOuterCycles graph.now faces.now }
{
    for (c, numbers) in (0..graph.component_count()).zip(drawing.components) {
        ensure_numbers(graph, faces, Component(c), numbers)?;
    }
    Ok(())
}

#[test]
fn odd_vertices_bounds_and_limits_of_small_drawings(rt: HostRuntime) -> Result<()> {
    for drawing in &DRAWINGS {
        let edges = edges_of(rt.alloc(), drawing.sample.segments)?;
        let graph = PlaneGraph::build(rt.alloc(), &edges)?;
        let faces = Faces::build(rt.alloc(), &graph, &edges)?;
        ensure_as_drawn(drawing, &graph, &faces)?;
        ensure!(
            total_bound(&graph) == drawing.total,
            "{}",
            drawing.sample.name
        );
        let counts = odd_counts(rt.alloc(), &graph)?;
        let expected = drawing.components.iter().map(|numbers| &numbers.odd);
        ensure!(counts.iter().eq(expected), "{}", drawing.sample.name);
    }
    Ok(())
}
