//! What holds of each plan of `oe_cover`: each edge burns once, chains go along edges, and components burn in order, each with as many
//! chains as it may have, the last of which ends where it should.
use anyhow::{Context, Result, bail, ensure};
use drawing_samples::samples::{
    ALL, CROSS, CUT_CORNER, SQUARE, SQUARE_IN_NINE, SQUARE_IN_SQUARE, SQUARES_ASIDE,
    TWO_RECTANGLES, TWO_SPIKES,
};
use drawing_samples::{Sample, edges_of};
use face_nesting::Faces;
use half_edges::PlaneGraph;
use nest_base::{Component, Side};
use oe_cover::start::first_start;
use oe_cover::{Plan, cover_all, cover_component};
use std::alloc::Global;

type Place = [i64; 2];

/// How a component burns: its number, how few chains it needs and how many it may take, and the place where the last one ends.
type Expected = (u32, usize, usize, Place);

/// Drawings, with their components in burning order.
const CASES: [(Sample, &[Expected]); 8] = [
    (SQUARE, &[(0, 1, 1, [0, 10])]),
    (TWO_RECTANGLES, &[(0, 1, 1, [10, 10])]),
    (CROSS, &[(0, 2, 3, [0, 10])]),
    (TWO_SPIKES, &[(0, 1, 2, [0, 30])]),
    (SQUARE_IN_NINE, &[(0, 4, 7, [0, 20])]),
    (SQUARE_IN_SQUARE, &[(1, 1, 1, [10, 20]), (0, 1, 1, [0, 30])]),
    (SQUARES_ASIDE, &[(0, 1, 1, [0, 10]), (1, 1, 1, [20, 10])]),
    (CUT_CORNER, &[(1, 1, 1, [10, 20]), (0, 1, 1, [0, 20])]),
];

/// Neighbouring chains of one component: its number, how many they are, and the place where the last one ends.
#[derive(Drop)]
struct Run {
    component: Component,
    chains: usize,
    end: Place,
}

/// Both ends of a half-edge, which must be there.
fn ends_of(graph: &PlaneGraph, side: Side) -> Result<(Place, Place)> {
    if side.0 >= graph.side_count() {
        bail!("no such half-edge");
    }
    let from = graph.place(graph.from(side));
    let to = graph.place(graph.to(side));
    Ok(([from.x, from.y], [to.x, to.y]))
}

/// The component of a half-edge, which must be there.
fn component_of(graph: &PlaneGraph, side: Side) -> Result<Component> {
    if side.0 >= graph.side_count() {
        bail!("no such half-edge");
    }
    Ok(graph.component_of(graph.from(side)))
}

/// The places where a chain begins and ends. An error where it has no half-edge, or one that doesn't begin where the one before it ends.
fn ends_of_chain(graph: &PlaneGraph, chain: &[Side]) -> Result<(Place, Place)> {
    let first = chain.first().context("an empty chain")?;
    let (begin, mut end) = ends_of(graph, *first)?;
    for side in chain.iter().skip(1) {
        let (from, to) = ends_of(graph, *side)?;
        ensure!(from == end, "a chain breaks off");
        end = to;
    }
    Ok((begin, end))
}

/// The runs of a plan.
fn runs_of(alloc: Global, graph: &PlaneGraph, plan: &Plan) -> Result<Vec<Run>> {
    let mut runs: Vec<Run> = Vec::new(alloc);
    for i in 0..plan.len() {
        let chain = plan.chain(i);
        let (_, end) = ends_of_chain(graph, chain)?;
        let component = component_of(graph, *chain.first().context("an empty chain")?)?;
        match runs.last_mut() {
            Some(last) if last.component == component => {
                last.chains = last.chains.saturating_add(1);
                last.end = end;
            }
            _ => runs.push(Run {
                component,
                chains: 1,
                end,
            })?,
        }
    }
    Ok(runs)
}

fn is_as_expected(run: &Run, expected: &Expected) -> bool {
    let (component, fewest, most, end) = *expected;
    run.component == Component(component)
        && run.chains >= fewest
        && run.chains <= most
        && run.end == end
}

/// Checks that the components of a sample burn as expected.
fn check_order(alloc: Global, sample: &Sample, expected: &[Expected]) -> Result<()> {
    let edges = edges_of(alloc, sample.segments)?;
    let mut graph = PlaneGraph::build(alloc, &edges)?;
    let faces = Faces::build(alloc, &graph, &edges)?;
    let plan = cover_all(alloc, &mut graph, &faces)?;
    let runs = runs_of(alloc, &graph, &plan)?;
    ensure!(runs.len() == expected.len(), "{}", sample.name);
    let mut pairs = runs.iter().zip(expected);
    ensure!(
        pairs.all(|(run, component)| is_as_expected(run, component)),
        "{}",
        sample.name
    );
    Ok(())
}

#[test]
fn components_burn_in_order_and_end_where_they_should(rt: HostRuntime) -> Result<()> {
    for (sample, expected) in &CASES {
        check_order(rt.alloc(), sample, expected)?;
    }
    Ok(())
}

/// How often each edge stands in a plan.
fn uses_of(alloc: Global, graph: &PlaneGraph, plan: &Plan) -> Result<Vec<u32>> {
    let mut uses = vec![in alloc; 0_u32; graph.edge_count() as usize]?;
    for i in 0..plan.len() {
        for side in plan.chain(i) {
            let edge = side.0 as usize / 2;
            if edge >= uses.len() || uses[edge] > 0 {
                bail!("an edge stands twice");
            }
            uses[edge] += 1;
        }
    }
    Ok(uses)
}

/// Checks that each edge of a sample burns once, in chains along edges.
fn check_burns(alloc: Global, sample: &Sample) -> Result<()> {
    let edges = edges_of(alloc, sample.segments)?;
    let mut graph = PlaneGraph::build(alloc, &edges)?;
    let faces = Faces::build(alloc, &graph, &edges)?;
    let plan = cover_all(alloc, &mut graph, &faces)?;
    ensure!(graph.mark() == graph.edge_count(), "{}", sample.name);
    let uses = uses_of(alloc, &graph, &plan)?;
    ensure!(uses.iter().all(|n| *n == 1), "{}", sample.name);
    for i in 0..plan.len() {
        ends_of_chain(&graph, plan.chain(i))?;
    }
    Ok(())
}

#[test]
fn each_edge_burns_once_in_a_chain_along_edges(rt: HostRuntime) -> Result<()> {
    for sample in &ALL {
        check_burns(rt.alloc(), sample)?;
    }
    Ok(())
}

/// The second of two squares alone is covered.
#[test]
fn other_components_stay_unburnt(rt: HostRuntime) -> Result<()> {
    let edges = edges_of(rt.alloc(), SQUARES_ASIDE.segments)?;
    let mut graph = PlaneGraph::build(rt.alloc(), &edges)?;
    let faces = Faces::build(rt.alloc(), &graph, &edges)?;
    if graph.component_count() != 2 {
        bail!("other components");
    }
    let start = first_start(&graph, &faces, Component(1));
    let plan = cover_component(rt.alloc(), &mut graph, &faces, Component(1), start)?;
    let runs = runs_of(rt.alloc(), &graph, &plan)?;
    ensure!(runs.len() == 1, "other components burn");
    ensure!(
        runs.iter()
            .all(|run| is_as_expected(run, &(1, 1, 1, [20, 10]))),
        "another end"
    );
    ensure!(graph.mark() == 4, "other edges are burnt");
    for &side in faces.outer_sides(Component(0)) {
        if side.0 >= graph.side_count() || graph.is_burnt(side) {
            bail!("the first square burns");
        }
    }
    Ok(())
}
