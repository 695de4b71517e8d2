//! Edges, odd vertices and chains, counted by component.
ghost use Rattle.std.specs.Prelude.{◌≡◌, ◌<◌, All, IfOk, length, sum};
ghost use Rattle.std.specs.List.{AllZip};
ghost use Rattle.plate_sides.specs.OddCounts.{HasOddCount};
ghost use Rattle.plate_sides.specs.Cover.{IsTrail, HasTrailsIn};
ghost use Rattle.half_edges.specs.Numbers.{half_edges_of};
ghost use Rattle.nest_base.specs.NumberLists.{side_numbers};
ghost use Rattle.oe_cover.specs.Trails.{trails_by};
ghost use Rattle.pierce_report.specs.Rows.{HasEdgeCount, chain_component};

use half_edges::PlaneGraph;
use nest_base::{Component, OutOfMemory, Side, VertexId};
use oe_cover::Plan;
use pierce_bound::plane::graph_is_plane;
use std::alloc::Global;

/// How many edges each component has.
///
/// Takes **O(n)** for n edges. `OutOfMemory` comes for want of memory alone.
pub fn edge_counts(alloc: Global, graph: &PlaneGraph) -> Result<Vec<usize>, OutOfMemory>
    ensures { IfOk result (λ counts. AllZip (HasEdgeCount graph.now.edges) graph.now.marks counts.items) }
{
    graph_is_plane(graph);
    let mut counts = vec![in alloc; 0; graph.component_count() as usize]?;
    for k in 0..graph.edge_count() {
        let vertex = graph.from(Side(2 * k));
        counts[graph.component_of(vertex).0 as usize] += 1;
    }
    Ok(counts)
}

/// How many odd vertices each component has.
///
/// Takes **O(n)** for n vertices, in one pass over them. `OutOfMemory` comes for want of memory alone.
pub fn odd_counts(alloc: Global, graph: &PlaneGraph) -> Result<Vec<u32>, OutOfMemory>
    ensures { IfOk result (λ counts. AllZip (HasOddCount graph.now.edges) graph.now.marks counts.items) }
{
    graph_is_plane(graph);
    let mut counts = vec![in alloc; 0; graph.component_count() as usize]?;
    for v in 0..graph.vertex_count() {
        let vertex = VertexId(v);
        counts[graph.component_of(vertex).0 as usize] += graph.degree(vertex) % 2;
    }
    Ok(counts)
}

/// The component in which a chain begins.
fn component_of_chain(graph: &PlaneGraph, chain: &[Side]) -> Component
    requires some { 0 < length chain.now }
    requires within { All (λ s. s < length (half_edges_of graph.now.edges)) (side_numbers chain.now) }
    ensures number { result.0 ≡ chain_component graph.now (side_numbers chain.now) }
    ensures within { result.0 < length graph.now.marks }
{
    graph.component_of(graph.from(chain[0]))
}

/// How many chains of a plan lie in each component: that in which it begins, since a chain is a trail.
///
/// Takes **O(k)** for k chains. `OutOfMemory` comes for want of memory alone.
pub fn chain_counts(
    alloc: Global,
    graph: &PlaneGraph,
    plan: &Plan,
) -> Result<Vec<usize>, OutOfMemory>
    requires trails { All (IsTrail graph.now.edges) (trails_by graph.now.edges plan.now) }
    ensures each { IfOk result (λ counts. AllZip (λ mark n. HasTrailsIn graph.now.edges mark (trails_by graph.now.edges plan.now) n) graph.now.marks counts.items) }
    ensures all { IfOk result (λ counts. sum counts.items ≡ length plan.now) }
{
    graph_is_plane(graph);
    let mut counts = vec![in alloc; 0; graph.component_count() as usize]?;
    for k in 0..plan.len() {
        let c = component_of_chain(graph, plan.chain(k));
        counts[c.0 as usize] += 1;
    }
    Ok(counts)
}
