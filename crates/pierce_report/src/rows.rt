//! The numbers of each component.
ghost use Rattle.std.specs.Prelude.{◌≡◌, ◌<◌, ◌≤◌, ℕ, IfOk, Some, length, map, slice_get};
ghost use Rattle.std.specs.List.{AllZip};
ghost use Rattle.nest_base.specs.declared.places.Point.{Point};
ghost use Rattle.nest_base.specs.Limits.{most_half_edges};
ghost use Rattle.face_nesting.specs.Nesting.{AreOuterCycles};
ghost use Rattle.plate_sides.specs.OddCounts.{HasOddCount};
ghost use Rattle.pierce_report.specs.declared.rows.Numbers.{Numbers};
ghost use Rattle.pierce_report.specs.Report.{Row, IsRowOf, total_bound as bound_in_all};
ghost use Rattle.pierce_report.specs.Rows.{HasEdgeCount, row_of, rows_of};

use crate::counts::{edge_counts, odd_counts};
use face_nesting::Faces;
use half_edges::PlaneGraph;
use nest_base::{Component, OutOfMemory};
use pierce_bound::{bound_of, has_odd_outer, limit_of};
use std::alloc::Global;

/// What the report says of one component.
#[derive(Clone, Copy, Debug, PartialEq, Eq, Drop)]
pub struct Numbers {
    pub edges: usize,
    /// How many of its vertices are odd.
    pub odd: u32,
    /// No cover has fewer trails in it.
    pub bound: u32,
    /// The most that it may take.
    pub limit: u32,
    /// How many it takes.
    pub pierces: usize,
}

/// The numbers of a component with so many edges, odd vertices and pierces.
fn numbers_of(
    graph: &PlaneGraph,
    faces: &Faces,
    c: Component,
    edges: usize,
    odd: u32,
    pierces: usize,
) -> Numbers
    requires component { c.0 < length graph.now.marks }
    requires parents { length faces.now.parents ≡ length graph.now.marks }
    requires outer_cycles { AreOuterCycles graph.now faces.now }
    ensures row { (mark : Point) → slice_get graph.now.marks c.0 ≡ Some mark → HasEdgeCount graph.now.edges mark edges →
        HasOddCount graph.now.edges mark odd → IsRowOf graph.now.edges mark (row_of result) }
    ensures pierces { result.pierces ≡ pierces }
{
    Numbers {
        edges,
        odd,
        bound: bound_of(odd),
        limit: limit_of(odd, has_odd_outer(graph, faces, c)),
        pierces,
    }
}

/// The numbers of all components, where these are the pierces of each.
///
/// Takes **O(n)** for n edges and outer sides. `OutOfMemory` comes for want of memory alone.
pub fn all_numbers(
    alloc: Global,
    graph: &PlaneGraph,
    faces: &Faces,
    pierces: &[usize],
) -> Result<Vec<Numbers>, OutOfMemory>
    requires as_many { length pierces.now ≡ length graph.now.marks }
    requires parents { length faces.now.parents ≡ length graph.now.marks }
    requires outer_cycles { AreOuterCycles graph.now faces.now }
    ensures rows { IfOk result (λ rows. AllZip (λ mark n. IsRowOf graph.now.edges mark (row_of n)) graph.now.marks rows.items) }
    ensures pierces { IfOk result (λ rows. map (λ n. n.pierces) rows.items ≡ pierces.now) }
    ensures few { IfOk result (λ rows. length rows.items ≤ most_half_edges) }
{
    let edges = edge_counts(alloc, graph)?;
    let odd = odd_counts(alloc, graph)?;
    let mut rows = Vec::new(alloc);
    for c in 0..graph.component_count() {
        let k = c as usize;
        let numbers = numbers_of(graph, faces, Component(c), edges[k], odd[k], pierces[k]);
        rows.push(numbers)?;
    }
    Ok(rows)
}

/// The sum of the bounds of all components.
pub fn total_bound(rows: &[Numbers]) -> usize
    requires { length rows.now ≤ most_half_edges }
    ensures { result ≡ bound_in_all (rows_of rows.now) }
{
    let mut total = 0;
    for row in rows {
        total += row.bound as usize;
    }
    total
}
