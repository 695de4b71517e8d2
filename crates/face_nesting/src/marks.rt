//! The mark sides of components.
ghost use Rattle.std.specs.Prelude.{◌≡◌, IfOk};
ghost use Rattle.nest_base.specs.NumberLists.{side_numbers};
ghost use Rattle.face_nesting.specs.Sights.{AreMarkSides};

use half_edges::PlaneGraph;
use nest_base::{Component, OutOfMemory, Side};
use std::alloc::Global;

/// The mark side of each component: of the half-edges that leave its mark vertex, the one that is met last, counterclockwise from
/// west.
pub fn mark_sides(alloc: Global, graph: &PlaneGraph) -> Result<Vec<Side>, OutOfMemory>
    ensures { IfOk result (λ sides. AreMarkSides graph.now.edges graph.now.marks (side_numbers sides.items)) }
{
    let mut sides = Vec::new(alloc);
    for c in 0..graph.component_count() {
        let mark = graph.mark_vertex(Component(c));
        sides.push(graph.cw(graph.first_side(mark)))?;
    }
    Ok(sides)
}
