//! The graphs of samples.
ghost use Rattle.std.specs.Prelude.{◌≡◌, [], IfOk};

use anyhow::Result;
use drawing_samples::{Sample, edges_of};
use half_edges::PlaneGraph;
use std::alloc::Global;

/// The graph of a sample, no edge of which is burnt.
pub fn graph_of(alloc: Global, sample: &Sample) -> Result<PlaneGraph>
    ensures unburnt { IfOk result (λ graph. graph.burnt ≡ []) }
{
    let edges = edges_of(alloc, sample.segments)?;
    Ok(PlaneGraph::build(alloc, &edges)?)
}
