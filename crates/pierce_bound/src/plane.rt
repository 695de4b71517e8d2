//! What holds of every graph.
ghost use Rattle.half_edges.specs.PlaneGraphs.{IsPlaneGraph};

use half_edges::PlaneGraph;

/// A graph is one that laws on plane graphs speak of: a reader of it says so, and nothing is worked out.
pub fn graph_is_plane(graph: &PlaneGraph)
    ensures { IsPlaneGraph graph.now }
{
    graph.edge_count();
}
