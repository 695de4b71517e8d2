//! Edges of `half_edges` that burn and are unburnt again.
ghost use Rattle.std.specs.Prelude.{◌<◌, length, IfOk};
ghost use Rattle.half_edges.specs.Numbers.{half_edges_of};

use crate::graphs::graph_of;
use anyhow::{Result, ensure};
use drawing_samples::samples::SQUARE;
use half_edges::PlaneGraph;
use nest_base::Side;

/// Burns the edge of the half-edge with this number, which must be there and unburnt.
fn burn(graph: &mut PlaneGraph, number: u32) -> Result<()> {
    let s = Side(number);
    ensure!(number < graph.side_count(), "no such half-edge");
    ensure!(!graph.is_burnt(s), "burnt before");
    graph.burn(s);
    Ok(())
}

/// Unburns edges until so many are left, of which there must be as many.
fn unburn_to(graph: &mut PlaneGraph, mark: u32) -> Result<()> {
    ensure!(mark <= graph.mark(), "fewer are burnt");
    graph.unburn_to(mark);
    Ok(())
}

/// Checks which half-edges of the square are burnt, by number, and how many edges. Those of its left side have the numbers 0 and 1, of
/// its lower one 2 and 3, of its upper one 4 and 5, of its right one 6 and 7.
fn check_burnt(graph: &PlaneGraph, burnt: [bool; 8], mark: u32) -> Result<()> {
    ensure!(graph.mark() == mark, "mark");
    for (number, is_burnt) in burnt.iter().enumerate() {
        ensure!((number as u32) < graph.side_count(), "no such half-edge");
        ensure!(graph.is_burnt(Side(number as u32)) == *is_burnt, "{number}");
    }
    Ok(())
}

#[test]
fn edges_of_a_square(rt: HostRuntime) -> Result<()> {
    let none = [false; 8];
    let right = [false, false, false, false, false, false, true, true];
    let right_and_bottom = [false, false, true, true, false, false, true, true];
    let top = [false, false, false, false, true, true, false, false];
    let mut graph = graph_of(rt.alloc(), &SQUARE)?;
    check_burnt(&graph, none, 0)?;
    burn(&mut graph, 7)?;
    burn(&mut graph, 2)?;
    check_burnt(&graph, right_and_bottom, 2)?;
    unburn_to(&mut graph, 2)?;
    check_burnt(&graph, right_and_bottom, 2)?;
    unburn_to(&mut graph, 1)?;
    check_burnt(&graph, right, 1)?;
    burn(&mut graph, 3)?;
    check_burnt(&graph, right_and_bottom, 2)?;
    unburn_to(&mut graph, 0)?;
    check_burnt(&graph, none, 0)?;
    burn(&mut graph, 4)?;
    check_burnt(&graph, top, 1)?;
    Ok(())
}

#[test]
fn all_edges_of_a_square(rt: HostRuntime) -> Result<()> {
    let mut graph = graph_of(rt.alloc(), &SQUARE)?;
    for number in [1, 2, 5, 6] {
        burn(&mut graph, number)?;
    }
    check_burnt(&graph, [true; 8], 4)?;
    unburn_to(&mut graph, 0)?;
    for number in [7, 4, 3, 0] {
        burn(&mut graph, number)?;
    }
    check_burnt(&graph, [true; 8], 4)
}
