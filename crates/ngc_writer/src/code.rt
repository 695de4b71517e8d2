//! The lines of code, each ended by LF, with numbers in millimetres.
ghost use Rattle.std.specs.Prelude.{◌≡◌, ◌<◌, ◌++◌, All, length, codes, flat_map, map, IfOk, OnOk};
ghost use Rattle.nest_base.specs.Plane.{HalfEdge};
ghost use Rattle.plate_sides.specs.Paths.{path_from, paths_of};
ghost use Rattle.half_edges.specs.Numbers.{half_edges_of};
ghost use Rattle.nest_base.specs.NumberLists.{side_numbers};
ghost use Rattle.cover_plan.specs.Trails.{half_edge_of};
ghost use Rattle.ngc_writer.specs.Lightings.{lighting_text};
ghost use Rattle.code_moves.specs.CodeText.{head_text, motion_text, chain_text, tail_text, code_text};

use half_edges::PlaneGraph;
use micron_decimals::put_micron;
use nest_base::{OutOfMemory, Point, Side, Text};
use oe_cover::Plan;
use std::alloc::Global;

/// Appends the head: millimetres and absolute places, feed and power.
fn write_head(out: &mut Text) -> Result<(), OutOfMemory>
    ensures { OnOk result (out.new ≡ out.old ++ head_text) }
{
    out.append(b"G21 G90\nF1000 S1\n")
}

/// Appends a line that goes to `p` by the word `G0` or `G1`.
fn write_motion(word: &[u8], p: Point, out: &mut Text) -> Result<(), OutOfMemory>
    ensures { OnOk result (out.new ≡ out.old ++ motion_text word.now p) }
{
    out.append(word)?;
    out.append(b" X")?;
    put_micron(p.x, out)?;
    out.append(b" Y")?;
    put_micron(p.y, out)?;
    out.append(b"\n")
}

/// Where a half-edge begins.
fn beginning_of(graph: &PlaneGraph, s: Side) -> Point
    requires within { s.0 < length (half_edges_of graph.now.edges) }
    ensures { result ≡ (half_edge_of graph.now s.0).from }
{
    graph.place(graph.from(s))
}

/// Where a half-edge leads.
fn end_of(graph: &PlaneGraph, s: Side) -> Point
    requires within { s.0 < length (half_edges_of graph.now.edges) }
    ensures { result ≡ (half_edge_of graph.now s.0).to }
{
    graph.place(graph.to(s))
}

/// Appends the lines that burn these half-edges.
fn write_burns(graph: &PlaneGraph, chain: &[Side], out: &mut Text) -> Result<(), OutOfMemory>
    requires within { All (λ s. s.0 < length (half_edges_of graph.now.edges)) chain.now }
    ensures { OnOk result (out.new ≡ out.old ++
        flat_map (λ s. motion_text (codes "G1") (half_edge_of graph.now s.0).to) chain.now) }
{
    for s in chain {
        write_motion(b"G1", end_of(graph, *s), out)?;
    }
    Ok(())
}

/// Appends the lines that light the torch where a lead-in to `first` begins and follow it, or at `first` where there is none.
fn write_lighting(first: Point, lead: Option<Point>, out: &mut Text) -> Result<(), OutOfMemory>
    ensures { OnOk result (out.new ≡ out.old ++ lighting_text lead first) }
{
    write_motion(b"G0", lead.unwrap_or(first), out)?;
    out.append(b"M3\n")?;
    match lead {
        None => Ok(()),
        Some(_) => write_motion(b"G1", first, out),
    }
}

/// Appends the lines of one chain: its lighting, then from vertex to vertex.
fn write_chain(
    graph: &PlaneGraph,
    chain: &[Side],
    lead: Option<Point>,
    out: &mut Text,
) -> Result<(), OutOfMemory>
    requires some { 0 < length chain.now }
    requires within { All (λ s. s.0 < length (half_edges_of graph.now.edges)) chain.now }
    ensures { OnOk result (out.new ≡ out.old ++ chain_text (path_from lead (map (half_edge_of graph.now) (side_numbers chain.now)))) }
{
    write_lighting(beginning_of(graph, chain[0]), lead, out)?;
    write_burns(graph, chain, out)?;
    out.append(b"M5\n")
}

/// Appends the tail, which ends the program.
fn write_tail(out: &mut Text) -> Result<(), OutOfMemory>
    ensures { OnOk result (out.new ≡ out.old ++ tail_text) }
{
    out.append(b"M2\n")
}

/// The code of a plan: of each chain with its lead-in, or a pierce on the line where it has none.
///
/// Takes **O(n)** for n half-edges. `OutOfMemory` comes for want of memory alone.
pub fn write_code(
    alloc: Global,
    graph: &PlaneGraph,
    plan: &Plan,
    leads: &[Option<Point>],
) -> Result<Text, OutOfMemory>
    requires within { All (All (λ s. s < length (half_edges_of graph.now.edges))) plan.now }
    requires as_many { length leads.now ≡ length plan.now }
    ensures { IfOk result (λ code. code ≡ code_text (paths_of leads.now (map (map (half_edge_of graph.now)) plan.now))) }
{
    let mut code = Text::new(alloc);
    write_head(&mut code)?;
    for (i, lead) in leads.iter().enumerate() {
        write_chain(graph, plan.chain(i), *lead, &mut code)?;
    }
    write_tail(&mut code)?;
    Ok(code)
}
