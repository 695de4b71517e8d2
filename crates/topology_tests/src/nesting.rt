//! Faces and parents, by `face_nesting`.
ghost use Rattle.std.specs.Prelude.{◌≡◌, length};
ghost use Rattle.half_edges.specs.Numbers.{half_edges_of};

use anyhow::{Context, Result, bail, ensure};
use drawing_samples::samples::{
    AT_BEND, AT_FORK, AT_LEVEL_LINE, AT_LOWER_END, AT_UPPER_END, BETWEEN_ARMS, EAST_OF_MARK,
    FIVE_NESTED, LEVEL_SQUARES, LINE, LINE_IN_SQUARES, NEARER_AT_HEIGHT, NOTCH, RANGE_ENDS, SQUARE,
    SQUARE_IN_FOUR, SQUARES_ASIDE, TAILED_SQUARE, TWO_ABOVE, TWO_FAMILIES, TWO_IN_SQUARE,
};
use drawing_samples::{Ends, Sample, edges_of};
use face_nesting::{FaceId, Faces};
use half_edges::PlaneGraph;
use nest_base::{Component, OutOfMemory, Point, Side};
use std::alloc::Global;

/// A drawing; by number of a component its parent's, and how many outer sides it has; and by rank how many faces have it.
struct Drawing {
    sample: Sample,
    parents: &'static [Option<u32>],
    outer: &'static [usize],
    ranks: &'static [usize],
}

const DRAWINGS: [Drawing; 20] = [
    Drawing {
        sample: LINE,
        parents: &[None],
        outer: &[2],
        ranks: &[1],
    },
    Drawing {
        sample: SQUARE,
        parents: &[None],
        outer: &[4],
        ranks: &[1, 1],
    },
    Drawing {
        sample: SQUARE_IN_FOUR,
        parents: &[None],
        outer: &[8],
        ranks: &[1, 4],
    },
    Drawing {
        sample: TAILED_SQUARE,
        parents: &[None],
        outer: &[6],
        ranks: &[1, 1],
    },
    Drawing {
        sample: SQUARES_ASIDE,
        parents: &[None, None],
        outer: &[4, 4],
        ranks: &[1, 2],
    },
    Drawing {
        sample: FIVE_NESTED,
        parents: &[None, Some(0), Some(1), Some(2), Some(3)],
        outer: &[4, 4, 4, 4, 4],
        ranks: &[1, 1, 1, 1, 1, 1],
    },
    Drawing {
        sample: AT_UPPER_END,
        parents: &[None, None],
        outer: &[2, 2],
        ranks: &[1],
    },
    Drawing {
        sample: AT_LOWER_END,
        parents: &[None, Some(0)],
        outer: &[2, 2],
        ranks: &[1],
    },
    Drawing {
        sample: AT_LEVEL_LINE,
        parents: &[None, None],
        outer: &[2, 2],
        ranks: &[1],
    },
    Drawing {
        sample: AT_BEND,
        parents: &[None, Some(0)],
        outer: &[4, 2],
        ranks: &[1],
    },
    Drawing {
        sample: AT_FORK,
        parents: &[None, Some(0)],
        outer: &[6, 2],
        ranks: &[1],
    },
    Drawing {
        sample: NEARER_AT_HEIGHT,
        parents: &[None, Some(0), Some(1)],
        outer: &[2, 2, 2],
        ranks: &[1],
    },
    Drawing {
        sample: EAST_OF_MARK,
        parents: &[None, None],
        outer: &[2, 2],
        ranks: &[1],
    },
    Drawing {
        sample: LINE_IN_SQUARES,
        parents: &[None, Some(0), Some(1)],
        outer: &[4, 4, 2],
        ranks: &[1, 1, 1],
    },
    Drawing {
        sample: TWO_ABOVE,
        parents: &[None, None],
        outer: &[2, 2],
        ranks: &[1],
    },
    Drawing {
        sample: RANGE_ENDS,
        parents: &[None, None, Some(1)],
        outer: &[2, 2, 2],
        ranks: &[1],
    },
    Drawing {
        sample: TWO_IN_SQUARE,
        parents: &[None, Some(0), Some(1)],
        outer: &[4, 4, 4],
        ranks: &[1, 1, 2],
    },
    Drawing {
        sample: TWO_FAMILIES,
        parents: &[None, Some(0), None, Some(2), Some(3)],
        outer: &[4, 4, 4, 4, 4],
        ranks: &[1, 2, 2, 1],
    },
    Drawing {
        sample: BETWEEN_ARMS,
        parents: &[None, Some(0)],
        outer: &[8, 4],
        ranks: &[1, 2],
    },
    Drawing {
        sample: LEVEL_SQUARES,
        parents: &[None, None],
        outer: &[4, 4],
        ranks: &[1, 2],
    },
];

fn next_side(graph: &PlaneGraph, s: Side) -> Result<Side> {
    if s.0 >= graph.side_count() {
        bail!("no such side");
    }
    Ok(graph.along(s))
}

fn face_at(graph: &PlaneGraph, faces: &Faces, s: Side) -> Result<FaceId>
    requires sides { length faces.now.faces ≡ length (half_edges_of graph.now.edges) }
{
    if s.0 >= graph.side_count() {
        bail!("no such side");
    }
    Ok(faces.face_of(s))
}

fn parent_of(graph: &PlaneGraph, faces: &Faces, c: Component) -> Result<Option<Component>>
    requires as_many { length faces.now.parents ≡ length graph.now.marks }
{
    if c.0 >= graph.component_count() {
        bail!("no such component");
    }
    Ok(faces.parent(c))
}

fn outer_side_count(graph: &PlaneGraph, faces: &Faces, c: Component) -> Result<usize>
    requires as_many { length faces.now.parents ≡ length graph.now.marks }
{
    if c.0 >= graph.component_count() {
        bail!("no such component");
    }
    Ok(faces.outer_sides(c).len())
}

/// The face around a component.
fn face_around(graph: &PlaneGraph, faces: &Faces, c: Component) -> Result<FaceId>
    requires as_many { length faces.now.parents ≡ length graph.now.marks }
    requires sides { length faces.now.faces ≡ length (half_edges_of graph.now.edges) }
{
    if c.0 >= graph.component_count() {
        bail!("no such component");
    }
    face_at(graph, faces, faces.mark_side(c))
}

/// Whether the outer sides of a component begin with its mark side, each goes along to the next, and all lie in one face.
fn outer_sides_go_round(graph: &PlaneGraph, faces: &Faces, c: Component) -> Result<bool>
    requires as_many { length faces.now.parents ≡ length graph.now.marks }
    requires sides { length faces.now.faces ≡ length (half_edges_of graph.now.edges) }
{
    if c.0 >= graph.component_count() {
        bail!("no such component");
    }
    let mark = faces.mark_side(c);
    let around = face_at(graph, faces, mark)?;
    let mut next = mark;
    for s in faces.outer_sides(c) {
        if *s != next || face_at(graph, faces, *s)? != around {
            return Ok(false);
        }
        next = next_side(graph, *s)?;
    }
    Ok(next == mark)
}

/// How many faces have this rank.
fn faces_of_rank(faces: &Faces, rank: usize) -> usize {
    (0..faces.face_count())
        .filter(|f| faces.rank(FaceId(*f)) as usize == rank)
        .count()
}

/// An error where faces lie at other depths than they were drawn.
fn ensure_ranked(drawing: &Drawing, faces: &Faces) -> Result<()> {
    for (rank, count) in drawing.ranks.iter().enumerate() {
        ensure!(
            faces_of_rank(faces, rank) == *count,
            "{}: rank {rank}",
            drawing.sample.name
        );
    }
    let deeper = faces_of_rank(faces, drawing.ranks.len());
    ensure!(deeper == 0, "{}: too deep", drawing.sample.name);
    Ok(())
}

/// An error where a component doesn't lie as it was drawn.
fn ensure_as_drawn(drawing: &Drawing, graph: &PlaneGraph, faces: &Faces) -> Result<()>
    requires as_many { length faces.now.parents ≡ length graph.now.marks }
    requires sides { length faces.now.faces ≡ length (half_edges_of graph.now.edges) }
{
    let expected = drawing.parents.iter().zip(drawing.outer);
    for (c, (parent, outer)) in (0..graph.component_count()).zip(expected) {
        let c = Component(c);
        ensure!(
            parent_of(graph, faces, c)? == parent.map(Component),
            "{}: {c:?}",
            drawing.sample.name
        );
        ensure!(
            outer_side_count(graph, faces, c)? == *outer,
            "{}: {c:?}",
            drawing.sample.name
        );
        ensure!(
            outer_sides_go_round(graph, faces, c)?,
            "{}: {c:?}",
            drawing.sample.name
        );
    }
    Ok(())
}

#[test]
fn faces_and_parents_of_small_drawings(rt: HostRuntime) -> Result<()> {
    for drawing in &DRAWINGS {
        let edges = edges_of(rt.alloc(), drawing.sample.segments)?;
        let graph = PlaneGraph::build(rt.alloc(), &edges)?;
        let faces = Faces::build(rt.alloc(), &graph, &edges)?;
        ensure_as_drawn(drawing, &graph, &faces)?;
        ensure_ranked(drawing, &faces)?;
        ensure!(
            graph.component_count() as usize == drawing.parents.len(),
            "{}",
            drawing.sample.name
        );
    }
    Ok(())
}

/// The face to the left of the half-edge from one place to another.
fn face_left_of(graph: &PlaneGraph, faces: &Faces, a: [i64; 2], b: [i64; 2]) -> Result<FaceId>
    requires sides { length faces.now.faces ≡ length (half_edges_of graph.now.edges) }
{
    let [from, to] = [a, b].map(|[x, y]| Point { x, y });
    let side = graph.find_side(from, to).context("no such side")?;
    face_at(graph, faces, side)
}

/// An error where the square isn't in the face to the east of the notch, or the face in the notch isn't the outer one.
fn ensure_further_east_is_seen(graph: &PlaneGraph, faces: &Faces) -> Result<()>
    requires as_many { length faces.now.parents ≡ length graph.now.marks }
    requires sides { length faces.now.faces ≡ length (half_edges_of graph.now.edges) }
{
    let around = face_around(graph, faces, Component(1))?;
    ensure!(around == face_left_of(graph, faces, [8, 30], [5, 20])?);
    ensure!(around != faces.outer());
    ensure!(faces.outer() == face_left_of(graph, faces, [2, 30], [5, 20])?);
    ensure!(faces.outer() == face_around(graph, faces, Component(0))?);
    Ok(())
}

#[test]
fn of_two_edges_with_one_lower_end_the_one_further_east_above_it_is_seen(
    rt: HostRuntime,
) -> Result<()> {
    let edges = edges_of(rt.alloc(), NOTCH.segments)?;
    let graph = PlaneGraph::build(rt.alloc(), &edges)?;
    let faces = Faces::build(rt.alloc(), &graph, &edges)?;
    ensure_further_east_is_seen(&graph, &faces)
}

/// Eleven upright lines, from the comb's back to the tips of its teeth.
fn push_teeth(segments: &mut Vec<Ends>) -> Result<(), OutOfMemory> {
    for k in 0_u8..11 {
        let x = 20 * i64::from(k);
        segments.push([x, 0, x, 30])?;
    }
    Ok(())
}

/// A square between each tooth and the next.
fn push_squares(segments: &mut Vec<Ends>) -> Result<(), OutOfMemory> {
    for k in 0_u8..10 {
        let x = 20 * i64::from(k) + 5;
        segments.push([x, 10, x + 10, 10])?;
        segments.push([x + 10, 10, x + 10, 20])?;
        segments.push([x + 10, 20, x, 20])?;
        segments.push([x, 20, x, 10])?;
    }
    Ok(())
}

/// A comb of eleven teeth with a square between each tooth and the next, and its back on the side of their tips where it's closed.
fn comb(alloc: Global, is_closed: bool) -> Result<Vec<Ends>, OutOfMemory> {
    let mut segments = Vec::new(alloc);
    segments.push([0, 0, 200, 0])?;
    if is_closed {
        segments.push([0, 30, 200, 30])?;
    }
    push_teeth(&mut segments)?;
    push_squares(&mut segments)?;
    Ok(segments)
}

/// An error where a square doesn't lie in the comb, is in another face than the one to the east of the tooth before it, or is in the
/// outer face exactly where the comb is closed.
fn ensure_squares_see_comb(graph: &PlaneGraph, faces: &Faces, is_closed: bool) -> Result<()>
    requires as_many { length faces.now.parents ≡ length graph.now.marks }
    requires sides { length faces.now.faces ≡ length (half_edges_of graph.now.edges) }
{
    for k in 0_u8..10 {
        let c = Component(u32::from(k) + 1);
        let x = 20 * i64::from(k);
        ensure!(parent_of(graph, faces, c)? == Some(Component(0)));
        let around = face_around(graph, faces, c)?;
        ensure!(around == face_left_of(graph, faces, [x, 30], [x, 0])?);
        ensure!((around == faces.outer()) != is_closed);
    }
    Ok(())
}

#[test]
fn ten_squares_between_the_teeth_of_a_comb_see_it(rt: HostRuntime) -> Result<()> {
    for (is_closed, count, sides) in [(false, 11, 42), (true, 21, 22)] {
        let segments = comb(rt.alloc(), is_closed)?;
        let edges = edges_of(rt.alloc(), &segments)?;
        let graph = PlaneGraph::build(rt.alloc(), &edges)?;
        let faces = Faces::build(rt.alloc(), &graph, &edges)?;
        ensure_squares_see_comb(&graph, &faces, is_closed)?;
        let whole = Component(0);
        ensure!(parent_of(&graph, &faces, whole)?.is_none());
        ensure!(outer_side_count(&graph, &faces, whole)? == sides);
        ensure!(faces.face_count() == count);
        ensure!(graph.component_count() == 11);
    }
    Ok(())
}
