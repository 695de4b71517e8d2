//! Verdicts of `replay_check`: written code is sound, and code that was changed has the fault that the change makes.
ghost use Rattle.std.specs.Prelude.{◌≤◌, All, IsTrue, length};
ghost use Rattle.nest_base.specs.Limits.{most_names};
ghost use Rattle.nest_base.specs.Range.{IsWithin, IsEdgeWithin, widest};
ghost use Rattle.lead_ins.specs.Tries.{lead_range};

use anyhow::{Context, Result, bail, ensure};
use drawing_samples::samples::{
    ALL, ANGLE, FIVE_NESTED, NOTHING, RECTANGLES_AND_LINE, SQUARE, SQUARE_IN_SQUARE, THREE_ABOVE,
    TWO_ABOVE, TWO_RECTANGLES,
};
use drawing_samples::{Sample, edges_of};
use face_nesting::Faces;
use half_edges::PlaneGraph;
use lead_ins::lead_all;
use nest_base::{Drawing, Edge, Name, Point, Text};
use ngc_meaning::read_code;
use ngc_writer::write_code;
use oe_cover::cover_all;
use part_scrap::Parts;
use replay_check::Verdict::{BadLead, Detached, Missed, OffDrawing, PartEdge, Sound, Twice};
use replay_check::{Verdict, replay};
use std::alloc::Global;

/// Whether lead-ins from here lie in range.
fn is_near(p: Point) -> bool
    ensures { IsTrue result → IsWithin lead_range p }
{
    -1_000 <= p.x && p.x <= 1_000 && -1_000 <= p.y && p.y <= 1_000
}

fn are_near(edges: &[Edge]) -> bool
    ensures { IsTrue result → All (IsEdgeWithin lead_range) edges.now }
{
    edges.iter().all(|e| is_near(e.low) && is_near(e.high))
}

/// Whether names can name parts.
fn are_few_in_range(names: &[Name]) -> bool
    ensures few { IsTrue result → length names.now ≤ most_names }
    ensures places { IsTrue result → All (λ n. IsWithin widest n.at) names.now }
{
    names.len() <= 5_000 && names.iter().all(|n| n.at.is_in_range())
}

/// The verdict on a code for a sample, with a name at this place or none.
fn verdict_of(alloc: Global, sample: &Sample, name: Option<Point>, code: &[u8]) -> Result<Verdict> {
    let mut drawing = Drawing::new(alloc);
    if let Some(at) = name {
        let text = Text::new(alloc);
        drawing.push_name(Name { at, text, line: 1 })?;
    }
    if !are_few_in_range(drawing.names()) || code.len() > 1 << 26 {
        bail!("no such drawing or code");
    }
    let edges = edges_of(alloc, sample.segments)?;
    let graph = PlaneGraph::build(alloc, &edges)?;
    let faces = Faces::build(alloc, &graph, &edges)?;
    let parts = Parts::name(alloc, &graph, &faces, drawing.names())?;
    let moves = read_code(alloc, code)?;
    Ok(replay(alloc, &graph, &faces, &parts, moves.as_slice())?)
}

/// The code of the plan of a sample, with lead-ins, and how many chains it has; none where it lies too far out.
fn planned(alloc: Global, sample: &Sample) -> Result<Option<(Text, usize)>> {
    let edges = edges_of(alloc, sample.segments)?;
    if !are_near(edges.as_slice()) {
        return Ok(None);
    }
    let mut graph = PlaneGraph::build(alloc, &edges)?;
    let faces = Faces::build(alloc, &graph, &edges)?;
    let parts = Parts::name(alloc, &graph, &faces, &[])?;
    let plan = cover_all(alloc, &mut graph, &faces)?;
    let leads = lead_all(alloc, &graph, &faces, &parts, &plan)?;
    let code = write_code(alloc, &graph, &plan, &leads)?;
    Ok(Some((code, plan.len())))
}

/// Samples whose bound is the number of chains that each plan has.
const PIERCES: [(Sample, u32); 9] = [
    (NOTHING, 0),
    (ANGLE, 1),
    (SQUARE, 1),
    (TWO_RECTANGLES, 1),
    (TWO_ABOVE, 2),
    (RECTANGLES_AND_LINE, 2),
    (SQUARE_IN_SQUARE, 2),
    (THREE_ABOVE, 3),
    (FIVE_NESTED, 5),
];

#[test]
fn written_code_is_sound(rt: HostRuntime) -> Result<()> {
    let mut count = 0_u32;
    for sample in &ALL {
        if let Some((code, chains)) = planned(rt.alloc(), sample)? {
            let verdict = verdict_of(rt.alloc(), sample, None, code.as_slice())?;
            let pierces = u32::try_from(chains)?;
            ensure!(verdict == Sound { pierces }, "{}", sample.name);
            count = count.saturating_add(1);
        }
    }
    ensure!(count == 46, "all but three at the ends of the range");
    for (sample, pierces) in &PIERCES {
        let planned = planned(rt.alloc(), sample)?;
        let (code, chains) = planned.context("too far out")?;
        ensure!(chains == *pierces as usize, "{}", sample.name);
    }
    Ok(())
}

/// Codes over a square, and the verdicts on them. Places are millimetres in code, and micrometres elsewhere.
const OVER_SQUARE: [(&str, Verdict); 23] = [
    // Each side once.
    (
        "G0 X0 Y.01\nM3\nG1 X.01 Y.01\nX.01 Y0\nX0 Y0\nX0 Y.01\nM5\nM2\n",
        Sound { pierces: 1 },
    ),
    // A line is doubled: it leads nowhere the second time.
    (
        "G0 X0 Y.01\nM3\nG1 X.01 Y.01\nX.01 Y0\nX.01 Y0\nX0 Y0\nX0 Y.01\nM5\nM2\n",
        Sound { pierces: 1 },
    ),
    // One line more, along the first side.
    (
        "G0 X0 Y.01\nM3\nG1 X.01 Y.01\nX.01 Y0\nX0 Y0\nX0 Y.01\nX.01 Y.01\nM5\nM2\n",
        Twice(7),
    ),
    // The first line is dropped, so the torch seems to be led in, from a corner.
    (
        "G0 X0 Y.01\nM3\nG1 X.01 Y0\nX0 Y0\nX0 Y.01\nM5\nM2\n",
        BadLead(3),
    ),
    // The second line is dropped.
    (
        "G0 X0 Y.01\nM3\nG1 X.01 Y.01\nX0 Y0\nX0 Y.01\nM5\nM2\n",
        OffDrawing(4),
    ),
    // The last line is dropped.
    (
        "G0 X0 Y.01\nM3\nG1 X.01 Y.01\nX.01 Y0\nX0 Y0\nM5\nM2\n",
        Missed(Point { x: 0, y: 0 }, Point { x: 0, y: 10 }),
    ),
    // Nothing burns: of the two sides at the origin the left one comes first.
    ("M2\n", Missed(Point { x: 0, y: 0 }, Point { x: 0, y: 10 })),
    // The first place lies a micrometre too far west, then too far east.
    (
        "G0 X-.001 Y.01\nM3\nG1 X.01 Y.01\nX.01 Y0\nX0 Y0\nX0 Y.01\nM5\nM2\n",
        PartEdge(3),
    ),
    (
        "G0 X.001 Y.01\nM3\nG1 X.01 Y.01\nX.01 Y0\nX0 Y0\nX0 Y.01\nM5\nM2\n",
        PartEdge(3),
    ),
    // Too far north: a lead-in, and the upper side is missed.
    (
        "G0 X0 Y.011\nM3\nG1 X.01 Y.01\nX.01 Y0\nX0 Y0\nX0 Y.01\nM5\nM2\n",
        Missed(Point { x: 0, y: 10 }, Point { x: 10, y: 10 }),
    ),
    // A place between is moved: part of an edge, but the line behind it strays off.
    (
        "G0 X0 Y.01\nM3\nG1 X.01 Y.01\nX.01 Y.001\nX0 Y0\nX0 Y.01\nM5\nM2\n",
        OffDrawing(5),
    ),
    // The last place is moved.
    (
        "G0 X0 Y.01\nM3\nG1 X.01 Y.01\nX.01 Y0\nX0 Y0\nX0 Y.009\nM5\nM2\n",
        PartEdge(6),
    ),
    // A spot.
    (
        "G0 X0 Y.01\nM3\nG1 X.01 Y.01\nX.01 Y0\nX0 Y0\nX0 Y.01\nM5\nM3\nM5\nM2\n",
        OffDrawing(9),
    ),
    // A lead-in outside, one inside, and one across an edge.
    (
        "G0 X.014 Y.012\nM3\nG1 X.01 Y.01\nX.01 Y0\nX0 Y0\nX0 Y.01\nX.01 Y.01\nM5\nM2\n",
        Sound { pierces: 1 },
    ),
    (
        "G0 X.008 Y.007\nM3\nG1 X.01 Y.01\nX.01 Y0\nX0 Y0\nX0 Y.01\nX.01 Y.01\nM5\nM2\n",
        Sound { pierces: 1 },
    ),
    (
        "G0 X.005 Y-.005\nM3\nG1 X.01 Y.01\nX.01 Y0\nX0 Y0\nX0 Y.01\nX.01 Y.01\nM5\nM2\n",
        BadLead(3),
    ),
    // One that comes to no vertex, and one from a vertex.
    (
        "G0 X.014 Y.012\nM3\nG1 X.01 Y.005\nX.01 Y0\nM5\nM2\n",
        OffDrawing(3),
    ),
    (
        "G0 X0 Y.01\nM3\nG1 X.01 Y.01\nX.014 Y.012\nM5\nM2\n",
        OffDrawing(4),
    ),
    // One behind which the torch is lit anew, or which is all that burns.
    (
        "G0 X.014 Y.012\nM3\nG1 X.01 Y.01\nM5\nG0 X.01 Y.01\nM3\nG1 X.01 Y0\nX0 Y0\nX0 Y.01\nX.01 Y.01\nM5\nM2\n",
        BadLead(3),
    ),
    ("G0 X.014 Y.012\nM3\nG1 X.01 Y.01\nM5\nM2\n", BadLead(3)),
    // Two lead-ins, and two that cross.
    (
        "G0 X.02 Y.005\nM3\nG1 X.01 Y.01\nX0 Y.01\nX0 Y0\nX.01 Y0\nM5\nG0 X.012 Y-.002\nM3\nG1 X.01 Y0\nX.01 Y.01\nM5\nM2\n",
        Sound { pierces: 2 },
    ),
    (
        "G0 X.02 Y.005\nM3\nG1 X.01 Y.01\nX0 Y.01\nX0 Y0\nX.01 Y0\nM5\nG0 X.012 Y.01\nM3\nG1 X.01 Y0\nX.01 Y.01\nM5\nM2\n",
        BadLead(10),
    ),
    // A bad lead-in, an edge again, and edges that are missed.
    (
        "G0 X.005 Y-.005\nM3\nG1 X.01 Y.01\nX.01 Y0\nX.01 Y.01\nM5\nM2\n",
        Twice(5),
    ),
];

const IN_SQUARE: Option<Point> = Some(Point { x: 5, y: 5 });

/// Codes over other drawings, or one with a name.
const OTHERS: [(Sample, Option<Point>, &str, Verdict); 10] = [
    // Nothing to burn, and a move that burns.
    (NOTHING, None, "M2\n", Sound { pierces: 0 }),
    (NOTHING, None, "M3\nG1 X.01\nM2\n", OffDrawing(2)),
    // A lead-in outside of a part, and one inside.
    (
        SQUARE,
        IN_SQUARE,
        "G0 X.014 Y.012\nM3\nG1 X.01 Y.01\nX.01 Y0\nX0 Y0\nX0 Y.01\nX.01 Y.01\nM5\nM2\n",
        Sound { pierces: 1 },
    ),
    (
        SQUARE,
        IN_SQUARE,
        "G0 X.008 Y.007\nM3\nG1 X.01 Y.01\nX.01 Y0\nX0 Y0\nX0 Y.01\nX.01 Y.01\nM5\nM2\n",
        BadLead(3),
    ),
    // Two edges in one move.
    (
        TWO_RECTANGLES,
        None,
        "G0 X0 Y.01\nM3\nG1 X.02 Y.01\nM5\nM2\n",
        PartEdge(3),
    ),
    // The inner square first, and the outer one first: of four sides that come too late the last is told.
    (
        SQUARE_IN_SQUARE,
        None,
        "G0 X.01 Y.02\nM3\nG1 X.02 Y.02\nX.02 Y.01\nX.01 Y.01\nX.01 Y.02\nM5\nG0 X0 Y.03\nM3\nG1 X.03 Y.03\nX.03 Y0\nX0 Y0\nX0 Y.03\nM5\nM2\n",
        Sound { pierces: 2 },
    ),
    (
        SQUARE_IN_SQUARE,
        None,
        "G0 X0 Y.03\nM3\nG1 X.03 Y.03\nX.03 Y0\nX0 Y0\nX0 Y.03\nM5\nG0 X.01 Y.02\nM3\nG1 X.02 Y.02\nX.02 Y.01\nX.01 Y.01\nX.01 Y.02\nM5\nM2\n",
        Detached(13),
    ),
    // So too where a side of it is missed.
    (
        SQUARE_IN_SQUARE,
        None,
        "G0 X0 Y.03\nM3\nG1 X.03 Y.03\nX.03 Y0\nX0 Y0\nX0 Y.03\nM5\nG0 X.01 Y.02\nM3\nG1 X.02 Y.02\nX.02 Y.01\nX.01 Y.01\nM5\nM2\n",
        Missed(Point { x: 10, y: 10 }, Point { x: 10, y: 20 }),
    ),
    // The inner square before the last side of the outer one.
    (
        SQUARE_IN_SQUARE,
        None,
        "G0 X0 Y.03\nM3\nG1 X.03 Y.03\nX.03 Y0\nX0 Y0\nM5\nG0 X.01 Y.02\nM3\nG1 X.02 Y.02\nX.02 Y.01\nX.01 Y.01\nX.01 Y.02\nM5\nG0 X0 Y0\nM3\nG1 X0 Y.03\nM5\nM2\n",
        Sound { pierces: 3 },
    ),
    // A shared side too late, and a line behind it in time.
    (
        RECTANGLES_AND_LINE,
        None,
        "G0 X0 Y.01\nM3\nG1 X.01 Y.01\nX.02 Y.01\nX.02 Y0\nX.01 Y0\nX0 Y0\nX0 Y.01\nM5\nG0 X.01 Y0\nM3\nG1 X.01 Y.01\nM5\nG0 X.03 Y0\nM3\nG1 X.04 Y0\nM5\nM2\n",
        Detached(12),
    ),
];

#[test]
fn changed_code_has_the_fault_that_the_change_makes(rt: HostRuntime) -> Result<()> {
    for (code, expected) in &OVER_SQUARE {
        let verdict = verdict_of(rt.alloc(), &SQUARE, None, code.as_bytes())?;
        ensure!(verdict == *expected, "{code}{verdict:?}");
    }
    for (sample, name, code, expected) in &OTHERS {
        let verdict = verdict_of(rt.alloc(), sample, *name, code.as_bytes())?;
        ensure!(verdict == *expected, "{code}{verdict:?}");
    }
    Ok(())
}
