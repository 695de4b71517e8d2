//! The code of `ngc_writer`, byte for byte, of drawings that have one route alone.
ghost use Rattle.std.specs.Prelude.{◌≡◌, []};
ghost use Rattle.plate_sides.specs.Nesting.{AreParents, HasMarkSides};
ghost use Rattle.face_nesting.specs.Nesting.{AreOuterCycles};

use anyhow::{Result, ensure};
use drawing_samples::samples::{ANGLE, TWO_ABOVE};
use drawing_samples::{Sample, edges_of};
use face_nesting::Faces;
use half_edges::PlaneGraph;
use nest_base::{Point, Text};
use ngc_writer::write_code;
use oe_cover::cover_all;
use std::alloc::Global;

/// The code of the plan of a graph, each chain of which has this lead-in or none.
fn code_of(
    alloc: Global,
    graph: &mut PlaneGraph,
    faces: &Faces,
    lead: Option<Point>,
) -> Result<Text>
    requires unburnt { graph.old.burnt ≡ [] }
    requires parents { AreParents graph.old.edges graph.old.marks faces.now.parents }
    requires cycles { AreOuterCycles graph.old faces.now }
    requires mark_sides { HasMarkSides graph.old.edges }
{
    let plan = cover_all(alloc, graph, faces)?;
    let mut leads = Vec::new(alloc);
    for _ in 0..plan.len() {
        leads.push(lead)?;
    }
    ensure!(leads.len() == plan.len());
    Ok(write_code(alloc, graph, &plan, &leads)?)
}

/// A drawing, the lead-in of each of its chains, and its code.
type Case = (Sample, Option<Point>, &'static str);

const CASES: [Case; 4] = [
    (
        ANGLE,
        None,
        "G21 G90\nF1000 S1\n\
        G0 X0.010 Y0.010\nM3\nG1 X0.010 Y0.000\nG1 X0.000 Y0.000\nM5\nM2\n",
    ),
    (
        ANGLE,
        Some(Point { x: 14, y: 12 }),
        "G21 G90\nF1000 S1\n\
        G0 X0.014 Y0.012\nM3\nG1 X0.010 Y0.010\nG1 X0.010 Y0.000\nG1 X0.000 Y0.000\nM5\nM2\n",
    ),
    (
        TWO_ABOVE,
        None,
        "G21 G90\nF1000 S1\n\
        G0 X0.005 Y0.009\nM3\nG1 X0.000 Y0.009\nM5\n\
        G0 X0.005 Y0.000\nM3\nG1 X0.000 Y0.000\nM5\nM2\n",
    ),
    (
        TWO_ABOVE,
        Some(Point { x: 20_000, y: -4 }),
        "G21 G90\nF1000 S1\n\
        G0 X20.000 Y-0.004\nM3\nG1 X0.005 Y0.009\nG1 X0.000 Y0.009\nM5\n\
        G0 X20.000 Y-0.004\nM3\nG1 X0.005 Y0.000\nG1 X0.000 Y0.000\nM5\nM2\n",
    ),
];

#[test]
fn code_with_lead_ins_and_without(rt: HostRuntime) -> Result<()> {
    for (sample, lead, expected) in &CASES {
        let edges = edges_of(rt.alloc(), sample.segments)?;
        let mut graph = PlaneGraph::build(rt.alloc(), &edges)?;
        let faces = Faces::build(rt.alloc(), &graph, &edges)?;
        let code = code_of(rt.alloc(), &mut graph, &faces, *lead)?;
        ensure!(code.as_slice() == expected.as_bytes(), "{}", sample.name);
    }
    Ok(())
}
