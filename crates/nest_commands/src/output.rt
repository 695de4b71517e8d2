//! From the bytes of a drawing to the code and the report, all in memory.
ghost use Rattle.std.specs.Prelude.{◌≡◌, ◌≤◌, length, All, AllPairs, IfOk, IfErr};
ghost use Rattle.nest_base.specs.Order.{IsBefore};
ghost use Rattle.nest_base.specs.Range.{IsEdgeWithin, IsSegmentWithin, IsWithin, range, widest};
ghost use Rattle.nest_base.specs.Limits.{most_bytes, most_edges, most_names, most_segments};
ghost use Rattle.plate_edges.specs.Cuts.{HasLength};
ghost use Rattle.plate_edges.specs.Points.{EdgesMeetAtEndsOnly};
ghost use Rattle.plate_sides.specs.Nesting.{SeesOne};
ghost use Rattle.plate_parts.specs.Parts.{AreDistinct};
ghost use Rattle.half_edges.specs.Numbers.{half_edges_of};
ghost use Rattle.face_nesting.specs.Nesting.{AreFaces, IsFaceCount};
ghost use Rattle.part_scrap.specs.Naming.{IsNaming, TellsScrap, places_of};
ghost use Rattle.part_scrap.specs.Refusals.{IsPartRefusal};
ghost use Rattle.segment_split.specs.Splits.{IsSplit};
ghost use Rattle.nest_commands.specs.Outputs.{IsOutput};
ghost use Rattle.nest_commands.specs.Reasons.{IsReadFrom, IsReason, IsSplittingReason, IsNamingReason};
ghost use Rattle.nest_commands.specs.declared.output.PlanError.TheVariants.{OutOfMemory as NoMemory};

use crate::status::Refusal;
use dxf_drawing::{DrawingError, read_drawing};
use face_nesting::Faces;
use half_edges::PlaneGraph;
use lead_ins::lead_all;
use nest_base::{Drawing, Edges, Name, OutOfMemory, Text};
use ngc_writer::write_code;
use oe_cover::cover_all;
use part_scrap::{PartError, Parts};
use pierce_report::report;
use segment_split::{SplitError, split};
use std::alloc::Global;
use thiserror::Error;

/// What a planned drawing gives: the code that is written to OUT, and the report that is printed.
#[derive(Drop)]
pub struct Output {
    pub code: Text,
    pub report: Text,
}

/// Why a drawing gives no output.
#[derive(Debug, Drop, Error)]
pub enum PlanError {
    #[error("the drawing is refused")]
    Refused(Refusal),
    #[error("out of memory")]
    OutOfMemory,
}

impl From<OutOfMemory> for PlanError {
    ghost from_gives = { λ _ e. e ≡ NoMemory };

    fn from(_: OutOfMemory) -> Self {
        PlanError::OutOfMemory
    }
}

/// What the bytes of a drawing hold, or why they can't be read.
pub(crate) fn drawing_of(alloc: Global, bytes: &[u8]) -> Result<Drawing, PlanError>
    requires few { length bytes.now ≤ most_bytes }
    ensures read { IfOk result (IsReadFrom bytes.now) }
    ensures refused { IfErr result (λ why. IsReason why bytes.now) }
{
    match read_drawing(alloc, bytes) {
        Ok(drawing) => Ok(drawing),
        Err(DrawingError::OutOfMemory) => Err(PlanError::OutOfMemory),
        Err(why) => Err(PlanError::Refused(Refusal::Reading(why))),
    }
}

/// The edges of a drawing, or why it gives none.
pub(crate) fn edges_of(alloc: Global, drawing: &Drawing) -> Result<Edges, PlanError>
    requires few { length drawing.now.segments ≤ most_segments }
    requires lengths { All HasLength drawing.now.segments }
    requires within { All (IsSegmentWithin range) drawing.now.segments }
    ensures split { IfOk result (λ edges. IsSplit drawing.now.segments edges) }
    ensures ends_in_order { IfOk result (λ edges. All (λ e. IsBefore e.low e.high) edges) }
    ensures within { IfOk result (λ edges. All (IsEdgeWithin range) edges) }
    ensures few { IfOk result (λ edges. length edges ≤ most_edges) }
    ensures apart { IfOk result (λ edges. AllPairs EdgesMeetAtEndsOnly edges) }
    ensures refused { IfErr result (IsSplittingReason drawing.now.segments) }
{
    match split(alloc, drawing) {
        Ok(edges) => Ok(edges),
        Err(SplitError::OutOfMemory) => Err(PlanError::OutOfMemory),
        Err(why) => Err(PlanError::Refused(Refusal::Splitting(why))),
    }
}

/// The parts that the names of a drawing name, or why they name none.
pub(crate) fn parts_of(
    alloc: Global,
    graph: &PlaneGraph,
    faces: &Faces,
    names: &[Name],
) -> Result<Parts, PlanError>
    requires few { length names.now ≤ most_names }
    requires places { All (λ n. IsWithin widest n.at) names.now }
    requires as_many { length faces.now.faces ≡ length (half_edges_of graph.now.edges) }
    requires faces { AreFaces graph.now.edges faces.now.faces }
    requires count { IsFaceCount faces.now.faces faces.now.count }
    requires sees_one { SeesOne graph.now.edges }
    ensures naming { IfOk result (λ parts. IsNaming graph.now.edges faces.now (places_of names.now) parts) }
    ensures tells_scrap { IfOk result (λ parts. TellsScrap graph.now.edges (places_of names.now) faces.now.faces parts.names) }
    ensures as_many_faces { IfOk result (λ parts. length parts.names ≡ faces.now.count) }
    ensures as_many_names { IfOk result (λ parts. length parts.faces ≡ length names.now) }
    ensures distinct { IfOk result (λ _. AreDistinct graph.now.edges (places_of names.now)) }
    ensures refused { IfErr result (IsNamingReason graph.now.edges names.now) }
{
    match Parts::name(alloc, graph, faces, names) {
        Ok(parts) => Ok(parts),
        Err(PartError::OutOfMemory) => Err(PlanError::OutOfMemory),
        Err(why) => Err(PlanError::Refused(Refusal::Naming(why))),
    }
}

/// The code and the report of a drawing, or why it gives none.
pub fn output_of(alloc: Global, bytes: &[u8]) -> Result<Output, PlanError>
    requires few { length bytes.now ≤ most_bytes }
    ensures ok { IfOk result (λ output. IsOutput bytes.now output.code output.report) }
    ensures refused { IfErr result (λ why. IsReason why bytes.now) }
{
    let drawing = drawing_of(alloc, bytes)?;
    let edges = edges_of(alloc, &drawing)?;
    let mut graph = PlaneGraph::build(alloc, &edges)?;
    let faces = Faces::build(alloc, &graph, &edges)?;
    let parts = parts_of(alloc, &graph, &faces, drawing.names())?;
    let plan = cover_all(alloc, &mut graph, &faces)?;
    let leads = lead_all(alloc, &graph, &faces, &parts, &plan)?;
    let code = write_code(alloc, &graph, &plan, &leads)?;
    let report = report(alloc, &graph, &faces, &parts, drawing.names(), &plan)?;
    Ok(Output { code, report })
}
