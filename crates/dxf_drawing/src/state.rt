//! The state of the reader of entities.
ghost use Rattle.std.specs.Prelude.{◌≡◌, Some};
ghost use Rattle.nest_base.specs.Range.{IsWithin, range};
ghost use Rattle.dxf_drawing.specs.EntityReader.{IsPolylineWithin};
ghost use Rattle.dxf_drawing.specs.States.{with_vertex as with_vertex_of};

use nest_base::Point;

/// The vertices of a polyline so far, at least one.
#[derive(Clone, Copy, Debug, PartialEq, Eq, Drop)]
pub struct PolylineSoFar {
    /// The first vertex.
    pub start: Point,
    /// The latest vertex.
    pub latest: Point,
    /// The line of the latest vertex.
    pub line: u32,
}

/// The vertices so far, and one more on this line.
pub fn with_vertex(polyline: Option<PolylineSoFar>, at: Point, line: u32) -> PolylineSoFar
    requires polyline_within { IsPolylineWithin polyline }
    requires at_within { IsWithin range at }
    ensures polyline { result ≡ with_vertex_of polyline at line }
    ensures within { IsPolylineWithin (Some result) }
{
    let start = match polyline {
        Some(polyline) => polyline.start,
        None => at,
    };
    PolylineSoFar {
        start,
        latest: at,
        line,
    }
}

/// The state of the reader of entities, between two of them.
#[derive(Clone, Copy, Debug, PartialEq, Eq, Drop)]
pub enum State {
    /// Outside of all ENTITIES sections.
    Outside,
    /// In an ENTITIES section, behind no polyline.
    Inside,
    /// Directly behind a polyline that is skipped, and its vertices.
    Skipping,
    /// Directly behind a polyline and its vertices so far.
    InPolyline {
        is_closed: bool,
        polyline: Option<PolylineSoFar>,
    },
}
