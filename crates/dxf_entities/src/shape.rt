//! The kinds of entities.
ghost use Rattle.std.specs.Prelude.{◌≡◌};
ghost use Rattle.dxf_entities.specs.Entities.{shape_named as shape_by_name};

/// The kind of an entity.
#[derive(Clone, Copy, Debug, PartialEq, Eq, Drop)]
pub enum Shape {
    Line,
    Polyline,
    Vertex,
    /// The end of the vertices of a polyline.
    Seqend,
    Text,
    /// Any other, among them those that open and close sections of the drawing.
    Other,
}

/// The kind of entity that a name stands for; the name is without blanks and tabs at both ends.
pub fn shape_named(name: &[u8]) -> Shape
    ensures { result ≡ shape_by_name name.now }
{
    if name == b"LINE".as_slice() {
        return Shape::Line;
    }
    if name == b"POLYLINE".as_slice() {
        return Shape::Polyline;
    }
    if name == b"VERTEX".as_slice() {
        return Shape::Vertex;
    }
    if name == b"SEQEND".as_slice() {
        return Shape::Seqend;
    }
    if name == b"TEXT".as_slice() {
        return Shape::Text;
    }
    Shape::Other
}
