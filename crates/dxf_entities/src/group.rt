//! The groups of an entity that are read.
ghost use Rattle.std.specs.Prelude.{◌≡◌, pos, find};
ghost use Rattle.dxf_entities.specs.Groups.{code as code_of, groups_used, groups_needed, group_among as group_by_code};

use crate::shape::Shape;

/// A group that the entities of some kind use.
#[derive(Clone, Copy, Debug, PartialEq, Eq, Drop)]
pub enum Group {
    StartX,
    StartY,
    EndX,
    EndY,
    Flags,
    Bulge,
    ExtrusionX,
    ExtrusionY,
    ExtrusionZ,
    /// The text of a TEXT.
    Content,
}

impl Group {
    /// Its code.
    pub fn code(self) -> i32
        ensures { result ≡ pos (code_of self) }
    {
        match self {
            Group::StartX => 10,
            Group::StartY => 20,
            Group::EndX => 11,
            Group::EndY => 21,
            Group::Flags => 70,
            Group::Bulge => 42,
            Group::ExtrusionX => 210,
            Group::ExtrusionY => 220,
            Group::ExtrusionZ => 230,
            Group::Content => 1,
        }
    }
}

/// The groups that are read of an entity of this kind.
pub fn used(shape: Shape) -> &'static [Group]
    ensures { result.now ≡ groups_used shape }
{
    match shape {
        Shape::Line => &[Group::StartX, Group::StartY, Group::EndX, Group::EndY],
        Shape::Polyline => &[
            Group::Flags,
            Group::ExtrusionX,
            Group::ExtrusionY,
            Group::ExtrusionZ,
        ],
        Shape::Vertex => &[Group::StartX, Group::StartY, Group::Bulge],
        Shape::Text => &[
            Group::StartX,
            Group::StartY,
            Group::Content,
            Group::ExtrusionX,
            Group::ExtrusionY,
            Group::ExtrusionZ,
        ],
        Shape::Seqend => &[],
        Shape::Other => &[],
    }
}

/// Those of them that may not be missing.
pub fn needed(shape: Shape) -> &'static [Group]
    ensures { result.now ≡ groups_needed shape }
{
    match shape {
        Shape::Line => &[Group::StartX, Group::StartY, Group::EndX, Group::EndY],
        Shape::Vertex => &[Group::StartX, Group::StartY],
        Shape::Text => &[Group::StartX, Group::StartY, Group::Content],
        Shape::Polyline => &[],
        Shape::Seqend => &[],
        Shape::Other => &[],
    }
}

/// Which of these groups has this code.
pub fn group_among(groups: &[Group], code: i32) -> Option<Group>
    ensures { result ≡ group_by_code groups.now code }
{
    for group in groups {
        if group.code() == code {
            return Some(*group);
        }
    }
    None
}
