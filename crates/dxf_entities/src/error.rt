//! Why a drawing is refused.
ghost use Rattle.std.specs.Prelude.{◌≡◌};

use crate::label::Label;
use dxf_groups::GroupError;
use nest_base::OutOfMemory;
use thiserror::Error;

/// Why a drawing can't be read. Lines are numbered from 1; the line of an entity is that of the value of its first pair.
#[derive(Debug, Drop, Error)]
pub enum DrawingError {
    /// The lines aren't pairs.
    #[error("the lines of the drawing aren't pairs")]
    Groups(GroupError),
    /// The value on this line is no number, or no integer where one is needed.
    #[error("a value isn't a number")]
    NotANumber(u32),
    /// The coordinate on this line lies beyond plus and minus 100,000,000 micrometres.
    #[error("a coordinate is too far from zero")]
    TooFar(u32),
    /// The entity on this line lacks the group with this code.
    #[error("an entity lacks a group")]
    Missing(u32, i32),
    /// The entity on this line isn't planned.
    #[error("an entity isn't supported")]
    Unsupported(u32, Kind),
    /// The entity on this line gives more than there is room for.
    #[error("the drawing has too many entities")]
    TooMany(u32),
    /// The drawing gives no segment.
    #[error("the drawing has no segment")]
    Nothing,
    /// Memory ran out.
    #[error("out of memory")]
    OutOfMemory,
}

/// What of an entity isn't planned.
#[derive(Debug, Drop)]
pub enum Kind {
    /// An entity with this name.
    Entity(Label),
    /// A POLYLINE with these flags.
    Flags(i64),
    /// A VERTEX from which an arc leads on.
    Bulge,
    /// An entity that doesn't lie flat.
    Extrusion,
}

impl From<GroupError> for DrawingError {
    ghost use Rattle.dxf_entities.specs.declared.error.DrawingError.TheVariants.{Groups as NoPairs};

    ghost from_gives = { λ e error. error ≡ NoPairs e };

    fn from(e: GroupError) -> DrawingError {
        DrawingError::Groups(e)
    }
}

impl From<OutOfMemory> for DrawingError {
    ghost use Rattle.dxf_entities.specs.declared.error.DrawingError.TheVariants.{OutOfMemory as NoMemory};

    ghost from_gives = { λ _ error. error ≡ NoMemory };

    fn from(_: OutOfMemory) -> DrawingError {
        DrawingError::OutOfMemory
    }
}
