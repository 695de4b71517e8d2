//! One entity of a drawing: which of its pairs are read, why it's refused, and what it holds.
//!
//! After the Autodesk DXF R12 reference, narrowed by this project, an entity is a pair with code 0, which names it, and the
//! pairs up to the next one with code 0. LINE, POLYLINE, VERTEX, SEQEND and TEXT are planned; of each a few groups are used,
//! and all others are dropped unread. The definitions speak of whole entities. `EntityBuilder` takes the pairs of one entity as they
//! come, keeps only what is read of them, and answers at its end what the definitions say of the whole.
//!
//! Coordinates are millimetres in the drawing and whole micrometres here. Each pair takes **O(n)** time for its n bytes, and
//! memory is taken only for the bytes of a TEXT.
#![tactic(auto)]

pub mod builder;
pub mod error;
pub mod examples;
mod fault;
mod group;
pub mod label;
pub mod shape;
pub mod space;
#[cfg(test)]
mod tests;
mod values;

pub use builder::EntityBuilder;
pub use error::{DrawingError, Kind};
pub use label::Label;
pub use shape::Shape;
pub use space::Space;
