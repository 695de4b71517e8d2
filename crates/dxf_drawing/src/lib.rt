//! Drawings: from the bytes of a file to its segments and names.
//!
//! A drawing is an ASCII file after the Autodesk DXF R12 reference. Its entities stand in ENTITIES sections; LINE, POLYLINE with
//! its VERTEX entities, and TEXT are read, and any other entity there is refused. Everything else is passed over. The reader keeps
//! one line, one entity and the drawing so far. Reading takes **O(n)** time for n bytes.
#![tactic(auto)]

mod drawing_builder;
mod entity_reader;
pub mod examples;
pub mod read;
mod reader;
pub mod state;
#[cfg(test)]
mod tests;

pub use dxf_entities::{DrawingError, Kind, Label};
pub use read::read_drawing;
