//! Which faces of a plate are parts, and which are scrap.
//!
//! A name lies at a place, and names the face there: that face is a part. Each name lies off all edges, inside the drawing, and in a
//! face that no other name has; whatever is wrong is told of the first name that it holds of. Every face that has no name is scrap.
//!
//! Naming takes **O(kn)** for k names and n edges. Readers take **O(1)** and no memory.
//!
//! It stands on the faces of `face_nesting`.
#![tactic(auto)]

pub mod error;
mod named;
pub mod parts;

pub use error::PartError;
pub use parts::Parts;
