//! What the report says of a drawing, and its text.
//!
//! The report is a function of the drawing and of the pierces of each component, and nothing else of the route plays a part in it.
//! It takes **O(n)** for n edges and chains, and the memory of a few numbers for each component beside its text.
#![tactic(auto)]

pub mod counts;
pub mod parts;
pub mod reporting;
pub mod rows;
pub mod shown;
pub mod text;

pub use reporting::report;
pub use shown::shown_byte_of;
