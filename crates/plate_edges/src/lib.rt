//! The edges of a drawing: the pieces of its segments between neighbouring cut points.
//!
//! Here stand the definitions, as relations that determine their lists, laws about them, and worked examples. The laws say that
//! the edges of segments are one list, that they have the points of the segments and no others, and that they share ends only,
//! where no two segments cross off the lattice. Nothing here runs. The layers that cut segments, or that find them apart, meet
//! these definitions, and the layers above follow the edges.
#![tactic(auto)]

pub mod examples;
pub mod laws;
