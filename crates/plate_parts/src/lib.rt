//! Parts of a plate and its scrap, and straight cuts that lead in through scrap.
//!
//! A name lies at a place, and names the face there: that face is a part, and every face that has no name is scrap. A lead-in is a
//! straight cut from a place in scrap to the vertex where a trail begins. Definitions alone: nothing here runs.
#![tactic(auto)]

pub mod leads;

pub use leads::Lead;
