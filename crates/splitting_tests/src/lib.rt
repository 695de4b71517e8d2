//! Tests of where two segments meet, and of splitting, by the drawings of `drawing_samples`.
//!
//! They aren't in `segment_split` itself, since a test is proved as all code is, and a crate with tests is proved twice, with and without
//! them. Expected values are worked out by hand. No crate stands on this one.
#![tactic(auto)]

#[cfg(test)]
mod meetings;
#[cfg(test)]
mod splitting;
