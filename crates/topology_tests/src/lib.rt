//! Tests of the plane graph, of what is burnt of it, and of its faces, by the drawings of `drawing_samples`.
//!
//! There is a module for each crate that is tested, and nothing else: no crate stands on this one. The tests aren't in the crates
//! themselves, since a test is proved as all code is, and a crate with tests is proved twice, with and without them. Also, a graph
//! needs edges that meet at ends only, and these come of splitting here, on which the crates of the graph don't stand.
//!
//! Expected values are worked out by hand.
#![tactic(auto)]

#[cfg(test)]
mod burning;
#[cfg(test)]
mod components;
#[cfg(test)]
mod graphs;
#[cfg(test)]
mod nesting;
#[cfg(test)]
mod rotations;
