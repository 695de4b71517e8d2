//! Tests of plans, from the route of a component to the written code and the verdict on it, by the drawings of `drawing_samples`.
//!
//! There is a module for each crate that is tested, and nothing else: no crate stands on this one. The tests aren't in the crates
//! themselves, since a test is proved as all code is, and a crate with tests is proved twice, with and without them. Also, a graph
//! needs edges that meet at ends only, and these come of splitting here, on which the crates of the graph don't stand.
//!
//! Expected values are worked out by hand. Which route a component is burnt by is free within its promise: `routes` alone asks for
//! one route, and the modules of what stands above it ask for what each route has in common.
#![tactic(auto)]

#[cfg(test)]
mod bounds;
#[cfg(test)]
mod codes;
#[cfg(test)]
mod covers;
#[cfg(test)]
mod routes;
#[cfg(test)]
mod verdicts;
