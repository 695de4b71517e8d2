//! Whether two straight cuts share a point, over all points of the plane, decided exactly in whole numbers.
//!
//! Two segments share a point unless a line parts them: an upright one, a level one, or the line of one of the two. Segments with
//! an end in common share that end alone, unless they fold back on each other; of that no function is needed, but the lemmas are
//! here, in `Folding`.
//!
//! A pair is decided in **O(1)**, and nothing is allocated. This layer stands on the places of `nest_base`. On it stands what splits
//! a drawing into edges, and later what looks along the sights of a plate and places lead-ins.
#![tactic(auto)]

pub mod share;

pub use share::share_point;

#[cfg(test)]
mod tests;
