//! What a cover by numbers means on the plate.
//!
//! The cover of a component is made and judged by the numbers of half-edges, vertices and components. Laws say what these numbers
//! tell of a plane graph: degrees and odd vertices, the outer half-edges of a component, and that a finished cover is the component's
//! cover of a plan, with no more trails than its limit. Nothing here runs.
#![tactic(auto)]

pub mod laws;
