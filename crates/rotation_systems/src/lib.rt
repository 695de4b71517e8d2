//! Rotation systems: half-edges by number, their twins, and the next one of each round its vertex.
//!
//! What is left of a plane graph when places are forgotten (a combinatorial map). The theory of walks and covers stands on it, and so does the
//! plane graph, which is one. Definitions alone: nothing here runs.
#![tactic(auto)]
