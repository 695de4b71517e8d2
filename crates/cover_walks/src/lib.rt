//! The cover of one component by trails, over rotation systems by number.
//!
//! A component is covered by walks along unburnt edges, each from where the one before it ended or from a vertex that still has
//! unburnt edges. Defined here are burning orders, what it means that one encloses, the state while walks go on, the cutting of an
//! order into chains, and what a finished cover is. Laws say that a step keeps the state, that the chains are few enough, and that
//! at the end every edge of the component is covered. Nothing here runs: the code that walks stands above, and so does the plate,
//! on which half-edges have places.
#![tactic(auto)]

pub mod laws;
