//! How the components of a drawing lie in one another.
//!
//! From each place one thing is seen to the west, so each component lies in one other, further west, or in none. Laws say so, and
//! that while a component and all around it are unburnt its outer half-edges reach the outside. So components that are burnt one
//! after another, each after those that lie in it, are burnt in an order in which no edge is detached, and their trails make a
//! plan. Nothing here runs.
#![tactic(auto)]

pub mod laws;
pub mod orders;
