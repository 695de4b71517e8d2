//! Plans of a whole drawing, from the trails of each of its components.
//!
//! A component's cover are trails that use each of its edges once, in an order in which none of them is detached before it burns, and no more than
//! it may take. Burnt in an order in which each component comes after all that lie in it, the covers of all components are a plan:
//! no edge is detached before it burns, each component has the trails of its own cover, and no cover has fewer than its bound. Laws
//! say so. Nothing here runs.
#![tactic(auto)]

pub mod bounds;
pub mod laws;
