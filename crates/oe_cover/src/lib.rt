//! The plan of a drawing: chains of half-edges that cover it, in the order in which they burn.
//!
//! Components burn after all that lie in them. Each is covered from its outer side on that comes first of those that leave an odd
//! vertex, and its order is cut into chains where a half-edge doesn't begin where the one before it ends. All together no edge is
//! detached before it burns, and no component has more chains than its limit.
//!
//! All memory is taken before the first edge is burnt, so that a graph is as before where there is none. Burning takes **O(n)** for n
//! edges at vertices of bounded degree.
//!
//! It stands on the orders of `component_route` and on `burning_order`; what they mean on the plate is told by the laws of
//! `cover_plan` and `plate_plans`.
#![tactic(auto)]

pub mod all;
pub mod component;
mod draft;
pub mod plan;
mod planner;
pub mod start;

pub use all::cover_all;
pub use component::cover_component;
pub use plan::Plan;
