//! The plate as half-edges: their order round a vertex, components, the links within and between faces, and reach; and covers by trails.
//!
//! Here stand the definitions of which edges the torch may still burn: a face reaches the outside across unburnt edges, and an
//! order of burning encloses where no edge is detached before it burns. And those of covers: a trail is one lighting of the torch, so
//! the trails of a cover are the pierces of a plan, of which a component has a bound and a limit. They speak of places and directions, and
//! of no numbering. Laws try angles on sixteen directions all round. Nothing here runs; plans, sound code and the report stand on it.
#![tactic(auto)]

pub mod laws;
