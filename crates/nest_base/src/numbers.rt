//! Numbers by which sides, vertices and components are known.

/// A half-edge by number: the edge at place k of the edges has the sides 2k, from low to high, and 2k + 1, from high to low.
#[derive(Clone, Copy, Debug, PartialEq, Eq, PartialOrd, Ord, Hash, Drop)]
pub struct Side(pub u32);

/// A vertex by number.
#[derive(Clone, Copy, Debug, PartialEq, Eq, PartialOrd, Ord, Hash, Drop)]
pub struct VertexId(pub u32);

/// A component by number: they are counted from 0, in the order of their mark vertices.
#[derive(Clone, Copy, Debug, PartialEq, Eq, PartialOrd, Ord, Hash, Drop)]
pub struct Component(pub u32);
