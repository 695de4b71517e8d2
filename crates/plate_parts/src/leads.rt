//! Lead-ins.
use nest_base::Point;

/// A straight cut in scrap, from the place where the torch pierces to the vertex where a chain begins.
#[derive(Clone, Copy, Debug, PartialEq, Eq, Drop)]
pub struct Lead {
    pub from: Point,
    pub to: Point,
}
