//! What is chosen.

use nest_base::Point;

/// One of several things that lie at places.
#[derive(Clone, Copy, Debug, PartialEq, Eq, Drop)]
pub struct Site {
    pub at: Point,
    /// Its number among things of its kind, from 0.
    pub key: u32,
}
