//! Choosers that are kept.
ghost use Rattle.std.specs.Prelude.{◌≡◌, ◌<◌, ℕ, All, length};
ghost use Rattle.nest_base.specs.Range.{IsWithin, widest};
ghost use Rattle.start_policy.specs.Choices.{IsAnswer, IsSiteWithin};

use crate::site::Site;
use nest_base::Point;

/// A closure that answers the index of one of these sites; beside them it's told the place where the burning before ended.
pub type Chooser = Box<dyn Fn(&[Site], Point) -> usize>;

/// A chooser, beside the fact that it may be called on every list of sites that isn't empty, and then answers the index of one of them.
#[derive(Drop)]
pub struct Kept {
    chooser: Chooser,
    ghost callable: { (sites : _) (last : _) → 0 < length sites.now → All (IsSiteWithin widest) sites.now → IsWithin widest last →
        Chooser.pre chooser sites last },
    ghost within: { (sites : _) (last : _) (index : ℕ) → Chooser.post chooser sites last index → index < length sites.now },
}

impl Kept {
    /// Keeps a chooser.
    pub(crate) fn new(chooser: Chooser) -> Kept
        requires callable { (sites : _) (last : _) → 0 < length sites.now → All (IsSiteWithin widest) sites.now → IsWithin widest last →
            Chooser.pre chooser sites last }
        requires within { (sites : _) (last : _) (index : ℕ) → Chooser.post chooser sites last index → index < length sites.now }
        ensures { result.chooser ≡ chooser }
    {
        Kept { chooser }
    }

    /// What the chooser answers.
    pub(crate) fn choose(&self, sites: &[Site], last: Point) -> usize
        requires some { 0 < length sites.now }
        requires sites_within { All (IsSiteWithin widest) sites.now }
        requires last_within { IsWithin widest last }
        ensures answer { IsAnswer (Chooser.post self.now.chooser) sites.now last result }
        ensures within { result < length sites.now }
    {
        (self.chooser)(sites, last)
    }
}
