//! Policies.
ghost use Rattle.std.specs.Prelude.{◌≡◌, ◌<◌, ℕ, All, AllPairs, length};
ghost use Rattle.nest_base.specs.Range.{IsWithin, widest};
ghost use Rattle.start_policy.specs.Choices.{IsAnswer, IsFirstBy, IsSiteWithin, IsWestOf};

use crate::choosers::leftmost;
use crate::kept::{Chooser, Kept};
use crate::site::Site;
use nest_base::Point;

/// What says which of several sites comes next.
#[derive(Drop)]
pub enum Policy {
    /// The one that `leftmost` answers: of sites from west to east the first, so that it needs no look at the others.
    Leftmost,
    /// The one that a chooser answers.
    Kept(Kept),
}

impl Policy {
    /// Keeps a chooser that may be called on every list of sites that isn't empty, where all coordinates lie within 2,000,000,000
    /// micrometres, and that answers an index below the length of the list.
    pub fn keep(chooser: Chooser) -> Policy
        requires callable { (sites : _) (last : _) → 0 < length sites.now → All (IsSiteWithin widest) sites.now → IsWithin widest last →
            Chooser.pre chooser sites last }
        requires within { (sites : _) (last : _) (index : ℕ) → Chooser.post chooser sites last index → index < length sites.now }
        ensures { (kept : _) × (result ≡ Policy.Kept kept) × (kept.chooser ≡ chooser) }
    {
        Policy::Kept(Kept::new(chooser))
    }

    /// The index of the site that the policy chooses from this list, where the burning before ended at `last`.
    ///
    /// All coordinates lie within 2,000,000,000 micrometres.
    pub fn choose(&self, sites: &[Site], last: Point) -> usize
        requires some { 0 < length sites.now }
        requires sites_within { All (IsSiteWithin widest) sites.now }
        requires last_within { IsWithin widest last }
        ensures leftmost { self.now ≡ Policy.Leftmost → IsFirstBy IsWestOf sites.now result }
        ensures kept { (kept : _) → self.now ≡ Policy.Kept kept → IsAnswer (⟦<Box<dyn Fn(&[Site], Point) -> usize> as Fn(&[Site], Point) -> usize>⟧.post kept.chooser) sites.now last result }
        ensures within { result < length sites.now }
    {
        match self {
            Policy::Leftmost => leftmost(sites),
            Policy::Kept(kept) => kept.choose(sites, last),
        }
    }

    /// The same, from sites that stand from west to east, and at one x from north to south. For `Leftmost` this takes **O(1)**.
    pub fn choose_in_order(&self, sites: &[Site], last: Point) -> usize
        requires some { 0 < length sites.now }
        requires in_order { AllPairs IsWestOf sites.now }
        requires sites_within { All (IsSiteWithin widest) sites.now }
        requires last_within { IsWithin widest last }
        ensures leftmost { self.now ≡ Policy.Leftmost → IsFirstBy IsWestOf sites.now result }
        ensures kept { (kept : _) → self.now ≡ Policy.Kept kept → IsAnswer (⟦<Box<dyn Fn(&[Site], Point) -> usize> as Fn(&[Site], Point) -> usize>⟧.post kept.chooser) sites.now last result }
        ensures within { result < length sites.now }
    {
        match self {
            Policy::Leftmost => 0,
            Policy::Kept(kept) => kept.choose(sites, last),
        }
    }
}
