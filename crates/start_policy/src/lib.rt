//! Policies: stored choosers that say which component burns next, and where its burning ends.
//!
//! Where several components are ready to burn, or the burning of one may end at several places, any choice keeps the cover's promises.
//! So a plan is made under a policy, which chooses one of a list of sites. It keeps a chooser, a closure of the caller's own, beside the
//! fact that this may be called on every list that isn't empty, and then answers the index of one of its sites. Two choices stand here:
//! `leftmost`, which goes by the sites alone, and `nearest`, which keeps the way short that the torch goes unlit.
//!
//! A choice takes what its chooser takes: **O(k)** for k sites with either of the two. A chooser has to look at the sites, and so k
//! choices among k sites take **O(k²)**; but the policy `Leftmost` is known here, and needs no look where sites stand from west to east.
//! Nothing is allocated.
#![tactic(auto)]

pub mod choosers;
pub mod kept;
pub mod policy;
pub mod site;
#[cfg(test)]
mod tests;

pub use choosers::{leftmost, nearest};
pub use kept::{Chooser, Kept};
pub use policy::Policy;
pub use site::Site;
