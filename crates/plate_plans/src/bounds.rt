//! What holds of bounds and of limits, as contracts of functions that do nothing.
ghost use Rattle.plate_plans.specs.Undercutting.{NoneUndercuts, NoneUndercutsSum, TrailsAreCounted, CountsAddUp, BoundIsOne, LimitIsOne};

/// No cover has fewer trails in a component than its bound, nor fewer in all than the sum of the bounds.
pub fn none_undercuts()
    ensures each { NoneUndercuts }
    ensures sum { NoneUndercutsSum }
{}

/// In every cover each component has a number of trails, and these numbers add up to the number of trails.
pub fn trails_are_counted()
    ensures each { TrailsAreCounted }
    ensures sum { CountsAddUp }
{}

/// A component has one bound and one limit.
pub fn bound_is_one()
    ensures bound { BoundIsOne }
    ensures limit { LimitIsOne }
{}
