//! What holds of directions, as contracts of functions that do nothing.
ghost use Rattle.std.specs.Prelude.{◌↔◌};
ghost use Rattle.std.specs.Cmp.{IsTotalOrder};
ghost use Rattle.nest_base.specs.declared.places.Point.{Point};
ghost use Rattle.nest_base.specs.Turn.{IsInsideAngle};
ghost use Rattle.nest_base.specs.Angles.{angle_cmp, IsDirection, IsBetweenByAngle};

/// The order by angle is a total order over all places, where the same directions are equal. What leads nowhere comes first.
pub fn directions_are_in_total_order()
    ensures { IsTotalOrder angle_cmp }
{}

/// An angle holds the directions that lie strictly between its own by this order, and no others.
pub fn angles_hold_what_is_between()
    ensures { (a d b : Point) → IsDirection a → IsDirection d → IsDirection b →
        IsInsideAngle a d b ↔ IsBetweenByAngle a d b }
{}
