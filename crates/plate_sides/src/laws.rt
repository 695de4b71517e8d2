//! What holds of angles, as contracts of functions that do nothing: their definition is tried on sixteen directions all round.
ghost use Rattle.std.specs.Prelude.{◌≡◌, length};
ghost use Rattle.plate_sides.specs.Sixteen.{sixteen, StepsTellTurns, AnglesHoldPlacesBetween};

/// Of sixteen directions in counterclockwise order, those less than half a turn on from one lie on its left, the one half a turn on
/// is opposite, and the others lie on its right. So each two fall under one of the four cases of an angle, and under no other.
pub fn angles_of_sixteen_directions()
    ensures count { length sixteen ≡ 16 }
    ensures turns { StepsTellTurns }
{}

/// The angle from one of these directions to another holds those that come strictly between the two, counterclockwise, and no
/// others. From a direction to itself it is a whole turn.
pub fn angles_hold_the_directions_between()
    ensures { AnglesHoldPlacesBetween }
{}
