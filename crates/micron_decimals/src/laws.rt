//! What holds of every decimal: functions that do nothing and whose contracts are the laws.
ghost use Rattle.micron_decimals.specs.Laws.{NearestMicronIsOne, ComputedMicronIsNearest, WrittenMicronIsRead};

/// A text has one nearest micrometre, and it's the one that is computed by a division.
pub fn nearest_micron_is_one()
    ensures { NearestMicronIsOne }
{}

/// The micrometre that is computed by a division is the nearest.
pub fn computed_micron_is_nearest()
    ensures { ComputedMicronIsNearest }
{}

/// What is written for a number is read as this number.
pub fn written_micron_is_read()
    ensures { WrittenMicronIsRead }
{}
