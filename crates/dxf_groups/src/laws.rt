//! What holds of the pairs of any bytes: functions that do nothing and whose contracts are the laws.
ghost use Rattle.dxf_groups.specs.Laws.{PairsComeOneByOne, EndGivesTheRest, PairsStay, RefusalStays, RefusalComesAtOnce, TakeStaysRefused, EndStaysRefused, CuttingIsFree};

/// The pairs that bytes complete, one after the other, are those of all these bytes.
pub fn pairs_come_one_by_one()
    ensures { PairsComeOneByOne }
{}

/// The end of the input completes what is left: one pair at most.
pub fn end_gives_the_rest()
    ensures { EndGivesTheRest }
{}

/// Pairs that have come stay, whatever follows.
pub fn pairs_stay()
    ensures { PairsStay }
{}

/// A refusal that has come stays, whatever follows.
pub fn refusal_stays()
    ensures { RefusalStays }
{}

/// A refusal has come as soon as it stands whatever follows.
pub fn refusal_comes_at_once()
    ensures { RefusalComesAtOnce }
{}

/// Once `take` has answered `Refused`, every later `take` and every `end` answers it, for the same reason; once `end` has answered
/// it, so does every further `end`.
pub fn refusal_is_told_for_good()
    ensures take { TakeStaysRefused }
    ensures end { EndStaysRefused }
{}

/// What a reader knows depends on the bytes, and not on how they were cut into pieces.
pub fn cutting_is_free()
    ensures { CuttingIsFree }
{}
