//! What holds of verdicts: a function that does nothing and whose contract is the law.
ghost use Rattle.replay_check.specs.Laws.{FaultyCodeIsUnsound};

/// Moves are unsound where the verdict tells a fault. So they are sound exactly where the verdict is `Sound`.
pub fn faulty_code_is_unsound()
    ensures { FaultyCodeIsUnsound }
{}
