//! What holds of code, as contracts of functions that do nothing.
ghost use Rattle.code_moves.specs.BurntChains.{WrittenCodeBurnsItsChains, LegsAreBurnt, LeadInsAreBurnt};

/// What is written for chains is accepted, and burns what these chains burn and nothing else, in order, each with one lighting.
pub fn written_code_burns_its_chains()
    ensures { WrittenCodeBurnsItsChains }
{}

/// A chain burns its legs, and before them the way from the start of its lead-in to its first vertex, unless these are one place.
pub fn chains_burn_their_legs()
    ensures legs { LegsAreBurnt }
    ensures lead_in { LeadInsAreBurnt }
{}
