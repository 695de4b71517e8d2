//! What holds of sound code and its lightings, as contracts of functions that do nothing.
ghost use Rattle.sound_code.specs.Plans.{BurntPlanIsSound, BurntPlanHasLightings, PlanHasFirstLeadIns, PlanHasPierces, CodeIsOfItsLightings};
ghost use Rattle.sound_code.specs.Plans.{ChainsCanBeWritten, FirstLeadInsAreNear, LeadInIsOffEdges};

/// Code is sound that burns trails which cover the edges, in an order that detaches none before it burns, each behind the first
/// lead-in that is free. Each trail is one lighting, in order, and one pierce in the component in which all its half-edges lie.
pub fn burnt_plan_is_sound()
    ensures sound { BurntPlanIsSound }
    ensures lightings { BurntPlanHasLightings }
    ensures first_lead_ins { PlanHasFirstLeadIns }
    ensures pierces { PlanHasPierces }
    ensures own_lightings { CodeIsOfItsLightings }
{}

/// Trails of edges that can be cut can be written as code, behind lead-ins that start within the range of places in code. First
/// lead-ins do, where the edges lie 4 mm inside this range.
pub fn chains_can_be_written()
    ensures written { ChainsCanBeWritten }
    ensures near { FirstLeadInsAreNear }
{}

/// A lead-in that is free goes along no edge, so that it is no edge move.
pub fn lead_in_is_off_edges()
    ensures { LeadInIsOffEdges }
{}
