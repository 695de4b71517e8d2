//! What holds of the covers of all components, as contracts of functions that do nothing.
ghost use Rattle.plate_plans.specs.Laws.{ComponentCoversArePlan, ComponentCoversAreCounted, ParentsHaveLesserNumbers};

/// The covers of all components, children before parents, are a plan, in which each component has the trails of its cover.
pub fn component_covers_are_a_plan()
    ensures plan { ComponentCoversArePlan }
    ensures counts { ComponentCoversAreCounted }
{}

/// A component's number is greater than its parent's, so a burning order is found.
pub fn parents_come_first()
    ensures { ParentsHaveLesserNumbers }
{}
