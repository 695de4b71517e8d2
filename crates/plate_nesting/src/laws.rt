//! What holds of components, as contracts of functions that do nothing.
ghost use Rattle.plate_nesting.specs.Laws.{SomethingIsSeen, OneIsSeen, NearerIsInOrder, ParentsLieWest, AlongIsOne, AlongIsOfOne, MarkSideIsOne, OneMark, WholeComponentsReach, ReadyOrdersEnclose, FinishedNext, NoPlan, PlanNext, TrailsOfNext, TrailsStay, PlanCovers};

/// From each place something is seen: an edge, or the outside.
pub fn something_is_seen()
    ensures { SomethingIsSeen }
{}

/// From no place two things are seen, where edges meet at ends only.
pub fn one_is_seen()
    ensures { OneIsSeen }
{}

/// Of half-edges that go down, what is nearer than a nearer one is nearer.
pub fn nearer_is_in_order()
    ensures { NearerIsInOrder }
{}

/// A component lies in one whose mark vertex lies further west, so none lies in itself, however deep.
pub fn parents_lie_west()
    ensures { ParentsLieWest }
{}

/// A half-edge leads along to one half-edge, where edges meet at ends only.
pub fn along_is_one()
    ensures { AlongIsOne }
{}

/// One half-edge leads along to it.
pub fn along_is_of_one()
    ensures { AlongIsOfOne }
{}

/// A mark vertex has one mark side.
pub fn mark_side_is_one()
    ensures { MarkSideIsOne }
{}

/// A component has one mark vertex.
pub fn one_mark()
    ensures { OneMark }
{}

/// While a component and all around it are unburnt, its outer half-edges reach the outside.
pub fn whole_components_reach()
    ensures { WholeComponentsReach }
{}

/// After components that are finished, in an order in which no edge is detached, a ready one is burnt in such an order too, and
/// then it's finished.
pub fn ready_orders_enclose()
    ensures enclose { ReadyOrdersEnclose }
    ensures finished { FinishedNext }
{}

/// A plan grows by the trails of a ready component. This has as many trails as it brings, and each finished one as many as before.
/// When all components are finished the plan is an enclosing cover.
pub fn plans_grow()
    ensures begins { NoPlan }
    ensures grows { PlanNext }
    ensures own { TrailsOfNext }
    ensures stay { TrailsStay }
    ensures covers { PlanCovers }
{}
