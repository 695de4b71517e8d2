//! What numbers tell of a plane graph, as contracts of functions that do nothing.
ghost use Rattle.cover_plan.specs.Laws.{DegreesAreCounted, OddIsTold, OddVerticesAreCounted, CoversAreComponentCovers, CoversEndAtTheirStart, OuterSidesAreTold, OuterVerticesAreTold, StartsAreTold};

/// The degree of a vertex is the number of half-edges that leave it, so a vertex is odd exactly where that number is.
pub fn degrees_are_counted()
    ensures degree { DegreesAreCounted }
    ensures odd { OddIsTold }
{}

/// The odd vertices of a component are told by number too, and counted.
pub fn odd_vertices_are_counted()
    ensures { OddVerticesAreCounted }
{}

/// A cover of a component by numbers, from a half-edge at which its cover may start, is its cover of a plan: trails that cover it in an
/// order in which no edge is detached, and no more than its limit. The last one ends where the cover started.
pub fn numbers_tell()
    ensures component_cover { CoversAreComponentCovers }
    ensures ends { CoversEndAtTheirStart }
{}

/// The outer half-edges of a component are those whose numbers stand in its outer cycle, and its outer vertices those that one of these
/// leaves.
pub fn outer_sides_are_told()
    ensures sides { OuterSidesAreTold }
    ensures vertices { OuterVerticesAreTold }
{}

/// A cover of a component may start at a half-edge of its outer cycle: at one that leaves an odd vertex, if there is any, else at each.
pub fn starts_are_told()
    ensures { StartsAreTold }
{}
