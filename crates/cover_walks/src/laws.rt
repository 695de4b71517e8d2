//! What holds of orders and walks, as contracts of functions that do nothing.
ghost use Rattle.cover_walks.specs.Laws.{EnclosingOrdersGrow, OneOuterSideIsEnough, ChainsAreTheOrder, ChainsAreUnbroken, ChainsAreCounted, ChoicesTouchTheStack, ScansEnd, TurnsSeeAll, TurnsSeeOne, FirstWalkBegins, WalksBegin, WalksGoOn, WalksEnd, TopsMove, VerticesAreExhausted, FirstWalkEnds, OrdersAreShort, WalksAreCounted, MovesAreCounted, ExhaustedAreCounted, FirstWalksAreCounted, ClosedWalksAreEven, WalksBeginAgain, RootsAreOddAgain, CountsBeginAgain, EverythingIsCovered, OneEdgeIsCovered, ChainsAreWithinTheLimit};

/// An order encloses exactly where it grows: where it can be laid from its end, each edge next to a face that was reached.
pub fn enclosing_orders_grow()
    ensures { EnclosingOrdersGrow }
{}

/// An order that encloses with one outer half-edge of the component encloses with all of them.
pub fn one_outer_side_is_enough()
    ensures { OneOuterSideIsEnough }
{}

/// An order is cut at its breaks: one after another the chains are the order, each is unbroken, and there is one more of them than
/// there are breaks.
pub fn chains_are_cut_at_breaks()
    ensures whole { ChainsAreTheOrder }
    ensures unbroken { ChainsAreUnbroken }
    ensures count { ChainsAreCounted }
{}

/// Going round a vertex one comes to an unburnt half-edge, or sees that there is none.
pub fn scans_end()
    ensures end { ScansEnd }
    ensures all { TurnsSeeAll }
    ensures one { TurnsSeeOne }
{}

/// The next unburnt half-edge, counterclockwise or else clockwise, touches the stack.
pub fn choices_touch_the_stack()
    ensures { ChoicesTouchTheStack }
{}

/// A walk begins, goes on by a choice and ends; when a vertex is exhausted the top of the stack moves, and the vertex to which it
/// leads is to be exhausted next. Each step keeps what the next one needs.
pub fn walks_go_on()
    ensures first { FirstWalkBegins }
    ensures first_ends { FirstWalkEnds }
    ensures begins { WalksBegin }
    ensures goes { WalksGoOn }
    ensures ends { WalksEnd }
    ensures moves { TopsMove }
    ensures exhausted { VerticesAreExhausted }
    ensures short { OrdersAreShort }
{}

/// Breaks and odd vertices together don't become more.
pub fn walks_are_counted()
    ensures walks { WalksAreCounted }
    ensures moves { MovesAreCounted }
    ensures exhausted { ExhaustedAreCounted }
    ensures first { FirstWalksAreCounted }
    ensures closed { ClosedWalksAreEven }
{}

/// When all walks were closed and the first open one has ended, what is done may be given up for a walk from the root.
pub fn walks_begin_again()
    ensures walks { WalksBeginAgain }
    ensures odd { RootsAreOddAgain }
    ensures counts { CountsBeginAgain }
{}

/// When the stack is empty all is covered, each edge once, in an order that encloses.
pub fn everything_is_covered()
    ensures { EverythingIsCovered }
{}

/// A cover has as few chains as the limit says.
pub fn chains_are_within_the_limit()
    ensures { ChainsAreWithinTheLimit }
{}

/// One edge is covered by one chain, so these laws speak of something.
pub fn one_edge_is_covered()
    ensures { OneEdgeIsCovered }
{}
