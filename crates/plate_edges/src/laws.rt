//! What holds of edges, as contracts of functions that do nothing.
ghost use Rattle.plate_edges.specs.Laws.{EdgesAreOneList, ApartSegmentsAreTheirEdges, PiecesAreOneNumber, EdgesKeepPoints, EdgesAreApart, NoVertexIsInside, EdgesStayWithin};

/// Two lists that are the edges of the same segments are equal.
pub fn edges_are_one_list()
    ensures { EdgesAreOneList }
{}

/// Segments that have a length, and any two of which meet at ends only, are their own edges: the edges are the segments, each
/// with its lesser end first, in the order of edges.
pub fn apart_segments_are_their_edges()
    ensures { ApartSegmentsAreTheirEdges }
{}

/// The number of pieces that segments have in all is one number.
pub fn pieces_are_one_number()
    ensures { PiecesAreOneNumber }
{}

/// A point of the plane lies on some edge exactly where it lies on some segment: nothing is cut that wasn't drawn, and nothing
/// drawn is left out.
pub fn edges_keep_points()
    ensures { EdgesKeepPoints }
{}

/// Where no two segments cross off the lattice, any two edges share nothing, or one point that is an end of both.
pub fn edges_are_apart()
    ensures { EdgesAreApart }
{}

/// No end of an edge lies inside an edge.
pub fn no_vertex_is_inside()
    ensures { NoVertexIsInside }
{}

/// The edges lie within the range in which the segments lie.
pub fn edges_stay_within()
    ensures { EdgesStayWithin }
{}
