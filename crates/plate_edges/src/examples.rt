//! Worked examples of the definitions, as contracts of functions that do nothing. Places are told in micrometres.
ghost use Rattle.std.specs.Prelude.{[], ◌∷◌};
ghost use Rattle.plate_edges.specs.Cuts.{IsParallel, CrossesOffLattice, IsRoundedDown, IsCutPoint};
ghost use Rattle.plate_edges.specs.Edges.{IsPieceOf, IsEdge, AreEdgesOf};
ghost use Rattle.plate_edges.specs.Pieces.{HavePieces};
ghost use Rattle.plate_edges.specs.Examples.{place, segment_of, edge, lower, upper, overlapping};

/// Segments on one line are parallel. Others cross off the lattice unless their common point is a place.
pub fn crossings()
    ensures parallel { IsParallel (segment_of 0 0 6000 0) (segment_of 4000 0 10000 0) }
    ensures off_lattice { (c : CrossesOffLattice (segment_of 0 0 10000 7000) (segment_of 0 2000 10000 0)) × IsRoundedDown c.point (place 2222 1555) }
    ensures on_lattice { CrossesOffLattice (segment_of 0 0 10000 10000) (segment_of 0 10000 10000 0) → ⊥ }
{}

/// Two segments cut each other where they cross, and one cuts another on which it ends.
pub fn cut_points()
    ensures of_the_first { IsCutPoint (segment_of 0 0 10000 10000 ∷ segment_of 0 10000 10000 0 ∷ []) (segment_of 0 0 10000 10000) (place 5000 5000) }
    ensures of_the_second { IsCutPoint (segment_of 0 0 10000 10000 ∷ segment_of 0 10000 10000 0 ∷ []) (segment_of 0 10000 10000 0) (place 5000 5000) }
    ensures joint { IsCutPoint (segment_of 0 0 10000 0 ∷ segment_of 5000 0 5000 8000 ∷ []) (segment_of 0 0 10000 0) (place 5000 0) }
{}

/// What two segments of one line share is a piece of both: it counts twice, and is one edge.
pub fn overlapping_lines()
    ensures of_the_first { IsPieceOf overlapping lower (edge 4000 0 6000 0) }
    ensures of_the_second { IsPieceOf overlapping upper (edge 4000 0 6000 0) }
    ensures not_the_whole { IsEdge overlapping (edge 0 0 6000 0) → ⊥ }
    ensures pieces { HavePieces overlapping 4 }
    ensures edges { AreEdgesOf overlapping (edge 0 0 4000 0 ∷ edge 4000 0 6000 0 ∷ edge 6000 0 10000 0 ∷ []) }
{}
