//! Worked examples of drawings: their segments and names, and why they're refused.
//!
//! Each clause is computed from the definitions. The functions do nothing.
#![tactic(auto, unfolding(crate::specs::Drawings::segments_of, crate::specs::Drawings::names_of, crate::specs::Drawings::read_refusal_of, dxf_groups::specs::Pairs::read_pairs, dxf_groups::specs::Pairs::code_of))]

ghost use Rattle.std.specs.Prelude.{◌≡◌, [], ◌∷◌, ◌++◌, None, Some, codes, negsuc, pos, replicate};
ghost use Rattle.dxf_groups.specs.Pairs.{pairs_of};
ghost use Rattle.dxf_groups.specs.declared.answers.GroupError.TheVariants.{Binary, BadCode, LineTooLong, Truncated};
ghost use Rattle.dxf_entities.specs.declared.error.DrawingError.TheVariants.{Groups, NotANumber, TooFar, Missing, Unsupported, TooMany, Nothing};
ghost use Rattle.dxf_entities.specs.declared.error.Kind.TheVariants.{Entity as Named, Flags, Bulge, Extrusion};
ghost use Rattle.dxf_drawing.specs.Examples.{in_section, three_lines, square_lines, drawn, HasSegments, HasSegmentLines};
ghost use Rattle.dxf_drawing.specs.States.{events_of};
ghost use Rattle.dxf_drawing.specs.Drawings.{names_of, read_refusal_of, refusal_in};
ghost use Rattle.nest_base.specs.Limits.{most_names, most_segments};

/// The square has four segments. A line of no length is left out and repeated lines are kept; an arc is refused unless it lies on
/// the paper.
pub fn square()
    ensures file { let file = in_section square_lines in
        HasSegments file (drawn 0 0 10000 0 6 ∷ drawn 10000 0 10000 10000 18 ∷ drawn 10000 10000 0 10000 30 ∷ drawn 0 10000 0 0 42 ∷ [])
        × (names_of file ≡ []) }
    ensures no_length_and_repeats { let file = in_section (square_lines
        ++ codes "0\nLINE\n8\n0\n10\n3\n20\n3\n11\n3\n21\n3\n0\nLINE\n8\n0\n10\n0\n20\n0\n11\n10\n21\n0\n"
        ++ codes "0\nLINE\n8\n0\n10\n10\n20\n0\n11\n0\n21\n0\n") in
        HasSegments file (drawn 0 0 10000 0 6 ∷ drawn 10000 0 10000 10000 18 ∷ drawn 10000 10000 0 10000 30 ∷ drawn 0 10000 0 0 42 ∷ drawn 0 0 10000 0 66 ∷ drawn 10000 0 0 0 78 ∷ []) }
    ensures arc { read_refusal_of (in_section (square_lines ++ codes "0\nARC\n8\n0\n10\n5.0\n20\n5.0\n40\n2.5\n")) ≡ Some (Unsupported 54 (Named (codes "ARC"))) }
    ensures paper_arc { let file = in_section (square_lines ++ codes "0\nARC\n67\n1\n8\n0\n10\n5.0\n20\n5.0\n40\n2.5\n") in
        HasSegments file (drawn 0 0 10000 0 6 ∷ drawn 10000 0 10000 10000 18 ∷ drawn 10000 10000 0 10000 30 ∷ drawn 0 10000 0 0 42 ∷ [])
        × (names_of file ≡ []) }
{}

/// A drawing as programs write it: its lines end with CR LF, three sections come before the entities, and these are a closed
/// polyline and a name.
pub fn realistic_file()
    ensures file { let file = codes "  0\r\nSECTION\r\n  2\r\nHEADER\r\n  9\r\n$ACADVER\r\n  1\r\nAC1009\r\n  9\r\n$EXTMIN\r\n 10\r\n0.0\r\n 20\r\n0.0\r\n 30\r\n0.0\r\n  0\r\nENDSEC\r\n"
        ++ codes "  0\r\nSECTION\r\n  2\r\nTABLES\r\n  0\r\nTABLE\r\n  2\r\nLAYER\r\n 70\r\n1\r\n  0\r\nLAYER\r\n  2\r\nCUT\r\n 70\r\n0\r\n 62\r\n7\r\n  6\r\nCONTINUOUS\r\n  0\r\nENDTAB\r\n  0\r\nENDSEC\r\n"
        ++ codes "  0\r\nSECTION\r\n  2\r\nBLOCKS\r\n  0\r\nENDSEC\r\n"
        ++ codes "  0\r\nSECTION\r\n  2\r\nENTITIES\r\n"
        ++ codes "  0\r\nPOLYLINE\r\n  8\r\nCUT\r\n 66\r\n1\r\n 10\r\n0.0\r\n 20\r\n0.0\r\n 30\r\n0.0\r\n 70\r\n1\r\n"
        ++ codes "  0\r\nVERTEX\r\n  8\r\nCUT\r\n 10\r\n0.0\r\n 20\r\n0.0\r\n 30\r\n0.0\r\n"
        ++ codes "  0\r\nVERTEX\r\n  8\r\nCUT\r\n 10\r\n20.0\r\n 20\r\n0.0\r\n 30\r\n0.0\r\n"
        ++ codes "  0\r\nVERTEX\r\n  8\r\nCUT\r\n 10\r\n20.0\r\n 20\r\n10.0\r\n 30\r\n0.0\r\n"
        ++ codes "  0\r\nVERTEX\r\n  8\r\nCUT\r\n 10\r\n0.0\r\n 20\r\n10.0\r\n 30\r\n0.0\r\n"
        ++ codes "  0\r\nSEQEND\r\n  8\r\nCUT\r\n"
        ++ codes "  0\r\nTEXT\r\n  8\r\nCUT\r\n 10\r\n5.0\r\n 20\r\n5.0\r\n 30\r\n0.0\r\n 40\r\n2.5\r\n  1\r\nBRACKET\r\n"
        ++ codes "  0\r\nENDSEC\r\n  0\r\nEOF\r\n" in
        HasSegments file (drawn 0 0 20000 0 68 ∷ drawn 20000 0 20000 10000 78 ∷ drawn 20000 10000 0 10000 88 ∷ drawn 0 10000 0 0 98 ∷ [])
        × (names_of file ≡ record { at = record { x = pos 5000; y = pos 5000 }; text = codes "BRACKET"; line = 112 } ∷ []) }
{}

/// Places are rounded to micrometres before they are compared with each other and with the range.
pub fn rounded_places()
    ensures shortest { HasSegments (in_section (codes "0\nLINE\n10\n0\n20\n0\n11\n0.0005\n21\n0\n")) (drawn 0 0 1 0 6 ∷ []) }
    ensures too_short { read_refusal_of (in_section (codes "0\nLINE\n10\n0\n20\n0\n11\n0.0004\n21\n-0.0004\n")) ≡ Some Nothing }
    ensures left_out { HasSegmentLines (in_section (codes "0\nLINE\n10\n3\n20\n3\n11\n3.0001\n21\n3\n0\nLINE\n10\n0\n20\n0\n11\n10\n21\n0\n")) (16 ∷ []) }
    ensures at_the_range { read_refusal_of (in_section (codes "0\nLINE\n8\n0\n10\n0\n20\n0\n11\n100000.000\n21\n0\n")) ≡ None }
    ensures rounded_to_the_range { read_refusal_of (in_section (codes "0\nLINE\n8\n0\n10\n0\n20\n0\n11\n100000.0004\n21\n0\n")) ≡ None }
    ensures beyond { read_refusal_of (in_section (codes "0\nLINE\n8\n0\n10\n0\n20\n0\n11\n100000.001\n21\n0\n")) ≡ Some (TooFar 14) }
    ensures no_number { read_refusal_of (in_section (codes "0\nLINE\n8\n0\n10\n1e\n20\n0.0\n11\n10.0\n21\n0.0\n" ++ three_lines)) ≡ Some (NotANumber 10) }
    ensures missing { read_refusal_of (in_section (codes "0\nLINE\n8\n0\n10\n0.0\n20\n0.0\n11\n10.0\n" ++ three_lines)) ≡ Some (Missing 6 (pos 21)) }
    ensures no_entity { read_refusal_of (in_section []) ≡ Some Nothing }
{}

/// Only ENTITIES sections count, and all of them do.
pub fn sections()
    ensures header { HasSegmentLines (codes "0\nSECTION\n2\nHEADER\n9\n$EXTMIN\n10\nx\n0\nLINE\n10\nx\n20\n0\n11\n10\n21\n0\n0\nARC\n0\nENDSEC\n0\nSECTION\n2\nENTITIES\n"
        ++ codes "0\nLINE\n10\n0\n20\n0\n11\n10\n21\n0\n0\nENDSEC\n0\nEOF\n") (28 ∷ []) }
    ensures blocks { HasSegmentLines (codes "0\nSECTION\n2\nBLOCKS\n0\nBLOCK\n2\nB\n10\n0\n20\n0\n0\nLINE\n10\n0\n20\n0\n11\n10\n21\n0\n0\nVERTEX\n10\nx\n20\n0\n0\nENDBLK\n0\nENDSEC\n"
        ++ codes "0\nSECTION\n2\nENTITIES\n0\nLINE\n10\n0\n20\n0\n11\n10\n21\n0\n0\nENDSEC\n0\nEOF\n") (38 ∷ []) }
    ensures two_sections { HasSegmentLines (codes "0\nSECTION\n2\nENTITIES\n0\nLINE\n10\n0\n20\n0\n11\n10\n21\n0\n0\nENDSEC\n0\nSECTION\n2\nBLOCKS\n0\nLINE\n10\n0\n20\n0\n11\n10\n21\n0\n0\nENDSEC\n"
        ++ codes "0\nSECTION\n2\nENTITIES\n0\nLINE\n10\n10\n20\n0\n11\n0\n21\n0\n0\nENDSEC\n0\nEOF\n") (6 ∷ 38 ∷ []) }
    ensures none { read_refusal_of (codes "0\nLINE\n10\n0\n20\n0\n11\n10\n21\n0\n0\nSECTION\n2\nBLOCKS\n0\nLINE\n10\n0\n20\n0\n11\n10\n21\n0\n0\nENDSEC\n0\nLINE\n10\n0\n20\n0\n11\n10\n21\n0\n"
        ++ codes "0\nEOF\n") ≡ Some Nothing }
    ensures comments_between { HasSegmentLines (codes "0\nSECTION\n999\nhere they come\n2\n ENTITIES \n0\nLINE\n10\n0\n20\n0\n11\n10\n21\n0\n0\nENDSEC\n0\nEOF\n") (8 ∷ []) }
    ensures not_directly { read_refusal_of (codes "0\nSECTION\n8\n0\n2\nENTITIES\n0\nLINE\n10\n0\n20\n0\n11\n10\n21\n0\n0\nENDSEC\n0\nEOF\n") ≡ Some Nothing }
    ensures small_letters { read_refusal_of (codes "0\nSECTION\n2\nentities\n0\nLINE\n10\n0\n20\n0\n11\n10\n21\n0\n0\nENDSEC\n0\nEOF\n") ≡ Some Nothing }
    ensures pairs_before_the_first_entity { HasSegmentLines (in_section (codes "67\nx\n10\nx\n0\nLINE\n10\n0\n20\n0\n11\n10\n21\n0\n")) (10 ∷ []) }
    ensures ended_by_the_file { HasSegmentLines (codes "0\nSECTION\n2\nENTITIES\n0\nLINE\n10\n0\n20\n0\n11\n10\n21\n0\n0\nEOF\n") (6 ∷ []) }
    ensures behind_the_end { HasSegmentLines (codes "0\nSECTION\n2\nENTITIES\n0\nLINE\n10\n0\n20\n0\n11\n10\n21\n0\n0\nEOF\nx\ny\n") (6 ∷ []) }
    ensures opened_twice { read_refusal_of (codes "0\nSECTION\n2\nENTITIES\n0\nLINE\n10\n0\n20\n0\n11\n10\n21\n0\n0\nSECTION\n2\nENTITIES\n0\nLINE\n10\n0\n20\n0\n11\n10\n21\n0\n0\nENDSEC\n0\nEOF\n") ≡ Some (Unsupported 16 (Named (codes "SECTION"))) }
{}

/// A polyline gives a segment from each vertex to the next, and where it is closed one from the last to the first, each with the
/// line of the earlier vertex.
pub fn polylines()
    ensures not_closed { HasSegments (in_section (codes "0\nPOLYLINE\n66\n1\n0\nVERTEX\n10\n0\n20\n0\n0\nVERTEX\n10\n10\n20\n0\n0\nVERTEX\n10\n0\n20\n10\n0\nSEQEND\n")) (drawn 0 0 10000 0 10 ∷ drawn 10000 0 0 10000 16 ∷ []) }
    ensures closed { HasSegments (in_section (codes "0\nPOLYLINE\n70\n1\n0\nVERTEX\n10\n0\n20\n0\n0\nVERTEX\n10\n10\n20\n0\n0\nVERTEX\n10\n0\n20\n10\n0\nSEQEND\n")) (drawn 0 0 10000 0 10 ∷ drawn 10000 0 0 10000 16 ∷ drawn 0 10000 0 0 22 ∷ []) }
    ensures other_bits { HasSegmentLines (in_section (codes "0\nPOLYLINE\n70\n-128\n0\nVERTEX\n10\n0\n20\n0\n0\nVERTEX\n10\n10\n20\n0\n0\nVERTEX\n10\n0\n20\n10\n0\nSEQEND\n")) (10 ∷ 16 ∷ []) }
    ensures closed_and_other_bits { HasSegmentLines (in_section (codes "0\nPOLYLINE\n70\n161\n0\nVERTEX\n10\n0\n20\n0\n0\nVERTEX\n10\n10\n20\n0\n0\nVERTEX\n10\n0\n20\n10\n0\nSEQEND\n")) (10 ∷ 16 ∷ 22 ∷ []) }
    ensures no_vertex { read_refusal_of (in_section (codes "0\nPOLYLINE\n70\n1\n0\nSEQEND\n")) ≡ Some Nothing }
    ensures one_vertex { read_refusal_of (in_section (codes "0\nPOLYLINE\n0\nVERTEX\n10\n1\n20\n2\n0\nSEQEND\n")) ≡ Some Nothing }
    ensures closed_with_one_vertex { read_refusal_of (in_section (codes "0\nPOLYLINE\n70\n1\n0\nVERTEX\n10\n1\n20\n2\n0\nSEQEND\n")) ≡ Some Nothing }
    ensures closed_with_two { HasSegments (in_section (codes "0\nPOLYLINE\n70\n1\n0\nVERTEX\n10\n0\n20\n0\n0\nVERTEX\n10\n10\n20\n0\n0\nSEQEND\n")) (drawn 0 0 10000 0 10 ∷ drawn 10000 0 0 0 16 ∷ []) }
    ensures equal_neighbours { HasSegments (in_section (codes "0\nPOLYLINE\n70\n1\n0\nVERTEX\n10\n0\n20\n0\n0\nVERTEX\n10\n0.0001\n20\n0\n0\nVERTEX\n10\n10\n20\n0\n"
        ++ codes "0\nVERTEX\n10\n0\n20\n0\n0\nSEQEND\n")) (drawn 0 0 10000 0 16 ∷ drawn 10000 0 0 0 22 ∷ []) }
    ensures flags { read_refusal_of (in_section (codes "0\nPOLYLINE\n70\n3\n0\nVERTEX\n10\n0\n20\n0\n0\nVERTEX\n10\n10\n20\n0\n0\nVERTEX\n10\n0\n20\n10\n0\nSEQEND\n")) ≡ Some (Unsupported 6 (Flags (pos 3))) }
    ensures all_bits { read_refusal_of (in_section (codes "0\nPOLYLINE\n70\n-1\n0\nVERTEX\n10\n0\n20\n0\n0\nVERTEX\n10\n10\n20\n0\n0\nVERTEX\n10\n0\n20\n10\n0\nSEQEND\n")) ≡ Some (Unsupported 6 (Flags (negsuc 0))) }
    ensures bulge { read_refusal_of (in_section (codes "0\nPOLYLINE\n0\nVERTEX\n10\n0\n20\n0\n42\n0.0\n0\nVERTEX\n10\n10\n20\n0\n42\n0.5\n0\nSEQEND\n")) ≡ Some (Unsupported 16 Bulge) }
    ensures extrusion { read_refusal_of (in_section (codes "0\nPOLYLINE\n230\n-1\n0\nVERTEX\n10\n0\n20\n0\n0\nVERTEX\n10\n10\n20\n0\n0\nVERTEX\n10\n0\n20\n10\n0\nSEQEND\n")) ≡ Some (Unsupported 6 Extrusion) }
    ensures vertex_lacks_a_group { read_refusal_of (in_section (codes "0\nPOLYLINE\n0\nVERTEX\n10\n0\n20\n0\n0\nVERTEX\n20\n0\n0\nSEQEND\n")) ≡ Some (Missing 14 (pos 10)) }
{}

/// Any entity but a vertex ends a polyline, and so does the end of the section; its closing segment comes first.
pub fn ends_of_polylines()
    ensures seqend { HasSegmentLines (in_section (codes "0\nPOLYLINE\n70\n1\n0\nVERTEX\n10\n0\n20\n0\n0\nVERTEX\n10\n10\n20\n0\n0\nSEQEND\n0\nLINE\n10\n0\n20\n0\n11\n10\n21\n0\n")) (10 ∷ 16 ∷ 24 ∷ []) }
    ensures line { HasSegmentLines (in_section (codes "0\nPOLYLINE\n70\n1\n0\nVERTEX\n10\n0\n20\n0\n0\nVERTEX\n10\n10\n20\n0\n0\nLINE\n10\n0\n20\n0\n11\n10\n21\n0\n")) (10 ∷ 16 ∷ 22 ∷ []) }
    ensures paper_line { HasSegmentLines (in_section (codes "0\nPOLYLINE\n70\n1\n0\nVERTEX\n10\n0\n20\n0\n0\nVERTEX\n10\n10\n20\n0\n0\nLINE\n67\n1\n10\n0\n20\n0\n11\n5\n21\n5\n")) (10 ∷ 16 ∷ []) }
    ensures text { HasSegmentLines (in_section (codes "0\nPOLYLINE\n70\n1\n0\nVERTEX\n10\n0\n20\n0\n0\nVERTEX\n10\n10\n20\n0\n0\nTEXT\n10\n1\n20\n1\n1\nA\n")) (10 ∷ 16 ∷ []) }
    ensures polyline { HasSegmentLines (in_section (codes "0\nPOLYLINE\n70\n1\n0\nVERTEX\n10\n0\n20\n0\n0\nVERTEX\n10\n10\n20\n0\n0\nPOLYLINE\n70\n1\n0\nVERTEX\n10\n0\n20\n0\n"
        ++ codes "0\nVERTEX\n10\n10\n20\n0\n")) (10 ∷ 16 ∷ 26 ∷ 32 ∷ []) }
    ensures end_of_the_section { HasSegmentLines (in_section (codes "0\nPOLYLINE\n70\n1\n0\nVERTEX\n10\n0\n20\n0\n0\nVERTEX\n10\n10\n20\n0\n")) (10 ∷ 16 ∷ []) }
    ensures end_of_the_file { HasSegmentLines (codes "0\nSECTION\n2\nENTITIES\n0\nPOLYLINE\n70\n1\n0\nVERTEX\n10\n0\n20\n0\n0\nVERTEX\n10\n10\n20\n0\n0\nEOF\n") (10 ∷ 16 ∷ []) }
    ensures next_section { HasSegmentLines (codes "0\nSECTION\n2\nENTITIES\n0\nPOLYLINE\n70\n1\n0\nVERTEX\n10\n0\n20\n0\n0\nVERTEX\n10\n10\n20\n0\n0\nENDSEC\n0\nSECTION\n2\nENTITIES\n"
        ++ codes "0\nLINE\n10\n0\n20\n0\n11\n10\n21\n0\n0\nENDSEC\n0\nEOF\n") (10 ∷ 16 ∷ 28 ∷ []) }
    ensures vertex_behind_seqend { read_refusal_of (in_section (codes "0\nPOLYLINE\n70\n1\n0\nVERTEX\n10\n0\n20\n0\n0\nVERTEX\n10\n10\n20\n0\n0\nSEQEND\n0\nVERTEX\n10\n5\n20\n5\n")) ≡ Some (Unsupported 24 (Named (codes "VERTEX"))) }
    ensures vertex_behind_a_line { read_refusal_of (in_section (codes "0\nPOLYLINE\n70\n1\n0\nVERTEX\n10\n0\n20\n0\n0\nVERTEX\n10\n10\n20\n0\n0\nLINE\n10\n0\n20\n0\n11\n10\n21\n0\n"
        ++ codes "0\nVERTEX\n10\n5\n20\n5\n")) ≡ Some (Unsupported 32 (Named (codes "VERTEX"))) }
    ensures vertex_behind_a_paper_line { read_refusal_of (in_section (codes "0\nPOLYLINE\n70\n1\n0\nVERTEX\n10\n0\n20\n0\n0\nVERTEX\n10\n10\n20\n0\n0\nLINE\n67\n1\n10\n0\n20\n0\n11\n5\n21\n5\n"
        ++ codes "0\nVERTEX\n10\n5\n20\n5\n")) ≡ Some (Unsupported 34 (Named (codes "VERTEX"))) }
    ensures vertex_in_the_next_section { read_refusal_of (codes "0\nSECTION\n2\nENTITIES\n0\nPOLYLINE\n70\n1\n0\nVERTEX\n10\n0\n20\n0\n0\nVERTEX\n10\n10\n20\n0\n0\nENDSEC\n0\nSECTION\n2\nENTITIES\n"
        ++ codes "0\nVERTEX\n10\n5\n20\n5\n0\nENDSEC\n0\nEOF\n") ≡ Some (Unsupported 28 (Named (codes "VERTEX"))) }
{}

/// Group 67 with the integer 1 puts an entity on the paper, where it is skipped, a polyline with all its vertices. What belongs
/// to a polyline isn't asked.
pub fn paper_space()
    ensures line { HasSegmentLines (in_section (codes "0\nLINE\n67\n1\n10\nx\n20\n0\n11\n10\n21\n0\n0\nLINE\n10\n0\n20\n0\n11\n10\n21\n0\n")) (18 ∷ []) }
    ensures text { let file = in_section (codes "0\nTEXT\n10\n1\n20\n1\n1\nA\n67\n +1\n0\nTEXT\n10\n2\n20\n2\n1\nB\n0\nLINE\n10\n0\n20\n0\n11\n10\n21\n0\n") in
        HasSegmentLines file (24 ∷ [])
        × (names_of file ≡ record { at = record { x = pos 2000; y = pos 2000 }; text = codes "B"; line = 16 } ∷ []) }
    ensures arc { HasSegmentLines (in_section (codes "0\nARC\n67\n1\n10\nx\n0\nLINE\n10\n0\n20\n0\n11\n10\n21\n0\n")) (12 ∷ []) }
    ensures polyline { HasSegmentLines (in_section (codes "0\nPOLYLINE\n67\n1\n70\n3\n0\nVERTEX\n10\n0\n20\n0\n0\nVERTEX\n10\n10\n20\n0\n0\nVERTEX\n10\n0\n20\n10\n0\nSEQEND\n"
        ++ codes "0\nLINE\n10\n0\n20\n0\n11\n10\n21\n0\n")) (32 ∷ []) }
    ensures bad_vertices { HasSegmentLines (in_section (codes "0\nPOLYLINE\n70\nx\n67\n1\n0\nVERTEX\n10\nx\n20\n0\n67\nx\n0\nVERTEX\n10\n0\n20\n0\n42\n1\n0\nVERTEX\n0\nSEQEND\n67\nx\n"
        ++ codes "0\nLINE\n10\n0\n20\n0\n11\n10\n21\n0\n")) (34 ∷ []) }
    ensures no_seqend { HasSegmentLines (in_section (codes "0\nPOLYLINE\n67\n1\n0\nVERTEX\n10\nx\n20\n0\n0\nLINE\n10\n0\n20\n0\n11\n10\n21\n0\n")) (16 ∷ []) }
    ensures own_vertices { HasSegmentLines (in_section (codes "0\nPOLYLINE\n0\nVERTEX\n10\n0\n20\n0\n67\n1\n0\nVERTEX\n10\n10\n20\n0\n67\nx\n0\nSEQEND\n67\nx\n")) (8 ∷ []) }
    ensures zero_and_two { HasSegmentLines (in_section (codes "0\nLINE\n67\n0\n10\n0\n20\n0\n11\n10\n21\n0\n0\nLINE\n67\n2\n10\n10\n20\n0\n11\n0\n21\n0\n")) (6 ∷ 18 ∷ []) }
    ensures first_of_two_groups { HasSegmentLines (in_section (codes "0\nLINE\n67\n0\n67\n1\n10\n0\n20\n0\n11\n10\n21\n0\n")) (6 ∷ []) }
    ensures no_integer { read_refusal_of (in_section (codes "0\nLINE\n10\n0\n20\n0\n11\n10\n21\n0\n0\nLINE\n67\n1.0\n10\nx\n20\n0\n11\n10\n21\n0\n")) ≡ Some (NotANumber 18) }
    ensures ten_digits { read_refusal_of (in_section (codes "0\nLINE\n10\n0\n20\n0\n11\n10\n21\n0\n0\nLINE\n67\n0000000001\n10\n0\n20\n0\n11\n10\n21\n0\n")) ≡ Some (NotANumber 18) }
    ensures polyline_no_integer { read_refusal_of (in_section (codes "0\nLINE\n10\n0\n20\n0\n11\n10\n21\n0\n0\nPOLYLINE\n70\n3\n67\nx\n")) ≡ Some (NotANumber 20) }
{}

/// A vertex that belongs to no polyline is refused by its name, and such a SEQEND is skipped; but group 67 is asked of both.
pub fn loose_vertices()
    ensures vertex { read_refusal_of (in_section (codes "0\nLINE\n10\n0\n20\n0\n11\n10\n21\n0\n0\nVERTEX\n10\n5\n20\n5\n")) ≡ Some (Unsupported 16 (Named (codes "VERTEX"))) }
    ensures first { read_refusal_of (in_section (codes "0\nVERTEX\n10\n5\n20\n5\n0\nLINE\n10\n0\n20\n0\n11\n10\n21\n0\n")) ≡ Some (Unsupported 6 (Named (codes "VERTEX"))) }
    ensures bad_vertex { read_refusal_of (in_section (codes "0\nLINE\n10\n0\n20\n0\n11\n10\n21\n0\n0\nVERTEX\n10\nx\n20\ny\n")) ≡ Some (Unsupported 16 (Named (codes "VERTEX"))) }
    ensures behind_a_skipped_polyline { read_refusal_of (in_section (codes "0\nPOLYLINE\n67\n1\n0\nVERTEX\n10\n0\n20\n0\n0\nSEQEND\n0\nVERTEX\n10\n5\n20\n5\n")) ≡ Some (Unsupported 18 (Named (codes "VERTEX"))) }
    ensures seqend { HasSegmentLines (in_section (codes "0\nSEQEND\n0\nLINE\n10\n0\n20\n0\n11\n10\n21\n0\n0\nSEQEND\n10\nx\n")) (8 ∷ []) }
    ensures second_seqend { HasSegmentLines (in_section (codes "0\nPOLYLINE\n70\n1\n0\nVERTEX\n10\n0\n20\n0\n0\nVERTEX\n10\n10\n20\n0\n0\nSEQEND\n0\nSEQEND\n")) (10 ∷ 16 ∷ []) }
    ensures paper_vertex { HasSegmentLines (in_section (codes "0\nVERTEX\n10\nx\n20\n5\n67\n1\n0\nLINE\n10\n0\n20\n0\n11\n10\n21\n0\n")) (14 ∷ []) }
    ensures vertex_no_integer { read_refusal_of (in_section (codes "0\nLINE\n10\n0\n20\n0\n11\n10\n21\n0\n0\nVERTEX\n10\n5\n20\n5\n67\nx\n")) ≡ Some (NotANumber 22) }
    ensures seqend_no_integer { read_refusal_of (in_section (codes "0\nLINE\n10\n0\n20\n0\n11\n10\n21\n0\n0\nSEQEND\n67\nx\n")) ≡ Some (NotANumber 18) }
    ensures paper_seqend { HasSegmentLines (in_section (codes "0\nLINE\n10\n0\n20\n0\n11\n10\n21\n0\n0\nSEQEND\n67\n1\n")) (6 ∷ []) }
{}

/// Names of a drawing stand in its order, with their bytes as they are. They are nothing to cut.
pub fn names()
    ensures in_order { let file = in_section (codes "0\nLINE\n10\n0\n20\n0\n11\n10\n21\n0\n0\nTEXT\n10\n2.5\n20\n1\n1\n TOP  LEFT \n0\nLINE\n10\n10\n20\n0\n11\n0\n21\n0\n"
        ++ codes "0\nTEXT\n10\n3\n20\n4\n1\n\n0\n TEXT \n8\nT\n1\nfirst\n1\nsecond\n10\n7\n20\n8\n") in
        HasSegmentLines file (6 ∷ 24 ∷ [])
        × (names_of file ≡
        record { at = record { x = pos 2500; y = pos 1000 }; text = codes " TOP  LEFT "; line = 16 } ∷
        record { at = record { x = pos 3000; y = pos 4000 }; text = []; line = 34 } ∷
        record { at = record { x = pos 7000; y = pos 8000 }; text = codes "first"; line = 42 } ∷ []) }
    ensures nothing_to_cut { read_refusal_of (in_section (codes "0\nTEXT\n10\n1\n20\n1\n1\nA\n")) ≡ Some Nothing }
    ensures no_text { read_refusal_of (in_section (codes "0\nLINE\n10\n0\n20\n0\n11\n10\n21\n0\n0\nTEXT\n10\n1\n20\n1\n")) ≡ Some (Missing 16 (pos 1)) }
    ensures extrusion { read_refusal_of (in_section (codes "0\nLINE\n10\n0\n20\n0\n11\n10\n21\n0\n0\nTEXT\n10\n1\n20\n1\n1\nA\n210\n0\n220\n0\n230\n-1\n")) ≡ Some (Unsupported 16 Extrusion) }
{}

/// Refusals come in order: by the lines, then by the first entity that has one, and at last for want of a segment. Of one entity
/// group 67 comes first, then its name, then its groups.
pub fn order_of_refusals()
    ensures lines_first { read_refusal_of (in_section (codes "0\nARC\n0\nLINE\n10\nx\n20\n0\n11\n10\n21\n0\nx\ny\n")) ≡ Some (Groups (BadCode 17)) }
    ensures cut_file_first { read_refusal_of (codes "0\nSECTION\n2\nENTITIES\n0\nARC\n0\nLINE\n10\n0\n20\n0\n11\n10\n21\n0\n") ≡ Some (Groups (Truncated 17)) }
    ensures binary_first { read_refusal_of (codes "AutoCAD Binary DXF\r\n0\nSECTION\n2\nENTITIES\n0\nLINE\n10\n0\n20\n0\n11\n10\n21\n0\n0\nENDSEC\n0\nEOF\n") ≡ Some (Groups Binary) }
    ensures first_entity { read_refusal_of (in_section (codes "0\nARC\n0\nLINE\n10\nx\n20\n0\n11\n10\n21\n0\n")) ≡ Some (Unsupported 6 (Named (codes "ARC"))) }
    ensures first_entity_again { read_refusal_of (in_section (codes "0\nLINE\n10\nx\n20\n0\n11\n10\n21\n0\n0\nARC\n")) ≡ Some (NotANumber 8) }
    ensures space_before_name { read_refusal_of (in_section (codes "0\nARC\n67\nx\n")) ≡ Some (NotANumber 8) }
    ensures values_before_missing { read_refusal_of (in_section (codes "0\nLINE\n21\nx\n")) ≡ Some (NotANumber 8) }
    ensures missing_before_oddities { read_refusal_of (in_section (codes "0\nTEXT\n230\n-1\n")) ≡ Some (Missing 6 (pos 10)) }
    ensures entities_before_nothing { read_refusal_of (in_section (codes "0\nline\n10\n0\n20\n0\n11\n10\n21\n0\n")) ≡ Some (Unsupported 6 (Named (codes "line"))) }
    ensures long_name { read_refusal_of (in_section (codes "0\n  ABCDEFGHIJKLMNOPQRSTUVWXYZ ABCDEFGHIJKLMNOPQRSTUVWXYZ\n")) ≡ Some (Unsupported 6 (Named (codes "ABCDEFGHIJKLMNOPQRSTUVWXYZ ABCDE"))) }
    ensures no_name { read_refusal_of (in_section (codes "0\n \n")) ≡ Some (Unsupported 6 (Named [])) }
    ensures nothing_last { read_refusal_of (in_section (codes "0\nSEQEND\n0\nLINE\n10\n1\n20\n1\n11\n1\n21\n1\n")) ≡ Some Nothing }
{}

/// So many segments and names are kept; the next one is refused by its line, behind what else refuses its entity.
pub fn counts()
    ensures most { most_segments ≡ 20000 }
    ensures most_in_names { most_names ≡ 5000 }
    ensures full { refusal_in 2 1 (events_of (pairs_of (in_section (codes "0\nLINE\n10\n0\n20\n0\n11\n10\n21\n0\n0\nTEXT\n10\n1\n20\n1\n1\nA\n0\nLINE\n10\n10\n20\n0\n11\n0\n21\n0\n")))) ≡ None }
    ensures segments { refusal_in 1 1 (events_of (pairs_of (in_section (codes "0\nLINE\n10\n0\n20\n0\n11\n10\n21\n0\n0\nTEXT\n10\n1\n20\n1\n1\nA\n0\nLINE\n10\n10\n20\n0\n11\n0\n21\n0\n")))) ≡ Some (TooMany 24) }
    ensures names_of_the_drawing { refusal_in 2 0 (events_of (pairs_of (in_section (codes "0\nLINE\n10\n0\n20\n0\n11\n10\n21\n0\n0\nTEXT\n10\n1\n20\n1\n1\nA\n0\nLINE\n10\n10\n20\n0\n11\n0\n21\n0\n")))) ≡ Some (TooMany 16) }
    ensures no_length { refusal_in 1 0 (events_of (pairs_of (in_section (codes "0\nLINE\n10\n1\n20\n1\n11\n1\n21\n1\n0\nLINE\n10\n0\n20\n0\n11\n10\n21\n0\n0\nLINE\n10\n2\n20\n2\n11\n2\n21\n2\n")))) ≡ None }
    ensures second_segment { refusal_in 1 0 (events_of (pairs_of (in_section (codes "0\nPOLYLINE\n70\n1\n0\nVERTEX\n10\n0\n20\n0\n0\nVERTEX\n10\n10\n20\n0\n0\nVERTEX\n10\n0\n20\n10\n")))) ≡ Some (TooMany 16) }
    ensures closing_segment { refusal_in 2 0 (events_of (pairs_of (in_section (codes "0\nPOLYLINE\n70\n1\n0\nVERTEX\n10\n0\n20\n0\n0\nVERTEX\n10\n10\n20\n0\n0\nVERTEX\n10\n0\n20\n10\n0\nARC\n67\nx\n")))) ≡ Some (TooMany 22) }
    ensures room_for_the_closing_segment { refusal_in 3 0 (events_of (pairs_of (in_section (codes "0\nPOLYLINE\n70\n1\n0\nVERTEX\n10\n0\n20\n0\n0\nVERTEX\n10\n10\n20\n0\n0\nVERTEX\n10\n0\n20\n10\n0\nARC\n67\nx\n")))) ≡ Some (NotANumber 30) }
    ensures refused_vertex { refusal_in 0 0 (events_of (pairs_of (in_section (codes "0\nPOLYLINE\n0\nVERTEX\n10\n0\n20\n0\n0\nVERTEX\n10\n10\n20\n0\n42\n1\n")))) ≡ Some (Unsupported 14 Bulge) }
{}

/// Group codes are compared as numbers, and only a CR directly before LF belongs to the end of its line.
pub fn lines_and_pairs()
    ensures zeros { HasSegmentLines (codes "-0\nSECTION\n0002\nENTITIES\n00\nLINE\n10\n0\n 020\t\n0\n11\n10\n21\n0\n0000\nEOF\n") (6 ∷ []) }
    ensures comment { HasSegmentLines (codes "0\nSECTION\n0999\nx\n2\nENTITIES\n0\nLINE\n10\n0\n20\n0\n11\n10\n21\n0\n0\nENDSEC\n0\nEOF\n") (8 ∷ []) }
    ensures no_comment { read_refusal_of (codes "0\nSECTION\n-999\nx\n2\nENTITIES\n0\nLINE\n10\n0\n20\n0\n11\n10\n21\n0\n0\nENDSEC\n0\nEOF\n") ≡ Some Nothing }
    ensures plus { read_refusal_of (in_section (codes "0\nLINE\n10\n0\n20\n0\n11\n10\n21\n0\n+0\nLINE\n")) ≡ Some (Groups (BadCode 15)) }
    ensures five_digits { read_refusal_of (in_section (codes "0\nLINE\n10\n0\n20\n0\n11\n10\n21\n0\n00000\nLINE\n")) ≡ Some (Groups (BadCode 15)) }
    ensures unended_line { read_refusal_of (codes "0\nSECTION\n2\nENTITIES\n0\nLINE\n10\n0\n20\n0\n11\n10\n21\n0\n0\nEOF") ≡ None }
    ensures unended_line_with_cr { read_refusal_of (codes "0\nSECTION\n2\nENTITIES\n0\nLINE\n10\n0\n20\n0\n11\n10\n21\n0\n0\r\nEOF\r") ≡ Some (Groups (Truncated 17)) }
    ensures empty { read_refusal_of [] ≡ Some (Groups (Truncated 1)) }
    ensures cut { read_refusal_of (codes "0\nSECTION\n2\nENTITIES\n0\nLINE\n8\n0\n10\n0.0\n20\n0.0\n11\n10.0\n21\n0.0\n" ++ three_lines ++ codes "0\nENDSEC\n") ≡ Some (Groups (Truncated 55)) }
    ensures no_code { read_refusal_of (in_section (codes "0\nLINE\n1x\n0\n10\n0.0\n20\n0.0\n11\n10.0\n21\n0.0\n" ++ three_lines)) ≡ Some (Groups (BadCode 7)) }
    ensures too_long { read_refusal_of (codes "0\nSECTION\n2\nENTITIES\n0\nLINE\n8\n"
        ++ replicate 4097 48
        ++ codes "\n10\n0.0\n20\n0.0\n11\n10.0\n21\n0.0\n" ++ three_lines ++ codes "0\nENDSEC\n0\nEOF\n") ≡ Some (Groups (LineTooLong 8)) }
    ensures long_enough { read_refusal_of (codes "0\nSECTION\n2\nENTITIES\n0\nLINE\n8\n"
        ++ replicate 4096 48
        ++ codes "\r\n10\n0.0\n20\n0.0\n11\n10.0\n21\n0.0\n" ++ three_lines ++ codes "0\nENDSEC\n0\nEOF\n") ≡ None }
    ensures too_long_with_cr { read_refusal_of (codes "0\nSECTION\n2\nENTITIES\n0\nLINE\n10\n0\n20\n0\n11\n10\n21\n0\n8\n"
        ++ replicate 4096 48
        ++ codes "\r") ≡ Some (Groups (LineTooLong 16)) }
{}
