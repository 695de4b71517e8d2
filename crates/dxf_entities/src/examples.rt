//! Worked examples of entities: why they're refused, where they lie, and what they hold.
//!
//! Each clause is computed from the definitions. The functions do nothing.
ghost use Rattle.std.specs.Prelude.{◌≡◌, [], ◌∷◌, ◌++◌, None, Some, true, false, codes, negsuc, pos};
ghost use Rattle.dxf_entities.specs.Entities.{entities_of, label_of, opens_section, closes_section};
ghost use Rattle.dxf_entities.specs.Examples.{entity, pairs_at, a_line, line_with, polyline_with, vertex_with, a_text};
ghost use Rattle.dxf_entities.specs.Refusals.{groups_refusal, name_refusal, space_of};
ghost use Rattle.dxf_entities.specs.Values.{start_of, second_end_of, is_closed, text_of};
ghost use Rattle.dxf_entities.specs.declared.error.DrawingError.TheVariants.{NotANumber, TooFar, Missing, Unsupported};
ghost use Rattle.dxf_entities.specs.declared.error.Kind.TheVariants.{Entity as Named, Flags, Bulge, Extrusion};
ghost use Rattle.dxf_entities.specs.declared.space.Space.TheVariants.{Paper, Own, Unclear};

/// A LINE has two ends; of two groups with one code the first counts, and groups that it doesn't use aren't looked at.
pub fn lines()
    ensures accepted { groups_refusal a_line ≡ None }
    ensures start { start_of a_line ≡ record { x = pos 1500; y = negsuc 1999 } }
    ensures end { second_end_of a_line ≡ record { x = pos 30000; y = pos 1 } }
    ensures first_of_two { start_of (line_with ((10, codes "5") ∷ [])) ≡ record { x = pos 1000; y = pos 2000 } }
    ensures second_unread { groups_refusal (line_with ((10, codes "x") ∷ [])) ≡ None }
    ensures height_unread { groups_refusal (entity (codes "LINE") ((10, codes "1") ∷ (20, codes "2") ∷ (30, codes "x") ∷ (11, codes "3") ∷ (21, codes "4") ∷ [])) ≡ None }
    ensures extrusion_unread { groups_refusal (line_with ((230, codes "-1") ∷ [])) ≡ None }
    ensures up_to_the_range { groups_refusal (entity (codes "LINE") ((10, codes "100000.0004") ∷ (20, codes "-100000") ∷ (11, codes "3") ∷ (21, codes "4") ∷ [])) ≡ None }
{}

/// Values that can't be read come first, by their lines, then a group that is missing.
pub fn refused_values()
    ensures far { groups_refusal (entity (codes "LINE") ((10, codes "100000.001") ∷ (20, codes "2") ∷ (11, codes "x") ∷ (21, codes "4") ∷ [])) ≡ Some (TooFar 4) }
    ensures not_a_number { groups_refusal (entity (codes "LINE") ((10, codes "1") ∷ (20, codes "2,5") ∷ (11, codes "3") ∷ [])) ≡ Some (NotANumber 6) }
    ensures first_by_line { groups_refusal (entity (codes "LINE") ((21, codes "x") ∷ (10, codes "y") ∷ [])) ≡ Some (NotANumber 4) }
    ensures missing { groups_refusal (entity (codes "LINE") ((10, codes "1") ∷ (20, codes "2") ∷ (11, codes "3") ∷ [])) ≡ Some (Missing 2 (pos 21)) }
    ensures first_missing { groups_refusal (entity (codes "TEXT") ((20, codes "2") ∷ (230, codes "-1") ∷ [])) ≡ Some (Missing 2 (pos 10)) }
    ensures missing_text { groups_refusal (entity (codes "TEXT") ((10, codes "1") ∷ (20, codes "2") ∷ [])) ≡ Some (Missing 2 (pos 1)) }
    ensures flags_with_a_point { groups_refusal (polyline_with ((70, codes "1.0") ∷ [])) ≡ Some (NotANumber 4) }
    ensures empty_bulge { groups_refusal (entity (codes "VERTEX") ((42, codes "") ∷ (10, codes "x") ∷ [])) ≡ Some (NotANumber 4) }
{}

/// Flags of a polyline: bit 1 closes it, and the bits 2, 4, 8, 16 and 64 aren't planned; negative ones have the bits of two's complement.
pub fn polylines()
    ensures no_flags { groups_refusal (polyline_with []) ≡ None }
    ensures open { is_closed (polyline_with []) ≡ false }
    ensures one { groups_refusal (polyline_with ((70, codes " 1") ∷ [])) ≡ None }
    ensures closed { is_closed (polyline_with ((70, codes " 1") ∷ [])) ≡ true }
    ensures two { groups_refusal (polyline_with ((70, codes "2") ∷ [])) ≡ Some (Unsupported 2 (Flags (pos 2))) }
    ensures all_bits { groups_refusal (polyline_with ((70, codes "-1") ∷ [])) ≡ Some (Unsupported 2 (Flags (negsuc 0))) }
    ensures other_bits { groups_refusal (polyline_with ((70, codes "-128") ∷ [])) ≡ None }
    ensures before_extrusion { groups_refusal (polyline_with ((230, codes "-1") ∷ (70, codes "64") ∷ [])) ≡ Some (Unsupported 2 (Flags (pos 64))) }
    ensures flat { groups_refusal (polyline_with ((210, codes "0.0") ∷ (220, codes "-0") ∷ (230, codes "10E-1") ∷ [])) ≡ None }
    ensures turned_over { groups_refusal (polyline_with ((210, codes "0") ∷ (220, codes "0") ∷ (230, codes "-1") ∷ [])) ≡ Some (Unsupported 2 Extrusion) }
    ensures tilted { groups_refusal (polyline_with ((210, codes "1E-30") ∷ [])) ≡ Some (Unsupported 2 Extrusion) }
    ensures straight { groups_refusal (vertex_with ((42, codes "0.0") ∷ [])) ≡ None }
    ensures bent { groups_refusal (vertex_with ((42, codes "0.5") ∷ [])) ≡ Some (Unsupported 2 Bulge) }
    ensures bent_without_a_place { groups_refusal (entity (codes "VERTEX") ((10, codes "1") ∷ (42, codes "0.5") ∷ [])) ≡ Some (Missing 2 (pos 20)) }
{}

/// A TEXT has a place and its bytes as they stand; any other name is refused with its first 32 bytes.
pub fn texts_and_names()
    ensures accepted { groups_refusal a_text ≡ None }
    ensures place { start_of a_text ≡ record { x = pos 5000; y = pos 5000 } }
    ensures text { text_of a_text ≡ codes " BRACKET " }
    ensures turned_over { groups_refusal (entity (codes "TEXT") ((10, codes "5") ∷ (20, codes "5") ∷ (1, []) ∷ (230, codes "-1") ∷ [])) ≡ Some (Unsupported 2 Extrusion) }
    ensures arc { name_refusal (entity (9 ∷ codes " ARC") []) ≡ Unsupported 2 (Named (codes "ARC")) }
    ensures small_letters { name_refusal (entity (codes "line") []) ≡ Unsupported 2 (Named (codes "line")) }
    ensures long_name { label_of (entity (codes "  ABCDEFGHIJKLMNOPQRSTUVWXYZ ABCDEFGHIJKLMNOPQRSTUVWXYZ") []) ≡ codes "ABCDEFGHIJKLMNOPQRSTUVWXYZ ABCDE" }
{}

/// Group 67 tells where an entity lies, whatever its other groups hold.
pub fn spaces()
    ensures own { space_of (entity (codes "LINE") []) ≡ Own }
    ensures zero { space_of (entity (codes "LINE") ((67, codes "0") ∷ (67, codes "1") ∷ [])) ≡ Own }
    ensures paper { space_of (entity (codes "LINE") ((10, codes "x") ∷ (67, codes " +1") ∷ [])) ≡ Paper }
    ensures two { space_of (entity (codes "LINE") ((67, codes "2") ∷ [])) ≡ Own }
    ensures no_integer { space_of (entity (codes "LINE") ((8, codes "0") ∷ (67, codes "x") ∷ [])) ≡ Unclear 6 }
    ensures ten_digits { space_of (entity (codes "LINE") ((67, codes "0000000001") ∷ [])) ≡ Unclear 4 }
{}

/// Where entities begin and end, and which of them open and close an ENTITIES section.
pub fn sections()
    ensures entities { entities_of (pairs_at 2 ((9, codes "$EXTMIN") ∷ (0, codes "A") ∷ (1, codes "b") ∷ (0, codes "C") ∷ (0, codes "EOF") ∷ [])) ≡
        record { head = record { code = pos 0; value = codes "A"; line = 4 }; rest = record { code = pos 1; value = codes "b"; line = 6 } ∷ [] }
        ∷ record { head = record { code = pos 0; value = codes "C"; line = 8 }; rest = [] } ∷ record { head = record { code = pos 0; value = codes "EOF"; line = 10 }; rest = [] } ∷ [] }
    ensures opens { opens_section (entity (codes "SECTION") ((2, codes " ENTITIES") ∷ [])) ≡ true }
    ensures other_section { opens_section (entity (codes "SECTION") ((2, codes "BLOCKS") ∷ [])) ≡ false }
    ensures not_directly { opens_section (entity (codes "SECTION") ((8, codes "0") ∷ (2, codes "ENTITIES") ∷ [])) ≡ false }
    ensures closes { closes_section (entity (codes "ENDSEC") []) ≡ true }
    ensures closes_at_the_end { closes_section (entity (codes "EOF") []) ≡ true }
{}
