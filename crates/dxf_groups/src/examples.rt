//! Worked examples of drawings: their pairs, and why they are refused.
//!
//! Each clause is computed from the definitions. The functions do nothing.
#![tactic(auto, unfolding(crate::specs::Pairs::code_of, crate::specs::Pairs::read_pairs, crate::specs::Taking::reading_so_far))]

ghost use Rattle.std.specs.Prelude.{◌≡◌, [], ◌∷◌, ◌++◌, None, Some, codes, negsuc, pos, replicate};
ghost use Rattle.dxf_groups.specs.Pairs.{code_of, pairs_of, group_refusal_of};
ghost use Rattle.dxf_groups.specs.Taking.{found_at, found_at_end, found_last, completed, completed_by_end};
ghost use Rattle.dxf_groups.specs.declared.answers.GroupError.TheVariants.{Binary, BadCode, LineTooLong, Truncated};
ghost use Rattle.dxf_groups.specs.declared.answers.Found.TheVariants.{More, Pair, Done, Refused};

/// The drawing of one line gives its pairs, and its end tells that nothing is missing.
pub fn drawing_of_a_line()
    ensures pairs { pairs_of (codes "0\nSECTION\n2\nENTITIES\n0\nLINE\n8\n0\n10\n0.0\n20\n0.0\n11\n10.0\n21\n0.0\n0\nENDSEC\n0\nEOF\n") ≡
        record { code = pos 0; value = codes "SECTION"; line = 2 } ∷ record { code = pos 2; value = codes "ENTITIES"; line = 4 }
        ∷ record { code = pos 0; value = codes "LINE"; line = 6 } ∷ record { code = pos 8; value = codes "0"; line = 8 }
        ∷ record { code = pos 10; value = codes "0.0"; line = 10 } ∷ record { code = pos 20; value = codes "0.0"; line = 12 }
        ∷ record { code = pos 11; value = codes "10.0"; line = 14 } ∷ record { code = pos 21; value = codes "0.0"; line = 16 }
        ∷ record { code = pos 0; value = codes "ENDSEC"; line = 18 } ∷ record { code = pos 0; value = codes "EOF"; line = 20 } ∷ [] }
    ensures accepted { group_refusal_of (codes "0\nSECTION\n2\nENTITIES\n0\nENDSEC\n0\nEOF\n") ≡ None }
    ensures code { found_at (codes "0\nLINE\n8\n") ≡ More }
    ensures value { found_at (codes "0\nLINE\n8\nCUT\n") ≡ Pair (pos 8) 4 }
    ensures last_pair { found_at (codes "0\nLINE\n0\nEOF\n") ≡ Pair (pos 0) 4 }
    ensures behind { found_at (codes "0\nLINE\n0\nEOF\n?") ≡ Done }
    ensures far_behind { group_refusal_of (codes "0\nLINE\n0\nEOF\n?\n?\n") ≡ None }
    ensures at_the_end { found_at_end (codes "0\nLINE\n0\nEOF\n") ≡ Done }
{}

/// Drawings that stop early name the first line that isn't there.
pub fn cut_drawings()
    ensures nothing { group_refusal_of [] ≡ Some (Truncated 1) }
    ensures code { group_refusal_of (codes "0") ≡ Some (Truncated 2) }
    ensures ended_code { group_refusal_of (codes "0\n") ≡ Some (Truncated 2) }
    ensures empty_value { group_refusal_of (codes "0\n\n") ≡ Some (Truncated 3) }
    ensures no_end { group_refusal_of (codes "0\nSECTION\n0\nENDSEC\n") ≡ Some (Truncated 5) }
    ensures not_the_end { group_refusal_of (codes "1\nEOF\n0\neof\n0\nEO F\n999\nEOF\n") ≡ Some (Truncated 9) }
    ensures kept { pairs_of (codes "0\nLINE\n8\nCUT") ≡
        record { code = pos 0; value = codes "LINE"; line = 2 } ∷ record { code = pos 8; value = codes "CUT"; line = 4 } ∷ [] }
    ensures given_last { found_at_end (codes "0\nLINE\n8\nCUT") ≡ Pair (pos 8) 4 }
    ensures then_missing { found_last (codes "0\nLINE\n8\nCUT") ≡ Refused }
    ensures missing { found_at_end (codes "0\nLINE\n8\n") ≡ Refused }
    ensures last_pair { found_at_end (codes "0\nEOF") ≡ Pair (pos 0) 2 }
    ensures then_whole { found_last (codes "0\nEOF") ≡ Done }
    ensures no_code { group_refusal_of (codes "x") ≡ Some (BadCode 1) }
{}

/// A group code is up to four digits, with blanks and tabs around them and a minus before them.
pub fn group_codes()
    ensures zeros { code_of (codes "0000") ≡ Some (pos 0) }
    ensures negative_zero { code_of (codes "-0") ≡ Some (pos 0) }
    ensures blanks { code_of (codes " \t62\t ") ≡ Some (pos 62) }
    ensures most { code_of (codes "9999") ≡ Some (pos 9999) }
    ensures least { code_of (codes "-9999") ≡ Some (negsuc 9998) }
    ensures five_digits { code_of (codes "00000") ≡ None }
    ensures five_digits_behind_a_minus { code_of (codes "-12345") ≡ None }
    ensures plus { code_of (codes "+0") ≡ None }
    ensures minus_alone { code_of (codes "-") ≡ None }
    ensures two_minuses { code_of (codes "--1") ≡ None }
    ensures blank_inside { code_of (codes "- 1") ≡ None }
    ensures blank_alone { code_of (codes " ") ≡ None }
    ensures empty { code_of [] ≡ None }
    ensures letter { group_refusal_of (codes "0\nLINE\n1x\n0\n") ≡ Some (BadCode 3) }
    ensures with_its_end { found_at (codes "0\nLINE\n1x\n") ≡ Refused }
    ensures not_before { found_at (codes "0\nLINE\n1x") ≡ More }
    ensures before_it { pairs_of (codes "0\nLINE\n1x\n0\nEOF\n") ≡ record { code = pos 0; value = codes "LINE"; line = 2 } ∷ [] }
{}

/// Comments are dropped, and their lines are counted.
pub fn comments()
    ensures dropped { pairs_of (codes "999\nby hand\n0\nLINE\n0999\n\n0\nEOF\n") ≡
        record { code = pos 0; value = codes "LINE"; line = 4 } ∷ record { code = pos 0; value = codes "EOF"; line = 8 } ∷ [] }
    ensures found { found_at (codes "999\nby hand\n") ≡ More }
    ensures not_given { completed (codes "999\nby hand\n") ≡ None }
    ensures not_given_last { completed_by_end (codes "999\nby hand") ≡ None }
    ensures negative { found_at (codes "-999\nby hand\n") ≡ Pair (negsuc 998) 2 }
    ensures no_end { group_refusal_of (codes "999\nEOF\n") ≡ Some (Truncated 3) }
    ensures its_value_is_no_code { group_refusal_of (codes "999\n?\n0\nEOF\n") ≡ None }
{}

/// A drawing that begins with the eighteen bytes of a binary one is refused with the last of them.
pub fn binary_drawings()
    ensures all { found_at (codes "AutoCAD Binary DXF") ≡ Refused }
    ensures binary { group_refusal_of (codes "AutoCAD Binary DXF\n0\nEOF\n") ≡ Some Binary }
    ensures no_pairs { pairs_of (codes "AutoCAD Binary DXF\n0\nEOF\n") ≡ [] }
    ensures one_less { found_at (codes "AutoCAD Binary DX") ≡ More }
    ensures ended_one_less { group_refusal_of (codes "AutoCAD Binary DX") ≡ Some (BadCode 1) }
    ensures other_last { group_refusal_of (codes "AutoCAD Binary DXf\n") ≡ Some (BadCode 1) }
    ensures other_first { group_refusal_of (codes " AutoCAD Binary DXF\n") ≡ Some (BadCode 1) }
    ensures later { found_at (codes "0\nAutoCAD Binary DXF\n") ≡ Pair (pos 0) 2 }
{}

/// One CR belongs to an end of a line, directly before its LF and nowhere else.
pub fn line_ends()
    ensures both { pairs_of (codes " 0\r\n LINE \r\n8\n\r\n0\r\nEOF\n") ≡
        record { code = pos 0; value = codes " LINE "; line = 2 } ∷ record { code = pos 8; value = []; line = 4 }
        ∷ record { code = pos 0; value = codes "EOF"; line = 6 } ∷ [] }
    ensures inside { pairs_of (codes "1\n\rA\rB\r\r\n") ≡ record { code = pos 1; value = codes "\rA\rB\r"; line = 2 } ∷ [] }
    ensures alone { group_refusal_of (codes "0\rEOF\r") ≡ Some (BadCode 1) }
    ensures blanks_around_the_end { group_refusal_of (codes "\t0 \r\n EOF\t\r\n") ≡ None }
    ensures unended { group_refusal_of (codes "0\nEOF") ≡ None }
    ensures unended_with_a_return { group_refusal_of (codes "0\nEOF\r") ≡ Some (Truncated 3) }
    ensures its_value { pairs_of (codes "0\nEOF\r") ≡ record { code = pos 0; value = codes "EOF\r"; line = 2 } ∷ [] }
{}

/// A line has at most 4,096 bytes without its end.
pub fn long_lines()
    ensures longest { group_refusal_of (codes "0\nEOF" ++ replicate 4093 32) ≡ None }
    ensures longest_with_its_end { group_refusal_of (codes "0\nEOF" ++ replicate 4093 32 ++ codes "\r\n") ≡ None }
    ensures longer { group_refusal_of (codes "0\nEOF" ++ replicate 4094 32) ≡ Some (LineTooLong 2) }
    ensures longer_with_its_end { group_refusal_of (codes "0\nEOF" ++ replicate 4094 32 ++ codes "\r\n") ≡ Some (LineTooLong 2) }
    ensures unended_with_a_return { group_refusal_of (codes "0\nEOF" ++ replicate 4093 32 ++ codes "\r") ≡ Some (LineTooLong 2) }
    ensures not_before { found_at (codes "0\nEOF" ++ replicate 4093 32 ++ codes "\r") ≡ More }
    ensures at_once { found_at (codes "0\nEOF" ++ replicate 4094 32) ≡ Refused }
    ensures behind_a_return { found_at (codes "0\nEOF" ++ replicate 4093 32 ++ codes "\r\r") ≡ Refused }
    ensures before_no_code { group_refusal_of (replicate 4097 120 ++ codes "\n") ≡ Some (LineTooLong 1) }
    ensures no_code { group_refusal_of (replicate 4096 120 ++ codes "\n") ≡ Some (BadCode 1) }
{}
