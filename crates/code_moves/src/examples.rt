//! Worked examples of code: what it means, and why it is refused.
//!
//! Each clause is computed from the definitions. The functions do nothing.
#![tactic(auto, unfolding(crate::specs::Meaning::moves_of, crate::specs::Meaning::code_refusal_of))]

ghost use Rattle.std.specs.Prelude.{◌≡◌, [], ◌∷◌, ◌++◌, None, Some, true, false, codes, negsuc, pos, replicate};
ghost use Rattle.code_moves.specs.BurntChains.{burnt_legs};
ghost use Rattle.code_moves.specs.CodeText.{code_text};
ghost use Rattle.code_moves.specs.Meaning.{code_refusal_of, moves_of};
ghost use Rattle.code_moves.specs.Square.{point_at, move, south_west, north_west, square_chain, square_code, square_moves, led_in_code, led_in_moves};
ghost use Rattle.code_moves.specs.declared.faults.CodeError.TheVariants.{BadLine, UnknownWord, TooFar, NoEnd};

/// The code of the square is written line by line, has no fault, and burns the four sides after one way to its first corner.
pub fn square_code()
    ensures text { code_text (square_chain ∷ []) ≡ square_code }
    ensures accepted { code_refusal_of square_code ≡ None }
    ensures moves { moves_of square_code ≡ square_moves }
{}

/// A lead-in that begins at the chain's first vertex has a line of its own, and no move: the first side is the fresh one. A chain
/// whose places are all one burns the spot.
pub fn lead_in_at_the_first_vertex()
    ensures text { code_text ((north_west ∷ square_chain) ∷ []) ≡ led_in_code }
    ensures accepted { code_refusal_of led_in_code ≡ None }
    ensures moves { moves_of led_in_code ≡ led_in_moves }
    ensures burnt { burnt_legs (north_west ∷ square_chain) ≡ burnt_legs square_chain }
    ensures spot { moves_of (codes "G21 G90\nF1000 S1\nG0 X0.000 Y10.000\nM3\nG1 X0.000 Y10.000\nM5\nM2\n") ≡
        move south_west north_west false false 3 ∷ move north_west north_west true true 6 ∷ [] }
{}

/// Small letters, comments, leading zeros, relative places, and `%` as the end.
pub fn free_forms()
    ensures accepted { code_refusal_of (codes "%\nN12345 g21 (cut)\nF1000S1\ng0x4 y+12.\nM03\nG01 X0 Y10.0000\ng91\nx-.5\n%\n") ≡ None }
    ensures moves { moves_of (codes "%\nN12345 g21 (cut)\nF1000S1\ng0x4 y+12.\nM03\nG01 X0 Y10.0000\ng91\nx-.5\n%\n") ≡
        move south_west (point_at 4000 12000) false false 4 ∷ move (point_at 4000 12000) (point_at 0 10000) true true 6
        ∷ move (point_at 0 10000) (record { x = negsuc 499; y = pos 10000 }) true false 8 ∷ [] }
    ensures idle { code_refusal_of (codes "G17 G17 G40 G49 G94 M02") ≡ None }
    ensures dwell { code_refusal_of (codes "G4 P5.5 M30") ≡ None }
    ensures negative_zero { code_refusal_of (codes "F-0.0 M2") ≡ None }
    ensures motion_on_the_line { code_refusal_of (codes "X1 G0 M2") ≡ None }
    ensures after_the_end { code_refusal_of (codes "M2\n?!") ≡ None }
    ensures late_mark { code_refusal_of (codes "\n(c)\n%\n%\n%%") ≡ None }
    ensures at_most_256_bytes { code_refusal_of (codes "M2" ++ replicate 254 32) ≡ None }
{}

/// A lighting that burns nothing gives one move on the spot: before the line's move where M5 ends it, after it where the program ends.
pub fn lightings_without_a_move()
    ensures by_the_end { moves_of (codes "M3 M2") ≡ move south_west south_west true true 1 ∷ [] }
    ensures before { moves_of (codes "M3\nG0 X1 M5\nM3 G1 X0\nX0 M2") ≡
        move south_west south_west true true 2 ∷ move south_west (point_at 1000 0) false false 2 ∷ move (point_at 1000 0) south_west true true 3 ∷ [] }
    ensures after { moves_of (codes "G0 X1\nM3 M2") ≡ move south_west (point_at 1000 0) false false 1 ∷ move (point_at 1000 0) (point_at 1000 0) true true 2 ∷ [] }
    ensures fresh_again { moves_of (codes "G0 M3 X1\nM3 X2\nM5\nM3 X3 M2") ≡
        move south_west (point_at 1000 0) true true 1 ∷ move (point_at 1000 0) (point_at 2000 0) true false 2 ∷ move (point_at 2000 0) (point_at 3000 0) true true 4 ∷ [] }
{}

/// Lines that are no lists of words, or whose words contradict one another.
pub fn bad_lines()
    ensures comment_in_a_comment { code_refusal_of (codes "G21 (a(b)\nM2\n") ≡ Some (BadLine 1) }
    ensures late_mark { code_refusal_of (codes "G21\n%\n") ≡ Some (BadLine 2) }
    ensures bare_return { code_refusal_of (codes "M2" ++ 13 ∷ []) ≡ Some (BadLine 1) }
    ensures more_than_256_bytes { code_refusal_of (codes "M2" ++ replicate 255 32) ≡ Some (BadLine 1) }
    ensures long_label { code_refusal_of (codes "N123456\nM2") ≡ Some (BadLine 1) }
    ensures late_label { code_refusal_of (codes "M2 N1") ≡ Some (BadLine 1) }
    ensures dwell_without_time { code_refusal_of (codes "G4 M30") ≡ Some (BadLine 1) }
    ensures time_without_dwell { code_refusal_of (codes "P5 M30") ≡ Some (BadLine 1) }
    ensures negative { code_refusal_of (codes "F0 S-1 M2") ≡ Some (BadLine 1) }
    ensures no_motion { code_refusal_of (codes "X1 M2") ≡ Some (BadLine 1) }
    ensures two_of_a_group { code_refusal_of (codes "M3 M5 M2") ≡ Some (BadLine 1) }
    ensures before_unknown { code_refusal_of (codes "G21\nG2 X1\nM2\n") ≡ Some (BadLine 2) }
{}

/// Words without a meaning, places too far away, and code that doesn't end.
pub fn other_faults()
    ensures arc { code_refusal_of (codes "G21\nG1\nG2 X1\nM2\n") ≡ Some (UnknownWord 3) }
    ensures point { code_refusal_of (codes "G1. M2") ≡ Some (UnknownWord 1) }
    ensures exponent { code_refusal_of (codes "G1 X1E5 M2") ≡ Some (UnknownWord 1) }
    ensures at_the_range { code_refusal_of (codes "G0 X100010\nM2") ≡ None }
    ensures far { code_refusal_of (codes "G0 X100010.001\nM2") ≡ Some (TooFar 1) }
    ensures far_by_steps { code_refusal_of (codes "G91 G0 X100010\nX-.001\nX.002\nM2") ≡ Some (TooFar 3) }
    ensures no_end { code_refusal_of (codes "G21\nG90\n") ≡ Some (NoEnd 3) }
    ensures nothing { code_refusal_of [] ≡ Some (NoEnd 1) }
{}
