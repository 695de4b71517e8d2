//! The first move of a kind, and how many begin a lighting.
ghost use Rattle.std.specs.Prelude.{◌≡◌, ◌<◌, ◌≤◌, ℕ, List, Contains, IfSome, IfNone, IsTrue, length, Some, slice_get};
ghost use Rattle.std.specs.List.{AllZip};
ghost use Rattle.nest_base.specs.declared.places.Edge.{Edge};
ghost use Rattle.nest_base.specs.Selection.{HasCount};
ghost use Rattle.code_moves.specs.declared.moves.Move.{Move};
ghost use Rattle.ngc_meaning.specs.CodeMoves.{most_moves};
ghost use Rattle.replay_check.specs.Kinds.{IsKind};
ghost use Rattle.replay_check.specs.Verdicts.{StraysOff, BurnsPart, IsFirst, HoldsNowhere};

use crate::kinds::Kind;
use code_moves::Move;

/// The place of the first of these kinds that is the wanted one.
fn place_of(kinds: &[Kind], wanted: Kind) -> Option<usize>
    ensures found { IfSome result (λ i. slice_get kinds.now i ≡ Some wanted) }
    ensures first { IfSome result (λ i. (j : ℕ) → j < i → slice_get kinds.now j ≡ Some wanted → ⊥) }
    ensures none { IfNone result (Contains kinds.now wanted → ⊥) }
{
    kinds.iter().position(|kind| *kind == wanted)
}

/// The line of the first move that strays off the drawing.
pub fn first_off(moves: &[Move], kinds: &[Kind]) -> Option<u32>
    ensures found { IfSome result (λ line. (edges : List Edge) → AllZip (IsKind edges) moves.now kinds.now → IsFirst (StraysOff edges) moves.now line) }
    ensures none { IfNone result ((edges : List Edge) → AllZip (IsKind edges) moves.now kinds.now → HoldsNowhere (StraysOff edges) moves.now) }
{
    let i = place_of(kinds, Kind::Off)?;
    Some(moves.get(i)?.line)
}

/// The line of the first move that goes along an edge and isn't one whole edge.
pub fn first_along(moves: &[Move], kinds: &[Kind]) -> Option<u32>
    ensures found { IfSome result (λ line. (edges : List Edge) → AllZip (IsKind edges) moves.now kinds.now → IsFirst (BurnsPart edges) moves.now line) }
    ensures none { IfNone result ((edges : List Edge) → AllZip (IsKind edges) moves.now kinds.now → HoldsNowhere (BurnsPart edges) moves.now) }
{
    let i = place_of(kinds, Kind::Along)?;
    Some(moves.get(i)?.line)
}

/// How many moves begin a lighting.
pub fn pierces(moves: &[Move]) -> u32
    requires { length moves.now ≤ most_moves }
    ensures { HasCount (λ m. IsTrue m.fresh) moves.now result }
{
    let mut count = 0;
    for step in moves {
        if step.fresh {
            count += 1;
        }
    }
    count
}
