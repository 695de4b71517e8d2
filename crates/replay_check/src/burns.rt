//! What edge moves burn, and the first that burns an edge again.
ghost use Rattle.std.specs.Prelude.{◌≡◌, ◌*◌, ◌<◌, [], List, All, AllPairs, IfOk, IfSome, IfNone, length};
ghost use Rattle.std.specs.List.{AllZip};
ghost use Rattle.nest_base.specs.declared.places.Edge.{Edge};
ghost use Rattle.half_edges.specs.Burns.{AreFlagsOf, AreOfTwoEdges};
ghost use Rattle.replay_check.specs.Kinds.{IsKind};
ghost use Rattle.replay_check.specs.Burning.{AreBurnt, burnt_sides, IsFirstAgain};

use crate::kinds::Kind;
use code_moves::Move;
use nest_base::{OutOfMemory, Side};
use std::alloc::Global;

/// An edge that is burnt, by the half-edge that the move goes along, and the number of its line.
#[derive(Clone, Copy, Debug, PartialEq, Eq, Drop)]
pub struct Burn {
    pub side: Side,
    pub line: u32,
}

/// What the edge moves burn, in order.
pub fn burns_of(alloc: Global, moves: &[Move], kinds: &[Kind]) -> Result<Vec<Burn>, OutOfMemory>
    ensures { IfOk result (λ burns. (edges : List Edge) → AllZip (IsKind edges) moves.now kinds.now → AreBurnt edges moves.now burns.items) }
{
    let mut burns = Vec::new(alloc);
    for (step, kind) in moves.iter().zip(kinds) {
        let Kind::OnEdge(side) = *kind else {
            continue;
        };
        burns.push(Burn {
            side,
            line: step.line,
        })?;
    }
    Ok(burns)
}

/// Notes each edge that burns, and answers the line of the first that is burnt again.
pub fn burn_each(burns: &[Burn], is_burnt: &mut [bool]) -> Option<u32>
    requires none_burnt { AreFlagsOf is_burnt.old [] }
    requires within { All (λ s. s < 2 * length is_burnt.old) (burnt_sides burns.now) }
    ensures again { IfSome result (IsFirstAgain burns.now) }
    ensures once { IfNone result (AllPairs AreOfTwoEdges (burnt_sides burns.now)) }
    ensures flags { IfNone result (AreFlagsOf is_burnt.new (burnt_sides burns.now)) }
{
    for burn in burns {
        let edge = (burn.side.0 / 2) as usize;
        if is_burnt[edge] {
            return Some(burn.line);
        }
        is_burnt[edge] = true;
    }
    None
}
