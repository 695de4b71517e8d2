//! Half-edges by number.
ghost use Rattle.std.specs.Prelude.{◌≡◌};
ghost use Rattle.rotation_systems.specs.Twins.{twin_number};

use nest_base::Side;

/// The other half-edge of the edge of a half-edge.
pub fn twin_of(s: Side) -> Side
    ensures { result.0 ≡ twin_number s.0 }
{
    Side(if s.0 % 2 == 0 { s.0 + 1 } else { s.0 - 1 })
}
