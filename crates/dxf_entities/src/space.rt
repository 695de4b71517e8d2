//! Where an entity lies: in the drawing itself, or on the paper around it.
ghost use Rattle.std.specs.Prelude.{◌≡◌, ℤ};
ghost use Rattle.dxf_entities.specs.Refusals.{space_at as space_by_pair};

use micron_decimals::read_integer;

/// Where an entity lies, as its group 67 tells.
#[derive(Clone, Copy, Debug, PartialEq, Eq, Drop)]
pub enum Space {
    /// On the paper: the entity is skipped.
    Paper,
    /// In the drawing itself.
    Own,
    /// The value on this line is no integer.
    Unclear(u32),
}

/// Where an entity lies, by the value of its group 67 on this line: on the paper where it's 1.
pub fn space_at(text: &[u8], line: u32) -> Space
    ensures { (code : ℤ) → result ≡ space_by_pair (record { code = code; value = text.now; line = line }) }
{
    match read_integer(text) {
        Err(_) => Space::Unclear(line),
        Ok(1) => Space::Paper,
        Ok(_) => Space::Own,
    }
}
