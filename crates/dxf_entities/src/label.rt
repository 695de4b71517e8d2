//! The name of an entity, cut to a fixed size.
ghost use Rattle.std.specs.Prelude.{◌≡◌, ◌≤◌, length, take};

use std::marker::Model;

/// The most bytes of a label.
const LONGEST: usize = 32;

/// At most 32 bytes.
#[derive(Debug, Drop)]
pub struct Label {
    bytes: [u8; 32],
    count: usize,
}

impl Model for Label {
    ghost use Rattle.std.specs.Prelude.{◌≤◌, List, ℕ, take};

    ghost Value = { List ℕ };

    ghost view = { λ l. take l.count l.bytes };

    ghost invariant = { λ l. l.count ≤ 32 };
}

impl Label {
    /// The first 32 bytes of a name, or all where it has fewer.
    pub fn new(name: &[u8]) -> Label
        ensures { result ≡ take 32 name.now }
    {
        let mut bytes = [0; 32];
        let count = LONGEST.min(name.len());
        bytes[..count].copy_from_slice(&name[..count]);
        Label { bytes, count }
    }

    /// The bytes.
    pub fn as_slice(&self) -> &[u8]
        ensures bytes { result.now ≡ self.now }
        ensures short { length self.now ≤ 32 }
    {
        &self.bytes[..self.count]
    }
}
