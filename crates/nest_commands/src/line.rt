//! One printed line, in memory of a fixed size.
ghost use Rattle.std.specs.Prelude.{◌≡◌, ◌≤◌, ◌+◌, ◌++◌, [], length, decimal};
ghost use Rattle.std.specs.Fmt.{signed_decimal};
ghost use Rattle.micron_decimals.specs.Decimals.{micron_text};
ghost use Rattle.pierce_report.specs.Shown.{shown};

use itoa::Buffer;
use micron_decimals::write_micron;
use pierce_report::shown_byte_of;
use std::marker::Model;

/// The bytes of a line; it has room for 256.
#[derive(Drop)]
pub struct FaultLine {
    bytes: [u8; 256],
    count: usize,
}

impl Model for FaultLine {
    ghost use Rattle.std.specs.Prelude.{◌≤◌, List, ℕ, take};

    ghost Value = { List ℕ };

    ghost view = { λ l. take l.count l.bytes };

    ghost invariant = { λ l. l.count ≤ 256 };
}

impl FaultLine {
    /// A line that begins with these bytes.
    pub fn of(text: &[u8]) -> FaultLine
        requires { length text.now ≤ 256 }
        ensures { result ≡ text.now }
    {
        let mut line = FaultLine {
            bytes: [0; 256],
            count: 0,
        };
        line.put(text);
        line
    }

    /// Adds a piece.
    pub fn put(&mut self, piece: &[u8])
        requires { length self.old + length piece.now ≤ 256 }
        ensures { self.new ≡ self.old ++ piece.now }
    {
        let end = self.count + piece.len();
        self.bytes[self.count..end].copy_from_slice(piece);
        self.count = end;
    }

    /// Adds a number.
    pub fn put_number(&mut self, n: u32)
        requires { length self.old + 40 ≤ 256 }
        ensures text { self.new ≡ self.old ++ decimal n }
        ensures short { length self.new ≤ length self.old + 40 }
    {
        let mut buffer = Buffer::new();
        self.put(buffer.format(n).as_bytes());
    }

    /// Adds a number that may be negative.
    pub fn put_signed(&mut self, n: i64)
        requires { length self.old + 40 ≤ 256 }
        ensures text { self.new ≡ self.old ++ signed_decimal n }
        ensures short { length self.new ≤ length self.old + 40 }
    {
        let mut buffer = Buffer::new();
        self.put(buffer.format(n).as_bytes());
    }

    /// Adds micrometres as millimetres.
    pub fn put_micron(&mut self, value: i64)
        requires { length self.old + 40 ≤ 256 }
        ensures text { self.new ≡ self.old ++ micron_text value }
        ensures short { length self.new ≤ length self.old + 40 }
    {
        let mut digits = [0; 24];
        let count = write_micron(value, &mut digits);
        self.put(&digits[..count]);
    }

    /// Adds a name, each byte that doesn't print as it is as `?`.
    pub fn put_name(&mut self, name: &[u8])
        requires { length self.old + length name.now ≤ 256 }
        ensures { self.new ≡ self.old ++ shown name.now }
    {
        for byte in name {
            self.put(&[shown_byte_of(*byte)]);
        }
    }

    /// The bytes.
    pub fn as_slice(&self) -> &[u8]
        ensures { result.now ≡ self.now }
    {
        &self.bytes[..self.count]
    }
}
