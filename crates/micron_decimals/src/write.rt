//! Numbers as text.
ghost use Rattle.std.specs.Prelude.{◌≡◌, ◌≤◌, ◌<◌, ◌+◌, ◌++◌, length, take, OnOk, OnErr};
ghost use Rattle.micron_decimals.specs.Decimals.{micron_text, three_digits, sign_text};

use itoa::Buffer;
use nest_base::{OutOfMemory, Text};

/// Copies a piece to a place of the buffer, and answers the place after it.
fn put(piece: &[u8], at: usize, into: &mut [u8; 24]) -> usize
    requires { at + length piece.now ≤ 24 }
    ensures place { result ≡ at + length piece.now }
    ensures front { take result into.new ≡ take at into.old ++ piece.now }
{
    let end = at + piece.len();
    into[at..end].copy_from_slice(piece);
    end
}

/// The three digits of a number below 1,000.
fn three(n: u64) -> [u8; 3]
    requires { n < 1000 }
    ensures { result ≡ three_digits n }
{
    [
        b'0' + (n / 100) as u8,
        b'0' + (n / 10 % 10) as u8,
        b'0' + (n % 10) as u8,
    ]
}

fn sign(value: i64) -> &'static [u8]
    ensures text { result.now ≡ sign_text value }
    ensures short { length result.now ≤ 1 }
{
    if value < 0 { b"-" } else { b"" }
}

/// Writes micrometres as millimetres at the front of `into`, and answers how many bytes that took.
///
/// No memory is taken.
pub fn write_micron(value: i64, into: &mut [u8; 24]) -> usize
    ensures size { result ≡ length (micron_text value) }
    ensures text { take result into.new ≡ micron_text value }
{
    let size = value.unsigned_abs();
    let mut buffer = Buffer::new();
    let at = put(sign(value), 0, into);
    let at = put(buffer.format(size / 1000).as_bytes(), at, into);
    let at = put(b".", at, into);
    put(&three(size % 1000), at, into)
}

/// Adds micrometres as millimetres at the end of a text, all of the bytes or none.
pub fn put_micron(value: i64, out: &mut Text) -> Result<(), OutOfMemory>
    ensures ok { OnOk result (out.new ≡ out.old ++ micron_text value) }
    ensures err { OnErr result (out.new ≡ out.old) }
{
    let mut bytes = [0u8; 24];
    let size = write_micron(value, &mut bytes);
    out.append(&bytes[..size])
}
