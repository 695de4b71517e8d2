//! Bytes that may not print as they are.
ghost use Rattle.std.specs.Prelude.{◌≡◌};
ghost use Rattle.pierce_report.specs.Shown.{shown_byte};

/// A byte as it's printed: `?` for one that doesn't print as it is.
pub fn shown_byte_of(byte: u8) -> u8
    ensures { result ≡ shown_byte byte }
{
    if byte < b' ' || byte > b'~' {
        b'?'
    } else {
        byte
    }
}
