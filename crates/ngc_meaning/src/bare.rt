//! Lines without their comments, blanks and tabs.
ghost use Rattle.std.specs.Prelude.{◌≡◌, ◌≤◌, length, option_map};
ghost use Rattle.nest_base.specs.Lines.{is_blank as is_blank_byte};
ghost use Rattle.ngc_meaning.specs.Bare.{left_of};

use arrayvec::ArrayVec;

/// The most bytes of a line, without its end.
pub const LONGEST: usize = 256;

/// Whether a byte is a blank or a tab.
fn is_blank(byte: u8) -> bool
    ensures { result ≡ is_blank_byte byte }
{
    byte == b' ' || byte == b'\t'
}

/// What is left of a line without its comments, blanks and tabs; `None` where a comment isn't closed, or holds `(`, or `)` stands
/// outside of one.
pub fn bare(line: &[u8]) -> Option<ArrayVec<u8, LONGEST>>
    requires { length line.now ≤ 256 }
    ensures { option_map (λ text. text.items) result ≡ left_of line.now }
{
    let mut text = ArrayVec::new();
    let mut is_comment = false;
    'bytes: for byte in line {
        if is_comment {
            if *byte == b'(' {
                return None;
            }
            is_comment = *byte != b')';
            continue;
        }
        if *byte == b'(' {
            is_comment = true;
            continue;
        }
        if *byte == b')' {
            return None;
        }
        if is_blank(*byte) {
            continue;
        }
        text.push(*byte);
    }
    if is_comment {
        return None;
    }
    Some(text)
}
