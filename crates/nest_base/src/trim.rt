//! Texts without blanks at their ends.
ghost use Rattle.std.specs.Prelude.{◌≡◌, ◌-◌, length, take};
ghost use Rattle.std.specs.List.{suffix_len};
ghost use Rattle.nest_base.specs.Lines.{is_blank as blank_of, without_blanks_before as rest_of, trimmed as trimmed_of};

/// Whether a byte is a blank or a tab.
fn is_blank(byte: u8) -> bool
    ensures { result ≡ blank_of byte }
{
    byte == b' ' || byte == b'\t'
}

/// The text from its first byte on that is neither a blank nor a tab.
fn without_blanks_before(text: &[u8]) -> &[u8]
    ensures { result.now ≡ rest_of text.now }
{
    let mut rest = text;
    while let Some((first, behind)) = rest.split_first() {
        if !is_blank(*first) {
            return rest;
        }
        rest = behind;
    }
    rest
}

/// The text up to its last byte that is neither a blank nor a tab.
fn without_blanks_behind(text: &[u8]) -> &[u8]
    ensures { result.now ≡ take (length text.now - suffix_len blank_of text.now) text.now }
{
    let mut end = text.len();
    while end > 0 && is_blank(text[end - 1]) {
        end -= 1;
    }
    &text[..end]
}

/// The text without blanks and tabs at both ends.
pub fn trimmed(text: &[u8]) -> &[u8]
    ensures { result.now ≡ trimmed_of text.now }
{
    without_blanks_behind(without_blanks_before(text))
}
