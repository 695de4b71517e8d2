//! One line of code.
ghost use Rattle.std.specs.Prelude.{◌≡◌};
ghost use Rattle.code_moves.specs.Words.{content_of};
ghost use Rattle.ngc_meaning.specs.Contents.{IsRead, is_mark_alone};

use crate::bare::{LONGEST, bare};
use crate::block::Block;

/// What a line holds: `%` alone, or what its words say together.
#[derive(Drop)]
pub enum Line {
    Mark,
    Words(Block),
}

impl Line {
    /// What a line holds, without its end; `None` where it can't be read, or its words contradict one another.
    pub fn read(line: &[u8]) -> Option<Line>
        ensures { IsRead (content_of line.now) result }
    {
        if line.len() > LONGEST {
            return None;
        }
        let text = bare(line)?;
        if is_mark(text.as_slice()) {
            return Some(Line::Mark);
        }
        let block = Block::read(text.as_slice())?;
        Some(Line::Words(block))
    }
}

/// Whether a text is `%` alone.
fn is_mark(text: &[u8]) -> bool
    ensures { result ≡ is_mark_alone text.now }
{
    matches!(text, [b'%'])
}
