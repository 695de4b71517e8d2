//! What is read from a file: segments and names.
ghost use Rattle.std.specs.Prelude.{◌≡◌, ◌∷◌, ◌++◌, [], OnOk, OnErr};

use crate::memory::OutOfMemory;
use crate::places::{Point, Segment};
use crate::text::Text;
use std::alloc::Global;
use std::marker::Model;

/// A text of the drawing that names the part at its place.
#[derive(Drop)]
pub struct Name {
    pub at: Point,
    pub text: Text,
    /// The number of the line of the file that it comes from, from 1.
    pub line: u32,
}

/// The segments and the names of a drawing, each in file order.
#[derive(Drop)]
pub struct Drawing {
    segment_list: Vec<Segment>,
    name_list: Vec<Name>,
}

impl Model for Drawing {
    ghost use Rattle.nest_base.specs.Drawing.{Lists};

    ghost Value = { Lists };

    ghost view = { λ d. record { segments = d.segment_list.items; names = d.name_list.items } };
}

impl Drawing {
    /// The empty drawing. It takes no memory yet.
    pub fn new(alloc: Global) -> Drawing
        ensures segments { result.segments ≡ [] }
        ensures names { result.names ≡ [] }
    {
        Drawing {
            segment_list: Vec::new(alloc),
            name_list: Vec::new(alloc),
        }
    }

    /// Adds a segment at the end.
    pub fn push_segment(&mut self, s: Segment) -> Result<(), OutOfMemory>
        ensures ok { OnOk result (self.new ≡ record self.old { segments = self.old.segments ++ s ∷ [] }) }
        ensures err { OnErr result (self.new ≡ self.old) }
    {
        self.segment_list.push(s)?;
        Ok(())
    }

    /// Adds a name at the end.
    pub fn push_name(&mut self, n: Name) -> Result<(), OutOfMemory>
        ensures ok { OnOk result (self.new ≡ record self.old { names = self.old.names ++ n ∷ [] }) }
        ensures err { OnErr result (self.new ≡ self.old) }
    {
        self.name_list.push(n)?;
        Ok(())
    }

    /// The segments, in file order.
    pub fn segments(&self) -> &[Segment]
        ensures { result.now ≡ self.now.segments }
    {
        self.segment_list.as_slice()
    }

    /// The names, in file order.
    pub fn names(&self) -> &[Name]
        ensures { result.now ≡ self.now.names }
    {
        self.name_list.as_slice()
    }
}
