//! The reader of a drawing that takes one byte after the other.
ghost use Rattle.std.specs.Prelude.{◌≡◌, ◌<◌, ◌+◌, ◌^◌, ℕ, Option, [], ◌∷◌, ◌++◌, List, Some, None, OnOk, IfOk, IfErr, IfSome, IfNone, All, is_some};
ghost use Rattle.dxf_groups.specs.Pairs.{Pair};
ghost use Rattle.dxf_groups.specs.Steps.{gives_pair};
ghost use Rattle.dxf_drawing.specs.EntityReader.{EntityReaderAt};
ghost use Rattle.dxf_groups.specs.Laws.{listed};
ghost use Rattle.dxf_drawing.specs.Reading.{ReaderAt, IsAtTheEnd, IsFound, IsRead};
ghost use Rattle.dxf_drawing.specs.Drawings.{read_refusal_of};
ghost use Rattle.dxf_drawing.specs.Ranges.{AreInRange};
ghost use Rattle.nest_base.specs.Limits.{most_bytes};

use crate::entity_reader::EntityReader;
use dxf_entities::DrawingError;
use dxf_groups::{Found, Groups};
use nest_base::{Drawing, OutOfMemory};
use std::alloc::Global;

/// The reader, as far as it has come.
#[derive(Drop)]
pub struct Reader {
    groups: Groups,
    entities: EntityReader,
}

impl Reader {
    /// A reader that has taken no byte.
    #[tactic(auto, unfolding(dxf_groups::specs::Taking::reading_so_far))]
    pub fn new(alloc: Global) -> Result<Reader, OutOfMemory>
        ensures { IfOk result (λ reader. ReaderAt reader []) }
    {
        let groups = Groups::new(alloc)?;
        Ok(Reader {
            groups,
            entities: EntityReader::new(alloc),
        })
    }

    /// Takes the next byte.
    pub fn take(&mut self, alloc: Global, byte: u8) -> Result<(), OutOfMemory>
        requires few { self.old.groups.taken < most_bytes }
        requires not_ended { self.old.groups.answer ≡ None }
        ensures at { OnOk result ((bytes : List ℕ) → ReaderAt self.old bytes → ReaderAt self.new (bytes ++ byte ∷ [])) }
        ensures counted { self.new.groups.taken ≡ self.old.groups.taken + 1 }
        ensures not_ended { self.new.groups.answer ≡ None }
    {
        let found = self.groups.take(byte);
        self.take_found(alloc, found)?;
        Ok(())
    }

    /// Takes the end of the input.
    pub fn end(&mut self, alloc: Global) -> Result<(), OutOfMemory>
        ensures { OnOk result ((bytes : List ℕ) → ReaderAt self.old bytes → IsAtTheEnd self.new bytes) }
    {
        let found = self.groups.end();
        self.take_found(alloc, found)?;
        self.groups.end();
        Ok(())
    }

    /// The drawing, or why it's refused.
    pub fn into_drawing(self) -> Result<Drawing, DrawingError>
        ensures ok { IfOk result (λ drawing. (bytes : List ℕ) → IsAtTheEnd self bytes → IsRead bytes drawing) }
        ensures err { IfErr result (λ why. (bytes : List ℕ) → IsAtTheEnd self bytes → read_refusal_of bytes ≡ Some why) }
        ensures within { IfOk result AreInRange }
    {
        if let Some(fault) = self.groups.fault() {
            return Err(DrawingError::Groups(fault));
        }
        let drawing = match self.entities.into_drawing() {
            Ok(drawing) => drawing,
            Err(why) => return Err(why),
        };
        if drawing.segments().is_empty() {
            return Err(DrawingError::Nothing);
        }
        Ok(drawing)
    }

    /// Takes the pair that was found, where one was.
    fn take_found(&mut self, alloc: Global, found: Found) -> Result<(), OutOfMemory>
        requires { is_some self.old.groups.value ≡ gives_pair found }
        ensures entities { OnOk result ((pairs : List Pair) (p : Option Pair) → IsFound found self.old.groups.value p → EntityReaderAt self.old.entities pairs → EntityReaderAt self.new.entities (pairs ++ listed p)) }
        ensures groups { self.new.groups ≡ self.old.groups }
    {
        let Found::Pair { code, line } = found else {
            return Ok(());
        };
        self.entities.take(alloc, code, self.groups.value(), line)?;
        Ok(())
    }
}
