//! The entity so far, whose pairs are taken one by one.
ghost use Rattle.std.specs.Prelude.{◌≡◌, ◌≢◌, [], None, Some, IsOk, OnOk, OnErr, codes, ◌||◌, bytes_eq, if◌then◌else◌, is_some, pos, ℕ, ℤ, IsTrue};
ghost use Rattle.std.specs.Option.{option_or};
ghost use Rattle.std.specs.Ordering.{int_eq};
ghost use Rattle.dxf_groups.specs.Pairs.{is_pair as is_named_pair};
ghost use Rattle.nest_base.specs.Range.{IsWithin, range};
ghost use Rattle.dxf_entities.specs.Entities.{Entity, with_pair, shape_of, line_of, opens_section as opens_section_of, closes_section as closes_section_of};
ghost use Rattle.dxf_entities.specs.Groups.{use_of};
ghost use Rattle.dxf_entities.specs.EntityBuilder.{BuilderAt, unless_faulty, noted, value_read, with_new, with_read};
ghost use Rattle.dxf_entities.specs.Refusals.{value_fault, groups_refusal, name_refusal as name_refusal_of, space_of, space_at as space_by_pair, missing_in, refusal_by};
ghost use Rattle.dxf_entities.specs.Values.{has_place, start_of, second_end_of, is_closed as is_closed_of, text_of};

use crate::error::{DrawingError, Kind};
use crate::fault::Fault;
use crate::group::{Group, group_among, needed, used};
use crate::label::Label;
use crate::shape::{Shape, shape_named};
use crate::space::{Space, space_at};
use crate::values::Values;
use nest_base::{OutOfMemory, Point, Text, trimmed};
use std::alloc::Global;
use std::marker::Model;

/// The code of the group that tells where an entity lies.
const SPACE: i32 = 67;

/// One entity, as far as its pairs have come. Of these only what is read of them is kept.
#[derive(Drop)]
pub struct EntityBuilder {
    shape: Shape,
    label: Label,
    line: u32,
    /// Whether it begins a section of the drawing.
    is_section: bool,
    closes: bool,
    /// Whether the first pair behind the name is `2 ENTITIES`, once it has come.
    opening: Option<bool>,
    space: Option<Space>,
    /// Of the values that can't be read, the first. None is looked at behind it.
    fault: Option<Fault>,
    values: Values,
    content: Text,
    has_content: bool,
}

impl Model for EntityBuilder {
    ghost use Rattle.std.specs.Prelude.{Some, None, if◌then◌else◌, ◌≡◌, false, []};
    ghost use Rattle.dxf_entities.specs.EntityBuilder.{EntitySoFar, AreWithin};

    ghost Value = { EntitySoFar };

    ghost view = { λ b. record {
      shape = b.shape;
      label = b.label;
      line = b.line;
      is_section = b.is_section;
      closes = b.closes;
      opening = b.opening;
      space = b.space;
      fault = b.fault;
      values = b.values;
      text = if b.has_content then Some b.content else None;
    } };

    ghost invariant = { λ b. (b.has_content ≡ false → b.content ≡ []) × AreWithin b.values };
}

impl EntityBuilder {
    /// The entity that a pair with code 0 begins: its name, and the line of that. It takes no memory.
    pub fn begin(alloc: Global, name: &[u8], line: u32) -> EntityBuilder
        ensures { BuilderAt result (record { head = record { code = pos 0; value = name.now; line = line }; rest = [] }) }
    {
        let name = trimmed(name);
        EntityBuilder {
            shape: shape_named(name),
            label: Label::new(name),
            line,
            is_section: name == b"SECTION".as_slice(),
            closes: closes(name),
            opening: None,
            space: None,
            fault: None,
            values: Values::new(),
            content: Text::new(alloc),
            has_content: false,
        }
    }

    /// Takes a further pair, which has another code than 0. Memory is taken only for the bytes of a TEXT, its group 1; after want
    /// of it the entity is as it was.
    pub fn take(&mut self, code: i32, text: &[u8], line: u32) -> Result<(), OutOfMemory>
        ensures ok { OnOk result ((e : Entity) → BuilderAt self.old e → BuilderAt self.new (with_pair (record { code = code; value = text.now; line = line }) e)) }
        ensures err { OnErr result (self.new ≡ self.old) }
        ensures succeeds { code ≢ pos 1 → IsOk result }
    {
        self.take_value(code, text, line)?;
        self.note(code, text, line);
        Ok(())
    }

    /// Reads the value of a pair, where the entity uses it and it counts.
    fn take_value(&mut self, code: i32, text: &[u8], line: u32) -> Result<(), OutOfMemory>
        ensures ok { OnOk result (self.new ≡ unless_faulty self.old.fault (record { code = code; value = text.now; line = line }) self.old) }
        ensures err { OnErr result (self.new ≡ self.old) }
        ensures succeeds { code ≢ pos 1 → IsOk result }
    {
        if self.fault.is_some() {
            return Ok(());
        }
        let Some(group) = group_among(used(self.shape), code) else {
            return Ok(());
        };
        if self.has(group) {
            return Ok(());
        }
        self.read(group, text, line)
    }

    /// Reads the value of a group that hasn't come yet.
    fn read(&mut self, group: Group, text: &[u8], line: u32) -> Result<(), OutOfMemory>
        requires { value_read self.old group ≡ None }
        ensures ok { (code : ℤ) → OnOk result (self.new ≡ with_new group (record { code = code; value = text.now; line = line }) self.old) }
        ensures err { OnErr result (self.new ≡ self.old) }
        ensures succeeds { group ≢ Group.Content → IsOk result }
    {
        if group == Group::Content {
            self.content.append(text)?;
            self.has_content = true;
            return Ok(());
        }
        self.read_number(group, text, line);
        Ok(())
    }

    /// Reads the text of a group that is a number.
    fn read_number(&mut self, group: Group, text: &[u8], line: u32)
        ensures { self.new ≡ with_read (value_fault (use_of group) text.now line) group text.now self.old }
    {
        if let Err(fault) = self.values.read(group, text, line) {
            self.fault = Some(fault);
        }
    }

    /// Looks at what counts in any case: the space, and whether the pair opens an ENTITIES section.
    fn note(&mut self, code: i32, text: &[u8], line: u32)
        ensures { self.new ≡ noted (record { code = code; value = text.now; line = line }) self.old }
    {
        self.opening = Some(opening_by(self.opening, code, text));
        self.space = space_by(self.space, code, text, line);
    }

    /// Its kind.
    pub fn shape(&self) -> Shape
        ensures { (e : Entity) → BuilderAt self.now e → result ≡ shape_of e }
    {
        self.shape
    }

    /// The line of its name.
    pub fn line(&self) -> u32
        ensures { (e : Entity) → BuilderAt self.now e → result ≡ line_of e }
    {
        self.line
    }

    /// Where it lies. This counts before anything else of it does.
    pub fn space(&self) -> Space
        ensures { (e : Entity) → BuilderAt self.now e → result ≡ space_of e }
    {
        self.space.unwrap_or(Space::Own)
    }

    /// Whether it begins an ENTITIES section: it's `0 SECTION`, directly followed by `2 ENTITIES`.
    pub fn opens_section(&self) -> bool
        ensures { (e : Entity) → BuilderAt self.now e → result ≡ opens_section_of e }
    {
        self.is_section && self.opening == Some(true)
    }

    /// Whether an ENTITIES section ends before it: it's `0 ENDSEC` or `0 EOF`.
    pub fn closes_section(&self) -> bool
        ensures { (e : Entity) → BuilderAt self.now e → result ≡ closes_section_of e }
    {
        self.closes
    }

    /// Why it's refused by its groups: `NotANumber` or `TooFar` for the first value that can't be read, else `Missing` for the
    /// first group that it lacks, else `Unsupported` for its flags, its bulge or its extrusion. An entity of another kind than
    /// those that are planned isn't refused here.
    pub fn refusal(&self) -> Option<DrawingError>
        ensures { (e : Entity) → BuilderAt self.now e → result ≡ groups_refusal e }
    {
        let missing = self.missing();
        let odd = self.values.first_oddity(used(self.shape));
        refused(self.line, self.fault, missing, odd)
    }

    /// Why it's refused where no entity with its name is planned.
    pub fn name_refusal(&self) -> DrawingError
        ensures { (e : Entity) → BuilderAt self.now e → result ≡ name_refusal_of e }
    {
        let label = Label::new(self.label.as_slice());
        DrawingError::Unsupported(self.line, Kind::Entity(label))
    }

    /// The place of a LINE's first end, of a VERTEX or of a TEXT that isn't refused.
    pub fn start(&self) -> Point
        ensures place { (e : Entity) → BuilderAt self.now e → groups_refusal e ≡ None → IsTrue (has_place (shape_of e)) → result ≡ start_of e }
        ensures within { IsWithin range result }
    {
        self.values.start()
    }

    /// The place of a LINE's second end, if the LINE isn't refused.
    pub fn end(&self) -> Point
        ensures place { (e : Entity) → BuilderAt self.now e → groups_refusal e ≡ None → shape_of e ≡ Shape.Line → result ≡ second_end_of e }
        ensures within { IsWithin range result }
    {
        self.values.end()
    }

    /// Whether a POLYLINE that isn't refused is closed.
    pub fn is_closed(&self) -> bool
        ensures { (e : Entity) → BuilderAt self.now e → groups_refusal e ≡ None → shape_of e ≡ Shape.Polyline → result ≡ is_closed_of e }
    {
        self.values.is_closed()
    }

    /// The text of a TEXT that isn't refused, whole and as it stands.
    pub fn into_text(self) -> Text
        ensures { (e : Entity) → BuilderAt self e → groups_refusal e ≡ None → shape_of e ≡ Shape.Text → result ≡ text_of e }
    {
        self.content
    }

    /// The first group that is needed and hasn't come.
    fn missing(&self) -> Option<Group>
        ensures { result ≡ missing_in (value_read self.now) self.now.shape }
    {
        for group in needed(self.shape) {
            if !self.has(*group) {
                return Some(*group);
            }
        }
        None
    }

    /// Whether a group was read.
    fn has(&self, group: Group) -> bool
        ensures { result ≡ is_some (value_read self.now group) }
    {
        match group {
            Group::Content => self.has_content,
            number => self.values.has(number),
        }
    }
}

/// Why an entity on this line is refused: by a value, by a group that is missing, or by what isn't planned.
fn refused(
    line: u32,
    fault: Option<Fault>,
    missing: Option<Group>,
    odd: Option<Kind>,
) -> Option<DrawingError>
    ensures { result ≡ refusal_by line fault missing odd }
{
    if let Some(fault) = fault {
        return Some(fault.error());
    }
    if let Some(group) = missing {
        return Some(DrawingError::Missing(line, group.code()));
    }
    let kind = odd?;
    Some(DrawingError::Unsupported(line, kind))
}

/// Whether an entity with this name closes an ENTITIES section.
fn closes(name: &[u8]) -> bool
    ensures { result ≡ (bytes_eq name.now (codes "ENDSEC") || bytes_eq name.now (codes "EOF")) }
{
    name == b"ENDSEC".as_slice() || name == b"EOF".as_slice()
}

/// Whether the first pair behind the name is `2 ENTITIES`, by what is known so far and by this pair.
fn opening_by(known: Option<bool>, code: i32, text: &[u8]) -> bool
    ensures { (line : ℕ) → Some result ≡ option_or known (Some (is_named_pair 2 (codes "ENTITIES") (record { code = code; value = text.now; line = line }))) }
{
    if let Some(opens) = known {
        return opens;
    }
    code == 2 && trimmed(text) == b"ENTITIES".as_slice()
}

/// Where an entity lies, by what is known so far and by this pair.
fn space_by(known: Option<Space>, code: i32, text: &[u8], line: u32) -> Option<Space>
    ensures { result ≡ option_or known (if int_eq code (pos 67) then Some (space_by_pair (record { code = code; value = text.now; line = line })) else None) }
{
    if let Some(space) = known {
        return Some(space);
    }
    if code != SPACE {
        return None;
    }
    Some(space_at(text, line))
}
