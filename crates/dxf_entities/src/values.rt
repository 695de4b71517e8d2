//! What is read of the groups of an entity.
ghost use Rattle.std.specs.Prelude.{◌≡◌, None, Some, IfOk, OnOk, OnErr, is_some, filter_map, pos};
ghost use Rattle.std.specs.Result.{result_err};
ghost use Rattle.micron_decimals.specs.Decimals.{micron_of, integer_of, equals_of};
ghost use Rattle.dxf_entities.specs.Groups.{use_of};
ghost use Rattle.dxf_entities.specs.EntityBuilder.{a_number, a_test, value_in, with_number, AreWithin};
ghost use Rattle.nest_base.specs.Range.{IsNear, IsWithin, range};
ghost use Rattle.dxf_entities.specs.Values.{number_in, closes};
ghost use Rattle.dxf_entities.specs.declared.group.Group.{Group};
ghost use Rattle.dxf_entities.specs.declared.group.Group.TheVariants.{StartX, StartY, EndX, EndY, Flags};
ghost use Rattle.dxf_entities.specs.Refusals.{unless_near, unless_read, value_fault, flags_oddity, unless_equal as odd_test, oddity as oddity_of, first};

use crate::error::Kind;
use crate::fault::Fault;
use crate::group::Group;
use micron_decimals::{NumberError, read_equals, read_integer, read_micron};
use nest_base::{Point, RANGE};

/// The bits of the flags of a POLYLINE that aren't planned.
const UNSUPPORTED: i64 = 94;

/// The one that closes it.
const CLOSED: i64 = 1;

/// The numbers of an entity that were read so far.
#[derive(Clone, Copy, Debug, PartialEq, Eq, Drop)]
pub struct Values {
    /// Micrometres, as the other coordinates are.
    pub start_x: Option<i64>,
    pub start_y: Option<i64>,
    pub end_x: Option<i64>,
    pub end_y: Option<i64>,
    pub flags: Option<i64>,
    /// Whether there is none.
    pub bulge: Option<bool>,
    /// Whether these are those of a flat entity: 0, 0 and 1.
    pub extrusion_x: Option<bool>,
    pub extrusion_y: Option<bool>,
    pub extrusion_z: Option<bool>,
}

/// A coordinate, in micrometres.
fn coordinate(text: &[u8], line: u32) -> Result<i64, Fault>
    ensures fault { result_err result ≡ unless_near (micron_of text.now) line }
    ensures value { IfOk result (λ n. micron_of text.now ≡ Some n) }
    ensures within { IfOk result (λ n. IsNear range n) }
{
    match read_micron(text, RANGE) {
        Ok(n) => Ok(n),
        Err(NumberError::NotANumber) => Err(Fault::NotANumber(line)),
        Err(NumberError::TooFar) => Err(Fault::TooFar(line)),
    }
}

/// An integer.
fn integer(text: &[u8], line: u32) -> Result<i64, Fault>
    ensures fault { result_err result ≡ unless_read (integer_of text.now) line }
    ensures value { IfOk result (λ n. integer_of text.now ≡ Some n) }
{
    read_integer(text).map_err(|_| Fault::NotANumber(line))
}

/// Whether a number is exactly 0.
fn is_zero(text: &[u8], line: u32) -> Result<bool, Fault>
    ensures fault { result_err result ≡ unless_read (equals_of text.now (pos 0)) line }
    ensures value { IfOk result (λ b. equals_of text.now (pos 0) ≡ Some b) }
{
    read_equals(text, 0).map_err(|_| Fault::NotANumber(line))
}

/// Whether a number is exactly 1.
fn is_one(text: &[u8], line: u32) -> Result<bool, Fault>
    ensures fault { result_err result ≡ unless_read (equals_of text.now (pos 1)) line }
    ensures value { IfOk result (λ b. equals_of text.now (pos 1) ≡ Some b) }
{
    read_equals(text, 1).map_err(|_| Fault::NotANumber(line))
}

/// The flags, where they ask for what isn't planned.
fn odd_flags(flags: Option<i64>) -> Option<Kind>
    ensures { result ≡ flags_oddity (a_number flags) }
{
    let flags = flags?;
    if flags & UNSUPPORTED == 0 {
        return None;
    }
    Some(Kind::Flags(flags))
}

/// This kind, where a number isn't the one that it is to be.
fn unless_equal(test: Option<bool>, kind: Kind) -> Option<Kind>
    ensures { result ≡ odd_test kind (a_test test) }
{
    match test {
        Some(false) => Some(kind),
        _ => None,
    }
}

impl Values {
    /// No values yet.
    pub fn new() -> Values
        ensures none { (g : Group) → value_in result g ≡ None }
        ensures within { AreWithin result }
    {
        Values {
            start_x: None,
            start_y: None,
            end_x: None,
            end_y: None,
            flags: None,
            bulge: None,
            extrusion_x: None,
            extrusion_y: None,
            extrusion_z: None,
        }
    }

    /// Whether a group was read.
    pub fn has(&self, group: Group) -> bool
        ensures { result ≡ is_some (value_in self.now group) }
    {
        match group {
            Group::StartX => self.start_x.is_some(),
            Group::StartY => self.start_y.is_some(),
            Group::EndX => self.end_x.is_some(),
            Group::EndY => self.end_y.is_some(),
            Group::Flags => self.flags.is_some(),
            Group::Bulge => self.bulge.is_some(),
            Group::ExtrusionX => self.extrusion_x.is_some(),
            Group::ExtrusionY => self.extrusion_y.is_some(),
            Group::ExtrusionZ => self.extrusion_z.is_some(),
            Group::Content => false,
        }
    }

    /// Reads the text of a group, on this line.
    pub fn read(&mut self, group: Group, text: &[u8], line: u32) -> Result<(), Fault>
        requires { AreWithin self.old }
        ensures fault { result_err result ≡ value_fault (use_of group) text.now line }
        ensures ok { OnOk result (self.new ≡ with_number group text.now self.old) }
        ensures err { OnErr result (self.new ≡ self.old) }
        ensures within { AreWithin self.new }
    {
        match group {
            Group::StartX => self.start_x = Some(coordinate(text, line)?),
            Group::StartY => self.start_y = Some(coordinate(text, line)?),
            Group::EndX => self.end_x = Some(coordinate(text, line)?),
            Group::EndY => self.end_y = Some(coordinate(text, line)?),
            Group::Flags => self.flags = Some(integer(text, line)?),
            Group::Bulge => self.bulge = Some(is_zero(text, line)?),
            Group::ExtrusionX => self.extrusion_x = Some(is_zero(text, line)?),
            Group::ExtrusionY => self.extrusion_y = Some(is_zero(text, line)?),
            Group::ExtrusionZ => self.extrusion_z = Some(is_one(text, line)?),
            Group::Content => {}
        }
        Ok(())
    }

    /// The place of the first end; a number that wasn't read counts as 0.
    pub fn start(&self) -> Point
        ensures place { result ≡ record { x = number_in (value_in self.now StartX); y = number_in (value_in self.now StartY) } }
        ensures within { AreWithin self.now → IsWithin range result }
    {
        Point {
            x: self.start_x.unwrap_or(0),
            y: self.start_y.unwrap_or(0),
        }
    }

    /// The place of the second end.
    pub fn end(&self) -> Point
        ensures place { result ≡ record { x = number_in (value_in self.now EndX); y = number_in (value_in self.now EndY) } }
        ensures within { AreWithin self.now → IsWithin range result }
    {
        Point {
            x: self.end_x.unwrap_or(0),
            y: self.end_y.unwrap_or(0),
        }
    }

    /// Whether the flags close a polyline.
    pub fn is_closed(&self) -> bool
        ensures { result ≡ closes (number_in (value_in self.now Flags)) }
    {
        self.flags.unwrap_or(0) & CLOSED == CLOSED
    }

    /// What the values of some groups ask for that isn't planned: the first of these.
    pub fn first_oddity(&self, groups: &[Group]) -> Option<Kind>
        ensures { result ≡ first (filter_map (λ g. oddity_of g (value_in self.now g)) groups.now) }
    {
        for group in groups {
            if let Some(kind) = self.oddity(*group) {
                return Some(kind);
            }
        }
        None
    }

    /// What the value of a group asks for that isn't planned.
    fn oddity(&self, group: Group) -> Option<Kind>
        ensures { result ≡ oddity_of group (value_in self.now group) }
    {
        match group {
            Group::Flags => odd_flags(self.flags),
            Group::Bulge => unless_equal(self.bulge, Kind::Bulge),
            Group::ExtrusionX => unless_equal(self.extrusion_x, Kind::Extrusion),
            Group::ExtrusionY => unless_equal(self.extrusion_y, Kind::Extrusion),
            Group::ExtrusionZ => unless_equal(self.extrusion_z, Kind::Extrusion),
            _ => None,
        }
    }
}
