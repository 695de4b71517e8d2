//! Files in memory, with the room that was taken for them beforehand.
ghost use Rattle.std.specs.Prelude.{◌≡◌, ℕ, ◌≤◌, ◌<◌, ◌+◌, ◌-◌, min, List, Some, None, OnOk, OnErr, IfOk, length, not, MatchBool, position, find, option_copied};
ghost use Rattle.std.specs.Bool.{OnTrue, OnFalse};
ghost use Rattle.cut_desk.specs.Outside.{IsEnd, bytes_after_write};
ghost use Rattle.cut_desk.specs.Memory.{has_name, file_in, room_in, lacks_room, after_read, SameStored, GrowsRoom, ReplacesFile};

use nest_base::OutOfMemory;
use std::alloc::Global;
use std::marker::Model;

/// A name, its file where there is one, and the room for it.
#[derive(Drop)]
pub struct Slot {
    name: String,
    /// What the file holds. Its memory is taken already, up to the room.
    bytes: Vec<u8>,
    /// Whether there is a file.
    is_there: bool,
    /// How long the file may be made by writes, in bytes.
    room: usize,
}

impl Model for Slot {
    ghost use Rattle.std.specs.Prelude.{◌≤◌, Some, None, if◌then◌else◌, string_bytes, vec_capacity};
    ghost use Rattle.cut_desk.specs.Memory.{Stored};

    ghost Value = { Stored };

    ghost view = { λ s. record { name = string_bytes s.name; file = if s.is_there then Some s.bytes.items else None; room = s.room } };

    ghost invariant = { λ s. s.room ≤ vec_capacity s.bytes };
}

impl Slot {
    /// A name with no file and no room.
    fn new(alloc: Global, name: &str) -> Result<Slot, OutOfMemory>
        ensures { IfOk result (λ slot. slot ≡ record { name = name.now; file = None; room = 0 }) }
    {
        let name = String::from_str(alloc, name)?;
        Ok(Slot {
            name,
            bytes: Vec::new(alloc),
            is_there: false,
            room: 0,
        })
    }

    fn is_named(&self, name: &str) -> bool
        ensures { result ≡ has_name name.now self.now }
    {
        self.name.as_str() == name
    }

    fn file(&self) -> Option<&[u8]>
        ensures { option_copied result ≡ self.now.file }
    {
        self.is_there.then_some(self.bytes.as_slice())
    }

    /// Makes the file these bytes.
    fn put(&mut self, bytes: &[u8]) -> Result<(), OutOfMemory>
        ensures ok { OnOk result (self.new ≡ record self.old { file = Some bytes.now }) }
        ensures err { OnErr result (self.new ≡ self.old) }
    {
        self.bytes.reserve(bytes.len())?;
        self.bytes.clear();
        self.bytes.extend_from_slice(bytes)?;
        self.is_there = true;
        Ok(())
    }

    /// Makes the room at least `bytes`.
    fn reserve(&mut self, bytes: usize) -> Result<(), OutOfMemory>
        ensures ok { OnOk result (bytes ≤ self.new.room) }
        ensures grows { self.old.room ≤ self.new.room }
        ensures rest { self.new ≡ record self.old { room = self.new.room } }
    {
        let missing = bytes.saturating_sub(self.bytes.len());
        self.bytes.reserve(missing)?;
        self.room = self.room.max(bytes);
        Ok(())
    }

    /// Whether there is room for a piece at the end of the file, or at 0 for a new file.
    fn has_room(&self, at: u64, piece: &[u8]) -> bool
        ensures { result ≡ not (lacks_room self.now.room (at + length piece.now)) }
    {
        let room = self.room as u64;
        room > 0 && at <= room && piece.len() as u64 <= room - at
    }

    /// Writes at the end of the file, or makes it anew at 0. It takes no memory.
    fn write(&mut self, at: u64, piece: &[u8])
        requires end { 0 < at → IsEnd (Some self.old.file) at }
        requires room { at + length piece.now ≤ self.old.room }
        ensures { self.new ≡ record self.old { file = Some (bytes_after_write self.old.file at piece.now) } }
    {
        if at == 0 {
            self.bytes.clear();
        }
        self.bytes.extend_from_slice(piece).unwrap();
        self.is_there = true;
    }
}

/// Where a name stands.
fn place_of(slots: &[Slot], name: &str) -> Option<usize>
    ensures { result ≡ position (has_name name.now) slots.now }
{
    slots.iter().position(|slot| slot.is_named(name))
}

/// What is kept under a name.
fn slot_of<'a>(slots: &'a [Slot], name: &str) -> Option<&'a Slot>
    ensures { option_copied result ≡ find (has_name name.now) slots.now }
{
    slots.iter().find(|slot| slot.is_named(name))
}

/// The file of a name.
pub fn file_of<'a>(slots: &'a [Slot], name: &str) -> Option<&'a [u8]>
    ensures { option_copied result ≡ file_in slots.now name.now }
{
    let slot = slot_of(slots, name)?;
    slot.file()
}

/// Copies as many bytes of a file, from a place on, as `into` takes to its front, and answers how many.
pub fn copy_piece(file: &[u8], at: u64, into: &mut [u8]) -> usize
    ensures count { result ≡ min (length file.now - at) (length into.old) }
    ensures copied { into.new ≡ after_read file.now at into.old }
{
    let Some(rest) = usize::try_from(at).ok().and_then(|at| file.get(at..)) else {
        return 0;
    };
    let count = rest.len().min(into.len());
    into[..count].copy_from_slice(&rest[..count]);
    count
}

/// The place of a name, which is added where it isn't there.
fn make_place(slots: &mut Vec<Slot>, name: &str) -> Result<usize, OutOfMemory>
    ensures place { IfOk result (λ place. position (has_name name.now) slots.new.items ≡ Some place) }
    ensures files { (other : List ℕ) → file_in slots.new.items other ≡ file_in slots.old.items other }
    ensures rooms { (other : List ℕ) → room_in slots.new.items other ≡ room_in slots.old.items other }
{
    if let Some(place) = place_of(slots, name) {
        return Ok(place);
    }
    let place = slots.len();
    slots.push(Slot::new(*slots.allocator(), name)?)?;
    Ok(place)
}

/// Makes the file of a name these bytes.
pub fn put_file(slots: &mut Vec<Slot>, name: &str, bytes: &[u8]) -> Result<(), OutOfMemory>
    ensures ok { OnOk result (ReplacesFile name.now bytes.now slots.old.items slots.new.items) }
    ensures err { OnErr result (SameStored slots.old.items slots.new.items) }
{
    let place = make_place(slots, name)?;
    let slot = &mut slots[place];
    slot.put(bytes)?;
    Ok(())
}

/// Makes the room of a name at least `bytes`.
pub fn reserve(slots: &mut Vec<Slot>, name: &str, bytes: usize) -> Result<(), OutOfMemory>
    ensures ok { OnOk result (bytes ≤ room_in slots.new.items name.now) }
    ensures grows { GrowsRoom name.now slots.old.items slots.new.items }
{
    let place = make_place(slots, name)?;
    let slot = &mut slots[place];
    slot.reserve(bytes)?;
    Ok(())
}

/// Writes at the end of the file of a name, or makes it anew at 0, and answers whether there was room.
pub fn write_file(slots: &mut [Slot], name: &str, at: u64, piece: &[u8]) -> bool
    requires { 0 < at → IsEnd (Some (file_in slots.old name.now)) at }
    ensures room { result ≡ not (lacks_room (room_in slots.old name.now) (at + length piece.now)) }
    ensures written { OnTrue result (ReplacesFile name.now (bytes_after_write (file_in slots.old name.now) at piece.now) slots.old slots.new) }
    ensures none { OnFalse result (slots.new ≡ slots.old) }
{
    let Some(place) = place_of(slots, name) else {
        return false;
    };
    let slot = &mut slots[place];
    if !slot.has_room(at, piece) {
        return false;
    }
    slot.write(at, piece);
    true
}
