//! A desk that keeps everything in memory, and fails where it is told to.
ghost use Rattle.std.specs.Prelude.{◌≡◌, ◌≤◌, ◌<◌, ◌+◌, ◌-◌, ◌^◌, ◌∷◌, ◌++◌, [], Some, OnOk, OnErr, IfOk, IfSome, is_err, length, min, not, option_copied};
ghost use Rattle.cut_desk.specs.Outside.{IsEnd, bytes_after_write};
ghost use Rattle.cut_desk.specs.Memory.{Memory, SameStored, GrowsRoom, ReplacesFile, empty_desk, file_of, room_of, is_to_fail, fails_read, fails_write, fails_print, after_call, after_fault, after_read, outside_of};

use crate::desk::{Desk, Failed};
use crate::slot::{self, Slot};
use nest_base::OutOfMemory;
use std::alloc::Global;
use std::marker::Model;

/// Files by name with their room, printed bytes with theirs, and the numbers of the calls that are to fail.
///
/// Calls of `read`, `write` and `print` are counted together, from 1. The one count of faults serves for every name and for
/// printing. Rooms are in bytes; they are 0 at first and never shrink.
#[derive(Drop)]
pub struct MemoryDesk {
    slot_list: Vec<Slot>,
    printed_bytes: Vec<u8>,
    printing_room: usize,
    call_count: u64,
    failing_calls: Vec<u64>,
    fault_count: u64,
}

impl Model for MemoryDesk {
    ghost use Rattle.std.specs.Prelude.{◌≤◌, vec_len, vec_capacity};
    ghost use Rattle.cut_desk.specs.Memory.{Memory};

    ghost Value = { Memory };

    ghost view = { λ d. record { slots = d.slot_list.items; printed = d.printed_bytes.items; print_room = d.printing_room; calls = d.call_count; failing = d.failing_calls.items; faults = d.fault_count } };

    ghost invariant = { λ d. (vec_len d.printed_bytes ≤ d.printing_room) × (d.printing_room ≤ vec_capacity d.printed_bytes) };
}

impl MemoryDesk {
    /// A desk with no file, no room and no call that is to fail. It takes no memory yet.
    pub fn new(alloc: Global) -> MemoryDesk
        ensures { result ≡ empty_desk }
    {
        MemoryDesk {
            slot_list: Vec::new(alloc),
            printed_bytes: Vec::new(alloc),
            printing_room: 0,
            call_count: 0,
            failing_calls: Vec::new(alloc),
            fault_count: 0,
        }
    }

    /// Makes the file of a name these bytes. It takes memory for the bytes and for a new name.
    ///
    /// It is no call that is counted, and no room changes. After `OutOfMemory` no file has changed either.
    pub fn put_file(&mut self, name: &str, bytes: &[u8]) -> Result<(), OutOfMemory>
        ensures ok { OnOk result (ReplacesFile name.now bytes.now self.old.slots self.new.slots) }
        ensures err { OnErr result (SameStored self.old.slots self.new.slots) }
        ensures rest { self.new ≡ record self.old { slots = self.new.slots } }
    {
        slot::put_file(&mut self.slot_list, name, bytes)
    }

    /// Tells the desk that the call of this number is to fail. It takes memory for the number.
    ///
    /// After `OutOfMemory` the desk is as before.
    pub fn fail_call(&mut self, number: u64) -> Result<(), OutOfMemory>
        ensures ok { OnOk result (self.new ≡ record self.old { failing = self.old.failing ++ number ∷ [] }) }
        ensures err { OnErr result (self.new ≡ self.old) }
    {
        self.failing_calls.push(number)?;
        Ok(())
    }

    /// Makes the room of a name, and the room for printing, at least `bytes`. It takes memory for both and for a new name.
    ///
    /// It makes no file, and no other room changes. After `OutOfMemory` the desk is as before, but these two rooms may have
    /// grown.
    pub fn reserve(&mut self, name: &str, bytes: usize) -> Result<(), OutOfMemory>
        ensures room { OnOk result (bytes ≤ room_of self.new name.now) }
        ensures print_room { OnOk result (bytes ≤ self.new.print_room) }
        ensures grows { GrowsRoom name.now self.old.slots self.new.slots }
        ensures print_grows { self.old.print_room ≤ self.new.print_room }
        ensures rest { self.new ≡ record self.old { slots = self.new.slots; print_room = self.new.print_room } }
    {
        slot::reserve(&mut self.slot_list, name, bytes)?;
        let missing = bytes.saturating_sub(self.printed_bytes.len());
        self.printed_bytes.reserve(missing)?;
        self.printing_room = self.printing_room.max(bytes);
        Ok(())
    }

    /// The file of a name, `None` where there is none.
    pub fn file(&self, name: &str) -> Option<&[u8]>
        ensures { option_copied result ≡ file_of self.now name.now }
    {
        slot::file_of(&self.slot_list, name)
    }

    /// What was printed so far.
    pub fn printed(&self) -> &[u8]
        ensures { result.now ≡ self.now.printed }
    {
        self.printed_bytes.as_slice()
    }

    /// How many calls failed so far.
    pub fn faults(&self) -> u64
        ensures { result ≡ self.now.faults }
    {
        self.fault_count
    }

    /// Counts a call, and answers whether it is to fail.
    fn begin_call(&mut self) -> bool
        ensures told { result ≡ is_to_fail self.old }
        ensures counts { self.new ≡ after_call self.old }
    {
        self.call_count = self.call_count.saturating_add(1);
        self.failing_calls.contains(&self.call_count)
    }

    /// Counts a fault.
    fn fault(&mut self) -> Failed
        ensures counts { self.new ≡ record self.old { faults = min (self.old.faults + 1) (2 ^ 64 - 1) } }
        ensures grows { self.old.faults ≤ self.new.faults }
    {
        self.fault_count = self.fault_count.saturating_add(1);
        Failed
    }
}

impl Desk for MemoryDesk {
    ghost seen = { outside_of };

    /// Copies all that `into` takes of the file from `at` on. It takes no memory.
    ///
    /// It fails exactly where its number is one that is to fail, and where the name is absent.
    fn read(&mut self, name: &str, at: u64, into: &mut [u8]) -> Result<usize, Failed>
        ensures fails { is_err result ≡ fails_read self.old name.now }
        ensures failed { OnErr result (self.new ≡ after_fault self.old) }
        ensures counted { OnOk result (self.new ≡ after_call self.old) }
        ensures count { IfOk result (λ count. IfSome (file_of self.old name.now) (λ file. count ≡ min (length file - at) (length into.old))) }
        ensures copied { OnOk result (IfSome (file_of self.old name.now) (λ file. into.new ≡ after_read file at into.old)) }
        ensures grows { self.old.faults ≤ self.new.faults }
    {
        if self.begin_call() {
            return Err(self.fault());
        }
        match self.file(name) {
            Some(file) => Ok(slot::copy_piece(file, at, into)),
            None => Err(self.fault()),
        }
    }

    /// Takes the whole piece, and no memory.
    ///
    /// It fails exactly where its number is one that is to fail, and where the room of the name is 0 or less than the file
    /// would be long.
    fn write(&mut self, name: &str, at: u64, piece: &[u8]) -> Result<usize, Failed>
        requires { 0 < at → IsEnd (Some (file_of self.old name.now)) at }
        ensures fails { is_err result ≡ fails_write self.old name.now at piece.now }
        ensures failed { OnErr result (self.new ≡ after_fault self.old) }
        ensures counted { OnOk result (self.new ≡ record (after_call self.old) { slots = self.new.slots }) }
        ensures count { IfOk result (λ count. count ≡ length piece.now) }
        ensures written { OnOk result (ReplacesFile name.now (bytes_after_write (file_of self.old name.now) at piece.now) self.old.slots self.new.slots) }
        ensures grows { self.old.faults ≤ self.new.faults }
    {
        if self.begin_call() || !slot::write_file(&mut self.slot_list, name, at, piece) {
            return Err(self.fault());
        }
        Ok(piece.len())
    }

    /// Takes the whole piece, and no memory.
    ///
    /// It fails exactly where its number is one that is to fail, and where the room for printing is less than the printed
    /// bytes would be long.
    fn print(&mut self, piece: &[u8]) -> Result<usize, Failed>
        ensures fails { is_err result ≡ fails_print self.old piece.now }
        ensures failed { OnErr result (self.new ≡ after_fault self.old) }
        ensures counted { OnOk result (self.new ≡ record (after_call self.old) { printed = self.old.printed ++ piece.now }) }
        ensures count { IfOk result (λ count. count ≡ length piece.now) }
        ensures grows { self.old.faults ≤ self.new.faults }
    {
        let room = self.printing_room - self.printed_bytes.len();
        if self.begin_call() || piece.len() > room {
            return Err(self.fault());
        }
        self.printed_bytes.extend_from_slice(piece).unwrap();
        Ok(piece.len())
    }
}
