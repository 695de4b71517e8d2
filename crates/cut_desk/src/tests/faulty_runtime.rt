//! A runtime whose calls fail, or take little, where a script tells them to.
ghost use Rattle.std.specs.Prelude.{◌≤◌, length};

use std::alloc::Allocator;
use std::cell::{Cell, RefCell};
use std::fmt::Display;
use std::fs::{File, Metadata, OpenFile, OpenOptions};
use std::io::{self, ErrorKind, Read, Seek, SeekFrom, Write};
use std::rc::Rc;
use std::rt::Files;

/// What calls are told, and what was printed.
///
/// Reads, writes, cuts and prints are counted together, from 1.
#[derive(Drop)]
pub struct Script {
    /// The number of the call that is to fail; 0 for none.
    failing: u64,
    /// How many bytes a call takes or gives at most.
    most: usize,
    calls: Cell<u64>,
    printed: RefCell<Vec<u8>>,
}

impl Script {
    pub fn new(rt: &HostRuntime, failing: u64, most: usize) -> anyhow::Result<Rc<Script>> {
        let script = Script {
            failing,
            most,
            calls: Cell::new(0),
            printed: RefCell::new(Vec::new(rt.alloc())),
        };
        Ok(Rc::new(rt.alloc(), script)?)
    }

    /// Whether these bytes were printed, and no others.
    pub fn has_printed(&self, bytes: &[u8]) -> bool {
        match self.printed.try_borrow() {
            Ok(printed) => printed.as_slice() == bytes,
            Err(_) => false,
        }
    }

    /// Counts a call.
    fn call(&self) -> io::Result<()> {
        let number = self.calls.get().saturating_add(1);
        self.calls.set(number);
        if number == self.failing {
            return Err(io::Error::from(ErrorKind::Other));
        }
        Ok(())
    }

    /// The front of a piece that a call takes.
    fn front<'a>(&self, piece: &'a [u8]) -> &'a [u8]
        ensures { length result.now ≤ length piece.now }
    {
        let count = piece.len().min(self.most);
        &piece[..count]
    }
}

/// The files of the system and a place to print, by a script.
#[derive(Drop)]
pub struct FaultyRuntime {
    pub rt: HostRuntime,
    pub script: Rc<Script>,
}

/// An open file, by a script.
#[derive(Drop)]
pub struct FaultyFile {
    file: File,
    script: Rc<Script>,
}

fn unsupported() -> io::Error {
    io::Error::from(ErrorKind::Unsupported)
}

impl Files for FaultyRuntime {
    type File = FaultyFile;

    type Dir = FaultyFile;

    fn open_file(&self, how: &OpenOptions, path: &str) -> io::Result<FaultyFile> {
        let script = self.script.clone()?;
        let file = how.open(&self.rt, path)?;
        Ok(FaultyFile { file, script })
    }

    fn open_dir(&self, _path: &str) -> io::Result<FaultyFile> {
        Err(unsupported())
    }

    fn metadata(&self, _path: &str) -> io::Result<Metadata> {
        Err(unsupported())
    }

    fn symlink_metadata(&self, _path: &str) -> io::Result<Metadata> {
        Err(unsupported())
    }

    fn copy(&self, _from: &str, _to: &str) -> io::Result<u64> {
        Err(unsupported())
    }

    fn rename(&self, _from: &str, _to: &str) -> io::Result<()> {
        Err(unsupported())
    }

    fn remove_file(&self, _path: &str) -> io::Result<()> {
        Err(unsupported())
    }

    fn create_dir(&self, _path: &str) -> io::Result<()> {
        Err(unsupported())
    }

    fn remove_dir(&self, _path: &str) -> io::Result<()> {
        Err(unsupported())
    }

    fn remove_dir_all<B: Allocator>(&self, _alloc: B, _path: &str) -> io::Result<()> {
        Err(unsupported())
    }
}

impl Read for FaultyFile {
    fn read(&mut self, into: &mut [u8]) -> io::Result<usize> {
        self.script.call()?;
        let count = into.len().min(self.script.most);
        self.file.read(&mut into[..count])
    }
}

impl Write for FaultyFile {
    fn write(&mut self, piece: &[u8]) -> io::Result<usize> {
        self.script.call()?;
        self.file.write(self.script.front(piece))
    }

    fn flush(&mut self) -> io::Result<()> {
        Ok(())
    }
}

impl Seek for FaultyFile {
    fn seek(&mut self, to: SeekFrom) -> io::Result<u64> {
        self.file.seek(to)
    }
}

impl OpenFile for FaultyFile {
    fn metadata(&self) -> io::Result<Metadata> {
        self.file.metadata()
    }

    fn set_len(&self, size: u64) -> io::Result<()> {
        self.script.call()?;
        self.file.set_len(size)
    }

    fn sync_all(&self) -> io::Result<()> {
        Err(unsupported())
    }

    fn sync_data(&self) -> io::Result<()> {
        Err(unsupported())
    }
}

impl Print for FaultyRuntime {
    fn print<D: Display + Drop>(&self, _value: D) -> io::Result<()> {
        Err(unsupported())
    }

    fn println<D: Display + Drop>(&self, _value: D) -> io::Result<()> {
        Err(unsupported())
    }

    fn write_all(&self, _bytes: &[u8]) -> io::Result<()> {
        Err(unsupported())
    }

    fn write_some(&self, bytes: &[u8]) -> io::Result<usize> {
        self.script.call()?;
        let taken = self.script.front(bytes);
        let mut printed = self.script.printed.try_borrow_mut()?;
        if printed.extend_from_slice(taken).is_err() {
            return Err(io::Error::from(ErrorKind::OutOfMemory));
        }
        Ok(taken.len())
    }
}
