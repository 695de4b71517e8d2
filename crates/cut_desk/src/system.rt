//! Calls of the system on files, and what they come to.
ghost use Rattle.std.specs.Prelude.{◌≡◌, ◌+◌, ◌-◌, ◌^◌, Ok, IfOk, IfSome, OnOk, length, min};
ghost use Rattle.std.specs.Result.{result_ok};
ghost use Rattle.std.specs.Io.{ReadsAtMost, WritesAtMost};
ghost use Rattle.std.specs.Io.Seek.{MovesTo};
ghost use Rattle.cut_desk.specs.Outside.{IsTaken};
ghost use Rattle.cut_desk.specs.Opened.{IsKeptOpen, open_file_for};
ghost use Rattle.cut_desk.specs.System.{taken_of, options_to_write};

use crate::opened::{self, Opened};
use std::fs::{File, OpenFile, OpenOptions};
use std::io::{self, ErrorKind, Read, Seek, SeekFrom, Write};
use std::rt::Files;

/// Reads once from a place of the file of a name, and keeps the file open.
///
/// Above place 0 it goes on in the open file, where that has this name; else it opens the file anew.
pub fn read_some<R: Files>(
    runtime: &R,
    opened: &mut Option<Opened<R::File>>,
    name: &str,
    at: u64,
    into: &mut [u8],
) -> io::Result<usize>
    ensures count { ReadsAtMost result into.new }
    ensures kept { OnOk result (IsKeptOpen name.now opened.new) }
{
    let mut file = open_to_read(runtime, opened.take(), name, at)?;
    let result = read_at(&mut file, at, into);
    *opened = Opened::new(name, file);
    result
}

/// The file that is read at a place.
fn open_to_read<R: Files>(
    runtime: &R,
    opened: Option<Opened<R::File>>,
    name: &str,
    at: u64,
) -> io::Result<R::File>
    ensures { IfSome (open_file_for opened name.now at) (λ file. result ≡ Ok file) }
{
    match opened::file_for(opened, name, at) {
        Some(file) => Ok(file),
        None => File::open(runtime, name),
    }
}

/// Goes to a place of a file and reads once.
fn read_at<F: Read + Seek>(file: &mut F, at: u64, into: &mut [u8]) -> io::Result<usize>
    ensures { ReadsAtMost result into.new }
{
    go_to(file, at)?;
    file.read(into)
}

/// Writes the front of a piece at a place of the file of a name, and cuts the file where what was taken ends.
///
/// At place 0 an absent file is made. A file that is there is never emptied first: where no byte is taken, it stays as it
/// was.
pub fn write_some<R: Files>(runtime: &R, name: &str, at: u64, piece: &[u8]) -> io::Result<usize>
    ensures { IfOk result (λ count. IsTaken count piece.now) }
{
    let mut file = options_to_write(at).open(runtime, name)?;
    let count = write_at(&mut file, at, piece)?;
    cut(&file, end_of(at, count))?;
    Ok(count)
}

/// How a file is opened that is written at a place.
fn options_to_write(at: u64) -> OpenOptions
    ensures { result ≡ options_to_write at }
{
    let mut options = OpenOptions::new();
    options.write(true);
    options.create(at == 0);
    options
}

/// Goes to a place of a file and writes once.
fn write_at<F: Write + Seek>(file: &mut F, at: u64, piece: &[u8]) -> io::Result<usize>
    ensures { IfOk result (λ count. IsTaken count piece.now) }
{
    go_to(file, at)?;
    taken(file.write(piece), piece)
}

/// Goes to a place of a file.
fn go_to<F: Seek>(file: &mut F, at: u64) -> io::Result<()>
    ensures { MovesTo (F.stream_position file.old) (F.stream_position file.new) at result }
{
    file.seek(SeekFrom::Start(at))?;
    Ok(())
}

/// Where a piece ends of which `count` bytes were taken at a place; no file is longer than 2^64 - 1.
fn end_of(at: u64, count: usize) -> u64
    ensures { result ≡ min (at + count) (2 ^ 64 - 1) }
{
    at.saturating_add(count as u64)
}

/// Cuts a file that is longer than `end`. What isn't longer, as a device, is left alone.
fn cut<F: OpenFile>(file: &F, end: u64) -> io::Result<()> {
    if file.metadata()?.len() > end {
        file.set_len(end)?;
    }
    Ok(())
}

/// How many bytes of a piece a write took; it's an error to take none of a piece that isn't empty.
pub fn taken(call: io::Result<usize>, piece: &[u8]) -> io::Result<usize>
    ensures { result_ok result ≡ taken_of (result_ok call) piece.now }
{
    match call {
        Ok(0) if !piece.is_empty() => Err(io::Error::from(ErrorKind::WriteZero)),
        other => other,
    }
}
