//! Tests of the desk in memory.
use super::long_bytes;
use crate::{Desk, Failed, MemoryDesk, ReadError, print_whole, read_whole, write_whole};
use anyhow::ensure;

/// A call on a desk in memory. A read asks for three bytes.
#[derive(Drop)]
enum Call {
    Read(&'static str, u64),
    Make(&'static str, &'static str),
    Append(&'static str, &'static str),
    Print(&'static str),
}

fn outcome(desk: &mut MemoryDesk, call: &Call) -> Result<usize, Failed> {
    match call {
        Call::Read(name, at) => desk.read(name, *at, &mut [0u8; 3]),
        Call::Make(name, piece) => desk.write(name, 0, piece.as_bytes()),
        Call::Append(name, piece) => {
            let at = desk.file(name).map_or(0, |file| file.len() as u64);
            desk.write(name, at, piece.as_bytes())
        }
        Call::Print(piece) => desk.print(piece.as_bytes()),
    }
}

#[test]
fn calls_in_memory_fail_in_three_cases(rt: HostRuntime) -> anyhow::Result<()> {
    let mut desk = MemoryDesk::new(rt.alloc());
    desk.reserve("a", 6)?;
    desk.put_file("b", b"hello")?;
    desk.fail_call(3)?;
    let rows = [
        (Call::Read("b", 0), Ok(3), 0),
        (Call::Read("b", 3), Ok(2), 0),
        // The third call was told to fail.
        (Call::Read("b", 0), Err(Failed), 1),
        (Call::Read("b", 5), Ok(0), 1),
        // Room was taken for this name, but there is no file yet.
        (Call::Read("a", 0), Err(Failed), 2),
        (Call::Make("a", "abcd"), Ok(4), 2),
        (Call::Append("a", "ef"), Ok(2), 2),
        // One byte more than its room.
        (Call::Append("a", "g"), Err(Failed), 3),
        // This name has no room.
        (Call::Make("b", "x"), Err(Failed), 4),
        (Call::Print("12345"), Ok(5), 4),
        (Call::Print("67"), Err(Failed), 5),
        (Call::Print("6"), Ok(1), 5),
    ];
    for (call, want, faults) in &rows {
        ensure!(outcome(&mut desk, call) == *want);
        ensure!(desk.faults() == *faults);
    }
    ensure!(desk.file("a") == Some(b"abcdef".as_slice()));
    ensure!(desk.file("b") == Some(b"hello".as_slice()));
    ensure!(desk.file("c").is_none());
    ensure!(desk.printed() == b"123456".as_slice());
    Ok(())
}

#[test]
fn whole_files_in_memory(rt: HostRuntime) -> anyhow::Result<()> {
    let long = long_bytes(rt.alloc())?;
    let mut desk = MemoryDesk::new(rt.alloc());
    desk.put_file("in", &long)?;
    desk.reserve("out", 5000)?;
    ensure!(read_whole(rt.alloc(), &mut desk, "in", 5000)?.as_slice() == long.as_slice());
    ensure!(read_whole(rt.alloc(), &mut desk, "in", 4999).err() == Some(ReadError::TooLong));
    ensure!(desk.faults() == 0);
    ensure!(read_whole(rt.alloc(), &mut desk, "absent", 5000).err() == Some(ReadError::Failed));
    ensure!(desk.faults() == 1);
    write_whole(&mut desk, "out", &long)?;
    ensure!(desk.file("out") == Some(long.as_slice()));
    print_whole(&mut desk, b"printed\n")?;
    ensure!(desk.printed() == b"printed\n".as_slice());
    // Three reads, two reads, one, a write and a print were the calls so far. Of the next read the second piece fails.
    desk.fail_call(10)?;
    ensure!(read_whole(rt.alloc(), &mut desk, "in", 5000).err() == Some(ReadError::Failed));
    ensure!(desk.faults() == 2);
    Ok(())
}
