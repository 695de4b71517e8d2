//! Tests of the desk over real files whose calls fail, or take little.
use super::faulty_runtime::{FaultyRuntime, Script};
use super::long_bytes;
use crate::{ReadError, RealDesk, print_whole, read_whole, write_whole};
use anyhow::ensure;
use std::fs;
use std::rc::Rc;

fn scripted(rt: &HostRuntime, script: &Rc<Script>) -> anyhow::Result<RealDesk<FaultyRuntime>> {
    let (rt, script) = (rt.clone()?, script.clone()?);
    Ok(RealDesk::new(FaultyRuntime { rt, script }))
}

const OLD: &str = "the old content";

/// Whether a new text is written over the old one or not, and then this stands in the file.
fn is_written(
    rt: &HostRuntime,
    name: &str,
    script: &Rc<Script>,
    (done, text): (bool, &str),
) -> anyhow::Result<bool> {
    fs::write(rt, name, OLD)?;
    let written = write_whole(&mut scripted(rt, script)?, name, b"new");
    let stands = fs::read_to_string(rt, name)?;
    Ok(written.is_ok() == done && stands.as_str() == text)
}

#[test]
fn a_failed_write_leaves_the_old_content(rt: HostRuntime) -> anyhow::Result<()> {
    let name = "cut_desk_failed_write.txt";
    let rows = [
        (0, 4096, (true, "new")),
        (0, 2, (true, "new")),
        // The first write fails, or takes nothing.
        (1, 4096, (false, OLD)),
        (0, 0, (false, OLD)),
        // The cut behind the first write.
        (2, 4096, (false, "new old content")),
        // The second write, behind two bytes.
        (3, 2, (false, "ne")),
    ];
    for (failing, most, want) in &rows {
        let script = Script::new(&rt, *failing, *most)?;
        ensure!(is_written(&rt, name, &script, *want)?);
    }
    fs::remove_file(&rt, name)?;
    Ok(())
}

/// Whether five thousand bytes are read, or the read fails.
fn is_read(rt: &HostRuntime, name: &str, script: &Rc<Script>, done: bool) -> anyhow::Result<bool> {
    let long = long_bytes(rt.alloc())?;
    let mut desk = scripted(rt, script)?;
    match read_whole(rt.alloc(), &mut desk, name, 5000) {
        Ok(bytes) => Ok(done && bytes.as_slice() == long.as_slice()),
        Err(error) => Ok(!done && error == ReadError::Failed),
    }
}

#[test]
fn a_late_read_fault_is_no_end(rt: HostRuntime) -> anyhow::Result<()> {
    let name = "cut_desk_late_read_fault.txt";
    fs::write(&rt, name, long_bytes(rt.alloc())?)?;
    // The third read finds the end, where the first two give all bytes.
    let rows = [
        (0, 4096, true),
        (0, 1000, true),
        (1, 4096, false),
        (2, 4096, false),
        (3, 4096, false),
    ];
    for (failing, most, done) in &rows {
        let script = Script::new(&rt, *failing, *most)?;
        ensure!(is_read(&rt, name, &script, *done)?);
    }
    fs::remove_file(&rt, name)?;
    Ok(())
}

/// Whether five thousand bytes are printed or not, and then so many of them are.
fn is_printed(
    rt: &HostRuntime,
    script: &Rc<Script>,
    (done, count): (bool, usize),
) -> anyhow::Result<bool> {
    let long = long_bytes(rt.alloc())?;
    let printed = print_whole(&mut scripted(rt, script)?, &long);
    let front = &long[..count.min(long.len())];
    Ok(printed.is_ok() == done && script.has_printed(front))
}

#[test]
fn no_more_is_claimed_than_was_printed(rt: HostRuntime) -> anyhow::Result<()> {
    let rows = [
        (0, 5000, (true, 5000)),
        (0, 200, (true, 5000)),
        (1, 200, (false, 0)),
        (3, 200, (false, 400)),
        (0, 0, (false, 0)),
    ];
    for (failing, most, want) in &rows {
        let script = Script::new(&rt, *failing, *most)?;
        ensure!(is_printed(&rt, &script, *want)?);
    }
    Ok(())
}
