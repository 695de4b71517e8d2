//! Tests of the desk over real files and standard output.
use super::long_bytes;
use crate::{Desk, Failed, ReadError, RealDesk, print_whole, read_whole, write_whole};
use anyhow::ensure;
use std::fs;

#[test]
fn whole_real_files(rt: HostRuntime) -> anyhow::Result<()> {
    let name = "cut_desk_whole_real_files.txt";
    let long = long_bytes(rt.alloc())?;
    let mut desk = RealDesk::new(rt.clone()?);
    write_whole(&mut desk, name, &long)?;
    ensure!(read_whole(rt.alloc(), &mut desk, name, 5000)?.as_slice() == long.as_slice());
    // A shorter file takes the place of the longer one.
    write_whole(&mut desk, name, b"hello")?;
    ensure!(read_whole(rt.alloc(), &mut desk, name, 5)?.as_slice() == b"hello".as_slice());
    ensure!(read_whole(rt.alloc(), &mut desk, name, 4).err() == Some(ReadError::TooLong));
    fs::remove_file(&rt, name)?;
    ensure!(read_whole(rt.alloc(), &mut desk, name, 5).err() == Some(ReadError::Failed));
    print_whole(&mut desk, b"printed\n")?;
    Ok(())
}

#[test]
fn writes_are_taken_or_fail(rt: HostRuntime) -> anyhow::Result<()> {
    let name = "cut_desk_places.txt";
    let mut desk = RealDesk::new(rt.clone()?);
    let rows = [
        ("cut_desk_absent_folder/out.txt", 0, "x", Err(Failed)),
        // Only at place 0 a file is made.
        (name, 3, "x", Err(Failed)),
        (name, 0, "hello", Ok(5)),
        (name, 5, " world", Ok(6)),
        // Each write to the first of these devices fails, and the second can't be cut.
        ("/dev/full", 0, "x", Err(Failed)),
        ("/dev/null", 0, "x", Ok(1)),
    ];
    for (file, at, piece, want) in &rows {
        ensure!(desk.write(file, *at, piece.as_bytes()) == *want);
    }
    ensure!(fs::read_to_string(&rt, name)?.as_str() == "hello world");
    let mut piece = [0u8; 3];
    ensure!(desk.read(name, 6, &mut piece) == Ok(3));
    ensure!(piece.as_slice() == b"wor".as_slice());
    fs::remove_file(&rt, name)?;
    Ok(())
}

/// Whether a read of three bytes gives these.
fn reads(desk: &mut RealDesk<HostRuntime>, name: &str, at: u64, want: &str) -> bool {
    let mut piece = [0u8; 3];
    desk.read(name, at, &mut piece) == Ok(3) && piece.as_slice() == want.as_bytes()
}

#[test]
fn a_read_goes_on_in_the_open_file(rt: HostRuntime) -> anyhow::Result<()> {
    let (name, other) = ("cut_desk_replaced.txt", "cut_desk_other.txt");
    fs::write(&rt, name, "abcdef")?;
    fs::write(&rt, other, "ABCDEF")?;
    let mut desk = RealDesk::new(rt.clone()?);
    ensure!(reads(&mut desk, name, 0, "abc"));
    // The other file takes the name, and the open one is still read.
    fs::rename(&rt, other, name)?;
    fs::write(&rt, other, "123456")?;
    let rows = [
        (name, 3, "def"),
        (other, 3, "456"),
        (name, 3, "DEF"),
        (name, 0, "ABC"),
    ];
    for (file, at, want) in &rows {
        ensure!(reads(&mut desk, file, *at, want));
    }
    fs::remove_file(&rt, name)?;
    fs::remove_file(&rt, other)?;
    Ok(())
}
