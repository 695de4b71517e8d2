//! Whole files over any desk, in as many calls as the desk wants.
ghost use Rattle.std.specs.Prelude.{◌≡◌, ◌≤◌, ◌<◌, ◌^◌, ◌⊎◌, IfOk, OnOk, OnErr, IsErrOf, Some, None, length, vec_len};
ghost use Rattle.nest_base.specs.Limits.{most_bytes};
ghost use Rattle.cut_desk.specs.Outside.{Rose, Later, SameHeld, SameFiles, SameOthers, WhereTold, IsTold, IsPartlyWritten, IsPartlyPrinted, made_of, print_more};

use crate::desk::{Desk, Failed};
use std::alloc::Global;
use thiserror::Error;

/// Why a file wasn't read.
#[derive(Clone, Copy, Debug, PartialEq, Eq, Drop, Error)]
pub enum ReadError {
    /// A read of the desk failed.
    #[error("the file wasn't read")]
    Failed,
    /// The file has more bytes than the limit.
    #[error("the file is too long")]
    TooLong,
    /// Memory ran out.
    #[error("out of memory")]
    OutOfMemory,
}

/// How many bytes a read asks for at most.
const PIECE: usize = 4096;

/// The bytes of a file, where it has at most `limit`, which is at most 2^26.
///
/// `Failed` comes only where the name's count of read faults rose in this call, and always for an absent file. `TooLong`
/// comes exactly where one byte more than the limit came. Whatever it answers, no file has changed and nothing was printed.
/// It takes memory for the bytes, and a piece of 4,096 bytes on the stack.
pub fn read_whole<D: Desk>(
    alloc: Global,
    desk: &mut D,
    name: &str,
    limit: u64,
) -> Result<Vec<u8>, ReadError>
    requires { limit ≤ most_bytes }
    ensures whole { IfOk result (λ bytes. IsTold ((D.seen desk.old).held name.now) bytes.items) }
    ensures short { IfOk result (λ bytes. vec_len bytes ≤ limit) }

    // Where the bytes are told, a file longer than the limit is `TooLong` unless the desk or memory fails, and no other is.
    ensures long { IsErrOf result ReadError.TooLong → WhereTold ((D.seen desk.old).held name.now) (λ file. limit < length file) }
    ensures beyond { WhereTold ((D.seen desk.old).held name.now) (λ file. limit < length file →
        IsErrOf result ReadError.TooLong ⊎ IsErrOf result ReadError.Failed ⊎ IsErrOf result ReadError.OutOfMemory) }
    ensures absent { (D.seen desk.old).held name.now ≡ Some None → IsErrOf result ReadError.Failed }
    ensures failed { IsErrOf result ReadError.Failed → Rose ((D.seen desk.old).read_faults name.now) ((D.seen desk.new).read_faults name.now) }

    // What stays the same.
    ensures same { SameFiles (D.seen desk.old) (D.seen desk.new) }
    ensures later { Later (D.seen desk.old) (D.seen desk.new) }
{
    let mut bytes = Vec::new(alloc);
    let mut piece = [0u8; PIECE];
    while bytes.len() as u64 <= limit {
        let at = bytes.len() as u64;
        let wanted = (limit + 1 - at).min(PIECE as u64) as usize;
        let Ok(count) = desk.read(name, at, &mut piece[..wanted]) else {
            return Err(ReadError::Failed);
        };
        if count == 0 {
            return Ok(bytes);
        }
        if bytes.extend_from_slice(&piece[..count]).is_err() {
            return Err(ReadError::OutOfMemory);
        }
    }
    Err(ReadError::TooLong)
}

/// Makes the file of a name these bytes, of which there is at least one.
///
/// `Failed` comes only where the name's count of write faults rose in this call. The file then holds what it held before, or
/// the front of the bytes that was written so far. It takes no memory.
pub fn write_whole<D: Desk>(desk: &mut D, name: &str, bytes: &[u8]) -> Result<(), Failed>
    requires { 0 < length bytes.now }
    ensures ok { OnOk result ((D.seen desk.new).held name.now ≡ made_of ((D.seen desk.old).held name.now) bytes.now) }
    ensures err { OnErr result (IsPartlyWritten ((D.seen desk.old).held name.now) ((D.seen desk.new).held name.now) bytes.now) }
    ensures cause { OnErr result (Rose ((D.seen desk.old).write_faults name.now) ((D.seen desk.new).write_faults name.now)) }
    ensures others { SameOthers name.now (D.seen desk.old) (D.seen desk.new) }
    ensures later { Later (D.seen desk.old) (D.seen desk.new) }
{
    let mut done = 0usize;
    while done < bytes.len() {
        done += desk.write(name, done as u64, &bytes[done..])?;
    }
    Ok(())
}

/// Prints these bytes.
///
/// `Failed` comes only where the count of print faults rose in this call. A front of the bytes was then printed. It takes no
/// memory.
pub fn print_whole<D: Desk>(desk: &mut D, bytes: &[u8]) -> Result<(), Failed>
    ensures ok { OnOk result ((D.seen desk.new).printed ≡ print_more (D.seen desk.old).printed bytes.now) }
    ensures err { OnErr result (IsPartlyPrinted (D.seen desk.old).printed (D.seen desk.new).printed bytes.now) }
    ensures cause { OnErr result (Rose (D.seen desk.old).print_faults (D.seen desk.new).print_faults) }
    ensures files { SameHeld (D.seen desk.old) (D.seen desk.new) }
    ensures later { Later (D.seen desk.old) (D.seen desk.new) }
{
    let mut done = 0usize;
    while done < bytes.len() {
        done += desk.print(&bytes[done..])?;
    }
    Ok(())
}
