//! A long code, read whole: a small chain over and over.
use anyhow::{Result, bail};
use ngc_meaning::read_code;
use std::alloc::{AllocError, Global};

/// How a code begins.
const HEAD: &[u8] = b"G21 G90\nF1000 S1\n";

/// One chain, as it is written: 106 bytes, a way to its first vertex and four cuts.
const CHAIN: &[u8] = b"G0 X123.456 Y78.900\nM3\n\
    G1 X133.456 Y78.900\nG1 X133.456 Y88.900\nG1 X123.456 Y88.900\nG1 X123.456 Y78.900\n\
    M5\n";

const TAIL: &[u8] = b"M2\n";

/// How many of these are one code: 5.1 MiB.
const COPIES: u32 = 50_000;

/// The most bytes of a code.
const MOST_BYTES: usize = 1 << 26;

/// The long code.
fn code_of(alloc: Global) -> Result<Vec<u8>, AllocError> {
    let mut bytes = Vec::new(alloc);
    bytes.extend_from_slice(HEAD)?;
    for _ in 0..COPIES {
        bytes.extend_from_slice(CHAIN)?;
    }
    bytes.extend_from_slice(TAIL)?;
    Ok(bytes)
}

/// How many moves come of reading the long code so often.
pub fn moves_of(alloc: Global, readings: u32) -> Result<usize> {
    let bytes = code_of(alloc)?;
    if bytes.len() > MOST_BYTES {
        bail!("the code is too long");
    }
    let mut count = 0usize;
    for _ in 0..readings {
        let moves = read_code(alloc, &bytes)?;
        count = count.saturating_add(moves.as_slice().len());
    }
    Ok(count)
}
