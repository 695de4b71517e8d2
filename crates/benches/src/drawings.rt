//! A long drawing, read whole: a small one over and over, with as many segments and names as there is room for.
use crate::sample::{DRAWING, LAST_PAIR};
use anyhow::{Result, bail};
use dxf_drawing::read_drawing;
use std::alloc::{AllocError, Global};

/// How many of these are one drawing: 3.4 MiB.
const COPIES: u32 = 5_000;

/// The most bytes of a drawing.
const MOST_BYTES: usize = 1 << 26;

/// The long drawing.
fn drawing_of(alloc: Global) -> Result<Vec<u8>, AllocError> {
    let mut bytes = Vec::new(alloc);
    for _ in 0..COPIES {
        bytes.extend_from_slice(DRAWING)?;
    }
    bytes.extend_from_slice(LAST_PAIR)?;
    Ok(bytes)
}

/// How many segments come of reading the long drawing so often.
pub fn segments_of(alloc: Global, readings: u32) -> Result<usize> {
    let bytes = drawing_of(alloc)?;
    if bytes.len() > MOST_BYTES {
        bail!("the drawing is too long");
    }
    let mut count = 0usize;
    for _ in 0..readings {
        let drawing = read_drawing(alloc, &bytes)?;
        count = count.saturating_add(drawing.segments().len());
    }
    Ok(count)
}
