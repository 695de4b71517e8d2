//! Tests of what no clause says: of the desk in memory by cases, and of the desk over real files.
ghost use Rattle.std.specs.Prelude.{◌≡◌, IfOk, vec_len};

mod faulty;
mod faulty_runtime;
mod memory;
mod real;

use std::alloc::{AllocError, Global};

/// Five thousand bytes, more than one piece.
fn long_bytes(alloc: Global) -> Result<Vec<u8>, AllocError>
    ensures { IfOk result (λ bytes. vec_len bytes ≡ 5000) }
{
    (0..5000u32).map(|i| (i % 251) as u8).collect(alloc)
}
