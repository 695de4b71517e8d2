//! Drawings, read from the bytes of a file.
ghost use Rattle.std.specs.Prelude.{◌≡◌, ◌≢◌, ◌≤◌, ◌^◌, ◌⊎◌, Some, None, IfOk, IfErr, All, length};
ghost use Rattle.nest_base.specs.Range.{IsWithin, IsSegmentWithin, range};
ghost use Rattle.nest_base.specs.Limits.{most_bytes, most_segments, most_names};
ghost use Rattle.dxf_entities.specs.declared.error.DrawingError.TheVariants.{OutOfMemory as NoMemory};
ghost use Rattle.dxf_drawing.specs.Drawings.{segments_of, names_of, read_refusal_of};

use crate::reader::Reader;
use dxf_entities::DrawingError;
use nest_base::Drawing;
use std::alloc::Global;

/// The segments and the names of a drawing, in file order, or why it's refused.
///
/// Of several refusals the first comes: by the lines of the file, then by the entities in file order, then for want of a segment.
/// `OutOfMemory` may come in place of any answer. Coordinates are micrometres.
pub fn read_drawing(alloc: Global, bytes: &[u8]) -> Result<Drawing, DrawingError>
    requires few { length bytes.now ≤ most_bytes }
    ensures accepted { IfOk result (λ drawing. read_refusal_of bytes.now ≡ None) }
    ensures segments { IfOk result (λ drawing. drawing.segments ≡ segments_of bytes.now) }
    ensures names { IfOk result (λ drawing. drawing.names ≡ names_of bytes.now) }
    ensures most_segments { IfOk result (λ drawing. length drawing.segments ≤ most_segments) }
    ensures most_names { IfOk result (λ drawing. length drawing.names ≤ most_names) }
    ensures within { IfOk result (λ drawing. All (IsSegmentWithin range) drawing.segments) }
    ensures names_within { IfOk result (λ drawing. All (λ name. IsWithin range name.at) drawing.names) }
    ensures lengths { IfOk result (λ drawing. All (λ s. s.a ≢ s.b) drawing.segments) }
    ensures refused { IfErr result (λ why. (why ≡ NoMemory) ⊎ (read_refusal_of bytes.now ≡ Some why)) }
{
    let mut reader = Reader::new(alloc)?;
    for byte in bytes {
        reader.take(alloc, *byte)?;
    }
    reader.end(alloc)?;
    reader.into_drawing()
}
