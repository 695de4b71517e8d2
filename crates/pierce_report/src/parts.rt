//! The lines of parts.
ghost use Rattle.std.specs.Prelude.{◌≡◌, ◌<◌, ◌≤◌, ◌++◌, All, OnOk, flat_map, length};
ghost use Rattle.nest_base.specs.Limits.{most_names};
ghost use Rattle.pierce_report.specs.Report.{part_text};
ghost use Rattle.pierce_report.specs.Parts.{part_rows};

use crate::text::put_part;
use face_nesting::Faces;
use nest_base::{Name, OutOfMemory, Text};
use part_scrap::Parts;

/// Appends the line of each name, in order: its text, and the rank of its face.
pub fn put_parts(
    faces: &Faces,
    parts: &Parts,
    names: &[Name],
    out: &mut Text,
) -> Result<(), OutOfMemory>
    requires few { length names.now ≤ most_names }
    requires as_many { length parts.now.faces ≡ length names.now }
    requires within { All (λ f. f < faces.now.count) parts.now.faces }
    ensures { OnOk result (out.new ≡ out.old ++ flat_map part_text (part_rows faces.now.ranks parts.now.faces names.now)) }
{
    for (i, name) in names.iter().enumerate() {
        let face = parts.face_of_name(i as u32);
        put_part(name.text.as_slice(), faces.rank(face), out)?;
    }
    Ok(())
}
