//! The faces that names name, and the names that faces have.
ghost use Rattle.std.specs.Prelude.{◌≡◌, ◌<◌, ◌≤◌, length, All, IfOk, IfErr};
ghost use Rattle.nest_base.specs.Limits.{most_names};
ghost use Rattle.nest_base.specs.Range.{IsWithin, widest};
ghost use Rattle.plate_sides.specs.Nesting.{SeesOne};
ghost use Rattle.plate_parts.specs.Parts.{IsWellPlaced};
ghost use Rattle.half_edges.specs.Numbers.{half_edges_of};
ghost use Rattle.face_nesting.specs.Numbering.{face_numbers_of};
ghost use Rattle.face_nesting.specs.Nesting.{AreFaces, IsFaceCount};
ghost use Rattle.part_scrap.specs.Naming.{places_of, file_lines_of, AreFacesAt, AreNamesOf};
ghost use Rattle.part_scrap.specs.Refusals.{IsPartRefusal, IsClash};

use crate::error::PartError;
use face_nesting::{FaceId, Faces};
use half_edges::PlaneGraph;
use nest_base::Name;
use std::alloc::Global;

/// The face of each name. `OnLine` and `NamesOuter` come of the first name that lies on an edge or in the outer face.
pub fn faces_named(
    alloc: Global,
    graph: &PlaneGraph,
    faces: &Faces,
    names: &[Name],
) -> Result<Vec<FaceId>, PartError>
    requires places { All (λ n. IsWithin widest n.at) names.now }
    requires as_many { length faces.now.faces ≡ length (half_edges_of graph.now.edges) }
    requires faces { AreFaces graph.now.edges faces.now.faces }
    requires count { IsFaceCount faces.now.faces faces.now.count }
    requires sees_one { SeesOne graph.now.edges }
    ensures faces_at { IfOk result (λ named. AreFacesAt graph.now.edges faces.now.faces (places_of names.now) (face_numbers_of named.items)) }
    ensures below { IfOk result (λ named. All (λ f. f.0 < faces.now.count) named.items) }
    ensures well_placed { IfOk result (λ _. All (IsWellPlaced graph.now.edges) (places_of names.now)) }
    ensures refusal { IfErr result (IsPartRefusal graph.now.edges names.now) }
{
    let mut named = Vec::new(alloc);
    for name in names {
        if faces.on_drawing(graph, name.at) {
            return Err(PartError::OnLine(name.line));
        }
        let face = faces.face_at(graph, name.at);
        if face == faces.outer() {
            return Err(PartError::NamesOuter(name.line));
        }
        named.push(face)?;
    }
    Ok(named)
}

/// By number of a face the name that names it. `TwoNames` comes of the first name whose face an earlier one has.
pub fn names_by_face(
    alloc: Global,
    count: u32,
    named: &[FaceId],
    names: &[Name],
) -> Result<Vec<Option<u32>>, PartError>
    requires few { length names.now ≤ most_names }
    requires as_many { length named.now ≡ length names.now }
    requires below { All (λ f. f.0 < count) named.now }
    ensures names_of { IfOk result (λ by_face. AreNamesOf count (face_numbers_of named.now) by_face.items) }
    ensures clash { IfErr result (IsClash (face_numbers_of named.now) (file_lines_of names.now)) }
{
    let mut by_face = vec![in alloc; None; count as usize]?;
    for (i, face) in named.iter().enumerate() {
        let slot = face.0 as usize;
        if let Some(earlier) = by_face[slot] {
            let first = names[earlier as usize].line;
            return Err(PartError::TwoNames(first, names[i].line));
        }
        by_face[slot] = Some(i as u32);
    }
    Ok(by_face)
}
