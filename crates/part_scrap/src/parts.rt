//! The parts of a plate, and what is read of them.
ghost use Rattle.std.specs.Prelude.{◌≡◌, ◌<◌, ◌≤◌, ◌↔◌, length, All, IfOk, IfErr, IsTrue, Some, None, slice_get};
ghost use Rattle.nest_base.specs.Limits.{most_names};
ghost use Rattle.nest_base.specs.Range.{IsWithin, widest};
ghost use Rattle.plate_sides.specs.Nesting.{SeesOne};
ghost use Rattle.plate_parts.specs.Parts.{AreDistinct};
ghost use Rattle.half_edges.specs.Numbers.{half_edges_of};
ghost use Rattle.face_nesting.specs.Nesting.{AreFaces, IsFaceCount};
ghost use Rattle.part_scrap.specs.Naming.{places_of, IsNaming, TellsScrap};
ghost use Rattle.part_scrap.specs.Refusals.{IsPartRefusal};

use crate::error::PartError;
use crate::named::{faces_named, names_by_face};
use face_nesting::{FaceId, Faces};
use half_edges::PlaneGraph;
use nest_base::Name;
use std::alloc::Global;
use std::marker::Model;

/// The parts of a plate: which face each name names, and which name each face has. Contracts see it as the lists of a `Naming`.
///
/// It belongs to the faces and the names that it was made of.
#[derive(Drop)]
pub struct Parts {
    /// By number of a name: the face that it names.
    face_list: Vec<FaceId>,
    /// By number of a face: the name that names it.
    name_list: Vec<Option<u32>>,
}

impl Model for Parts {
    ghost use Rattle.face_nesting.specs.Numbering.{face_numbers_of};
    ghost use Rattle.part_scrap.specs.Naming.{Naming};

    ghost Value = { Naming };

    ghost view = { λ parts. record { faces = face_numbers_of parts.face_list.items; names = parts.name_list.items } };
}

impl Parts {
    /// The parts that these names name. Names are numbered from 0, in the order of the file.
    ///
    /// `OnLine` or `NamesOuter` comes of the first name that lies on an edge or in the outer face. Where there is none, `TwoNames` comes
    /// of the first name whose face an earlier name has, and tells the line of that one first. `OutOfMemory` comes for want of memory
    /// alone.
    ///
    /// Takes **O(kn)** for k names and n edges, and memory for the names and the faces.
    pub fn name(
        alloc: Global,
        graph: &PlaneGraph,
        faces: &Faces,
        names: &[Name],
    ) -> Result<Parts, PartError>
        requires few { length names.now ≤ most_names }
        requires places { All (λ n. IsWithin widest n.at) names.now }
        requires as_many { length faces.now.faces ≡ length (half_edges_of graph.now.edges) }
        requires faces { AreFaces graph.now.edges faces.now.faces }
        requires count { IsFaceCount faces.now.faces faces.now.count }
        requires sees_one { SeesOne graph.now.edges }
        // What the parts are.
        ensures naming { IfOk result (λ parts. IsNaming graph.now.edges faces.now (places_of names.now) parts) }
        ensures tells_scrap { IfOk result (λ parts. TellsScrap graph.now.edges (places_of names.now) faces.now.faces parts.names) }
        ensures as_many_faces { IfOk result (λ parts. length parts.names ≡ faces.now.count) }
        ensures as_many_names { IfOk result (λ parts. length parts.faces ≡ length names.now) }
        // When there are none.
        ensures distinct { IfOk result (λ _. AreDistinct graph.now.edges (places_of names.now)) }
        ensures refusal { IfErr result (IsPartRefusal graph.now.edges names.now) }
    {
        let face_list = faces_named(alloc, graph, faces, names)?;
        let name_list = names_by_face(alloc, faces.face_count(), &face_list, names)?;
        Ok(Parts {
            face_list,
            name_list,
        })
    }

    /// Whether a face is scrap: no name names it.
    pub fn is_scrap(&self, f: FaceId) -> bool
        requires { f.0 < length self.now.names }
        ensures { IsTrue result ↔ (slice_get self.now.names f.0 ≡ Some None) }
    {
        self.name_list[f.0 as usize].is_none()
    }

    /// The number of the name that names a face; `None` exactly where the face is scrap.
    pub fn name_of(&self, f: FaceId) -> Option<u32>
        requires { f.0 < length self.now.names }
        ensures { slice_get self.now.names f.0 ≡ Some result }
    {
        self.name_list[f.0 as usize]
    }

    /// The face that the name with this number names.
    pub fn face_of_name(&self, index: u32) -> FaceId
        requires { index < length self.now.faces }
        ensures { slice_get self.now.faces index ≡ Some result.0 }
    {
        self.face_list[index as usize]
    }
}
