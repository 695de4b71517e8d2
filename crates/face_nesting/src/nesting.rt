//! The faces of a graph, and what is read of them.
ghost use Rattle.std.specs.Prelude.{◌≡◌, ◌≤◌, ◌<◌, length, slice_get, slice_index, Some, None, IfOk, option_map, map};
ghost use Rattle.nest_base.specs.declared.numbers.Component.{Component};
ghost use Rattle.plate_sides.specs.Nesting.{HasMarkSides, SeesOne, AreParents};
ghost use Rattle.half_edges.specs.Numbers.{half_edges_of};
ghost use Rattle.face_nesting.specs.Numbering.{outer_face};
ghost use Rattle.nest_base.specs.NumberLists.{parent_numbers, side_numbers};
ghost use Rattle.face_nesting.specs.Nesting.{AreFaces, IsFaceCount, AreRanks, AreOuterCycles, cycle_at};

use crate::cycles::cycles_of;
use crate::marks::mark_sides;
pub use crate::numbering::FaceId;
use crate::numbering::{OUTER, faces_of, outer_faces, parents_of};
use crate::ranks::ranks_of;
use crate::sights::sights_of;
use half_edges::PlaneGraph;
use nest_base::{Component, Edges, OutOfMemory, Side};
use std::alloc::Global;
use std::marker::Model;

/// The faces of a plane graph, by number, and how its components lie in them. Contracts see it as the lists of a `Nesting`.
///
/// It belongs to the graph that it was built on.
#[derive(Drop)]
pub struct Faces {
    face_list: Vec<FaceId>,
    number_of_faces: u32,
    rank_list: Vec<u32>,
    parent_list: Vec<Option<Component>>,
    sides: Vec<Side>,
    starts: Vec<u32>,
}

impl Model for Faces {
    ghost use Rattle.face_nesting.specs.Nesting.{Nesting, IsNesting};
    ghost use Rattle.face_nesting.specs.Views.{nesting_view};

    ghost Value = { Nesting };

    ghost view = { nesting_view };

    ghost invariant = { λ f. IsNesting (nesting_view f) };
}

impl Faces {
    /// The faces of a graph, made with the edges that it was built on.
    ///
    /// Takes **O(n + kn)** for n edges and k components. `OutOfMemory` comes for want of memory alone.
    pub fn build(alloc: Global, graph: &PlaneGraph, edges: &Edges) -> Result<Faces, OutOfMemory>
        requires edges { edges.now ≡ graph.now.edges }
        ensures as_many { IfOk result (λ f. length f.faces ≡ length (half_edges_of graph.now.edges)) }
        ensures faces { IfOk result (λ f. AreFaces graph.now.edges f.faces) }
        ensures count { IfOk result (λ f. IsFaceCount f.faces f.count) }
        ensures ranks { IfOk result (λ f. AreRanks graph.now.edges f.faces f.ranks) }
        ensures parents { IfOk result (λ f. AreParents graph.now.edges graph.now.marks f.parents) }
        ensures outer_cycles { IfOk result (λ f. AreOuterCycles graph.now f) }
        ensures mark_sides { IfOk result (λ f. HasMarkSides graph.now.edges) }
        ensures sees_one { IfOk result (λ f. SeesOne graph.now.edges) }
    {
        let marks = mark_sides(alloc, graph)?;
        let sights = sights_of(alloc, graph, edges.as_slice())?;
        let cycles = cycles_of(alloc, graph, &marks)?;
        let outer = outer_faces(alloc, &cycles.cycle_of, &sights)?;
        let inner = (cycles.starts.len() - 1 - marks.len()) as u32;
        let number_of_faces = inner + 1;
        let face_list = faces_of(alloc, &cycles.cycle_of, &outer)?;
        let parent_list = parents_of(alloc, graph, &sights)?;
        let rank_list = ranks_of(alloc, graph, &face_list, number_of_faces)?;
        Ok(Faces {
            face_list,
            number_of_faces,
            rank_list,
            parent_list,
            sides: cycles.sides,
            starts: cycles.starts,
        })
    }

    /// The face to the left of a half-edge.
    pub fn face_of(&self, s: Side) -> FaceId
        requires { s.0 < length self.now.faces }
        ensures { slice_get self.now.faces s.0 ≡ Some result.0 }
    {
        self.face_list[s.0 as usize]
    }

    /// The face that holds the outside.
    pub fn outer(&self) -> FaceId
        ensures { result.0 ≡ outer_face }
    {
        OUTER
    }

    /// How many faces there are, the outer one among them.
    pub fn face_count(&self) -> u32
        ensures { result ≡ self.now.count }
    {
        self.number_of_faces
    }

    /// The rank of a face: the fewest edges to be crossed from it to the outer one.
    pub fn rank(&self, f: FaceId) -> u32
        requires { f.0 < self.now.count }
        ensures { slice_get self.now.ranks f.0 ≡ Some result }
    {
        self.rank_list[f.0 as usize]
    }

    /// The mark side of a component: of the half-edges that leave its mark vertex, the one that is met last, counterclockwise from west.
    pub fn mark_side(&self, c: Component) -> Side
        requires { c.0 < length self.now.parents }
        ensures { slice_get (cycle_at self.now c.0) 0 ≡ Some result.0 }
    {
        self.sides[self.starts[c.0 as usize] as usize]
    }

    /// The component that a component lies in; `None` exactly where it lies in none.
    pub fn parent(&self, c: Component) -> Option<Component>
        requires { c.0 < length self.now.parents }
        ensures { slice_get self.now.parents c.0 ≡ Some (option_map (λ (p : Component). p.0) result) }
    {
        self.parent_list[c.0 as usize]
    }

    /// The parent of each component, by number.
    pub fn parents(&self) -> &[Option<Component>]
        ensures { parent_numbers result.now ≡ self.now.parents }
    {
        &self.parent_list
    }

    /// The outer sides of a component, each once, from the mark side on as each goes along to the next.
    pub fn outer_sides(&self, c: Component) -> &[Side]
        requires { c.0 < length self.now.parents }
        ensures { side_numbers result.now ≡ cycle_at self.now c.0 }
    {
        let first = self.starts[c.0 as usize] as usize;
        let behind = self.starts[c.0 as usize + 1] as usize;
        &self.sides[first..behind]
    }
}
