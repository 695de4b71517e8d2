//! The plane graph, and what is read of it.
ghost use Rattle.std.specs.Prelude.{◌≡◌, ◌≢◌, ◌≤◌, ◌<◌, [], ◌∷◌, ◌++◌, length, take, slice_get, Some, All, AllPairs, List, IfOk, IfSome, IfNone, IsTrue, ◌↔◌};
ghost use Rattle.nest_base.specs.Order.{IsBefore};
ghost use Rattle.nest_base.specs.Range.{IsEdgeWithin, widest};
ghost use Rattle.nest_base.specs.Plane.{HalfEdge, twin, direction, heading};
ghost use Rattle.nest_base.specs.Angles.{angle_cmp};
ghost use Rattle.nest_base.specs.Limits.{most_edges, most_half_edges};
ghost use Rattle.plate_edges.specs.Points.{EdgesMeetAtEndsOnly};
ghost use Rattle.plate_sides.specs.HalfEdges.{IsVertex, IsHalfEdge, IsNextCcw, IsNextCw};
ghost use Rattle.plate_sides.specs.Components.{SameComponent, AreMarks};
ghost use Rattle.plate_sides.specs.Links.{IsAlong};
ghost use Rattle.plate_sides.specs.Nesting.{IsRound};
ghost use Rattle.plate_sides.specs.Odd.{HasDegree};
ghost use Rattle.half_edges.specs.Numbers.{half_edges_of, IsSide};
ghost use Rattle.rotation_systems.specs.Twins.{twin_number};
ghost use Rattle.half_edges.specs.Rotations.{IsRotation};
ghost use Rattle.half_edges.specs.Layouts.{AreVertices};
ghost use Rattle.rotation_systems.specs.RotationSystem.{to as end_in, along as along_in, degree as degree_in};
ghost use Rattle.half_edges.specs.Graph.{rotations_of, origin_of, place_of, component_of, degree_of, side_in, ccw_of, cw_of};
ghost use Rattle.half_edges.specs.PlaneGraphs.{IsPlaneGraph};
ghost use Rattle.half_edges.specs.Burns.{AreOfTwoEdges, IsBurnt, with_burnt};

use crate::burns::Burns;
use crate::components::{Components, components_of};
use crate::layout::{Layout, layout_of};
use crate::places::{number_of, place_at};
use crate::rotation::{Direction, all_round, way};
use crate::sides::twin_of;
use nest_base::{Component, Edges, OutOfMemory, Point, Side, VertexId};
use std::alloc::Global;
use std::cmp::Ordering;
use std::marker::Model;

/// The graph of the edges of a drawing. Contracts see its edges in their order, its vertices in the order of mark vertices, and the
/// mark vertex of each component; the lists of numbers in which its half-edges stand, from which `rotations_of` makes a rotation
/// system; and the half-edges whose edges were burnt, in order.
#[derive(Drop)]
pub struct PlaneGraph {
    layout: Layout,
    /// All half-edges, vertex by vertex, and round each counterclockwise from west.
    all: Vec<Side>,
    components: Components,
    burns: Burns,
}

impl Model for PlaneGraph {
    ghost use Rattle.half_edges.specs.Graph.{Graph};
    ghost use Rattle.half_edges.specs.Views.{graph_view, HoldsGraph};

    ghost Value = { Graph };

    ghost view = { graph_view };

    ghost invariant = { HoldsGraph };
}

impl PlaneGraph {
    /// The graph of these edges: the edge at place k has the sides 2k, from low to high, and 2k + 1, from high to low. None is burnt.
    ///
    /// Takes **O(n log n)** for n edges, unless places were chosen to collide. `OutOfMemory` comes for want of memory alone.
    pub fn build(alloc: Global, edges: &Edges) -> Result<PlaneGraph, OutOfMemory>
        requires few { length edges.now ≤ most_edges }
        requires within { All (IsEdgeWithin widest) edges.now }
        requires ends_in_order { All (λ e. IsBefore e.low e.high) edges.now }
        requires apart { AllPairs EdgesMeetAtEndsOnly edges.now }
        ensures edges { IfOk result (λ graph. graph.edges ≡ edges.now) }
        ensures vertices { IfOk result (λ graph. AreVertices edges.now graph.vertices) }
        ensures marks { IfOk result (λ graph. AreMarks edges.now graph.marks) }
        ensures burnt { IfOk result (λ graph. graph.burnt ≡ []) }
    {
        let all = all_round(alloc, edges.as_slice())?;
        let layout = layout_of(alloc, edges.as_slice(), &all)?;
        let components = components_of(alloc, &layout, &all)?;
        let burns = Burns::none(alloc, edges.as_slice().len())?;
        Ok(PlaneGraph {
            layout,
            all,
            components,
            burns,
        })
    }

    /// How many edges there are.
    pub fn edge_count(&self) -> u32
        ensures count { result ≡ length self.now.edges }
        ensures plane_graph { IsPlaneGraph self.now }
    {
        self.layout.origins.len() as u32 / 2
    }

    /// How many half-edges there are, two for each edge.
    pub fn side_count(&self) -> u32
        ensures count { result ≡ length (half_edges_of self.now.edges) }
    {
        self.layout.origins.len() as u32
    }

    /// How many vertices there are.
    pub fn vertex_count(&self) -> u32
        ensures count { result ≡ length self.now.vertices }
        ensures vertices { AreVertices self.now.edges self.now.vertices }
        ensures round { IsRound self.now.edges }
    {
        self.layout.places.len() as u32
    }

    /// How many components there are.
    pub fn component_count(&self) -> u32
        ensures count { result ≡ length self.now.marks }
        ensures few { length self.now.marks ≤ most_half_edges }
        ensures marks { AreMarks self.now.edges self.now.marks }
        ensures plane_graph { IsPlaneGraph self.now }
    {
        self.components.marks.len() as u32
    }

    /// The same edge followed the other way.
    pub fn twin(&self, s: Side) -> Side
        requires { s.0 < length (half_edges_of self.now.edges) }
        ensures half { (h : HalfEdge) → IsSide self.now.edges s.0 h → IsSide self.now.edges result.0 (twin h) }
        ensures number { result.0 ≡ twin_number s.0 }
        ensures within { result.0 < length (half_edges_of self.now.edges) }
    {
        twin_of(s)
    }

    /// The vertex that a half-edge leaves.
    pub fn from(&self, s: Side) -> VertexId
        requires { s.0 < length (half_edges_of self.now.edges) }
        ensures vertex { (h : HalfEdge) → IsSide self.now.edges s.0 h → slice_get self.now.vertices result.0 ≡ Some h.from }
        ensures number { result.0 ≡ origin_of self.now s.0 }
        ensures within { result.0 < length self.now.vertices }
    {
        self.layout.origins[s.0 as usize]
    }

    /// The vertex to which a half-edge leads.
    pub fn to(&self, s: Side) -> VertexId
        requires { s.0 < length (half_edges_of self.now.edges) }
        ensures vertex { (h : HalfEdge) → IsSide self.now.edges s.0 h → slice_get self.now.vertices result.0 ≡ Some h.to }
        ensures number { result.0 ≡ end_in (rotations_of self.now) s.0 }
        ensures within { result.0 < length self.now.vertices }
    {
        self.from(self.twin(s))
    }

    /// Where a vertex lies.
    pub fn place(&self, v: VertexId) -> Point
        requires { v.0 < length self.now.vertices }
        ensures { slice_get self.now.vertices v.0 ≡ Some result }
    {
        place_at(&self.layout.places, v)
    }

    /// How many edges end at a vertex, which is how many half-edges leave it.
    pub fn degree(&self, v: VertexId) -> u32
        requires { v.0 < length self.now.vertices }
        ensures count { (p : Point) → slice_get self.now.vertices v.0 ≡ Some p → (rotation : List HalfEdge) → IsRotation self.now.edges p rotation → result ≡ length rotation }
        ensures rotation { (p : Point) → slice_get self.now.vertices v.0 ≡ Some p → (rotation : List HalfEdge) × IsRotation self.now.edges p rotation }
        ensures edges { (p : Point) → slice_get self.now.vertices v.0 ≡ Some p → HasDegree self.now.edges p result }
        ensures number { result ≡ degree_of self.now v.0 }
        ensures sides { result ≡ degree_in (rotations_of self.now) v.0 }
    {
        let v = v.0 as usize;
        self.layout.starts[v + 1] - self.layout.starts[v]
    }

    /// The half-edge at place `k` of the rotation of a vertex.
    fn side_at(&self, v: VertexId, k: u32) -> Side
        requires vertex { v.0 < length self.now.vertices }
        requires in_rotation { (p : Point) → slice_get self.now.vertices v.0 ≡ Some p → (rotation : List HalfEdge) → IsRotation self.now.edges p rotation → k < length rotation }
        ensures side { (p : Point) → slice_get self.now.vertices v.0 ≡ Some p → (rotation : List HalfEdge) → IsRotation self.now.edges p rotation →
            (h : HalfEdge) × (slice_get rotation k ≡ Some h) × IsSide self.now.edges result.0 h }
        ensures number { result.0 ≡ side_in self.now v.0 k }
        ensures within { result.0 < length (half_edges_of self.now.edges) }
        ensures ends_in_order { All (λ e. IsBefore e.low e.high) self.now.edges }
    {
        self.all[self.layout.starts[v.0 as usize] as usize + k as usize]
    }

    /// The half-edge that leaves a vertex and is met first, counterclockwise from west.
    pub fn first_side(&self, v: VertexId) -> Side
        requires { v.0 < length self.now.vertices }
        ensures first { (p : Point) → slice_get self.now.vertices v.0 ≡ Some p → (rotation : List HalfEdge) → IsRotation self.now.edges p rotation →
            (h : HalfEdge) × (slice_get rotation 0 ≡ Some h) × IsSide self.now.edges result.0 h }
        ensures rotation { (p : Point) → slice_get self.now.vertices v.0 ≡ Some p → (rotation : List HalfEdge) × IsRotation self.now.edges p rotation }
        ensures ends_in_order { All (λ e. IsBefore e.low e.high) self.now.edges }
        ensures within { result.0 < length (half_edges_of self.now.edges) }
        ensures leaves { origin_of self.now result.0 ≡ v.0 }
    {
        self.all[self.layout.starts[v.0 as usize] as usize]
    }

    /// The place of a half-edge in the rotation of its vertex, from 0.
    pub fn position(&self, s: Side) -> u32
        requires { s.0 < length (half_edges_of self.now.edges) }
        ensures place { (h : HalfEdge) → IsSide self.now.edges s.0 h → (rotation : List HalfEdge) → IsRotation self.now.edges h.from rotation →
            slice_get rotation result ≡ Some h }
        ensures number { result ≡ place_of self.now s.0 }
    {
        self.layout.positions[s.0 as usize]
    }

    /// The next half-edge counterclockwise round the vertex that `s` leaves.
    pub fn ccw(&self, s: Side) -> Side
        requires { s.0 < length (half_edges_of self.now.edges) }
        ensures next { (h : HalfEdge) → IsSide self.now.edges s.0 h → (t : HalfEdge) × IsSide self.now.edges result.0 t × IsNextCcw self.now.edges h t }
        ensures number { result.0 ≡ ccw_of self.now s.0 }
        ensures within { result.0 < length (half_edges_of self.now.edges) }
    {
        let v = self.from(s);
        let degree = self.degree(v);
        let next = self.position(s) + 1;
        let turned = if next == degree { 0 } else { next };
        self.side_at(v, turned)
    }

    /// The next half-edge clockwise.
    pub fn cw(&self, s: Side) -> Side
        requires { s.0 < length (half_edges_of self.now.edges) }
        ensures next { (h : HalfEdge) → IsSide self.now.edges s.0 h → (t : HalfEdge) × IsSide self.now.edges result.0 t × IsNextCw self.now.edges h t }
        ensures number { result.0 ≡ cw_of self.now s.0 }
        ensures within { result.0 < length (half_edges_of self.now.edges) }
    {
        let v = self.from(s);
        let degree = self.degree(v);
        let place = self.position(s);
        let turned = if place == 0 { degree - 1 } else { place - 1 };
        self.side_at(v, turned)
    }

    /// The half-edge by which the face to the left of `s` goes on.
    pub fn along(&self, s: Side) -> Side
        requires { s.0 < length (half_edges_of self.now.edges) }
        ensures next { (h : HalfEdge) → IsSide self.now.edges s.0 h → (t : HalfEdge) × IsSide self.now.edges result.0 t × IsAlong self.now.edges h t }
        ensures number { result.0 ≡ along_in (rotations_of self.now) s.0 }
        ensures within { result.0 < length (half_edges_of self.now.edges) }
    {
        self.cw(self.twin(s))
    }

    /// The component of a vertex.
    pub fn component_of(&self, v: VertexId) -> Component
        requires { v.0 < length self.now.vertices }
        ensures component { (p : Point) → slice_get self.now.vertices v.0 ≡ Some p →
            (mark : Point) × (slice_get self.now.marks result.0 ≡ Some mark) × SameComponent self.now.edges p mark }
        ensures number { result.0 ≡ component_of self.now v.0 }
        ensures within { result.0 < length self.now.marks }
    {
        self.components.of_vertex[v.0 as usize]
    }

    /// The mark vertex of a component: the one that comes first of all its vertices.
    pub fn mark_vertex(&self, c: Component) -> VertexId
        requires { c.0 < length self.now.marks }
        ensures mark { slice_get self.now.vertices result.0 ≡ slice_get self.now.marks c.0 }
        ensures component { component_of self.now result.0 ≡ c.0 }
        ensures within { result.0 < length self.now.vertices }
    {
        number_of(&self.layout.places, self.components.marks[c.0 as usize]).unwrap()
    }

    /// The vertex at a place; `None` exactly where none is there.
    ///
    /// Takes **O(1)**, however many vertices there are, unless places were chosen to collide.
    pub fn find_vertex(&self, p: Point) -> Option<VertexId>
        ensures found { IfSome result (λ v. slice_get self.now.vertices v.0 ≡ Some p) }
        ensures none { IfNone result (IsVertex self.now.edges p → ⊥) }
    {
        number_of(&self.layout.places, p)
    }

    /// The direction from one vertex to another.
    fn way_between(&self, v: VertexId, w: VertexId) -> Direction
        requires from { v.0 < length self.now.vertices }
        requires to { w.0 < length self.now.vertices }
        ensures way { (p q : Point) → slice_get self.now.vertices v.0 ≡ Some p → slice_get self.now.vertices w.0 ≡ Some q → result.0 ≡ direction p q }
        ensures ends_in_order { All (λ e. IsBefore e.low e.high) self.now.edges }
        ensures apart { AllPairs EdgesMeetAtEndsOnly self.now.edges }
    {
        way(
            place_at(&self.layout.places, v),
            place_at(&self.layout.places, w),
        )
    }

    /// The half-edge that leaves a vertex in a direction; `None` where none does. Round a vertex half-edges stand by angle, and no two
    /// lead in one direction, so a search by halves finds it.
    fn find_toward(&self, v: VertexId, toward: Direction) -> Option<Side>
        requires { v.0 < length self.now.vertices }
        ensures found { IfSome result (λ s. (p : Point) → slice_get self.now.vertices v.0 ≡ Some p →
            (h : HalfEdge) × IsSide self.now.edges s.0 h × (h.from ≡ p) × (angle_cmp (heading h) toward.0 ≡ Ordering.Equal)) }
        ensures within { IfSome result (λ s. s.0 < length (half_edges_of self.now.edges)) }
        ensures none { IfNone result ((h : HalfEdge) → IsHalfEdge self.now.edges h → slice_get self.now.vertices v.0 ≡ Some h.from →
            angle_cmp (heading h) toward.0 ≡ Ordering.Equal → ⊥) }
    {
        let mut low = 0;
        let mut high = self.degree(v);
        while low < high {
            let middle = low + (high - low) / 2;
            let s = self.side_at(v, middle);
            match self.way_between(v, self.to(s)).cmp(&toward) {
                Ordering::Less => low = middle + 1,
                Ordering::Equal => return Some(s),
                Ordering::Greater => high = middle,
            }
        }
        None
    }

    /// The half-edge from one place to another; `None` exactly where no edge has these ends.
    ///
    /// Takes **O(log d)** for d edges that end at `a`, and the time of `find_vertex`. Takes no memory.
    pub fn find_side(&self, a: Point, b: Point) -> Option<Side>
        ensures found { IfSome result (λ s. IsSide self.now.edges s.0 (record { from = a; to = b })) }
        ensures none { IfNone result (IsHalfEdge self.now.edges (record { from = a; to = b }) → ⊥) }
    {
        let v = self.find_vertex(a)?;
        let w = self.find_vertex(b)?;
        let s = self.find_toward(v, self.way_between(v, w))?;
        if self.place(self.to(s)) == b {
            Some(s)
        } else {
            None
        }
    }

    /// How many edges are burnt: what `unburn_to` takes to come back here. No edge is burnt twice.
    pub fn mark(&self) -> u32
        ensures count { result ≡ length self.now.burnt }
        ensures burnt_few { length self.now.burnt ≤ length self.now.edges }
        ensures burnt_within { All (λ s. s < length (half_edges_of self.now.edges)) self.now.burnt }
        ensures burnt_once { AllPairs AreOfTwoEdges self.now.burnt }
    {
        self.burns.mark() as u32
    }

    /// Whether the edge of a half-edge is burnt.
    pub fn is_burnt(&self, s: Side) -> bool
        requires { s.0 < length (half_edges_of self.now.edges) }
        ensures { IsTrue result ↔ IsBurnt self.now s.0 }
    {
        self.burns.is_burnt(s)
    }

    /// Burns the edge of a half-edge. Takes no memory: `build` has kept room for all.
    pub fn burn(&mut self, s: Side)
        requires within { s.0 < length (half_edges_of self.old.edges) }
        requires unburnt { IsBurnt self.old s.0 → ⊥ }
        ensures { self.new ≡ with_burnt self.old (self.old.burnt ++ s.0 ∷ []) }
    {
        self.burns.burn(s);
    }

    /// Unburns the latest burnt edges, last first, until `mark` are left. Takes **O(k)** for k edges, and no memory.
    pub fn unburn_to(&mut self, mark: u32)
        requires { mark ≤ length self.old.burnt }
        ensures { self.new ≡ with_burnt self.old (take mark self.old.burnt) }
    {
        self.burns.unburn_to(mark as usize);
    }
}
