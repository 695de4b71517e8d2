//! The components of a graph.
ghost use Rattle.std.specs.Prelude.{◌≡◌, ◌≢◌, ◌≤◌, ◌<◌, ◌+◌, [], ◌∷◌, ◌++◌, length, List, IfOk, OnOk, Some, slice_get};
ghost use Rattle.nest_base.specs.declared.places.Edge.{Edge};
ghost use Rattle.nest_base.specs.declared.places.Point.{Point};
ghost use Rattle.rotation_systems.specs.Twins.{twin_number};
ghost use Rattle.half_edges.specs.Graph.{AreComponents};
ghost use Rattle.half_edges.specs.Floods.{IsLaidOut, IsFlood, AreKept, GetsNumber, AreRound, unnumbered, component_at, end_of as end_number, none};
ghost use Rattle.nest_base.specs.NumberLists.{component_numbers, vertex_numbers};
ghost use Rattle.nest_base.specs.Limits.{most_half_edges};

use crate::layout::Layout;
use crate::places::place_at;
use crate::sides::twin_of;
use nest_base::{Component, OutOfMemory, Point, Side, VertexId};
use std::alloc::Global;

/// The component of each vertex, by number, and the mark vertex of each component.
#[derive(Drop)]
pub struct Components {
    pub of_vertex: Vec<Component>,
    pub marks: Vec<Point>,
}

/// The component of no vertex: more than there are.
const NONE: Component = Component(u32::MAX);

/// The vertex to which a half-edge leads: that which its twin leaves.
fn end_of(layout: &Layout, s: Side) -> VertexId
    requires { twin_number s.0 < length layout.now.origins.items }
    ensures { result.0 ≡ end_number (vertex_numbers layout.now.origins.items) s.0 }
{
    layout.origins[twin_of(s).0 as usize]
}

/// The components found so far, and those vertices whose neighbours may still have none.
#[derive(Drop)]
struct Flood {
    of_vertex: Vec<Component>,
    marks: Vec<Point>,
    found: Vec<VertexId>,
}

impl Flood {
    /// Gives the component `c` to a vertex that has none.
    fn reach(&mut self, v: VertexId, c: Component) -> Result<(), OutOfMemory>
        requires within { v.0 < length self.old.of_vertex.items }
        ensures reached { OnOk result (GetsNumber (component_numbers self.old.of_vertex.items) (vertex_numbers self.old.found.items) v.0 c.0
            (component_numbers self.new.of_vertex.items) (vertex_numbers self.new.found.items)) }
        ensures marks { self.new.marks.items ≡ self.old.marks.items }
    {
        if self.of_vertex[v.0 as usize] != NONE {
            return Ok(());
        }
        self.of_vertex[v.0 as usize] = c;
        self.found.push(v)?;
        Ok(())
    }

    /// Gives the number of a vertex to its neighbours that have none.
    fn spread(&mut self, layout: &Layout, all: &[Side], u: VertexId) -> Result<(), OutOfMemory>
        requires known { (edges : List Edge) × IsLaidOut layout.now all.now edges }
        requires few { length self.old.marks.items ≤ most_half_edges }
        requires flood { (edges : List Edge) → IsLaidOut layout.now all.now edges →
            IsFlood edges layout.now.places.keys (component_numbers self.old.of_vertex.items) self.old.marks.items (u.0 ∷ vertex_numbers self.old.found.items) }
        ensures flood { OnOk result ((edges : List Edge) → IsLaidOut layout.now all.now edges →
            IsFlood edges layout.now.places.keys (component_numbers self.new.of_vertex.items) self.new.marks.items (vertex_numbers self.new.found.items)) }
        ensures kept { OnOk result (AreKept (component_numbers self.old.of_vertex.items) (component_numbers self.new.of_vertex.items)) }
        ensures fewer { OnOk result (unnumbered (component_numbers self.new.of_vertex.items) + length self.new.found.items
            ≡ unnumbered (component_numbers self.old.of_vertex.items) + length self.old.found.items) }
        ensures marks { OnOk result (self.new.marks.items ≡ self.old.marks.items) }
    {
        let c = self.of_vertex[u.0 as usize];
        for s in rotation_of(layout, all, u) {
            self.reach(end_of(layout, *s), c)?;
        }
        Ok(())
    }

    /// Finds a new component, that of a vertex that has none.
    fn start(&mut self, layout: &Layout, all: &[Side], v: VertexId) -> Result<(), OutOfMemory>
        requires known { (edges : List Edge) × IsLaidOut layout.now all.now edges }
        requires few { length self.old.marks.items < most_half_edges }
        requires flood { (edges : List Edge) → IsLaidOut layout.now all.now edges →
            IsFlood edges layout.now.places.keys (component_numbers self.old.of_vertex.items) self.old.marks.items [] }
        requires empty { self.old.found.items ≡ [] }
        requires none { component_at (component_numbers self.old.of_vertex.items) v.0 ≡ none }
        requires vertex { v.0 < length layout.now.places.keys }
        ensures flood { OnOk result ((edges : List Edge) → IsLaidOut layout.now all.now edges →
            IsFlood edges layout.now.places.keys (component_numbers self.new.of_vertex.items) self.new.marks.items []) }
        ensures empty { OnOk result (self.new.found.items ≡ []) }
        ensures kept { OnOk result (AreKept (component_numbers self.old.of_vertex.items) (component_numbers self.new.of_vertex.items)) }
        ensures numbered { OnOk result (component_at (component_numbers self.new.of_vertex.items) v.0 ≢ none) }
        ensures marks { OnOk result ((p : Point) → slice_get layout.now.places.keys v.0 ≡ Some p → self.new.marks.items ≡ self.old.marks.items ++ p ∷ []) }
    {
        let c = Component(self.marks.len() as u32);
        self.marks.push(place_at(&layout.places, v))?;
        self.reach(v, c)?;
        while let Some(u) = self.found.pop() {
            self.spread(layout, all, u)?;
        }
        Ok(())
    }
}

/// The half-edges round a vertex.
fn rotation_of<'a>(layout: &Layout, all: &'a [Side], v: VertexId) -> &'a [Side]
    requires known { (edges : List Edge) × IsLaidOut layout.now all.now edges }
    requires vertex { v.0 < length layout.now.places.keys }
    ensures { AreRound layout.now all.now result.now v.0 }
{
    let first = layout.starts[v.0 as usize] as usize;
    let behind = layout.starts[v.0 as usize + 1] as usize;
    &all[first..behind]
}

/// The components of a graph: vertices in the order of mark vertices, so the first vertex of each component that is met is its mark
/// vertex, and the components are numbered as they are met.
///
/// Takes **O(n)** for n edges, and memory for the vertices.
pub fn components_of(
    alloc: Global,
    layout: &Layout,
    all: &[Side],
) -> Result<Components, OutOfMemory>
    requires few { length layout.now.places.keys ≤ most_half_edges }
    requires known { (edges : List Edge) × IsLaidOut layout.now all.now edges }
    ensures { IfOk result (λ components. (edges : List Edge) → IsLaidOut layout.now all.now edges →
        AreComponents edges layout.now.places.keys (component_numbers components.of_vertex.items) components.marks.items) }
{
    let mut flood = Flood {
        of_vertex: vec![in alloc; NONE; layout.places.len()]?,
        marks: Vec::new(alloc),
        found: Vec::new(alloc),
    };
    for v in 0..layout.places.len() {
        if flood.of_vertex[v] == NONE {
            flood.start(layout, all, VertexId(v as u32))?;
        }
    }
    Ok(Components {
        of_vertex: flood.of_vertex,
        marks: flood.marks,
    })
}
