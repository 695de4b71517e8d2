//! Where the vertices of a graph, and the half-edges round each, stand in lists.
ghost use Rattle.std.specs.Prelude.{◌≡◌, ◌≢◌, ◌≤◌, ◌<◌, ◌-◌, ◌^◌, false, length, map, slice_get, All, AllPairs, IfOk, IfSome, IsTrue};
ghost use Rattle.nest_base.specs.Plane.{HalfEdge};
ghost use Rattle.nest_base.specs.Limits.{most_edges};
ghost use Rattle.half_edges.specs.Numbers.{half_edges_of, IsSide};
ghost use Rattle.half_edges.specs.Rotations.{AreAllRound};
ghost use Rattle.half_edges.specs.Runs.{from_at, AreAllRuns, NumbersRotation};
ghost use Rattle.half_edges.specs.Layouts.{IsLayout, ArePositions};

use indexmap::IndexSet;
use nest_base::{Edge, OutOfMemory, Point, Side, VertexId};
use std::alloc::Global;

/// Vertices by number, and for each half-edge by number the vertex that it leaves and its place in the rotation there.
#[derive(Drop)]
pub struct Layout {
    pub places: IndexSet<Point>,
    pub origins: Vec<VertexId>,
    /// Where the half-edges of each vertex begin in the list of all; behind the last one, how many there are.
    pub starts: Vec<u32>,
    pub positions: Vec<u32>,
}

/// The place that a half-edge leaves.
fn start_of(edges: &[Edge], side: Side) -> Point
    requires { side.0 < length (half_edges_of edges.now) }
    ensures { (h : HalfEdge) → IsSide edges.now side.0 h → result ≡ h.from }
{
    let Side(number) = side;
    let e = &edges[(number / 2) as usize];
    if number % 2 == 0 { e.low } else { e.high }
}

/// The vertices, and where the half-edges of each begin in the list of all; behind the last one, how many there are.
#[derive(Drop)]
struct Runs {
    places: IndexSet<Point>,
    starts: Vec<u32>,
}

/// Whether `p` stands last.
fn is_last(places: &[Point], p: Point) -> bool
    ensures last { IsTrue result → IfSome (slice_get places.now (length places.now - 1)) (λ q. q ≡ p) × (0 < length places.now) }
    ensures other { result ≡ false → IfSome (slice_get places.now (length places.now - 1)) (λ q. q ≢ p) }
{
    match places.last() {
        Some(q) => *q == p,
        None => false,
    }
}

/// The half-edges of a vertex are neighbours, so a vertex is met where the place differs from the one before.
fn runs_of(alloc: Global, edges: &[Edge], all: &[Side]) -> Result<Runs, OutOfMemory>
    requires few { length edges.now ≤ most_edges }
    requires all_round { AreAllRound edges.now (map (λ s. s.0) all.now) }
    ensures { IfOk result (λ runs. AreAllRuns (from_at edges.now (map (λ s. s.0) all.now)) (length all.now) runs.places.keys runs.starts.items) }
{
    let mut places = IndexSet::new(alloc);
    let mut starts = Vec::new(alloc);
    for (k, side) in all.iter().enumerate() {
        let at = start_of(edges, *side);
        if !is_last(places.as_slice(), at) {
            places.insert(at)?;
            starts.push(k as u32)?;
        }
    }
    starts.push(all.len() as u32)?;
    Ok(Runs { places, starts })
}

/// Numbers the half-edges of a vertex: that at place k of its rotation has position k.
fn number_rotation(rotation: &[Side], v: VertexId, origins: &mut [VertexId], positions: &mut [u32])
    requires short { length rotation.now < 2 ^ 32 }
    requires origins_long { All (λ s. s.0 < length origins.old) rotation.now }
    requires positions_long { All (λ s. s.0 < length positions.old) rotation.now }
    requires each_once { AllPairs (λ s t. s.0 ≢ t.0) rotation.now }
    ensures origins { NumbersRotation (λ k. v) rotation.now (length rotation.now) origins.old origins.new }
    ensures positions { NumbersRotation (λ k. k) rotation.now (length rotation.now) positions.old positions.new }
{
    for (k, side) in rotation.iter().enumerate() {
        origins[side.0 as usize] = v;
        positions[side.0 as usize] = k as u32;
    }
}

/// The layout of a graph, from its edges and the list of all half-edges, vertex by vertex.
///
/// Takes **O(n)** for n edges, and memory for the lists.
pub fn layout_of(alloc: Global, edges: &[Edge], all: &[Side]) -> Result<Layout, OutOfMemory>
    requires few { length edges.now ≤ most_edges }
    requires all_round { AreAllRound edges.now (map (λ s. s.0) all.now) }
    ensures layout { IfOk result (λ l. IsLayout edges.now l.places.keys (map (λ v. v.0) l.origins.items) (map (λ s. s.0) all.now) l.starts.items) }
    ensures positions { IfOk result (λ l. ArePositions edges.now l.positions.items) }
{
    let runs = runs_of(alloc, edges, all)?;
    let mut origins = vec![in alloc; VertexId(0); 2 * edges.len()]?;
    let mut positions = vec![in alloc; 0; 2 * edges.len()]?;
    for v in 0..runs.places.len() {
        let rotation = &all[runs.starts[v] as usize..runs.starts[v + 1] as usize];
        number_rotation(rotation, VertexId(v as u32), &mut origins, &mut positions);
    }
    Ok(Layout {
        places: runs.places,
        origins,
        starts: runs.starts,
        positions,
    })
}
