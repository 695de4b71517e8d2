//! The cut points of one segment.
ghost use Rattle.std.specs.Prelude.{◌≡◌, ◌*◌, ◌≤◌, length, All, Contains, IfOk, IfErr, IfNone, IfSome, OnOk};
ghost use Rattle.nest_base.specs.Order.{IsBefore};
ghost use Rattle.nest_base.specs.Range.{IsWithin, IsSegmentWithin, widest};
ghost use Rattle.nest_base.specs.Selection.{EnumeratesBy};
ghost use Rattle.plate_edges.specs.Cuts.{HasLength, IsParallel, IsCutPoint, CrossesOffLattice};
ghost use Rattle.segment_split.specs.Meetings.{CrossesNear};
ghost use Rattle.segment_split.specs.CutPoints.{IsPlaceOn, IsCutBy, AddsPlaces, IsCutRefusal};

use crate::meet::{Meeting, meeting_of};
use nest_base::{OutOfMemory, Point, Segment, between};
use std::alloc::Global;
use thiserror::Error;

/// Why the cut points of a segment aren't told.
#[derive(Clone, Copy, Debug, Drop, Error)]
pub enum CutError {
    /// It crosses the segment with this index off the lattice; no earlier one. The place is the crossing, rounded down.
    #[error("two segments cross off the lattice")]
    OffLattice { other: usize, place: Point },
    /// Memory ran out.
    #[error("out of memory")]
    OutOfMemory,
}

impl From<OutOfMemory> for CutError {
    ghost use Rattle.segment_split.specs.declared.cuts.CutError.TheVariants.{OutOfMemory as NoMemory};

    ghost from_gives = { λ _ e. e ≡ NoMemory };

    fn from(_: OutOfMemory) -> Self {
        CutError::OutOfMemory
    }
}

/// Adds `p` where it lies on `s`.
fn put_where_on(s: &Segment, p: Point, places: &mut Vec<Point>) -> Result<(), OutOfMemory>
    requires s_within { IsSegmentWithin widest s.now }
    requires p_within { IsWithin widest p }
    ensures { OnOk result (AddsPlaces (IsPlaceOn s.now p) 1 places.old.items places.new.items) }
{
    if between(p, s) {
        places.push(p)?;
    }
    Ok(())
}

/// Adds the ends of `t` that lie on `s`; the two are parallel.
fn put_ends_on(s: &Segment, t: &Segment, places: &mut Vec<Point>) -> Result<(), OutOfMemory>
    requires s_within { IsSegmentWithin widest s.now }
    requires t_within { IsSegmentWithin widest t.now }
    requires parallel { IsParallel s.now t.now }
    ensures { OnOk result (AddsPlaces (IsCutBy s.now t.now) 2 places.old.items places.new.items) }
{
    put_where_on(s, t.a, places)?;
    put_where_on(s, t.b, places)?;
    Ok(())
}

/// Adds the places at which `t` cuts `s`: its ends that lie on `s`, and where they aren't parallel their common point. `Some`
/// where that is no place: it is then told, rounded down.
fn put_cuts(s: &Segment, t: &Segment, places: &mut Vec<Point>) -> Result<Option<Point>, OutOfMemory>
    requires s_within { IsSegmentWithin widest s.now }
    requires t_within { IsSegmentWithin widest t.now }
    ensures none { IfOk result (λ crossing. IfNone crossing (CrossesOffLattice s.now t.now → ⊥)) }
    ensures added { IfOk result (λ crossing. IfNone crossing (AddsPlaces (IsCutBy s.now t.now) 2 places.old.items places.new.items)) }
    ensures crosses { IfOk result (λ crossing. IfSome crossing (λ place. CrossesNear s.now t.now place)) }
{
    match meeting_of(s, t) {
        Meeting::Apart => Ok(None),
        Meeting::Parallel => {
            put_ends_on(s, t, places)?;
            Ok(None)
        }
        Meeting::At(place) => {
            places.push(place)?;
            Ok(None)
        }
        Meeting::OffLattice(place) => Ok(Some(place)),
    }
}

/// The cut points of `s`, each once, by x, then by y. It is one of these segments.
///
/// Coordinates are micrometres. `OffLattice` comes where `s` crosses one of them off the lattice, and tells the first. Takes
/// **O(n + m log m)** for n segments, of which m meet `s`, and memory for their places.
pub fn cut_points(alloc: Global, segments: &[Segment], s: &Segment) -> Result<Vec<Point>, CutError>
    requires within { All (IsSegmentWithin widest) segments.now }
    requires lengths { All HasLength segments.now }
    requires among { Contains segments.now s.now }
    ensures places { IfOk result (λ places. EnumeratesBy IsBefore (IsCutPoint segments.now s.now) places.items) }
    ensures few { IfOk result (λ places. length places.items ≤ 2 * length segments.now) }
    ensures none_crosses { IfOk result (λ _. All (λ t. CrossesOffLattice s.now t → ⊥) segments.now) }
    ensures refused { IfErr result (λ why. IsCutRefusal why segments.now s.now) }
{
    let mut places = Vec::new(alloc);
    for (other, t) in segments.iter().enumerate() {
        if let Some(place) = put_cuts(s, t, &mut places)? {
            return Err(CutError::OffLattice { other, place });
        }
    }
    places.sort_unstable();
    places.dedup();
    Ok(places)
}
