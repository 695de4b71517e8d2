//! The drawing so far, or why it's refused.
ghost use Rattle.std.specs.Prelude.{◌≡◌, [], ◌∷◌, ◌++◌, List, Some, None, OnOk, IfOk, IfErr, is_some, true, All};
ghost use Rattle.nest_base.specs.Range.{IsWithin, IsSegmentWithin, range};
ghost use Rattle.dxf_drawing.specs.Ranges.{AreInRange};
ghost use Rattle.dxf_drawing.specs.Events.{Event, Draws, Names, Refuses, segment_events};
ghost use Rattle.dxf_drawing.specs.DrawingBuilder.{Holds};

use dxf_entities::DrawingError;
use nest_base::{Drawing, Name, OutOfMemory, Point, Segment};
use std::alloc::Global;
use std::marker::Model;

/// The most segments of a drawing.
const MOST_SEGMENTS: usize = 20_000;

/// The most names.
const MOST_NAMES: usize = 5_000;

/// A drawing, as far as its entities have come, or the first refusal.
#[derive(Drop)]
pub struct DrawingBuilder {
    drawing: Drawing,
    refusal: Option<DrawingError>,
}

impl Model for DrawingBuilder {
    ghost use Rattle.dxf_drawing.specs.DrawingBuilder.{DrawingSoFar};
    ghost use Rattle.dxf_drawing.specs.Ranges.{AreInRange};

    ghost Value = { DrawingSoFar };

    ghost view = { λ k. record { drawing = k.drawing; refusal = k.refusal } };

    ghost invariant = { λ k. AreInRange k.drawing };
}

impl DrawingBuilder {
    /// Nothing yet. It takes no memory.
    pub fn new(alloc: Global) -> DrawingBuilder
        ensures { Holds result [] }
    {
        DrawingBuilder {
            drawing: Drawing::new(alloc),
            refusal: None,
        }
    }

    /// The drawing, or why it's refused.
    pub fn into_drawing(self) -> Result<Drawing, DrawingError>
        ensures ok { IfOk result (λ drawing. (drawing ≡ self.drawing) × (self.refusal ≡ None)) }
        ensures err { IfErr result (λ why. self.refusal ≡ Some why) }
        ensures within { IfOk result AreInRange }
    {
        let DrawingBuilder { drawing, refusal } = self;
        match refusal {
            None => Ok(drawing),
            Some(why) => Err(why),
        }
    }

    /// Whether the drawing is refused.
    pub fn is_refused(&self) -> bool
        ensures { result ≡ is_some self.now.refusal }
    {
        self.refusal.is_some()
    }

    /// Refuses the drawing, unless it's refused already.
    pub fn refuse(&mut self, why: DrawingError)
        ensures refused { is_some self.new.refusal ≡ true }
        ensures holds { (events : List Event) → Holds self.old events → Holds self.new (events ++ Refuses why ∷ []) }
    {
        if self.refusal.is_none() {
            self.refusal = Some(why);
        }
    }

    /// Adds a segment, where there is room for it.
    fn push(&mut self, s: Segment) -> Result<(), OutOfMemory>
        requires within { IsSegmentWithin range s }
        ensures stays { self.new.refusal ≡ None → self.old.refusal ≡ None }
        ensures holds { OnOk result ((events : List Event) → Holds self.old events → Holds self.new (events ++ Draws s ∷ [])) }
    {
        if self.refusal.is_some() {
            return Ok(());
        }
        if self.drawing.segments().len() >= MOST_SEGMENTS {
            self.refusal = Some(DrawingError::TooMany(s.line));
            return Ok(());
        }
        self.drawing.push_segment(s)?;
        Ok(())
    }

    /// Adds the segment between two places, unless they are one.
    pub fn add_segment(&mut self, a: Point, b: Point, line: u32) -> Result<(), OutOfMemory>
        requires within { IsSegmentWithin range (record { a = a; b = b; line = line }) }
        ensures stays { self.new.refusal ≡ None → self.old.refusal ≡ None }
        ensures holds { OnOk result ((events : List Event) → Holds self.old events → Holds self.new (events ++ segment_events a b line)) }
    {
        if a == b {
            return Ok(());
        }
        self.push(Segment { a, b, line })
    }

    /// Adds a name, where there is room for it.
    pub fn add_name(&mut self, name: Name) -> Result<(), OutOfMemory>
        requires within { IsWithin range name.at }
        ensures { OnOk result ((events : List Event) → Holds self.old events → Holds self.new (events ++ Names name ∷ [])) }
    {
        if self.refusal.is_some() {
            return Ok(());
        }
        if self.drawing.names().len() >= MOST_NAMES {
            self.refusal = Some(DrawingError::TooMany(name.line));
            return Ok(());
        }
        self.drawing.push_name(name)?;
        Ok(())
    }
}
