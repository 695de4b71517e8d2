//! The entities of a drawing and their events, pair by pair.
ghost use Rattle.std.specs.Prelude.{◌≡◌, [], ◌∷◌, ◌++◌, List, Option, option_map, Some, None, OnOk, IfOk, IfErr, All};
ghost use Rattle.dxf_drawing.specs.Ranges.{AreInRange};
ghost use Rattle.dxf_groups.specs.Pairs.{Pair};
ghost use Rattle.dxf_entities.specs.Entities.{Entity, with_pair, shape_of, line_of};
ghost use Rattle.dxf_entities.specs.Refusals.{groups_refusal, space_of};
ghost use Rattle.dxf_entities.specs.Values.{start_of, is_closed as is_closed_of};
ghost use Rattle.dxf_entities.specs.EntityBuilder.{BuilderAt};
ghost use Rattle.dxf_drawing.specs.Events.{entity_events, shape_events, unless_refused};
ghost use Rattle.dxf_drawing.specs.EntityReader.{EntityReaderAt, IsBuilderOf, Adds, IsPolylineWithin, IsStateWithin};
ghost use Rattle.dxf_drawing.specs.States.{closing_events, events_at, state_after, state_after_own, state_after_shape, vertex_events, with_vertex as with_vertex_of, events_until, next_state};

use crate::drawing_builder::DrawingBuilder;
use crate::state::{PolylineSoFar, State, with_vertex};
use dxf_entities::{DrawingError, EntityBuilder, Shape, Space};
use nest_base::{Drawing, Name, OutOfMemory};
use std::alloc::Global;
use std::marker::Model;

/// The reader of entities, as far as it has come.
#[derive(Drop)]
pub struct EntityReader {
    built: DrawingBuilder,
    /// Before the entity so far.
    state: State,
    entity: Option<EntityBuilder>,
}

impl Model for EntityReader {
    ghost use Rattle.dxf_drawing.specs.EntityReader.{EntitiesSoFar as Seen, IsStateWithin};

    ghost Value = { Seen };

    ghost view = { λ r. record { built = r.built; state = r.state; entity = r.entity } };

    ghost invariant = { λ r. IsStateWithin r.state };
}

impl EntityReader {
    /// A reader that has taken no pair. It takes no memory yet.
    pub fn new(alloc: Global) -> EntityReader
        ensures { EntityReaderAt result [] }
    {
        EntityReader {
            built: DrawingBuilder::new(alloc),
            state: State::Outside,
            entity: None,
        }
    }

    /// Takes the next pair. Memory is taken for segments and names; after want of it nothing is known of the reader.
    pub fn take(
        &mut self,
        alloc: Global,
        code: i32,
        text: &[u8],
        line: u32,
    ) -> Result<(), OutOfMemory>
        ensures { OnOk result ((pairs : List Pair) → EntityReaderAt self.old pairs → EntityReaderAt self.new (pairs ++ record { code = code; value = text.now; line = line } ∷ [])) }
    {
        if self.built.is_refused() {
            return Ok(());
        }
        if code == 0 {
            self.begin(EntityBuilder::begin(alloc, text, line))?;
            return Ok(());
        }
        self.take_group(code, text, line)?;
        Ok(())
    }

    /// The drawing, or why it's refused.
    pub fn into_drawing(self) -> Result<Drawing, DrawingError>
        ensures ok { IfOk result (λ drawing. (drawing ≡ self.built.drawing) × (self.built.refusal ≡ None)) }
        ensures err { IfErr result (λ why. self.built.refusal ≡ Some why) }
        ensures within { IfOk result AreInRange }
    {
        self.built.into_drawing()
    }

    /// Takes a pair of the entity so far, where there is one.
    fn take_group(&mut self, code: i32, text: &[u8], line: u32) -> Result<(), OutOfMemory>
        ensures entity { OnOk result ((e : Option Entity) → IsBuilderOf self.old.entity e → IsBuilderOf self.new.entity (option_map (with_pair (record { code = code; value = text.now; line = line })) e)) }
        ensures rest { self.new ≡ record self.old { entity = self.new.entity } }
    {
        let Some(entity) = &mut self.entity else {
            return Ok(());
        };
        entity.take(code, text, line)
    }

    /// Ends the entity so far, and takes up the next one.
    fn begin(&mut self, next: EntityBuilder) -> Result<(), OutOfMemory>
        ensures built { OnOk result ((e : Option Entity) (f : Entity) → IsBuilderOf self.old.entity e → BuilderAt next f → Adds self.old self.new (events_until self.old.state e f)) }
        ensures state { OnOk result ((e : Option Entity) → IsBuilderOf self.old.entity e → self.new.built.refusal ≡ None → self.new.state ≡ next_state self.old.state e) }
        ensures entity { OnOk result (self.new.entity ≡ Some next) }
    {
        self.end_entity(&next)?;
        self.entity = Some(next);
        Ok(())
    }

    /// Ends the entity so far, where there is one; this one comes next.
    fn end_entity(&mut self, next: &EntityBuilder) -> Result<(), OutOfMemory>
        ensures built { OnOk result ((e : Option Entity) (f : Entity) → IsBuilderOf self.old.entity e → BuilderAt next.now f → Adds self.old self.new (events_until self.old.state e f)) }
        ensures state { OnOk result ((e : Option Entity) → IsBuilderOf self.old.entity e → self.new.built.refusal ≡ None → self.new.state ≡ next_state self.old.state e) }
    {
        let Some(entity) = self.entity.take() else {
            return Ok(());
        };
        self.finish(entity)?;
        self.close(next)?;
        Ok(())
    }

    /// Adds the closing segment of a polyline that the next entity ends.
    fn close(&mut self, next: &EntityBuilder) -> Result<(), OutOfMemory>
        ensures built { OnOk result ((f : Entity) → BuilderAt next.now f → Adds self.old self.new (closing_events self.old.state f)) }
        ensures rest { self.new ≡ record self.old { built = self.new.built } }
        ensures stays { self.new.built.refusal ≡ None → self.old.built.refusal ≡ None }
    {
        let State::InPolyline {
            is_closed: true,
            polyline: Some(polyline),
        } = self.state
        else {
            return Ok(());
        };
        if next.shape() == Shape::Vertex {
            return Ok(());
        }
        self.built
            .add_segment(polyline.latest, polyline.start, polyline.line)
    }

    /// Takes the events of an entity that is whole now.
    fn finish(&mut self, entity: EntityBuilder) -> Result<(), OutOfMemory>
        ensures built { OnOk result ((e : Entity) → BuilderAt entity e → Adds self.old self.new (events_at self.old.state e)) }
        ensures state { OnOk result ((e : Entity) → BuilderAt entity e → self.new.built.refusal ≡ None → self.new.state ≡ state_after self.old.state e) }
    {
        match self.state {
            State::Outside => {
                self.open(&entity);
                Ok(())
            }
            State::Inside => self.finish_own(entity),
            State::Skipping => self.finish_skipped(entity),
            State::InPolyline {
                is_closed,
                polyline,
            } => self.finish_behind(is_closed, polyline, entity),
        }
    }

    /// Opens an ENTITIES section, where this one does.
    fn open(&mut self, entity: &EntityBuilder)
        requires outside { self.old.state ≡ State.Outside }
        ensures state { (e : Entity) → BuilderAt entity.now e → self.new.state ≡ state_after State.Outside e }
        ensures rest { self.new ≡ record self.old { state = self.new.state } }
    {
        if entity.opens_section() {
            self.state = State::Inside;
        }
    }

    /// Takes the events of an entity behind a polyline that is skipped.
    fn finish_skipped(&mut self, entity: EntityBuilder) -> Result<(), OutOfMemory>
        requires skipping { self.old.state ≡ State.Skipping }
        ensures built { OnOk result ((e : Entity) → BuilderAt entity e → Adds self.old self.new (events_at State.Skipping e)) }
        ensures state { OnOk result ((e : Entity) → BuilderAt entity e → self.new.built.refusal ≡ None → self.new.state ≡ state_after State.Skipping e) }
    {
        match entity.shape() {
            Shape::Vertex => Ok(()),
            Shape::Seqend => {
                self.state = State::Inside;
                Ok(())
            }
            _ => self.finish_own(entity),
        }
    }

    /// Takes the events of an entity behind a polyline and its vertices so far.
    fn finish_behind(
        &mut self,
        is_closed: bool,
        polyline: Option<PolylineSoFar>,
        entity: EntityBuilder,
    ) -> Result<(), OutOfMemory>
        requires polyline { IsPolylineWithin polyline }
        ensures built { OnOk result ((e : Entity) → BuilderAt entity e → Adds self.old self.new (events_at (State.InPolyline is_closed polyline) e)) }
        ensures state { OnOk result ((e : Entity) → BuilderAt entity e → self.new.built.refusal ≡ None → self.new.state ≡ state_after (State.InPolyline is_closed polyline) e) }
    {
        match entity.shape() {
            Shape::Vertex => {
                self.finish_vertex(is_closed, polyline, entity)?;
                Ok(())
            }
            Shape::Seqend => {
                self.state = State::Inside;
                Ok(())
            }
            _ => self.finish_own(entity),
        }
    }

    /// Adds the segment that leads to a vertex of a polyline.
    fn finish_vertex(
        &mut self,
        is_closed: bool,
        polyline: Option<PolylineSoFar>,
        entity: EntityBuilder,
    ) -> Result<(), OutOfMemory>
        requires polyline { IsPolylineWithin polyline }
        ensures built { OnOk result ((e : Entity) → BuilderAt entity e → shape_of e ≡ Shape.Vertex → Adds self.old self.new (unless_refused (groups_refusal e) (vertex_events polyline (start_of e)))) }
        ensures state { OnOk result ((e : Entity) → BuilderAt entity e → shape_of e ≡ Shape.Vertex → self.new.built.refusal ≡ None → self.new.state ≡ State.InPolyline is_closed (Some (with_vertex_of polyline (start_of e) (line_of e)))) }
    {
        if let Some(why) = entity.refusal() {
            self.built.refuse(why);
            return Ok(());
        }
        let at = entity.start();
        if let Some(polyline) = polyline {
            self.built.add_segment(polyline.latest, at, polyline.line)?;
        }
        let polyline = with_vertex(polyline, at, entity.line());
        self.state = State::InPolyline {
            is_closed,
            polyline: Some(polyline),
        };
        Ok(())
    }

    /// Takes the events of an entity that belongs to no polyline before it.
    fn finish_own(&mut self, entity: EntityBuilder) -> Result<(), OutOfMemory>
        ensures built { OnOk result ((e : Entity) → BuilderAt entity e → Adds self.old self.new (entity_events e)) }
        ensures state { OnOk result ((e : Entity) → BuilderAt entity e → self.new.built.refusal ≡ None → self.new.state ≡ state_after_own e) }
    {
        if entity.closes_section() {
            self.state = State::Outside;
            return Ok(());
        }
        match entity.space() {
            Space::Paper => {
                self.state = state_after_paper(entity.shape());
                Ok(())
            }
            Space::Unclear(line) => {
                self.built.refuse(DrawingError::NotANumber(line));
                Ok(())
            }
            Space::Own => self.finish_drawn(entity),
        }
    }

    /// Takes the events of an entity that lies in the drawing itself.
    fn finish_drawn(&mut self, entity: EntityBuilder) -> Result<(), OutOfMemory>
        ensures built { OnOk result ((e : Entity) → BuilderAt entity e → Adds self.old self.new (shape_events (shape_of e) e)) }
        ensures state { OnOk result ((e : Entity) → BuilderAt entity e → space_of e ≡ Space.Own → self.new.built.refusal ≡ None → self.new.state ≡ state_after_shape (shape_of e) e) }
    {
        match entity.shape() {
            Shape::Line => self.finish_line(entity),
            Shape::Polyline => {
                self.finish_polyline(entity);
                Ok(())
            }
            Shape::Text => self.finish_text(entity),
            Shape::Seqend => {
                self.state = State::Inside;
                Ok(())
            }
            Shape::Vertex | Shape::Other => {
                self.built.refuse(entity.name_refusal());
                Ok(())
            }
        }
    }

    fn finish_line(&mut self, entity: EntityBuilder) -> Result<(), OutOfMemory>
        ensures built { OnOk result ((e : Entity) → BuilderAt entity e → shape_of e ≡ Shape.Line → Adds self.old self.new (shape_events Shape.Line e)) }
        ensures state { OnOk result (self.new.state ≡ State.Inside) }
    {
        self.state = State::Inside;
        if let Some(why) = entity.refusal() {
            self.built.refuse(why);
            return Ok(());
        }
        self.built
            .add_segment(entity.start(), entity.end(), entity.line())
    }

    fn finish_text(&mut self, entity: EntityBuilder) -> Result<(), OutOfMemory>
        ensures built { OnOk result ((e : Entity) → BuilderAt entity e → shape_of e ≡ Shape.Text → Adds self.old self.new (shape_events Shape.Text e)) }
        ensures state { OnOk result (self.new.state ≡ State.Inside) }
    {
        self.state = State::Inside;
        if let Some(why) = entity.refusal() {
            self.built.refuse(why);
            return Ok(());
        }
        self.built.add_name(Name {
            at: entity.start(),
            line: entity.line(),
            text: entity.into_text(),
        })
    }

    fn finish_polyline(&mut self, entity: EntityBuilder)
        ensures built { (e : Entity) → BuilderAt entity e → shape_of e ≡ Shape.Polyline → Adds self.old self.new (shape_events Shape.Polyline e) }
        ensures state { (e : Entity) → BuilderAt entity e → shape_of e ≡ Shape.Polyline → self.new.built.refusal ≡ None → self.new.state ≡ State.InPolyline (is_closed_of e) None }
    {
        if let Some(why) = entity.refusal() {
            self.built.refuse(why);
            return;
        }
        self.state = State::InPolyline {
            is_closed: entity.is_closed(),
            polyline: None,
        };
    }
}

/// The state behind an entity on the paper: the vertices of a polyline are skipped with it.
fn state_after_paper(shape: Shape) -> State
    ensures state { (e : Entity) → shape_of e ≡ shape → space_of e ≡ Space.Paper → result ≡ state_after_shape shape e }
    ensures within { IsStateWithin result }
{
    if shape == Shape::Polyline {
        State::Skipping
    } else {
        State::Inside
    }
}
