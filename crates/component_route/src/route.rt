//! What is laid of a burning order.
ghost use Rattle.std.specs.Prelude.{◌≡◌, ◌+◌, ◌<◌, ◌≤◌, [], ◌∷◌, ◌++◌, List, ℕ, length, reverse, IfOk, IfSome, IfNone};
ghost use Rattle.nest_base.specs.NumberLists.{side_numbers};

use nest_base::{OutOfMemory, Side};
use std::alloc::Global;
use std::marker::Model;

/// The burning order of one component while it is laid: the edges that are done, and the stack of those that come after them.
/// Each half-edge is the one in burning direction. Contracts see the stack with its top first, which is burnt first.
#[derive(Drop)]
pub struct Route {
    done: Vec<Side>,
    stack: Vec<Side>,
    room: u32,
}

impl Model for Route {
    ghost use Rattle.component_route.specs.Courses.{Course};
    ghost use Rattle.component_route.specs.Views.{HasRoom, course_view};

    ghost Value = { Course };

    ghost view = { course_view };

    ghost invariant = { HasRoom };
}

impl Route {
    /// An empty route with room for this many edges.
    ///
    /// `OutOfMemory` comes for want of memory alone.
    pub fn new(alloc: Global, edges: u32) -> Result<Route, OutOfMemory>
        ensures { IfOk result (λ route. route ≡ record { done = []; stack = []; room = edges }) }
    {
        let done = Vec::with_capacity(alloc, edges as usize)?;
        let stack = Vec::with_capacity(alloc, edges as usize)?;
        Ok(Route {
            done,
            stack,
            room: edges,
        })
    }

    /// The edges that are done, in burning order.
    pub fn order(&self) -> &[Side]
        ensures { side_numbers result.now ≡ self.now.done }
    {
        self.done.as_slice()
    }

    /// Empties the route for the next component; the room stays.
    pub fn clear(&mut self)
        ensures { self.new ≡ record self.old { done = []; stack = [] } }
    {
        self.done.clear();
        self.stack.clear();
    }

    /// The stack, from its bottom.
    pub(crate) fn stack(&self) -> &[Side]
        ensures { reverse (side_numbers result.now) ≡ self.now.stack }
    {
        self.stack.as_slice()
    }

    /// The top of the stack.
    pub(crate) fn top(&self) -> Option<Side>
        ensures some { IfSome result (λ s. (rest : List ℕ) × (self.now.stack ≡ s.0 ∷ rest)) }
        ensures none { IfNone result (self.now.stack ≡ []) }
    {
        self.stack.last().copied()
    }

    /// Puts a half-edge on the stack, which has room for it.
    pub(crate) fn push(&mut self, side: Side)
        requires { length self.old.stack < self.old.room }
        ensures { self.new ≡ record self.old { stack = side.0 ∷ self.old.stack } }
    {
        let pushed = self.stack.push(side);
        prove!(pushed.is_ok());
    }

    /// Moves the top of the stack to what is done, and answers it; `None` where the stack is empty.
    pub(crate) fn move_top(&mut self) -> Option<Side>
        requires { length self.old.done + length self.old.stack ≤ self.old.room }
        ensures some { IfSome result (λ s. (rest : List ℕ) × (self.old.stack ≡ s.0 ∷ rest)
            × (self.new ≡ record self.old { done = self.old.done ++ s.0 ∷ []; stack = rest })) }
        ensures none { IfNone result ((self.old.stack ≡ []) × (self.new ≡ self.old)) }
    {
        let side = self.stack.pop()?;
        let pushed = self.done.push(side);
        prove!(pushed.is_ok());
        Some(side)
    }

    /// Forgets what is done; the stack stays.
    pub(crate) fn forget_done(&mut self)
        ensures { self.new ≡ record self.old { done = [] } }
    {
        self.done.clear();
    }
}
