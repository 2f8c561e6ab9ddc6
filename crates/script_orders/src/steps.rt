//! An order of a script's lines as far as it is run: which line came when.
ghost use Rattle.std.specs.Prelude.{◌≡◌, ◌<◌, ◌-◌, ◌^◌, ◌∷◌, [], ◌++◌, length, slice_index, IfOk, OnErr};
ghost use Rattle.script_orders.specs.Steps.{KeepsOwnOrder};

use std::alloc::{AllocError, Global};

/// A line of a session: the session's place among those of a script, and the line's place among the session's
/// own.
#[derive(Clone, Copy)]
pub struct Step {
    pub session: usize,
    pub line: usize,
}

/// An order of the sessions' lines, as far as it is run. Of each session its first lines were run, each once
/// and in its own order.
#[derive(Drop)]
pub struct Order {
    /// The lines of the order that were run, one after the other.
    pub steps: Vec<Step>,
    /// How many lines of each session were run.
    pub taken: Vec<usize>,
    ghost in_order: { KeepsOwnOrder steps.items taken.items },
}

impl Order {
    /// An order of the lines of `sessions` sessions, of which none was run yet.
    pub fn new(alloc: Global, sessions: usize) -> Result<Self, AllocError>
        ensures none { IfOk result (λ order. order.steps.items ≡ []) }
        ensures sessions { IfOk result (λ order. length order.taken.items ≡ sessions) }
    {
        let taken = vec![in alloc; 0; sessions]?;
        Ok(Order {
            steps: Vec::new(alloc),
            taken,
        })
    }

    /// Notes that the next line of `session` is run, and answers which line this is. Where there is no memory
    /// nothing changes.
    pub fn take(&mut self, session: usize) -> Result<Step, AllocError>
        requires there { session < length self.old.taken.items }
        requires fits { slice_index self.old.taken.items session < 2 ^ 64 - 1 }
        ensures whose { IfOk result (λ step. step.session ≡ session) }
        ensures next { IfOk result (λ step. step.line ≡ slice_index self.old.taken.items session) }
        ensures added { IfOk result (λ step. self.new.steps.items ≡ self.old.steps.items ++ step ∷ []) }
        ensures sessions { length self.new.taken.items ≡ length self.old.taken.items }
        ensures refused { OnErr result (self.new.steps.items ≡ self.old.steps.items) }
    {
        let line = self.taken[session];
        let step = Step { session, line };
        self.steps.push(step)?;
        self.taken[session] = line + 1;
        Ok(step)
    }
}
