//! The plain machine, which runs a list of events.

use crate::allocator::{refuse, was_refused};
use crate::told::Told;
use lock_manager::{Mode, SessionId, Tag};
use lock_model::{Plain, run_events};
use lock_table::Move;
use lock_world::{Event, Step, Word};
use std::alloc::Global;

const RELATION: Tag = Tag::Relation {
    database: 0,
    relation: 16_384,
};

/// The step that takes the partition of the relation that is asked for.
fn take() -> Step {
    Step::TakeExclusive {
        word: Word::Partition(RELATION.partition()),
    }
}

/// The step that puts the partition of the relation that is asked for back with a grant.
fn put() -> Step {
    Step::PutExclusive {
        word: Word::Partition(RELATION.partition()),
        done: Move::Grant {
            tag: RELATION,
            mode: Mode::Share,
        },
    }
}

/// The events by which `session` opens, takes the partition of a relation, and puts it back with a grant.
fn events(session: SessionId) -> [Event; 3] {
    [
        Event {
            session,
            step: Step::SplitSeat,
        },
        Event {
            session,
            step: take(),
        },
        Event {
            session,
            step: put(),
        },
    ]
}

/// Whether `plain` has one hold, as it must after the events.
fn is_right(plain: &Plain) -> bool {
    plain.holds().len() == 1 && plain.waits().is_empty()
}

/// Runs the events with the growth numbered `growth` refused, and once more after a refusal.
pub fn run(alloc: Global, growth: u16) -> Told {
    let Some(session) = SessionId::new(0) else {
        return Told::Otherwise;
    };
    let events = events(session);
    refuse(alloc, growth);
    let ran = run_events(alloc, 1, &events);
    let refused = was_refused(alloc);
    match ran {
        Ok(plain) => Told::of(refused, false, is_right(&plain)),
        Err(_) => match run_events(alloc, 1, &events) {
            Ok(plain) => Told::of(refused, true, is_right(&plain)),
            Err(_) => Told::Otherwise,
        },
    }
}
