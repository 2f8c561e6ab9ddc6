//! A search for deadlocks over all objects: who waits for whom at one moment, and a victim.

ghost use Rattle.std.specs.Prelude.{◌<◌};

use lock_manager::{Blocked, MOST_SESSIONS, SessionId};

/// The length of a list that has a place for each session number.
const NUMBERS: usize = MOST_SESSIONS as usize;

/// The place of the session `number` in a list that has one for each.
fn place(number: SessionId) -> usize
    ensures { result < 1024 }
{
    usize::from(number.number())
}

/// A session that waits in a circle of `waits`, so in the end for itself, if there is such a circle.
pub fn victim_of(waits: &[Blocked]) -> Option<SessionId> {
    let mut in_question = [false; NUMBERS];
    for wait in waits {
        in_question[place(wait.session)] = true;
    }
    // Whoever waits for nobody in question is in no circle. It may take as many rounds as there are waits
    // until all of these are out.
    'rounds: for _ in waits {
        if !rule_out(waits, &mut in_question) {
            break 'rounds;
        }
    }
    // Each that is left waits for another one that is left. So whoever goes from one to the next comes into a
    // circle, after no more steps than there are waits.
    let mut victim = first_of(waits, &in_question)?;
    for _ in waits {
        if let Some(next) = next_of(waits, &in_question, victim) {
            victim = next;
        }
    }
    Some(victim)
}

/// Takes those out of `in_question` that wait, by `waits`, for nobody in it. Answers whether there were any.
fn rule_out(waits: &[Blocked], in_question: &mut [bool; NUMBERS]) -> bool {
    let mut any = false;
    for wait in waits {
        let is_stuck = wait
            .blockers
            .iter()
            .any(|blocker| in_question[place(blocker.session)]);
        if in_question[place(wait.session)] && !is_stuck {
            in_question[place(wait.session)] = false;
            any = true;
        }
    }
    any
}

/// The first session of `waits` that is in `in_question`.
fn first_of(waits: &[Blocked], in_question: &[bool; NUMBERS]) -> Option<SessionId> {
    for wait in waits {
        if in_question[place(wait.session)] {
            return Some(wait.session);
        }
    }
    None
}

/// A session in `in_question` that is in the way of the wait of `session`, by `waits`.
fn next_of(
    waits: &[Blocked],
    in_question: &[bool; NUMBERS],
    session: SessionId,
) -> Option<SessionId> {
    for wait in waits {
        for blocker in &wait.blockers {
            if wait.session == session && in_question[place(blocker.session)] {
                return Some(blocker.session);
            }
        }
    }
    None
}
