ghost use Rattle.lock_table.specs.Queue.{AnswerByPlace};

use crate::answering::Answer;
use crate::answering::walk::{Walk, is_against, walk_until};
use crate::part_table::PartTable;
use modes_core::{Mode, SessionId, Tag};

/// The answer to a request of `session` for `tag` in `mode` that something in `part` is in the way of, by the
/// modes in which `session` holds the object (the early insertion of `ProcSleep` in proc.c).
pub fn answer_by_place<P: PartTable>(part: &P, session: SessionId, tag: &Tag, mode: Mode) -> Answer
    ensures { AnswerByPlace (P.content part.now) session tag.now mode result }
{
    let held = part.held(session, tag);
    let Walk { met, place, ahead } = walk_until(part, tag, held);
    let Some(waiter) = met else {
        return Answer::Queued(place);
    };
    if is_against(mode, waiter.held) {
        return Answer::SimpleDeadlock(waiter.session);
    }
    if is_against(mode, ahead) {
        return Answer::Queued(place);
    }
    match part.conflict_of(session, tag, mode) {
        None => Answer::Granted,
        Some(_) => Answer::Queued(place),
    }
}
