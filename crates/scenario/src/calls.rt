//! The calls that a line has its session make, over any board, and what it is answered.
ghost use Rattle.scenario.specs.Calls.{IsScripted};
ghost use Rattle.scenario.specs.Made.{Fits, IsMade, IsTold};
ghost use Rattle.scenario.specs.Waits.{LooksAround};

use crate::answers::{
    Answer, Row, Said, of_acquire, of_blockers, of_cancel, of_level, of_list, of_queue, of_unlock,
    of_waiters,
};
use crate::picture::Picture;
use crate::style::Pen;
use lock_manager::{self, Call, OwnSession, Refusal, TableRow};
use lock_script::Name;
use lock_table::PartTable;
use shared_rule::Board;
use std::sync::Wait;

/// Has `session`, which a script calls `name`, make the call `call`, and answers the call. Where that is
/// about another session, `other` is the name of that one.
pub fn make<T: PartTable, B: Board<T>, H: Wait>(
    rt: &H,
    session: &mut OwnSession<T, B>,
    name: Name,
    other: Name,
    call: &Call,
) -> Answer
    requires { IsScripted call.now }
    ensures { IsMade B.seat B.view B.stack session.old session.new name other call.now result }
{
    let answer = session.make(rt, *call);
    tell(name, other, call, answer)
}

/// What the session `name` is told of `call`, which was answered `answer`. Where the call is about another
/// session, `other` is the name of that one.
fn tell(name: Name, other: Name, call: &Call, answer: lock_manager::Answer) -> Answer
    requires { Fits call.now answer }
    ensures { IsTold name other call.now answer result }
{
    match answer {
        lock_manager::Answer::Acquired(answer) => of_acquire(name, answer),
        lock_manager::Answer::Unlocked(answer) => match *call {
            Call::Unlock(_, mode, _) => of_unlock(name, mode, answer),
            _ => unreachable!(),
        },
        lock_manager::Answer::Released(count) => Answer::Said(name, Said::UnlockedAll(count)),
        lock_manager::Answer::Ended => match call {
            Call::Commit => Answer::Said(name, Said::Committed),
            Call::Abort => Answer::Said(name, Said::Aborted),
            _ => unreachable!(),
        },
        lock_manager::Answer::Level(answer) => of_level(name, answer),
        lock_manager::Answer::HasWaiters(answer) => match *call {
            Call::HasWaiters(_, mode) => of_waiters(name, mode, answer),
            _ => unreachable!(),
        },
        lock_manager::Answer::Queue(answer) => of_queue(name, answer),
        lock_manager::Answer::Blockers(answer) => of_blockers(name, other, answer),
        lock_manager::Answer::Listing(answer) => of_list(name, answer),
        lock_manager::Answer::StrongCount(Some(shown)) => match *call {
            Call::StrongCount(index) => Answer::Row(Row::Counter { index, shown }),
            _ => unreachable!(),
        },
        lock_manager::Answer::Asked(asked) => of_cancel(name, other, asked),
        _ => unreachable!(),
    }
}

/// Draws with `pen` who waits for whom: the waits among `rows`, those of the lock table in a listing, with
/// who is in the way of each, and the wait queue of each awaited object, as `session` finds them.
pub fn draw<T: PartTable, B: Board<T>, H: Wait>(
    rt: &H,
    session: &mut OwnSession<T, B>,
    pen: Pen,
    rows: &[TableRow],
) -> Result<Picture, Refusal>
    ensures { LooksAround B.seat session.old session.new }
{
    let mut picture = Picture::new(pen);
    'rows: for row in rows {
        if row.granted {
            continue;
        }
        let found = session.blockers(rt, row.tag, row.session)?;
        if picture.add(row, found.as_slice()).is_err() {
            return Err(Refusal::NoMemory);
        }
        if picture.has_queue(row.tag) {
            continue;
        }
        let queue = session.queue(rt, row.tag)?;
        if picture.add_queue(row.tag, queue.as_slice()).is_err() {
            return Err(Refusal::NoMemory);
        }
    }
    Ok(picture)
}
