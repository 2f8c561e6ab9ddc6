//! A call of a session as a value, and what it is answered.

ghost use Rattle.lock_manager.specs.Crews.{KeepsSeat};
ghost use Rattle.lock_manager.specs.Calls.{Made};

use crate::blocked::Blocked;
use crate::listing::Listing;
use crate::queues::QueueRow;
use crate::sessions::OwnSession;
use crate::waiting::Asked;
use local_locks::{Acquired, Unlocked};
use lock_table::PartTable;
use modes_core::{Mode, ModeSet, Owner, Refusal, STRONG_COUNTERS, SessionId, Tag};
use shared_rule::Board;
use std::sync::Wait;
use wait_queue::Blocker;

/// A call of a session that is lent, with what it is passed. Each is made as the session's method of its name
/// makes it.
#[derive(Clone, Copy)]
pub enum Call {
    TryLock(Tag, Mode, Owner),
    TryFast(Tag, Mode, Owner),
    Acquire(Tag, Mode, Owner),
    Unlock(Tag, Mode, Owner),
    UnlockAll,
    Commit,
    Abort,
    BeginNested,
    CommitNested,
    AbortNested,
    Held(Tag),
    OwnerCount(Tag, Mode, Owner),
    HasWaiters(Tag, Mode),
    Queue(Tag),
    Blockers(Tag, SessionId),
    Waits,
    List,
    StrongCount(u16),
    AskCancel(SessionId),
}

/// What a call is answered, as the session's method answers it. Which of these it is goes by the call alone.
#[derive(Drop)]
pub enum Answer {
    /// The answer to `TryLock`, `TryFast` or `Acquire`.
    Acquired(Result<Acquired, Refusal>),
    /// The answer to `Unlock`.
    Unlocked(Result<Unlocked, Refusal>),
    /// How many holds an `UnlockAll` released.
    Released(u32),
    /// A transaction has ended, by `Commit` or `Abort`.
    Ended,
    /// The level after `BeginNested`, `CommitNested` or `AbortNested`.
    Level(Result<u8, Refusal>),
    /// The modes that `Held` found.
    Held(ModeSet),
    /// The count that `OwnerCount` found.
    OwnerCount(u16),
    /// Whether `HasWaiters` found somebody.
    HasWaiters(Result<bool, Refusal>),
    /// The waits that `Queue` found, in order.
    Queue(Result<Vec<QueueRow>, Refusal>),
    /// Those who were found in the way by `Blockers`.
    Blockers(Result<Vec<Blocker>, Refusal>),
    /// The waits that `Waits` found, with those in their way.
    Waits(Result<Vec<Blocked>, Refusal>),
    /// The rows that `List` found.
    Listing(Result<Listing, Refusal>),
    /// What `StrongCount` loaded, or nothing where there is no such counter.
    StrongCount(Option<u64>),
    /// Whether the session waited that `AskCancel` asked.
    Asked(Asked),
}

impl<T: PartTable, B: Board<T>> OwnSession<T, B> {
    /// Makes `call`, and answers what it is answered: all that the method of that name promises of its answer
    /// and of the session holds of this one. So a caller who knows his call has the answer by its form, with
    /// `_ => unreachable!()` for all others.
    pub fn make<R: Wait>(&mut self, rt: &R, call: Call) -> Answer
        ensures made { Made B.seat B.view B.stack B.quiet self.old self.new call result }
        ensures seat { KeepsSeat B.seat self.old self.new }
    {
        match call {
            Call::TryLock(tag, mode, owner) => try_lock(rt, self, tag, mode, owner),
            Call::TryFast(tag, mode, owner) => try_fast(self, tag, mode, owner),
            Call::Acquire(tag, mode, owner) => acquire(rt, self, tag, mode, owner),
            Call::Unlock(tag, mode, owner) => unlock(rt, self, tag, mode, owner),
            Call::UnlockAll => unlock_all(rt, self),
            Call::Commit => commit(rt, self),
            Call::Abort => abort(rt, self),
            Call::BeginNested => begin_nested(self),
            Call::CommitNested => commit_nested(self),
            Call::AbortNested => abort_nested(rt, self),
            Call::Held(tag) => Answer::Held(self.held(tag)),
            Call::OwnerCount(tag, mode, owner) => {
                Answer::OwnerCount(self.owner_count(tag, mode, owner))
            }
            Call::HasWaiters(tag, mode) => has_waiters(rt, self, tag, mode),
            Call::Queue(tag) => queue(rt, self, tag),
            Call::Blockers(tag, whose) => blockers(rt, self, tag, whose),
            Call::Waits => waits(rt, self),
            Call::List => list(rt, self),
            Call::StrongCount(index) => strong_count(self, index),
            Call::AskCancel(other) => ask_cancel(self, other),
        }
    }
}

// Each call in a function of its own, where it is cheap to prove.

fn try_lock<T: PartTable, B: Board<T>, R: Wait>(
    rt: &R,
    session: &mut OwnSession<T, B>,
    tag: Tag,
    mode: Mode,
    owner: Owner,
) -> Answer
    ensures made { Made B.seat B.view B.stack B.quiet session.old session.new (Call.TryLock tag mode owner) result }
    ensures seat { KeepsSeat B.seat session.old session.new }
{
    Answer::Acquired(session.try_lock(rt, tag, mode, owner))
}

fn try_fast<T: PartTable, B: Board<T>>(
    session: &mut OwnSession<T, B>,
    tag: Tag,
    mode: Mode,
    owner: Owner,
) -> Answer
    ensures made { Made B.seat B.view B.stack B.quiet session.old session.new (Call.TryFast tag mode owner) result }
    ensures seat { KeepsSeat B.seat session.old session.new }
{
    Answer::Acquired(session.try_fast(tag, mode, owner))
}

fn acquire<T: PartTable, B: Board<T>, R: Wait>(
    rt: &R,
    session: &mut OwnSession<T, B>,
    tag: Tag,
    mode: Mode,
    owner: Owner,
) -> Answer
    ensures made { Made B.seat B.view B.stack B.quiet session.old session.new (Call.Acquire tag mode owner) result }
    ensures seat { KeepsSeat B.seat session.old session.new }
{
    Answer::Acquired(session.acquire(rt, tag, mode, owner))
}

fn unlock<T: PartTable, B: Board<T>, R: Wait>(
    rt: &R,
    session: &mut OwnSession<T, B>,
    tag: Tag,
    mode: Mode,
    owner: Owner,
) -> Answer
    ensures made { Made B.seat B.view B.stack B.quiet session.old session.new (Call.Unlock tag mode owner) result }
    ensures seat { KeepsSeat B.seat session.old session.new }
{
    Answer::Unlocked(session.unlock(rt, tag, mode, owner))
}

fn unlock_all<T: PartTable, B: Board<T>, R: Wait>(rt: &R, session: &mut OwnSession<T, B>) -> Answer
    ensures made { Made B.seat B.view B.stack B.quiet session.old session.new Call.UnlockAll result }
    ensures seat { KeepsSeat B.seat session.old session.new }
{
    Answer::Released(session.unlock_all(rt))
}

fn commit<T: PartTable, B: Board<T>, R: Wait>(rt: &R, session: &mut OwnSession<T, B>) -> Answer
    ensures made { Made B.seat B.view B.stack B.quiet session.old session.new Call.Commit result }
    ensures seat { KeepsSeat B.seat session.old session.new }
{
    session.commit(rt);
    Answer::Ended
}

fn abort<T: PartTable, B: Board<T>, R: Wait>(rt: &R, session: &mut OwnSession<T, B>) -> Answer
    ensures made { Made B.seat B.view B.stack B.quiet session.old session.new Call.Abort result }
    ensures seat { KeepsSeat B.seat session.old session.new }
{
    session.abort(rt);
    Answer::Ended
}

fn begin_nested<T: PartTable, B: Board<T>>(session: &mut OwnSession<T, B>) -> Answer
    ensures made { Made B.seat B.view B.stack B.quiet session.old session.new Call.BeginNested result }
    ensures seat { KeepsSeat B.seat session.old session.new }
{
    Answer::Level(session.begin_nested())
}

fn commit_nested<T: PartTable, B: Board<T>>(session: &mut OwnSession<T, B>) -> Answer
    ensures made { Made B.seat B.view B.stack B.quiet session.old session.new Call.CommitNested result }
    ensures seat { KeepsSeat B.seat session.old session.new }
{
    Answer::Level(session.commit_nested())
}

fn abort_nested<T: PartTable, B: Board<T>, R: Wait>(
    rt: &R,
    session: &mut OwnSession<T, B>,
) -> Answer
    ensures made { Made B.seat B.view B.stack B.quiet session.old session.new Call.AbortNested result }
    ensures seat { KeepsSeat B.seat session.old session.new }
{
    Answer::Level(session.abort_nested(rt))
}

fn has_waiters<T: PartTable, B: Board<T>, R: Wait>(
    rt: &R,
    session: &mut OwnSession<T, B>,
    tag: Tag,
    mode: Mode,
) -> Answer
    ensures made { Made B.seat B.view B.stack B.quiet session.old session.new (Call.HasWaiters tag mode) result }
    ensures seat { KeepsSeat B.seat session.old session.new }
{
    Answer::HasWaiters(session.has_waiters(rt, tag, mode))
}

fn queue<T: PartTable, B: Board<T>, R: Wait>(
    rt: &R,
    session: &mut OwnSession<T, B>,
    tag: Tag,
) -> Answer
    ensures made { Made B.seat B.view B.stack B.quiet session.old session.new (Call.Queue tag) result }
    ensures seat { KeepsSeat B.seat session.old session.new }
{
    Answer::Queue(session.queue(rt, tag))
}

fn blockers<T: PartTable, B: Board<T>, R: Wait>(
    rt: &R,
    session: &mut OwnSession<T, B>,
    tag: Tag,
    whose: SessionId,
) -> Answer
    ensures made { Made B.seat B.view B.stack B.quiet session.old session.new (Call.Blockers tag whose) result }
    ensures seat { KeepsSeat B.seat session.old session.new }
{
    Answer::Blockers(session.blockers(rt, tag, whose))
}

fn waits<T: PartTable, B: Board<T>, R: Wait>(rt: &R, session: &mut OwnSession<T, B>) -> Answer
    ensures made { Made B.seat B.view B.stack B.quiet session.old session.new Call.Waits result }
    ensures seat { KeepsSeat B.seat session.old session.new }
{
    Answer::Waits(session.waits(rt))
}

fn list<T: PartTable, B: Board<T>, R: Wait>(rt: &R, session: &mut OwnSession<T, B>) -> Answer
    ensures made { Made B.seat B.view B.stack B.quiet session.old session.new Call.List result }
    ensures seat { KeepsSeat B.seat session.old session.new }
{
    Answer::Listing(session.list(rt))
}

fn strong_count<T: PartTable, B: Board<T>>(session: &mut OwnSession<T, B>, index: u16) -> Answer
    ensures made { Made B.seat B.view B.stack B.quiet session.old session.new (Call.StrongCount index) result }
    ensures seat { KeepsSeat B.seat session.old session.new }
{
    if u32::from(index) < STRONG_COUNTERS {
        return Answer::StrongCount(Some(session.strong_count(index)));
    }
    Answer::StrongCount(None)
}

fn ask_cancel<T: PartTable, B: Board<T>>(session: &mut OwnSession<T, B>, other: SessionId) -> Answer
    ensures made { Made B.seat B.view B.stack B.quiet session.old session.new (Call.AskCancel other) result }
    ensures seat { KeepsSeat B.seat session.old session.new }
{
    Answer::Asked(session.ask_cancel(other))
}
