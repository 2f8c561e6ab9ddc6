//! What stands in an object's queue, and who is in the way of one that waits there, over any board.

ghost use Rattle.std.specs.Prelude.{◌≡◌, ◌≤◌, IfOk, IsOkUnless};
ghost use Rattle.lock_manager.specs.Rest.{IsAtRest};
ghost use Rattle.lock_manager.specs.Sessions.{IsSame};
ghost use Rattle.lock_manager.specs.Waiting.{IsWaiting};
ghost use Rattle.lock_manager.specs.Queues.{LooksAt, IsQueue, AreBlockers};

use crate::sessions::{Own, OwnSession};
use lock_table::{Move, PartTable, Waiter};
use modes_core::{Mode, Refusal, SessionId, Tag};
use shared_rule::Board;
use std::sync::Wait;
use wait_queue::{Blocker, blockers_of, queue_of};

/// A row of an object's wait queue: the session that waits, the mode that it waits for, and the modes of the
/// object that it held when it joined the queue.
pub type QueueRow = Waiter;

/// The waits on `tag` at one moment, in the order of the object's wait queue, as the session on `board`,
/// which owns `own`, sees them.
fn queue<T: PartTable, B: Board<T>, R: Wait>(
    rt: &R,
    board: &mut B,
    own: &Own,
    tag: Tag,
) -> Result<Vec<QueueRow>, Refusal>
    requires rest { IsAtRest (B.seat board.old).groups (B.seat board.old).limit own.now.database own.now.uses
        (B.view board.old) (B.stack board.old) own.now.locals.entries }
    ensures looked { LooksAt (λ taken. IfOk result (λ rows. IsQueue tag rows.items taken))
        (B.view board.old).trace tag (B.view board.new).trace }
    ensures quiet { B.quiet board.new ≡ B.quiet board.old }
    ensures no_memory { IsOkUnless result Refusal.NoMemory }
    ensures rest { IsAtRest (B.seat board.old).groups (B.seat board.old).limit own.now.database own.now.uses
        (B.view board.new) (B.stack board.new) own.now.locals.entries }
    ensures seat { B.seat board.new ≡ B.seat board.old }
{
    let part = tag.partition();
    let content = board.take_part(rt, part);
    let rows = queue_of(own.alloc, &content, &tag);
    board.put_part(part, &Move::Keep, content);
    match rows {
        Ok(rows) => Ok(rows),
        Err(_) => Err(Refusal::NoMemory),
    }
}

/// The sessions in the way of the wait of `session` on `tag` at one moment.
fn blockers<T: PartTable, B: Board<T>, R: Wait>(
    rt: &R,
    board: &mut B,
    own: &Own,
    tag: Tag,
    session: SessionId,
) -> Result<Vec<Blocker>, Refusal>
    requires rest { IsAtRest (B.seat board.old).groups (B.seat board.old).limit own.now.database own.now.uses
        (B.view board.old) (B.stack board.old) own.now.locals.entries }
    ensures looked { LooksAt (λ taken. IfOk result (λ found. AreBlockers tag session found.items taken))
        (B.view board.old).trace tag (B.view board.new).trace }
    ensures quiet { B.quiet board.new ≡ B.quiet board.old }
    ensures no_memory { IsOkUnless result Refusal.NoMemory }
    ensures rest { IsAtRest (B.seat board.old).groups (B.seat board.old).limit own.now.database own.now.uses
        (B.view board.new) (B.stack board.new) own.now.locals.entries }
    ensures seat { B.seat board.new ≡ B.seat board.old }
{
    let part = tag.partition();
    let content = board.take_part(rt, part);
    let found = blockers_of(own.alloc, &content, &tag, session);
    board.put_part(part, &Move::Keep, content);
    match found {
        Ok(found) => Ok(found),
        Err(_) => Err(Refusal::NoMemory),
    }
}

/// The sessions in the way of the session's own wait for `mode` on `tag` at one moment.
pub fn blockers_of_own<T: PartTable, B: Board<T>, R: Wait>(
    rt: &R,
    board: &mut B,
    own: &Own,
    tag: Tag,
    mode: Mode,
) -> Result<Vec<Blocker>, Refusal>
    requires waiting { IsWaiting (B.seat board.old).groups (B.seat board.old).limit own.now.database own.now.uses
        (B.view board.old) (B.stack board.old) own.now.locals.entries tag mode }
    ensures looked { LooksAt (λ taken. IfOk result (λ found.
        AreBlockers tag (B.seat board.old).number found.items taken))
        (B.view board.old).trace tag (B.view board.new).trace }
    ensures quiet { B.quiet board.new ≡ B.quiet board.old }
    ensures no_memory { IsOkUnless result Refusal.NoMemory }
    ensures waiting { IsWaiting (B.seat board.old).groups (B.seat board.old).limit own.now.database own.now.uses
        (B.view board.new) (B.stack board.new) own.now.locals.entries tag mode }
    ensures seat { B.seat board.new ≡ B.seat board.old }
{
    let part = tag.partition();
    let number = board.number();
    let content = board.take_part(rt, part);
    let found = blockers_of(own.alloc, &content, &tag, number);
    board.put_part(part, &Move::Keep, content);
    match found {
        Ok(found) => Ok(found),
        Err(_) => Err(Refusal::NoMemory),
    }
}

/// The waits on `tag` at one moment, in the order of the object's wait queue, as a session sees them that
/// itself waits for `mode` on `tag`.
pub fn queue_of_own<T: PartTable, B: Board<T>, R: Wait>(
    rt: &R,
    board: &mut B,
    own: &Own,
    tag: Tag,
    mode: Mode,
) -> Result<Vec<QueueRow>, Refusal>
    requires waiting { IsWaiting (B.seat board.old).groups (B.seat board.old).limit own.now.database own.now.uses
        (B.view board.old) (B.stack board.old) own.now.locals.entries tag mode }
    ensures looked { LooksAt (λ taken. IfOk result (λ rows. IsQueue tag rows.items taken))
        (B.view board.old).trace tag (B.view board.new).trace }
    ensures quiet { B.quiet board.new ≡ B.quiet board.old }
    ensures no_memory { IsOkUnless result Refusal.NoMemory }
    ensures waiting { IsWaiting (B.seat board.old).groups (B.seat board.old).limit own.now.database own.now.uses
        (B.view board.new) (B.stack board.new) own.now.locals.entries tag mode }
    ensures seat { B.seat board.new ≡ B.seat board.old }
{
    let part = tag.partition();
    let content = board.take_part(rt, part);
    let standing = queue_of(own.alloc, &content, &tag);
    board.put_part(part, &Move::Keep, content);
    match standing {
        Ok(rows) => Ok(rows),
        Err(_) => Err(Refusal::NoMemory),
    }
}

impl<T: PartTable, B: Board<T>> OwnSession<T, B> {
    /// The waits on `tag`, in the order of the object's wait queue, with the modes that each waiting session
    /// held when it joined: by one episode in the object's partition, which changes nothing. Only the list of
    /// the answer takes memory; refused where that runs out.
    pub fn queue<R: Wait>(&mut self, rt: &R, tag: Tag) -> Result<Vec<QueueRow>, Refusal>
        // What the call answers.
        ensures looked { LooksAt (λ taken. IfOk result (λ rows. IsQueue tag rows.items taken))
            (B.view self.old.board).trace tag (B.view self.new.board).trace }
        ensures quiet { B.quiet self.new.board ≡ B.quiet self.old.board }
        ensures no_memory { IsOkUnless result Refusal.NoMemory }

        // What holds after the call.
        ensures owned { self.new.owned ≡ self.old.owned }
        ensures uses { self.new.uses ≡ self.old.uses }
        ensures same { IsSame B.seat B.view B.stack self.old self.new }
    {
        queue(rt, &mut self.board, &self.own, tag)
    }

    /// The sessions in the way of `session`, which waits on `tag` (`GetBlockerStatusData` in lock.c, for
    /// `pg_blocking_pids`): by session and mode those who hold a mode that conflicts with the awaited one,
    /// and then, in the order of the queue, those before it who await one. Nobody where `session` doesn't
    /// wait on `tag`. The answer is of one episode in the object's partition, which changes nothing. A hold
    /// in a fast-path slot is in nobody's way: it is moved to the table before a mode that conflicts with it
    /// can wait. Only the list of the answer takes memory; refused where that runs out.
    pub fn blockers<R: Wait>(
        &mut self,
        rt: &R,
        tag: Tag,
        session: SessionId,
    ) -> Result<Vec<Blocker>, Refusal>
        // What the call answers.
        ensures looked { LooksAt (λ taken. IfOk result (λ found. AreBlockers tag session found.items taken))
            (B.view self.old.board).trace tag (B.view self.new.board).trace }
        ensures quiet { B.quiet self.new.board ≡ B.quiet self.old.board }
        ensures no_memory { IsOkUnless result Refusal.NoMemory }

        // What holds after the call.
        ensures owned { self.new.owned ≡ self.old.owned }
        ensures uses { self.new.uses ≡ self.old.uses }
        ensures same { IsSame B.seat B.view B.stack self.old self.new }
    {
        blockers(rt, &mut self.board, &self.own, tag, session)
    }
}
