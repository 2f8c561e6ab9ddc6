//! Acquires that wait for as long as their caller says, over any board.

ghost use Rattle.std.specs.Prelude.{◌≡◌, ◌≢◌, ◌≤◌, true, IsOkUnless, IfErr, OnOk, OnErr};
ghost use Rattle.local_locks.specs.Owned.{with_one_more, IsReserved};
ghost use Rattle.lock_manager.specs.Rest.{IsAtRest};
ghost use Rattle.lock_manager.specs.Sessions.{GainsAwaited, IsSame, KeepsOwn};
ghost use Rattle.wait_queue.specs.Decide.{IsAfterRoom};
ghost use Rattle.lock_manager.specs.Requests.{HadRoom};
ghost use Rattle.lock_manager.specs.Acquires.{AnswersByOwned, HasEntryRoom, IsOwnAnswer, IsRefusedForMemory};
ghost use Rattle.lock_manager.specs.Waiting.{IsWaiting};
ghost use Rattle.lock_manager.specs.Patience.{answer_within, CancelsAs, WaitsWhile, LocksWhile};
ghost use Rattle.lock_manager.specs.Promises.{HasAsked};
ghost use Rattle.lock_manager.specs.Quiet.{QuietOfAcquire};
ghost use Rattle.modes_core.specs.Sessions.{most_sessions};

use crate::requests::{Begun, acquire};
use crate::sessions::{Own, OwnSession};
use crate::waiting::{Looked, cancel, poll};
use local_locks::Acquired;
use lock_table::PartTable;
use modes_core::{Mode, Owner, Refusal, Tag};
use shared_rule::Board;
use std::sync::Wait;
use wait_queue::Kind;

/// Ends the session's wait for `mode` on `tag`, which another session asked to cancel (`LockErrorCleanup` in
/// proc.c). Refused with `Cancelled`; but where the grant was first, the session has the mode for `owner`,
/// and the answer is yes.
fn cancel_as_asked<T: PartTable, B: Board<T>, R: Wait>(
    rt: &R,
    board: &mut B,
    own: &mut Own,
    tag: Tag,
    mode: Mode,
    owner: Owner,
) -> Result<bool, Refusal>
    requires waiting { IsWaiting (B.seat board.old).groups (B.seat board.old).limit own.old.database own.old.uses
        (B.view board.old) (B.stack board.old) own.old.locals.entries tag mode }
    requires reserved { IsReserved own.old.locals tag mode owner }
    ensures cancelled { IsOkUnless result Refusal.Cancelled }
    ensures steps { CancelsAs (B.seat board.old).number (B.view board.old).trace tag mode result
        (B.view board.new).trace }
    ensures quiet { B.quiet board.new ≡ B.quiet board.old }
    ensures rest { IsAtRest (B.seat board.old).groups (B.seat board.old).limit own.old.database own.old.uses
        (B.view board.new) (B.stack board.new) own.new.locals.entries }
    ensures gained { OnOk result (GainsAwaited own.old.locals tag mode owner own.new.locals) }
    ensures same_own { OnErr result (own.new ≡ own.old) }
    ensures seat { B.seat board.new ≡ B.seat board.old }
    ensures database { own.new.database ≡ own.old.database }
    ensures uses { own.new.uses ≡ own.old.uses }
{
    if cancel(rt, board, own, tag, mode, owner) {
        return Ok(true);
    }
    Err(Refusal::Cancelled)
}

/// Waits until the wait for `mode` on `tag` is granted, another session asks to cancel it, or `keep_waiting`
/// answers no, which is asked after each look that showed neither (`ProcSleep` in proc.c with a timeout, and
/// `LockErrorCleanup`). Answers whether the session has the mode for `owner`: where it hasn't, the wait was
/// given up. Refused with `Cancelled` where another session asked.
fn wait_while<T: PartTable, B: Board<T>, R: Wait, K: FnMut() -> bool>(
    rt: &R,
    board: &mut B,
    own: &mut Own,
    tag: Tag,
    mode: Mode,
    owner: Owner,
    mut keep_waiting: K,
) -> Result<bool, Refusal>
    requires callable { K.IsAlwaysCallable keep_waiting }
    requires waiting { IsWaiting (B.seat board.old).groups (B.seat board.old).limit own.old.database own.old.uses
        (B.view board.old) (B.stack board.old) own.old.locals.entries tag mode }
    requires reserved { IsReserved own.old.locals tag mode owner }
    ensures cancelled { IsOkUnless result Refusal.Cancelled }
    ensures steps { WaitsWhile K.step keep_waiting (B.seat board.old).number (B.view board.old).trace tag mode result
        (B.view board.new).trace }
    ensures quiet { B.quiet board.new ≡ B.quiet board.old }
    ensures rest { IsAtRest (B.seat board.old).groups (B.seat board.old).limit own.old.database own.old.uses
        (B.view board.new) (B.stack board.new) own.new.locals.entries }
    ensures gained { result ≡ Ok true → GainsAwaited own.old.locals tag mode owner own.new.locals }
    ensures same_own { result ≢ Ok true → own.new ≡ own.old }
    ensures seat { B.seat board.new ≡ B.seat board.old }
    ensures database { own.new.database ≡ own.old.database }
    ensures uses { own.new.uses ≡ own.old.uses }
{
    'looks: for _ in rt.forever() {
        match poll(board, own, tag, mode, owner) {
            Looked::Granted => return Ok(true),
            Looked::CancelAsked => return cancel_as_asked(rt, board, own, tag, mode, owner),
            Looked::Still => {
                if !keep_waiting() {
                    return Ok(cancel(rt, board, own, tag, mode, owner));
                }
            }
        }
    }
    unreachable!()
}

/// Acquires `mode` on `tag` for `owner`, and waits for it where it must, for as long as `keep_waiting` says:
/// `acquire`, and `wait_while` where that queued the request.
fn lock_while<T: PartTable, B: Board<T>, R: Wait, K: FnMut() -> bool>(
    rt: &R,
    board: &mut B,
    own: &mut Own,
    tag: Tag,
    mode: Mode,
    owner: Owner,
    keep_waiting: K,
) -> Result<Option<Acquired>, Refusal>
    requires callable { K.IsAlwaysCallable keep_waiting }
    requires few { (B.seat board.old).limit ≤ most_sessions }
    requires few_entries { own.old.locals.max_local ≤ 65536 }
    requires rest { IsAtRest (B.seat board.old).groups (B.seat board.old).limit own.old.database own.old.uses
        (B.view board.old) (B.stack board.old) own.old.locals.entries }
    ensures answers { AnswersByOwned own.old.locals tag mode owner Acquired.AlreadyHeld true (answer_within result) }
    ensures room_first { IfErr (answer_within result) (IsAfterRoom (HadRoom T.content T.prepared (B.seat board.old).number tag mode
        (B.view board.new).trace)) }
    ensures entry_room_first { IfErr (answer_within result) (HasEntryRoom own.new.locals) }
    ensures steps { LocksWhile K.step keep_waiting (B.seat board.old) own.old.locals (B.view board.old) own.old.uses
        tag mode result (B.view board.new) own.new.uses }
    ensures quiet { QuietOfAcquire (B.seat board.old) (B.view board.old) own.old.uses tag mode
        (B.quiet board.old) (B.quiet board.new) }
    ensures untouched { IsOwnAnswer Acquired.AlreadyHeld (answer_within result) → board.new ≡ board.old }
    ensures no_memory { IfErr (answer_within result) (λ refusal. refusal ≡ Refusal.NoMemory → IsRefusedForMemory B.view Kind.Waiting
        (B.seat board.old) own.old.locals own.old.uses tag mode board.old board.new own.new.uses) }
    ensures entries { OnOk (answer_within result) (own.new.locals.entries ≡ with_one_more own.old.locals.entries tag mode owner) }
    ensures same_entries { OnErr (answer_within result) (own.new.locals.entries ≡ own.old.locals.entries) }
    ensures rest { IsAtRest (B.seat board.old).groups (B.seat board.old).limit own.old.database own.new.uses
        (B.view board.new) (B.stack board.new) own.new.locals.entries }
    ensures levels { own.new.locals.outer ≡ own.old.locals.outer }
    ensures kept { KeepsOwn (B.seat board.old) own.old (B.seat board.new) own.new }
{
    match acquire(rt, board, own, tag, mode, owner, Kind::Waiting) {
        Ok(Begun::Granted) => Ok(Some(Acquired::Granted)),
        Ok(Begun::AlreadyHeld) => Ok(Some(Acquired::AlreadyHeld)),
        Ok(Begun::Queued) => match wait_while(rt, board, own, tag, mode, owner, keep_waiting) {
            Ok(true) => Ok(Some(Acquired::Granted)),
            Ok(false) => Ok(None),
            Err(refusal) => Err(refusal),
        },
        Err(refusal) => Err(refusal),
    }
}

impl<T: PartTable, B: Board<T>> OwnSession<T, B> {
    /// Takes `tag` in `mode` for `owner` as `acquire` does, and waits where it must for as long as
    /// `keep_waiting` answers yes (`LockAcquire` in lock.c with a `lock_timeout`). The function is asked
    /// after each look at the wait that showed neither a grant nor that another session asked to cancel it.
    /// Where it answers no the wait is given up, the answer is `None`, and the session holds what it held;
    /// or, where the grant was first, it is granted. Refused as `acquire` is: with `Cancelled` only where
    /// another session asked. The session doesn't sleep between two looks, and has no clock: its caller
    /// pauses, and looks at a clock of his own, in `keep_waiting`.
    pub fn acquire_while<R: Wait, K: FnMut() -> bool>(
        &mut self,
        rt: &R,
        tag: Tag,
        mode: Mode,
        owner: Owner,
        keep_waiting: K,
    ) -> Result<Option<Acquired>, Refusal>
        requires callable { K.IsAlwaysCallable keep_waiting }
        ensures asked { HasAsked B.seat B.view B.stack B.quiet Kind.Waiting self.old tag mode owner
            Acquired.AlreadyHeld (answer_within result) self.new.board self.new.uses self.new.owned }
        ensures room_first { IfErr (answer_within result) (IsAfterRoom (HadRoom T.content T.prepared
            (B.seat self.old.board).number tag mode (B.view self.new.board).trace)) }
        ensures steps { LocksWhile K.step keep_waiting (B.seat self.old.board) self.old.owned (B.view self.old.board)
            self.old.uses tag mode result (B.view self.new.board) self.new.uses }
        ensures entries { OnOk (answer_within result) (self.new.owned.entries
            ≡ with_one_more self.old.owned.entries tag mode owner) }
        ensures same { IsSame B.seat B.view B.stack self.old self.new }
    {
        lock_while(
            rt,
            &mut self.board,
            &mut self.own,
            tag,
            mode,
            owner,
            keep_waiting,
        )
    }
}
