//! Acquires that wait where they must, and their waits, over any board.

ghost use Rattle.std.specs.Prelude.{◌≡◌, ◌≢◌, ◌≤◌, ◌↔◌, ◌==◌, [], false, true, None};
ghost use Rattle.std.specs.Prelude.{IsErrOf, IsOkUnless, IfOk, IfErr, OnOk, OnErr};
ghost use Rattle.local_locks.specs.Owned.{has_entry, with_one_more, IsReserved};
ghost use Rattle.lock_manager.specs.Rest.{IsAtRest};
ghost use Rattle.lock_manager.specs.Sessions.{GainsAwaited, KeepsOwn};
ghost use Rattle.wait_queue.specs.Decide.{IsAfterRoom};
ghost use Rattle.lock_manager.specs.Requests.{HadRoom};
ghost use Rattle.lock_manager.specs.Acquires.{AnswersByOwned, HasEntryRoom, IsOwnAnswer, IsRefusedForMemory};
ghost use Rattle.lock_manager.specs.Waiting.{IsWaiting, HasLooked, AsksOneOf, LooksForWaiters};
ghost use Rattle.lock_manager.specs.Waiting.{IsInWait, polled_as, Polls, Cancels, Waits, account_cancelled};
ghost use Rattle.lock_manager.specs.WaitingSessions.{Locks};
ghost use Rattle.lock_manager.specs.Quiet.{QuietOfAcquire};
ghost use Rattle.modes_core.specs.Sessions.{most_sessions};

use crate::releases::put_with_woken;
use crate::requests::{Begun, acquire};
use crate::sessions::Own;
use local_locks::Acquired;
use lock_table::{Move, PartTable};
use lw_word::{WaitState, is_asked, wait_state};
use modes_core::{Mode, Owner, Refusal, SessionId, Tag, is_strong};
use shared_rule::Board;
use std::sync::Wait;
use wait_queue::{Kind, awaited_in_conflict, remove_waiter};

/// What a session that was asked to cancel its wait was doing.
#[derive(Clone, Copy, Debug, PartialEq, Eq)]
pub enum Asked {
    /// The asked session waits, and finds that it was asked when it looks.
    Waiting,
    /// The asked session doesn't wait, or was granted what it waits for.
    NotWaiting,
}

/// What a session that waits finds when it looks.
#[derive(Clone, Copy)]
pub enum Looked {
    /// The session's wait was granted, and has ended.
    Granted,
    /// The session waits still, and nobody asked it to cancel.
    Still,
    /// The session waits still, and was asked to cancel.
    CancelAsked,
}

/// Asks `other` to cancel its wait, and wakes it where it waits (`pg_cancel_backend` in signalfuncs.c). Where
/// no session can have the number `other` the answer is `NotWaiting`, and nothing is done.
pub fn ask_cancel<T: PartTable, B: Board<T>>(board: &mut B, other: SessionId) -> Asked
    requires none_owed { (B.stack board.old).owed ≡ [] }
    ensures asked { AsksOneOf (B.seat board.old).limit (B.view board.old) other result (B.view board.new) }
    ensures untouched { (B.seat board.old).limit ≤ other → board.new ≡ board.old }
    ensures quiet { B.quiet board.new ≡ B.quiet board.old }
    ensures oneself { other ≡ (B.seat board.old).number → (B.view board.old).awaited ≡ None
        → result ≡ Asked.NotWaiting }
    ensures stack { B.stack board.new ≡ B.stack board.old }
    ensures seat { B.seat board.new ≡ B.seat board.old }
{
    if other.number() >= board.sessions() {
        return Asked::NotWaiting;
    }
    let shown = board.ask_cancel(other);
    if wait_state(shown) != WaitState::Waiting as u64 {
        return Asked::NotWaiting;
    }
    board.wake(other);
    Asked::Waiting
}

/// Whether somebody awaits `tag` in a mode that conflicts with `mode`, which the session has
/// (`LockHasWaiters` in lock.c).
pub fn has_waiters<T: PartTable, B: Board<T>, R: Wait>(
    rt: &R,
    board: &mut B,
    own: &Own,
    tag: Tag,
    mode: Mode,
) -> Result<bool, Refusal>
    requires rest { IsAtRest (B.seat board.old).groups (B.seat board.old).limit own.now.database own.now.uses
        (B.view board.old) (B.stack board.old) own.now.locals.entries }
    ensures not_held { IsErrOf result Refusal.NotHeld ↔ (has_entry own.now.locals.entries tag mode ≡ false) }
    ensures no_other { IsOkUnless result Refusal.NotHeld }
    ensures untouched { OnErr result (board.new ≡ board.old) }
    ensures looked { IfOk result (λ is_awaited.
        LooksForWaiters (B.view board.old).trace tag mode is_awaited (B.view board.new).trace) }
    ensures quiet { B.quiet board.new ≡ B.quiet board.old }
    ensures rest { IsAtRest (B.seat board.old).groups (B.seat board.old).limit own.now.database own.now.uses
        (B.view board.new) (B.stack board.new) own.now.locals.entries }
    ensures seat { B.seat board.new ≡ B.seat board.old }
{
    if own.locals.total(tag, mode) == 0 {
        return Err(Refusal::NotHeld);
    }
    let part = tag.partition();
    let content = board.take_part(rt, part);
    let is_awaited = awaited_in_conflict(&content, &tag, mode);
    board.put_part(part, &Move::Keep, content);
    Ok(is_awaited)
}

/// Looks once at the session's wait for `mode` on `tag`. Where it was granted the wait ends, and the session
/// has `mode` on `tag` for `owner`, in a local entry (`ProcSleep` in proc.c where it reads `waitStatus`, and
/// `GrantLockLocal` in lock.c).
pub fn poll<T: PartTable, B: Board<T>>(
    board: &mut B,
    own: &mut Own,
    tag: Tag,
    mode: Mode,
    owner: Owner,
) -> Looked
    requires waiting { IsWaiting (B.seat board.old).groups (B.seat board.old).limit own.old.database own.old.uses
        (B.view board.old) (B.stack board.old) own.old.locals.entries tag mode }
    requires reserved { IsReserved own.old.locals tag mode owner }
    ensures polled { Polls (B.seat board.old).number (B.view board.old).trace result (B.view board.new).trace }
    ensures quiet { B.quiet board.new ≡ B.quiet board.old }
    ensures rest { result ≡ Looked.Granted →
        IsAtRest (B.seat board.old).groups (B.seat board.old).limit own.old.database own.old.uses
        (B.view board.new) (B.stack board.new) own.new.locals.entries }
    ensures gained { result ≡ Looked.Granted → GainsAwaited own.old.locals tag mode owner own.new.locals }
    ensures waiting { result ≢ Looked.Granted →
        IsWaiting (B.seat board.old).groups (B.seat board.old).limit own.old.database own.old.uses
        (B.view board.new) (B.stack board.new) own.new.locals.entries tag mode }
    ensures same_own { result ≢ Looked.Granted → own.new ≡ own.old }
    ensures seat { B.seat board.new ≡ B.seat board.old }
    ensures database { own.new.database ≡ own.old.database }
    ensures uses { own.new.uses ≡ own.old.uses }
{
    let shown = board.load_wait();
    take_up(board, own, tag, mode, owner, shown)
}

/// Takes up `shown`, what the session's own wait word showed: ends the wait for `mode` on `tag` where that
/// was granted.
fn take_up<T: PartTable, B: Board<T>>(
    board: &mut B,
    own: &mut Own,
    tag: Tag,
    mode: Mode,
    owner: Owner,
    shown: u64,
) -> Looked
    requires looked { HasLooked (B.seat board.old).groups (B.seat board.old).limit own.old.database own.old.uses
        (B.view board.old) (B.stack board.old) own.old.locals.entries tag mode shown }
    requires reserved { IsReserved own.old.locals tag mode owner }
    ensures answer { result ≡ polled_as shown }
    ensures quiet { B.quiet board.new ≡ B.quiet board.old }
    ensures no_step { (B.view board.new).trace ≡ (B.view board.old).trace }
    ensures rest { result ≡ Looked.Granted →
        IsAtRest (B.seat board.old).groups (B.seat board.old).limit own.old.database own.old.uses
        (B.view board.new) (B.stack board.new) own.new.locals.entries }
    ensures gained { result ≡ Looked.Granted → GainsAwaited own.old.locals tag mode owner own.new.locals }
    ensures waiting { result ≢ Looked.Granted →
        IsWaiting (B.seat board.old).groups (B.seat board.old).limit own.old.database own.old.uses
        (B.view board.new) (B.stack board.new) own.new.locals.entries tag mode }
    ensures same_own { result ≢ Looked.Granted → own.new ≡ own.old }
    ensures seat { B.seat board.new ≡ B.seat board.old }
    ensures database { own.new.database ≡ own.old.database }
    ensures uses { own.new.uses ≡ own.old.uses }
{
    if wait_state(shown) == WaitState::Granted as u64 {
        board.clear_wait();
        own.locals.add(tag, mode, owner);
        return Looked::Granted;
    }
    if is_asked(shown) {
        return Looked::CancelAsked;
    }
    Looked::Still
}

/// Ends the session's wait for `mode` on `tag`: the wait is taken out of the wait queue, where it is still in
/// it, and the waits that may go on after that are granted; where it had been granted before, the session has
/// the mode (`LockErrorCleanup` in proc.c). The count of a strong mode goes back with the wait
/// (`AbortStrongLockAcquire` in lock.c). The answer is whether the wait had been granted.
pub fn cancel<T: PartTable, B: Board<T>, R: Wait>(
    rt: &R,
    board: &mut B,
    own: &mut Own,
    tag: Tag,
    mode: Mode,
    owner: Owner,
) -> bool
    requires waiting { IsWaiting (B.seat board.old).groups (B.seat board.old).limit own.old.database own.old.uses
        (B.view board.old) (B.stack board.old) own.old.locals.entries tag mode }
    requires reserved { IsReserved own.old.locals tag mode owner }
    ensures steps { Cancels (B.seat board.old).number (B.view board.old).trace tag mode result
        (B.view board.new).trace }
    ensures quiet { B.quiet board.new ≡ B.quiet board.old }
    ensures rest { IsAtRest (B.seat board.old).groups (B.seat board.old).limit own.old.database own.old.uses
        (B.view board.new) (B.stack board.new) own.new.locals.entries }
    ensures gained { result ≡ true → GainsAwaited own.old.locals tag mode owner own.new.locals }
    ensures same_own { result ≡ false → own.new ≡ own.old }
    ensures seat { B.seat board.new ≡ B.seat board.old }
    ensures database { own.new.database ≡ own.old.database }
    ensures uses { own.new.uses ≡ own.old.uses }
{
    if leave_in_part(rt, board, &tag, mode) {
        own.locals.add(tag, mode, owner);
        return true;
    }
    if !is_strong(tag, mode) {
        return false;
    }
    board.sub_strong(&tag, mode);
    false
}

/// Waits until the wait for `mode` on `tag` is granted, or another session asks to cancel it (`ProcSleep` in
/// proc.c, with `LockErrorCleanup` where it is interrupted). The session looks at its own wait word before
/// each sleep. Where the session was asked to cancel, and the grant was first, it has the mode.
pub fn wait<T: PartTable, B: Board<T>, R: Wait>(
    rt: &R,
    board: &mut B,
    own: &mut Own,
    tag: Tag,
    mode: Mode,
    owner: Owner,
) -> Result<(), Refusal>
    requires waiting { IsWaiting (B.seat board.old).groups (B.seat board.old).limit own.old.database own.old.uses
        (B.view board.old) (B.stack board.old) own.old.locals.entries tag mode }
    requires reserved { IsReserved own.old.locals tag mode owner }
    ensures cancelled { IsOkUnless result Refusal.Cancelled }
    ensures steps { Waits (B.seat board.old).number (B.view board.old).trace tag mode result (B.view board.new).trace }
    ensures quiet { B.quiet board.new ≡ B.quiet board.old }
    ensures rest { IsAtRest (B.seat board.old).groups (B.seat board.old).limit own.old.database own.old.uses
        (B.view board.new) (B.stack board.new) own.new.locals.entries }
    ensures gained { OnOk result (GainsAwaited own.old.locals tag mode owner own.new.locals) }
    ensures same_own { OnErr result (own.new ≡ own.old) }
    ensures seat { B.seat board.new ≡ B.seat board.old }
    ensures database { own.new.database ≡ own.old.database }
    ensures uses { own.new.uses ≡ own.old.uses }
{
    for _ in rt.forever() {
        let shown = board.load_wait();
        match take_up(board, own, tag, mode, owner, shown) {
            Looked::Granted => return Ok(()),
            Looked::CancelAsked => {
                if cancel(rt, board, own, tag, mode, owner) {
                    return Ok(());
                }
                return Err(Refusal::Cancelled);
            }
            Looked::Still => board.sleep(rt, shown),
        }
    }
    unreachable!()
}

/// Acquires `mode` on `tag` for `owner`, and waits for it where it must (`LockAcquire` in lock.c without
/// `dontWait`): `acquire`, and `wait` where that queued the request.
pub fn lock<T: PartTable, B: Board<T>, R: Wait>(
    rt: &R,
    board: &mut B,
    own: &mut Own,
    tag: Tag,
    mode: Mode,
    owner: Owner,
) -> Result<Acquired, Refusal>
    requires few { (B.seat board.old).limit ≤ most_sessions }
    requires few_entries { own.old.locals.max_local ≤ 65536 }
    requires rest { IsAtRest (B.seat board.old).groups (B.seat board.old).limit own.old.database own.old.uses
        (B.view board.old) (B.stack board.old) own.old.locals.entries }
    ensures answers { AnswersByOwned own.old.locals tag mode owner Acquired.AlreadyHeld true result }
    ensures room_first { IfErr result (IsAfterRoom (HadRoom T.content T.prepared (B.seat board.old).number tag mode
        (B.view board.new).trace)) }
    ensures entry_room_first { IfErr result (HasEntryRoom own.new.locals) }
    ensures steps { Locks (B.seat board.old) own.old.locals (B.view board.old) own.old.uses tag mode result
        (B.view board.new) own.new.uses }
    ensures quiet { QuietOfAcquire (B.seat board.old) (B.view board.old) own.old.uses tag mode
        (B.quiet board.old) (B.quiet board.new) }
    ensures untouched { IsOwnAnswer Acquired.AlreadyHeld result → board.new ≡ board.old }
    ensures no_memory { IfErr result (λ refusal. refusal ≡ Refusal.NoMemory → IsRefusedForMemory B.view Kind.Waiting
        (B.seat board.old) own.old.locals own.old.uses tag mode board.old board.new own.new.uses) }
    ensures entries { OnOk result (own.new.locals.entries ≡ with_one_more own.old.locals.entries tag mode owner) }
    ensures same_entries { OnErr result (own.new.locals.entries ≡ own.old.locals.entries) }
    ensures rest { IsAtRest (B.seat board.old).groups (B.seat board.old).limit own.old.database own.new.uses
        (B.view board.new) (B.stack board.new) own.new.locals.entries }
    ensures levels { own.new.locals.outer ≡ own.old.locals.outer }
    ensures kept { KeepsOwn (B.seat board.old) own.old (B.seat board.new) own.new }
{
    match acquire(rt, board, own, tag, mode, owner, Kind::Waiting) {
        Ok(Begun::Granted) => Ok(Acquired::Granted),
        Ok(Begun::AlreadyHeld) => Ok(Acquired::AlreadyHeld),
        Ok(Begun::Queued) => match wait(rt, board, own, tag, mode, owner) {
            Ok(()) => Ok(Acquired::Granted),
            Err(refusal) => Err(refusal),
        },
        Err(refusal) => Err(refusal),
    }
}

/// Takes the wait for `mode` on `tag` out of the wait queue in the object's partition, or finds in that
/// partition that it was granted (`RemoveFromWaitQueue` in lock.c). The answer is whether the wait was
/// granted.
fn leave_in_part<T: PartTable, B: Board<T>, R: Wait>(
    rt: &R,
    board: &mut B,
    tag: &Tag,
    mode: Mode,
) -> bool
    requires waiting { IsInWait (B.view board.old) (B.stack board.old) tag.now mode }
    ensures steps { Cancels (B.seat board.old).number (B.view board.old).trace tag.now mode result
        (B.view board.new).trace }
    ensures quiet { B.quiet board.new ≡ B.quiet board.old }
    ensures account { B.view board.new ≡
        account_cancelled (B.view board.old) tag.now mode result (B.view board.new).trace }
    ensures stack { B.stack board.new ≡ B.stack board.old }
    ensures seat { B.seat board.new ≡ B.seat board.old }
{
    let number = board.number();
    let part = tag.partition();
    let mut content = board.take_part(rt, part);
    if remove_waiter(&mut content, number, tag) {
        board.clear_wait();
        board.put_part(part, &Move::Keep, content);
        return true;
    }
    board.leave_queue(content.woken(), &content);
    put_with_woken(board, part, &Move::Leave { tag: *tag }, content);
    false
}
