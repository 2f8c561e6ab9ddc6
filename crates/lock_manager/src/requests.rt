//! Acquires and requests, of either kind, over any board.

ghost use Rattle.std.specs.Prelude.{◌≡◌, ◌≢◌, ◌<◌, ◌≤◌, ◌↔◌, ℕ, false, true, length, IsErrOf, IfOk, IfErr, OnOk, OnErr};
ghost use Rattle.modes_core.specs.Tag.{is_strong_on, is_eligible_for};
ghost use Rattle.local_locks.specs.Owned.{has_entry, with_one_more, IsReserved};
ghost use Rattle.lock_world.specs.Counted.{is_counted, is_done};
ghost use Rattle.lock_world.specs.Happens.Counters.{most_counted};
ghost use Rattle.lock_manager.specs.Rest.{IsIdle, IsUseCount, IsAtRest};
ghost use Rattle.lock_manager.specs.Sessions.{KeepsOwn};
ghost use Rattle.wait_queue.specs.Decide.{IsAfterRoom};
ghost use Rattle.lock_manager.specs.Requests.{DecidesInPart, HadRoom, Requests, IsRequested};
ghost use Rattle.lock_manager.specs.Acquires.{AnswersByOwned, HasEntryRoom, IsOwnAnswer, IsOwnAnswerBySlot, IsRefusedForMemory, entries_begun, Begins, AcquiresBySlot};
ghost use Rattle.lock_manager.specs.Waiting.{IsWaiting};
ghost use Rattle.lock_manager.specs.Quiet.{QuietOfAcquire, QuietOfAcquireBySlot, QuietOfRequest, QuietOfStrong};
ghost use Rattle.modes_core.specs.Sessions.{most_sessions};

use crate::sessions::Own;
use fast_path::{UseCounts, grant, transfer, try_grant};
use local_locks::Acquired;
use lock_table::{Move, PartTable};
use modes_core::{Mode, Owner, Refusal, Tag, is_eligible, is_strong};
use shared_rule::Board;
use std::sync::Wait;
use wait_queue::{Decision, Kind, decide};

/// How an acquire begins that is not refused.
#[derive(Clone, Copy)]
pub enum Begun {
    /// The session has the mode newly.
    Granted,
    /// The session had the mode before, and has it once more.
    AlreadyHeld,
    /// The session waits for the mode.
    Queued,
}

/// Acquires `mode` on `tag` for `owner`, or begins to wait for it where `kind` says that the request may wait
/// (`LockAcquire` in lock.c, up to `WaitOnLock`). What the session has already is counted once more, with no
/// step on shared state; a new mode is granted in a fast-path slot, or decided in the object's partition.
/// While the session waits, room for its new local entry is reserved.
#[inline(always)]
pub fn acquire<T: PartTable, B: Board<T>, R: Wait>(
    rt: &R,
    board: &mut B,
    own: &mut Own,
    tag: Tag,
    mode: Mode,
    owner: Owner,
    kind: Kind,
) -> Result<Begun, Refusal>
    requires few { (B.seat board.old).limit ≤ most_sessions }
    requires few_entries { own.old.locals.max_local ≤ 65536 }
    requires rest { IsAtRest (B.seat board.old).groups (B.seat board.old).limit own.old.database own.old.uses
        (B.view board.old) (B.stack board.old) own.old.locals.entries }
    ensures answers { AnswersByOwned own.old.locals tag mode owner Begun.AlreadyHeld true result }
    ensures at_once { kind ≡ Kind.Conditional → result ≢ Ok Begun.Queued }
    ensures steps { Begins kind (B.seat board.old) own.old.locals (B.view board.old) own.old.uses tag mode result
        (B.view board.new) own.new.uses }
    ensures quiet { QuietOfAcquire (B.seat board.old) (B.view board.old) own.old.uses tag mode
        (B.quiet board.old) (B.quiet board.new) }
    ensures room_first { IfErr result (IsAfterRoom (HadRoom T.content T.prepared (B.seat board.old).number tag mode
        (B.view board.new).trace)) }
    ensures entry_room_first { IfErr result (HasEntryRoom own.new.locals) }
    ensures untouched { IsOwnAnswer Begun.AlreadyHeld result → board.new ≡ board.old }
    ensures no_memory { IfErr result (λ refusal. refusal ≡ Refusal.NoMemory → IsRefusedForMemory B.view kind
        (B.seat board.old) own.old.locals own.old.uses tag mode board.old board.new own.new.uses) }
    ensures entries { IfOk result (λ begun.
        own.new.locals.entries ≡ entries_begun begun own.old.locals.entries tag mode owner) }
    ensures same_entries { OnErr result (own.new.locals.entries ≡ own.old.locals.entries) }
    ensures rest { result ≢ Ok Begun.Queued →
        IsAtRest (B.seat board.old).groups (B.seat board.old).limit own.old.database own.new.uses
        (B.view board.new) (B.stack board.new) own.new.locals.entries }
    ensures waiting { result ≡ Ok Begun.Queued →
        IsWaiting (B.seat board.old).groups (B.seat board.old).limit own.old.database own.new.uses
        (B.view board.new) (B.stack board.new) own.new.locals.entries tag mode }
    ensures reserved { result ≡ Ok Begun.Queued → IsReserved own.new.locals tag mode owner }
    ensures levels { own.new.locals.outer ≡ own.old.locals.outer }
    ensures kept { KeepsOwn (B.seat board.old) own.old (B.seat board.new) own.new }
{
    if own.locals.add_held(&tag, mode, owner)? {
        return Ok(Begun::AlreadyHeld);
    }
    own.locals.reserve_new()?;
    match request(rt, board, own.database, &mut own.uses, &tag, mode, kind) {
        Ok(Decision::Granted) => {
            own.locals.add_new(&tag, mode, owner);
            Ok(Begun::Granted)
        }
        Ok(Decision::Queued) => Ok(Begun::Queued),
        Err(refusal) => Err(refusal),
    }
}

/// Acquires `mode` on `tag` for `owner` by the fast path alone, waiting for nobody
/// (`FastPathGrantRelationLock` in lock.c, with the lock of the session's own slots taken conditionally).
/// What the session has already is counted once more, with no step on shared state.
pub fn acquire_by_slot<T: PartTable, B: Board<T>>(
    board: &mut B,
    own: &mut Own,
    tag: Tag,
    mode: Mode,
    owner: Owner,
) -> Result<Acquired, Refusal>
    requires rest { IsAtRest (B.seat board.old).groups (B.seat board.old).limit own.old.database own.old.uses
        (B.view board.old) (B.stack board.old) own.old.locals.entries }
    ensures answers { AnswersByOwned own.old.locals tag mode owner Acquired.AlreadyHeld
        (is_eligible_for own.old.database tag mode) result }
    ensures not_eligible { IsErrOf result Refusal.NotEligible ↔ ((has_entry own.old.locals.entries tag mode ≡ false)
        × (is_eligible_for own.old.database tag mode ≡ false)) }
    ensures steps { AcquiresBySlot (B.seat board.old).groups (B.seat board.old).number own.old.locals
        (B.view board.old) own.old.uses tag mode result (B.view board.new) own.new.uses }
    ensures quiet { QuietOfAcquireBySlot (B.seat board.old).number tag mode
        (B.quiet board.old) (B.quiet board.new) }
    ensures entry_room_first { IfErr result (HasEntryRoom own.new.locals) }
    ensures untouched { IsOwnAnswerBySlot result → board.new ≡ board.old }
    ensures entries { OnOk result (own.new.locals.entries ≡ with_one_more own.old.locals.entries tag mode owner) }
    ensures same_entries { OnErr result (own.new.locals.entries ≡ own.old.locals.entries) }
    ensures rest { IsAtRest (B.seat board.old).groups (B.seat board.old).limit own.old.database own.new.uses
        (B.view board.new) (B.stack board.new) own.new.locals.entries }
    ensures levels { own.new.locals.outer ≡ own.old.locals.outer }
    ensures kept { KeepsOwn (B.seat board.old) own.old (B.seat board.new) own.new }
{
    if own.locals.add_held(&tag, mode, owner)? {
        return Ok(Acquired::AlreadyHeld);
    }
    if !is_eligible(own.database, tag, mode) {
        return Err(Refusal::NotEligible);
    }
    own.locals.reserve_new()?;
    match try_grant(board, &mut own.uses, &tag, mode) {
        Ok(()) => {
            own.locals.add_new(&tag, mode, owner);
            Ok(Acquired::Granted)
        }
        Err(refusal) => Err(refusal),
    }
}

/// Answers a request for `mode` on `tag`, which the session hasn't (`LockAcquireExtended` in lock.c): a
/// request for a strong mode once what is in its way in fast-path slots is moved to the table; another one in
/// one of the session's own slots, where the mode may go by a slot, and otherwise in the object's partition.
pub fn request<T: PartTable, B: Board<T>, R: Wait>(
    rt: &R,
    board: &mut B,
    database: u32,
    uses: &mut UseCounts,
    tag: &Tag,
    mode: Mode,
    kind: Kind,
) -> Result<Decision, Refusal>
    requires few { (B.seat board.old).limit ≤ most_sessions }
    requires idle { IsIdle (B.view board.old) (B.stack board.old) }
    requires use_count { IsUseCount (B.seat board.old).groups (B.view board.old) uses.old }
    requires database { (B.view board.old).fast.database ≡ database }
    requires new { (B.view board.old).own tag.now mode ≡ false }
    requires not_counted { is_counted (B.view board.old).fast.counted tag.now mode ≡ false }
    requires countable { length (B.view board.old).fast.counted < most_counted }
    ensures steps { Requests kind (B.seat board.old) (B.view board.old) uses.old tag.now mode result
        (B.view board.new) uses.new }
    ensures quiet { QuietOfRequest (B.seat board.old) (B.view board.old) uses.old tag.now mode
        (B.quiet board.old) (B.quiet board.new) }
    ensures room_first { IfErr result (IsAfterRoom (HadRoom T.content T.prepared (B.seat board.old).number tag.now mode
        (B.view board.new).trace)) }
    ensures account { IsRequested (B.seat board.old).limit (B.view board.old) tag.now mode result (B.view board.new) }
    ensures use_count { IsUseCount (B.seat board.old).groups (B.view board.new) uses.new }
    ensures stack { B.stack board.new ≡ B.stack board.old }
    ensures seat { B.seat board.new ≡ B.seat board.old }
{
    if is_strong(*tag, mode) {
        return request_strong(rt, board, tag, mode, kind);
    }
    if !is_eligible(database, *tag, mode) {
        return decide_in_part(rt, board, tag, mode, kind);
    }
    match grant(rt, board, uses, tag, mode) {
        Ok(()) => Ok(Decision::Granted),
        Err(_) => decide_in_part(rt, board, tag, mode, kind),
    }
}

/// Answers a request for the strong `mode` on `tag`: the strong lock is counted, and what is in its way in
/// fast-path slots is moved to the lock table, before the request is decided in the table. The count is taken
/// back where the request is refused (`BeginStrongLockAcquire`, `FastPathTransferRelationLocks` and
/// `AbortStrongLockAcquire` in lock.c).
#[cold]
#[inline(never)]
fn request_strong<T: PartTable, B: Board<T>, R: Wait>(
    rt: &R,
    board: &mut B,
    tag: &Tag,
    mode: Mode,
    kind: Kind,
) -> Result<Decision, Refusal>
    requires few { (B.seat board.old).limit ≤ most_sessions }
    requires strong { is_strong_on tag.now mode ≡ true }
    requires idle { IsIdle (B.view board.old) (B.stack board.old) }
    requires new { (B.view board.old).own tag.now mode ≡ false }
    requires not_counted { is_counted (B.view board.old).fast.counted tag.now mode ≡ false }
    requires countable { length (B.view board.old).fast.counted < most_counted }
    ensures steps { (uses : UseCounts) →
        Requests kind (B.seat board.old) (B.view board.old) uses tag.now mode result (B.view board.new) uses }
    ensures quiet { QuietOfStrong (B.seat board.old).limit tag.now mode (B.quiet board.old) (B.quiet board.new) }
    ensures room_first { IfErr result (IsAfterRoom (HadRoom T.content T.prepared (B.seat board.old).number tag.now mode
        (B.view board.new).trace)) }
    ensures account { IsRequested (B.seat board.old).limit (B.view board.old) tag.now mode result (B.view board.new) }
    ensures use_count { (uses : UseCounts) → IsUseCount (B.seat board.old).groups (B.view board.old) uses
        → IsUseCount (B.seat board.old).groups (B.view board.new) uses }
    ensures stack { B.stack board.new ≡ B.stack board.old }
    ensures seat { B.seat board.new ≡ B.seat board.old }
{
    if transfer(rt, board, tag, mode).is_err() {
        return Err(Refusal::NoMemory);
    }
    match decide_in_part(rt, board, tag, mode, kind) {
        Ok(decision) => Ok(decision),
        Err(refusal) => {
            board.sub_strong(tag, mode);
            Err(refusal)
        }
    }
}

/// Decides a request for `mode` on `tag` in the object's partition, and where the request has to wait stores
/// so in the session's own wait word (`LockCheckConflicts` with `GrantLock` in lock.c, and `ProcSleep` in
/// proc.c).
#[inline(never)]
fn decide_in_part<T: PartTable, B: Board<T>, R: Wait>(
    rt: &R,
    board: &mut B,
    tag: &Tag,
    mode: Mode,
    kind: Kind,
) -> Result<Decision, Refusal>
    requires idle { IsIdle (B.view board.old) (B.stack board.old) }
    requires new { (B.view board.old).own tag.now mode ≡ false }
    requires counted { is_strong_on tag.now mode ≡ true →
        is_done (B.seat board.old).limit (B.view board.old).fast.counted tag.now mode ≡ true }
    ensures decided { DecidesInPart kind (B.seat board.old).number (B.view board.old) tag.now mode result
        (B.view board.new) }
    ensures quiet { B.quiet board.new ≡ B.quiet board.old }
    ensures room_first { IfErr result (IsAfterRoom (HadRoom T.content T.prepared (B.seat board.old).number tag.now mode
        (B.view board.new).trace)) }
    ensures stack { B.stack board.new ≡ B.stack board.old }
    ensures seat { B.seat board.new ≡ B.seat board.old }
{
    let number = board.number();
    let part = tag.partition();
    let mut content = board.take_part(rt, part);
    match decide(&mut content, number, tag, mode, kind) {
        Ok(Decision::Granted) => {
            board.put_part(part, &Move::Grant { tag: *tag, mode }, content);
            Ok(Decision::Granted)
        }
        Ok(Decision::Queued) => {
            board.set_waiting(tag, mode, &content);
            board.put_part(part, &Move::Keep, content);
            Ok(Decision::Queued)
        }
        Err(refusal) => {
            board.put_part(part, &Move::Keep, content);
            Err(refusal)
        }
    }
}
