//! Releases, over any board.

ghost use Rattle.std.specs.Prelude.{◌≤◌, ◌≡◌, ◌<◌, true, false, [], None};
ghost use Rattle.modes_core.specs.Tag.{is_strong_on};
ghost use Rattle.lock_world.specs.SlotHolds.{slot_holds};
ghost use Rattle.local_locks.specs.Owned.{level_of, found_by, ended_by, left_by, outer_after, IsWellOwned};
ghost use Rattle.lock_world.specs.AccountSteps.{account_putting};
ghost use Rattle.lock_world.specs.Counted.{is_counted};
ghost use Rattle.lock_world.specs.Happens.Partitions.{WaitIsOver};
ghost use Rattle.shared_rule.specs.History.{taken_of};
ghost use Rattle.shared_rule.specs.Lawful.{IsGrantingIn};
ghost use Rattle.shared_rule.specs.Boards.{stack_putting};
ghost use Rattle.lock_manager.specs.Rest.{IsIdle, IsUseCount, IsAtRest};
ghost use Rattle.lock_manager.specs.Sessions.{KeepsOwn};
ghost use Rattle.lock_manager.specs.Releases.{IsLastTaken, Tells, MayWake, WakesAndPuts, ReleasesInPart, ReleasesHold, Releases, ReleasesAll};
ghost use Rattle.lock_manager.specs.Releases.{account_released};
ghost use Rattle.lock_manager.specs.Quiet.{QuietOfReleases, quiet_releasing};

use crate::sessions::Own;
use fast_path::{UseCounts, ungrant};
use local_locks::End;
use lock_table::{Move, PartTable};
use modes_core::{Mode, Tag, is_eligible, is_strong};
use shared_rule::Board;
use std::sync::Wait;
use wait_queue::take_hold_out;

/// Releases all holds that `end`, which is the end of a transaction, of its innermost level or of the
/// session, takes from the session, in the order of making (`LockReleaseAll` in lock.c, and
/// `LockReleaseCurrentOwner` there).
pub fn end_all<T: PartTable, B: Board<T>, R: Wait>(rt: &R, board: &mut B, own: &mut Own, end: End)
    requires rest { IsAtRest (B.seat board.old).groups (B.seat board.old).limit own.old.database own.old.uses
        (B.view board.old) (B.stack board.old) own.old.locals.entries }
    requires well_owned { IsWellOwned own.old.locals }
    requires nested { end ≡ End.Inner → 1 < level_of own.old.locals }
    ensures rest { IsAtRest (B.seat board.old).groups (B.seat board.old).limit own.old.database own.new.uses
        (B.view board.new) (B.stack board.new) own.new.locals.entries }
    ensures steps { ReleasesAll (B.seat board.old).groups (B.seat board.old).number (B.view board.old) own.old.uses
        (ended_by end (found_by end own.old.locals)) (B.view board.new) own.new.uses }
    ensures quiet { QuietOfReleases (B.seat board.old).groups (B.seat board.old).number (B.view board.old) own.old.uses
        (ended_by end (found_by end own.old.locals)) (B.view board.new) own.new.uses
        (B.quiet board.old) (B.quiet board.new) }
    ensures none_ended { ended_by end (found_by end own.old.locals) ≡ [] → board.new ≡ board.old }
    ensures entries { own.new.locals.entries ≡ left_by end (found_by end own.old.locals) }
    ensures levels { own.new.locals.outer ≡ outer_after end own.old.locals.outer }
    ensures room { own.old.locals.room ≤ own.new.locals.room }
    ensures slots { own.new.locals.slots ≡ own.old.locals.slots }
    ensures kept { KeepsOwn (B.seat board.old) own.old (B.seat board.new) own.new }
{
    'entries: while let Some((tag, mode)) = own.locals.end_next(end) {
        release_hold(rt, board, own.database, &mut own.uses, &tag, mode);
    }
}

/// Releases the session's hold on `tag` in `mode`: from the fast-path slot that has it, or else from the lock
/// table (`LockRelease` in lock.c, after its work on the local lock).
pub fn release_hold<T: PartTable, B: Board<T>, R: Wait>(
    rt: &R,
    board: &mut B,
    database: u32,
    uses: &mut UseCounts,
    tag: &Tag,
    mode: Mode,
)
    requires idle { IsIdle (B.view board.old) (B.stack board.old) }
    requires use_count { IsUseCount (B.seat board.old).groups (B.view board.old) uses.old }
    requires database { (B.view board.old).fast.database ≡ database }
    requires held { (B.view board.old).own tag.now mode ≡ true }
    requires counted { is_strong_on tag.now mode ≡ true →
        is_counted (B.view board.old).fast.counted tag.now mode ≡ true }
    ensures steps { Releases (B.seat board.old).groups (B.seat board.old).number (B.view board.old) uses.old
        tag.now mode (B.view board.new) uses.new }
    ensures quiet { B.quiet board.new ≡ quiet_releasing (B.seat board.old).groups (B.seat board.old).number
        (B.view board.old) uses.old tag.now mode (B.quiet board.old) }
    ensures account { B.view board.new ≡ account_released (B.view board.old) tag.now mode
        (B.view board.new).fast.remembered (B.view board.new).trace }
    ensures use_count { IsUseCount (B.seat board.old).groups (B.view board.new) uses.new }
    ensures stack { B.stack board.new ≡ B.stack board.old }
    ensures seat { B.seat board.new ≡ B.seat board.old }
{
    if !is_eligible(database, *tag, mode) {
        release_in_table(rt, board, tag, mode);
        return;
    }
    if !ungrant(rt, board, uses, tag, mode) {
        release_in_table(rt, board, tag, mode);
    }
}

/// Releases the session's hold on `tag` in `mode`, which is in the lock table, wakes the sessions whose waits
/// are granted by that, and takes the count of a strong lock back.
fn release_in_table<T: PartTable, B: Board<T>, R: Wait>(
    rt: &R,
    board: &mut B,
    tag: &Tag,
    mode: Mode,
)
    requires idle { IsIdle (B.view board.old) (B.stack board.old) }
    requires held { (B.view board.old).own tag.now mode ≡ true }
    requires in_no_slot { slot_holds (B.view board.old).fast.database (B.view board.old).fast.remembered tag.now mode
        ≡ false }
    requires counted { is_strong_on tag.now mode ≡ true →
        is_counted (B.view board.old).fast.counted tag.now mode ≡ true }
    ensures released { ReleasesHold (B.seat board.old).number (B.view board.old) tag.now mode (B.view board.new) }
    ensures quiet { B.quiet board.new ≡ B.quiet board.old }
    ensures stack { B.stack board.new ≡ B.stack board.old }
    ensures seat { B.seat board.new ≡ B.seat board.old }
{
    release_in_part(rt, board, tag, mode);
    if is_strong(*tag, mode) {
        board.sub_strong(tag, mode);
    }
}

/// Takes the hold on `tag` in `mode` out of the object's partition, and grants the waits that may go on after
/// it (`UnGrantLock` and `CleanUpLock` in lock.c).
fn release_in_part<T: PartTable, B: Board<T>, R: Wait>(rt: &R, board: &mut B, tag: &Tag, mode: Mode)
    requires idle { IsIdle (B.view board.old) (B.stack board.old) }
    requires held { (B.view board.old).own tag.now mode ≡ true }
    requires in_no_slot { slot_holds (B.view board.old).fast.database (B.view board.old).fast.remembered tag.now mode
        ≡ false }
    ensures released { ReleasesInPart (B.seat board.old).number (B.view board.old) tag.now mode (B.view board.new) }
    ensures quiet { B.quiet board.new ≡ B.quiet board.old }
    ensures stack { B.stack board.new ≡ B.stack board.old }
    ensures seat { B.seat board.new ≡ B.seat board.old }
{
    let number = board.number();
    let part = tag.partition();
    let done = Move::Release { tag: *tag, mode };
    let mut content = board.take_part(rt, part);
    if take_hold_out(&mut content, number, tag, mode) {
        wake_and_put(board, part, tag, &done, content);
    } else {
        board.put_part(part, &done, content);
    }
}

/// Ends the move `done` by a wakeup of the queue of `tag`: wakes the sessions whose waits are granted, if
/// any, and puts the partition `part` with `content` (`ProcLockWakeup` in proc.c). This is a separate
/// function, since mostly no wait is granted.
#[cold]
#[inline(never)]
fn wake_and_put<T: PartTable, B: Board<T>>(
    board: &mut B,
    part: u8,
    tag: &Tag,
    done: &Move,
    mut content: T,
)
    requires exists { part < 16 }
    requires grants { IsGrantingIn part done.now }
    requires none_begun { T.begun content ≡ None }
    requires in_hand { IsLastTaken (B.stack board.old) part }
    requires wait_is_over { WaitIsOver (B.view board.old).awaited part done.now }
    requires lawful { MayWake (B.seat board.old) (B.view board.old) part done.now tag.now (T.content content) }
    ensures account { WakesAndPuts (B.view board.old) part done.now tag.now (T.content content) (B.view board.new) }
    ensures quiet { B.quiet board.new ≡ B.quiet board.old }
    ensures stack { B.stack board.new ≡ stack_putting (B.stack board.old) }
    ensures seat { B.seat board.new ≡ B.seat board.old }
{
    content.wake(tag);
    if content.woken().is_empty() {
        board.put_part(part, done, content);
    } else {
        put_with_woken(board, part, done, content);
    }
}

/// Marks the wait of each session that the move `done` granted, which are those that `content` names as
/// woken, wakes these sessions, and puts the partition `part` with `content` (`ProcLockWakeup` in proc.c,
/// whose `ProcWakeup` sets each latch under the partition's lock). The first mark records the move, where it
/// isn't recorded already.
pub fn put_with_woken<T: PartTable, B: Board<T>>(board: &mut B, part: u8, done: &Move, content: T)
    requires exists { part < 16 }
    requires grants { IsGrantingIn part done.now }
    requires none_begun { T.begun content ≡ None }
    requires in_hand { IsLastTaken (B.stack board.old) part }
    requires wait_is_over { WaitIsOver (B.view board.old).awaited part done.now }
    requires lawful { Tells (B.seat board.old) (B.view board.old) part done.now (T.woken content) (T.content content) }
    ensures account { B.view board.new ≡
        account_putting (B.view board.old) part (taken_of ((B.view board.old).hand part)) (T.content content) done.now }
    ensures quiet { B.quiet board.new ≡ B.quiet board.old }
    ensures stack { B.stack board.new ≡ stack_putting (B.stack board.old) }
    ensures seat { B.seat board.new ≡ B.seat board.old }
{
    let woken = content.woken();
    for (other, _mode) in woken {
        board.mark_granted(part, *other, done, woken, &content);
    }
    for (session, _mode) in woken {
        board.wake(*session);
    }
    board.put_part(part, &Move::Keep, content);
}
