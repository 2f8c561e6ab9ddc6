//! A session in the list of a lightweight lock that it comes for: joining it, leaving it, and sleeping there
//! (`LWLockQueueSelf` and `LWLockDequeueSelf` in lwlock.c). When it does which is said by `acquire` of
//! lw_lock.
//!
//! No wake-up is lost, by clauses. Has-waiters is set before a session joins a list (`join_list`), so that a
//! session that holds the lock then sees it; and the session attempts the lock after that, before it sleeps
//! (`sleep_until_told`). A session that was told sets release-ok before it attempts again, and so does a
//! winner that was taken off its list (`dequeue_self`): else it can't queue or sleep again. A release looks
//! at the list (`wake_waiters`); where that is locked it may go, since the session that has the list attempts
//! the lock afterwards, holds it, or has taken somebody off, or nobody is left there (`unlock_list`). What
//! each session has still to do is `Todo` of specs/Todos.
//!
//! A winner leaves the list that it stands in and no other (`dequeue_self`). A session that unlocks a list
//! leaves has-waiters where somebody waits there, and release-ok where it took nobody off (`unlock_list`).
//! All sessions take locks in one order. A session parks in `park_on` of `parks` alone, once it has nothing
//! left to do for others. No clause tells that a session that is told is woken by the kernel, after its sleep
//! word shows 0, and that `park` looks at the word again there.

ghost use Rattle.std.specs.Prelude.{◌≡◌, ◌<◌, [], ◌∷◌, true, None, Some};
ghost use Rattle.lw_word.specs.WaitList.{stands_in};
ghost use Rattle.lock_world.specs.AccountSteps.{account_locking_list};
ghost use Rattle.shared_rule.specs.declared.kept.Kept.TheVariants.{Nothing};
ghost use Rattle.shared_rule.specs.Layout.{list_shelf_of};
ghost use Rattle.shared_rule.specs.Led.{Led, LedTo};
ghost use Rattle.shared_rule.specs.Todos.{HasBy, IsLatestBy, MaySleepBy, TellsNobodyBy, TriesAtMost};
ghost use Rattle.shared_rule.specs.Todos.{nothing_to_do, todo_in_list, todo_held, todo_got, todo_back};
ghost use Rattle.shared_rule.specs.LwLocks.{lock_number, LockExists, no_lists, queued_for};
ghost use Rattle.shared_rule.specs.Waiters.{WaitersExist};
ghost use Rattle.shared_rule.specs.Plays.{account_at, number_at, todo_at, owed_at, FitsTable, HasSession, side_of};

use crate::lists::{
    join_list, leave_list, load_sleep, set_has_waiters, set_release_ok, try_lock_list, unlock_list,
};
use crate::lw_locks::LwLock;
use crate::parks::park_asleep;
use crate::rule::{Seat, SharedWords};
use crossbeam_utils::Backoff;
use lock_table::PartTable;
use lw_word::{LwMode, SleepState, WaitList};
use modes_core::SessionId;
use std::marker::Brand;
use std::sync::Wait;

/// Locks the wait list of `lock`: tries until the session has it, with pauses between (`LWLockWaitListLock`
/// in lwlock.c). A list is in hand for a few steps only.
fn lock_list<T: PartTable, R: Wait>(
    rt: &R,
    words: &SharedWords<T>,
    seat: &mut Seat<T>,
    lock: &LwLock,
) -> Box<WaitList>
    requires table { FitsTable seat.old words.now.key words.now.table_id }
    requires exists { LockExists words.now.key.sessions lock.now }
    requires session { HasSession (side_of seat.old).0 }
    requires no_list { (account_at T.content seat.old).lists.in_hand ≡ None }
    requires no_look { (todo_at seat.old).due ≡ None }
    requires tells_nobody { TellsNobodyBy (account_at T.content seat.old) }
    ensures led { Led T.content seat.old seat.new
        (account_locking_list (account_at T.content seat.old) (lock_number lock.now) result.value.waiters) }
    ensures shelves { (side_of seat.new).1 ≡ (list_shelf_of (lock_number lock.now), Nothing) ∷ (side_of seat.old).1 }
    ensures stands { stands_in (number_at seat.old) result.value.waiters ≡ true
        → (account_at T.content seat.old).lists.stands ≡ Some (lock_number lock.now) }
    ensures room { result.value.room ≡ words.now.key.sessions }
    ensures exist { WaitersExist words.now.key.sessions result.value.waiters }
{
    let backoff = Backoff::new();
    for _ in rt.forever() {
        if let Some(list) = try_lock_list::<T, Brand>(words, seat, lock) {
            return list;
        }
        backoff.snooze();
    }
    unreachable!()
}

/// Queues the session `number` at the end of the wait list of `lock`, as one that wants `mode`
/// (`LWLockQueueSelf` in lwlock.c). The flag has-waiters is set before the session is in the list, so a
/// session that releases the lock from then on sees the flag. The caller attempts the lock once more after
/// this call.
pub(crate) fn queue_self<T: PartTable, R: Wait>(
    rt: &R,
    words: &SharedWords<T>,
    seat: &mut Seat<T>,
    number: SessionId,
    lock: &LwLock,
    mode: LwMode,
)
    requires table { FitsTable seat.old words.now.key words.now.table_id }
    requires exists { LockExists words.now.key.sessions lock.now }
    requires session { HasSession (side_of seat.old).0 }
    requires own { number ≡ number_at seat.old }
    requires among { number < words.now.key.sessions }
    requires idle { (account_at T.content seat.old).lists ≡ no_lists }
    requires todo { TriesAtMost (lock_number lock.now) (todo_at seat.old) }
    requires latest { IsLatestBy (account_at T.content seat.old) lock.now }
    ensures led { LedTo T.content seat.old seat.new
        (record (account_at T.content seat.old) { lists = queued_for (lock_number lock.now) })
        (todo_in_list (lock_number lock.now)) }
    ensures shelves { (side_of seat.new).1 ≡ (side_of seat.old).1 }
{
    let mut list = lock_list(rt, words, seat, lock);
    set_has_waiters::<T, Brand>(words, seat, lock);
    join_list::<T, Brand>(words, seat, number, mode);
    list.join(number, mode);
    unlock_list(words, seat, lock, list, true, true);
}

/// Sleeps until the sleep word of the session `number`, its own, shows 0: the session that took it off its
/// wait list has said so there (the sleep on the semaphore in `LWLockAcquire` in lwlock.c).
pub(crate) fn sleep_until_told<T: PartTable, R: Wait>(
    rt: &R,
    words: &SharedWords<T>,
    seat: &mut Seat<T>,
    number: SessionId,
)
    requires table { FitsTable seat.old words.now.key words.now.table_id }
    requires session { HasSession (side_of seat.old).0 }
    requires own { number ≡ number_at seat.old }
    requires among { number < words.now.key.sessions }
    requires may { MaySleepBy (account_at T.content seat.old) (todo_at seat.old) (owed_at seat.old) }
    ensures led { Led T.content seat.old seat.new (record (account_at T.content seat.old) {
      lists = record ((account_at T.content seat.old).lists) { stands = None };
    }) }
    ensures shelves { (side_of seat.new).1 ≡ (side_of seat.old).1 }
{
    for _ in rt.forever() {
        let shown = load_sleep(words, seat, number);
        if shown == SleepState::NotWaiting as u64 {
            return;
        }
        park_asleep::<T, Brand, R>(rt, words, seat, number, shown);
    }
    unreachable!()
}

/// Leaves the wait list of `lock`, a lock which the session `number` has got meanwhile. Where another session
/// has taken `number` off the list already, `number` sets the flag release-ok in that one's stead, while it
/// has the list in hand and so knows that it isn't in it. It then waits until its sleep word says that it was
/// taken off (`LWLockDequeueSelf` in lwlock.c, which sets the flag after it has unlocked the list).
pub(crate) fn dequeue_self<T: PartTable, R: Wait>(
    rt: &R,
    words: &SharedWords<T>,
    seat: &mut Seat<T>,
    number: SessionId,
    lock: &LwLock,
)
    requires table { FitsTable seat.old words.now.key words.now.table_id }
    requires exists { LockExists words.now.key.sessions lock.now }
    requires session { HasSession (side_of seat.old).0 }
    requires own { number ≡ number_at seat.old }
    requires among { number < words.now.key.sessions }
    requires queued { (account_at T.content seat.old).lists ≡ queued_for (lock_number lock.now) }
    requires got { HasBy (account_at T.content seat.old) lock.now }
    requires todo { todo_at seat.old ≡ todo_got (lock_number lock.now) }
    requires wakes_nobody { owed_at seat.old ≡ [] }
    ensures led { LedTo T.content seat.old seat.new
        (record (account_at T.content seat.old) { lists = no_lists }) nothing_to_do }
    ensures shelves { (side_of seat.new).1 ≡ (side_of seat.old).1 }
{
    let mut list = lock_list(rt, words, seat, lock);
    if list.leave(number) {
        leave_list(words, seat, number);
        let some_left = !list.is_empty();
        unlock_list(words, seat, lock, list, some_left, true);
    } else {
        set_release_ok::<T, Brand>(words, seat, lock);
        let others = !list.is_empty();
        unlock_list(words, seat, lock, list, others, true);
        sleep_until_told(rt, words, seat, number);
    }
}

/// Sleeps until the sleep word of the session `number`, which is in the wait list of `lock` or was taken off
/// it, says that it was taken off, and lets releases wake others again (the end of the loop in
/// `LWLockAcquire` in lwlock.c).
pub(crate) fn sleep_for<T: PartTable, R: Wait>(
    rt: &R,
    words: &SharedWords<T>,
    seat: &mut Seat<T>,
    number: SessionId,
    lock: &LwLock,
)
    requires table { FitsTable seat.old words.now.key words.now.table_id }
    requires exists { LockExists words.now.key.sessions lock.now }
    requires session { HasSession (side_of seat.old).0 }
    requires own { number ≡ number_at seat.old }
    requires among { number < words.now.key.sessions }
    requires queued { (account_at T.content seat.old).lists ≡ queued_for (lock_number lock.now) }
    requires todo { todo_at seat.old ≡ todo_held (lock_number lock.now) }
    requires latest { IsLatestBy (account_at T.content seat.old) lock.now }
    requires wakes_nobody { owed_at seat.old ≡ [] }
    ensures led { LedTo T.content seat.old seat.new
        (record (account_at T.content seat.old) { lists = no_lists }) (todo_back (lock_number lock.now)) }
    ensures shelves { (side_of seat.new).1 ≡ (side_of seat.old).1 }
{
    sleep_until_told(rt, words, seat, number);
    set_release_ok::<T, Brand>(words, seat, lock);
}
