//! Waking those who wait for a lightweight lock (`LWLockReleaseInternal` and `LWLockWakeup` in lwlock.c).

ghost use Rattle.std.specs.Prelude.{◌≡◌, ◌∷◌, ℕ, Some, None, true, false};
ghost use Rattle.atomic_table.specs.Table.{rest};
ghost use Rattle.lock_world.specs.AccountSteps.{account_unlocking_list};
ghost use Rattle.shared_rule.specs.declared.kept.Kept.TheVariants.{Nothing};
ghost use Rattle.shared_rule.specs.Layout.{list_shelf_of};
ghost use Rattle.shared_rule.specs.History.{noting};
ghost use Rattle.shared_rule.specs.Marks.{SetReleaseOk};
ghost use Rattle.shared_rule.specs.Led.{Led, LedTo};
ghost use Rattle.shared_rule.specs.Todos.{IsLeftWellBy, todo_looked};
ghost use Rattle.lock_world.specs.Wakes.Waking.{NoneOr};
ghost use Rattle.shared_rule.specs.LwLocks.{lock_number, LockExists, no_lists};
ghost use Rattle.shared_rule.specs.Waiters.{WaitersExist};
ghost use Rattle.shared_rule.specs.Plays.{side_of, account_at, number_at, todo_at, FitsTable, HasSession};
ghost use Rattle.shared_rule.specs.Wakeups.{all_taken_off, all_told, all_owed, all_called, MayTakeAllOff, MayTellAll};

use crate::lists::{call_sleeper, set_release_ok, take_off, tell, try_lock_list, unlock_list};
use crate::lw_locks::LwLock;
use crate::rule::{Seat, SharedWords};
use lock_table::PartTable;
use lw_word::{LwWaiter, WaitList};
use std::marker::Brand;

// Takes these off the list in hand, one after the other.
fn take_all_off<T: PartTable>(words: &SharedWords<T>, seat: &mut Seat<T>, taken: &[LwWaiter])
    requires table { FitsTable seat.old words.now.key words.now.table_id }
    requires exist { WaitersExist words.now.key.sessions taken.now }
    requires session { HasSession (side_of seat.old).0 }
    requires lawful { MayTakeAllOff (number_at seat.old) (account_at T.content seat.old) taken.now }
    ensures led { LedTo T.content seat.old seat.new (all_taken_off (account_at T.content seat.old) taken.now)
        (all_owed (todo_at seat.old) taken.now) }
    ensures shelves { (side_of seat.new).1 ≡ (side_of seat.old).1 }
{
    for waiter in taken {
        take_off::<T, Brand>(words, seat, waiter.session);
    }
}

// Tells each of these that it may go on, and calls it: the sleep word shows 0 before the call, so that nobody
// sleeps through it.
fn tell_all<T: PartTable>(words: &SharedWords<T>, seat: &mut Seat<T>, taken: &[LwWaiter])
    requires table { FitsTable seat.old words.now.key words.now.table_id }
    requires exist { WaitersExist words.now.key.sessions taken.now }
    requires session { HasSession (side_of seat.old).0 }
    requires lawful { MayTellAll (account_at T.content seat.old) taken.now }
    ensures led { LedTo T.content seat.old seat.new (all_told (account_at T.content seat.old) taken.now)
        (all_called (todo_at seat.old) taken.now) }
    ensures shelves { (side_of seat.new).1 ≡ (side_of seat.old).1 }
{
    for waiter in taken {
        tell::<T, Brand>(words, seat, waiter.session);
        call_sleeper::<T, Brand>(words, seat, waiter.session);
    }
}

// Sets release-ok where a wakeup says so: it took nobody off.
fn set_release_ok_if<T: PartTable>(
    words: &SharedWords<T>,
    seat: &mut Seat<T>,
    lock: &LwLock,
    release_ok: bool,
)
    requires table { FitsTable seat.old words.now.key words.now.table_id }
    requires exists { LockExists words.now.key.sessions lock.now }
    requires session { HasSession (side_of seat.old).0 }
    requires owes_no_ok { (todo_at seat.old).owes_release_ok ≡ None }
    ensures led { Led T.content seat.old seat.new (account_at T.content seat.old) }
    ensures shelves { (side_of seat.new).1 ≡ (side_of seat.old).1 }
    ensures sets { release_ok ≡ true → (side_of seat.new).0 ≡ noting (side_of seat.old).0 (SetReleaseOk (lock_number lock.now)) }
    ensures leaves { release_ok ≡ false → (side_of seat.new).0 ≡ (side_of seat.old).0 }
{
    if !release_ok {
        return;
    }
    set_release_ok::<T, Brand>(words, seat, lock);
}

// Puts the list home after a wakeup, with has-waiters where somebody is left, and release-ok as the wakeup
// says.
fn unlock_after_wakeup<T: PartTable>(
    words: &SharedWords<T>,
    seat: &mut Seat<T>,
    lock: &LwLock,
    list: Box<WaitList>,
    release_ok: bool,
)
    requires table { FitsTable seat.old words.now.key words.now.table_id }
    requires exists { LockExists words.now.key.sessions lock.now }
    requires session { HasSession (side_of seat.old).0 }
    requires out { (side_of seat.old).1 ≡ (list_shelf_of (lock_number lock.now), Nothing) ∷ rest (side_of seat.old).1 }
    requires in_hand { (account_at T.content seat.old).lists.in_hand
        ≡ Some (record { lock = lock_number lock.now; waiters = list.value.waiters }) }
    requires room { list.value.room ≡ words.now.key.sessions }
    requires owes_no_ok { (todo_at seat.old).owes_release_ok ≡ None }
    requires release_stays { release_ok ≡ false
        → (other : ℕ) × ((account_at T.content seat.old).lists.off other ≡ true) }
    requires left_well { IsLeftWellBy (account_at T.content seat.old) (todo_at seat.old) lock.now list.value.waiters }
    ensures led { Led T.content seat.old seat.new (account_unlocking_list (account_at T.content seat.old)) }
    ensures shelves { (side_of seat.new).1 ≡ rest (side_of seat.old).1 }
{
    set_release_ok_if(words, seat, lock, release_ok);
    let some_left = !list.is_empty();
    unlock_list(words, seat, lock, list, some_left, release_ok);
}

/// Wakes the first sessions in the wait list of `lock`: one that wants the lock exclusively, or those that
/// want to share it, as many as go at a time (`LWLockWakeup` in lwlock.c). Where another session has the
/// list, the waking is left to it: a session that has a list in hand attempts the lock afterwards, holds it,
/// or has taken somebody off.
#[cold]
#[inline(never)]
pub(crate) fn wake_waiters<T: PartTable>(words: &SharedWords<T>, seat: &mut Seat<T>, lock: &LwLock)
    requires table { FitsTable seat.old words.now.key words.now.table_id }
    requires exists { LockExists words.now.key.sessions lock.now }
    requires session { HasSession (side_of seat.old).0 }
    requires idle { (account_at T.content seat.old).lists ≡ no_lists }
    requires no_other_look { NoneOr (todo_at seat.old).due (lock_number lock.now) }
    requires owes_no_ok { (todo_at seat.old).owes_release_ok ≡ None }
    requires calls_nobody { (todo_at seat.old).calls ≡ (λ _. false) }
    ensures led { LedTo T.content seat.old seat.new (account_at T.content seat.old)
        (todo_looked (todo_at seat.old)) }
    ensures shelves { (side_of seat.new).1 ≡ (side_of seat.old).1 }
{
    let Some(mut list) = try_lock_list::<T, Brand>(words, seat, lock) else {
        return;
    };
    let _each_once = list.waiters();
    let wakeup = list.wake_split();
    take_all_off(words, seat, wakeup.taken.as_slice());
    unlock_after_wakeup(words, seat, lock, list, wakeup.release_ok);
    tell_all(words, seat, wakeup.taken.as_slice());
}
