//! The steps of a session on the wait lists of lightweight locks, and on the sleep words of those who stand
//! there. A list is in hand while its bit in the lock's word is set; changes of it are made in memory beside
//! the step that is told.

ghost use Rattle.std.specs.Prelude.{◌≡◌, ◌≢◌, ◌⊎◌, ◌<◌, ◌∷◌, ℕ, Some, None, IfSome, IfNone, true, false, []};
ghost use Rattle.atomic_table.specs.Table.{rest};
ghost use Rattle.lw_word.specs.WaitList.{stands_in};
ghost use Rattle.lock_world.specs.Account.{ListInHand};
ghost use Rattle.lock_world.specs.AccountLaw.{MayJoinListBy, MayLeaveListBy, MayTakeOffBy, MayTellBy};
ghost use Rattle.lock_world.specs.AccountSteps.{account_locking_list, account_unlocking_list};
ghost use Rattle.lock_world.specs.AccountSteps.{account_joining_list, account_leaving_list, account_taking_off};
ghost use Rattle.lock_world.specs.AccountSteps.{account_telling, account_loading_sleep};
ghost use Rattle.shared_rule.specs.Marks.{JoinedList, TookOff, Told, CalledSleeper};
ghost use Rattle.shared_rule.specs.Marks.{SetReleaseOk, SetHasWaiters};
ghost use Rattle.shared_rule.specs.declared.kept.Kept.TheVariants.{Nothing};
ghost use Rattle.shared_rule.specs.History.{list_here, noting};
ghost use Rattle.shared_rule.specs.Layout.{list_shelf_of};
ghost use Rattle.shared_rule.specs.Acquires.{GotNothing, SeesInTheWay};
ghost use Rattle.shared_rule.specs.Led.{Led, LedTo};
ghost use Rattle.shared_rule.specs.Todos.{IsLeftWellBy, JoinsLatest, TellsNobodyBy, todo_looked, todo_queueing, todo_leaving};
ghost use Rattle.shared_rule.specs.Todos.{todo_owing, todo_calling};
ghost use Rattle.shared_rule.specs.Todos.{todo_setting_ok, lock_of_list};
ghost use Rattle.lock_world.specs.Wakes.Waking.{NoneOr};
ghost use Rattle.shared_rule.specs.LwLocks.{lock_number, LockExists, IsFreeFor};
ghost use Rattle.shared_rule.specs.Waiters.{WaitersExist};
ghost use Rattle.shared_rule.specs.Plays.{side_of, account_at, number_at, todo_at, flagged_at, FitsTable, HasSession, IsSameSeat};

use crate::kept::Kept;
use crate::layout::sleep_word;
use crate::lw_locks::LwLock;
use crate::parks::call;
use crate::plays::{LocksList, Marking, Seeking, SeesHeld, Sizing};
use crate::rule::{Seat, SharedWords};
use crate::words::{fetch_or_as, load_as, store_as, unlock_as};
use lock_table::PartTable;
use lw_word::{LwMode, LwWord, SleepState, WaitList, has_locked_list};
use modes_core::SessionId;
use std::marker::Brand;

/// Makes one attempt to lock the wait list of `lock` (`LWLockWaitListLock` in lwlock.c). A session that gets
/// the list learns of it: the session is in the list only if its account has that it waits for `lock`; the
/// list has room for all sessions that there can be; and all waiters in the list are such sessions. A session
/// that has to wake waiters after it released `lock` has done its part with the attempt: it has the list in
/// hand, or another session has.
pub(crate) fn try_lock_list<T: PartTable, G: Sizing>(
    words: &SharedWords<T>,
    seat: &mut Seat<T>,
    lock: &LwLock,
) -> Option<Box<WaitList>>
    requires table { FitsTable seat.old words.now.key words.now.table_id }
    requires exists { LockExists words.now.key.sessions lock.now }
    requires session { HasSession (side_of seat.old).0 }
    requires no_list { (account_at T.content seat.old).lists.in_hand ≡ None }
    requires sizes { G.sizes ≡ words.now.key }
    requires no_other_look { NoneOr (todo_at seat.old).due (lock_number lock.now) }
    requires tells_nobody { TellsNobodyBy (account_at T.content seat.old) }
    ensures same_seat { IsSameSeat seat.old seat.new }
    ensures led { IfSome result (λ list. LedTo T.content seat.old seat.new
        (account_locking_list (account_at T.content seat.old) (lock_number lock.now) list.value.waiters)
        (todo_looked (todo_at seat.old))) }
    ensures shelves { IfSome result (λ list. (side_of seat.new).1
        ≡ (list_shelf_of (lock_number lock.now), Nothing) ∷ (side_of seat.old).1) }
    ensures stands { IfSome result (λ list. stands_in (number_at seat.old) list.value.waiters ≡ true
        → (account_at T.content seat.old).lists.stands ≡ Some (lock_number lock.now)) }
    ensures room { IfSome result (λ list. list.value.room ≡ words.now.key.sessions) }
    ensures exist { IfSome result (λ list. WaitersExist words.now.key.sessions list.value.waiters) }
    ensures none { IfNone result (GotNothing T.content seat.old seat.new (todo_looked (todo_at seat.old))) }
{
    let found = words.fetch_or::<LocksList<G>>(seat, lock.word(), LwWord::LIST_LOCKED);
    if has_locked_list(found) {
        let kept = words.exchange(seat, lock.list_shelf(), Kept::Nothing);
        Some(kept.into_list())
    } else {
        None
    }
}

/// Puts the wait list in hand home, which still has room for all sessions, unlocks it, and clears those of
/// the flags has-waiters and release-ok in the word of its lock that are not to be kept
/// (`LWLockWaitListUnlock`, and the end of `LWLockWakeup`, in lwlock.c). `has_waiters` goes from an empty
/// list and from no other, and `release_ok` only where somebody was taken off who is yet to be told, and will
/// set it again. Nobody may leave a list so that its waiters are forgotten: where some are left, the session
/// has taken one off, has the lock, or attempts it next.
pub(crate) fn unlock_list<T: PartTable>(
    words: &SharedWords<T>,
    seat: &mut Seat<T>,
    lock: &LwLock,
    list: Box<WaitList>,
    has_waiters: bool,
    release_ok: bool,
)
    requires table { FitsTable seat.old words.now.key words.now.table_id }
    requires exists { LockExists words.now.key.sessions lock.now }
    requires session { HasSession (side_of seat.old).0 }
    requires out { (side_of seat.old).1 ≡ (list_shelf_of (lock_number lock.now), Nothing) ∷ rest (side_of seat.old).1 }
    requires in_hand { (account_at T.content seat.old).lists.in_hand
        ≡ Some (record { lock = lock_number lock.now; waiters = list.value.waiters }) }
    requires room { list.value.room ≡ words.now.key.sessions }
    requires waiters_stay { has_waiters ≡ false → list.value.waiters ≡ [] }
    requires waiters_go { list.value.waiters ≡ [] → has_waiters ≡ false }
    requires release_stays { release_ok ≡ false
        → (other : ℕ) × ((account_at T.content seat.old).lists.off other ≡ true) }
    requires left_well { IsLeftWellBy (account_at T.content seat.old) (todo_at seat.old) lock.now list.value.waiters }
    ensures led { Led T.content seat.old seat.new (account_unlocking_list (account_at T.content seat.old)) }
    ensures shelves { (side_of seat.new).1 ≡ rest (side_of seat.old).1 }
{
    match words.exchange(seat, lock.list_shelf(), Kept::List(list)) {
        Kept::Nothing => unlock_as::<T, Brand>(
            words,
            seat,
            lock.word(),
            LwWord::kept_bits(has_waiters, release_ok),
        ),
        Kept::Part(_) | Kept::List(_) => unreachable!(),
    }
}

/// Stores in the sleep word of the session `number`, its own, that it waits in the wait list in hand, to take
/// the lightweight lock in `mode` (`LWLockQueueSelf` in lwlock.c sets `lwWaiting`).
pub(crate) fn join_list<T: PartTable, M: Marking<T>>(
    words: &SharedWords<T>,
    seat: &mut Seat<T>,
    number: SessionId,
    mode: LwMode,
)
    requires table { FitsTable seat.old words.now.key words.now.table_id }
    requires session { HasSession (side_of seat.old).0 }
    requires own { number ≡ number_at seat.old }
    requires among { number < words.now.key.sessions }
    requires lawful { (mine : ListInHand) × MayJoinListBy (account_at T.content seat.old) mine }
    requires flagged { flagged_at seat.old ≡ true }
    requires owes_no_ok { (todo_at seat.old).owes_release_ok ≡ None }
    requires no_other { (mine : ListInHand) → (account_at T.content seat.old).lists.in_hand ≡ Some mine
        → NoneOr (todo_at seat.old).tries mine.lock }
    requires latest { JoinsLatest (account_at T.content seat.old) }
    requires mark { M.mark ≡ (λ _. JoinedList mode) }
    ensures led { LedTo T.content seat.old seat.new (account_joining_list (account_at T.content seat.old)
        (list_here (account_at T.content seat.old).lists.in_hand) (record { session = number; mode = mode }))
        (todo_queueing (todo_at seat.old) (lock_of_list (account_at T.content seat.old).lists.in_hand)) }
    ensures shelves { (side_of seat.new).1 ≡ (side_of seat.old).1 }
{
    store_as::<T, M>(words, seat, sleep_word(number), SleepState::Waiting as u64);
}

/// Stores in the sleep word of the session `number`, its own, that it no longer waits, with itself in the
/// list in hand (`LWLockDequeueSelf` in lwlock.c).
pub(crate) fn leave_list<T: PartTable>(
    words: &SharedWords<T>,
    seat: &mut Seat<T>,
    number: SessionId,
)
    requires table { FitsTable seat.old words.now.key words.now.table_id }
    requires session { HasSession (side_of seat.old).0 }
    requires own { number ≡ number_at seat.old }
    requires among { number < words.now.key.sessions }
    requires lawful { (mine : ListInHand)
        × MayLeaveListBy (number_at seat.old) (account_at T.content seat.old) mine }
    ensures led { LedTo T.content seat.old seat.new (account_leaving_list (account_at T.content seat.old)
        (list_here (account_at T.content seat.old).lists.in_hand) number) (todo_leaving (todo_at seat.old)) }
    ensures shelves { (side_of seat.new).1 ≡ (side_of seat.old).1 }
{
    store_as::<T, Brand>(
        words,
        seat,
        sleep_word(number),
        SleepState::NotWaiting as u64,
    );
}

/// Takes `other` off the list in hand: its sleep word shows that it is to be told, and it is owed a call (the
/// first loop of `LWLockWakeup` in lwlock.c, and `LW_WS_PENDING_WAKEUP`).
pub(crate) fn take_off<T: PartTable, M: Marking<T>>(
    words: &SharedWords<T>,
    seat: &mut Seat<T>,
    other: SessionId,
)
    requires table { FitsTable seat.old words.now.key words.now.table_id }
    requires exists { other < words.now.key.sessions }
    requires session { HasSession (side_of seat.old).0 }
    requires lawful { (mine : ListInHand)
        × MayTakeOffBy (number_at seat.old) (account_at T.content seat.old) mine other }
    requires mark { M.mark ≡ (λ _. TookOff other) }
    ensures led { LedTo T.content seat.old seat.new (account_taking_off (account_at T.content seat.old)
        (list_here (account_at T.content seat.old).lists.in_hand) other) (todo_owing (todo_at seat.old) other) }
    ensures shelves { (side_of seat.new).1 ≡ (side_of seat.old).1 }
{
    store_as::<T, M>(
        words,
        seat,
        sleep_word(other),
        SleepState::PendingWakeup as u64,
    );
}

/// Tells `other`, which was taken off a list, that it may go on (the second loop of `LWLockWakeup` in
/// lwlock.c).
pub(crate) fn tell<T: PartTable, M: Marking<T>>(
    words: &SharedWords<T>,
    seat: &mut Seat<T>,
    other: SessionId,
)
    requires table { FitsTable seat.old words.now.key words.now.table_id }
    requires exists { other < words.now.key.sessions }
    requires session { HasSession (side_of seat.old).0 }
    requires lawful { MayTellBy (account_at T.content seat.old) other }
    requires mark { M.mark ≡ (λ _. Told other) }
    ensures led { LedTo T.content seat.old seat.new (account_telling (account_at T.content seat.old) other)
        (todo_owing (todo_at seat.old) other) }
    ensures shelves { (side_of seat.new).1 ≡ (side_of seat.old).1 }
{
    store_as::<T, M>(
        words,
        seat,
        sleep_word(other),
        SleepState::NotWaiting as u64,
    );
}

/// Calls `other`, which may be parked on its sleep word (`PGSemaphoreUnlock` in `LWLockWakeup` of lwlock.c),
/// and notes the call in the session's history.
pub(crate) fn call_sleeper<T: PartTable, M: Marking<T>>(
    words: &SharedWords<T>,
    seat: &mut Seat<T>,
    other: SessionId,
)
    requires table { FitsTable seat.old words.now.key words.now.table_id }
    requires exists { other < words.now.key.sessions }
    requires session { HasSession (side_of seat.old).0 }
    requires mark { M.mark ≡ (λ _. CalledSleeper other) }
    ensures led { LedTo T.content seat.old seat.new (account_at T.content seat.old)
        (todo_calling (todo_at seat.old) other) }
    ensures shelves { (side_of seat.new).1 ≡ (side_of seat.old).1 }
{
    call::<T, M>(words, seat, sleep_word(other));
}

/// Loads the sleep word of the session `number`, its own (`lwWaiting` in proc.h, as the sleep of
/// `LWLockAcquire` in lwlock.c reads it).
pub(crate) fn load_sleep<T: PartTable>(
    words: &SharedWords<T>,
    seat: &mut Seat<T>,
    number: SessionId,
) -> u64
    requires table { FitsTable seat.old words.now.key words.now.table_id }
    requires session { HasSession (side_of seat.old).0 }
    requires own { number ≡ number_at seat.old }
    requires among { number < words.now.key.sessions }
    ensures led { Led T.content seat.old seat.new
        (account_loading_sleep (account_at T.content seat.old) result) }
    ensures shelves { (side_of seat.new).1 ≡ (side_of seat.old).1 }
{
    load_as::<T, Brand>(words, seat, sleep_word(number))
}

/// Sets release-ok in the word of `lock`: releases may wake waiters again (`LW_FLAG_RELEASE_OK` in lwlock.c).
/// A session that stands in the lock's list, or was taken off it, does so only once it was told, or with that
/// list in hand.
pub(crate) fn set_release_ok<T: PartTable, M: Marking<T>>(
    words: &SharedWords<T>,
    seat: &mut Seat<T>,
    lock: &LwLock,
)
    requires table { FitsTable seat.old words.now.key words.now.table_id }
    requires exists { LockExists words.now.key.sessions lock.now }
    requires session { HasSession (side_of seat.old).0 }
    requires no_other { (todo_at seat.old).owes_release_ok ≡ Some (lock_number lock.now)
        → (account_at T.content seat.old).lists.stands ≡ None
        → NoneOr (todo_at seat.old).tries (lock_number lock.now) }
    requires tells_nobody { (todo_at seat.old).owes_release_ok ≡ Some (lock_number lock.now)
        → (account_at T.content seat.old).lists.in_hand ≢ None → TellsNobodyBy (account_at T.content seat.old) }
    requires told { (todo_at seat.old).owes_release_ok ≡ Some (lock_number lock.now)
        → ((account_at T.content seat.old).lists.stands ≡ None)
        ⊎ (lock_of_list (account_at T.content seat.old).lists.in_hand ≡ Some (lock_number lock.now)) }
    requires mark { M.mark ≡ (λ _. SetReleaseOk (lock_number lock.now)) }
    ensures led { LedTo T.content seat.old seat.new (account_at T.content seat.old)
        (todo_setting_ok (number_at seat.old) (account_at T.content seat.old).lists (todo_at seat.old)
        (lock_number lock.now)) }
    ensures side { side_of seat.new ≡ (noting (side_of seat.old).0 (SetReleaseOk (lock_number lock.now)), (side_of seat.old).1) }
    ensures shelves { (side_of seat.new).1 ≡ (side_of seat.old).1 }
{
    fetch_or_as::<T, M>(words, seat, lock.word(), LwWord::RELEASE_OK);
}

/// Sets has-waiters in the word of `lock`, with its list in hand (`LWLockQueueSelf` in lwlock.c).
pub(crate) fn set_has_waiters<T: PartTable, M: Marking<T>>(
    words: &SharedWords<T>,
    seat: &mut Seat<T>,
    lock: &LwLock,
)
    requires table { FitsTable seat.old words.now.key words.now.table_id }
    requires exists { LockExists words.now.key.sessions lock.now }
    requires session { HasSession (side_of seat.old).0 }
    requires lawful { (mine : ListInHand) × ((account_at T.content seat.old).lists.in_hand ≡ Some mine)
        × (mine.lock ≡ lock_number lock.now) }
    requires mark { M.mark ≡ (λ _. SetHasWaiters (lock_number lock.now)) }
    ensures led { Led T.content seat.old seat.new (account_at T.content seat.old) }
    ensures flagged { flagged_at seat.new ≡ true }
    ensures shelves { (side_of seat.new).1 ≡ (side_of seat.old).1 }
{
    fetch_or_as::<T, M>(words, seat, lock.word(), LwWord::HAS_WAITERS);
}

/// Loads the word of `lock`, which the session is to attempt (the loop of `LWLockAttemptLock` in lwlock.c).
/// Where the word shows that somebody is in the way, that is noted, and the attempt is lost. A session that
/// stands in the lock's list may go to sleep then: whoever holds the lock sees has-waiters as it puts it.
#[inline(always)]
pub(crate) fn look_at_lock<T: PartTable, W: Seeking>(
    words: &SharedWords<T>,
    seat: &mut Seat<T>,
    lock: &LwLock,
) -> u64
    requires table { FitsTable seat.old words.now.key words.now.table_id }
    requires exists { LockExists words.now.key.sessions lock.now }
    requires session { HasSession (side_of seat.old).0 }
    requires no_other_try { NoneOr (todo_at seat.old).tries (lock_number lock.now) }
    ensures same_seat { IsSameSeat seat.old seat.new }
    ensures held { (IsFreeFor W.mode result → ⊥) → SeesInTheWay T.content lock.now W.mode seat.old seat.new }
    ensures free { IsFreeFor W.mode result → side_of seat.new ≡ side_of seat.old }
{
    words.load::<SeesHeld<W>>(seat, lock.word())
}
