//! The steps by which a session takes the lightweight lock of a session's fast-path slots, and puts it.

ghost use Rattle.std.specs.Prelude.{◌≡◌, ◌<◌, None, ◌≢◌, Some, [], Err, IfOk};
ghost use Rattle.lw_word.specs.declared.words.LwMode.TheVariants.{Exclusive};
ghost use Rattle.lw_word.specs.LightweightWord.{IsHeldByNobody, taken_word};
ghost use Rattle.lock_world.specs.Account.{SlotsInHand};
ghost use Rattle.lock_world.specs.AccountLaw.{MayPutFastBy, MayPassBy};
ghost use Rattle.lock_world.specs.AccountSteps.{account_putting_fast, account_passing};
ghost use Rattle.shared_rule.specs.Marks.{PutFast, Passed, LoadedFast};
ghost use Rattle.shared_rule.specs.Acquires.{SeesInTheWay, GetsSlots};
ghost use Rattle.shared_rule.specs.History.{noting};
ghost use Rattle.shared_rule.specs.Led.{Led, LedTo};
ghost use Rattle.shared_rule.specs.Todos.{IsLatestBy, nothing_to_do, todo_putting};
ghost use Rattle.shared_rule.specs.declared.lw_locks.LwLock.TheVariants.{OfSlots};
ghost use Rattle.lock_world.specs.WaitLists.{fast_lock};
ghost use Rattle.lock_world.specs.Wakes.Waking.{NoneOr};
ghost use Rattle.lw_word.specs.LockState.{state_of, put_in};
ghost use Rattle.shared_rule.specs.LwLocks.{no_lists};
ghost use Rattle.shared_rule.specs.Plays.{side_of, account_at, number_at, quiet_at, todo_at, owed_at, FitsTable, HasSession, IsSameSeat, TookSlots};
ghost use Rattle.std.specs.Bool.{OnTrue, OnFalse};
ghost use Rattle.shared_rule.specs.Quiet.{quiet_trying};
ghost use Rattle.shared_rule.specs.Slots.{TriesFast};
ghost use Rattle.shared_rule.specs.Boards.{StaysLone};

use crate::busy::Busy;
use crate::layout::fast_word;
use crate::lists::look_at_lock;
use crate::lw_locks::LwLock;
use crate::plays::{Marking, Sizing, TakesSlots, TriesSlots};
use crate::rule::{Seat, SharedWords};
use crate::slot_locks::{SlotsLock, SlotsPassed, SlotsTaken};
use crate::words::{fetch_sub_as, load_as};
use lock_table::PartTable;
use lw_lock::{Lost, MOST_LOST, acquire, release};
use lw_word::{LwMode, taken};
use modes_core::{Mode, SessionId, Tag};
use std::marker::{Brand, PhantomData};
use std::sync::Wait;

// One exchange that takes the lock of a session's slots, of as many groups as the table has, by the number
// that its word may show.
#[inline(always)]
fn attempt_fast<T: PartTable, G: Sizing>(
    words: &SharedWords<T>,
    seat: &mut Seat<T>,
    owner: SessionId,
    shown: u64,
    taken: u64,
) -> bool
    requires table { FitsTable seat.old words.now.key words.now.table_id }
    requires exists { owner < words.now.key.sessions }
    requires session { HasSession (side_of seat.old).0 }
    requires free { IsHeldByNobody shown × (taken ≡ taken_word shown) }
    requires no_other_try { NoneOr (todo_at seat.old).tries (fast_lock owner) }
    requires no_other_list { NoneOr (account_at T.content seat.old).lists.stands (fast_lock owner) }
    requires sizes { G.sizes ≡ words.now.key }
    ensures same_seat { IsSameSeat seat.old seat.new }
    ensures won { OnTrue result (GetsSlots T.content words.now.key.groups Exclusive owner seat.old seat.new) }
    ensures unmoved { OnFalse result ((side_of seat.new) ≡ (side_of seat.old)) }
{
    if words.compare_exchange::<TakesSlots<G>>(seat, fast_word(owner), shown, taken) != shown {
        return false;
    }
    true
}

// One attempt to take the lock of a session's slots: a look at its word, and an exchange where nobody holds
// it.
#[inline(always)]
pub(crate) fn attempt_free_fast<T: PartTable>(
    words: &SharedWords<T>,
    seat: &mut Seat<T>,
    owner: SessionId,
) -> Result<(), Lost>
    requires table { FitsTable seat.old words.now.key words.now.table_id }
    requires exists { owner < words.now.key.sessions }
    requires session { HasSession (side_of seat.old).0 }
    requires few { (todo_at seat.old).lost < MOST_LOST }
    requires no_other_try { NoneOr (todo_at seat.old).tries (fast_lock owner) }
    requires no_other_list { NoneOr (account_at T.content seat.old).lists.stands (fast_lock owner) }
    ensures won { IfOk result (λ _. GetsSlots T.content words.now.key.groups Exclusive owner seat.old seat.new) }
    ensures held { result ≡ Err Lost.Held → SeesInTheWay T.content (OfSlots owner) Exclusive seat.old seat.new }
    ensures same_seat { result ≡ Err Lost.Changed → IsSameSeat seat.old seat.new }
    ensures unmoved { result ≡ Err Lost.Changed → side_of seat.new ≡ side_of seat.old }
{
    let shown = look_at_lock::<T, Brand>(words, seat, &LwLock::OfSlots(owner));
    let Some(taken) = taken(shown) else {
        return Err(Lost::Held);
    };
    if attempt_fast::<T, Brand>(words, seat, owner, shown, taken) {
        return Ok(());
    }
    Err(Lost::Changed)
}

/// Takes the lock of the fast-path slots of `owner` exclusively, whether that number is issued or not
/// (`LWLockAcquire` of `fpInfoLock` in lwlock.c). The call waits in the lock's wait list until the lock is
/// free.
#[inline(always)]
pub(crate) fn take_fast<T: PartTable, R: Wait>(
    rt: &R,
    words: &SharedWords<T>,
    seat: &mut Seat<T>,
    number: SessionId,
    owner: SessionId,
)
    requires table { FitsTable seat.old words.now.key words.now.table_id }
    requires exists { owner < words.now.key.sessions }
    requires session { HasSession (side_of seat.old).0 }
    requires own { number ≡ number_at seat.old }
    requires among { number < words.now.key.sessions }
    requires idle { (account_at T.content seat.old).lists ≡ no_lists }
    requires todo { todo_at seat.old ≡ nothing_to_do }
    requires latest { IsLatestBy (account_at T.content seat.old) (OfSlots owner) }
    requires wakes_nobody { owed_at seat.old ≡ [] }
    ensures { GetsSlots T.content words.now.key.groups Exclusive owner seat.old seat.new }
{
    let mode = LwMode::Exclusive;
    acquire(
        rt,
        seat,
        &SlotsLock {
            words,
            number,
            owner,
            mode,
        },
    )
}

// Loads the word of the lock of its own slots.
fn load_fast<T: PartTable, M: Marking<T>>(
    words: &SharedWords<T>,
    seat: &mut Seat<T>,
    number: SessionId,
) -> u64
    requires table { FitsTable seat.old words.now.key words.now.table_id }
    requires session { HasSession (side_of seat.old).0 }
    requires own { number ≡ number_at seat.old }
    requires among { number < words.now.key.sessions }
    requires mark { M.mark ≡ LoadedFast }
    ensures same_seat { IsSameSeat seat.old seat.new }
    ensures side { side_of seat.new ≡ (noting (side_of seat.old).0 (LoadedFast result), (side_of seat.old).1) }
{
    load_as::<T, M>(words, seat, fast_word(number))
}

// Takes the lock of the session's own slots where its word still shows this number, and answers the number
// that it showed.
#[inline(always)]
fn take_own_fast<T: PartTable, G: Sizing>(
    words: &SharedWords<T>,
    seat: &mut Seat<T>,
    number: SessionId,
    shown: u64,
    taken: u64,
) -> u64
    requires table { FitsTable seat.old words.now.key words.now.table_id }
    requires session { HasSession (side_of seat.old).0 }
    requires own { number ≡ number_at seat.old }
    requires among { number < words.now.key.sessions }
    requires free { IsHeldByNobody shown × (taken ≡ taken_word shown) }
    requires no_other_try { NoneOr (todo_at seat.old).tries (fast_lock number) }
    requires no_other_list { NoneOr (account_at T.content seat.old).lists.stands (fast_lock number) }
    requires sizes { G.sizes ≡ words.now.key }
    ensures same_seat { IsSameSeat seat.old seat.new }
    ensures won { result ≡ shown → TookSlots T.content words.now.key.groups number (side_of seat.old) (side_of seat.new) }
    ensures lost { result ≢ shown → (side_of seat.new) ≡ (noting (side_of seat.old).0 (LoadedFast result), (side_of seat.old).1) }
{
    words.compare_exchange::<TriesSlots<G>>(seat, fast_word(number), shown, taken)
}

/// Takes the lock of the slots of the session `number`, its own, if nobody holds it, by a load and one
/// exchange that expects the very number loaded (`LWLockConditionalAcquire` in lwlock.c).
pub(crate) fn try_take_fast<T: PartTable>(
    words: &SharedWords<T>,
    seat: &mut Seat<T>,
    number: SessionId,
) -> Result<(), Busy>
    requires table { FitsTable seat.old words.now.key words.now.table_id }
    requires session { HasSession (side_of seat.old).0 }
    requires own { number ≡ number_at seat.old }
    requires among { number < words.now.key.sessions }
    requires idle { (account_at T.content seat.old).lists ≡ no_lists }
    requires todo { todo_at seat.old ≡ nothing_to_do }
    ensures same_seat { IsSameSeat seat.old seat.new }
    ensures tried { TriesFast words.now.key.groups (number_at seat.old) (account_at T.content seat.old) result
        (account_at T.content seat.new) }
    ensures quiet { quiet_at seat.new ≡ quiet_trying number result (quiet_at seat.old) }
    ensures todo { todo_at seat.new ≡ nothing_to_do }
    ensures owed { owed_at seat.new ≡ owed_at seat.old }
    ensures lone { StaysLone (side_of seat.old).0 (side_of seat.new).0 }
    ensures shelves { (side_of seat.new).1 ≡ (side_of seat.old).1 }
{
    let shown = load_fast::<T, Brand>(words, seat, number);
    let Some(taken) = taken(shown) else {
        return Err(Busy);
    };
    if take_own_fast::<T, Brand>(words, seat, number, shown, taken) == shown {
        Ok(())
    } else {
        Err(Busy)
    }
}

// Puts the lock of a session's fast-path slots, and answers what its word showed.
pub(crate) fn put_fast_home<T: PartTable, M: Marking<T>>(
    words: &SharedWords<T>,
    seat: &mut Seat<T>,
    owner: SessionId,
) -> u64
    requires table { FitsTable seat.old words.now.key words.now.table_id }
    requires exists { owner < words.now.key.sessions }
    requires session { HasSession (side_of seat.old).0 }
    requires lawful { (slots : SlotsInHand) × MayPutFastBy (account_at T.content seat.old) owner slots }
    requires no_look { (todo_at seat.old).due ≡ None }
    requires mark { M.mark ≡ PutFast owner }
    ensures led { LedTo T.content seat.old seat.new
        (account_putting_fast (number_at seat.old) (account_at T.content seat.old) owner)
        (todo_putting (todo_at seat.old) (fast_lock owner) (put_in Exclusive (state_of result))) }
    ensures shelves { (side_of seat.new).1 ≡ (side_of seat.old).1 }
{
    fetch_sub_as::<T, M>(words, seat, fast_word(owner), LwMode::Exclusive.amount())
}

/// Releases the lock of the fast-path slots of `owner` (`LWLockRelease` of `fpInfoLock` in lwlock.c). Where
/// the lock's word says so the call wakes sessions that wait for the lock.
pub(crate) fn put_fast<T: PartTable, M: Marking<T>>(
    words: &SharedWords<T>,
    seat: &mut Seat<T>,
    owner: SessionId,
)
    requires table { FitsTable seat.old words.now.key words.now.table_id }
    requires exists { owner < words.now.key.sessions }
    requires session { HasSession (side_of seat.old).0 }
    requires lawful { (slots : SlotsInHand) × MayPutFastBy (account_at T.content seat.old) owner slots }
    requires idle { (account_at T.content seat.old).lists ≡ no_lists }
    requires todo { todo_at seat.old ≡ nothing_to_do }
    requires mark { M.mark ≡ PutFast owner }
    ensures led { Led T.content seat.old seat.new
        (account_putting_fast (number_at seat.old) (account_at T.content seat.old) owner) }
    ensures shelves { (side_of seat.new).1 ≡ (side_of seat.old).1 }
{
    let of = PhantomData::<M>;
    release(seat, &SlotsTaken { words, owner, of }, ());
}

// Puts the lock of a session's fast-path slots and goes past that session, and answers what its word showed.
pub(crate) fn pass_fast_home<T: PartTable, M: Marking<T>>(
    words: &SharedWords<T>,
    seat: &mut Seat<T>,
    owner: SessionId,
    tag: &Tag,
    mode: Mode,
) -> u64
    requires table { FitsTable seat.old words.now.key words.now.table_id }
    requires exists { owner < words.now.key.sessions }
    requires session { HasSession (side_of seat.old).0 }
    requires lawful { (slots : SlotsInHand) × MayPassBy (account_at T.content seat.old) owner slots tag.now mode }
    requires no_look { (todo_at seat.old).due ≡ None }
    requires mark { M.mark ≡ Passed owner tag.now mode }
    ensures led { LedTo T.content seat.old seat.new
        (account_passing (number_at seat.old) (account_at T.content seat.old) owner tag.now mode)
        (todo_putting (todo_at seat.old) (fast_lock owner) (put_in Exclusive (state_of result))) }
    ensures shelves { (side_of seat.new).1 ≡ (side_of seat.old).1 }
{
    fetch_sub_as::<T, M>(words, seat, fast_word(owner), LwMode::Exclusive.amount())
}

/// Releases the lock of the fast-path slots of `owner`, and goes past that session with the strong lock of
/// `mode` on `tag`, which is counted (the end of a turn of the loop in `FastPathTransferRelationLocks` in
/// lock.c): `owner` has no slot in use for `tag`. Where the lock's word says so the call wakes sessions that
/// wait for the lock.
pub(crate) fn pass_fast<T: PartTable, M: Marking<T>>(
    words: &SharedWords<T>,
    seat: &mut Seat<T>,
    owner: SessionId,
    tag: &Tag,
    mode: Mode,
)
    requires table { FitsTable seat.old words.now.key words.now.table_id }
    requires exists { owner < words.now.key.sessions }
    requires session { HasSession (side_of seat.old).0 }
    requires lawful { (slots : SlotsInHand) × MayPassBy (account_at T.content seat.old) owner slots tag.now mode }
    requires idle { (account_at T.content seat.old).lists ≡ no_lists }
    requires todo { todo_at seat.old ≡ nothing_to_do }
    requires mark { M.mark ≡ Passed owner tag.now mode }
    ensures led { Led T.content seat.old seat.new
        (account_passing (number_at seat.old) (account_at T.content seat.old) owner tag.now mode) }
    ensures shelves { (side_of seat.new).1 ≡ (side_of seat.old).1 }
{
    let of = PhantomData::<M>;
    release(
        seat,
        &SlotsPassed {
            words,
            owner,
            tag,
            mode,
            of,
        },
        (),
    );
}
