//! Sharing the lock of a session's fast-path slots: a session that only reads them lets others read them too,
//! and nobody write them.

ghost use Rattle.std.specs.Bool.{OnTrue, OnFalse};
ghost use Rattle.std.specs.Prelude.{◌≡◌, ◌<◌, None, [], Err, IfOk};
ghost use Rattle.lw_word.specs.declared.words.LwMode.TheVariants.{Shared};
ghost use Rattle.lw_word.specs.LightweightWord.{IsFreeToShare, shared_word};
ghost use Rattle.lock_world.specs.Account.{SlotsInHand};
ghost use Rattle.lock_world.specs.AccountLaw.{MayShareFastBy, MayUnshareFastBy};
ghost use Rattle.shared_rule.specs.Marks.{UnsharedFast};
ghost use Rattle.lock_world.specs.AccountSteps.{account_unsharing_fast};
ghost use Rattle.shared_rule.specs.Acquires.{SeesInTheWay, GetsSlots};
ghost use Rattle.shared_rule.specs.Led.{Led, LedTo};
ghost use Rattle.shared_rule.specs.Todos.{IsLatestBy, nothing_to_do, todo_putting};
ghost use Rattle.shared_rule.specs.declared.lw_locks.LwLock.TheVariants.{OfSlots};
ghost use Rattle.lock_world.specs.WaitLists.{fast_lock};
ghost use Rattle.lock_world.specs.Wakes.Waking.{NoneOr};
ghost use Rattle.lw_word.specs.LockState.{state_of, put_in};
ghost use Rattle.shared_rule.specs.LwLocks.{no_lists};
ghost use Rattle.shared_rule.specs.Plays.{account_at, number_at, todo_at, owed_at, FitsTable, HasSession, IsSameSeat, side_of};

use crate::layout::fast_word;
use crate::lists::look_at_lock;
use crate::lw_locks::LwLock;
use crate::plays::{Marking, SharesSlots, Sizing};
use crate::rule::{Seat, SharedWords};
use crate::slot_locks::{SlotsLock, SlotsShared};
use crate::words::fetch_sub_as;
use lock_table::PartTable;
use lw_lock::{Lost, MOST_LOST, acquire, release};
use lw_word::{LwMode, shared};
use modes_core::SessionId;
use std::marker::{Brand, PhantomData};
use std::sync::Wait;

// One exchange that shares the lock of a session's slots, of as many groups as the table has, by the number
// that its word may show.
#[inline(always)]
fn attempt_share<T: PartTable, G: Sizing>(
    words: &SharedWords<T>,
    seat: &mut Seat<T>,
    owner: SessionId,
    shown: u64,
    shared: u64,
) -> bool
    requires table { FitsTable seat.old words.now.key words.now.table_id }
    requires exists { owner < words.now.key.sessions }
    requires session { HasSession (side_of seat.old).0 }
    requires lawful { MayShareFastBy (account_at T.content seat.old) owner }
    requires no_other_try { NoneOr (todo_at seat.old).tries (fast_lock owner) }
    requires no_other_list { NoneOr (account_at T.content seat.old).lists.stands (fast_lock owner) }
    requires free { IsFreeToShare shown × (shared ≡ shared_word shown) }
    requires sizes { G.sizes ≡ words.now.key }
    ensures same_seat { IsSameSeat seat.old seat.new }
    ensures won { OnTrue result (GetsSlots T.content words.now.key.groups Shared owner seat.old seat.new) }
    ensures unmoved { OnFalse result ((side_of seat.new) ≡ (side_of seat.old)) }
{
    if words.compare_exchange::<SharesSlots<G>>(seat, fast_word(owner), shown, shared) != shown {
        return false;
    }
    true
}

// One attempt to share the lock of a session's slots: a look at its word, and an exchange where nobody holds
// it exclusively.
#[inline(always)]
pub(crate) fn attempt_free_share<T: PartTable>(
    words: &SharedWords<T>,
    seat: &mut Seat<T>,
    owner: SessionId,
) -> Result<(), Lost>
    requires table { FitsTable seat.old words.now.key words.now.table_id }
    requires exists { owner < words.now.key.sessions }
    requires session { HasSession (side_of seat.old).0 }
    requires lawful { MayShareFastBy (account_at T.content seat.old) owner }
    requires few { (todo_at seat.old).lost < MOST_LOST }
    requires no_other_try { NoneOr (todo_at seat.old).tries (fast_lock owner) }
    requires no_other_list { NoneOr (account_at T.content seat.old).lists.stands (fast_lock owner) }
    ensures won { IfOk result (λ _. GetsSlots T.content words.now.key.groups Shared owner seat.old seat.new) }
    ensures held { result ≡ Err Lost.Held → SeesInTheWay T.content (OfSlots owner) Shared seat.old seat.new }
    ensures same_seat { result ≡ Err Lost.Changed → IsSameSeat seat.old seat.new }
    ensures unmoved { result ≡ Err Lost.Changed → side_of seat.new ≡ side_of seat.old }
{
    let shown = look_at_lock::<T, Brand>(words, seat, &LwLock::OfSlots(owner));
    let Some(shared) = shared(shown) else {
        return Err(Lost::Held);
    };
    if attempt_share::<T, Brand>(words, seat, owner, shown, shared) {
        return Ok(());
    }
    Err(Lost::Changed)
}

/// Shares the lock of the fast-path slots of `owner`, whether that number is issued or not (`LWLockAcquire`
/// of `fpInfoLock` with `LW_SHARED` in lwlock.c). The call waits in the lock's list until nobody holds the
/// lock exclusively.
#[inline(always)]
pub(crate) fn share_fast<T: PartTable, R: Wait>(
    rt: &R,
    words: &SharedWords<T>,
    seat: &mut Seat<T>,
    number: SessionId,
    owner: SessionId,
)
    requires table { FitsTable seat.old words.now.key words.now.table_id }
    requires exists { owner < words.now.key.sessions }
    requires session { HasSession (side_of seat.old).0 }
    requires own { number ≡ number_at seat.old }
    requires among { number < words.now.key.sessions }
    requires lawful { MayShareFastBy (account_at T.content seat.old) owner }
    requires idle { (account_at T.content seat.old).lists ≡ no_lists }
    requires todo { todo_at seat.old ≡ nothing_to_do }
    requires latest { IsLatestBy (account_at T.content seat.old) (OfSlots owner) }
    requires wakes_nobody { owed_at seat.old ≡ [] }
    ensures { GetsSlots T.content words.now.key.groups Shared owner seat.old seat.new }
{
    let mode = LwMode::Shared;
    acquire(
        rt,
        seat,
        &SlotsLock {
            words,
            number,
            owner,
            mode,
        },
    )
}

// Gives the share of the lock of a session's slots back, and answers what its word showed.
pub(crate) fn unshare_fast_home<T: PartTable, M: Marking<T>>(
    words: &SharedWords<T>,
    seat: &mut Seat<T>,
    owner: SessionId,
) -> u64
    requires table { FitsTable seat.old words.now.key words.now.table_id }
    requires exists { owner < words.now.key.sessions }
    requires session { HasSession (side_of seat.old).0 }
    requires lawful { (slots : SlotsInHand) × MayUnshareFastBy (account_at T.content seat.old) owner slots }
    requires no_look { (todo_at seat.old).due ≡ None }
    requires mark { M.mark ≡ UnsharedFast owner }
    ensures led { LedTo T.content seat.old seat.new
        (account_unsharing_fast (account_at T.content seat.old) owner)
        (todo_putting (todo_at seat.old) (fast_lock owner) (put_in Shared (state_of result))) }
    ensures shelves { (side_of seat.new).1 ≡ (side_of seat.old).1 }
{
    fetch_sub_as::<T, M>(words, seat, fast_word(owner), LwMode::Shared.amount())
}

/// Gives back the session's share of the lock of the slots of `owner` (`LWLockRelease` in lwlock.c). The last
/// session that shared it wakes those who wait for the lock, where its word says so.
pub(crate) fn unshare_fast<T: PartTable, M: Marking<T>>(
    words: &SharedWords<T>,
    seat: &mut Seat<T>,
    owner: SessionId,
)
    requires table { FitsTable seat.old words.now.key words.now.table_id }
    requires exists { owner < words.now.key.sessions }
    requires session { HasSession (side_of seat.old).0 }
    requires lawful { (slots : SlotsInHand) × MayUnshareFastBy (account_at T.content seat.old) owner slots }
    requires idle { (account_at T.content seat.old).lists ≡ no_lists }
    requires todo { todo_at seat.old ≡ nothing_to_do }
    requires mark { M.mark ≡ UnsharedFast owner }
    ensures led { Led T.content seat.old seat.new
        (account_unsharing_fast (account_at T.content seat.old) owner) }
    ensures shelves { (side_of seat.new).1 ≡ (side_of seat.old).1 }
{
    let of = PhantomData::<M>;
    release(seat, &SlotsShared { words, owner, of }, ());
}
