//! The steps of a session on wait words: its own, by which it learns that its wait was granted or is to be
//! cancelled, and those of others whom it tells so.

ghost use Rattle.std.specs.Prelude.{◌≡◌, ◌<◌, None, [], List, map};
ghost use Rattle.lock_world.specs.Account.{InHand};
ghost use Rattle.shared_rule.specs.History.{noting, sessions_told};
ghost use Rattle.shared_rule.specs.Plays.{side_of, account_at, number_at, FitsTable, HasSession, IsSameSeat};
ghost use Rattle.modes_core.specs.Tag.{partition_of};
ghost use Rattle.lock_table.specs.declared.moves.Move.TheVariants.{Join};
ghost use Rattle.lock_table.specs.Content as contents;
ghost use Rattle.lock_table.specs.OwnWait.{OwnWait};
ghost use Rattle.lock_table.specs.Waiter.{whose_and_mode};
ghost use Rattle.lock_world.specs.WaitWord.{wait_state};
ghost use Rattle.lock_world.specs.AccountLaw.{MayMoveBy, MayLeaveBy};
ghost use Rattle.shared_rule.specs.Marks.{SetWaiting, MarkedGranted, LoadedWait, Asked};
ghost use Rattle.shared_rule.specs.Marks.{ClearedWait, LeftQueue, CalledWaiter};
ghost use Rattle.shared_rule.specs.Lawful.{IsGrantingIn, MayMarkBy, MayClearBy};

use crate::layout::wait_word;
use crate::parks::call;
use crate::plays::Marking;
use crate::rule::{Seat, SharedWords};
use crate::words::{fetch_add_as, fetch_or_as, load_as, store_as};
use lock_table::{Move, PartTable};
use lw_word::{CANCEL_ASKED, WaitState};
use modes_core::{Mode, SessionId, Tag};

/// What a grant adds to the wait word of the session that waits.
const GRANT: u64 = WaitState::Granted as u64 - WaitState::Waiting as u64;

/// Stores in the wait word of the session `number`, its own, that it waits for `mode` on `tag`, with its join
/// made in `content` in hand (`ProcSleep` in proc.c sets `waitStatus` so).
pub(crate) fn set_waiting<T: PartTable, M: Marking<T>>(
    words: &SharedWords<T>,
    seat: &mut Seat<T>,
    number: SessionId,
    tag: &Tag,
    mode: Mode,
    content: &T,
)
    requires table { FitsTable seat.old words.now.key words.now.table_id }
    requires session { HasSession (side_of seat.old).0 }
    requires own { number ≡ number_at seat.old }
    requires among { number < words.now.key.sessions }
    requires lawful { (mine : InHand) × MayMoveBy words.now.key.sessions (number_at seat.old)
        (account_at T.content seat.old) (partition_of tag.now) mine (Join tag.now mode) [] (T.content content.now) }
    requires mark { M.mark ≡ (λ _. SetWaiting tag.now mode content.now) }
    ensures same_seat { IsSameSeat seat.old seat.new }
    ensures side { side_of seat.new ≡ (noting (side_of seat.old).0 (SetWaiting tag.now mode content.now), (side_of seat.old).1) }
{
    store_as::<T, M>(words, seat, wait_word(number), WaitState::Waiting as u64);
}

/// Marks the wait of `other` granted, one of the sessions in `woken`, whose waits the move `done` grants in
/// `content`, that of partition `part` (`ProcWakeup` in proc.c sets `waitStatus`; the waiter's own side is
/// `GrantAwaitedLock` in lock.c).
pub(crate) fn mark_granted<T: PartTable, M: Marking<T>>(
    words: &SharedWords<T>,
    seat: &mut Seat<T>,
    part: u8,
    other: SessionId,
    done: &Move,
    woken: &[(SessionId, Mode)],
    content: &T,
)
    requires table { FitsTable seat.old words.now.key words.now.table_id }
    requires exists { other < words.now.key.sessions }
    requires session { HasSession (side_of seat.old).0 }
    requires grants { IsGrantingIn part done.now }
    requires lawful { (mine : InHand) × (granted : List contents.Wait)
        × (woken.now ≡ map whose_and_mode granted)
        × MayMarkBy words.now.key.sessions (number_at seat.old) (account_at T.content seat.old) part
        mine done.now granted (T.content content.now) other }
    requires mark { M.mark
        ≡ (λ _. MarkedGranted part other done.now (sessions_told woken.now) content.now) }
    ensures same_seat { IsSameSeat seat.old seat.new }
    ensures side { (side_of seat.new)
        ≡ (
          noting (side_of seat.old).0 (MarkedGranted part other done.now (sessions_told woken.now) content.now),
          (side_of seat.old).1,
        ) }
{
    fetch_add_as::<T, M>(words, seat, wait_word(other), GRANT);
}

/// Loads the wait word of the session `number`, its own (`waitStatus` in proc.h, as `ProcSleep` in proc.c
/// reads it).
pub(crate) fn load_wait<T: PartTable, M: Marking<T>>(
    words: &SharedWords<T>,
    seat: &mut Seat<T>,
    number: SessionId,
) -> u64
    requires table { FitsTable seat.old words.now.key words.now.table_id }
    requires session { HasSession (side_of seat.old).0 }
    requires own { number ≡ number_at seat.old }
    requires among { number < words.now.key.sessions }
    requires mark { M.mark ≡ LoadedWait }
    ensures same_seat { IsSameSeat seat.old seat.new }
    ensures side { side_of seat.new ≡ (noting (side_of seat.old).0 (LoadedWait result), (side_of seat.old).1) }
{
    load_as::<T, M>(words, seat, wait_word(number))
}

/// Asks `other` to cancel its wait, and answers what its wait word showed before (`pg_cancel_backend` in
/// signalfuncs.c).
pub(crate) fn ask_cancel<T: PartTable, M: Marking<T>>(
    words: &SharedWords<T>,
    seat: &mut Seat<T>,
    other: SessionId,
) -> u64
    requires table { FitsTable seat.old words.now.key words.now.table_id }
    requires exists { other < words.now.key.sessions }
    requires session { HasSession (side_of seat.old).0 }
    requires mark { M.mark ≡ Asked other }
    ensures same_seat { IsSameSeat seat.old seat.new }
    ensures side { side_of seat.new ≡ (noting (side_of seat.old).0 (Asked other result), (side_of seat.old).1) }
    ensures own { other ≡ number_at seat.old → (account_at T.content seat.old).awaited ≡ None
        → wait_state result ≡ 0 }
{
    fetch_or_as::<T, M>(words, seat, wait_word(other), CANCEL_ASKED)
}

/// Calls `other`, which may be parked on its wait word (`SetLatch` in `ProcWakeup` of proc.c), and notes the
/// call in the session's history.
pub(crate) fn call_waiter<T: PartTable, M: Marking<T>>(
    words: &SharedWords<T>,
    seat: &mut Seat<T>,
    other: SessionId,
)
    requires table { FitsTable seat.old words.now.key words.now.table_id }
    requires exists { other < words.now.key.sessions }
    requires session { HasSession (side_of seat.old).0 }
    requires mark { M.mark ≡ (λ _. CalledWaiter other) }
    ensures same_seat { IsSameSeat seat.old seat.new }
    ensures side { side_of seat.new ≡ (noting (side_of seat.old).0 (CalledWaiter other), (side_of seat.old).1) }
{
    call::<T, M>(words, seat, wait_word(other));
}

/// Clears the wait word of the session `number`, its own: the wait is over, since the grant was seen or the
/// wait is gone from the content in hand.
pub(crate) fn clear_wait<T: PartTable, M: Marking<T>>(
    words: &SharedWords<T>,
    seat: &mut Seat<T>,
    number: SessionId,
)
    requires table { FitsTable seat.old words.now.key words.now.table_id }
    requires session { HasSession (side_of seat.old).0 }
    requires own { number ≡ number_at seat.old }
    requires among { number < words.now.key.sessions }
    requires lawful { (wait : OwnWait) × MayClearBy (number_at seat.old) (account_at T.content seat.old) wait }
    requires mark { M.mark ≡ (λ _. ClearedWait) }
    ensures same_seat { IsSameSeat seat.old seat.new }
    ensures side { side_of seat.new ≡ (noting (side_of seat.old).0 (ClearedWait), (side_of seat.old).1) }
{
    store_as::<T, M>(words, seat, wait_word(number), WaitState::NotWaiting as u64);
}

/// Clears the wait word of the session `number`, its own, and records that the wait was taken out of the
/// queue of `content` in hand, which granted the waits of the sessions in `woken` (`RemoveFromWaitQueue` in
/// lock.c).
pub(crate) fn leave_queue<T: PartTable, M: Marking<T>>(
    words: &SharedWords<T>,
    seat: &mut Seat<T>,
    number: SessionId,
    woken: &[(SessionId, Mode)],
    content: &T,
)
    requires table { FitsTable seat.old words.now.key words.now.table_id }
    requires session { HasSession (side_of seat.old).0 }
    requires own { number ≡ number_at seat.old }
    requires among { number < words.now.key.sessions }
    requires lawful { (wait : OwnWait) × (mine : InHand) × (granted : List contents.Wait)
        × (woken.now ≡ map whose_and_mode granted)
        × MayLeaveBy words.now.key.sessions (number_at seat.old) (account_at T.content seat.old) wait
        mine granted (T.content content.now) }
    requires mark { M.mark ≡ (λ _. LeftQueue (sessions_told woken.now) content.now) }
    ensures same_seat { IsSameSeat seat.old seat.new }
    ensures side { (side_of seat.new)
        ≡ (noting (side_of seat.old).0 (LeftQueue (sessions_told woken.now) content.now), (side_of seat.old).1) }
{
    store_as::<T, M>(words, seat, wait_word(number), WaitState::NotWaiting as u64);
}
