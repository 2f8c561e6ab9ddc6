//! Where a session parks on a word of its own, and where it calls another session that may be parked. No
//! other file parks a thread on a word of the table, or wakes one there: `.ci/parks` checks that. So that a
//! session parks on what it looked at, with nothing left to do, and that a call which its history notes was
//! made, is trusted of two bodies alone: `park_on` and `call`.

ghost use Rattle.std.specs.Prelude.{◌≡◌, ◌≢◌, ◌<◌, ℕ};
ghost use mathlib.Core.Option.{none};
ghost use Rattle.atomic_table.specs.Table.{step};
ghost use Rattle.lock_world.specs.WaitWord.{wait_state};
ghost use Rattle.shared_rule.specs.Allowed.{AllowsStep};
ghost use Rattle.shared_rule.specs.History.{noting};
ghost use Rattle.shared_rule.specs.Led.{Led};
ghost use Rattle.shared_rule.specs.Marks.{ParksWaiting, ParksAsleep};
ghost use Rattle.shared_rule.specs.Parks.{CallsAt, HasNothingLeft, LookedToPark};
ghost use Rattle.shared_rule.specs.Plays.{side_of, account_at, number_at, todo_at, owed_at, FitsTable, HasSession, IsSameSeat, Marked};
ghost use Rattle.shared_rule.specs.Todos.{MaySleepBy};

use crate::layout::{sleep_word, wait_word};
use crate::plays::{Marking, Marks};
use crate::rule::{Seat, SharedWords};
use crate::words::load_as;
use lock_table::PartTable;
use modes_core::SessionId;
use std::sync::Wait;

/// Parks the session of `seat` on its own wait word or sleep word, which is at `word` and showed `shown` as
/// the session looked at it right before. The kernel compares the word before the thread sleeps, so a change
/// of the word that comes meanwhile is not slept through; the call may also return for no reason.
pub(crate) fn park_on<T: PartTable, R: Wait>(
    rt: &R,
    words: &SharedWords<T>,
    seat: &Seat<T>,
    word: usize,
    shown: u64,
)
    requires table { FitsTable seat.now words.now.key words.now.table_id × (word < words.now.table_id.words) }
    requires looked { LookedToPark words.now.key.sessions seat.now word shown }
{
    words.park(rt, word, (shown & u64::from(u32::MAX)) as u32);
}

/// Calls the session that may be parked on the word at `word`, its wait word or its sleep word: the calling
/// session looks at that word, so that its history notes the call, and then wakes whoever is parked there
/// (`SetLatch` of latch.c, and `PGSemaphoreUnlock`).
pub(crate) fn call<T: PartTable, M: Marking<T>>(
    words: &SharedWords<T>,
    seat: &mut Seat<T>,
    word: usize,
)
    requires table { FitsTable seat.old words.now.key words.now.table_id × (word < words.now.table_id.words) }
    requires allowed { AllowsStep T.content T.begun words.now.key words.now.table_id.slots
        seat.old.id (side_of seat.old) word (λ n. n)
        (Marked M.mark (step words.now.table_id.slots word 0 0 none) (side_of seat.old)) }
    requires calls { (n : ℕ) → CallsAt words.now.key.sessions (M.mark n) word }
    ensures same_seat { IsSameSeat seat.old seat.new }
    ensures side { (n : ℕ) × (side_of seat.new ≡ (noting (side_of seat.old).0 (M.mark n), (side_of seat.old).1)) }
{
    words.load::<Marks<M>>(seat, word);
    words.wake_one(word);
}

/// Parks the session `number` on its wait word, which showed `shown` as the session loaded it: no grant. The
/// session looks at the word once more, so that its history notes that it parks, and doesn't where the word
/// has changed.
pub(crate) fn park_waiting<T: PartTable, M: Marking<T>, R: Wait>(
    rt: &R,
    words: &SharedWords<T>,
    seat: &mut Seat<T>,
    number: SessionId,
    shown: u64,
)
    requires table { FitsTable seat.old words.now.key words.now.table_id }
    requires session { HasSession (side_of seat.old).0 }
    requires own { number ≡ number_at seat.old }
    requires among { number < words.now.key.sessions }
    requires nothing_left { HasNothingLeft (account_at T.content seat.old) (todo_at seat.old) (owed_at seat.old) }
    requires not_granted { wait_state shown ≢ 2 }
    requires mark { M.mark ≡ ParksWaiting }
    ensures led { Led T.content seat.old seat.new (account_at T.content seat.old) }
    ensures shelves { (side_of seat.new).1 ≡ (side_of seat.old).1 }
{
    let wait = wait_word(number);
    let found = load_as::<T, M>(words, seat, wait);
    if found == shown {
        park_on(rt, words, seat, wait, found);
    }
}

/// Parks the session `number` on its sleep word, which showed `shown` as the session loaded it: not that it
/// was told. The session looks at the word once more, so that its history notes that it parks, and doesn't
/// where the word has changed.
pub(crate) fn park_asleep<T: PartTable, M: Marking<T>, R: Wait>(
    rt: &R,
    words: &SharedWords<T>,
    seat: &mut Seat<T>,
    number: SessionId,
    shown: u64,
)
    requires table { FitsTable seat.old words.now.key words.now.table_id }
    requires session { HasSession (side_of seat.old).0 }
    requires own { number ≡ number_at seat.old }
    requires among { number < words.now.key.sessions }
    requires may { MaySleepBy (account_at T.content seat.old) (todo_at seat.old) (owed_at seat.old) }
    requires untold { shown ≢ 0 }
    requires mark { M.mark ≡ ParksAsleep }
    ensures led { Led T.content seat.old seat.new (account_at T.content seat.old) }
    ensures shelves { (side_of seat.new).1 ≡ (side_of seat.old).1 }
{
    let sleep = sleep_word(number);
    let found = load_as::<T, M>(words, seat, sleep);
    if found == shown {
        park_on(rt, words, seat, sleep, found);
    }
}
