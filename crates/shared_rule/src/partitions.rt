//! The steps by which a session takes a partition's lightweight lock with its content, and puts both home.

ghost use Rattle.std.specs.Prelude.{◌≡◌, ◌<◌, ◌∷◌, None, [], Err, IfOk, IfSome, IfNone};
ghost use Rattle.atomic_table.specs.Table.{rest};
ghost use Rattle.lw_word.specs.LightweightWord.{IsHeldByNobody, taken_word};
ghost use Rattle.lock_world.specs.Account.{InHand};
ghost use Rattle.lock_world.specs.AccountSteps.{account_putting};
ghost use Rattle.shared_rule.specs.Marks.{PutPart};
ghost use Rattle.shared_rule.specs.declared.kept.Kept.TheVariants.{Nothing};
ghost use Rattle.shared_rule.specs.declared.lw_locks.LwLock.TheVariants.{OfPart};
ghost use Rattle.shared_rule.specs.Acquires.{SeesInTheWay, TakesPartition};
ghost use Rattle.shared_rule.specs.Todos.{IsLatestBy, nothing_to_do, todo_putting};
ghost use Rattle.lock_world.specs.WaitLists.{partition_lock};
ghost use Rattle.lock_world.specs.Wakes.Waking.{NoneOr};
ghost use Rattle.lw_word.specs.declared.words.LwMode.TheVariants.{Exclusive};
ghost use Rattle.lw_word.specs.LockState.{state_of, put_in};
ghost use Rattle.shared_rule.specs.History.{taken_of};
ghost use Rattle.shared_rule.specs.Layout.{content_shelf_of};
ghost use Rattle.shared_rule.specs.Lawful.{MayPutPart};
ghost use Rattle.shared_rule.specs.Led.{Led, LedTo};
ghost use Rattle.shared_rule.specs.LwLocks.{no_lists};
ghost use Rattle.shared_rule.specs.Plays.{account_at, number_at, todo_at, owed_at, FitsTable, HasSession, IsSameSeat, side_of};

use crate::kept::Kept;
use crate::layout::{content_shelf, partition_word};
use crate::lists::look_at_lock;
use crate::lw_locks::LwLock;
use crate::part_locks::{PartInHand, PartLock};
use crate::plays::{Marking, Sizing, TakesPart};
use crate::rule::{Seat, SharedWords};
use crate::words::put_home_as;
use lock_table::{Move, PartTable};
use lw_lock::{Lost, MOST_LOST, acquire, release};
use lw_word::taken;
use modes_core::SessionId;
use std::marker::{Brand, PhantomData};
use std::sync::Wait;

// One exchange that takes a partition in hand, by the number that its word may show.
fn attempt_part<T: PartTable, G: Sizing>(
    words: &SharedWords<T>,
    seat: &mut Seat<T>,
    part: u8,
    shown: u64,
    taken: u64,
) -> Option<T>
    requires table { FitsTable seat.old words.now.key words.now.table_id }
    requires exists { part < 16 }
    requires session { HasSession (side_of seat.old).0 }
    requires free { IsHeldByNobody shown × (taken ≡ taken_word shown) }
    requires sizes { G.sizes ≡ words.now.key }
    requires no_other_try { NoneOr (todo_at seat.old).tries (partition_lock part) }
    requires no_other_list { NoneOr (account_at T.content seat.old).lists.stands (partition_lock part) }
    ensures same_seat { IsSameSeat seat.old seat.new }
    ensures won { IfSome result (TakesPartition T.content T.begun words.now.key.sessions part seat.old seat.new) }
    ensures unmoved { IfNone result ((side_of seat.new) ≡ (side_of seat.old)) }
{
    if words.compare_exchange::<TakesPart<G>>(seat, partition_word(part), shown, taken) != shown {
        return None;
    }
    Some(
        words
            .exchange(seat, content_shelf(part), Kept::Nothing)
            .into_part(),
    )
}

// One attempt to take a partition in hand: a look at its lock's word, and an exchange where nobody holds it.
#[inline(always)]
pub(crate) fn attempt_free_part<T: PartTable>(
    words: &SharedWords<T>,
    seat: &mut Seat<T>,
    part: u8,
) -> Result<T, Lost>
    requires table { FitsTable seat.old words.now.key words.now.table_id }
    requires exists { part < 16 }
    requires session { HasSession (side_of seat.old).0 }
    requires few { (todo_at seat.old).lost < MOST_LOST }
    requires no_other_try { NoneOr (todo_at seat.old).tries (partition_lock part) }
    requires no_other_list { NoneOr (account_at T.content seat.old).lists.stands (partition_lock part) }
    ensures won { IfOk result (TakesPartition T.content T.begun words.now.key.sessions part seat.old seat.new) }
    ensures held { result ≡ Err Lost.Held → SeesInTheWay T.content (OfPart part) Exclusive seat.old seat.new }
    ensures same_seat { result ≡ Err Lost.Changed → IsSameSeat seat.old seat.new }
    ensures unmoved { result ≡ Err Lost.Changed → side_of seat.new ≡ side_of seat.old }
{
    let shown = look_at_lock::<T, Brand>(words, seat, &LwLock::OfPart(part));
    match taken(shown) {
        Some(taken) => match attempt_part::<T, Brand>(words, seat, part, shown, taken) {
            Some(content) => Ok(content),
            None => Err(Lost::Changed),
        },
        None => Err(Lost::Held),
    }
}

/// Takes partition `part` while all sessions that are open are gathered at one seat: nobody holds its lock
/// then, so the attempt is repeated only where its exchange is lost to a flag of the word.
pub(crate) fn take_part_alone<T: PartTable, R: Wait>(
    rt: &R,
    words: &SharedWords<T>,
    seat: &mut Seat<T>,
    part: u8,
) -> T
    requires table { FitsTable seat.old words.now.key words.now.table_id }
    requires exists { part < 16 }
    requires session { HasSession (side_of seat.old).0 }
    requires no_other_try { NoneOr (todo_at seat.old).tries (partition_lock part) }
    requires no_other_list { NoneOr (account_at T.content seat.old).lists.stands (partition_lock part) }
    ensures { TakesPartition T.content T.begun words.now.key.sessions part seat.old seat.new result }
{
    for _ in rt.forever() {
        let found = look_at_lock::<T, Brand>(words, seat, &LwLock::OfPart(part));
        if let Some(taken) = taken(found) {
            if let Some(content) = attempt_part::<T, Brand>(words, seat, part, found, taken) {
                return content;
            }
        }
    }
    unreachable!()
}

/// Takes the lightweight lock of partition `part` exclusively, and its content in hand (`LWLockAcquire` in
/// lwlock.c). The call waits in the lock's list until the lock is free. The answer is the content, of which
/// the caller learns what the account of the session `number` knows of it.
#[inline(always)]
pub(crate) fn take_part<T: PartTable, R: Wait>(
    rt: &R,
    words: &SharedWords<T>,
    seat: &mut Seat<T>,
    number: SessionId,
    part: u8,
) -> T
    requires table { FitsTable seat.old words.now.key words.now.table_id }
    requires exists { part < 16 }
    requires session { HasSession (side_of seat.old).0 }
    requires own { number ≡ number_at seat.old }
    requires among { number < words.now.key.sessions }
    requires idle { (account_at T.content seat.old).lists ≡ no_lists }
    requires todo { todo_at seat.old ≡ nothing_to_do }
    requires latest { IsLatestBy (account_at T.content seat.old) (OfPart part) }
    requires wakes_nobody { owed_at seat.old ≡ [] }
    ensures { TakesPartition T.content T.begun words.now.key.sessions part seat.old seat.new result }
{
    acquire(
        rt,
        seat,
        &PartLock {
            words,
            number,
            part,
        },
    )
}

/// Puts `content` home to partition `part`, after the move `done`, releases the partition's lightweight lock,
/// and answers what the lock's word showed. Nobody is woken.
pub(crate) fn put_part_home<T: PartTable, M: Marking<T>>(
    words: &SharedWords<T>,
    seat: &mut Seat<T>,
    part: u8,
    done: &Move,
    content: T,
) -> u64
    requires table { FitsTable seat.old words.now.key words.now.table_id }
    requires exists { part < 16 }
    requires session { HasSession (side_of seat.old).0 }
    requires in_hand { (side_of seat.old).1 ≡ (content_shelf_of part, Nothing) ∷ rest (side_of seat.old).1 }
    requires none_begun { T.begun content ≡ None }
    requires lawful { (mine : InHand) × MayPutPart words.now.key.sessions (number_at seat.old)
        (account_at T.content seat.old) part mine done.now (T.content content) }
    requires no_look { (todo_at seat.old).due ≡ None }
    requires mark { M.mark ≡ PutPart part done.now content }
    ensures led { LedTo T.content seat.old seat.new (account_putting (account_at T.content seat.old) part
        (taken_of ((account_at T.content seat.old).hand part)) (T.content content) done.now)
        (todo_putting (todo_at seat.old) (partition_lock part) (put_in Exclusive (state_of result))) }
    ensures shelves { (side_of seat.new).1 ≡ rest (side_of seat.old).1 }
{
    match words.exchange(seat, content_shelf(part), Kept::Part(content)) {
        Kept::Nothing => put_home_as::<T, M>(words, seat, partition_word(part)),
        Kept::Part(_) | Kept::List(_) => unreachable!(),
    }
}

/// Puts `content` home to partition `part`, after the move `done`, and releases the partition's lightweight
/// lock (`LWLockRelease` in lwlock.c). Where the lock's word says so the call wakes sessions that wait for
/// the lock.
pub(crate) fn put_part<T: PartTable, M: Marking<T>>(
    words: &SharedWords<T>,
    seat: &mut Seat<T>,
    part: u8,
    done: &Move,
    content: T,
)
    requires table { FitsTable seat.old words.now.key words.now.table_id }
    requires exists { part < 16 }
    requires session { HasSession (side_of seat.old).0 }
    requires in_hand { (side_of seat.old).1 ≡ (content_shelf_of part, Nothing) ∷ rest (side_of seat.old).1 }
    requires none_begun { T.begun content ≡ None }
    requires lawful { (mine : InHand) × MayPutPart words.now.key.sessions (number_at seat.old)
        (account_at T.content seat.old) part mine done.now (T.content content) }
    requires idle { (account_at T.content seat.old).lists ≡ no_lists }
    requires todo { todo_at seat.old ≡ nothing_to_do }
    requires mark { M.mark ≡ PutPart part done.now content }
    ensures led { Led T.content seat.old seat.new (account_putting (account_at T.content seat.old) part
        (taken_of ((account_at T.content seat.old).hand part)) (T.content content) done.now) }
    ensures shelves { (side_of seat.new).1 ≡ rest (side_of seat.old).1 }
{
    release(
        seat,
        &PartInHand {
            words,
            part,
            done,
            of: PhantomData::<M>,
        },
        content,
    )
}
