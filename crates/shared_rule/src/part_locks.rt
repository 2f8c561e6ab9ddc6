//! The lock of a partition, as a session comes for it and as it puts it (`LockHashPartitionLock` in lock.h).

ghost use Rattle.shared_rule.specs.Plays.{side_of};
ghost use Rattle.lw_word.specs.declared.words.LwMode.TheVariants.{Exclusive};
ghost use Rattle.lw_lock.specs.Since.{IsSince, Gains};
ghost use Rattle.shared_rule.specs.declared.lw_locks.LwLock.TheVariants.{OfPart};
ghost use Rattle.shared_rule.specs.Acquires.{TakesPartition};
ghost use Rattle.shared_rule.specs.Waiting.{sought_of, IsOnWay};

use crate::lw_locks::LwLock;
use crate::partitions::{attempt_free_part, put_part_home};
use crate::plays::Marking;
use crate::queues::{dequeue_self, queue_self, sleep_for};
use crate::rule::{Seat, SharedWords};
use crate::wakeups::wake_waiters;
use lock_table::{Move, PartTable};
use lw_lock::{Acquirable, Guarded, Held, Lost, acquire_changed, acquire_held};
use lw_word::LwMode;
use modes_core::SessionId;
use std::marker::PhantomData;
use std::sync::Wait;

/// The lightweight lock of partition `part`, as the session `number` comes to take it: with the lock the
/// partition's content comes in hand.
#[derive(Drop)]
pub(crate) struct PartLock<'a, T: PartTable> {
    pub(crate) words: &'a SharedWords<T>,
    pub(crate) number: SessionId,
    pub(crate) part: u8,
}

impl<'a, T: PartTable> Guarded<Seat<T>, T> for PartLock<'a, T> {
    ghost use Rattle.lw_word.specs.declared.words.LwMode.TheVariants.{Exclusive};
    ghost use Rattle.shared_rule.specs.declared.lw_locks.LwLock.TheVariants.{OfPart};
    ghost use Rattle.shared_rule.specs.Acquires.{TakesPartition};
    ghost use Rattle.shared_rule.specs.Waiting.{sought_of, IsOnWay, IsQueued, HasSeenHeld, HasWonQueued};

    ghost on_way = { λ it lost. IsOnWay T.content
        (sought_of it.words.now.key it.words.now.table_id it.number (OfPart it.part) Exclusive) lost };

    ghost queued = { λ it. IsQueued T.content
        (sought_of it.words.now.key it.words.now.table_id it.number (OfPart it.part) Exclusive) };

    ghost saw_held = { λ it. HasSeenHeld T.content
        (sought_of it.words.now.key it.words.now.table_id it.number (OfPart it.part) Exclusive) };

    ghost won_queued = { λ it first now content. HasWonQueued T.content
        (sought_of it.words.now.key it.words.now.table_id it.number (OfPart it.part) Exclusive)
        (λ at after. TakesPartition T.content T.begun it.words.now.key.sessions it.part at after content) first now };

    ghost won = { λ it. TakesPartition T.content T.begun it.words.now.key.sessions it.part };

    #[inline(always)]
    fn attempt(&self, seat: &mut Seat<T>) -> Result<T, Lost> {
        attempt_free_part(self.words, seat, self.part)
    }

    fn queue_self<R: Wait>(&self, rt: &R, seat: &mut Seat<T>) {
        let lock = LwLock::OfPart(self.part);
        queue_self(rt, self.words, seat, self.number, &lock, LwMode::Exclusive);
    }

    fn attempt_again(&self, seat: &mut Seat<T>) -> Result<T, Lost> {
        attempt_free_part(self.words, seat, self.part)
    }

    fn dequeue_self<R: Wait>(&self, rt: &R, seat: &mut Seat<T>) {
        let lock = LwLock::OfPart(self.part);
        dequeue_self(rt, self.words, seat, self.number, &lock);
    }

    fn sleep_until_told<R: Wait>(&self, rt: &R, seat: &mut Seat<T>) {
        let lock = LwLock::OfPart(self.part);
        sleep_for(rt, self.words, seat, self.number, &lock);
    }
}

impl<'a, T: PartTable> Acquirable<Seat<T>, T> for PartLock<'a, T> {
    #[inline(always)]
    fn acquire_held<R: Wait>(&self, rt: &R, seat: &mut Seat<T>) -> T {
        take_part_held(rt, self.words, seat, self.number, self.part)
    }

    #[inline(always)]
    fn acquire_changed<R: Wait>(&self, rt: &R, seat: &mut Seat<T>) -> T {
        take_part_changed(rt, self.words, seat, self.number, self.part)
    }
}

// Takes a partition after an exchange that was lost.
#[cold]
#[inline(never)]
fn take_part_changed<T: PartTable, R: Wait>(
    rt: &R,
    words: &SharedWords<T>,
    seat: &mut Seat<T>,
    number: SessionId,
    part: u8,
) -> T
    requires { IsSince (IsOnWay T.content
        (sought_of words.now.key words.now.table_id number (OfPart part) Exclusive) 0) seat.old }
    ensures { Gains (IsOnWay T.content
        (sought_of words.now.key words.now.table_id number (OfPart part) Exclusive) 0)
        (TakesPartition T.content T.begun words.now.key.sessions part) seat.old seat.new result }
{
    acquire_changed(
        rt,
        seat,
        &PartLock {
            words,
            number,
            part,
        },
    )
}

// Takes a partition after an attempt that was lost.
#[cold]
#[inline(never)]
fn take_part_held<T: PartTable, R: Wait>(
    rt: &R,
    words: &SharedWords<T>,
    seat: &mut Seat<T>,
    number: SessionId,
    part: u8,
) -> T
    requires { IsSince (IsOnWay T.content
        (sought_of words.now.key words.now.table_id number (OfPart part) Exclusive) 1) seat.old }
    ensures { Gains (IsOnWay T.content
        (sought_of words.now.key words.now.table_id number (OfPart part) Exclusive) 1)
        (TakesPartition T.content T.begun words.now.key.sessions part) seat.old seat.new result }
{
    acquire_held(
        rt,
        seat,
        &PartLock {
            words,
            number,
            part,
        },
    )
}

/// The lightweight lock of partition `part`, as a session that has the partition in hand releases it: the
/// content goes home, after the move `done`.
#[derive(Drop)]
pub(crate) struct PartInHand<'a, T: PartTable, M: Marking<T>> {
    pub(crate) words: &'a SharedWords<T>,
    pub(crate) part: u8,
    pub(crate) done: &'a Move,
    pub(crate) of: PhantomData<M>,
}

impl<'a, T: PartTable, M: Marking<T>> Held<Seat<T>, T> for PartInHand<'a, T, M> {
    ghost use Rattle.lw_word.specs.declared.words.LwMode.TheVariants.{Exclusive};
    ghost use Rattle.atomic_table.specs.Table.{rest};
    ghost use Rattle.shared_rule.specs.declared.lw_locks.LwLock.TheVariants.{OfPart};
    ghost use Rattle.shared_rule.specs.Releases.{account_put, MayPutPartition, HasPut, HasReleased};

    ghost in_mode = { λ _. Exclusive };

    ghost may_put = { λ it. MayPutPartition T.content it.part it.done.now T.begun it.words.now.key
        it.words.now.table_id M.mark };

    ghost due = { λ it before after content. HasPut T.content it.words.now.key it.words.now.table_id
        (OfPart it.part) Exclusive before after (account_put T.content it.part it.done.now before content)
        (rest (side_of before).1) };

    ghost released = { λ it before after content. HasReleased T.content before after
        (account_put T.content it.part it.done.now before content) (rest (side_of before).1) };

    #[inline(always)]
    fn mode(&self) -> LwMode {
        LwMode::Exclusive
    }

    #[inline(always)]
    fn put(&self, seat: &mut Seat<T>, content: T) -> u64 {
        put_part_home::<T, M>(self.words, seat, self.part, self.done, content)
    }

    #[inline(always)]
    fn wake_waiters(&self, seat: &mut Seat<T>) {
        wake_waiters(self.words, seat, &LwLock::OfPart(self.part));
    }
}
