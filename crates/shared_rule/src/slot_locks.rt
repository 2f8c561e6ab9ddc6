//! The lock of a session's fast-path slots, as a session comes for it, to write them or to read them, and as
//! it puts it (`fpInfoLock` in proc.h).

ghost use Rattle.std.specs.Prelude.{◌≡◌, ◌<◌, Err, IfOk};
ghost use Rattle.lock_world.specs.WaitLists.{fast_lock};
ghost use Rattle.lw_lock.specs.Since.{IsSince, TurnsInto};
ghost use Rattle.shared_rule.specs.declared.lw_locks.LwLock.TheVariants.{OfSlots};
ghost use Rattle.shared_rule.specs.Waiting.{sought_of, IsOnWay};
ghost use Rattle.lock_world.specs.Wakes.Waking.{NoneOr};
ghost use Rattle.shared_rule.specs.Acquires.{SeesInTheWay, MayGetSlots, GetsSlots};
ghost use Rattle.shared_rule.specs.Plays.{side_of, account_at, todo_at, FitsTable, HasSession, IsSameSeat};

use crate::locks::{attempt_free_fast, pass_fast_home, put_fast_home};
use crate::lw_locks::LwLock;
use crate::plays::Marking;
use crate::queues::{dequeue_self, queue_self, sleep_for};
use crate::rule::{Seat, SharedWords};
use crate::sharing::{attempt_free_share, unshare_fast_home};
use crate::wakeups::wake_waiters;
use lock_table::PartTable;
use lw_lock::{Acquirable, Guarded, Held, Lost, MOST_LOST, acquire_changed, acquire_held};
use lw_word::LwMode;
use modes_core::{Mode, SessionId, Tag};
use std::marker::PhantomData;
use std::sync::Wait;

/// The lock of the fast-path slots of `owner`, as the session `number` comes to take it in `mode`: with the
/// lock it knows what the slots show.
#[derive(Drop)]
pub(crate) struct SlotsLock<'a, T: PartTable> {
    pub(crate) words: &'a SharedWords<T>,
    pub(crate) number: SessionId,
    pub(crate) owner: SessionId,
    pub(crate) mode: LwMode,
}

impl<'a, T: PartTable> SlotsLock<'a, T> {
    // One attempt, where the word shows that nobody is in the way.
    #[inline(always)]
    fn attempt_free(&self, seat: &mut Seat<T>) -> Result<(), Lost>
        requires table { FitsTable seat.old self.now.words.now.key self.now.words.now.table_id }
        requires exists { self.now.owner < self.now.words.now.key.sessions }
        requires session { HasSession (side_of seat.old).0 }
        requires lawful { MayGetSlots self.now.mode (account_at T.content seat.old) self.now.owner }
        requires few { (todo_at seat.old).lost < MOST_LOST }
        requires no_other_try { NoneOr (todo_at seat.old).tries (fast_lock self.now.owner) }
        requires no_other_list { NoneOr (account_at T.content seat.old).lists.stands (fast_lock self.now.owner) }
        ensures won { IfOk result (λ _. GetsSlots T.content self.now.words.now.key.groups self.now.mode self.now.owner
            seat.old seat.new) }
        ensures held { result ≡ Err Lost.Held →
            SeesInTheWay T.content (OfSlots self.now.owner) self.now.mode seat.old seat.new }
        ensures same_seat { result ≡ Err Lost.Changed → IsSameSeat seat.old seat.new }
        ensures unmoved { result ≡ Err Lost.Changed → side_of seat.new ≡ side_of seat.old }
    {
        match self.mode {
            LwMode::Exclusive => attempt_free_fast(self.words, seat, self.owner),
            LwMode::Shared => attempt_free_share(self.words, seat, self.owner),
        }
    }
}

impl<'a, T: PartTable> Guarded<Seat<T>, ()> for SlotsLock<'a, T> {
    ghost use Rattle.shared_rule.specs.declared.lw_locks.LwLock.TheVariants.{OfSlots};
    ghost use Rattle.shared_rule.specs.Acquires.{GetsSlots};
    ghost use Rattle.shared_rule.specs.Waiting.{sought_of, IsOnWay, IsQueued, HasSeenHeld, HasWonQueued};

    ghost on_way = { λ it lost. IsOnWay T.content
        (sought_of it.words.now.key it.words.now.table_id it.number (OfSlots it.owner) it.mode) lost };

    ghost queued = { λ it. IsQueued T.content
        (sought_of it.words.now.key it.words.now.table_id it.number (OfSlots it.owner) it.mode) };

    ghost saw_held = { λ it. HasSeenHeld T.content
        (sought_of it.words.now.key it.words.now.table_id it.number (OfSlots it.owner) it.mode) };

    ghost won_queued = { λ it first now _. HasWonQueued T.content
        (sought_of it.words.now.key it.words.now.table_id it.number (OfSlots it.owner) it.mode)
        (GetsSlots T.content it.words.now.key.groups it.mode it.owner) first now };

    ghost won = { λ it first now _. GetsSlots T.content it.words.now.key.groups it.mode it.owner first now };

    #[inline(always)]
    fn attempt(&self, seat: &mut Seat<T>) -> Result<(), Lost> {
        self.attempt_free(seat)
    }

    fn queue_self<R: Wait>(&self, rt: &R, seat: &mut Seat<T>) {
        let lock = LwLock::OfSlots(self.owner);
        queue_self(rt, self.words, seat, self.number, &lock, self.mode);
    }

    fn attempt_again(&self, seat: &mut Seat<T>) -> Result<(), Lost> {
        self.attempt_free(seat)
    }

    fn dequeue_self<R: Wait>(&self, rt: &R, seat: &mut Seat<T>) {
        let lock = LwLock::OfSlots(self.owner);
        dequeue_self(rt, self.words, seat, self.number, &lock);
    }

    fn sleep_until_told<R: Wait>(&self, rt: &R, seat: &mut Seat<T>) {
        let lock = LwLock::OfSlots(self.owner);
        sleep_for(rt, self.words, seat, self.number, &lock);
    }
}

impl<'a, T: PartTable> Acquirable<Seat<T>, ()> for SlotsLock<'a, T> {
    #[inline(always)]
    fn acquire_held<R: Wait>(&self, rt: &R, seat: &mut Seat<T>) {
        get_slots_held(rt, self.words, seat, self.number, self.owner, self.mode);
    }

    #[inline(always)]
    fn acquire_changed<R: Wait>(&self, rt: &R, seat: &mut Seat<T>) {
        get_slots_changed(rt, self.words, seat, self.number, self.owner, self.mode);
    }
}

// Gets the lock of a session's slots after an exchange that was lost.
#[cold]
#[inline(never)]
fn get_slots_changed<T: PartTable, R: Wait>(
    rt: &R,
    words: &SharedWords<T>,
    seat: &mut Seat<T>,
    number: SessionId,
    owner: SessionId,
    mode: LwMode,
)
    requires { IsSince (IsOnWay T.content
        (sought_of words.now.key words.now.table_id number (OfSlots owner) mode) 0) seat.old }
    ensures { TurnsInto (IsOnWay T.content
        (sought_of words.now.key words.now.table_id number (OfSlots owner) mode) 0)
        (GetsSlots T.content words.now.key.groups mode owner) seat.old seat.new }
{
    acquire_changed(
        rt,
        seat,
        &SlotsLock {
            words,
            number,
            owner,
            mode,
        },
    )
}

// Gets the lock of a session's slots after an attempt that was lost.
#[cold]
#[inline(never)]
fn get_slots_held<T: PartTable, R: Wait>(
    rt: &R,
    words: &SharedWords<T>,
    seat: &mut Seat<T>,
    number: SessionId,
    owner: SessionId,
    mode: LwMode,
)
    requires { IsSince (IsOnWay T.content
        (sought_of words.now.key words.now.table_id number (OfSlots owner) mode) 1) seat.old }
    ensures { TurnsInto (IsOnWay T.content
        (sought_of words.now.key words.now.table_id number (OfSlots owner) mode) 1)
        (GetsSlots T.content words.now.key.groups mode owner) seat.old seat.new }
{
    acquire_held(
        rt,
        seat,
        &SlotsLock {
            words,
            number,
            owner,
            mode,
        },
    )
}

/// The lock of the fast-path slots of `owner`, as a session that holds it exclusively releases it.
#[derive(Drop)]
pub(crate) struct SlotsTaken<'a, T: PartTable, M: Marking<T>> {
    pub(crate) words: &'a SharedWords<T>,
    pub(crate) owner: SessionId,
    pub(crate) of: PhantomData<M>,
}

impl<'a, T: PartTable, M: Marking<T>> Held<Seat<T>, ()> for SlotsTaken<'a, T, M> {
    ghost use Rattle.lw_word.specs.declared.words.LwMode.TheVariants.{Exclusive};
    ghost use Rattle.lock_world.specs.Account.{SlotsInHand};
    ghost use Rattle.lock_world.specs.AccountLaw.{MayPutFastBy};
    ghost use Rattle.lock_world.specs.AccountSteps.{account_putting_fast};
    ghost use Rattle.shared_rule.specs.declared.lw_locks.LwLock.TheVariants.{OfSlots};
    ghost use Rattle.shared_rule.specs.Marks.{PutFast};
    ghost use Rattle.shared_rule.specs.Plays.{account_at, number_at};
    ghost use Rattle.shared_rule.specs.Releases.{MayPutSlots, HasPut, HasReleased};

    ghost in_mode = { λ _. Exclusive };

    ghost may_put = { λ it seat _. MayPutSlots T.content it.words.now.key it.words.now.table_id it.owner
        (λ a. (slots : SlotsInHand) × MayPutFastBy a it.owner slots) M.mark (PutFast it.owner) seat };

    ghost due = { λ it before after _. HasPut T.content it.words.now.key it.words.now.table_id (OfSlots it.owner)
        Exclusive before after (account_putting_fast (number_at before) (account_at T.content before) it.owner)
        (side_of before).1 };

    ghost released = { λ it before after _. HasReleased T.content before after
        (account_putting_fast (number_at before) (account_at T.content before) it.owner) (side_of before).1 };

    #[inline(always)]
    fn mode(&self) -> LwMode {
        LwMode::Exclusive
    }

    #[inline(always)]
    fn put(&self, seat: &mut Seat<T>, _content: ()) -> u64 {
        put_fast_home::<T, M>(self.words, seat, self.owner)
    }

    #[inline(always)]
    fn wake_waiters(&self, seat: &mut Seat<T>) {
        wake_waiters(self.words, seat, &LwLock::OfSlots(self.owner));
    }
}

/// The lock of the fast-path slots of `owner`, as a session that holds it exclusively releases it and goes
/// past `owner` with the strong lock of `mode` on `tag`.
#[derive(Drop)]
pub(crate) struct SlotsPassed<'a, T: PartTable, M: Marking<T>> {
    pub(crate) words: &'a SharedWords<T>,
    pub(crate) owner: SessionId,
    pub(crate) tag: &'a Tag,
    pub(crate) mode: Mode,
    pub(crate) of: PhantomData<M>,
}

impl<'a, T: PartTable, M: Marking<T>> Held<Seat<T>, ()> for SlotsPassed<'a, T, M> {
    ghost use Rattle.lw_word.specs.declared.words.LwMode.TheVariants.{Exclusive};
    ghost use Rattle.lock_world.specs.Account.{SlotsInHand};
    ghost use Rattle.lock_world.specs.AccountLaw.{MayPassBy};
    ghost use Rattle.lock_world.specs.AccountSteps.{account_passing};
    ghost use Rattle.shared_rule.specs.declared.lw_locks.LwLock.TheVariants.{OfSlots};
    ghost use Rattle.shared_rule.specs.Marks.{Passed};
    ghost use Rattle.shared_rule.specs.Plays.{account_at, number_at};
    ghost use Rattle.shared_rule.specs.Releases.{MayPutSlots, HasPut, HasReleased};

    ghost in_mode = { λ _. Exclusive };

    ghost may_put = { λ it seat _. MayPutSlots T.content it.words.now.key it.words.now.table_id it.owner
        (λ a. (slots : SlotsInHand) × MayPassBy a it.owner slots it.tag.now it.mode) M.mark
        (Passed it.owner it.tag.now it.mode) seat };

    ghost due = { λ it before after _. HasPut T.content it.words.now.key it.words.now.table_id (OfSlots it.owner)
        Exclusive before after
        (account_passing (number_at before) (account_at T.content before) it.owner it.tag.now it.mode) (side_of before).1 };

    ghost released = { λ it before after _. HasReleased T.content before after
        (account_passing (number_at before) (account_at T.content before) it.owner it.tag.now it.mode) (side_of before).1 };

    #[inline(always)]
    fn mode(&self) -> LwMode {
        LwMode::Exclusive
    }

    #[inline(always)]
    fn put(&self, seat: &mut Seat<T>, _content: ()) -> u64 {
        pass_fast_home::<T, M>(self.words, seat, self.owner, self.tag, self.mode)
    }

    #[inline(always)]
    fn wake_waiters(&self, seat: &mut Seat<T>) {
        wake_waiters(self.words, seat, &LwLock::OfSlots(self.owner));
    }
}

/// The lock of the fast-path slots of `owner`, as a session that shares it gives its share back.
#[derive(Drop)]
pub(crate) struct SlotsShared<'a, T: PartTable, M: Marking<T>> {
    pub(crate) words: &'a SharedWords<T>,
    pub(crate) owner: SessionId,
    pub(crate) of: PhantomData<M>,
}

impl<'a, T: PartTable, M: Marking<T>> Held<Seat<T>, ()> for SlotsShared<'a, T, M> {
    ghost use Rattle.lw_word.specs.declared.words.LwMode.TheVariants.{Shared};
    ghost use Rattle.lock_world.specs.Account.{SlotsInHand};
    ghost use Rattle.lock_world.specs.AccountLaw.{MayUnshareFastBy};
    ghost use Rattle.lock_world.specs.AccountSteps.{account_unsharing_fast};
    ghost use Rattle.shared_rule.specs.declared.lw_locks.LwLock.TheVariants.{OfSlots};
    ghost use Rattle.shared_rule.specs.Marks.{UnsharedFast};
    ghost use Rattle.shared_rule.specs.Plays.{account_at};
    ghost use Rattle.shared_rule.specs.Releases.{MayPutSlots, HasPut, HasReleased};

    ghost in_mode = { λ _. Shared };

    ghost may_put = { λ it seat _. MayPutSlots T.content it.words.now.key it.words.now.table_id it.owner
        (λ a. (slots : SlotsInHand) × MayUnshareFastBy a it.owner slots) M.mark (UnsharedFast it.owner) seat };

    ghost due = { λ it before after _. HasPut T.content it.words.now.key it.words.now.table_id (OfSlots it.owner)
        Shared before after (account_unsharing_fast (account_at T.content before) it.owner) (side_of before).1 };

    ghost released = { λ it before after _. HasReleased T.content before after
        (account_unsharing_fast (account_at T.content before) it.owner) (side_of before).1 };

    #[inline(always)]
    fn mode(&self) -> LwMode {
        LwMode::Shared
    }

    #[inline(always)]
    fn put(&self, seat: &mut Seat<T>, _content: ()) -> u64 {
        unshare_fast_home::<T, M>(self.words, seat, self.owner)
    }

    #[inline(always)]
    fn wake_waiters(&self, seat: &mut Seat<T>) {
        wake_waiters(self.words, seat, &LwLock::OfSlots(self.owner));
    }
}
