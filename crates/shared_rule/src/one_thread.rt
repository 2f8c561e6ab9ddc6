//! A board for tests: one session, session 0, at a table of its own.

ghost use Rattle.shared_rule.specs.Plays.{side_of};
ghost use Rattle.std.specs.Prelude.{◌≡◌, ◌<◌, ◌≤◌, ℕ, List, [], ◌∷◌, None, IfOk, IfErr};
ghost use Rattle.lock_world.specs.SlotHolds.{most_groups};
ghost use Rattle.shared_rule.specs.Layout.{IsSized};
ghost use Rattle.shared_rule.specs.History.{blank_account, first_account};
ghost use Rattle.shared_rule.specs.Opening.{AreNew};
ghost use Rattle.shared_rule.specs.Boards.{Seated, nothing_due, parts_in_hand, IsAtRest};
ghost use Rattle.shared_rule.specs.Owed.{first_owed};
ghost use Rattle.shared_rule.specs.Quiet.{first_quiet};
ghost use Rattle.modes_core.specs.Sessions.{most_sessions};

use crate::board::Board;
use crate::busy::Busy;
use crate::kept::Kept;
use crate::parks::park_waiting;
use crate::rule::{Seat, TableSizes};
use crate::table::{SharedTable, open};
use crate::{counters, locks, partitions, sharing, slots, waits};
use atomic_table::Refused;
use lock_table::{Move, PartTable};
use lw_word::SlotWord;
use modes_core::{Mode, SessionId, Tag};
use std::alloc::Global;
use std::marker::Brand;
use std::sync::Wait;

/// A table and the one seat at it. Each of its calls as a board is that of a `SeatBoard`, so code over any
/// board does on it what it does on a shared table.
#[derive(Drop)]
pub struct OneThread<T: PartTable> {
    table: SharedTable<T>,
    seat: Seat<T>,
    number: SessionId,
    sizes: TableSizes,
    ghost at: { seat.table_id ≡ table.shared.table_id },
    ghost fits: { IsSized sizes table.shared.table_id },
    ghost sized: { sizes ≡ table.shared.key },
    ghost exists: { number < sizes.sessions },
    ghost rests: { IsAtRest number (side_of seat).0 (side_of seat).1 },
}

impl<T: PartTable> OneThread<T> {
    /// Session 0 at a new table of `sizes`, with `parts` on its shelves. Where memory, by `alloc`, runs out
    /// `parts` come back.
    pub fn new(
        alloc: Global,
        sizes: &TableSizes,
        parts: Vec<Kept<T>>,
    ) -> Result<OneThread<T>, Refused<Kept<T>, Global>>
        requires some { 0 < sizes.now.sessions }
        requires few { sizes.now.sessions ≤ most_sessions }
        requires some_groups { 0 < sizes.now.groups }
        requires few_groups { sizes.now.groups ≤ most_groups }
        requires parts { AreNew T.content T.begun sizes.now.sessions parts.items }
        ensures blank { IfOk result (λ board. ⟦<OneThread<T> as Board<T>>⟧.view board ≡ blank_account) }
        ensures stack { IfOk result (λ board. ⟦<OneThread<T> as Board<T>>⟧.stack board ≡ nothing_due) }
        ensures quiet { IfOk result (λ board. ⟦<OneThread<T> as Board<T>>⟧.quiet board ≡ []) }
        ensures number { IfOk result (λ board. (⟦<OneThread<T> as Board<T>>⟧.seat board).number ≡ 0) }
        ensures limit { IfOk result (λ board. (⟦<OneThread<T> as Board<T>>⟧.seat board).limit ≡ sizes.now.sessions) }
        ensures groups { IfOk result (λ board. (⟦<OneThread<T> as Board<T>>⟧.seat board).groups ≡ sizes.now.groups) }
        ensures refused { IfErr result (λ refused. refused.slots.items ≡ parts.items) }
    {
        let number = SessionId::new(0).unwrap();
        let (table, opener) = open(alloc, sizes, parts)?;
        let seat = opener.into_first(&table.shared);
        Ok(OneThread {
            table,
            seat,
            number,
            sizes: *sizes,
        })
    }
}

impl<T: PartTable> Board<T> for OneThread<T> {
    ghost seat = { λ board.
        record {
          number = board.number;
          limit = board.sizes.sessions;
          groups = board.sizes.groups;
          table = board.table.shared.table_id;
        } };

    ghost view = { λ board. first_account T.content (side_of board.seat).0.sessions };

    ghost stack = { λ board.
        record { parts = parts_in_hand (side_of board.seat).1; owed = first_owed (side_of board.seat).0.sessions } };

    ghost quiet = { λ board. first_quiet (side_of board.seat).0.sessions };

    fn number(&self) -> SessionId {
        self.number
    }

    fn sessions(&self) -> u16 {
        self.sizes.sessions
    }

    fn groups(&self) -> u8 {
        self.sizes.groups
    }

    fn take_part<R: Wait>(&mut self, rt: &R, part: u8) -> T {
        let table = &self.table;
        partitions::take_part(rt, &table.shared, &mut self.seat, self.number, part)
    }

    fn put_part(&mut self, part: u8, done: &Move, content: T) {
        let table = &self.table;
        partitions::put_part::<T, Brand>(&table.shared, &mut self.seat, part, done, content);
    }

    fn take_fast<R: Wait>(&mut self, rt: &R, owner: SessionId) {
        let table = &self.table;
        locks::take_fast(rt, &table.shared, &mut self.seat, self.number, owner);
    }

    fn try_take_fast(&mut self) -> Result<(), Busy> {
        let table = &self.table;
        locks::try_take_fast(&table.shared, &mut self.seat, self.number)
    }

    fn put_fast(&mut self, owner: SessionId) {
        let table = &self.table;
        locks::put_fast::<T, Brand>(&table.shared, &mut self.seat, owner);
    }

    fn share_fast<R: Wait>(&mut self, rt: &R, owner: SessionId) {
        let table = &self.table;
        sharing::share_fast(rt, &table.shared, &mut self.seat, self.number, owner);
    }

    fn unshare_fast(&mut self, owner: SessionId) {
        let table = &self.table;
        sharing::unshare_fast::<T, Brand>(&table.shared, &mut self.seat, owner);
    }

    fn pass_fast(&mut self, owner: SessionId, tag: &Tag, mode: Mode) {
        let table = &self.table;
        locks::pass_fast::<T, Brand>(&table.shared, &mut self.seat, owner, tag, mode);
    }

    fn add_strong(&mut self, tag: &Tag, mode: Mode) {
        let table = &self.table;
        counters::add_strong::<T, Brand>(&table.shared, &mut self.seat, tag, mode);
    }

    fn sub_strong(&mut self, tag: &Tag, mode: Mode) {
        let table = &self.table;
        counters::sub_strong::<T, Brand>(&table.shared, &mut self.seat, tag, mode);
    }

    fn load_database(&mut self, owner: SessionId) -> u64 {
        let table = &self.table;
        slots::load_database::<T, Brand>(&table.shared, &mut self.seat, owner)
    }

    fn store_database(&mut self, database: u32) {
        let table = &self.table;
        slots::store_database::<T, Brand>(&table.shared, &mut self.seat, self.number, database);
    }

    fn load_slot(&mut self, owner: SessionId, slot: u8) -> SlotWord {
        let table = &self.table;
        slots::load_slot::<T, Brand>(
            &table.shared,
            &mut self.seat,
            self.sizes.sessions,
            owner,
            slot,
        )
    }

    fn load_strong(&mut self, index: u16) -> u64 {
        let table = &self.table;
        counters::load_strong::<T, Brand>(&table.shared, &mut self.seat, index)
    }

    fn set_slot(&mut self, slot: u8, shown: SlotWord, tag: &Tag, mode: Mode) {
        let table = &self.table;
        slots::set_slot::<T, Brand>(
            &table.shared,
            &mut self.seat,
            self.sizes.sessions,
            self.number,
            slot,
            shown,
            tag,
            mode,
        );
    }

    fn clear_slot(&mut self, slot: u8, shown: SlotWord, tag: &Tag, mode: Mode) {
        let table = &self.table;
        slots::clear_slot::<T, Brand>(
            &table.shared,
            &mut self.seat,
            self.sizes.sessions,
            self.number,
            slot,
            shown,
            tag,
            mode,
        );
    }

    fn transfer_slot(
        &mut self,
        owner: SessionId,
        slot: u8,
        shown: SlotWord,
        tag: &Tag,
        mode: Mode,
        strong: Mode,
        content: &T,
    ) {
        let table = &self.table;
        slots::transfer_slot::<T, Brand>(
            &table.shared,
            &mut self.seat,
            self.sizes.sessions,
            owner,
            slot,
            shown,
            tag,
            mode,
            strong,
            content,
        );
    }

    fn set_waiting(&mut self, tag: &Tag, mode: Mode, content: &T) {
        let table = &self.table;
        waits::set_waiting::<T, Brand>(
            &table.shared,
            &mut self.seat,
            self.number,
            tag,
            mode,
            content,
        );
    }

    fn mark_granted(
        &mut self,
        part: u8,
        other: SessionId,
        done: &Move,
        woken: &[(SessionId, Mode)],
        content: &T,
    ) {
        let table = &self.table;
        waits::mark_granted::<T, Brand>(
            &table.shared,
            &mut self.seat,
            part,
            other,
            done,
            woken,
            content,
        );
    }

    fn load_wait(&mut self) -> u64 {
        let table = &self.table;
        waits::load_wait::<T, Brand>(&table.shared, &mut self.seat, self.number)
    }

    fn ask_cancel(&mut self, other: SessionId) -> u64 {
        let table = &self.table;
        waits::ask_cancel::<T, Brand>(&table.shared, &mut self.seat, other)
    }

    fn clear_wait(&mut self) {
        let table = &self.table;
        waits::clear_wait::<T, Brand>(&table.shared, &mut self.seat, self.number);
    }

    fn leave_queue(&mut self, woken: &[(SessionId, Mode)], content: &T) {
        let table = &self.table;
        waits::leave_queue::<T, Brand>(&table.shared, &mut self.seat, self.number, woken, content);
    }

    fn sleep<R: Wait>(&mut self, rt: &R, shown: u64) {
        let table = &self.table;
        park_waiting::<T, Brand, R>(rt, &table.shared, &mut self.seat, self.number, shown);
    }

    fn wake(&mut self, other: SessionId) {
        let table = &self.table;
        waits::call_waiter::<T, Brand>(&table.shared, &mut self.seat, other);
    }
}
