//! The board that threads run: a seat at the shared table.

ghost use Rattle.std.specs.Prelude.{◌≡◌, ◌≢◌, ◌<◌, ◌≤◌, ℕ, List, [], ◌∷◌, None};
ghost use Rattle.shared_rule.specs.Layout.{IsSized};
ghost use Rattle.shared_rule.specs.History.{first_account, lone};
ghost use Rattle.shared_rule.specs.Plays.{side_of, FitsTable};
ghost use Rattle.shared_rule.specs.Seats.{DoNotConflict, MayBeKeptApartBy};
ghost use Rattle.shared_rule.specs.Boards.{Seated, nothing_due, parts_in_hand, first_marks, IsIdle, IsAtRest};
ghost use Rattle.shared_rule.specs.Owed.{first_owed};
ghost use Rattle.shared_rule.specs.Quiet.{first_quiet};

use crate::board::Board;
use crate::busy::Busy;
use crate::parks::park_waiting;
use crate::rule::{Seat, SharedWords, TableSizes};
use crate::{counters, locks, partitions, seats, sharing, slots, waits};
use lock_table::{Move, PartTable};
use lw_word::SlotWord;
use modes_core::{Mode, SessionId, Tag};
use std::marker::Brand;
use std::sync::Wait;

/// A session's seat at the table that all sessions share. It is not `Drop`, so that nobody lets one go, which
/// would leave its session open for ever.
pub struct SeatBoard<'a, T: PartTable> {
    table: &'a SharedWords<T>,
    seat: Seat<T>,
    number: SessionId,
    sizes: TableSizes,
    ghost at: { seat.table_id ≡ table.now.table_id },
    ghost fits: { IsSized sizes table.now.table_id },
    ghost sized: { sizes ≡ table.now.key },
    ghost exists: { number < sizes.sessions },
    ghost rests: { IsAtRest number (side_of seat).0 (side_of seat).1 },
}

impl<'a, T: PartTable> SeatBoard<'a, T> {
    // The board of the session with this number, at its seat.
    pub(crate) fn at(
        table: &'a SharedWords<T>,
        seat: Seat<T>,
        number: SessionId,
        sizes: TableSizes,
    ) -> SeatBoard<'a, T>
        requires table { FitsTable seat table.now.key table.now.table_id }
        requires sized { sizes ≡ table.now.key }
        requires exists { number < sizes.sessions }
        requires lone { (side_of seat).0 ≡ lone number (first_marks (side_of seat).0.sessions) }
        requires out { (side_of seat).1 ≡ [] }
        requires idle { IsIdle (side_of seat).0.sessions }
        ensures { (result.table.now ≡ table.now) × (result.seat ≡ seat) × (result.number ≡ number)
            × (result.sizes ≡ sizes) }
    {
        SeatBoard {
            table,
            seat,
            number,
            sizes,
        }
    }

    /// Has the board's session meet `other`, a session of the same table, whose board comes back: the two
    /// have different numbers, and no hold of the one conflicts with a hold of the other on an object. The
    /// accounts of both are as before.
    pub fn meet(&mut self, other: SeatBoard<'a, T>) -> SeatBoard<'a, T>
        requires table { (⟦<SeatBoard<'a, T> as Board<T>>⟧.seat other).table
            ≡ (⟦<SeatBoard<'a, T> as Board<T>>⟧.seat self.old).table }
        requires stack { ⟦<SeatBoard<'a, T> as Board<T>>⟧.stack other ≡ nothing_due }
        requires no_word { MayBeKeptApartBy (⟦<SeatBoard<'a, T> as Board<T>>⟧.view other) }
        ensures apart { (⟦<SeatBoard<'a, T> as Board<T>>⟧.seat self.old).number
            ≢ (⟦<SeatBoard<'a, T> as Board<T>>⟧.seat other.entry).number }
        ensures told { DoNotConflict (⟦<SeatBoard<'a, T> as Board<T>>⟧.view self.old)
            (⟦<SeatBoard<'a, T> as Board<T>>⟧.view other.entry) }
        ensures view { ⟦<SeatBoard<'a, T> as Board<T>>⟧.view self.new
            ≡ ⟦<SeatBoard<'a, T> as Board<T>>⟧.view self.old }
        ensures stack { ⟦<SeatBoard<'a, T> as Board<T>>⟧.stack self.new
            ≡ ⟦<SeatBoard<'a, T> as Board<T>>⟧.stack self.old }
        ensures seat { ⟦<SeatBoard<'a, T> as Board<T>>⟧.seat self.new
            ≡ ⟦<SeatBoard<'a, T> as Board<T>>⟧.seat self.old }
        ensures quiet { ⟦<SeatBoard<'a, T> as Board<T>>⟧.quiet self.new
            ≡ ⟦<SeatBoard<'a, T> as Board<T>>⟧.quiet self.old }
        ensures its_view { ⟦<SeatBoard<'a, T> as Board<T>>⟧.view result
            ≡ ⟦<SeatBoard<'a, T> as Board<T>>⟧.view other.entry }
        ensures its_stack { ⟦<SeatBoard<'a, T> as Board<T>>⟧.stack result ≡ nothing_due }
        ensures its_quiet { ⟦<SeatBoard<'a, T> as Board<T>>⟧.quiet result
            ≡ ⟦<SeatBoard<'a, T> as Board<T>>⟧.quiet other.entry }
        ensures its_seat { ⟦<SeatBoard<'a, T> as Board<T>>⟧.seat result
            ≡ ⟦<SeatBoard<'a, T> as Board<T>>⟧.seat other.entry }
    {
        let SeatBoard {
            table,
            seat,
            number,
            sizes,
        } = other;
        seats::keep_apart(self.table, &mut self.seat, seat);
        seats::tell_apart(self.table, &mut self.seat);
        let seat = seats::hand_back(self.table, &mut self.seat);
        SeatBoard {
            table,
            seat,
            number,
            sizes,
        }
    }

    // For how many sessions its table is, and how many groups of slots each has.
    pub(crate) fn sizes(&self) -> TableSizes
        ensures { result ≡ self.now.sizes }
    {
        self.sizes
    }

    // Its table and its seat.
    pub(crate) fn into_seat(self) -> (&'a SharedWords<T>, Seat<T>)
        ensures { (result.0.now ≡ self.entry.table.now) × (result.1 ≡ self.entry.seat) }
    {
        let SeatBoard {
            table,
            seat,
            number: _,
            sizes: _,
        } = self;
        (table, seat)
    }
}

impl<'a, T: PartTable> Board<T> for SeatBoard<'a, T> {
    ghost seat = { λ board.
        record {
          number = board.number;
          limit = board.sizes.sessions;
          groups = board.sizes.groups;
          table = board.table.now.table_id;
        } };

    ghost view = { λ board. first_account T.content (side_of board.seat).0.sessions };

    ghost stack = { λ board.
        record { parts = parts_in_hand (side_of board.seat).1; owed = first_owed (side_of board.seat).0.sessions } };

    ghost quiet = { λ board. first_quiet (side_of board.seat).0.sessions };

    fn number(&self) -> SessionId {
        self.number
    }

    fn sessions(&self) -> u16 {
        self.sizes.sessions
    }

    fn groups(&self) -> u8 {
        self.sizes.groups
    }

    #[inline(always)]
    fn take_part<R: Wait>(&mut self, rt: &R, part: u8) -> T {
        partitions::take_part(rt, self.table, &mut self.seat, self.number, part)
    }

    fn put_part(&mut self, part: u8, done: &Move, content: T) {
        partitions::put_part::<T, Brand>(self.table, &mut self.seat, part, done, content);
    }

    #[inline(always)]
    fn take_fast<R: Wait>(&mut self, rt: &R, owner: SessionId) {
        locks::take_fast(rt, self.table, &mut self.seat, self.number, owner);
    }

    fn try_take_fast(&mut self) -> Result<(), Busy> {
        locks::try_take_fast(self.table, &mut self.seat, self.number)
    }

    fn put_fast(&mut self, owner: SessionId) {
        locks::put_fast::<T, Brand>(self.table, &mut self.seat, owner);
    }

    #[inline(always)]
    fn share_fast<R: Wait>(&mut self, rt: &R, owner: SessionId) {
        sharing::share_fast(rt, self.table, &mut self.seat, self.number, owner);
    }

    fn unshare_fast(&mut self, owner: SessionId) {
        sharing::unshare_fast::<T, Brand>(self.table, &mut self.seat, owner);
    }

    fn pass_fast(&mut self, owner: SessionId, tag: &Tag, mode: Mode) {
        locks::pass_fast::<T, Brand>(self.table, &mut self.seat, owner, tag, mode);
    }

    fn add_strong(&mut self, tag: &Tag, mode: Mode) {
        counters::add_strong::<T, Brand>(self.table, &mut self.seat, tag, mode);
    }

    fn sub_strong(&mut self, tag: &Tag, mode: Mode) {
        counters::sub_strong::<T, Brand>(self.table, &mut self.seat, tag, mode);
    }

    fn load_database(&mut self, owner: SessionId) -> u64 {
        slots::load_database::<T, Brand>(self.table, &mut self.seat, owner)
    }

    fn store_database(&mut self, database: u32) {
        slots::store_database::<T, Brand>(self.table, &mut self.seat, self.number, database);
    }

    fn load_slot(&mut self, owner: SessionId, slot: u8) -> SlotWord {
        slots::load_slot::<T, Brand>(self.table, &mut self.seat, self.sizes.sessions, owner, slot)
    }

    fn load_strong(&mut self, index: u16) -> u64 {
        counters::load_strong::<T, Brand>(self.table, &mut self.seat, index)
    }

    fn set_slot(&mut self, slot: u8, shown: SlotWord, tag: &Tag, mode: Mode) {
        slots::set_slot::<T, Brand>(
            self.table,
            &mut self.seat,
            self.sizes.sessions,
            self.number,
            slot,
            shown,
            tag,
            mode,
        );
    }

    fn clear_slot(&mut self, slot: u8, shown: SlotWord, tag: &Tag, mode: Mode) {
        slots::clear_slot::<T, Brand>(
            self.table,
            &mut self.seat,
            self.sizes.sessions,
            self.number,
            slot,
            shown,
            tag,
            mode,
        );
    }

    fn transfer_slot(
        &mut self,
        owner: SessionId,
        slot: u8,
        shown: SlotWord,
        tag: &Tag,
        mode: Mode,
        strong: Mode,
        content: &T,
    ) {
        slots::transfer_slot::<T, Brand>(
            self.table,
            &mut self.seat,
            self.sizes.sessions,
            owner,
            slot,
            shown,
            tag,
            mode,
            strong,
            content,
        );
    }

    fn set_waiting(&mut self, tag: &Tag, mode: Mode, content: &T) {
        waits::set_waiting::<T, Brand>(self.table, &mut self.seat, self.number, tag, mode, content);
    }

    fn mark_granted(
        &mut self,
        part: u8,
        other: SessionId,
        done: &Move,
        woken: &[(SessionId, Mode)],
        content: &T,
    ) {
        waits::mark_granted::<T, Brand>(
            self.table,
            &mut self.seat,
            part,
            other,
            done,
            woken,
            content,
        );
    }

    fn load_wait(&mut self) -> u64 {
        waits::load_wait::<T, Brand>(self.table, &mut self.seat, self.number)
    }

    fn ask_cancel(&mut self, other: SessionId) -> u64 {
        waits::ask_cancel::<T, Brand>(self.table, &mut self.seat, other)
    }

    fn clear_wait(&mut self) {
        waits::clear_wait::<T, Brand>(self.table, &mut self.seat, self.number);
    }

    fn leave_queue(&mut self, woken: &[(SessionId, Mode)], content: &T) {
        waits::leave_queue::<T, Brand>(self.table, &mut self.seat, self.number, woken, content);
    }

    fn sleep<R: Wait>(&mut self, rt: &R, shown: u64) {
        park_waiting::<T, Brand, R>(rt, self.table, &mut self.seat, self.number, shown);
    }

    fn wake(&mut self, other: SessionId) {
        waits::call_waiter::<T, Brand>(self.table, &mut self.seat, other);
    }
}
