//! The opener, who gives out session numbers and takes closed sessions back.

ghost use Rattle.std.specs.Prelude.{◌≡◌, ◌<◌, ◌≤◌, ◌+◌, ◌↔◌, List, [], ◌∷◌, IfSome, IfNone, IsNone, OnSome};
ghost use Rattle.shared_rule.specs.History.{blank_account, lone, opening_view};
ghost use Rattle.shared_rule.specs.Boards.{nothing_due};
ghost use Rattle.shared_rule.specs.Layout.{IsSized};
ghost use Rattle.shared_rule.specs.Plays.{side_of, FitsTable};
ghost use Rattle.shared_rule.specs.Openers.{HaveClosed, HasTakenBack};
ghost use Rattle.shared_rule.specs.Seats.{MayCloseBy};
ghost use Rattle.shared_rule.specs.declared.history.History.{History};
ghost use Rattle.shared_rule.specs.Quiet.{quiet_told};
ghost use Rattle.modes_core.specs.Sessions.{most_sessions};

use crate::board::Board;
use crate::rule::{Seat, SharedWords, TableSizes};
use crate::seat_board::SeatBoard;
use crate::seats;
use lock_table::PartTable;
use modes_core::SessionId;
use std::marker::Model;

/// Gives out session numbers, each once, in rising order (`InitProcess` in proc.c). Contracts see at which
/// table the opener is, how many numbers it has given out, how many there can be, the histories of the
/// sessions that have closed, and which sessions are gathered at its seat.
#[derive(Drop)]
pub struct SeatOpener<T: PartTable> {
    pub(crate) seat: Seat<T>,
    issued: u16,
    pub(crate) sizes: TableSizes,
}

impl<T: PartTable> Model for SeatOpener<T> {
    ghost use Rattle.std.specs.Prelude.{◌≡◌, ◌≤◌, Some};
    ghost use Rattle.shared_rule.specs.Boards.{AreFree};
    ghost use Rattle.shared_rule.specs.Plays.{side_of};
    ghost use Rattle.shared_rule.specs.Openers.{OpenerState};
    ghost use Rattle.shared_rule.specs.Layout.{IsSized};
    ghost use Rattle.modes_core.specs.Sessions.{most_sessions};

    ghost Value = { OpenerState T };

    ghost view = { λ opener. record {
      table = opener.seat.table_id;
      issued = opener.issued;
      limit = opener.sizes.sessions;
      groups = opener.sizes.groups;
      closed = (side_of opener.seat).0.closed;
      gathered = (side_of opener.seat).0.sessions;
    } };

    ghost invariant = { λ opener.
        ((side_of opener.seat).0.next ≡ Some opener.issued) × (opener.issued ≤ opener.sizes.sessions)
        × (opener.sizes.sessions ≤ most_sessions) × IsSized opener.sizes opener.seat.table_id
        × AreFree (side_of opener.seat).0.sessions };
}

impl<T: PartTable> SeatOpener<T> {
    // The opener at its seat, who has given no number out.
    pub(crate) fn at(seat: Seat<T>, sizes: &TableSizes) -> SeatOpener<T>
        requires first { side_of seat ≡ (opening_view, []) }
        requires sized { IsSized sizes.now seat.table_id }
        requires few { sizes.now.sessions ≤ most_sessions }
        ensures { result ≡ record {
          table = seat.table_id;
          issued = 0;
          limit = sizes.now.sessions;
          groups = sizes.now.groups;
          closed = [];
          gathered = [];
        } }
    {
        SeatOpener {
            seat,
            issued: 0,
            sizes: *sizes,
        }
    }

    // The first session's seat, after which no other number is given out.
    pub(crate) fn into_first(self, table: &SharedWords<T>) -> Seat<T>
        requires table { (self.table ≡ table.now.table_id) × (self.limit ≡ table.now.key.sessions)
            × (self.groups ≡ table.now.key.groups) }
        requires first { self.issued ≡ 0 }
        requires some { 0 < self.limit }
        ensures table { FitsTable result table.now.key table.now.table_id }
        ensures side { side_of result ≡ (lone 0 [], []) }
    {
        let SeatOpener {
            mut seat,
            issued: _,
            sizes: _,
        } = self;
        seats::open(table, &mut seat)
    }

    /// The next session's board at `table`, whose account has nothing in it, or `None` where all numbers are
    /// given out.
    pub fn session<'a>(&mut self, table: &'a SharedWords<T>) -> Option<SeatBoard<'a, T>>
        requires table { (self.old.table ≡ table.now.table_id) × (self.old.limit ≡ table.now.key.sessions)
            × (self.old.groups ≡ table.now.key.groups) }
        ensures none { IsNone result ↔ (self.old.issued ≡ self.old.limit) }
        ensures unchanged { IfNone result (self.new ≡ self.old) }
        ensures opener { (self.new.table ≡ self.old.table) × (self.new.limit ≡ self.old.limit)
            × (self.new.groups ≡ self.old.groups) × (self.new.closed ≡ self.old.closed)
            × (self.new.gathered ≡ self.old.gathered) }
        ensures issued { OnSome result (self.new.issued ≡ self.old.issued + 1) }
        ensures blank { IfSome result (λ board. ⟦<SeatBoard<'a, T> as Board<T>>⟧.view board ≡ blank_account) }
        ensures stack { IfSome result (λ board. ⟦<SeatBoard<'a, T> as Board<T>>⟧.stack board ≡ nothing_due) }
        ensures quiet { IfSome result (λ board. ⟦<SeatBoard<'a, T> as Board<T>>⟧.quiet board ≡ []) }
        ensures seat { IfSome result (λ board. ⟦<SeatBoard<'a, T> as Board<T>>⟧.seat board
            ≡ record {
              number = self.old.issued;
              limit = self.old.limit;
              groups = self.old.groups;
              table = self.old.table;
            }) }
    {
        if self.issued == self.sizes.sessions {
            return None;
        }
        let number = SessionId::new(self.issued)?;
        let seat = seats::open(table, &mut self.seat);
        self.issued += 1;
        Some(SeatBoard::at(table, seat, number, self.sizes))
    }

    /// Takes back `board`, that of a session which has nothing any more (`ProcKill` in proc.c). Its number is
    /// that of a closed session from then on, with all that it did, and all else of the opener is as before.
    /// Each session that has closed was given out, and none has closed twice.
    pub fn close<'a>(&mut self, board: SeatBoard<'a, T>)
        requires table { (⟦<SeatBoard<'a, T> as Board<T>>⟧.seat board).table ≡ self.old.table }
        requires stack { ⟦<SeatBoard<'a, T> as Board<T>>⟧.stack board ≡ nothing_due }
        requires lawful { MayCloseBy (⟦<SeatBoard<'a, T> as Board<T>>⟧.view board) }
        ensures closed { let B = ⟦<SeatBoard<'a, T> as Board<T>>⟧ in
            HasTakenBack T.content (B.seat board.entry).number (B.view board.entry).trace self.old self.new }
        ensures quiet { let B = ⟦<SeatBoard<'a, T> as Board<T>>⟧ in (last : History T) (others : List (History T)) →
            self.new.closed ≡ last ∷ others → quiet_told last.marks ≡ B.quiet board.entry }
        ensures have_closed { HaveClosed self.new.issued self.new.closed }
    {
        let (table, seat) = board.into_seat();
        seats::close(table, &mut self.seat, seat);
        seats::tell_closed(table, &mut self.seat);
    }
}
