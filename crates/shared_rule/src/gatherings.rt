//! Sessions gathered at the opener's seat, and sent back. While a session is there it makes no step of its
//! own; the first to come is the one that makes steps.

ghost use Rattle.std.specs.Prelude.{◌≡◌, ◌++◌, List, [], ◌∷◌};
ghost use Rattle.shared_rule.specs.Boards.{nothing_due, Seated};
ghost use Rattle.shared_rule.specs.declared.history.History.{History};
ghost use Rattle.shared_rule.specs.History.{told};
ghost use Rattle.shared_rule.specs.Openers.{HasGathered, HasLastOf};
ghost use Rattle.shared_rule.specs.Quiet.{quiet_told};
ghost use Rattle.shared_rule.specs.Seats.{MayBeKeptApartBy};

use crate::board::Board;
use crate::opener::SeatOpener;
use crate::rule::{SharedWords, TableSizes};
use crate::seat_board::SeatBoard;
use crate::seats;
use lock_table::PartTable;
use modes_core::SessionId;
use std::marker::Model;

/// A session whose seat is gathered at the opener's: what is left of its board. It is not `Drop`, so that
/// nobody lets one go, which would leave its session at the opener's seat for ever. Contracts see which
/// session it is of, and at which table.
pub struct Absent<'a, T: PartTable> {
    table: &'a SharedWords<T>,
    number: SessionId,
    sizes: TableSizes,
}

impl<'a, T: PartTable> Model for Absent<'a, T> {
    ghost use Rattle.std.specs.Prelude.{◌≡◌, ◌<◌};
    ghost use Rattle.shared_rule.specs.Boards.{Seated};
    ghost use Rattle.shared_rule.specs.Layout.{IsSized};

    ghost Value = { Seated };

    ghost view = { λ absent.
        record {
          number = absent.number;
          limit = absent.sizes.sessions;
          groups = absent.sizes.groups;
          table = absent.table.now.table_id;
        } };

    ghost invariant = { λ absent. IsSized absent.sizes absent.table.now.table_id × (absent.sizes ≡ absent.table.now.key)
        × (absent.number < absent.sizes.sessions) };
}

impl<T: PartTable> SeatOpener<T> {
    /// Gathers the session of `board`, which has nothing in hand: its seat joins the opener's, after the
    /// sessions gathered before.
    pub fn gather<'a>(&mut self, board: SeatBoard<'a, T>) -> Absent<'a, T>
        requires table { (⟦<SeatBoard<'a, T> as Board<T>>⟧.seat board).table ≡ self.old.table }
        requires stack { ⟦<SeatBoard<'a, T> as Board<T>>⟧.stack board ≡ nothing_due }
        requires no_word { MayBeKeptApartBy (⟦<SeatBoard<'a, T> as Board<T>>⟧.view board) }
        ensures absent { result ≡ ⟦<SeatBoard<'a, T> as Board<T>>⟧.seat board.entry }
        ensures gathered { let B = ⟦<SeatBoard<'a, T> as Board<T>>⟧ in
            HasGathered T.content (B.seat board.entry).number (B.view board.entry) (B.quiet board.entry)
            self.old self.new }
    {
        let number = board.number();
        let sizes = board.sizes();
        let (table, seat) = board.into_seat();
        seats::keep_apart(table, &mut self.seat, seat);
        Absent {
            table,
            number,
            sizes,
        }
    }

    /// Gives the session that was gathered last, that of `absent`, its seat back, and answers its board.
    pub fn send_back<'a>(&mut self, absent: Absent<'a, T>) -> SeatBoard<'a, T>
        requires table { absent.table ≡ self.old.table }
        requires last { HasLastOf absent.number self.old }
        ensures seat { ⟦<SeatBoard<'a, T> as Board<T>>⟧.seat result ≡ absent.entry }
        ensures stack { ⟦<SeatBoard<'a, T> as Board<T>>⟧.stack result ≡ nothing_due }
        ensures left { (before : List (History T)) (last : History T) → self.old.gathered ≡ before ++ last ∷ []
            → (self.new ≡ record (self.old) { gathered = before })
            × (⟦<SeatBoard<'a, T> as Board<T>>⟧.view result ≡ told T.content last.number last.marks) }
        ensures quiet { (before : List (History T)) (last : History T) → self.old.gathered ≡ before ++ last ∷ []
            → ⟦<SeatBoard<'a, T> as Board<T>>⟧.quiet result ≡ quiet_told last.marks }
    {
        let Absent {
            table,
            number,
            sizes,
        } = absent;
        let seat = seats::hand_back(table, &mut self.seat);
        SeatBoard::at(table, seat, number, sizes)
    }
}
