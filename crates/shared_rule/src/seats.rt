//! Seats that are cut in two and joined: a session opens and closes, and sessions meet at one seat. What each
//! does to the views is in specs/Seats.

ghost use Rattle.std.specs.Prelude.{◌≡◌, []};
ghost use Rattle.shared_rule.specs.History.{first_account};
ghost use Rattle.shared_rule.specs.Plays.{FitsTable, IsSameSeat, side_of};
ghost use Rattle.shared_rule.specs.Seats.{MayCloseBy, MayBeKeptApartBy, DoNotConflict, HaveTwoNumbers, HasNumber, HasNext, HasLast, IsForOne, IsForTwo};
ghost use Rattle.shared_rule.specs.Seats.{behind_of, opened, newcomer, with_closed, met, parted, handed_back, number_in};
ghost use Rattle.shared_rule.specs.Openers.{HaveClosed};
ghost use Rattle.shared_rule.specs.Boards.{IsFree};
ghost use Rattle.shared_rule.specs.Owed.{first_owed};
ghost use Rattle.shared_rule.specs.Todos.{first_todo, nothing_to_do};

use crate::history::PlacedView;
use crate::plays::{TellsApart, TellsClosed};
use crate::rule::{Seat, SharedWords};
use atomic_table::{Join, Split};
use lock_table::PartTable;

/// A session opens: the opener's seat gives it the next number, and a seat of its own.
struct Opens;

impl<T> Split<PlacedView<T>> for Opens {
    ghost use Rattle.shared_rule.specs.Places.{opened_in_place, newcomer_in_place};

    ghost left = { opened_in_place };

    ghost right = { newcomer_in_place };
}

/// A session closes: its seat goes to the opener's, which has its number as closed, with its history.
struct Closes;

impl<T> Join<PlacedView<T>> for Closes {
    ghost use Rattle.shared_rule.specs.Places.{with_closed_in_place, spent_in_place};

    ghost both = { with_closed_in_place };

    ghost spent = { spent_in_place };
}

/// A session is kept apart: its history joins those at another session's seat, as the last one.
struct KeepsApart;

impl<T> Join<PlacedView<T>> for KeepsApart {
    ghost use Rattle.shared_rule.specs.Places.{met_in_place, spent_in_place};

    ghost both = { met_in_place };

    ghost spent = { spent_in_place };
}

/// A session that was kept apart goes on by itself: a seat with its history comes back.
struct HandsBack;

impl<T> Split<PlacedView<T>> for HandsBack {
    ghost use Rattle.shared_rule.specs.Places.{parted_in_place, handed_back_in_place};

    ghost left = { parted_in_place };

    ghost right = { handed_back_in_place };
}

/// Opens a session at the seat `opener`, which gives it the next number (`InitProcess` in proc.c), and
/// answers its seat. The session has made no step yet.
pub(crate) fn open<T: PartTable>(words: &SharedWords<T>, opener: &mut Seat<T>) -> Seat<T>
    requires table { FitsTable opener.old words.now.key words.now.table_id }
    requires number { HasNumber (side_of opener.old).0 words.now.key.sessions }
    ensures same_seat { IsSameSeat opener.old opener.new }
    ensures opener { side_of opener.new ≡ (opened (side_of opener.old).0, (side_of opener.old).1) }
    ensures table { result.table_id ≡ opener.old.table_id }
    ensures session { side_of result ≡ (newcomer (side_of opener.old).0, []) }
{
    words.split_seat::<Opens>(opener)
}

/// Closes the session of the seat `session`, which has nothing any more, nothing to do for those who wait,
/// and nobody to wake: the seat `opener` has its number as closed (`ProcKill` in proc.c).
pub(crate) fn close<T: PartTable>(words: &SharedWords<T>, opener: &mut Seat<T>, session: Seat<T>)
    requires table { FitsTable opener.old words.now.key words.now.table_id }
    requires session_table { FitsTable session words.now.key words.now.table_id }
    requires opener { HasNext (side_of opener.old).0 }
    requires one { IsForOne (side_of session).0 }
    requires nothing_in_hand { (side_of session).1 ≡ [] }
    requires lawful { MayCloseBy (first_account T.content (side_of session).0.sessions) }
    requires todo { first_todo (side_of session).0.sessions ≡ nothing_to_do }
    requires wakes_nobody { first_owed (side_of session).0.sessions ≡ [] }
    ensures same_seat { IsSameSeat opener.old opener.new }
    ensures side { side_of opener.new ≡ (with_closed (side_of opener.old).0 (side_of session).0, (side_of opener.old).1) }
{
    words.join_seat::<Closes>(opener, session);
}

/// Shows the seat `opener` that each session that has closed was given out, and closed once. The call loads
/// one of `words`, and ignores what it finds.
pub(crate) fn tell_closed<T: PartTable>(words: &SharedWords<T>, opener: &mut Seat<T>)
    requires table { FitsTable opener.old words.now.key words.now.table_id }
    requires opener { HasNext (side_of opener.old).0 }
    ensures same_seat { IsSameSeat opener.old opener.new }
    ensures side { side_of opener.new ≡ (side_of opener.old) }
    ensures closed { HaveClosed (number_in (side_of opener.old).0.next) (side_of opener.old).0.closed }
{
    words.load::<TellsClosed>(opener, 0);
}

/// Keeps the session of the seat `other` apart, which holds no word, has nothing to do for those who wait,
/// and has nobody to wake: its history is after those at `seat`, for as long as the sessions meet.
pub(crate) fn keep_apart<T: PartTable>(words: &SharedWords<T>, seat: &mut Seat<T>, other: Seat<T>)
    requires table { FitsTable seat.old words.now.key words.now.table_id }
    requires other_table { FitsTable other words.now.key words.now.table_id }
    requires one { IsForOne (side_of other).0 }
    requires nothing_in_hand { (side_of other).1 ≡ [] }
    requires lawful { MayBeKeptApartBy (first_account T.content (side_of other).0.sessions) }
    requires free { IsFree (side_of other).0.sessions }
    ensures same_seat { IsSameSeat seat.old seat.new }
    ensures side { side_of seat.new ≡ (met (side_of seat.old).0 (side_of other).0, (side_of seat.old).1) }
{
    words.join_seat::<KeepsApart>(seat, other);
}

/// Takes the seat of the session that came last out of `seat`, by a step on `words`, and hands it back: it
/// goes on by itself.
pub(crate) fn hand_back<T: PartTable>(words: &SharedWords<T>, seat: &mut Seat<T>) -> Seat<T>
    requires table { FitsTable seat.old words.now.key words.now.table_id }
    requires last { HasLast (side_of seat.old).0 }
    ensures same_seat { IsSameSeat seat.old seat.new }
    ensures side { side_of seat.new ≡ (parted (side_of seat.old).0, (side_of seat.old).1) }
    ensures table { result.table_id ≡ seat.old.table_id }
    ensures other { side_of result ≡ (handed_back (side_of seat.old).0, []) }
{
    words.split_seat::<HandsBack>(seat)
}

/// Shows by `seat`, at which two sessions meet, that their numbers differ, and that no hold of the one
/// conflicts with a hold of the other on an object (`LockConflicts` in lock.c says which modes do). The call
/// loads one of `words`, and ignores what it finds.
pub(crate) fn tell_apart<T: PartTable>(words: &SharedWords<T>, seat: &mut Seat<T>)
    requires table { FitsTable seat.old words.now.key words.now.table_id }
    requires two { IsForTwo (side_of seat.old).0 }
    ensures same_seat { IsSameSeat seat.old seat.new }
    ensures side { side_of seat.new ≡ side_of seat.old }
    ensures numbers { HaveTwoNumbers (side_of seat.old).0.sessions }
    ensures apart { DoNotConflict (first_account T.content (side_of seat.old).0.sessions)
        (first_account T.content (behind_of (side_of seat.old).0.sessions)) }
{
    words.load::<TellsApart>(seat, 0);
}
