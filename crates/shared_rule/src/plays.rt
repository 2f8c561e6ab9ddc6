//! What a step on the table tells the session that makes it.

use crate::history::{Mark, PlacedView};
use crate::kept::Kept;
use atomic_table::Play;
use lock_table::PartTable;
use std::marker::{Brand, PhantomData};

/// The mark that a step leaves in its session's history, as a function of the number that the step finds in
/// its word. Each call that makes a step picks the mark.
pub trait Marking<T> {
    ghost use Rattle.std.specs.Prelude.{ℕ};
    ghost use Rattle.shared_rule.specs.declared.history.Mark.{Mark};

    ghost mark: { ℕ → Mark T };
}

impl<T> Marking<T> for Brand {
    ghost use Rattle.shared_rule.specs.Marks.{PutFast};

    ghost mark = { λ _. PutFast 0 0 };
}

/// The sizes of the table, as a step on the table knows them. Each call that makes a step names them.
pub trait Sizing {
    ghost use Rattle.shared_rule.specs.declared.rule.TableSizes.{TableSizes};

    ghost sizes: { TableSizes };
}

impl Sizing for Brand {
    ghost sizes = { record { sessions = 0; groups = 0 } };
}

/// The mode in which a session comes for a lightweight lock, as a look at the lock's word knows it. Each call
/// that looks names the mode.
pub trait Seeking {
    ghost use Rattle.lw_word.specs.declared.words.LwMode.{LwMode};

    ghost mode: { LwMode };
}

impl Seeking for Brand {
    ghost use Rattle.lw_word.specs.declared.words.LwMode.TheVariants.{Exclusive};

    ghost mode = { Exclusive };
}

/// A step that leaves its mark.
pub struct Marks<M> {
    of: PhantomData<M>,
}

impl<T, M: Marking<T>> Play<Kept<T>, PlacedView<T>> for Marks<M> {
    ghost use Rattle.shared_rule.specs.Plays.{Unplaced, Marked};

    ghost then = { Unplaced (Marked M.mark) };
}

/// A step that leaves its mark and puts home the content in hand.
pub struct PutsHome<M> {
    of: PhantomData<M>,
}

impl<T, M: Marking<T>> Play<Kept<T>, PlacedView<T>> for PutsHome<M> {
    ghost use Rattle.shared_rule.specs.Plays.{Unplaced, WentHome};

    ghost then = { Unplaced (WentHome M.mark) };
}

/// An exchange that takes a partition in hand where it finds the number that it expects, and else changes
/// nothing.
pub struct TakesPart<G> {
    of: PhantomData<G>,
}

impl<T: PartTable, G: Sizing> Play<Kept<T>, PlacedView<T>> for TakesPart<G> {
    ghost use Rattle.shared_rule.specs.Plays.{Unplaced, TookPartition};

    ghost then = { Unplaced (TookPartition T.content T.begun G.sizes.sessions) };
}

/// A load or a fetch operation that leaves its mark, and shows what the session's account knows of the number
/// found.
pub struct Looks<M> {
    of: PhantomData<M>,
}

impl<T: PartTable, M: Marking<T>> Play<Kept<T>, PlacedView<T>> for Looks<M> {
    ghost use Rattle.shared_rule.specs.Plays.{Unplaced, Looked};

    ghost then = { Unplaced (Looked T.content M.mark) };
}

/// An exchange that takes the lock of a session's slots where it finds the number that it expects, and else
/// changes nothing.
pub struct TakesSlots<G> {
    of: PhantomData<G>,
}

impl<T: PartTable, G: Sizing> Play<Kept<T>, PlacedView<T>> for TakesSlots<G> {
    ghost use Rattle.shared_rule.specs.Plays.{Unplaced, TookSlotsOr, unnoted};

    ghost then = { Unplaced (TookSlotsOr T.content G.sizes.groups unnoted) };
}

/// An exchange that shares the lock of a session's slots where it finds the number that it expects, and else
/// changes nothing.
pub struct SharesSlots<G> {
    of: PhantomData<G>,
}

impl<T: PartTable, G: Sizing> Play<Kept<T>, PlacedView<T>> for SharesSlots<G> {
    ghost use Rattle.shared_rule.specs.Plays.{Unplaced, SharedSlotsOr, unnoted};

    ghost then = { Unplaced (SharedSlotsOr T.content G.sizes.groups unnoted) };
}

/// An exchange that takes the lock of the session's own slots, as `TakesSlots` does, where a lost exchange is
/// noted as a load of the word.
pub struct TriesSlots<G> {
    of: PhantomData<G>,
}

impl<T: PartTable, G: Sizing> Play<Kept<T>, PlacedView<T>> for TriesSlots<G> {
    ghost use Rattle.shared_rule.specs.Plays.{Unplaced, TookSlotsOr, noted_load};

    ghost then = { Unplaced (TookSlotsOr T.content G.sizes.groups noted_load) };
}

/// A fetch-or of a word's list bit that takes the wait list in hand where it finds the bit not set, and else
/// is noted as a look that saw the list locked.
pub struct LocksList<G> {
    of: PhantomData<G>,
}

impl<T: PartTable, G: Sizing> Play<Kept<T>, PlacedView<T>> for LocksList<G> {
    ghost use Rattle.shared_rule.specs.Plays.{Unplaced, LockedListOr};

    ghost then = { Unplaced (LockedListOr T.content G.sizes.sessions) };
}

/// A load of a lightweight word that is noted as a look where it shows somebody in the way of a mode, and
/// else changes nothing.
pub struct SeesHeld<W> {
    of: PhantomData<W>,
}

impl<T, W: Seeking> Play<Kept<T>, PlacedView<T>> for SeesHeld<W> {
    ghost use Rattle.shared_rule.specs.Plays.{Unplaced, SawHeldOr};

    ghost then = { Unplaced (SawHeldOr W.mode) };
}

/// A load that changes nothing, and shows the opener that each session that has closed was given out, and
/// closed once.
pub struct TellsClosed;

impl<T> Play<Kept<T>, PlacedView<T>> for TellsClosed {
    ghost use Rattle.shared_rule.specs.Plays.{Unplaced};
    ghost use Rattle.shared_rule.specs.Seats.{ToldClosed};

    ghost then = { Unplaced ToldClosed };
}

/// A load that changes nothing, and shows that no hold of a seat's first session conflicts with a hold of its
/// second one.
pub struct TellsApart;

impl<T: PartTable> Play<Kept<T>, PlacedView<T>> for TellsApart {
    ghost use Rattle.shared_rule.specs.Plays.{Unplaced};
    ghost use Rattle.shared_rule.specs.Seats.{ToldApart};

    ghost then = { Unplaced (ToldApart T.content) };
}

/// A load that leaves its mark, and shows what a seat at which all open sessions are gathered knows of the
/// number found.
pub struct LooksOver<M> {
    of: PhantomData<M>,
}

impl<T: PartTable, M: Marking<T>> Play<Kept<T>, PlacedView<T>> for LooksOver<M> {
    ghost use Rattle.shared_rule.specs.Plays.{Unplaced};
    ghost use Rattle.shared_rule.specs.Gatherings.{LookedOver};

    ghost then = { Unplaced (LookedOver T.content M.mark) };
}

/// A load that changes nothing, and shows a seat at which all open sessions are gathered who they are, and
/// where each one's own holds are.
pub struct TellsAll<G> {
    of: PhantomData<G>,
}

impl<T: PartTable, G: Sizing> Play<Kept<T>, PlacedView<T>> for TellsAll<G> {
    ghost use Rattle.shared_rule.specs.Plays.{Unplaced};
    ghost use Rattle.shared_rule.specs.Gatherings.{ToldAll};

    ghost then = { Unplaced (ToldAll T.content G.sizes.groups) };
}
