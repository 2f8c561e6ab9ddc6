//! The lightweight locks of the table.

ghost use Rattle.std.specs.Prelude.{◌≡◌, ◌<◌, ℕ};
ghost use Rattle.atomic_table.specs.Seated.{TableId};
ghost use Rattle.shared_rule.specs.declared.rule.TableSizes.{TableSizes};
ghost use Rattle.shared_rule.specs.Layout.{index_of_word, list_shelf_of, IsSized};
ghost use Rattle.shared_rule.specs.LwLocks.{word_of_lock, lock_number, LockExists};

use crate::layout::{fast_word, list_shelf, partition_word};
use modes_core::SessionId;

/// A lightweight lock, with a word and a wait list of its own (`LWLock` in lwlock.h).
#[derive(Drop)]
pub(crate) enum LwLock {
    /// The lightweight lock of a partition (`LockHashPartitionLock` in lock.h).
    OfPart(u8),
    /// The lightweight lock of a session's fast-path slots (`fpInfoLock` in proc.h).
    OfSlots(SessionId),
}

impl LwLock {
    /// The index, in the table, of the word of the lightweight lock.
    pub(crate) fn word(&self) -> usize
        requires exists { (sessions : ℕ) × LockExists sessions self.now }
        ensures index { (sessions : ℕ) → result ≡ index_of_word sessions (word_of_lock self.now) }
        ensures within { (sizes : TableSizes) (table : TableId) → IsSized sizes table →
            LockExists sizes.sessions self.now → result < table.words }
    {
        match self {
            LwLock::OfPart(part) => partition_word(*part),
            LwLock::OfSlots(owner) => fast_word(*owner),
        }
    }

    /// The shelf on which the wait list of the lightweight lock lies while nobody has that list in hand.
    pub(crate) fn list_shelf(&self) -> usize
        requires exists { (sessions : ℕ) × LockExists sessions self.now }
        ensures shelf { result ≡ list_shelf_of (lock_number self.now) }
    {
        match self {
            LwLock::OfPart(part) => list_shelf(2 * *part as u16),
            LwLock::OfSlots(owner) => list_shelf(2 * owner.number() + 1),
        }
    }
}
