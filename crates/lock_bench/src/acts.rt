//! What a session does in a row, with which keys, and beside what.

use crate::floors::Floor;
use crate::keys::{FEW, FEW_OF_CROWD, IN_PARTITION, Keys, LISTED, NONE, ONE_OBJECT, WEAK};
use crate::plain::Plain;
use modes_core::Mode;

/// What a session does with each of its keys, over and over.
#[derive(Clone, Copy)]
pub enum Act {
    /// A relation is locked in a weak mode, by a slot, and unlocked.
    Weak,
    /// The relation is locked in a strong mode and unlocked.
    Strong,
    /// An object of one partition, of which others are held, is locked and unlocked.
    Object,
    /// The relation, which the session has already, is locked and unlocked.
    Held,
    /// A relation is asked for that another session has, and refused.
    RefusedRelation,
    /// An object is asked for that another session has, and refused.
    RefusedObject,
    /// A relation is asked for by a slot alone, and refused since another session has it in a strong mode.
    BySlot,
    /// The relation is locked. After all ten comes a commit. `Hundred` and `AllSlots` are the same with a
    /// hundred relations, and with 128.
    Ten,
    Hundred,
    AllSlots,
    /// The relation is locked. After all ten comes a commit, which alone is timed.
    Commit,
    /// All holds are listed, once for each key. For `ListHeld` 250 are held.
    List,
    ListHeld,
    /// Who is in the way of another session, which awaits the object, is asked.
    Blockers,
    /// An object is taken, with a wait where that must be, worked with, and released: one for all threads, or
    /// one of the thread's own in one partition.
    Hold,
    HoldOwn,
    /// The object is taken, and released as soon as the other session awaits it.
    Turns,
    /// An object is locked in a weak mode and unlocked: one for all threads, sixteen of the thread's own in
    /// one partition, or in a partition of its own.
    OneObject,
    OwnObjects,
    OwnPartition,
    /// One relation for all threads is locked in a weak mode, by a slot of the thread's session, and
    /// unlocked.
    OneRelation,
}

impl Act {
    /// What the act is called in a table.
    pub fn name(self) -> &'static str {
        match self {
            Act::Weak => "weak relation lock, by a slot",
            Act::Strong => "strong relation lock",
            Act::Object => "object lock",
            Act::Held => "held already",
            Act::RefusedRelation => "refused attempt, relation",
            Act::RefusedObject => "refused attempt, object",
            Act::BySlot => "refused try of a slot",
            Act::Ten => "ten relations and a commit, for each",
            Act::Hundred => "100 relations and a commit, for each",
            Act::AllSlots => "128 relations and a commit, for each",
            Act::Commit => "commit of ten, for each",
            Act::List => "listing of nothing",
            Act::ListHeld => "listings of 250 holds",
            Act::Blockers => "who is in the way of one waiter",
            Act::Hold => "one object",
            Act::HoldOwn => "own objects in one partition",
            Act::Turns => "an exclusive lock handed over",
            Act::OneObject => "one object for all",
            Act::OwnObjects => "own objects in one partition",
            Act::OwnPartition => "own objects in own partitions",
            Act::OneRelation => "one relation for all, by own slots",
        }
    }

    /// The keys of the session that is timed.
    pub fn keys(self) -> Keys {
        match self {
            Act::Weak => WEAK,
            Act::Strong => WEAK.in_mode(Mode::AccessExclusive),
            Act::Object => IN_PARTITION,
            Act::Held | Act::RefusedRelation | Act::BySlot => FEW,
            Act::RefusedObject => FEW_OF_CROWD,
            Act::Ten | Act::Commit | Act::List => FEW.after(100_000),
            Act::Hundred => FEW.after(100_000).first(100),
            Act::AllSlots => FEW.after(100_000).first(128),
            Act::OneObject => IN_PARTITION.first(1),
            Act::OwnObjects | Act::OwnPartition => IN_PARTITION.first(16),
            Act::OneRelation => WEAK.first(1),
            _ => ONE_OBJECT,
        }
    }

    /// How much higher the numbers of a thread's keys are than those of the thread before it.
    pub fn shift(self) -> u32 {
        match self {
            Act::HoldOwn => 16,
            Act::OwnObjects => 16_000,
            Act::OwnPartition => 16_001,
            _ => 0,
        }
    }

    /// What the session that is timed, or the first of several, holds throughout.
    pub fn held(self) -> Keys {
        match self {
            Act::Held => FEW,
            Act::Blockers => ONE_OBJECT,
            Act::ListHeld => LISTED,
            _ => NONE,
        }
    }

    /// What another session holds throughout: a crowd of `beside` objects of one partition, or a few
    /// relations.
    pub fn held_by_other(self, beside: u32) -> Keys {
        match self {
            Act::Object | Act::RefusedObject => FEW_OF_CROWD.first(beside),
            Act::RefusedRelation | Act::BySlot => FEW,
            _ => NONE,
        }
    }

    /// How many sessions act beside each other.
    pub fn threads(self) -> u32 {
        match self {
            Act::Blockers => 2,
            _ => 1,
        }
    }

    /// How many steps a round has, about.
    pub fn steps(self) -> u32 {
        match self {
            Act::Strong | Act::Commit => 10_000,
            Act::List => 2_000,
            Act::Blockers => 1_000,
            _ => 100_000,
        }
    }

    /// How many of its `steps` are granted, or find what they look for.
    pub fn granted(self, steps: u64) -> u64 {
        match self {
            Act::RefusedRelation | Act::RefusedObject => 0,
            _ => steps,
        }
    }

    /// What is timed beside the act: the empty loop that is taken off, its bare atomic steps, and the same
    /// work on a map in a mutex.
    pub fn compared(self) -> [Plain; 3] {
        let floor = match self {
            Act::Weak | Act::Ten | Act::Hundred | Act::AllSlots => Plain::Floor(Floor::Slot),
            Act::Strong => Plain::Floor(Floor::Strong),
            Act::Object => Plain::Floor(Floor::Table),
            Act::RefusedRelation => Plain::Floor(Floor::RefusedRelation),
            Act::RefusedObject => Plain::Floor(Floor::RefusedObject),
            Act::BySlot => Plain::Floor(Floor::RefusedSlot),
            _ => Plain::Nothing,
        };
        match self {
            Act::Weak | Act::Strong | Act::Object | Act::Held => {
                [Plain::TwoCalls, floor, Plain::MapPair]
            }
            Act::Ten | Act::Hundred | Act::AllSlots => [Plain::OneCall, floor, Plain::MapPair],
            Act::RefusedRelation | Act::RefusedObject | Act::BySlot => {
                [Plain::OneCall, floor, Plain::MapLookUp]
            }
            Act::Commit => [Plain::Readings, floor, Plain::MapCommit],
            _ => [Plain::Nothing, Plain::Nothing, Plain::Nothing],
        }
    }
}
