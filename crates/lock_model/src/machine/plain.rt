use super::state::{CountedBy, FastPath, Lists, Sleeper, Words};
use lock_world::Word;
use lw_word::LwWord;
use modes_core::{Mode, ModeSet, SessionId, Tag};

/// Where a hold is recorded.
#[derive(Clone, Copy, PartialEq, Eq, PartialOrd, Ord)]
pub enum Spot {
    /// In the fast-path slot at this place, one of those of the hold's session.
    Slot(u8),
    /// In the lock table, not in a slot.
    Table,
}

/// A hold. Holds are ordered by session, then by the tag's numbers, then by the mode's number, and then by
/// their places: the fast-path slots by their places, and the lock table after them.
#[derive(Clone, Copy, PartialEq, Eq, PartialOrd, Ord)]
pub struct Hold {
    /// The session that has the hold.
    pub session: SessionId,
    /// The object of the hold.
    pub tag: Tag,
    /// The mode of the hold.
    pub mode: Mode,
    /// Where the hold is recorded.
    pub spot: Spot,
}

/// A wait in an object's queue, with the modes that its session held when it joined.
#[derive(Clone, Copy)]
pub struct QueuedWait {
    /// The session that waits.
    pub session: SessionId,
    /// The object that the session waits for.
    pub tag: Tag,
    /// The mode that the session waits for.
    pub mode: Mode,
    /// The modes of the object that the session held when it joined.
    pub held: ModeSet,
}

/// What a run of events leads to, as plain lists.
#[derive(Drop)]
pub struct Plain {
    pub(crate) holds: Vec<Hold>,
    pub(crate) waits: Vec<QueuedWait>,
    pub(crate) groups: u8,
    pub(crate) words: Words,
    pub(crate) fast_path: FastPath,
    pub(crate) counted: Vec<CountedBy>,
    pub(crate) lists: Lists,
}

impl Plain {
    ghost use Rattle.std.specs.Prelude.{◌≡◌, ◌*◌, ◌<◌, ◌≤◌};
    ghost use Rattle.lock_world.specs.declared.events.Word.TheVariants.{Slot, Strong};
    ghost use Rattle.lock_model.specs.Plain.{holds_of, listed_waits, listed_sleepers, groups_of, word_of};
    ghost use Rattle.lock_world.specs.SlotHolds.{group_size};
    ghost use Rattle.lock_world.specs.World.{WordExists};

    /// All holds, those in fast-path slots and those in the lock table, each once, with where it is recorded:
    /// by session, then by the tag's numbers, then by the mode's number, then by where they are recorded.
    pub fn holds(&self) -> &[Hold]
        ensures { result.now ≡ holds_of self.now }
    {
        self.holds.as_slice()
    }

    /// The waits, by tag, and those of one object in the order of its queue.
    pub fn waits(&self) -> &[QueuedWait]
        ensures { result.now ≡ listed_waits self.now }
    {
        self.waits.as_slice()
    }

    /// Which session waits for which lightweight lock, in the order of joining: those of one lock are its
    /// wait list.
    pub fn sleepers(&self) -> &[Sleeper]
        ensures { result.now ≡ listed_sleepers self.now }
    {
        self.lists.sleepers.as_slice()
    }

    /// What the strong lock counter at `index` shows, and 0 where there is no counter of this index: there
    /// are 1,024.
    pub fn counter(&self, index: u16) -> u64
        ensures shown { index < 1024 → result ≡ word_of self.now (Strong index) }
        ensures absent { 1024 ≤ index → result ≡ 0 }
    {
        self.word(Word::Strong(index))
    }

    /// What `word` shows, and 0 where there is no such word: there are 16 partitions, 16 fast-path slots a
    /// session in each group, and 1,024 strong lock counters. Words of a session numbered 64 or above show
    /// what they show at the opening, but for its wait word once it was asked to cancel.
    pub fn word(&self, word: Word) -> u64
        ensures shown { WordExists (groups_of self.now) word → result ≡ word_of self.now word }
        ensures absent { ¬ (WordExists (groups_of self.now) word) → result ≡ 0 }
    {
        match word {
            Word::Partition(partition) => {
                let index = usize::from(partition);
                if index < 16 {
                    self.words.partitions[index].number()
                } else {
                    0
                }
            }
            Word::Fast(session) => match self.words.fast.get(usize::from(session.number())) {
                Some(word) => word.number(),
                None => LwWord::opening().number(),
            },
            Word::Database(session) => {
                match self.fast_path.databases.get(usize::from(session.number())) {
                    Some(database) => u64::from(*database),
                    None => 0,
                }
            }
            Word::Slot(session, place) => self.slot(session, place),
            Word::Wait(session) => u64::from(self.words.waits[usize::from(session.number())]),
            Word::Strong(index) => self.counted_at(index),
            Word::Sleep(session) => match self.lists.sleep.get(usize::from(session.number())) {
                Some(shown) => u64::from(*shown),
                None => 0,
            },
        }
    }

    /// What the fast-path slot of `session` at `place` shows, and 0 where there is no such slot.
    fn slot(&self, session: SessionId, place: u8) -> u64
        ensures shown { place < group_size * groups_of self.now → result ≡ word_of self.now (Slot session place) }
        ensures absent { group_size * groups_of self.now ≤ place → result ≡ 0 }
    {
        let index = usize::from(place);
        if index < 16 * usize::from(self.groups) {
            let Some(row) = self.fast_path.slots.get(usize::from(session.number())) else {
                return 0;
            };
            match row.get(index) {
                Some(word) => word.number(),
                None => 0,
            }
        } else {
            0
        }
    }

    /// What the strong lock counter at `index` shows, and 0 where there is no counter of this index.
    fn counted_at(&self, index: u16) -> u64
        ensures shown { index < 1024 → result ≡ word_of self.now (Strong index) }
        ensures absent { 1024 ≤ index → result ≡ 0 }
    {
        if index < 1024 {
            self.counted
                .iter()
                .filter(|c| c.tag.strong_index() == index)
                .count() as u64
        } else {
            0
        }
    }
}
