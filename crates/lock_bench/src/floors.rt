//! The floors of the lock manager's ways: the atomic steps that a way has, on plain words, and nothing else.

use crossbeam_utils::CachePadded;
use std::alloc::{AllocError, Global};
use std::array;
use std::sync::atomic::{AtomicU64, Ordering};

/// What an exclusive holder adds to the word of a lightweight lock.
const TAKEN: u64 = 16_777_216;

/// The ways whose atomic steps are made.
#[derive(Clone, Copy)]
pub enum Floor {
    /// A weak mode is taken by a fast-path slot and given back.
    Slot,
    /// A try of a fast-path slot finds a strong lock counted.
    RefusedSlot,
    /// A strong mode is taken, past every session, and given back.
    Strong,
    /// A mode is taken in the lock table and given back.
    Table,
    /// An attempt on an object is refused.
    RefusedObject,
    /// A weak mode finds a strong lock counted, so that no fast-path slot may have it, and the partition
    /// refuses it.
    RefusedRelation,
}

/// A session's words: the lightweight lock of its fast-path slots, its database, and the slots.
#[derive(Drop)]
struct SessionWords {
    fast: AtomicU64,
    database: AtomicU64,
    slots: [AtomicU64; 16],
}

/// The words of a strong lock counter, of a partition, and of as many sessions as there can be, 128 bytes
/// apart at least.
#[derive(Drop)]
pub struct Words {
    counter: CachePadded<AtomicU64>,
    partition: CachePadded<AtomicU64>,
    own: CachePadded<SessionWords>,
    sessions: Vec<CachePadded<SessionWords>>,
}

/// Takes the lightweight lock whose word is `word`, by one try.
fn take(word: &AtomicU64) {
    let shown = word.load(Ordering::SeqCst);
    let taken = shown.wrapping_add(TAKEN);
    let _ = word.compare_exchange(shown, taken, Ordering::SeqCst, Ordering::SeqCst);
}

/// Gives the lightweight lock whose word is `word` back.
fn put(word: &AtomicU64) {
    word.fetch_sub(TAKEN, Ordering::SeqCst);
}

impl SessionWords {
    /// The words of a session that has no slot in use.
    fn new() -> Self {
        SessionWords {
            fast: AtomicU64::new(0),
            database: AtomicU64::new(5),
            slots: array::from_fn(|_| AtomicU64::new(0)),
        }
    }
}

impl Words {
    /// Words for `sessions` sessions. Refused only where memory, by `alloc`, ran out.
    pub fn new(alloc: Global, sessions: u32) -> Result<Self, AllocError> {
        let mut words = Words {
            counter: CachePadded::new(AtomicU64::new(0)),
            partition: CachePadded::new(AtomicU64::new(0)),
            own: CachePadded::new(SessionWords::new()),
            sessions: Vec::new(alloc),
        };
        for _ in 0..sessions {
            words.sessions.push(CachePadded::new(SessionWords::new()))?;
        }
        Ok(words)
    }

    /// Takes a weak mode by a slot: loads the highest-numbered one, whose word becomes `number`.
    #[inline(never)]
    fn take_by_slot(&self, number: u64) {
        take(&self.own.fast);
        self.counter.load(Ordering::SeqCst);
        self.own.slots[15].load(Ordering::SeqCst);
        self.own.slots[15].store(number, Ordering::SeqCst);
        put(&self.own.fast);
    }

    /// Gives a weak mode back out of its slot, past all sixteen.
    #[inline(never)]
    fn give_by_slot(&self) {
        take(&self.own.fast);
        for slot in &self.own.slots {
            slot.load(Ordering::SeqCst);
        }
        self.own.slots[15].store(0, Ordering::SeqCst);
        put(&self.own.fast);
    }

    /// Finds a strong lock counted.
    #[inline(never)]
    fn find_counted(&self) {
        take(&self.own.fast);
        self.counter.load(Ordering::SeqCst);
        put(&self.own.fast);
    }

    /// Takes the lightweight lock of a partition and gives it back, once.
    #[inline(never)]
    fn pass_partition(&self) {
        take(&self.partition);
        put(&self.partition);
    }

    /// Takes a strong mode, past every session.
    #[inline(never)]
    fn take_strong(&self) {
        self.counter.fetch_add(1, Ordering::SeqCst);
        for session in &self.sessions {
            take(&session.fast);
            session.database.load(Ordering::SeqCst);
            put(&session.fast);
        }
        self.pass_partition();
    }

    /// Gives a strong mode back.
    #[inline(never)]
    fn give_strong(&self) {
        self.pass_partition();
        self.counter.fetch_sub(1, Ordering::SeqCst);
    }

    /// Goes the way `floor` as often as `steps` says.
    pub fn go(&self, floor: Floor, steps: u64) {
        match floor {
            Floor::Slot => {
                for step in 0..steps {
                    self.take_by_slot(step);
                    self.give_by_slot();
                }
            }
            Floor::RefusedSlot => {
                for _ in 0..steps {
                    self.find_counted();
                }
            }
            Floor::Strong => {
                for _ in 0..steps {
                    self.take_strong();
                    self.give_strong();
                }
            }
            Floor::Table => {
                for _ in 0..steps {
                    self.pass_partition();
                    self.pass_partition();
                }
            }
            Floor::RefusedObject => {
                for _ in 0..steps {
                    self.pass_partition();
                }
            }
            Floor::RefusedRelation => {
                for _ in 0..steps {
                    self.find_counted();
                    self.pass_partition();
                }
            }
        }
    }
}
