//! Where each word of the shared table stands, and each partition's content. A word has 8 bytes; all indexes
//! count words. Where a word stands follows from how many sessions there can be: 16 partitions, 1,024 strong
//! lock counters, and for each session a block of its own, in which the fast-path slots of its first group
//! are. For each further group of slots there are as many blocks behind those, one for each session. So no
//! table is larger than its sessions and groups make it, and all words but the slots of further groups stand
//! at one place in each.
//!
//! A processor that writes a word takes the word's cache line from all others, 64 bytes or 128. So words that
//! different sessions write at the same time stand 128 bytes apart (`PG_CACHE_LINE_SIZE` in
//! pg_config_manual.h), and then share no line wherever the table begins. Only the counters are packed.

ghost use Rattle.std.specs.Prelude.{◌≡◌, ◌<◌, ◌≤◌, ◌+◌, ◌*◌, ℕ};
ghost use Rattle.atomic_table.specs.Seated.{TableId};
ghost use Rattle.lock_world.specs.SlotHolds.{group_size, most_groups, slot_count};
ghost use Rattle.lock_world.specs.declared.events.Word.TheVariants.{Partition, Fast, Database, Slot};
ghost use Rattle.lock_world.specs.declared.events.Word.TheVariants.{Wait, Strong, Sleep};
ghost use Rattle.shared_rule.specs.declared.rule.TableSizes.{TableSizes};
ghost use Rattle.shared_rule.specs.Layout.{index_of_word, block_start, block_of, words_of, IsSized};
ghost use Rattle.shared_rule.specs.Layout.{content_shelf_of, list_shelf_of, lock_count, shelves_of};

use crate::rule::TableSizes;
use modes_core::{PARTITIONS, STRONG_COUNTERS, SessionId};

/// How far words are apart that share no cache line: 128 bytes, counted in words.
pub(crate) const GAP: usize = 16;

/// The index of the first strong lock counter: the counters come after the 16 partition words, each of which
/// has a gap after it.
pub(crate) const COUNTERS_START: usize = PARTITIONS as usize * GAP;

/// The index of the first session's words: they come after the 1,024 strong lock counters and a gap, since
/// all sessions write the counters.
pub(crate) const SESSIONS_START: usize = COUNTERS_START + STRONG_COUNTERS as usize + GAP;

/// How many words a session's block has: the session's 20 words, and a gap before the next session's. The
/// words that others write come last, next to the gap: a grant or a wakeup then does not slow down the
/// neighbour. The gap is one word longer than it has to be, so that a block has an odd number of words: a
/// walk through a session's slots then takes an instruction or two less for each.
pub(crate) const BLOCK: usize = 20 + GAP + 1;

/// How many fast-path slots a group has (`FP_LOCK_SLOTS_PER_GROUP` in proc.h of version 18).
pub(crate) const SLOTS_PER_GROUP: u8 = 16;

/// How many words the table of `sizes` has.
pub fn table_words(sizes: TableSizes) -> usize
    ensures { result ≡ words_of sizes.sessions sizes.groups }
{
    block(sizes.sessions as usize * sizes.groups as usize)
}

/// How far apart the contents of two partitions lie, in shelves: with a content behind one pointer a shelf
/// has 16 bytes, so that is 128 bytes.
pub(crate) const CONTENT_GAP: usize = 8;

/// How many shelves the table has for contents. The wait lists of lightweight locks come after them.
pub const CONTENT_SHELVES: usize = PARTITIONS as usize * CONTENT_GAP;

/// How many shelves the table has, where there can be `sessions` sessions: those for contents, and one for
/// the wait list of each lightweight lock, the partitions' and those of all sessions' slots. Partitions have
/// the even numbers and sessions' slots the odd ones, so that a list's shelf follows from its lock's number
/// alone. Two lists lie on different lines too.
pub fn table_shelves(sessions: u16) -> usize
    ensures { result ≡ shelves_of sessions }
{
    let locks = 2 * PARTITIONS.max(u32::from(sessions)) as usize;
    CONTENT_SHELVES + CONTENT_GAP * locks
}

/// The index of the lightweight lock of `partition`. Each is on a line of its own, as `LWLockPadded` in
/// lwlock.h has it: sessions that work on different partitions don't wait for each other.
pub fn partition_word(partition: u8) -> usize
    requires exists { partition < 16 }
    ensures index { (sessions : ℕ) → result ≡ index_of_word sessions (Partition partition) }
    ensures within { (sizes : TableSizes) (table : TableId) → IsSized sizes table → result < table.words }
{
    GAP * partition as usize
}

/// The index of the strong lock counter at `index`. The counters are packed, as in
/// `FastPathStrongRelationLockData` in lock.c: they are seldom written, and each request that takes the fast
/// path reads one.
pub fn strong_word(index: u16) -> usize
    requires exists { index < 1024 }
    ensures index { (sessions : ℕ) → result ≡ index_of_word sessions (Strong index) }
    ensures within { (sizes : TableSizes) (table : TableId) → IsSized sizes table → result < table.words }
{
    COUNTERS_START + index as usize
}

/// The index of the lightweight lock of the fast-path slots of `session` (`fpInfoLock` in proc.h), the first
/// word of the session's block. Mostly the session alone takes it, for each lock that goes by the fast path,
/// so no other session's words are near. In PostgreSQL a `PGPROC` is many lines long, which keeps them apart.
pub fn fast_word(session: SessionId) -> usize
    ensures index { (sessions : ℕ) → result ≡ index_of_word sessions (Fast session) }
    ensures within { (sizes : TableSizes) (table : TableId) → IsSized sizes table → session < sizes.sessions →
        result < table.words }
{
    block(session.number() as usize)
}

/// The index of the word with the database of `session` (`databaseId` in proc.h), beside the lightweight
/// lock.
pub fn database_word(session: SessionId) -> usize
    ensures index { (sessions : ℕ) → result ≡ index_of_word sessions (Database session) }
    ensures within { (sizes : TableSizes) (table : TableId) → IsSized sizes table → session < sizes.sessions →
        result < table.words }
{
    block(session.number() as usize) + 1
}

/// The index of the fast-path slot `slot` of `session` (`fpRelId` in proc.h), where there can be `sessions`
/// sessions. The 16 slots of the first group come after the database: a session that has the lightweight lock
/// reads those of one group. The slots of each further group are laid out in the same way in a block for that
/// group, so no two sessions' slots share a line. The index of a slot of the first group doesn't depend on
/// `sessions`.
pub fn slot_word(sessions: u16, session: SessionId, slot: u8) -> usize
    requires exists { slot < slot_count }
    ensures index { result ≡ index_of_word sessions (Slot session slot) }
    ensures within { (sizes : TableSizes) (table : TableId) → IsSized sizes table → sessions ≡ sizes.sessions →
        session < sizes.sessions → slot < group_size * sizes.groups → result < table.words }
{
    if slot < SLOTS_PER_GROUP {
        return block(session.number() as usize) + 2 + slot as usize;
    }
    let before = sessions as usize * (slot / SLOTS_PER_GROUP) as usize;
    block(session.number() as usize + before) + 2 + (slot % SLOTS_PER_GROUP) as usize
}

/// The index of the wait word of `session` (`waitStatus` in proc.h). Others write it while the session waits,
/// or to cancel its wait, and the session does not use its slots meanwhile: they may share a line.
pub fn wait_word(session: SessionId) -> usize
    ensures index { (sessions : ℕ) → result ≡ index_of_word sessions (Wait session) }
    ensures within { (sizes : TableSizes) (table : TableId) → IsSized sizes table → session < sizes.sessions →
        result < table.words }
{
    block(session.number() as usize) + 18
}

/// The index of the sleep word of `session` (`lwWaiting` in proc.h), beside its wait word: others write the
/// sleep word only while the session waits for a lightweight lock, and the session doesn't use its slots
/// meanwhile.
pub fn sleep_word(session: SessionId) -> usize
    ensures index { (sessions : ℕ) → result ≡ index_of_word sessions (Sleep session) }
    ensures within { (sizes : TableSizes) (table : TableId) → IsSized sizes table → session < sizes.sessions →
        result < table.words }
{
    block(session.number() as usize) + 19
}

/// The shelf of the table on which the content of `partition` lies while nobody has it in hand. Two
/// partitions' contents lie on different lines, as their words do; the shelves between stay unused.
pub fn content_shelf(partition: u8) -> usize
    requires exists { partition < 16 }
    ensures shelf { result ≡ content_shelf_of partition }
    ensures within { result < CONTENT_SHELVES }
{
    CONTENT_GAP * partition as usize
}

/// The shelf of the table on which the wait list of the lightweight lock numbered `lock` lies while nobody
/// has it in hand (`waiters` of an `LWLock` in lwlock.h). Partitions have the even numbers and sessions'
/// slots the odd ones.
pub(crate) fn list_shelf(lock: u16) -> usize
    ensures shelf { result ≡ list_shelf_of lock }
    ensures within { (sessions : ℕ) → lock < lock_count sessions → result < shelves_of sessions }
{
    CONTENT_SHELVES + CONTENT_GAP * lock as usize
}

// Where the block of this number begins.
fn block(number: usize) -> usize
    requires few { number ≤ 16777216 }
    ensures start { result ≡ block_start number }
{
    SESSIONS_START + BLOCK * number
}
