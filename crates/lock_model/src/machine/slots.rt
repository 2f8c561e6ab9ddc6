//! The plain machine's steps on sessions' fast-path slots, and on their locks (`fpInfoLock` of a `PGPROC`,
//! proc.h).

ghost use Rattle.std.specs.Prelude.{◌≡◌, ◌<◌, length};
ghost use Rattle.std.specs.List.{list_any};
ghost use Rattle.lw_word.specs.SlotWord.{in_use};
ghost use Rattle.lock_world.specs.SlotHolds.{may_use, is_slot_of};
ghost use Rattle.lock_model.specs.SlotLooks.{is_slot_to_grant};

use super::lw_words::put;
use super::state::{Machine, has_a_mark};
use lock_table::Move;
use lock_world::Word;
use lw_word::{LwMode, SlotWord};
use modes_core::{Mode, SessionId, Tag, USUAL_SESSIONS, is_eligible};

/// Whether a slot of `slots` is in use.
fn some_slot_in_use(slots: &[SlotWord]) -> bool
    ensures { result ≡ list_any in_use slots.now }
{
    slots.iter().any(|word| word.in_use())
}

/// Whether a slot with `word` is in use for `relation`.
fn is_slot_of(word: SlotWord, relation: u32) -> bool
    ensures { result ≡ is_slot_of word relation }
{
    word.in_use() && word.relation() == relation
}

/// Whether a slot of `slots` is in use for `relation`.
fn some_slot_is_of(slots: &[SlotWord], relation: u32) -> bool
    ensures { result ≡ list_any (λ word. is_slot_of word relation) slots.now }
{
    slots.iter().any(|word| is_slot_of(*word, relation))
}

/// Whether the slot at `place` is in the group of `relation`, where each session has `groups` groups of
/// slots.
fn may_use(groups: u8, relation: u32, place: usize) -> bool
    requires { 0 < groups }
    ensures { result ≡ may_use groups relation place }
{
    place / 16 == (relation % u32::from(groups)) as usize
}

/// Whether a grant for `relation` takes the slot at `place`, with `groups` groups: it is of the relation's
/// group, and in use for the relation, or not in use and none of `slots` is for it.
fn is_slot_to_grant(groups: u8, slots: &[SlotWord], relation: u32, place: usize) -> bool
    requires groups { 0 < groups }
    requires within { place < length slots.now }
    ensures { result ≡ is_slot_to_grant groups slots.now relation place }
{
    let word = slots[place];
    may_use(groups, relation, place)
        && (is_slot_of(word, relation) || !word.in_use() && !some_slot_is_of(slots, relation))
}

impl Machine {
    ghost use Rattle.std.specs.Prelude.{◌≡◌, ◌<◌, slice_index_or, None};
    ghost use Rattle.modes_core.specs.Sessions.{usual_sessions};
    ghost use Rattle.std.specs.List.{list_any};
    ghost use Rattle.lw_word.specs.SlotWord.{in_use};
    ghost use Rattle.modes_core.specs.Tag.{index_of};
    ghost use Rattle.lock_table.specs.declared.moves.Move.{Move};
    ghost use Rattle.lock_world.specs.declared.events.Step.{Step};
    ghost use Rattle.lock_world.specs.declared.events.Word.{Word};
    ghost use Rattle.lock_model.specs.Shows.{ShowsSafe, Follows, has_a_mark, is_number};
    ghost use Rattle.lock_model.specs.SlotLooks.{slots_at, has_own_slots, may_set_slot, may_clear_slot, may_store_database};

    /// Takes the lock of the slots of `owner` exclusively for `session`, where nobody has it (`LWLockAcquire`
    /// with `LW_EXCLUSIVE` in lwlock.c). `owner` is any session number, issued or not, that of `session` too.
    pub fn take_fast(&mut self, session: SessionId, owner: SessionId)
        requires within { session < usual_sessions }
        ensures { Follows self.old session (Step.TakeExclusive (Word.Fast owner)) self.new }
    {
        if owner.number() >= USUAL_SESSIONS {
            return;
        }
        let index = usize::from(owner.number());
        let whose = usize::from(session.number());
        if self.makes_steps(session) {
            if let Some(word) = self.words.fast[index].attempt(LwMode::Exclusive) {
                self.words.fast[index] = word;
                self.locks.fast_holders[index][whose] = true;
            }
        }
    }

    /// Puts back the lock of the slots of `owner`, which `session` holds exclusively, with `done`, which is
    /// no move (`LWLockRelease` in lwlock.c). Where `owner` is `session`, the counter that `session` has read
    /// as 0 lets it set no more slot.
    pub fn put_fast(&mut self, session: SessionId, owner: SessionId, done: Move)
        requires within { session < usual_sessions }
        ensures { Follows self.old session (Step.PutExclusive (Word.Fast owner) done) self.new }
    {
        if owner.number() >= USUAL_SESSIONS {
            return;
        }
        let index = usize::from(owner.number());
        let whose = usize::from(session.number());
        if done.is_same(Move::Keep)
            && self.makes_steps(session)
            && self.locks.fast_holders[index][whose]
        {
            self.words.fast[index] = put(self.words.fast[index], LwMode::Exclusive);
            self.locks.fast_holders[index][whose] = false;
            if index == whose {
                self.fast_path.zeros[whose] = None;
            }
        }
    }

    /// Whether `session` holds the lock of any session's slots exclusively.
    pub fn has_a_fast_word(&self, session: SessionId) -> bool
        requires within { session < usual_sessions }
        ensures { result ≡ has_a_mark session self.now.locks.fast_holders }
    {
        has_a_mark(self.locks.fast_holders.as_slice(), session)
    }

    /// Loads `word`, which must show `shown`, for `session`: any slot, any session's database, or the lock of
    /// the session's own slots. No step of the machine keeps what a load showed.
    pub fn load_word(&mut self, session: SessionId, word: Word, shown: u64)
        ensures { Follows self.old session (Step.LoadWord word shown) self.new }
    {}

    /// Sets `mode` on the relation of `tag` in `slot` of `session`, with the lock of its slots held, after
    /// the strong lock counter of `tag` was read as 0 (`FastPathGrantRelationLock` in lock.c).
    pub fn set_slot(&mut self, session: SessionId, slot: u8, tag: Tag, mode: Mode)
        requires within { session < usual_sessions }
        requires shown { ShowsSafe self.old }
        ensures { Follows self.old session (Step.SetSlot slot tag mode) self.new }
    {
        let index = usize::from(session.number());
        let place = usize::from(slot);
        if self.may_set_slot(session, place, tag, mode) {
            let word = self.fast_path.slots[index][place];
            self.fast_path.slots[index][place] = word.with(tag.relation_number(), mode);
        }
    }

    /// Clears `mode` on the relation of `tag` in `slot` of `session`, with the lock of its slots held
    /// (`FastPathUnGrantRelationLock` in lock.c).
    pub fn clear_slot(&mut self, session: SessionId, slot: u8, tag: Tag, mode: Mode)
        requires within { session < usual_sessions }
        ensures { Follows self.old session (Step.ClearSlot slot tag mode) self.new }
    {
        let index = usize::from(session.number());
        let place = usize::from(slot);
        if self.may_clear_slot(session, place, tag, mode) {
            let word = self.fast_path.slots[index][place];
            self.fast_path.slots[index][place] = word.without(mode);
        }
    }

    /// Stores `database` as that of `session`, where it has none and no slot in use (`InitPostgres` in
    /// postinit.c).
    pub fn store_database(&mut self, session: SessionId, database: u32)
        requires within { session < usual_sessions }
        ensures { Follows self.old session (Step.StoreDatabase database) self.new }
    {
        if self.may_store_database(session) {
            self.fast_path.databases[usize::from(session.number())] = database;
        }
    }

    /// Whether `session` has a slot in use.
    pub fn has_a_slot(&self, session: SessionId) -> bool
        requires within { session < usual_sessions }
        ensures { result ≡ list_any in_use (slots_at self.now session) }
    {
        let slots = self.fast_path.slots[usize::from(session.number())];
        some_slot_in_use(slots.as_slice())
    }

    /// Whether `session` makes steps, and holds the lock of its own slots.
    fn has_own_slots(&self, session: SessionId) -> bool
        requires within { session < usual_sessions }
        ensures { result ≡ has_own_slots self.now session }
    {
        let index = usize::from(session.number());
        self.makes_steps(session) && self.locks.fast_holders[index][index]
    }

    /// Whether `session` has read the strong lock counter of `tag` as 0, and still may set slots by that.
    fn has_read_zero(&self, session: SessionId, tag: Tag) -> bool
        requires within { session < usual_sessions }
        ensures { result ≡ is_number (index_of tag) (slice_index_or self.now.fast_path.zeros session None) }
    {
        let index = tag.strong_index();
        self.fast_path.zeros[usize::from(session.number())].is_some_and(|read| read == index)
    }

    /// Whether `session` may set `mode` for `tag` in its slot at `place`.
    fn may_set_slot(&self, session: SessionId, place: usize, tag: Tag, mode: Mode) -> bool
        requires within { session < usual_sessions }
        requires shown { ShowsSafe self.now }
        ensures { result ≡ may_set_slot self.now session place tag mode }
    {
        let index = usize::from(session.number());
        let slots = self.fast_path.slots[index];
        place < 128
            && self.has_own_slots(session)
            && is_eligible(self.fast_path.databases[index], tag, mode)
            && self.has_read_zero(session, tag)
            && self.may_ask(session, tag, mode)
            && is_slot_to_grant(
                self.numbers.groups,
                slots.as_slice(),
                tag.relation_number(),
                place,
            )
    }

    /// Whether `session` may clear `mode` for `tag` in its slot at `place`.
    fn may_clear_slot(&self, session: SessionId, place: usize, tag: Tag, mode: Mode) -> bool
        requires within { session < usual_sessions }
        ensures { result ≡ may_clear_slot self.now session place tag mode }
    {
        let index = usize::from(session.number());
        place < 128
            && self.has_own_slots(session)
            && is_eligible(self.fast_path.databases[index], tag, mode)
            && self.fast_path.slots[index][place].shows(tag.relation_number(), mode)
    }

    /// Whether `session` may store its database.
    fn may_store_database(&self, session: SessionId) -> bool
        requires within { session < usual_sessions }
        ensures { result ≡ may_store_database self.now session }
    {
        self.makes_steps(session) && !self.has_a_slot(session)
    }
}
