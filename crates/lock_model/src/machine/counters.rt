//! The plain machine's steps on strong lock counters.

ghost use Rattle.std.specs.Prelude.{◌≡◌, not, map, filter};
ghost use Rattle.lock_model.specs.CountedLists.{is_by, is_by_at, passed_by};

use super::lw_words::put;
use super::state::{CountedBy, Machine};
use lock_table::{NoMemory, PartTable};
use lw_word::LwMode;
use modes_core::{Mode, SessionId, Tag, USUAL_SESSIONS, is_strong};

/// The most strong locks that one session may have counted.
const MOST_COUNTED: usize = 65_536;

/// The position of a counted strong lock whose session has gone past every session.
const ALL_PASSED: u16 = 64;

impl CountedBy {
    /// Whether this counted strong lock is that of `session` for `mode` on `tag`.
    fn is_by(&self, session: SessionId, tag: Tag, mode: Mode) -> bool
        ensures { result ≡ is_by session tag mode self.now }
    {
        self.session == session && self.tag.is_same(tag) && self.mode.is_same(mode)
    }

    /// Whether this counted strong lock is that of `session` for `mode` on `tag`, and `session` has gone past
    /// just the sessions below `position`.
    fn is_by_at(&self, session: SessionId, position: u16, tag: Tag, mode: Mode) -> bool
        ensures { result ≡ is_by_at session position tag mode self.now }
    {
        self.is_by(session, tag, mode) && self.position == position
    }

    /// This counted strong lock, with `owner` passed too if it is that of `session` for `mode` on `tag` and
    /// `owner` is the next session to pass.
    fn passed(self, session: SessionId, owner: SessionId, tag: Tag, mode: Mode) -> Self
        ensures { result ≡ passed_by session owner tag mode self }
    {
        if self.is_by_at(session, owner.number(), tag, mode) {
            CountedBy {
                session: self.session,
                tag: self.tag,
                mode: self.mode,
                position: owner.number() + 1,
            }
        } else {
            self
        }
    }
}

/// Has the strong lock that `session` has counted for `mode` on `tag` in `counted` go past `owner`, where
/// `owner` is the next session to pass.
fn pass(counted: &mut [CountedBy], session: SessionId, owner: SessionId, tag: Tag, mode: Mode)
    ensures { counted.new ≡ map (passed_by session owner tag mode) counted.old }
{
    for c in counted.iter_mut() {
        *c = c.passed(session, owner, tag, mode);
    }
}

/// Takes the strong lock that `session` has counted for `mode` on `tag` out of `counted`.
fn uncounted(counted: &mut Vec<CountedBy>, session: SessionId, tag: Tag, mode: Mode)
    ensures { counted.new.items ≡ filter (λ c. not (is_by session tag mode c)) counted.old.items }
{
    counted.retain(|c| !c.is_by(session, tag, mode));
}

impl Machine {
    ghost use Rattle.std.specs.Prelude.{◌≡◌, ◌<◌, ◌==◌, ◌≤◌, ◌||◌, false, not, [], count_by, slice_set, slice_index_or, OnOk, OnErr, None, if◌then◌else◌, vec_len};
    ghost use Rattle.modes_core.specs.Sessions.{usual_sessions};
    ghost use Rattle.std.specs.List.{list_any};
    ghost use Rattle.std.specs.Vec.{vec_capacity};
    ghost use Rattle.modes_core.specs.Tag.{partition_of};
    ghost use Rattle.lw_word.specs.declared.words.LwMode.TheVariants.{Exclusive};
    ghost use Rattle.lw_word.specs.LockState.{opening_state, put_in};
    ghost use Rattle.lock_table.specs.Parts.{contents_in};
    ghost use Rattle.lock_world.specs.declared.events.Step.{Step};
    ghost use Rattle.lock_world.specs.World.{World};
    ghost use Rattle.lock_model.specs.Shows.{Shows, ShowsSafe, Follows};
    ghost use Rattle.lock_model.specs.CountedLists.{counter, counted_for, holds_fast, may_count, has_or_awaits, may_uncount, slots_show, may_pass, may_load_counter, reads_zero};

    /// Counts for `session` a strong lock of `mode` on `tag` that is not counted yet and has gone past no
    /// session (`BeginStrongLockAcquire` in lock.c). After `NoMemory`, which comes only where the list of
    /// counted locks was full, the machine shows what it showed before.
    pub fn count(&mut self, session: SessionId, tag: Tag, mode: Mode) -> Result<(), NoMemory>
        requires within { session < usual_sessions }
        requires shown { ShowsSafe self.old }
        ensures followed { OnOk result (Follows self.old session (Step.Count tag mode) self.new) }
        ensures refused { OnErr result ((w : World) → Shows self.old w → Shows self.new w) }
        ensures full { OnErr result (vec_capacity self.old.counted ≤ vec_len self.old.counted) }
    {
        if self.may_count(session, tag, mode) {
            self.counted.push(CountedBy {
                session,
                tag,
                mode,
                position: 0,
            })?;
        }
        Ok(())
    }

    /// Takes back the strong lock that `session` has counted for `mode` on `tag`, where `session` neither has
    /// nor awaits that lock (`AbortStrongLockAcquire` in lock.c).
    pub fn uncount(&mut self, session: SessionId, tag: Tag, mode: Mode)
        requires within { session < usual_sessions }
        requires shown { ShowsSafe self.old }
        ensures { Follows self.old session (Step.Uncount tag mode) self.new }
    {
        if self.may_uncount(session, tag, mode) {
            uncounted(&mut self.counted, session, tag, mode);
        }
    }

    /// Puts back the lock of the slots of `owner`, which `session` holds, and has the strong lock that
    /// `session` has counted for `mode` on `tag` go past `owner`, which is the next session to pass and has
    /// no slot for `tag` (a turn of the loop of `FastPathTransferRelationLocks` in lock.c).
    pub fn put_passing(&mut self, session: SessionId, owner: SessionId, tag: Tag, mode: Mode)
        requires within { session < usual_sessions }
        requires shown { ShowsSafe self.old }
        ensures { Follows self.old session (Step.PutPassing owner tag mode) self.new }
    {
        if owner.number() >= USUAL_SESSIONS {
            return;
        }
        if self.may_pass(session, owner, tag, mode) {
            self.free_fast(session, owner);
            pass(self.counted.as_mut_slice(), session, owner, tag, mode);
        }
    }

    /// Loads the strong lock counter at `index`, which must show `shown`, for `session`. Where `shown` is 0
    /// and `session` holds the lock of its own slots, `session` may set slots for objects of this index
    /// (`LockAcquireExtended` in lock.c).
    pub fn load_strong(&mut self, session: SessionId, index: u16, shown: u64)
        requires within { session < usual_sessions }
        ensures { Follows self.old session (Step.LoadStrong index shown) self.new }
    {
        if self.reads_zero(session, index, shown) {
            self.fast_path.zeros[usize::from(session.number())] = Some(index);
        }
    }

    /// Whether `session` may be granted `mode` on `tag`, or await it: a strong lock must be counted by
    /// `session`, and have gone past each session.
    pub fn is_counted_for(&self, session: SessionId, tag: Tag, mode: Mode) -> bool
        ensures { result ≡ counted_for self.now session tag mode }
    {
        !is_strong(tag, mode) || self.is_counted_at(session, ALL_PASSED, tag, mode)
    }

    /// Whether `session` has counted no strong lock.
    pub fn counts_nothing(&self, session: SessionId) -> bool
        ensures { result ≡ (count_by (λ c. c.session == session) self.now.counted.items == 0) }
    {
        self.how_many_counted(session) == 0
    }

    /// Whether `session` may count the strong lock of `mode` on `tag`.
    fn may_count(&self, session: SessionId, tag: Tag, mode: Mode) -> bool
        requires within { session < usual_sessions }
        ensures { result ≡ may_count self.now session tag mode }
    {
        self.makes_steps(session)
            && is_strong(tag, mode)
            && !self.is_counted(session, tag, mode)
            && self.how_many_counted(session) < MOST_COUNTED
    }

    /// Whether `session` may take back the strong lock that it has counted for `mode` on `tag`.
    fn may_uncount(&self, session: SessionId, tag: Tag, mode: Mode) -> bool
        requires within { session < usual_sessions }
        requires shown { ShowsSafe self.now }
        ensures { result ≡ may_uncount self.now session tag mode }
    {
        self.makes_steps(session)
            && self.is_counted(session, tag, mode)
            && !self.has_or_awaits(session, tag, mode)
    }

    /// Whether `session` may go past `owner` with its counted lock of `mode` on `tag`.
    fn may_pass(&self, session: SessionId, owner: SessionId, tag: Tag, mode: Mode) -> bool
        requires within { session < usual_sessions }
        requires exists { owner < usual_sessions }
        requires shown { ShowsSafe self.now }
        ensures { result ≡ may_pass self.now session owner tag mode }
    {
        self.makes_steps(session)
            && self.holds_fast(session, owner)
            && self.is_counted_at(session, owner.number(), tag, mode)
            && !self.slots_show(owner, tag)
    }

    /// Whether `session` may load the strong lock counter at `index`, and the counter shows `shown`.
    fn may_load_counter(&self, session: SessionId, index: u16, shown: u64) -> bool
        requires within { session < usual_sessions }
        ensures { result ≡ may_load_counter self.now session index shown }
    {
        self.makes_steps(session) && index < 1024 && shown == self.counter(index)
    }

    /// Whether `session` may load the strong lock counter at `index`, which shows `shown`, and may set slots
    /// by that: `shown` is 0 and `session` holds the lock of its own slots.
    fn reads_zero(&self, session: SessionId, index: u16, shown: u64) -> bool
        requires within { session < usual_sessions }
        ensures { result ≡ reads_zero self.now session index shown }
    {
        self.may_load_counter(session, index, shown)
            && shown == 0
            && self.holds_fast(session, session)
    }

    /// What the strong lock counter at `index` shows: how many strong locks are counted at `index`.
    fn counter(&self, index: u16) -> u64
        ensures { result ≡ counter self.now index }
    {
        self.counted
            .iter()
            .filter(|c| c.tag.strong_index() == index)
            .count() as u64
    }

    /// Whether `session` holds the lock of the slots of `owner` exclusively.
    pub fn holds_fast(&self, session: SessionId, owner: SessionId) -> bool
        requires within { session < usual_sessions }
        requires exists { owner < usual_sessions }
        ensures { result ≡ holds_fast self.now session owner }
    {
        self.locks.fast_holders[usize::from(owner.number())][usize::from(session.number())]
    }

    /// Puts back the lock of the slots of `owner`, which `session` holds exclusively. Where `owner` is
    /// `session`, the counter that `session` has read as 0 lets it set no more slot.
    fn free_fast(&mut self, session: SessionId, owner: SessionId)
        requires within { session < usual_sessions }
        requires exists { owner < usual_sessions }
        ensures { self.new ≡ record self.old {
          words = record (self.old.words) {
            fast = slice_set self.old.words.fast owner
                (put_in Exclusive (slice_index_or self.old.words.fast owner opening_state));
          };
          locks = record (self.old.locks) {
            fast_holders = slice_set self.old.locks.fast_holders owner
                (slice_set (slice_index_or self.old.locks.fast_holders owner []) session false);
          };
          fast_path = record (self.old.fast_path) {
            zeros = if owner == session
                then slice_set self.old.fast_path.zeros session None else self.old.fast_path.zeros;
          };
        } }
    {
        let index = usize::from(owner.number());
        let whose = usize::from(session.number());
        self.words.fast[index] = put(self.words.fast[index], LwMode::Exclusive);
        self.locks.fast_holders[index][whose] = false;
        if owner == session {
            self.fast_path.zeros[whose] = None;
        }
    }

    /// Whether `session` has `mode` on `tag`, in the content of a partition or in a slot, or awaits it.
    fn has_or_awaits(&self, session: SessionId, tag: Tag, mode: Mode) -> bool
        requires within { session < usual_sessions }
        requires shown { ShowsSafe self.now }
        ensures { result ≡ has_or_awaits self.now session tag mode }
    {
        self.awaits(session, tag, mode)
            || self.in_content(session, tag, mode)
            || self.slots_hold(session, tag, mode)
    }

    /// Whether the content of the partition of `tag` has the hold of `session` in `mode`.
    fn in_content(&self, session: SessionId, tag: Tag, mode: Mode) -> bool
        requires shown { ShowsSafe self.now }
        ensures { result ≡ (contents_in self.now.contents.parts.items (partition_of tag)).holds session tag mode }
    {
        self.contents.parts[usize::from(tag.partition())]
            .held(session, &tag)
            .has(mode)
    }

    /// Whether the slots of `owner` show that it holds any mode on `tag`.
    fn slots_show(&self, owner: SessionId, tag: Tag) -> bool
        requires exists { owner < usual_sessions }
        requires shown { ShowsSafe self.now }
        ensures { result ≡ slots_show self.now owner tag }
    {
        self.slots_hold(owner, tag, Mode::AccessShare)
            || self.slots_hold(owner, tag, Mode::RowShare)
            || self.slots_hold(owner, tag, Mode::RowExclusive)
    }

    /// How many strong locks `session` has counted.
    fn how_many_counted(&self, session: SessionId) -> usize
        ensures { result ≡ count_by (λ c. c.session == session) self.now.counted.items }
    {
        self.counted.iter().filter(|c| c.session == session).count()
    }

    /// Whether `session` has counted the strong lock of `mode` on `tag`.
    fn is_counted(&self, session: SessionId, tag: Tag, mode: Mode) -> bool
        ensures { result ≡ list_any (is_by session tag mode) self.now.counted.items }
    {
        self.counted.iter().any(|c| c.is_by(session, tag, mode))
    }

    /// Whether `session` has counted the strong lock of `mode` on `tag`, and has gone with it past just the
    /// sessions below `position`.
    pub fn is_counted_at(&self, session: SessionId, position: u16, tag: Tag, mode: Mode) -> bool
        ensures { result ≡ list_any (is_by_at session position tag mode) self.now.counted.items }
    {
        self.counted
            .iter()
            .any(|c| c.is_by_at(session, position, tag, mode))
    }
}
