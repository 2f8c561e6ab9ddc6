ghost use Rattle.std.specs.Prelude.{◌≡◌, ◌≢◌, ◌↔◌, ◌+◌, ◌<◌, IsTrue};

use crate::looks::is_same_pair;
use modes_core::{Mode, Owner, Tag};

/// An object and a lock mode in which the session has it, and how often for each owner (`LOCALLOCK` in
/// lock.h).
#[derive(Clone, Copy, PartialEq, Eq)]
pub struct Entry {
    pub tag: Tag,
    pub mode: Mode,
    /// How often the session has the entry's object and mode for its transaction.
    pub transaction: u16,
    /// How often the session has the entry's object and mode for itself.
    pub session: u16,
}

impl Entry {
    ghost use Rattle.local_locks.specs.Owned.{count_for, count_in_all, is_of, raised, lowered, new_entry, max_count, after_end};
    ghost use Rattle.local_locks.specs.Slots.{is_held_as};
    ghost use Rattle.modes_core.specs.declared.tags.Tag.TheVariants.{Relation};
    ghost use Rattle.local_locks.specs.declared.ends.End.TheVariants.{Commit, Close};

    /// The entry of a first acquire of `tag` in `mode` for `owner`.
    pub(crate) fn new(tag: Tag, mode: Mode, owner: Owner) -> Self
        ensures { result ≡ new_entry tag mode owner }
    {
        let session = u16::from(owner == Owner::Session);
        Entry {
            tag,
            mode,
            transaction: 1 - session,
            session,
        }
    }

    /// How often `owner` has the entry.
    #[inline(always)]
    pub fn count(&self, owner: Owner) -> u16
        ensures { result ≡ count_for owner self.now }
    {
        match owner {
            Owner::Session => self.session,
            Owner::Transaction => self.transaction,
        }
    }

    /// How often both owners together have the entry (`nLocks` of `LOCALLOCK` in lock.h).
    #[inline(always)]
    pub fn total(&self) -> u32
        ensures { result ≡ count_in_all self.now }
    {
        u32::from(self.transaction) + u32::from(self.session)
    }

    /// Whether the entry has a count, of the transaction or of the session.
    #[inline(always)]
    pub(crate) fn is_held(&self) -> bool
        ensures { IsTrue result ↔ (count_in_all self.now ≢ 0) }
    {
        self.transaction != 0 || self.session != 0
    }

    /// Whether the entry is of `tag` and `mode` and has a count.
    #[inline(always)]
    pub(crate) fn is_held_as(&self, tag: &Tag, mode: Mode) -> bool
        ensures { result ≡ is_held_as tag.now mode self.now }
    {
        self.is_of(tag, mode) && self.is_held()
    }

    /// Whether the entry is of `tag` and `mode`.
    #[inline(always)]
    pub(crate) fn is_of(&self, tag: &Tag, mode: Mode) -> bool
        ensures { result ≡ is_of tag.now mode self.now }
    {
        match *tag {
            Tag::Relation { database, relation } => self.is_of_relation(database, relation, mode),
            Tag::Object { .. } | Tag::Advisory { .. } => {
                self.tag.is_same(*tag) && self.mode.is_same(mode)
            }
        }
    }

    /// Whether the entry is of the relation `relation` of `database` and of `mode`. `database` and `relation`
    /// are compared as one number.
    #[inline(always)]
    pub(crate) fn is_of_relation(&self, database: u32, relation: u32, mode: Mode) -> bool
        ensures { result ≡ is_of (Relation database relation) mode self.now }
    {
        match self.tag {
            Tag::Relation {
                database: own_database,
                relation: own_relation,
            } => {
                is_same_pair(own_database, own_relation, database, relation)
                    && self.mode.is_same(mode)
            }
            Tag::Object { .. } | Tag::Advisory { .. } => false,
        }
    }

    /// Whether `owner` has the entry, and less often than `most` times.
    #[inline(always)]
    pub(crate) fn can_raise(&self, owner: Owner, most: u16) -> bool
        ensures { IsTrue result ↔ ((0 < count_for owner self.now) × (count_for owner self.now < most)) }
    {
        let count = self.count(owner);
        count > 0 && count < most
    }

    /// Whether `owner` has the entry more than once.
    #[inline(always)]
    pub(crate) fn can_lower(&self, owner: Owner) -> bool
        ensures { IsTrue result ↔ (1 < count_for owner self.now) }
    {
        match owner {
            Owner::Session => self.session > 1,
            Owner::Transaction => self.transaction > 1,
        }
    }

    /// Whether `owner` has the entry once, and nobody else has it.
    #[inline(always)]
    pub(crate) fn is_only(&self, owner: Owner) -> bool
        ensures { IsTrue result ↔ ((count_for owner self.now ≡ 1) × (count_in_all self.now ≡ 1)) }
    {
        match owner {
            Owner::Session => self.session == 1 && self.transaction == 0,
            Owner::Transaction => self.transaction == 1 && self.session == 0,
        }
    }

    /// Raises the count of `owner`.
    #[inline(always)]
    pub(crate) fn raise(&mut self, owner: Owner)
        requires { count_for owner self.old < max_count }
        ensures { self.new ≡ raised owner self.old }
    {
        match owner {
            Owner::Session => self.session += 1,
            Owner::Transaction => self.transaction += 1,
        }
    }

    /// Lowers the count of `owner`.
    #[inline(always)]
    pub(crate) fn lower(&mut self, owner: Owner)
        requires { 0 < count_for owner self.old }
        ensures { self.new ≡ lowered owner self.old }
    {
        match owner {
            Owner::Session => self.session -= 1,
            Owner::Transaction => self.transaction -= 1,
        }
    }

    /// The entry without the transaction's count.
    pub(crate) fn without_transaction(self) -> Entry
        ensures { result ≡ after_end Commit self }
    {
        Entry {
            transaction: 0,
            ..self
        }
    }

    /// The entry with `transaction` as the transaction's count.
    pub(crate) fn with_transaction(self, transaction: u16) -> Entry
        ensures { result ≡ record self { transaction = transaction } }
    {
        Entry {
            transaction,
            ..self
        }
    }

    /// The entry with both counts at 0: that of the transaction and that of the session.
    pub(crate) fn without_counts(self) -> Entry
        ensures { result ≡ after_end Close self }
    {
        Entry {
            transaction: 0,
            session: 0,
            ..self
        }
    }

    /// Sets both counts of the entry to 0: that of the transaction and that of the session.
    #[inline(always)]
    pub(crate) fn clear(&mut self)
        ensures { self.new ≡ after_end Close self.old }
    {
        self.transaction = 0;
        self.session = 0;
    }
}
