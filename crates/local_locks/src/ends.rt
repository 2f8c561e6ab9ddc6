ghost use Rattle.std.specs.Prelude.{◌≡◌};

use crate::Entry;
use modes_core::LockMethod;

/// What ends (the arguments of `LockReleaseAll` in lock.c).
#[derive(Clone, Copy, PartialEq, Eq)]
pub enum End {
    /// A commit drops the transaction's counts and keeps the session's.
    Commit,
    /// An abort drops the transaction's counts, and in the default lock method the session's too. In the user
    /// method it keeps the session's: an advisory lock that the session owns survives a failed transaction.
    Abort,
    /// The close of the session drops the transaction's counts and the session's.
    Close,
    /// The end of the innermost level of a transaction drops this level's counts and keeps those of the outer
    /// levels and of the session (`LockReleaseCurrentOwner` in lock.c).
    Inner,
}

impl End {
    ghost use Rattle.local_locks.specs.Owned.{after_end};
    ghost use Rattle.local_locks.specs.Slots.{number_of_end};

    /// A number of the end, by which two kinds of end are compared.
    #[inline(always)]
    fn number(self) -> u8
        ensures { result ≡ number_of_end self }
    {
        self as u8
    }

    /// The counts of `entry` that outlive the end.
    pub(crate) fn counts_left(self, entry: Entry) -> Entry
        ensures { result ≡ after_end self entry }
    {
        match self {
            End::Commit => entry.without_transaction(),
            End::Abort => match entry.tag.method() {
                LockMethod::Default => entry.without_counts(),
                LockMethod::User => entry.without_transaction(),
            },
            End::Close => entry.without_counts(),
            End::Inner => entry,
        }
    }
}

/// The end that took the last step, and the place of the slot that this end has come to: before that slot it
/// has nothing to do.
#[derive(Clone, Copy)]
pub(crate) struct Progress {
    end: End,
    place: usize,
}

impl Progress {
    ghost use Rattle.local_locks.specs.Slots.{reached, came_to, back_to, at_start};

    /// The progress at first: no end has come past the first slot.
    pub(crate) fn start() -> Self
        ensures { result ≡ at_start }
    {
        Progress {
            end: End::Commit,
            place: 0,
        }
    }

    /// Notes that `end` has come to the slot at `place`.
    #[inline(always)]
    pub(crate) fn come_to(&mut self, end: End, place: usize)
        ensures { self.new ≡ came_to end place }
    {
        self.end = end;
        self.place = place;
    }

    /// The place of the slot at which `end` goes on: 0 unless `end` took the last step.
    pub(crate) fn reached(self, end: End) -> usize
        ensures { result ≡ reached end self }
    {
        if self.end.number() == end.number() {
            self.place
        } else {
            0
        }
    }

    /// Notes that no end is past the slot at `place`, whose entry changes.
    #[inline(always)]
    pub(crate) fn go_back_to(&mut self, place: usize)
        ensures { self.new ≡ back_to place self.old }
    {
        if self.place > place {
            self.place = place;
        }
    }
}
