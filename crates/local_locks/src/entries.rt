ghost use Rattle.std.specs.Prelude.{◌≡◌, List};
ghost use Rattle.std.specs.Iterator.{YieldsFirst, item_count};

use crate::Entry;
use std::marker::Model;

/// An iterator over the entries of a local table, in the order of making. Contracts see the list of those
/// that are left to give.
#[derive(Drop)]
pub struct Entries<'a> {
    slots: &'a [Entry],
}

impl<'a> Model for Entries<'a> {
    ghost use Rattle.std.specs.Prelude.{List};
    ghost use Rattle.local_locks.specs.declared.records.Entry.{Entry};
    ghost use Rattle.local_locks.specs.Slots.{opened, present};

    ghost Value = { List Entry };

    ghost view = { λ s. present (opened s.slots.now) };
}

impl<'a> Entries<'a> {
    ghost use Rattle.local_locks.specs.Slots.{opened, present};

    /// An iterator over the entries in `slots`, the slots of a local table, without the empty slots.
    pub(crate) fn of(slots: &'a [Entry]) -> Self
        ensures { result ≡ present (opened slots.now) }
    {
        Entries { slots }
    }
}

impl<'a> Iterator for Entries<'a> {
    type Item = Entry;

    ghost next_gives = { YieldsFirst (λ s. s) };

    ghost remaining = { item_count (λ s. s) };

    fn next(&mut self) -> Option<Entry> {
        while let Some((first, others)) = self.slots.split_first() {
            self.slots = others;
            if first.is_held() {
                return Some(*first);
            }
        }
        None
    }
}
