//! The objects and modes that are locked.

use modes_core::{Mode, Tag};
use std::alloc::{AllocError, Global};

/// An object and a mode that is asked for.
pub type Key = (Tag, Mode);

/// What the objects of a list are: relations, or objects of a catalogue that are none.
#[derive(Clone, Copy)]
pub enum Kind {
    Relation,
    Object,
}

/// A list of keys: `count` objects of one kind in one mode, with numbers from `from` on that are `apart` from
/// each other. Objects that are no relations belong to one partition where their numbers are sixteen apart.
#[derive(Clone, Copy)]
pub struct Keys {
    pub kind: Kind,
    pub mode: Mode,
    pub from: u32,
    pub apart: u32,
    pub count: u32,
}

/// No key.
pub const NONE: Keys = Keys {
    kind: Kind::Object,
    mode: Mode::Exclusive,
    from: 0,
    apart: 1,
    count: 0,
};

/// The one object of all, in ExclusiveLock.
pub const ONE_OBJECT: Keys = Keys { count: 1, ..NONE };

/// A thousand relations, in AccessShareLock.
pub const WEAK: Keys = Keys {
    kind: Kind::Relation,
    mode: Mode::AccessShare,
    from: 0,
    apart: 1,
    count: 1_000,
};

/// Ten relations that are none of `WEAK`, in AccessShareLock.
pub const FEW: Keys = Keys {
    from: 200_000,
    count: 10,
    ..WEAK
};

/// A thousand objects of one partition, in AccessShareLock.
pub const IN_PARTITION: Keys = Keys {
    kind: Kind::Object,
    apart: 16,
    ..WEAK
};

/// Ten objects of that partition that are none of `IN_PARTITION`, in AccessShareLock: the first ones of a
/// crowd.
pub const FEW_OF_CROWD: Keys = Keys {
    from: 1_600_000,
    count: 10,
    ..IN_PARTITION
};

/// 250 objects of all partitions, in AccessShareLock.
pub const LISTED: Keys = Keys {
    kind: Kind::Object,
    count: 250,
    ..FEW
};

impl Keys {
    /// The keys of the list in `database`, each once, not in the order of their numbers.
    pub fn list(self, alloc: Global, database: u32) -> Result<Vec<Key>, AllocError> {
        let mut made = Vec::new(alloc);
        for step in 0..self.count {
            let place = step.wrapping_mul(7919).checked_rem(self.count).unwrap_or(0);
            let number = 16_384u32
                .wrapping_add(self.from)
                .wrapping_add(place.wrapping_mul(self.apart));
            let tag = match self.kind {
                Kind::Relation => Tag::relation(database, number),
                Kind::Object => Tag::object(database, 1259, number, 0),
            };
            made.push((tag, self.mode))?;
        }
        Ok(made)
    }

    /// The list with each number `further` higher.
    pub fn after(self, further: u32) -> Self {
        Keys {
            from: self.from.wrapping_add(further),
            ..self
        }
    }

    /// The list with `mode` in place of its own mode.
    pub fn in_mode(self, mode: Mode) -> Self {
        Keys { mode, ..self }
    }

    /// The list with the first `count` of its keys, and further ones where it has fewer.
    pub fn first(self, count: u32) -> Self {
        Keys { count, ..self }
    }
}
