//! How many of a session's slots are in use, by group.

ghost use Rattle.std.specs.Prelude.{◌≡◌, ℕ, ◌<◌};
ghost use Rattle.lock_world.specs.SlotHolds.{most_groups, group_of_relation};
ghost use Rattle.fast_path.specs.Slots.{count_in, counting};

/// The use count of each of a session's groups of fast-path slots: how many slots of the group are in use, or
/// more (`FastPathLocalUseCount` in lock.c, in version 18 `FastPathLocalUseCounts`).
#[derive(Clone, Copy)]
pub struct UseCounts {
    counts: [u8; 8],
}

impl UseCounts {
    /// The use counts of a session that has no fast-path slot in use: 0 for each group.
    pub fn new() -> Self
        ensures none { (group : ℕ) → count_in result group ≡ 0 }
    {
        UseCounts { counts: [0; 8] }
    }

    /// The use count of `group`: how many of its fast-path slots are in use at most.
    pub(crate) fn of(&self, group: u8) -> u8
        requires exists { group < most_groups }
        ensures { result ≡ count_in self.now group }
    {
        self.counts[usize::from(group)]
    }

    /// Sets the use count of `group` to `count`.
    pub(crate) fn set(&mut self, group: u8, count: u8)
        requires exists { group < most_groups }
        ensures { count_in self.new ≡ counting self.old group count }
    {
        self.counts[usize::from(group)] = count;
    }
}

/// The group of fast-path slots that a lock on `relation` goes to, where a session has `groups` of them
/// (`FAST_PATH_REL_GROUP` in lock.c of version 18, which multiplies the number first).
pub(crate) fn group_of(relation: u32, groups: u8) -> u8
    requires some { 0 < groups }
    ensures value { result ≡ group_of_relation groups relation }
    ensures exists { result < groups }
{
    // A division takes some nanoseconds, which is much of what a lock by a slot takes.
    if groups == 1 {
        return 0;
    }
    (relation % u32::from(groups)) as u8
}
