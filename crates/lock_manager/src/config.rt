ghost use Rattle.std.specs.Prelude.{◌≡◌};
ghost use Rattle.lock_manager.specs.Managers.{is_in_range, is_in_server_range, is_within, IsUsual};

use local_locks::MOST_LOCAL;

/// The most sessions that a manager made by `Manager::new` may open over its life.
pub const USUAL_SESSIONS: u32 = modes_core::USUAL_SESSIONS as u32;

/// The most sessions that a manager made by `Manager::for_server` may open over its life.
pub const MOST_SESSIONS: u32 = modes_core::MOST_SESSIONS as u32;

/// How many groups of fast-path slots a session may have at most.
pub const MOST_GROUPS: u32 = 8;

/// The sizes of a lock manager.
#[derive(Clone, Copy, Debug, PartialEq, Eq)]
pub struct Config {
    /// How many sessions the manager may open over its life: 1 to 64, or 1 to 1,024 for a manager made by
    /// `Manager::for_server` (`max_connections`).
    pub sessions: u32,
    /// How many local entries (a mode on an object, in the local lock table) each session may have, 1 to
    /// 65,536.
    pub max_local: u32,
    /// How many groups of sixteen fast-path slots each session has, 1 to 8 (`FastPathLockGroupsPerBackend` in
    /// proc.h of version 18; version 16 has one).
    pub slot_groups: u32,
}

/// A manager for 64 sessions, with 1,024 local entries and one group of sixteen fast-path slots each, as
/// version 16 has them. A server's `max_connections` is 100 where nothing is set, as `Manager::for_server`
/// allows. Its `max_locks_per_transaction`, 64, is no limit of a session but an average by which the shared
/// table is sized.
impl Default for Config {
    ghost is_default = { λ config. IsUsual config };

    fn default() -> Self {
        Config {
            sessions: USUAL_SESSIONS,
            max_local: 1024,
            slot_groups: 1,
        }
    }
}

impl Config {
    /// Whether all numbers of the configuration are in their ranges, so that `Manager::new` doesn't refuse
    /// with `BadConfig`.
    pub fn is_in_range(self) -> bool
        ensures { result ≡ is_in_range self }
    {
        self.is_within(USUAL_SESSIONS)
    }

    /// Whether all numbers of the configuration are in the ranges of a server's manager, so that
    /// `Manager::for_server` doesn't refuse with `BadConfig`.
    pub fn is_in_server_range(self) -> bool
        ensures { result ≡ is_in_server_range self }
    {
        self.is_within(MOST_SESSIONS)
    }

    /// Whether the configuration asks for 1 to `sessions` sessions, and its other numbers are in their
    /// ranges.
    fn is_within(self, sessions: u32) -> bool
        ensures { result ≡ is_within sessions self }
    {
        self.sessions >= 1
            && self.sessions <= sessions
            && self.max_local >= 1
            && self.max_local <= MOST_LOCAL
            && self.slot_groups >= 1
            && self.slot_groups <= MOST_GROUPS
    }
}
