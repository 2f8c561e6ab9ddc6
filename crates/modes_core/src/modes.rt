ghost use Rattle.std.specs.Prelude.{◌≡◌, ◌≢◌, IfSome, IfNone, Some};
ghost use Rattle.modes_core.specs.Mode.{number_of, name_of, mode_eq};

use std::fmt;

/// A lock mode, weakest first (`AccessShareLock` to `AccessExclusiveLock` in lockdefs.h). The default, the
/// weakest, is what unused places of bounded lists have.
#[derive(Clone, Copy, Debug, PartialEq, Eq, PartialOrd, Ord, Hash)]
pub enum Mode {
    /// What a query takes (`SELECT`).
    AccessShare = 1,
    /// What a query that locks rows takes (`SELECT FOR UPDATE`).
    RowShare = 2,
    /// What a change of rows takes (`INSERT`, `UPDATE`, `DELETE`).
    RowExclusive = 3,
    /// What maintenance takes (`VACUUM`, `ANALYZE`).
    ShareUpdateExclusive = 4,
    /// What the making of an index takes (`CREATE INDEX`).
    Share = 5,
    /// What the making of a trigger takes (`CREATE TRIGGER`).
    ShareRowExclusive = 6,
    /// What lets others only read (`REFRESH MATERIALIZED VIEW CONCURRENTLY`).
    Exclusive = 7,
    /// What shuts all others out (`DROP TABLE`, `TRUNCATE`).
    AccessExclusive = 8,
}

impl Mode {
    /// The modes in the order of their numbers.
    pub const ALL: [Mode; 8] = [
        Mode::AccessShare,
        Mode::RowShare,
        Mode::RowExclusive,
        Mode::ShareUpdateExclusive,
        Mode::Share,
        Mode::ShareRowExclusive,
        Mode::Exclusive,
        Mode::AccessExclusive,
    ];

    /// Whether this mode is `other`: `==`, in the word that contracts use.
    pub fn is_same(self, other: Self) -> bool
        ensures { result ≡ mode_eq self other }
    {
        self.number() == other.number()
    }

    /// PostgreSQL's number of the mode, 1 to 8.
    pub fn number(self) -> u8
        ensures { result ≡ number_of self }
    {
        self as u8
    }

    /// The mode whose number is `number`, or `None` where that is not 1 to 8.
    pub fn from_number(number: u8) -> Option<Mode>
        ensures found { IfSome result (λ mode. number_of mode ≡ number) }
        ensures unknown { IfNone result ((mode : _) → number_of mode ≢ number) }
    {
        match number {
            1 => Some(Mode::AccessShare),
            2 => Some(Mode::RowShare),
            3 => Some(Mode::RowExclusive),
            4 => Some(Mode::ShareUpdateExclusive),
            5 => Some(Mode::Share),
            6 => Some(Mode::ShareRowExclusive),
            7 => Some(Mode::Exclusive),
            8 => Some(Mode::AccessExclusive),
            _ => None,
        }
    }

    /// PostgreSQL's name of the mode, as `AccessShareLock` (`lock_mode_names` in lock.c).
    pub fn name(self) -> &'static str
        ensures { result.now ≡ name_of self }
    {
        match self {
            Mode::AccessShare => "AccessShareLock",
            Mode::RowShare => "RowShareLock",
            Mode::RowExclusive => "RowExclusiveLock",
            Mode::ShareUpdateExclusive => "ShareUpdateExclusiveLock",
            Mode::Share => "ShareLock",
            Mode::ShareRowExclusive => "ShareRowExclusiveLock",
            Mode::Exclusive => "ExclusiveLock",
            Mode::AccessExclusive => "AccessExclusiveLock",
        }
    }

    /// The mode whose name is `name`, letter by letter, or `None` where no mode is called so.
    pub fn from_name(name: &str) -> Option<Mode>
        ensures found { IfSome result (λ mode. name_of mode ≡ name.now) }
        ensures unknown { IfNone result ((mode : _) → name_of mode ≢ name.now) }
    {
        match name {
            "AccessShareLock" => Some(Mode::AccessShare),
            "RowShareLock" => Some(Mode::RowShare),
            "RowExclusiveLock" => Some(Mode::RowExclusive),
            "ShareUpdateExclusiveLock" => Some(Mode::ShareUpdateExclusive),
            "ShareLock" => Some(Mode::Share),
            "ShareRowExclusiveLock" => Some(Mode::ShareRowExclusive),
            "ExclusiveLock" => Some(Mode::Exclusive),
            "AccessExclusiveLock" => Some(Mode::AccessExclusive),
            _ => None,
        }
    }
}

impl fmt::Display for Mode {
    ghost output = { λ mode. Some (name_of mode) };

    fn fmt<W: fmt::Write>(&self, f: &mut fmt::Formatter<W>) -> fmt::Result {
        write!(f, "{}", self.name())
    }
}
