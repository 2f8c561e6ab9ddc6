//! The answers of a script as text.
ghost use Rattle.std.specs.Prelude.{◌≡◌, Some};
ghost use Rattle.scenario.specs.Texts.{how_text as text_of_how, left_text, name_in, object_text, plain_text as text_of_plain, refusal_text as text_of_refusal, refused_text, row_text, said_text, standing_text as text_of_standing, hash_text};

use crate::answers::{Row, Said};
use lock_manager::{Acquired, How, Refusal, SessionId, SlotRow, TableRow, Tag, Unlocked};
use lock_script::{Name, NamedObject, Names};
use std::fmt;

/// What a session in the way does with its mode, by `how`.
pub fn how_text(how: How) -> &'static str
    ensures { result.now ≡ text_of_how how }
{
    match how {
        How::Held => "held",
        How::Awaited => "awaited",
    }
}

/// Whether the session of a row has the lock, by `granted`, or awaits it.
fn standing_text(granted: bool) -> &'static str
    ensures { result.now ≡ text_of_standing granted }
{
    if granted { "granted" } else { "awaited" }
}

/// The text of `refusal`, before what it names.
pub fn refusal_text(refusal: Refusal) -> &'static str
    ensures { result.now ≡ text_of_refusal refusal }
{
    match refusal {
        Refusal::Conflict { .. } => "conflict",
        Refusal::NoMemory => "no memory",
        Refusal::LocalFull => "local table full",
        Refusal::CountFull => "count full",
        Refusal::SimpleDeadlock { .. } => "simple deadlock",
        Refusal::Cancelled => "cancelled",
        Refusal::NotHeld => "not held",
        Refusal::Busy => "busy",
        Refusal::SlotsFull => "slots full",
        Refusal::StrongCounted => "strong lock counted",
        Refusal::NotEligible => "not eligible",
        Refusal::NoMoreSessions => "no more sessions",
        Refusal::BadConfig => "bad config",
        Refusal::TooDeep => "too deep",
        Refusal::NoNested => "no nested transaction",
    }
}

/// The name of `session`, which a row or a refusal speaks of, among `names`. Each session was opened under a
/// name.
pub fn name_of(names: &Names, session: SessionId) -> Name
    ensures { result.bytes ≡ name_in names.now session }
{
    names.sessions.name(session).unwrap_or(Name::new())
}

/// The text of `said` where that is fixed words alone, and else an empty text.
pub fn plain_text(said: Said) -> &'static str
    ensures { result.now ≡ text_of_plain said }
{
    match said {
        Said::Acquired(Acquired::Granted) => "granted",
        Said::Acquired(Acquired::AlreadyHeld) => "already held",
        Said::Waits => "waits",
        Said::GrantedAfterWaiting => "granted after waiting",
        Said::Cancelled => "cancelled",
        Said::Waiters(true) => "waiters yes",
        Said::Waiters(false) => "waiters no",
        Said::Unlocked(Unlocked::Released) => "released",
        Said::Unlocked(Unlocked::StillHeld) => "still held",
        Said::Committed => "committed",
        Said::Aborted => "aborted",
        Said::Closed => "closed",
        Said::Opened { .. }
        | Said::Asked(_)
        | Said::UnlockedAll(_)
        | Said::Level(_)
        | Said::Owned { .. }
        | Said::NotOwned(_)
        | Said::Refused(_) => "",
    }
}

/// The text of what a session is answered, without the session's own name. Other sessions are known by
/// `names`.
#[derive(Clone, Copy, Drop)]
pub struct SaidText<'a> {
    pub names: &'a Names,
    pub said: Said,
}

impl fmt::Display for SaidText<'_> {
    ghost output = { λ it. Some (said_text it.names.now it.said) };

    fn fmt<W: fmt::Write>(&self, f: &mut fmt::Formatter<W>) -> fmt::Result {
        match self.said {
            Said::Opened { session, database } => {
                let number = session.number();
                write!(f, "session {number} database {database}")
            }
            Said::Asked(other) => write!(f, "asked {other}"),
            Said::UnlockedAll(released) => write!(f, "released {released}"),
            Said::Level(level) => write!(f, "level {level}"),
            Said::Owned {
                of_transaction,
                of_session,
            } => write!(f, "transaction {of_transaction} session {of_session}"),
            Said::NotOwned(mode) => write!(f, "you don't own a lock of type {mode}"),
            Said::Refused(refusal) => {
                let names = self.names;
                let refused = RefusedText { names, refusal };
                write!(f, "{refused}")
            }
            plain => write!(f, "{}", plain_text(plain)),
        }
    }
}

/// The text of `refusal`, in which sessions go by `names`.
#[derive(Clone, Copy, Drop)]
struct RefusedText<'a> {
    names: &'a Names,
    refusal: Refusal,
}

impl fmt::Display for RefusedText<'_> {
    ghost output = { λ it. Some (refused_text it.names.now it.refusal) };

    fn fmt<W: fmt::Write>(&self, f: &mut fmt::Formatter<W>) -> fmt::Result {
        let number = self.refusal.number();
        let text = refusal_text(self.refusal);
        match &self.refusal {
            Refusal::Conflict { session, mode, how } => {
                let other = name_of(self.names, *session);
                let how = how_text(*how);
                write!(f, "refused {number} {text} {other} {mode} {how}")
            }
            Refusal::SimpleDeadlock { session } => {
                let other = name_of(self.names, *session);
                write!(f, "refused {number} {text} {other}")
            }
            _ => write!(f, "refused {number} {text}"),
        }
    }
}

/// An object, as text: the name that the script gave it, or else its tag.
#[derive(Clone, Copy, Drop)]
pub struct ObjectText<'a> {
    pub names: &'a Names,
    pub tag: Tag,
}

impl fmt::Display for ObjectText<'_> {
    ghost output = { λ it. Some (object_text it.names.now it.tag) };

    fn fmt<W: fmt::Write>(&self, f: &mut fmt::Formatter<W>) -> fmt::Result {
        match self.names.objects.name_of(self.tag) {
            Some(name) => write!(f, "{name}"),
            None => write!(f, "{}", self.tag),
        }
    }
}

/// A row of an answer, as text. The row's sessions and objects are known by `names`.
#[derive(Clone, Copy, Drop)]
pub struct RowText<'a> {
    pub names: &'a Names,
    pub row: Row,
}

impl fmt::Display for RowText<'_> {
    ghost output = { λ it. Some (row_text it.names.now it.row) };

    fn fmt<W: fmt::Write>(&self, f: &mut fmt::Formatter<W>) -> fmt::Result {
        let names = self.names;
        match self.row {
            Row::Slot(row) => {
                let name = name_of(names, row.session);
                let SlotRow {
                    slot,
                    tag,
                    mode,
                    ..
                } = row;
                let object = ObjectText { names, tag };
                write!(f, "fast {name} {slot} {object} {mode}")
            }
            Row::Table(row) => {
                let name = name_of(names, row.session);
                let how = standing_text(row.granted);
                let TableRow { tag, mode, .. } = row;
                let object = ObjectText { names, tag };
                write!(f, "table {name} {object} {mode} {how}")
            }
            Row::Rows(rows) => write!(f, "rows {rows}"),
            Row::Wait(row) => {
                let name = name_of(names, row.session);
                let mode = row.mode;
                write!(f, "queue {name} {mode}")
            }
            Row::Waits(waits) => write!(f, "waits {waits}"),
            Row::InTheWay(name, blocker) => {
                let who = name_of(names, blocker.session);
                let mode = blocker.mode;
                let how = how_text(blocker.how);
                write!(f, "{name} waits for {who} {mode} {how}")
            }
            Row::NotWaiting(name) => write!(f, "{name} isn't waiting"),
            Row::Counter { index, shown } => write!(f, "strong {index} {shown}"),
            Row::Hash(tag) => {
                let hash = HashText { tag };
                write!(f, "{hash}")
            }
            Row::Named(NamedObject { name, tag }) => write!(f, "name {name} {tag}"),
        }
    }
}

/// The hash of an object with its partition and its strong lock counter, as text.
#[derive(Clone, Copy, Drop)]
struct HashText {
    tag: Tag,
}

impl fmt::Display for HashText {
    ghost output = { λ it. Some (hash_text it.tag) };

    fn fmt<W: fmt::Write>(&self, f: &mut fmt::Formatter<W>) -> fmt::Result {
        let hash = self.tag.hash();
        let partition = self.tag.partition();
        let strong = self.tag.strong_index();
        write!(f, "hash {hash} partition {partition} strong {strong}")
    }
}

/// Who waits at the end of a script, and how many lines of theirs were not reached, as text.
#[derive(Clone, Copy, Drop)]
pub struct LeftText<'a> {
    pub first: Name,
    /// The others that wait.
    pub others: &'a [Name],
    pub lines: u64,
}

impl fmt::Display for LeftText<'_> {
    ghost output = { λ it. Some (left_text it.first it.others.now it.lines) };

    fn fmt<W: fmt::Write>(&self, f: &mut fmt::Formatter<W>) -> fmt::Result {
        let first = self.first;
        write!(f, "left waiting: {first}")?;
        'others: for name in self.others {
            write!(f, ", {name}")?;
        }
        match self.lines {
            0 => Ok(()),
            1 => write!(f, "; not reached: 1 line"),
            lines => write!(f, "; not reached: {lines} lines"),
        }
    }
}
