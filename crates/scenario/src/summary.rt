//! Who waited in a run, from which line to which, for what, and behind whom.

ghost use Rattle.std.specs.Prelude.{◌≡◌, ℕ, ◌<◌, ◌≤◌, [], All, length, map, max, IfNone, IfOk, IfSome, OnErr, OnOk, Some, false, slice_set, true};
ghost use Rattle.std.specs.List.{HoldsAt, list_all};
ghost use Rattle.scenario.specs.Summaries.{BeginsRow, EndsRow, IsOpen, is_in_time, obstacle_in, shown_obstacle};

use crate::answers::Said;
use crate::text::{ObjectText, name_of};
use lock_manager::{Blocked, Blocker, How, Mode, Tag};
use lock_script::{Name, Names};
use std::alloc::{AllocError, Global};
use std::fmt;

/// A session that is in the way of a wait, by a mode.
#[derive(Clone, Copy, Debug)]
pub struct Obstacle {
    pub session: Name,
    pub mode: Mode,
    pub how: How,
}

/// How a wait of a run ended, and after which line.
#[derive(Clone, Copy, Debug)]
pub struct WaitEnd {
    /// The number of the script's line that was read last when the wait ended.
    pub line: u32,
    /// Whether the wait ended with the lock granted. It ended with a request to stop otherwise.
    pub granted: bool,
}

/// A wait of a run.
#[derive(Drop)]
pub struct WaitRow {
    pub session: Name,
    /// The number of the script's line that asked for the lock.
    pub from: u32,
    /// How the wait ended, or `None` while it lasts.
    pub ended: Option<WaitEnd>,
    pub tag: Tag,
    pub mode: Mode,
    /// Who was in the way of the wait when it began.
    pub behind: Vec<Obstacle>,
}

/// The waits of a run, in the order in which they began. None ends at a line before the one that it began at.
#[derive(Drop)]
pub struct Summary {
    alloc: Global,
    /// The number of the script's line that is run.
    pub line: u32,
    /// The number of the script's line that was read last. A line that was kept is run when later ones were
    /// read.
    pub read: u32,
    pub waits: Vec<WaitRow>,
    ghost was_read: { line ≤ read },
    ghost in_time: { list_all (is_in_time read) waits.items ≡ true },
}

impl Summary {
    /// A summary of a run in which nobody has waited. Its rows take memory by `alloc`.
    pub fn new(alloc: Global) -> Self
        ensures { result.waits.items ≡ [] }
    {
        Summary {
            alloc,
            line: 0,
            read: 0,
            waits: Vec::new(alloc),
        }
    }

    /// Notes that the line of the number `number` is read, if it is none that was read before.
    pub fn read_line(&mut self, number: u32)
        ensures line { self.new.line ≡ self.old.line }
        ensures read { self.new.read ≡ max self.old.read number }
        ensures waits { self.new.waits ≡ self.old.waits }
    {
        self.read = self.read.max(number);
    }

    /// Notes that the line of the number `number` is run from now on. It is read now, or was kept when it was
    /// read.
    pub fn begin_line(&mut self, number: u32)
        ensures line { self.new.line ≡ number }
        ensures read { self.new.read ≡ max self.old.read number }
        ensures waits { self.new.waits ≡ self.old.waits }
    {
        self.read_line(number);
        self.line = number;
    }

    /// Notes that the wait `blocked` begins, as its session describes it: the wait becomes the last row.
    /// Sessions are known by `names`.
    pub fn begin_wait(&mut self, names: &Names, blocked: &Blocked) -> Result<(), AllocError>
        ensures begun { OnOk result (BeginsRow names.now self.old.line blocked.now self.old.waits.items self.new.waits.items) }
        ensures refused { OnErr result (self.new.waits.items ≡ self.old.waits.items) }
        ensures line { self.new.line ≡ self.old.line }
        ensures read { self.new.read ≡ self.old.read }
    {
        let behind = obstacles(self.alloc, names, blocked.blockers.as_slice())?;
        self.waits.push(WaitRow {
            session: name_of(names, blocked.session),
            from: self.line,
            ended: None,
            tag: blocked.tag,
            mode: blocked.mode,
            behind,
        })?;
        Ok(())
    }

    /// Notes that the wait of the session `name` ends at the line that was read last: the lock was granted
    /// where `granted`, or else the session gave up.
    fn end_wait(&mut self, name: &Name, granted: bool)
        ensures ended { EndsRow name.now.bytes self.old.read granted self.old.waits.items self.new.waits.items }
        ensures line { self.new.line ≡ self.old.line }
        ensures read { self.new.read ≡ self.old.read }
    {
        let line = self.read;
        if let Some(place) = place_of_open(self.waits.as_slice(), name) {
            end_row(self.waits.as_mut_slice(), place, WaitEnd { line, granted });
        }
    }

    /// Hears of `said`, what the session `name` was answered: where that ends its wait, the wait's row ends.
    pub fn hear(&mut self, name: &Name, said: &Said)
        ensures line { self.new.line ≡ self.old.line }
        ensures read { self.new.read ≡ self.old.read }
        ensures granted { said.now ≡ Said.GrantedAfterWaiting →
            EndsRow name.now.bytes self.old.read true self.old.waits.items self.new.waits.items }
        ensures cancelled { said.now ≡ Said.Cancelled →
            EndsRow name.now.bytes self.old.read false self.old.waits.items self.new.waits.items }
    {
        match said {
            Said::GrantedAfterWaiting => self.end_wait(name, true),
            Said::Cancelled => self.end_wait(name, false),
            _ => {}
        }
    }

    /// The names of the sessions that still wait, in the order in which their waits began.
    pub fn left(&self) -> Result<Vec<Name>, AllocError> {
        let mut names = Vec::new(self.alloc);
        for row in &self.waits {
            if row.ended.is_none() {
                names.push(row.session)?;
            }
        }
        Ok(names)
    }
}

/// The obstacles of a wait: those of `found`, with their sessions by `names`.
fn obstacles(alloc: Global, names: &Names, found: &[Blocker]) -> Result<Vec<Obstacle>, AllocError>
    ensures { IfOk result (λ those. map shown_obstacle those.items ≡ map (obstacle_in names.now) found.now) }
{
    let mut behind = Vec::new(alloc);
    'found: for blocker in found {
        behind.push(Obstacle {
            session: name_of(names, blocker.session),
            mode: blocker.mode,
            how: blocker.how,
        })?;
    }
    Ok(behind)
}

/// Ends the wait of the row at `place` of `waits` as `end` says.
fn end_row(waits: &mut [WaitRow], place: usize, end: WaitEnd)
    requires { place < length waits.old }
    ensures { HoldsAt (λ row. waits.new ≡ slice_set waits.old place (record row { ended = Some end })) waits.old place }
{
    waits[place].ended = Some(end);
}

/// The place among `waits` of the wait of the session `name` that has not ended, if there is one.
fn place_of_open(waits: &[WaitRow], name: &Name) -> Option<usize>
    ensures within { IfSome result (λ place. place < length waits.now) }
    ensures open { IfSome result (HoldsAt (IsOpen name.now.bytes) waits.now) }
    ensures none { IfNone result (All (λ row. IsOpen name.now.bytes row → ⊥) waits.now) }
{
    'rows: for (place, row) in waits.iter().enumerate() {
        if row.ended.is_none() && row.session.as_str() == name.as_str() {
            return Some(place);
        }
    }
    None
}

/// A row of a summary, as text. The object that the row's session awaited is known by `names`.
#[derive(Clone, Copy, Drop)]
pub struct WaitText<'a> {
    pub names: &'a Names,
    pub wait: &'a WaitRow,
}

impl fmt::Display for WaitText<'_> {
    fn fmt<W: fmt::Write>(&self, f: &mut fmt::Formatter<W>) -> fmt::Result {
        let WaitRow {
            session,
            from,
            mode,
            tag,
            ..
        } = self.wait;
        let object = ObjectText {
            names: self.names,
            tag: *tag,
        };
        match self.wait.ended {
            Some(WaitEnd { line, .. }) => {
                write!(f, "{session} waited from line {from} to line {line}")?
            }
            None => write!(f, "{session} waits from line {from}")?,
        }
        write!(f, " for {mode} on {object}")?;
        if let Some(WaitEnd { granted: false, .. }) = self.wait.ended {
            write!(f, ", cancelled")?;
        }
        let mut before = ":";
        for obstacle in &self.wait.behind {
            let Obstacle { session, mode, how } = *obstacle;
            let how = standing_text(how);
            write!(f, "{before} {session} {how} {mode}")?;
            before = ",";
        }
        Ok(())
    }
}

/// How a session is in the way of a wait, as `how` says, before the name of its mode.
fn standing_text(how: How) -> &'static str {
    match how {
        How::Held => "holds",
        How::Awaited => "stands before with",
    }
}
