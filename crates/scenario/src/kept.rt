//! Runs in which a line whose session waits is kept until that goes on.
ghost use Rattle.std.specs.Prelude.{◌≡◌, ◌⊎◌, ◌^◌, ◌-◌, IfErr, IfOk, None, OnOk, map, min};
ghost use Rattle.lock_script.specs.Kept.{kept_count};
ghost use Rattle.scenario.specs.Heard.{IsUnheard, Kept, Left};
ghost use Rattle.scenario.specs.InTurn.{DoesLine, FailsIn, FailsKept, FailsPlain, IsBad, IsKeptFor, RunsKept, TakesIn};
ghost use Rattle.scenario.specs.Spoken.{IsHeardBy};
ghost use Rattle.sql_script.specs.declared.lines.Heard.{Heard as Said};
ghost use Rattle.scenario.specs.Acts.{IsKeptHeard};
ghost use Rattle.scenario.specs.Staged.{play_of, stage_of};

use crate::desks::ScriptDesk;
use crate::listener::Listener;
use crate::run::Scene;
use crate::runs::Keeping;
use crate::sql_runs::Spoken;
use lock_manager::OwnSession;
use lock_script::{ByName, Defect, Fault, KeptLine, KeptLines, LineReader, Name};
use lock_table::PartTable;
use shared_rule::Board;
use std::alloc::{AllocError, Global};
use std::io::Read;
use std::sync::Wait;

/// A line of a script.
#[derive(Clone, Copy)]
pub(crate) struct ReadLine<'a> {
    pub number: u32,
    pub text: &'a str,
    /// Whether the next line of the script is at hand, without waiting for input.
    pub more: bool,
}

impl<T: PartTable, B: Board<T>, D: ScriptDesk<OwnSession<T, B>>, L: Listener> Scene<T, B, D, L> {
    /// Runs the lines of `reader`, to the end of the script or to the first fault. Where `keeping` says so, a
    /// line is kept while its session waits or has earlier kept lines. After each line that is run, the kept
    /// lines are run whose sessions don't wait, in their order. The listener hears at the end what is left.
    pub(crate) fn run_keeping<H: Wait, R: Read + Drop>(
        &mut self,
        rt: &H,
        reader: R,
        keeping: Keeping,
    ) -> Result<(), Fault>
        ensures played { IsKeptHeard B.seat B.view B.stack D.again D.database_of D.entries L.hears keeping.speaks keeping.keeps
            (R.remaining reader) (record { sessions = self.old.state.sessions; names = self.old.state.names }) self.old.listener
            result self.new.listener }
    {
        let mut lines = LineReader::new(reader);
        let mut kept = KeptLines::new(keeping.alloc);
        let mut script = Spoken::new(keeping);
        'lines: while let Some(line) = lines.next_line()? {
            let read = ReadLine {
                number: lines.number,
                text: line.as_str(),
                more: lines.has_line(),
            };
            self.hear_line(rt, keeping, &mut kept, &mut script, read)?;
        }
        if let Err(unplayed) = script.finish() {
            return Err(self.refuse(lines.number, unplayed));
        }
        self.tell_end(rt, true)?;
        self.tell_left(keeping.alloc, &kept)
    }

    /// Does what `line` says, as `script` hears it. What `keeping` has kept of the line while its session
    /// waits goes to `kept`. Refused where the line's SQL can't be played.
    fn hear_line<H: Wait>(
        &mut self,
        rt: &H,
        keeping: Keeping,
        kept: &mut KeptLines,
        script: &mut Spoken,
        line: ReadLine<'_>,
    ) -> Result<(), Fault>
        ensures done { OnOk result ((said : Said) × IsHeardBy script.old.script line.entry.text.now said
            × DoesLine (play_of B.seat B.view B.stack D.again D.database_of D.entries L.hears) keeping.keeps
            (stage_of self.old.state.sessions self.old.state.names self.old.listener) kept.old
            (record { number = line.entry.number; text = line.entry.text.now }) said
            (stage_of self.new.state.sessions self.new.state.names self.new.listener) kept.new) }
        ensures bad { script.old.script ≡ None → IfErr result (IsBad (FailsPlain
            (play_of B.seat B.view B.stack D.again D.database_of D.entries L.hears) keeping.keeps
            (stage_of self.old.state.sessions self.old.state.names self.old.listener) kept.old
            (record { number = line.entry.number; text = line.entry.text.now }))
            (stage_of self.new.state.sessions self.new.state.names self.new.listener)) }
        ensures silent { script.old.script ≡ None → script.new.script ≡ None }
    {
        match script.hear(line) {
            Ok(heard) => self.run_heard(rt, keeping, kept, line, &heard),
            Err(unplayed) => Err(self.refuse(line.number, unplayed)),
        }
    }

    /// Keeps `line` after the lines of `kept`, or runs it and then the kept lines that can be run.
    pub(crate) fn take_in<H: Wait>(
        &mut self,
        rt: &H,
        alloc: Global,
        kept: &mut KeptLines,
        line: ReadLine<'_>,
    ) -> Result<(), Fault>
        ensures taken { OnOk result (TakesIn (play_of B.seat B.view B.stack D.again D.database_of D.entries L.hears)
            (stage_of self.old.state.sessions self.old.state.names self.old.listener) kept.old
            (record { number = line.entry.number; text = line.entry.text.now })
            (stage_of self.new.state.sessions self.new.state.names self.new.listener) kept.new) }
        ensures bad { IfErr result (IsBad (FailsIn (play_of B.seat B.view B.stack D.again D.database_of D.entries L.hears)
            (stage_of self.old.state.sessions self.old.state.names self.old.listener) kept.old
            (record { number = line.entry.number; text = line.entry.text.now }))
            (stage_of self.new.state.sessions self.new.state.names self.new.listener)) }
    {
        match kept.session_before(line.text, &self.state.sessions) {
            Some(session) => self.keep(alloc, kept, session, line),
            None => {
                self.run_line(rt, line.number, line.text, line.more)?;
                self.run_ready(rt, kept, line.more)
            }
        }
    }

    /// Keeps `line` after the lines of `kept` until `session` goes on. A bad line is a fault at once.
    fn keep(
        &mut self,
        alloc: Global,
        kept: &mut KeptLines,
        session: Name,
        line: ReadLine<'_>,
    ) -> Result<(), Fault>
        ensures heard { OnOk result (L.hears self.old.listener (Kept line.entry.number line.entry.text.now) self.new.listener) }
        ensures kept { OnOk result (IsKeptFor session.bytes kept.old
            (record { number = line.entry.number; text = line.entry.text.now }) kept.new) }
        ensures bad { IfErr result (IsBad (λ bad _ now. (bad ≡ record { number = line.entry.number; text = line.entry.text.now })
            × L.hears self.old.listener (Kept line.entry.number line.entry.text.now) now) self.new.listener) }
        ensures state { self.new.state ≡ self.old.state }
    {
        let state = &self.state;
        let defect = kept.defect(alloc, line.text, &state.sessions, &state.names.objects);
        let more = line.more && matches!(&defect, Ok(None));
        self.listener.keep_line(line.number, line.text, more)?;
        kept_or_fault(alloc, kept, session, line, defect)
    }

    /// Runs the lines of `kept` whose sessions don't wait, in their order, until the session of each line
    /// that is left waits. Where `more`, the line after the one that was read last is at hand.
    pub(crate) fn run_ready<H: Wait>(
        &mut self,
        rt: &H,
        kept: &mut KeptLines,
        more: bool,
    ) -> Result<(), Fault>
        ensures ran { OnOk result (RunsKept (play_of B.seat B.view B.stack D.again D.database_of D.entries L.hears)
            (stage_of self.old.state.sessions self.old.state.names self.old.listener) kept.old
            (stage_of self.new.state.sessions self.new.state.names self.new.listener) kept.new) }
        ensures bad { IfErr result (IsBad (FailsKept (play_of B.seat B.view B.stack D.again D.database_of D.entries L.hears)
            (stage_of self.old.state.sessions self.old.state.names self.old.listener) kept.old)
            (stage_of self.new.state.sessions self.new.state.names self.new.listener)) }
    {
        'ready: while let Some((_, line)) = kept.take_ready(&self.state.sessions) {
            self.run_line(rt, line.number, line.text.as_str(), more)?;
        }
        Ok(())
    }

    /// Tells the listener who waits at the end of the script, and how many lines of `kept` were not reached.
    pub(crate) fn tell_left(&mut self, alloc: Global, kept: &KeptLines) -> Result<(), Fault>
        ensures heard { OnOk result (L.hears self.old.listener
            (Left (map (λ one. one.name) self.old.state.sessions.waiting) (min (kept_count kept.now) (2 ^ 64 - 1))) self.new.listener) }
        ensures unheard { IfErr result IsUnheard }
    {
        let state = &self.state;
        match names_in(alloc, &state.sessions.waiting) {
            Ok(waiting) => self.listener.left(waiting.as_slice(), kept.len() as u64),
            Err(_) => Err(Fault::NoMemory),
        }
    }
}

/// Keeps `line` of `session` after the lines of `kept`. Refused where the line has a defect, as `defect`
/// says, or where memory runs out.
fn kept_or_fault(
    alloc: Global,
    kept: &mut KeptLines,
    session: Name,
    line: ReadLine<'_>,
    defect: Result<Option<Defect>, AllocError>,
) -> Result<(), Fault>
    ensures kept { OnOk result (IsKeptFor session.bytes kept.old
        (record { number = line.entry.number; text = line.entry.text.now }) kept.new) }
    ensures bad { IfErr result (λ fault. (fault ≡ Fault.NoMemory)
        ⊎ ((what : Defect) × (fault ≡ Fault.BadLine line.entry.number what))) }
{
    let number = line.number;
    match defect {
        Ok(None) => {}
        Ok(Some(what)) => return Err(Fault::BadLine { line: number, what }),
        Err(_) => return Err(Fault::NoMemory),
    }
    let Ok(text) = String::from_str(alloc, line.text) else {
        return Err(Fault::NoMemory);
    };
    match kept.keep(session, KeptLine { number, text }) {
        Ok(()) => Ok(()),
        Err(_) => Err(Fault::NoMemory),
    }
}

/// The names of all of `sessions`, in their order.
fn names_in<S>(alloc: Global, sessions: &ByName<S>) -> Result<Vec<Name>, AllocError>
    ensures { IfOk result (λ names. names.items ≡ map (λ one. one.name) sessions.now) }
{
    let mut names = Vec::new(alloc);
    'places: for place in 0..sessions.len() {
        names.push(sessions.at(place).name)?;
    }
    Ok(names)
}
