//! Scripts: a line is read, run and answered before the next one is read.
ghost use Rattle.std.specs.Prelude.{◌≡◌, ◌≤◌, ◌<◌, true, length, Ok, IfOk, IfErr, IfSome, OnOk};
ghost use Rattle.lock_script.specs.Command.{Addresses, NamesCounter, NamesFree};
ghost use Rattle.lock_script.specs.Sessions.{IsThere, MayAct};
ghost use Rattle.scenario.specs.Heard.{Hears, IsEnd, IsLastPicture, IsUnheard};
ghost use Rattle.scenario.specs.Played.{DrawsPicture, Follows, IsPassHeard, IsPollHeard, Plays, Settles, TellsWait};
ghost use Rattle.scenario.specs.Scripts.{IsBadLine, IsScriptHeard, PlaysLine};

use crate::answers::{Answer, Said};
use crate::desks::ScriptDesk;
use crate::listener::{Listener, tell_answer};
use crate::sessions::ScriptState;
use lock_manager::{OwnSession, TableRow};
use lock_script::{Caller, Command, Fault, LineReader, Name, parse};
use lock_table::PartTable;
use shared_rule::Board;
use std::io::Read;
use std::sync::Wait;

/// What the lines of a script act on: a desk with its sessions, and who hears the answers.
pub struct Scene<T: PartTable, B: Board<T>, D: ScriptDesk<OwnSession<T, B>>, L: Listener> {
    pub state: ScriptState<T, B, D>,
    pub listener: L,
}

impl<T: PartTable, B: Board<T>, D: ScriptDesk<OwnSession<T, B>>, L: Listener> Scene<T, B, D, L> {
    /// Draws who waits for whom at the end of the script, where the listener wants that, and tells the
    /// listener that the script has ended. Where `tells_left`, the listener hears next who is left waiting.
    pub(crate) fn tell_end<H: Wait>(&mut self, rt: &H, tells_left: bool) -> Result<(), Fault>
        ensures heard { OnOk result (Hears L.hears self.old.listener self.new.listener IsEnd) }
        ensures unheard { IfErr result IsUnheard }
    {
        self.draw_last(rt)?;
        let state = &self.state;
        self.listener.ended(&state.names, tells_left)
    }

    /// Draws who waits for whom at the end of the script, where the listener wants that.
    fn draw_last<H: Wait>(&mut self, rt: &H) -> Result<(), Fault>
        ensures drawn { OnOk result (Hears L.hears self.old.listener self.new.listener IsLastPicture) }
        ensures unheard { IfErr result IsUnheard }
    {
        let Some(pen) = self.listener.last_pen() else {
            return Ok(());
        };
        match self.state.last_picture(rt, pen) {
            Ok(picture) => {
                let state = &self.state;
                self.listener.picture(&state.names, &picture)
            }
            Err(_) => Err(Fault::NoMemory),
        }
    }

    /// Runs the lines of `reader`, to the end of the script or to the first fault, and tells the listener
    /// that the script has ended where it has no bad line.
    pub(crate) fn run_lines<H: Wait, R: Read + Drop>(
        &mut self,
        rt: &H,
        reader: R,
    ) -> Result<(), Fault>
        ensures played { IsScriptHeard B.seat B.view B.stack D.again D.database_of D.entries L.hears (R.remaining reader)
            (record { sessions = self.old.state.sessions; names = self.old.state.names }) self.old.listener result self.new.listener }
    {
        let mut lines = LineReader::new(reader);
        'lines: while let Some(line) = lines.next_line()? {
            let more = lines.has_line();
            self.run_line(rt, lines.number, line.as_str(), more)?;
        }
        self.tell_end(rt, false)
    }

    /// Tells the listener `line`, which has this `number`, and runs its command if it has one. Where `more`,
    /// the next line is at hand.
    pub(crate) fn run_line<H: Wait>(
        &mut self,
        rt: &H,
        number: u32,
        line: &str,
        more: bool,
    ) -> Result<(), Fault>
        ensures played { OnOk result (Hears L.hears self.old.listener self.new.listener (λ heard.
            PlaysLine B.seat B.view B.stack D.again D.database_of D.entries number
            (record { sessions = self.old.state.sessions; names = self.old.state.names }) line.now heard
            (record { sessions = self.new.state.sessions; names = self.new.state.names }))) }
        ensures bad { IfErr result (λ fault. IsBadLine L.hears number
            (record { sessions = self.old.state.sessions; names = self.old.state.names }) self.old.listener line.now fault
            (record { sessions = self.new.state.sessions; names = self.new.state.names }) self.new.listener) }
    {
        let state = &self.state;
        let parsed = parse(line, &state.sessions, &state.names.objects);
        self.listener
            .begin_line(number, line, more && parsed.is_ok())?;
        match parsed {
            Ok(Some(command)) => self.run(rt, command),
            Ok(None) => Ok(()),
            Err(what) => Err(Fault::BadLine { line: number, what }),
        }
    }

    /// Runs `command` and then polls those who wait, and tells the listener the answer and who goes on.
    pub fn run<H: Wait>(&mut self, rt: &H, command: Command) -> Result<(), Fault>
        requires addressed { Addresses self.old.state.sessions command }
        requires counter { NamesCounter command }
        requires free { NamesFree self.old.state.names.objects command }
        ensures played { OnOk result (Hears L.hears self.old.listener self.new.listener (λ heard.
            Plays B.seat B.view B.stack D.again D.database_of D.entries
            (record { sessions = self.old.state.sessions; names = self.old.state.names }) command heard
            (record { sessions = self.new.state.sessions; names = self.new.state.names }))) }
        ensures unheard { IfErr result IsUnheard }
    {
        let lister = lister_of(&command);
        let answer = self.state.answer(rt, command);
        let state = &self.state;
        tell_answer(&mut self.listener, &state.names, &answer)?;
        self.follow_up(rt, lister, &answer)?;
        self.poll_all(rt)?;
        self.listener.end_line()
    }

    /// Tells the listener what it wants to hear after `answer`: after a listing that `lister` asked for, a
    /// picture of who waits for whom; after an answer that a session waits, who is in its way.
    fn follow_up<H: Wait>(
        &mut self,
        rt: &H,
        lister: Option<Caller>,
        answer: &Answer,
    ) -> Result<(), Fault>
        ensures followed { OnOk result (Hears L.hears self.old.listener self.new.listener (λ more.
            Follows B.seat B.view B.stack answer.now
            (record { sessions = self.old.state.sessions; names = self.old.state.names }) more
            (record { sessions = self.new.state.sessions; names = self.new.state.names }))) }
        ensures unheard { IfErr result IsUnheard }
    {
        if let Some(name) = waiter_of(answer) {
            return self.tell_wait(rt, name);
        }
        match (lister, answer) {
            (Some(caller), Answer::Listing(listing)) => {
                self.draw(rt, caller, listing.table.as_slice())
            }
            _ => Ok(()),
        }
    }

    /// Tells the listener who is in the way of the session `name`, which has begun to wait, as the session
    /// says itself, if the listener wants that.
    fn tell_wait<H: Wait>(&mut self, rt: &H, name: Name) -> Result<(), Fault>
        ensures told { OnOk result (Hears L.hears self.old.listener self.new.listener (λ more.
            TellsWait B.seat B.view B.stack name
            (record { sessions = self.old.state.sessions; names = self.old.state.names }) more
            (record { sessions = self.new.state.sessions; names = self.new.state.names }))) }
        ensures unheard { IfErr result IsUnheard }
    {
        if !self.listener.wants_waits() {
            return Ok(());
        }
        let Some(place) = self.state.sessions.waiting.place_called(&name) else {
            return Ok(());
        };
        match self.state.blocked(rt, place) {
            Ok(blocked) => {
                let state = &self.state;
                self.listener.blocked(&state.names, &blocked)
            }
            Err(_) => Err(Fault::NoMemory),
        }
    }

    /// Draws who waits for whom, by the `rows` of a listing that `caller` asked for, if the listener wants
    /// that.
    fn draw<H: Wait>(&mut self, rt: &H, caller: Caller, rows: &[TableRow]) -> Result<(), Fault>
        ensures drawn { OnOk result (Hears L.hears self.old.listener self.new.listener (λ picture. DrawsPicture B.seat B.view B.stack
            (record { sessions = self.old.state.sessions; names = self.old.state.names }) picture
            (record { sessions = self.new.state.sessions; names = self.new.state.names }))) }
        ensures unheard { IfErr result IsUnheard }
    {
        let Some(pen) = self.listener.pen() else {
            return Ok(());
        };
        if caller.place >= self.state.sessions.resting.len() {
            return Ok(());
        }
        match self.state.picture(rt, caller.place, pen, rows) {
            Ok(picture) => {
                let state = &self.state;
                self.listener.picture(&state.names, &picture)
            }
            Err(refusal) => {
                let state = &self.state;
                self.listener
                    .said(&state.names, caller.name, Said::Refused(refusal))
            }
        }
    }

    /// Polls those who wait, pass by pass, until a pass finds none that goes on. A pass in which one goes on
    /// leaves fewer who wait.
    fn poll_all<H: Wait>(&mut self, rt: &H) -> Result<(), Fault>
        ensures settled { OnOk result (Hears L.hears self.old.listener self.new.listener (λ news. Settles B.seat B.view B.stack
            (record { sessions = self.old.state.sessions; names = self.old.state.names }) news
            (record { sessions = self.new.state.sessions; names = self.new.state.names }))) }
        ensures unheard { IfErr result IsUnheard }
    {
        'passes: while self.poll_each(rt)? {}
        Ok(())
    }

    /// Polls each session that waits, in the byte order of their names, and answers whether one went on.
    fn poll_each<H: Wait>(&mut self, rt: &H) -> Result<bool, Fault>
        ensures passed { IfOk result (λ went_on. IsPassHeard B.seat B.view B.stack L.hears
            (record { sessions = self.old.state.sessions; names = self.old.state.names }) self.old.listener went_on
            (record { sessions = self.new.state.sessions; names = self.new.state.names }) self.new.listener) }
        ensures fewer { result ≡ Ok true →
            length self.new.state.sessions.waiting < length self.old.state.sessions.waiting }
        ensures unheard { IfErr result IsUnheard }
    {
        let mut went_on = false;
        let mut place = 0;
        'places: while place < self.state.sessions.waiting.len() {
            if self.poll(rt, place)? {
                went_on = true;
            } else {
                place += 1;
            }
        }
        Ok(went_on)
    }

    /// Polls the session at `place` of those that wait, carries a cancel out that was asked, and answers
    /// whether the session goes on.
    fn poll<H: Wait>(&mut self, rt: &H, place: usize) -> Result<bool, Fault>
        requires { place < length self.old.state.sessions.waiting }
        ensures fewer { result ≡ Ok true →
            length self.new.state.sessions.waiting < length self.old.state.sessions.waiting }
        ensures no_more { length self.new.state.sessions.waiting ≤ length self.old.state.sessions.waiting }
        ensures polled { IfOk result (λ went_on. IsPollHeard B.seat B.view B.stack L.hears
            (record { sessions = self.old.state.sessions; names = self.old.state.names }) self.old.listener place went_on
            (record { sessions = self.new.state.sessions; names = self.new.state.names }) self.new.listener) }
        ensures unheard { IfErr result IsUnheard }
    {
        match self.state.poll(rt, place) {
            None => Ok(false),
            Some((name, said)) => {
                let state = &self.state;
                self.listener.said(&state.names, name, said)?;
                Ok(true)
            }
        }
    }
}

/// The session that asks for a listing by `command`, if `command` is a `list`.
fn lister_of(command: &Command) -> Option<Caller> {
    match command {
        Command::List(caller) => Some(*caller),
        _ => None,
    }
}

/// The session that waits from now on by `answer`, if `answer` says that one does.
fn waiter_of(answer: &Answer) -> Option<Name>
    ensures { IfSome result (λ name. answer.now ≡ Answer.Said name Said.Waits) }
{
    match answer {
        Answer::Said(name, Said::Waits) => Some(*name),
        _ => None,
    }
}
