//! The desk of a script with its open sessions, which are called by their places. All is over any board: the
//! desk opens and closes the sessions.
ghost use Rattle.std.specs.Prelude.{◌≡◌, ◌⊎◌, ◌≤◌, ◌<◌, ◌+◌, [], All, None, length, is_some, if◌then◌else◌, IfOk};
ghost use Rattle.lock_manager.specs.Crews.{SeatsAre};
ghost use Rattle.lock_script.specs.Command.{Addresses, NamesCounter, NamesFree};
ghost use Rattle.lock_script.specs.Objects.{name_given, tag_called};
ghost use Rattle.scenario.specs.Answered.{AcquiresAt, CallsAt, ClosesAt, LooksAroundAt, OwnsAt, PollsAt, TellsBlockedAt, WaitsAt};
ghost use Rattle.scenario.specs.Answers.{Answers, IsNumberAt, IsOtherOf, NamesObject, Opens, OpensNone};
ghost use Rattle.scenario.specs.Calls.{IsActionOf, IsScripted};
ghost use Rattle.modes_core.specs.Sessions.{usual_sessions};
ghost use Rattle.scenario.specs.Numbers.{IsKnown};

use crate::answers::{Answer, Row, Said};
use crate::calls::{draw, make};
use crate::desks::ScriptDesk;
use crate::picture::Picture;
use crate::style::Pen;
use crate::waits::{begin, cancel, poll_wait, tell_blocked};
use lock_manager::{
    Blocked, Call, OwnSession, OwnWaiting, Owner, QueueRow, Refusal, SessionId, TableRow, Tag,
};
use lock_script::{
    Caller, Command, Name, Named, NamedObject, Names, ObjectName, OpenSessions, Place, Target,
};
use lock_table::PartTable;
use shared_rule::Board;
use std::alloc::AllocError;
use std::sync::Wait;

/// What a command of a script has a session or the script do.
#[derive(Clone, Copy)]
pub enum Action {
    /// A session of this name and database is opened.
    Open(Name, u32),
    /// An object is given a name.
    Name(ObjectName, Tag),
    /// The session of this caller is closed.
    Close(Caller),
    /// A session asks for a lock for an owner, and waits for it if need be.
    Lock(Target, Owner),
    /// A session makes a call that answers at once, about the session of this name: another one, or itself.
    Make(Caller, Name, Call),
    /// A session says how often each owner of it has an object in a mode.
    Owned(Target),
    /// The hash of an object is shown.
    Hash(Tag),
}

/// What `caller` does who makes `call` about no other session.
fn of_caller(caller: Caller, call: Call) -> Action
    ensures { result ≡ Action.Make caller caller.name call }
{
    Action::Make(caller, caller.name, call)
}

/// What `command` comes to, where the other session that it names, if it names one, has the number `other`.
pub fn action_of(command: Command, other: SessionId) -> Action
    ensures { IsActionOf command other result }
{
    match command {
        Command::Session { name, database } => Action::Open(name, database),
        Command::Name { name, tag } => Action::Name(name, tag),
        Command::Close(caller) => Action::Close(caller),
        Command::Lock(target, owner) => Action::Lock(target, owner),
        Command::Hash(tag) => Action::Hash(tag),
        Command::Try(target, owner) => {
            of_caller(target.caller, Call::TryLock(target.tag, target.mode, owner))
        }
        Command::Fast(target, owner) => {
            of_caller(target.caller, Call::TryFast(target.tag, target.mode, owner))
        }
        Command::Unlock(target, owner) => {
            of_caller(target.caller, Call::Unlock(target.tag, target.mode, owner))
        }
        Command::UnlockAll(caller) => of_caller(caller, Call::UnlockAll),
        Command::Commit(caller) => of_caller(caller, Call::Commit),
        Command::Abort(caller) => of_caller(caller, Call::Abort),
        Command::Begin(caller) => of_caller(caller, Call::BeginNested),
        Command::SubCommit(caller) => of_caller(caller, Call::CommitNested),
        Command::SubAbort(caller) => of_caller(caller, Call::AbortNested),
        Command::Owned(target) => Action::Owned(target),
        Command::Waiters(target) => of_caller(
            target.caller,
            Call::HasWaiters(target.tag, target.mode),
        ),
        Command::Queue(caller, tag) => of_caller(caller, Call::Queue(tag)),
        Command::Blockers(by, it, tag) => Action::Make(by, it.name, Call::Blockers(tag, other)),
        Command::Cancel(by, it) => Action::Make(by, it.name, Call::AskCancel(other)),
        Command::List(caller) => of_caller(caller, Call::List),
        Command::Count(caller, index) => of_caller(caller, Call::StrongCount(index)),
    }
}

/// What a script acts on: a desk that opens sessions, the names of sessions by the numbers that the desk gave
/// out, the names of objects, and the open sessions. Each open session is one of the desk's manager, which
/// has `USUAL_SESSIONS` at most, under a number that the desk gave out, and the desk counts the open
/// sessions. The state is taken apart at its end, once no session is open.
pub struct ScriptState<T: PartTable, B: Board<T>, D: ScriptDesk<OwnSession<T, B>>> {
    pub desk: D,
    pub names: Names,
    pub sessions: OpenSessions<OwnSession<T, B>, OwnWaiting<T, B>>,
    ghost seats: { SeatsAre B.seat D.seat },
    ghost named: { length names.sessions ≡ D.issued desk },
    ghost few: { D.manager.limit ≤ usual_sessions },
    ghost issued: { D.issued desk ≤ D.manager.limit },
    ghost within: { D.live desk ≤ D.issued desk },
    ghost counted: { D.live desk ≡ length sessions.resting + length sessions.waiting },
    ghost resting: { All (λ one. IsKnown (B.seat one.session.board) D.manager (D.issued desk)) sessions.resting },
    ghost waiting: { All (λ one. IsKnown (B.seat one.session.board) D.manager (D.issued desk)) sessions.waiting },
}

impl<T: PartTable, B: Board<T>, D: ScriptDesk<OwnSession<T, B>>> ScriptState<T, B, D> {
    ghost use Rattle.lock_script.specs.Sessions.{IsThere, MayAct};

    /// Has the session that `command` names do what `command` says, and answers the command.
    pub fn answer<H: Wait>(&mut self, rt: &H, command: Command) -> Answer
        requires addressed { Addresses self.old.sessions command }
        requires counter { NamesCounter command }
        requires free { NamesFree self.old.names.objects command }
        ensures answered { Answers B.seat B.view B.stack D.again D.database_of D.entries
            (record { sessions = self.old.sessions; names = self.old.names })
            (record { sessions = self.new.sessions; names = self.new.names }) command result }
    {
        let other = self.other_of(&command);
        match action_of(command, other) {
            Action::Open(name, database) => self.open(rt, name, database),
            Action::Name(name, tag) => self.name_object(name, tag),
            Action::Close(caller) => self.close(rt, caller),
            Action::Lock(target, owner) => self.lock(rt, target, owner),
            Action::Make(caller, other, call) => self.call(rt, caller, other, call),
            Action::Owned(target) => self.owned(target),
            Action::Hash(tag) => Answer::Row(Row::Hash(tag)),
        }
    }

    /// The number of the other session that `command` names, or the first session number where `command`
    /// names no other one.
    fn other_of(&self, command: &Command) -> SessionId
        requires addressed { Addresses self.now.sessions command.now }
        ensures number { IsOtherOf B.seat self.now.sessions command.now result }
    {
        match command {
            Command::Blockers(_, other, _) => self.number_at(other.place),
            Command::Cancel(_, other) => self.number_at(other.place),
            _ => SessionId::default(),
        }
    }

    /// Opens a session of `database` under the name `name`.
    fn open<H: Wait>(&mut self, rt: &H, name: Name, database: u32) -> Answer
        ensures opened { Opens B.seat D.again D.database_of D.entries
            (record { sessions = self.old.sessions; names = self.old.names })
            (record { sessions = self.new.sessions; names = self.new.names }) name database result
            ⊎ OpensNone
            (record { sessions = self.old.sessions; names = self.old.names })
            (record { sessions = self.new.sessions; names = self.new.names }) name result }
    {
        match self.desk.open(rt, database) {
            Ok(opened) => {
                let session = opened.id();
                self.names.sessions.put(session, name);
                self.sessions.resting.put(name, opened);
                Answer::Said(name, Said::Opened { session, database })
            }
            Err(refusal) => Answer::Said(name, Said::Refused(refusal)),
        }
    }

    /// Gives the object `tag` the name `name`.
    fn name_object(&mut self, name: ObjectName, tag: Tag) -> Answer
        requires free { tag_called self.old.names.objects name.bytes ≡ None }
        requires unnamed { name_given self.old.names.objects tag ≡ None }
        ensures named { NamesObject self.old.names.objects self.new.names.objects name tag result }
        ensures names { self.new.names.sessions ≡ self.old.names.sessions }
        ensures sessions { self.new.sessions ≡ self.old.sessions }
        ensures desk { self.new.desk ≡ self.old.desk }
    {
        match self.names.objects.push(name, tag) {
            Ok(()) => Answer::Row(Row::Named(NamedObject { name, tag })),
            Err(_) => Answer::NoMemory,
        }
    }

    /// Closes the session `caller`. The session's name is free again, and its number is where the desk gives
    /// those of closed sessions out again.
    fn close<H: Wait>(&mut self, rt: &H, caller: Caller) -> Answer
        requires place { MayAct self.old.sessions caller.place }
        ensures closed { ClosesAt B.seat B.view B.stack self.old.sessions self.new.sessions caller result }
        ensures names { self.new.names ≡ self.old.names }
        ensures live { D.live self.new.desk + 1 ≡ D.live self.old.desk }
    {
        let Named { session, .. } = self.sessions.resting.take(caller.place);
        self.desk.close(rt, session);
        Answer::Said(caller.name, Said::Closed)
    }

    /// Has the session of `target` take its mode on its object for `owner`, or begin to wait for it.
    fn lock<H: Wait>(&mut self, rt: &H, target: Target, owner: Owner) -> Answer
        requires { MayAct self.old.sessions target.caller.place }
        ensures locked { AcquiresAt B.seat B.view B.stack self.old.sessions self.new.sessions target owner result
            ⊎ WaitsAt B.seat B.view B.stack self.old.sessions self.new.sessions target owner result }
        ensures names { self.new.names ≡ self.old.names }
    {
        let Named { name, session } = self.sessions.resting.take(target.caller.place);
        match begin(rt, session, target.tag, target.mode, owner) {
            Ok((session, said)) => {
                self.sessions.resting.put(name, session);
                Answer::Said(name, said)
            }
            Err(waiting) => {
                self.sessions.waiting.put(name, waiting);
                Answer::Said(name, Said::Waits)
            }
        }
    }

    /// Has the session `caller` make `call`, which is answered at once, and which may be about the session
    /// `other`.
    fn call<H: Wait>(&mut self, rt: &H, caller: Caller, other: Name, call: Call) -> Answer
        requires place { MayAct self.old.sessions caller.place }
        requires scripted { IsScripted call }
        ensures called { CallsAt B.seat B.view B.stack self.old.sessions self.new.sessions caller other call result }
        ensures names { self.new.names ≡ self.old.names }
    {
        let session = self.sessions.resting.session_mut(caller.place);
        make(rt, session, caller.name, other, &call)
    }

    /// How often each owner of the session of `target` has the object of `target` in its mode: the innermost
    /// level of the session's transaction, and the session itself.
    fn owned(&self, target: Target) -> Answer
        requires { MayAct self.now.sessions target.caller.place }
        ensures { OwnsAt B.seat B.view B.stack self.now.sessions self.now.sessions target result }
    {
        let session = &self.sessions.resting.at(target.caller.place).session;
        Answer::Said(
            target.caller.name,
            Said::Owned {
                of_transaction: session.owner_count(target.tag, target.mode, Owner::Transaction),
                of_session: session.owner_count(target.tag, target.mode, Owner::Session),
            },
        )
    }

    /// The picture of who waits for whom, by the `rows` of the lock table in a listing, as the session at
    /// `place` finds it; `pen` draws it.
    pub fn picture<H: Wait>(
        &mut self,
        rt: &H,
        place: usize,
        pen: Pen,
        rows: &[TableRow],
    ) -> Result<Picture, Refusal>
        requires { MayAct self.old.sessions place }
        ensures looked { LooksAroundAt B.seat B.view B.stack self.old.sessions self.new.sessions place }
        ensures names { self.new.names ≡ self.old.names }
    {
        let session = self.sessions.resting.session_mut(place);
        let mut picture = draw(rt, session, pen, rows)?;
        self.add_holds(&mut picture)?;
        Ok(picture)
    }

    /// Adds to `picture` what each session holds of the objects that are awaited in the picture. Refused
    /// where there is no memory for that.
    fn add_holds(&self, picture: &mut Picture) -> Result<(), Refusal> {
        match self.add_all_holds(picture) {
            Ok(()) => Ok(()),
            Err(_) => Err(Refusal::NoMemory),
        }
    }

    /// Adds to `picture` what `add_holds` does. The error is being out of memory.
    fn add_all_holds(&self, picture: &mut Picture) -> Result<(), AllocError> {
        for place in 0..self.sessions.resting.len() {
            let session = &self.sessions.resting.at(place).session;
            for queue in 0..picture.queues() {
                if let Some(tag) = picture.queue_at(queue) {
                    picture.add_hold(session.id(), tag, session.held(tag))?;
                }
            }
        }
        for place in 0..self.sessions.waiting.len() {
            let waiting = &self.sessions.waiting.at(place).session;
            for queue in 0..picture.queues() {
                if let Some(tag) = picture.queue_at(queue) {
                    picture.add_hold(waiting.id(), tag, waiting.held(tag))?;
                }
            }
        }
        Ok(())
    }

    /// The wait of the session at `place` among those that wait, with who is in its way, as the session says
    /// itself. Refused where there is no memory for the list.
    pub fn blocked<H: Wait>(&mut self, rt: &H, place: usize) -> Result<Blocked, Refusal>
        requires { place < length self.old.sessions.waiting }
        ensures told { IfOk result (TellsBlockedAt B.seat B.view B.stack self.old.sessions self.new.sessions place) }
        ensures as_many { length self.new.sessions.waiting ≡ length self.old.sessions.waiting }
        ensures names { self.new.names ≡ self.old.names }
    {
        let waiting = self.sessions.waiting.session_mut(place);
        tell_blocked(rt, waiting)
    }

    /// The wait queue that has the session at `place` among those that wait, as the session says itself.
    /// Refused where there is no memory for the list.
    fn queue_at<H: Wait>(&mut self, rt: &H, place: usize) -> Result<Vec<QueueRow>, Refusal>
        requires { place < length self.old.sessions.waiting }
        ensures as_many { length self.new.sessions.waiting ≡ length self.old.sessions.waiting }
        ensures names { self.new.names ≡ self.old.names }
    {
        let waiting = self.sessions.waiting.session_mut(place);
        waiting.queue(rt)
    }

    /// The picture of who waits for whom, as the sessions that wait say themselves; `pen` draws it. Refused
    /// where there is no memory for it.
    pub fn last_picture<H: Wait>(&mut self, rt: &H, pen: Pen) -> Result<Picture, Refusal>
        ensures names { self.new.names ≡ self.old.names }
    {
        let mut picture = Picture::new(pen);
        'waits: for place in 0..self.sessions.waiting.len() {
            let blocked = self.blocked(rt, place)?;
            if picture.add_blocked(&blocked).is_err() {
                return Err(Refusal::NoMemory);
            }
            if !picture.has_queue(blocked.tag) {
                let queue = self.queue_at(rt, place)?;
                if picture.add_queue(blocked.tag, queue.as_slice()).is_err() {
                    return Err(Refusal::NoMemory);
                }
            }
        }
        self.add_holds(&mut picture)?;
        Ok(picture)
    }

    /// The number of the session at `place`.
    fn number_at(&self, place: Place) -> SessionId
        requires { IsThere self.now.sessions place }
        ensures { IsNumberAt B.seat self.now.sessions place result }
    {
        match place {
            Place::Resting(place) => self.sessions.resting.at(place).session.id(),
            Place::Waiting(place) => self.sessions.waiting.at(place).session.id(),
        }
    }

    /// Polls the wait of the session at `place` among those that wait, and carries a cancel out that was
    /// asked for. Where the session goes on, the answer has its name and what it is answered.
    pub fn poll<H: Wait>(&mut self, rt: &H, place: usize) -> Option<(Name, Said)>
        requires { place < length self.old.sessions.waiting }
        ensures polled { PollsAt B.seat B.view B.stack self.old.sessions self.new.sessions place result }
        ensures names { self.new.names ≡ self.old.names }
        ensures waiting { length self.new.sessions.waiting + (if is_some result then 1 else 0)
            ≡ length self.old.sessions.waiting }
    {
        let Named { name, session } = self.sessions.waiting.take(place);
        match poll_wait(rt, session) {
            Ok((session, said)) => {
                self.sessions.resting.put(name, session);
                Some((name, said))
            }
            Err(waiting) => {
                self.sessions.waiting.put_at(place, name, waiting);
                None
            }
        }
    }

    /// Cancels the waits of the sessions that wait, and then closes all sessions, in the byte order of their
    /// names.
    pub fn close_all<H: Wait>(&mut self, rt: &H)
        ensures none_waits { self.new.sessions.waiting ≡ [] }
        ensures none_open { self.new.sessions.resting ≡ [] }
        ensures none_live { D.live self.new.desk ≡ 0 }
    {
        self.cancel_all(rt);
        'sessions: while let Some(first) = self.sessions.resting.take_first() {
            self.desk.close(rt, first.session);
        }
    }

    /// Cancels the waits of the sessions that wait.
    pub fn cancel_all<H: Wait>(&mut self, rt: &H)
        ensures none_waits { self.new.sessions.waiting ≡ [] }
    {
        'waits: while let Some(first) = self.sessions.waiting.take_first() {
            let Named { name, session } = first;
            let (session, _) = cancel(rt, session);
            self.sessions.resting.put(name, session);
        }
    }
}
