//! What a connection is asked for, by a function that takes it and gives it back, and what comes of that.

use connections::{Connection, ManagerName, WaitingConnection};
use lock_manager::{
    Acquired, Answer, Board, Call, How, Mode, Owner, Part, Refusal, SessionId, Tag, Unlocked,
};
use std::sync::Wait;

/// What is asked of a connection, on behalf of its transaction.
#[derive(Clone, Copy)]
pub enum Request {
    Makes(Call),
    /// Who is in the way of the session of this number, which waits for this.
    Blockers(Tag, u16),
    /// An `acquire_while` that gives its wait up at the first look.
    While(Tag, Mode),
    /// The start of a request. A wait that it begins is cancelled.
    Start(Tag, Mode),
    Lock(Tag, Mode),
}

/// What comes of a request.
#[derive(Clone, Copy, PartialEq, Eq)]
pub enum Outcome {
    Granted,
    /// The lock is given back, and nothing of it is left.
    Released,
    Queued,
    GivenUp,
    /// The session of this number holds this mode.
    Conflict(u16, Mode),
    /// The rows of a listing, by slots and in the table.
    Listed(usize, usize),
    /// The rows of another look.
    Rows(usize),
    NoMemory,
    Otherwise,
}

/// What a `refusal` comes to.
fn refused(refusal: Refusal) -> Outcome {
    if refusal == Refusal::NoMemory {
        return Outcome::NoMemory;
    }
    let Refusal::Conflict { session, mode, how } = refusal else {
        return Outcome::Otherwise;
    };
    if how == How::Held {
        Outcome::Conflict(session.number(), mode)
    } else {
        Outcome::Otherwise
    }
}

/// What a request that is answered `answer` comes to.
fn acquired(answer: Result<Acquired, Refusal>) -> Outcome {
    match answer {
        Ok(Acquired::Granted) => Outcome::Granted,
        Ok(Acquired::AlreadyHeld) => Outcome::Otherwise,
        Err(refusal) => refused(refusal),
    }
}

/// What an unlock that is answered `answer` comes to.
fn unlocked(answer: Result<Unlocked, Refusal>) -> Outcome {
    match answer {
        Ok(Unlocked::Released) => Outcome::Released,
        Ok(Unlocked::StillHeld) => Outcome::Otherwise,
        Err(refusal) => refused(refusal),
    }
}

/// What a look that is answered `rows` comes to.
fn seen<T: Drop>(rows: &Result<Vec<T>, Refusal>) -> Outcome {
    match rows {
        Ok(rows) => Outcome::Rows(rows.len()),
        Err(refusal) => refused(*refusal),
    }
}

/// What a call that is answered `answer` comes to.
fn answered(answer: &Answer) -> Outcome {
    match answer {
        Answer::Acquired(answer) => acquired(*answer),
        Answer::Unlocked(answer) => unlocked(*answer),
        Answer::Queue(rows) => seen(rows),
        Answer::Blockers(rows) => seen(rows),
        Answer::Waits(rows) => seen(rows),
        Answer::Listing(Ok(listing)) => Outcome::Listed(listing.fast.len(), listing.table.len()),
        Answer::Listing(Err(refusal)) => refused(*refusal),
        _ => Outcome::Otherwise,
    }
}

/// Makes `call` with `connection`.
pub fn make<B: Board<Part>, M: ManagerName, R: Wait>(
    rt: &R,
    connection: &mut Connection<B, M>,
    call: &Call,
) -> Outcome {
    answered(&connection.session.make(rt, *call))
}

/// Begins to wait for `tag` in `mode` with `connection`, which comes back with an answer where it need not
/// wait.
pub fn queue<B: Board<Part>, M: ManagerName, R: Wait>(
    rt: &R,
    connection: Connection<B, M>,
    tag: Tag,
    mode: Mode,
) -> Result<(Connection<B, M>, Result<Acquired, Refusal>), WaitingConnection<B, M>> {
    let started = connection.start(rt, tag, mode, Owner::Transaction);
    started.into_parts()
}

/// Cancels the wait of `waiting`, and answers its connection.
pub fn end_wait<B: Board<Part>, M: ManagerName, R: Wait>(
    rt: &R,
    waiting: WaitingConnection<B, M>,
) -> Connection<B, M> {
    waiting.cancel(rt).into_parts().0
}

/// Takes `tag` in `mode` with `connection`, whose session is given up for the call and comes back.
fn lock<B: Board<Part>, M: ManagerName, R: Wait>(
    rt: &R,
    connection: Connection<B, M>,
    tag: Tag,
    mode: Mode,
) -> (Connection<B, M>, Outcome) {
    let life = connection.life().life;
    let session = connection.into_session();
    let (session, answer) = session.lock(rt, tag, mode, Owner::Transaction).into_parts();
    (Connection::new(session, life), acquired(answer))
}

/// Takes `tag` in `mode` with `connection`, and gives the wait up at its first look.
fn acquire_while<B: Board<Part>, M: ManagerName, R: Wait>(
    rt: &R,
    connection: &mut Connection<B, M>,
    tag: Tag,
    mode: Mode,
) -> Outcome {
    let owner = Owner::Transaction;
    let answer = connection
        .session
        .acquire_while(rt, tag, mode, owner, || false);
    match answer {
        Ok(Some(answer)) => acquired(Ok(answer)),
        Ok(None) => Outcome::GivenUp,
        Err(refusal) => refused(refusal),
    }
}

/// Asks `connection`, which comes back with what that comes to, for what `request` says.
pub fn ask<B: Board<Part>, M: ManagerName, R: Wait>(
    rt: &R,
    mut connection: Connection<B, M>,
    request: &Request,
) -> (Connection<B, M>, Outcome) {
    let outcome = match request {
        Request::Makes(call) => make(rt, &mut connection, call),
        Request::Blockers(tag, number) => match SessionId::new(*number) {
            Some(waiter) => make(rt, &mut connection, &Call::Blockers(*tag, waiter)),
            None => Outcome::Otherwise,
        },
        Request::While(tag, mode) => acquire_while(rt, &mut connection, *tag, *mode),
        Request::Lock(tag, mode) => return lock(rt, connection, *tag, *mode),
        Request::Start(tag, mode) => {
            return match queue(rt, connection, *tag, *mode) {
                Ok((connection, answer)) => (connection, acquired(answer)),
                Err(waiting) => (end_wait(rt, waiting), Outcome::Queued),
            };
        }
    };
    (connection, outcome)
}
