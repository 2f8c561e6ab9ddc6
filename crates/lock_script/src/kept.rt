//! Lines that were read while their sessions wait, and are run once these go on.
ghost use Rattle.std.specs.Prelude.{◌≡◌, ◌≢◌, ◌<◌, ◌≤◌, ◌+◌, ◌++◌, ◌-◌, ◌^◌, min, ℕ, List, true, false, [], ◌∷◌, length, map, take, slice_index_or, IfSome, IfNone, MatchOption, OnOk, OnErr, Some, None};
ghost use Rattle.std.specs.VecDeque.{deque_len};
ghost use Rattle.lock_script.specs.declared.kept.KeptQueue.{KeptQueue};
ghost use Rattle.lock_script.specs.Kept.{AreFirstReady, HasToWait, IsEarlier, IsKeptOrder, IsLowest, NoneReady, addressed_by, first_number, kept_count, line_of, lines_of, name_behind};
ghost use Rattle.lock_script.specs.Words.{words_of};
ghost use Rattle.lock_script.specs.Names.{IsFree};

use crate::command::parse;
use crate::commands::{WordKind, command_row};
use crate::faults::Defect;
use crate::names::{Name, USUAL_SESSIONS};
use crate::objects::ObjectNames;
use crate::sessions::{ByName, OpenSessions};
use crate::words::{parse_name, split_words};
use std::alloc::{AllocError, Global};
use std::collections::VecDeque;
use std::marker::Model;

/// A line that is kept while its session waits.
#[derive(Drop)]
pub struct KeptLine {
    /// The number of the line in the script, counted from 1.
    pub number: u32,
    pub text: String,
}

/// The lines that are kept while the session named `session` waits, in the order of reading.
#[derive(Drop)]
pub struct KeptQueue {
    pub session: Name,
    pub lines: VecDeque<KeptLine>,
    /// Whether the session is open once the lines of the queue were run.
    ends_open: bool,
}

impl KeptQueue {
    /// Keeps `line` after the other lines of the queue. Refused only where memory ran out, and then `line` is
    /// not kept.
    fn push(&mut self, line: KeptLine) -> Result<(), AllocError>
        ensures kept { OnOk result (self.new.lines.items ≡ self.old.lines.items ++ line ∷ []) }
        ensures refused { OnErr result (self.new.lines.items ≡ self.old.lines.items) }
        ensures session { self.new.session ≡ self.old.session }
    {
        // A session whose first line is kept waits, and so is open.
        let was_open = self.ends_open || self.lines.is_empty();
        let ends_open = ends_open(line.text.as_str(), was_open);
        self.lines.push_back(line)?;
        self.ends_open = ends_open;
        Ok(())
    }

    /// Takes the first line out of the queue, if there is one.
    fn pop(&mut self) -> Option<KeptLine>
        ensures first { MatchOption result (self.new.lines.items ≡ self.old.lines.items)
            (λ line. self.old.lines.items ≡ line ∷ self.new.lines.items) }
        ensures none { IfNone result (self.old.lines.items ≡ []) }
        ensures fewer { IfSome result (λ _. deque_len self.old.lines ≡ deque_len self.new.lines + 1) }
        ensures session { self.new.session ≡ self.old.session }
    {
        self.lines.pop_front()
    }
}

/// Lines that are kept while their sessions wait. Contracts see a list of queues; a session's queue is the
/// first one under the session's name (`lines_of`).
#[derive(Drop)]
pub struct KeptLines {
    alloc: Global,
    /// The queues of kept lines: one for each session name under which lines were ever kept.
    queues: Vec<KeptQueue>,
}

impl Model for KeptLines {
    ghost use Rattle.std.specs.Prelude.{List};
    ghost use Rattle.lock_script.specs.declared.kept.KeptQueue.{KeptQueue};
    ghost use Rattle.lock_script.specs.Kept.{HaveOneQueue};

    ghost Value = { List KeptQueue };

    ghost view = { λ kept. kept.queues.items };

    ghost invariant = { λ kept. HaveOneQueue kept.queues.items };
}

impl KeptLines {
    /// No kept line of any session. Lines take memory by `alloc`.
    pub fn new(alloc: Global) -> Self
        ensures { result ≡ [] }
    {
        KeptLines {
            alloc,
            queues: Vec::new(alloc),
        }
    }

    /// How many lines are kept of all sessions together, as far as a `usize` counts.
    pub fn len(&self) -> usize
        ensures { result ≡ min (kept_count self.now) (2 ^ 64 - 1) }
    {
        count_lines(self.queues.as_slice())
    }

    /// Keeps `line` of the session named `session`, after the session's other lines. Refused only where
    /// memory ran out, and then `line` is not kept.
    pub fn keep(&mut self, session: Name, line: KeptLine) -> Result<(), AllocError>
        ensures kept { OnOk result (IsKeptOrder (lines_of self.new) (lines_of self.old) (line_of session.bytes line)) }
        ensures refused { OnErr result (IsKeptOrder (lines_of self.old) (λ _. []) (lines_of self.new)) }
    {
        match place_of(self.queues.as_slice(), &session) {
            Some(place) => self.queues[place].push(line),
            None => self.keep_first(session, line),
        }
    }

    /// Keeps `line` of the session named `session`, which has no queue yet.
    fn keep_first(&mut self, session: Name, line: KeptLine) -> Result<(), AllocError>
        requires { (k : ℕ) (d : KeptQueue) → k < length self.old →
            (slice_index_or self.old k d).session.bytes ≢ session.bytes }
        ensures kept { OnOk result (IsKeptOrder (lines_of self.new) (lines_of self.old) (line_of session.bytes line)) }
        ensures refused { OnErr result (IsKeptOrder (lines_of self.old) (λ _. []) (lines_of self.new)) }
    {
        let mut queue = KeptQueue {
            session,
            lines: VecDeque::new(self.alloc),
            ends_open: true,
        };
        queue.push(line)?;
        self.queues.push(queue)?;
        Ok(())
    }

    /// Takes out the line to run next, with the name of its session, if there is one: of the first kept lines
    /// of all sessions that don't wait by `sessions`, the one that was read first. Each session's other lines
    /// keep their order.
    pub fn take_ready<S, W>(&mut self, sessions: &OpenSessions<S, W>) -> Option<(Name, KeptLine)>
        ensures order { IfSome result (λ it. IsKeptOrder (lines_of self.old) (line_of it.0.bytes it.1) (lines_of self.new)) }
        ensures rests { IfSome result (λ it. IsFree sessions.now.waiting it.0.bytes) }
        ensures lowest { IfSome result (λ it. IsLowest self.old sessions.now.waiting it.1.number) }
        ensures fewer { IfSome result (λ _. kept_count self.old ≡ kept_count self.new + 1) }
        ensures none { IfNone result (NoneReady self.old sessions.now.waiting) }
        ensures same { IfNone result (self.new ≡ self.old) }
    {
        let session = self.first_ready(sessions)?;
        let Some(line) = self.pop(&session) else {
            unreachable!();
        };
        Some((session, line))
    }

    /// Takes out the first line that is kept of the session named `session`, if there is one.
    fn pop(&mut self, session: &Name) -> Option<KeptLine>
        ensures order { IfSome result (λ line. IsKeptOrder (lines_of self.old) (line_of session.now.bytes line) (lines_of self.new)) }
        ensures first { IfSome result (λ line. first_number (lines_of self.old session.now.bytes) ≡ Some line.number) }
        ensures fewer { IfSome result (λ _. kept_count self.old ≡ kept_count self.new + 1) }
        ensures none { IfNone result (lines_of self.old session.now.bytes ≡ []) }
    {
        match place_of(self.queues.as_slice(), session) {
            Some(place) => self.queues[place].pop(),
            None => None,
        }
    }

    /// The name of the session whose first kept line was read first, of the sessions that don't wait by
    /// `sessions`, if lines are kept of one.
    fn first_ready<S, W>(&self, sessions: &OpenSessions<S, W>) -> Option<Name>
        ensures rests { IfSome result (λ name. IsFree sessions.now.waiting name.bytes) }
        ensures lowest { IfSome result (λ name. IfSome (first_number (lines_of self.now name.bytes))
            (IsLowest self.now sessions.now.waiting)) }
        ensures some { IfSome result (λ name. lines_of self.now name.bytes ≢ []) }
        ensures none { IfNone result (NoneReady self.now sessions.now.waiting) }
    {
        let place = place_ready(self.queues.as_slice(), sessions)?;
        Some(self.queues[place].session)
    }

    /// The name of the session that `line` addresses, where `line` has to be kept: the session waits by
    /// `sessions`, or earlier lines of the session are kept.
    pub fn session_before<S, W>(&self, line: &str, sessions: &OpenSessions<S, W>) -> Option<Name>
        ensures waits { IfSome result (λ name. HasToWait self.now sessions.now.waiting line.now name.bytes) }
        ensures goes_on { IfNone result ((name : List ℕ) → ¬ HasToWait self.now sessions.now.waiting line.now name) }
    {
        let name = addressed(line)?;
        if is_called(&sessions.waiting, &name) || self.has_lines_of(&name) {
            Some(name)
        } else {
            None
        }
    }

    /// Whether lines of the session named `session` are kept.
    pub fn has_lines_of(&self, session: &Name) -> bool
        ensures some { result ≡ true → lines_of self.now session.now.bytes ≢ [] }
        ensures none { result ≡ false → lines_of self.now session.now.bytes ≡ [] }
    {
        match place_of(self.queues.as_slice(), session) {
            Some(place) => !self.queues[place].lines.is_empty(),
            None => false,
        }
    }

    /// What is wrong with `line`, which is to be kept, if something is: by the names of `objects`, and by
    /// those of `sessions` that are open once the kept lines were run.
    pub fn defect<S, W>(
        &self,
        alloc: Global,
        line: &str,
        sessions: &OpenSessions<S, W>,
        objects: &ObjectNames,
    ) -> Result<Option<Defect>, AllocError> {
        let mut open = OpenSessions::new(alloc)?;
        put_all(&mut open, &sessions.resting);
        put_all(&mut open, &sessions.waiting);
        for queue in &self.queues {
            follow(&mut open, queue);
        }
        Ok(parse(line, &open, objects).err())
    }
}

/// How many lines `queues` have, as far as a `usize` counts.
fn count_lines(queues: &[KeptQueue]) -> usize
    ensures { result ≡ min (kept_count queues.now) (2 ^ 64 - 1) }
{
    let mut lines: usize = 0;
    for queue in queues {
        lines = lines.saturating_add(queue.lines.len());
    }
    lines
}

/// The place in `queues` of the queue whose first line was read first, of those that have lines and whose
/// sessions don't wait by `sessions`, if there is one.
fn place_ready<S, W>(queues: &[KeptQueue], sessions: &OpenSessions<S, W>) -> Option<usize>
    ensures within { IfSome result (λ place. place < length queues.now) }
    ensures ready { AreFirstReady sessions.now.waiting queues.now result }
{
    let mut found = None;
    'queues: for (place, queue) in queues.iter().enumerate() {
        if let Some(number) = number_ready(queue, sessions) {
            found = Some(earlier(found, place, number));
        }
    }
    match found {
        Some((place, _)) => Some(place),
        None => None,
    }
}

/// The number of the first line of `queue`, if that has lines and its session doesn't wait by `sessions`.
fn number_ready<S, W>(queue: &KeptQueue, sessions: &OpenSessions<S, W>) -> Option<u32>
    ensures rests { IfSome result (λ number. IsFree sessions.now.waiting queue.now.session.bytes) }
    ensures first { IfSome result (λ number. first_number queue.now.lines.items ≡ Some number) }
    ensures none { IfNone result (IsFree sessions.now.waiting queue.now.session.bytes →
        first_number queue.now.lines.items ≡ None) }
{
    let line = queue.lines.front()?;
    if is_called(&sessions.waiting, &queue.session) {
        return None;
    }
    Some(line.number)
}

/// Of the queue that was `found`, by its place and the number of its first line, and the one at `place`,
/// whose first line has this `number`, the one with the lower number.
fn earlier(found: Option<(usize, u32)>, place: usize, number: u32) -> (usize, u32)
    ensures { IsEarlier found place number result }
{
    match found {
        Some((before, lowest)) if lowest <= number => (before, lowest),
        _ => (place, number),
    }
}

/// The place in `queues` of the queue of the session named `session`, if there is one.
fn place_of(queues: &[KeptQueue], session: &Name) -> Option<usize>
    ensures within { IfSome result (λ place. place < length queues.now) }
    ensures called { IfSome result (λ place. (d : KeptQueue) →
        (slice_index_or queues.now place d).session.bytes ≡ session.now.bytes) }
    ensures first { IfSome result (λ place. (k : ℕ) (d : KeptQueue) → k < place →
        (slice_index_or queues.now k d).session.bytes ≢ session.now.bytes) }
    ensures none { IfNone result ((k : ℕ) (d : KeptQueue) → k < length queues.now →
        (slice_index_or queues.now k d).session.bytes ≢ session.now.bytes) }
{
    for (place, queue) in queues.iter().enumerate() {
        if queue.session.as_str() == session.as_str() {
            return Some(place);
        }
    }
    None
}

/// Whether one of `sessions` goes by `name`.
fn is_called<S>(sessions: &ByName<S>, name: &Name) -> bool
    ensures free { result ≡ false → IsFree sessions.now name.now.bytes }
    ensures called { result ≡ true → ¬ IsFree sessions.now name.now.bytes }
{
    sessions.place_called(name).is_some()
}

/// The name of the session that `line` addresses, if it addresses one.
fn addressed(line: &str) -> Option<Name>
    ensures { MatchOption result (addressed_by (take 6 (words_of line.now)) ≡ None)
        (λ name. addressed_by (take 6 (words_of line.now)) ≡ Some name.bytes) }
{
    let words = split_words(line);
    let Some((verb, behind)) = words.as_slice().split_first() else {
        return None;
    };
    let Some(row) = command_row(verb) else {
        return None;
    };
    name_behind(row.kinds, behind)
}

/// The name of a session that stands first among `words`, where `kinds` says that the name of one that is to
/// act, or is opened, stands there.
fn name_behind(kinds: &[WordKind], words: &[&str]) -> Option<Name>
    ensures { MatchOption result (name_behind (Some kinds.now) (map (λ word. word.now) words.now) ≡ None)
        (λ name. name_behind (Some kinds.now) (map (λ word. word.now) words.now) ≡ Some name.bytes) }
{
    match (kinds, words) {
        ([WordKind::CallerName, ..], [word, ..]) => parse_name(word),
        ([WordKind::FreeName, ..], [word, ..]) => parse_name(word),
        _ => None,
    }
}

/// Puts the names of `sessions` into `open` as names of open sessions, as far as there is room.
fn put_all<S>(open: &mut OpenSessions<(), ()>, sessions: &ByName<S>) {
    for place in 0..sessions.len() {
        put(open, sessions.at(place).name);
    }
}

/// Puts `name` into `open` as the name of an open session, where there is room.
fn put(open: &mut OpenSessions<(), ()>, name: Name) {
    if open.resting.len() < USUAL_SESSIONS {
        open.resting.put(name, ());
    }
}

/// Takes the session of `queue` out of `open` where the lines of `queue` close it.
fn follow(open: &mut OpenSessions<(), ()>, queue: &KeptQueue) {
    if queue.lines.is_empty() || queue.ends_open {
        return;
    }
    if let Some(place) = open.resting.place_called(&queue.session) {
        let _ = open.resting.take(place);
    }
}

/// Whether a session is open after `line`, which addresses it. `was_open` says whether the session was open
/// before `line`.
fn ends_open(line: &str, was_open: bool) -> bool {
    let words = split_words(line);
    match words.as_slice().first() {
        Some(verb) if *verb == "close" => false,
        Some(verb) if *verb == "session" => true,
        _ => was_open,
    }
}
