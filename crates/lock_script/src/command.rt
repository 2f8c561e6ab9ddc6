//! The commands of the script language, and the parse of their words.
ghost use Rattle.std.specs.Prelude.{◌≡◌, [], ◌∷◌, ◌++◌, map, take, Some, None, IfOk, IfErr, IfSome, MatchOption};
ghost use Rattle.modes_core.specs.Mode.{name_of};
ghost use Rattle.lock_script.specs.Command.{Addresses, NamesCounter, NamesFree, NamesOpen, NamesCaller};
ghost use Rattle.lock_script.specs.Defects.{IsBarred, IsDefectOf, IsFirstWrong, IsMisfit, IsMisfitAnyway, IsNoTag, IsRefused, IsUnnamed, MeansNothing, commands, lock_commands, lock_words, look_commands, words_behind};
ghost use Rattle.lock_script.specs.declared.commands.WordKind.TheVariants.{CallerName, CounterIndex, ModeName, OpenName, TagWord};
ghost use Rattle.lock_script.specs.Meaning.{IsCommandOf, IsSilent, Means, NamesActor, NamesBlocked, NamesBoth, NamesCount, NamesLone, NamesOwned, NamesQueue, NamesTag};
ghost use Rattle.lock_script.specs.Objects.{tag_in};
ghost use Rattle.lock_script.specs.Words.{words_of};

use crate::faults::Defect;
use crate::names::Name;
use crate::naming::{parse_naming, parse_session};
use crate::objects::{ObjectName, ObjectNames, parse_object};
use crate::sessions::{Caller, OpenSessions, Opened, Place};
use crate::words::{parse_name, parse_owner, parse_strong_index, split_words};
use modes_core::{Mode, Owner, Tag};

/// Which lock a line is about, and of which session.
#[derive(Clone, Copy, Debug, PartialEq, Eq)]
pub struct Target {
    pub caller: Caller,
    pub tag: Tag,
    pub mode: Mode,
}

/// What a line of a script asks for.
#[derive(Clone, Copy, PartialEq, Eq)]
pub enum Command {
    /// `session NAME DB`
    Session { name: Name, database: u32 },
    /// `name OBJECT TAG`
    Name { name: ObjectName, tag: Tag },
    /// `try NAME TAG MODE OWNER`
    Try(Target, Owner),
    /// `fast NAME TAG MODE OWNER`
    Fast(Target, Owner),
    /// `lock NAME TAG MODE OWNER`
    Lock(Target, Owner),
    /// `unlock NAME TAG MODE OWNER`
    Unlock(Target, Owner),
    /// `unlock_all NAME`
    UnlockAll(Caller),
    /// `commit NAME`
    Commit(Caller),
    /// `abort NAME`
    Abort(Caller),
    /// `begin NAME`
    Begin(Caller),
    /// `subcommit NAME`
    SubCommit(Caller),
    /// `subabort NAME`
    SubAbort(Caller),
    /// `owned NAME TAG MODE`
    Owned(Target),
    /// `waiters NAME TAG MODE`
    Waiters(Target),
    /// `queue NAME TAG`
    Queue(Caller, Tag),
    /// `blockers NAME OTHER TAG`
    Blockers(Caller, Opened, Tag),
    /// `cancel BY NAME`
    Cancel(Caller, Opened),
    /// `list NAME`
    List(Caller),
    /// `count NAME INDEX`
    Count(Caller, u16),
    /// `hash TAG`
    Hash(Tag),
    /// `close NAME`
    Close(Caller),
}

/// What `line` asks for, by the names of `sessions` and `objects`, or `None` where `line` has no word or is a
/// comment. Only the first six words are looked at, since no command has as many.
pub fn parse<S, W>(
    line: &str,
    sessions: &OpenSessions<S, W>,
    objects: &ObjectNames,
) -> Result<Option<Command>, Defect>
    ensures addressed { IfOk result (λ command. IfSome command (Addresses sessions.now)) }
    ensures counter { IfOk result (λ command. IfSome command NamesCounter) }
    ensures free { IfOk result (λ command. IfSome command (NamesFree objects.now)) }
    ensures meaning { IfOk result (λ command. MatchOption command (IsSilent (take 6 (words_of line.now)))
        (Means sessions.now objects.now (take 6 (words_of line.now)))) }
    ensures refused { IfErr result (λ _. MeansNothing sessions.now objects.now (take 6 (words_of line.now))) }
    ensures defect { IfErr result (IsDefectOf sessions.now objects.now (take 6 (words_of line.now))) }
{
    let words = split_words(line);
    let Some((verb, words)) = words.as_slice().split_first() else {
        return Ok(None);
    };
    if verb.starts_with('#') {
        return Ok(None);
    }
    let command = parse_command(*verb, words, sessions, objects)?;
    Ok(Some(command))
}

/// The command of the first word `verb` and of `words`, which come after `verb`. This function itself reads
/// the commands that name an object, open or close a session, and begin or end a transaction's levels; for
/// others it calls `parse_lock_command`.
fn parse_command<S, W>(
    verb: &str,
    words: &[&str],
    sessions: &OpenSessions<S, W>,
    objects: &ObjectNames,
) -> Result<Command, Defect>
    ensures meaning { IfOk result (IsCommandOf sessions.now objects.now verb.now (map (λ word. word.now) words.now)) }
    ensures refused { IfErr result (IsRefused sessions.now objects.now
        (words_behind verb.now commands) (map (λ word. word.now) words.now)) }
{
    match verb {
        "session" => {
            let (name, database) = parse_session(words, sessions)?;
            Ok(Command::Session { name, database })
        }
        "name" => {
            let (name, tag) = parse_naming(words, objects)?;
            Ok(Command::Name { name, tag })
        }
        "commit" => Ok(Command::Commit(parse_lone_caller(words, sessions)?)),
        "abort" => Ok(Command::Abort(parse_lone_caller(words, sessions)?)),
        "begin" => Ok(Command::Begin(parse_lone_caller(words, sessions)?)),
        "subcommit" => Ok(Command::SubCommit(parse_lone_caller(words, sessions)?)),
        "subabort" => Ok(Command::SubAbort(parse_lone_caller(words, sessions)?)),
        "close" => Ok(Command::Close(parse_lone_caller(words, sessions)?)),
        _ => parse_lock_command(verb, words, sessions, objects),
    }
}

/// The command of the first word `verb` and of `words`, which come after `verb`. This function itself reads
/// the commands that ask for a lock, give one back, or end a wait for one; for others it calls
/// `parse_look_command`.
fn parse_lock_command<S, W>(
    verb: &str,
    words: &[&str],
    sessions: &OpenSessions<S, W>,
    objects: &ObjectNames,
) -> Result<Command, Defect>
    ensures meaning { IfOk result (IsCommandOf sessions.now objects.now verb.now (map (λ word. word.now) words.now)) }
    ensures refused { IfErr result (IsRefused sessions.now objects.now
        (words_behind verb.now (lock_commands ++ look_commands)) (map (λ word. word.now) words.now)) }
{
    match verb {
        "try" => {
            let (target, owner) = parse_owned_target(words, sessions, objects)?;
            Ok(Command::Try(target, owner))
        }
        "fast" => {
            let (target, owner) = parse_owned_target(words, sessions, objects)?;
            Ok(Command::Fast(target, owner))
        }
        "lock" => {
            let (target, owner) = parse_owned_target(words, sessions, objects)?;
            Ok(Command::Lock(target, owner))
        }
        "unlock" => {
            let (target, owner) = parse_owned_target(words, sessions, objects)?;
            Ok(Command::Unlock(target, owner))
        }
        "unlock_all" => Ok(Command::UnlockAll(parse_lone_caller(words, sessions)?)),
        "cancel" => {
            let (by, other) = parse_cancel(words, sessions)?;
            Ok(Command::Cancel(by, other))
        }
        _ => parse_look_command(verb, words, sessions, objects),
    }
}

/// The command of the first word `verb` and of `words`, which come after `verb`, where it only looks.
fn parse_look_command<S, W>(
    verb: &str,
    words: &[&str],
    sessions: &OpenSessions<S, W>,
    objects: &ObjectNames,
) -> Result<Command, Defect>
    ensures meaning { IfOk result (IsCommandOf sessions.now objects.now verb.now (map (λ word. word.now) words.now)) }
    ensures refused { IfErr result (IsRefused sessions.now objects.now
        (words_behind verb.now look_commands) (map (λ word. word.now) words.now)) }
{
    match verb {
        "owned" => Ok(Command::Owned(parse_lone_target(words, sessions, objects)?)),
        "waiters" => Ok(Command::Waiters(parse_lone_target(words, sessions, objects)?)),
        "queue" => {
            let (caller, tag) = parse_queue(words, sessions, objects)?;
            Ok(Command::Queue(caller, tag))
        }
        "blockers" => {
            let (by, other, tag) = parse_blockers(words, sessions, objects)?;
            Ok(Command::Blockers(by, other, tag))
        }
        "list" => Ok(Command::List(parse_lone_caller(words, sessions)?)),
        "count" => {
            let (caller, index) = parse_count(words, sessions)?;
            Ok(Command::Count(caller, index))
        }
        "hash" => Ok(Command::Hash(parse_hash(words, objects)?)),
        _ => Err(Defect::UnknownCommand),
    }
}

/// Reads the `words` after `try`, `fast`, `lock` or `unlock`, by `sessions` and `objects`: which lock, and
/// for which owner. Without a fourth word the owner is the transaction.
fn parse_owned_target<S, W>(
    words: &[&str],
    sessions: &OpenSessions<S, W>,
    objects: &ObjectNames,
) -> Result<(Target, Owner), Defect>
    ensures named { IfOk result (λ parsed.
        NamesOwned sessions.now objects.now (map (λ word. word.now) words.now) parsed.0 parsed.1) }
    ensures refused { IfErr result (IsMisfit sessions.now objects.now lock_words (map (λ word. word.now) words.now)) }
{
    match words {
        [name, tag, mode] => {
            let target = parse_target(name, tag, mode, sessions, objects)?;
            Ok((target, Owner::Transaction))
        }
        [name, tag, mode, owner] => {
            let target = parse_target(name, tag, mode, sessions, objects)?;
            let owner = parse_owner(owner).ok_or(Defect::BadOwner)?;
            Ok((target, owner))
        }
        _ => Err(Defect::WrongNumberOfWords),
    }
}

/// Reads the `words` after `owned` or `waiters`, by `sessions` and `objects`: which lock the line is about,
/// and of which session.
fn parse_lone_target<S, W>(
    words: &[&str],
    sessions: &OpenSessions<S, W>,
    objects: &ObjectNames,
) -> Result<Target, Defect>
    ensures named { IfOk result (NamesLone sessions.now objects.now (map (λ word. word.now) words.now)) }
    ensures refused { IfErr result (IsMisfit sessions.now objects.now (CallerName ∷ TagWord ∷ ModeName ∷ [])
        (map (λ word. word.now) words.now)) }
{
    let [name, tag, mode] = words else {
        return Err(Defect::WrongNumberOfWords);
    };
    parse_target(name, tag, mode, sessions, objects)
}

/// Which lock the words `name`, `tag` and `mode` are about, and of which session, by `sessions` and
/// `objects`.
fn parse_target<S, W>(
    name: &str,
    tag: &str,
    mode: &str,
    sessions: &OpenSessions<S, W>,
    objects: &ObjectNames,
) -> Result<Target, Defect>
    ensures named { IfOk result (λ target. NamesCaller sessions.now name.now target.caller) }
    ensures tag { IfOk result (λ target. tag_in objects.now tag.now ≡ Some target.tag) }
    ensures mode { IfOk result (λ target. name_of target.mode ≡ mode.now) }
    ensures refused { IfErr result (IsFirstWrong sessions.now objects.now (CallerName ∷ TagWord ∷ ModeName ∷ [])
        (name.now ∷ tag.now ∷ mode.now ∷ [])) }
{
    let caller = parse_caller(name, sessions)?;
    let tag = parse_object(tag, objects).ok_or(Defect::BadObject)?;
    let mode = Mode::from_name(mode).ok_or(Defect::BadMode)?;
    Ok(Target { caller, tag, mode })
}

/// Reads the `words` of a command that takes only the name of a session of `sessions`.
fn parse_lone_caller<S, W>(words: &[&str], sessions: &OpenSessions<S, W>) -> Result<Caller, Defect>
    ensures named { IfOk result (NamesActor sessions.now (map (λ word. word.now) words.now)) }
    ensures refused { IfErr result (IsMisfitAnyway sessions.now (CallerName ∷ []) (map (λ word. word.now) words.now)) }
{
    let [name] = words else {
        return Err(Defect::WrongNumberOfWords);
    };
    parse_caller(name, sessions)
}

/// Reads the `words` of a `hash` line: one of `objects`, or an object by its numbers.
fn parse_hash(words: &[&str], objects: &ObjectNames) -> Result<Tag, Defect>
    ensures named { IfOk result (NamesTag objects.now (map (λ word. word.now) words.now)) }
    ensures refused { IfErr result (IsNoTag objects.now (map (λ word. word.now) words.now)) }
{
    let [tag] = words else {
        return Err(Defect::WrongNumberOfWords);
    };
    parse_object(tag, objects).ok_or(Defect::BadObject)
}

/// Reads the `words` of a `queue` line: which of `sessions` looks, and at the wait queue of which object, by
/// `objects`.
fn parse_queue<S, W>(
    words: &[&str],
    sessions: &OpenSessions<S, W>,
    objects: &ObjectNames,
) -> Result<(Caller, Tag), Defect>
    ensures named { IfOk result (λ parsed.
        NamesQueue sessions.now objects.now (map (λ word. word.now) words.now) parsed.0 parsed.1) }
    ensures refused { IfErr result (IsMisfit sessions.now objects.now (CallerName ∷ TagWord ∷ [])
        (map (λ word. word.now) words.now)) }
{
    let [name, object] = words else {
        return Err(Defect::WrongNumberOfWords);
    };
    let caller = parse_caller(name, sessions)?;
    let object = parse_object(object, objects).ok_or(Defect::BadObject)?;
    Ok((caller, object))
}

/// Reads the `words` of a `blockers` line: which of `sessions` looks, in whose way others are, and on which
/// object, by `objects`.
fn parse_blockers<S, W>(
    words: &[&str],
    sessions: &OpenSessions<S, W>,
    objects: &ObjectNames,
) -> Result<(Caller, Opened, Tag), Defect>
    ensures named { IfOk result (λ parsed.
        NamesBlocked sessions.now objects.now (map (λ word. word.now) words.now) parsed.0 parsed.1 parsed.2) }
    ensures refused { IfErr result (IsMisfit sessions.now objects.now (CallerName ∷ OpenName ∷ TagWord ∷ [])
        (map (λ word. word.now) words.now)) }
{
    let [by, other, object] = words else {
        return Err(Defect::WrongNumberOfWords);
    };
    let by = parse_caller(by, sessions)?;
    let other = parse_opened(other, sessions)?;
    let object = parse_object(object, objects).ok_or(Defect::BadObject)?;
    Ok((by, other, object))
}

/// Reads the `words` of a `count` line: which of `sessions` looks, and at which strong lock counter.
fn parse_count<S, W>(words: &[&str], sessions: &OpenSessions<S, W>) -> Result<(Caller, u16), Defect>
    ensures named { IfOk result (λ parsed.
        NamesCount sessions.now (map (λ word. word.now) words.now) parsed.0 parsed.1) }
    ensures refused { IfErr result (IsMisfitAnyway sessions.now (CallerName ∷ CounterIndex ∷ [])
        (map (λ word. word.now) words.now)) }
{
    let [name, index] = words else {
        return Err(Defect::WrongNumberOfWords);
    };
    let caller = parse_caller(name, sessions)?;
    let index = parse_strong_index(index).ok_or(Defect::BadNumber)?;
    Ok((caller, index))
}

/// Reads the `words` of a `cancel` line: which of `sessions` asks, and the wait of which one is to be
/// cancelled. The latter is found also where it waits.
fn parse_cancel<S, W>(
    words: &[&str],
    sessions: &OpenSessions<S, W>,
) -> Result<(Caller, Opened), Defect>
    ensures named { IfOk result (λ parsed.
        NamesBoth sessions.now (map (λ word. word.now) words.now) parsed.0 parsed.1) }
    ensures refused { IfErr result (IsMisfitAnyway sessions.now (CallerName ∷ OpenName ∷ [])
        (map (λ word. word.now) words.now)) }
{
    let [by, other] = words else {
        return Err(Defect::WrongNumberOfWords);
    };
    let by = parse_caller(by, sessions)?;
    let other = parse_opened(other, sessions)?;
    Ok((by, other))
}

/// The session of `sessions` that goes by the word `name`. A session that waits is refused.
fn parse_caller<S, W>(name: &str, sessions: &OpenSessions<S, W>) -> Result<Caller, Defect>
    ensures named { IfOk result (NamesCaller sessions.now name.now) }
    ensures refused { IfErr result (IsBarred sessions.now name.now) }
{
    let Opened { name, place } = parse_opened(name, sessions)?;
    match place {
        Place::Resting(place) => Ok(Caller { name, place }),
        Place::Waiting(_) => Err(Defect::SessionWaits),
    }
}

/// The session of `sessions` that goes by the word `name`, whether it waits or not.
fn parse_opened<S, W>(name: &str, sessions: &OpenSessions<S, W>) -> Result<Opened, Defect>
    ensures named { IfOk result (NamesOpen sessions.now name.now) }
    ensures refused { IfErr result (IsUnnamed sessions.now name.now) }
{
    let name = parse_name(name).ok_or(Defect::BadName)?;
    match sessions.place_called(&name) {
        Some(place) => Ok(Opened { name, place }),
        None => Err(Defect::NoSuchSession),
    }
}
