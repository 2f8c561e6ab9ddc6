//! The answers of a script as JSON: an object for each line of text, with the number of the script's line
//! that it answers.

ghost use Rattle.std.specs.Prelude.{◌≡◌, IfOk, IfSome, []};
ghost use Rattle.serde_json.specs.View.{view};
ghost use Rattle.scenario.specs.Json.{in_the_way_data, left_data, line_data, not_owned_data, picture_data, refused_data, refused_with, row_data, said_data, told_data, unlocked_all_data};

use crate::answers::{Row, Said};
use crate::style::Drawing;
use crate::summary::{WaitEnd, WaitRow};
use crate::text::{how_text, name_of, plain_text, refusal_text};
use lock_manager::{Blocker, Mode, QueueRow, Refusal, SlotRow, TableRow};
use lock_script::{Name, NamedObject, Names};
use serde_json::{Value, json};
use std::alloc::{AllocError, Global};

/// An object of JSON, if there was the memory for it.
pub type Object = Result<Value, AllocError>;

/// The object of the line `line` of the script, whose text is `text`.
pub fn echo(alloc: Global, line: u32, text: &str) -> Object
    ensures { IfOk result (λ object. view object ≡ line_data line text.now) }
{
    json!(in alloc; {"line": line, "echo": text})
}

/// The object of the picture `text` of who waits for whom after the line `line`, in the language `drawing`.
pub fn picture(alloc: Global, line: u32, drawing: &str, text: &str) -> Object
    ensures { IfOk result (λ object. view object ≡ picture_data line drawing.now text.now) }
{
    json!(in alloc; {"line": line, "graph": drawing, "text": text})
}

/// The line of JSON of the picture `text` of a whole script that ended with the line `line`, in the language
/// `drawing`, with memory by `alloc`. The error is being out of it.
pub fn picture_line(
    alloc: Global,
    line: u32,
    drawing: Drawing,
    text: &str,
) -> Result<String, AllocError> {
    let object = picture(alloc, line, drawing.name(), text)?;
    let mut line = object.to_string(alloc)?;
    line.push('\n')?;
    Ok(line)
}

/// The object of `said`, which the session `name` is answered at the line `line`, where `names` are those of
/// all sessions and objects.
pub fn said(alloc: Global, line: u32, names: &Names, name: &Name, said: Said) -> Object
    ensures { IfOk result (λ object. view object ≡ said_data line names.now name.now said) }
{
    match said {
        Said::Opened { session, database } => json!(in alloc; {
            "line": line, "session": name.as_str(), "answer": "opened",
            "number": session.number(), "database": database
        }),
        Said::Asked(other) => json!(in alloc; {
            "line": line, "session": name.as_str(), "answer": "asked", "other": other.as_str()
        }),
        Said::UnlockedAll(released) => unlocked_all(alloc, line, name, released),
        Said::Level(level) => json!(in alloc; {
            "line": line, "session": name.as_str(), "answer": "at a level", "level": level
        }),
        Said::Owned {
            of_transaction,
            of_session,
        } => json!(in alloc; {
            "line": line, "session": name.as_str(), "answer": "owned",
            "of_transaction": of_transaction, "of_session": of_session
        }),
        Said::NotOwned(mode) => not_owned(alloc, line, name, mode.name()),
        Said::Refused(refusal) => refused(alloc, line, names, name, refusal),
        plain => answer(alloc, line, name, plain_text(plain)),
    }
}

/// The object of a release of all advisory locks at the line `line`, by which the session `name` lost
/// `released` holds.
fn unlocked_all(alloc: Global, line: u32, name: &Name, released: u32) -> Object
    ensures { IfOk result (λ object. view object ≡ unlocked_all_data line name.now released) }
{
    json!(in alloc; {
        "line": line, "session": name.as_str(), "answer": "released all", "released": released
    })
}

/// The object of a release at the line `line`, where the session `name` doesn't own the lock in `mode`.
fn not_owned(alloc: Global, line: u32, name: &Name, mode: &str) -> Object
    ensures { IfOk result (λ object. view object ≡ not_owned_data line name.now mode.now) }
{
    json!(in alloc; {
        "line": line, "session": name.as_str(), "answer": "not owned", "mode": mode
    })
}

/// The object of an answer in words alone, `text`, to the session `name` at the line `line`.
fn answer(alloc: Global, line: u32, name: &Name, text: &str) -> Object
    ensures { IfOk result (λ object. view object ≡ told_data line name.now text.now []) }
{
    json!(in alloc; {"line": line, "session": name.as_str(), "answer": text})
}

/// The object of a call of the session `name` that was refused at the line `line` by `refusal`, where `names`
/// are those of all sessions and objects.
fn refused(alloc: Global, line: u32, names: &Names, name: &Name, refusal: Refusal) -> Object
    ensures { IfOk result (λ object. view object ≡ refused_data line names.now name.now refusal) }
{
    let (number, text) = (refusal.number(), refusal_text(refusal));
    match &refusal {
        Refusal::Conflict { session, mode, how } => {
            let other = name_of(names, *session);
            json!(in alloc; {
                "line": line, "session": name.as_str(), "answer": "refused", "number": number,
                "refusal": text, "other": other.as_str(), "mode": mode.name(), "how": how_text(*how)
            })
        }
        Refusal::SimpleDeadlock { session } => {
            let other = name_of(names, *session);
            json!(in alloc; {
                "line": line, "session": name.as_str(), "answer": "refused",
                "number": number, "refusal": text, "other": other.as_str()
            })
        }
        _ => refused_alone(alloc, line, name, number, text),
    }
}

/// The object of a call of the session `name` that was refused at the line `line` for a reason that names
/// nobody: its `number` and `text`.
fn refused_alone(alloc: Global, line: u32, name: &Name, number: u8, text: &str) -> Object
    ensures { IfOk result (λ object. view object ≡ refused_with line name.now number text.now []) }
{
    json!(in alloc; {
        "line": line, "session": name.as_str(), "answer": "refused",
        "number": number, "refusal": text
    })
}

/// The object of the row `row` at the line `line`, where `names` are those of all sessions and objects.
pub fn row(alloc: Global, line: u32, names: &Names, row: Row) -> Object
    ensures { IfSome (row_data line names.now row) (λ shown. IfOk result (λ object. view object ≡ shown)) }
{
    match row {
        Row::Slot(row) => slot_row(alloc, line, names, row),
        Row::Table(row) => table_row(alloc, line, names, row),
        Row::Rows(rows) => json!(in alloc; {"line": line, "rows": rows}),
        Row::Wait(row) => queue_row(alloc, line, names, &row),
        Row::Waits(waits) => json!(in alloc; {"line": line, "waits": waits}),
        Row::InTheWay(name, blocker) => in_the_way(alloc, line, names, name, blocker),
        Row::NotWaiting(name) => answer(alloc, line, &name, "isn't waiting"),
        Row::Counter { index, shown } => {
            json!(in alloc; {"line": line, "strong": index, "value": shown})
        }
        Row::Hash(tag) => json!(in alloc; {
            "line": line, "hash": tag.hash(), "partition": tag.partition(),
            "strong": tag.strong_index()
        }),
        Row::Named(named) => name_row(alloc, line, names, named),
    }
}

/// The object of the line `line`, by which an object was given a name, as `named` says, where `names` are
/// those of all sessions and objects.
fn name_row(alloc: Global, line: u32, names: &Names, named: NamedObject) -> Object
    ensures { IfSome (row_data line names.now (Row.Named named)) (λ shown. IfOk result (λ object. view object ≡ shown)) }
{
    let tag = format!(in alloc; "{}", named.tag)?;
    json!(in alloc; {"line": line, "name": named.name.as_str(), "tag": tag})
}

/// The object of a lock in a slot, `row`, at the line `line`, where `names` are those of all sessions and
/// objects. The object's name, if it has one, comes after its tag.
fn slot_row(alloc: Global, line: u32, names: &Names, row: SlotRow) -> Object
    ensures { IfSome (row_data line names.now (Row.Slot row)) (λ shown. IfOk result (λ object. view object ≡ shown)) }
{
    let name = name_of(names, row.session);
    let tag = format!(in alloc; "{}", row.tag)?;
    match names.objects.name_of(row.tag) {
        Some(object) => json!(in alloc; {
            "line": line, "row": "fast", "session": name.as_str(), "slot": row.slot,
            "tag": tag, "name": object.as_str(), "mode": row.mode.name()
        }),
        None => json!(in alloc; {
            "line": line, "row": "fast", "session": name.as_str(), "slot": row.slot,
            "tag": tag, "mode": row.mode.name()
        }),
    }
}

/// The object of a lock in the table, `row`, at the line `line`, where `names` are those of all sessions and
/// objects. The object's name, if it has one, comes after its tag.
fn table_row(alloc: Global, line: u32, names: &Names, row: TableRow) -> Object
    ensures { IfSome (row_data line names.now (Row.Table row)) (λ shown. IfOk result (λ object. view object ≡ shown)) }
{
    let name = name_of(names, row.session);
    let tag = format!(in alloc; "{}", row.tag)?;
    match names.objects.name_of(row.tag) {
        Some(object) => json!(in alloc; {
            "line": line, "row": "table", "session": name.as_str(), "tag": tag,
            "name": object.as_str(), "mode": row.mode.name(), "granted": row.granted
        }),
        None => json!(in alloc; {
            "line": line, "row": "table", "session": name.as_str(),
            "tag": tag, "mode": row.mode.name(), "granted": row.granted
        }),
    }
}

/// The object of a wait in a queue, `row`, at the line `line`, with the modes that its session held when it
/// joined, where `names` are those of all sessions and objects.
fn queue_row(alloc: Global, line: u32, names: &Names, row: &QueueRow) -> Object {
    let name = name_of(names, row.session);
    let mut held = Vec::new(alloc);
    for mode in Mode::ALL {
        if row.held.has(mode) {
            held.push(Value::try_from_str(alloc, mode.name())?)?;
        }
    }
    let held = Value::Array(held);
    json!(in alloc; {
        "line": line, "row": "queue", "session": name.as_str(), "mode": row.mode.name(), "held": held
    })
}

/// The object of `blocker`, one that is in the way of the session `name`, at the line `line`, where `names`
/// are those of all sessions and objects.
fn in_the_way(alloc: Global, line: u32, names: &Names, name: Name, blocker: Blocker) -> Object
    ensures { IfOk result (λ object. view object ≡ in_the_way_data line names.now name blocker) }
{
    let who = name_of(names, blocker.session);
    json!(in alloc; {
        "line": line, "row": "blocker", "session": name.as_str(), "waits_for": who.as_str(),
        "mode": blocker.mode.name(), "how": how_text(blocker.how)
    })
}

/// The object of JSON for the row `wait` of a summary. The object that the session awaited is known by
/// `names`.
pub fn waited(alloc: Global, names: &Names, wait: &WaitRow) -> Object {
    let mut behind = Vec::new(alloc);
    for obstacle in &wait.behind {
        behind.push(json!(in alloc; {
            "session": obstacle.session.as_str(), "mode": obstacle.mode.name(),
            "how": how_text(obstacle.how)
        })?)?;
    }
    let behind = Value::Array(behind);
    let tag = format!(in alloc; "{}", wait.tag)?;
    let (to, ended) = match wait.ended {
        Some(WaitEnd { line, granted }) => {
            let ended = if granted { "granted" } else { "cancelled" };
            (json!(in alloc; line)?, Value::try_from_str(alloc, ended)?)
        }
        None => (Value::Null, Value::Null),
    };
    match names.objects.name_of(wait.tag) {
        Some(object) => json!(in alloc; {
            "waited": wait.session.as_str(), "from": wait.from, "to": to, "ended": ended,
            "tag": tag, "name": object.as_str(), "mode": wait.mode.name(), "behind": behind
        }),
        None => json!(in alloc; {
            "waited": wait.session.as_str(), "from": wait.from, "to": to, "ended": ended,
            "tag": tag, "mode": wait.mode.name(), "behind": behind
        }),
    }
}

/// The object of JSON for the end of a script: the names `waiting` of the sessions that wait, and the number
/// `lines` of their lines that were not reached.
pub fn left(alloc: Global, waiting: &[Name], lines: u64) -> Object
    ensures { IfOk result (λ object. view object ≡ left_data waiting.now lines) }
{
    let mut names = Vec::new(alloc);
    'names: for name in waiting {
        names.push(Value::try_from_str(alloc, name.as_str())?)?;
    }
    let names = Value::Array(names);
    json!(in alloc; {"left_waiting": names, "not_reached": lines})
}
