//! Each command with its line, and each defect of a line, once.

use super::sessions::{name, three};
use lock_script::{
    Caller, Command, Defect, ObjectName, ObjectNames, OpenSessions, Opened, Place, Target, parse,
};
use modes_core::{Mode, Owner, Tag};
use std::alloc::{AllocError, Global};
use std::process::Abort;
use std::test::Fail;

/// The caller `b`, as a command names it where three sessions are open. Where `b` is no session name, the
/// test ends by `rt`.
fn caller(rt: &impl Abort) -> Caller {
    let name = name(rt, "b");
    Caller { name, place: 1 }
}

/// The target of a command by which the session `b` takes or gives back `tag` in RowShareLock.
fn target(rt: &impl Abort, tag: Tag) -> Target {
    let caller = caller(rt);
    let mode = Mode::RowShare;
    Target { caller, tag, mode }
}

const RELATION: Tag = Tag::Relation {
    database: 5,
    relation: 7,
};

const OBJECT: Tag = Tag::Object {
    database: 5,
    class: 6,
    object: 7,
    sub_object: 8,
};

const ADVISORY: Tag = Tag::Advisory {
    database: 5,
    key1: 6,
    key2: 7,
    sub: 8,
};

/// The object name that `text` is. Where `text` is no name of an object, the test ends by `rt`.
fn object_name(rt: &impl Abort, text: &str) -> ObjectName {
    ObjectName::from(text).expect(rt, "an object's name")
}

/// Two objects with names, in a list that grows by `alloc`: `accounts`, the relation, and `_A.$9`, the
/// advisory lock. The test ends by `rt` where a name or an object is in the list already.
fn two_objects(rt: &impl Abort, alloc: Global) -> Result<ObjectNames, AllocError> {
    let mut objects = ObjectNames::new(alloc);
    for (text, tag) in [("accounts", RELATION), ("_A.$9", ADVISORY)] {
        let name = object_name(rt, text);
        assert!(rt; objects.tag_called(name.as_str()).is_none());
        assert!(rt; objects.name_of(tag).is_none());
        objects.push(name, tag)?;
    }
    Ok(objects)
}

/// Lines with commands that open a session, or take or give back a lock. Where a session's name can't be
/// made, the test ends by `rt`.
fn commands_on_locks(rt: &impl Abort) -> [(&'static str, Command); 7] {
    let name = name(rt, "c_1");
    let database = 4_294_967_295;
    [
        (
            "session c_1 4294967295",
            Command::Session { name, database },
        ),
        (
            "try b 05/7 RowShareLock",
            Command::Try(target(rt, RELATION), Owner::Transaction),
        ),
        (
            "\tfast  b 5/6/7/8 RowShareLock session ",
            Command::Fast(target(rt, OBJECT), Owner::Session),
        ),
        (
            "lock b 5/7 RowShareLock session",
            Command::Lock(target(rt, RELATION), Owner::Session),
        ),
        (
            "unlock b 5/6/7/8 RowShareLock",
            Command::Unlock(target(rt, OBJECT), Owner::Transaction),
        ),
        (
            "owned b 5/7 RowShareLock",
            Command::Owned(target(rt, RELATION)),
        ),
        (
            "waiters b 5/7 RowShareLock",
            Command::Waiters(target(rt, RELATION)),
        ),
    ]
}

/// Lines with commands that neither open a session nor take or give back a lock. Where a session's name can't
/// be made, the test ends by `rt`.
fn other_commands(rt: &impl Abort) -> [(&'static str, Command); 12] {
    let name = name(rt, "d");
    let place = Place::Waiting(0);
    [
        ("commit b", Command::Commit(caller(rt))),
        ("abort b", Command::Abort(caller(rt))),
        (
            "cancel b d",
            Command::Cancel(caller(rt), Opened { name, place }),
        ),
        ("queue b 5/6/7/8", Command::Queue(caller(rt), OBJECT)),
        (
            "blockers b d 5/7",
            Command::Blockers(caller(rt), Opened { name, place }, RELATION),
        ),
        ("list b", Command::List(caller(rt))),
        ("count b 1023", Command::Count(caller(rt), 1023)),
        ("hash 5/7", Command::Hash(RELATION)),
        ("hash adv/5/06/7/8", Command::Hash(ADVISORY)),
        ("hash _A.$9", Command::Hash(ADVISORY)),
        ("queue b accounts", Command::Queue(caller(rt), RELATION)),
        ("close b", Command::Close(caller(rt))),
    ]
}

/// An object's name that is as long as such a name may be.
const LONGEST: &str = "a23456789_123456789_123456789_123456789_123456789_123456789_123";

/// Ends the test where a line of `rows`, parsed with `sessions` open and `objects` named, isn't answered as
/// the row says.
fn expect_commands(
    rt: &impl Abort,
    sessions: &OpenSessions<u32, u32>,
    objects: &ObjectNames,
    rows: &[(&str, Command)],
) {
    for (line, command) in rows {
        assert!(rt;
            parse(line, sessions, objects) == Ok(Some(*command)),
            "{line}"
        );
    }
}

/// Ends the test where an empty line or a comment is parsed as a command, with sessions called as in
/// `sessions` and objects as in `objects`.
fn expect_silence(rt: &impl Abort, sessions: &OpenSessions<u32, u32>, objects: &ObjectNames) {
    for line in ["", " \t", "#", "#session a 5"] {
        assert!(rt; parse(line, sessions, objects) == Ok(None), "{line}");
    }
}

/// Ends the test where a line that gives an object a name isn't parsed as that command, or a line whose name
/// is too long isn't refused, with sessions called as in `sessions` and objects as in `objects`.
fn expect_namings<H: AllocGlobal + Abort>(
    rt: &H,
    sessions: &OpenSessions<u32, u32>,
    objects: &ObjectNames,
) -> Result<(), AllocError> {
    for text in ["a", "_", "Z.z$0_", "b", LONGEST] {
        let name = object_name(rt, text);
        let line = format!(in rt.alloc(); "name {text} 5/6/7/8")?;
        let command = Command::Name { name, tag: OBJECT };
        assert!(rt;
            parse(line.as_str(), sessions, objects) == Ok(Some(command)),
            "{text}"
        );
    }
    let line = format!(in rt.alloc(); "name {LONGEST}4 5/6/7/8")?;
    assert!(rt; parse(line.as_str(), sessions, objects) == Err(Defect::BadName));
    Ok(())
}

#[test]
fn a_line_is_a_command(rt: HostRuntime) -> Result<(), Fail> {
    let sessions = three(&rt, rt.alloc())?;
    let objects = two_objects(&rt, rt.alloc())?;
    expect_commands(&rt, &sessions, &objects, commands_on_locks(&rt).as_slice());
    expect_commands(&rt, &sessions, &objects, other_commands(&rt).as_slice());
    expect_silence(&rt, &sessions, &objects);
    expect_namings(&rt, &sessions, &objects)?;
    Ok(())
}

/// Lines, each with the first defect that it has.
const DEFECTS: [(&str, Defect); 24] = [
    ("frob", Defect::UnknownCommand),
    (
        "try b 5/7 RowShareLock session 6",
        Defect::WrongNumberOfWords,
    ),
    ("session B x", Defect::BadName),
    ("session a x", Defect::SessionExists),
    ("session d x", Defect::SessionExists),
    ("lock c 5 Share", Defect::NoSuchSession),
    ("lock d 5 Share", Defect::SessionWaits),
    ("session c 4294967296", Defect::BadNumber),
    ("count b 1024", Defect::BadNumber),
    ("lock b 5/6/7/65536 Share owner", Defect::BadObject),
    ("lock b adv/5/6/7 Share owner", Defect::BadObject),
    ("lock b 5/7 Share owner", Defect::BadMode),
    ("lock b 5/7 ShareLock owner", Defect::BadOwner),
    ("lock b account Share", Defect::BadObject),
    ("lock b accounts Share", Defect::BadMode),
    ("name accounts", Defect::WrongNumberOfWords),
    ("name 9a 5", Defect::BadName),
    ("name a-b 5", Defect::BadName),
    ("name .a 5", Defect::BadName),
    ("name accounts 5", Defect::NameExists),
    ("name more 5", Defect::BadObject),
    ("name more nobody", Defect::BadObject),
    ("name more 05/7", Defect::ObjectNamed),
    ("name more accounts", Defect::ObjectNamed),
];

/// Ends the test where the defect of a line of `rows`, parsed with `sessions` open and `objects` named, isn't
/// the one that the row says.
fn expect_defects(
    rt: &impl Abort,
    sessions: &OpenSessions<u32, u32>,
    objects: &ObjectNames,
    rows: &[(&str, Defect)],
) {
    for (line, defect) in rows {
        assert!(rt; parse(line, sessions, objects) == Err(*defect), "{line}");
    }
}

#[test]
fn a_line_is_refused_at_its_first_defect(rt: HostRuntime) -> Result<(), Fail> {
    let sessions = three(&rt, rt.alloc())?;
    let objects = two_objects(&rt, rt.alloc())?;
    expect_defects(&rt, &sessions, &objects, DEFECTS.as_slice());
    Ok(())
}
