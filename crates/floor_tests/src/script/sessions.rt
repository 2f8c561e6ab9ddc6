//! Open sessions by their names, those that rest and those that wait, and all names by their numbers.

ghost use Rattle.std.specs.Prelude.{◌≡◌, length, IfOk};

use lock_script::{Name, Named, OpenSessions, Place, SessionNames};
use modes_core::SessionId;
use std::alloc::{AllocError, Global};
use std::process::Abort;
use std::test::Fail;

/// The session name that `text` is. Where `text` is no name, the test ends by `rt`.
pub fn name(rt: &impl Abort, text: &str) -> Name {
    Name::from(text).expect(rt, "a name")
}

/// The sessions `b`, `a` and `d`, opened in this order in a list that grows by `alloc`, of which `d` waits.
pub fn three(rt: &impl Abort, alloc: Global) -> Result<OpenSessions<u32, u32>, AllocError>
    ensures { IfOk result (λ sessions. length sessions.resting ≡ 2) }
{
    let mut sessions = OpenSessions::new(alloc)?;
    sessions.resting.put(name(rt, "b"), 0);
    sessions.resting.put(name(rt, "a"), 1);
    sessions.waiting.put(name(rt, "d"), 2);
    Ok(sessions)
}

/// Has the one of `sessions` that waits go over to those that don't, and answers whether there was one.
fn goes_on(sessions: &mut OpenSessions<u32, u32>) -> bool
    requires { length sessions.old.resting ≡ 2 }
{
    let Some(last) = sessions.waiting.take_first() else {
        return false;
    };
    sessions.resting.put(last.name, last.session);
    true
}

/// Whether `session` has the name `name` and the number `number`.
fn is_one(session: Option<Named<u32>>, name: Name, number: u32) -> bool {
    match session {
        Some(one) => one.name == name && one.session == number,
        None => false,
    }
}

#[test]
fn sessions_stand_by_their_names(rt: HostRuntime) -> Result<(), Fail> {
    let mut sessions = three(&rt, rt.alloc())?;
    assert!(rt; goes_on(&mut sessions) && sessions.resting.len() == 3);
    for (text, number) in [("a", 1), ("b", 0), ("d", 2)] {
        let name = name(&rt, text);
        assert!(rt;
            sessions.place_called(&name) == Some(Place::Resting(0)),
            "{text}"
        );
        assert!(rt;
            is_one(sessions.resting.take_first(), name, number),
            "{text}"
        );
    }
    Ok(())
}

/// The names of two sessions by their numbers: `b` has number 0, `a` has number 1. Where a session's name
/// can't be made, the test ends by `rt`.
fn two(rt: &impl Abort) -> SessionNames {
    let mut names = SessionNames::new();
    names.push(name(rt, "b"));
    names.push(name(rt, "a"));
    names
}

#[test]
fn names_stand_by_numbers(rt: HostRuntime) -> Result<(), Fail> {
    let names = two(&rt);
    let second = SessionId::new(1).ok_or("no such number")?;
    assert!(rt; names.name(second) == Some(name(&rt, "a")));
    Ok(())
}
