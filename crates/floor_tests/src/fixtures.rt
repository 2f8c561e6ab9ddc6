//! What tests share: objects and sessions, and of partitions a part to begin with, and what has to be so
//! before a call.

ghost use Rattle.std.specs.Prelude.{◌≡◌, true, false, None, IfOk};
ghost use Rattle.modes_core.specs.declared.modes.Mode.{Mode};
ghost use Rattle.lock_table.specs.Queue.{awaits_mode, remove_wait, waits_there};

use lock_table::{NoMemory, PartTable, PlainPart};
use modes_core::{Mode, SessionId, Tag};
use std::alloc::Global;
use std::process::Abort;

pub const OBJECT: Tag = Tag::Relation {
    database: 5,
    relation: 16384,
};

pub const ANOTHER_OBJECT: Tag = Tag::Object {
    database: 5,
    class: 1259,
    object: 16384,
    sub_object: 0,
};

/// The tag of what an application locks by a key of 64 bits.
pub const ADVISORY: Tag = Tag::Advisory {
    database: 5,
    key1: 0,
    key2: 42,
    sub: 1,
};

/// The session with the number `number`.
pub fn session(rt: &impl Abort, number: u16) -> SessionId {
    SessionId::new(number).expect(rt, "a session number")
}

/// An empty part, which grows by `alloc`, at the second attempt where there was no memory.
pub fn new_part(alloc: Global) -> Result<PlainPart, NoMemory>
    ensures { IfOk result (λ part. part.begun ≡ None) }
{
    match PlainPart::new(alloc) {
        Ok(part) => Ok(part),
        Err(_) => PlainPart::new(alloc),
    }
}

/// Ends the wait of `session` for `tag` in `part`, if any, and answers whether there was one.
pub fn end_wait<P: PartTable>(part: &mut P, session: SessionId, tag: &Tag) -> bool
    ensures content { P.content part.new ≡ remove_wait (P.content part.old) session tag.now }
    ensures no_wait { waits_there ((P.content part.new).waits tag.now) session ≡ false }
    ensures not_awaited { (mode : Mode) → awaits_mode ((P.content part.new).waits tag.now) session mode ≡ false }
    ensures begun { P.begun part.new ≡ P.begun part.old }
{
    part.leave(session, tag).is_some()
}

/// Ends the test where `session` holds `tag` in `mode` in `part` already, or waits for it.
pub fn may_ask<P: PartTable>(
    rt: &impl Abort,
    part: &mut P,
    session: SessionId,
    tag: &Tag,
    mode: Mode,
)
    ensures new { (P.content part.new).holds session tag.now mode ≡ false }
    ensures no_wait { waits_there ((P.content part.new).waits tag.now) session ≡ false }
    ensures not_awaited { awaits_mode ((P.content part.new).waits tag.now) session mode ≡ false }
    ensures begun { P.begun part.new ≡ P.begun part.old }
{
    if part.held(session, tag).has(mode) {
        panic!(rt; "session {session} holds it already");
    }
    if end_wait(part, session, tag) {
        panic!(rt; "session {session} waits already");
    }
}

/// Ends the test where `session` doesn't hold `tag` in `mode` in `part`.
pub fn may_release<P: PartTable>(
    rt: &impl Abort,
    part: &P,
    session: SessionId,
    tag: &Tag,
    mode: Mode,
)
    ensures { (P.content part.now).holds session tag.now mode ≡ true }
{
    if !part.held(session, tag).has(mode) {
        panic!(rt; "session {session} doesn't hold it");
    }
}

/// Whether `woken` has those who are `expected`, in this order.
pub fn are_woken(woken: &[(SessionId, Mode)], expected: &[(u16, Mode)]) -> bool {
    if woken.len() != expected.len() {
        return false;
    }
    for place in 0..expected.len() {
        let (session, mode) = woken[place];
        let (number, its) = expected[place];
        if session.number() != number || mode != its {
            return false;
        }
    }
    true
}
