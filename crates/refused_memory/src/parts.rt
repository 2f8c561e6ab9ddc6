//! A partition and a local table, by themselves.

ghost use Rattle.std.specs.Prelude.{◌≡◌, None, OnErr};
ghost use Rattle.lock_table.specs.Parts.{IsBlank};

use crate::allocator::{refuse, was_refused};
use crate::told::Told;
use crate::trials::OBJECT;
use local_locks::LocalTable;
use lock_manager::{Mode, Owner, PartTable, Refusal, SessionId, TableRow, Tag};
use lock_records::RecordPart;
use lock_table::PlainPart;
use std::alloc::Global;
use wait_queue::{Decision, Kind, decide};

/// A call of a partition that may take memory.
#[derive(Clone, Copy)]
pub enum PartCall {
    Begin,
    Decide,
    Rows,
}

/// Begins a request of `session` in `part`, which has nothing in it, with the growth numbered `growth`
/// refused, and gives it up.
fn begin<P: PartTable>(alloc: Global, part: &mut P, session: SessionId, growth: u16) -> Told
    requires blank { IsBlank P.content P.begun part.old }
{
    refuse(alloc, growth);
    let begun = part.begin(session, &OBJECT, Mode::Exclusive).is_ok();
    let refused = was_refused(alloc);
    if begun {
        return Told::of(refused, false, true);
    }
    let begun = part.begin(session, &OBJECT, Mode::Exclusive).is_ok();
    let holds = part.held(session, &OBJECT).mask();
    Told::of(refused, true, begun && holds == 0)
}

/// Decides a request of `session` in `part`.
fn ask<P: PartTable>(part: &mut P, session: SessionId) -> Result<Decision, Refusal>
    requires blank { IsBlank P.content P.begun part.old }
    ensures begun { P.begun part.new ≡ None }
    ensures refused { OnErr result (IsBlank P.content P.begun part.new) }
{
    decide(part, session, &OBJECT, Mode::Exclusive, Kind::Conditional)
}

/// Decides a request of `session` in `part` with the growth numbered `growth` refused, and once more after a
/// refusal.
fn decide_once<P: PartTable>(alloc: Global, part: &mut P, session: SessionId, growth: u16) -> Told
    requires blank { IsBlank P.content P.begun part.old }
{
    refuse(alloc, growth);
    let answer = ask(part, session);
    let refused = was_refused(alloc);
    match answer {
        Ok(decision) => Told::of(refused, false, decision == Decision::Granted),
        Err(refusal) => {
            let again = ask(part, session) == Ok(Decision::Granted);
            Told::of(refused, refusal == Refusal::NoMemory, again)
        }
    }
}

/// Appends the rows of `part`, which has one hold of `session`, to a list that has four rows already and no
/// room for more, with the growth numbered `growth` refused.
fn rows<P: PartTable>(alloc: Global, part: &mut P, session: SessionId, growth: u16) -> Told
    requires blank { IsBlank P.content P.begun part.old }
{
    let mut rows: Vec<TableRow> = Vec::new(alloc);
    if ask(part, session).is_err() {
        return Told::Otherwise;
    }
    for _ in 0..4 {
        if part.rows(&mut rows).is_err() {
            return Told::Otherwise;
        }
    }
    refuse(alloc, growth);
    let appended = part.rows(&mut rows).is_ok();
    let refused = was_refused(alloc);
    if appended {
        return Told::of(refused, false, rows.len() == 5);
    }
    let kept = rows.len() == 4;
    let appended = part.rows(&mut rows).is_ok();
    Told::of(refused, true, kept && appended && rows.len() == 5)
}

/// Makes `call` of `part`, which has nothing in it, with the growth numbered `growth` refused.
fn make<P: PartTable>(alloc: Global, part: &mut P, call: PartCall, growth: u16) -> Told
    requires blank { IsBlank P.content P.begun part.old }
{
    let Some(session) = SessionId::new(0) else {
        return Told::Otherwise;
    };
    match call {
        PartCall::Begin => begin(alloc, part, session, growth),
        PartCall::Decide => decide_once(alloc, part, session, growth),
        PartCall::Rows => rows(alloc, part, session, growth),
    }
}

/// Makes `call` of a part with records, with the growth numbered `growth` refused.
pub fn of_records(alloc: Global, call: PartCall, growth: u16) -> Told {
    match RecordPart::new(alloc) {
        Ok(mut part) => make(alloc, &mut part, call, growth),
        Err(_) => Told::Otherwise,
    }
}

/// Makes `call` of a plain part, with the growth numbered `growth` refused.
pub fn of_plain(alloc: Global, call: PartCall, growth: u16) -> Told {
    match PlainPart::new(alloc) {
        Ok(mut part) => make(alloc, &mut part, call, growth),
        Err(_) => Told::Otherwise,
    }
}

/// Makes a local table with the growth numbered `growth` refused.
pub fn new_local(alloc: Global, growth: u16) -> Told {
    refuse(alloc, growth);
    let made = LocalTable::new(alloc, 64);
    let refused = was_refused(alloc);
    match made.err() {
        None => Told::of(refused, false, true),
        Some(refusal) => {
            let again = LocalTable::new(alloc, 64).is_ok();
            Told::of(refused, refusal == Refusal::NoMemory, again)
        }
    }
}

/// The tag of the relation numbered `number`.
fn relation(number: u32) -> Tag {
    Tag::relation(5, number)
}

/// Reserves an entry in a table that has sixteen, with the growth numbered `growth` refused.
pub fn reserve(alloc: Global, growth: u16) -> Told {
    let Ok(mut table) = LocalTable::new(alloc, 64) else {
        return Told::Otherwise;
    };
    for number in 0..16 {
        let tag = relation(number);
        if table.reserve(tag, Mode::Share, Owner::Session).is_ok() {
            table.add(tag, Mode::Share, Owner::Session);
        }
    }
    refuse(alloc, growth);
    let answer = table.reserve(relation(16), Mode::Share, Owner::Session);
    let refused = was_refused(alloc);
    if answer.is_ok() {
        return Told::of(refused, false, true);
    }
    let kept = table.total(relation(0), Mode::Share) == 1
        && table.total(relation(16), Mode::Share) == 0;
    let again = table
        .reserve(relation(16), Mode::Share, Owner::Session)
        .is_ok();
    Told::of(refused, answer == Err(Refusal::NoMemory), kept && again)
}
