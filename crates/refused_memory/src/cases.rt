//! What is run, call by call.

use crate::desk_cases::{DeskCase, PoolCase};
use crate::parts::PartCall;
use crate::told::Told;
use crate::{events, managers, parts};
use std::alloc::Global;
use std::sync::Wait;

/// A call that may take memory, with what happens before the call.
#[derive(Clone, Copy)]
pub enum Case<'a> {
    /// A call of `Manager::new`.
    MakesManager,
    /// A call of `Manager::for_server`.
    MakesServer,
    /// A call of `Opener::session`.
    OpensSession,
    /// A call of `LocalTable::new`.
    MakesLocalTable,
    /// A call of `LocalTable::reserve`.
    Reserves,
    /// A call of a part with records.
    OfRecords(PartCall),
    /// A call of a plain part, without records.
    OfPlain(PartCall),
    /// A call of `run_events`.
    RunsEvents,
    /// What happens at the desk of a manager.
    AtDesk(DeskCase<'a>),
}

/// Each case but the trials, with its name and how many growths its call takes. A manager takes three for
/// each of 16 partitions, two for each of its wait lists, which are 32 with 8 sessions and 130 with 65, and
/// five for the lists of partitions, of slots and of words, and for the table of both. A local table takes
/// one for its slots, two for their index, and three for the counts of outer levels, a list that grows to
/// 16. A session takes the growths of a local table and one for a box, and a crew those of its sessions and
/// one for their list. The list of an audit's rows grows to four and to eight, and a desk or a pool lends
/// the audit its sessions in one list more. A pool takes two lists.
pub const CASES: [(&'static str, Case<'static>, u16); 19] = [
    ("Manager::new", Case::MakesManager, 117),
    ("Manager::for_server", Case::MakesServer, 313),
    ("Opener::session", Case::OpensSession, 7),
    ("LocalTable::new", Case::MakesLocalTable, 6),
    (
        "LocalTable::reserve, a seventeenth entry",
        Case::Reserves,
        4,
    ),
    (
        "begin of a part with records",
        Case::OfRecords(PartCall::Begin),
        5,
    ),
    (
        "decide in a part with records",
        Case::OfRecords(PartCall::Decide),
        5,
    ),
    (
        "rows of a part with records",
        Case::OfRecords(PartCall::Rows),
        1,
    ),
    ("begin of a plain part", Case::OfPlain(PartCall::Begin), 3),
    ("decide in a plain part", Case::OfPlain(PartCall::Decide), 3),
    ("rows of a plain part", Case::OfPlain(PartCall::Rows), 1),
    ("run_events", Case::RunsEvents, 21),
    (
        "audit, five rows of the table",
        Case::AtDesk(DeskCase::Audits),
        3,
    ),
    (
        "DeskOf::open_all, two",
        Case::AtDesk(DeskCase::OpensCrew),
        15,
    ),
    ("SessionPool::open", Case::AtDesk(DeskCase::Lends), 7),
    (
        "Pool::new",
        Case::AtDesk(DeskCase::WithPool(PoolCase::IsMade)),
        2,
    ),
    (
        "Pool::open",
        Case::AtDesk(DeskCase::WithPool(PoolCase::Opens)),
        7,
    ),
    (
        "Pool::lives",
        Case::AtDesk(DeskCase::WithPool(PoolCase::Lives)),
        1,
    ),
    (
        "Pool::audit, nothing held",
        Case::AtDesk(DeskCase::WithPool(PoolCase::Audits)),
        1,
    ),
];

/// Runs `case` with the growth numbered `growth` refused.
pub fn tell<R: Wait>(rt: &R, alloc: Global, case: Case<'_>, growth: u16) -> Told {
    match case {
        Case::MakesManager => managers::make(alloc, growth),
        Case::MakesServer => managers::make_server(alloc, growth),
        Case::OpensSession => managers::open(rt, alloc, growth),
        Case::MakesLocalTable => parts::new_local(alloc, growth),
        Case::Reserves => parts::reserve(alloc, growth),
        Case::OfRecords(call) => parts::of_records(alloc, call, growth),
        Case::OfPlain(call) => parts::of_plain(alloc, call, growth),
        Case::RunsEvents => events::run(alloc, growth),
        Case::AtDesk(desk_case) => managers::perform(rt, alloc, desk_case, growth),
    }
}
