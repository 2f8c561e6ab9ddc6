//! What a session plays for one statement.
ghost use Rattle.std.specs.Prelude.{◌≡◌, ◌∷◌, [], take, drop, IfOk, if◌then◌else◌};
ghost use Rattle.sql_script.specs.Turns.{begun_by, end_for, given_back, owned_for, parted_for, resumed_for, taken_for, transaction_for, work_for};

use crate::asked::{Asking, asked_of, steps_of};
use crate::awaited::{Course, passes_of, waits_of};
use crate::kept::{kept_of, kept_steps_of};
use crate::steps::Step;
use modes_core::{Mode, Owner, Tag};
use sql_locks::{Lock, SqlFault};
use sql_statements::Control;
use std::alloc::Global;

/// What a session plays for one statement.
#[derive(Drop)]
pub struct Turn {
    /// The line of the text on which the statement begins, from 1.
    pub line: usize,
    pub manner: Manner,
    /// The locks of the statement, in the order of the server.
    pub locks: Vec<Lock>,
    /// What the session plays beside the statement's locks on relations: the levels that a savepoint begins
    /// or ends, or advisory locks.
    pub others: Vec<Step>,
    /// The locks of the transactions for whose end the statement waits.
    pub awaited: Vec<Tag>,
    /// What the session plays for the statement, in order: all, or, where the session works at the statement
    /// until a later line, what comes before its end.
    pub steps: Vec<Step>,
    /// What the session plays at the end of the statement, where that comes by a later line.
    pub left: Vec<Step>,
    /// What the statement locks, with names: the lock of a transaction that it begins, and relations.
    pub named: Vec<Table>,
}

/// A relation, or the lock of a transaction, under its name.
#[derive(Drop)]
pub struct Table {
    pub tag: Tag,
    pub name: String,
}

/// How a statement is played.
#[derive(Clone, Copy, PartialEq, Eq)]
pub struct Manner {
    /// What the statement does to the transaction.
    pub control: Control,
    /// How the session asks for the statement's locks.
    pub asking: Asking,
    /// Whether the statement is a transaction of its own that takes a lock, and so ends with the statement.
    pub is_alone: bool,
    /// How the statement goes through transactions.
    pub course: Course,
    /// The lock of the transaction that the statement begins, where transactions have one.
    pub begins: Option<Tag>,
}

/// What a session of `database` plays for a statement with the locks `locks`, in `manner`, and `others`
/// beside the locks, where the statement waits for the transactions whose locks are `awaited`: all but what
/// ends the statement.
pub fn work_of(
    alloc: Global,
    database: u32,
    manner: Manner,
    locks: &[Lock],
    others: &Vec<Step>,
    awaited: &Vec<Tag>,
) -> Result<Vec<Step>, SqlFault>
    ensures { IfOk result (λ steps. steps.items ≡
        work_for database manner locks.now others.now.items awaited.now.items) }
{
    match manner.control {
        Control::Begin => begun(alloc, manner.begins),
        Control::Commit => ended(alloc, Step::Commit, manner.begins),
        Control::Rollback => ended(alloc, Step::Abort, manner.begins),
        Control::Savepoint => {
            let mut steps = Vec::new(alloc);
            steps.extend_from_slice(others.as_slice())?;
            Ok(steps)
        }
        Control::Stay => match manner.course {
            Course::Within => played_in(alloc, database, manner, locks, others),
            Course::Kept => kept_steps_of(alloc, database, locks),
            Course::Owned => played_owned(alloc, database, locks, awaited),
            Course::Parted => played_parted(alloc, database, locks, awaited),
        },
    }
}

/// What ends a statement with the locks `locks` of a session of `database`, in `manner`: the end of the
/// statement's own transaction, and what the session gives back after that.
pub fn end_of(
    alloc: Global,
    database: u32,
    manner: Manner,
    locks: &[Lock],
) -> Result<Vec<Step>, SqlFault>
    ensures { IfOk result (λ steps. steps.items ≡ end_for database manner locks.now) }
{
    match manner.control {
        Control::Stay => match manner.course {
            Course::Within => committed(alloc, manner.is_alone),
            Course::Kept => {
                let kept = kept_of(alloc, locks)?;
                given_back(alloc, database, &kept)
            }
            Course::Owned => {
                let asked = asked_of(alloc, locks)?;
                given_back(alloc, database, &asked)
            }
            Course::Parted => committed(alloc, true),
        },
        _ => Ok(Vec::new(alloc)),
    }
}

/// The end of a transaction where `is_alone`, and else nothing.
fn committed(alloc: Global, is_alone: bool) -> Result<Vec<Step>, SqlFault>
    ensures { IfOk result (λ steps. steps.items ≡ (if is_alone then (Step.Commit ∷ []) else [])) }
{
    let mut steps = Vec::new(alloc);
    if is_alone {
        steps.push(Step::Commit)?;
    }
    Ok(steps)
}

/// The end of a transaction, after which a session of `database` gives back the locks `locks` that it owns
/// itself.
fn given_back(alloc: Global, database: u32, locks: &Vec<Lock>) -> Result<Vec<Step>, SqlFault>
    ensures { IfOk result (λ steps. steps.items ≡ given_back database locks.now.items) }
{
    let mut steps = Vec::new(alloc);
    steps.push(Step::Commit)?;
    let ends = steps_of(alloc, database, locks, Asking::GiveBack)?;
    steps.extend_from_slice(ends.as_slice())?;
    Ok(steps)
}

/// What a session plays once the work of a statement is done, whose end is `left`. If there are transactions
/// for which the statement then waits, their locks are `awaited`: a transaction waits for each of them, and
/// the end comes later.
pub fn resumed(alloc: Global, left: &Vec<Step>, awaited: &Vec<Tag>) -> Result<Vec<Step>, SqlFault>
    ensures { IfOk result (λ steps. steps.items ≡ resumed_for left.now.items awaited.now.items) }
{
    let mut steps = Vec::new(alloc);
    if awaited.is_empty() {
        steps.extend_from_slice(left.as_slice())?;
        return Ok(steps);
    }
    steps.push(Step::Commit)?;
    let waits = waits_of(alloc, awaited)?;
    steps.extend_from_slice(waits.as_slice())?;
    Ok(steps)
}

/// What is played for the begin of a transaction: it takes its lock `begins`, if it has one.
fn begun(alloc: Global, begins: Option<Tag>) -> Result<Vec<Step>, SqlFault>
    ensures { IfOk result (λ steps. steps.items ≡ begun_by begins) }
{
    let mut steps = Vec::new(alloc);
    if let Some(tag) = begins {
        steps.push(Step::Lock {
            tag,
            mode: Mode::Exclusive,
            owner: Owner::Transaction,
        })?;
    }
    Ok(steps)
}

/// What is played where the step `end` ends a transaction and the next one begins, which has the lock
/// `begins`, if any.
fn ended(alloc: Global, end: Step, begins: Option<Tag>) -> Result<Vec<Step>, SqlFault>
    ensures { IfOk result (λ steps. steps.items ≡ end ∷ begun_by begins) }
{
    let mut steps = Vec::new(alloc);
    steps.push(end)?;
    let more = begun(alloc, begins)?;
    steps.extend_from_slice(more.as_slice())?;
    Ok(steps)
}

/// What a session of `database` plays for a statement that begins a transaction of its own as `manner` says,
/// takes `locks`, and plays `others` after them.
fn played_in(
    alloc: Global,
    database: u32,
    manner: Manner,
    locks: &[Lock],
    others: &Vec<Step>,
) -> Result<Vec<Step>, SqlFault>
    ensures { IfOk result (λ steps. steps.items ≡ taken_for database manner locks.now others.now.items) }
{
    let mut steps = begun(alloc, manner.begins)?;
    let asked = asked_of(alloc, locks)?;
    let asks = steps_of(alloc, database, &asked, manner.asking)?;
    steps.extend_from_slice(asks.as_slice())?;
    steps.extend_from_slice(others.as_slice())?;
    Ok(steps)
}

/// What a session of `database` plays for a statement whose locks `locks` it owns itself, while its
/// transaction waits for the transactions whose locks are `awaited`: as for `CREATE INDEX CONCURRENTLY`
/// (`DefineIndex` in indexcmds.c).
fn played_owned(
    alloc: Global,
    database: u32,
    locks: &[Lock],
    awaited: &Vec<Tag>,
) -> Result<Vec<Step>, SqlFault>
    ensures { IfOk result (λ steps. steps.items ≡ owned_for database locks.now awaited.now.items) }
{
    let asked = asked_of(alloc, locks)?;
    let mut steps = steps_of(alloc, database, &asked, Asking::Own)?;
    let waits = waits_of(alloc, awaited)?;
    steps.extend_from_slice(waits.as_slice())?;
    Ok(steps)
}

/// What a session of `database` plays for a statement of two transactions. The first one takes the first two
/// of `locks`, and the second one the others. Between them the statement waits for the transactions whose
/// locks are `awaited`: as for `DETACH PARTITION CONCURRENTLY` (`ATExecDetachPartition` in tablecmds.c).
fn played_parted(
    alloc: Global,
    database: u32,
    locks: &[Lock],
    awaited: &Vec<Tag>,
) -> Result<Vec<Step>, SqlFault>
    ensures { IfOk result (λ steps. steps.items ≡ parted_for database locks.now awaited.now.items) }
{
    let mut steps = transaction_of(alloc, database, first_two(locks))?;
    let passes = passes_of(alloc, awaited)?;
    steps.extend_from_slice(passes.as_slice())?;
    let asked = asked_of(alloc, all_but_two(locks))?;
    let last = steps_of(alloc, database, &asked, Asking::Wait)?;
    steps.extend_from_slice(last.as_slice())?;
    Ok(steps)
}

/// The steps of a transaction of `database` that takes `locks` and ends.
fn transaction_of(alloc: Global, database: u32, locks: &[Lock]) -> Result<Vec<Step>, SqlFault>
    ensures { IfOk result (λ steps. steps.items ≡ transaction_for database locks.now) }
{
    let asked = asked_of(alloc, locks)?;
    let mut steps = steps_of(alloc, database, &asked, Asking::Wait)?;
    steps.push(Step::Commit)?;
    Ok(steps)
}

/// The first two of `locks`, or all where they are fewer.
fn first_two(locks: &[Lock]) -> &[Lock]
    ensures { result.now ≡ take 2 locks.now }
{
    if locks.len() < 2 { locks } else { &locks[..2] }
}

/// All of `locks` but the first two.
fn all_but_two(locks: &[Lock]) -> &[Lock]
    ensures { result.now ≡ drop 2 locks.now }
{
    if locks.len() < 2 {
        &locks[locks.len()..]
    } else {
        &locks[2..]
    }
}
