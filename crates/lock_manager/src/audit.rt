//! An audit: what stands in the manager is counted, with all of its open sessions lent.

ghost use Rattle.std.specs.Prelude.{◌≡◌, ◌+◌, All, length, reverse, vec_len, vec_capacity, None, [], IsOkUnless};
ghost use Rattle.std.specs.List.{AllByRecursion};
ghost use Rattle.lock_manager.specs.Keeper.{content_of};
ghost use Rattle.shared_rule.specs.Boards.{nothing_due};
ghost use Rattle.shared_rule.specs.Openers.{HasGathered};
ghost use Rattle.shared_rule.specs.Seats.{MayBeKeptApartBy};
ghost use Rattle.lock_manager.specs.Audits.{Audits, CountsWith, MayCount};
ghost use Rattle.lock_manager.specs.Managers.{IsOpenerOf};

use crate::keeper::Part;
use crate::manager::{Manager, Opener};
use crate::sessions::{OwnSession, Session};
use lock_table::{NoMemory, TableRow};
use modes_core::Refusal;
use shared_rule::{Absent, Audit, Board, SeatBoard, SeatOpener, SharedWords};
use std::sync::Wait;

impl Manager {
    /// Counts what is in the manager while nobody else can change it, since all of its open `sessions` and
    /// its `opener` are lent: `fast` is how many modes the fast-path slots show, `table` how many holds the
    /// contents of all partitions have, `strong` the sum of the strong lock counters. `fast + table` is how
    /// many local entries the sessions have, and `strong` how many of these entries are of strong modes.
    ///
    /// Call it with a list of all sessions that are open, in any order, as
    /// `manager.audit(rt, &mut opener, &mut sessions)`. The call takes the sessions out of the list and puts
    /// them back, so a slice won't do. The first session makes all steps: it loads the counters, takes the
    /// partitions in rising order, loads with all in hand each slot of each session that there can be, and
    /// puts the partitions back. With no session the call makes no step and counts nothing.
    ///
    /// Memory is taken for the rows of the partitions alone. Where that memory runs out the audit is refused;
    /// in that case too opener, sessions and table are as before, but for the first session's trace.
    /// PostgreSQL has no such call; nearest is a sum over the view `pg_locks`.
    pub fn audit<'a, R: Wait>(
        &self,
        rt: &R,
        opener: &mut Opener,
        sessions: &mut Vec<Session<'a>>,
    ) -> Result<Audit, Refusal>
        requires own { IsOpenerOf opener.old self.now }
        requires same_manager { let B = ⟦<SeatBoard<'a, Part> as Board<Part>>⟧ in
            All (λ session. (B.seat session.board).table ≡ self.now.table) sessions.old.items }
        requires all { length sessions.old.items ≡ opener.old.live }
        ensures counted { let B = ⟦<SeatBoard<'a, Part> as Board<Part>>⟧ in
            Audits B.seat B.view B.stack B.quiet opener.old.limit opener.old.groups sessions.old.items
            sessions.new.items result }
        ensures opener { opener.new ≡ opener.old }
        ensures same_manager_still { let B = ⟦<SeatBoard<'a, Part> as Board<Part>>⟧ in
            All (λ session. (B.seat session.board).table ≡ self.now.table) sessions.new.items }
        ensures as_many { length sessions.new.items ≡ length sessions.old.items }
        ensures no_memory { IsOkUnless result Refusal.NoMemory }
    {
        let mut rows = Vec::new(self.alloc);
        sessions.reverse();
        let counted = audit_all(
            rt,
            &self.table.shared,
            &mut opener.numbers,
            sessions,
            &mut rows,
        );
        sessions.reverse();
        match counted {
            Ok(audit) => Ok(audit),
            Err(NoMemory) => Err(Refusal::NoMemory),
        }
    }
}

// Gathers these sessions, the last one first, counts, and sends them back.
fn audit_all<'a, R: Wait>(
    rt: &R,
    table: &SharedWords<Part>,
    numbers: &mut SeatOpener<Part>,
    sessions: &mut Vec<Session<'a>>,
    rows: &mut Vec<TableRow>,
) -> Result<Audit, NoMemory>
    requires table { (numbers.old.table ≡ table.now.table_id) × (numbers.old.limit ≡ table.now.key.sessions)
        × (numbers.old.groups ≡ table.now.key.groups) }
    requires same_manager { let B = ⟦<SeatBoard<'a, Part> as Board<Part>>⟧ in
        AllByRecursion (λ session. (B.seat session.board).table ≡ numbers.old.table) sessions.old.items }
    requires none_gathered { numbers.old.gathered ≡ [] }
    requires all { length sessions.old.items + length numbers.old.closed ≡ numbers.old.issued }
    requires empty { rows.old.items ≡ [] }
    ensures audited { let B = ⟦<SeatBoard<'a, Part> as Board<Part>>⟧ in
        Audits B.seat B.view B.stack B.quiet numbers.old.limit numbers.old.groups (reverse sessions.old.items)
        (reverse sessions.new.items) result }
    ensures numbers { numbers.new ≡ numbers.old }
{
    let Some(session) = sessions.pop() else {
        return Ok(Audit {
            fast: 0,
            table: 0,
            strong: 0,
        });
    };
    let OwnSession { board, own, parts } = session;
    let absent = numbers.gather(board);
    let counted = audit_others(rt, table, numbers, sessions, rows);
    let board = numbers.send_back(absent);
    sessions.push_reserved(OwnSession { board, own, parts });
    counted
}

// Gathers one more session, with these left.
fn gather_next<'a>(
    table: &SharedWords<Part>,
    numbers: &mut SeatOpener<Part>,
    board: SeatBoard<'a, Part>,
    left: &Vec<Session<'a>>,
) -> Absent<'a, Part>
    requires table { (numbers.old.table ≡ table.now.table_id) × (numbers.old.limit ≡ table.now.key.sessions)
        × (numbers.old.groups ≡ table.now.key.groups) }
    requires own { (⟦<SeatBoard<'a, Part> as Board<Part>>⟧.seat board).table ≡ numbers.old.table }
    requires stack { ⟦<SeatBoard<'a, Part> as Board<Part>>⟧.stack board ≡ nothing_due }
    requires no_word { MayBeKeptApartBy (⟦<SeatBoard<'a, Part> as Board<Part>>⟧.view board) }
    requires no_wait { (⟦<SeatBoard<'a, Part> as Board<Part>>⟧.view board).awaited ≡ None }
    requires left_own { let B = ⟦<SeatBoard<'a, Part> as Board<Part>>⟧ in
        AllByRecursion (λ session. (B.seat session.board).table ≡ numbers.old.table) left.now.items }
    requires ready { MayCount (length left.now.items + 1) numbers.old }
    ensures absent { result ≡ ⟦<SeatBoard<'a, Part> as Board<Part>>⟧.seat board.entry }
    ensures gathered { let B = ⟦<SeatBoard<'a, Part> as Board<Part>>⟧ in
        HasGathered content_of (B.seat board.entry).number (B.view board.entry) (B.quiet board.entry)
        numbers.old numbers.new }
    ensures table { (numbers.new.table ≡ table.now.table_id) × (numbers.new.limit ≡ table.now.key.sessions)
        × (numbers.new.groups ≡ table.now.key.groups) }
    ensures left_own { let B = ⟦<SeatBoard<'a, Part> as Board<Part>>⟧ in
        AllByRecursion (λ session. (B.seat session.board).table ≡ numbers.new.table) left.now.items }
    ensures ready { MayCount (length left.now.items) numbers.new }
{
    numbers.gather(board)
}

// Gathers these sessions behind those that are, the last one first, counts, and sends them back.
fn audit_others<'a, R: Wait>(
    rt: &R,
    table: &SharedWords<Part>,
    numbers: &mut SeatOpener<Part>,
    sessions: &mut Vec<Session<'a>>,
    rows: &mut Vec<TableRow>,
) -> Result<Audit, NoMemory>
    requires table { (numbers.old.table ≡ table.now.table_id) × (numbers.old.limit ≡ table.now.key.sessions)
        × (numbers.old.groups ≡ table.now.key.groups) }
    requires same_manager { let B = ⟦<SeatBoard<'a, Part> as Board<Part>>⟧ in
        AllByRecursion (λ session. (B.seat session.board).table ≡ numbers.old.table) sessions.old.items }
    requires ready { MayCount (length sessions.old.items) numbers.old }
    requires empty { rows.old.items ≡ [] }
    ensures counts { let B = ⟦<SeatBoard<'a, Part> as Board<Part>>⟧ in
        CountsWith B.seat B.view B.stack B.quiet numbers.old sessions.old.items result numbers.new sessions.new.items }
    ensures len { vec_len sessions.new ≡ vec_len sessions.old }
    ensures capacity { vec_capacity sessions.new ≡ vec_capacity sessions.old }
{
    let Some(session) = sessions.pop() else {
        return numbers.count(rt, table, rows);
    };
    let OwnSession { board, own, parts } = session;
    let absent = gather_next(table, numbers, board, sessions);
    let counted = audit_others(rt, table, numbers, sessions, rows);
    let board = numbers.send_back(absent);
    sessions.push_reserved(OwnSession { board, own, parts });
    counted
}
