//! What a waiting session sees of its own wait.

ghost use Rattle.std.specs.Prelude.{◌≡◌, IfOk, IsOkUnless};
ghost use Rattle.modes_core.specs.ModeSet.{set_has};
ghost use Rattle.local_locks.specs.Owned.{has_entry};
ghost use Rattle.lock_manager.specs.Queues.{LooksAt, AreBlockers, IsQueue};
ghost use Rattle.lock_manager.specs.WaitingSessions.{WaitsOn};

use super::OwnWaiting;
use crate::held::modes_held;
use crate::queues::{QueueRow, blockers_of_own, queue_of_own};
use lock_table::PartTable;
use modes_core::{Mode, ModeSet, Owner, Refusal, SessionId, Tag};
use shared_rule::Board;
use std::sync::Wait;
use wait_queue::Blocker;

impl<T: PartTable, B: Board<T>> OwnWaiting<T, B> {
    /// The number of the session.
    pub fn id(&self) -> SessionId
        ensures { result ≡ (B.seat self.now.board).number }
    {
        self.board.number()
    }

    /// The object that the session waits for.
    pub fn tag(&self) -> Tag
        ensures { result ≡ self.now.tag }
    {
        self.tag
    }

    /// The mode that the session waits for.
    pub fn mode(&self) -> Mode
        ensures { result ≡ self.now.mode }
    {
        self.mode
    }

    /// For whom the session will have the awaited mode: its transaction or the session itself.
    pub fn owner(&self) -> Owner
        ensures { result ≡ self.now.owner }
    {
        self.owner
    }

    /// The modes in which the session has `tag`, as `OwnSession::held` has them of a session that doesn't
    /// wait. The awaited mode is not among them.
    pub fn held(&self, tag: Tag) -> ModeSet
        ensures { set_has result ≡ has_entry self.now.owned.entries tag }
    {
        modes_held(&self.own.locals, tag)
    }

    /// The sessions in the way of the session's own wait (what `ProcSleep` in proc.c logs of a long wait, by
    /// `log_lock_waits`), as `blockers` of another session has them: by session and mode those who hold a
    /// mode that conflicts with the awaited one, and then, in the order of the queue, those before it who
    /// await one. Nobody where the wait was granted meanwhile. The answer is of one episode in the object's
    /// partition, which changes nothing. Only the list of the answer takes memory; refused where that runs
    /// out.
    pub fn blockers<R: Wait>(&mut self, rt: &R) -> Result<Vec<Blocker>, Refusal>
        // What the call answers.
        ensures looked { LooksAt (λ taken. IfOk result (λ found.
            AreBlockers self.old.tag (B.seat self.old.board).number found.items taken))
            (B.view self.old.board).trace self.old.tag (B.view self.new.board).trace }
        ensures quiet { B.quiet self.new.board ≡ B.quiet self.old.board }
        ensures no_memory { IsOkUnless result Refusal.NoMemory }

        // What holds after the call.
        ensures waiting { WaitsOn B.seat B.view B.stack self.old self.new }
    {
        blockers_of_own(rt, &mut self.board, &self.own, self.tag, self.mode)
    }

    /// The queue in which the session waits, from its first waiter on, with the modes that each waiting
    /// session held when it joined, as `queue` of another session has it. The session isn't in the queue
    /// where its wait was granted meanwhile. The answer is of one episode in the object's partition, which
    /// changes nothing. Only the list of the answer takes memory; refused where that runs out.
    pub fn queue<R: Wait>(&mut self, rt: &R) -> Result<Vec<QueueRow>, Refusal>
        // What the call answers.
        ensures looked { LooksAt (λ taken. IfOk result (λ rows. IsQueue self.old.tag rows.items taken))
            (B.view self.old.board).trace self.old.tag (B.view self.new.board).trace }
        ensures quiet { B.quiet self.new.board ≡ B.quiet self.old.board }
        ensures no_memory { IsOkUnless result Refusal.NoMemory }

        // What holds after the call.
        ensures waiting { WaitsOn B.seat B.view B.stack self.old self.new }
    {
        queue_of_own(rt, &mut self.board, &self.own, self.tag, self.mode)
    }
}
