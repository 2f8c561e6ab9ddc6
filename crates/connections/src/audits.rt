//! An audit of the manager of a pool, once all of its sessions are back.

ghost use Rattle.std.specs.Prelude.{◌≡◌, ◌↔◌, ◌+◌, length, map, IfOk, IfSome, IsSome, IsOkUnless};
ghost use Rattle.lock_manager.specs.Audits.{entries_owned, strong_owned};

use crate::names::ManagerName;
use crate::pool::Pool;
use lock_manager::{Audit, Board, Desk, OwnSession, Part, Refusal};
use std::alloc::Global;
use std::sync::Wait;

impl<B: Board<Part>, D: Desk<OwnSession<Part, B>>, M: ManagerName> Pool<B, D, M> {
    /// Counts what is in the manager (`Manager::audit`), or answers `None` where a connection has a session.
    /// The sessions are lent in a list of their own, in memory from `alloc`. Refused where memory runs out.
    pub fn audit<R: Wait>(&mut self, rt: &R, alloc: Global) -> Result<Option<Audit>, Refusal>
        ensures back { IfOk result (λ counted. IsSome counted ↔ (length self.old.free.items ≡ D.live self.old.desk)) }
        ensures holds { IfOk result (λ counted. IfSome counted (λ audit.
            audit.fast + audit.table ≡ entries_owned D.entries self.old.free.items)) }
        ensures strong { IfOk result (λ counted. IfSome counted (λ audit.
            audit.strong ≡ strong_owned D.entries self.old.free.items)) }
        ensures kept { map D.entries self.new.free.items ≡ map D.entries self.old.free.items }
        ensures lives { self.new.lives ≡ self.old.lives }
        ensures no_memory { IsOkUnless result Refusal.NoMemory }
    {
        if self.free.len() as u64 != u64::from(self.desk.live()) {
            return Ok(None);
        }
        let mut lent = Vec::new(alloc);
        if lent.append(&mut self.free).is_err() {
            lent.destroy_empty();
            return Err(Refusal::NoMemory);
        }
        let counted = self.desk.audit(rt, &mut lent);
        // Lent out of the pool they leave their room there.
        match self.free.append(&mut lent) {
            Ok(()) => lent.destroy_empty(),
            Err(_) => unreachable!(),
        }
        match counted {
            Ok(audit) => Ok(Some(audit)),
            Err(refusal) => Err(refusal),
        }
    }
}
