//! Looks at sessions' fast-path slots.

ghost use Rattle.std.specs.Prelude.{◌≡◌};
ghost use Rattle.std.specs.List.{list_any};
ghost use Rattle.lw_word.specs.SlotWord.{shows};

use super::state::Machine;
use lw_word::SlotWord;
use modes_core::{Mode, SessionId, Tag, is_eligible};

/// Whether one of `slots` shows `mode` for `relation`.
fn some_slot_shows(slots: &[SlotWord], relation: u32, mode: Mode) -> bool
    ensures { result ≡ list_any (λ word. shows word relation mode) slots.now }
{
    slots.iter().any(|word| word.shows(relation, mode))
}

impl Machine {
    ghost use Rattle.std.specs.Prelude.{◌≡◌, ◌<◌, slice_index_or, []};
    ghost use Rattle.modes_core.specs.Sessions.{usual_sessions};
    ghost use Rattle.lock_world.specs.SlotHolds.{slot_holds};
    ghost use Rattle.lock_model.specs.Shows.{ShowsSafe};

    /// Whether the slots of `session` show that it holds `mode` on `tag`.
    pub fn slots_hold(&self, session: SessionId, tag: Tag, mode: Mode) -> bool
        requires within { session < usual_sessions }
        requires shown { ShowsSafe self.now }
        ensures { result ≡ slot_holds (slice_index_or self.now.fast_path.databases session 0)
            (λ place. slice_index_or (slice_index_or self.now.fast_path.slots session []) place 0) tag mode }
    {
        let index = usize::from(session.number());
        let slots = self.fast_path.slots[index];
        is_eligible(self.fast_path.databases[index], tag, mode)
            && some_slot_shows(slots.as_slice(), tag.relation_number(), mode)
    }
}
