//! What each session waits for, by its own account.

use super::state::Machine;
use lock_table::PartTable;
use modes_core::{Mode, SessionId, Tag};

/// What a session waits for.
#[derive(Clone, Copy)]
pub struct Awaited {
    /// The object that the session waits for.
    pub tag: Tag,
    /// The mode that the session waits for.
    pub mode: Mode,
}

impl Machine {
    ghost use Rattle.std.specs.Prelude.{◌≡◌, ◌<◌, ◌&&◌, true, false, not, is_none, slice_set, slice_index_or, Some, None};
    ghost use Rattle.modes_core.specs.Sessions.{usual_sessions};
    ghost use Rattle.modes_core.specs.Tag.{partition_of};
    ghost use Rattle.lock_table.specs.Parts.{contents_in};
    ghost use Rattle.lock_model.specs.Shows.{ShowsSafe, awaits};
    ghost use Rattle.lock_model.specs.SlotLooks.{may_ask};

    /// Whether `session` waits for `mode` on `tag`.
    pub fn awaits(&self, session: SessionId, tag: Tag, mode: Mode) -> bool
        requires within { session < usual_sessions }
        ensures { result ≡ awaits (slice_index_or self.now.waits.awaited session None) tag mode }
    {
        match self.waits.awaited[usize::from(session.number())] {
            Some(wait) => wait.tag.is_same(tag) && wait.mode.is_same(mode),
            None => false,
        }
    }

    /// Whether `session` may ask for `mode` on `tag`: it waits for nothing, and has that hold neither in a
    /// content nor in a slot.
    pub fn may_ask(&self, session: SessionId, tag: Tag, mode: Mode) -> bool
        requires within { session < usual_sessions }
        requires shown { ShowsSafe self.now }
        ensures { result ≡ may_ask self.now session tag mode }
    {
        self.may_ask_table(session, tag, mode) && !self.slots_hold(session, tag, mode)
    }

    /// Whether `session` waits for nothing, and no content has its hold on `tag` in `mode`.
    fn may_ask_table(&self, session: SessionId, tag: Tag, mode: Mode) -> bool
        requires within { session < usual_sessions }
        requires shown { ShowsSafe self.now }
        ensures { result ≡ (is_none (slice_index_or self.now.waits.awaited session None)
            && not ((contents_in self.now.contents.parts.items (partition_of tag)).holds session tag mode)) }
    {
        let part = &self.contents.parts[usize::from(tag.partition())];
        self.waits.awaited[usize::from(session.number())].is_none()
            && !part.held(session, &tag).has(mode)
    }

    /// Makes `session` wait for `tag` in `mode` from now on, by its own account and by its wait word.
    pub fn begin_wait(&mut self, session: SessionId, tag: Tag, mode: Mode)
        requires within { session < usual_sessions }
        ensures { self.new ≡ record self.old {
          words = record (self.old.words) { waits = slice_set self.old.words.waits session 1 };
          waits = record {
            awaited = slice_set self.old.waits.awaited session (Some (record { tag = tag; mode = mode }));
            seen = slice_set self.old.waits.seen session false;
          };
        } }
    {
        let index = usize::from(session.number());
        self.words.waits[index] = 1;
        self.waits.awaited[index] = Some(Awaited { tag, mode });
        self.waits.seen[index] = false;
    }

    /// Ends the wait of `session`, by its own account and by its wait word.
    pub fn end_wait(&mut self, session: SessionId)
        requires within { session < usual_sessions }
        ensures { self.new ≡ record self.old {
          words = record (self.old.words) { waits = slice_set self.old.words.waits session 0 };
          waits = record {
            awaited = slice_set self.old.waits.awaited session None;
            seen = slice_set self.old.waits.seen session false;
          };
        } }
    {
        let index = usize::from(session.number());
        self.words.waits[index] = 0;
        self.waits.awaited[index] = None;
        self.waits.seen[index] = false;
    }
}
