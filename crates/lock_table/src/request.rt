ghost use Rattle.std.specs.Prelude.{◌≡◌};
ghost use Rattle.modes_core.specs.ModeSet.{set_has};
ghost use Rattle.lock_table.specs.Request.{is_request_of, is_request_on, is_in_the_way_of};

use modes_core::{Mode, ModeSet, SessionId, Tag};

/// What a session asks for or holds: a mode on an object.
#[derive(Clone, Copy, PartialEq, Eq)]
pub struct Request {
    /// The session that asks for a mode on an object or holds the object in that mode.
    pub session: SessionId,
    /// The object that the session asks for or holds.
    pub tag: Tag,
    /// The mode that the session asks for or holds.
    pub mode: Mode,
}

impl Request {
    /// Whether this is the request of `session` for `tag` in `mode`.
    pub fn is_of(&self, session: SessionId, tag: &Tag, mode: Mode) -> bool
        ensures { result ≡ is_request_of self.now session tag.now mode }
    {
        if self.session != session {
            return false;
        }
        if !mode.is_same(self.mode) {
            return false;
        }
        tag.is_same(self.tag)
    }

    /// Whether this is a request of `session` on `tag`.
    pub fn is_on(&self, session: SessionId, tag: &Tag) -> bool
        ensures { result ≡ is_request_on self.now session tag.now }
    {
        if self.session != session {
            return false;
        }
        tag.is_same(self.tag)
    }

    /// Whether this is a request on `tag` for one of `modes` of a session other than `session`.
    pub fn is_in_the_way(&self, session: SessionId, tag: &Tag, modes: ModeSet) -> bool
        ensures { result ≡ is_in_the_way_of self.now session tag.now (set_has modes) }
    {
        if self.session == session {
            return false;
        }
        // Most holds of a partition are on other objects.
        if !tag.is_same(self.tag) {
            return false;
        }
        modes.has(self.mode)
    }
}
