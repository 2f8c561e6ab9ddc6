//! The plain machine's steps on seats: session numbers, and who keeps whom apart.

ghost use Rattle.std.specs.Prelude.{◌≡◌};
ghost use Rattle.lock_model.specs.Shows.{is_holder};

use super::hands::InHand;
use super::state::Machine;
use lock_table::PartTable;
use modes_core::{SessionId, USUAL_SESSIONS};

/// Whether `hand` is that of `session`.
fn is_holder(hand: &Option<InHand>, session: SessionId) -> bool
    ensures { result ≡ is_holder session hand.now }
{
    match hand {
        Some(hand) => hand.holder == session,
        None => false,
    }
}

impl Machine {
    ghost use Rattle.std.specs.Prelude.{◌≡◌, ◌<◌, ◌==◌, Some, None};
    ghost use Rattle.modes_core.specs.Sessions.{usual_sessions};
    ghost use Rattle.std.specs.List.{list_any};
    ghost use Rattle.lock_world.specs.declared.events.Step.{Step};
    ghost use Rattle.lock_model.specs.Shows.{Follows, is_number, is_holder, has_no_list, owes_a_telling};

    /// Issues the number of `session`, where it is the next one, or lets a session that is kept apart go on.
    pub fn split_seat(&mut self, session: SessionId)
        requires within { session < usual_sessions }
        ensures { Follows self.old session Step.SplitSeat self.new }
    {
        let index = usize::from(session.number());
        if session.number() == self.numbers.issued {
            self.numbers.issued += 1;
            self.numbers.live[index] = true;
        } else if self.numbers.kept_by[index].is_some() {
            self.numbers.kept_by[index] = None;
        }
    }

    /// Joins the seat of `session` to that of `joiner`, which keeps `session` apart, or closes `session`
    /// where `joiner` is `None`.
    pub fn join_seat(&mut self, session: SessionId, joiner: Option<SessionId>)
        requires within { session < usual_sessions }
        ensures { Follows self.old session (Step.JoinSeat joiner) self.new }
    {
        match joiner {
            Some(joiner) => self.keep_apart(session, joiner),
            None => self.close(session),
        }
    }

    /// Keeps `session` apart for `joiner`.
    fn keep_apart(&mut self, session: SessionId, joiner: SessionId)
        requires within { session < usual_sessions }
        ensures { Follows self.old session (Step.JoinSeat (Some joiner)) self.new }
    {
        if joiner.number() >= USUAL_SESSIONS {
            return;
        }
        if self.makes_steps(session)
            && joiner != session
            && self.makes_steps(joiner)
            && !self.has_a_word(session)
            && !self.has_a_fast_word(session)
            && !self.shares_a_word(session)
        {
            self.numbers.kept_by[usize::from(session.number())] = Some(joiner);
        }
    }

    /// Closes `session`, where it has nothing left: no hold, no wait, no lightweight lock and no counted
    /// strong lock.
    fn close(&mut self, session: SessionId)
        requires within { session < usual_sessions }
        ensures { Follows self.old session (Step.JoinSeat None) self.new }
    {
        let index = usize::from(session.number());
        if self.makes_steps(session)
            && !self.has_a_word(session)
            && !self.has_a_fast_word(session)
            && !self.shares_a_word(session)
            && !self.has_a_hold(session)
            && !self.has_a_slot(session)
            && self.waits.awaited[index].is_none()
            && !self.keeps_someone(session)
            && self.counts_nothing(session)
            && self.has_no_list(session)
            && !self.owes_a_telling(session)
        {
            self.numbers.live[index] = false;
            self.lists.off[index] = [false; 64];
        }
    }

    /// Whether `session` has locked no wait list and is in none.
    fn has_no_list(&self, session: SessionId) -> bool
        requires within { session < usual_sessions }
        ensures { result ≡ has_no_list self.now session }
    {
        let index = usize::from(session.number());
        self.lists.has_list[index].is_none() && self.lists.stands[index].is_none()
    }

    /// Whether `session` has taken another session off a wait list and not woken it.
    fn owes_a_telling(&self, session: SessionId) -> bool
        requires within { session < usual_sessions }
        ensures { result ≡ owes_a_telling self.now session }
    {
        let off = &self.lists.off[usize::from(session.number())];
        off.iter().any(|untold| *untold)
    }

    /// Whether `session` has a partition in hand.
    fn has_a_word(&self, session: SessionId) -> bool
        ensures { result ≡ list_any (is_holder session) self.now.contents.hands }
    {
        self.contents
            .hands
            .iter()
            .any(|hand| is_holder(hand, session))
    }

    /// Whether `session` keeps another one apart.
    fn keeps_someone(&self, session: SessionId) -> bool
        ensures { result ≡ list_any (is_number session) self.now.numbers.kept_by }
    {
        self.numbers
            .kept_by
            .iter()
            .any(|joiner| joiner.is_some_and(|other| other == session))
    }

    /// Whether `session` has a hold in the content of a partition.
    fn has_a_hold(&self, session: SessionId) -> bool
        ensures { result
            ≡ list_any (λ part. list_any (λ hold. hold.session == session) part.holds) self.now.contents.parts.items }
    {
        self.contents
            .parts
            .iter()
            .any(|part| part.has_hold_of(session))
    }
}
