//! Calls on any keeper of a partition, each with what has to be so before it asked first.

ghost use Rattle.std.specs.Prelude.{◌≡◌, ◌≤◌, false, true, None, length};
ghost use Rattle.lock_table.specs.Queue.{awaits_mode, waits_there};

use crate::fixtures::end_wait;
use lock_table::{NoMemory, PartTable};
use modes_core::{Mode, SessionId, Tag};
use std::process::Abort;

/// Ends the wait of `session` for `tag` in `part`, if any, and answers whether the session may ask for `tag`
/// in `mode`: whether it doesn't hold that.
fn may_ask<P: PartTable>(part: &mut P, session: SessionId, tag: &Tag, mode: Mode) -> bool
    ensures new { result ≡ true → (P.content part.new).holds session tag.now mode ≡ false }
    ensures no_wait { waits_there ((P.content part.new).waits tag.now) session ≡ false }
    ensures not_awaited { awaits_mode ((P.content part.new).waits tag.now) session mode ≡ false }
    ensures begun { P.begun part.new ≡ P.begun part.old }
{
    end_wait(part, session, tag);
    !part.held(session, tag).has(mode)
}

/// What a request comes to.
#[derive(Clone, Copy)]
pub enum Outcome {
    /// A hold, without a look for conflicts.
    Holds,
    /// A hold where no other session is in the way. Otherwise the request is given up.
    HoldsBeside,
    /// A wait at this place of the queue, or first where there is no wait before that place.
    Waits(usize),
}

/// Has `session` ask for `tag` in `mode` in `part`, which comes to `outcome`, where it doesn't hold that yet.
/// Answers whether it has got there: whether it didn't hold that before, and the request wasn't given up.
pub fn ask<P: PartTable>(
    part: &mut P,
    session: SessionId,
    tag: &Tag,
    mode: Mode,
    outcome: Outcome,
) -> Result<bool, NoMemory>
    requires none_begun { P.begun part.old ≡ None }
    ensures none_begun { P.begun part.new ≡ None }
{
    if !may_ask(part, session, tag, mode) {
        return Ok(false);
    }
    part.begin(session, tag, mode)?;
    match outcome {
        Outcome::Holds => part.grant(session, tag, mode),
        Outcome::HoldsBeside => {
            if part.conflict_of(session, tag, mode).is_some() {
                part.withdraw(session, tag, mode);
                return Ok(false);
            }
            part.grant(session, tag, mode);
        }
        Outcome::Waits(place) => {
            if place > 0 && part.waiter(tag, place - 1).is_some() {
                part.join(session, tag, mode, place);
            } else {
                part.join(session, tag, mode, 0);
            }
        }
    }
    Ok(true)
}

/// Takes the hold of `session` on `tag` in `mode` out of `part`, if it is there.
pub fn release<P: PartTable>(part: &mut P, session: SessionId, tag: &Tag, mode: Mode) -> bool
    ensures begun { P.begun part.new ≡ P.begun part.old }
{
    if !part.held(session, tag).has(mode) {
        return false;
    }
    part.ungrant(session, tag, mode);
    true
}

/// Whether two wakeups, `woken` and `others`, granted alike.
pub fn are_same(woken: &[(SessionId, Mode)], others: &[(SessionId, Mode)]) -> bool {
    if woken.len() != others.len() {
        return false;
    }
    for place in 0..woken.len() {
        if woken[place] != others[place] {
            return false;
        }
    }
    true
}
