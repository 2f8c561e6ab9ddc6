//! Steps on a plain part: what is done to it or seen in it, and a player of lists of them.

ghost use Rattle.std.specs.Prelude.{◌≡◌, IfOk, OnOk, OnErr, Some, None, false};
ghost use Rattle.lock_table.specs.Queue.{waits_there};
ghost use Rattle.lock_table.specs.declared.request.Request.{Request};

use crate::fixtures::{are_woken, may_ask, may_release, new_part, session};
use lock_table::{Answer, NoMemory, PartTable, PlainPart, waiting_answer};
use modes_core::{Mode, SessionId, Tag};
use std::alloc::Global;
use std::process::Abort;

/// What is done to a part by the session of a number, or seen in it.
#[derive(Clone, Copy)]
pub enum Step {
    /// The session with this number comes to hold the object in this mode.
    Holds(u16, Tag, Mode),
    /// The session with this number comes to wait for this mode, at this place of the object's queue.
    Waits(u16, Tag, Mode, usize),
    /// The hold of the session with this number on the object, in this mode, is taken out.
    Releases(u16, Tag, Mode),
    /// The session with this number leaves the object's queue, in which it waited for this mode, or for none.
    Leaves(u16, Tag, Option<Mode>),
    /// A wakeup of the object's queue grants these sessions these modes, in this order.
    Wakes(Tag, &'static [(u16, Mode)]),
    /// The object's queue has the waits of the sessions with these numbers, from the front.
    Queue(Tag, &'static [u16]),
    /// The first session in the object's queue waits for this mode, and held the object in the modes of this
    /// mask as it joined.
    First(Tag, Mode, u16),
    /// The session with this number holds the object in the modes of this mask.
    Has(u16, Tag, u16),
    /// A request of the first session for the object in the first mode meets the second session, which holds
    /// the second mode: the first hold in conflict.
    Meets(u16, Tag, Mode, u16, Mode),
    /// The answer that the session with this number would get if it asked for this mode on the object.
    Asks(u16, Tag, Mode, Told),
}

/// The answer to the request of a session that may wait.
#[derive(Clone, Copy)]
pub enum Told {
    Granted,
    /// The session is to wait at this place of the wait queue.
    Queued(usize),
    /// Refused, for the session that asks and the one with this number would wait for one another.
    Deadlock(u16),
}

/// Begins the request of `session` in `part` for `tag` in `mode`. Where memory is refused, nothing changes
/// and a second attempt is made. Where the request may not be made, the test ends by `rt`.
fn begins<P: PartTable>(
    rt: &impl Abort,
    part: &mut P,
    session: SessionId,
    tag: &Tag,
    mode: Mode,
) -> Result<(), NoMemory>
    requires none_begun { P.begun part.old ≡ None }
    ensures begun { OnOk result
        (P.begun part.new ≡ Some (record { session = session; tag = tag.now; mode = mode })) }
    ensures none_begun { OnErr result (P.begun part.new ≡ None) }
    ensures no_wait { waits_there ((P.content part.new).waits tag.now) session ≡ false }
{
    may_ask(rt, part, session, tag, mode);
    match part.begin(session, tag, mode) {
        Ok(()) => Ok(()),
        Err(_) => part.begin(session, tag, mode),
    }
}

/// Has `session` wait for `tag` in `mode` in `part`, at `place` of its queue.
pub fn waits<P: PartTable>(
    rt: &impl Abort,
    part: &mut P,
    session: SessionId,
    tag: &Tag,
    mode: Mode,
    place: usize,
) -> Result<(), NoMemory>
    requires none_begun { P.begun part.old ≡ None }
    ensures none_begun { P.begun part.new ≡ None }
{
    begins(rt, part, session, tag, mode)?;
    if place > 0 {
        let ahead = part.waiter(tag, place - 1);
        assert!(rt; ahead.is_some());
    }
    part.join(session, tag, mode, place);
    Ok(())
}

/// Takes the hold of `session` on `tag` in `mode` out of `part`.
fn releases<P: PartTable>(rt: &impl Abort, part: &mut P, session: SessionId, tag: &Tag, mode: Mode)
    ensures begun { P.begun part.new ≡ P.begun part.old }
{
    may_release(rt, part, session, tag, mode);
    part.ungrant(session, tag, mode);
}

/// Whether the queue of `tag` in `part` has the waits of the sessions `numbers`, from the front.
pub fn queue_is<P: PartTable>(part: &P, tag: &Tag, numbers: &[u16]) -> bool {
    for place in 0..numbers.len() {
        let Some(waiter) = part.waiter(tag, place) else {
            return false;
        };
        if waiter.session.number() != numbers[place] {
            return false;
        }
    }
    part.waiter(tag, numbers.len()).is_none()
}

/// Whether the first session in the queue of `tag` in `part` waits for `mode`, and held `tag` in the modes of
/// the mask `held` as it joined.
fn first_is<P: PartTable>(part: &P, tag: &Tag, mode: Mode, held: u16) -> bool {
    match part.waiter(tag, 0) {
        Some(first) => first.mode == mode && first.held.mask() == held,
        None => false,
    }
}

/// The answer that `told` says.
fn meant(rt: &impl Abort, told: Told) -> Answer {
    match told {
        Told::Granted => Answer::Granted,
        Told::Queued(place) => Answer::Queued(place),
        Told::Deadlock(number) => Answer::SimpleDeadlock(session(rt, number)),
    }
}

/// Does with `part` what `step` says, or looks at what `step` names, and answers whether that comes out as
/// `step` says.
fn make<P: PartTable>(rt: &impl Abort, part: &mut P, step: Step) -> Result<bool, NoMemory>
    requires none_begun { P.begun part.old ≡ None }
    ensures none_begun { P.begun part.new ≡ None }
{
    match step {
        Step::Holds(number, tag, mode) => {
            let session = session(rt, number);
            begins(rt, part, session, &tag, mode)?;
            part.grant(session, &tag, mode);
            Ok(true)
        }
        Step::Waits(number, tag, mode, place) => {
            waits(rt, part, session(rt, number), &tag, mode, place)?;
            Ok(true)
        }
        Step::Releases(number, tag, mode) => {
            releases(rt, part, session(rt, number), &tag, mode);
            Ok(true)
        }
        Step::Leaves(number, tag, mode) => Ok(part.leave(session(rt, number), &tag) == mode),
        Step::Wakes(tag, expected) => {
            part.wake(&tag);
            Ok(are_woken(part.woken(), expected))
        }
        Step::Queue(tag, numbers) => Ok(queue_is(part, &tag, numbers)),
        Step::First(tag, mode, held) => Ok(first_is(part, &tag, mode, held)),
        Step::Has(number, tag, held) => Ok(part.held(session(rt, number), &tag).mask() == held),
        Step::Meets(number, tag, mode, other, its) => {
            let met = part.conflict_of(session(rt, number), &tag, mode);
            Ok(met == Some((session(rt, other), its)))
        }
        Step::Asks(number, tag, mode, told) => {
            let answer = waiting_answer(part, session(rt, number), &tag, mode);
            Ok(answer == meant(rt, told))
        }
    }
}

/// Plays all `steps` with `part`, in order.
pub fn play<P: PartTable>(rt: &impl Abort, part: &mut P, steps: &[Step]) -> Result<(), NoMemory>
    requires none_begun { P.begun part.old ≡ None }
    ensures none_begun { P.begun part.new ≡ None }
{
    'steps: for place in 0..steps.len() {
        let is_right = make(rt, part, steps[place])?;
        assert!(rt; is_right, "step {place}");
    }
    Ok(())
}

/// A new part with which all of `steps` were played, in order.
pub fn part_after(rt: &impl Abort, alloc: Global, steps: &[Step]) -> Result<PlainPart, NoMemory>
    ensures { IfOk result (λ part. part.begun ≡ None) }
{
    let mut part = new_part(alloc)?;
    play(rt, &mut part, steps)?;
    Ok(part)
}
