//! Queues worked by hand on the plain keeper of a partition: who is granted, who waits where, and who
//! goes when.

ghost use Rattle.std.specs.Prelude.{◌≡◌, None};

use crate::fixtures::{OBJECT, are_woken, may_ask, may_release, new_part, session};
use lock_table::PartTable;
use modes_core::Mode::{AccessExclusive, AccessShare, Exclusive, RowExclusive, RowShare, Share};
use modes_core::{How, Mode, Refusal, SessionId};
use std::alloc::Global;
use std::process::Abort;
use std::test::Fail;
use wait_queue::Kind::{Conditional, Waiting};
use wait_queue::{Decision, Kind, awaited_in_conflict, decide, remove_waiter, take_hold_out};

/// What the session of a number does, and what that leads to.
#[derive(Clone, Copy)]
enum Step {
    /// The session with this number asks for this mode, by a request of this kind, and gets this answer.
    Asks(u16, Mode, Kind, Told),
    /// The session with this number releases its hold in this mode, which wakes these sessions with these
    /// modes, in this order.
    Releases(u16, Mode, &'static [(u16, Mode)]),
    /// The wait of the session with this number is taken out: whether it was granted before, and whom that
    /// wakes with which modes, in this order.
    Leaves(u16, bool, &'static [(u16, Mode)]),
    /// Whether somebody waits for a mode in conflict with the given mode.
    Awaited(Mode, bool),
}

/// What a request is answered.
#[derive(Clone, Copy)]
enum Told {
    Granted,
    Queued,
    /// Refused, for the session with this number holds this mode.
    Held(u16, Mode),
    /// Refused, for the session with this number waits for this mode.
    Ahead(u16, Mode),
    /// Refused, for the session that asks and the one with this number would wait for one another.
    Deadlock(u16),
}

use Told::{Ahead, Deadlock, Granted, Held, Queued};

const A_WAITER_GOES_BEHIND_THOSE_LEFT_BEFORE_IT: [Step; 11] = [
    Step::Asks(0, AccessExclusive, Waiting, Granted),
    Step::Asks(1, Share, Waiting, Queued),
    Step::Asks(2, RowExclusive, Waiting, Queued),
    Step::Asks(3, RowShare, Waiting, Queued),
    Step::Asks(4, Share, Waiting, Queued),
    Step::Awaited(RowExclusive, true),
    Step::Awaited(AccessShare, false),
    Step::Releases(0, AccessExclusive, &[(1, Share), (3, RowShare)]),
    Step::Releases(1, Share, &[(2, RowExclusive)]),
    Step::Releases(3, RowShare, &[]),
    Step::Releases(2, RowExclusive, &[(4, Share)]),
];

const A_CONDITIONAL_REQUEST_IS_REFUSED_BY_A_HOLD: [Step; 6] = [
    Step::Asks(2, Share, Waiting, Granted),
    Step::Asks(1, AccessShare, Waiting, Granted),
    Step::Asks(0, RowExclusive, Conditional, Held(2, Share)),
    Step::Asks(0, RowShare, Conditional, Granted),
    Step::Releases(2, Share, &[]),
    Step::Asks(3, RowExclusive, Conditional, Granted),
];

const A_CONDITIONAL_REQUEST_DOES_NOT_PASS_A_WAITER: [Step; 5] = [
    Step::Asks(0, AccessShare, Waiting, Granted),
    Step::Asks(1, AccessExclusive, Waiting, Queued),
    Step::Asks(2, AccessShare, Conditional, Ahead(1, AccessExclusive)),
    // The place of a holder's request would let it go at once, and only one that may wait has a place.
    Step::Asks(0, RowExclusive, Conditional, Ahead(1, AccessExclusive)),
    Step::Asks(0, RowExclusive, Waiting, Granted),
];

const A_CONDITIONAL_REQUEST_IS_REFUSED_WITH_THE_LOWEST_HOLDER: [Step; 4] = [
    Step::Asks(3, Share, Waiting, Granted),
    Step::Asks(1, Share, Waiting, Granted),
    Step::Asks(2, RowExclusive, Conditional, Held(1, Share)),
    Step::Asks(2, RowShare, Conditional, Granted),
];

const A_HOLDER_STANDS_BEFORE_WHOM_IT_KEEPS_WAITING: [Step; 5] = [
    Step::Asks(0, AccessShare, Waiting, Granted),
    Step::Asks(2, RowExclusive, Waiting, Granted),
    Step::Asks(1, AccessExclusive, Waiting, Queued),
    Step::Asks(0, Share, Waiting, Queued),
    Step::Releases(2, RowExclusive, &[(0, Share)]),
];

const TWO_THAT_WAIT_FOR_ONE_ANOTHER_ARE_TOLD: [Step; 5] = [
    Step::Asks(0, Share, Waiting, Granted),
    Step::Asks(1, Share, Waiting, Granted),
    Step::Asks(0, Exclusive, Waiting, Queued),
    Step::Asks(1, Exclusive, Waiting, Deadlock(0)),
    Step::Releases(1, Share, &[(0, Exclusive)]),
];

const A_WAITER_THAT_LEAVES_LETS_OTHERS_GO: [Step; 5] = [
    Step::Asks(0, AccessShare, Waiting, Granted),
    Step::Asks(1, AccessExclusive, Waiting, Queued),
    Step::Asks(2, AccessShare, Waiting, Queued),
    Step::Leaves(1, false, &[(2, AccessShare)]),
    Step::Leaves(2, true, &[]),
];

/// The answer to a request of `session` in `part` for `mode`, of kind `kind`. Where memory is refused,
/// nothing changes and a second attempt is made. Where the request may not be made, the test ends by `rt`.
fn asked<P: PartTable>(
    rt: &impl Abort,
    part: &mut P,
    session: SessionId,
    mode: Mode,
    kind: Kind,
) -> Result<Decision, Refusal>
    requires { P.begun part.old ≡ None }
    ensures { P.begun part.new ≡ None }
{
    may_ask(rt, part, session, &OBJECT, mode);
    match decide(part, session, &OBJECT, mode, kind) {
        Err(Refusal::NoMemory) => decide(part, session, &OBJECT, mode, kind),
        answer => answer,
    }
}

/// The answer that `told` says.
fn meant(rt: &impl Abort, told: Told) -> Result<Decision, Refusal> {
    match told {
        Granted => Ok(Decision::Granted),
        Queued => Ok(Decision::Queued),
        Held(number, mode) => Err(Refusal::Conflict {
            session: session(rt, number),
            mode,
            how: How::Held,
        }),
        Ahead(number, mode) => Err(Refusal::Conflict {
            session: session(rt, number),
            mode,
            how: How::Awaited,
        }),
        Deadlock(number) => Err(Refusal::SimpleDeadlock {
            session: session(rt, number),
        }),
    }
}

/// Whether a release of `mode` by `session` in `part` wakes those who are `expected`, in this order.
fn wakes<P: PartTable>(
    rt: &impl Abort,
    part: &mut P,
    session: SessionId,
    mode: Mode,
    expected: &[(u16, Mode)],
) -> bool
    ensures { P.begun part.new ≡ P.begun part.old }
{
    may_release(rt, part, session, &OBJECT, mode);
    if !take_hold_out(part, session, &OBJECT, mode) {
        return expected.is_empty();
    }
    part.wake(&OBJECT);
    are_woken(part.woken(), expected)
}

/// Makes `step` in `part`, and answers whether that leads to what `step` says.
fn make<P: PartTable>(rt: &impl Abort, part: &mut P, step: Step) -> bool
    requires { P.begun part.old ≡ None }
    ensures { P.begun part.new ≡ None }
{
    match step {
        Step::Asks(number, mode, kind, told) => {
            asked(rt, part, session(rt, number), mode, kind) == meant(rt, told)
        }
        Step::Releases(number, mode, expected) => {
            wakes(rt, part, session(rt, number), mode, expected)
        }
        Step::Leaves(number, was_granted, expected) => {
            if remove_waiter(part, session(rt, number), &OBJECT) {
                return was_granted && expected.is_empty();
            }
            !was_granted && are_woken(part.woken(), expected)
        }
        Step::Awaited(mode, awaited) => awaited_in_conflict(part, &OBJECT, mode) == awaited,
    }
}

/// Plays all `steps` in `part`, in order.
fn play<P: PartTable>(rt: &impl Abort, part: &mut P, steps: &[Step])
    requires { P.begun part.old ≡ None }
    ensures { P.begun part.new ≡ None }
{
    'steps: for place in 0..steps.len() {
        let is_right = make(rt, part, steps[place]);
        assert!(rt; is_right, "step {place}");
    }
}

/// Plays `steps`, in order, on a new and empty part.
fn run(rt: &impl Abort, alloc: Global, steps: &[Step]) -> Result<(), Fail> {
    let mut part = new_part(alloc)?;
    play(rt, &mut part, steps);
    Ok(())
}

#[test]
fn a_waiter_goes_behind_those_left_before_it(rt: HostRuntime) -> Result<(), Fail> {
    run(
        &rt,
        rt.alloc(),
        A_WAITER_GOES_BEHIND_THOSE_LEFT_BEFORE_IT.as_slice(),
    )
}

#[test]
fn a_conditional_request_is_refused_by_a_hold(rt: HostRuntime) -> Result<(), Fail> {
    run(
        &rt,
        rt.alloc(),
        A_CONDITIONAL_REQUEST_IS_REFUSED_BY_A_HOLD.as_slice(),
    )
}

#[test]
fn a_conditional_request_does_not_pass_a_waiter(rt: HostRuntime) -> Result<(), Fail> {
    run(
        &rt,
        rt.alloc(),
        A_CONDITIONAL_REQUEST_DOES_NOT_PASS_A_WAITER.as_slice(),
    )
}

#[test]
fn a_conditional_request_is_refused_with_the_lowest_holder(rt: HostRuntime) -> Result<(), Fail> {
    run(
        &rt,
        rt.alloc(),
        A_CONDITIONAL_REQUEST_IS_REFUSED_WITH_THE_LOWEST_HOLDER.as_slice(),
    )
}

#[test]
fn a_holder_stands_before_whom_it_keeps_waiting(rt: HostRuntime) -> Result<(), Fail> {
    run(
        &rt,
        rt.alloc(),
        A_HOLDER_STANDS_BEFORE_WHOM_IT_KEEPS_WAITING.as_slice(),
    )
}

#[test]
fn two_that_wait_for_one_another_are_told(rt: HostRuntime) -> Result<(), Fail> {
    run(
        &rt,
        rt.alloc(),
        TWO_THAT_WAIT_FOR_ONE_ANOTHER_ARE_TOLD.as_slice(),
    )
}

#[test]
fn a_waiter_that_leaves_lets_others_go(rt: HostRuntime) -> Result<(), Fail> {
    run(
        &rt,
        rt.alloc(),
        A_WAITER_THAT_LEAVES_LETS_OTHERS_GO.as_slice(),
    )
}
