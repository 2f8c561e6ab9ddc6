ghost use Rattle.std.specs.Prelude.{◌≡◌, ◌≢◌, false, Some, IfOk, IfErr, OnErr};
ghost use Rattle.lock_table.specs.Queue.{WaitingAnswer, waits_there};
ghost use Rattle.lock_table.specs.Clash.{Clashes};
ghost use Rattle.wait_queue.specs.Decide.{IsDecided, RefusedFor, IsAfterRoom};

use lock_table::{Answer, PartTable, answer_by_place, clash_with_begun};
use modes_core::{Mode, Refusal, SessionId, Tag};

/// Whether a request may wait (`dontWait` of `LockAcquireExtended` in lock.c).
#[derive(Clone, Copy, Debug, PartialEq, Eq)]
pub enum Kind {
    /// The request may not wait: it is granted or refused at once.
    Conditional,
    /// The request may wait: it is granted, joins the queue, or is refused since it would wait for ever.
    Waiting,
}

/// What became of a request that was not refused.
#[derive(Clone, Copy, PartialEq, Eq)]
pub enum Decision {
    /// The request was granted: it is a hold now.
    Granted,
    /// The request waits in the object's queue.
    Queued,
}

/// Decides the request of `session` for `tag` in `mode`, which `session` neither holds nor awaits
/// (`LockAcquireExtended` in lock.c, with `ProcSleep` in proc.c). Where nothing in `part` is in the way, the
/// request is granted. Otherwise `kind` says whether it is refused with what is in the way, or answered by
/// its place in the queue. After `NoMemory`, as after each refusal, the content of `part` is as before. Room
/// for the request is made first, so that each other refusal comes only where there was memory.
#[inline(always)]
pub fn decide<P: PartTable>(
    part: &mut P,
    session: SessionId,
    tag: &Tag,
    mode: Mode,
    kind: Kind,
) -> Result<Decision, Refusal>
    requires new { (P.content part.old).holds session tag.now mode ≡ false }
    requires no_wait { waits_there ((P.content part.old).waits tag.now) session ≡ false }
    requires none_begun { P.begun part.old ≡ None }

    ensures decided { IfOk result (λ decision.
        IsDecided kind (P.content part.old) session tag.now mode decision (P.content part.new)) }
    ensures refused { IfErr result (RefusedFor kind (P.content part.old) session tag.now mode) }
    ensures room_first { IfErr result (IsAfterRoom
        (P.prepared part.new ≡ Some (record { session = session; tag = tag.now; mode = mode }))) }
    ensures unchanged { OnErr result (P.content part.new ≡ P.content part.old) }
    ensures at_once { kind ≡ Kind.Conditional → result ≢ Ok Decision.Queued }
    ensures ended { P.begun part.new ≡ None }
{
    if part.begin(session, tag, mode).is_err() {
        return Err(Refusal::NoMemory);
    }
    decide_begun(part, session, tag, mode, kind)
}

/// Decides the request of `session` for `tag` in `mode`, of kind `kind`, that is begun in `part`, with the
/// room that was made for the request: no memory is taken.
#[inline(always)]
fn decide_begun<P: PartTable>(
    part: &mut P,
    session: SessionId,
    tag: &Tag,
    mode: Mode,
    kind: Kind,
) -> Result<Decision, Refusal>
    requires new { (P.content part.old).holds session tag.now mode ≡ false }
    requires no_wait { waits_there ((P.content part.old).waits tag.now) session ≡ false }
    requires begun { P.begun part.old ≡ Some (record { session = session; tag = tag.now; mode = mode }) }

    ensures decided { IfOk result (λ decision.
        IsDecided kind (P.content part.old) session tag.now mode decision (P.content part.new)) }
    ensures refused { IfErr result (RefusedFor kind (P.content part.old) session tag.now mode) }
    ensures no_memory_taken { result ≢ Err Refusal.NoMemory }
    ensures room { OnErr result (P.prepared part.new ≡ P.prepared part.old) }
    ensures unchanged { OnErr result (P.content part.new ≡ P.content part.old) }
    ensures at_once { kind ≡ Kind.Conditional → result ≢ Ok Decision.Queued }
    ensures ended { P.begun part.new ≡ None }
    ensures capacity { P.capacity part.new ≡ P.capacity part.old }
{
    let Some(clash) = clash_with_begun(part, session, tag, mode) else {
        part.grant(session, tag, mode);
        return Ok(Decision::Granted);
    };
    match kind {
        Kind::Conditional => {
            part.withdraw(session, tag, mode);
            Err(Refusal::Conflict {
                session: clash.session,
                mode: clash.mode,
                how: clash.how,
            })
        }
        Kind::Waiting => match end_by_place(part, session, tag, mode) {
            Ok(decision) => Ok(decision),
            Err(other) => Err(Refusal::SimpleDeadlock { session: other }),
        },
    }
}

/// Ends the begun request of `session` for `tag` in `mode`, which something in `part` is in the way of, by
/// its place in the queue: the request is granted, queued, or withdrawn, since `session` and the session that
/// the error names would wait for one another. No memory is taken.
#[inline(never)]
fn end_by_place<P: PartTable>(
    part: &mut P,
    session: SessionId,
    tag: &Tag,
    mode: Mode,
) -> Result<Decision, SessionId>
    requires clashes { Clashes (P.content part.old) session tag.now mode }
    requires no_wait { waits_there ((P.content part.old).waits tag.now) session ≡ false }
    requires begun { P.begun part.old ≡ Some (record { session = session; tag = tag.now; mode = mode }) }

    ensures decided { IfOk result (λ decision.
        IsDecided Kind.Waiting (P.content part.old) session tag.now mode decision (P.content part.new)) }
    ensures refused { IfErr result (λ other.
        WaitingAnswer (P.content part.old) session tag.now mode (Answer.SimpleDeadlock other)) }
    ensures room { OnErr result (P.prepared part.new ≡ P.prepared part.old) }
    ensures unchanged { OnErr result (P.content part.new ≡ P.content part.old) }
    ensures ended { P.begun part.new ≡ None }
    ensures capacity { P.capacity part.new ≡ P.capacity part.old }
{
    match answer_by_place(part, session, tag, mode) {
        Answer::Queued(place) => {
            part.join(session, tag, mode, place);
            Ok(Decision::Queued)
        }
        Answer::Granted => {
            part.grant(session, tag, mode);
            Ok(Decision::Granted)
        }
        Answer::SimpleDeadlock(other) => {
            part.withdraw(session, tag, mode);
            Err(other)
        }
    }
}
