//! Lightweight words and wait lists. The numbers are worked by hand from the bits, and are not this code's
//! answers.

ghost use Rattle.std.specs.Prelude.{◌≡◌};
ghost use Rattle.lw_word.specs.LockState.{word_of};

use crate::fixtures::session;
use lw_word::LwMode::{Exclusive, Shared};
use lw_word::{
    LwMode, LwWaiter, LwWord, MOST_TAKEN_OFF, WaitList, has_locked_list, must_wake_after, shared,
    taken,
};
use modes_core::SessionId;
use std::alloc::{AllocError, Global};
use std::process::Abort;
use std::test::Fail;

/// The word whose number is `number`.
fn word(rt: &impl Abort, number: u64) -> LwWord
    ensures { word_of result ≡ number }
{
    LwWord::from_number(number).expect(rt, "a lightweight word")
}

/// The number of a lightweight lock's word, and what the word says: how many share the lock, whether it is
/// held exclusively, and whether its wait list is locked, release-ok is set and has-waiters is set.
type Bits = (u64, u64, bool, [bool; 3]);

const BITS: [Bits; 14] = [
    (0, 0, false, [false, false, false]),
    (2, 2, false, [false, false, false]),
    (3, 3, false, [false, false, false]),
    (0x0100_0000, 0, true, [false, false, false]),
    (0x1000_0000, 0, false, [true, false, false]),
    (0x2000_0000, 0, false, [false, true, false]),
    (0x4000_0000, 0, false, [false, false, true]),
    (0x4100_0000, 0, true, [false, false, true]),
    (0x6000_0000, 0, false, [false, true, true]),
    (0x6000_0001, 1, false, [false, true, true]),
    (0x60FF_FFFE, 0xFF_FFFE, false, [false, true, true]),
    (0x6100_0000, 0, true, [false, true, true]),
    (0x7000_0000, 0, false, [true, true, true]),
    (0x71FF_FFFF, 0xFF_FFFF, true, [true, true, true]),
];

/// What the word whose number is `number` says.
fn bits(number: u64) -> Option<Bits> {
    let word = LwWord::from_number(number)?;
    let flags = [
        !has_locked_list(number),
        word.is_release_ok(),
        word.has_waiters(),
    ];
    Some((word.number(), word.shared(), word.is_exclusive(), flags))
}

#[test]
fn words_have_their_bits(rt: HostRuntime) {
    for row in BITS {
        assert!(rt; bits(row.0) == Some(row), "at {}", row.0);
    }
}

#[test]
fn words_have_no_other_bits(rt: HostRuntime) {
    for number in [1 << 25, 1 << 26, 1 << 27, 1 << 31, 1 << 63, u64::MAX] {
        assert!(rt; LwWord::from_number(number).is_none(), "at {number}");
    }
}

/// A word, the mode in which its lock is attempted, and the word that comes of the attempt, if the lock is
/// free for it.
const ATTEMPTS: [(u64, LwMode, Option<u64>); 6] = [
    (0, Exclusive, Some(0x0100_0000)),
    (0x0100_0000, Exclusive, None),
    (0x0100_0000, Shared, None),
    (2, Exclusive, None),
    (2, Shared, Some(3)),
    (0x60FF_FFFE, Shared, Some(0x60FF_FFFF)),
];

/// A word, the mode in which its lock is released, and the word that comes of the release.
const RELEASES: [(u64, LwMode, u64); 3] = [
    (3, Shared, 2),
    (0x6100_0000, Exclusive, 0x6000_0000),
    (0x4100_0000, Exclusive, 0x4000_0000),
];

/// The number that comes of an attempt in `mode` at the word `number`, as `LwWord` says it and as it follows
/// from the number alone.
fn attempted(rt: &impl Abort, number: u64, mode: LwMode) -> (Option<u64>, Option<u64>) {
    let word = word(rt, number);
    assert!(rt; word.shared() < 0xFF_FFFF);
    let after = match word.attempt(mode) {
        Some(after) => Some(after.number()),
        None => None,
    };
    let alone = match mode {
        Exclusive => taken(number),
        Shared => shared(number),
    };
    (after, alone)
}

/// The word that comes of a release in `mode` of the word `number`.
fn released(rt: &impl Abort, number: u64, mode: LwMode) -> u64 {
    let word = word(rt, number);
    match mode {
        Exclusive => {
            assert!(rt; word.is_exclusive());
            word.release(Exclusive).number()
        }
        Shared => {
            assert!(rt; word.shared() > 0);
            word.release(Shared).number()
        }
    }
}

#[test]
fn a_free_word_is_taken_and_a_taken_one_is_not(rt: HostRuntime) {
    for (number, mode, after) in ATTEMPTS {
        assert!(rt;
            attempted(&rt, number, mode) == (after, after),
            "at {number}"
        );
    }
}

#[test]
fn a_held_word_is_given_up(rt: HostRuntime) {
    for (number, mode, after) in RELEASES {
        assert!(rt; released(&rt, number, mode) == after, "at {number}");
    }
}

/// The word that a release found, how the lock was held, and whether the session that releases must wake
/// waiters.
const FOUND: [(u64, LwMode, bool); 10] = [
    (0x6100_0000, Exclusive, true),
    (0x7100_0000, Exclusive, true),
    (0x4100_0000, Exclusive, false),
    (0x2100_0000, Exclusive, false),
    (0x6100_0001, Exclusive, false),
    (0x6000_0001, Shared, true),
    (0x6000_0002, Shared, false),
    (0x4000_0001, Shared, false),
    (0x2000_0001, Shared, false),
    (0x6100_0001, Shared, false),
];

#[test]
fn a_release_wakes_where_nobody_holds_and_both_flags_are_set(rt: HostRuntime) {
    for (found, mode, wakes) in FOUND {
        assert!(rt; must_wake_after(found, mode) == wakes, "at {found}");
    }
}

#[test]
fn words_open_with_release_ok_and_count_by_mode(rt: HostRuntime) {
    let numbers = (
        LwWord::opening().number(),
        Exclusive.amount(),
        Shared.amount(),
    );
    assert!(rt; numbers == (0x2000_0000, 0x0100_0000, 1));
}

/// The flags has-waiters and release-ok that are to remain as a wait list is unlocked, the bits that are set
/// for them, the bits that are kept, and the word that comes of unlocking 0x3100_0000.
const UNLOCKS: [(bool, bool, u64, u64, u64); 4] = [
    (true, true, 0x6000_0000, 0xFFFF_FFFF_EFFF_FFFF, 0x6100_0000),
    (true, false, 0x4000_0000, 0xFFFF_FFFF_CFFF_FFFF, 0x4100_0000),
    (false, true, 0x2000_0000, 0xFFFF_FFFF_AFFF_FFFF, 0x2100_0000),
    (false, false, 0, 0xFFFF_FFFF_8FFF_FFFF, 0x0100_0000),
];

/// The word that comes of locking the wait list of the word `number`.
fn locked(rt: &impl Abort, number: u64) -> Option<u64> {
    Some(word(rt, number).lock_list()?.number())
}

/// The bits that are set and those that are kept for the flags `waiters` and `release_ok`, and the word that
/// comes of unlocking the wait list of the word `number` with these flags.
fn unlocked(rt: &impl Abort, number: u64, waiters: bool, release_ok: bool) -> (u64, u64, u64) {
    (
        LwWord::flag_bits(waiters, release_ok),
        LwWord::kept_bits(waiters, release_ok),
        word(rt, number).unlock_list(waiters, release_ok).number(),
    )
}

/// The words that come of setting has-waiters, and of setting release-ok, in the word `number`.
fn flagged(rt: &impl Abort, number: u64) -> (u64, u64) {
    let word = word(rt, number);
    (
        word.set_has_waiters().number(),
        word.set_release_ok().number(),
    )
}

/// A word, the word that comes of setting has-waiters in it, and the word that comes of setting release-ok in
/// it.
const FLAGS: [(u64, u64, u64); 4] = [
    (5, 0x4000_0005, 0x2000_0005),
    (0x1100_0000, 0x5100_0000, 0x3100_0000),
    (0x3100_0000, 0x7100_0000, 0x3100_0000),
    (0x6000_0000, 0x6000_0000, 0x6000_0000),
];

#[test]
fn a_wait_list_is_locked_once(rt: HostRuntime) {
    for (number, after) in [(0x2100_0000, Some(0x3100_0000)), (0x3100_0000, None)] {
        assert!(rt; locked(&rt, number) == after, "at {number}");
    }
}

#[test]
fn a_wait_list_is_unlocked_with_its_flags(rt: HostRuntime) {
    for (waiters, release_ok, set, kept, after) in UNLOCKS {
        let its = unlocked(&rt, 0x3100_0000, waiters, release_ok);
        assert!(rt; its == (set, kept, after), "at {after}");
    }
}

#[test]
fn a_flag_is_set_alone(rt: HostRuntime) {
    for (number, with_waiters, with_release_ok) in FLAGS {
        let its = flagged(&rt, number);
        assert!(rt; its == (with_waiters, with_release_ok), "at {number}");
    }
}

/// Sessions by their numbers, and the mode in which each wants a lightweight lock.
type Waiters = &'static [(u16, LwMode)];

/// Who waits in a wait list, whom a wakeup takes off, whom it leaves, and whether release-ok is to be set.
type WaitsAndWakeup = (Waiters, Waiters, Waiters, bool);

const WAKEUPS: [WaitsAndWakeup; 3] = [
    // Sharers are taken off together.
    (
        &[(1, Shared), (2, Exclusive), (3, Shared)],
        &[(1, Shared), (3, Shared)],
        &[(2, Exclusive)],
        false,
    ),
    // An exclusive first is taken off alone.
    (
        &[(2, Exclusive), (3, Shared)],
        &[(2, Exclusive)],
        &[(3, Shared)],
        false,
    ),
    // Nobody is taken off an empty list.
    (&[], &[], &[], true),
];

/// Has the session numbered `number`, for which there is room, join `list`, in which it isn't yet, for
/// `mode`.
fn join(rt: &impl Abort, list: &mut WaitList, number: u16, mode: LwMode) {
    let session = session(rt, number);
    assert!(rt; session.number() < list.room());
    assert!(rt; !list.has(session));
    list.join(session, mode);
}

/// Whether `waiters` are the `expected` ones, in this order and in these modes.
fn are_waiting(waiters: &[LwWaiter], expected: &[(u16, LwMode)]) -> bool {
    if waiters.len() != expected.len() {
        return false;
    }
    for place in 0..expected.len() {
        let waiter = waiters[place];
        let (number, mode) = expected[place];
        if waiter.session.number() != number || waiter.mode != mode {
            return false;
        }
    }
    true
}

/// Whether a wakeup of the list `waiters`, with room for four sessions, takes off `taken`, leaves `left`, and
/// has release-ok set where `release_ok` says so. The list takes memory by `alloc`.
fn wakes(
    rt: &impl Abort,
    alloc: Global,
    (waiters, taken, left, release_ok): WaitsAndWakeup,
) -> Result<bool, AllocError> {
    let mut list = WaitList::new(alloc, 4)?;
    for (number, mode) in waiters {
        join(rt, &mut list, *number, *mode);
    }
    let was_empty = list.is_empty();
    let wakeup = list.wake_split();
    Ok(
        was_empty == waiters.is_empty()
            && are_waiting(wakeup.taken.as_slice(), taken)
            && are_waiting(list.waiters(), left)
            && list.is_empty() == left.is_empty()
            && list.room() == 4
            && wakeup.release_ok == release_ok,
    )
}

#[test]
fn a_wakeup_takes_sharers_off_together_and_an_exclusive_first_alone(
    rt: HostRuntime,
) -> Result<(), Fail> {
    for row in WAKEUPS {
        assert!(rt; wakes(&rt, rt.alloc(), row)?, "a list of {}", row.0.len());
    }
    Ok(())
}

/// A list with all sessions, each after those with lower numbers, which wait for `mode`. The list takes
/// memory by `alloc`. Where a session can't join, the test ends by `rt`.
fn all_sessions(rt: &impl Abort, alloc: Global, mode: LwMode) -> Result<WaitList, AllocError> {
    let mut list = WaitList::new(alloc, 64)?;
    for number in 0..64 {
        join(rt, &mut list, number, mode);
    }
    Ok(list)
}

/// A wakeup takes off at most 64 sharers at a time, as many as there can be sessions, and so nobody is left.
/// A test in which sharers are left for the next wakeup needs more sessions than there can be.
#[test]
fn sixty_four_sharers_go_together(rt: HostRuntime) -> Result<(), Fail> {
    let mut list = all_sessions(&rt, rt.alloc(), Shared)?;
    let wakeup = list.wake_split();
    assert!(rt; wakeup.taken.as_slice().len() == MOST_TAKEN_OFF);
    assert!(rt; list.is_empty());
    Ok(())
}

/// Whether `session` was in `list`, and whether it still is once it left.
fn left(list: &mut WaitList, session: SessionId) -> (bool, bool) {
    (list.leave(session), list.has(session))
}

#[test]
fn sixty_four_sessions_wait_and_one_leaves(rt: HostRuntime) -> Result<(), Fail> {
    let mut list = all_sessions(&rt, rt.alloc(), Exclusive)?;
    let session = session(&rt, 17);
    for (count, was) in [(64, true), (63, false)] {
        assert!(rt; list.waiters().len() == count);
        assert!(rt; left(&mut list, session) == (was, false));
    }
    assert!(rt; list.waiters().len() == 63);
    Ok(())
}
