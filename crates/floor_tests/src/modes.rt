//! Modes, tags, session numbers and refusals: their numbers and texts, and what goes by the fast path.

use crate::fixtures::{ADVISORY, ANOTHER_OBJECT, OBJECT};
use modes_core::{
    How, LockMethod, Mode, ModeSet, Refusal, SessionId, Tag, conflicts, is_eligible, is_strong,
};
use std::alloc::{AllocError, Global};
use std::test::Fail;

/// Numbers, names and conflicts of the modes, as in PostgreSQL's lockdefs.h and lock.c.
const MODES: [(u8, &str, u16); 8] = [
    (1, "AccessShareLock", 0x100),
    (2, "RowShareLock", 0x180),
    (3, "RowExclusiveLock", 0x1E0),
    (4, "ShareUpdateExclusiveLock", 0x1F0),
    (5, "ShareLock", 0x1D8),
    (6, "ShareRowExclusiveLock", 0x1F8),
    (7, "ExclusiveLock", 0x1FC),
    (8, "AccessExclusiveLock", 0x1FE),
];

/// The number, name and conflicts of the mode whose number is `number`.
fn described(number: u8) -> Option<(u8, &'static str, u16)> {
    let mode = Mode::from_number(number)?;
    Some((mode.number(), mode.name(), conflicts(mode).mask()))
}

#[test]
fn modes_have_their_numbers_names_and_conflicts(rt: HostRuntime) {
    for row in MODES {
        assert!(rt; described(row.0) == Some(row), "{}", row.1);
    }
    for number in [0, 9] {
        assert!(rt; Mode::from_number(number).is_none(), "{number}");
    }
}

/// The number of the mode called `name`, and whether the mode prints as `name`.
fn named(alloc: Global, name: &str) -> Result<Option<(u8, bool)>, AllocError> {
    let Some(mode) = Mode::from_name(name) else {
        return Ok(None);
    };
    let printed = mode.to_string(alloc)?;
    Ok(Some((mode.number(), printed.as_str() == name)))
}

#[test]
fn modes_are_found_by_their_names_and_print_so(rt: HostRuntime) -> Result<(), Fail> {
    for (number, name, _) in MODES {
        let mode = named(rt.alloc(), name)?;
        assert!(rt; mode == Some((number, true)), "{name}");
    }
    assert!(rt; Mode::from_name("ShareLocks").is_none());
    Ok(())
}

/// A set from which one of the modes put in was taken out again.
fn access_share_alone() -> ModeSet {
    ModeSet::empty()
        .with(Mode::Share)
        .with(Mode::AccessShare)
        .without(Mode::Share)
}

#[test]
fn sets_have_what_was_put_in(rt: HostRuntime) {
    let set = access_share_alone();
    assert!(rt; set.has(Mode::AccessShare) && !set.has(Mode::Share));
    assert!(rt; set.meets(conflicts(Mode::AccessExclusive)));
    assert!(rt; !set.meets(conflicts(Mode::Exclusive)));
}

#[test]
fn the_lowest_mode_in_both_sets_is_found(rt: HostRuntime) {
    let both = conflicts(Mode::Share).lowest_in_both(conflicts(Mode::ShareUpdateExclusive));
    assert!(rt; both == Some(Mode::ShareUpdateExclusive));
    assert!(rt;
        access_share_alone()
            .lowest_in_both(conflicts(Mode::Share))
            .is_none()
    );
}

/// The tag of a relation of a database.
macro_rules! relation {
    ($database:literal $relation:literal) => {
        Tag::Relation {
            database: $database,
            relation: $relation,
        }
    };
}

/// The tag of an object of a database, of a class, and the number of its part.
macro_rules! object {
    ($database:literal $class:literal $object:literal $sub_object:literal) => {
        Tag::Object {
            database: $database,
            class: $class,
            object: $object,
            sub_object: $sub_object,
        }
    };
}

/// Tags, their hashes, partitions and strong lock counters, and their texts. The hashes are worked examples
/// of the rule, not this code's answers.
const TAGS: [(Tag, u32, u8, u16, &str); 6] = [
    (OBJECT, 2389211932, 12, 796, "5/16384"),
    (relation!(5 17408), 3334897436, 12, 796, "5/17408"),
    (SHARED_RELATION, 1165483503, 15, 495, "0/1262"),
    (
        relation!(4294967295 4294967295),
        4265414625,
        1,
        993,
        "4294967295/4294967295",
    ),
    (ANOTHER_OBJECT, 1793954687, 15, 895, "5/1259/16384/0"),
    (ADVISORY, 144398250, 10, 938, "adv/5/0/42/1"),
];

/// The tag of a shared relation, which belongs to no one database.
const SHARED_RELATION: Tag = relation!(0 1262);

/// The hash of `tag`, its partition, and its strong lock counter.
fn indexes(tag: Tag) -> (u32, u8, u16) {
    (tag.hash(), tag.partition(), tag.strong_index())
}

/// Whether `tag` prints as `text`.
fn prints(alloc: Global, tag: Tag, text: &str) -> Result<bool, AllocError> {
    let printed = tag.to_string(alloc)?;
    Ok(printed.as_str() == text)
}

#[test]
fn tags_have_their_hashes_and_texts(rt: HostRuntime) -> Result<(), Fail> {
    for (tag, hash, partition, strong, text) in TAGS {
        assert!(rt; indexes(tag) == (hash, partition, strong), "{text}");
        assert!(rt;
            tag.is_same(tag) && prints(rt.alloc(), tag, text)?,
            "{text}"
        );
    }
    Ok(())
}

/// A tag, and one that is greater.
const ORDERS: [(Tag, Tag); 3] = [
    (object!(5 1 2 3), relation!(5 2)),
    (OBJECT, object!(5 16384 0 0)),
    (object!(5 0 42 1), ADVISORY),
];

#[test]
fn tags_are_ordered_by_their_numbers(rt: HostRuntime) {
    for (lesser, greater) in ORDERS {
        assert!(rt; lesser < greater && !lesser.is_same(greater));
    }
}

/// A session's database, an object and a mode, and whether a lock in the mode on the object may go by the
/// fast path.
const ELIGIBLE: [(u32, Tag, Mode, bool); 6] = [
    (5, OBJECT, Mode::RowExclusive, true),
    (5, OBJECT, Mode::ShareUpdateExclusive, false),
    (6, OBJECT, Mode::AccessShare, false),
    (0, SHARED_RELATION, Mode::AccessShare, false),
    (5, ANOTHER_OBJECT, Mode::AccessShare, false),
    (5, ADVISORY, Mode::AccessShare, false),
];

/// An object and a mode, and whether a lock in the mode on the object is counted as strong.
const STRONG: [(Tag, Mode, bool); 4] = [
    (OBJECT, Mode::Share, true),
    (OBJECT, Mode::ShareUpdateExclusive, false),
    (ANOTHER_OBJECT, Mode::AccessExclusive, false),
    (ADVISORY, Mode::AccessExclusive, false),
];

#[test]
fn the_fast_path_has_its_modes(rt: HostRuntime) {
    for (database, tag, mode, eligible) in ELIGIBLE {
        let is = is_eligible(database, tag, mode);
        assert!(rt; is == eligible, "{} in {database}", mode.name());
    }
    for (tag, mode, strong) in STRONG {
        assert!(rt; is_strong(tag, mode) == strong, "{}", mode.name());
    }
}

/// The lock method, database and relation of `tag`.
fn parts(tag: Tag) -> (LockMethod, u32, u32) {
    (tag.method(), tag.database(), tag.relation_number())
}

#[test]
fn tags_have_their_parts(rt: HostRuntime) {
    assert!(rt; parts(OBJECT) == (LockMethod::Default, 5, 16384));
    assert!(rt; parts(ANOTHER_OBJECT) == (LockMethod::Default, 5, 0));
    assert!(rt; parts(Tag::advisory(5, 0, 42, 1)) == (LockMethod::User, 5, 0));
    assert!(rt; ADVISORY.is_same(Tag::advisory(5, 0, 42, 1)));
}

#[test]
fn sessions_have_numbers(rt: HostRuntime) -> Result<(), Fail> {
    let session = SessionId::new(63).ok_or("no session 63")?;
    assert!(rt; session.number() == 63);
    assert!(rt; SessionId::new(1_024).is_none());
    Ok(())
}

/// Each refusal, with `session` where it names one.
fn refusals(session: SessionId) -> [(Refusal, u8, &'static str); 16] {
    let conflict = |how| Refusal::Conflict {
        session,
        mode: Mode::Share,
        how,
    };
    [
        (
            conflict(How::Held),
            1,
            "conflict: session 63 holds ShareLock",
        ),
        (
            conflict(How::Awaited),
            1,
            "conflict: session 63 awaits ShareLock",
        ),
        (Refusal::NoMemory, 2, "out of memory"),
        (Refusal::LocalFull, 3, "the local lock table is full"),
        (Refusal::CountFull, 4, "the count of this lock is full"),
        (
            Refusal::SimpleDeadlock { session },
            5,
            "simple deadlock with session 63",
        ),
        (Refusal::Cancelled, 6, "the wait was cancelled"),
        (Refusal::NotHeld, 7, "you don't own this lock"),
        (Refusal::Busy, 8, "the fast-path lock is busy"),
        (Refusal::SlotsFull, 9, "the fast-path slots are full"),
        (Refusal::StrongCounted, 10, "a strong lock is counted"),
        (Refusal::NotEligible, 11, "not eligible for the fast path"),
        (Refusal::NoMoreSessions, 12, "no more sessions"),
        (Refusal::BadConfig, 13, "the configuration is out of range"),
        (Refusal::TooDeep, 15, "transactions are nested too deep"),
        (Refusal::NoNested, 16, "there is no nested transaction"),
    ]
}

/// The number of `refusal`, and whether it prints as `text`.
fn printed(alloc: Global, refusal: Refusal, text: &str) -> Result<(u8, bool), AllocError> {
    let printed = refusal.to_string(alloc)?;
    Ok((refusal.number(), printed.as_str() == text))
}

#[test]
fn refusals_have_their_numbers_and_texts(rt: HostRuntime) -> Result<(), Fail> {
    let session = SessionId::new(63).ok_or("no session 63")?;
    for (refusal, number, text) in refusals(session) {
        let its = printed(rt.alloc(), refusal, text)?;
        assert!(rt; its == (number, true), "{text}");
    }
    Ok(())
}
