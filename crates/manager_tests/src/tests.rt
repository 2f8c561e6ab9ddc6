//! Each test makes a manager, runs a case at its desk, and finishes it.

ghost use Rattle.std.specs.Prelude.{◌≡◌, IfOk, IsSome, IsSomeAnd};
ghost use Rattle.lock_manager.specs.Managers.{IsNew};
ghost use Rattle.connections.specs.Managers.{manager_in};
ghost use Rattle.connections.specs.Shown.{ShowsSessions};

mod answers;
mod asked;
mod audits;
mod busy;
mod busy_lives;
mod calls;
mod cases;
mod configurations;
mod conflicts;
mod counted;
mod crews;
mod crowds;
mod desk;
mod gates;
mod lent;
mod limits;
mod listings;
mod lives;
mod memory;
mod monitors;
mod pair;
mod queues;
mod races;
mod servers;
mod sessions;
mod side_by_side;
mod tasks;
mod threads;
mod unsteady;
mod waits;
mod waits_of_two;
mod wakes;
mod watched;
mod watches;

use cases::{Case, perform};
use connections::{DeskOf, ManagerName};
use crews::Crew;
use limits::Limits;
use lock_manager::{
    Board, Config, Desk, Final, MOST_SESSIONS, Manager, ManagerDesk, Mode, Opener, OwnSession,
    Part, Refusal, USUAL_SESSIONS,
};
use pair::Pair;
use races::Race;
use std::alloc::Global;
use std::marker::Brand;
use std::process::Abort;
use std::sync::Wait;
use std::test::Fail;
use std::thread::Threads;
use std::time::Clock;
use threads::Plan;
use unsteady::Paused;

/// What the sessions of a manager do.
#[derive(Clone, Copy)]
enum DeskCase {
    OfTwo(Case),
    /// One session takes many modes and gives them back, where memory may run out once.
    GoesOn,
    /// Three sessions are lent to audits, where memory may run out once.
    Audits,
    /// Sessions, as many as `Limits` allows, have all local entries that they may have.
    Holds(Limits),
    /// More than two sessions do what this crew does, each in a thread of its own.
    OfCrew(Crew),
    /// Sessions, as many as a server's manager can have, share one table in this mode, and one of them waits
    /// for it alone.
    SharedByAll(Mode),
    /// Hundreds of sessions wait in one queue, and one release lets them go.
    LetsHundredsGo,
    /// A pool lends sessions, as many as a server's manager can have, and takes them back, over and over.
    LendsAll,
    /// One session sleeps in a wait queue until the wait ahead of it is cancelled.
    LetGoByCancel,
    /// One session sleeps in a wait queue until it is asked to cancel.
    WokenAsAsked,
    /// This number of connections come and go one after another.
    Lives(u32),
    /// This number of connections come and go while one session lists and another one takes strong modes,
    /// each in a thread of its own.
    BusyLives(u32),
}

/// Runs `desk_case`, with sessions from `desk`.
fn tell<
    B: Board<Part> + Send,
    D: Desk<OwnSession<Part, B>> + Send,
    M: ManagerName + Send,
    R: Abort + Clock + Threads + Wait + Sync + Print,
>(rt: &R, alloc: Global, desk: &mut DeskOf<B, D, M>, desk_case: DeskCase) {
    match desk_case {
        DeskCase::OfTwo(case) => {
            let pair = Pair::open(rt, desk);
            assert_eq!(rt; desk.live(), 2);
            let pair = perform(rt, pair, case).meet(desk);
            pair.close(rt, alloc, desk);
        }
        DeskCase::GoesOn => memory::go_on(rt, desk),
        DeskCase::Audits => audits::audit_often(rt, alloc, desk),
        DeskCase::Holds(limits) => limits::hold_all(rt, alloc, desk, limits),
        DeskCase::OfCrew(crew) => crews::act_at(rt, alloc, desk, crew),
        DeskCase::SharedByAll(mode) => servers::share_among_all(rt, alloc, desk, mode),
        DeskCase::LetsHundredsGo => servers::let_hundreds_go(rt, alloc, desk),
        DeskCase::LendsAll => lent::lend_often(rt, alloc, desk),
        DeskCase::LetGoByCancel => wakes::let_go_by_a_cancel(rt, alloc, desk),
        DeskCase::WokenAsAsked => wakes::woken_as_asked(rt, alloc, desk),
        DeskCase::Lives(lives) => lives::come_and_go(rt, alloc, desk, lives),
        DeskCase::BusyLives(lives) => busy_lives::come_and_go_beside(rt, alloc, desk, lives),
    }
}

/// Makes a manager of `config` and its opener: a server's manager where a usual one can't have as many
/// sessions as `config` says.
fn make(alloc: Global, config: Config) -> Result<(Manager, Opener), Refusal>
    ensures new { IfOk result (λ made. IsNew made.0 made.1 config) }
{
    if config.sessions > USUAL_SESSIONS {
        Manager::for_server(alloc, config)
    } else {
        Manager::new(alloc, config)
    }
}

/// Makes a manager of `config` and its opener, at the second attempt where there was no memory.
fn make_at_last(alloc: Global, config: Config) -> Result<(Manager, Opener), Refusal>
    ensures new { IfOk result (λ made. IsNew made.0 made.1 config) }
{
    match make(alloc, config) {
        Ok(made) => Ok(made),
        Err(_) => make(alloc, config),
    }
}

/// Runs `desk_case` at the desk in `slot`, of the manager that `M` names.
fn tell_at<
    B: Board<Part> + Send,
    D: Desk<OwnSession<Part, B>> + Send + Drop,
    M: ManagerName + Send,
    R: Abort + Clock + Threads + Wait + Sync + Print,
>(rt: &R, alloc: Global, slot: &mut Option<D>, desk_case: DeskCase)
    requires shows { ShowsSessions B.seat D.seat D.entries D.database_of }
    requires is { IsSomeAnd slot.old (λ desk. D.manager desk ≡ M.manager) }
    ensures is { IsSomeAnd slot.new (λ desk. D.manager desk ≡ M.manager) }
{
    let mut desk = DeskOf::<B, D, M>::new(slot);
    tell(rt, alloc, &mut desk, desk_case);
    let DeskOf { desk, of: _ } = desk;
    *slot = Some(desk);
}

/// Runs `desk_case` at the desk in `slot`. This function picks the manager that the types of connections
/// name.
fn tell_over<
    B: Board<Part> + Send,
    D: Desk<OwnSession<Part, B>> + Send + Drop,
    R: Abort + Clock + Threads + Wait + Sync + Print,
>(rt: &R, alloc: Global, slot: &mut Option<D>, desk_case: DeskCase)
    requires shows { ShowsSessions B.seat D.seat D.entries D.database_of }
    requires there { IsSome slot.old }
    ensures is { IsSomeAnd slot.new (λ desk. D.manager desk ≡ manager_in D.manager slot.old) }
{
    tell_at::<B, D, Brand, R>(rt, alloc, slot, desk_case);
}

/// Runs `desk_case` with a manager of `config` of its own, from the opening of the manager to its end.
fn run<R: Abort + Clock + Threads + Wait + Sync + Print>(
    rt: &R,
    alloc: Global,
    config: Config,
    desk_case: DeskCase,
) -> Result<(), Fail> {
    let (manager, opener) = make_at_last(alloc, config)?;
    let mut slot = Some(ManagerDesk::new(&manager, opener));
    tell_over(rt, alloc, &mut slot, desk_case);
    let Some(desk) = slot else { unreachable!() };
    let opener = desk.into_opener();
    assert_eq!(rt; opener.live(), 0);
    expect_nothing(rt, manager.finish(opener));
    Ok(())
}

/// Ends the test unless `stood` says that nothing was held at the end.
fn expect_nothing<R: Abort>(rt: &R, stood: Final) {
    let nothing = Final {
        fast: 0,
        table: 0,
        strong: 0,
    };
    assert_eq!(rt; stood, nothing);
}

/// The configuration of a manager for two sessions with `max_local` entries in the local lock table of each.
fn two(max_local: u32) -> Config {
    Config {
        sessions: 2,
        max_local,
        slot_groups: 1,
    }
}

#[test]
fn two_sessions_do_as_the_cases_say(rt: HostRuntime) -> Result<(), Fail> {
    for case in [
        Case::LeavesAsAsked,
        Case::EndsAllWaits,
        Case::CancelsTooLate,
        Case::LooksTooLate,
        Case::WaitsAsAsked,
        Case::WaitsForNothing,
        Case::GivesUp,
        Case::Sleeps { asks: false },
        Case::Sleeps { asks: true },
        Case::ListsMany,
        Case::FindsSlotsBusy,
    ] {
        let config = two(listings::MANY);
        run(&rt, rt.alloc(), config, DeskCase::OfTwo(case))?;
    }
    Ok(())
}

#[test]
fn a_thousand_races_end_as_one_of_the_two_had_won(rt: HostRuntime) -> Result<(), Fail> {
    let rounds = 1_000;
    for race in [
        Race::WeakAgainstStrong(Mode::AccessShare, Mode::AccessExclusive),
        Race::WeakAgainstStrong(Mode::RowExclusive, Mode::Share),
        Race::StrongOverWeak(Mode::RowExclusive, Mode::Share),
        Race::CancelAgainstRelease(Mode::AccessExclusive, Mode::AccessShare),
        Race::CancelAgainstRelease(Mode::Share, Mode::AccessExclusive),
        Race::AskAgainstSleep,
    ] {
        let desk_case = DeskCase::OfTwo(Case::Races(race, rounds));
        run(&rt, rt.alloc(), two(8), desk_case)?;
    }
    Ok(())
}

#[test]
fn races_end_so_where_threads_pause_between_steps(rt: HostRuntime) -> Result<(), Fail> {
    for race in [
        Race::WeakAgainstStrong(Mode::AccessShare, Mode::AccessExclusive),
        Race::StrongOverWeak(Mode::RowExclusive, Mode::Share),
        Race::CancelAgainstRelease(Mode::AccessExclusive, Mode::AccessShare),
        Race::AskAgainstSleep,
    ] {
        unsteady::play_with_pauses(&rt, rt.alloc(), Paused::Race(race, 1_000))?;
    }
    Ok(())
}

#[test]
fn many_sessions_do_so_where_threads_pause_between_steps(rt: HostRuntime) -> Result<(), Fail> {
    for crew in [Crew::Asked(1_000), Crew::Watch, Crew::Crowd(crowds::USUAL)] {
        unsteady::play_with_pauses(&rt, rt.alloc(), Paused::Crew(crew))?;
    }
    Ok(())
}

#[test]
fn many_sessions_do_as_the_desk_cases_say(rt: HostRuntime) -> Result<(), Fail> {
    for (sessions, desk_case) in [
        (
            4,
            DeskCase::OfCrew(Crew::Asks(4, Plan::of(10_000, 4, false))),
        ),
        (
            4,
            DeskCase::OfCrew(Crew::Asks(4, Plan::of(10_000, 1, false))),
        ),
        (
            4,
            DeskCase::OfCrew(Crew::Asks(4, Plan::of(10_000, 1, true))),
        ),
        (8, DeskCase::OfCrew(Crew::Asks(8, Plan::of(3_000, 2, true)))),
        (asked::SESSIONS, DeskCase::OfCrew(Crew::Asked(1_000))),
        (watches::SESSIONS, DeskCase::OfCrew(Crew::Watch)),
        (
            queues::MANY + 1,
            DeskCase::OfCrew(Crew::Queue(Mode::AccessExclusive)),
        ),
        (
            queues::MANY + 1,
            DeskCase::OfCrew(Crew::Queue(Mode::AccessShare)),
        ),
        (
            crowds::USUAL.sessions,
            DeskCase::OfCrew(Crew::Crowd(crowds::USUAL)),
        ),
        (3, DeskCase::LetGoByCancel),
        (2, DeskCase::WokenAsAsked),
        (1, DeskCase::Lives(10_000)),
        (busy_lives::SESSIONS, DeskCase::BusyLives(10_000)),
    ] {
        let config = Config {
            sessions,
            max_local: 8,
            slot_groups: 1,
        };
        run(&rt, rt.alloc(), config, desk_case)?;
    }
    Ok(())
}

#[test]
fn a_server_has_a_thousand_sessions(rt: HostRuntime) -> Result<(), Fail> {
    for desk_case in [
        DeskCase::SharedByAll(Mode::Share),
        DeskCase::SharedByAll(Mode::AccessShare),
        DeskCase::LetsHundredsGo,
        DeskCase::LendsAll,
        DeskCase::OfCrew(Crew::Crowd(crowds::ON_ONE_PARTITION)),
        DeskCase::OfCrew(Crew::Crowd(crowds::AT_ONE_OBJECT)),
    ] {
        let config = Config {
            sessions: MOST_SESSIONS,
            max_local: 8,
            slot_groups: 1,
        };
        run(&rt, rt.alloc(), config, desk_case)?;
    }
    Ok(())
}

/// The limits of two managers: the most entries that one session may have, and the most that each of 64
/// sessions may have.
static LIMITS: [Limits; 2] = [
    Limits {
        sessions: 1,
        entries: 65_536,
    },
    Limits {
        sessions: 64,
        entries: 1_024,
    },
];

#[test]
fn all_local_entries_can_be_held_at_once(rt: HostRuntime) -> Result<(), Fail> {
    for limits in &LIMITS {
        let config = Config {
            sessions: limits.sessions,
            max_local: limits.entries,
            slot_groups: 1,
        };
        run(&rt, rt.alloc(), config, DeskCase::Holds(*limits))?;
    }
    Ok(())
}

/// Run the test under `rt try --test --fail-alloc N` for an allocation that fails.
#[test]
fn sessions_go_on_where_memory_ran_out_once(rt: HostRuntime) -> Result<(), Fail> {
    let one = Config {
        sessions: 1,
        max_local: memory::MANY,
        slot_groups: 1,
    };
    let three = Config {
        sessions: audits::SESSIONS,
        max_local: 8,
        slot_groups: 1,
    };
    // Each relation of theirs is of a group of its own, and none of the first one.
    let three_in_groups = Config {
        slot_groups: 8,
        ..three
    };
    for (config, desk_case) in [
        (one, DeskCase::GoesOn),
        (three, DeskCase::Audits),
        (three_in_groups, DeskCase::Audits),
        (two(memory::MOVED), DeskCase::OfTwo(Case::MovesAtLast)),
    ] {
        run(&rt, rt.alloc(), config, desk_case)?;
    }
    Ok(())
}

#[test]
fn what_makes_no_step_does_nothing_on_the_board(rt: HostRuntime) -> Result<(), Fail> {
    counted::make_all_on_one_thread(&rt, rt.alloc())
}
