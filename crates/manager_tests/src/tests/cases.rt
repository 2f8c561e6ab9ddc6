//! Cases of two sessions: what is done with a pair, which comes back.

use super::pair::Pair;
use super::races::Race;
use super::{busy, listings, memory, monitors, races, waits_of_two};
use connections::ManagerName;
use lock_manager::{Board, Part};
use std::process::Abort;
use std::sync::Wait;
use std::thread::Threads;

/// What two sessions of one manager do.
#[derive(Clone, Copy)]
pub enum Case {
    LeavesAsAsked,
    EndsAllWaits,
    CancelsTooLate,
    LooksTooLate,
    WaitsAsAsked,
    WaitsForNothing,
    GivesUp,
    /// One session sleeps until the other one gives back what it has, or, where `asks`, asks it to cancel.
    Sleeps { asks: bool },
    ListsMany,
    /// The sessions race for something, over and over.
    Races(Race, u32),
    FindsSlotsBusy,
    /// The strong mode of one session moves the weak modes of the other one, where memory may run out once.
    MovesAtLast,
}

/// Plays `case` with the two sessions of `pair`, and answers them.
pub fn perform<
    B: Board<Part> + Send,
    M: ManagerName + Send,
    R: Abort + Threads + Wait + Sync + Print,
>(rt: &R, mut pair: Pair<B, M>, case: Case) -> Pair<B, M> {
    match case {
        Case::LeavesAsAsked => waits_of_two::leave_as_asked(rt, pair),
        Case::EndsAllWaits => monitors::end_all_waits(rt, pair),
        Case::CancelsTooLate => waits_of_two::cancel_too_late(rt, pair),
        Case::LooksTooLate => waits_of_two::look_too_late(rt, pair),
        Case::WaitsAsAsked => waits_of_two::wait_as_asked(rt, pair),
        Case::WaitsForNothing => waits_of_two::wait_for_nothing(rt, pair),
        Case::GivesUp => {
            waits_of_two::give_up(rt, &mut pair);
            pair
        }
        Case::Sleeps { asks } => {
            waits_of_two::sleep_in_a_thread(rt, &mut pair, asks);
            pair
        }
        Case::ListsMany => {
            listings::list_many(rt, &mut pair);
            pair
        }
        Case::Races(race, rounds) => races::race_often(rt, pair, race, rounds),
        Case::FindsSlotsBusy => {
            busy::find_slots_busy(rt, &mut pair);
            pair
        }
        Case::MovesAtLast => {
            memory::move_often(rt, &mut pair);
            pair
        }
    }
}
