//! The steps of a script: a verb, and the words after it.

use crate::words::{
    Words, answer, database, done, index, mode, number, session, shown, small_number, tag, word,
};
use lock_world::Step;
use lw_word::LwMode;

/// The step of `verb` and the `words` after it, or `None` where a script has no such step.
pub fn parse_step(verb: &str, words: &mut Words) -> Option<Step> {
    match verb {
        "opens" | "closes" | "is_kept_by" => seat_step(verb, words),
        "takes" | "puts" | "shares" | "unshares" | "passes" => word_step(verb, words),
        "asks" | "reads_wait" | "waits" | "marks" | "clears" | "leaves" => wait_step(verb, words),
        "reads" | "reads_counter" | "stores" | "sets" | "unsets" => slot_step(verb, words),
        "counts" | "uncounts" | "moves" => strong_step(verb, words),
        "sets_release_ok" | "sets_has_waiters" => flag_step(verb, words),
        _ => list_step(verb, words),
    }
}

/// The step of `verb` on sessions' seats, with its `words`.
fn seat_step(verb: &str, words: &mut Words) -> Option<Step> {
    match verb {
        "opens" => Some(Step::SplitSeat),
        "closes" => Some(Step::JoinSeat { joiner: None }),
        "is_kept_by" => {
            let joiner = session(words)?;
            Some(Step::JoinSeat {
                joiner: Some(joiner),
            })
        }
        _ => None,
    }
}

/// The step of `verb` on a lightweight lock, with its `words`.
fn word_step(verb: &str, words: &mut Words) -> Option<Step> {
    match verb {
        "takes" => Some(Step::TakeExclusive { word: word(words)? }),
        "puts" => {
            let word = word(words)?;
            let done = done(words)?;
            Some(Step::PutExclusive { word, done })
        }
        "shares" => Some(Step::TakeShared { word: word(words)? }),
        "unshares" => Some(Step::PutShared { word: word(words)? }),
        "passes" => {
            let owner = session(words)?;
            let tag = tag(words)?;
            let mode = mode(words)?;
            Some(Step::PutPassing { owner, tag, mode })
        }
        _ => None,
    }
}

/// The step of `verb` on a wait, with its `words`.
fn wait_step(verb: &str, words: &mut Words) -> Option<Step> {
    match verb {
        "asks" => Some(Step::AskCancel {
            other: session(words)?,
        }),
        "reads_wait" => Some(Step::LoadWait {
            shown: small_number(words)?,
        }),
        "waits" => {
            let tag = tag(words)?;
            let mode = mode(words)?;
            Some(Step::SetWaiting { tag, mode })
        }
        "marks" => {
            let other = session(words)?;
            let done = done(words)?;
            Some(Step::MarkGranted { other, done })
        }
        "clears" => Some(Step::ClearWait { leaving: false }),
        "leaves" => Some(Step::ClearWait { leaving: true }),
        _ => None,
    }
}

/// The step of `verb` on a session's slots, with its `words`.
fn slot_step(verb: &str, words: &mut Words) -> Option<Step> {
    match verb {
        "reads" => {
            let word = word(words)?;
            let shown = shown(words)?;
            Some(Step::LoadWord { word, shown })
        }
        "reads_counter" => {
            let index = index(words)?;
            let shown = number(words)?;
            Some(Step::LoadStrong { index, shown })
        }
        "stores" => Some(Step::StoreDatabase {
            database: database(words)?,
        }),
        "sets" => {
            let slot = small_number(words)?;
            let tag = tag(words)?;
            let mode = mode(words)?;
            Some(Step::SetSlot { slot, tag, mode })
        }
        "unsets" => {
            let slot = small_number(words)?;
            let tag = tag(words)?;
            let mode = mode(words)?;
            Some(Step::ClearSlot { slot, tag, mode })
        }
        _ => None,
    }
}

/// The step of `verb` for a strong lock, with its `words`.
fn strong_step(verb: &str, words: &mut Words) -> Option<Step> {
    match verb {
        "counts" => {
            let tag = tag(words)?;
            let mode = mode(words)?;
            Some(Step::Count { tag, mode })
        }
        "uncounts" => {
            let tag = tag(words)?;
            let mode = mode(words)?;
            Some(Step::Uncount { tag, mode })
        }
        "moves" => {
            let owner = session(words)?;
            let slot = small_number(words)?;
            let tag = tag(words)?;
            let weak = mode(words)?;
            let strong = mode(words)?;
            Some(Step::TransferSlot {
                owner,
                slot,
                tag,
                mode: weak,
                strong,
            })
        }
        _ => None,
    }
}

/// The step of `verb` on a flag of a lightweight lock, with its `words`.
fn flag_step(verb: &str, words: &mut Words) -> Option<Step> {
    let word = word(words)?;
    let shown = shown(words)?;
    match verb {
        "sets_release_ok" => Some(Step::SetReleaseOk { word, shown }),
        "sets_has_waiters" => Some(Step::SetHasWaiters { word, shown }),
        _ => None,
    }
}

/// The step of `verb` on a wait list, with its `words`.
fn list_step(verb: &str, words: &mut Words) -> Option<Step> {
    match verb {
        "locks_list" => Some(Step::LockList { word: word(words)? }),
        "unlocks_list" => {
            let word = word(words)?;
            let has_waiters = answer(words)?;
            let release_ok = answer(words)?;
            Some(Step::UnlockList {
                word,
                has_waiters,
                release_ok,
            })
        }
        "joins_list" => Some(Step::JoinList {
            mode: list_mode(words)?,
        }),
        "leaves_list" => Some(Step::LeaveList),
        "takes_off" => Some(Step::TakeOff {
            other: session(words)?,
        }),
        "tells" => Some(Step::Tell {
            other: session(words)?,
        }),
        "reads_sleep" => Some(Step::LoadSleep {
            shown: small_number(words)?,
        }),
        _ => None,
    }
}

/// The lock mode of a lightweight lock, by the next of `words`.
pub fn list_mode(words: &mut Words) -> Option<LwMode> {
    match words.next()? {
        "exclusive" => Some(LwMode::Exclusive),
        "shared" => Some(LwMode::Shared),
        _ => None,
    }
}
