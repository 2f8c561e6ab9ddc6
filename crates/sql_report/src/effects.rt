//! Whom lock modes keep waiting, and for whom they wait.
ghost use Rattle.std.specs.Prelude.{◌≡◌, ◌||◌, ◌&&◌};
ghost use Rattle.modes_core.specs.Mode.{mode_eq};
ghost use Rattle.modes_core.specs.ModeSet.{set_has};
ghost use Rattle.sql_report.specs.Clash.{clashes};

use modes_core::{Mode, ModeSet, conflicts};
use std::alloc::AllocError;

/// A kind of sessions: the mode that they take, what a report calls them where they wait, and what it calls
/// one of them that a statement waits for.
struct Others {
    mode: Mode,
    wait: &'static str,
    before: &'static str,
}

/// The kinds of sessions that a report names, by the modes that they take.
static OTHERS: [Others; 5] = [
    Others {
        mode: Mode::AccessShare,
        wait: "reads",
        before: "a long read",
    },
    Others {
        mode: Mode::RowShare,
        wait: "row locks and foreign keys' checks",
        before: "a transaction that locked rows",
    },
    Others {
        mode: Mode::RowExclusive,
        wait: "writes",
        before: "a busy writer",
    },
    Others {
        mode: Mode::ShareUpdateExclusive,
        wait: "VACUUM and DDL",
        before: "an autovacuum (which gives way after deadlock_timeout)",
    },
    Others {
        mode: Mode::Share,
        wait: "index builds",
        before: "an index build",
    },
];

/// The modes that conflict with one of `modes`: what `modes` on one relation, or on several, keep waiting.
pub fn conflicts_of(modes: ModeSet) -> ModeSet
    ensures { (other : Mode) → set_has result other ≡ clashes modes other }
{
    let all = with_clashing(ModeSet::empty(), modes, Mode::AccessShare);
    let all = with_clashing(all, modes, Mode::RowShare);
    let all = with_clashing(all, modes, Mode::RowExclusive);
    let all = with_clashing(all, modes, Mode::ShareUpdateExclusive);
    let all = with_clashing(all, modes, Mode::Share);
    let all = with_clashing(all, modes, Mode::ShareRowExclusive);
    let all = with_clashing(all, modes, Mode::Exclusive);
    with_clashing(all, modes, Mode::AccessExclusive)
}

/// The set `all`, and `mode` where that conflicts with one of `modes`.
fn with_clashing(all: ModeSet, modes: ModeSet, mode: Mode) -> ModeSet
    ensures { (other : Mode) → set_has result other ≡ (mode_eq other mode && clashes modes mode) || set_has all other }
{
    if conflicts(mode).meets(modes) {
        all.with(mode)
    } else {
        all
    }
}

/// Adds to `text` who waits where the modes `stopped` are kept waiting, or that only `DROP TABLE` and its
/// like wait.
pub fn push_waiting(text: &mut String, stopped: ModeSet) -> Result<(), AllocError> {
    let mut is_first = true;
    for others in &OTHERS {
        if stopped.has(others.mode) {
            text.push_str(if is_first { "" } else { ", " })?;
            text.push_str(others.wait)?;
            is_first = false;
        }
    }
    if is_first {
        text.push_str("only DDL that shuts all out, as DROP TABLE")?;
    }
    Ok(())
}

/// Adds to `text` the sessions behind which a statement waits if they came before it, where the statement
/// keeps the modes `stopped` waiting.
pub fn push_before(text: &mut String, stopped: ModeSet) -> Result<(), AllocError> {
    let mut is_first = true;
    for others in &OTHERS {
        if stopped.has(others.mode) {
            text.push_str(if is_first { "" } else { ", " })?;
            text.push_str(others.before)?;
            is_first = false;
        }
    }
    if is_first {
        text.push_str("only DDL that shuts all out")?;
    }
    Ok(())
}

/// Adds to `text` the names of `modes`, the strongest first, without a mode that keeps nobody waiting whom
/// the modes before it don't keep waiting.
pub fn push_modes(text: &mut String, modes: ModeSet) -> Result<(), AllocError> {
    let mut shown = ModeSet::empty();
    let mut is_first = true;
    for number in 0..8u8 {
        let Some(mode) = Mode::from_number(8 - number) else {
            continue;
        };
        if modes.has(mode) && !adds_nothing(mode, shown) {
            text.push_str(if is_first { "" } else { ", " })?;
            text.push_str(mode.name())?;
            shown = shown.with(mode);
            is_first = false;
        }
    }
    Ok(())
}

/// Whether `mode` keeps nobody waiting whom the modes `shown` don't keep waiting.
fn adds_nothing(mode: Mode, shown: ModeSet) -> bool {
    let stopped = conflicts_of(shown);
    for other in Mode::ALL {
        if conflicts(mode).has(other) && !stopped.has(other) {
            return false;
        }
    }
    true
}
