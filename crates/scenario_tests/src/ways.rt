//! The ways to end of all small scripts: what `orders` tells, beside every order played alone.
use crate::printed::printed;
use lock_manager::Config;
use lock_script::{Defect, Fault};
use scenario::run_script;
use script_orders::next_merge;
use std::alloc::{AllocError, Global};
use std::process::Abort;
use std::rt::Files;
use std::str;
use std::sync::Wait;
use std::test::Fail;
use std::thread::Threads;
use std::time::Clock;

/// The sessions of a small script.
static NAMES: [&str; 3] = ["a", "b", "c"];

/// The lines that open the sessions of a small script.
const OPENING: &str = "session a 5\nsession b 5\nsession c 5\n";

/// How many lines a small script has at most beside those that open its sessions.
const MOST_LINES: u32 = 4;

/// The lines of small scripts: what stands before the session's name and behind it.
static LINES: [(&str, &str); 5] = [
    ("lock ", " 5/1 AccessExclusiveLock"),
    ("lock ", " 5/1 AccessShareLock"),
    ("lock ", " 5/2 AccessExclusiveLock"),
    ("fast ", " 5/2 AccessShareLock"),
    ("commit ", ""),
];

/// A small script: to which session each of its lines belongs (lines are in the order of the sessions), and
/// which of `LINES` it is.
#[derive(Drop)]
struct Small {
    owners: Vec<usize>,
    kinds: Vec<usize>,
}

/// The last `many` digits of `number` to the base `base`, the last one first.
fn digits(alloc: Global, number: u32, base: usize, many: u32) -> Result<Vec<usize>, AllocError> {
    let mut left = number as usize;
    let mut digits = Vec::new(alloc);
    for _ in 0..many {
        digits.push(left.checked_rem(base).unwrap_or(0))?;
        left = left.checked_div(base).unwrap_or(0);
    }
    Ok(digits)
}

/// Whether none of `numbers` comes before the one ahead of it.
fn is_ascending(numbers: &[usize]) -> bool {
    let mut last = 0;
    for number in numbers {
        if *number < last {
            return false;
        }
        last = *number;
    }
    true
}

impl Small {
    /// Adds to `text` the line at `place` of the small script.
    fn push_line(&self, text: &mut String, place: usize) -> Result<(), AllocError> {
        let name = self.owners.get(place).and_then(|owner| NAMES.get(*owner));
        let line = self.kinds.get(place).and_then(|kind| LINES.get(*kind));
        if let (Some(name), Some((before, behind))) = (name, line) {
            text.push_str(*before)?;
            text.push_str(*name)?;
            text.push_str(*behind)?;
        }
        Ok(())
    }

    /// The place of a line of `session`, which has `before` lines ahead of that line.
    fn place_of(&self, session: usize, before: usize) -> usize {
        let first = self
            .owners
            .iter()
            .position(|owner| *owner == session)
            .unwrap_or(0);
        first.saturating_add(before)
    }

    /// The script in which the sessions' lines come in the order `merge`.
    fn script(&self, alloc: Global, merge: &[usize]) -> Result<String, AllocError> {
        let mut text = String::from_str(alloc, OPENING)?;
        for (place, session) in merge.iter().enumerate() {
            let before = lines_of(merge, place, *session);
            self.push_line(&mut text, self.place_of(*session, before))?;
            text.push('\n')?;
        }
        Ok(text)
    }
}

/// How many of the `first` first lines of the order `merge` are those of `session`.
fn lines_of(merge: &[usize], first: usize, session: usize) -> usize {
    merge
        .iter()
        .take(first)
        .filter(|other| **other == session)
        .count()
}

/// What an order that was played alone showed: the answers to each session, and whether the session waits.
#[derive(Drop)]
struct Shown {
    answers: Vec<String>,
    waits: Vec<bool>,
}

impl Shown {
    /// What the lines `printed` show, without the first ones, which come from the openings of the sessions.
    fn read(alloc: Global, printed: &str) -> Result<Self, AllocError> {
        let mut shown = Shown {
            answers: Vec::new(alloc),
            waits: vec![in alloc; false; NAMES.len()]?,
        };
        for _ in &NAMES {
            shown.answers.push(String::new(alloc))?;
        }
        for line in printed.lines().skip(NAMES.len()) {
            shown.hear(line)?;
        }
        Ok(shown)
    }

    /// Hears of the answer `line` to a session.
    fn hear(&mut self, line: &str) -> Result<(), AllocError> {
        for (place, name) in NAMES.iter().enumerate() {
            let said = line
                .strip_prefix(*name)
                .and_then(|rest| rest.strip_prefix(": "));
            if let (Some(said), Some(answers)) = (said, self.answers.get_mut(place)) {
                if answers.len() > 0 {
                    answers.push_str("; ")?;
                }
                answers.push_str(said)?;
                if let Some(waits) = self.waits.get_mut(place) {
                    *waits = said == "waits";
                }
            }
        }
        Ok(())
    }

    /// Whether the session numbered `session` waits, as its last answer says.
    fn waits(&self, session: usize) -> bool {
        self.waits.get(session).copied().unwrap_or(false)
    }

    /// Whether all sessions wait that `left` names, those with lines left.
    fn is_stuck(&self, left: &[usize]) -> bool {
        left.iter().all(|session| self.waits(*session))
    }

    /// What is said of the order `merge` of `small`, of which `run` lines were run.
    fn tell(
        &self,
        alloc: Global,
        small: &Small,
        merge: &[usize],
        run: usize,
    ) -> Result<String, AllocError> {
        let mut told = String::from_str(alloc, "\n")?;
        for (name, answers) in NAMES.iter().zip(&self.answers) {
            let nothing = if answers.len() == 0 { "nothing" } else { "" };
            write!(told, "#   {name}: {answers}{nothing}\n")?;
        }
        let mut is_any = false;
        for (name, waits) in NAMES.iter().zip(&self.waits) {
            if *waits {
                told.push_str(if is_any { ", " } else { "#   left waiting: " })?;
                told.push_str(*name)?;
                is_any = true;
            }
        }
        end_line(&mut told, is_any)?;
        let mut is_any = false;
        for (place, owner) in small.owners.iter().enumerate() {
            let its = place.saturating_sub(small.place_of(*owner, 0));
            if its >= lines_of(merge, run, *owner) {
                told.push_str(if is_any { "; " } else { "#   not reached: " })?;
                small.push_line(&mut told, place)?;
                is_any = true;
            }
        }
        end_line(&mut told, is_any)?;
        told.push_str(OPENING)?;
        Ok(told)
    }
}

/// Ends a line of `told`, where `is_any` says that there is one.
fn end_line(told: &mut String, is_any: bool) -> Result<(), AllocError> {
    if is_any { told.push('\n') } else { Ok(()) }
}

/// Plays the order `merge` of `small` alone, and answers what is said of that order. `None` for an order in
/// which a line comes from a session that waits while another one could go on.
fn played_alone(
    rt: &(impl Abort + AllocGlobal + Wait),
    small: &Small,
    merge: &[usize],
) -> Result<Option<String>, Fail> {
    let alloc: Global = rt.alloc();
    let config = Config {
        sessions: 3,
        max_local: 16,
        slot_groups: 1,
    };
    let script = small.script(alloc, merge)?;
    let mut printed = Vec::new(alloc);
    let (_, ended) = run_script(rt, script.as_str().as_bytes(), &mut printed, config);
    let run = match ended {
        Ok(()) => merge.len(),
        Err(
            Fault::BadLine {
                line,
                what: Defect::SessionWaits,
            },
        ) => (line as usize)
            .saturating_sub(1)
            .saturating_sub(NAMES.len()),
        Err(_) => {
            assert!(rt; false, "the script {script:?}");
            0
        }
    };
    let text = str::from_utf8(printed.as_slice()).expect(rt, "text");
    let shown = Shown::read(alloc, text)?;
    let left = merge.get(run..).unwrap_or(&[]);
    if !shown.is_stuck(left) {
        return Ok(None);
    }
    Ok(Some(shown.tell(alloc, small, merge, run)?))
}

/// Checks that the ways that `orders` tells of `small` are those of all orders, each played alone.
fn expect_ways(
    rt: &(impl Abort + AllocGlobal + Clock + Files + Threads + Wait + Sync),
    small: &Small,
) -> Result<(), Fail> {
    let alloc: Global = rt.alloc();
    let mut merge = small.owners.as_slice().to_vec(alloc)?;
    let script = small.script(alloc, merge.as_slice())?;
    let told = printed(rt, "lock_scenario orders", script.as_str())?;
    let mut ways: Vec<String> = Vec::new(alloc);
    for _ in 0..24 {
        if let Some(way) = played_alone(rt, small, merge.as_slice())? {
            assert!(rt;
                told.as_str().contains(way.as_str()),
                "{way:?} among {told:?}"
            );
            if !ways.iter().any(|other| other.as_str() == way.as_str()) {
                ways.push(way)?;
            }
        }
        if !next_merge(merge.as_mut_slice()) {
            break;
        }
    }
    let many = told.as_str().matches("# way ").count();
    assert_eq!(rt; many, ways.len(), "the ways of {script:?}");
    assert!(rt;
        told.as_str().contains("\n# all were run"),
        "the end of {told:?}"
    );
    Ok(())
}

/// Checks the scripts with `lines` lines, whose sessions are the digits of `owners`.
fn expect_all_of(
    rt: &(impl Abort + AllocGlobal + Clock + Files + Threads + Wait + Sync),
    lines: u32,
    owners: u32,
) -> Result<(), Fail> {
    let alloc: Global = rt.alloc();
    let owners = digits(alloc, owners, NAMES.len(), lines)?;
    if !is_ascending(owners.as_slice()) {
        return Ok(());
    }
    for code in 0..5u32.checked_pow(lines).unwrap_or(0) {
        let kinds = digits(alloc, code, LINES.len(), lines)?;
        let small = Small {
            owners: owners.as_slice().to_vec(alloc)?,
            kinds,
        };
        expect_ways(rt, &small)?;
    }
    Ok(())
}

#[test]
fn loses_no_way_of_any_small_script(rt: HostRuntime) -> Result<(), Fail> {
    for lines in 1..=MOST_LINES {
        for owners in 0..3u32.checked_pow(lines).unwrap_or(0) {
            expect_all_of(&rt, lines, owners)?;
        }
    }
    Ok(())
}
