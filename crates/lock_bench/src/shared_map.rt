//! What the lock manager is compared with: a hash map of how often each object is held in each mode, under
//! one lock.

use crate::keys::Key;
use modes_core::{Mode, Tag};
use std::alloc::AllocError;
use std::collections::HashMap;
use std::sync::{Mutex, Wait};

/// How often each object is counted in each mode, in a map under a mutex.
pub type SharedMap = Mutex<HashMap<(Tag, Mode), u32>>;

/// Counts `tag` in `mode` once more in `map`. Refused only where memory ran out.
#[inline(never)]
fn count<R: Wait>(rt: &R, map: &SharedMap, tag: Tag, mode: Mode) -> Result<(), AllocError> {
    let mut held = map.lock(rt);
    if let Some(count) = held.get_mut(&(tag, mode)) {
        *count = count.wrapping_add(1);
        return Ok(());
    }
    held.insert((tag, mode), 1)?;
    Ok(())
}

/// Counts `tag` in `mode` once less in `map`, and takes it out with the last count.
#[inline(never)]
fn uncount<R: Wait>(rt: &R, map: &SharedMap, tag: Tag, mode: Mode) {
    let mut held = map.lock(rt);
    if let Some(count) = held.get_mut(&(tag, mode)) {
        if *count > 1 {
            *count = count.wrapping_sub(1);
            return;
        }
    }
    held.remove(&(tag, mode));
}

/// Whether `map` has `tag` in `mode`.
#[inline(never)]
fn is_held<R: Wait>(rt: &R, map: &SharedMap, tag: Tag, mode: Mode) -> bool {
    map.lock(rt).contains_key(&(tag, mode))
}

/// Counts each of `keys` once more in `map`, and once less at once, `laps` times. Answers how many were
/// counted.
pub fn map_pairs<R: Wait>(rt: &R, map: &SharedMap, keys: &[Key], laps: u32) -> u64 {
    let mut counted = 0u64;
    for _ in 0..laps {
        for (tag, mode) in keys {
            counted = counted.wrapping_add(u64::from(count(rt, map, *tag, *mode).is_ok()));
            uncount(rt, map, *tag, *mode);
        }
    }
    counted
}

/// Counts each of `keys` once more in `map`.
pub fn map_all<R: Wait>(rt: &R, map: &SharedMap, keys: &[Key]) -> Result<(), AllocError> {
    for (tag, mode) in keys {
        count(rt, map, *tag, *mode)?;
    }
    Ok(())
}

/// Counts each of `keys` once less in `map`.
pub fn uncount_all<R: Wait>(rt: &R, map: &SharedMap, keys: &[Key]) {
    for (tag, mode) in keys {
        uncount(rt, map, *tag, *mode);
    }
}

/// Looks each of `keys` up in `map`, `laps` times, and answers how many are held.
pub fn count_held<R: Wait>(rt: &R, map: &SharedMap, keys: &[Key], laps: u32) -> u64 {
    let mut held = 0u64;
    for _ in 0..laps {
        for (tag, mode) in keys {
            held = held.wrapping_add(u64::from(is_held(rt, map, *tag, *mode)));
        }
    }
    held
}
