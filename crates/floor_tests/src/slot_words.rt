//! The words of fast-path slots. The numbers are worked by hand from the bits, and are not this code's
//! answers.

use lw_word::SlotWord;
use modes_core::Mode;
use std::process::Abort;

/// A slot's word, a mode that is set in it for a relation, and the word that comes of it.
const SETS: [(u64, u32, Mode, u64); 3] = [
    (16384, 16384, Mode::AccessShare, 0x1_0000_4000),
    (0x1_0000_4000, 16384, Mode::RowExclusive, 0x5_0000_4000),
    (0, u32::MAX, Mode::RowShare, 0x2_FFFF_FFFF),
];

/// A slot's word, a mode that is cleared in it, and the word that comes of it.
const CLEARS: [(u64, Mode, u64); 3] = [
    (0x5_0000_4000, Mode::RowShare, 0x5_0000_4000),
    (0x5_0000_4000, Mode::AccessShare, 0x4_0000_4000),
    (0x4_0000_4000, Mode::RowExclusive, 0),
];

/// Whether the slot word 0x5_0000_4000 shows a mode.
const SHOWS: [(Mode, bool); 5] = [
    (Mode::AccessShare, true),
    (Mode::RowShare, false),
    (Mode::RowExclusive, true),
    (Mode::ShareUpdateExclusive, false),
    (Mode::AccessExclusive, false),
];

/// The slot word `number`, of an empty slot or one of `relation`, with `mode` set, which is a mode that a
/// slot may show.
fn with(rt: &impl Abort, number: u64, relation: u32, mode: Mode) -> u64 {
    let slot = SlotWord::from_number(number);
    assert!(rt; mode.number() <= 3);
    assert!(rt; !slot.in_use() || slot.relation() == relation);
    slot.with(relation, mode).number()
}

/// The word `number` of a slot with `mode` cleared.
fn without(rt: &impl Abort, number: u64, mode: Mode) -> u64 {
    assert!(rt; mode.number() <= 3);
    SlotWord::from_number(number).without(mode).number()
}

/// Whether the slot with the word `number` is in use, and its relation.
fn used_by(number: u64) -> (bool, u32) {
    let slot = SlotWord::from_number(number);
    (slot.in_use(), slot.relation())
}

/// Whether the slot with the word `number` shows `mode`, whether it shows `mode` for relation 16384, and
/// whether for relation 16385.
fn shows(number: u64, mode: Mode) -> [bool; 3] {
    let slot = SlotWord::from_number(number);
    [
        slot.has(mode),
        slot.shows(16384, mode),
        slot.shows(16385, mode),
    ]
}

#[test]
fn a_slot_is_in_use_where_it_shows_a_mode(rt: HostRuntime) {
    for (number, used) in [(16384, false), (0x1_0000_4000, true), (0x5_0000_4000, true)] {
        assert!(rt; used_by(number) == (used, 16384), "at {number}");
    }
    assert!(rt; SlotWord::default().number() == 0);
}

#[test]
fn a_slot_shows_the_modes_of_its_relation(rt: HostRuntime) {
    for (mode, shown) in SHOWS {
        let its = shows(0x5_0000_4000, mode);
        assert!(rt; its == [shown, shown, false], "{}", mode.name());
    }
}

#[test]
fn a_mode_is_set_in_a_slot(rt: HostRuntime) {
    for (number, relation, mode, after) in SETS {
        assert!(rt; with(&rt, number, relation, mode) == after, "at {number}");
    }
}

#[test]
fn a_mode_is_cleared_in_a_slot(rt: HostRuntime) {
    for (number, mode, after) in CLEARS {
        assert!(rt; without(&rt, number, mode) == after, "at {number}");
    }
}
