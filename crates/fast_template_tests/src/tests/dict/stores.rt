//! The two dictionaries under the same commands.

use super::super::expect;
use super::is_same_previous;
use fast_dict::commands::{StoreCommand, can_run, run};
use fast_dict::entry::Entry;
use fast_dict::lists::Lists;
use fast_dict::previous::Previous;
use fast_dict::slots::Slots;
use fast_dict::store::Store;
use fast_value::{Kind, Scalar};
use std::alloc::AllocError;
use std::process::Abort;
use std::test::Fail;

/// A command of each type, with values of each form, and a value that replaces another. Entries 1 and 3 can hold strings.
#[rattlefmt::skip]
const COMMANDS: [StoreCommand<'static>; 9] = [
    StoreCommand::Set { entry: 0, kind: Kind::UInt32, scalar: Scalar::U(7) },
    StoreCommand::Set { entry: 1, kind: Kind::Ascii, scalar: Scalar::Ascii(b"GEH6") },
    StoreCommand::Set { entry: 3, kind: Kind::Unicode, scalar: Scalar::Unicode(b"\xC3\xA9") },
    StoreCommand::Set { entry: 1, kind: Kind::Bytes, scalar: Scalar::Bytes(b"0123456789ABCDEF") },
    StoreCommand::Set { entry: 2, kind: Kind::Decimal, scalar: Scalar::Dec { exponent: -1, mantissa: 15 } },
    StoreCommand::SetEmpty { entry: 2 },
    StoreCommand::Set { entry: 2, kind: Kind::Int64, scalar: Scalar::I(-5) },
    StoreCommand::Set { entry: 4, kind: Kind::Int32, scalar: Scalar::I(3) },
    StoreCommand::SetEmpty { entry: 4 },
];

/// The entries after these commands.
const AFTER: [Previous<'static>; 5] = [
    Previous::Assigned(Kind::UInt32, Scalar::U(7)),
    Previous::Assigned(Kind::Bytes, Scalar::Bytes(b"0123456789ABCDEF")),
    Previous::Assigned(Kind::Int64, Scalar::I(-5)),
    Previous::Assigned(Kind::Unicode, Scalar::Unicode(b"\xC3\xA9")),
    Previous::Empty,
];

/// The entries after a reset.
const AFTER_RESET: [Previous<'static>; 5] = [
    Previous::Assigned(Kind::UInt32, Scalar::U(7)),
    Previous::Undefined,
    Previous::Undefined,
    Previous::Undefined,
    Previous::Undefined,
];

/// The entries after the commands and a number at entry 4, which was empty.
const AFTER_NUMBER: [Previous<'static>; 5] = [
    Previous::Assigned(Kind::UInt32, Scalar::U(7)),
    Previous::Assigned(Kind::Bytes, Scalar::Bytes(b"0123456789ABCDEF")),
    Previous::Assigned(Kind::Int64, Scalar::I(-5)),
    Previous::Assigned(Kind::Unicode, Scalar::Unicode(b"\xC3\xA9")),
    Previous::Assigned(Kind::Int32, Scalar::I(-9)),
];

/// Returns whether each entry holds the expected value.
fn holds<D: Store>(store: &D, wanted: &[Previous<'_>]) -> bool {
    if store.entries() != wanted.len() {
        return false;
    }
    for (entry, previous) in wanted.iter().enumerate() {
        if entry >= store.entries() || !is_same_previous(store.get(entry), *previous) {
            return false;
        }
    }
    true
}

/// Carries out a list of commands, each of which meets its conditions.
fn carries_out<D: Store>(rt: &impl Abort, store: &mut D, commands: &[StoreCommand<'_>]) {
    let possible = can_run(store, commands);
    assert!(rt; possible);
    let count = run(store, commands);
    expect(rt, count == commands.len(), "commands", count);
}

/// Lists of commands one after the other, and the entries after each.
const TURNS: &[(&[StoreCommand<'static>], &[Previous<'static>])] = &[
    (&[], &[Previous::Undefined; 5]),
    (&COMMANDS, &AFTER),
    (&[StoreCommand::Reset], &AFTER_RESET),
    (&COMMANDS, &AFTER),
    (&[StoreCommand::ResetAll], &[Previous::Undefined; 5]),
];

/// Carries out the commands, and then the resets.
fn follows<D: Store>(rt: &impl Abort, store: &mut D) {
    for (commands, after) in TURNS {
        carries_out(rt, store, commands);
        expect(rt, holds(store, after), "behind commands", commands.len());
    }
}

/// Returns whether the entry holds the number under a uInt32.
fn holds_uint32(store: &Slots, entry: usize, wanted: u64) -> bool {
    if entry >= store.entries() {
        return false;
    }
    match store.held(entry) {
        Entry::UInt32(number) => number == wanted,
        _ => false,
    }
}

/// Stores a number under an int32.
fn set_int32(rt: &impl Abort, store: &mut Slots, entry: usize, number: i64) {
    assert!(rt; entry < store.entries());
    store.set_number(entry, Entry::Int32(number));
}

/// Returns whether a copy keeps the effect of the commands when all is reset.
fn is_kept_by_a_copy(rt: &impl Abort, store: &mut Lists) -> Result<bool, AllocError> {
    carries_out(rt, store, &COMMANDS);
    let copy = store.copy()?;
    store.reset_all();
    Ok(holds(&copy, &AFTER))
}

#[test]
fn lists(rt: HostRuntime) -> Result<(), Fail> {
    let mut store = Lists::new(rt.alloc(), 5, 16)?;
    follows(&rt, &mut store);
    let is_kept = is_kept_by_a_copy(&rt, &mut store)?;
    expect(&rt, is_kept, "kept by a copy", 5);
    let is_right = store.can_refuse() && store.max_text() == 16;
    expect(&rt, is_right, "lists", 16);
    Ok(())
}

/// Carries out the commands, and then stores a number at an entry that was empty. Returns whether the entry holds it.
fn takes_a_number(rt: &impl Abort, store: &mut Slots) -> bool {
    let was_empty = !holds_uint32(store, 0, 7);
    carries_out(rt, store, &COMMANDS);
    let is_held = holds_uint32(store, 0, 7);
    set_int32(rt, store, 4, -9);
    was_empty && is_held && holds(store, &AFTER_NUMBER)
}

#[test]
fn slots(rt: HostRuntime) -> Result<(), Fail> {
    let mut store = Slots::new(rt.alloc(), &[false, true, false, true, false], 16)?;
    follows(&rt, &mut store);
    expect(&rt, takes_a_number(&rt, &mut store), "a number", 4);
    let is_right = !store.can_refuse() && store.max_text() == 16;
    expect(&rt, is_right, "slots", 16);
    Ok(())
}

/// Returns whether a string may be set at the entry.
fn takes_text(store: &Slots, entry: usize) -> bool {
    let command = StoreCommand::Set {
        entry,
        kind: Kind::Ascii,
        scalar: Scalar::Ascii(b"AB"),
    };
    can_run(store, &[command])
}

#[test]
fn entries_without_a_slot_take_no_text(rt: HostRuntime) -> Result<(), Fail> {
    let store = Slots::new(rt.alloc(), &[false, true], 16)?;
    for (entry, is_possible) in &[(0, false), (1, true), (2, false)] {
        let is_right = takes_text(&store, *entry) == *is_possible;
        expect(&rt, is_right, "at entry", *entry);
    }
    Ok(())
}
