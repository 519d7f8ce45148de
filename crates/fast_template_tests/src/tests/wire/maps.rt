//! Stop bits and presence maps.

use super::{entity, expect, expect_each};
use fast_wire::{
    Entity, MAP_LIMIT, MapBuilder, MapStep, find_stop, map_bit, map_overlong, map_push,
    write_unsigned,
};
use std::alloc::{AllocError, Global};
use std::process::Abort;
use std::test::Fail;

/// Checks that the first stop bit of the bytes is in this one.
fn expect_stop(rt: &impl Abort, bytes: &[u8], want: Option<usize>) {
    expect(rt, find_stop(bytes) == want, "in", bytes);
}

#[test]
fn stops(rt: HostRuntime) {
    for len in 0..50 {
        let mut bytes = [0x7f; 50];
        expect_stop(&rt, &bytes[..len], None);
        for stop in (0..len).rev() {
            bytes[stop] = 0x80;
            expect_stop(&rt, &bytes[..len], Some(stop));
        }
    }
}

#[test]
fn maps_byte_by_byte(rt: HostRuntime) {
    let mut cells = [0; MAP_LIMIT];
    for len in 0..MAP_LIMIT - 1 {
        let step = map_push(&mut cells, len, 0x40);
        expect(&rt, step == MapStep::More, "pushed onto", &cells[..len]);
    }
    for (byte, want) in [(0x41, MapStep::TooLong), (0xc1, MapStep::Whole)] {
        let step = map_push(&mut cells, MAP_LIMIT - 1, byte);
        expect(&rt, step == want, "the last", &cells);
    }
    let is_kept = cells[0] == 0x40 && cells[MAP_LIMIT - 1] == 0xc1;
    expect(&rt, is_kept, "kept", &cells);
}

/// Returns whether a map is longer than it has to be; nothing if the bytes are no map.
fn overlong(bytes: &[u8]) -> Option<bool> {
    match entity(bytes) {
        Some(map) => Some(map_overlong(map.as_slice())),
        None => None,
    }
}

#[test]
fn maps(rt: HostRuntime) {
    let mut builder = MapBuilder::new();
    builder.set(299);
    builder.set(0);
    builder.set(8);
    let map = builder.finish();
    let map = map.as_slice();
    for i in 0..1100 {
        let is_set = i == 0 || i == 8 || i == 299;
        assert!(rt; map_bit(map, i) == is_set, "at {i}");
    }
    let least = MapBuilder::new().finish();
    let are_right = [
        map.len() == 43,
        !map_overlong(map),
        least.as_slice() == [0x80].as_slice(),
        overlong(&[0x40, 0x80]) == Some(true),
        overlong(&[0x00, 0xc0]) == Some(false),
    ];
    expect_each(&rt, &are_right, map);
}

/// Returns an entity and a map builder as `Debug` writes them.
fn debug_of(alloc: Global, entity: &Entity, builder: &MapBuilder) -> Result<String, AllocError> {
    format!(in alloc; "{entity:?}, {builder:?}")
}

#[test]
fn debug_writes_the_bytes(rt: HostRuntime) -> Result<(), Fail> {
    let mut builder = MapBuilder::new();
    builder.set(0);
    builder.set(8);
    let text = debug_of(rt.alloc(), &write_unsigned(942_755), &builder)?;
    let want = "Entity { bytes: [57, 69, 163] }, MapBuilder { bytes: [64, 32] }";
    expect(
        &rt,
        text.as_str() == want,
        "as Debug writes it",
        text.as_bytes(),
    );
    Ok(())
}
