//! Presence maps that a piece may split.

ghost use Rattle.std.specs.Prelude.{◌≡◌, ◌<◌, length, take};
ghost use Rattle.fast_wire.specs.meaning.Entities.{HaveNoStop};
ghost use Rattle.fast_wire.specs.meaning.Maps.{map_limit};
ghost use Rattle.fast_cursor.specs.device.Pending.{IsNextMap};

use fast_wire::{MapStep, map_push};

/// The result of reading a presence map from the bytes of a piece, and the number of bytes that decide it.
#[derive(Clone, Copy)]
pub enum MapFront {
    /// This number of bytes completes it.
    Whole(usize),
    /// With this number of bytes it has all the bytes that a map may have, and no stop bit.
    TooLong(usize),
    /// The piece ends before the map does.
    Cut,
}

/// Reads the presence map whose first `len` bytes are in the cells and that goes on with the rest.
pub fn next_map(cells: &mut [u8], len: usize, rest: &[u8]) -> MapFront
    requires cells { length cells.old ≡ map_limit }
    requires room { len < map_limit }
    requires open { HaveNoStop (take len cells.old) }
    ensures { IsNextMap len cells.old rest.now cells.new result }
{
    for (i, byte) in rest.iter().enumerate() {
        match map_push(cells, len + i, *byte) {
            MapStep::More => {}
            MapStep::Whole => return MapFront::Whole(i + 1),
            MapStep::TooLong => return MapFront::TooLong(i + 1),
        }
    }
    MapFront::Cut
}
