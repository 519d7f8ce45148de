//! Presence maps, in bytes that the caller keeps.

ghost use Rattle.std.specs.Prelude.{◌≡◌, ◌+◌, ◌<◌, ◌≤◌, ◌↔◌, ◌∷◌, ◌++◌, [], false, IsTrue, length, take, slice_set, slice_index_or};
ghost use Rattle.fast_wire.specs.meaning.Entities.{IsEntity};
ghost use Rattle.fast_wire.specs.meaning.Maps.{map_limit, bits, first_bit, HasSpareByte};

/// The state of a presence map after one more byte.
#[derive(Clone, Copy, Debug, PartialEq, Eq)]
pub enum MapStep {
    /// No stop bit yet.
    More,
    /// The byte has the stop bit: the map is complete.
    Whole,
    /// The last byte that a map may have has no stop bit.
    TooLong,
}

/// The greatest length of a presence map, in bytes.
pub const MAP_LIMIT: usize = 146;

/// Writes one more byte of a map, of which `len` bytes have been received, into its cells.
#[inline]
pub fn map_push(cells: &mut [u8], len: usize, byte: u8) -> MapStep
    requires cells { length cells.old ≡ map_limit }
    requires room { len < map_limit }
    ensures cells { cells.new ≡ slice_set cells.old len byte }
    ensures bytes { take (len + 1) cells.new ≡ take len cells.old ++ byte ∷ [] }
    ensures whole { result ≡ MapStep.Whole ↔ 128 ≤ byte }
    ensures too_long { result ≡ MapStep.TooLong ↔ ((byte < 128) × (len + 1 ≡ map_limit)) }
    ensures more { result ≡ MapStep.More ↔ ((byte < 128) × (len + 1 < map_limit)) }
{
    cells[len] = byte;
    if byte >= 128 {
        MapStep::Whole
    } else if len + 1 == MAP_LIMIT {
        MapStep::TooLong
    } else {
        MapStep::More
    }
}

/// Returns bit `i` of a complete map, counted from 0. The bits after the last one are all zero.
#[inline]
pub fn map_bit(map: &[u8], i: usize) -> bool
    requires entity { IsEntity map.now }
    requires short { length map.now ≤ map_limit }
    ensures bit { result ≡ slice_index_or (bits map.now) i false }
    ensures first { i ≡ 0 → result ≡ first_bit (bits map.now) }
{
    let byte = i / 7;
    byte < map.len() && (map[byte] >> (6 - i % 7)) % 2 == 1
}

/// Returns whether the last byte of a complete map could be left out: there are others before it, and none of its seven bits is set.
#[inline]
pub fn map_overlong(map: &[u8]) -> bool
    requires entity { IsEntity map.now }
    requires short { length map.now ≤ map_limit }
    ensures { IsTrue result ↔ HasSpareByte map.now }
{
    map.len() > 1 && map[map.len() - 1] & 0x7f == 0
}
