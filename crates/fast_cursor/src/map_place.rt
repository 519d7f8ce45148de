//! The next bit of a presence map.

ghost use Rattle.std.specs.Prelude.{◌≡◌, ℕ, ◌+◌, ◌*◌, ◌<◌, ◌≤◌, List, [], ◌∷◌, ◌++◌, length, take, drop, Bool, vec_len};
ghost use Rattle.fast_wire.specs.device.Words.{IsShortEntity};
ghost use Rattle.fast_wire.specs.meaning.Maps.{map_limit, bits, first_bit};
ghost use Rattle.fast_cursor.specs.device.MapPlaces.{HasTop, left_in, used_at, IsPlace};
ghost use Rattle.fast_cursor.specs.device.Segments.{map_at};

use fast_fronts::ShortEntity;

/// The number of bytes of a segment's map that have been read, and the next bit. No byte of it is unused, so that it is copied in two
/// words.
#[derive(Clone, Copy)]
pub struct MapPlace {
    /// The next bits, the first of them at the top, and zeros after the last one of the map. The bits of eight bytes are followed by the
    /// mark, a set bit with zeros after it: if it is at the top, no bit is left.
    pub word: u64,
    /// The index of the byte after those whose bits are in the word.
    pub end: u32,
    /// The number of bytes that have been read.
    pub len: u32,
}

/// The mark, after the 56 bits of eight bytes.
const MARK: u64 = 0x80;

/// The word of which no bit is left.
pub const SPENT: u64 = 0x8000_0000_0000_0000;

/// The position in a map of which nothing has been read.
pub const NO_MAP: MapPlace = MapPlace {
    word: MARK,
    end: 8,
    len: 0,
};

impl MapPlace {
    /// Returns the position before the first bit of a map of one byte.
    #[inline(always)]
    pub fn of_byte(byte: u8) -> MapPlace
        ensures place { IsPlace (byte ∷ []) result }
        ensures used { (map : List ℕ) → used_at map result.end result.word ≡ 0 }
        ensures end { result.end ≡ 8 }
        ensures len { result.len ≡ 1 }
        ensures left { left_in result.word ≡ 56 }
    {
        MapPlace {
            word: (u64::from(byte) << 57) + MARK,
            end: 8,
            len: 1,
        }
    }

    /// Returns the position before the first bit of a map of at most eight bytes.
    #[inline(always)]
    pub fn of_entity(map: ShortEntity) -> MapPlace
        requires short { map.len ≤ 8 }
        ensures place { (w : List ℕ) → IsShortEntity map.number map.len w → IsPlace (take map.len w) result }
        ensures used { (map : List ℕ) → used_at map result.end result.word ≡ 0 }
        ensures end { result.end ≡ 8 }
        ensures len { result.len ≡ map.len }
    {
        MapPlace {
            word: (map.number << (56 - 7 * map.len) << 8) + MARK,
            end: 8,
            len: map.len as u32,
        }
    }

    /// Returns the position in the map after more bytes were read, if no other bits are used.
    pub fn in_map(self, map: &[u8]) -> MapPlace
        requires place { (front : List ℕ) × (length front ≡ self.len) × IsPlace front self }
        requires short { length map.now ≤ map_limit }
        requires more { self.len ≤ length map.now }
        ensures place { IsPlace map.now result }
        ensures used { (front : List ℕ) → length front ≡ self.len
            → used_at map.now result.end result.word ≡ used_at front self.end self.word }
        ensures end { result.end ≡ self.end }
        ensures len { result.len ≡ length map.now }
    {
        if map.is_empty() {
            return NO_MAP;
        }
        let used = if self.len == 0 {
            0
        } else {
            self.word.trailing_zeros() - 7
        };
        MapPlace {
            word: word_at(map, self.end - 8) << used,
            end: self.end,
            len: map.len() as u32,
        }
    }

    /// Loads the next bits into the word if none is left in it. It writes in place, so that a caller keeps no room for a result.
    #[cold]
    #[inline(never)]
    pub fn refill(&mut self, maps: &Vec<u8>, start: usize)
        requires place { IsPlace (map_at maps.now.items start self.old.len) self.old }
        requires spent { self.old.word ≡ 9223372036854775808 }
        requires cells { start + self.old.len ≤ vec_len maps.now }
        ensures place { IsPlace (map_at maps.now.items start self.old.len) self.new }
        ensures bits { let map : List ℕ = map_at maps.now.items start self.old.len
            in drop (used_at map self.new.end self.new.word) (bits map)
            ≡ drop (used_at map self.old.end self.old.word) (bits map) }
        ensures left { left_in self.new.word ≡ 56 }
        ensures len { self.new.len ≡ self.old.len }
    {
        *self = self.refilled(maps, start);
    }

    /// Returns the next bit if none is left in the word.
    #[cold]
    #[inline(never)]
    pub fn bit_behind(&self, maps: &Vec<u8>, start: usize) -> bool
        requires place { IsPlace (map_at maps.now.items start self.now.len) self.now }
        requires spent { self.now.word ≡ 9223372036854775808 }
        requires cells { start + self.now.len ≤ vec_len maps.now }
        ensures { let map : List ℕ = map_at maps.now.items start self.now.len
            in result ≡ first_bit (drop (used_at map self.now.end self.now.word) (bits map)) }
    {
        self.refilled(maps, start).word >= SPENT
    }

    /// Returns the position with the next bits loaded into the word, of which none is left.
    fn refilled(self, maps: &Vec<u8>, start: usize) -> MapPlace
        requires place { IsPlace (map_at maps.now.items start self.len) self }
        requires spent { self.word ≡ 9223372036854775808 }
        requires cells { start + self.len ≤ vec_len maps.now }
        ensures place { IsPlace (map_at maps.now.items start self.len) result }
        ensures bits { let map : List ℕ = map_at maps.now.items start self.len
            in drop (used_at map result.end result.word) (bits map) ≡ drop (used_at map self.end self.word) (bits map) }
        ensures left { left_in result.word ≡ 56 }
        ensures len { result.len ≡ self.len }
    {
        if self.len == 0 {
            return NO_MAP;
        }
        let map = &maps[start..start + self.len as usize];
        let end = self.end.saturating_add(8);
        MapPlace {
            word: word_at(map, end - 8),
            end,
            len: self.len,
        }
    }
}

/// Returns the bits of the eight bytes from an index on, and the mark.
fn word_at(map: &[u8], first: u32) -> u64
    ensures { HasTop 56 result (drop (7 * first) (bits map.now)) }
{
    let first = first as usize;
    if first >= map.len() {
        return MARK;
    }
    let map = &map[first..];
    word_of(&map[..map.len().min(8)])
}

/// Returns the bits of up to eight bytes, the first of them at the top, and the mark.
fn word_of(bytes: &[u8]) -> u64
    requires { length bytes.now ≤ 8 }
    ensures { (rest : List Bool) → (length bytes.now < 8 → rest ≡ []) → HasTop 56 result (bits bytes.now ++ rest) }
{
    let mut sum: u64 = 0;
    for byte in bytes {
        sum = sum << 7 | u64::from(*byte & 0x7f);
    }
    (sum << (56 - 7 * bytes.len()) << 8) + MARK
}
