//! A builder of presence maps.

ghost use Rattle.std.specs.Prelude.{◌≡◌, ℕ, ◌<◌, true, false, replicate, slice_set, slice_index_or};
ghost use Rattle.fast_wire.specs.meaning.Maps.{bits, IsMap};

use crate::maps::MAP_LIMIT;
use arrayvec::ArrayVec;
use std::fmt;
use std::marker::Model;

/// The bits of a presence map, none of which is set at first: a contract sees them as a list of 1,022.
#[derive(Drop)]
pub struct MapBuilder {
    /// The bits, seven a byte, most significant first.
    cells: [u8; MAP_LIMIT],
    /// The number of cells that the map uses: at least one, and else up to the last set bit.
    len: usize,
}

impl Model for MapBuilder {
    ghost use Rattle.std.specs.Prelude.{List, Bool};
    ghost use Rattle.fast_wire.specs.meaning.Maps.{bits, IsBuilt};

    ghost Value = { List Bool };

    ghost view = { λ b. bits b.cells };

    ghost invariant = { λ b. IsBuilt b.cells b.len };
}

/// Formats the bytes of the map so far, without the stop bit.
impl fmt::Debug for MapBuilder {
    fn fmt<W: fmt::Write>(&self, f: &mut fmt::Formatter<W>) -> fmt::Result {
        f.debug_struct("MapBuilder")
            .field("bytes", &&self.cells[..self.len])
            .finish()
    }
}

impl MapBuilder {
    /// Makes a builder with no bit set.
    pub fn new() -> MapBuilder
        ensures { result ≡ replicate 1022 false }
    {
        MapBuilder {
            cells: [0; MAP_LIMIT],
            len: 1,
        }
    }

    /// Sets bit `i`, counted from 0.
    pub fn set(&mut self, i: usize)
        requires { i < 1022 }
        ensures { self.new ≡ slice_set self.old i true }
    {
        let byte = i / 7;
        self.cells[byte] |= 0x40 >> (i % 7);
        self.len = self.len.max(byte + 1);
    }

    /// Returns the shortest map of these bits, of at least one byte.
    pub fn finish(self) -> ArrayVec<u8, MAP_LIMIT>
        ensures map { IsMap true result.items }
        ensures bits { (i : ℕ) → slice_index_or (bits result.items) i false ≡ slice_index_or self i false }
    {
        let mut map = ArrayVec::new();
        let last = self.len - 1;
        for byte in &self.cells[..last] {
            map.push(*byte);
        }
        map.push(self.cells[last] | 0x80);
        map
    }
}
