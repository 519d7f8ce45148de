//! The buffer of a writer of lines.

ghost use Rattle.std.specs.Prelude.{◌≡◌, ◌↔◌, ◌+◌, ◌≤◌, [], ◌++◌, IsTrue, length, take};

/// The size of the buffer in bytes. Most lines are shorter.
const ROOM: usize = 512;

/// The buffer in which a writer keeps bytes before it writes them.
#[derive(Debug, Drop)]
pub struct Room {
    cells: [u8; ROOM],
    len: usize,
    ghost within: { len ≤ 512 },
}

impl Room {
    ghost use Rattle.fast_text.specs.meaning.Room.{kept_in};

    /// Makes an empty buffer.
    pub fn new() -> Room
        ensures { kept_in result ≡ [] }
    {
        Room {
            cells: [0; ROOM],
            len: 0,
        }
    }

    /// Empties the buffer.
    #[inline(always)]
    pub(crate) fn clear(&mut self)
        ensures { kept_in self.new ≡ [] }
    {
        self.len = 0;
    }

    /// Returns the bytes in the buffer.
    #[inline(always)]
    pub(crate) fn bytes(&self) -> &[u8]
        ensures { result.now ≡ kept_in self.now }
    {
        &self.cells[..self.len]
    }

    /// Returns whether the buffer has room for `count` more bytes.
    #[inline(always)]
    pub(crate) fn has_room(&self, count: usize) -> bool
        ensures { IsTrue result ↔ (self.now.len + count ≤ ROOM) }
    {
        count <= ROOM - self.len
    }

    /// Appends the first `count` bytes of a block. It copies the whole block, which needs no call if the block's length is known to the
    /// compiler.
    #[inline(always)]
    pub(crate) fn keep(&mut self, block: &[u8], count: usize)
        requires room { self.old.len + length block.now ≤ ROOM }
        requires front { count ≤ length block.now }
        ensures { kept_in self.new ≡ kept_in self.old ++ take count block.now }
    {
        self.cells[self.len..self.len + block.len()].copy_from_slice(block);
        self.len += count;
    }
}
