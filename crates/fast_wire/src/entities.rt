//! The bytes of one entity, received one at a time.

ghost use Rattle.std.specs.Prelude.{◌≡◌, ◌≢◌, ℕ, ◌<◌, ◌≤◌, ◌↔◌, ◌==◌, List, [], ◌∷◌, ◌++◌, length};
ghost use Rattle.fast_wire.specs.meaning.Entities.{HaveNoStop, IsEntity};

use arrayvec::ArrayVec;
use std::marker::Model;

/// The state of an entity after one more byte.
#[derive(Clone, Copy, Debug, PartialEq, Eq)]
pub enum Step {
    /// No stop bit yet.
    More,
    /// The byte has the stop bit: the entity is complete.
    Whole,
    /// The tenth byte has no stop bit.
    TooLong,
}

/// The bytes of one stop-bit entity, received one at a time, at most ten: a contract sees them as a list.
#[derive(Debug, Drop)]
pub struct Entity {
    bytes: ArrayVec<u8, 10>,
}

impl Model for Entity {
    ghost use Rattle.std.specs.Prelude.{ℕ, List};

    ghost Value = { List ℕ };

    ghost view = { λ e. e.bytes.items };
}

impl Entity {
    /// Makes an entity without bytes.
    #[inline]
    pub fn new() -> Entity
        ensures { result ≡ [] }
    {
        Entity {
            bytes: ArrayVec::new(),
        }
    }

    /// Appends one more byte to an entity that is not complete.
    #[inline]
    pub fn push(&mut self, byte: u8) -> Step
        requires open { HaveNoStop self.old }
        requires room { length self.old < 10 }
        ensures bytes { self.new ≡ self.old ++ byte ∷ [] }
        ensures whole { result ≡ Step.Whole ↔ 128 ≤ byte }
        ensures too_long { result ≡ Step.TooLong ↔ ((byte < 128) × (length self.new ≡ 10)) }
        ensures more { result ≡ Step.More ↔ ((byte < 128) × (length self.new < 10)) }
        ensures entity { result ≡ Step.Whole → IsEntity self.new }
        ensures still_open { result ≢ Step.Whole → HaveNoStop self.new }
    {
        self.bytes.push(byte);
        if byte >= 128 {
            Step::Whole
        } else if self.bytes.is_full() {
            Step::TooLong
        } else {
            Step::More
        }
    }

    /// Returns the bytes, in order.
    #[inline]
    pub fn as_slice(&self) -> &[u8]
        ensures { result.now ≡ self.now }
    {
        self.bytes.as_slice()
    }

    /// Returns the number of bytes.
    #[inline]
    pub fn len(&self) -> usize
        ensures { result ≡ length self.now }
    {
        self.bytes.len()
    }

    /// Returns whether there are no bytes.
    #[inline]
    pub fn is_empty(&self) -> bool
        ensures { result ≡ (length self.now == 0) }
    {
        self.bytes.is_empty()
    }

    /// Removes all bytes.
    #[inline]
    pub fn clear(&mut self)
        ensures { self.new ≡ [] }
    {
        self.bytes.clear();
    }
}
