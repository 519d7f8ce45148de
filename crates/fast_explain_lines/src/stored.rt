//! A reader that stores its input.

ghost use Rattle.std.specs.Prelude.{◌≡◌};

use fast_text::{Failed, Source};
use std::alloc::Global;

/// A reader that stores all bytes that it returns. These are the bytes of the inner reader.
#[derive(Drop)]
pub struct Stored<S> {
    inner: S,
    bytes: Vec<u8>,
    /// False after a failed allocation.
    is_whole: bool,
}

impl<S> Stored<S> {
    ghost use Rattle.fast_explain_lines.specs.meaning.Reading.{stored_of};

    /// Makes a reader that has stored nothing.
    pub fn new(alloc: Global, inner: S) -> Stored<S>
        ensures { stored_of result ≡ inner }
    {
        Stored {
            inner,
            bytes: Vec::new(alloc),
            is_whole: true,
        }
    }

    /// Stores a piece, unless an allocation failed.
    fn store(&mut self, piece: &[u8])
        ensures { stored_of self.new ≡ stored_of self.old }
    {
        if self.is_whole && self.bytes.extend_from_slice(piece).is_err() {
            self.is_whole = false;
            self.bytes.clear();
        }
    }

    /// Returns all bytes that were read, or `None` after a failed allocation.
    pub fn text(&self) -> Option<&[u8]> {
        if self.is_whole {
            Some(self.bytes.as_slice())
        } else {
            None
        }
    }
}

impl<S: Source> Source for Stored<S> {
    ghost use Rattle.fast_explain_lines.specs.meaning.Reading.{stored_of};

    ghost left = { λ s. S.left (stored_of s) };

    ghost has_failed = { λ s. S.has_failed (stored_of s) };

    fn read(&mut self, buf: &mut [u8]) -> Result<usize, Failed> {
        match self.inner.read(buf) {
            Ok(count) => {
                self.store(&buf[..count]);
                Ok(count)
            }
            Err(failed) => Err(failed),
        }
    }

    fn failed(&self) -> bool {
        self.inner.failed()
    }
}
