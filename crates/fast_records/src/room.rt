//! The caller's buffers while they are filled.

ghost use Rattle.std.specs.Prelude.{◌≤◌, length};

use crate::records::Record;

/// The caller's buffers, and how much of each is filled.
#[derive(Drop)]
pub(crate) struct Room<'a> {
    records: &'a mut [Record],
    texts: &'a mut [u8],
    /// The number of records that are filled.
    filled: usize,
    /// The number of records that may be filled: all, until an event had no room. No later event may overtake it.
    limit: usize,
    /// The number of bytes of `texts` that are filled.
    used: usize,
    ghost filled_within: { filled ≤ limit },
    ghost limit_within: { limit ≤ length records.now },
    ghost used_within: { used ≤ length texts.now },
}

impl<'a> Room<'a> {
    ghost use Rattle.std.specs.Prelude.{◌≡◌, ◌+◌, ◌≤◌, ◌<◌, [], ◌++◌, length};
    ghost use Rattle.std.specs.Bool.{OnTrue, OnFalse};
    ghost use Rattle.fast_records.specs.device.Room.{records_in, texts_in, IsOver, SameBuffers, Adds, IsAsFilled, IsUnchanged, LacksRoom};

    /// Returns buffers of which nothing is filled.
    pub(crate) fn new(records: &'a mut [Record], texts: &'a mut [u8]) -> Room<'a>
        ensures over { IsOver records.entry texts.entry result }
        ensures records { records_in result ≡ [] }
        ensures texts { texts_in result ≡ [] }
    {
        let limit = records.len();
        Room {
            records,
            texts,
            filled: 0,
            limit,
            used: 0,
        }
    }

    /// Returns the number of records that are filled.
    pub(crate) fn filled(&self) -> usize
        ensures { result ≡ self.now.filled }
    {
        self.filled
    }

    /// Returns the number of records that may be filled.
    pub(crate) fn limit(&self) -> usize
        ensures { result ≡ self.now.limit }
    {
        self.limit
    }

    /// Returns the number of bytes of `texts` that are filled, which is the offset of the next string.
    #[inline(always)]
    pub(crate) fn used(&self) -> usize
        ensures used { result ≡ self.now.used }
        ensures place { result ≡ length (texts_in self.now) }
    {
        self.used
    }

    /// Adds a record and its string. Returns false, with nothing changed, if there is no room for both.
    #[inline(always)]
    pub(crate) fn put(&mut self, next: Record, text: &[u8]) -> bool
        ensures same { SameBuffers self.old self.new }
        ensures put { OnTrue result (Adds next text.now self.old self.new) }
        ensures full { OnFalse result (IsUnchanged self.old self.new) }
        ensures lacks { OnFalse result (LacksRoom text.now self.new) }
    {
        if self.filled >= self.limit || text.len() > self.texts.len() - self.used {
            return false;
        }
        if !text.is_empty() {
            self.put_text(text);
        }
        self.records[self.filled] = next;
        self.filled += 1;
        true
    }

    /// Adds a string for which there is room.
    fn put_text(&mut self, text: &[u8])
        requires { self.old.used + length text.now ≤ length self.old.texts.now }
        ensures same { SameBuffers self.old self.new }
        ensures filled { self.new.filled ≡ self.old.filled }
        ensures limit { self.new.limit ≡ self.old.limit }
        ensures records { self.new.records.now ≡ self.old.records.now }
        ensures texts { texts_in self.new ≡ texts_in self.old ++ text.now }
    {
        let end = self.used + text.len();
        self.texts[self.used..end].copy_from_slice(text);
        self.used = end;
    }

    /// Lets no more records be filled.
    pub(crate) fn close(&mut self)
        ensures same { SameBuffers self.old self.new }
        ensures filled { IsAsFilled self.old self.new }
        ensures closed { self.new.limit ≡ self.new.filled }
    {
        self.limit = self.filled;
    }
}
