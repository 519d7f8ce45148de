//! A sink that writes records into the caller's buffers.

ghost use Rattle.std.specs.Prelude.{◌+◌, ◌*◌, ◌<◌, ◌≤◌, length};

use crate::lent::event_with;
use crate::records::{
    ASCII, BYTES, DECIMAL, ELEMENT_END, ELEMENT_START, GROUP_END, GROUP_START, MESSAGE_END,
    MESSAGE_START, Record, SEQUENCE_END, SEQUENCE_START, SIGNED, UNICODE, UNSIGNED, content,
    text_record,
};
use crate::starting::started;
use crate::waiting::Waiting;
use fast_decoder::{Event, Sink, Stop};
use fast_value::Scalar;

/// A sink that writes records into the caller's buffers, and keeps those that have no room for the next call. It stops only if an
/// allocation for these fails.
#[derive(Drop)]
pub(crate) struct RecordSink<'a> {
    records: &'a mut [Record],
    texts: &'a mut [u8],
    waiting: &'a mut Waiting,
    /// The number of records that are filled.
    filled: usize,
    /// The number of records that may be filled: all, until an event had no room. No later event may overtake it.
    limit: usize,
    /// The number of bytes of `texts` that are filled.
    used: usize,
    /// The number of bytes of the stream up to the end of those that are fed.
    until: u64,
    ghost filled_within: { filled ≤ limit },
    ghost limit_within: { limit ≤ length records.now },
    ghost used_within: { used ≤ length texts.now },
}

/// Returns how many of `len` bytes are fed at once: at most half as many as there are free records, rounded up.
pub(crate) fn fed_at_once(len: usize, free: usize) -> usize
    ensures within { result ≤ len }
    ensures half { 2 * result ≤ free + 1 }
    ensures all { result < len → free ≤ 2 * result }
{
    len.min(free - free / 2)
}

impl<'a> RecordSink<'a> {
    ghost use Rattle.std.specs.Prelude.{◌≡◌, ℕ, nat_lt, ◌+◌, ◌-◌, ◌<◌, ◌≤◌, [], ◌++◌, length, take, OnOk, OnErr};
    ghost use Rattle.fast_stream.specs.meaning.Events.{EventData};
    ghost use Rattle.fast_records.specs.meaning.Records.{event_text};
    ghost use Rattle.fast_records.specs.device.Lent.{IsMark, IsTextOf, event_back, content};
    ghost use Rattle.std.specs.Bool.{OnTrue, OnFalse};
    ghost use Rattle.fast_stream.specs.meaning.Handed.{event_data};
    ghost use Rattle.fast_records.specs.meaning.Waiting.{pending};
    ghost use Rattle.fast_records.specs.device.Room.{Adds, IsUnchanged, LacksRoom};
    ghost use Rattle.fast_records.specs.meaning.Sink.{room_of, Shows, IsSameSink, TakesRecord, RefusesRecord};

    /// Makes a sink over empty buffers, and first moves the events that wait into them, as far as they have room. The sink is for the bytes
    /// that are fed at once of `len`, after `consumed` bytes of the stream.
    #[inline(always)]
    pub(crate) fn new(
        records: &'a mut [Record],
        texts: &'a mut [u8],
        waiting: &'a mut Waiting,
        consumed: u64,
        len: usize,
    ) -> RecordSink<'a>
        ensures records { result.records.ghost_name ≡ records.entry.ghost_name }
        ensures texts { result.texts.ghost_name ≡ texts.entry.ghost_name }
        ensures waiting { result.waiting.ghost_name ≡ waiting.entry.ghost_name }
        ensures shows { Shows result (pending waiting.old) }
    {
        let start = started(&mut *records, &mut *texts, &mut *waiting);
        let free = start.limit - start.records;
        RecordSink {
            records,
            texts,
            waiting,
            filled: start.records,
            limit: start.limit,
            used: start.texts,
            until: consumed.wrapping_add(fed_at_once(len, free) as u64),
        }
    }

    /// Adds a record without a string. Returns false, with nothing changed, if there is no room for it.
    #[inline(always)]
    fn put(&mut self, next: Record) -> bool
        ensures same { IsSameSink self.old self.new }
        ensures waiting { self.new.waiting.now ≡ self.old.waiting.now }
        ensures texts { self.new.texts.now ≡ self.old.texts.now }
        ensures used { self.new.used ≡ self.old.used }
        ensures put { OnTrue result (Adds next [] (room_of self.old) (room_of self.new)) }
        ensures full { OnFalse result (IsUnchanged (room_of self.old) (room_of self.new)) }
        ensures lacks { OnFalse result (LacksRoom [] (room_of self.new)) }
    {
        if self.filled >= self.limit {
            return false;
        }
        self.records[self.filled] = next;
        self.filled += 1;
        true
    }

    /// Adds a record and its string. Returns false, with nothing changed, if there is no room for both.
    #[inline(always)]
    fn put_both(&mut self, next: Record, text: &[u8]) -> bool
        ensures same { IsSameSink self.old self.new }
        ensures waiting { self.new.waiting.now ≡ self.old.waiting.now }
        ensures put { OnTrue result (Adds next text.now (room_of self.old) (room_of self.new)) }
        ensures full { OnFalse result (IsUnchanged (room_of self.old) (room_of self.new)) }
        ensures lacks { OnFalse result (LacksRoom text.now (room_of self.new)) }
    {
        if text.len() > self.texts.len() - self.used || !self.put(next) {
            return false;
        }
        self.put_text(text);
        true
    }

    /// Adds a string for which there is room. One of a single character is stored directly, since a call that copies is slower.
    fn put_text(&mut self, text: &[u8])
        requires { self.old.used + length text.now ≤ length self.old.texts.now }
        ensures same { IsSameSink self.old self.new }
        ensures filled { self.new.filled ≡ self.old.filled }
        ensures limit { self.new.limit ≡ self.old.limit }
        ensures waiting { self.new.waiting.now ≡ self.old.waiting.now }
        ensures records { self.new.records.now ≡ self.old.records.now }
        ensures texts { take self.new.used self.new.texts.now ≡ take self.old.used self.old.texts.now ++ text.now }
    {
        let start = self.used;
        self.used = start + text.len();
        if let [byte] = text {
            self.texts[start] = *byte;
        } else {
            self.texts[start..self.used].copy_from_slice(text);
        }
    }

    /// Returns the number of records that may still be written.
    pub(crate) fn left(&self) -> usize
        ensures { result ≡ self.now.limit - self.now.filled }
    {
        self.limit - self.filled
    }

    /// Returns the number of records that were written.
    pub(crate) fn filled(&self) -> usize
        ensures { result ≡ self.now.filled }
    {
        self.filled
    }

    /// Returns the number of bytes of `texts` that were written, which is the offset of the next string.
    #[inline(always)]
    pub(crate) fn used(&self) -> usize
        ensures used { result ≡ self.now.used }
        ensures place { result ≡ length (take self.now.used self.now.texts.now) }
    {
        self.used
    }

    /// Returns whether an event waits.
    pub(crate) fn waits(&self) -> bool
        ensures { result ≡ nat_lt 0 (length (pending self.now.waiting.now)) }
    {
        !self.waiting.is_empty()
    }

    /// Adds the record of an event without a string, from its four numbers. Nothing else of the event is needed if it has room, so that the
    /// arms of the decoder's loop, into which this is inlined, stay small.
    #[inline(always)]
    fn keep(&mut self, kind: u32, node: u32, value: u64, exponent: i32) -> Result<(), Stop>
        ensures ok { (e : EventData) → IsMark (content kind node value exponent) e → OnOk result (TakesRecord self.old e self.new) }
        ensures err { (e : EventData) → IsMark (content kind node value exponent) e
            → OnErr result (RefusesRecord self.old e self.new) }
    {
        let next = content(kind, node, value, exponent);
        if self.put(next) {
            return Ok(());
        }
        self.keep_back(kind, node, value, exponent)
    }

    /// Adds a field with a string. Not inlined, since the code for other events needs far fewer registers; marked as cold so that the
    /// registers of the decoder's loop are allocated for these.
    #[cold]
    #[inline(never)]
    fn keep_text(&mut self, kind: u32, node: u32, text: &[u8]) -> Result<(), Stop>
        ensures ok { (e : EventData) → IsTextOf kind node text.now e → OnOk result (TakesRecord self.old e self.new) }
        ensures err { (e : EventData) → IsTextOf kind node text.now e → OnErr result (RefusesRecord self.old e self.new) }
    {
        let next = text_record(kind, node, self.used() as u64, text);
        if self.put_both(next, text) {
            return Ok(());
        }
        self.wait_for_room(content(kind, node, 0, 0), text)
    }

    /// Keeps an event without a string that has no room. It is passed as numbers, so that the arms of the decoder's loop build no record in
    /// memory.
    #[cold]
    #[inline(never)]
    fn keep_back(&mut self, kind: u32, node: u32, value: u64, exponent: i32) -> Result<(), Stop>
        requires lacks { LacksRoom [] (room_of self.old) }
        ensures ok { OnOk result (TakesRecord self.old (event_back (content kind node value exponent) []) self.new) }
        ensures err { OnErr result (RefusesRecord self.old (event_back (content kind node value exponent) []) self.new) }
    {
        self.wait_for_room(content(kind, node, value, exponent), &[])
    }

    /// Keeps the event of a record and a string that have no room.
    #[cold]
    #[inline(never)]
    fn wait_for_room(&mut self, next: Record, text: &[u8]) -> Result<(), Stop>
        requires lacks { LacksRoom text.now (room_of self.old) }
        ensures ok { OnOk result (TakesRecord self.old (event_back next text.now) self.new) }
        ensures err { OnErr result (RefusesRecord self.old (event_back next text.now) self.new) }
    {
        match event_with(next, text) {
            Some(event) => self.wait(event, next.value),
            None => Err(Stop),
        }
    }

    /// Keeps an event that has no room, with the value of its record if it is the end of a message, and lets no later one overtake it.
    #[inline(never)]
    fn wait(&mut self, event: Event<'_>, value: u64) -> Result<(), Stop>
        requires lacks { LacksRoom (event_text (event_data event)) (room_of self.old) }
        ensures ok { OnOk result (TakesRecord self.old (event_data event.entry) self.new) }
        ensures err { OnErr result (RefusesRecord self.old (event_data event.entry) self.new) }
    {
        match self.waiting.add(event, value) {
            Ok(()) => {
                self.limit = self.filled;
                Ok(())
            }
            Err(Stop) => Err(Stop),
        }
    }
}

impl Sink for RecordSink<'_> {
    ghost use Rattle.fast_records.specs.meaning.Sink.{TakesRecord, RefusesRecord};

    ghost takes = { TakesRecord };

    ghost stops = { RefusesRecord };

    #[inline(always)]
    fn take(&mut self, event: Event<'_>) -> Result<(), Stop> {
        let (kind, node, value, exponent) = match event {
            Event::Field { node, value } => match value {
                Scalar::U(number) => (UNSIGNED, node, number, 0),
                Scalar::I(number) => (SIGNED, node, number.cast_unsigned(), 0),
                Scalar::Dec { exponent, mantissa } => {
                    (DECIMAL, node, mantissa.cast_unsigned(), exponent)
                }
                Scalar::Ascii(text) => return self.keep_text(ASCII, node, text),
                Scalar::Unicode(text) => return self.keep_text(UNICODE, node, text),
                Scalar::Bytes(text) => return self.keep_text(BYTES, node, text),
            },
            Event::MessageStart { template } => (MESSAGE_START, template, 0, 0),
            Event::GroupStart { node } => (GROUP_START, node, 0, 0),
            Event::GroupEnd => (GROUP_END, 0, 0, 0),
            Event::SequenceStart { node, count } => (SEQUENCE_START, node, u64::from(count), 0),
            Event::ElementStart => (ELEMENT_START, 0, 0, 0),
            Event::ElementEnd => (ELEMENT_END, 0, 0, 0),
            Event::SequenceEnd => (SEQUENCE_END, 0, 0, 0),
            Event::MessageEnd => (MESSAGE_END, 0, 0, 0),
        };
        self.keep(kind, node, value, exponent)
    }

    #[inline(always)]
    fn end_message(&mut self, left: usize) -> Result<(), Stop> {
        self.keep(MESSAGE_END, 0, self.until.wrapping_sub(left as u64), 0)
    }

    #[inline(always)]
    fn turn_message(&mut self, left: usize, template: u32) -> bool {
        let at = self.filled;
        if at + 1 >= self.limit {
            return false;
        }
        let end = self.until.wrapping_sub(left as u64);
        let records = &mut *self.records;
        records[at] = content(MESSAGE_END, 0, end, 0);
        records[at + 1] = content(MESSAGE_START, template, 0, 0);
        self.filled += 2;
        true
    }
}
