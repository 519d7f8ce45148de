//! Emits the value of a field that is decided, if it has one.

ghost use Rattle.std.specs.Prelude.{◌≡◌, ◌≢◌, ◌<◌, ◌≤◌, ℕ, [], Bool, Ok, drop, length, take, OnOk, MatchResult, Some, None, option_map, if◌then◌else◌};
ghost use Rattle.fast_wire.specs.meaning.Maps.{later_bits};
ghost use Rattle.fast_value.specs.meaning.Kinds.{integer_of};
ghost use Rattle.fast_value.specs.meaning.Values.{scalar_data};
ghost use Rattle.fast_value.specs.meaning.Limits.{Bounds};
ghost use Rattle.fast_tree.specs.meaning.Nodes.{field_data};
ghost use Rattle.fast_tree.specs.meaning.Tree.{FieldData, uses_bit};
ghost use Rattle.fast_dict.specs.meaning.Dictionary.{Dictionary};
ghost use Rattle.fast_dict.specs.meaning.Slots.{slots_dictionary};
ghost use Rattle.fast_cursor.specs.device.Cursors.{resting, bits_left};
ghost use Rattle.fast_stream.specs.meaning.Events.{MessageEnd};
ghost use Rattle.fast_stream.specs.meaning.Handed.{event_data};
ghost use Rattle.fast_stream.specs.device.GrammarReaders.{reader_of};
ghost use Rattle.fast_stream.specs.device.Readers.{Reader};
ghost use Rattle.fast_fields.specs.device.Carries.{at_hand};
ghost use Rattle.fast_machine.specs.device.Moving.{Moves};
ghost use Rattle.fast_units.specs.device.Settling.{value_at};
ghost use Rattle.fast_machine.specs.device.Passing.{IsPast, value_then};
ghost use Rattle.fast_machine.specs.device.Positions.{Set, IsMapWhole, bit_of, state_in, going_on};

use crate::machine::{Machine, Turn};
use fast_cursor::cursor::Cursor;
use fast_dict::operators::integers::integer_of;
use fast_fields::reading::WholeField;
use fast_stream::{Event, FaultCode, Sink};
use fast_template::FieldInstruction;
use fast_units::fields::value_at;
use fast_units::source::ValueSource;
use fast_value::Scalar;

/// Emits an event.
#[inline(always)]
pub fn hand<S: Sink>(sink: &mut S, event: Event<'_>) -> Result<(), FaultCode>
    ensures { MatchResult result (λ _. S.takes sink.old (event_data event.entry) sink.new)
        (λ code. (code ≡ FaultCode.SinkStopped) × S.stops sink.old (event_data event.entry) sink.new) }
{
    match sink.take(event) {
        Ok(()) => Ok(()),
        Err(_) => Err(FaultCode::SinkStopped),
    }
}

/// Emits the end of a message, after which `left` bytes of the piece follow.
#[inline(always)]
pub fn hand_end<S: Sink>(sink: &mut S, left: usize) -> Result<(), FaultCode>
    ensures { MatchResult result (λ _. S.takes sink.old MessageEnd sink.new)
        (λ code. (code ≡ FaultCode.SinkStopped) × S.stops sink.old MessageEnd sink.new) }
{
    match sink.end_message(left) {
        Ok(()) => Ok(()),
        Err(_) => Err(FaultCode::SinkStopped),
    }
}

/// Emits the value of the next instruction, a field, if it has one, and moves past it. Of the field only the use of a presence bit has to
/// be known.
#[inline(always)]
fn emit_value<S: Sink>(
    cursor: &mut Cursor<'_>,
    node: u32,
    has_bit: bool,
    value: Option<Scalar<'_>>,
    sink: &mut S,
) -> Result<Turn, FaultCode>
    requires left { 0 < length cursor.old.left }
    ensures moves { (set : Set) (l : Bounds) (strict : Bool) (waits : Reader Dictionary) (f : FieldData) (d : Dictionary)
        (counted : ℕ) → has_bit ≡ uses_bit f → Moves S.takes S.stops
        (reader_of strict (value_then set l node (option_map scalar_data value.entry) f d counted cursor.old))
        sink.old result sink.new (reader_of strict (going_on set l d counted cursor.new)) waits }
    ensures past { OnOk result (IsPast cursor.old cursor.new) }
    ensures rests { resting cursor.new ≡ resting cursor.old }
    ensures on { result ≢ Ok Turn.Waits }
{
    let turn = match value {
        Some(value) => {
            hand(sink, Event::Field { node, value })?;
            Turn::Handed
        }
        None => Turn::Silent,
    };
    if has_bit {
        cursor.use_bit();
    }
    cursor.advance();
    Ok(turn)
}

impl<'t> Machine<'t> {
    /// Returns the presence bit of a field: set, if it uses none.
    #[inline(always)]
    pub fn presence(&self, field: &FieldInstruction) -> bool
        requires { IsMapWhole self.now.cursor.map }
        ensures { (d : Dictionary) (n : ℕ) → result ≡ bit_of (field_data field.now) (state_in d n self.now.cursor) }
    {
        !field.uses_bit() || self.cursor.bit()
    }

    /// Moves past the next instruction, a field that is decided, and emits its value, if it has one.
    #[inline(always)]
    pub fn finish<S: Sink>(
        &mut self,
        node: u32,
        field: &FieldInstruction,
        source: ValueSource,
        piece: &[u8],
        sink: &mut S,
    ) -> Result<Turn, FaultCode>
        requires left { 0 < length self.old.cursor.left }
        requires entry { (e : ℕ) → (field_data field.now).entry ≡ Some e
            → e < length (slots_dictionary self.old.slots) }
        ensures moves { (set : Set) (l : Bounds) (strict : Bool) (waits : Reader Dictionary) → Moves S.takes S.stops
            (reader_of strict (value_then set l node
            (value_at source (field_data field.now) (slots_dictionary self.old.slots) self.old.text.text piece.now)
            (field_data field.now) (slots_dictionary self.old.slots) self.old.counted self.old.cursor))
            sink.old result sink.new
            (reader_of strict (going_on set l (slots_dictionary self.new.slots) self.new.counted self.new.cursor))
            waits }
        ensures past { OnOk result (IsPast self.old.cursor self.new.cursor) }
        ensures same { self.new ≡ record self.old { cursor = self.new.cursor } }
        ensures rests { resting self.new.cursor ≡ resting self.old.cursor }
        ensures on { result ≢ Ok Turn.Waits }
    {
        let value = value_at(&self.slots, field, self.text.as_slice(), piece, source);
        emit_value(&mut self.cursor, node, field.uses_bit(), value, sink)
    }

    /// Moves past the next instruction as [`Machine::finish`] does, after its bytes have been read. They are at hand, and its value may be
    /// among them.
    #[inline(always)]
    pub fn finish_read<S: Sink>(
        &mut self,
        node: u32,
        field: &FieldInstruction,
        found: WholeField,
        rest: &[u8],
        sink: &mut S,
    ) -> Result<Turn, FaultCode>
        requires left { 0 < length self.old.cursor.left }
        requires entry { (e : ℕ) → (field_data field.now).entry ≡ Some e
            → e < length (slots_dictionary self.old.slots) }
        requires from { found.from ≤ found.bytes }
        requires within { found.bytes ≤ length (at_hand self.old.carry.bytes.text rest.now) }
        ensures moves { (set : Set) (l : Bounds) (strict : Bool) (waits : Reader Dictionary) → Moves S.takes S.stops
            (reader_of strict (value_then set l node
            (value_at found.source (field_data field.now) (slots_dictionary self.old.slots) self.old.text.text
            (drop found.from (take found.bytes (at_hand self.old.carry.bytes.text rest.now))))
            (field_data field.now) (slots_dictionary self.old.slots) self.old.counted self.old.cursor))
            sink.old result sink.new
            (reader_of strict (going_on set l (slots_dictionary self.new.slots) self.new.counted self.new.cursor))
            waits }
        ensures past { OnOk result (IsPast self.old.cursor self.new.cursor) }
        ensures same { self.new ≡ record self.old { cursor = self.new.cursor } }
        ensures rests { resting self.new.cursor ≡ resting self.old.cursor }
        ensures on { result ≢ Ok Turn.Waits }
    {
        let piece = &self.carry.at_hand(rest)[found.from..found.bytes];
        let text = self.text.as_slice();
        let value = value_at(&self.slots, field, text, piece, found.source);
        emit_value(&mut self.cursor, node, field.uses_bit(), value, sink)
    }

    /// Borrows the value of a field.
    #[inline(always)]
    pub fn value_of<'x>(
        &'x self,
        field: &'x FieldInstruction,
        source: ValueSource,
    ) -> Option<Scalar<'x>>
        requires entry { (e : ℕ) → (field_data field.now).entry ≡ Some e
            → e < length (slots_dictionary self.now.slots) }
        ensures { option_map scalar_data result
            ≡ value_at source (field_data field.now) (slots_dictionary self.now.slots) self.now.text.text [] }
    {
        value_at(&self.slots, field, self.text.as_slice(), &[], source)
    }

    /// Returns the integer that is a field's value, if it has one.
    #[inline(always)]
    pub fn integer_at(&self, field: &FieldInstruction, source: ValueSource) -> Option<i128>
        requires entry { (e : ℕ) → (field_data field.now).entry ≡ Some e
            → e < length (slots_dictionary self.now.slots) }
        ensures { result ≡ option_map integer_of
            (value_at source (field_data field.now) (slots_dictionary self.now.slots) self.now.text.text []) }
    {
        match self.value_of(field, source) {
            Some(value) => Some(integer_of(value)),
            None => None,
        }
    }

    /// Uses the bit of a field, if it uses one.
    #[inline]
    pub fn use_bit_of(&mut self, field: &FieldInstruction)
        ensures bits { bits_left self.new.cursor
            ≡ if uses_bit (field_data field.now) then later_bits (bits_left self.old.cursor)
            else bits_left self.old.cursor }
        ensures same { self.new ≡ record self.old {
          cursor = record self.old.cursor {
            used = self.new.cursor.used;
            ends = self.new.cursor.ends;
          };
        } }
    {
        if field.uses_bit() {
            self.cursor.use_bit();
        }
    }
}
