//! The position of the machine's loop, apart from the machine, so that the compiler keeps it in registers.

ghost use Rattle.std.specs.Prelude.{◌≡◌, ◌≢◌, ◌⊎◌, ◌<◌, ◌≤◌, ℕ, Bool, true, false, length, drop, OnOk, Ok, IfErr, option_map};
ghost use Rattle.fast_value.specs.meaning.Limits.{Bounds};
ghost use Rattle.fast_value.specs.meaning.Values.{scalar_data};
ghost use Rattle.fast_tree.specs.meaning.Tree.{FieldData, uses_bit};
ghost use Rattle.fast_dict.specs.meaning.Dictionary.{Dictionary};
ghost use Rattle.fast_cursor.specs.device.Cursors.{CursorData, bits_left};
ghost use Rattle.fast_wire.specs.meaning.Maps.{first_bit};
ghost use Rattle.fast_cursor.specs.device.Places.{place_left, at_place, IsPlaceOf, HasBits};
ghost use Rattle.fast_stream.specs.device.GrammarReaders.{reader_of};
ghost use Rattle.fast_stream.specs.device.Readers.{Reader};
ghost use Rattle.fast_stream.specs.declared.faults.FaultCode.{FaultCode};
ghost use Rattle.fast_machine.specs.device.Moving.{Moves};
ghost use Rattle.fast_machine.specs.device.Passing.{IsPast, value_then};
ghost use Rattle.fast_machine.specs.device.Positions.{Set, going_on};
ghost use Rattle.fast_machine.specs.declared.machine.Turn.{Turn};
ghost use Rattle.fast_machine.specs.declared.machine.Machine.{Machine};
ghost use Rattle.fast_value.specs.declared.settings.Limits.{Limits};
ghost use Rattle.fast_loop.specs.device.Arms.{HasWent, IsFieldTaken, IsFieldUnsent};

use fast_cursor::cursor::Cursor;
use fast_cursor::place::Place;
use fast_fronts::Rest;
use fast_machine::machine::Turn;
use fast_machine::settling::hand;
use fast_machine::turns::Turns;
use fast_stream::{Event, FaultCode, Sink};
use fast_value::Scalar;

/// The position in the message, and the rest of the piece.
#[derive(Clone, Copy)]
pub struct Spot<'t, 'p> {
    /// The position in the innermost segment.
    pub place: Place<'t>,
    /// The bytes that are left of the piece.
    pub rest: Rest<'p>,
}

impl<'t, 'p> Spot<'t, 'p> {
    /// Moves to the position of the cursor, and past this number of bytes.
    #[inline(always)]
    pub fn stand(&mut self, cursor: &Cursor<'t>, bytes: usize)
        requires within { bytes ≤ length self.old.rest.bytes.now }
        ensures at { at_place cursor.now self.new.place ≡ cursor.now }
        ensures place { IsPlaceOf cursor.now self.new.place }
        ensures rest { self.new.rest.bytes.now ≡ drop bytes self.old.rest.bytes.now }
    {
        self.place = cursor.place();
        self.rest = self.rest.skip(bytes);
    }
}

/// The result of an arm of the loop for the next instruction, or for the end of the innermost segment.
#[derive(Clone, Copy, Debug, PartialEq, Eq)]
pub enum Went {
    /// It read bytes.
    Took,
    /// It read no byte, and emitted an event.
    Handed,
    /// It read no byte, and emitted nothing: the instruction is absent.
    Silent,
    /// It did nothing: the step is left to the general path.
    Declined,
    /// The sink stopped.
    Stopped,
    /// The machine waits for a byte.
    Waits,
}

/// The result of a step of the loop, by an arm or on the general path.
#[derive(Clone, Copy, Debug, PartialEq, Eq)]
pub enum Gone {
    /// It read bytes.
    Took,
    /// It read no byte, and emitted an event.
    Handed,
    /// It read no byte, and emitted nothing.
    Silent,
    /// The machine waits for a byte, or has stopped at a fault.
    Ended(Result<(), FaultCode>),
}

/// The presence in the stream of the next instruction, which uses a presence bit or none.
#[derive(Clone, Copy, Debug, PartialEq, Eq)]
pub enum Standing {
    /// Its bit is set, or it uses none.
    Sent,
    /// Its bit is clear.
    Unsent,
    /// No bit is left in the word: the general path has to use the next one.
    Spent,
}

/// Returns whether the next instruction, which uses a presence bit or none, is in the stream.
#[inline(always)]
pub fn stands(place: &Place<'_>, has_bit: bool) -> Standing
    ensures sent { result ≡ Standing.Sent → (c : CursorData) → IsPlaceOf c place.now
        → (has_bit ≡ false) ⊎ (first_bit (bits_left (at_place c place.now)) ≡ true) }
    ensures unsent { result ≡ Standing.Unsent → (has_bit ≡ true) × ((c : CursorData) → IsPlaceOf c place.now
        → first_bit (bits_left (at_place c place.now)) ≡ false) }
    ensures more { result ≢ Standing.Spent → has_bit ≡ true → HasBits place.now }
{
    if !has_bit {
        return Standing::Sent;
    }
    if !place.bit() {
        return Standing::Unsent;
    }
    if place.is_spent() {
        return Standing::Spent;
    }
    Standing::Sent
}

/// Moves past the next instruction, a field whose value is known, or absent, and emits the value.
#[inline(always)]
pub fn pass_value<S: Sink>(
    place: &mut Place<'_>,
    node: u32,
    has_bit: bool,
    value: Option<Scalar<'_>>,
    sink: &mut S,
) -> Result<Turn, FaultCode>
    requires left { 0 < length (place_left place.old) }
    requires bit { has_bit ≡ true → HasBits place.old }
    ensures moves { (set : Set) (l : Bounds) (strict : Bool) (waits : Reader Dictionary) (d : Dictionary) (counted : ℕ)
        (c : CursorData) (f : FieldData) → IsPlaceOf c place.old → has_bit ≡ uses_bit f → Moves S.takes S.stops
        (reader_of strict (value_then set l node (option_map scalar_data value.entry) f d counted
        (at_place c place.old)))
        sink.old result sink.new (reader_of strict (going_on set l d counted (at_place c place.new))) waits }
    ensures past { (c : CursorData) → OnOk result (IsPast (at_place c place.old) (at_place c place.new)) }
    ensures place { (c : CursorData) → IsPlaceOf c place.old → IsPlaceOf c place.new }
    ensures on { result ≢ Ok Turn.Waits }
    ensures stopped { IfErr result (λ code. code ≡ FaultCode.SinkStopped) }
{
    match value {
        Some(value) => {
            hand(sink, Event::Field { node, value })?;
            place.pass(has_bit);
            Ok(Turn::Handed)
        }
        None => {
            place.pass(has_bit);
            Ok(Turn::Silent)
        }
    }
}

/// Moves past a field that was in the piece completely, and emits its value, if it has one. The spot is after it then.
#[inline(always)]
pub fn hand_taken<S: Sink>(
    turns: &mut Turns,
    spot: &mut Spot<'_, '_>,
    node: u16,
    has_bit: bool,
    value: Option<Scalar<'_>>,
    bytes: usize,
    sink: &mut S,
) -> Went
    requires left { 0 < length (place_left spot.old.place) }
    requires bit { has_bit ≡ true → HasBits spot.old.place }
    requires within { bytes ≤ length spot.old.rest.bytes.now }
    ensures went { (set : Set) (l : Limits) (m m1 : Machine) (f : FieldData) → has_bit ≡ uses_bit f
        → turns.old ≡ m.turns → IsFieldTaken set l m m1 spot.old node f (option_map scalar_data value.entry) bytes
        → HasWent S.takes S.stops set l m spot.old sink.old result sink.new (record m1 { turns = turns.new })
        spot.new }
{
    *turns = Turns::after(turns);
    spot.rest = spot.rest.skip(bytes);
    let node = u32::from(node);
    match value {
        Some(value) => {
            if let Err(_) = hand(sink, Event::Field { node, value }) {
                return Went::Stopped;
            }
            spot.place.pass(has_bit);
            Went::Took
        }
        None => {
            spot.place.pass(has_bit);
            Went::Took
        }
    }
}

/// Moves past a field of which nothing is sent, and emits its value, if it has one. The spot is after it then.
#[inline(always)]
pub fn hand_unsent<S: Sink>(
    turns: &mut Turns,
    spot: &mut Spot<'_, '_>,
    node: u16,
    has_bit: bool,
    value: Option<Scalar<'_>>,
    sink: &mut S,
) -> Went
    requires left { 0 < length (place_left spot.old.place) }
    requires bit { has_bit ≡ true → HasBits spot.old.place }
    ensures went { (set : Set) (l : Limits) (m m1 : Machine) (f : FieldData) (bit : Bool) → has_bit ≡ uses_bit f
        → turns.old ≡ m.turns
        → IsFieldUnsent set l m m1 spot.old.place node f bit (option_map scalar_data value.entry)
        → HasWent S.takes S.stops set l m spot.old sink.old result sink.new (record m1 { turns = turns.new })
        spot.new }
{
    *turns = Turns::after(turns);
    let node = u32::from(node);
    match value {
        Some(value) => {
            if let Err(_) = hand(sink, Event::Field { node, value }) {
                return Went::Stopped;
            }
            spot.place.pass(has_bit);
            Went::Handed
        }
        None => {
            spot.place.pass(has_bit);
            Went::Silent
        }
    }
}
