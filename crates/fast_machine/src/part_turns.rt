//! Decimals by parts of which no byte is read: an exponent or a mantissa that is not sent.

ghost use Rattle.std.specs.Prelude.{◌≡◌, ◌≢◌, ◌<◌, ℕ, [], Bool, Ok, drop, length, OnOk, Some, None};
ghost use Rattle.fast_value.specs.meaning.Kinds.{exponent_range};
ghost use Rattle.fast_value.specs.meaning.Values.{scalar_data};
ghost use Rattle.fast_value.specs.meaning.Limits.{Bounds, bounds};
ghost use Rattle.fast_tree.specs.meaning.Nodes.{field_data};
ghost use Rattle.fast_tree.specs.meaning.Tree.{FieldData};
ghost use Rattle.fast_dict.specs.meaning.Dictionary.{Dictionary};
ghost use Rattle.fast_dict.specs.meaning.Operators.{ranged};
ghost use Rattle.fast_dict.specs.meaning.Slots.{slots_dictionary, slots_terms};
ghost use Rattle.fast_cursor.specs.device.Cursors.{resting};
ghost use Rattle.fast_stream.specs.device.GrammarReaders.{reader_of};
ghost use Rattle.fast_stream.specs.device.Readers.{Reader};
ghost use Rattle.fast_stream.specs.meaning.Messages.{signed_of};
ghost use Rattle.fast_machine.specs.device.Moving.{Moves};
ghost use Rattle.fast_units.specs.device.Settling.{Serves, value_at};
ghost use Rattle.fast_units.specs.device.Deciding.{needs_bytes};
ghost use Rattle.fast_machine.specs.device.TurnsLeft.{Way, HasTurns, HasTurnsBehind};
ghost use Rattle.fast_machine.specs.device.Passing.{IsPast, exponent_then, decimal_then};
ghost use Rattle.fast_machine.specs.device.Positions.{Set, set_of, body_in, frames_in, mantissa_then, IsAtParts, CanTurn, IsTurn, turning, state_in, going_on};

use crate::machine::{Machine, Turn, Waiting};
use crate::settling::hand;
use fast_stream::{Event, FaultCode, Sink};
use fast_template::{FieldInstruction, Templates};
use fast_units::fields::{needs_bytes, unsent, value_at};
use fast_units::source::ValueSource;
use fast_value::{Code, Limits, Scalar};

/// Returns an exponent, if it lies in the range of exponents.
#[inline]
fn exponent_in_range(value: i128) -> Result<i32, Code>
    ensures { result ≡ ranged exponent_range Code.R1 value }
{
    if value < -63 || 63 < value {
        return Err(Code::R1);
    }
    Ok(value as i32)
}

/// Returns the signed number of a value, 0 if it has none.
#[inline]
fn signed_of(value: Scalar<'_>) -> i64
    ensures { result ≡ signed_of (scalar_data value.entry) }
{
    match value {
        Scalar::I(number) => number,
        Scalar::U(_)
        | Scalar::Dec { .. }
        | Scalar::Ascii(_)
        | Scalar::Unicode(_)
        | Scalar::Bytes(_) => 0,
    }
}

impl<'t> Machine<'t> {
    /// Begins a decimal by parts: the machine waits for its exponent, or nothing is sent of the exponent.
    #[inline(always)]
    pub fn begin_decimal<S: Sink>(
        &mut self,
        templates: &'t Templates,
        limits: Limits,
        node: u32,
        exponent: &FieldInstruction,
        mantissa: &FieldInstruction,
        sink: &mut S,
    ) -> Result<Turn, FaultCode>
        requires turn { CanTurn (set_of templates.now) limits self.old }
        requires next { IsAtParts (set_of templates.now) self.old.cursor node (field_data exponent.now)
            (field_data mantissa.now) }
        requires exponent { Serves (set_of templates.now).entries (slots_terms self.old.slots)
            (field_data exponent.now) }
        requires mantissa { Serves (set_of templates.now).entries (slots_terms self.old.slots)
            (field_data mantissa.now) }
        ensures turn { IsTurn S.takes S.stops (set_of templates.now) limits
            (turning (set_of templates.now) limits self.old) sink.old result sink.new self.new }
        ensures past { result ≡ Ok Turn.Silent → self.new.cursor.left ≡ drop 1 self.old.cursor.left }
        ensures turns { (way : Way) (n : ℕ) → HasTurns way (set_of templates.now) limits 1 n self.old
            → HasTurnsBehind result way (set_of templates.now) limits n self.new }
    {
        let bit = self.presence(exponent);
        if needs_bytes(exponent, bit) {
            self.wait_first(exponent);
            return Ok(Turn::Waits);
        }
        match unsent(&mut self.slots, exponent, bit) {
            Err(code) => Err(FaultCode::Stream(code)),
            Ok(source) => {
                self.exponent_known(templates, limits, node, exponent, mantissa, source, sink)
            }
        }
    }

    /// Goes on after the exponent of the next decimal by parts. Without an exponent there is no mantissa either.
    #[inline(always)]
    pub fn exponent_known<S: Sink>(
        &mut self,
        templates: &'t Templates,
        limits: Limits,
        node: u32,
        exponent: &FieldInstruction,
        mantissa: &FieldInstruction,
        source: ValueSource,
        sink: &mut S,
    ) -> Result<Turn, FaultCode>
        requires turn { CanTurn (set_of templates.now) limits self.old }
        requires next { IsAtParts (set_of templates.now) self.old.cursor node (field_data exponent.now)
            (field_data mantissa.now) }
        requires exponent { Serves (set_of templates.now).entries (slots_terms self.old.slots)
            (field_data exponent.now) }
        requires mantissa { Serves (set_of templates.now).entries (slots_terms self.old.slots)
            (field_data mantissa.now) }
        ensures turn { IsTurn S.takes S.stops (set_of templates.now) limits
            (reader_of limits.strict
            (exponent_then (set_of templates.now) (bounds limits) node
            (value_at source (field_data exponent.now) (slots_dictionary self.old.slots) self.old.text.text [])
            (field_data exponent.now) (field_data mantissa.now) (slots_dictionary self.old.slots) self.old.counted
            self.old.cursor))
            sink.old result sink.new self.new }
        ensures past { result ≡ Ok Turn.Silent → self.new.cursor.left ≡ drop 1 self.old.cursor.left }
        ensures turns { (way : Way) (n : ℕ) → HasTurns way (set_of templates.now) limits 1 n self.old
            → HasTurnsBehind result way (set_of templates.now) limits n self.new }
    {
        let value = self.integer_at(exponent, source);
        self.use_bit_of(exponent);
        match value {
            None => {
                self.cursor.advance();
                Ok(Turn::Silent)
            }
            Some(value) => match exponent_in_range(value) {
                Err(code) => Err(FaultCode::Stream(code)),
                Ok(value) => self.begin_mantissa(templates, limits, node, mantissa, value, sink),
            },
        }
    }

    /// Goes on after the exponent of the next decimal by parts, which is present: the machine waits for the mantissa, or nothing is sent of
    /// it.
    #[inline(always)]
    fn begin_mantissa<S: Sink>(
        &mut self,
        templates: &'t Templates,
        limits: Limits,
        node: u32,
        mantissa: &FieldInstruction,
        exponent: i32,
        sink: &mut S,
    ) -> Result<Turn, FaultCode>
        requires turn { CanTurn (set_of templates.now) limits self.old }
        requires next { (e : FieldData)
            × IsAtParts (set_of templates.now) self.old.cursor node e (field_data mantissa.now) }
        requires mantissa { Serves (set_of templates.now).entries (slots_terms self.old.slots)
            (field_data mantissa.now) }
        ensures turn { IsTurn S.takes S.stops (set_of templates.now) limits
            (reader_of limits.strict
            (mantissa_then (bounds limits) (frames_in (set_of templates.now) self.old.cursor.frames)
            (body_in (set_of templates.now) self.old.cursor.left)
            (state_in (slots_dictionary self.old.slots) self.old.counted self.old.cursor) exponent))
            sink.old result sink.new self.new }
        ensures past { result ≡ Ok Turn.Silent → self.new.cursor.left ≡ drop 1 self.old.cursor.left }
        ensures turns { (way : Way) (n : ℕ) → HasTurns way (set_of templates.now) limits 1 n self.old
            → HasTurnsBehind result way (set_of templates.now) limits n self.new }
    {
        let bit = self.presence(mantissa);
        if needs_bytes(mantissa, bit) {
            self.carry.begin(mantissa);
            self.waiting = Waiting::Mantissa(exponent);
            return Ok(Turn::Waits);
        }
        match unsent(&mut self.slots, mantissa, bit) {
            Err(code) => Err(FaultCode::Stream(code)),
            Ok(source) => self.finish_decimal(node, mantissa, exponent, source, sink),
        }
    }

    /// Moves past the next decimal by parts, whose mantissa is known, and emits the decimal.
    #[inline(always)]
    pub fn finish_decimal<S: Sink>(
        &mut self,
        node: u32,
        mantissa: &FieldInstruction,
        exponent: i32,
        source: ValueSource,
        sink: &mut S,
    ) -> Result<Turn, FaultCode>
        requires left { 0 < length self.old.cursor.left }
        requires entry { (e : ℕ) → (field_data mantissa.now).entry ≡ Some e
            → e < length (slots_dictionary self.old.slots) }
        ensures moves { (set : Set) (l : Bounds) (strict : Bool) (waits : Reader Dictionary) → Moves S.takes S.stops
            (reader_of strict (decimal_then set l node exponent
            (value_at source (field_data mantissa.now) (slots_dictionary self.old.slots) self.old.text.text [])
            (field_data mantissa.now) (slots_dictionary self.old.slots) self.old.counted self.old.cursor))
            sink.old result sink.new
            (reader_of strict (going_on set l (slots_dictionary self.new.slots) self.new.counted self.new.cursor))
            waits }
        ensures past { OnOk result (IsPast self.old.cursor self.new.cursor) }
        ensures same { self.new ≡ record self.old { cursor = self.new.cursor } }
        ensures rests { resting self.new.cursor ≡ resting self.old.cursor }
        ensures on { result ≢ Ok Turn.Waits }
    {
        let value = match self.value_of(mantissa, source) {
            Some(value) => Some(signed_of(value)),
            None => None,
        };
        let turn = match value {
            Some(mantissa) => {
                let value = Scalar::Dec { exponent, mantissa };
                hand(sink, Event::Field { node, value })?;
                Turn::Handed
            }
            None => Turn::Silent,
        };
        if mantissa.uses_bit() {
            self.cursor.use_bit();
        }
        self.cursor.advance();
        Ok(turn)
    }
}
