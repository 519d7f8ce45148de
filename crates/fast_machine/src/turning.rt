//! The turns of a machine, which read no byte: fields that are not sent, starts and ends of segments.

ghost use Rattle.std.specs.Prelude.{◌≡◌, ◌≢◌, ◌<◌, ℕ, [], Ok, drop, length, Some, true};
ghost use Rattle.fast_tree.specs.meaning.Nodes.{field_data};
ghost use Rattle.fast_tree.specs.meaning.Numbers.{AreBelow};
ghost use Rattle.fast_value.specs.meaning.Limits.{bounds};
ghost use Rattle.fast_dict.specs.meaning.Dictionary.{PreviousData};
ghost use Rattle.fast_dict.specs.meaning.Slots.{slots_terms};
ghost use Rattle.fast_stream.specs.meaning.Fields.{field_term};
ghost use Rattle.fast_stream.specs.device.GrammarReaders.{reader_of};
ghost use Rattle.fast_cursor.specs.device.Runs.{IsRun};
ghost use Rattle.fast_units.specs.device.Settling.{Serves};
ghost use Rattle.fast_units.specs.device.Deciding.{needs_bytes};
ghost use Rattle.fast_machine.specs.device.TurnsLeft.{Way, HasTurns, HasTurnsBehind};
ghost use Rattle.fast_fields.specs.device.Carries.{IsCarried};
ghost use Rattle.fast_machine.specs.device.Opening.{opened_result, opened_by};
ghost use Rattle.fast_machine.specs.device.Positions.{set_of, run_in, IsBodyOf, IsAtField, IsAtGroup, CanTurn, IsTurn, turning};

use crate::machine::{Machine, Turn, Waiting};
use crate::settling::hand_end;
use crate::turns::Turns;
use fast_stream::{FaultCode, Sink};
use fast_template::{FieldInstruction, Operator, Shape, Templates};
use fast_units::fields::{needs_bytes, unsent};
use fast_value::Limits;

impl<'t> Machine<'t> {
    /// Begins a field: the machine waits for its first unit, or nothing is sent of it.
    #[inline(always)]
    fn begin_field<S: Sink>(
        &mut self,
        templates: &'t Templates,
        limits: Limits,
        node: u32,
        field: &FieldInstruction,
        sink: &mut S,
    ) -> Result<Turn, FaultCode>
        requires turn { CanTurn (set_of templates.now) limits self.old }
        requires next { IsAtField (set_of templates.now) self.old.cursor node (field_data field.now) }
        requires serves { Serves (set_of templates.now).entries (slots_terms self.old.slots) (field_data field.now) }
        ensures turn { IsTurn S.takes S.stops (set_of templates.now) limits
            (turning (set_of templates.now) limits self.old) sink.old result sink.new self.new }
        ensures past { result ≡ Ok Turn.Silent → self.new.cursor.left ≡ drop 1 self.old.cursor.left }
        ensures turns { (way : Way) (n : ℕ) → HasTurns way (set_of templates.now) limits 1 n self.old
            → HasTurnsBehind result way (set_of templates.now) limits n self.new }
    {
        let bit = self.presence(field);
        if needs_bytes(field, bit) {
            self.wait_first(field);
            return Ok(Turn::Waits);
        }
        match unsent(&mut self.slots, field, bit) {
            Err(code) => Err(FaultCode::Stream(code)),
            Ok(source) => self.finish(node, field, source, &[], sink),
        }
    }

    /// Waits for a field that is in the stream.
    #[inline(always)]
    pub fn wait_first(&mut self, field: &FieldInstruction)
        requires varies { field.now.operator ≢ Operator.Constant }
        ensures none { self.new.carry.bytes.text ≡ [] }
        ensures carried { (l : Limits) (p : PreviousData)
            → IsCarried l (reader_of l.strict (field_term (bounds l) (field_data field.now) p true)) self.new.carry }
        ensures same { self.new ≡ record self.old { waiting = Waiting.Field; carry = self.new.carry } }
        ensures capacity { self.new.carry.bytes.capacity ≡ self.old.carry.bytes.capacity }
    {
        self.carry.begin(field);
        self.waiting = Waiting::Field;
    }

    /// Begins a group, which may be optional.
    #[inline(always)]
    fn begin_group<S: Sink>(
        &mut self,
        templates: &'t Templates,
        limits: Limits,
        node: u32,
        optional: bool,
        start: usize,
        sink: &mut S,
    ) -> Result<Turn, FaultCode>
        requires turn { CanTurn (set_of templates.now) limits self.old }
        requires next { IsAtGroup (set_of templates.now) self.old.cursor node optional
            (run_in (set_of templates.now) start) }
        requires run { IsRun (set_of templates.now).program start }
        requires below { AreBelow (length (set_of templates.now).nodes) (run_in (set_of templates.now) start) }
        requires body { IsBodyOf (set_of templates.now) node start }
        requires node { node < length (set_of templates.now).nodes }
        ensures turn { IsTurn S.takes S.stops (set_of templates.now) limits
            (turning (set_of templates.now) limits self.old) sink.old result sink.new self.new }
        ensures past { result ≡ Ok Turn.Silent → self.new.cursor.left ≡ drop 1 self.old.cursor.left }
        ensures turns { (way : Way) (n : ℕ) → HasTurns way (set_of templates.now) limits 1 n self.old
            → HasTurnsBehind result way (set_of templates.now) limits n self.new }
    {
        if optional {
            let bit = self.cursor.bit();
            self.cursor.use_bit();
            if !bit {
                self.cursor.advance();
                return Ok(Turn::Silent);
            }
        }
        let begun = self.enter_group(templates, limits, node, start, sink);
        self.open_segment(begun)
    }

    /// Opens the segment of a group or an element, with its map if its instructions use any bits.
    #[inline(always)]
    pub fn open_segment(&mut self, begun: Result<usize, FaultCode>) -> Result<Turn, FaultCode>
        ensures turn { result ≡ opened_result begun }
        ensures waits { self.new ≡ opened_by begun self.old }
    {
        match begun {
            Err(code) => Err(code),
            Ok(width) => {
                if width == 0 {
                    return Ok(Turn::Handed);
                }
                self.waiting = Waiting::SegmentMap(width);
                Ok(Turn::Waits)
            }
        }
    }

    /// Ends the innermost segment: a group, an element or the message, after which `left` bytes of the piece follow.
    #[inline(always)]
    fn close<S: Sink>(
        &mut self,
        templates: &'t Templates,
        limits: Limits,
        left: usize,
        sink: &mut S,
    ) -> Result<Turn, FaultCode>
        requires turn { CanTurn (set_of templates.now) limits self.old }
        requires end { self.old.cursor.left ≡ [] }
        ensures turn { IsTurn S.takes S.stops (set_of templates.now) limits
            (turning (set_of templates.now) limits self.old) sink.old result sink.new self.new }
        ensures on { result ≢ Ok Turn.Silent }
        ensures turns { (way : Way) (n : ℕ) → HasTurns way (set_of templates.now) limits 1 n self.old
            → HasTurnsBehind result way (set_of templates.now) limits n self.new }
    {
        if self.cursor.is_outermost() {
            hand_end(sink, left)?;
            self.cursor.clear_map();
            self.waiting = Waiting::Map;
            return Ok(Turn::Waits);
        }
        let place = self.cursor.place();
        let begun = self.leave_segment(templates, limits, place, sink);
        self.open_segment(begun)
    }

    /// Makes a turn, where `left` bytes of the piece follow: the next step needs no byte, or the machine waits.
    #[inline(always)]
    pub fn turn<S: Sink>(
        &mut self,
        templates: &'t Templates,
        limits: Limits,
        left: usize,
        sink: &mut S,
    ) -> Result<Turn, FaultCode>
        requires turn { CanTurn (set_of templates.now) limits self.old }
        ensures turn { IsTurn S.takes S.stops (set_of templates.now) limits
            (turning (set_of templates.now) limits self.old) sink.old result sink.new self.new }
        ensures past { result ≡ Ok Turn.Silent
            → (0 < length self.old.cursor.left) × (self.new.cursor.left ≡ drop 1 self.old.cursor.left) }
        ensures turns { (way : Way) (n : ℕ) → HasTurns way (set_of templates.now) limits 0 n self.old
            → HasTurnsBehind result way (set_of templates.now) limits n self.new }
    {
        self.turns = Turns::after(&self.turns);
        self.begin(templates, limits, left, sink)
    }

    /// Makes a turn at a field, the next instruction.
    #[inline(always)]
    pub fn turn_at_field<S: Sink>(
        &mut self,
        templates: &'t Templates,
        limits: Limits,
        node: u32,
        field: &FieldInstruction,
        sink: &mut S,
    ) -> Result<Turn, FaultCode>
        requires turn { CanTurn (set_of templates.now) limits self.old }
        requires next { IsAtField (set_of templates.now) self.old.cursor node (field_data field.now) }
        requires serves { Serves (set_of templates.now).entries (slots_terms self.old.slots) (field_data field.now) }
        ensures turn { IsTurn S.takes S.stops (set_of templates.now) limits
            (turning (set_of templates.now) limits self.old) sink.old result sink.new self.new }
        ensures past { result ≡ Ok Turn.Silent
            → (0 < length self.old.cursor.left) × (self.new.cursor.left ≡ drop 1 self.old.cursor.left) }
        ensures turns { (way : Way) (n : ℕ) → HasTurns way (set_of templates.now) limits 0 n self.old
            → HasTurnsBehind result way (set_of templates.now) limits n self.new }
    {
        self.turns = Turns::after(&self.turns);
        self.begin_field(templates, limits, node, field, sink)
    }

    /// Makes a turn, after it was counted.
    #[inline(always)]
    fn begin<S: Sink>(
        &mut self,
        templates: &'t Templates,
        limits: Limits,
        left: usize,
        sink: &mut S,
    ) -> Result<Turn, FaultCode>
        requires turn { CanTurn (set_of templates.now) limits self.old }
        ensures turn { IsTurn S.takes S.stops (set_of templates.now) limits
            (turning (set_of templates.now) limits self.old) sink.old result sink.new self.new }
        ensures past { result ≡ Ok Turn.Silent
            → (0 < length self.old.cursor.left) × (self.new.cursor.left ≡ drop 1 self.old.cursor.left) }
        ensures turns { (way : Way) (n : ℕ) → HasTurns way (set_of templates.now) limits 1 n self.old
            → HasTurnsBehind result way (set_of templates.now) limits n self.new }
    {
        let Some(number) = self.cursor.next() else {
            return self.close(templates, limits, left, sink);
        };
        match &templates.node(number).shape {
            Shape::Field(field) => self.begin_field(templates, limits, number, field, sink),
            Shape::Decimal { exponent, mantissa } => {
                self.begin_decimal(templates, limits, number, exponent, mantissa, sink)
            }
            Shape::Group { optional, .. } => {
                let start = templates.body_start(number);
                self.begin_group(templates, limits, number, *optional, start, sink)
            }
            Shape::Sequence { length, .. } => {
                let start = templates.body_start(number);
                self.begin_sequence(templates, limits, number, length, start, sink)
            }
        }
    }
}
