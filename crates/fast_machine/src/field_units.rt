//! Fields on the general path: the next instruction, the length of a sequence, and both parts of a decimal.

ghost use Rattle.std.specs.Prelude.{◌≡◌, ◌<◌, length, length as list_length};
ghost use Rattle.fast_template.specs.meaning.Flat.{field_data};
ghost use Rattle.fast_tree.specs.meaning.Numbers.{AreBelow};
ghost use Rattle.fast_cursor.specs.device.Runs.{IsRun};
ghost use Rattle.fast_machine.specs.device.Words.{TakesUnit, IsServedBy, PaysTurns};
ghost use Rattle.fast_machine.specs.device.Positions.{set_of, run_in, IsBodyOf, IsAtField, IsAtParts, IsAtSequence, IsReady};

use crate::machine::{Machine, Waiting};
use crate::taking::UnitTaken;
use fast_stream::Sink;
use fast_template::{FieldInstruction, Shape, Templates};
use fast_units::progress::Progress;
use fast_value::Limits;

impl<'t> Machine<'t> {
    /// Reads bytes of the field of the next instruction.
    pub fn take_instruction<S: Sink>(
        &mut self,
        templates: &'t Templates,
        limits: &Limits,
        rest: &[u8],
        sink: &mut S,
    ) -> UnitTaken
        requires waits { self.old.waiting ≡ Waiting.Field }
        requires ready { IsReady (set_of templates.now) limits.now self.old }
        requires some { 0 < length rest.now }
        ensures taken { TakesUnit S.takes S.stops (set_of templates.now) limits.now self.old rest.now sink.old result
            sink.new self.new }
        ensures turns { PaysTurns (set_of templates.now) limits.now 1 self.old result.turn self.new }
    {
        let Some(number) = self.cursor.next() else {
            return UnitTaken::cut(rest);
        };
        match &templates.node(number).shape {
            Shape::Field(field) => { self.take_field(templates, limits, number, field, rest, sink) }
            Shape::Decimal { exponent, mantissa } => {
                self.take_exponent(templates, limits, number, exponent, mantissa, rest, sink)
            }
            Shape::Sequence { length, .. } => {
                let start = templates.body_start(number);
                self.take_length(templates, limits, number, length, start, rest, sink)
            }
            Shape::Group { .. } => UnitTaken::cut(rest),
        }
    }

    /// Reads bytes of the next instruction, a field.
    #[inline(always)]
    pub(crate) fn take_field<S: Sink>(
        &mut self,
        templates: &'t Templates,
        limits: &Limits,
        node: u32,
        field: &FieldInstruction,
        rest: &[u8],
        sink: &mut S,
    ) -> UnitTaken
        requires waits { self.old.waiting ≡ Waiting.Field }
        requires ready { IsReady (set_of templates.now) limits.now self.old }
        requires some { 0 < length rest.now }
        requires next { IsAtField (set_of templates.now) self.old.cursor node (field_data field.now) }
        requires serves { IsServedBy (set_of templates.now) self.old (field_data field.now) }
        ensures taken { TakesUnit S.takes S.stops (set_of templates.now) limits.now self.old rest.now sink.old result
            sink.new self.new }
        ensures turns { PaysTurns (set_of templates.now) limits.now 1 self.old result.turn self.new }
    {
        match self
            .carry
            .read(&mut self.slots, &mut self.text, field, rest, limits)
        {
            Progress::Cut => UnitTaken::cut(rest),
            Progress::Wrong(code, bytes) => UnitTaken::wrong(code, bytes),
            Progress::Whole(found, bytes) => UnitTaken {
                bytes,
                turn: self.finish_read(node, field, found, rest, sink),
            },
        }
    }

    /// Reads bytes of the exponent of the next instruction, a decimal by parts.
    #[inline(always)]
    fn take_exponent<S: Sink>(
        &mut self,
        templates: &'t Templates,
        limits: &Limits,
        node: u32,
        exponent: &FieldInstruction,
        mantissa: &FieldInstruction,
        rest: &[u8],
        sink: &mut S,
    ) -> UnitTaken
        requires waits { self.old.waiting ≡ Waiting.Field }
        requires ready { IsReady (set_of templates.now) limits.now self.old }
        requires some { 0 < length rest.now }
        requires next { IsAtParts (set_of templates.now) self.old.cursor node (field_data exponent.now)
            (field_data mantissa.now) }
        requires exponent { IsServedBy (set_of templates.now) self.old (field_data exponent.now) }
        requires mantissa { IsServedBy (set_of templates.now) self.old (field_data mantissa.now) }
        ensures taken { TakesUnit S.takes S.stops (set_of templates.now) limits.now self.old rest.now sink.old result
            sink.new self.new }
        ensures turns { PaysTurns (set_of templates.now) limits.now 1 self.old result.turn self.new }
    {
        match self
            .carry
            .read_integer(&mut self.slots, &mut self.text, exponent, rest, limits)
        {
            Progress::Cut => UnitTaken::cut(rest),
            Progress::Wrong(code, bytes) => UnitTaken::wrong(code, bytes),
            Progress::Whole(found, bytes) => {
                let source = found.source;
                let turn = self.exponent_known(
                    templates, *limits, node, exponent, mantissa, source, sink,
                );
                UnitTaken { bytes, turn }
            }
        }
    }

    /// Reads bytes of the length of the next instruction, a sequence.
    fn take_length<S: Sink>(
        &mut self,
        templates: &'t Templates,
        limits: &Limits,
        node: u32,
        length: &FieldInstruction,
        start: usize,
        rest: &[u8],
        sink: &mut S,
    ) -> UnitTaken
        requires waits { self.old.waiting ≡ Waiting.Field }
        requires ready { IsReady (set_of templates.now) limits.now self.old }
        requires some { 0 < list_length rest.now }
        requires next { IsAtSequence (set_of templates.now) self.old.cursor node (field_data length.now)
            (run_in (set_of templates.now) start) }
        requires run { IsRun (set_of templates.now).program start }
        requires serves { IsServedBy (set_of templates.now) self.old (field_data length.now) }
        requires below { AreBelow (list_length (set_of templates.now).nodes) (run_in (set_of templates.now) start) }
        requires body { IsBodyOf (set_of templates.now) node start }
        requires node { node < list_length (set_of templates.now).nodes }
        ensures taken { TakesUnit S.takes S.stops (set_of templates.now) limits.now self.old rest.now sink.old result
            sink.new self.new }
        ensures turns { PaysTurns (set_of templates.now) limits.now 1 self.old result.turn self.new }
    {
        match self
            .carry
            .read_integer(&mut self.slots, &mut self.text, length, rest, limits)
        {
            Progress::Cut => UnitTaken::cut(rest),
            Progress::Wrong(code, bytes) => UnitTaken::wrong(code, bytes),
            Progress::Whole(found, bytes) => {
                let source = found.source;
                let turn = self.length_known(templates, *limits, node, length, start, source, sink);
                UnitTaken { bytes, turn }
            }
        }
    }

    /// Reads bytes of the mantissa of the next instruction, a decimal by parts.
    pub fn take_mantissa<S: Sink>(
        &mut self,
        templates: &'t Templates,
        limits: &Limits,
        exponent: i32,
        rest: &[u8],
        sink: &mut S,
    ) -> UnitTaken
        requires waits { self.old.waiting ≡ Waiting.Mantissa exponent }
        requires ready { IsReady (set_of templates.now) limits.now self.old }
        requires some { 0 < length rest.now }
        ensures taken { TakesUnit S.takes S.stops (set_of templates.now) limits.now self.old rest.now sink.old result
            sink.new self.new }
        ensures turns { PaysTurns (set_of templates.now) limits.now 1 self.old result.turn self.new }
    {
        let Some(number) = self.cursor.next() else {
            return UnitTaken::cut(rest);
        };
        let Shape::Decimal { mantissa, .. } = &templates.node(number).shape else {
            return UnitTaken::cut(rest);
        };
        match self
            .carry
            .read_integer(&mut self.slots, &mut self.text, mantissa, rest, limits)
        {
            Progress::Cut => UnitTaken::cut(rest),
            Progress::Wrong(code, bytes) => UnitTaken::wrong(code, bytes),
            Progress::Whole(found, bytes) => {
                let source = found.source;
                let turn = self.finish_decimal(number, mantissa, exponent, source, sink);
                UnitTaken { bytes, turn }
            }
        }
    }
}
