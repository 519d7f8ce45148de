//! Sequences of which no byte is read: a length that is not sent, the start of an element, and the limits on elements.

ghost use Rattle.std.specs.Prelude.{◌≡◌, ◌≢◌, ◌+◌, ◌<◌, ◌≤◌, ℕ, suc, [], Ok, drop, length, length as list_length, IfOk, Some};
ghost use Rattle.fast_value.specs.meaning.Limits.{bounds};
ghost use Rattle.fast_tree.specs.meaning.Nodes.{field_data};
ghost use Rattle.fast_tree.specs.meaning.Numbers.{AreBelow};
ghost use Rattle.fast_tree.specs.meaning.Sizes.{body_depth};
ghost use Rattle.fast_tree.specs.meaning.Tree.{bits_of};
ghost use Rattle.fast_dict.specs.meaning.Slots.{slots_dictionary, slots_terms};
ghost use Rattle.fast_cursor.specs.device.Runs.{IsRun};
ghost use Rattle.fast_stream.specs.device.GrammarReaders.{reader_of};
ghost use Rattle.fast_stream.specs.meaning.Messages.{within_limits};
ghost use Rattle.fast_units.specs.device.Settling.{Serves, value_at};
ghost use Rattle.fast_units.specs.device.Deciding.{needs_bytes};
ghost use Rattle.fast_machine.specs.device.TurnsLeft.{Way, HasTurns, HasTurnsFrom, HasTurnsBehind};
ghost use Rattle.fast_machine.specs.device.Passing.{length_then, elements_from};
ghost use Rattle.fast_machine.specs.device.Positions.{set_of, run_in, IsBodyOf, body_in, IsAtSequence, CanTurn, IsTurn, turning};

use crate::machine::{Machine, Turn};
use crate::settling::hand;
use fast_stream::{Event, FaultCode, Sink};
use fast_template::{FieldInstruction, Templates};
use fast_units::fields::{needs_bytes, unsent, value_at};
use fast_units::source::ValueSource;
use fast_value::{Code, Limits};

/// Returns the number of elements that a length claims, if it is within the limit of one sequence, and then within that of the message.
#[inline]
pub fn count_within(limits: Limits, counted: u32, claimed: u128) -> Result<u32, Code>
    requires { counted ≤ limits.max_total }
    ensures count { result ≡ within_limits (bounds limits) counted claimed }
    ensures total { IfOk result (λ n. counted + n ≤ limits.max_total) }
{
    if claimed > u128::from(limits.max_elements) {
        return Err(Code::L2);
    }
    let count = claimed as u32;
    if count > limits.max_total - counted {
        return Err(Code::L5);
    }
    Ok(count)
}

impl<'t> Machine<'t> {
    /// Begins a sequence: the machine waits for its length, or nothing is sent of the length.
    #[inline(always)]
    pub fn begin_sequence<S: Sink>(
        &mut self,
        templates: &'t Templates,
        limits: Limits,
        node: u32,
        length: &FieldInstruction,
        start: usize,
        sink: &mut S,
    ) -> Result<Turn, FaultCode>
        requires turn { CanTurn (set_of templates.now) limits self.old }
        requires next { IsAtSequence (set_of templates.now) self.old.cursor node (field_data length.now)
            (run_in (set_of templates.now) start) }
        requires run { IsRun (set_of templates.now).program start }
        requires serves { Serves (set_of templates.now).entries (slots_terms self.old.slots) (field_data length.now) }
        requires below { AreBelow (list_length (set_of templates.now).nodes) (run_in (set_of templates.now) start) }
        requires body { IsBodyOf (set_of templates.now) node start }
        requires node { node < list_length (set_of templates.now).nodes }
        ensures turn { IsTurn S.takes S.stops (set_of templates.now) limits
            (turning (set_of templates.now) limits self.old) sink.old result sink.new self.new }
        ensures past { result ≡ Ok Turn.Silent → self.new.cursor.left ≡ drop 1 self.old.cursor.left }
        ensures turns { (way : Way) (n : ℕ) → HasTurns way (set_of templates.now) limits 1 n self.old
            → HasTurnsBehind result way (set_of templates.now) limits n self.new }
    {
        let bit = self.presence(length);
        if needs_bytes(length, bit) {
            self.wait_first(length);
            return Ok(Turn::Waits);
        }
        match unsent(&mut self.slots, length, bit) {
            Err(code) => Err(FaultCode::Stream(code)),
            Ok(source) => self.length_known(templates, limits, node, length, start, source, sink),
        }
    }

    /// Goes on after the length of the next sequence. Without a length there is no sequence.
    #[inline(always)]
    pub fn length_known<S: Sink>(
        &mut self,
        templates: &'t Templates,
        limits: Limits,
        node: u32,
        length: &FieldInstruction,
        start: usize,
        source: ValueSource,
        sink: &mut S,
    ) -> Result<Turn, FaultCode>
        requires turn { CanTurn (set_of templates.now) limits self.old }
        requires next { IsAtSequence (set_of templates.now) self.old.cursor node (field_data length.now)
            (run_in (set_of templates.now) start) }
        requires run { IsRun (set_of templates.now).program start }
        requires serves { Serves (set_of templates.now).entries (slots_terms self.old.slots) (field_data length.now) }
        requires below { AreBelow (list_length (set_of templates.now).nodes) (run_in (set_of templates.now) start) }
        requires body { IsBodyOf (set_of templates.now) node start }
        requires node { node < list_length (set_of templates.now).nodes }
        ensures turn { IsTurn S.takes S.stops (set_of templates.now) limits
            (reader_of limits.strict
            (length_then (set_of templates.now) (bounds limits) node
            (value_at source (field_data length.now) (slots_dictionary self.old.slots) self.old.text.text [])
            (field_data length.now) (run_in (set_of templates.now) start) (slots_dictionary self.old.slots)
            self.old.counted self.old.cursor))
            sink.old result sink.new self.new }
        ensures past { result ≡ Ok Turn.Silent → self.new.cursor.left ≡ drop 1 self.old.cursor.left }
        ensures turns { (way : Way) (n : ℕ) → HasTurns way (set_of templates.now) limits 1 n self.old
            → HasTurnsBehind result way (set_of templates.now) limits n self.new }
    {
        let claimed = self.integer_at(length, source);
        self.use_bit_of(length);
        self.cursor.advance();
        let Some(claimed) = claimed else {
            return Ok(Turn::Silent);
        };
        match count_within(limits, self.counted, claimed.unsigned_abs()) {
            Err(code) => Err(FaultCode::Stream(code)),
            Ok(count) => {
                self.counted += count;
                hand(sink, Event::SequenceStart { node, count })?;
                let width = templates.segment_bits(node);
                self.next_element(templates, limits, count, start, width, sink)
            }
        }
    }

    /// Begins the next element of a sequence of which `count` elements remain, or ends the sequence if none does.
    #[inline(always)]
    fn next_element<S: Sink>(
        &mut self,
        templates: &'t Templates,
        limits: Limits,
        count: u32,
        start: usize,
        width: usize,
        sink: &mut S,
    ) -> Result<Turn, FaultCode>
        requires turn { CanTurn (set_of templates.now) limits self.old }
        requires run { IsRun (set_of templates.now).program start }
        requires below { AreBelow (length (set_of templates.now).nodes) (run_in (set_of templates.now) start) }
        requires nested { suc (length self.old.cursor.frames)
            + body_depth (body_in (set_of templates.now) (run_in (set_of templates.now) start))
            ≤ self.old.cursor.depth }
        requires width { width ≡ bits_of (body_in (set_of templates.now) (run_in (set_of templates.now) start)) }
        ensures turn { IsTurn S.takes S.stops (set_of templates.now) limits
            (reader_of limits.strict
            (elements_from (set_of templates.now) (bounds limits) count (run_in (set_of templates.now) start)
            (slots_dictionary self.old.slots) self.old.counted self.old.cursor))
            sink.old result sink.new self.new }
        ensures on { result ≢ Ok Turn.Silent }
        ensures turns { (way : Way) (n : ℕ)
            → HasTurnsFrom way (set_of templates.now) limits n count (run_in (set_of templates.now) start) self.old
            → HasTurnsBehind result way (set_of templates.now) limits n self.new }
    {
        let begun = self.begin_element(templates, limits, count, start, width, sink);
        self.open_segment(begun)
    }
}
