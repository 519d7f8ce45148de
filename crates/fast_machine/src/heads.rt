//! The heads of messages and segments: presence maps, template identifiers, starts of messages.

ghost use Rattle.std.specs.Prelude.{◌≡◌, ◌≢◌, ◌<◌, ◌≤◌, ◌&&◌, not, nat_le, false, ℕ, [], length, slice_get, IfSome, IfNone, Err, IsTrue, ◌↔◌, IfErr, Some, None, Ok, option_map, nat_abs, if◌then◌else◌};
ghost use Rattle.fast_wire.specs.meaning.Entities.{IsEntity};
ghost use Rattle.fast_wire.specs.meaning.Maps.{map_limit, bits, bytes_for};
ghost use Rattle.fast_value.specs.meaning.Kinds.{integer_of};
ghost use Rattle.fast_value.specs.meaning.Values.{scalar_data};
ghost use Rattle.fast_value.specs.meaning.Limits.{bounds};
ghost use Rattle.fast_template.specs.meaning.Flat.{templates_of, template_data, instructions_from};
ghost use Rattle.fast_tree.specs.declared.instructions.Template.{Template};
ghost use Rattle.fast_value.specs.declared.settings.Limits.{Limits};
ghost use Rattle.fast_tree.specs.meaning.Tree.{identifier};
ghost use Rattle.fast_dict.specs.meaning.Slots.{slots_dictionary, slots_terms};
ghost use Rattle.fast_stream.specs.device.GrammarReaders.{spare, reader_of};
ghost use Rattle.fast_machine.specs.declared.machine.Machine.{Machine};
ghost use Rattle.fast_dict.specs.meaning.Dictionary.{reset};
ghost use Rattle.fast_machine.specs.device.Words.{TakesUnit, PaysTurns, PaysMessage};
ghost use Rattle.fast_units.specs.device.Settling.{value_at};
ghost use Rattle.fast_machine.specs.device.Passing.{state_past, identified_then};
ghost use Rattle.fast_stream.specs.device.Continuations.{message_of_then};
ghost use Rattle.fast_machine.specs.device.Starts.{IsStartWith};
ghost use Rattle.fast_machine.specs.device.Positions.{set_of, CanTurn, GoesOn, IsBehindMap, IsStartIn, IsSupplied, IsReady, IsTurn, segment_reader, mapped_reader};

use crate::machine::{Machine, Turn, Waiting};
use crate::quick_starts::template_with;
use crate::settling::hand;
use crate::taking::UnitTaken;
use crate::turns::Turns;
use fast_cursor::pending::MapFront;
use fast_dict::operators::integers::integer_of;
use fast_dict::{Slots, Store};
use fast_program::Start;
use fast_stream::{Event, FaultCode, Sink};
use fast_template::{Template, Templates};
use fast_units::fields::{unsent, value_at};
use fast_units::progress::Progress;
use fast_units::source::ValueSource;
use fast_value::{Code, Limits, Scalar};
use fast_wire::map_overlong;

/// Returns whether a map has more bytes than a segment of `bits` bits can use, in strict mode.
#[inline]
pub fn is_too_wide(strict: bool, map_len: usize, bits: usize) -> bool
    ensures { result ≡ (strict && not (nat_le map_len (bytes_for bits))) }
{
    strict && map_len > bits.div_ceil(7).max(1)
}

/// Returns whether the last of more than seven bits of a map are zero, in strict mode.
#[inline]
pub fn is_overlong(strict: bool, map: &[u8]) -> bool
    requires entity { IsEntity map.now }
    requires short { length map.now ≤ map_limit }
    ensures { result ≡ (strict && spare map.now) }
{
    strict && map_overlong(map)
}

/// Returns whether a template has an identifier.
#[inline]
pub fn has_id(template: &Template, id: u128) -> bool
    ensures { IsTrue result ↔ (template.now.id ≡ Some id) }
{
    match template.id {
        Some(own) => u128::from(own) == id,
        None => false,
    }
}

/// Returns the identifier that a value stands for.
#[inline]
fn id_of(value: Option<Scalar<'_>>) -> Option<u128>
    ensures { result ≡ option_map (λ v. nat_abs (integer_of v)) (option_map scalar_data value.entry) }
{
    match value {
        Some(value) => Some(integer_of(value).unsigned_abs()),
        None => None,
    }
}

/// Returns the start of the template with this identifier, which is most likely the latest one.
#[inline]
fn template_of<'t>(
    templates: &'t Templates,
    identifier: Option<u128>,
    latest: Option<&'t Start>,
) -> Option<&'t Start>
    requires latest { IfSome latest (λ s. IsStartIn (set_of templates.now) s.now) }
    ensures some { IfSome result
        (λ s. (id : ℕ) × (identifier ≡ Some id) × IsStartWith (set_of templates.now) id s.now) }
    ensures none { IfNone result
        ((id j : ℕ) (t : Template) → identifier ≡ Some id → slice_get (templates_of templates.now) j ≡ Some t
        → t.id ≢ Some id) }
{
    let id = identifier?;
    if id > u128::from(u32::MAX) {
        let number = walk_to(templates, id)?;
        return Some(templates.start_of(number));
    }
    template_with(templates, id as u32, latest)
}

/// Returns the number of the template with this identifier, by a walk through all templates. An identifier of more than 32 bits belongs to
/// no template, which the walk finds without a premise on the set.
#[inline]
pub fn walk_to(templates: &Templates, id: u128) -> Option<u32>
    ensures some { IfSome result
        (λ i. (t : Template) × (slice_get (templates_of templates.now) i ≡ Some t) × (t.id ≡ Some id)
        × ((j : ℕ) (u : Template) → j < i → slice_get (templates_of templates.now) j ≡ Some u → u.id ≢ Some id)) }
    ensures none { IfNone result
        ((j : ℕ) (t : Template) → slice_get (templates_of templates.now) j ≡ Some t → t.id ≢ Some id) }
{
    for number in 0..templates.count() {
        if has_id(templates.template(number), id) {
            return Some(number);
        }
    }
    None
}

/// Resets all entries but the identifier's, if the template says so.
#[inline]
pub fn reset_if(slots: &mut Slots, resets: bool)
    ensures entries { slots_dictionary slots.new
        ≡ (if resets then reset (slots_dictionary slots.old) else slots_dictionary slots.old) }
    ensures terms { slots_terms slots.new ≡ slots_terms slots.old }
{
    if resets {
        slots.reset();
    }
}

impl<'t> Machine<'t> {
    /// Reads bytes of the presence map of a message.
    pub fn take_map<S: Sink>(
        &mut self,
        templates: &'t Templates,
        limits: Limits,
        rest: &[u8],
        sink: &mut S,
    ) -> UnitTaken
        requires waits { self.old.waiting ≡ Waiting.Map }
        requires ready { IsReady (set_of templates.now) limits self.old }
        requires some { 0 < length rest.now }
        ensures taken { TakesUnit S.takes S.stops (set_of templates.now) limits self.old rest.now sink.old result
            sink.new self.new }
        ensures turns { PaysMessage (set_of templates.now) limits self.old result.turn self.new }
    {
        match self.cursor.take_map(rest) {
            MapFront::Cut => UnitTaken::cut(rest),
            MapFront::TooLong(bytes) => UnitTaken::wrong(Code::L3, bytes),
            MapFront::Whole(bytes) => {
                let turn = self.mapped(templates, limits, sink);
                UnitTaken { bytes, turn }
            }
        }
    }

    /// Goes on after the complete presence map of a message.
    fn mapped<S: Sink>(
        &mut self,
        templates: &'t Templates,
        limits: Limits,
        sink: &mut S,
    ) -> Result<Turn, FaultCode>
        requires behind { IsBehindMap (set_of templates.now) limits self.old }
        requires short { length self.old.cursor.map ≤ map_limit }
        ensures turn { IsTurn S.takes S.stops (set_of templates.now) limits
            (mapped_reader (set_of templates.now) limits (slots_dictionary self.old.slots) self.old.cursor.map)
            sink.old result sink.new self.new }
        ensures turns { PaysMessage (set_of templates.now) limits self.old result self.new }
    {
        if is_overlong(limits.strict, self.cursor.map()) {
            return Err(FaultCode::Stream(Code::R7));
        }
        if self.cursor.bit() {
            self.carry.begin(&self.identifier);
            self.waiting = Waiting::Identifier;
            return Ok(Turn::Waits);
        }
        match unsent(&mut self.slots, &self.identifier, false) {
            Err(code) => Err(FaultCode::Stream(code)),
            Ok(source) => self.identified(templates, limits, source, sink),
        }
    }

    /// Goes on after the template identifier, sent or copied.
    fn identified<S: Sink>(
        &mut self,
        templates: &'t Templates,
        limits: Limits,
        source: ValueSource,
        sink: &mut S,
    ) -> Result<Turn, FaultCode>
        requires behind { IsBehindMap (set_of templates.now) limits self.old }
        ensures turn { IsTurn S.takes S.stops (set_of templates.now) limits
            (reader_of limits.strict
            (identified_then (set_of templates.now) (bounds limits)
            (value_at source identifier (slots_dictionary self.old.slots) self.old.text.text [])
            (slots_dictionary self.old.slots) self.old.cursor))
            sink.old result sink.new self.new }
        ensures turns { PaysMessage (set_of templates.now) limits self.old result self.new }
    {
        let text = self.text.as_slice();
        let value = value_at(&self.slots, &self.identifier, text, &[], source);
        let Some(start) = template_of(templates, id_of(value), self.latest) else {
            return Err(FaultCode::Stream(Code::D9));
        };
        let width = templates.message_bits(start.number);
        if is_too_wide(limits.strict, self.cursor.map_len(), width) {
            return Err(FaultCode::Stream(Code::R8));
        }
        self.start_message(templates, limits, start, sink)
    }

    /// Emits the first event of a message of a template, whose instructions follow.
    #[inline(always)]
    pub fn start_message<S: Sink>(
        &mut self,
        templates: &'t Templates,
        limits: Limits,
        start: &'t Start,
        sink: &mut S,
    ) -> Result<Turn, FaultCode>
        requires behind { IsBehindMap (set_of templates.now) limits self.old }
        requires start { IsStartIn (set_of templates.now) start.now }
        ensures turn { (t : Template) → slice_get (set_of templates.now).templates start.now.number ≡ Some t
            → IsTurn S.takes S.stops (set_of templates.now) limits
            (reader_of limits.strict
            (message_of_then (bounds limits) start.now.number
            (template_data (instructions_from 0 (set_of templates.now).nodes) t)
            (state_past identifier (slots_dictionary self.old.slots) 0 self.old.cursor)))
            sink.old result sink.new self.new }
        ensures goes_on { GoesOn (set_of templates.now) limits self.new result }
        ensures supplied { IsSupplied (set_of templates.now) limits self.new }
        ensures on { result ≢ Ok Turn.Waits }
        ensures stopped { IfErr result (λ code. code ≡ FaultCode.SinkStopped) }
        ensures turns { PaysMessage (set_of templates.now) limits self.old result self.new }
    {
        let template = start.number;
        hand(sink, Event::MessageStart { template })?;
        reset_if(&mut self.slots, start.reset);
        self.counted = 0;
        self.latest = Some(start);
        self.cursor.use_bit();
        self.cursor.begin(start.at);
        self.turns = Turns::after(&self.turns);
        Ok(Turn::Handed)
    }

    /// Reads bytes of the template identifier.
    pub fn take_identifier<S: Sink>(
        &mut self,
        templates: &'t Templates,
        limits: &Limits,
        rest: &[u8],
        sink: &mut S,
    ) -> UnitTaken
        requires waits { self.old.waiting ≡ Waiting.Identifier }
        requires ready { IsReady (set_of templates.now) limits.now self.old }
        requires some { 0 < length rest.now }
        ensures taken { TakesUnit S.takes S.stops (set_of templates.now) limits.now self.old rest.now sink.old result
            sink.new self.new }
        ensures turns { PaysMessage (set_of templates.now) limits.now self.old result.turn self.new }
    {
        match self.carry.read(
            &mut self.slots,
            &mut self.text,
            &self.identifier,
            rest,
            limits,
        ) {
            Progress::Cut => UnitTaken::cut(rest),
            Progress::Wrong(code, bytes) => UnitTaken::wrong(code, bytes),
            Progress::Whole(found, bytes) => {
                let turn = self.identified(templates, *limits, found.source, sink);
                UnitTaken { bytes, turn }
            }
        }
    }

    /// Reads bytes of the presence map of a group or an element.
    pub fn take_segment_map<S: Sink>(
        &mut self,
        templates: &'t Templates,
        limits: Limits,
        width: usize,
        rest: &[u8],
        sink: &mut S,
    ) -> UnitTaken
        requires waits { self.old.waiting ≡ Waiting.SegmentMap width }
        requires ready { IsReady (set_of templates.now) limits self.old }
        requires some { 0 < length rest.now }
        ensures taken { TakesUnit S.takes S.stops (set_of templates.now) limits self.old rest.now sink.old result
            sink.new self.new }
        ensures turns { PaysTurns (set_of templates.now) limits 0 self.old result.turn self.new }
    {
        match self.cursor.take_map(rest) {
            MapFront::Cut => UnitTaken::cut(rest),
            MapFront::TooLong(bytes) => UnitTaken::wrong(Code::L3, bytes),
            MapFront::Whole(bytes) => {
                let turn = self.segment_mapped(templates, limits, width, sink);
                UnitTaken { bytes, turn }
            }
        }
    }

    /// Goes on after the complete presence map of a group or an element. Nothing is emitted; the sink is an argument for the clauses on the
    /// turn.
    fn segment_mapped<S: Sink>(
        &mut self,
        templates: &'t Templates,
        limits: Limits,
        width: usize,
        sink: &mut S,
    ) -> Result<Turn, FaultCode>
        requires turn { CanTurn (set_of templates.now) limits self.old }
        requires map { IsEntity self.old.cursor.map }
        requires short { length self.old.cursor.map ≤ map_limit }
        requires none { self.old.cursor.used ≡ 0 }
        ensures turn { IsTurn S.takes S.stops (set_of templates.now) limits
            (segment_reader (set_of templates.now) limits self.old width)
            sink.old result sink.new self.new }
        ensures turns { PaysTurns (set_of templates.now) limits 0 self.old result self.new }
    {
        if is_overlong(limits.strict, self.cursor.map()) {
            return Err(FaultCode::Stream(Code::R7));
        }
        if is_too_wide(limits.strict, self.cursor.map_len(), width) {
            return Err(FaultCode::Stream(Code::R8));
        }
        Ok(Turn::Silent)
    }
}
