//! The start of a message whose head is in the piece completely: at the start of the piece, and in the loop at the end of the message before.

ghost use Rattle.std.specs.Prelude.{◌≡◌, ◌≢◌, ◌⊎◌, ◌+◌, ◌<◌, ◌≤◌, ℕ, [], take, drop, length, slice_get, Some, Ok, IfSome, IfNone};
ghost use Rattle.fast_value.specs.meaning.Limits.{bounds};
ghost use Rattle.fast_tree.specs.declared.instructions.Template.{Template};
ghost use Rattle.fast_dict.specs.meaning.Slots.{slots_dictionary};
ghost use Rattle.fast_stream.specs.meaning.Events.{MessageStart, MessageEnd};
ghost use Rattle.fast_stream.specs.device.GrammarReaders.{reader_of};
ghost use Rattle.fast_cursor.specs.device.Cursors.{resting};
ghost use Rattle.fast_cursor.specs.device.Places.{place_left, at_place, IsPlaceOf};
ghost use Rattle.fast_machine.specs.device.Positions.{placed, set_of, tree_in, IsBehindMap, IsReady, IsStartIn, IsSupplied, IsTurn, CanTurn};
ghost use Rattle.fast_loop.specs.device.Arms.{HasWent, begun_by};
ghost use Rattle.fast_machine.specs.device.Starts.{message_from, mapped_by, IsMessageAhead};
ghost use Rattle.fast_machine.specs.device.TurnsLeft.{Way, most_by, HasTurnsBehind, HasTurnsWaiting, turns_begun_at};
ghost use Rattle.fast_machine.specs.device.Words.{TakesUnit};
ghost use Rattle.fast_machine.specs.declared.machine.Machine.{Machine};
ghost use Rattle.fast_machine.specs.declared.machine.Turn.{Turn};
ghost use Rattle.fast_loop.specs.declared.spot.Spot.{Spot};

use crate::spot::{Spot, Went};
use fast_fronts::Rest;
use fast_machine::heads::reset_if;
use fast_machine::machine::{Machine, Turn, Waiting};
use fast_machine::settling::{hand, hand_end};
use fast_machine::taking::UnitTaken;
use fast_machine::turns::Turns;
use fast_program::Start;
use fast_stream::{Event, FaultCode, Sink};
use fast_template::Templates;
use fast_value::Limits;

/// Begins the message that the piece begins with, if the machine is between two messages, the presence map is one byte, and a template has
/// the identifier. Returns the bytes that were read, and the end of the turn after them.
#[inline(always)]
pub fn begin_first<'t, S: Sink>(
    machine: &mut Machine<'t>,
    templates: &'t Templates,
    limits: Limits,
    piece: &[u8],
    sink: &mut S,
) -> Option<UnitTaken>
    requires ready { IsReady (set_of templates.now) limits machine.old }
    ensures none { IfNone result ((machine.new ≡ machine.old) × (sink.new ≡ sink.old)) }
    ensures taken { IfSome result (λ q. TakesUnit S.takes S.stops (set_of templates.now) limits machine.old piece.now
        sink.old q sink.new machine.new) }
    ensures on { IfSome result (λ q. q.turn ≢ Ok Turn.Waits) }
    ensures turns { (way : Way) (n : ℕ) → HasTurnsWaiting way (set_of templates.now) limits n machine.old
        → IfSome result (λ q. HasTurnsBehind q.turn way (set_of templates.now) limits
        (1 + n + turns_begun_at machine.old.waiting machine.old.cursor.map way (tree_in (set_of templates.now)) limits)
        machine.new) }
{
    if !machine.is_idle() {
        return None;
    }
    let (bytes, start) = first_message(machine, templates, limits, piece)?;
    let mut spot = Spot {
        place: machine.cursor.place(),
        rest: Rest::new(piece),
    };
    let went = message_begins(machine, templates, limits, start, bytes, &mut spot, sink);
    machine.cursor.set_place(spot.place);
    Some(UnitTaken {
        bytes,
        turn: begun_by(went),
    })
}

/// Reads the head of the message that the piece begins with, if its presence map is one byte, and a template has its identifier, which may
/// be that of the message before. Returns its number of bytes and the start of the template.
#[inline(always)]
fn first_message<'t>(
    machine: &mut Machine<'t>,
    templates: &'t Templates,
    limits: Limits,
    piece: &[u8],
) -> Option<(usize, &'t Start)>
    requires supplied { IsSupplied (set_of templates.now) limits machine.old }
    ensures none { IfNone result (machine.new ≡ machine.old) }
    ensures ahead { IfSome result (λ r. IsMessageAhead (set_of templates.now) limits
        (slots_dictionary machine.old.slots) (slots_dictionary machine.new.slots) piece.now r.1.now.number r.0) }
    ensures start { IfSome result (λ r. IsStartIn (set_of templates.now) r.1.now) }
    ensures supplied { IsSupplied (set_of templates.now) limits machine.new }
    ensures same { machine.new ≡ record machine.old { slots = machine.new.slots; latest = machine.new.latest } }
{
    if let Some(start) = machine.message_again(templates, limits, piece) {
        return Some((1, start));
    }
    machine.next_message(templates, limits, piece)
}

/// Returns the end of the turn in which an arm began a message.
#[inline(always)]
fn begun_by(went: Went) -> Result<Turn, FaultCode>
    ensures { result ≡ begun_by went }
{
    match went {
        Went::Took => Ok(Turn::Handed),
        Went::Handed | Went::Silent | Went::Declined | Went::Stopped | Went::Waits => {
            Err(FaultCode::SinkStopped)
        }
    }
}

/// Ends the message: the next one begins, if its presence map is one byte and its template is known.
#[inline(always)]
pub fn message_arm<'t, S: Sink>(
    machine: &mut Machine<'t>,
    templates: &'t Templates,
    limits: Limits,
    spot: &mut Spot<'t, '_>,
    sink: &mut S,
) -> Went
    requires waits { machine.old.waiting ≡ Waiting.Field }
    requires place { IsPlaceOf machine.old.cursor spot.old.place }
    requires turn { CanTurn (set_of templates.now) limits (placed machine.old spot.old.place) }
    requires end { place_left spot.old.place ≡ [] }
    requires outermost { machine.old.cursor.frames ≡ [] }
    ensures went { (m : Machine) → machine.old ≡ record m { turns = machine.old.turns }
        → machine.old.turns.count ≡ m.turns.count + 1
        → HasWent S.takes S.stops (set_of templates.now) limits m spot.old sink.old result sink.new machine.new
        spot.new }
{
    if let Some(start) = machine.message_again(templates, limits, spot.rest.bytes) {
        return start_arm(machine, templates, limits, start, spot, sink);
    }
    if let Err(_) = hand_end(sink, spot.rest.bytes.len()) {
        return Went::Stopped;
    }
    other_arm(machine, templates, limits, spot, sink)
}

/// Ends the message, and begins the next one of the same template, whose map is one byte: with both events at once, if the sink accepts
/// them so.
#[inline(always)]
fn start_arm<'t, S: Sink>(
    machine: &mut Machine<'t>,
    templates: &'t Templates,
    limits: Limits,
    start: &Start,
    spot: &mut Spot<'t, '_>,
    sink: &mut S,
) -> Went
    requires waits { machine.old.waiting ≡ Waiting.Field }
    requires place { IsPlaceOf machine.old.cursor spot.old.place }
    requires turn { CanTurn (set_of templates.now) limits (placed machine.old spot.old.place) }
    requires end { place_left spot.old.place ≡ [] }
    requires outermost { machine.old.cursor.frames ≡ [] }
    requires ahead { IsMessageAhead (set_of templates.now) limits (slots_dictionary machine.old.slots)
        (slots_dictionary machine.old.slots) spot.old.rest.bytes.now start.now.number 1 }
    requires start { IsStartIn (set_of templates.now) start.now }
    ensures went { (m : Machine) → machine.old ≡ record m { turns = machine.old.turns }
        → machine.old.turns.count ≡ m.turns.count + 1
        → HasWent S.takes S.stops (set_of templates.now) limits m spot.old sink.old result sink.new machine.new
        spot.new }
{
    let left = spot.rest.bytes.len();
    if sink.turn_message(left, start.number) {
        return message_opens(machine, templates, limits, start, 1, spot, sink);
    }
    if let Err(_) = hand_end(sink, left) {
        return Went::Stopped;
    }
    message_begins(machine, templates, limits, start, 1, spot, sink)
}

/// Goes on after the end of a message: the next one begins, if its map is one byte and its identifier, which follows, is that of a
/// template.
#[inline(always)]
fn other_arm<'t, S: Sink>(
    machine: &mut Machine<'t>,
    templates: &'t Templates,
    limits: Limits,
    spot: &mut Spot<'t, '_>,
    sink: &mut S,
) -> Went
    requires waits { machine.old.waiting ≡ Waiting.Field }
    requires place { IsPlaceOf machine.old.cursor spot.old.place }
    requires turn { CanTurn (set_of templates.now) limits (placed machine.old spot.old.place) }
    requires end { place_left spot.old.place ≡ [] }
    requires outermost { machine.old.cursor.frames ≡ [] }
    ensures went { (m : Machine) (s : S) → machine.old ≡ record m { turns = machine.old.turns }
        → machine.old.turns.count ≡ m.turns.count + 1 → S.takes s MessageEnd sink.old
        → HasWent S.takes S.stops (set_of templates.now) limits m spot.old s result sink.new machine.new spot.new }
{
    let Some((bytes, start)) = machine.next_message(templates, limits, spot.rest.bytes) else {
        return no_message(machine, spot);
    };
    message_begins(machine, templates, limits, start, bytes, spot, sink)
}

/// Ends the message, and waits for the next one.
#[inline(always)]
fn no_message<'t>(machine: &mut Machine<'t>, spot: &mut Spot<'t, '_>) -> Went
    requires place { IsPlaceOf machine.old.cursor spot.old.place }
    requires end { place_left spot.old.place ≡ [] }
    requires outermost { machine.old.cursor.frames ≡ [] }
    ensures waits { result ≡ Went.Waits }
    ensures rest { spot.new.rest.bytes.now ≡ spot.old.rest.bytes.now }
    ensures place { IsPlaceOf machine.new.cursor spot.new.place }
    ensures at { placed machine.new spot.new.place ≡ record (placed machine.old spot.old.place) {
      waiting = Waiting.Map;
      cursor = record (at_place machine.old.cursor spot.old.place) { map = []; used = 0; ends = 8 };
    } }
{
    wait_for_message(machine);
    machine.cursor.show_map(&mut spot.place);
    Went::Waits
}

/// Waits for the map of a message.
#[inline(always)]
fn wait_for_message(machine: &mut Machine<'_>)
    ensures { machine.new ≡ record machine.old { waiting = Waiting.Map; cursor = resting machine.old.cursor } }
{
    machine.waiting = Waiting::Map;
    machine.cursor.reset();
}

/// Begins a message of a template, whose map is the first byte, and whose instructions begin after this number of bytes.
#[inline(always)]
fn message_begins<'t, S: Sink>(
    machine: &mut Machine<'t>,
    templates: &'t Templates,
    limits: Limits,
    start: &Start,
    bytes: usize,
    spot: &mut Spot<'t, '_>,
    sink: &mut S,
) -> Went
    requires place { IsPlaceOf machine.old.cursor spot.old.place }
    requires outermost { machine.old.cursor.frames ≡ [] }
    requires behind { IsBehindMap (set_of templates.now) limits (mapped_by machine.old spot.old.rest.bytes.now) }
    requires start { IsStartIn (set_of templates.now) start.now }
    requires some { 0 < length spot.old.rest.bytes.now }
    requires within { bytes ≤ length spot.old.rest.bytes.now }
    ensures answer { (result ≡ Went.Took) ⊎ (result ≡ Went.Stopped) }
    ensures waits { machine.new.waiting ≡ machine.old.waiting }
    ensures place { IsPlaceOf machine.new.cursor spot.new.place }
    ensures rest { spot.new.rest.bytes.now ≡ drop bytes spot.old.rest.bytes.now }
    ensures turn { (t : Template) → slice_get (set_of templates.now).templates start.now.number ≡ Some t
        → IsTurn S.takes S.stops (set_of templates.now) limits
        (reader_of limits.strict (message_from (set_of templates.now) (bounds limits) start.now.number t
        (slots_dictionary machine.old.slots) (take 1 spot.old.rest.bytes.now)))
        sink.old (begun_by result) sink.new (placed machine.new spot.new.place) }
    ensures turns { (way : Way) (n : ℕ)
        → machine.old.turns.count + most_by way (tree_in (set_of templates.now)) limits ≤ n
        → HasTurnsBehind (begun_by result) way (set_of templates.now) limits (1 + n)
        (placed machine.new spot.new.place) }
{
    let template = start.number;
    if let Err(_) = hand(sink, Event::MessageStart { template }) {
        spot.rest = spot.rest.skip(bytes);
        return Went::Stopped;
    }
    message_opens(machine, templates, limits, start, bytes, spot, sink)
}

/// Begins a message as `message_begins` does, after the event of its start.
#[inline(always)]
fn message_opens<'t, S: Sink>(
    machine: &mut Machine<'t>,
    templates: &'t Templates,
    limits: Limits,
    start: &Start,
    bytes: usize,
    spot: &mut Spot<'t, '_>,
    sink: &mut S,
) -> Went
    requires place { IsPlaceOf machine.old.cursor spot.old.place }
    requires outermost { machine.old.cursor.frames ≡ [] }
    requires behind { IsBehindMap (set_of templates.now) limits (mapped_by machine.old spot.old.rest.bytes.now) }
    requires start { IsStartIn (set_of templates.now) start.now }
    requires some { 0 < length spot.old.rest.bytes.now }
    requires within { bytes ≤ length spot.old.rest.bytes.now }
    ensures answer { result ≡ Went.Took }
    ensures waits { machine.new.waiting ≡ machine.old.waiting }
    ensures place { IsPlaceOf machine.new.cursor spot.new.place }
    ensures rest { spot.new.rest.bytes.now ≡ drop bytes spot.old.rest.bytes.now }
    ensures same { sink.new ≡ sink.old }
    ensures turn { (s : S) (t : Template) → S.takes s (MessageStart start.now.number) sink.old
        → slice_get (set_of templates.now).templates start.now.number ≡ Some t
        → IsTurn S.takes S.stops (set_of templates.now) limits
        (reader_of limits.strict (message_from (set_of templates.now) (bounds limits) start.now.number t
        (slots_dictionary machine.old.slots) (take 1 spot.old.rest.bytes.now)))
        s (Ok Turn.Handed) sink.new (placed machine.new spot.new.place) }
    ensures turns { (way : Way) (n : ℕ)
        → machine.old.turns.count + most_by way (tree_in (set_of templates.now)) limits ≤ n
        → HasTurnsBehind (Ok Turn.Handed) way (set_of templates.now) limits (1 + n)
        (placed machine.new spot.new.place) }
{
    let byte = spot.rest.bytes[0];
    spot.rest = spot.rest.skip(bytes);
    reset_if(&mut machine.slots, start.reset);
    machine.counted = 0;
    machine
        .cursor
        .begin_message(&mut spot.place, byte, start.at);
    let _ = templates;
    let _ = limits;
    let unit = Turns::after(&machine.turns);
    machine.turns = Turns::after(&unit);
    Went::Took
}
