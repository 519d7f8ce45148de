//! Messages from their events or records.

ghost use Rattle.std.specs.Prelude.{◌≡◌, ◌≢◌, ℕ, ◌<◌, ◌≤◌, ◌+◌, ◌++◌, ◌∷◌, [], List, length, map, drop};
ghost use Rattle.std.specs.Prelude.{IsTrue, IsFalse, IfOk, IfErr, IfSome, IfNone, OnOk, option_map};
ghost use Rattle.fast_value.specs.meaning.Kinds.{ScalarData};
ghost use Rattle.fast_value.specs.meaning.Messages.{count};
ghost use Rattle.fast_value.specs.meaning.Values.{scalar_data};
ghost use Rattle.fast_value.specs.meaning.Views.{item_data, slots_data, elements_data, message_data};
ghost use Rattle.fast_tree.specs.meaning.Numbers.{AreBelow};
ghost use Rattle.fast_tree.specs.meaning.Nodes.{body_among};
ghost use Rattle.fast_template.specs.meaning.Flat.{nodes_of, tree_of};
ghost use Rattle.fast_stream.specs.meaning.Events.{EventData, FieldValue, GroupStart, SequenceStart, events};
ghost use Rattle.fast_stream.specs.meaning.Handed.{event_data};
ghost use Rattle.fast_spelling.specs.device.Nodes.{instruction_in};
ghost use Rattle.fast_records.specs.meaning.Lent.{AreTold};
ghost use Rattle.fast_records.specs.meaning.Putting.{OnMisplaced, OnMisplacedAt, AreNoMessage, IsPlaced, IsWithin, HasNoMessage};
ghost use Rattle.fast_records.specs.device.Putting.{mark_event, IsBodyPut, IsSlotPut, AreRowsPut};
ghost use Rattle.fast_records.specs.device.Due.{Passes, IsStuck};
ghost use Rattle.fast_records.specs.device.Due.{HasNoBody, HasNoRows, HasNoFront};

use crate::lent::events_of;
use crate::records::Record;
use fast_stream::Event;
use fast_template::{Shape, Templates};
use fast_value::{Item, Message, Scalar, Value};
use std::alloc::{AllocError, Global};
use std::error::Error;
use std::fmt;

/// The error of [`message_of_records`]: why records are not those of one message.
#[derive(Clone, Copy, Debug, PartialEq, Eq)]
pub enum PutFault {
    /// The record of this number, from 0, is not an event, or one that may not come next; or the records end before it.
    Misplaced {
        /// The number of the record, from 0.
        record: usize,
    },
    /// An allocation failed.
    Memory,
}

impl fmt::Display for PutFault {
    fn fmt<W: fmt::Write>(&self, f: &mut fmt::Formatter<W>) -> fmt::Result {
        match self {
            PutFault::Misplaced { record } => write!(
                f,
                "record {record} is missing or out of place"
            ),
            PutFault::Memory => f.write_str("there is no memory left"),
        }
    }
}

impl Error for PutFault {}

impl From<AllocError> for PutFault {
    ghost use Rattle.std.specs.Prelude.{◌≡◌};
    ghost use Rattle.fast_records.specs.declared.putting.PutFault.TheVariants.{Memory};

    ghost from_gives = { λ _ fault. fault ≡ Memory };

    fn from(_error: AllocError) -> PutFault {
        PutFault::Memory
    }
}

/// An event between the parts of a message.
#[derive(Clone, Copy, Debug)]
enum Mark {
    ElementStart,
    ElementEnd,
    SequenceEnd,
    GroupEnd,
    MessageEnd,
}

/// The slots of a message, a group or an element.
type Slots = Vec<Option<Item>>;

/// Appends an item.
#[inline(always)]
pub(crate) fn push<T: Drop>(items: &mut Vec<T>, item: T) -> Result<(), AllocError>
    ensures { OnOk result (items.new.items ≡ items.old.items ++ item ∷ []) }
{
    match items.push(item) {
        Ok(()) => Ok(()),
        Err(refused) => Err(AllocError::from(refused)),
    }
}

/// Returns whether an event is this mark.
fn is_mark(mark: Mark, event: Event<'_>) -> bool
    ensures yes { IsTrue result → event_data event.entry ≡ mark_event mark }
    ensures no { IsFalse result → event_data event.entry ≢ mark_event mark }
{
    match mark {
        Mark::ElementStart => matches!(event, Event::ElementStart),
        Mark::ElementEnd => matches!(event, Event::ElementEnd),
        Mark::SequenceEnd => matches!(event, Event::SequenceEnd),
        Mark::GroupEnd => matches!(event, Event::GroupEnd),
        Mark::MessageEnd => matches!(event, Event::MessageEnd),
    }
}

/// Returns the event of this number, from 0; `None` past the end.
fn event_at<'e>(given: &[Event<'e>], at: usize) -> Option<Event<'e>>
    ensures inside { IfSome result (λ e. at < length given.now) }
    ensures first { IfSome result
        (λ e. map event_data (drop at given.now) ≡ event_data e ∷ map event_data (drop (at + 1) given.now)) }
    ensures none { IfNone result (map event_data (drop at given.now) ≡ []) }
{
    given.get(at).copied()
}

/// Returns the number of the event after a mark that has this number.
fn behind(mark: Mark, given: &[Event<'_>], at: usize) -> Result<usize, PutFault>
    ensures found { IfOk result
        (λ next. map event_data (drop at given.now) ≡ mark_event mark ∷ map event_data (drop next given.now)) }
    ensures none { IfErr result
        (λ f. (next : List EventData) → map event_data (drop at given.now) ≢ mark_event mark ∷ next) }
    ensures next { IfOk result (λ next. next ≤ length given.now) }
    ensures within { at ≤ length given.now → IfErr result (IsWithin (length given.now)) }
{
    match event_at(given, at) {
        Some(event) if is_mark(mark, event) => Ok(at + 1),
        _ => Err(PutFault::Misplaced { record: at }),
    }
}

/// Returns the value of a field of a node, if the event is one.
fn value_of<'e>(node: u32, event: Event<'e>) -> Option<Scalar<'e>>
    ensures some { IfSome result (λ v. event_data event.entry ≡ FieldValue node (scalar_data v)) }
    ensures none { IfNone result ((v : ScalarData) → event_data event.entry ≢ FieldValue node v) }
{
    match event {
        Event::Field { node: its, value } if its == node => Some(value),
        _ => None,
    }
}

/// Returns whether an event begins the group of a node.
fn is_group(node: u32, event: Event<'_>) -> bool
    ensures yes { IsTrue result → event_data event.entry ≡ GroupStart node }
    ensures no { IsFalse result → event_data event.entry ≢ GroupStart node }
{
    match event {
        Event::GroupStart { node: its } => its == node,
        _ => false,
    }
}

/// Returns the number of elements that follow, if the event begins the sequence of a node.
fn count_of(node: u32, event: Event<'_>) -> Option<u32>
    ensures some { IfSome result (λ n. event_data event.entry ≡ SequenceStart node n) }
    ensures none { IfNone result ((n : ℕ) → event_data event.entry ≢ SequenceStart node n) }
{
    match event {
        Event::SequenceStart { node: its, count } if its == node => Some(count),
        _ => None,
    }
}

/// Reads the slots of a body from the events from this number on, up to the mark that ends it, and returns them with the number of the
/// event after it.
#[cycle(putting)]
fn put_body(
    alloc: Global,
    templates: &Templates,
    body: &[u32],
    end: Mark,
    given: &[Event<'_>],
    at: usize,
) -> Result<(Slots, usize), PutFault>
    requires { AreBelow (length (nodes_of templates.now)) body.now }
    ensures put { IfOk result
        (λ r. IsBodyPut (body_among (nodes_of templates.now) body.now) end (slots_data r.0.items)
        (map event_data (drop at given.now)) (map event_data (drop r.1 given.now))) }
    ensures none { IfErr result (OnMisplaced
        (HasNoBody (body_among (nodes_of templates.now) body.now) end (map event_data (drop at given.now)))) }
    ensures next { at ≤ length given.now → IfOk result (λ r. r.1 ≤ length given.now) }
    ensures within { at ≤ length given.now → IfErr result (IsWithin (length given.now)) }
{
    let mut place = at;
    let mut slots = Vec::new(alloc);
    for node in body {
        let (item, next) = put_slot(alloc, templates, *node, given, place)?;
        push(&mut slots, item)?;
        place = next;
    }
    let next = behind(end, given, place)?;
    Ok((slots, next))
}

/// Reads the item of a node, if the events from this number on begin with it, and returns it with the number of the event after it.
#[cycle(putting)]
fn put_slot(
    alloc: Global,
    templates: &Templates,
    node: u32,
    given: &[Event<'_>],
    at: usize,
) -> Result<(Option<Item>, usize), PutFault>
    requires { node < length (nodes_of templates.now) }
    ensures put { IfOk result
        (λ r. IsSlotPut (instruction_in (nodes_of templates.now) node) (option_map item_data r.0)
        (map event_data (drop at given.now)) (map event_data (drop r.1 given.now))) }
    ensures passes { IfOk result (λ r. Passes (nodes_of templates.now) node
        (map event_data (drop at given.now)) (map event_data (drop r.1 given.now))) }
    ensures none { IfErr result (OnMisplaced
        (IsStuck (nodes_of templates.now) node (map event_data (drop at given.now)))) }
    ensures next { at ≤ length given.now → IfOk result (λ r. r.1 ≤ length given.now) }
    ensures within { at ≤ length given.now → IfErr result (IsWithin (length given.now)) }
{
    let Some(first) = event_at(given, at) else {
        return Ok((None, at));
    };
    match &templates.node(node).shape {
        Shape::Field(_) | Shape::Decimal { .. } => {
            let Some(value) = value_of(node, first) else {
                return Ok((None, at));
            };
            let value = Value::copy_of(alloc, value)?;
            Ok((Some(Item::One(value)), at + 1))
        }
        Shape::Group { body, .. } => {
            if !is_group(node, first) {
                return Ok((None, at));
            }
            let (slots, next) = put_body(alloc, templates, body, Mark::GroupEnd, given, at + 1)?;
            Ok((Some(Item::Group(slots)), next))
        }
        Shape::Sequence { body, .. } => {
            let Some(count) = count_of(node, first) else {
                return Ok((None, at));
            };
            let (rows, next) = put_rows(alloc, templates, body, count, given, at + 1)?;
            Ok((Some(Item::Sequence(rows)), next))
        }
    }
}

/// Reads that many elements of a sequence from the events from this number on, up to its end, and returns them with the number of the event
/// after it.
#[cycle(putting)]
fn put_rows(
    alloc: Global,
    templates: &Templates,
    body: &[u32],
    count: u32,
    given: &[Event<'_>],
    at: usize,
) -> Result<(Vec<Slots>, usize), PutFault>
    requires { AreBelow (length (nodes_of templates.now)) body.now }
    ensures put { IfOk result
        (λ r. AreRowsPut (body_among (nodes_of templates.now) body.now) count (elements_data r.0.items)
        (map event_data (drop at given.now)) (map event_data (drop r.1 given.now))) }
    ensures none { IfErr result (OnMisplaced
        (HasNoRows (body_among (nodes_of templates.now) body.now) count (map event_data (drop at given.now)))) }
    ensures next { at ≤ length given.now → IfOk result (λ r. r.1 ≤ length given.now) }
    ensures within { at ≤ length given.now → IfErr result (IsWithin (length given.now)) }
{
    let mut place = at;
    let mut rows = Vec::new(alloc);
    for _i in 0..count {
        let next = behind(Mark::ElementStart, given, place)?;
        let (row, next) = put_body(alloc, templates, body, Mark::ElementEnd, given, next)?;
        push(&mut rows, row)?;
        place = next;
    }
    let next = behind(Mark::SequenceEnd, given, place)?;
    Ok((rows, next))
}

/// Reads the message at the start of these events, and returns it with the number of the event after it.
fn put_message(
    alloc: Global,
    templates: &Templates,
    given: &[Event<'_>],
) -> Result<(Message, usize), PutFault>
    ensures put { IfOk result
        (λ r. map event_data given.now ≡ events (tree_of templates.now) (message_data r.0)
        ++ map event_data (drop r.1 given.now)) }
    ensures known { IfOk result (λ r. r.0.template < length (tree_of templates.now).templates) }
    ensures none { IfErr result (OnMisplaced (HasNoFront (tree_of templates.now) (map event_data given.now))) }
    ensures next { IfOk result (λ r. r.1 ≤ length given.now) }
    ensures within { IfErr result (IsWithin (length given.now)) }
{
    let Some(Event::MessageStart { template }) = event_at(given, 0) else {
        return Err(PutFault::Misplaced { record: 0 });
    };
    if template >= templates.count() {
        return Err(PutFault::Misplaced { record: 0 });
    }
    let body = &templates.template(template).body;
    let (items, next) = put_body(alloc, templates, body, Mark::MessageEnd, given, 1)?;
    Ok((Message { template, items }, next))
}

/// Returns the message that has these events. It does not check that the message suits its template; the encoder does.
///
/// # Errors
///
/// `Misplaced` at the first event that may not come next; `Memory` if an allocation failed.
pub fn message_of(
    alloc: Global,
    templates: &Templates,
    given: &[Event<'_>],
) -> Result<Message, PutFault>
    ensures ok { IfOk result (λ m. events (tree_of templates.now) (message_data m) ≡ map event_data given.now) }
    ensures known { IfOk result (λ m. m.template < length (tree_of templates.now).templates) }
    ensures misplaced { IfErr result (OnMisplaced (HasNoMessage (tree_of templates.now) (map event_data given.now))) }
    ensures within { IfErr result (IsWithin (length given.now)) }
{
    let (message, next) = put_message(alloc, templates, given)?;
    if next < given.len() {
        return Err(PutFault::Misplaced { record: next });
    }
    Ok(message)
}

/// Returns the message of these records and their string bytes.
///
/// # Errors
///
/// `Misplaced` at the first record that is not an event, else at the first that may not come next; `Memory` if an allocation failed.
pub fn message_of_records(
    alloc: Global,
    templates: &Templates,
    records: &[Record],
    texts: &[u8],
) -> Result<Message, PutFault>
    ensures ok { IfOk result
        (λ m. AreTold texts.now records.now (events (tree_of templates.now) (message_data m))) }
    ensures known { IfOk result (λ m. m.template < length (tree_of templates.now).templates) }
    ensures misplaced { IfErr result (OnMisplaced (AreNoMessage (tree_of templates.now) records.now texts.now)) }
    ensures placed { IfErr result (OnMisplacedAt (IsPlaced records.now texts.now)) }
{
    let given = events_of(alloc, records, texts)?;
    message_of(alloc, templates, &given)
}
