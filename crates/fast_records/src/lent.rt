//! Conversion of records back to events, whose strings are borrowed.

ghost use Rattle.std.specs.Prelude.{◌≡◌, ◌≤◌, ◌<◌, List, [], length, map, take, drop, IfOk, IfErr, IfSome, IfNone};
ghost use Rattle.fast_value.specs.meaning.Kinds.{text_of};
ghost use Rattle.fast_value.specs.meaning.Values.{scalar_data};
ghost use Rattle.fast_stream.specs.meaning.Events.{EventData, FieldValue};
ghost use Rattle.fast_stream.specs.meaning.Handed.{event_data};
ghost use Rattle.fast_records.specs.meaning.Records.{event_text};
ghost use Rattle.fast_records.specs.meaning.Lent.{Tells, AreTold};
ghost use Rattle.fast_records.specs.meaning.Putting.{OnMisplaced, OnMisplacedAt, IsPlaced};
ghost use Rattle.fast_records.specs.device.Lent.{event_back, IsOf, HasNoEvent};

use crate::putting::{PutFault, push};
use crate::records::{
    ASCII, BYTES, DECIMAL, ELEMENT_END, ELEMENT_START, GROUP_END, GROUP_START, MESSAGE_END,
    MESSAGE_START, Record, SEQUENCE_END, SEQUENCE_START, SIGNED, UNICODE, UNSIGNED, ending_at,
    record_of,
};
use fast_stream::Event;
use fast_value::Scalar;
use std::alloc::Global;

/// Returns the scalar of a record that holds a number; `None` if it holds none.
fn number_of(record: Record) -> Option<Scalar<'static>>
    ensures text { IfSome result (λ v. text_of (scalar_data v) ≡ []) }
    ensures some { IfSome result (λ v. FieldValue «record».node (scalar_data v) ≡ event_back «record» []) }
    ensures none { IfNone result (¬ ((2 ≤ «record».kind) × («record».kind ≤ 4))) }
{
    match record.kind {
        UNSIGNED => Some(Scalar::U(record.value)),
        SIGNED => Some(Scalar::I(record.value.cast_signed())),
        DECIMAL => Some(Scalar::Dec {
            exponent: record.exponent,
            mantissa: record.value.cast_signed(),
        }),
        _ => None,
    }
}

/// Returns the event of a record without a string; `None` if the record is not one.
fn mark_of(record: Record) -> Option<Event<'static>>
    ensures text { IfSome result (λ e. event_text (event_data e) ≡ []) }
    ensures some { IfSome result (λ e. event_data e ≡ event_back «record» []) }
    ensures none { IfNone result
        ((e : EventData) → IsOf «record» [] e → (5 ≤ «record».kind) × («record».kind ≤ 7)) }
{
    let node = record.node;
    match record.kind {
        MESSAGE_START => Some(Event::MessageStart { template: node }),
        GROUP_START => Some(Event::GroupStart { node }),
        GROUP_END => Some(Event::GroupEnd),
        SEQUENCE_START => match u32::try_from(record.value) {
            Ok(count) => Some(Event::SequenceStart { node, count }),
            Err(_) => None,
        },
        ELEMENT_START => Some(Event::ElementStart),
        ELEMENT_END => Some(Event::ElementEnd),
        SEQUENCE_END => Some(Event::SequenceEnd),
        MESSAGE_END => Some(Event::MessageEnd),
        _ => Some(Event::Field {
            node,
            value: number_of(record)?,
        }),
    }
}

/// Returns the field event of a record's type and node with these string bytes; `None` if its type has no string.
fn text_field(record: Record, text: &[u8]) -> Option<Event<'_>>
    ensures text { IfSome result (λ e. event_text (event_data e) ≡ text.now) }
    ensures some { IfSome result (λ e. event_data e ≡ event_back «record» text.now) }
    ensures none { IfNone result (¬ ((5 ≤ «record».kind) × («record».kind ≤ 7))) }
{
    let node = record.node;
    let value = match record.kind {
        ASCII => Scalar::Ascii(text),
        UNICODE => Scalar::Unicode(text),
        BYTES => Scalar::Bytes(text),
        _ => return None,
    };
    Some(Event::Field { node, value })
}

/// Returns the event of a record with these string bytes; `None` if the record is not one of an event.
pub(crate) fn event_with(record: Record, text: &[u8]) -> Option<Event<'_>>
    ensures text { IfSome result (λ e. event_text (event_data e) ≡ text.now) }
    ensures some { IfSome result (λ e. event_data e ≡ event_back «record» text.now) }
    ensures none { IfNone result (HasNoEvent «record» text.now) }
{
    if record.kind >= ASCII && record.kind <= BYTES {
        return text_field(record, text);
    }
    if !text.is_empty() {
        return None;
    }
    mark_of(record)
}

/// Returns the string bytes of a record, empty if it has none; `None` if they do not lie within `texts`.
fn text_in(record: Record, texts: &[u8]) -> Option<&[u8]>
    ensures some { IfSome result (λ t. t.now ≡ take «record».length (drop «record».value texts.now)) }
    ensures none { IfNone result (length (take «record».length (drop «record».value texts.now)) < «record».length) }
{
    if record.length == 0 {
        return Some(&[]);
    }
    texts
        .get(record.value as usize..)?
        .get(..record.length as usize)
}

/// Returns the event of a record; `None` if the record is not one of an event. Fields that its `kind` does not use must be 0. The offset at
/// which a message ends may be any.
fn lent(record: Record, texts: &[u8]) -> Option<Event<'_>>
    ensures some { IfSome result (λ e. Tells texts.now «record» (event_data e)) }
    ensures none { IfNone result ((e : EventData) → ¬ (Tells texts.now «record» e)) }
{
    let event = event_with(record, text_in(record, texts)?)?;
    if record_of(event, record.value) == ending_at(0, record) {
        Some(event)
    } else {
        None
    }
}

/// Returns the events of records, whose strings may lie anywhere in `texts`.
pub fn events_of<'a>(
    alloc: Global,
    records: &[Record],
    texts: &'a [u8],
) -> Result<Vec<Event<'a>>, PutFault>
    ensures told { IfOk result (λ es. AreTold texts.now records.now (map event_data es.items)) }
    ensures none { IfErr result (OnMisplaced ((es : List EventData) → ¬ (AreTold texts.now records.now es))) }
    ensures placed { IfErr result (OnMisplacedAt (IsPlaced records.now texts.now)) }
{
    let mut events = Vec::with_capacity(alloc, records.len())?;
    for (i, record) in records.iter().enumerate() {
        match lent(*record, texts) {
            Some(event) => push(&mut events, event)?,
            None => return Err(PutFault::Misplaced { record: i }),
        }
    }
    Ok(events)
}
