//! Records: events in a form of fixed size.

ghost use Rattle.std.specs.Prelude.{◌≡◌};
ghost use Rattle.fast_value.specs.meaning.Values.{scalar_data};
ghost use Rattle.fast_stream.specs.meaning.Handed.{event_data};
ghost use Rattle.fast_records.specs.device.Lent.{content};
ghost use Rattle.fast_records.specs.meaning.Records.{mark, text_record, field_record, record_of, ending_at, event_text};

use fast_stream::Event;
use fast_value::Scalar;

/// An event in 24 bytes. Its string, if it has one, lies in a separate buffer; the record holds its offset and its length.
#[repr(C)]
#[derive(Clone, Copy, Debug, PartialEq, Eq)]
pub struct Record {
    /// The type of the event, one of the constants of this module.
    pub kind: u32,
    /// The number of the template (`MESSAGE_START`), or of the field, group or sequence; 0 for all other events.
    pub node: u32,
    /// An unsigned integer; a signed integer or a mantissa, in two's complement; the number of elements; the offset of a string; or the
    /// offset in the stream at which a message ends.
    pub value: u64,
    /// The length of a string in bytes, else 0.
    pub length: u32,
    /// The exponent of a decimal, else 0.
    pub exponent: i32,
}

/// A message starts; `node` is the number of its template.
pub const MESSAGE_START: u32 = 1;
/// A field has the unsigned integer `value`.
pub const UNSIGNED: u32 = 2;
/// A field has the signed integer `value`.
pub const SIGNED: u32 = 3;
/// A field has a decimal: `value` times ten to `exponent`.
pub const DECIMAL: u32 = 4;
/// A field has an ASCII string.
pub const ASCII: u32 = 5;
/// A field has a Unicode string, in UTF-8.
pub const UNICODE: u32 = 6;
/// A field has a byte vector.
pub const BYTES: u32 = 7;
/// The group `node` starts.
pub const GROUP_START: u32 = 8;
/// The innermost group ends.
pub const GROUP_END: u32 = 9;
/// The sequence `node` starts; `value` is the number of its elements.
pub const SEQUENCE_START: u32 = 10;
/// An element of the innermost sequence starts.
pub const ELEMENT_START: u32 = 11;
/// An element of the innermost sequence ends.
pub const ELEMENT_END: u32 = 12;
/// The innermost sequence ends.
pub const SEQUENCE_END: u32 = 13;
/// The message ends; `value` is the number of bytes of the stream up to its end, as a decoder writes it. An encoder takes any.
pub const MESSAGE_END: u32 = 14;

/// The greatest string length that a record can hold. The limits of a decoder keep strings below 2^21 bytes.
const MAX_LENGTH: usize = 0xffff_ffff;

/// Returns the record of an event that has neither string nor exponent.
#[inline(always)]
pub(crate) fn mark(kind: u32, node: u32, value: u64) -> Record
    ensures { result ≡ mark kind node value }
{
    content(kind, node, value, 0)
}

/// Returns the record of an event that has no string.
#[inline(always)]
pub(crate) fn content(kind: u32, node: u32, value: u64, exponent: i32) -> Record
    ensures { result ≡ content kind node value exponent }
{
    Record {
        kind,
        node,
        value,
        length: 0,
        exponent,
    }
}

/// Returns the record of a string at an offset (`place`).
#[inline(always)]
pub(crate) fn text_record(kind: u32, node: u32, place: u64, text: &[u8]) -> Record
    ensures { result ≡ text_record kind node place text.now }
{
    let length = text.len().min(MAX_LENGTH) as u32;
    Record {
        kind,
        node,
        value: place,
        length,
        exponent: 0,
    }
}

/// Returns the record of a field; if its value is a string, the string is at the offset `place`.
#[inline(always)]
fn field_record(node: u32, place: u64, value: Scalar<'_>) -> Record
    ensures { result ≡ field_record place node (scalar_data value.entry) }
{
    match value {
        Scalar::U(number) => mark(UNSIGNED, node, number),
        Scalar::I(number) => mark(SIGNED, node, number.cast_unsigned()),
        Scalar::Dec { exponent, mantissa } => {
            content(DECIMAL, node, mantissa.cast_unsigned(), exponent)
        }
        Scalar::Ascii(text) => text_record(ASCII, node, place, text),
        Scalar::Unicode(text) => text_record(UNICODE, node, place, text),
        Scalar::Bytes(text) => text_record(BYTES, node, place, text),
    }
}

/// Returns the record of an event; if it has a string, the string is at the offset `place`.
#[inline(always)]
pub(crate) fn record_of(event: Event<'_>, place: u64) -> Record
    ensures { result ≡ record_of place (event_data event.entry) }
{
    match event {
        Event::MessageStart { template } => mark(MESSAGE_START, template, 0),
        Event::Field { node, value } => field_record(node, place, value),
        Event::GroupStart { node } => mark(GROUP_START, node, 0),
        Event::GroupEnd => mark(GROUP_END, 0, 0),
        Event::SequenceStart { node, count } => mark(SEQUENCE_START, node, u64::from(count)),
        Event::ElementStart => mark(ELEMENT_START, 0, 0),
        Event::ElementEnd => mark(ELEMENT_END, 0, 0),
        Event::SequenceEnd => mark(SEQUENCE_END, 0, 0),
        Event::MessageEnd => mark(MESSAGE_END, 0, 0),
    }
}

/// Returns the record with this value, if it is of the end of a message, else the record as it is.
#[inline(always)]
pub(crate) fn ending_at(value: u64, record: Record) -> Record
    ensures { result ≡ ending_at value «record» }
{
    if record.kind == MESSAGE_END {
        Record { value, ..record }
    } else {
        record
    }
}

/// Returns the string bytes of an event, empty if it has none.
#[inline(always)]
pub(crate) fn text_of(event: Event<'_>) -> &[u8]
    ensures { result.now ≡ event_text (event_data event.entry) }
{
    match event {
        Event::Field {
            node: _,
            value: Scalar::Ascii(text) | Scalar::Unicode(text) | Scalar::Bytes(text),
        } => text,
        _ => &[],
    }
}
