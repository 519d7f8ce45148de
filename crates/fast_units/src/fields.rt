//! Fields and their entries: the sources of their values, and the values of fields of which nothing is sent.

ghost use Rattle.std.specs.Prelude.{◌≡◌, ◌≢◌, IfSome, [], ℕ, ◌^◌, true, false, List, Some, None, Ok, option_map, pos, neg_ℤ, ◌≤ℤ◌};
ghost use Rattle.fast_value.specs.meaning.Kinds.{integer_of, value_of_integer, value_of_text};
ghost use Rattle.fast_value.specs.meaning.Values.{scalar_data};
ghost use Rattle.fast_value.specs.meaning.Limits.{Bounds};
ghost use Rattle.fast_tree.specs.meaning.Nodes.{field_data};
ghost use Rattle.fast_tree.specs.meaning.Tree.{FieldData};
ghost use Rattle.fast_dict.specs.meaning.Entry.{text_length, with_text};
ghost use Rattle.fast_dict.specs.meaning.Answers.{left_data, started};
ghost use Rattle.fast_dict.specs.meaning.Dictionary.{Dictionary, PreviousData, assigned, empty, write_at};
ghost use Rattle.fast_dict.specs.meaning.Operators.{incremented, decide, nothing, range_of};
ghost use Rattle.fast_dict.specs.meaning.Previous.{previous_data};
ghost use Rattle.fast_dict.specs.meaning.Slots.{slots_dictionary, slots_terms};
ghost use Rattle.fast_dict.specs.meaning.Stores.{IsStorable};
ghost use Rattle.fast_stream.specs.meaning.Fields.{field_term};
ghost use Rattle.fast_stream.specs.meaning.Grammar.{of_result};
ghost use Rattle.fast_units.specs.device.Settling.{IsSettled, value_at};
ghost use Rattle.fast_units.specs.device.Deciding.{needs_bytes, number_data, source_of};
ghost use Rattle.fast_units.specs.device.Words.{ServesField, HasEntryOf, previous_of, IsDecidedIn};

use crate::source::ValueSource;
use fast_dict::operators::integers::integer_of;
use fast_dict::operators::unsent::next_integer;
use fast_dict::operators::{Left, initial_value, leave};
use fast_dict::{Entry, Previous, Slots, Store};
use fast_tree::{FieldInstruction, Operator};
use fast_value::{Code, Kind, Scalar};

/// A number, as the value of a field.
#[derive(Clone, Copy, Debug)]
pub enum Number {
    /// An unsigned number.
    Unsigned(u64),
    /// A signed number.
    Signed(i64),
    /// A decimal.
    Decimal {
        /// The exponent.
        exponent: i32,
        /// The mantissa.
        mantissa: i64,
    },
}

impl Number {
    /// Returns an integer as a value of a type.
    #[inline]
    pub fn of_integer(kind: Kind, integer: i128) -> Number
        requires low { neg_ℤ (pos (2 ^ 63)) ≤ℤ integer }
        requires high { integer ≤ℤ (range_of kind).high }
        ensures { number_data result ≡ value_of_integer kind integer }
    {
        match kind {
            Kind::UInt32 | Kind::UInt64 if integer >= 0 => Number::Unsigned(integer as u64),
            _ => Number::Signed(integer as i64),
        }
    }

    /// Returns the number as a borrowed value.
    #[inline]
    pub fn as_scalar(self) -> Scalar<'static>
        ensures { scalar_data result ≡ number_data self }
    {
        match self {
            Number::Unsigned(number) => Scalar::U(number),
            Number::Signed(number) => Scalar::I(number),
            Number::Decimal { exponent, mantissa } => Scalar::Dec { exponent, mantissa },
        }
    }

    /// Returns the entry that holds the number under the type.
    #[inline(always)]
    pub fn held_under(self, kind: Kind) -> Entry
        ensures value { with_text result [] ≡ assigned kind (number_data self) }
        ensures number { text_length result ≡ 0 }
    {
        match self {
            Number::Unsigned(number) => Entry::of_unsigned(kind, number),
            Number::Signed(number) => Entry::of_signed(kind, number),
            Number::Decimal { exponent, mantissa } => Entry::of_decimal(kind, exponent, mantissa),
        }
    }

    /// Returns the source that holds the number itself.
    #[inline]
    pub fn source(self) -> ValueSource
        ensures { (f : FieldData) (d : Dictionary) (scratch piece : List ℕ)
            → value_at result f d scratch piece ≡ Some (number_data self) }
    {
        match self {
            Number::Unsigned(number) => ValueSource::Unsigned(number),
            Number::Signed(number) => ValueSource::Signed(number),
            Number::Decimal { exponent, mantissa } => ValueSource::Decimal { exponent, mantissa },
        }
    }
}

/// Returns the source that holds a number itself, or absence for NULL.
#[inline(always)]
pub fn source_of(item: Option<Number>) -> ValueSource
    ensures { result ≡ source_of item }
{
    match item {
        Some(number) => number.source(),
        None => ValueSource::Absent,
    }
}

/// Returns whether the field has bytes in the stream.
#[inline]
pub fn needs_bytes(field: &FieldInstruction, bit: bool) -> bool
    ensures needed { result ≡ needs_bytes field.now.operator bit }
    ensures sent { result ≡ true → (l : Bounds) (p : PreviousData)
        → field_term l (field_data field.now) p bit ≡ field_term l (field_data field.now) p true }
    ensures operator { result ≡ true → field.now.operator ≢ Operator.Constant }
    ensures unsent { result ≡ false → (l : Bounds) (p : PreviousData)
        → field_term l (field_data field.now) p bit ≡ of_result (decide (field_data field.now) p bit nothing) }
{
    is_needed(field.operator, bit)
}

/// Returns whether a field has bytes in the stream, by its operator.
#[inline]
fn is_needed(operator: Operator, bit: bool) -> bool
    ensures { result ≡ needs_bytes operator bit }
{
    match operator {
        Operator::None | Operator::Delta => true,
        Operator::Constant => false,
        Operator::Default | Operator::Copy | Operator::Increment | Operator::Tail => bit,
    }
}

/// Returns the contents of the field's entry. Without an entry it is undefined.
#[inline(always)]
pub fn previous<'s>(slots: &'s Slots, field: &FieldInstruction) -> Previous<'s>
    requires within { HasEntryOf slots.now field.now }
    ensures { previous_data result ≡ previous_of slots.now field.now }
{
    match field.entry {
        Some(entry) => slots.get(entry as usize),
        None => Previous::Undefined,
    }
}

/// Assigns a value to the field's entry, if it has one. It does not allocate.
#[inline(always)]
pub fn assign(slots: &mut Slots, field: &FieldInstruction, value: Scalar<'_>)
    requires within { HasEntryOf slots.old field.now }
    requires room { (e : ℕ) → (field_data field.now).entry ≡ Some e
        → IsStorable (slots_terms slots.old) e (scalar_data value) }
    ensures entry { slots_dictionary slots.new
        ≡ write_at (field_data field.now).entry (assigned field.now.kind (scalar_data value.entry))
        (slots_dictionary slots.old) }
    ensures terms { slots_terms slots.new ≡ slots_terms slots.old }
{
    if let Some(entry) = field.entry {
        let _ = slots.set(entry as usize, field.kind, value);
    }
}

/// Makes the field's entry empty, if it has one.
#[inline]
pub fn assign_empty(slots: &mut Slots, field: &FieldInstruction)
    requires within { HasEntryOf slots.old field.now }
    ensures entry { slots_dictionary slots.new
        ≡ write_at (field_data field.now).entry empty (slots_dictionary slots.old) }
    ensures terms { slots_terms slots.new ≡ slots_terms slots.old }
{
    if let Some(entry) = field.entry {
        slots.set_empty(entry as usize);
    }
}

/// Stores a number at the field's entry, if it has one.
#[inline(always)]
pub fn keep_number(slots: &mut Slots, field: &FieldInstruction, kind: Kind, number: Number)
    requires kind { kind ≡ field.now.kind }
    requires within { HasEntryOf slots.old field.now }
    ensures entry { slots_dictionary slots.new
        ≡ write_at (field_data field.now).entry (assigned field.now.kind (number_data number))
        (slots_dictionary slots.old) }
    ensures terms { slots_terms slots.new ≡ slots_terms slots.old }
{
    if let Some(entry) = field.entry {
        slots.set_number(entry as usize, number.held_under(kind));
    }
}

/// Stores a number at the field's entry, if it has one, and returns its source.
#[inline]
pub fn keep(slots: &mut Slots, field: &FieldInstruction, number: Number) -> ValueSource
    requires within { HasEntryOf slots.old field.now }
    ensures value { (d : Dictionary) (scratch piece : List ℕ)
        → value_at result (field_data field.now) d scratch piece ≡ Some (number_data number) }
    ensures entry { slots_dictionary slots.new
        ≡ write_at (field_data field.now).entry (assigned field.now.kind (number_data number))
        (slots_dictionary slots.old) }
    ensures terms { slots_terms slots.new ≡ slots_terms slots.old }
{
    keep_number(slots, field, field.kind, number);
    number.source()
}

/// Returns the number of an entry under this type.
#[inline(always)]
pub fn number_under(kind: Kind, entry: Entry) -> Option<Number>
    ensures { IfSome result (λ n. (text : List ℕ) → with_text entry text ≡ assigned kind (number_data n)) }
{
    match (kind, entry) {
        (Kind::UInt32, Entry::UInt32(number)) => Some(Number::Unsigned(number)),
        (Kind::UInt64, Entry::UInt64(number)) => Some(Number::Unsigned(number)),
        (Kind::Int32, Entry::Int32(number)) => Some(Number::Signed(number)),
        (Kind::Int64, Entry::Int64(number)) => Some(Number::Signed(number)),
        (Kind::Decimal, Entry::Decimal(exponent, mantissa)) => {
            Some(Number::Decimal { exponent, mantissa })
        }
        _ => None,
    }
}

/// Decodes a field of which nothing is sent, and changes its entry accordingly.
///
/// # Errors
///
/// D4 if the previous value is of another type; of a mandatory field D5 if there is neither a previous nor an initial value, and D6 if the
/// previous value is empty.
#[inline(never)]
pub fn unsent(slots: &mut Slots, field: &FieldInstruction, bit: bool) -> Result<ValueSource, Code>
    requires serves { ServesField slots.old field.now }
    ensures decided { IsDecidedIn (decide (field_data field.now) (previous_of slots.old field.now) bit nothing)
        field.now slots.old slots.new result }
    ensures terms { slots_terms slots.new ≡ slots_terms slots.old }
{
    match leave(field, previous(slots, field), bit)? {
        Left::Absent => Ok(ValueSource::Absent),
        Left::Emptied => {
            assign_empty(slots, field);
            Ok(ValueSource::Absent)
        }
        Left::Initial => Ok(ValueSource::Initial),
        Left::Started => {
            start(slots, field);
            Ok(ValueSource::Initial)
        }
        Left::Copied => Ok(ValueSource::Entry),
        Left::Increased => Ok(increase(slots, field)),
    }
}

/// Stores the initial value, if there is one, at the field's entry.
fn start(slots: &mut Slots, field: &FieldInstruction)
    requires serves { ServesField slots.old field.now }
    ensures entry { slots_dictionary slots.new ≡ write_at (field_data field.now).entry
        (started field.now.kind (field_data field.now).initial (previous_of slots.old field.now))
        (slots_dictionary slots.old) }
    ensures terms { slots_terms slots.new ≡ slots_terms slots.old }
{
    if let Some(value) = initial_value(field) {
        assign(slots, field, value);
    }
}

/// Increments the value of the field's entry, and returns its source: absent, if the entry holds no value.
fn increase(slots: &mut Slots, field: &FieldInstruction) -> ValueSource
    requires serves { ServesField slots.old field.now }
    ensures settled { (scratch piece : List ℕ) → IsSettled
        (left_data Left.Increased (field_data field.now) (previous_of slots.old field.now)) (field_data field.now) result
        (slots_dictionary slots.old) (slots_dictionary slots.new) scratch piece }
    ensures terms { slots_terms slots.new ≡ slots_terms slots.old }
{
    match previous(slots, field) {
        Previous::Assigned(_, value) => {
            let next = next_number(field.kind, value);
            keep(slots, field, next)
        }
        Previous::Undefined | Previous::Empty => ValueSource::Absent,
    }
}

/// Returns the value plus one, or the least value of the type if it was the greatest.
#[inline]
fn next_number(kind: Kind, value: Scalar<'_>) -> Number
    ensures { number_data result
        ≡ value_of_integer kind (incremented (range_of kind) (integer_of (scalar_data value.entry))) }
{
    Number::of_integer(kind, integer_of(next_integer(kind, value)))
}

/// Borrows the value at a source.
#[inline(always)]
pub fn value_at<'x>(
    slots: &'x Slots,
    field: &'x FieldInstruction,
    scratch: &'x [u8],
    piece: &'x [u8],
    source: ValueSource,
) -> Option<Scalar<'x>>
    requires within { HasEntryOf slots.now field.now }
    ensures { option_map scalar_data result
        ≡ value_at source (field_data field.now) (slots_dictionary slots.now) scratch.now piece.now }
{
    match source {
        ValueSource::Absent => None,
        ValueSource::Unsigned(number) => Some(Scalar::U(number)),
        ValueSource::Signed(number) => Some(Scalar::I(number)),
        ValueSource::Decimal { exponent, mantissa } => Some(Scalar::Dec { exponent, mantissa }),
        ValueSource::Entry => previous(slots, field).value(),
        ValueSource::Initial => initial_value(field),
        ValueSource::Scratch => Some(text_value(field.kind, scratch)),
        ValueSource::Piece => Some(text_value(field.kind, piece)),
    }
}

/// Returns a string as a value of a string type.
#[inline]
pub fn text_value(kind: Kind, text: &[u8]) -> Scalar<'_>
    ensures { scalar_data result ≡ value_of_text kind text.now }
{
    match kind {
        Kind::Unicode => Scalar::Unicode(text),
        Kind::Bytes => Scalar::Bytes(text),
        _ => Scalar::Ascii(text),
    }
}
