//! The content of the stream for a value that is sent.

ghost use Rattle.std.specs.Prelude.{◌≡◌, ◌^◌, ℕ, pos, neg_ℤ, ◌-ℤ◌, ◌≤ℤ◌, ◌<ℤ◌, List, Ok, IfSome, IfNone, option_map};
ghost use Rattle.fast_value.specs.meaning.Kinds.{ScalarData, family, text_of, value_of_text};
ghost use Rattle.fast_value.specs.meaning.Values.{scalar_data};
ghost use Rattle.fast_tree.specs.meaning.Nodes.{field_data};
ghost use Rattle.fast_dict.specs.meaning.Operators.{Sent as SentData, delta_base, tail_base};
ghost use Rattle.fast_dict.specs.meaning.Previous.{previous_data};
ghost use Rattle.fast_dict.specs.meaning.Rule.{SentFor, IsDelta, IsTail, IsTextDelta};
ghost use Rattle.fast_dict.specs.meaning.Sending.{sent_data, text_item};

use super::common::{common_back, common_front, is_same_value};
use crate::operators::decimals::{exponent_of, mantissa_of};
use crate::operators::integers::integer_of;
use crate::operators::texts::text_of;
use crate::operators::{Sent, delta_base, initial_value, tail_base};
use crate::previous::Previous;
use fast_tree::{FieldInstruction, Operator};
use fast_value::{Kind, Scalar};

/// Returns the content of the stream for a value, or for its absence, under a set presence bit, if any is possible.
pub fn item_for<'a, 'p>(
    field: &'p FieldInstruction,
    previous: Previous<'p>,
    value: Option<Scalar<'a>>,
) -> Option<Sent<'a>>
    ensures some { IfSome result (λ s. SentFor (field_data field.now) (previous_data previous.entry)
        (option_map scalar_data value.entry) (sent_data s)) }
    ensures none { IfNone result ((item : SentData) → ¬ (SentFor (field_data field.now) (previous_data previous.entry)
        (option_map scalar_data value.entry) item)) }
{
    match (field.operator, value) {
        (Operator::Constant, _) => {
            if is_same_value(value, initial_value(field)) {
                Some(Sent::Nothing)
            } else {
                None
            }
        }
        (_, None) => Some(Sent::Null),
        (Operator::Delta, Some(value)) => delta_for(field, previous, value),
        (Operator::Tail, Some(value)) => tail_for(field, previous, value),
        (_, Some(value)) => Some(Sent::Value(value)),
    }
}

/// Returns the delta from the base to a value, if there is a base.
fn delta_for<'a, 'p>(
    field: &'p FieldInstruction,
    previous: Previous<'p>,
    value: Scalar<'a>,
) -> Option<Sent<'a>>
    ensures some { IfSome result (λ s. (base : ScalarData)
        × (delta_base (field_data field.now) (previous_data previous.entry) ≡ Ok base)
        × IsDelta (family field.now.kind) base (scalar_data value.entry) (sent_data s)) }
    ensures none { IfNone result ((base : ScalarData)
        → ¬ (delta_base (field_data field.now) (previous_data previous.entry) ≡ Ok base)) }
{
    match delta_base(field, previous) {
        Ok(base) => Some(difference(field.kind, base, value)),
        Err(_) => None,
    }
}

/// Returns the delta from one value of a type to another.
fn difference<'a>(kind: Kind, base: Scalar<'_>, value: Scalar<'a>) -> Sent<'a>
    ensures { IsDelta (family kind) (scalar_data base.entry) (scalar_data value.entry) (sent_data result) }
{
    match kind {
        Kind::UInt32 | Kind::Int32 | Kind::UInt64 | Kind::Int64 => {
            Sent::IntegerDelta(minus(integer_of(value), integer_of(base)))
        }
        Kind::Decimal => {
            let exponent = minus(exponent_of(value), exponent_of(base));
            let mantissa = minus(mantissa_of(value), mantissa_of(base));
            Sent::DecimalDelta(exponent, mantissa)
        }
        Kind::Ascii | Kind::Unicode | Kind::Bytes => text_delta(text_of(base), text_of(value)),
    }
}

/// Returns the difference of two integers of 65 bits.
fn minus(a: i128, b: i128) -> i128
    requires low_a { neg_ℤ (pos (2 ^ 63)) ≤ℤ a }
    requires high_a { a <ℤ pos (2 ^ 64) }
    requires low_b { neg_ℤ (pos (2 ^ 63)) ≤ℤ b }
    requires high_b { b <ℤ pos (2 ^ 64) }
    ensures { result ≡ a -ℤ b }
{
    a - b
}

/// Returns the delta from one string to another: the part after the common prefix is appended, or, if that is shorter, the part before the
/// common suffix is prepended.
pub fn text_delta<'a>(base: &[u8], text: &'a [u8]) -> Sent<'a>
    ensures { IsTextDelta base.now text.now (sent_data result) }
{
    let front = common_front(base, text);
    let back = common_back(base, text);
    if back <= front {
        let taken = (base.len() - front) as i128;
        Sent::TextDelta(taken, &text[front..])
    } else {
        let taken = (base.len() - back) as i128;
        Sent::TextDelta(-1 - taken, &text[..text.len() - back])
    }
}

/// Returns the tail that makes a value of the base, if there is a base and the value is no shorter.
fn tail_for<'a, 'p>(
    field: &'p FieldInstruction,
    previous: Previous<'p>,
    value: Scalar<'a>,
) -> Option<Sent<'a>>
    ensures some { IfSome result (λ s. (base : ScalarData) × (part : List ℕ)
        × (tail_base (field_data field.now) (previous_data previous.entry) ≡ Ok base)
        × IsTail (text_of base) (text_of (scalar_data value.entry)) part
        × (sent_data s ≡ text_item field.now.kind part)) }
    ensures none { IfNone result ((base : ScalarData) (part : List ℕ)
        → tail_base (field_data field.now) (previous_data previous.entry) ≡ Ok base
        → ¬ (IsTail (text_of base) (text_of (scalar_data value.entry)) part)) }
{
    let Ok(base) = tail_base(field, previous) else {
        return None;
    };
    match tail_of(text_of(base), text_of(value)) {
        Some(part) => Some(Sent::Value(text_value(field.kind, part))),
        None => None,
    }
}

/// Returns the tail that makes one string of another, if it is no shorter.
pub fn tail_of<'a>(base: &[u8], text: &'a [u8]) -> Option<&'a [u8]>
    ensures some { IfSome result (λ part. IsTail base.now text.now part.now) }
    ensures none { IfNone result ((part : List ℕ) → ¬ (IsTail base.now text.now part)) }
{
    if text.len() < base.len() {
        return None;
    }
    if text.len() > base.len() {
        return Some(text);
    }
    Some(&text[common_front(base, text)..])
}

/// Returns a string as a value of a string type.
pub fn text_value(kind: Kind, text: &[u8]) -> Scalar<'_>
    ensures { scalar_data result ≡ value_of_text kind text.now }
{
    match kind {
        Kind::Unicode => Scalar::Unicode(text),
        Kind::Bytes => Scalar::Bytes(text),
        _ => Scalar::Ascii(text),
    }
}
