//! Comparisons of a field's entry with the value that is to be written.

ghost use Rattle.std.specs.Prelude.{◌≡◌, ◌≤◌, ◌↔◌, Some, length, IsTrue, IfSome};
ghost use Rattle.fast_value.specs.meaning.Kinds.{integer_of, text_of, value_of_integer};
ghost use Rattle.fast_value.specs.meaning.Values.{scalar_data};
ghost use Rattle.fast_tree.specs.meaning.Nodes.{field_data};
ghost use Rattle.fast_dict.specs.meaning.Dictionary.{assigned, previous_at};
ghost use Rattle.fast_dict.specs.meaning.Operators.{incremented, range_of};
ghost use Rattle.fast_spelling.specs.device.Places.{field_there};
ghost use Rattle.fast_spelling.specs.device.Fields.{IsServed};

use crate::known::Known;
use crate::ledger::Ledger;
use fast_dict::operators::unsent::next_integer;
use fast_value::{Kind, Scalar, Value};

/// Returns whether the value is the field's initial value.
#[inline(always)]
pub fn is_initial(at: Known<'_>, value: Scalar<'_>) -> bool
    ensures { IsTrue result ↔ ((field_data (field_there at.entry.place)).initial ≡ Some (scalar_data value.entry)) }
{
    let Some(initial) = &at.field().initial else {
        return false;
    };
    match (initial, value) {
        (Value::U(initial), Scalar::U(number)) => *initial == number,
        (Value::I(initial), Scalar::I(number)) => *initial == number,
        (Value::Ascii(initial), Scalar::Ascii(text)) => is_same_text(initial, text),
        (initial, _) => is_same(initial.as_scalar(), value),
    }
}

/// Returns whether the field's entry holds this integer, which a field of its type assigned.
#[inline(always)]
pub fn is_held(ledger: &Ledger, at: Known<'_>, value: Scalar<'_>) -> bool
    requires { IsServed ledger.now (field_data (field_there at.place)) }
    ensures { IsTrue result → previous_at (field_data (field_there at.entry.place)).entry ledger.now.now
        ≡ assigned (field_data (field_there at.entry.place)).kind (scalar_data value.entry) }
{
    match held_number_in(ledger, at, value) {
        Some(held) => is_same(held, value),
        None => false,
    }
}

/// Returns the value of the field's entry, with its string borrowed; `None` if it is not of the field's type, or not of the same variant as
/// `value`.
#[inline(always)]
pub fn held_in<'a>(ledger: &'a Ledger, at: Known<'_>, value: Scalar<'_>) -> Option<Scalar<'a>>
    requires { IsServed ledger.now (field_data (field_there at.place)) }
    ensures value { IfSome result (λ held. previous_at (field_data (field_there at.entry.place)).entry ledger.now.now
        ≡ assigned (field_data (field_there at.entry.place)).kind (scalar_data held)) }
    ensures short { IfSome result (λ held. length (text_of (scalar_data held)) ≤ ledger.now.max_text) }
{
    let Some(entry) = at.entry else {
        return None;
    };
    match value {
        Scalar::U(_) => ledger.unsigned_at(entry as usize, at.kind),
        Scalar::I(_) => ledger.signed_at(entry as usize, at.kind),
        Scalar::Dec { .. } => ledger.decimal_at(entry as usize, at.kind),
        Scalar::Ascii(_) => ledger.ascii_at(entry as usize, at.kind),
        Scalar::Unicode(_) => ledger.unicode_at(entry as usize, at.kind),
        Scalar::Bytes(_) => ledger.bytes_at(entry as usize, at.kind),
    }
}

/// Returns the integer of the field's entry; `None` if it is not of the field's type, or not of the same variant as `value`.
#[inline(always)]
pub fn held_number_in(ledger: &Ledger, at: Known<'_>, value: Scalar<'_>) -> Option<Scalar<'static>>
    requires { IsServed ledger.now (field_data (field_there at.place)) }
    ensures value { IfSome result (λ held. previous_at (field_data (field_there at.entry.place)).entry ledger.now.now
        ≡ assigned (field_data (field_there at.entry.place)).kind (scalar_data held)) }
    ensures short { IfSome result (λ held. length (text_of (scalar_data held)) ≤ ledger.now.max_text) }
{
    let Some(entry) = at.entry else {
        return None;
    };
    match value {
        Scalar::U(_) => ledger.unsigned_at(entry as usize, at.kind),
        Scalar::I(_) => ledger.signed_at(entry as usize, at.kind),
        Scalar::Dec { .. } | Scalar::Ascii(_) | Scalar::Unicode(_) | Scalar::Bytes(_) => None,
    }
}

/// Returns whether `value` is `held` incremented by one.
#[inline(always)]
pub fn is_next(kind: Kind, held: Scalar<'_>, value: Scalar<'_>) -> bool
    ensures { IsTrue result ↔ (value_of_integer kind (incremented (range_of kind) (integer_of (scalar_data held.entry)))
        ≡ scalar_data value.entry) }
{
    is_same(next_integer(kind, held), value)
}

/// Returns whether two values are equal: 15e-1 and 150e-2 are not.
#[inline(always)]
pub fn is_same(a: Scalar<'_>, b: Scalar<'_>) -> bool
    ensures { IsTrue result ↔ (scalar_data a.entry ≡ scalar_data b.entry) }
{
    match (a, b) {
        (Scalar::U(a), Scalar::U(b)) => a == b,
        (Scalar::I(a), Scalar::I(b)) => a == b,
        (
            Scalar::Dec { exponent, mantissa },
            Scalar::Dec {
                exponent: e,
                mantissa: m,
            },
        ) => exponent == e && mantissa == m,
        (Scalar::Ascii(a), Scalar::Ascii(b)) => is_same_text(a, b),
        (Scalar::Unicode(a), Scalar::Unicode(b)) => a == b,
        (Scalar::Bytes(a), Scalar::Bytes(b)) => a == b,
        _ => false,
    }
}

/// Returns whether two strings are equal. The code for a single character, and for strings whose last characters differ, is inlined.
#[inline(always)]
fn is_same_text(a: &[u8], b: &[u8]) -> bool
    ensures { IsTrue result ↔ (a.now ≡ b.now) }
{
    if a.len() != b.len() {
        return false;
    }
    if a.len() == 1 {
        return a[0] == b[0];
    }
    if !a.is_empty() && a[a.len() - 1] != b[b.len() - 1] {
        return false;
    }
    is_same_long_text(a, b)
}

/// Returns whether two strings of any length are equal.
fn is_same_long_text(a: &[u8], b: &[u8]) -> bool
    ensures { IsTrue result ↔ (a.now ≡ b.now) }
{
    a == b
}
