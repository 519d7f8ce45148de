//! Items: the bytes that are sent for a field, each integer in its shortest form.

ghost use Rattle.std.specs.Prelude.{◌≡◌, ℕ, ◌<◌, ◌≤◌, ◌∷◌, ◌-ℤ◌, List, true, All, length, Some, OnOk, IfErr};
ghost use Rattle.fast_wire.specs.meaning.Shortest.{IsShortest};
ghost use Rattle.fast_wire.specs.meaning.Texts.{SpellsAscii};
ghost use Rattle.fast_value.specs.meaning.Kinds.{integer_of, exponent_of, mantissa_of};
ghost use Rattle.fast_value.specs.meaning.Values.{scalar_data};
ghost use Rattle.fast_tree.specs.meaning.Nodes.{field_data};
ghost use Rattle.fast_dict.specs.meaning.Operators.{Sent as SentData};
ghost use Rattle.fast_dict.specs.meaning.Sending.{sent_data};
ghost use Rattle.fast_spelling.specs.device.Places.{field_there};
ghost use Rattle.fast_spelling.specs.declared.faults.EncodeFault.TheVariants.{R9};
ghost use Rattle.fast_spelling.specs.device.Drafts.{Adds, IsTold, IsSendable, IsSendableValue, IsSendablePart, SpellsItem, SpellsPair, SpellsValue, SpellsPart};
ghost use Rattle.fast_spelling.specs.meaning.Refusals.{HasZeroInFront};

use crate::faults::EncodeFault;
use crate::integers::{
    push_byte, write_delta_as, write_narrow_as, write_signed_apart, write_unsigned_apart,
    write_unsigned_as,
};
use crate::known::Known;
use fast_dict::Sent;
use fast_dict::operators::decimals::{exponent_of, mantissa_of};
use fast_dict::operators::integers::integer_of;
use fast_value::{Kind, Scalar};
use std::alloc::AllocError;

/// Writes the item of a field: no bytes for [`Sent::Nothing`].
///
/// # Errors
///
/// R9 if the item is an ASCII string that begins with a zero character; `Memory` if an allocation failed.
#[inline(always)]
pub fn write_item(bytes: &mut Vec<u8>, at: Known<'_>, item: Sent<'_>) -> Result<(), EncodeFault>
    requires { IsSendable (field_data (field_there at.place)) (sent_data item) }
    ensures ok { OnOk result
        (Adds (SpellsItem (field_data (field_there at.entry.place)) (sent_data item.entry)) bytes.old.items bytes.new.items) }
    ensures err { IfErr result
        (IsTold (λ c. (c ≡ R9) × HasZeroInFront (field_there at.entry.place).kind (sent_data item.entry))) }
{
    match item {
        Sent::Nothing => Ok(()),
        Sent::Null => {
            push_byte(bytes, NULL)?;
            Ok(())
        }
        Sent::Value(value) => write_value(bytes, at.kind, at.nullable, value),
        Sent::IntegerDelta(delta) => {
            write_delta_as(bytes, at.nullable, delta)?;
            Ok(())
        }
        Sent::DecimalDelta(exponent, mantissa) => {
            write_delta_as(bytes, at.nullable, exponent)?;
            write_delta_as(bytes, false, mantissa)?;
            Ok(())
        }
        Sent::TextDelta(taken, part) => {
            write_delta_as(bytes, at.nullable, taken)?;
            write_text(bytes, at.kind, false, part)
        }
    }
}

/// Writes the difference of two integers, `a` minus `b`.
#[inline(always)]
pub fn write_apart(
    bytes: &mut Vec<u8>,
    nullable: bool,
    a: Scalar<'_>,
    b: Scalar<'_>,
) -> Result<(), AllocError>
    ensures { OnOk result (Adds (IsShortest true nullable
        (Some (integer_of (scalar_data a.entry) -ℤ integer_of (scalar_data b.entry)))) bytes.old.items bytes.new.items) }
{
    match (a, b) {
        (Scalar::U(a), Scalar::U(b)) => write_unsigned_apart(bytes, nullable, a, b),
        (Scalar::I(a), Scalar::I(b)) => write_signed_apart(bytes, nullable, a, b),
        _ => write_delta_as(bytes, nullable, integer_of(a) - integer_of(b)),
    }
}

/// Writes the difference of two decimals, `a` minus `b`: that of their exponents, then that of their mantissas.
#[inline(always)]
pub fn write_decimals_apart(
    bytes: &mut Vec<u8>,
    nullable: bool,
    a: Scalar<'_>,
    b: Scalar<'_>,
) -> Result<(), AllocError>
    ensures { OnOk result (Adds (SpellsPair nullable
        (exponent_of (scalar_data a.entry) -ℤ exponent_of (scalar_data b.entry))
        (mantissa_of (scalar_data a.entry) -ℤ mantissa_of (scalar_data b.entry))) bytes.old.items bytes.new.items) }
{
    match (a, b) {
        (
            Scalar::Dec { exponent, mantissa },
            Scalar::Dec {
                exponent: e,
                mantissa: m,
            },
        ) => {
            write_signed_apart(bytes, nullable, i64::from(exponent), i64::from(e))?;
            write_signed_apart(bytes, false, mantissa, m)
        }
        _ => {
            write_delta_as(bytes, nullable, exponent_of(a) - exponent_of(b))?;
            write_delta_as(bytes, false, mantissa_of(a) - mantissa_of(b))
        }
    }
}

/// NULL, for every type.
pub const NULL: u8 = 0x80;

/// Writes a value of a type.
#[inline(always)]
fn write_value(
    bytes: &mut Vec<u8>,
    kind: Kind,
    nullable: bool,
    value: Scalar<'_>,
) -> Result<(), EncodeFault>
    requires { IsSendableValue kind (scalar_data value) }
    ensures ok { OnOk result
        (Adds (SpellsValue kind nullable (scalar_data value.entry)) bytes.old.items bytes.new.items) }
    ensures err { IfErr result
        (IsTold (λ c. (c ≡ R9) × HasZeroInFront kind (SentData.value (scalar_data value.entry)))) }
{
    match value {
        Scalar::U(number) => {
            write_unsigned_as(bytes, nullable, number)?;
            Ok(())
        }
        Scalar::I(number) => {
            write_narrow_as(bytes, nullable, number)?;
            Ok(())
        }
        Scalar::Dec { exponent, mantissa } => {
            write_narrow_as(bytes, nullable, i64::from(exponent))?;
            write_narrow_as(bytes, false, mantissa)?;
            Ok(())
        }
        Scalar::Ascii(text) => write_short_ascii(bytes, nullable, text),
        Scalar::Unicode(text) | Scalar::Bytes(text) => write_text(bytes, kind, nullable, text),
    }
}

/// Writes a string or byte vector of a type, or a part of one.
fn write_text(
    bytes: &mut Vec<u8>,
    kind: Kind,
    nullable: bool,
    text: &[u8],
) -> Result<(), EncodeFault>
    requires { IsSendablePart kind text.now }
    ensures ok { OnOk result (Adds (SpellsPart kind nullable text.now) bytes.old.items bytes.new.items) }
    ensures err { IfErr result
        (IsTold (λ c. (c ≡ R9) × (kind ≡ Kind.Ascii) × ((rest : List ℕ) × (text.now ≡ 0 ∷ rest)))) }
{
    match kind {
        Kind::Ascii => write_ascii(bytes, nullable, text),
        _ => {
            write_unsigned_as(bytes, nullable, text.len() as u64)?;
            bytes.extend_from_slice(text)?;
            Ok(())
        }
    }
}

/// Writes an ASCII string. The code for a single character is inlined.
#[inline(always)]
fn write_short_ascii(bytes: &mut Vec<u8>, nullable: bool, text: &[u8]) -> Result<(), EncodeFault>
    requires { All (λ c. c < 128) text.now }
    ensures ok { OnOk result
        (Adds (λ w. (room : ℕ) → length text.now ≤ room → SpellsAscii nullable room (Some text.now) w) bytes.old.items
        bytes.new.items) }
    ensures err { IfErr result (IsTold (λ c. (c ≡ R9) × ((rest : List ℕ) × (text.now ≡ 0 ∷ rest)))) }
{
    if text.len() == 1 && text[0] != 0 {
        push_byte(bytes, text[0] + 128)?;
        return Ok(());
    }
    write_ascii(bytes, nullable, text)
}

/// Writes an ASCII string: its characters, with the stop bit on the last.
fn write_ascii(bytes: &mut Vec<u8>, nullable: bool, text: &[u8]) -> Result<(), EncodeFault>
    requires { All (λ c. c < 128) text.now }
    ensures ok { OnOk result
        (Adds (λ w. (room : ℕ) → length text.now ≤ room → SpellsAscii nullable room (Some text.now) w) bytes.old.items
        bytes.new.items) }
    ensures err { IfErr result (IsTold (λ c. (c ≡ R9) × ((rest : List ℕ) × (text.now ≡ 0 ∷ rest)))) }
{
    if text.is_empty() {
        if nullable {
            bytes.extend_from_slice(&EMPTY_NULLABLE)?;
        } else {
            push_byte(bytes, NULL)?;
        }
        return Ok(());
    }
    if text[0] == 0 {
        return Err(EncodeFault::R9);
    }
    bytes.extend_from_slice(text)?;
    let last = bytes.len() - 1;
    bytes[last] = text[text.len() - 1] + 128;
    Ok(())
}

/// The empty ASCII string of a nullable field.
const EMPTY_NULLABLE: [u8; 2] = [0x00, 0x80];
