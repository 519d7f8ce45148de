//! Strings under a delta and a tail.
//!
//! Both are decoded in steps: first the bytes kept of the base, before the part that is sent has arrived. The caller puts the two together
//! where it likes, and the joined string is checked at the end.

ghost use Rattle.std.specs.Prelude.{◌≡◌, ◌-◌, ◌++◌, ℕ, List, length, ◌≤◌, nat_le, if◌then◌else◌, SomeIff};
ghost use Rattle.std.specs.Str.{is_utf8};
ghost use Rattle.fast_value.specs.meaning.Kinds.{text_of};
ghost use Rattle.fast_value.specs.meaning.Values.{scalar_data};
ghost use Rattle.fast_tree.specs.meaning.Nodes.{field_data};
ghost use Rattle.fast_dict.specs.meaning.Answers.{outcome_answer, kept_text, scalar_answer, kept_data, kept_answer};
ghost use Rattle.fast_dict.specs.meaning.Operators.{checked_text, kept_of, kept_length, subtraction_step, tail_base, with_tail};
ghost use Rattle.fast_dict.specs.meaning.Previous.{previous_data};

use super::{Outcome, delta_base, of_kind, start_value};
use crate::previous::Previous;
use fast_tree::FieldInstruction;
use fast_value::{Code, Kind, Scalar};

/// The bytes that a string's delta keeps of its base, and the side of them on which the part goes that is sent.
#[derive(Clone, Copy, Debug)]
pub enum Kept<'a> {
    /// The part goes after the bytes kept.
    AppendTo(&'a [u8]),
    /// The part goes before the bytes kept.
    PrependTo(&'a [u8]),
}

impl<'a> Kept<'a> {
    /// Returns the bytes kept.
    pub fn text(self) -> &'a [u8]
        ensures { length result.now ≡ kept_length (kept_data self.entry) }
    {
        match self {
            Kept::AppendTo(text) | Kept::PrependTo(text) => text,
        }
    }

    /// Returns the most bytes that the part may have.
    pub fn room(self, max_text: usize) -> usize
        ensures { result ≡ max_text - kept_length (kept_data self.entry) }
    {
        max_text.saturating_sub(self.text().len())
    }
}

/// Returns the size of a string or of a part, if there is room for it.
///
/// # Errors
///
/// L1 if there is not.
pub fn sized(size: u32, room: usize) -> Result<usize, Code>
    ensures { result ≡ (if nat_le size room then Ok size else Err Code.L1) }
{
    let size = size as usize;
    if size <= room {
        Ok(size)
    } else {
        Err(Code::L1)
    }
}

/// Returns the bytes of the base that a subtraction length keeps. A length of k removes k bytes from the back, one of -k - 1 removes k from
/// the front.
///
/// # Errors
///
/// D4 if the previous value is of another type, D6 if it is empty, D7 if the base has fewer bytes than are removed.
pub fn subtract<'a>(
    field: &'a FieldInstruction,
    previous: Previous<'a>,
    length: i128,
) -> Result<Kept<'a>, Code>
    ensures { kept_answer result ≡ subtraction_step (field_data field.now) (previous_data previous.entry) length }
{
    let base = delta_base(field, previous)?;
    kept_of(text_of(base), length)
}

/// Returns the bytes that a subtraction length keeps of a string.
fn kept_of(base: &[u8], length: i128) -> Result<Kept<'_>, Code>
    ensures { kept_answer result ≡ kept_of base.now length }
{
    if length >= 0 {
        let taken = at_most(length as u128, base.len()).ok_or(Code::D7)?;
        return Ok(Kept::AppendTo(&base[..base.len() - taken]));
    }
    let taken = at_most((-1 - length) as u128, base.len()).ok_or(Code::D7)?;
    Ok(Kept::PrependTo(&base[taken..]))
}

/// Returns a number of bytes to be removed, if the string has that many.
fn at_most(taken: u128, size: usize) -> Option<usize>
    ensures { SomeIff result (taken ≤ size) taken }
{
    if taken <= size as u128 {
        Some(taken as usize)
    } else {
        None
    }
}

/// Returns the base of a tail: the previous value, or without one the initial value, or else the empty string.
///
/// # Errors
///
/// D4 if the previous value is of another type.
pub fn tail_base<'a>(
    field: &'a FieldInstruction,
    previous: Previous<'a>,
) -> Result<Scalar<'a>, Code>
    ensures { scalar_answer result ≡ tail_base (field_data field.now) (previous_data previous.entry) }
{
    match previous {
        Previous::Assigned(kind, value) => of_kind(field.kind, kind, value),
        Previous::Undefined | Previous::Empty => Ok(start_value(field)),
    }
}

/// Returns the bytes that a tail of `size` bytes keeps of its base: all but the last `size`, or none under a longer tail. The tail goes
/// after them.
pub fn tail_keeps(base: &[u8], size: usize) -> &[u8]
    ensures { (part : List ℕ) → length part ≡ size → with_tail base.now part ≡ result.now ++ part }
{
    if size <= base.len() {
        &base[..base.len() - size]
    } else {
        &[]
    }
}

/// Returns a joined string as a value of a string type.
///
/// # Errors
///
/// R2 if the type is unicode and the string is not UTF-8.
#[inline]
pub fn checked_text(kind: Kind, text: &[u8]) -> Result<Scalar<'_>, Code>
    ensures { scalar_answer result ≡ checked_text kind text.now }
{
    match kind {
        Kind::Unicode => {
            if is_utf8(text) {
                Ok(Scalar::Unicode(text))
            } else {
                Err(Code::R2)
            }
        }
        Kind::Bytes => Ok(Scalar::Bytes(text)),
        _ => Ok(Scalar::Ascii(text)),
    }
}

/// Returns a joined string as the value of a field under delta or tail, which the entry then holds.
///
/// # Errors
///
/// R2 if the type is unicode and the string is not UTF-8.
pub fn joined(kind: Kind, text: &[u8]) -> Result<Outcome<'_>, Code>
    ensures { outcome_answer result ≡ kept_text kind text.now }
{
    Ok(Outcome::kept(kind, checked_text(kind, text)?))
}

/// Returns whether the bytes are UTF-8. A short string is read in fewer steps than a check by vectors needs for its first block.
#[inline(never)]
pub fn is_utf8(text: &[u8]) -> bool
    ensures { result ≡ is_utf8 text.now }
{
    if text.len() < 24 {
        return str::from_utf8(text).is_ok();
    }
    simdutf8::is_utf8(text)
}

/// Returns the bytes of a value's string, empty if it has none.
pub fn text_of(value: Scalar<'_>) -> &[u8]
    ensures { result.now ≡ text_of (scalar_data value.entry) }
{
    match value {
        Scalar::U(_) | Scalar::I(_) | Scalar::Dec { .. } => &[],
        Scalar::Ascii(text) | Scalar::Unicode(text) | Scalar::Bytes(text) => text,
    }
}
