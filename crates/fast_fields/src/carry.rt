//! The bytes of a field that pieces split. They are carried until the field is complete: each time something more may be decided, it is read
//! again from its first byte.

ghost use Rattle.std.specs.Prelude.{◌≡◌, ◌≢◌, ◌+◌, ◌-◌, ◌≤◌, ◌++◌, ℕ, [], length, min, take, true, false, IfOk};
ghost use Rattle.fast_value.specs.meaning.Limits.{bounds};
ghost use Rattle.fast_tree.specs.meaning.Nodes.{field_data};
ghost use Rattle.fast_dict.specs.meaning.Dictionary.{PreviousData};
ghost use Rattle.fast_dict.specs.meaning.Operators.{Outcome};
ghost use Rattle.fast_dict.specs.meaning.Slots.{slots_dictionary, slots_terms};
ghost use Rattle.fast_stream.specs.device.Readers.{Reader};
ghost use Rattle.fast_stream.specs.device.GrammarReaders.{reader_of};
ghost use Rattle.fast_stream.specs.meaning.Fields.{field_term};
ghost use Rattle.fast_units.specs.device.TextDecisions.{first_reader};
ghost use Rattle.fast_units.specs.device.Words.{HasTextLimit, HasRoomFor, ServesField};
ghost use Rattle.fast_fields.specs.device.Carries.{IsCarried, IsCarriedUnit, at_hand};
ghost use Rattle.fast_fields.specs.device.Readings.{IsUndecided};

use crate::begun::{is_string, string_missing};
use crate::reading::{Missing, Reading, WholeField, read_field};
use fast_dict::Slots;
use fast_tree::{FieldInstruction, Operator};
use fast_units::progress::Progress;
use fast_units::scratch::Scratch;
use fast_units::units::has_stop;
use fast_value::{Kind, Limits};
use std::alloc::{AllocError, Global};

/// The most bytes of a field beside those of its string: two integers of ten bytes, and two bytes that a string may have more.
const OTHERS: usize = 22;

/// The bytes of a field that is not complete.
#[derive(Drop)]
pub struct Carry {
    /// The bytes so far.
    pub bytes: Scratch,
    /// The bytes that have to follow before anything more is decided.
    pub missing: Missing,
}

impl Carry {
    /// Makes room for the bytes of fields whose strings have at most `max_text` bytes.
    ///
    /// # Errors
    ///
    /// An allocation failed.
    pub fn new(alloc: Global, max_text: usize) -> Result<Carry, AllocError>
        ensures { IfOk result (λ c. c.bytes.capacity ≡ 22 + max_text) }
    {
        let capacity = max_text.checked_add(OTHERS).ok_or(AllocError)?;
        Ok(Carry {
            bytes: Scratch::new(alloc, capacity)?,
            missing: Missing {
                bytes: 1,
                stops: true,
            },
        })
    }

    /// Begins a field that is in the stream, of which no byte is there.
    #[inline(always)]
    pub fn begin(&mut self, field: &FieldInstruction)
        requires varies { field.now.operator ≢ Operator.Constant }
        ensures none { self.new.bytes.text ≡ [] }
        ensures carried { (l : Limits) (p : PreviousData)
            → IsCarried l (reader_of l.strict (field_term (bounds l) (field_data field.now) p true)) self.new }
        ensures capacity { self.new.bytes.capacity ≡ self.old.bytes.capacity }
    {
        self.bytes.clear();
        self.missing.bytes = first_missing(field);
        self.missing.stops = true;
    }

    /// Appends all of the rest, if it decides nothing more of the field. If the result is `false`, nothing has changed.
    #[inline(always)]
    pub fn keeps(&mut self, rest: &[u8]) -> bool
        requires { length self.old.bytes.text + self.old.missing.bytes ≤ self.old.bytes.capacity }
        ensures kept { result ≡ true → self.new.bytes.text ≡ self.old.bytes.text ++ rest.now }
        ensures carried { result ≡ true → (l : Limits) (r : Reader Outcome) → IsCarried l r self.old
            → IsCarried l r self.new }
        ensures capacity { self.new.bytes.capacity ≡ self.old.bytes.capacity }
        ensures same { result ≡ false → self.new ≡ self.old }
    {
        if rest.len() >= self.missing.bytes || (self.missing.stops && has_stop(rest)) {
            return false;
        }
        self.bytes.keep(rest);
        self.missing.bytes -= rest.len();
        true
    }

    /// Carries all of the rest, if a look at its first bytes shows that it begins a string of the field which goes on after it. No byte of
    /// the field is carried yet. If the result is `false`, nothing has changed.
    #[inline(never)]
    fn begins_string(
        &mut self,
        slots: &Slots,
        field: &FieldInstruction,
        rest: &[u8],
        limits: &Limits,
    ) -> bool
        requires serves { ServesField slots.now field.now }
        requires limit { HasTextLimit slots.now limits.now }
        requires varies { field.now.operator ≢ Operator.Constant }
        requires capacity { self.old.bytes.capacity ≡ 22 + limits.now.max_text }
        requires none { self.old.bytes.text ≡ [] }
        ensures bytes { result ≡ true → self.new.bytes.text ≡ rest.now }
        ensures carried { result ≡ true → IsCarried limits.now (first_reader limits.now (field_data field.now)
            (slots_dictionary slots.now)) self.new }
        ensures capacity { self.new.bytes.capacity ≡ self.old.bytes.capacity }
        ensures same { result ≡ false → self.new ≡ self.old }
    {
        let Some(missing) = string_missing(slots, field, rest, limits) else {
            return false;
        };
        self.bytes.append(rest);
        self.missing = missing;
        true
    }

    /// Carries all of the rest as [`Carry::begins_string`] does, if no byte of the field is carried yet.
    #[inline(always)]
    fn carries_string(
        &mut self,
        slots: &Slots,
        field: &FieldInstruction,
        rest: &[u8],
        limits: &Limits,
    ) -> bool
        requires serves { ServesField slots.now field.now }
        requires limit { HasTextLimit slots.now limits.now }
        requires varies { field.now.operator ≢ Operator.Constant }
        requires capacity { self.old.bytes.capacity ≡ 22 + limits.now.max_text }
        ensures bytes { result ≡ true → (self.old.bytes.text ≡ []) × (self.new.bytes.text ≡ rest.now) }
        ensures carried { result ≡ true → IsCarried limits.now (first_reader limits.now (field_data field.now)
            (slots_dictionary slots.now)) self.new }
        ensures capacity { self.new.bytes.capacity ≡ self.old.bytes.capacity }
        ensures same { result ≡ false → self.new ≡ self.old }
    {
        self.bytes.is_empty()
            && is_string(field.kind)
            && self.begins_string(slots, field, rest, limits)
    }

    /// Returns the bytes from the field's first one on: those that are carried, or those of the rest if none is.
    #[inline(always)]
    pub fn at_hand<'x>(&'x self, rest: &'x [u8]) -> &'x [u8]
        ensures { result.now ≡ at_hand self.now.bytes.text rest.now }
    {
        if self.bytes.is_empty() {
            return rest;
        }
        self.bytes.as_slice()
    }

    /// Appends as many bytes of the rest as the field may have at most, if some are carried.
    #[inline(always)]
    fn take_up(&mut self, rest: &[u8])
        ensures joined { (count : ℕ) × (at_hand self.new.bytes.text rest.now ≡ self.old.bytes.text ++ take count rest.now)
            × (min (length rest.now) (self.old.bytes.capacity - length self.old.bytes.text) ≤ count) }
        ensures capacity { self.new.bytes.capacity ≡ self.old.bytes.capacity }
    {
        if self.bytes.is_empty() {
            return;
        }
        let count = rest.len().min(self.bytes.room());
        self.bytes.keep(&rest[..count]);
    }

    /// Carries all bytes that are at hand, those of the rest among them.
    #[inline(always)]
    fn go_on(&mut self, rest: &[u8], missing: Missing)
        requires { length (at_hand self.old.bytes.text rest.now) ≤ self.old.bytes.capacity }
        ensures bytes { self.new.bytes.text ≡ at_hand self.old.bytes.text rest.now }
        ensures missing { self.new.missing ≡ missing }
        ensures capacity { self.new.bytes.capacity ≡ self.old.bytes.capacity }
    {
        if self.bytes.is_empty() {
            self.bytes.append(rest);
        }
        self.missing = missing;
    }

    /// Reads the field from the bytes that are carried and those of the rest. If it is cut, all of the rest is carried too. If it is
    /// complete, all of its bytes are at hand, so that its value can be borrowed from them.
    #[inline(always)]
    pub fn read(
        &mut self,
        slots: &mut Slots,
        text: &mut Scratch,
        field: &FieldInstruction,
        rest: &[u8],
        limits: &Limits,
    ) -> Progress<WholeField>
        requires serves { ServesField slots.old field.now }
        requires limit { HasTextLimit slots.old limits.now }
        requires room { HasRoomFor slots.old text.old }
        requires varies { field.now.operator ≢ Operator.Constant }
        requires capacity { self.old.bytes.capacity ≡ 22 + limits.now.max_text }
        requires carried { IsCarried limits.now (first_reader limits.now (field_data field.now)
            (slots_dictionary slots.old)) self.old }
        ensures unit { IsCarriedUnit (first_reader limits.now (field_data field.now) (slots_dictionary slots.old))
            (field_data field.now) self.old.bytes.text rest.now (slots_dictionary slots.old)
            (slots_dictionary slots.new) text.new.text result }
        ensures held { (found : WholeField) (n : ℕ) → result ≡ Progress.Whole found n
            → take found.bytes (at_hand self.new.bytes.text rest.now) ≡ self.old.bytes.text ++ take n rest.now }
        ensures cut { result ≡ Progress.Cut → (self.new.bytes.text ≡ self.old.bytes.text ++ rest.now)
            × IsCarried limits.now (first_reader limits.now (field_data field.now)
            (slots_dictionary slots.old)) self.new }
        ensures terms { slots_terms slots.new ≡ slots_terms slots.old }
        ensures capacity { (self.new.bytes.capacity ≡ self.old.bytes.capacity)
            × (text.new.capacity ≡ text.old.capacity) }
    {
        if self.carries_string(slots, field, rest, limits) {
            return Progress::Cut;
        }
        let held = self.bytes.len();
        self.take_up(rest);
        match read_field(slots, text, field, self.at_hand(rest), limits) {
            Reading::Whole(found) => Progress::Whole(found, found.bytes - held),
            Reading::Wrong(code, bytes) => Progress::Wrong(code, bytes - held),
            Reading::More(missing) => {
                self.go_on(rest, missing);
                Progress::Cut
            }
        }
    }

    /// Reads an integer as [`Carry::read`] does, out of line: the length of a sequence, the exponent or the mantissa of a decimal.
    #[inline(never)]
    pub fn read_integer(
        &mut self,
        slots: &mut Slots,
        text: &mut Scratch,
        field: &FieldInstruction,
        rest: &[u8],
        limits: &Limits,
    ) -> Progress<WholeField>
        requires serves { ServesField slots.old field.now }
        requires limit { HasTextLimit slots.old limits.now }
        requires room { HasRoomFor slots.old text.old }
        requires varies { field.now.operator ≢ Operator.Constant }
        requires capacity { self.old.bytes.capacity ≡ 22 + limits.now.max_text }
        requires carried { IsCarried limits.now (first_reader limits.now (field_data field.now)
            (slots_dictionary slots.old)) self.old }
        ensures unit { IsCarriedUnit (first_reader limits.now (field_data field.now) (slots_dictionary slots.old))
            (field_data field.now) self.old.bytes.text rest.now (slots_dictionary slots.old)
            (slots_dictionary slots.new) text.new.text result }
        ensures cut { result ≡ Progress.Cut → (self.new.bytes.text ≡ self.old.bytes.text ++ rest.now)
            × IsCarried limits.now (first_reader limits.now (field_data field.now)
            (slots_dictionary slots.old)) self.new }
        ensures terms { slots_terms slots.new ≡ slots_terms slots.old }
        ensures capacity { (self.new.bytes.capacity ≡ self.old.bytes.capacity)
            × (text.new.capacity ≡ text.old.capacity) }
    {
        self.read(slots, text, field, rest, limits)
    }
}

/// Returns after how many bytes without a stop bit something is decided of a field at the most.
#[inline]
fn first_missing(field: &FieldInstruction) -> usize
    requires varies { field.now.operator ≢ Operator.Constant }
    ensures carried { (l : Limits) (p : PreviousData)
        → IsUndecided (reader_of l.strict (field_term (bounds l) (field_data field.now) p true)) []
        (record { bytes = result; stops = true }) }
    ensures most { result ≤ 10 }
{
    if field.kind == Kind::Ascii && field.operator != Operator::Delta {
        // the first character may be a zero
        return 1;
    }
    10
}
