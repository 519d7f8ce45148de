//! ASCII strings of the loop's arms that are read out of line: those that are not short ones, but longer than a block, near the end of the
//! piece, or empty; and tails whose entry holds nothing.

ghost use Rattle.std.specs.Prelude.{◌≡◌, ◌+◌, ◌^◌, ◌<◌, ◌≤◌, ◌++◌, ℕ, Bool, true, false, List, [], length, Some, None, IfSome, IfNone};
ghost use Rattle.fast_value.specs.meaning.Kinds.{AsciiText};
ghost use Rattle.fast_dict.specs.meaning.Dictionary.{assigned, previous_at, write_at};
ghost use Rattle.fast_dict.specs.meaning.Operators.{with_tail};
ghost use Rattle.fast_dict.specs.meaning.Slots.{slots_dictionary, slots_terms, HoldsAscii};
ghost use Rattle.fast_items.specs.device.FieldsAs.{IsEntryFor};
ghost use Rattle.fast_units.specs.declared.progress.Progress.TheVariants.{Whole};
ghost use Rattle.fast_units.specs.device.NextUnits.{BeginsWithCharacter, IsNextText};
ghost use Rattle.fast_items.specs.device.TextItems.{with_last, text_source, text_taken, HoldsNothing, IsTextSource, IsAsciiAt, IsPutText, IsSentText, IsFirstTail};
ghost use Rattle.fast_units.specs.device.Words.{HasRoomFor};

use fast_dict::operators::tail_keeps;
use fast_dict::{Entry, Slots, Store};
use fast_tree::Operator;
use fast_units::scratch::Scratch;
use fast_value::Kind;
use fast_wire::find_stop;

/// Appends a string, `front` followed by its last character, if there is one.
fn append_text(scratch: &mut Scratch, front: &[u8], last: Option<u8>)
    requires { length scratch.old.text + length (with_last front.now last) ≤ scratch.old.capacity }
    ensures text { scratch.new.text ≡ scratch.old.text ++ with_last front.now last }
    ensures capacity { scratch.new.capacity ≡ scratch.old.capacity }
{
    scratch.append(front);
    if let Some(last) = last {
        scratch.push(last);
    }
}

/// Returns the number of characters of a string, `front` followed by its last character, if there is one.
fn size_of(front: &[u8], last: Option<u8>) -> usize
    requires { length (with_last front.now last) < 2 ^ 64 }
    ensures { result ≡ length (with_last front.now last) }
{
    match last {
        Some(_) => front.len() + 1,
        None => front.len(),
    }
}

/// Stores the string at the entry and in the scratch. Returns `false`, with nothing changed, if the entry cannot hold a string.
fn copy_long(
    slots: &mut Slots,
    scratch: &mut Scratch,
    entry: usize,
    front: &[u8],
    last: Option<u8>,
) -> bool
    requires within { entry < length (slots_dictionary slots.old) }
    requires fits { length (with_last front.now last) ≤ (slots_terms slots.old).max_text }
    requires room { HasRoomFor slots.old scratch.old }
    ensures kept { result ≡ true → slots_dictionary slots.new ≡ write_at (Some entry)
        (assigned Kind.Ascii (AsciiText (with_last front.now last))) (slots_dictionary slots.old) }
    ensures holds { result ≡ true → HoldsAscii slots.new entry }
    ensures left { result ≡ false → (slots.new ≡ slots.old) × (scratch.new ≡ scratch.old) }
    ensures terms { slots_terms slots.new ≡ slots_terms slots.old }
    ensures capacity { scratch.new.capacity ≡ scratch.old.capacity }
{
    if !slots.takes_text(entry) {
        return false;
    }
    scratch.clear();
    append_text(scratch, front, last);
    slots.set_ascii(entry, scratch.as_slice());
    true
}

/// Joins a tail to the ASCII string that the entry holds, and stores the result at the entry and in the scratch. Returns `false`, with
/// nothing changed, if the entry holds none of its own type.
fn tail_long(
    slots: &mut Slots,
    scratch: &mut Scratch,
    entry: usize,
    front: &[u8],
    last: Option<u8>,
) -> bool
    requires within { entry < length (slots_dictionary slots.old) }
    requires fits { length (with_last front.now last) ≤ (slots_terms slots.old).max_text }
    requires room { HasRoomFor slots.old scratch.old }
    ensures kept { result ≡ true → (base : List ℕ)
        × (previous_at (Some entry) (slots_dictionary slots.old) ≡ assigned Kind.Ascii (AsciiText base))
        × (slots_dictionary slots.new ≡ write_at (Some entry)
        (assigned Kind.Ascii (AsciiText (with_tail base (with_last front.now last)))) (slots_dictionary slots.old)) }
    ensures holds { result ≡ true → HoldsAscii slots.new entry }
    ensures left { result ≡ false → (slots.new ≡ slots.old) × (scratch.new ≡ scratch.old) }
    ensures terms { slots_terms slots.new ≡ slots_terms slots.old }
    ensures capacity { scratch.new.capacity ≡ scratch.old.capacity }
{
    if !slots.holds_ascii(entry) {
        return false;
    }
    let base = slots.kept_ascii(entry);
    scratch.clear();
    scratch.append(tail_keeps(base, size_of(front, last)));
    append_text(scratch, front, last);
    slots.set_ascii(entry, scratch.as_slice());
    true
}

/// Stores a string, of any length: into the scratch, or into the slot of the entry that keeps it.
fn put_text(
    slots: &mut Slots,
    scratch: &mut Scratch,
    entry: u32,
    operator: Operator,
    front: &[u8],
    last: Option<u8>,
) -> bool
    requires within { IsEntryFor slots.old operator entry }
    requires fits { length (with_last front.now last) ≤ (slots_terms slots.old).max_text }
    requires room { HasRoomFor slots.old scratch.old }
    ensures put { result ≡ true → IsPutText operator entry (Some (with_last front.now last)) slots.old slots.new
        scratch.new.text (text_source operator) }
    ensures left { result ≡ false → (slots.new ≡ slots.old) × (scratch.new ≡ scratch.old) }
    ensures terms { slots_terms slots.new ≡ slots_terms slots.old }
    ensures capacity { scratch.new.capacity ≡ scratch.old.capacity }
{
    match operator {
        Operator::None | Operator::Default => {
            scratch.clear();
            append_text(scratch, front, last);
            true
        }
        Operator::Copy => copy_long(slots, scratch, entry as usize, front, last),
        Operator::Tail => tail_long(slots, scratch, entry as usize, front, last),
        _ => false,
    }
}

/// Returns a string that begins with a character, of any length, if it is in the piece completely: the characters in front of its last one,
/// and that one.
#[inline(always)]
fn whole_characters(rest: &[u8], max_text: usize) -> Option<(&[u8], u8)>
    requires begins { BeginsWithCharacter rest.now }
    ensures fits { IfSome result (λ r. length (with_last r.0.now (Some r.1)) ≤ max_text) }
    ensures next { IfSome result (λ r. (nullable : Bool) → IsNextText nullable max_text rest.now
        (with_last r.0.now (Some r.1)) (Whole true (length r.0.now + 1))) }
{
    let here = &rest[..rest.len().min(max_text)];
    let last = find_stop(here)?;
    Some((&here[..last], here[last] - 0x80))
}

/// Reads a string that begins with a character, of any length, and returns its number of bytes.
fn sent_characters(
    slots: &mut Slots,
    scratch: &mut Scratch,
    entry: u32,
    operator: Operator,
    rest: &[u8],
    max_text: usize,
) -> Option<usize>
    requires within { IsEntryFor slots.old operator entry }
    requires limit { (slots_terms slots.old).max_text ≡ max_text }
    requires room { HasRoomFor slots.old scratch.old }
    requires begins { BeginsWithCharacter rest.now }
    ensures unit { IfSome result (λ n. (optional : Bool) → IsSentText Kind.Ascii optional operator entry max_text
        rest.now slots.old slots.new scratch.new.text (text_taken operator n)) }
    ensures source { IfSome result (λ _. IsTextSource operator (text_source operator)) }
    ensures held { IfSome result (λ _. IsAsciiAt slots.new entry (text_source operator)) }
    ensures none { IfNone result ((slots.new ≡ slots.old) × (scratch.new ≡ scratch.old)) }
    ensures terms { slots_terms slots.new ≡ slots_terms slots.old }
    ensures capacity { scratch.new.capacity ≡ scratch.old.capacity }
{
    let (front, last) = whole_characters(rest, max_text)?;
    if !put_text(slots, scratch, entry, operator, front, Some(last)) {
        return None;
    }
    Some(front.len() + 1)
}

/// Reads a string that is in the piece completely, and returns its number of bytes. NULL is not read here, nor is a string that begins with
/// zero.
#[inline(never)]
pub fn sent_long(
    slots: &mut Slots,
    scratch: &mut Scratch,
    entry: u32,
    optional: bool,
    operator: Operator,
    rest: &[u8],
    max_text: usize,
) -> Option<usize>
    requires within { IsEntryFor slots.old operator entry }
    requires limit { (slots_terms slots.old).max_text ≡ max_text }
    requires room { HasRoomFor slots.old scratch.old }
    ensures unit { IfSome result (λ n. IsSentText Kind.Ascii optional operator entry max_text rest.now slots.old
        slots.new scratch.new.text (text_taken operator n)) }
    ensures source { IfSome result (λ _. IsTextSource operator (text_source operator)) }
    ensures held { IfSome result (λ _. IsAsciiAt slots.new entry (text_source operator)) }
    ensures none { IfNone result ((slots.new ≡ slots.old) × (scratch.new ≡ scratch.old)) }
    ensures terms { slots_terms slots.new ≡ slots_terms slots.old }
    ensures capacity { scratch.new.capacity ≡ scratch.old.capacity }
{
    match rest.first() {
        None => None,
        Some(0x00) => None,
        Some(0x80) => {
            if optional || !put_text(slots, scratch, entry, operator, &[], None) {
                return None;
            }
            Some(1)
        }
        Some(_) => {
            let bytes = sent_characters(slots, scratch, entry, operator, rest, max_text)?;
            Some(bytes)
        }
    }
}

/// Returns whether the entry holds no value: it is undefined, or empty.
fn holds_nothing(slots: &Slots, entry: usize) -> bool
    requires { entry < length (slots_dictionary slots.now) }
    ensures { result ≡ true → HoldsNothing (previous_at (Some entry) (slots_dictionary slots.now)) }
{
    match slots.held(entry) {
        Entry::Undefined | Entry::Empty => true,
        _ => false,
    }
}

/// Returns whether the first byte, if there is one, is neither a zero nor a bare stop bit.
fn begins_with_character(rest: &[u8]) -> bool
    ensures { result ≡ true → BeginsWithCharacter rest.now }
{
    match rest.first() {
        None => true,
        Some(0x00) => false,
        Some(0x80) => false,
        Some(_) => true,
    }
}

/// Reads a tail of characters that is in the piece completely, of a field without initial value, at an entry that holds nothing, and
/// returns its number of bytes. The tail is joined to nothing: it is all of the value, which the entry then holds.
#[cold]
#[inline(never)]
pub fn sent_first_tail(
    slots: &mut Slots,
    scratch: &mut Scratch,
    entry: u32,
    rest: &[u8],
) -> Option<usize>
    requires within { entry < length (slots_dictionary slots.old) }
    requires room { HasRoomFor slots.old scratch.old }
    ensures unit { IfSome result (λ n. (optional : Bool) → IsFirstTail Kind.Ascii optional entry
        (slots_terms slots.old).max_text rest.now slots.old slots.new scratch.new.text (text_taken Operator.Tail n)) }
    ensures held { IfSome result (λ _. HoldsAscii slots.new entry) }
    ensures none { IfNone result ((slots.new ≡ slots.old) × (scratch.new ≡ scratch.old)) }
    ensures terms { slots_terms slots.new ≡ slots_terms slots.old }
    ensures capacity { scratch.new.capacity ≡ scratch.old.capacity }
{
    if !begins_with_character(rest) {
        return None;
    }
    if !holds_nothing(slots, entry as usize) {
        return None;
    }
    let (front, last) = whole_characters(rest, slots.max_text())?;
    if !copy_long(slots, scratch, entry as usize, front, Some(last)) {
        return None;
    }
    Some(front.len() + 1)
}
