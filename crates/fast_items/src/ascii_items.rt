//! ASCII strings in the loop's arms: fields whose string is in the piece completely, and fields of which nothing is sent. The arguments
//! that a node's code implies are constants at the calls, which fold by them.
//!
//! `None` stands for all others, faults included: nothing has changed then, and the general path decodes them.

ghost use Rattle.std.specs.Prelude.{◌≡◌, ◌<◌, ◌≤◌, ℕ, Bool, true, false, List, Some, None, length, take, option_map, IfSome, IfNone};
ghost use Rattle.fast_value.specs.meaning.Values.{scalar_data};
ghost use Rattle.fast_tree.specs.meaning.Tree.{FieldData};
ghost use Rattle.fast_tree.specs.meaning.Entries.{keeps_value};
ghost use Rattle.fast_dict.specs.meaning.Slots.{slots_dictionary, slots_terms};
ghost use Rattle.fast_items.specs.device.FieldsAs.{IsFieldAs, IsEntryFor};
ghost use Rattle.fast_units.specs.device.NextUnits.{BeginsWithCharacter};
ghost use Rattle.fast_units.specs.device.Settling.{value_at};
ghost use Rattle.fast_items.specs.device.TextItems.{without_stops, text_source, text_taken, IsTextSource, IsAsciiAt, IsShortText, IsPutText, IsSentText, IsUnsentText};
ghost use Rattle.fast_units.specs.device.Words.{HasRoomFor};

use crate::taken::TakenText;
use fast_dict::{Entry, Slots, Store};
use fast_tree::Operator;
use fast_units::scratch::Scratch;
use fast_units::source::ValueSource;
use fast_value::{Kind, Scalar};
use fast_wire::stop_in_block;
use std::simd::prelude::*;

/// Returns the 16 bytes in front, without their stop bits.
#[inline(always)]
fn stripped(rest: &[u8]) -> [u8; 16]
    requires { 16 ≤ length rest.now }
    ensures { result ≡ without_stops (take 16 rest.now) }
{
    (u8x16::from_slice(rest) & u8x16::splat(0x7f)).to_array()
}

/// Returns the number of characters of a string that ends within 16 bytes.
#[inline(always)]
fn block_length(rest: &[u8]) -> Option<usize>
    requires begins { BeginsWithCharacter rest.now }
    ensures { IfSome result (λ n. IsShortText rest.now n) }
{
    if rest.len() < 16 {
        return None;
    }
    let last = stop_in_block(rest, 0) as usize;
    if last == 16 {
        return None;
    }
    Some(last + 1)
}

/// Returns the number of characters of a string that ends within 16 bytes and begins with a character: not NULL, and no zero in front.
#[inline(always)]
fn short_length(rest: &[u8]) -> Option<usize>
    ensures { IfSome result (λ n. IsShortText rest.now n) }
{
    match rest.first() {
        None => None,
        Some(0x00) => None,
        Some(0x80) => None,
        Some(_) => block_length(rest),
    }
}

/// Returns the source of a string that was sent.
#[inline(always)]
fn text_source(operator: Operator) -> ValueSource
    ensures { result ≡ text_source operator }
{
    match operator {
        Operator::None | Operator::Default => ValueSource::Scratch,
        _ => ValueSource::Entry,
    }
}

/// Returns the result for a string of this number of bytes.
#[inline(always)]
pub fn text_taken(operator: Operator, bytes: usize) -> TakenText
    ensures { result ≡ text_taken operator bytes }
{
    TakenText {
        source: text_source(operator),
        from: 0,
        bytes,
    }
}

/// Stores a short string, the first characters of a block: into the scratch, or into the slot of the entry that keeps it. Returns whether
/// it did.
#[inline(always)]
fn put_short(
    slots: &mut Slots,
    scratch: &mut Scratch,
    entry: u32,
    operator: Operator,
    block: &[u8],
    count: usize,
) -> bool
    requires within { IsEntryFor slots.old operator entry }
    requires least { 16 ≤ (slots_terms slots.old).max_text }
    requires room { HasRoomFor slots.old scratch.old }
    requires block { length block.now ≡ 16 }
    requires count { count ≤ 16 }
    ensures put { result ≡ true → IsPutText operator entry (Some (take count block.now)) slots.old slots.new
        scratch.new.text (text_source operator) }
    ensures left { result ≡ false → (slots.new ≡ slots.old) × (scratch.new ≡ scratch.old) }
    ensures terms { slots_terms slots.new ≡ slots_terms slots.old }
    ensures capacity { scratch.new.capacity ≡ scratch.old.capacity }
{
    match operator {
        Operator::None | Operator::Default => {
            scratch.clear();
            scratch.append_front(block, count);
            true
        }
        Operator::Copy => {
            if !slots.takes_text(entry as usize) {
                return false;
            }
            slots.set_ascii_block(entry as usize, block, count);
            true
        }
        Operator::Tail => slots.set_ascii_tail(entry as usize, block, count),
        _ => false,
    }
}

/// Reads a short string that was sent, and returns its number of bytes. A tail is not read if the slot has no room for a block after the
/// bytes that it keeps.
#[inline(always)]
fn sent_short(
    slots: &mut Slots,
    scratch: &mut Scratch,
    entry: u32,
    operator: Operator,
    rest: &[u8],
) -> Option<usize>
    requires within { IsEntryFor slots.old operator entry }
    requires least { 16 ≤ (slots_terms slots.old).max_text }
    requires room { HasRoomFor slots.old scratch.old }
    ensures unit { IfSome result (λ n. (optional : Bool) → IsSentText Kind.Ascii optional operator entry
        (slots_terms slots.old).max_text rest.now slots.old slots.new scratch.new.text (text_taken operator n)) }
    ensures source { IfSome result (λ _. IsTextSource operator (text_source operator)) }
    ensures held { IfSome result (λ _. IsAsciiAt slots.new entry (text_source operator)) }
    ensures none { IfNone result ((slots.new ≡ slots.old) × (scratch.new ≡ scratch.old)) }
    ensures terms { slots_terms slots.new ≡ slots_terms slots.old }
    ensures capacity { scratch.new.capacity ≡ scratch.old.capacity }
{
    let count = short_length(rest)?;
    let block = stripped(rest);
    if !put_short(slots, scratch, entry, operator, &block, count) {
        return None;
    }
    Some(count)
}

/// Stores NULL: under copy and tail the entry is then empty.
#[inline(always)]
fn put_null(slots: &mut Slots, entry: u32, operator: Operator) -> bool
    requires within { IsEntryFor slots.old operator entry }
    ensures put { result ≡ true → (scratch : List ℕ)
        → IsPutText operator entry None slots.old slots.new scratch ValueSource.Absent }
    ensures left { result ≡ false → slots.new ≡ slots.old }
    ensures terms { slots_terms slots.new ≡ slots_terms slots.old }
{
    match operator {
        Operator::None | Operator::Default => true,
        Operator::Copy | Operator::Tail => {
            slots.set_empty(entry as usize);
            true
        }
        _ => false,
    }
}

/// Reads NULL in an optional field, if it was sent.
#[inline(always)]
fn sent_null(
    slots: &mut Slots,
    entry: u32,
    optional: bool,
    operator: Operator,
    rest: &[u8],
) -> Option<TakenText>
    requires within { IsEntryFor slots.old operator entry }
    ensures unit { IfSome result (λ r. (room : ℕ) (scratch : List ℕ)
        → IsSentText Kind.Ascii optional operator entry room rest.now slots.old slots.new scratch r) }
    ensures absent { IfSome result (λ r. r.source ≡ ValueSource.Absent) }
    ensures none { IfNone result (slots.new ≡ slots.old) }
    ensures terms { slots_terms slots.new ≡ slots_terms slots.old }
{
    match rest.first() {
        Some(0x80) => {
            if !optional || !put_null(slots, entry, operator) {
                return None;
            }
            Some(TakenText {
                source: ValueSource::Absent,
                from: 0,
                bytes: 1,
            })
        }
        _ => None,
    }
}

/// Reads an ASCII string that was sent, if it is a short one or NULL: it is then in the scratch, or at the entry that keeps it. Under tail
/// a string is read only if the entry holds one of its own type.
#[inline(always)]
pub fn sent_at_once(
    slots: &mut Slots,
    scratch: &mut Scratch,
    entry: u32,
    optional: bool,
    operator: Operator,
    rest: &[u8],
) -> Option<TakenText>
    requires within { IsEntryFor slots.old operator entry }
    requires least { 16 ≤ (slots_terms slots.old).max_text }
    requires room { HasRoomFor slots.old scratch.old }
    ensures unit { IfSome result (λ r. IsSentText Kind.Ascii optional operator entry
        (slots_terms slots.old).max_text rest.now slots.old slots.new scratch.new.text r) }
    ensures source { IfSome result (λ r. IsTextSource operator r.source) }
    ensures held { IfSome result (λ r. IsAsciiAt slots.new entry r.source) }
    ensures none { IfNone result ((slots.new ≡ slots.old) × (scratch.new ≡ scratch.old)) }
    ensures terms { slots_terms slots.new ≡ slots_terms slots.old }
    ensures capacity { scratch.new.capacity ≡ scratch.old.capacity }
{
    if let Some(bytes) = sent_short(slots, scratch, entry, operator, rest) {
        return Some(text_taken(operator, bytes));
    }
    if let Some(taken) = sent_null(slots, entry, optional, operator, rest) {
        return Some(taken);
    }
    None
}

/// Decodes an unsent field under copy or tail: the ASCII string that the entry holds, or absent if it is empty.
#[inline(always)]
pub fn unsent_ascii(slots: &Slots, entry: u32, optional: bool) -> Option<ValueSource>
    requires within { entry < length (slots_dictionary slots.now) }
    ensures decided { IfSome result (λ s. IsUnsentText Kind.Ascii optional entry slots.now s) }
    ensures source { IfSome result (λ s. (operator : Operator) → keeps_value operator ≡ true
        → IsTextSource operator s) }
    ensures held { IfSome result (λ s. IsAsciiAt slots.now entry s) }
{
    if slots.holds_ascii(entry as usize) {
        return Some(ValueSource::Entry);
    }
    match slots.held(entry as usize) {
        Entry::Empty if optional => Some(ValueSource::Absent),
        _ => None,
    }
}

/// Borrows the value of a field of ASCII strings from the entry or the scratch.
#[inline(always)]
pub fn ascii_at<'x>(
    slots: &'x Slots,
    entry: u32,
    scratch: &'x [u8],
    source: ValueSource,
) -> Option<Scalar<'x>>
    requires held { IsAsciiAt slots.now entry source }
    ensures { (f : FieldData) (optional : Bool) (operator : Operator) (piece : List ℕ)
        → IsFieldAs f Kind.Ascii optional operator entry → IsTextSource operator source
        → option_map scalar_data result ≡ value_at source f (slots_dictionary slots.now) scratch.now piece }
{
    match source {
        ValueSource::Entry => Some(Scalar::Ascii(slots.kept_ascii(entry as usize))),
        ValueSource::Scratch => Some(Scalar::Ascii(scratch)),
        _ => None,
    }
}
