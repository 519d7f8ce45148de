//! String deltas of which all units are in the piece completely: the subtraction length and the part at once. The entry has to hold a
//! string of the field's type. It changes in its slot.
//!
//! `None` stands for all others, faults included: nothing has changed then, and the general path decodes them.

ghost use Rattle.std.specs.Prelude.{◌≡◌, ◌+◌, ◌<◌, ◌≤◌, ℕ, List, length, take, drop, slice_index, option_map, pos, true, false, Some, IfSome, IfNone};
ghost use Rattle.fast_wire.specs.meaning.Integers.{signed_range, unsigned_range};
ghost use Rattle.fast_fronts.specs.device.Fronts.{IsFirstInt};
ghost use Rattle.fast_fronts.specs.declared.fronts.First.TheVariants.{Whole};
ghost use Rattle.fast_value.specs.meaning.Kinds.{family, texts};
ghost use Rattle.fast_dict.specs.meaning.Slots.{slots_dictionary, slots_terms};
ghost use Rattle.fast_units.specs.device.NextUnits.{BeginsWithCharacter, IsNextText};
ghost use Rattle.fast_items.specs.device.TextsAs.{IsJoined, IsSentPart, IsWholeText, IsKeptSource};
ghost use Rattle.fast_units.specs.device.Words.{HasRoomFor, HasTextLimit};

use crate::joined_parts::{join_ascii, join_vector};
use crate::taken::TakenText;
use crate::vector_items::{whole_run, whole_size};
use fast_dict::Slots;
use fast_fronts::{Rest, whole_signed};
use fast_tree::Operator;
use fast_units::progress::Progress;
use fast_units::scratch::Scratch;
use fast_units::source::ValueSource;
use fast_value::{Kind, Limits};
use fast_wire::find_stop;

/// Reads a subtraction length, or NULL if `nullable`, and returns it with its number of bytes.
#[inline(always)]
pub(crate) fn whole_subtraction(
    rest: Rest<'_>,
    nullable: bool,
    strict: bool,
) -> Option<(Option<i64>, usize)>
    ensures { IfSome result (λ r. IsFirstInt (λ y. y) strict (signed_range 31) nullable (Whole r.0 r.1) rest.entry.bytes.now) }
{
    whole_signed(rest, nullable, strict, -2_147_483_648, 2_147_483_647, true)
}

/// Returns the offset of the last character of an ASCII string of at most `room` characters, which begins with a character.
#[inline(always)]
fn last_character(rest: &[u8], room: usize) -> Option<usize>
    ensures begins { IfSome result (λ _. BeginsWithCharacter rest.now) }
    ensures within { IfSome result (λ last. (last < length rest.now) × (last < room)) }
    ensures stop { IfSome result (λ last. 128 ≤ slice_index rest.now last) }
    ensures before { IfSome result (λ last. (k : ℕ) → k < last → slice_index rest.now k < 128) }
{
    match rest.first() {
        None => None,
        Some(0x00) => None,
        Some(0x80) => None,
        Some(_) => {
            let last = find_stop(&rest[..rest.len().min(room)])?;
            Some(last)
        }
    }
}

/// Joins an ASCII part that is there completely, and returns its number of bytes.
#[inline(always)]
fn ascii_part(
    slots: &mut Slots,
    joined: &mut Scratch,
    entry: usize,
    subtraction: i64,
    rest: &[u8],
    room: usize,
) -> Option<usize>
    requires there { entry < length (slots_dictionary slots.old) }
    requires limit { (slots_terms slots.old).max_text ≡ room }
    requires joined { room ≤ joined.old.capacity }
    ensures part { IfSome result (λ n. (part : List ℕ)
        × IsJoined Kind.Ascii entry subtraction part room (slots_dictionary slots.old) (slots_dictionary slots.new)
        × ((most : ℕ) → length part ≤ most → IsNextText false most rest.now part (Progress.Whole true n))) }
    ensures within { IfSome result (λ n. n ≤ length rest.now) }
    ensures none { IfNone result ((slots.new ≡ slots.old) × (joined.new ≡ joined.old)) }
    ensures terms { slots_terms slots.new ≡ slots_terms slots.old }
    ensures capacity { joined.new.capacity ≡ joined.old.capacity }
{
    let last = last_character(rest, room)?;
    let front = &rest[..last];
    join_ascii(
        slots,
        joined,
        entry,
        subtraction,
        front,
        rest[last] - 0x80,
        room,
    )?;
    Some(last + 1)
}

/// Joins the part of a vector that is there completely, its size and its bytes, and returns the number of bytes of both.
#[inline(always)]
fn vector_part(
    slots: &mut Slots,
    joined: &mut Scratch,
    entry: usize,
    kind: Kind,
    subtraction: i64,
    rest: Rest<'_>,
    strict: bool,
    room: usize,
) -> Option<usize>
    requires there { entry < length (slots_dictionary slots.old) }
    requires text { family kind ≡ texts }
    requires limit { (slots_terms slots.old).max_text ≡ room }
    requires joined { room ≤ joined.old.capacity }
    ensures part { IfSome result (λ n. (size len : ℕ) × (n ≡ len + size) × (size ≤ length (drop len rest.entry.bytes.now))
        × IsFirstInt (λ y. option_map pos y) strict (unsigned_range 32) false (Whole (Some size) len) rest.entry.bytes.now
        × IsJoined kind entry subtraction (take size (drop len rest.entry.bytes.now)) room (slots_dictionary slots.old)
        (slots_dictionary slots.new)) }
    ensures within { IfSome result (λ n. n ≤ length rest.entry.bytes.now) }
    ensures none { IfNone result ((slots.new ≡ slots.old) × (joined.new ≡ joined.old)) }
    ensures terms { slots_terms slots.new ≡ slots_terms slots.old }
    ensures capacity { joined.new.capacity ≡ joined.old.capacity }
{
    let (size, len) = whole_size(rest, false, strict)?;
    let part = whole_run(&rest.bytes[len..], size?, room)?;
    join_vector(slots, joined, entry, kind, subtraction, part, room)?;
    Some(len + part.len())
}

/// Reads the part of a delta, and returns its number of bytes.
#[inline(always)]
fn sent_part(
    slots: &mut Slots,
    joined: &mut Scratch,
    entry: usize,
    kind: Kind,
    subtraction: i64,
    rest: Rest<'_>,
    strict: bool,
    limits: Limits,
) -> Option<usize>
    requires there { entry < length (slots_dictionary slots.old) }
    requires text { family kind ≡ texts }
    requires limit { HasTextLimit slots.old limits }
    requires joined { HasRoomFor slots.old joined.old }
    ensures part { IfSome result
        (λ n. IsSentPart kind entry subtraction strict limits rest.entry.bytes.now slots.old slots.new n) }
    ensures within { IfSome result (λ n. n ≤ length rest.entry.bytes.now) }
    ensures none { IfNone result ((slots.new ≡ slots.old) × (joined.new ≡ joined.old)) }
    ensures terms { slots_terms slots.new ≡ slots_terms slots.old }
    ensures joined { joined.new.capacity ≡ joined.old.capacity }
{
    let room = limits.max_text;
    match kind {
        Kind::Ascii => {
            let bytes = ascii_part(slots, joined, entry, subtraction, rest.bytes, room)?;
            Some(bytes)
        }
        _ => {
            let bytes = vector_part(slots, joined, entry, kind, subtraction, rest, strict, room)?;
            Some(bytes)
        }
    }
}

/// Reads a string delta, or NULL, at an entry that holds a string of its type. The entry then holds the new string.
#[inline(never)]
pub fn sent_delta(
    slots: &mut Slots,
    joined: &mut Scratch,
    entry: u32,
    kind: Kind,
    optional: bool,
    rest: Rest<'_>,
    strict: bool,
    limits: Limits,
) -> Option<TakenText>
    requires there { entry < length (slots_dictionary slots.old) }
    requires text { family kind ≡ texts }
    requires limit { HasTextLimit slots.old limits }
    requires joined { HasRoomFor slots.old joined.old }
    ensures unit { IfSome result (IsWholeText kind optional Operator.Delta entry strict limits rest.entry.bytes.now slots.old
        slots.new) }
    ensures source { IfSome result (λ r. IsKeptSource r.source) }
    ensures within { IfSome result (λ r. (r.from ≤ r.bytes) × (r.bytes ≤ length rest.entry.bytes.now)) }
    ensures none { IfNone result ((slots.new ≡ slots.old) × (joined.new ≡ joined.old)) }
    ensures terms { slots_terms slots.new ≡ slots_terms slots.old }
    ensures joined { joined.new.capacity ≡ joined.old.capacity }
{
    let (subtraction, len) = whole_subtraction(rest, optional, strict)?;
    let Some(subtraction) = subtraction else {
        return Some(TakenText {
            source: ValueSource::Absent,
            from: len,
            bytes: len,
        });
    };
    let behind = rest.skip(len);
    let bytes = sent_part(
        slots,
        joined,
        entry as usize,
        kind,
        subtraction,
        behind,
        strict,
        limits,
    )?;
    Some(TakenText {
        source: ValueSource::Entry,
        from: len,
        bytes: len + bytes,
    })
}
