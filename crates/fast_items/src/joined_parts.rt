//! Parts of deltas, joined to the strings that entries hold: at the end in the slot, at the front through a buffer.
//!
//! `None` stands for all others, faults included: nothing has changed then.

ghost use Rattle.std.specs.Prelude.{◌≡◌, ℕ, List, ◌++◌, ◌∷◌, [], ◌<◌, ◌≤◌, ◌≤ℤ◌, ◌<ℤ◌, length, drop, pos, negsuc, true, Some, Ok, IfSome, IfNone, IsTrue};
ghost use Rattle.fast_value.specs.meaning.Kinds.{family, texts, value_of_text};
ghost use Rattle.fast_dict.specs.meaning.Dictionary.{assigned, previous_at};
ghost use Rattle.fast_dict.specs.meaning.Operators.{checked_text};
ghost use Rattle.fast_dict.specs.meaning.Slots.{slots_dictionary, slots_terms};
ghost use Rattle.fast_items.specs.device.TextsAs.{IsJoined, IsTailed, LeavesRoom};

use fast_dict::{Slots, Store};
use fast_units::fields::text_value;
use fast_units::scratch::Scratch;
use fast_units::texts::is_text_of;
use fast_value::Kind;

/// Returns the number of bytes that a subtraction length removes: at the end, or at the front if it is negative.
#[inline(always)]
fn dropped_by(subtraction: i64) -> usize
    ensures end { pos 0 ≤ℤ subtraction → subtraction ≡ pos result }
    ensures front { subtraction <ℤ pos 0 → subtraction ≡ negsuc result }
{
    if subtraction >= 0 {
        return subtraction as usize;
    }
    (-1 - subtraction) as usize
}

/// Returns whether the bytes kept of a string and the part after them are strings of the type, and so both together.
#[inline(always)]
fn are_texts_of(kind: Kind, kept: &[u8], part: &[u8]) -> bool
    ensures { result ≡ true → checked_text kind (kept.now ++ part.now)
        ≡ Ok (value_of_text kind (kept.now ++ part.now)) }
{
    is_text_of(kind, kept) && is_text_of(kind, part)
}

/// Appends the part to the entry's string, of which the last bytes are removed.
#[inline(always)]
fn append_part(
    slots: &mut Slots,
    entry: usize,
    kind: Kind,
    dropped: usize,
    part: &[u8],
    room: usize,
) -> Option<()>
    requires there { entry < length (slots_dictionary slots.old) }
    requires text { family kind ≡ texts }
    requires limit { (slots_terms slots.old).max_text ≡ room }
    ensures joined { IfSome result (λ _. IsJoined kind entry (pos dropped) part.now room (slots_dictionary slots.old)
        (slots_dictionary slots.new)) }
    ensures none { IfNone result (slots.new ≡ slots.old) }
    ensures terms { slots_terms slots.new ≡ slots_terms slots.old }
{
    let base = slots.own_text(entry, kind)?;
    if dropped > base.len() {
        return None;
    }
    let keep = base.len() - dropped;
    if part.len() > room - keep || !are_texts_of(kind, &base[..keep], part) {
        return None;
    }
    slots.extend_text(entry, kind, keep, part);
    Some(())
}

/// Returns the entry's string without its first bytes, if it is one of the type.
#[inline(always)]
fn kept_behind(slots: &Slots, entry: usize, kind: Kind, dropped: usize) -> Option<&[u8]>
    requires { entry < length (slots_dictionary slots.now) }
    ensures kept { IfSome result (λ kept. (base : List ℕ)
        × (previous_at (Some entry) (slots_dictionary slots.now) ≡ assigned kind (value_of_text kind base))
        × (dropped ≤ length base) × (kept.now ≡ drop dropped base)) }
    ensures fits { IfSome result (λ kept. length kept.now ≤ (slots_terms slots.now).max_text) }
    ensures takes { IfSome result (λ _. IsTrue ((slots_terms slots.now).takes_text entry)) }
{
    let base = slots.own_text(entry, kind)?;
    if dropped > base.len() {
        return None;
    }
    Some(&base[dropped..])
}

/// Returns the most bytes that a part may have beside the bytes that the subtraction length keeps of the entry's string.
#[inline(always)]
pub(crate) fn kept_room(
    slots: &Slots,
    entry: usize,
    kind: Kind,
    subtraction: i64,
    room: usize,
) -> Option<usize>
    requires there { entry < length (slots_dictionary slots.now) }
    requires limit { (slots_terms slots.now).max_text ≡ room }
    ensures { IfSome result (λ left. LeavesRoom kind entry subtraction room left (slots_dictionary slots.now)) }
{
    let base = slots.own_text(entry, kind)?;
    let dropped = dropped_by(subtraction);
    if dropped > base.len() {
        return None;
    }
    Some(room - (base.len() - dropped))
}

/// Prepends the part to the entry's string, of which the first bytes are removed.
#[inline(never)]
fn prepend_part(
    slots: &mut Slots,
    joined: &mut Scratch,
    entry: usize,
    kind: Kind,
    dropped: usize,
    part: &[u8],
    room: usize,
) -> Option<()>
    requires there { entry < length (slots_dictionary slots.old) }
    requires text { family kind ≡ texts }
    requires limit { (slots_terms slots.old).max_text ≡ room }
    requires joined { room ≤ joined.old.capacity }
    ensures joined { IfSome result (λ _. IsJoined kind entry (negsuc dropped) part.now room
        (slots_dictionary slots.old) (slots_dictionary slots.new)) }
    ensures none { IfNone result ((slots.new ≡ slots.old) × (joined.new ≡ joined.old)) }
    ensures terms { slots_terms slots.new ≡ slots_terms slots.old }
    ensures capacity { joined.new.capacity ≡ joined.old.capacity }
{
    let kept = kept_behind(slots, entry, kind, dropped)?;
    if part.len() > room - kept.len() || !are_texts_of(kind, part, kept) {
        return None;
    }
    joined.clear();
    joined.append(part);
    joined.append(kept);
    let _ = slots.set(entry, kind, text_value(kind, joined.as_slice()));
    Some(())
}

/// Prepends an ASCII part to the entry's string, of which the first bytes are removed.
#[inline(never)]
fn prepend_ascii(
    slots: &mut Slots,
    joined: &mut Scratch,
    entry: usize,
    dropped: usize,
    front: &[u8],
    last: u8,
    room: usize,
) -> Option<()>
    requires there { entry < length (slots_dictionary slots.old) }
    requires limit { (slots_terms slots.old).max_text ≡ room }
    requires joined { room ≤ joined.old.capacity }
    ensures joined { IfSome result (λ _. IsJoined Kind.Ascii entry (negsuc dropped) (front.now ++ last ∷ []) room
        (slots_dictionary slots.old) (slots_dictionary slots.new)) }
    ensures none { IfNone result ((slots.new ≡ slots.old) × (joined.new ≡ joined.old)) }
    ensures terms { slots_terms slots.new ≡ slots_terms slots.old }
    ensures capacity { joined.new.capacity ≡ joined.old.capacity }
{
    let kept = kept_behind(slots, entry, Kind::Ascii, dropped)?;
    if front.len() >= room - kept.len() {
        return None;
    }
    joined.clear();
    joined.append(front);
    joined.push(last);
    joined.append(kept);
    let _ = slots.set(
        entry,
        Kind::Ascii,
        text_value(Kind::Ascii, joined.as_slice()),
    );
    Some(())
}

/// Appends an ASCII part to the entry's string, of which the last bytes are removed.
#[inline(always)]
fn append_ascii(
    slots: &mut Slots,
    entry: usize,
    dropped: usize,
    front: &[u8],
    last: u8,
    room: usize,
) -> Option<()>
    requires there { entry < length (slots_dictionary slots.old) }
    requires limit { (slots_terms slots.old).max_text ≡ room }
    ensures joined { IfSome result (λ _. IsJoined Kind.Ascii entry (pos dropped) (front.now ++ last ∷ []) room
        (slots_dictionary slots.old) (slots_dictionary slots.new)) }
    ensures none { IfNone result (slots.new ≡ slots.old) }
    ensures terms { slots_terms slots.new ≡ slots_terms slots.old }
{
    let base = slots.own_text(entry, Kind::Ascii)?;
    if dropped > base.len() {
        return None;
    }
    let keep = base.len() - dropped;
    if front.len() >= room - keep {
        return None;
    }
    slots.extend_text(entry, Kind::Ascii, keep, front);
    slots.extend_text(entry, Kind::Ascii, keep + front.len(), &[last]);
    Some(())
}

/// Replaces the last bytes of the entry's string by a tail, one for one. A longer tail is all of the string.
#[inline(always)]
pub(crate) fn put_tail(slots: &mut Slots, entry: usize, kind: Kind, part: &[u8]) -> Option<()>
    requires there { entry < length (slots_dictionary slots.old) }
    requires text { family kind ≡ texts }
    requires fits { length part.now ≤ (slots_terms slots.old).max_text }
    ensures tail { IfSome result (λ _. IsTailed kind entry part.now (slots_dictionary slots.old)
        (slots_dictionary slots.new)) }
    ensures none { IfNone result (slots.new ≡ slots.old) }
    ensures terms { slots_terms slots.new ≡ slots_terms slots.old }
{
    let base = slots.own_text(entry, kind)?;
    let keep = base.len().saturating_sub(part.len());
    if !are_texts_of(kind, &base[..keep], part) {
        return None;
    }
    slots.extend_text(entry, kind, keep, part);
    Some(())
}

/// Joins the part of a vector to the entry's string, on the side that the subtraction length says, after it removes bytes there.
#[inline(always)]
pub(crate) fn join_vector(
    slots: &mut Slots,
    joined: &mut Scratch,
    entry: usize,
    kind: Kind,
    subtraction: i64,
    part: &[u8],
    room: usize,
) -> Option<()>
    requires there { entry < length (slots_dictionary slots.old) }
    requires text { family kind ≡ texts }
    requires limit { (slots_terms slots.old).max_text ≡ room }
    requires joined { room ≤ joined.old.capacity }
    ensures joined { IfSome result (λ _. IsJoined kind entry subtraction part.now room (slots_dictionary slots.old)
        (slots_dictionary slots.new)) }
    ensures none { IfNone result ((slots.new ≡ slots.old) × (joined.new ≡ joined.old)) }
    ensures terms { slots_terms slots.new ≡ slots_terms slots.old }
    ensures capacity { joined.new.capacity ≡ joined.old.capacity }
{
    let dropped = dropped_by(subtraction);
    if subtraction >= 0 {
        append_part(slots, entry, kind, dropped, part, room)?;
    } else {
        prepend_part(slots, joined, entry, kind, dropped, part, room)?;
    }
    Some(())
}

/// Joins an ASCII part, `front` followed by its last character, to the entry's string, on the side that the subtraction length says, after
/// it removes bytes there.
#[inline(always)]
pub(crate) fn join_ascii(
    slots: &mut Slots,
    joined: &mut Scratch,
    entry: usize,
    subtraction: i64,
    front: &[u8],
    last: u8,
    room: usize,
) -> Option<()>
    requires there { entry < length (slots_dictionary slots.old) }
    requires limit { (slots_terms slots.old).max_text ≡ room }
    requires joined { room ≤ joined.old.capacity }
    ensures joined { IfSome result (λ _. IsJoined Kind.Ascii entry subtraction (front.now ++ last ∷ []) room
        (slots_dictionary slots.old) (slots_dictionary slots.new)) }
    ensures none { IfNone result ((slots.new ≡ slots.old) × (joined.new ≡ joined.old)) }
    ensures terms { slots_terms slots.new ≡ slots_terms slots.old }
    ensures capacity { joined.new.capacity ≡ joined.old.capacity }
{
    let dropped = dropped_by(subtraction);
    if subtraction >= 0 {
        append_ascii(slots, entry, dropped, front, last, room)?;
    } else {
        prepend_ascii(slots, joined, entry, dropped, front, last, room)?;
    }
    Some(())
}
