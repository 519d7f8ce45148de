//! String fields that begin in the piece and go on after it: the units before the last are read, and of the last only the most bytes that
//! it may have, so that the bytes that are there can be buffered at once.
//!
//! `None` stands for all others: for a string that ends in the piece, for faults, and for a unit before the last that is split. Nothing has
//! changed in either case.

ghost use Rattle.std.specs.Prelude.{◌≡◌, ◌≢◌, ◌-◌, ◌<◌, ◌≤◌, ℕ, Bool, [], length, true, IfSome};
ghost use Rattle.fast_value.specs.meaning.Kinds.{family, texts};
ghost use Rattle.fast_dict.specs.meaning.Slots.{slots_dictionary, slots_terms};
ghost use Rattle.fast_stream.specs.meaning.Phrases.{cut};
ghost use Rattle.fast_stream.specs.meaning.Units.{ascii_text as ascii_phrase};
ghost use Rattle.fast_items.specs.device.TextsAs.{IsBegunText};

use crate::joined_parts::kept_room;
use crate::part_items::whole_subtraction;
use crate::taken::BegunText;
use crate::vector_items::whole_size;
use fast_dict::Slots;
use fast_fronts::Rest;
use fast_tree::Operator;
use fast_units::stages::Stage;
use fast_units::units::has_stop;
use fast_value::Kind;

/// Returns whether all of the rest is a prefix of an ASCII string of at most `room` characters, which begins with a character.
#[inline(always)]
pub fn is_text_front(rest: &[u8], room: usize) -> bool
    ensures open { result ≡ true → (nullable : Bool) → ascii_phrase nullable room rest.now [] cut }
    ensures fits { result ≡ true → (0 < length rest.now) × (length rest.now ≤ room) }
{
    match rest.first() {
        None => false,
        Some(0x00) => false,
        Some(_) => rest.len() <= room && !has_stop(rest),
    }
}

/// Begins a vector that is not a delta, of at most `room` bytes.
#[inline(always)]
pub fn begun_vector(
    kind: Kind,
    optional: bool,
    operator: Operator,
    rest: &[u8],
    strict: bool,
    room: usize,
) -> Option<BegunText>
    requires text { family kind ≡ texts }
    requires vector { kind ≢ Kind.Ascii }
    requires sent { operator ≢ Operator.Constant }
    requires whole { operator ≢ Operator.Delta }
    ensures begun { IfSome result (λ r. (entry : ℕ) (slots : Slots)
        → IsBegunText kind optional operator entry strict room rest.now slots r) }
    ensures fits { IfSome result (λ r. (r.from ≤ length rest.now) × (length rest.now - r.from ≤ room)) }
{
    let (size, from) = whole_size(Rest::new(rest), optional, strict)?;
    let size = size?;
    if size > room as u64 || size <= (rest.len() - from) as u64 {
        return None;
    }
    Some(BegunText {
        stage: Stage::Vector(size as usize),
        from,
    })
}

/// Begins a string delta, at an entry that holds a string of its type.
#[inline(always)]
pub fn begun_delta(
    slots: &Slots,
    entry: u32,
    kind: Kind,
    optional: bool,
    rest: &[u8],
    strict: bool,
    room: usize,
) -> Option<BegunText>
    requires there { entry < length (slots_dictionary slots.now) }
    requires text { family kind ≡ texts }
    requires limit { (slots_terms slots.now).max_text ≡ room }
    ensures begun { IfSome result (IsBegunText kind optional Operator.Delta entry strict room rest.now slots.now) }
    ensures fits { IfSome result (λ r. (r.from ≤ length rest.now) × (length rest.now - r.from ≤ room)) }
{
    let (subtraction, len) = whole_subtraction(Rest::new(rest), optional, strict)?;
    let subtraction = subtraction?;
    let left = kept_room(slots, entry as usize, kind, subtraction, room)?;
    let behind = &rest[len..];
    match kind {
        Kind::Ascii => {
            if !is_text_front(behind, left) {
                return None;
            }
            Some(BegunText {
                stage: Stage::Part(subtraction as i32),
                from: len,
            })
        }
        _ => {
            let (size, bytes) = whole_size(Rest::new(behind), false, strict)?;
            let size = size?;
            if size > left as u64 || size <= (behind.len() - bytes) as u64 {
                return None;
            }
            Some(BegunText {
                stage: Stage::PartVector(subtraction as i32, size as usize),
                from: len + bytes,
            })
        }
    }
}
