//! Fields of Unicode strings and byte vectors of which all units are in the piece completely: the size and the bytes at once.
//!
//! `None` stands for all others, faults included: nothing has changed then, and the general path decodes them.

ghost use Rattle.std.specs.Prelude.{◌≡◌, ◌≢◌, ◌<◌, ◌≤◌, ℕ, length, take, false, Some, option_map, pos, IfSome, IfNone};
ghost use Rattle.fast_wire.specs.meaning.Integers.{unsigned_range};
ghost use Rattle.fast_fronts.specs.device.Fronts.{IsFirstInt};
ghost use Rattle.fast_fronts.specs.declared.fronts.First.TheVariants.{Whole};
ghost use Rattle.fast_value.specs.meaning.Kinds.{family, texts};
ghost use Rattle.fast_tree.specs.meaning.Entries.{keeps_value};
ghost use Rattle.fast_dict.specs.meaning.Slots.{slots_dictionary, slots_terms};
ghost use Rattle.fast_items.specs.device.TextsAs.{IsWholeText, IsLentSource, IsKeptSource};
ghost use Rattle.fast_units.specs.device.Words.{HasTextLimit};

use crate::joined_parts::put_tail;
use crate::taken::TakenText;
use fast_dict::{Slots, Store};
use fast_fronts::{Rest, whole_unsigned};
use fast_tree::Operator;
use fast_units::source::ValueSource;
use fast_units::texts::{TOP_SIZE, is_text_of};
use fast_value::{Kind, Limits};

/// Reads the size of a vector, or NULL if `nullable`, and returns it with its number of bytes.
#[inline(always)]
pub(crate) fn whole_size(
    rest: Rest<'_>,
    nullable: bool,
    strict: bool,
) -> Option<(Option<u64>, usize)>
    ensures { IfSome result (λ r. IsFirstInt (λ y. option_map pos y) strict (unsigned_range 32) nullable
        (Whole r.0 r.1) rest.entry.bytes.now) }
{
    whole_unsigned(rest, nullable, strict, TOP_SIZE, true)
}

/// Returns the next `size` bytes, if there is room for them and they are there.
#[inline(always)]
pub(crate) fn whole_run(rest: &[u8], size: u64, room: usize) -> Option<&[u8]>
    ensures room { IfSome result (λ _. size ≤ room) }
    ensures within { IfSome result (λ _. size ≤ length rest.now) }
    ensures run { IfSome result (λ v. v.now ≡ take size rest.now) }
{
    if size > room as u64 || size > rest.len() as u64 {
        return None;
    }
    Some(&rest[..size as usize])
}

/// Reads a vector that is not kept, or NULL. It is borrowed from the piece.
#[inline(always)]
pub fn sent_vector(
    kind: Kind,
    optional: bool,
    operator: Operator,
    rest: Rest<'_>,
    strict: bool,
    limits: Limits,
) -> Option<TakenText>
    requires text { family kind ≡ texts }
    requires vector { kind ≢ Kind.Ascii }
    requires sent { operator ≢ Operator.Constant }
    requires unkept { keeps_value operator ≡ false }
    ensures unit { IfSome result (λ r. (entry : ℕ) (slots : Slots)
        → IsWholeText kind optional operator entry strict limits rest.entry.bytes.now slots slots r) }
    ensures source { IfSome result (λ r. IsLentSource r.source) }
    ensures within { IfSome result (λ r. (r.from ≤ r.bytes) × (r.bytes ≤ length rest.entry.bytes.now)) }
{
    let (size, len) = whole_size(rest, optional, strict)?;
    let Some(size) = size else {
        return Some(TakenText {
            source: ValueSource::Absent,
            from: len,
            bytes: len,
        });
    };
    let text = whole_run(&rest.bytes[len..], size, limits.max_text)?;
    if !is_text_of(kind, text) {
        return None;
    }
    Some(TakenText {
        source: ValueSource::Piece,
        from: len,
        bytes: len + text.len(),
    })
}

/// Reads a tail of a vector, or NULL, at an entry that holds a string of its type. The entry then holds the new string.
#[inline(always)]
pub fn sent_tail(
    slots: &mut Slots,
    entry: u32,
    kind: Kind,
    optional: bool,
    rest: Rest<'_>,
    strict: bool,
    limits: Limits,
) -> Option<TakenText>
    requires there { entry < length (slots_dictionary slots.old) }
    requires text { family kind ≡ texts }
    requires vector { kind ≢ Kind.Ascii }
    requires limit { HasTextLimit slots.old limits }
    ensures unit { IfSome result (IsWholeText kind optional Operator.Tail entry strict limits rest.entry.bytes.now slots.old
        slots.new) }
    ensures source { IfSome result (λ r. IsKeptSource r.source) }
    ensures within { IfSome result (λ r. (r.from ≤ r.bytes) × (r.bytes ≤ length rest.entry.bytes.now)) }
    ensures none { IfNone result (slots.new ≡ slots.old) }
    ensures terms { slots_terms slots.new ≡ slots_terms slots.old }
{
    let (size, len) = whole_size(rest, optional, strict)?;
    let Some(size) = size else {
        slots.set_empty(entry as usize);
        return Some(TakenText {
            source: ValueSource::Absent,
            from: len,
            bytes: len,
        });
    };
    let part = whole_run(&rest.bytes[len..], size, limits.max_text)?;
    put_tail(slots, entry as usize, kind, part)?;
    Some(TakenText {
        source: ValueSource::Entry,
        from: len,
        bytes: len + part.len(),
    })
}
