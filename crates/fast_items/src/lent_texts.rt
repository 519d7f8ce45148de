//! Values of string fields, borrowed from the piece or from the entries that keep them, and fields of which nothing is sent. Entry and type
//! are arguments: constants at the calls, which fold by them.

ghost use Rattle.std.specs.Prelude.{◌≡◌, ◌<◌, ℕ, Bool, true, List, length, Some, option_map, IfSome};
ghost use Rattle.fast_value.specs.meaning.Values.{scalar_data};
ghost use Rattle.fast_tree.specs.meaning.Entries.{keeps_value};
ghost use Rattle.fast_tree.specs.meaning.Tree.{FieldData};
ghost use Rattle.fast_dict.specs.meaning.Dictionary.{Dictionary, previous_at, value_in};
ghost use Rattle.fast_dict.specs.meaning.Slots.{slots_dictionary};
ghost use Rattle.fast_items.specs.device.FieldsAs.{IsFieldAs};
ghost use Rattle.fast_units.specs.device.Settling.{value_at};
ghost use Rattle.fast_items.specs.device.TextItems.{IsUnsentText};
ghost use Rattle.fast_items.specs.device.TextsAs.{IsLentSource, IsKeptSource};

use fast_dict::{Entry, Previous, Slots, Store};
use fast_tree::Operator;
use fast_units::fields::text_value;
use fast_units::source::ValueSource;
use fast_value::{Kind, Scalar};

/// Borrows the value of a field of this type from these bytes of the piece.
#[inline(always)]
pub fn lent_at(kind: Kind, piece: &[u8], source: ValueSource) -> Option<Scalar<'_>>
    requires { IsLentSource source }
    ensures { (f : FieldData) (d : Dictionary) (scratch : List ℕ) → f.kind ≡ kind
        → option_map scalar_data result ≡ value_at source f d scratch piece.now }
{
    match source {
        ValueSource::Piece => Some(text_value(kind, piece)),
        _ => None,
    }
}

/// Borrows the value that the entry holds, of any type.
#[cold]
#[inline(never)]
fn value_held(slots: &Slots, entry: usize) -> Option<Scalar<'_>>
    requires { entry < length (slots_dictionary slots.now) }
    ensures { option_map scalar_data result ≡ value_in (previous_at (Some entry) (slots_dictionary slots.now)) }
{
    match slots.get(entry) {
        Previous::Assigned(_, value) => Some(value),
        Previous::Undefined | Previous::Empty => None,
    }
}

/// Borrows the value that the entry holds, which is a string of this type in most cases.
#[inline(always)]
fn text_held(slots: &Slots, entry: usize, kind: Kind) -> Option<Scalar<'_>>
    requires { entry < length (slots_dictionary slots.now) }
    ensures { option_map scalar_data result ≡ value_in (previous_at (Some entry) (slots_dictionary slots.now)) }
{
    match slots.own_text(entry, kind) {
        Some(text) => Some(text_value(kind, text)),
        None => value_held(slots, entry),
    }
}

/// Borrows the value of a field of this type from the entry that keeps it.
#[inline(always)]
pub fn kept_at(slots: &Slots, entry: u32, kind: Kind, source: ValueSource) -> Option<Scalar<'_>>
    requires there { entry < length (slots_dictionary slots.now) }
    requires source { IsKeptSource source }
    ensures { (f : FieldData) (optional : Bool) (operator : Operator) (scratch piece : List ℕ)
        → IsFieldAs f kind optional operator entry → keeps_value operator ≡ true
        → option_map scalar_data result ≡ value_at source f (slots_dictionary slots.now) scratch piece }
{
    match source {
        ValueSource::Entry => text_held(slots, entry as usize, kind),
        _ => None,
    }
}

/// Decodes an unsent field under copy or tail: the string of the type that the entry holds, or absent if it is empty.
#[inline(always)]
pub fn unsent_text(slots: &Slots, entry: u32, kind: Kind, optional: bool) -> Option<ValueSource>
    requires there { entry < length (slots_dictionary slots.now) }
    ensures decided { IfSome result (λ s. IsUnsentText kind optional entry slots.now s) }
    ensures source { IfSome result (λ s. IsKeptSource s) }
{
    match slots.own_text(entry as usize, kind) {
        Some(_) => Some(ValueSource::Entry),
        None => match slots.held(entry as usize) {
            Entry::Empty if optional => Some(ValueSource::Absent),
            _ => None,
        },
    }
}
