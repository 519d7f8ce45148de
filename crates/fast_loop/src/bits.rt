//! The presence bit at a position, for the arms that look at more than one.

ghost use Rattle.std.specs.Prelude.{◌≡◌, true, IfSome, if◌then◌else◌};
ghost use Rattle.fast_wire.specs.meaning.Maps.{first_bit, later_bits};
ghost use Rattle.fast_cursor.specs.device.Cursors.{CursorData, bits_left};
ghost use Rattle.fast_cursor.specs.device.Places.{place_left, at_place, IsPlaceOf, HasBits};

use fast_cursor::place::Place;

/// Returns the presence bit of the next instruction, which counts as set if there is none. If none is left in the word, the general path
/// has to use it.
#[inline(always)]
pub fn bit_at(place: &Place<'_>, has_bit: bool) -> Option<bool>
    ensures bit { IfSome result (λ b. (c : CursorData) → IsPlaceOf c place.now
        → b ≡ if has_bit then first_bit (bits_left (at_place c place.now)) else true) }
    ensures more { IfSome result (λ b. has_bit ≡ true → HasBits place.now) }
{
    if !has_bit {
        return Some(true);
    }
    if !place.bit() {
        return Some(false);
    }
    if place.is_spent() {
        return None;
    }
    Some(true)
}

/// Returns the position after a bit, if there is one.
#[inline(always)]
pub fn behind_bit<'t>(place: Place<'t>, has_bit: bool) -> Place<'t>
    requires more { has_bit ≡ true → HasBits place }
    ensures bits { (c : CursorData) → IsPlaceOf c place.entry → bits_left (at_place c result)
        ≡ if has_bit then later_bits (bits_left (at_place c place.entry)) else bits_left (at_place c place.entry) }
    ensures left { place_left result ≡ place_left place.entry }
    ensures place { (c : CursorData) → IsPlaceOf c place.entry → IsPlaceOf c result }
{
    let mut place = place;
    if has_bit {
        place.use_bit();
    }
    place
}
