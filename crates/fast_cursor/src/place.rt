//! The position of a cursor in the innermost segment, apart from the cursor.

ghost use Rattle.std.specs.Prelude.{◌≡◌, ◌↔◌, ◌<◌, [], ◌∷◌, length, drop, true, false, if◌then◌else◌};
ghost use Rattle.std.specs.Prelude.{IsTrue, Some, slice_get};
ghost use Rattle.fast_wire.specs.meaning.Maps.{first_bit, later_bits};
ghost use Rattle.fast_program.specs.device.Runs.{is_end, run_nodes, HasEnd};
ghost use Rattle.fast_cursor.specs.device.Cursors.{CursorData, bits_left};
ghost use Rattle.fast_cursor.specs.device.Segments.{first_node};
ghost use Rattle.fast_cursor.specs.device.Places.{place_left, at_place, HasBits, IsPlaceOf};

use crate::map_place::SPENT;
use fast_program::{Code, Op};

/// The position of a cursor in the innermost segment. It is kept apart from the cursor, so that a loop can keep it in registers.
#[derive(Clone, Copy)]
pub struct Place<'t> {
    /// The program, from the next instruction on.
    pub ahead: &'t [Op],
    /// The next bits of the segment's map, as in a `MapPlace`.
    pub word: u64,
}

impl<'t> Place<'t> {
    /// Returns the op of the next instruction, or the end. It is borrowed, so that each arm of a loop loads the parts that it needs.
    #[inline(always)]
    pub fn op(&self) -> &'t Op
        requires run { HasEnd self.now.ahead.now }
        ensures here { slice_get self.now.ahead.now 0 ≡ Some result.now }
        ensures end { is_end result.now.code ≡ true → place_left self.now ≡ [] }
        ensures more { is_end result.now.code ≡ false
            → place_left self.now ≡ result.now.node ∷ run_nodes (drop 1 self.now.ahead.now) }
    {
        let ahead: &'t [Op] = self.ahead;
        &ahead[0]
    }

    /// Returns the next instruction's node, if one is left.
    #[inline(always)]
    pub fn next(&self) -> Option<u32>
        requires run { HasEnd self.now.ahead.now }
        ensures { (c : CursorData) → result ≡ first_node (at_place c self.now).left }
    {
        let op = self.op();
        match op.code {
            Code::End => None,
            _ => Some(u32::from(op.node)),
        }
    }

    /// Moves past the next instruction.
    #[inline(always)]
    pub fn advance(&mut self)
        requires { 0 < length (place_left self.old) }
        ensures left { (c : CursorData)
            → at_place c self.new ≡ record (at_place c self.old) { left = drop 1 (at_place c self.old).left } }
        ensures place { (c : CursorData) → IsPlaceOf c self.old → IsPlaceOf c self.new }
    {
        self.ahead = &self.ahead[1..];
    }

    /// Returns the next bit, if one is left in the word. The bits after the last one are all zero. If the word is spent, the result is the
    /// mark, and so true.
    #[inline(always)]
    pub fn bit(&self) -> bool
        ensures clear { result ≡ false → HasBits self.now }
        ensures is { (c : CursorData) → IsPlaceOf c self.now → HasBits self.now
            → result ≡ first_bit (bits_left (at_place c self.now)) }
    {
        self.word >= SPENT
    }

    /// Returns whether no bit is left in the word: then the cursor has to use the next one, since other bytes of the map may follow.
    #[inline(always)]
    pub fn is_spent(&self) -> bool
        ensures spent { IsTrue result ↔ (self.now.word ≡ 9223372036854775808) }
        ensures more { result ≡ false → HasBits self.now }
    {
        self.word == SPENT
    }

    /// Moves past the next bit, if one is left in the word.
    #[inline(always)]
    pub fn use_bit(&mut self)
        requires more { HasBits self.old }
        ensures bits { (c : CursorData) → IsPlaceOf c self.old
            → bits_left (at_place c self.new) ≡ later_bits (bits_left (at_place c self.old)) }
        ensures same { (c : CursorData)
            → at_place c self.new ≡ record (at_place c self.old) { used = (at_place c self.new).used } }
        ensures left { place_left self.new ≡ place_left self.old }
        ensures place { (c : CursorData) → IsPlaceOf c self.old → IsPlaceOf c self.new }
    {
        self.word <<= 1;
    }

    /// Moves past the next instruction, which uses a bit that is left in the word, or none.
    #[inline(always)]
    pub fn pass(&mut self, has_bit: bool)
        requires left { 0 < length (place_left self.old) }
        requires more { has_bit ≡ true → HasBits self.old }
        ensures past { (c : CursorData) → at_place c self.new ≡ record (at_place c self.old) {
          left = drop 1 (at_place c self.old).left;
          used = (at_place c self.new).used;
        } }
        ensures bits { (c : CursorData) → IsPlaceOf c self.old → bits_left (at_place c self.new)
            ≡ if has_bit then later_bits (bits_left (at_place c self.old)) else bits_left (at_place c self.old) }
        ensures place { (c : CursorData) → IsPlaceOf c self.old → IsPlaceOf c self.new }
    {
        if has_bit {
            self.use_bit();
            self.advance();
            return;
        }
        self.advance();
    }
}
