//! The position of a decoder in a message: the open segments, and the part of each that is left.

ghost use Rattle.std.specs.Prelude.{◌≡◌, ◌↔◌, ◌<◌, true, false, ℕ, List, [], ◌∷◌, length, drop};
ghost use Rattle.std.specs.Prelude.{IfOk, IsTrue, Some, None, option_map, slice_get};
ghost use Rattle.fast_wire.specs.device.Words.{IsShortEntity};
ghost use Rattle.fast_wire.specs.meaning.Entities.{HaveNoStop};
ghost use Rattle.fast_wire.specs.meaning.Maps.{map_limit, bits, first_bit, later_bits};
ghost use Rattle.fast_program.specs.device.Runs.{is_end, AreNumbered, Begins};
ghost use Rattle.fast_cursor.specs.device.Runs.{run_at, IsRun};
ghost use Rattle.fast_cursor.specs.device.Cursors.{CursorData, FrameData, ElementsData, bits_left};
ghost use Rattle.fast_cursor.specs.device.Cursors.{at_rest, resting, entered, left_to};
ghost use Rattle.fast_cursor.specs.device.Nexts.{next_of, gone_on};
ghost use Rattle.fast_cursor.specs.device.Segments.{elements_data, first_node, IsRunOf};
ghost use Rattle.fast_cursor.specs.device.Places.{place_left, at_place, IsAhead, IsPlaceOf};
ghost use Rattle.fast_cursor.specs.device.MapTaking.{IsMapTaken};

use crate::frames::{Elements, Frame};
use crate::map_place::{MapPlace, NO_MAP, SPENT};
use crate::pending::{MapFront, next_map};
use crate::place::Place;
use fast_fronts::ShortEntity;
use fast_program::{Code, Op};
use fast_wire::MAP_LIMIT;
use std::alloc::{AllocError, Global};
use std::marker::Model;

/// The position of a decoder in a message. It allocates memory only when it is made.
#[derive(Drop)]
pub struct Cursor<'t> {
    // The first `level` frames count, the outermost first.
    frames: Vec<Frame>,
    level: usize,
    ops: &'t [Op],
    // the index of the next instruction in the program
    ip: usize,
    // The cells of one map for each level, the outermost first; those of the innermost segment begin at `start`.
    maps: Vec<u8>,
    start: usize,
    map: MapPlace,
}

impl<'t> Model for Cursor<'t> {
    ghost use Rattle.fast_program.specs.device.Runs.{is_end, Begins};
    ghost use Rattle.fast_cursor.specs.device.Runs.{run_at, IsRun};
    ghost use Rattle.fast_cursor.specs.device.Cursors.{CursorData};

    ghost Value = { CursorData };

    ghost use Rattle.fast_cursor.specs.device.Segments.{cursor_data, IsCursor};

    ghost view = { cursor_data };

    ghost invariant = { IsCursor };
}

impl<'t> Cursor<'t> {
    /// Makes a cursor before a message, for at most `depth` open groups and elements at once. The program begins with an End, and its ops
    /// hold their own indexes.
    ///
    /// # Errors
    ///
    /// An allocation failed.
    pub fn new(alloc: Global, ops: &'t [Op], depth: usize) -> Result<Cursor<'t>, AllocError>
        requires rest { Begins ops.now 0 [] }
        requires numbered { AreNumbered ops.now }
        ensures { IfOk result (λ c. c ≡ at_rest ops.entry.now depth) }
    {
        let levels = depth.checked_add(1).ok_or(AllocError)?;
        let cells = levels.checked_mul(MAP_LIMIT).ok_or(AllocError)?;
        let frames = vec![in alloc; Frame::around(NO_MAP, 0, None); depth]?;
        let maps = vec![in alloc; 0u8; cells]?;
        Ok(Cursor {
            frames,
            level: 0,
            ops,
            ip: 0,
            maps,
            start: 0,
            map: NO_MAP,
        })
    }

    /// Discards all that was read.
    pub fn reset(&mut self)
        ensures { self.new ≡ resting self.old }
    {
        self.level = 0;
        self.start = 0;
        self.ip = 0;
        self.map = NO_MAP;
    }

    /// Begins the instructions of a message's template, which start at this index of the program.
    #[inline(always)]
    pub fn begin(&mut self, start: usize)
        requires run { IsRun self.old.ops start }
        ensures { self.new ≡ record self.old { left = run_at self.old.ops start } }
    {
        self.ip = start;
    }

    /// Returns the position in the innermost segment.
    #[inline(always)]
    pub fn place(&self) -> Place<'t>
        ensures same { at_place self.now result ≡ self.now }
        ensures place { IsPlaceOf self.now result }
    {
        Place {
            ahead: &self.ops[self.ip..],
            word: self.map.word,
        }
    }

    /// Moves to a position in the innermost segment.
    #[inline(always)]
    pub fn set_place(&mut self, place: Place<'t>)
        requires { IsPlaceOf self.old place }
        ensures { self.new ≡ at_place self.old place.entry }
    {
        self.ip = place.op().at as usize;
        self.map.word = place.word;
    }

    /// Reads the bytes of the innermost segment's map from the rest of a piece.
    #[inline(always)]
    pub fn take_map(&mut self, rest: &[u8]) -> MapFront
        requires open { HaveNoStop self.old.map }
        requires room { length self.old.map < map_limit }
        ensures map { IsMapTaken self.old.map rest.now self.new.map result }
        ensures same { self.new ≡ record self.old { map = self.new.map } }
    {
        if self.take_byte(rest) {
            return MapFront::Whole(1);
        }
        self.take_more(rest)
    }

    /// Reads a map of one byte, if none of its bytes has been read and the piece goes on with it. Returns whether it did.
    #[inline(always)]
    pub fn take_byte(&mut self, rest: &[u8]) -> bool
        ensures none { result ≡ true → self.old.map ≡ [] }
        ensures map { result ≡ true → IsMapTaken self.old.map rest.now self.new.map (MapFront.Whole 1) }
        ensures same { self.new ≡ record self.old { map = self.new.map } }
        ensures left { result ≡ false → self.new ≡ self.old }
    {
        if self.map.len == 0 && !rest.is_empty() {
            let byte = rest[0];
            if byte >= 128 {
                self.maps[self.start] = byte;
                self.map = MapPlace::of_byte(byte);
                return true;
            }
        }
        false
    }

    /// Reads the bytes of the innermost segment's map from the rest of a piece, whether or not some have been read before.
    #[inline(never)]
    fn take_more(&mut self, rest: &[u8]) -> MapFront
        requires open { HaveNoStop self.old.map }
        requires room { length self.old.map < map_limit }
        ensures map { IsMapTaken self.old.map rest.now self.new.map result }
        ensures same { self.new ≡ record self.old { map = self.new.map } }
    {
        let len = self.map.len as usize;
        let cells = &mut self.maps[self.start..self.start + MAP_LIMIT];
        let front = next_map(cells, len, rest);
        let taken = match front {
            MapFront::Whole(bytes) => bytes,
            MapFront::TooLong(_) => 0,
            MapFront::Cut => rest.len(),
        };
        let map = &self.maps[self.start..self.start + len + taken];
        self.map = self.map.in_map(map);
        front
    }

    /// Reads a map of at most eight bytes at the front of the piece, if none of its bytes has been read and the piece has eight. Returns
    /// whether it did.
    #[inline(always)]
    pub fn take_short(&mut self, rest: &[u8], entity: ShortEntity) -> bool
        requires entity { IsShortEntity entity.number entity.len rest.now }
        ensures none { result ≡ true → self.old.map ≡ [] }
        ensures map { result ≡ true → IsMapTaken self.old.map rest.now self.new.map (MapFront.Whole entity.len) }
        ensures same { self.new ≡ record self.old { map = self.new.map } }
        ensures left { result ≡ false → self.new ≡ self.old }
    {
        if self.map.len != 0 || rest.len() < 8 {
            return false;
        }
        self.maps[self.start..self.start + 8].copy_from_slice(&rest[..8]);
        self.map = MapPlace::of_entity(entity);
        true
    }

    /// Begins a message whose map is one byte: the position moves past the first bit, to where a run of the program begins. The cursor
    /// itself stays where it was in the program.
    #[inline(always)]
    pub fn begin_message(&mut self, place: &mut Place<'t>, byte: u8, start: usize)
        requires place { IsPlaceOf self.old place.old }
        requires run { IsRun self.old.ops start }
        ensures same { self.new ≡ record self.old { map = byte ∷ []; used = 0; ends = 8 } }
        ensures at { at_place self.new place.new
            ≡ record self.new { left = run_at self.old.ops start; used = (at_place self.new place.new).used } }
        ensures bits { bits_left (at_place self.new place.new) ≡ later_bits (bits (byte ∷ [])) }
        ensures place { IsPlaceOf self.new place.new }
    {
        self.maps[self.start] = byte;
        self.map = MapPlace::of_byte(byte);
        place.ahead = &self.ops[start..];
        place.word = self.map.word;
        place.use_bit();
    }

    /// Moves a position to the next bit of the innermost segment's map. Its index in the program stays.
    #[inline(always)]
    pub fn show_map(&self, place: &mut Place<'t>)
        requires ahead { IsAhead self.now.ops place.old.ahead.now }
        ensures at { at_place self.now place.new ≡ record self.now { left = place_left place.old } }
        ensures place { IsPlaceOf self.now place.new }
    {
        place.word = self.map.word;
    }

    /// Sets the innermost segment to have no map.
    #[inline(always)]
    pub fn clear_map(&mut self)
        ensures { self.new ≡ record self.old { map = []; used = 0; ends = 8 } }
    {
        self.map = NO_MAP;
    }

    /// Returns the bytes of the innermost segment's map that have been read.
    #[inline]
    pub fn map(&self) -> &[u8]
        ensures { result.now ≡ self.now.map }
    {
        &self.maps[self.start..self.start + self.map.len as usize]
    }

    /// Returns the number of bytes of the innermost segment's map that have been read.
    #[inline(always)]
    pub fn map_len(&self) -> usize
        ensures { result ≡ length self.now.map }
    {
        self.map.len as usize
    }

    /// Returns the next bit of the innermost segment. The bits after the last one are all zero.
    #[inline(always)]
    pub fn bit(&self) -> bool
        ensures { result ≡ first_bit (bits_left self.now) }
    {
        if self.map.word == SPENT {
            return self.map.bit_behind(&self.maps, self.start);
        }
        self.map.word >= SPENT
    }

    /// Moves past the next bit.
    #[inline(always)]
    pub fn use_bit(&mut self)
        ensures bits { bits_left self.new ≡ later_bits (bits_left self.old) }
        ensures same { self.new ≡ record self.old { used = self.new.used; ends = self.new.ends } }
    {
        if self.map.word == SPENT {
            self.map.refill(&self.maps, self.start);
        }
        self.map.word <<= 1;
    }

    /// Returns the next instruction's node, if one is left of the innermost segment.
    #[inline(always)]
    pub fn next(&self) -> Option<u32>
        ensures { result ≡ first_node self.now.left }
    {
        let op = self.op();
        match op.code {
            Code::End => None,
            _ => Some(u32::from(op.node)),
        }
    }

    /// Returns the op of the next instruction, or the end.
    #[inline(always)]
    pub fn op(&self) -> Op
        ensures within { (n : ℕ) × (slice_get self.now.ops n ≡ Some result) }
        ensures end { is_end result.code ≡ true → self.now.left ≡ [] }
        ensures more { is_end result.code ≡ false → self.now.left ≡ result.node ∷ drop 1 self.now.left }
    {
        self.ops[self.ip]
    }

    /// Moves past the next instruction.
    #[inline(always)]
    pub fn advance(&mut self)
        requires { 0 < length self.old.left }
        ensures { self.new ≡ record self.old { left = drop 1 self.old.left } }
    {
        self.ip += 1;
    }

    /// Opens a group, after which the innermost segment goes on.
    #[inline(always)]
    pub fn open_group(&mut self, start: usize)
        requires room { length self.old.frames < self.old.depth }
        requires run { IsRun self.old.ops start }
        ensures { self.new ≡ entered self.old None (run_at self.old.ops start) }
    {
        self.enter(None, start);
    }

    /// Opens an element, after which others follow, and then the rest of the innermost segment.
    #[inline(always)]
    pub fn open_element(&mut self, elements: Elements)
        requires room { length self.old.frames < self.old.depth }
        requires run { IsRun self.old.ops elements.start }
        ensures { self.new ≡ entered self.old (Some (elements_data self.old.ops elements))
            (run_at self.old.ops elements.start) }
    {
        self.enter(Some(elements), elements.start);
    }

    /// Opens a segment.
    #[inline(always)]
    fn enter(&mut self, elements: Option<Elements>, start: usize)
        requires room { length self.old.frames < self.old.depth }
        requires run { IsRun self.old.ops start }
        requires elements { IsRunOf self.old.ops elements }
        ensures { self.new ≡ entered self.old (option_map (elements_data self.old.ops) elements)
            (run_at self.old.ops start) }
    {
        self.frames[self.level] = Frame::around(self.map, self.ip, elements);
        self.level += 1;
        self.start += MAP_LIMIT;
        self.ip = start;
        self.map = NO_MAP;
    }

    /// Ends the innermost segment if it is an element that another one follows: that one begins, and the number of bits that it uses is
    /// returned. Otherwise nothing changes, and the result is `None`.
    #[inline(always)]
    pub fn next_element(&mut self) -> Option<usize>
        requires inner { 0 < length self.old.frames }
        ensures next { (f : FrameData) (fs : List FrameData) → self.old.frames ≡ f ∷ fs
            → self.new ≡ gone_on self.old f fs (next_of f.elements) }
        ensures width { (f : FrameData) (fs : List FrameData) → self.old.frames ≡ f ∷ fs
            → result ≡ option_map (λ (e : ElementsData). e.width) (next_of f.elements) }
        ensures none { result ≡ None → self.new ≡ self.old }
    {
        let frame = self.frames[self.level - 1];
        if frame.is_element == 0 || frame.more == 0 {
            return None;
        }
        self.frames[self.level - 1].more = frame.more - 1;
        self.ip = frame.start;
        self.map = NO_MAP;
        Some(frame.width)
    }

    /// Returns whether the innermost segment is the message's.
    #[inline]
    pub fn is_outermost(&self) -> bool
        ensures { IsTrue result ↔ (self.now.frames ≡ []) }
    {
        self.level == 0
    }

    /// Closes the innermost segment, which is complete, and goes on with the one around it. Returns the elements of a sequence that still
    /// follow.
    #[inline(always)]
    pub fn close(&mut self) -> Option<Elements>
        requires inner { 0 < length self.old.frames }
        ensures left { (f : FrameData) (fs : List FrameData) → self.old.frames ≡ f ∷ fs
            → (self.new ≡ left_to self.old f fs) × (option_map (elements_data self.old.ops) result ≡ f.elements) }
        ensures run { IsRunOf self.old.ops result }
    {
        let frame = self.frames[self.level - 1];
        self.level -= 1;
        self.start -= MAP_LIMIT;
        self.ip = frame.after;
        self.map = frame.map;
        frame.elements()
    }
}
