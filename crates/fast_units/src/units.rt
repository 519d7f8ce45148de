//! The units of fields, read from the bytes that they begin with: an integer, and an ASCII string.

ghost use Rattle.std.specs.Prelude.{◌≡◌, ℕ, ◌<◌, ◌≤◌, Bool, true, false, [], length, Some, pos, option_map, IfSome, IfNone};
ghost use Rattle.fast_wire.specs.meaning.Entities.{HaveNoStop};
ghost use Rattle.fast_wire.specs.meaning.Integers.{Range, unsigned_up_to};
ghost use Rattle.fast_wire.specs.meaning.Faulty.{IsWrongInt};
ghost use Rattle.fast_fronts.specs.device.Fronts.{IsFirstInt};
ghost use Rattle.fast_stream.specs.meaning.Units.{WrongInt, BeginsWithZero};
ghost use Rattle.fast_stream.specs.meaning.Grammar.{give, integer};
ghost use Rattle.fast_stream.specs.device.GrammarReaders.{reader_of};
ghost use Rattle.fast_units.specs.device.Taking.{IsUnit};
ghost use Rattle.fast_units.specs.device.NextUnits.{range_data, first_mapped, IsRanged, IsShort, BeginsWithCharacter, IsNextText};

use crate::progress::Progress;
use crate::scratch::Scratch;
use fast_fronts::{
    First, first_nullable_signed, first_nullable_unsigned, first_signed, first_unsigned,
};
use fast_value::Code;
use fast_wire::{WireFault, find_stop};

/// The range of integers that an entity may encode, and whether it is read in two's complement.
#[derive(Clone, Copy)]
pub enum IntegerRange {
    /// The integers from 0 to this one.
    Unsigned(u64),
    /// The integers from the first to the second, in two's complement.
    Signed(i128, i128),
}

/// Reads the first integer, or NULL if `nullable`. An integer outside the range is the fault `outside`.
#[inline(always)]
pub fn next_integer(
    rest: &[u8],
    strict: bool,
    range: IntegerRange,
    nullable: bool,
    outside: Code,
) -> Progress<Option<i128>>
    ensures unit { IsUnit (reader_of strict (integer (range_data range) nullable outside give)) (λ x. x) rest.now
        result }
    ensures within { IsRanged (λ x. x) (range_data range) result }
    ensures short { IsShort rest.now result }
{
    match first_integer(rest, strict, range, nullable) {
        First::Whole(x, len) => Progress::Whole(x, len),
        First::Wrong(fault, len) => {
            Progress::Wrong(stream_fault(fault, &rest[..len], outside), len)
        }
        First::Cut => Progress::Cut,
    }
}

/// Reads the first integer, which is mandatory and lies between 0 and `top`.
#[inline(always)]
pub fn next_unsigned(rest: &[u8], strict: bool, top: u64) -> Progress<u64>
    ensures unit { IsUnit (reader_of strict (integer (unsigned_up_to top) false Code.D2 give)) (λ x. Some (pos x))
        rest.now result }
    ensures within { IsRanged (λ x. Some (pos x)) (unsigned_up_to top) result }
    ensures short { IsShort rest.now result }
{
    match first_unsigned(rest, strict, top) {
        First::Whole(x, len) => Progress::Whole(x, len),
        First::Wrong(fault, len) => {
            Progress::Wrong(stream_fault(fault, &rest[..len], Code::D2), len)
        }
        First::Cut => Progress::Cut,
    }
}

/// Reads the first ASCII string, of at most `room` characters, or NULL if `nullable`. The result is `true` for a complete string, which is
/// then in the scratch, and `false` for NULL.
#[inline(always)]
pub fn next_ascii(scratch: &mut Scratch, rest: &[u8], room: usize, nullable: bool) -> Progress<bool>
    requires { room ≤ scratch.old.capacity }
    ensures text { IsNextText nullable room rest.now scratch.new.text result }
    ensures capacity { scratch.new.capacity ≡ scratch.old.capacity }
{
    scratch.clear();
    match rest.first() {
        None => Progress::Cut,
        Some(0x00) => zero_first(rest, nullable),
        Some(0x80) => Progress::Whole(!nullable, 1),
        Some(_) => match short_text(scratch, rest, room) {
            Some(bytes) => Progress::Whole(true, bytes),
            None => characters(scratch, rest, room),
        },
    }
}

/// Returns whether one of the bytes has a stop bit. A single byte, as of a stream that arrives byte by byte, is looked at in place.
#[inline(always)]
pub fn has_stop(bytes: &[u8]) -> bool
    ensures { result ≡ false → HaveNoStop bytes.now }
{
    if bytes.len() == 1 {
        return bytes[0] >= 0x80;
    }
    find_stop(bytes).is_some()
}

/// Reads the first entity as an integer in the range, or NULL if `nullable`.
#[inline(always)]
fn first_integer(
    bytes: &[u8],
    strict: bool,
    range: IntegerRange,
    nullable: bool,
) -> First<Option<i128>>
    ensures { IsFirstInt (λ x. x) strict (range_data range) nullable result bytes.now }
{
    match range {
        IntegerRange::Unsigned(top) => {
            if nullable {
                nullable_unsigned(first_nullable_unsigned(bytes, strict, top))
            } else {
                mandatory_unsigned(first_unsigned(bytes, strict, top))
            }
        }
        IntegerRange::Signed(low, top) => {
            if nullable {
                first_nullable_signed(bytes, strict, low, top)
            } else {
                mandatory_signed(first_signed(bytes, strict, low, top))
            }
        }
    }
}

/// Returns the result for a mandatory unsigned integer as one for any integer.
#[inline]
fn mandatory_unsigned(first: First<u64>) -> First<Option<i128>>
    ensures { result ≡ first_mapped (λ x. Some (pos x)) first }
{
    match first {
        First::Whole(x, len) => First::Whole(Some(i128::from(x)), len),
        First::Wrong(fault, len) => First::Wrong(fault, len),
        First::Cut => First::Cut,
    }
}

/// Returns the result for a nullable unsigned integer as one for any integer.
#[inline]
fn nullable_unsigned(first: First<Option<u64>>) -> First<Option<i128>>
    ensures { result ≡ first_mapped (λ x. option_map pos x) first }
{
    match first {
        First::Whole(Some(x), len) => First::Whole(Some(i128::from(x)), len),
        First::Whole(None, len) => First::Whole(None, len),
        First::Wrong(fault, len) => First::Wrong(fault, len),
        First::Cut => First::Cut,
    }
}

/// Returns the result for a mandatory signed integer as one for any integer.
#[inline]
fn mandatory_signed(first: First<i128>) -> First<Option<i128>>
    ensures { result ≡ first_mapped (λ x. Some x) first }
{
    match first {
        First::Whole(x, len) => First::Whole(Some(x), len),
        First::Wrong(fault, len) => First::Wrong(fault, len),
        First::Cut => First::Cut,
    }
}

/// Returns the fault that these bytes decide. The last of ten bytes without a stop bit distinguishes them from an integer outside its
/// range.
#[cold]
#[inline(never)]
fn stream_fault(fault: WireFault, bytes: &[u8], outside: Code) -> Code
    requires { 0 < length bytes.now }
    ensures { (strict : Bool) (range : Range) (nullable : Bool) → IsWrongInt strict range nullable fault bytes.now
        → WrongInt strict range nullable outside bytes.now result }
{
    match fault {
        WireFault::R6 => Code::R6,
        WireFault::D2 if bytes[bytes.len() - 1] < 0x80 => Code::D2,
        WireFault::D2 => outside,
    }
}

/// Reads a string whose first byte is zero. Only the empty string begins so, and only if `nullable`.
#[cold]
#[inline(never)]
fn zero_first(rest: &[u8], nullable: bool) -> Progress<bool>
    requires { BeginsWithZero rest.now }
    ensures { (room : ℕ) → IsNextText nullable room rest.now [] result }
{
    if !nullable {
        return Progress::Wrong(Code::R9, 1);
    }
    match rest.get(1) {
        None => Progress::Cut,
        Some(0x80) => Progress::Whole(true, 2),
        Some(_) => Progress::Wrong(Code::R9, 2),
    }
}

/// Reads a string that begins with a character and ends within a block of 16 bytes. The block is moved as a whole, for any length.
#[inline(always)]
fn short_text(scratch: &mut Scratch, rest: &[u8], room: usize) -> Option<usize>
    requires none { scratch.old.text ≡ [] }
    requires begins { BeginsWithCharacter rest.now }
    requires fits { room ≤ scratch.old.capacity }
    ensures none { IfNone result (scratch.new.text ≡ []) }
    ensures text { IfSome result
        (λ n. (nullable : Bool) → IsNextText nullable room rest.now scratch.new.text (Progress.Whole true n)) }
    ensures capacity { scratch.new.capacity ≡ scratch.old.capacity }
{
    if rest.len() < 16 || room < 16 {
        return None;
    }
    let here = &rest[..16];
    let last = find_stop(here)?;
    scratch.append_front(here, last);
    scratch.push(here[last] - 0x80);
    Some(last + 1)
}

/// Reads a string that begins with a character. The byte after the room is a fault, for any value of it.
#[inline(never)]
fn characters(scratch: &mut Scratch, rest: &[u8], room: usize) -> Progress<bool>
    requires none { scratch.old.text ≡ [] }
    requires begins { BeginsWithCharacter rest.now }
    requires fits { room ≤ scratch.old.capacity }
    ensures text { (nullable : Bool) → IsNextText nullable room rest.now scratch.new.text result }
    ensures capacity { scratch.new.capacity ≡ scratch.old.capacity }
{
    let here = &rest[..rest.len().min(room)];
    if let Some(last) = find_stop(here) {
        scratch.append(&here[..last]);
        scratch.push(here[last] - 0x80);
        return Progress::Whole(true, last + 1);
    }
    if here.len() < rest.len() {
        return Progress::Wrong(Code::L1, room + 1);
    }
    Progress::Cut
}
