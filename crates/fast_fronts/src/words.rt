//! Entities of at most eight bytes, read as one word.

ghost use Rattle.std.specs.Prelude.{◌≡◌, ℕ, ◌*◌, ◌++◌, ◌<◌, ◌≤◌, true, All, List, IfSome, pos, option_map, length, take, replicate, get_or};
ghost use Rattle.std.specs.Int.{w32, from_le_bytes};
ghost use Rattle.fast_wire.specs.meaning.Entities.{IsEntity, number, signed};
ghost use Rattle.fast_wire.specs.meaning.Integers.{Means};
ghost use Rattle.fast_wire.specs.device.Words.{word_of, IsShortEntity, IsFrontWord, IsSpread};
ghost use Rattle.fast_fronts.specs.device.Fronts.{IsLoaded};

/// The stop bits of eight bytes.
const STOP_BITS: u64 = 0x8080_8080_8080_8080;

/// The stop bits of four bytes.
const SHORT_STOP_BITS: u32 = 0x8080_8080;

/// An entity of at most eight bytes.
#[derive(Clone, Copy, Debug)]
pub struct ShortEntity {
    /// The number that the lower seven bits of its bytes make up.
    pub number: u64,
    /// Its number of bytes.
    pub len: usize,
}

/// Returns the first entity, if it ends within eight bytes. The slice may have fewer than eight.
#[inline(always)]
pub fn short_entity(bytes: &[u8]) -> Option<ShortEntity>
    ensures { IfSome result (λ e. IsShortEntity e.number e.len bytes.now) }
{
    if let Some(number) = one_byte(bytes) {
        return Some(ShortEntity { number, len: 1 });
    }
    let word = front_word(bytes);
    if let Some((number, len)) = four_in(word, bytes) {
        return Some(ShortEntity { number, len });
    }
    let (number, len) = eight_in(word, bytes)?;
    Some(ShortEntity { number, len })
}

/// Returns the number of the first entity, if it is one byte.
#[inline(always)]
pub(crate) fn one_byte(bytes: &[u8]) -> Option<u64>
    ensures { IfSome result (λ sum. IsShortEntity sum 1 bytes.now) }
{
    let byte = *bytes.first()?;
    if byte < 0x80 {
        return None;
    }
    Some(u64::from(byte & 0x7f))
}

/// Returns the first eight bytes as one word, the first one the lowest, with zeros for those that are missing. Reading the bytes one by one
/// and some of them together is then one load. The functions that use the word have the bytes as an argument too, for their clauses.
#[inline(always)]
pub(crate) fn front_word(bytes: &[u8]) -> u64
    ensures { IsLoaded result bytes.now }
{
    match bytes.first_chunk::<8>() {
        Some(chunk) => u64::from_le_bytes(*chunk),
        None => last_word(bytes),
    }
}

/// Returns fewer than eight bytes as [`front_word`] does: the last ones of a piece.
#[cold]
#[inline(never)]
pub(crate) fn last_word(bytes: &[u8]) -> u64
    requires few { length bytes.now < 8 }
    ensures { IsLoaded result bytes.now }
{
    let Some(four) = bytes.first_chunk::<4>() else {
        return u64::from(last_half(bytes));
    };
    let high = u64::from(last_half(&bytes[4..]));
    u64::from(u32::from_le_bytes(*four)) + (high << 32)
}

/// Returns fewer than four bytes as one word, the first one the lowest, with zeros for those that are missing.
#[inline(always)]
fn last_half(bytes: &[u8]) -> u32
    requires few { length bytes.now < 4 }
    ensures { result ≡ from_le_bytes w32 (take 4 (bytes.now ++ replicate 4 0)) }
{
    match bytes {
        [a] => u32::from_le_bytes([*a, 0, 0, 0]),
        [a, b] => u32::from_le_bytes([*a, *b, 0, 0]),
        [a, b, c] => u32::from_le_bytes([*a, *b, *c, 0]),
        _ => 0,
    }
}

/// Returns the first byte.
#[inline(always)]
pub(crate) fn first_in(word: u64, bytes: &[u8]) -> u8
    requires front { IsLoaded word bytes.now }
    ensures { result ≡ get_or bytes.now 0 0 }
{
    let _ = bytes;
    (word & 0xff) as u8
}

/// Returns the second byte.
#[inline(always)]
pub(crate) fn second_in(word: u64, bytes: &[u8]) -> u8
    requires front { IsLoaded word bytes.now }
    ensures { result ≡ get_or bytes.now 1 0 }
{
    let _ = bytes;
    (word >> 8 & 0xff) as u8
}

/// Returns the lower four bytes.
#[inline(always)]
fn four_of(word: u64) -> u32
    ensures { (bytes : List ℕ) → All (λ byte. byte < 256) bytes → IsFrontWord word bytes
        → result ≡ from_le_bytes w32 (take 4 bytes) }
{
    (word & 0xffff_ffff) as u32
}

/// Returns the number of the first entity, if it is one byte.
#[inline(always)]
pub(crate) fn byte_in(word: u64, bytes: &[u8]) -> Option<u64>
    requires front { IsLoaded word bytes.now }
    ensures { IfSome result (λ sum. IsShortEntity sum 1 bytes.now) }
{
    let byte = first_in(word, bytes);
    if byte < 0x80 {
        return None;
    }
    Some(u64::from(byte & 0x7f))
}

/// Returns the number and the length of the first entity, if it ends among four bytes.
#[inline(always)]
pub(crate) fn four_in(word: u64, bytes: &[u8]) -> Option<(u64, usize)>
    requires front { IsLoaded word bytes.now }
    ensures entity { IfSome result (λ e. IsShortEntity e.0 e.1 bytes.now) }
    ensures few { IfSome result (λ e. e.1 ≤ 4) }
{
    let four = four_of(word);
    let stops = four & SHORT_STOP_BITS;
    if stops == 0 {
        return None;
    }
    let bits = stops.trailing_zeros() + 1;
    let low = four.swap_bytes() >> (32 - bits);
    Some((u64::from(packed_short(low)), bits as usize / 8))
}

/// Returns the integer in two's complement and the length of the first entity, if it ends among four bytes. Its sign is spread over the
/// word before its bytes are packed, which needs fewer steps than to do so for each length afterwards.
#[inline(always)]
pub(crate) fn four_signed_in(word: u64, bytes: &[u8]) -> Option<(i64, usize)>
    requires front { IsLoaded word bytes.now }
    ensures entity { IfSome result (λ e. IsShortEntity (number (take e.1 bytes.now)) e.1 bytes.now
        × (e.0 ≡ signed (take e.1 bytes.now))) }
    ensures few { IfSome result (λ e. e.1 ≤ 4) }
{
    let four = four_of(word);
    let stops = four & SHORT_STOP_BITS;
    if stops == 0 {
        return None;
    }
    let bits = stops.trailing_zeros() + 1;
    let low = with_sign(four.swap_bytes(), bits);
    let sum = u64::from(packed_short(low));
    Some((extended(sum, 4), bits as usize / 8))
}

/// Moves the upper `bits` bits of four bytes, which are an entity, to the lower end of four bytes that are the same integer.
#[inline(always)]
fn with_sign(word: u32, bits: u32) -> u32
    requires some { 8 ≤ bits }
    requires few { bits ≤ 32 }
    ensures { (front rest : List ℕ) → bits ≡ 8 * length front → length (front ++ rest) ≡ 4
        → All (λ byte. byte < 256) (front ++ rest) → word ≡ word_of (front ++ rest) → IsSpread result front }
{
    ((word << 1).cast_signed() >> (33 - bits)).cast_unsigned()
}

/// Returns the number and the length of the first entity, if it ends among the eight bytes. More than four bytes are expected.
#[inline(always)]
pub(crate) fn eight_in(word: u64, bytes: &[u8]) -> Option<(u64, usize)>
    requires front { IsLoaded word bytes.now }
    ensures { IfSome result (λ e. IsShortEntity e.0 e.1 bytes.now) }
{
    let _ = bytes;
    let stops = word & STOP_BITS;
    if stops == 0 {
        return None;
    }
    let bits = stops.trailing_zeros() + 1;
    let low = word.swap_bytes() >> (64 - bits);
    Some((packed_whole(low), bits as usize / 8))
}

/// Packs the lower seven bits of each of eight bytes side by side, in three steps.
#[inline(always)]
fn packed_whole(word: u64) -> u64
    ensures { (w : List ℕ) → length w ≡ 8 → All (λ byte. byte < 256) w → word ≡ word_of w → result ≡ number w }
{
    let sevens = word & 0x7f7f_7f7f_7f7f_7f7f;
    let pairs = sevens - ((sevens & 0x7f00_7f00_7f00_7f00) >> 1);
    let fours = pairs - ((pairs & 0x3fff_0000_3fff_0000) >> 2) * 3;
    fours - (fours >> 32) * 0xf000_0000
}

/// Packs the lower seven bits of each of four bytes side by side.
#[inline(always)]
fn packed_short(word: u32) -> u32
    ensures { (w : List ℕ) → length w ≡ 8 → All (λ byte. byte < 256) w → word ≡ word_of w → result ≡ number w }
{
    let sevens = word & 0x7f7f_7f7f;
    let pairs = sevens - ((sevens & 0x7f00_7f00) >> 1);
    pairs - (pairs >> 16) * 0xc000
}

/// Returns the number in two's complement of `len` bytes, by the number that their lower seven bits make up.
#[inline(always)]
pub(crate) fn extended(sum: u64, len: usize) -> i64
    requires some { 1 ≤ len }
    requires short { len ≤ 8 }
    ensures { (w : List ℕ) → length w ≡ len → sum ≡ number w → result ≡ signed w }
{
    let spare = 64 - 7 * len;
    (sum << spare).cast_signed() >> spare
}

/// Returns the number of a short entity in two's complement.
#[inline(always)]
pub(crate) fn short_signed(w: &[u8], sum: u64) -> i64
    requires entity { IsEntity w.now }
    requires short { length w.now ≤ 8 }
    requires number { sum ≡ number w.now }
    ensures { result ≡ signed w.now }
{
    let spare = 64 - 7 * w.len();
    (sum << spare).cast_signed() >> spare
}

/// Returns the integer that the nullable form of an unsigned integer sends as `n`: `None` is NULL.
#[inline(always)]
pub(crate) fn short_lowered(n: u64) -> Option<u128>
    ensures { Means true (pos n) (option_map pos result) }
{
    if n == 0 {
        return None;
    }
    Some(u128::from(n - 1))
}

/// Returns the integer that the nullable form of a signed integer sends as `n`, in 128 bits: `None` is NULL.
#[inline(always)]
pub(crate) fn short_signed_lowered(n: i64) -> Option<i128>
    ensures { Means true n result }
{
    match lowered(n) {
        Some(x) => Some(i128::from(x)),
        None => None,
    }
}

/// Returns the integer that the nullable form of a signed integer sends as `n`, in 64 bits: `None` is NULL.
#[inline(always)]
pub(crate) fn lowered(n: i64) -> Option<i64>
    ensures { Means true n result }
{
    if n == 0 {
        return None;
    }
    Some(n - i64::from(n > 0))
}
