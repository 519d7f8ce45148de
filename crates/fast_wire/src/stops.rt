//! The first stop bit of a slice.

ghost use Rattle.std.specs.Prelude.{◌≡◌, ℕ, ◌+◌, ◌<◌, ◌≤◌, not, length, slice_index, IfSome, IfNone, nat_le};
ghost use Rattle.std.specs.List.{prefix_len};
ghost use Rattle.std.specs.Simd.Lanes.{chunk};

use std::simd::prelude::*;

/// Returns the number of bytes before the first stop bit of the 16 from `at`: 16 if there is none.
#[inline(always)]
pub fn stop_in_block(s: &[u8], at: usize) -> u32
    requires { at + 16 ≤ length s.now }
    ensures within { result ≤ 16 }
    ensures before { (k : ℕ) → at ≤ k → k < at + result → slice_index s.now k < 128 }
    ensures stop { result < 16 → 128 ≤ slice_index s.now (at + result) }
    ensures exact { result ≡ prefix_len (λ x. not (nat_le 128 x)) (chunk at 16 s.now) }
{
    let hits = u8x16::from_slice(&s[at..])
        .simd_ge(u8x16::splat(0x80))
        .to_bitmask();
    if hits == 0 { 16 } else { hits.trailing_zeros() }
}

/// Returns the offset of the first stop bit, counted from 0, if there is one.
pub fn find_stop(bytes: &[u8]) -> Option<usize>
    ensures within { IfSome result (λ i. i < length bytes.now) }
    ensures found { IfSome result (λ i. 128 ≤ slice_index bytes.now i) }
    ensures first { IfSome result (λ i. (k : ℕ) → k < i → slice_index bytes.now k < 128) }
    ensures none { IfNone result ((k : ℕ) → k < length bytes.now → slice_index bytes.now k < 128) }
{
    let mut at: usize = 0;
    while bytes.len() - at >= 16 {
        let before = stop_in_block(bytes, at) as usize;
        if before < 16 {
            return Some(at + before);
        }
        at += 16;
    }
    for i in at..bytes.len() {
        if bytes[i] >= 0x80 {
            return Some(i);
        }
    }
    None
}
