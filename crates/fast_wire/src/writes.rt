//! Integers as entities, each by its shortest one: FAST 1.1, Transfer Encoding.

ghost use Rattle.std.specs.Prelude.{◌≡◌, ◌<◌, ◌≤◌, ◌+◌, ◌-◌, ◌*◌, ◌^◌, true, false, Some, IfSome, pos, negsuc, option_map, length};
ghost use Rattle.std.specs.Int.RustNames.{unsigned_abs};
ghost use Rattle.fast_wire.specs.meaning.Entities.{IsEntity, number, signed, IsOverlong};
ghost use Rattle.fast_wire.specs.meaning.Integers.{Means};
ghost use Rattle.fast_wire.specs.meaning.Shortest.{IsShortest};

use crate::entities::Entity;

/// Returns the shortest entity of a mandatory unsigned integer.
pub fn write_unsigned(x: u64) -> Entity
    ensures entity { IsEntity result }
    ensures short { length result ≤ 10 }
    ensures shortest { IsShortest false false (Some (pos x)) result }
{
    shortest_unsigned(u128::from(x))
}

/// Returns the shortest entity of a nullable unsigned integer: `None` is NULL.
pub fn write_nullable_unsigned(x: Option<u64>) -> Entity
    ensures entity { IsEntity result }
    ensures short { length result ≤ 10 }
    ensures shortest { IsShortest false true (option_map pos x) result }
{
    shortest_unsigned(raised_unsigned(x))
}

/// Returns the shortest entity of a mandatory signed integer, of a magnitude of at most 2^68.
pub fn write_signed(x: i128) -> Entity
    requires { unsigned_abs x ≤ 2 ^ 68 }
    ensures entity { IsEntity result }
    ensures short { length result ≤ 10 }
    ensures shortest { IsShortest true false (Some x) result }
{
    shortest_signed(x)
}

/// Returns the shortest entity of a nullable signed integer, of a magnitude of at most 2^68: `None` is NULL.
pub fn write_nullable_signed(x: Option<i128>) -> Entity
    requires { IfSome x (λ n. unsigned_abs n ≤ 2 ^ 68) }
    ensures entity { IsEntity result }
    ensures short { length result ≤ 10 }
    ensures shortest { IsShortest true true x result }
{
    shortest_signed(raised_signed(x))
}

/// Returns the number that the nullable form sends for an unsigned integer.
fn raised_unsigned(x: Option<u64>) -> u128
    ensures meaning { Means true (pos result) (option_map pos x) }
    ensures small { result ≤ 2 ^ 64 }
{
    match x {
        None => 0,
        Some(x) => u128::from(x) + 1,
    }
}

/// Returns the number that the nullable form sends for a signed integer.
fn raised_signed(x: Option<i128>) -> i128
    requires { IfSome x (λ n. unsigned_abs n ≤ 2 ^ 68) }
    ensures meaning { Means true result x }
    ensures small { unsigned_abs result ≤ 2 ^ 68 + 1 }
{
    match x {
        None => 0,
        Some(x) if x < 0 => x,
        Some(x) => x + 1,
    }
}

/// Returns the shortest entity of this number.
fn shortest_unsigned(n: u128) -> Entity
    requires { n < 2 ^ 70 }
    ensures entity { IsEntity result }
    ensures short { length result ≤ 10 }
    ensures value { number result ≡ n }
    ensures shortest { IsOverlong (λ v. pos (number v)) result → ⊥ }
{
    entity_of(n, groups(n))
}

/// Returns the shortest entity of this number in two's complement.
fn shortest_signed(n: i128) -> Entity
    requires { unsigned_abs n ≤ 2 ^ 68 + 1 }
    ensures entity { IsEntity result }
    ensures short { length result ≤ 10 }
    ensures value { signed result ≡ n }
    ensures shortest { IsOverlong signed result → ⊥ }
{
    if n < 0 {
        shortest_negative((-1 - n) as u128)
    } else {
        shortest_natural(n as u128)
    }
}

/// Returns the shortest entity of `-1 - complement`, in two's complement.
fn shortest_negative(complement: u128) -> Entity
    requires { complement < 2 ^ 69 }
    ensures entity { IsEntity result }
    ensures short { length result ≤ 10 }
    ensures value { signed result ≡ negsuc complement }
    ensures shortest { IsOverlong signed result → ⊥ }
{
    let len = groups(complement * 2);
    entity_of((1u128 << (7 * len)) - 1 - complement, len)
}

/// Returns the shortest entity of a natural number in two's complement.
fn shortest_natural(sum: u128) -> Entity
    requires { sum < 2 ^ 69 }
    ensures entity { IsEntity result }
    ensures short { length result ≤ 10 }
    ensures value { signed result ≡ pos sum }
    ensures shortest { IsOverlong signed result → ⊥ }
{
    entity_of(sum, groups(sum * 2))
}

/// Returns the number of groups of seven bits that a number needs, at least one.
fn groups(n: u128) -> usize
    requires { n < 2 ^ 70 }
    ensures some { 0 < result }
    ensures few { result ≤ 10 }
    ensures enough { n < 2 ^ (7 * result) }
    ensures no_more { 1 < result → 2 ^ (7 * (result - 1)) ≤ n }
{
    for len in 1..10 {
        if n >> (7 * len) == 0 {
            return len;
        }
    }
    10
}

/// Returns the entity of `len` bytes that has this number.
fn entity_of(n: u128, len: usize) -> Entity
    requires some { 0 < len }
    requires few { len ≤ 10 }
    requires fits { n < 2 ^ (7 * len) }
    ensures entity { IsEntity result }
    ensures length { length result ≡ len }
    ensures value { number result ≡ n }
{
    let mut entity = Entity::new();
    for i in (1..len).rev() {
        entity.push((n >> (7 * i) & 0x7f) as u8);
    }
    entity.push((n & 0x7f) as u8 | 0x80);
    entity
}
