//! Comparisons of values and strings.

ghost use Rattle.std.specs.Prelude.{◌≡◌, ◌↔◌, ◌+◌, ◌≤◌, length, take, drop, IsTrue, option_map};
ghost use Rattle.std.specs.Int.{w64, from_le_bytes};
ghost use Rattle.fast_value.specs.meaning.Values.{scalar_data};
ghost use Rattle.fast_dict.specs.meaning.Rule.{common_front, common_back};

use fast_value::Scalar;

/// Returns whether two values, or absences, are identical: 15e-1 and 150e-2 are not.
pub fn is_same_value(a: Option<Scalar<'_>>, b: Option<Scalar<'_>>) -> bool
    ensures { IsTrue result ↔ (option_map scalar_data a.entry ≡ option_map scalar_data b.entry) }
{
    match (a, b) {
        (Some(a), Some(b)) => is_same(a, b),
        (None, None) => true,
        _ => false,
    }
}

/// Returns whether two values are identical.
pub fn is_same(a: Scalar<'_>, b: Scalar<'_>) -> bool
    ensures { IsTrue result ↔ (scalar_data a.entry ≡ scalar_data b.entry) }
{
    match (a, b) {
        (Scalar::U(a), Scalar::U(b)) => a == b,
        (Scalar::I(a), Scalar::I(b)) => a == b,
        (
            Scalar::Dec { exponent, mantissa },
            Scalar::Dec {
                exponent: e,
                mantissa: m,
            },
        ) => exponent == e && mantissa == m,
        (Scalar::Ascii(a), Scalar::Ascii(b)) => a == b,
        (Scalar::Unicode(a), Scalar::Unicode(b)) => a == b,
        (Scalar::Bytes(a), Scalar::Bytes(b)) => a == b,
        _ => false,
    }
}

/// Returns the length of the longest common prefix of two strings.
pub fn common_front(a: &[u8], b: &[u8]) -> usize
    ensures size { result ≡ common_front a.now b.now }
    ensures in_a { result ≤ length a.now }
    ensures in_b { result ≤ length b.now }
{
    let mut size = common_eights(a, b);
    while size < a.len() && size < b.len() && a[size] == b[size] {
        size += 1;
    }
    size
}

/// Counts the characters of the common prefix of two strings, compared eight at a time.
#[inline(always)]
fn common_eights(a: &[u8], b: &[u8]) -> usize
    ensures size { result + common_front (drop result a.now) (drop result b.now) ≡ common_front a.now b.now }
    ensures in_a { result ≤ length a.now }
    ensures in_b { result ≤ length b.now }
{
    let mut size = 0;
    while size + 8 <= a.len() && size + 8 <= b.len() && eight_at(a, size) == eight_at(b, size) {
        size += 8;
    }
    size
}

/// Returns the eight characters at an offset, as one number.
#[inline(always)]
fn eight_at(text: &[u8], at: usize) -> u64
    requires { at + 8 ≤ length text.now }
    ensures { result ≡ from_le_bytes w64 (take 8 (drop at text.now)) }
{
    u64::from_le_bytes([
        text[at],
        text[at + 1],
        text[at + 2],
        text[at + 3],
        text[at + 4],
        text[at + 5],
        text[at + 6],
        text[at + 7],
    ])
}

/// Returns the length of the longest common suffix of two strings.
pub fn common_back(a: &[u8], b: &[u8]) -> usize
    ensures size { result ≡ common_back a.now b.now }
    ensures in_a { result ≤ length a.now }
    ensures in_b { result ≤ length b.now }
{
    let mut size = 0;
    while size < a.len() && size < b.len() && a[a.len() - 1 - size] == b[b.len() - 1 - size] {
        size += 1;
    }
    size
}
