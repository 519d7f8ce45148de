//! Streams of a set with templates of every type.

use super::{Case, LENIENT, Script, expect, expect_case, expect_rows, push};
use fast_decoder::Decoder;
use fast_template::VECTORS;
use std::process::Abort;
use std::test::Fail;

const MESSAGES: &str = "\
no byte | lenient | | | between
a map | lenient | C0 | | inside
a map and an identifier | lenient | C0 81 | m0 | inside
a message | lenient | C0 81 39 45 A3 | m0 u0=942755 /m | between
a copied identifier | strict | C0 81 39 45 A3 80 80 | m0 u0=942755 /m m0 u0=0 /m | between
no identifier to copy | lenient | 80 | | D5@1
no template with the identifier | lenient | C0 D5 | | D9@2
a template that makes all previous values undefined but the identifier's | lenient | E0 86 81 C0 89 80 C0 86 \
    | m5 u6=0 /m m8 /m m8 /m m5 /m | between
";

/// A message with a group and two elements.
pub const LONG: &[u8] = &[
    0xE0, 0x8F, 0x85, 0x82, 0x01, 0xFF, 0x83, 0xC0, 0x41, 0xC2, 0x00, 0xE4, 0x80, 0xFE,
];

/// The events of `LONG`.
pub const LONG_EVENTS: &str =
    "m14 u15=5 g16 b17=01FF /g s18*2 e a19='AB' i20=100 /e e a19='AB' i20=98 /e /s /m";

const INTEGERS: &str = "\
signed integers | lenient | C0 8C 46 3A DD 80 00 40 81 80 7F 3F FF \
    | m11 i12=-942755 /m m11 i12=8193 /m m11 i12=-8193 /m | between
signed integers that are no longer than they need to be | strict | C0 8C 46 3A DD 80 00 40 81 80 7F 3F FF \
    | m11 i12=-942755 /m m11 i12=8193 /m m11 i12=-8193 /m | between
an integer past its type | lenient | C0 81 10 00 00 00 80 | m0 | D2@7
an integer past its type that is no longer than it needs to be | strict | C0 81 10 00 00 00 80 | m0 | D2@7
the greatest value, absent, 0, and an absent value of two bytes | lenient \
    | C0 8D 10 00 00 00 80 80 80 80 81 80 00 80 | m12 u13=4294967295 /m m12 /m m12 u13=0 /m m12 /m | between
an absent value of two bytes is overlong | strict | C0 8D 10 00 00 00 80 80 80 80 81 80 00 80 \
    | m12 u13=4294967295 /m m12 /m m12 u13=0 /m m12 | R6@14
the greatest of all integers, which takes ten bytes | lenient | C0 8E 01 00*8 80 | m13 i14=9223372036854775807 /m \
    | between
the greatest of all integers is no longer than it needs to be | strict | C0 8E 01 00*8 80 | m13 i14=9223372036854775807 /m \
    | between
ten bytes and no stop bit | lenient | C0 8E 01*10 | m13 | D2@12
ten bytes and no stop bit are no overlong integer | strict | C0 8E 01*10 | m13 | D2@12
an identifier of ten bytes and no stop bit | lenient | C0 00*10 | | D2@11
an overlong integer | lenient | C0 81 00 81 | m0 u0=1 /m | between
an overlong integer is refused | strict | C0 81 00 81 | m0 | R6@4
";

const PRESENCE_MAPS: &str = "\
a map with seven bits to spare | lenient | 40 80 81 81 | m0 u0=1 /m | between
a map with seven bits to spare is refused | strict | 40 80 81 81 | | R7@2
a map wider than its segment | lenient | 40 81 81 81 | m0 u0=1 /m | between
a map wider than its segment is refused | strict | 40 81 81 81 | | R8@3
thirty-two bytes of a map | lenient | 00*32 | | inside
a map that never stops | lenient | 00*146 | | L3@146
";

const NUMBERS_WITH_OPERATORS: &str = "\
after the greatest value comes the least | lenient | E0 85 0F 7F 7F 7F FF 80 80 \
    | m4 u5=4294967295 /m m4 u5=0 /m m4 u5=1 /m | between
a copied value is made absent, and stays so | lenient | E0 86 81 A0 80 80 | m5 u6=0 /m m5 /m m5 /m | between
nothing to copy | lenient | C0 8A | m9 | D5@2
the previous value is of another type | lenient | E0 86 81 C0 8B | m5 u6=0 /m m10 | D4@5
a delta, none, and one more | lenient | C0 90 86 80 80 80 82 | m15 i21=5 /m m15 /m m15 i21=6 /m | between
a delta past every type | lenient | C0 90 3F 7F*8 FF | m15 | D2@12
";

const DECIMALS: &str = "\
a decimal, and one with an exponent out of range | lenient | C0 92 FF 8F 80 80 BF 81 81 85 80 00 C0 \
    | m17 d23=15e-1 /m m17 d23=1e63 d24=5e0 /m m17 | R1@13
decimals that are no longer than they need to be | strict | C0 92 FF 8F 80 80 BF 81 81 85 80 00 C0 \
    | m17 d23=15e-1 /m m17 d23=1e63 d24=5e0 /m m17 | R1@13
an absent exponent leaves the next bit to the next field | lenient | F0 87 80 85 | m6 u8=5 /m | between
a decimal by parts | lenient | F8 87 FF 8F 85 | m6 d7=15e-1 u8=5 /m | between
an exponent by parts out of range | lenient | F8 87 00 C1 | m6 | R1@4
";

const ASCII_TEXTS: &str = "\
a tail replaces the end of the base, or nothing | lenient | E0 83 41 42 43 44 C5 A0 58 D9 80 \
    | m2 a3='ABCDE' /m m2 a3='ABCXY' /m m2 a3='ABCXY' /m | between
a tail longer than the base replaces it | lenient | E0 83 C1 A0 58 D9 | m2 a3='A' /m m2 a3='XY' /m | between
a tail that begins with a zero | lenient | E0 83 00 | m2 | R9@3
deltas at the back and at the front, and one past the base | lenient \
    | C0 84 80 47 45 48 B6 80 82 4D B6 80 FF 5A DA 80 87 | m3 a4='GEH6' /m m3 a4='GEM6' /m m3 a4='ZZGEM6' /m m3 \
    | D7@17
a subtraction length past 31 bits | lenient | C0 84 08 00 00 00 80 | m3 | D7@7
the greatest subtraction length at the front | lenient | C0 84 78 00 00 00 80 | m3 | D7@7
an absent text, an empty one, and one that begins with a zero | lenient | C0 93 80 80 00 80 80 00 C1 \
    | m18 /m m18 a25='' /m m18 | R9@9
the longest text | lenient text=16 | C0 93 41*15 C1 | m18 a25='AAAAAAAAAAAAAAAA' /m | between
a text longer than the limit | lenient text=16 | C0 93 41*17 | m18 | L1@19
";

const BYTE_VECTORS: &str = "\
a text of two bytes | lenient text=16 | C0 88 82 C3 A9 | m7 t9='é' /m | between
the longest text | lenient text=16 | C0 88 90 41*16 | m7 t9='AAAAAAAAAAAAAAAA' /m | between
no UTF-8 | lenient text=16 | C0 88 82 C3 28 | m7 | R2@5
a size past the limit | lenient text=16 | C0 88 91 | m7 | L1@3
a size of 4,294,967,295 | lenient | C0 88 0F 7F 7F 7F FF | m7 | L1@7
a size past its type | lenient | C0 88 10 00 00 00 80 | m7 | D2@7
a delta whose part is no UTF-8 by itself | lenient | C0 91 80 82 C3 A9 80 81 81 A8 | m16 t22='é' /m m16 t22='è' /m \
    | between
a delta that leaves no UTF-8 | lenient | C0 91 80 82 C3 A9 80 81 80 | m16 t22='é' /m m16 | R2@9
";

const GROUPS_AND_SEQUENCES: &str = "\
a field, a group and two elements | lenient | E0 8F 85 82 01 FF 83 C0 41 C2 00 E4 80 FE \
    | m14 u15=5 g16 b17=01FF /g s18*2 e a19='AB' i20=100 /e e a19='AB' i20=98 /e /s /m | between
the same in strict mode | strict | E0 8F 85 82 01 FF 83 C0 41 C2 00 E4 80 FE \
    | m14 u15=5 g16 b17=01FF /g s18*2 e a19='AB' i20=100 /e e a19='AB' i20=98 /e /s /m | between
neither group nor sequence | lenient | C0 8F 85 80 | m14 u15=5 /m | between
no element | lenient | C0 8F 85 81 | m14 u15=5 s18*0 /s /m | between
an element count past the limit | lenient | C0 82 0F 7F 7F 7F FF | m1 | L2@7
elements that take no byte | lenient | C0 82 82 | m1 s1*2 e u2=7 /e e u2=7 /e /s /m | between
";

#[test]
fn rows_of_worked(rt: HostRuntime) -> Result<(), Fail> {
    expect_rows(
        &rt,
        rt.alloc(),
        VECTORS,
        &[
            MESSAGES,
            INTEGERS,
            PRESENCE_MAPS,
            NUMBERS_WITH_OPERATORS,
            DECIMALS,
            ASCII_TEXTS,
            BYTE_VECTORS,
            GROUPS_AND_SEQUENCES,
        ],
    )
}

/// The number of events that the message has to have emitted after each of its bytes.
const COUNTS: &[usize] = &[0, 1, 3, 3, 3, 5, 7, 7, 7, 8, 8, 11, 12, 16];

/// Returns whether the byte brings the number of events emitted to this count.
fn is_in_time(decoder: &mut Decoder<'_>, script: &mut Script<'_>, byte: u8, count: usize) -> bool {
    push(decoder, byte, script).is_ok() && script.taken == count
}

/// Returns whether each byte of the message emits the events that it decides, and no other.
fn comes_in_time(decoder: &mut Decoder<'_>, script: &mut Script<'_>) -> bool {
    for (byte, count) in LONG.iter().zip(COUNTS) {
        if !is_in_time(decoder, script, *byte, *count) {
            return false;
        }
    }
    script.is_played() && decoder.between()
}

/// Checks that a message that is truncated after each of its bytes has emitted the events that those bytes decide.
pub fn expect_in_time(rt: &impl Abort, decoder: &mut Decoder<'_>) {
    let mut script = Script::of(LONG_EVENTS);
    let is_in_time = comes_in_time(decoder, &mut script);
    expect(rt, is_in_time, "in time", 0);
}

#[test]
fn events_come_as_soon_as_they_are_decided(rt: HostRuntime) -> Result<(), Fail> {
    expect_case(&rt, rt.alloc(), VECTORS, LENIENT, Case::InTime)
}

/// Fields whose values need not be sent.
const INITIAL: &str = r#"
[[template]]
name = "numbers"
id = 1
fields = [{kind="uInt32", name="c", optional=true, op="constant", value="7"}, {kind="int32", name="d", op="default", value="-3"}, {kind="uInt32", name="e", optional=true, op="default"}]
[[template]]
name = "texts"
id = 2
fields = [{kind="ascii", name="f", op="default", value="AB"}, {kind="bytes", name="g", op="constant", value="01FF"}]
"#;

const INITIAL_VALUES: &str = "\
a constant and defaults, and then values in their place | strict | E0 81 98 82 80 | m0 u0=7 i1=-3 /m m0 i1=2 /m \
    | between
texts that are not sent | strict | C0 82 | m1 a3='AB' b4=01FF /m | between
";

#[test]
fn initial_values(rt: HostRuntime) -> Result<(), Fail> {
    expect_rows(&rt, rt.alloc(), INITIAL, &[INITIAL_VALUES])
}
