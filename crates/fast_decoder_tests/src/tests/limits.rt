//! The limits of a decoder, and streams that come near them.

use super::{LENIENT, decoder_of, expect, expect_rows, put, set_of};
use fast_decoder::MakeError;
use fast_machine::layout::has_long_initial;
use fast_template::VECTORS;
use fast_value::Limits;
use itoa::Buffer;
use std::alloc::{AllocError, Global};
use std::process::Abort;
use std::test::Fail;

/// One sequence of elements that have no bytes.
pub const CONSTANTS: &str = r#"
[[template]]
name = "T"
id = 2
fields = [{kind="sequence", name="s", fields=[{kind="uInt32", name="c", op="constant", value="7"}]}]
"#;

/// A sequence of such sequences.
const NESTED: &str = r#"
[[template]]
name = "N"
id = 1
fields = [{kind="sequence", name="a", fields=[{kind="sequence", name="b", fields=[{kind="uInt32", name="c", op="constant", value="7"}]}]}]
"#;

/// Returns limits with this length of strings.
fn texts_of(max_text: usize) -> Limits {
    Limits {
        max_text,
        ..LENIENT
    }
}

/// Returns the reason why no decoder of the set of this file is made, if none is.
fn make_error(alloc: Global, text: &str, limits: Limits) -> Result<Option<MakeError>, Fail> {
    let set = set_of(alloc, text)?;
    Ok(decoder_of(alloc, &set, limits).err())
}

/// Lengths of strings, and the reasons why no decoder has them as its limit.
type Bounds = &'static [(usize, Option<MakeError>)];

/// Checks that a decoder of the set of this file is made for each length of strings, or fails for this reason.
fn expect_made(rt: &impl Abort, alloc: Global, text: &str, bounds: Bounds) -> Result<(), Fail> {
    for (max_text, error) in bounds {
        let found = make_error(alloc, text, texts_of(*max_text))?;
        expect(rt, found == *error, text, *max_text);
    }
    Ok(())
}

const BOUNDS: Bounds = &[
    (0, Some(MakeError::BadLimits)),
    (15, Some(MakeError::BadLimits)),
    (16, None),
    (1_048_576, None),
    (1_048_577, Some(MakeError::BadLimits)),
];

#[test]
fn the_length_of_texts_has_bounds(rt: HostRuntime) -> Result<(), Fail> {
    expect_made(&rt, rt.alloc(), CONSTANTS, BOUNDS)
}

/// Initial values of 17 bytes, one of them in a template without identifier.
const LONG_INITIALS: &[&str] = &[
    "[[template]]\nname = 'T'\nid = 1\nfields = [{kind='ascii', name='f', op='default', value='12345678901234567'}]",
    "[[template]]\nname = 'T'\nfields = [{kind='ascii', name='f', op='constant', value='12345678901234567'}]",
    "[[template]]\nname = 'T'\nid = 1\nfields = [{kind='unicode', name='f', op='tail', value='123456789012345é'}]",
    "[[template]]\nname = 'T'\nid = 1\nfields = [{kind='group', name='g', fields=[\
{kind='bytes', name='f', op='copy', value='0102030405060708090A0B0C0D0E0F1011'}]}]",
];

const BOUNDS_OF_LONG_INITIALS: Bounds = &[
    (15, Some(MakeError::BadLimits)),
    (16, Some(MakeError::InitialTooLong)),
    (17, None),
    (1_048_577, Some(MakeError::BadLimits)),
];

#[test]
fn initial_texts_are_within_the_limit(rt: HostRuntime) -> Result<(), Fail> {
    for text in LONG_INITIALS {
        expect_made(&rt, rt.alloc(), text, BOUNDS_OF_LONG_INITIALS)?;
    }
    Ok(())
}

/// A string of four characters as initial value.
const FOUR: &str =
    "[[template]]\nname = 'T'\nfields = [{kind='ascii', name='f', op='default', value='ABCD'}]";

/// A number as initial value.
const FIVE_AS_VALUE: &str =
    "[[template]]\nname = 'T'\nfields = [{kind='uInt32', name='f', op='default', value='5'}]";

/// Returns whether the set of this file has an initial value that is longer. Without a contract, so that a call is cheap to prove.
fn is_long(alloc: Global, text: &str, max_text: usize) -> Result<bool, Fail> {
    let set = set_of(alloc, text)?;
    Ok(has_long_initial(&set, max_text))
}

const GREATEST: &[(&str, usize, bool)] = &[
    (FOUR, 3, true),
    (FOUR, 4, false),
    (FIVE_AS_VALUE, 0, false),
];

#[test]
fn an_initial_value_may_have_the_greatest_length(rt: HostRuntime) -> Result<(), Fail> {
    for (text, max_text, due) in GREATEST {
        let is_long = is_long(rt.alloc(), text, *max_text)?;
        expect(&rt, is_long == *due, text, *max_text);
    }
    Ok(())
}

#[test]
fn every_number_of_elements_may_be_allowed(rt: HostRuntime) -> Result<(), Fail> {
    let limits = Limits {
        max_elements: u32::MAX,
        max_total: u32::MAX,
        ..LENIENT
    };
    let error = make_error(rt.alloc(), NESTED, limits)?;
    expect(&rt, error.is_none(), "as many as there may be", 0);
    Ok(())
}

/// A message of a thousand elements of `CONSTANTS`.
pub const THOUSAND: &[u8] = &[0xC0, 0x82, 0x07, 0xE8];

/// Returns the events of `THOUSAND`.
pub fn thousand_events(alloc: Global) -> Result<String, AllocError> {
    let mut events = String::new(alloc);
    put(&mut events, &["m0 s0*1000"])?;
    for _ in 0..1000 {
        put(&mut events, &[" e u1=7 /e"])?;
    }
    put(&mut events, &[" /s /m"])?;
    Ok(events)
}

/// Returns the row of two such messages.
fn thousand_line(alloc: Global) -> Result<String, AllocError> {
    let events = thousand_events(alloc)?;
    let events = events.as_str();
    let bytes = "a thousand elements, twice | strict | C0 82 07 E8 C0 82 07 E8 | ";
    let mut line = String::new(alloc);
    put(&mut line, &[bytes, events, " ", events, " | between"])?;
    Ok(line)
}

#[test]
fn a_thousand_elements_of_four_bytes(rt: HostRuntime) -> Result<(), Fail> {
    let line = thousand_line(rt.alloc())?;
    expect_rows(&rt, rt.alloc(), CONSTANTS, &[&line])
}

const ELEMENTS_WITHIN_ONE_LIMIT: &str = "\
one element more than a message may have | lenient total=999 | C0 82 07 E8 | m0 | L5@4
one element more than a sequence may have | lenient elements=999 total=999 | C0 82 07 E8 | m0 | L2@4
no element at all | lenient elements=0 total=0 | C0 82 80 | m0 s0*0 /s /m | between
";

#[test]
fn elements_within_one_limit(rt: HostRuntime) -> Result<(), Fail> {
    expect_rows(&rt, rt.alloc(), CONSTANTS, &[ELEMENTS_WITHIN_ONE_LIMIT])
}

const ELEMENTS_COUNT_TOGETHER: &str = "\
two elements of one element each | lenient total=5 | C0 81 82 81 81 \
    | m0 s0*2 e s1*1 e u2=7 /e /s /e e s1*1 e u2=7 /e /s /e /s /m | between
two elements of two elements each | lenient total=5 | C0 81 82 82 82 | m0 s0*2 e s1*2 e u2=7 /e e u2=7 /e /s /e e \
    | L5@5
";

#[test]
fn elements_of_a_message_count_together(rt: HostRuntime) -> Result<(), Fail> {
    expect_rows(&rt, rt.alloc(), NESTED, &[ELEMENTS_COUNT_TOGETHER])
}

const THE_LONGEST_MAPS: &str = "\
145 bytes of a map | lenient | 00*145 | | inside
146 bytes without a stop bit | lenient | 00*146 | | L3@146
146 bytes of which the last stops | lenient | 00*145 80 | | D5@146
146 bytes of an element's map | lenient | C0 8F 85 82 00*146 | m14 u15=5 s18*1 e | L3@150
";

#[test]
fn the_longest_maps(rt: HostRuntime) -> Result<(), Fail> {
    expect_rows(&rt, rt.alloc(), VECTORS, &[THE_LONGEST_MAPS])
}

/// Adds a number between two strings.
fn put_number(text: &mut String, before: &str, number: u32, after: &str) -> Result<(), AllocError> {
    let mut buffer = Buffer::new();
    put_between(text, before, buffer.format(number), after)
}

fn put_between(text: &mut String, front: &str, word: &str, after: &str) -> Result<(), AllocError> {
    put(text, &[front, word, after])
}

const FIELD: &str = "{kind='uInt32', optional=true, op='copy', name='f";

/// Returns a template of 300 optional copies.
pub fn wide_text(alloc: Global) -> Result<String, AllocError> {
    let mut text = String::new(alloc);
    put(
        &mut text,
        &["[[template]]\nname = 'Wide'\nid = 1\nfields = ["],
    )?;
    for field in 0..300 {
        put_number(&mut text, FIELD, field, "'},")?;
    }
    put(&mut text, &["]"])?;
    Ok(text)
}

/// Returns a template of 60 optional copies, a sequence of three, and two more.
pub fn around_text(alloc: Global) -> Result<String, AllocError> {
    let mut text = String::new(alloc);
    put(
        &mut text,
        &["[[template]]\nname = 'Around'\nid = 1\nfields = ["],
    )?;
    for field in 0..60 {
        put_number(&mut text, FIELD, field, "'},")?;
    }
    put(&mut text, &["{kind='sequence', name='s', fields=["])?;
    for field in 60..63 {
        put_number(&mut text, FIELD, field, "'},")?;
    }
    put(&mut text, &["]},"])?;
    for field in 63..65 {
        put_number(&mut text, FIELD, field, "'},")?;
    }
    put(&mut text, &["]"])?;
    Ok(text)
}

/// A message without fields, and one of the last field alone, whose map has the identifier's bit, those of f0 to f298, and that of f299 in
/// the last bit of 43 bytes.
const A_WIDE_SEGMENT: &str = "\
no field | strict | C0 81 | m0 /m | between
the last field alone | strict | 40 00*41 81 81 86 | m0 u299=5 /m | between
";

#[test]
fn a_wide_segment(rt: HostRuntime) -> Result<(), Fail> {
    let text = wide_text(rt.alloc())?;
    expect_rows(&rt, rt.alloc(), text.as_str(), &[A_WIDE_SEGMENT])
}

const INNERMOST: &str =
    "[[template]]\nname = 'G0'\nfields = [{kind='uInt32', name='x', op='copy'}]\n";

const AROUND: (&str, &str) = (
    "fields = [{kind='group', name='g', fields=[{kind='ref', name='G",
    "'}]}, {kind='uInt32', name='y', op='copy'}]\n",
);

/// Adds the template with a group of the one before.
fn put_group(text: &mut String, before: u32) -> Result<(), AllocError> {
    let after = if before == 63 { "'\nid = 1\n" } else { "'\n" };
    put_number(
        text,
        "[[template]]\nname = 'G",
        before.saturating_add(1),
        after,
    )?;
    put_number(text, AROUND.0, before, AROUND.1)
}

/// Returns groups within one another, 64 of them: each has a group and a field y but the innermost, which has a field x.
fn deep_text(alloc: Global) -> Result<String, AllocError> {
    let mut text = String::new(alloc);
    put(&mut text, &[INNERMOST])?;
    for before in 0..64 {
        put_group(&mut text, before)?;
    }
    Ok(text)
}

const DEEP: &[&str] = &[
    "groups | strict | E0 81 C0*64 85 81 82 83 84 85 86 87 88 89 8A 8B 8C 8D 8E 8F ",
    "90 91 92 93 94 95 96 97 98 99 9A 9B 9C 9D 9E 9F A0 A1 A2 A3 A4 A5 A6 A7 A8 A9 AA AB AC AD AE AF ",
    "B0 B1 B2 B3 B4 B5 B6 B7 B8 B9 BA BB BC BD BE BF C0 | m64",
];

/// Returns a message of the groups within one another: maps of one bit each, x, and the fields y from the innermost on, numbered from 1.
/// The template of `k` groups has `2 * k + 1` nodes, so those before the last have 4096.
fn deep_line(alloc: Global) -> Result<String, AllocError> {
    let mut line = String::new(alloc);
    put(&mut line, DEEP)?;
    for node in 4096..4160 {
        put_number(&mut line, " g", node, "")?;
    }
    put(&mut line, &[" u4160=5"])?;
    for y in 1..65 {
        put_number(&mut line, " /g u", 4160 + y, "=")?;
        put_number(&mut line, "", y, "")?;
    }
    put(&mut line, &[" /m | between"])?;
    Ok(line)
}

/// The maps of outer groups are used again after the inner ones.
#[test]
fn the_deepest_groups(rt: HostRuntime) -> Result<(), Fail> {
    let alloc = rt.alloc();
    let text = deep_text(alloc)?;
    let line = deep_line(alloc)?;
    expect_rows(&rt, alloc, &text, &[&line])
}
