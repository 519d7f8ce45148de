//! The limits of an encoder, and messages that come near them.

use super::super::set_of;
use super::{LENIENT, encoder_of, expect, expect_rows};
use fast_decoder::MakeError;
use fast_encoder::{EncodeFault, Encoder};
use fast_template::VECTORS;
use fast_value::Limits;
use std::alloc::{AllocError, Global};
use std::process::Abort;
use std::test::Fail;

/// Returns the reason why no encoder of the set of this file is made, if none is.
fn make_error(alloc: Global, text: &str, max_text: usize) -> Result<Option<MakeError>, Fail> {
    let limits = Limits {
        max_text,
        ..LENIENT
    };
    let set = set_of(alloc, text)?;
    Ok(encoder_of(alloc, &set, limits).err())
}

/// Initial values: of four characters, of 17 characters in a template without an identifier, of 17 bytes, and of 17
/// bytes in a group.
const INITIAL: &[&str] = &[
    "[[template]]\nname = 'T'\nfields = [{kind='ascii', name='f', op='default', value='ABCD'}]",
    "[[template]]\nname = 'T'\nfields = [{kind='ascii', name='f', op='constant', value='12345678901234567'}]",
    "[[template]]\nname = 'T'\nfields = [{kind='unicode', name='f', op='tail', value='123456789012345é'}]",
    "[[template]]\nname = 'T'\nfields = [{kind='group', name='g', fields=[{kind='bytes', name='f', op='copy', value='0102030405060708090A0B0C0D0E0F1011'}]}]",
];

/// A limit, and the reasons why no encoder has it over the first of these sets and over the others.
type Made = (usize, Option<MakeError>, Option<MakeError>);

#[rattlefmt::skip]
const MADE: &[Made] = &[
    (0, Some(MakeError::BadLimits), Some(MakeError::BadLimits)),
    (15, Some(MakeError::BadLimits), Some(MakeError::BadLimits)),
    (16, None, Some(MakeError::InitialTooLong)),
    (17, None, None),
    (1_048_576, None, None),
    (1_048_577, Some(MakeError::BadLimits), Some(MakeError::BadLimits)),
];

/// Checks that encoders of the sets are made, or not for this reason.
fn expect_made(rt: &impl Abort, alloc: Global, row: &Made) -> Result<(), Fail> {
    let (max_text, short, long) = row;
    for (i, text) in INITIAL.iter().enumerate() {
        let error = make_error(alloc, text, *max_text)?;
        let due = if i == 0 { *short } else { *long };
        expect(rt, error == due, "an encoder of", text);
    }
    Ok(())
}

#[test]
fn the_length_of_texts_has_bounds(rt: HostRuntime) -> Result<(), Fail> {
    for row in MADE {
        expect_made(&rt, rt.alloc(), row)?;
    }
    Ok(())
}

/// An encoder as `Debug` writes it.
const ENCODER: &str =
    "Encoder { limits: Limits { strict: false, max_text: 1024, max_elements: 1000, max_total: 1000 }, .. }";

/// Returns the encoder as `Debug` writes it.
fn debug_of(alloc: Global, encoder: &Encoder<'_>) -> Result<String, AllocError> {
    format!(in alloc; "{encoder:?}")
}

#[test]
fn debug_writes_the_limits(rt: HostRuntime) -> Result<(), Fail> {
    let set = set_of(rt.alloc(), VECTORS)?;
    let encoder = encoder_of(rt.alloc(), &set, LENIENT)?;
    let text = debug_of(rt.alloc(), &encoder)?;
    expect(&rt, text.as_str() == ENCODER, "an encoder", text.as_str());
    Ok(())
}

const TEXTS: &[&str] = &[
    "ASCII | lenient text=16
     m18 a25='ABCDEFGHIJKLMNOPQ' /m > E4
     m18 a25='ABCDEFGHIJKLMNOP' /m > C0 93 41 42 43 44 45 46 47 48 49 4A 4B 4C 4D 4E 4F D0",
    "Unicode, of two bytes a character | lenient text=16
     m7 t9='ABCDEFGHIJKLMNOPQ' /m > E4
     m7 t9='ééééééééé' /m > E4
     m7 t9='ABCDEFGHIJKLMNOP' /m > C0 88 90 41 42 43 44 45 46 47 48 49 4A 4B 4C 4D 4E 4F 50",
    "bytes in a group, and ASCII in an element | lenient text=16
     m14 u15=5 g16 b17=4142434445464748494A4B4C4D4E4F5051 /g - /m > E4
     m14 u15=5 - s18*1 e a19='ABCDEFGHIJKLMNOPQ' i20=1 /e /s /m > E4
     m14 u15=5 g16 b17=01 /g - /m > E0 8F 85 81 01 80",
    "a text that does not suit and is too long | lenient text=16
     m18 a25=x8080808080808080808080808080808080 /m > E2
     m18 a25='\0\0\0\0\0\0\0\0\0\0\0\0\0\0\0\0\0' /m > E4
     m18 - /m > C0 93 80",
    "a tail that would be short, of a text that is too long | lenient text=16
     m2 a3='A' /m > E0 83 C1
     m2 a3='ABCDEFGHIJKLMNOPQ' /m > E4
     m2 a3='A' /m > 80",
];

#[test]
fn texts(rt: HostRuntime) -> Result<(), Fail> {
    expect_rows(&rt, rt.alloc(), VECTORS, TEXTS)
}

/// A sequence of sequences; and one of a length that is not sent, followed by another in a group.
const NESTED: &str = r#"
[[template]]
name = "N"
id = 1
fields = [{kind="sequence", name="a", fields=[{kind="sequence", name="b", fields=[{kind="uInt32", name="c", op="constant", value="7"}]}]}]
[[template]]
name = "M"
id = 2
fields = [{kind="sequence", name="d", length={op="constant", value="2"}, fields=[{kind="uInt32", name="e"}]}, {kind="group", name="f", fields=[{kind="sequence", name="g", fields=[{kind="uInt32", name="h"}]}]}]
"#;

const ELEMENTS: &[&str] = &[
    "of all sequences | lenient elements=3 total=5
     m0 s0*2 e s1*2 2*u2=7 /s /e e s1*2 2*u2=7 /s /e /s /m > E4
     m0 s0*2 e s1*2 2*u2=7 /s /e e s1*1 1*u2=7 /s /e /s /m > C0 81 82 82 81",
    "of one sequence | lenient elements=3 total=5
     m0 s0*1 e s1*4 4*u2=7 /s /e /s /m > E4
     m0 s0*1 e s1*3 3*u2=7 /s /e /s /m > C0 81 81 83",
    "of a length that is not sent, and in a group | lenient elements=3 total=5
     m1 s3*2 2*u4=1 /s g5 s6*4 4*u7=1 /s /g /m > E4
     m1 s3*2 2*u4=1 /s g5 s6*3 3*u7=1 /s /g /m > C0 82 81 81 83 81 81 81",
    "of both together, neither of them too long | lenient elements=2 total=2
     m1 s3*2 2*u4=1 /s g5 s6*1 1*u7=1 /s /g /m > E4
     m1 s3*2 2*u4=1 /s g5 s6*0 /s /g /m > C0 82 81 81 80",
    "where there may be none | lenient elements=0 total=0
     m0 s0*1 e s1*0 /s /e /s /m > E4
     m0 s0*0 /s /m > C0 81 80",
    "where a sequence alone has a limit | lenient elements=2 total=4294967295
     m0 s0*1 e s1*3 3*u2=7 /s /e /s /m > E4
     m0 s0*1 e s1*2 2*u2=7 /s /e /s /m > C0 81 81 82",
];

#[test]
fn elements(rt: HostRuntime) -> Result<(), Fail> {
    expect_rows(&rt, rt.alloc(), NESTED, ELEMENTS)
}

#[rattlefmt::skip]
const FAULTS: &[(EncodeFault, u8, &str)] = &[
    (EncodeFault::E1, 1, "E1: no template has the number, or that template has no identifier"),
    (EncodeFault::R9, 5, "R9: an ASCII string that would be sent begins with a zero character"),
    (EncodeFault::Memory, 6, "Memory: there is no memory left"),
];

/// Returns a fault with its name and its description.
fn line_of(alloc: Global, fault: EncodeFault) -> Result<String, AllocError> {
    let name = fault.name();
    format!(in alloc; "{name}: {fault}")
}

#[test]
fn a_fault_has_a_number_a_name_and_a_sentence(rt: HostRuntime) -> Result<(), Fail> {
    for (fault, number, line) in FAULTS {
        let found = line_of(rt.alloc(), *fault)?;
        let is_right = found.as_str() == *line && fault.number() == *number;
        expect(&rt, is_right, "a fault", line);
    }
    Ok(())
}
