//! Tests of the explanations of streams.

use super::super::{expect, set_of};
use fast_explain::{Kept, Note, explain_stream};
use fast_stream::FaultCode;
use fast_text::{FromBytes, Source};
use fast_value::{Code, Limits};
use std::alloc::Global;
use std::process::Abort;

/// Templates with a field in each type of position. The nodes of T are 0 to 9, those of U 10 to 20.
const SET: &str = r#"
[[template]]
name = "T"
id = 1
[[template.fields]]
kind = "uInt32"
name = "a"
[[template.fields]]
kind = "uInt32"
name = "b"
optional = true
[[template.fields]]
kind = "uInt32"
name = "c"
op = "copy"
[[template.fields]]
kind = "group"
name = "g"
optional = true
fields = [{kind="uInt32", name="d", op="increment"}, {kind="ascii", name="e"}]
[[template.fields]]
kind = "sequence"
name = "s"
[[template.fields.fields]]
kind = "group"
name = "h"
fields = [{kind="decimal", name="p", exponent={op="copy"}, mantissa={op="delta"}}]
[[template.fields.fields]]
kind = "unicode"
name = "u"
optional = true
op = "tail"
[[template]]
name = "U"
id = 2
fields = [{kind="ref", name="T"}, {kind="bytes", name="v"}]
"#;

/// Returns limits that short streams can exceed.
fn limits(strict: bool) -> Limits {
    Limits {
        strict,
        max_text: 16,
        max_elements: 2,
        max_total: 2,
    }
}

/// Returns the explanation after a number of bytes of an input that was read in pieces of five bytes.
fn told(
    rt: &impl Abort,
    alloc: Global,
    input: &[u8],
    is_hex: bool,
    code: Option<FaultCode>,
    place: u64,
) -> Note {
    let strict = matches!(
        code,
        Some(FaultCode::Stream(Code::R6 | Code::R7 | Code::R8))
    );
    let templates = set_of(rt, alloc, SET);
    let source = FromBytes::new(input);
    let mut reader = Kept::new(alloc, source, &templates, limits(strict), is_hex);
    let mut piece = [0; 5];
    for _read in 0..input.len() {
        let _ = reader.read(&mut piece);
    }
    explain_stream(code, place, &reader)
}

/// Returns the second line of an explanation.
fn line_of(note: &Note) -> &str {
    note.as_str().lines().nth(1).unwrap_or("")
}

/// The digits of a stream, the code of its fault unless it is truncated, the number of bytes that decide it, and the field in the
/// explanation.
type Row = (&'static str, Option<Code>, u64, &'static str);

#[rattlefmt::skip]
const ROWS: &[Row] = &[
    ("", None, 0, "the presence map or the template identifier of a message"),
    ("40", None, 1, "the presence map or the template identifier of a message"),
    ("C0", None, 1, "the presence map or the template identifier of a message"),
    ("4080", Some(Code::R7), 2, "the presence map of a message"),
    ("408181", Some(Code::R8), 3, "the presence map of a message"),
    ("C0FF", Some(Code::D9), 2, "the template identifier of a message"),
    ("C00081", Some(Code::R6), 3, "the template identifier of a message"),
    ("C01000000080", Some(Code::D2), 6, "the template identifier of a message"),
    ("E081", None, 2, "template \"T\", field 0 \"a\""),
    ("E0811000000080", Some(Code::D2), 7, "template \"T\", field 0 \"a\""),
    ("E08181801000000080", Some(Code::D2), 9, "template \"T\", field 2 \"c\""),
    ("C0818182", Some(Code::D5), 4, "template \"T\", field 2 \"c\""),
    ("F081818083", None, 5, "template \"T\", group 3 \"g\", its presence map"),
    ("F0818180834080", Some(Code::R7), 7, "template \"T\", group 3 \"g\", its presence map"),
    ("F081818083C0810041", Some(Code::R9), 8, "template \"T\", group 3 \"g\", field 5 \"e\""),
    ("E08181808383", Some(Code::L2), 6, "template \"T\", sequence 6 \"s\""),
    ("E081818083808083C0FF", Some(Code::L2), 10, "template \"T\", sequence 6 \"s\""),
    ("E08281808383", Some(Code::L2), 6, "template \"U\", sequence 16 \"s\""),
    ("E0818180838280C0808180808140", None, 14, "the presence map or the template identifier of a message"),
    ("E08281808381", None, 6, "template \"U\", sequence 16 \"s\", its presence map"),
    ("E081818083814080", Some(Code::R7), 8, "template \"T\", sequence 6 \"s\", its presence map"),
    ("E08181808381C0", None, 7, "template \"T\", sequence 6 \"s\", group 7 \"h\", its presence map"),
    ("E08181808381C04081", Some(Code::R8), 9, "template \"T\", sequence 6 \"s\", group 7 \"h\", its presence map"),
    ("E08181808381C0C000C0", Some(Code::R1), 10, "template \"T\", sequence 6 \"s\", group 7 \"h\", field 8 \"p\""),
    ("E08181808381C0C080", None, 9, "template \"T\", sequence 6 \"s\", group 7 \"h\", field 8 \"p\""),
    ("E08181808381C0C0808182FF", Some(Code::R2), 12, "template \"T\", sequence 6 \"s\", field 9 \"u\""),
    ("E0828180838091", Some(Code::L1), 7, "template \"U\", field 20 \"v\""),
    ("E08181808380C0FF", Some(Code::D9), 8, "the template identifier of a message"),
];

#[test]
fn fields_at_fault_are_told(rt: HostRuntime) {
    for (digits, code, place, wanted) in ROWS {
        let code = code.map(FaultCode::Stream);
        let note = told(&rt, rt.alloc(), digits.as_bytes(), true, code, *place);
        let is_told = line_of(&note).strip_prefix("  ") == Some(*wanted);
        expect(&rt, is_told, note.as_str(), *place as usize);
    }
}

#[test]
fn faults_are_told_with_the_bytes_around(rt: HostRuntime) {
    let input = b"\xE0\x81\x10\x00\x00\x00\x80\x01\x02\x03\x04\x05\x06\x07\x08\x09\x0A";
    let code = Some(FaultCode::Stream(Code::D2));
    let note = told(&rt, rt.alloc(), input, false, code, 7);
    let wanted = "  an integer lies outside its type, or has ten bytes and no stop bit
  template \"T\", field 0 \"a\"
  offset 0x6: E0 81 10 00 00 00 [80] 01 02 03 04 05 06 07 08
  hint: many feeds put a preamble or a packet header before the messages;
  tools/packets/run --skip N removes it from the packets of a capture
";
    expect(&rt, note.as_str() == wanted, note.as_str(), wanted.len());
}

#[test]
fn digits_are_told_as_bytes(rt: HostRuntime) {
    let note = told(&rt, rt.alloc(), b"e 0\n81 C2 0", true, None, 3);
    let wanted = "  the stream ends inside a message
  template \"T\", field 1 \"b\"
  offset 0x2: E0 81 [C2] 0
";
    expect(&rt, note.as_str() == wanted, note.as_str(), wanted.len());
}

#[test]
fn long_inputs_keep_their_offsets(rt: HostRuntime) {
    let mut input = [0x80; 20001];
    input[20000] = 0xAB;
    let note = told(&rt, rt.alloc(), &input, false, None, 20001);
    let offset = "  offset 0x4e20: 80 80 80 80 80 80 80 80 [AB]\n";
    expect(
        &rt,
        note.as_str().ends_with(offset),
        note.as_str(),
        offset.len(),
    );
    let digits = [b'7'; 20001];
    let note = told(&rt, rt.alloc(), &digits, true, None, 10000);
    let offset = "  offset 0x270f: 77 77 77 77 77 77 77 77 [77] 7\n";
    expect(
        &rt,
        note.as_str().ends_with(offset),
        note.as_str(),
        offset.len(),
    );
}
