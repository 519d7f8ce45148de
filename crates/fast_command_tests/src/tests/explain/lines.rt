//! Tests of the explanations of lines, messages and hexadecimal digits.

use super::super::{expect, set_of};
use fast_explain::Note;
use fast_explain_lines::{
    Digits, Stored, explain_digits, explain_dump, explain_line, explain_message,
};
use fast_reading::LineFault;
use fast_spelling::EncodeFault;
use fast_text::{FromBytes, Source};
use fast_value::Limits;
use std::alloc::Global;
use std::process::Abort;

/// Templates with nodes 0 to 2, of which T has the first two.
const SET: &str = r#"
[[template]]
name = "T"
id = 1
fields = [{kind="uInt32", name="x"}, {kind="ascii", name="s", optional=true}]
[[template]]
name = "U"
id = 2
fields = [{kind="ascii", name="c", op="constant", value="B"}]
"#;

/// Lines, the number and the fault of the line in question, and the explanation after the sentence.
type Row = (&'static str, u64, LineFault, &'static str);

#[rattlefmt::skip]
const ROWS: &[Row] = &[
    ("message T\r\n", 1, LineFault::Form, "  line 1, column 10: a carriage return: expected lines that end with LF, not CR LF (dos2unix)"),
    ("message V\n", 1, LineFault::UnknownTemplate, "  line 1, column 9: \"V\": expected the name of a template: \"T\", \"U\""),
    ("message T\nfield 0 y u 5\n", 2, LineFault::OutOfPlace, "  line 2, column 9: \"y\": expected \"x\" (field 0 \"x\", uInt32)"),
    ("message T\nfield 0 x i 5\n", 2, LineFault::WrongValue, "  line 2, column 11: \"i\": expected the letter u (field 0 \"x\", uInt32)"),
    ("message T\nend message\n", 2, LineFault::PassedOver, "  line 2, column 1: \"end message\": expected field 0 \"x\" (uInt32) before it, since that is mandatory"),
    // No such line, and a walk that does not lead to it.
    ("message T\n", 9, LineFault::OutOfPlace, ""),
    ("end group\nend group\n", 2, LineFault::OutOfPlace, ""),
];

/// Explains the fault of a line.
fn of_line(rt: &impl Abort, alloc: Global, row: &Row) -> Note {
    let (text, line, kind, _) = row;
    let templates = set_of(rt, alloc, SET);
    explain_line(&templates, Some(text.as_bytes()), *line, *kind)
}

#[test]
fn lines_are_explained(rt: HostRuntime) {
    for row in ROWS {
        let note = of_line(&rt, rt.alloc(), row);
        let said = note.as_str().lines().nth(1).unwrap_or("");
        expect(&rt, said == row.3, note.as_str(), row.1 as usize);
    }
}

#[test]
fn messages_are_explained(rt: HostRuntime) {
    let templates = set_of(&rt, rt.alloc(), SET);
    let text =
        b"message T\nfield 0 x u 5\nend message\nmessage U\nfield 2 c a \"S\"\nend message\n";
    let limits = Limits::default();
    let alloc = rt.alloc();
    let note = explain_message(alloc, &templates, limits, Some(text), 1, EncodeFault::E3);
    let wanted = "  the previous values leave no way to send a value
  the message begins in line 4, template \"U\"
  line 5, column 13: '\"S\"': expected \"B\", a constant (field 2 \"c\", ascii)
";
    expect(&rt, note.as_str() == wanted, note.as_str(), 1);
}

/// Returns the explanation of digits that are refused at an offset.
fn of_digits(input: &[u8], place: u64) -> Note {
    let mut reader = Digits::new(FromBytes::new(input));
    let mut piece = [0; 64];
    for _read in 0..2 {
        let _ = reader.read(&mut piece);
    }
    let mut note = explain_digits(place, &reader);
    explain_dump(&reader, &mut note);
    note
}

#[test]
fn digits_are_explained(rt: HostRuntime) {
    let note = of_digits(b"c0 81\n39,45", 8);
    let wanted = "  line 2, column 3: \",\": expected digits, and at most blanks between them\n";
    expect(&rt, note.as_str() == wanted, note.as_str(), 1);
    let note = of_digits(b"c0 8", 4);
    let wanted =
        "  line 1, column 4: 1 digit between blanks: expected an even number, two for each byte\n";
    expect(&rt, note.as_str() == wanted, note.as_str(), 2);
}

#[test]
fn lines_are_stored(rt: HostRuntime) {
    let mut reader = Stored::new(rt.alloc(), FromBytes::new(b"message T\n"));
    let mut piece = [0; 4];
    for _read in 0..4 {
        let _ = reader.read(&mut piece);
    }
    let is_stored = reader.text() == Some(b"message T\n".as_slice());
    expect(&rt, is_stored, "the lines that were read", 1);
}
