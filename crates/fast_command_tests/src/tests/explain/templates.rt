//! Tests of template files that are refused, and of the position. `tools/runs/explained` has a row for each case.

use super::super::expect;
use fast_explain::{Note, explain_templates};
use fast_notation::{CheckedSet, StaticCode, StaticFault};
use std::alloc::Global;

/// Template files, and the explanation of each.
#[rattlefmt::skip]
const ROWS: &[(&str, &str)] = &[
    ("[[template]]\nname = \"T\"\nname = 1\n", "  the text is not TOML, or not of the form of a template set
  line 3, column 1
  duplicate key
"),
    ("[[templates]]\n", "  the text is not TOML, or not of the form of a template set
  key \"templates\"
  no such key: expected one of template
"),
    ("[[template]]\nname = \"T\"\nfields = [{ kind = \"uInt32\", name = \"size\", op = \"copyy\" }]\n", "  the text is not TOML, or not of the form of a template set
  template \"T\", field 0 \"size\", key \"op\"
  \"copyy\": expected one of none, constant, default, copy, increment, delta, tail
"),
    ("[[template]]\nname = \"T\"\nfields = [{ kind = \"uInt32\", name = \"size\", op = \"tail\" }]\n", "  the operator does not suit the type
  template \"T\", field 0 \"size\", key \"op\"
  \"tail\": expected one of none, constant, default, copy, increment, delta
"),
    ("[[template]]\nname = \"T\"\nfields = [{ kind = \"ref\", name = \"U\" }]\n", "  a reference names no template
  template \"T\", field 0 \"U\", key \"name\"
  \"U\": expected the name of a template of this text
"),
    ("[[template]]\nname = \"T\"\n[[template]]\nname = \"T\"\n", "  an earlier template has the name
  template \"T\", key \"name\"
  \"T\": template 0 \"T\" has it
"),
    ("[[template]]\nname = \"T\"\nid = 1\n[[template]]\nname = \"U\"\nid = 1\n", "  an earlier template has the identifier
  template \"U\", key \"id\"
  1: template 0 \"T\" has it
"),
    ("[[template]]\nname = \"T\"\nfields = [{ kind = \"ref\", name = \"T\" }]\n", "  the template refers to itself, by way of others or not
  template \"T\"
  \"T\", \"T\": each refers to the next
"),
];

/// Returns the explanation of bytes that are refused with this fault. It has no contract, so that a call is cheap to prove.
fn explained(alloc: Global, text: &[u8], fault: StaticFault) -> Note {
    explain_templates(alloc, text, fault)
}

/// Returns the explanation of a template file that is refused.
fn told(alloc: Global, text: &str) -> Option<Note> {
    match CheckedSet::read(alloc, text) {
        Ok(_) => None,
        Err(fault) => Some(explained(alloc, text.as_bytes(), fault)),
    }
}

#[test]
fn refused_texts_are_explained(rt: HostRuntime) {
    for (text, lines) in ROWS {
        let note = told(rt.alloc(), text).expect(&rt, "a text is refused");
        expect(&rt, note.as_str() == *lines, text, note.as_str().len());
    }
}

#[test]
fn bytes_that_are_no_text_are_explained(rt: HostRuntime) {
    let fault = StaticFault {
        code: StaticCode::S1,
        template: None,
    };
    let note = explained(rt.alloc(), b"# \xc3\xa9\n# \xff\n", fault);
    let wanted = "  the text is not TOML, or not of the form of a template set
  line 2, column 3
  a byte that is not UTF-8
";
    expect(&rt, note.as_str() == wanted, note.as_str(), wanted.len());
}
