//! Explanations of a template file's fault.

ghost use Rattle.std.specs.Prelude.{◌≤◌, length};

use crate::documents::{tell_document, tell_place};
use crate::keys::value_at;
use crate::notes::{NOTE_ROOM, Note, put};
use crate::places::{Place, tell_code};
use fast_notation::{StaticCode, StaticFault};
use std::alloc::{AllocError, Global};
use std::fmt::Write;
use toml::{Table, Value};

/// The start of the parser's message for arrays and inline tables that nest too deep.
const TOO_DEEP: &str = "cannot recurse";

/// The cure for them.
const REFERENCES: &str =
    "arrays and tables nest to 80 levels; a field of kind = \"ref\" takes in a template without nesting";

/// The cure for a file in XML.
const CONVERTER: &str = "this is XML; tools/from_xml/run FILE >feed.toml converts XML templates";

/// The byte order mark of UTF-8.
const BYTE_ORDER_MARK: [u8; 3] = [0xEF, 0xBB, 0xBF];

/// Returns the templates of a document.
fn templates_of(document: &Table) -> &[Value] {
    let Some(value) = value_at(document, "template") else {
        return &[];
    };
    match value.as_array() {
        Some(items) => items.as_slice(),
        None => &[],
    }
}

/// Writes the position of a fault in the document of a file.
fn tell_fault(
    alloc: Global,
    document: &Table,
    fault: StaticFault,
    note: &mut Note,
) -> Result<(), AllocError> {
    let Some(number) = fault.template else {
        tell_document(note, document);
        return Ok(());
    };
    let number = number as usize;
    let templates = templates_of(document);
    match templates.get(number) {
        Some(template) => {
            let place = Place {
                templates,
                number,
                template,
            };
            tell_code(alloc, place, fault.code, note)
        }
        None => Ok(()),
    }
}

/// Writes the position of a fault in a file that is UTF-8.
fn tell_read(
    alloc: Global,
    text: &str,
    fault: StaticFault,
    note: &mut Note,
) -> Result<(), AllocError> {
    match toml::table_from_str(alloc, text) {
        Ok(document) => tell_fault(alloc, &document, fault, note),
        Err(error) => {
            if let Some(span) = error.span() {
                let bytes = text.as_bytes();
                tell_place(note, &bytes[..span.start.min(bytes.len())]);
                let _ = put(note, &["  ", error.message(), "\n"]);
                if error.message().starts_with(TOO_DEEP) {
                    let _ = put(note, &["  ", REFERENCES, "\n"]);
                }
            }
            Ok(())
        }
    }
}

/// Returns whether a file begins as XML does and TOML does not: with `<`, after blanks and a byte order mark, if there are any.
fn is_xml(bytes: &[u8]) -> bool {
    let text = if bytes.starts_with(&BYTE_ORDER_MARK) {
        &bytes[BYTE_ORDER_MARK.len()..]
    } else {
        bytes
    };
    matches!(text.trim_ascii_start().first(), Some(b'<'))
}

/// Writes the position of a fault in a file.
fn tell_text(
    alloc: Global,
    bytes: &[u8],
    fault: StaticFault,
    note: &mut Note,
) -> Result<(), AllocError> {
    if is_xml(bytes) {
        let _ = put(note, &["  ", CONVERTER, "\n"]);
        return Ok(());
    }
    match str::from_utf8(bytes) {
        Ok(text) => tell_read(alloc, text, fault, note),
        Err(error) => {
            let place = error.valid_up_to().min(bytes.len());
            tell_place(note, &bytes[..place]);
            let _ = put(note, &["  a byte that is not UTF-8\n"]);
            Ok(())
        }
    }
}

/// Explains the fault of a template file: the sentence of the code, its position, and what would be valid there. `bytes` must be the file
/// that was refused with this fault. If an allocation fails, the explanation ends early.
pub fn explain_templates(alloc: Global, bytes: &[u8], fault: StaticFault) -> Note
    ensures { length result.bytes ≤ NOTE_ROOM }
{
    let mut note = Note::new();
    let _ = writeln!(note, "  {}", fault.code);
    if fault.code != StaticCode::Memory {
        let _ = tell_text(alloc, bytes, fault, &mut note);
    }
    prove!(note.len() <= NOTE_ROOM);
    note
}
