//! Writes rows.

ghost use Rattle.std.specs.Prelude.{◌≡◌, ◌+◌, ◌<◌, ◌≤◌, ◌^◌, [], ◌∷◌, ◌++◌, OnOk, List, length};
ghost use Rattle.fast_tree.specs.meaning.Tree.{Tree};
ghost use Rattle.fast_template.specs.meaning.Flat.{tree_of};
ghost use Rattle.fast_stream.specs.meaning.Handed.{event_data};
ghost use Rattle.fast_lines.specs.meaning.Lines.{line_of};
ghost use Rattle.fast_lines.specs.meaning.Values.{HoldsBytes};
ghost use Rattle.fast_text.specs.meaning.Fronts.{set_of};
ghost use Rattle.fast_text.specs.meaning.LineWriter.{Writes};
ghost use Rattle.fast_rows.specs.meaning.Columns.{columns};
ghost use Rattle.fast_rows.specs.meaning.Rows.{Row, rows_text, bytes_in, lines_in};
ghost use Rattle.fast_rows.specs.meaning.Written.{IsWritten, AreWritten};

use crate::columns::{ROW, put_cells, put_columns};
use crate::notes::{Note, put_note};
use fast_stream::{Event, Sink};
use fast_template::Templates;
use fast_text::{Failed, Fronts, LineSink, LineWriter, Room, Target};

/// Returns the bytes of the first row, and those after it.
fn first_row(bytes: &[u8]) -> (&[u8], &[u8])
    ensures few { length result.0.now ≤ ROW }
    ensures all { result.0.now ++ result.1.now ≡ bytes.now }
    ensures some { 0 < length bytes.now → 0 < length result.0.now }
{
    bytes.split_at(bytes.len().min(ROW))
}

/// Writes rows of bytes without a text.
fn put_rows<T: Target>(line: &mut LineWriter<'_, T>, start: u64, bytes: &[u8])
    requires { start + length bytes.now < 2 ^ 64 }
    ensures { (t : Tree) → (rows : List Row) × (bytes_in rows ≡ bytes.now) × (lines_in rows ≡ [])
        × Writes T.written T.has_failed line.old (rows_text t start rows) line.new }
{
    let mut at = start;
    let mut rest = bytes;
    while !rest.is_empty() {
        let (row, others) = first_row(rest);
        put_cells(line, at, row);
        line.put(b"\n");
        at += row.len() as u64;
        rest = others;
    }
}

/// Writes the row of a note on bytes, and further rows for the bytes that it has no room for.
pub fn write_note<T: Target>(
    target: &mut T,
    templates: &Templates,
    at: u64,
    bytes: &[u8],
    note: Note,
) -> Result<(), Failed>
    requires { at + length bytes.now < 2 ^ 64 }
    ensures { AreWritten (tree_of templates.now) at bytes.now [] (T.written target.old) (T.written target.new)
        (T.has_failed target.old) (T.has_failed target.new) result }
{
    let (row, rest) = first_row(bytes);
    let mut room = Room::new();
    let mut line = LineWriter::new(target, &mut room);
    put_columns(&mut line, at, row);
    put_note(&mut line, templates, row, note);
    line.put(b"\n");
    put_rows(&mut line, at + row.len() as u64, rest);
    line.finish()
}

/// Writes the rows of a presence map, each with the bits of its bytes.
pub fn write_map<T: Target>(
    target: &mut T,
    templates: &Templates,
    start: u64,
    bytes: &[u8],
) -> Result<(), Failed>
    requires { start + length bytes.now < 2 ^ 64 }
    ensures { AreWritten (tree_of templates.now) start bytes.now [] (T.written target.old) (T.written target.new)
        (T.has_failed target.old) (T.has_failed target.new) result }
{
    let (row, rest) = first_row(bytes);
    write_note(target, templates, start, row, Note::Bits)?;
    if rest.is_empty() {
        return Ok(());
    }
    write_map(target, templates, start + row.len() as u64, rest)
}

/// Writes the columns of a row.
fn write_columns<T: Target>(target: &mut T, at: u64, bytes: &[u8]) -> Result<(), Failed>
    requires { length bytes.now ≤ ROW }
    ensures { IsWritten (T.written target.old) (T.written target.new) (T.has_failed target.old)
        (T.has_failed target.new) (columns at bytes.now) result }
{
    let mut room = Room::new();
    let mut line = LineWriter::new(target, &mut room);
    put_columns(&mut line, at, bytes);
    line.finish()
}

/// Writes the columns of the line that closes what is shown of a stream.
pub fn write_closing_columns<T: Target>(target: &mut T, at: u64) -> Result<(), Failed>
    ensures { IsWritten (T.written target.old) (T.written target.new) (T.has_failed target.old)
        (T.has_failed target.new) (columns at []) result }
{
    write_columns(target, at, &[])
}

/// Writes the line of an event.
fn write_line<T: Target>(
    target: &mut T,
    fronts: &Fronts<'_>,
    event: Event<'_>,
) -> Result<(), Failed>
    ensures written { IsWritten (T.written target.old) (T.written target.new) (T.has_failed target.old)
        (T.has_failed target.new)
        (line_of (tree_of (set_of fronts.now).now) (event_data event.entry) ++ 0x0A ∷ []) result }
    ensures holds { OnOk result (HoldsBytes (event_data event.entry)) }
{
    let mut sink = LineSink::with_fronts(fronts, target);
    match sink.take(event) {
        Ok(()) => Ok(()),
        Err(_) => Err(Failed),
    }
}

/// Writes rows of bytes without a text.
fn write_rows<T: Target>(target: &mut T, at: u64, bytes: &[u8]) -> Result<(), Failed>
    requires { at + length bytes.now < 2 ^ 64 }
    ensures { (t : Tree) → AreWritten t at bytes.now [] (T.written target.old) (T.written target.new)
        (T.has_failed target.old) (T.has_failed target.new) result }
{
    if bytes.is_empty() {
        return Ok(());
    }
    let mut room = Room::new();
    let mut line = LineWriter::new(target, &mut room);
    put_rows(&mut line, at, bytes);
    line.finish()
}

/// Writes the row of an event after the bytes that led to it, and further rows for the bytes that it has no room for.
pub fn write_event<T: Target>(
    target: &mut T,
    fronts: &Fronts<'_>,
    at: u64,
    bytes: &[u8],
    event: Event<'_>,
) -> Result<(), Failed>
    requires { at + length bytes.now < 2 ^ 64 }
    ensures written { AreWritten (tree_of (set_of fronts.now).now) at bytes.now
        (line_of (tree_of (set_of fronts.now).now) (event_data event.entry) ++ 0x0A ∷ [])
        (T.written target.old) (T.written target.new) (T.has_failed target.old) (T.has_failed target.new) result }
    ensures holds { OnOk result (HoldsBytes (event_data event.entry)) }
{
    let (row, rest) = first_row(bytes);
    write_columns(target, at, row)?;
    write_line(target, fronts, event)?;
    write_rows(target, at + row.len() as u64, rest)
}
