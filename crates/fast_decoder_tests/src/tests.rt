//! Streams with their events and their fault, however they are split into pieces, with specialized opcodes and without.
//!
//! A table is a string, which costs the prover nothing, and each of its lines is a row:
//!
//!     what it shows | the limits | the bytes | the events | the end
//!
//! The limits are `lenient` or `strict`, followed by each limit that is not the usual one, as `text=16`, `elements=2` or `total=2`. A byte
//! is two digits, and `00*146` stands for 146 bytes. The events are as `Script` writes them. The end is `between` two messages, `inside` a
//! message, or a fault with its offset, as `D9@2`.

mod cuts;
mod encoder;
mod faults;
mod fields;
mod limits;
mod maps;
mod numbers;
mod pieces;
mod records;
mod rows;
mod script;
mod sinks;
mod texts;
mod units;
mod worked;

ghost use Rattle.std.specs.Prelude.{◌<◌};

use fast_decoder::{Decoder, Fault, MakeError};
use fast_template::{StaticFault, Templates};
use fast_value::Limits;
use rows::{Columns, Row, bytes_of, row_of};
use script::Script;
use std::alloc::{AllocError, Global};
use std::process::Abort;
use std::test::Fail;

/// Lenient, with the limits that the program has by default.
const LENIENT: Limits = Limits {
    strict: false,
    max_text: 1024,
    max_elements: 1000,
    max_total: 1000,
};

const STRICT: Limits = Limits {
    strict: true,
    ..LENIENT
};

/// The account of a decoder after it was fed.
#[derive(Clone, Copy, PartialEq)]
struct Account {
    answer: Result<(), Fault>,
    fault: Option<Fault>,
    between: bool,
    consumed: u64,
}

fn account_of(decoder: &Decoder<'_>, answer: Result<(), Fault>) -> Account {
    Account {
        answer,
        fault: decoder.fault(),
        between: decoder.between(),
        consumed: decoder.consumed(),
    }
}

/// Returns the account of a decoder that has stopped with this fault, after the bytes up to its offset.
fn stopped_at(fault: Fault) -> Account {
    Account {
        answer: Err(fault),
        fault: Some(fault),
        between: false,
        consumed: fault.place,
    }
}

/// Feeds a piece. Without a contract, so that a call is cheap to prove, as those of the next functions.
fn feed(decoder: &mut Decoder<'_>, piece: &[u8], sink: &mut Script<'_>) -> Result<(), Fault> {
    decoder.feed(piece, sink)
}

fn push(decoder: &mut Decoder<'_>, byte: u8, sink: &mut Script<'_>) -> Result<(), Fault> {
    decoder.push(byte, sink)
}

fn reset(decoder: &mut Decoder<'_>) {
    decoder.reset();
}

fn read(alloc: Global, text: &str) -> Result<Templates, StaticFault> {
    Templates::read(alloc, text)
}

fn set_of(alloc: Global, text: &str) -> Result<Templates, Fail> {
    Ok(read(alloc, text)?)
}

fn on_general_path(set: Templates) -> Templates {
    set.on_general_path()
}

fn decoder_of(alloc: Global, set: &Templates, limits: Limits) -> Result<Decoder<'_>, MakeError> {
    Decoder::new(alloc, set, limits)
}

/// Appends strings.
fn put(text: &mut String, pieces: &[&str]) -> Result<(), AllocError> {
    for piece in pieces {
        text.push_str(piece)?;
    }
    Ok(())
}

/// Makes one comparison, under the name that a test gives it.
fn expect(rt: &impl Abort, is_right: bool, of: &str, at: usize) {
    assert!(rt; is_right, "{of} ({at})");
}

/// Feeds the bytes in pieces of this size, up to a fault.
fn feed_pieces(
    decoder: &mut Decoder<'_>,
    bytes: &[u8],
    size: usize,
    sink: &mut Script<'_>,
) -> Account
    requires { 0 < size }
{
    let mut answer = Ok(());
    for piece in bytes.chunks(size) {
        if answer.is_ok() {
            answer = feed(decoder, piece, sink);
        }
    }
    account_of(decoder, answer)
}

/// Pushes the bytes, up to a fault.
fn push_all(decoder: &mut Decoder<'_>, bytes: &[u8], sink: &mut Script<'_>) -> Account {
    let mut answer = Ok(());
    for byte in bytes {
        if answer.is_ok() {
            answer = push(decoder, *byte, sink);
        }
    }
    account_of(decoder, answer)
}

/// Feeds the pieces one after the other, up to a fault.
fn feed_each(decoder: &mut Decoder<'_>, pieces: &[&[u8]], sink: &mut Script<'_>) -> Account {
    let mut answer = Ok(());
    for piece in pieces {
        if answer.is_ok() {
            answer = feed(decoder, piece, sink);
        }
    }
    account_of(decoder, answer)
}

/// Returns whether the row is decoded from its bytes in pieces of this size, and bytes that are fed after a fault change nothing.
fn is_played_in_pieces(decoder: &mut Decoder<'_>, row: &Row<'_>, size: usize) -> bool
    requires { 0 < size }
{
    let mut script = Script::of(row.events);
    reset(decoder);
    let heard = feed_pieces(decoder, row.bytes, size, &mut script);
    let is_played = row.is_end(heard) && script.is_played();
    if heard.fault.is_none() {
        return is_played;
    }
    let again = feed(decoder, &[0xC0, 0x81, 0x81], &mut script);
    is_played && account_of(decoder, again) == heard && script.is_played()
}

/// Returns whether the row is decoded from its bytes one after the other.
fn is_played_by_bytes(decoder: &mut Decoder<'_>, row: &Row<'_>) -> bool {
    let mut script = Script::of(row.events);
    reset(decoder);
    row.is_end(push_all(decoder, row.bytes, &mut script)) && script.is_played()
}

/// Returns whether the row is decoded from its bytes in two pieces.
fn is_played_cut(decoder: &mut Decoder<'_>, row: &Row<'_>, cut: usize) -> bool {
    let (front, rest) = row.bytes.split_at_checked(cut).unwrap_or((row.bytes, &[]));
    let mut script = Script::of(row.events);
    reset(decoder);
    row.is_end(feed_each(decoder, &[front, rest], &mut script)) && script.is_played()
}

/// Checks a row that is fed to a decoder, reset before each time: as one piece, in pieces, and byte after byte. Nothing allocates.
fn expect_row(rt: &impl Abort, decoder: &mut Decoder<'_>, row: &Row<'_>) {
    for size in [1, 2, 3, 16, 17, 4096] {
        let is_played = is_played_in_pieces(decoder, row, size);
        expect(rt, is_played, row.name, size);
    }
    let is_played = is_played_by_bytes(decoder, row);
    expect(rt, is_played, row.name, 0);
}

/// Checks a row that is split once, at each of its bytes.
fn expect_row_cut(rt: &impl Abort, decoder: &mut Decoder<'_>, row: &Row<'_>) {
    for cut in 0..row.bytes.len() {
        let is_played = is_played_cut(decoder, row, cut);
        expect(rt, is_played, row.name, cut);
    }
}

/// Checks the row on a line: as one piece, in pieces, and byte after byte.
fn expect_line(
    rt: &impl Abort,
    alloc: Global,
    decoder: &mut Decoder<'_>,
    line: &str,
) -> Result<(), Fail> {
    let columns = Columns::of(line);
    let bytes = bytes_of(alloc, columns.bytes)?;
    let row = row_of(columns, &bytes)?;
    expect_row(rt, decoder, &row);
    Ok(())
}

/// Checks a row, however it is split.
fn expect_row_anyhow(rt: &impl Abort, decoder: &mut Decoder<'_>, row: &Row<'_>) {
    expect_row(rt, decoder, row);
    expect_row_cut(rt, decoder, row);
}

/// Checks the row on a line under the template set, however it is split.
fn expect_line_cut(
    rt: &impl Abort,
    alloc: Global,
    set: &Templates,
    line: &str,
) -> Result<(), Fail> {
    let columns = Columns::of(line);
    let bytes = bytes_of(alloc, columns.bytes)?;
    let row = row_of(columns, &bytes)?;
    expect_of(rt, alloc, set, row.limits, Case::Comes(&row))
}

/// Checks each row of a table under the template set.
fn expect_table(rt: &impl Abort, alloc: Global, set: &Templates, table: &str) -> Result<(), Fail> {
    for line in table.lines() {
        expect_line_cut(rt, alloc, set, line)?;
    }
    Ok(())
}

/// Checks each row of the tables under the template set.
fn expect_tables(
    rt: &impl Abort,
    alloc: Global,
    set: &Templates,
    tables: &[&str],
) -> Result<(), Fail> {
    for table in tables {
        expect_table(rt, alloc, set, table)?;
    }
    Ok(())
}

/// Checks each row of the tables under the template set of this file, with specialized opcodes and without.
fn expect_rows(rt: &impl Abort, alloc: Global, text: &str, tables: &[&str]) -> Result<(), Fail> {
    let set = set_of(alloc, text)?;
    expect_tables(rt, alloc, &set, tables)?;
    expect_tables(rt, alloc, &on_general_path(set), tables)
}

/// The case that a new decoder has to show.
#[derive(Clone, Copy)]
enum Case<'t> {
    /// A row is decoded, however it is split.
    Comes(&'t Row<'t>),
    /// The steps of this name that are not refused are read back.
    ReadsBack(&'t str, &'t str),
    /// A row of messages, encoded under the set, is read back.
    ComesBack(&'t Templates, &'t str),
    /// A list of messages of the set ends at the first that is not read back.
    EndsInList(&'t Templates),
    /// A recorder keeps the events of these bytes.
    Keeps(&'t [u8], &'t str),
    /// Any two bytes end in events or a fault.
    Ends,
    /// Pieces are read as one.
    AsOne,
    /// Pieces are read up to a fault.
    UpToFault,
    /// A sink stops the decoder.
    StopsBySink,
    /// A fault stays until a reset.
    StaysStopped,
    /// A reset discards all that was read.
    Forgets,
    /// Events are emitted as soon as they are decided.
    InTime,
    /// Records have little room.
    GivesRecords,
}

/// Checks that the decoder shows the case.
fn expect_shown(
    rt: &impl Abort,
    alloc: Global,
    decoder: &mut Decoder<'_>,
    case: Case<'_>,
) -> Result<(), Fail> {
    match case {
        Case::Comes(row) => expect_row_anyhow(rt, decoder, row),
        Case::ReadsBack(name, steps) => {
            return encoder::expect_heard(rt, alloc, decoder, name, steps);
        }
        Case::ComesBack(set, text) => {
            return encoder::expect_row_back(rt, alloc, decoder, set, text);
        }
        Case::EndsInList(set) => return encoder::expect_ends(rt, alloc, decoder, set),
        Case::Keeps(bytes, events) => sinks::expect_kept(rt, alloc, decoder, bytes, events),
        Case::Ends => sinks::expect_all_ends(rt, decoder),
        Case::AsOne => pieces::expect_as_one(rt, decoder),
        Case::UpToFault => pieces::expect_up_to_fault(rt, decoder),
        Case::StopsBySink => sinks::expect_stops(rt, decoder),
        Case::StaysStopped => return sinks::expect_stays(rt, alloc, decoder),
        Case::Forgets => return sinks::expect_forgets(rt, alloc, decoder),
        Case::InTime => worked::expect_in_time(rt, decoder),
        Case::GivesRecords => records::expect_calls(rt, alloc, decoder),
    }
    Ok(())
}

/// Checks that a new decoder shows the case. A function that makes a decoder is slow to prove, so there is one for all.
fn expect_of(
    rt: &impl Abort,
    alloc: Global,
    set: &Templates,
    limits: Limits,
    case: Case<'_>,
) -> Result<(), Fail> {
    let mut decoder = decoder_of(alloc, set, limits)?;
    expect_shown(rt, alloc, &mut decoder, case)
}

/// Checks that a new decoder of the set of this file shows the case, with specialized opcodes and without.
fn expect_case(
    rt: &impl Abort,
    alloc: Global,
    text: &str,
    limits: Limits,
    case: Case<'_>,
) -> Result<(), Fail> {
    let set = set_of(alloc, text)?;
    expect_of(rt, alloc, &set, limits, case)?;
    expect_of(rt, alloc, &on_general_path(set), limits, case)
}
