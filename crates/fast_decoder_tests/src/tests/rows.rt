//! Rows that are read from their lines.

use super::{Account, LENIENT, Script, stopped_at};
use fast_decoder::FaultCode;
use fast_value::{Code, Limits};
use std::alloc::Global;
use std::test::Fail;

/// A stream, and its expected events and end.
#[derive(Clone, Copy)]
pub struct Row<'t> {
    /// The property that it shows.
    pub name: &'t str,
    pub limits: Limits,
    pub bytes: &'t [u8],
    /// The events, as a `Script` writes them.
    pub events: &'t str,
    /// The end, as `is_end` writes it.
    pub end: &'t str,
}

impl Row<'_> {
    /// Returns whether a decoder with this account after the bytes is at the expected end.
    pub fn is_end(&self, heard: Account) -> bool {
        let mut script = Script::of(self.end);
        let due = match heard.answer {
            Ok(()) => {
                script.write(if heard.between { b"between" } else { b"inside" });
                fed(heard.between, self.bytes.len())
            }
            Err(fault) => {
                script.write(name_of(fault.code));
                script.write_number(b"@", fault.place);
                stopped_at(fault)
            }
        };
        heard == due && script.is_played()
    }
}

/// Returns the account of a decoder that has consumed this many bytes.
fn fed(between: bool, len: usize) -> Account {
    Account {
        answer: Ok(()),
        fault: None,
        between,
        consumed: len as u64,
    }
}

fn name_of(code: FaultCode) -> &'static [u8] {
    match code {
        FaultCode::Stream(code) => stream_name_of(code),
        _ => b"another fault",
    }
}

pub fn stream_name_of(code: Code) -> &'static [u8] {
    match code {
        Code::D2 => b"D2",
        Code::D4 => b"D4",
        Code::D5 => b"D5",
        Code::D6 => b"D6",
        Code::D7 => b"D7",
        Code::D9 => b"D9",
        Code::R1 => b"R1",
        Code::R2 => b"R2",
        Code::R6 => b"R6",
        Code::R7 => b"R7",
        Code::R8 => b"R8",
        Code::R9 => b"R9",
        Code::L1 => b"L1",
        Code::L2 => b"L2",
        Code::L3 => b"L3",
        Code::L5 => b"L5",
    }
}

/// The columns of a line.
#[derive(Clone, Copy)]
pub struct Columns<'t> {
    pub name: &'t str,
    pub limits: &'t str,
    pub bytes: &'t str,
    pub events: &'t str,
    pub end: &'t str,
}

/// Removes the next column, and returns it.
fn column<'t>(rest: &mut &'t str) -> &'t str {
    let (column, behind) = rest.split_once('|').unwrap_or((*rest, ""));
    *rest = behind;
    column.trim()
}

impl Columns<'_> {
    pub fn of(line: &str) -> Columns<'_> {
        let mut rest = line;
        Columns {
            name: column(&mut rest),
            limits: column(&mut rest),
            bytes: column(&mut rest),
            events: column(&mut rest),
            end: column(&mut rest),
        }
    }
}

/// Sets the limit of a token.
fn set_limit(limits: &mut Limits, word: &str) -> Option<()> {
    match word.split_once('=') {
        Some((name, number)) => set_number(limits, name, number.parse().ok()?),
        None => {
            limits.strict = is_strict(word)?;
            Some(())
        }
    }
}

fn set_number(limits: &mut Limits, name: &str, number: u32) -> Option<()> {
    match name {
        "text" => limits.max_text = number as usize,
        "elements" => limits.max_elements = number,
        "total" => limits.max_total = number,
        _ => return None,
    }
    Some(())
}

fn is_strict(word: &str) -> Option<bool> {
    match word {
        "strict" => Some(true),
        "lenient" => Some(false),
        _ => None,
    }
}

pub fn limits_of(words: &str) -> Option<Limits> {
    let mut limits = LENIENT;
    for word in words.split_whitespace() {
        set_limit(&mut limits, word)?;
    }
    Some(limits)
}

/// Returns the bytes of tokens such as `C0`, and `00*146` for 146 bytes.
pub fn bytes_of(alloc: Global, words: &str) -> Result<Vec<u8>, Fail> {
    let mut bytes = Vec::new(alloc);
    for word in words.split_whitespace() {
        let (digits, times) = word.split_once('*').unwrap_or((word, "1"));
        let byte = u8::from_str_radix(digits, 16)?;
        for _ in 0..times.parse::<u32>()? {
            bytes.push(byte)?;
        }
    }
    Ok(bytes)
}

/// Returns the row of columns, with its bytes.
pub fn row_of<'t>(columns: Columns<'t>, bytes: &'t [u8]) -> Result<Row<'t>, Fail> {
    let Some(limits) = limits_of(columns.limits) else {
        return Err(Fail::new("no limits"));
    };
    Ok(Row {
        name: columns.name,
        limits,
        bytes,
        events: columns.events,
        end: columns.end,
    })
}
