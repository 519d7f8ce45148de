//! Explanations of hexadecimal inputs that are refused.

ghost use Rattle.std.specs.Prelude.{◌≡◌, ◌≤◌, length};

use crate::misfits::text_of;
use arrayvec::ArrayVec;
use fast_notes::{NOTE_ROOM, Note, put, put_number, put_quoted};
use fast_text::{Failed, Source};
use std::fmt::Write;

/// The number of characters that are kept of the line before an invalid one, and after it.
const NEAR: usize = 64;

/// A position in an input: the number of characters before it, and its line and column, from 1.
#[derive(Clone, Copy)]
struct Place {
    offset: u64,
    line: u64,
    column: u64,
}

/// Digits that are not separated: the position of the first one, and their number.
#[derive(Clone, Copy)]
struct Run {
    start: Place,
    count: u64,
}

/// The runs of a kind that have an odd number of digits.
#[derive(Clone, Copy)]
struct Odd {
    /// The current run.
    run: Option<Run>,
    first: Option<Run>,
    /// The number of such runs.
    count: u64,
}

impl Odd {
    /// Reads a digit at a position.
    fn take(&mut self, place: Place) {
        let (start, count) = match self.run {
            Some(run) => (run.start, run.count),
            None => (place, 0),
        };
        self.run = Some(Run {
            start,
            count: count.saturating_add(1),
        });
    }

    /// Ends the current run.
    fn end(&mut self) {
        if let Some(run) = self.run {
            if run.count % 2 == 1 {
                self.count = self.count.saturating_add(1);
                if self.first.is_none() {
                    self.first = Some(run);
                }
            }
        }
        self.run = None;
    }

    /// Returns the only run with an odd number of digits.
    fn only(&self) -> Option<Run> {
        if self.count == 1 { self.first } else { None }
    }
}

/// A reader of hexadecimal digits, which looks at them up to the first character that is neither a digit nor a blank.
#[derive(Drop)]
pub struct Digits<S> {
    inner: S,
    /// The end of the input so far, or the invalid character.
    place: Place,
    /// The invalid character.
    bad: Option<u8>,
    /// The start of its line, without it.
    before: ArrayVec<u8, NEAR>,
    /// The character before it.
    last: u8,
    /// The characters after it that were read with it.
    after: ArrayVec<u8, NEAR>,
    words: Odd,
    lines: Odd,
}

/// An error at an invalid character.
#[derive(Clone, Copy)]
struct Misfit {
    /// A phrase for what is found, or `None` for the character itself.
    found: Option<&'static str>,
    right: &'static str,
}

/// Returns an error with a phrase for what is found.
fn said(found: &'static str, right: &'static str) -> Misfit {
    Misfit {
        found: Some(found),
        right,
    }
}

/// The form of an input of digits.
const ALONE: &str = "expected digits alone";

/// The form of an input made of a dump.
const DUMP: &str = "expected digits alone, as xxd -p prints them";

/// The form of separators between digits.
const SEPARATOR: &str = "expected digits, and at most blanks between them";

/// Returns whether these characters are the offset of a dump: 7 or 8 digits, of which the first is 0.
fn is_offset(text: &[u8]) -> bool {
    7 <= text.len()
        && text.len() <= 8
        && text.first().copied() == Some(b'0')
        && text.iter().all(|byte| byte.is_ascii_hexdigit())
}

/// Returns whether a line begins like one of `hexdump -C`.
fn is_canonical(line: &[u8]) -> bool {
    match (line.get(0..8), line.get(8..10)) {
        (Some(offset), Some(blanks)) => is_offset(offset) && blanks == b"  ".as_slice(),
        _ => false,
    }
}

/// Returns the error of an input that begins with an invalid character, which `after` follows.
fn first_misfit(byte: u8, after: &[u8]) -> Option<Misfit> {
    match (byte, after) {
        (0xEF, [0xBB, 0xBF, ..]) => Some(said(
            "a byte order mark",
            "expected digits; save them without it",
        )),
        (b'm', [b'e', b's', b's', b'a', b'g', b'e', b' ', ..]) => Some(said(
            "a line of show",
            "expected digits; lines are read by fastcat convert",
        )),
        _ => None,
    }
}

impl<S> Digits<S> {
    ghost use Rattle.fast_explain_lines.specs.meaning.Reading.{inner_of};

    /// Makes a reader that has read nothing.
    pub fn new(inner: S) -> Digits<S>
        ensures { inner_of result ≡ inner }
    {
        let none = Odd {
            run: None,
            first: None,
            count: 0,
        };
        Digits {
            inner,
            place: Place {
                offset: 0,
                line: 1,
                column: 1,
            },
            bad: None,
            before: ArrayVec::new(),
            last: 0,
            after: ArrayVec::new(),
            words: none,
            lines: none,
        }
    }

    /// Returns the reader of the input.
    pub fn inner(&self) -> &S
        ensures { result.now ≡ inner_of self.now }
    {
        &self.inner
    }

    /// Looks at a character.
    fn take(&mut self, byte: u8)
        ensures { inner_of self.new ≡ inner_of self.old }
    {
        if self.bad.is_some() {
            let _ = self.after.try_push(byte);
            return;
        }
        match byte {
            b'0'..=b'9' | b'a'..=b'f' | b'A'..=b'F' => {
                self.words.take(self.place);
                self.lines.take(self.place);
            }
            b' ' | b'\t' | b'\r' => self.words.end(),
            b'\n' => {
                self.words.end();
                self.lines.end();
            }
            _ => {
                self.bad = Some(byte);
                return;
            }
        }
        self.advance(byte);
    }

    /// Moves the position after a character.
    fn advance(&mut self, byte: u8)
        ensures { inner_of self.new ≡ inner_of self.old }
    {
        self.place.offset = self.place.offset.saturating_add(1);
        self.last = byte;
        if byte == b'\n' {
            self.place.line = self.place.line.saturating_add(1);
            self.place.column = 1;
            self.before.clear();
        } else {
            self.place.column = self.place.column.saturating_add(1);
            let _ = self.before.try_push(byte);
        }
    }

    /// Looks at a piece of the input; an empty one is its end.
    fn look(&mut self, piece: &[u8])
        ensures { inner_of self.new ≡ inner_of self.old }
    {
        if piece.is_empty() && self.bad.is_none() {
            self.words.end();
            self.lines.end();
        }
        for byte in piece {
            self.take(*byte);
        }
    }

    /// Returns the error at the invalid character.
    fn misfit(&self, byte: u8) -> Misfit {
        let after = self.after.as_slice();
        if self.place.offset == 0 {
            if let Some(misfit) = first_misfit(byte, after) {
                return misfit;
            }
        }
        if let Some(misfit) = self.known_misfit(byte, after) {
            return misfit;
        }
        if byte < 0x20 || byte >= 0x7f {
            return said(
                "a byte that is no character of digits",
                "expected digits; a binary stream is shown without --hex",
            );
        }
        Misfit {
            found: None,
            right: if byte.is_ascii_alphabetic() {
                "expected a hexadecimal digit"
            } else {
                SEPARATOR
            },
        }
    }

    /// Returns the error at an invalid character that `after` follows, if it is part of a prefix, a dump, a comment or a quotation.
    fn known_misfit(&self, byte: u8, after: &[u8]) -> Option<Misfit> {
        let line = self.before.as_slice();
        let (found, right) = match (self.last, byte, after) {
            (b'0', b'x' | b'X', _) => ("a 0x prefix", ALONE),
            (_, b':', _) if is_offset(line) => ("the offset column of a dump", DUMP),
            (_, b'|', _) if is_canonical(line) => ("the text column of a dump", DUMP),
            (_, b'#', _) | (_, b'/', [b'/', ..]) => ("a comment", ALONE),
            (_, b'\\', [b'x', ..]) => ("a \\x prefix", ALONE),
            (_, b'"' | b'\'' | b'`', _) => ("a quote", ALONE),
            _ => return None,
        };
        Some(said(found, right))
    }

    /// Writes what is wrong at the invalid character.
    fn tell_bad(&self, byte: u8, note: &mut Note) {
        let misfit = self.misfit(byte);
        let _ = put_place(note, self.place)
            && match misfit.found {
                Some(phrase) => put(note, &[phrase]),
                None => put_quoted(note, text_of(&[byte])),
            }
            && put(note, &[": ", misfit.right, "\n"]);
    }

    /// Writes where the second digit of a pair is missing in an input that is read to its end.
    fn tell_half(&self, note: &mut Note) {
        let _ = match (self.words.only(), self.lines.only()) {
            (Some(word), _) => put_place(note, word.start) && put_run(note, word, "between blanks"),
            (None, Some(line)) => put_place(note, line.start)
                && put_run(note, line, "in this line"),
            (None, None) => {
                put_place(note, self.place)
                    && put(
                        note,
                        &["the end of the input: expected the second digit of a pair\n"],
                    )
            }
        };
    }
}

/// Begins the line of a position. Returns whether it had room.
fn put_place(note: &mut Note, place: Place) -> bool {
    put(note, &["  line "])
        && put_number(note, place.line)
        && put(note, &[", column "])
        && put_number(note, place.column)
        && put(note, &[": "])
}

/// Writes that a run has an odd number of digits. Returns whether it had room.
fn put_run(note: &mut Note, run: Run, place: &'static str) -> bool {
    put_number(note, run.count)
        && put(
            note,
            &[if run.count == 1 {
                " digit "
            } else {
                " digits "
            }],
        )
        && put(
            note,
            &[place, ": expected an even number, two for each byte\n"],
        )
}

/// Adds to the explanation of a stream's fault that its digits are those of a dump with a column of offsets and one of text, if they are.
pub fn explain_dump<S>(reader: &Digits<S>, note: &mut Note) {
    if reader.bad == Some(b'|') && is_canonical(reader.before.as_slice()) {
        reader.tell_bad(b'|', note);
    }
}

/// Explains why a hexadecimal input is refused at an offset: the line, the column, what is found there and what is expected.
pub fn explain_digits<S>(place: u64, reader: &Digits<S>) -> Note
    ensures { length result.bytes ≤ NOTE_ROOM }
{
    let mut note = Note::new();
    if place == reader.place.offset {
        match reader.bad {
            Some(byte) => reader.tell_bad(byte, &mut note),
            None => reader.tell_half(&mut note),
        }
    }
    prove!(note.len() <= NOTE_ROOM);
    note
}

impl<S: Source> Source for Digits<S> {
    ghost use Rattle.fast_explain_lines.specs.meaning.Reading.{inner_of};

    ghost left = { λ s. S.left (inner_of s) };

    ghost has_failed = { λ s. S.has_failed (inner_of s) };

    fn read(&mut self, buf: &mut [u8]) -> Result<usize, Failed> {
        match self.inner.read(buf) {
            Ok(count) => {
                self.look(&buf[..count]);
                Ok(count)
            }
            Err(failed) => Err(failed),
        }
    }

    fn failed(&self) -> bool {
        self.inner.failed()
    }
}
