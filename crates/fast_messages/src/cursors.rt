//! The lines of a file, one after the other.

ghost use Rattle.std.specs.Prelude.{◌≡◌, ◌≢◌, ◌≤◌, ◌∷◌, ◌++◌, length, IsUtf8, IsTrue, IsSome, IfSome, IfNone, IfOk, IfErr};
ghost use Rattle.fast_lines.specs.meaning.Forms.{LineData, IsForm, line_data, text_of_line};
ghost use Rattle.fast_lines.specs.meaning.Values.{Lacks};
ghost use Rattle.fast_messages.specs.device.Ahead.{IsValueOf, TellsValue, TellsNone, IsAt, IsAtText, IsNextNumber, IsNextText, IsOneLine, HasNoValue, HasNoLines};
ghost use Rattle.fast_messages.specs.meaning.Reading.{closed, OnBadLine};

use crate::faults::{LineFault, TextFault};
use fast_lines::forms::{Line, parse_line};
use fast_lines::values::{is_number, parse_value};
use fast_value::Value;
use memchr::memchr;
use std::alloc::Global;
use std::str;

/// A position in a file of lines: the next line, and what follows it.
#[derive(Debug, Drop)]
pub struct Cursor<'a> {
    /// The next line; `None` at the end.
    pub line: Option<Line<'a>>,
    /// The value of the next line, if that is a field's and the types of values hold it.
    pub value: Option<Value>,
    /// The number of the next line, from 1.
    pub number: u64,
    /// The input after the next line.
    pub rest: &'a [u8],
    /// True if `rest` is known to be UTF-8, so that no line of it is checked again.
    pub is_utf8: bool,
    ghost told: { TellsValue line value },
    ghost untold: { TellsNone line value },
    ghost one_line: { IsOneLine line },
    ghost formed: { ∥ IfSome line (λ l. IsForm (line_data l)) ∥₁ },
    ghost utf8: { IsTrue is_utf8 → ∥ IsUtf8 rest.now ∥₁ },
}

/// Splits at the first LF: returns what precedes it and what follows it.
#[inline(always)]
fn split_at_feed(text: &[u8]) -> Option<(&[u8], &[u8])>
    ensures parts { IfSome result (λ r. text.now ≡ r.0.now ++ 0x0A ∷ r.1.now) }
    ensures first { IfSome result (λ r. Lacks 0x0A r.0.now) }
    ensures none { IfNone result (Lacks 0x0A text.now) }
{
    match memchr(b'\n', text) {
        Some(at) => Some((&text[..at], &text[at + 1..])),
        None => None,
    }
}

/// Returns the first line without its LF, and what follows it. The last line may have no LF.
pub fn first_line(text: &[u8]) -> (&[u8], &[u8])
    requires { 1 ≤ length text.now }
    ensures parts { closed text.now ≡ result.0.now ++ 0x0A ∷ closed result.1.now }
    ensures line { Lacks 0x0A result.0.now }
    ensures utf8 { IsUtf8 text.now → IsUtf8 result.0.now × IsUtf8 result.1.now }
{
    match split_at_feed(text) {
        Some((line, rest)) => (line, rest),
        None => (text, b"".as_slice()),
    }
}

/// Parses a line; `None` if it is not UTF-8, or has not the form of a line. `is_utf8` omits the first check.
pub fn checked_line(text: &[u8], is_utf8: bool) -> Option<Line<'_>>
    requires { IsTrue is_utf8 → IsUtf8 text.now }
    ensures utf8 { IfSome result (λ _. IsUtf8 text.now) }
    ensures line { IfSome result (λ l. text.now ≡ text_of_line (line_data l)) }
    ensures form { IfSome result (λ l. IsForm (line_data l)) }
    ensures none { IfNone result ((d : LineData) → IsForm d → IsUtf8 (text_of_line d) → text.now ≢ text_of_line d) }
{
    if is_utf8 || str::from_utf8(text).is_ok() {
        parse_line(text)
    } else {
        None
    }
}

/// Parses the value of the line of this number; `None` if the line is not a field's, or the types of values do not hold the value.
fn value_of(alloc: Global, line: Line<'_>, number: u64) -> Result<Option<Value>, TextFault>
    ensures value { IfOk result (IsValueOf line.entry) }
    ensures line { IfErr result (IsAt number) }
    ensures refused { IfErr result (OnBadLine (HasNoValue line.entry)) }
{
    let Line::Field { value: text, .. } = line else {
        return Ok(None);
    };
    let value = parse_value(alloc, text)?;
    if value.is_none() && !is_number(text) {
        return Err(TextFault::BadLine {
            line: number,
            kind: LineFault::Form,
        });
    }
    Ok(value)
}

impl<'a> Cursor<'a> {
    ghost use Rattle.fast_messages.specs.declared.faults.TextFault.TheVariants.{BadLine};
    ghost use Rattle.fast_messages.specs.device.Cursors.{ahead, Advances, IsNear};
    ghost use Rattle.fast_messages.specs.device.Refusing.{HasNoNext};

    /// Returns the cursor at the start of a file.
    ///
    /// # Errors
    ///
    /// The first line has not the form of a line; `Memory` if an allocation failed.
    pub fn new(alloc: Global, text: &'a [u8]) -> Result<Cursor<'a>, TextFault>
        ensures ahead { IfOk result (λ c. ahead c ≡ closed text.entry.now) }
        ensures number { IfOk result (λ c. c.number ≡ 1) }
        ensures line { IfErr result (IsAtText 1 (closed text.entry.now)) }
        ensures refused { IfErr result (OnBadLine (HasNoLines (closed text.entry.now))) }
    {
        Cursor::at(alloc, text, 1, str::from_utf8(text).is_ok())
    }

    /// Returns the cursor before an input whose first line has this number.
    fn at(
        alloc: Global,
        text: &'a [u8],
        number: u64,
        is_utf8: bool,
    ) -> Result<Cursor<'a>, TextFault>
        requires { IsTrue is_utf8 → IsUtf8 text.now }
        ensures ahead { IfOk result (λ c. ahead c ≡ closed text.entry.now) }
        ensures number { IfOk result (λ c. c.number ≡ number) }
        ensures line { IfErr result (IsAtText number (closed text.entry.now)) }
        ensures refused { IfErr result (OnBadLine (HasNoLines (closed text.entry.now))) }
    {
        if text.is_empty() {
            return Ok(Cursor {
                line: None,
                value: None,
                number,
                rest: text,
                is_utf8,
            });
        }
        let (first, rest) = first_line(text);
        let Some(line) = checked_line(first, is_utf8) else {
            return Err(TextFault::BadLine {
                line: number,
                kind: LineFault::Form,
            });
        };
        let value = value_of(alloc, line, number)?;
        Ok(Cursor {
            line: Some(line),
            value,
            number,
            rest,
            is_utf8,
        })
    }

    /// Returns the cursor after the line of this number, before the rest `text`.
    ///
    /// # Errors
    ///
    /// The next line has not the form of a line; `Memory` if an allocation failed.
    #[inline(always)]
    pub fn behind(
        alloc: Global,
        number: u64,
        text: &'a [u8],
        is_utf8: bool,
    ) -> Result<Cursor<'a>, TextFault>
        requires { IsTrue is_utf8 → IsUtf8 text.now }
        ensures ahead { IfOk result (λ c. ahead c ≡ closed text.entry.now) }
        ensures number { IfOk result (λ c. IsNextNumber number c.number) }
        ensures line { IfErr result (IsNextText number (closed text.entry.now)) }
        ensures refused { IfErr result (OnBadLine (HasNoLines (closed text.entry.now))) }
    {
        // No input has enough lines for this to saturate.
        Cursor::at(alloc, text, number.saturating_add(1), is_utf8)
    }

    /// Returns the cursor after the next line.
    ///
    /// # Errors
    ///
    /// The line after it has not the form of a line; `Memory` if an allocation failed.
    #[inline(always)]
    pub fn advance(self, alloc: Global) -> Result<Cursor<'a>, TextFault>
        requires { IsSome self.line }
        ensures ok { IfOk result (Advances self.entry) }
        ensures line { IfErr result (IsNear self.entry) }
        ensures refused { IfErr result (OnBadLine (HasNoNext self.entry)) }
    {
        Cursor::behind(alloc, self.number, self.rest, self.is_utf8)
    }

    /// Returns the fault of the next line.
    pub fn fault(&self, kind: LineFault) -> TextFault
        ensures { result ≡ BadLine self.now.number kind }
    {
        TextFault::BadLine {
            line: self.number,
            kind,
        }
    }
}
