//! The parser of one line, without its LF.

ghost use Rattle.std.specs.Prelude.{◌≡◌, ◌≢◌, ◌↔◌, ℕ, ◌<◌, ◌^◌, List, ◌++◌, codes, decimal, IsTrue, IfSome, IfNone};
ghost use Rattle.fast_lines.specs.meaning.Forms.{LineData, text_of_line, line_data, IsWord, IsForm, keyword_of, IsSpelled, IsNoForm, Gives};

use crate::numbers::parse_number;
use crate::values::split_at_byte;

/// A parsed line. Its names and values are borrowed from the input.
#[derive(Clone, Copy, Debug)]
pub enum Line<'a> {
    /// The start of a message.
    Message {
        /// The name of its template.
        name: &'a [u8],
    },
    /// A field.
    Field {
        /// The number of its node.
        node: u32,
        /// Its name.
        name: &'a [u8],
        /// Its value, with the letter of its type.
        value: &'a [u8],
    },
    /// The start of a group.
    Group {
        /// The number of its node.
        node: u32,
        /// Its name.
        name: &'a [u8],
    },
    /// The end of a group.
    GroupEnd,
    /// The start of a sequence.
    Sequence {
        /// The number of its node.
        node: u32,
        /// Its name.
        name: &'a [u8],
        /// The number of its elements.
        count: u32,
    },
    /// The start of an element.
    Element,
    /// The end of an element.
    ElementEnd,
    /// The end of a sequence.
    SequenceEnd,
    /// The end of a message.
    MessageEnd,
}

/// The keyword that a line of several words begins with.
#[derive(Clone, Copy, Debug)]
enum Keyword {
    /// `message`
    Message,
    /// `field`
    Field,
    /// `group`
    Group,
    /// `sequence`
    Sequence,
    /// `end`
    End,
    /// Any other word; no line begins with one.
    Other,
}

/// Returns the keyword that a word is.
fn read_keyword(word: &[u8]) -> Keyword
    ensures spelled { IsSpelled result word.now }
    ensures keyword { result ≡ keyword_of word.now }
{
    if word == b"message".as_slice() {
        Keyword::Message
    } else if word == b"field".as_slice() {
        Keyword::Field
    } else if word == b"group".as_slice() {
        Keyword::Group
    } else if word == b"sequence".as_slice() {
        Keyword::Sequence
    } else if word == b"end".as_slice() {
        Keyword::End
    } else {
        Keyword::Other
    }
}

/// Returns whether the input is one word.
fn is_word(text: &[u8]) -> bool
    ensures { IsTrue result ↔ IsWord text.now }
{
    !text.is_empty() && text.iter().all(|byte| *byte != b' ')
}

/// Parses a node's number and name.
fn parse_node(text: &[u8]) -> Option<(u32, &[u8])>
    ensures node { IfSome result (λ r. (text.now ≡ decimal r.0 ++ codes " " ++ r.1.now) × IsWord r.1.now) }
    ensures none { IfNone result
        ((n : ℕ) (name : List ℕ) → n < 2 ^ 32 → IsWord name → text.now ≢ decimal n ++ codes " " ++ name) }
{
    let Some((number, name)) = split_at_byte(text, b' ') else {
        return None;
    };
    match parse_number(number) {
        Some(node) if is_word(name) => Some((node, name)),
        _ => None,
    }
}

/// Parses a node's number and name. Returns them with what follows the space after the name.
fn first_node(text: &[u8]) -> Option<(u32, &[u8], &[u8])>
    ensures node { IfSome result
        (λ r. (text.now ≡ (decimal r.0 ++ codes " " ++ r.1.now) ++ codes " " ++ r.2.now) × IsWord r.1.now) }
    ensures none { IfNone result
        ((n : ℕ) (name rest : List ℕ) → n < 2 ^ 32 → IsWord name
        → text.now ≢ (decimal n ++ codes " " ++ name) ++ codes " " ++ rest) }
{
    let Some((number, others)) = split_at_byte(text, b' ') else {
        return None;
    };
    let Some((name, rest)) = split_at_byte(others, b' ') else {
        return None;
    };
    match parse_number(number) {
        Some(node) if !name.is_empty() => Some((node, name, rest)),
        _ => None,
    }
}

/// Parses the rest of a line that begins with `message`.
fn message_line(text: &[u8]) -> Option<Line<'_>>
    ensures line { IfSome result (Gives (codes "message ") text.now) }
    ensures none { IfNone result (IsNoForm Keyword.Message text.now) }
{
    if is_word(text) {
        Some(Line::Message { name: text })
    } else {
        None
    }
}

/// Parses the rest of a line that begins with `field`.
fn field_line(text: &[u8]) -> Option<Line<'_>>
    ensures line { IfSome result (Gives (codes "field ") text.now) }
    ensures none { IfNone result (IsNoForm Keyword.Field text.now) }
{
    match first_node(text) {
        Some((node, name, value)) => Some(Line::Field { node, name, value }),
        None => None,
    }
}

/// Parses the rest of a line that begins with `group`.
fn group_line(text: &[u8]) -> Option<Line<'_>>
    ensures line { IfSome result (Gives (codes "group ") text.now) }
    ensures none { IfNone result (IsNoForm Keyword.Group text.now) }
{
    match parse_node(text) {
        Some((node, name)) => Some(Line::Group { node, name }),
        None => None,
    }
}

/// Parses the rest of a line that begins with `sequence`.
fn sequence_line(text: &[u8]) -> Option<Line<'_>>
    ensures line { IfSome result (Gives (codes "sequence ") text.now) }
    ensures none { IfNone result (IsNoForm Keyword.Sequence text.now) }
{
    let Some((node, name, rest)) = first_node(text) else {
        return None;
    };
    match parse_number(rest) {
        Some(count) => Some(Line::Sequence { node, name, count }),
        None => None,
    }
}

/// Parses the rest of a line that begins with `end`.
fn end_line(text: &[u8]) -> Option<Line<'_>>
    ensures line { IfSome result (Gives (codes "end ") text.now) }
    ensures none { IfNone result (IsNoForm Keyword.End text.now) }
{
    if text == b"group".as_slice() {
        Some(Line::GroupEnd)
    } else if text == b"element".as_slice() {
        Some(Line::ElementEnd)
    } else if text == b"sequence".as_slice() {
        Some(Line::SequenceEnd)
    } else if text == b"message".as_slice() {
        Some(Line::MessageEnd)
    } else {
        None
    }
}

/// Parses a line; `None` if the input has not the form of one. It recognizes the most frequent lines by their first bytes.
pub fn parse_line(text: &[u8]) -> Option<Line<'_>>
    ensures line { IfSome result (λ l. text.now ≡ text_of_line (line_data l)) }
    ensures form { IfSome result (λ l. IsForm (line_data l)) }
    ensures none { IfNone result ((d : LineData) → IsForm d → text.now ≢ text_of_line d) }
{
    match text {
        [b'f', b'i', b'e', b'l', b'd', b' ', rest @ ..] => field_line(rest),
        _ => bare_line(text),
    }
}

/// Parses a line that is not a field's, tested first for an end.
#[inline(always)]
fn bare_line(text: &[u8]) -> Option<Line<'_>>
    ensures line { IfSome result (λ l. text.now ≡ text_of_line (line_data l)) }
    ensures form { IfSome result (λ l. IsForm (line_data l)) }
    ensures none { IfNone result ((d : LineData) → IsForm d → text.now ≢ text_of_line d) }
{
    match text {
        [b'e', b'n', b'd', b' ', rest @ ..] => end_line(rest),
        _ => opening_line(text),
    }
}

/// Parses a line that is neither a field's nor an end, tested first for the start of a message.
#[inline(always)]
fn opening_line(text: &[u8]) -> Option<Line<'_>>
    ensures line { IfSome result (λ l. text.now ≡ text_of_line (line_data l)) }
    ensures form { IfSome result (λ l. IsForm (line_data l)) }
    ensures none { IfNone result ((d : LineData) → IsForm d → text.now ≢ text_of_line d) }
{
    match text {
        [b'm', b'e', b's', b's', b'a', b'g', b'e', b' ', rest @ ..] => message_line(rest),
        _ => any_line(text),
    }
}

/// Parses any line, by its first word.
fn any_line(text: &[u8]) -> Option<Line<'_>>
    ensures line { IfSome result (λ l. text.now ≡ text_of_line (line_data l)) }
    ensures form { IfSome result (λ l. IsForm (line_data l)) }
    ensures none { IfNone result ((d : LineData) → IsForm d → text.now ≢ text_of_line d) }
{
    let Some((word, rest)) = split_at_byte(text, b' ') else {
        return if text == b"element".as_slice() {
            Some(Line::Element)
        } else {
            None
        };
    };
    match read_keyword(word) {
        Keyword::Message => message_line(rest),
        Keyword::Field => field_line(rest),
        Keyword::Group => group_line(rest),
        Keyword::Sequence => sequence_line(rest),
        Keyword::End => end_line(rest),
        Keyword::Other => None,
    }
}
