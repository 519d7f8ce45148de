//! Lines in colors.

ghost use Rattle.std.specs.Prelude.{◌≡◌, OnOk, OnErr, IsTrue};
ghost use Rattle.fast_terminal.specs.meaning.Painting.{target_of};

use fast_text::{Failed, Target};

/// The style of a byte.
#[derive(Clone, Copy, Debug, PartialEq, Eq)]
enum Style {
    Plain,
    Bold,
    Dim,
    Red,
}

impl Style {
    /// Returns the escape sequence that begins the style after plain text, or ends any other one.
    fn code(self) -> &'static [u8] {
        match self {
            Style::Plain => b"\x1b[0m",
            Style::Bold => b"\x1b[1m",
            Style::Dim => b"\x1b[2m",
            Style::Red => b"\x1b[31m",
        }
    }
}

/// The position in a line.
#[derive(Clone, Copy, Debug, PartialEq, Eq)]
enum Place {
    /// At its start.
    Start,
    /// In a line of one style.
    Whole(Style),
    /// In the line of a field, after this many spaces.
    Field(u8),
    /// In the line of a group or a sequence, after this many spaces.
    Node(u8),
}

/// A target of lines that writes them to another target in colors: the start of a message is bold, a fault or an end inside a message is
/// red, and of all other lines what is not a name or a value is dim. Without the escape sequences the bytes are the same.
#[derive(Drop)]
pub struct Painted<T> {
    inner: T,
    place: Place,
    /// The style that is set.
    style: Style,
}

/// Returns the position after the first byte of a line, of which the next one may be known.
fn place_of(first: u8, next: Option<&u8>) -> Place {
    match (first, next) {
        (b'f', Some(b'a')) | (b't', _) => Place::Whole(Style::Red),
        (b'f', _) => Place::Field(0),
        (b'm', _) => Place::Whole(Style::Bold),
        (b'g' | b's', _) => Place::Node(0),
        _ => Place::Whole(Style::Dim),
    }
}

/// Returns the style at a position.
fn style_at(place: Place) -> Style {
    match place {
        Place::Start => Style::Plain,
        Place::Whole(style) => style,
        Place::Field(0 | 1 | 3) | Place::Node(0 | 1) => Style::Dim,
        Place::Field(_) | Place::Node(_) => Style::Plain,
    }
}

/// Returns the position after a space.
fn after_space(place: Place) -> Place {
    match place {
        Place::Field(spaces) => Place::Field(spaces.saturating_add(1)),
        Place::Node(spaces) => Place::Node(spaces.saturating_add(1)),
        Place::Start | Place::Whole(_) => place,
    }
}

impl<T: Target> Painted<T> {
    /// Makes a target of lines over another one.
    pub fn new(inner: T) -> Painted<T>
        ensures { target_of result ≡ inner }
    {
        Painted {
            inner,
            place: Place::Start,
            style: Style::Plain,
        }
    }

    /// Notes a byte, and returns its style.
    fn note(&mut self, byte: u8, next: Option<&u8>) -> Style
        ensures { target_of self.new ≡ target_of self.old }
    {
        if byte == b'\n' {
            self.place = Place::Start;
            return Style::Plain;
        }
        if self.place == Place::Start {
            self.place = place_of(byte, next);
        }
        let style = style_at(self.place);
        if byte == b' ' {
            self.place = after_space(self.place);
        }
        style
    }

    /// Sets a style.
    fn set(&mut self, style: Style) -> Result<(), Failed>
        ensures fails { OnErr result (IsTrue (T.has_failed (target_of self.new))) }
        ensures stays { OnOk result (T.has_failed (target_of self.new) ≡ T.has_failed (target_of self.old)) }
    {
        if style == self.style {
            return Ok(());
        }
        if self.style != Style::Plain {
            self.inner.write_all(Style::Plain.code())?;
        }
        if style != Style::Plain {
            self.inner.write_all(style.code())?;
        }
        self.style = style;
        Ok(())
    }
}

impl<T: Target> Target for Painted<T> {
    ghost use Rattle.std.specs.Prelude.{None};
    ghost use Rattle.fast_terminal.specs.meaning.Painting.{target_of};

    // What a terminal is sent is not the lines themselves.
    ghost written = { λ _. None };

    ghost has_failed = { λ s. T.has_failed (target_of s) };

    fn write(&mut self, piece: &[u8]) -> Result<usize, Failed> {
        let mut rest = piece;
        while let Some((byte, others)) = rest.split_first() {
            let style = self.note(*byte, others.first());
            self.set(style)?;
            self.inner.write_all(&[*byte])?;
            rest = others;
        }
        Ok(piece.len())
    }

    fn flush(&mut self) -> Result<(), Failed> {
        self.inner.flush()
    }

    fn failed(&self) -> bool {
        self.inner.failed()
    }
}
