//! Explanations of reads and writes that failed.

ghost use Rattle.std.specs.Prelude.{◌≡◌, ◌≤◌, length};

use crate::notes::{NOTE_ROOM, Note, put, put_number, put_path};
use std::fmt::Write;
use std::io::{Error, ErrorKind};

/// The number of the system's error for a descriptor that is not open.
const NOT_OPEN: i32 = 9;

/// An input or an output of a run.
#[derive(Clone, Copy, Debug, PartialEq, Eq)]
pub enum Channel<'a> {
    /// Standard input.
    StandardInput,
    /// Standard output.
    StandardOutput,
    /// The file at a path.
    File(&'a str),
}

/// Why a read or a write failed.
#[derive(Clone, Copy, Debug, PartialEq, Eq)]
pub enum Cause {
    /// The system refused it, with an error of this kind.
    Refused(ErrorKind),
    /// The standard stream is not open.
    NotOpen,
    /// The input has more than this number of bytes.
    TooLong(u64),
    /// The input needs more than this number of reads.
    TooManyReads(u64),
}

impl Cause {
    /// Returns the cause that an error of std stands for.
    pub fn of(error: &Error) -> Cause {
        match error.raw_os_error() {
            Some(NOT_OPEN) => Cause::NotOpen,
            _ => Cause::Refused(error.kind()),
        }
    }
}

/// Returns the phrase for a kind of error; `None` for the kinds that std's own words are used for.
fn phrase_of(kind: ErrorKind) -> Option<&'static str> {
    match kind {
        ErrorKind::NotFound => Some("no such file"),
        ErrorKind::NotADirectory => Some("no such file: a part of the path is not a folder"),
        ErrorKind::IsADirectory => Some("a folder, expected a file"),
        ErrorKind::PermissionDenied => Some("no permission to read it"),
        ErrorKind::InvalidFilename => Some("no such file: a name of the path is too long"),
        ErrorKind::FilesystemLoop => Some("no such file: its symbolic links form a cycle"),
        ErrorKind::StorageFull => Some("no space left"),
        ErrorKind::QuotaExceeded => Some("the quota is used up"),
        ErrorKind::FileTooLarge => Some("larger than a file may be"),
        ErrorKind::BrokenPipe => Some("its reader has ended"),
        ErrorKind::Uncategorized => Some("the system reports an error"),
        _ => None,
    }
}

/// Writes why a read or a write failed.
fn put_cause(note: &mut Note, cause: Cause) -> bool {
    match cause {
        Cause::Refused(kind) => match phrase_of(kind) {
            Some(phrase) => put(note, &[phrase]),
            None => write!(note, "{kind}").is_ok(),
        },
        Cause::NotOpen => put(note, &["not open"]),
        Cause::TooLong(limit) => put(note, &["longer than the limit of "])
            && put_number(note, limit)
            && put(note, &[" bytes"]),
        Cause::TooManyReads(limit) => put(note, &["more than "])
            && put_number(note, limit)
            && put(note, &[" reads"]),
    }
}

/// Writes the name of an input or an output.
fn put_channel(note: &mut Note, channel: Channel<'_>) -> bool {
    match channel {
        Channel::StandardInput => put(note, &["standard input"]),
        Channel::StandardOutput => put(note, &["standard output"]),
        Channel::File(path) => put_path(note, path),
    }
}

/// Explains a read or a write that failed: the path or the standard stream, and why.
pub fn explain_cause(channel: Channel<'_>, cause: Cause) -> Note
    ensures { length result.bytes ≤ NOTE_ROOM }
{
    let mut note = Note::new();
    let _ = put(&mut note, &["  "])
        && put_channel(&mut note, channel)
        && put(&mut note, &[": "])
        && put_cause(&mut note, cause)
        && put(&mut note, &["\n"]);
    prove!(note.len() <= NOTE_ROOM);
    note
}

/// Returns whether a path looks like a misspelt word for the built-in set.
fn is_near_built_in(path: &str) -> bool {
    path.starts_with('@') || path == "vectors"
}

/// Explains a read of a template file that failed, as [`explain_cause`] does. `built_in` is the word for the built-in set: it is suggested
/// for a path that looks like it and names no file.
pub fn explain_templates_cause(channel: Channel<'_>, cause: Cause, built_in: &str) -> Note
    ensures { length result.bytes ≤ NOTE_ROOM }
{
    let mut note = explain_cause(channel, cause);
    if let (Channel::File(path), Cause::Refused(ErrorKind::NotFound)) = (channel, cause) {
        if is_near_built_in(path) {
            let _ = put(&mut note, &["  the built-in set is ", built_in, "\n"]);
        }
    }
    prove!(note.len() <= NOTE_ROOM);
    note
}
