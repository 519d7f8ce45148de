//! A sink that writes a row for each event: an offset, the bytes that led to it, and its line.

ghost use Rattle.std.specs.Prelude.{◌≡◌, ℕ, ◌+◌, ◌<◌, ◌^◌, List, [], ◌∷◌, Bool, Option, OnOk, OnErr, length};
ghost use Rattle.fast_tree.specs.meaning.Tree.{Tree};
ghost use Rattle.fast_template.specs.meaning.Flat.{tree_of};
ghost use Rattle.fast_stream.specs.meaning.Handed.{event_data};
ghost use Rattle.fast_lines.specs.meaning.Values.{HoldsBytes};
ghost use Rattle.fast_text.specs.meaning.Fronts.{set_of};
ghost use Rattle.fast_dump.specs.meaning.Kept.{kept, place};
ghost use Rattle.fast_command.specs.meaning.Closing.{fault_line, truncated_line};
ghost use Rattle.fast_dump.specs.meaning.Pages.{IsPage, IsTorn, Gains, Keeps, Shows, Closes, TakesRow, StopsInRow};

use crate::kept_bytes::KeptBytes;
use crate::tracks::Track;
use fast_command::closing::{write_fault, write_truncated};
use fast_decoder::{Due, Event, Fault, Sink, Stop};
use fast_rows::notes::word_of;
use fast_rows::{Note, Part, write_closing_columns, write_event, write_map, write_note};
use fast_template::Templates;
use fast_text::{Failed, Fronts, Target};

/// The rows that are written to a target, and the bytes that are in no row yet.
#[derive(Drop)]
pub struct Page<'a, T> {
    templates: &'a Templates,
    fronts: &'a Fronts<'a>,
    target: T,
    kept: KeptBytes,
    track: Track,
    /// True from the first byte of a presence map to its last.
    in_map: bool,
    /// True if the bytes that are kept are a complete presence map.
    has_map: bool,
}

impl<'a, T: Target> Page<'a, T> {
    /// Makes a page without rows.
    pub fn new(
        templates: &'a Templates,
        fronts: &'a Fronts<'a>,
        empty: KeptBytes,
        target: T,
    ) -> Page<'a, T>
        requires { (kept empty ≡ []) × (place empty ≡ 0) }
        ensures target { result.target ≡ target }
        ensures page { tree_of (set_of fronts.entry.now).now ≡ tree_of templates.entry.now
            → IsPage T.written T.has_failed (T.written target) (T.has_failed target)
            (tree_of templates.entry.now) result [] [] }
    {
        Page {
            templates,
            fronts,
            target,
            kept: empty,
            track: Track::new(),
            in_map: false,
            has_map: false,
        }
    }

    /// Flushes the target.
    pub fn flush(&mut self) -> Result<(), Failed>
        ensures { Keeps T.written T.has_failed self.old self.new result }
    {
        self.target.flush()
    }

    /// Returns the target.
    pub fn into_target(self) -> T
        ensures { result ≡ self.entry.target }
    {
        self.target
    }

    /// Writes the row of the part that is waited for if the buffer is full.
    fn make_room(&mut self, due: Due) -> Result<(), Failed>
        ensures room { OnOk result (self.new.kept.len < length self.new.kept.cells.items) }
        ensures rows { Keeps T.written T.has_failed self.old self.new result }
    {
        if self.kept.has_room() {
            return Ok(());
        }
        self.wait(due)
    }

    /// Keeps the next byte of the stream, before a decoder reads it that is between two messages, or waits for a part. Fails if the target
    /// does, or if the offsets are at an end.
    pub fn keep(&mut self, byte: u8, between: bool, due: Due) -> Result<(), Failed>
        ensures gains { OnOk result (Gains T.written T.has_failed self.old (byte ∷ []) self.new result) }
        ensures torn { (held : Option (List ℕ)) (had_failed : Bool) (t : Tree) (b ls : List ℕ)
            → IsPage T.written T.has_failed held had_failed t self.old b ls → length b + 1 < 2 ^ 64
            → OnErr result (IsTorn T.written T.has_failed held had_failed t self.new b ls) }
    {
        self.make_room(due)?;
        if self.kept.end() == u64::MAX {
            return Err(Failed);
        }
        self.in_map = self.in_map || between || due == Due::SegmentMap;
        self.has_map = self.in_map && byte >= 0x80;
        self.kept.push(byte);
        Ok(())
    }

    /// Returns the part that a decoder waits for.
    fn part(&self, due: Due) -> Part {
        match due {
            Due::SegmentMap => Part::Map,
            Due::Instruction(node) => Part::Instruction(word_of(self.templates, node), node),
            Due::Nothing if self.in_map => Part::Map,
            Due::Nothing if self.track.is_in_message() => Part::End,
            Due::Nothing => Part::TemplateId,
        }
    }

    /// Writes the rows of a note, with the bytes that are kept.
    fn note(&mut self, note: Note) -> Result<(), Failed>
        ensures empty { OnOk result (self.new.kept.len ≡ 0) }
        ensures rows { Keeps T.written T.has_failed self.old self.new result }
    {
        write_note(
            &mut self.target,
            self.templates,
            self.kept.place(),
            self.kept.bytes(),
            note,
        )?;
        self.kept.clear();
        Ok(())
    }

    /// Writes the row of an instruction that is absent.
    fn absent(&mut self, node: u32) -> Result<(), Failed>
        ensures { Keeps T.written T.has_failed self.old self.new result }
    {
        self.note(Note::Absent(word_of(self.templates, node), node))
    }

    /// Writes the rows of a presence map, if the bytes that are kept are one.
    fn map(&mut self) -> Result<(), Failed>
        ensures { Keeps T.written T.has_failed self.old self.new result }
    {
        if !self.has_map {
            return Ok(());
        }
        self.has_map = false;
        self.in_map = false;
        write_map(
            &mut self.target,
            self.templates,
            self.kept.place(),
            self.kept.bytes(),
        )?;
        self.kept.clear();
        Ok(())
    }

    /// Writes the rows of a presence map, and of the instructions before the one that is due, which are absent.
    pub fn settle(&mut self, due: Due) -> Result<(), Failed>
        ensures { Keeps T.written T.has_failed self.old self.new result }
    {
        self.map()?;
        self.skip(due)
    }

    /// Writes the rows of the instructions before the one that is due, which are absent.
    fn skip(&mut self, due: Due) -> Result<(), Failed>
        ensures { Keeps T.written T.has_failed self.old self.new result }
    {
        match due {
            Due::Instruction(node) => {
                let count = self.track.skipped(self.templates, node);
                self.pass(count)
            }
            Due::Nothing | Due::SegmentMap => Ok(()),
        }
    }

    /// Writes the row of the next instruction, which is absent, if there is one.
    fn pass_one(&mut self) -> Result<(), Failed>
        ensures { Keeps T.written T.has_failed self.old self.new result }
    {
        let next = self.track.next(self.templates);
        self.track.pass();
        match next {
            Some(node) => self.absent(node),
            None => Ok(()),
        }
    }

    /// Writes the rows of the next instructions, which are absent.
    fn pass(&mut self, count: usize) -> Result<(), Failed>
        ensures { Keeps T.written T.has_failed self.old self.new result }
    {
        for _ in 0..count {
            self.pass_one()?;
        }
        Ok(())
    }

    /// Writes the rows before that of an event.
    fn lead(&mut self, event: Event<'_>) -> Result<(), Failed>
        ensures { Keeps T.written T.has_failed self.old self.new result }
    {
        self.map()?;
        let count = self.track.absent_before(self.templates, event);
        self.pass(count)
    }

    /// Writes the row of an event.
    fn row(&mut self, event: Event<'_>) -> Result<(), Failed>
        ensures row { Shows T.written T.has_failed self.old (event_data event.entry) self.new result }
        ensures holds { OnOk result (HoldsBytes (event_data event.entry)) }
    {
        write_event(
            &mut self.target,
            self.fronts,
            self.kept.place(),
            self.kept.bytes(),
            event,
        )?;
        self.kept.clear();
        Ok(())
    }

    /// Writes the rows before that of an event, and its row.
    fn show(&mut self, event: Event<'_>) -> Result<(), Failed>
        ensures row { Shows T.written T.has_failed self.old (event_data event.entry) self.new result }
        ensures holds { OnOk result (HoldsBytes (event_data event.entry)) }
    {
        self.lead(event)?;
        self.row(event)?;
        self.track.follow(event);
        Ok(())
    }

    /// Writes the row of the part that is waited for, with the bytes that are kept.
    fn wait(&mut self, due: Due) -> Result<(), Failed>
        ensures empty { OnOk result (self.new.kept.len ≡ 0) }
        ensures rows { Keeps T.written T.has_failed self.old self.new result }
    {
        let part = self.part(due);
        self.note(Note::Waiting(part))
    }

    /// Writes the row of the part that is waited for, unless the stream is between two messages and no bytes are kept.
    pub fn leave(&mut self, between: bool, due: Due) -> Result<(), Failed>
        ensures empty { OnOk result (kept self.new.kept ≡ []) }
        ensures rows { Keeps T.written T.has_failed self.old self.new result }
    {
        if between && self.kept.bytes().is_empty() {
            return Ok(());
        }
        self.wait(due)
    }

    /// Returns what was waited for: before the last byte if it is kept, now if it is in a row.
    fn waited(&self, before: Due, due: Due) -> Due {
        if self.kept.bytes().is_empty() {
            due
        } else {
            before
        }
    }

    /// Writes the rows of the bytes that are left at a fault. `before` was waited for before the last byte, `due` is now.
    fn rest(&mut self, before: Due, due: Due) -> Result<(), Failed>
        ensures empty { OnOk result (kept self.new.kept ≡ []) }
        ensures rows { Keeps T.written T.has_failed self.old self.new result }
    {
        self.map()?;
        let waited = self.waited(before, due);
        self.wait(waited)
    }

    /// Writes the rows of the bytes that are left at a fault, and its line. `before` was waited for before the last byte, `due` is now.
    pub fn fault(&mut self, fault: Fault, before: Due, due: Due) -> Result<(), Failed>
        ensures { Closes T.written T.has_failed self.old (fault_line fault.code fault.place) self.new result }
    {
        self.rest(before, due)?;
        write_closing_columns(&mut self.target, self.kept.place())?;
        write_fault(fault, &mut self.target)
    }

    /// Writes the row of the part that is waited for, and the line of a stream that is truncated.
    pub fn truncated(&mut self, consumed: u64, due: Due) -> Result<(), Failed>
        ensures { Closes T.written T.has_failed self.old (truncated_line consumed) self.new result }
    {
        self.wait(due)?;
        write_closing_columns(&mut self.target, self.kept.place())?;
        write_truncated(consumed, &mut self.target)
    }
}

impl<T: Target> Sink for Page<'_, T> {
    ghost takes = { TakesRow T.written T.has_failed };

    ghost stops = { StopsInRow T.written T.has_failed };

    fn take(&mut self, event: Event<'_>) -> Result<(), Stop> {
        match self.show(event) {
            Ok(()) => Ok(()),
            Err(_) => Err(Stop),
        }
    }
}
