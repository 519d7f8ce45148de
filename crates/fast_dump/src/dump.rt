//! The command `show --bytes`.

ghost use Rattle.std.specs.Prelude.{◌≡◌, ◌⊎◌, ℕ, ◌+◌, ◌<◌, ◌≤◌, ◌^◌, List, [], ◌∷◌, ◌++◌, Result, Ok, IfErr, IsTrue, OnOk, OnErr, length, is_some};
ghost use Rattle.std.specs.Io.KnownBytes.{IsAtEnd};
ghost use Rattle.fast_value.specs.declared.settings.Limits.{Limits};
ghost use Rattle.fast_tree.specs.meaning.Tree.{Tree};
ghost use Rattle.fast_template.specs.meaning.Flat.{tree_of};
ghost use Rattle.fast_stream.specs.meaning.Events.{EventData};
ghost use Rattle.fast_decoder.specs.meaning.Decoding.{tree};
ghost use Rattle.fast_text.specs.declared.streams.Failed.{Failed};
ghost use Rattle.fast_text.specs.meaning.Streams.{Reads};
ghost use Rattle.fast_rows.specs.meaning.Written.{AreWritten};
ghost use Rattle.fast_command.specs.meaning.Showing.{StandsFor, IsRefusal};
ghost use Rattle.fast_command.specs.device.Progress.{HasRoom, IsTaken};
ghost use Rattle.fast_dump.specs.meaning.Dumping.{IsDumped};
ghost use Rattle.fast_dump.specs.device.Progress.{Start, Progress, Rows, Goes, IsStopped, IsFinished, ClosesAt, start_at};

use crate::kept_bytes::KeptBytes;
use crate::page::Page;
use fast_command::show::refusal;
use fast_command::unhexer::Unhexer;
use fast_command::{RunFault, ShowEnd};
use fast_decoder::{Decoder, Due, Fault, FaultCode};
use fast_run::digits::{bad_character, bad_end, bytes_of, unhexer_of};
use fast_template::Templates;
use fast_text::{Failed, Fronts, Source, Target};
use fast_value::Limits;
use std::alloc::Global;

/// The greatest number of bytes of one read.
const READ_SIZE: usize = 4096;

/// The room for the bytes of an instruction besides those of its string.
const MORE_ROOM: usize = 64;

/// A run that shows a stream with its bytes.
#[derive(Drop)]
struct Dump<'a, T> {
    decoder: Decoder<'a>,
    page: Page<'a, T>,
}

impl<T: Target> Dump<'_, T> {
    /// Reads a byte of the stream, and writes the rows that it completes. Returns how the run ends, if it ends here.
    fn push(&mut self, byte: u8) -> Option<Result<ShowEnd, RunFault>>
        ensures { (first : Start) (t : Tree) (l : Limits) (b : List ℕ) (es : List EventData)
            → Progress T.written T.has_failed first t l self.old b es → length b + 1 < 2 ^ 64
            → Goes T.written T.has_failed first t l (b ++ byte ∷ []) es self.new result }
    {
        let before = self.decoder.in_hand();
        let between = self.decoder.between();
        match self.page.keep(byte, between, before) {
            Ok(()) => {}
            Err(_) => return Some(Err(RunFault::Write)),
        }
        let fed = self.decoder.push(byte, &mut self.page);
        let due = self.decoder.in_hand();
        match fed {
            Ok(()) => match self.page.settle(due) {
                Ok(()) => None,
                Err(_) => Some(Err(RunFault::Write)),
            },
            Err(fault) => Some(self.close(fault, before, due)),
        }
    }

    /// Writes the rows of a fault, unless it is that of the target. Returns how the run ends.
    fn close(&mut self, fault: Fault, before: Due, due: Due) -> Result<ShowEnd, RunFault>
        ensures closes { ClosesAt T.written T.has_failed fault fault.code self.old.page self.new.page result }
        ensures decoder { self.new.decoder ≡ self.old.decoder }
    {
        match fault.code {
            FaultCode::SinkStopped => Err(RunFault::Write),
            FaultCode::Stream(_) | FaultCode::L4 => match self.page.fault(fault, before, due) {
                Ok(()) => Ok(ShowEnd::Faulted(fault)),
                Err(_) => Err(RunFault::Write),
            },
        }
    }

    /// Reads bytes of the stream. Returns how the run ends, if it ends here.
    fn take(&mut self, bytes: &[u8]) -> Option<Result<ShowEnd, RunFault>>
        ensures { (first : Start) (t : Tree) (l : Limits) (b : List ℕ) (es : List EventData)
            → Progress T.written T.has_failed first t l self.old b es → length b + length bytes.now < 2 ^ 64
            → Goes T.written T.has_failed first t l (b ++ bytes.now) es self.new result }
    {
        for k in 0..bytes.len() {
            if let Some(ending) = self.push(bytes[k]) {
                return Some(ending);
            }
        }
        None
    }

    /// Writes the rows of the bytes that are left, and returns an ending of the run, or that the target has failed.
    fn stop(&mut self, ending: Result<ShowEnd, RunFault>) -> Result<ShowEnd, RunFault>
        ensures { (first : Start) (t : Tree) (l : Limits) (b : List ℕ) (es : List EventData)
            → Progress T.written T.has_failed first t l self.old b es
            → IsStopped T.written T.has_failed first t b es self.new.page ending result }
    {
        let between = self.decoder.between();
        let due = self.decoder.in_hand();
        match self.page.leave(between, due) {
            Ok(()) => ending,
            Err(_) => Err(RunFault::Write),
        }
    }

    /// Returns how the run ends at the end of the input.
    fn end(&mut self, unhexer: &Option<Unhexer>) -> Result<ShowEnd, RunFault>
        ensures { (first : Start) (t : Tree) (l : Limits) (text b : List ℕ) (es : List EventData)
            → Progress T.written T.has_failed first t l self.old b es → IsTaken unhexer.now text b
            → IsDumped t l (is_some unhexer.now) (λ _. ⊥) ⊥ (Unit {0}) ⊥
            (Rows T.written T.has_failed first t self.new.page.target) text result }
    {
        if let Some(place) = bad_end(unhexer) {
            return self.stop(Err(RunFault::BadHex(place)));
        }
        if self.decoder.between() {
            return self.stop(Ok(ShowEnd::Good));
        }
        let consumed = self.decoder.consumed();
        let due = self.decoder.in_hand();
        match self.page.truncated(consumed, due) {
            Ok(()) => Ok(ShowEnd::Truncated(consumed)),
            Err(_) => Err(RunFault::Write),
        }
    }

    /// Reads and shows, up to the end of the input or of the run. The target is flushed before each read.
    fn read<S: Source>(
        &mut self,
        unhexer: &mut Option<Unhexer>,
        max_reads: u64,
        reader: &mut S,
    ) -> Result<ShowEnd, RunFault>
        requires begun { Progress T.written T.has_failed
            (start_at T.written T.has_failed self.old.page.target) (tree self.old.decoder) self.old.decoder.limits
            self.old [] [] }
        requires taken { IsTaken unhexer.old [] [] }
        requires few { max_reads ≤ 2 ^ 40 }
        ensures { (text : List ℕ) × Reads (S.left reader.old) (S.left reader.new) text
            × IsDumped (tree self.old.decoder) self.old.decoder.limits (is_some unhexer.old) (λ _. ⊥) ⊥
            (IsAtEnd (S.left reader.new)) (IsTrue (S.has_failed reader.new) ⊎ (max_reads ≤ length text))
            (Rows T.written T.has_failed (start_at T.written T.has_failed self.old.page.target) (tree self.old.decoder)
            self.new.page.target) text result }
    {
        let mut buffer = [0; READ_SIZE];
        for _read in 0..max_reads {
            match self.page.flush() {
                Ok(()) => {}
                Err(_) => return Err(RunFault::Write),
            }
            let count = match reader.read(&mut buffer) {
                Ok(count) => count,
                Err(_) => return self.stop(Err(RunFault::Read)),
            };
            if count == 0 {
                return self.end(&*unhexer);
            }
            let mut room = [0; READ_SIZE];
            let bytes = bytes_of(unhexer, &buffer[..count], &mut room);
            if let Some(ending) = self.take(bytes) {
                return ending;
            }
            if let Some(place) = bad_character(&*unhexer) {
                return self.stop(Err(RunFault::BadHex(place)));
            }
        }
        self.stop(Err(RunFault::Read))
    }
}

/// Flushes the writer after a run, which has failed if that fails.
fn finish<T: Target>(ending: Result<ShowEnd, RunFault>, writer: &mut T) -> Result<ShowEnd, RunFault>
    ensures { IsFinished (T.written writer.old) (T.written writer.new) (T.has_failed writer.old)
        (T.has_failed writer.new) ending result }
{
    match writer.flush() {
        Ok(()) => ending,
        Err(_) => Err(RunFault::Write),
    }
}

/// Shows a stream as `show_all` of fast_command does, each line after the offset and the bytes that led to it, and flushes the writer at
/// the end. Returns how the run ends, and the writer.
///
/// The rows have the bytes that were read, each once and in their order, up to a fault of the stream; their lines are those of `show_all`.
/// If the writer fails, it has a front of these rows.
pub fn dump_all<S: Source, T: Target>(
    alloc: Global,
    templates: &Templates,
    limits: Limits,
    hex: bool,
    max_reads: u64,
    reader: &mut S,
    writer: T,
) -> (Result<ShowEnd, RunFault>, T)
    requires { max_reads ≤ 2 ^ 40 }
    ensures { (text : List ℕ) × Reads (S.left reader.old) (S.left reader.new) text
        × IsDumped (tree_of templates.now) limits hex (IsRefusal templates.now limits) (Unit {0})
        (IsAtEnd (S.left reader.new)) (IsTrue (S.has_failed reader.new) ⊎ (max_reads ≤ length text))
        (λ b ls r. AreWritten (tree_of templates.now) 0 b ls (T.written writer) (T.written result.1)
        (T.has_failed writer) (T.has_failed result.1) r) text result.0 }
{
    let decoder = match Decoder::new(alloc, templates, limits) {
        Ok(decoder) => decoder,
        Err(error) => return (Err(refusal(error)), writer),
    };
    let Ok(fronts) = Fronts::new(alloc, templates) else {
        return (Err(RunFault::Memory), writer);
    };
    let Ok(kept) = KeptBytes::new(alloc, limits.max_text.saturating_add(MORE_ROOM)) else {
        return (Err(RunFault::Memory), writer);
    };
    let mut unhexer = unhexer_of(hex);
    let page = Page::new(templates, &fronts, kept, writer);
    let mut dump = Dump { decoder, page };
    let ending = dump.read(&mut unhexer, max_reads, reader);
    let Dump { page, .. } = dump;
    let mut writer = page.into_target();
    let ending = finish(ending, &mut writer);
    (ending, writer)
}
