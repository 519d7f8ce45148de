//! The command `show`: prints a stream as lines.

ghost use Rattle.std.specs.Prelude.{◌≡◌, ◌⊎◌, ℕ, ◌+◌, ◌<◌, ◌≤◌, ◌^◌, List, [], ◌++◌, Bool, true, false, IsTrue, Err, OnOk, IfErr, length, is_some, IfOk, IfSome, IfNone, All, MatchOption};
ghost use Rattle.fast_tree.specs.meaning.Tree.{Tree};
ghost use Rattle.fast_template.specs.meaning.Flat.{tree_of};
ghost use Rattle.fast_value.specs.declared.settings.Limits.{Limits};
ghost use Rattle.fast_stream.specs.meaning.Events.{EventData};
ghost use Rattle.fast_decoder.specs.meaning.Decoding.{HasRead, account, tree, answer, AreBadLimits};
ghost use Rattle.std.specs.Io.KnownBytes.{IsAtEnd};
ghost use Rattle.fast_text.specs.meaning.Fronts.{set_of};
ghost use Rattle.fast_text.specs.meaning.Streams.{Reads, Appends};
ghost use Rattle.fast_lines.specs.meaning.Hex.{IsHexOrBlank};
ghost use Rattle.fast_command.specs.meaning.Showing.{IsShown, IsRefusal, StandsFor, refusal_of, has_begun};
ghost use Rattle.fast_command.specs.device.Progress.{HasRoom, IsTaken, Progress, GoesOn, Ended, IsFed, IsBadPlace, IsClosedAt, changed};

use crate::closing::{write_fault, write_truncated};
use crate::faults::{RunFault, ShowEnd};
use crate::unhexer::Unhexer;
use fast_decoder::{Decoder, Fault, FaultCode, MakeError};
use fast_template::Templates;
use fast_text::{Fronts, LineSink, Source, Target};
use fast_value::Limits;
use std::alloc::{AllocError, Global};

/// The greatest number of bytes of one read.
const READ_SIZE: usize = 4096;

/// A run that shows a stream.
#[derive(Drop)]
struct Show<'a> {
    fronts: Fronts<'a>,
    decoder: Decoder<'a>,
    unhexer: Option<Unhexer>,
}

/// Returns the converter of a hexadecimal input, or `None` for a binary one.
fn unhexer_of(hex: bool) -> Option<Unhexer>
    ensures there { is_some result ≡ hex }
    ensures taken { IsTaken result [] [] }
{
    if hex { Some(Unhexer::new()) } else { None }
}

/// Returns the bytes of a piece of the input: those of its digits, or the piece itself if the input is not hexadecimal.
fn bytes_of<'b>(unhexer: &mut Option<Unhexer>, piece: &'b [u8], room: &'b mut [u8]) -> &'b [u8]
    requires counted { HasRoom unhexer.old (length piece.now) }
    requires room { length piece.now ≤ length room.old }
    ensures taken { (text b : List ℕ) → IsTaken unhexer.old text b
        → IsTaken unhexer.new (text ++ piece.now) (b ++ result.now) }
    ensures same { is_some unhexer.new ≡ is_some unhexer.old }
    ensures few { length result.now ≤ length piece.now }
{
    match unhexer {
        None => piece,
        Some(unhexer) => {
            let count = unhexer.take(piece, room);
            &room[..count]
        }
    }
}

/// Returns the offset of the first invalid character of a hexadecimal input, if there was one.
fn bad_character(unhexer: &Option<Unhexer>) -> Option<u64>
    ensures found { IfSome result (IsBadPlace unhexer.now) }
    ensures none { IfNone result
        ((text b : List ℕ) → IsTrue (is_some unhexer.now) → IsTaken unhexer.now text b → All IsHexOrBlank text) }
{
    match unhexer {
        None => None,
        Some(unhexer) => unhexer.bad_character(),
    }
}

/// Returns the first invalid offset of a hexadecimal input that ends here, if there is one.
fn bad_end(unhexer: &Option<Unhexer>) -> Option<u64>
    ensures { (text b : List ℕ) → IsTaken unhexer.now text b → StandsFor (is_some unhexer.now) text b result }
{
    match unhexer {
        None => None,
        Some(unhexer) => unhexer.bad_end(),
    }
}

/// Feeds bytes to the decoder, and writes the lines of their events.
fn feed<T: Target>(
    decoder: &mut Decoder<'_>,
    fronts: &Fronts<'_>,
    bytes: &[u8],
    writer: &mut T,
) -> Result<(), Fault>
    requires { (account decoder.old).consumed + length bytes.now < 2 ^ 64 }
    ensures fed { (b : List ℕ) (es : List EventData) → tree decoder.old ≡ tree_of (set_of fronts.now).now
        → HasRead decoder.old b es
        → IsFed (tree_of (set_of fronts.now).now) decoder.old.limits b es bytes.now decoder.new
        (changed T.written T.has_failed writer.old writer.new) result }
    ensures answer { result ≡ answer decoder.new.fault }
    ensures same_set { (tree decoder.new ≡ tree decoder.old) × (decoder.new.limits ≡ decoder.old.limits) }
{
    let mut sink = LineSink::with_fronts(fronts, writer);
    decoder.feed(bytes, &mut sink)
}

/// Writes the line of the fault at which a feed has stopped.
fn close<T: Target>(fault: Fault, writer: &mut T) -> Result<ShowEnd, RunFault>
    ensures { IsClosedAt fault fault.code
        (changed T.written T.has_failed writer.old writer.new) result }
{
    match fault.code {
        FaultCode::SinkStopped => Err(RunFault::Write),
        FaultCode::Stream(_) | FaultCode::L4 => match write_fault(fault, writer) {
            Ok(()) => Ok(ShowEnd::Faulted(fault)),
            Err(_) => Err(RunFault::Write),
        },
    }
}

/// Returns the error of a run for which no decoder or encoder is made.
pub fn refusal(error: MakeError) -> RunFault
    ensures { result ≡ refusal_of error }
{
    match error {
        MakeError::Memory => RunFault::Memory,
        MakeError::BadLimits | MakeError::InitialTooLong => RunFault::Make(error),
    }
}

impl<'a> Show<'a> {
    /// Makes a run that has read nothing.
    fn new(
        alloc: Global,
        templates: &'a Templates,
        limits: Limits,
        hex: bool,
    ) -> Result<Show<'a>, MakeError>
        ensures made { IfOk result (λ s. Progress (tree_of templates.entry.now) limits hex s [] [] []) }
        ensures refused { IfErr result (λ e. e ≡ MakeError.Memory ⊎ IsRefusal templates.entry.now limits e) }
        ensures bad_limits { AreBadLimits limits → result ≡ Err MakeError.BadLimits }
        ensures long_initial { IsRefusal templates.entry.now limits MakeError.InitialTooLong
            → result ≡ Err MakeError.InitialTooLong }
    {
        match Decoder::new(alloc, templates, limits) {
            Ok(decoder) => Show::of(decoder, Fronts::new(alloc, templates), unhexer_of(hex)),
            Err(error) => Err(error),
        }
    }

    /// Makes a run that has read nothing, with a new decoder and the prefixes of its lines, if these were made.
    fn of(
        decoder: Decoder<'a>,
        fronts: Result<Fronts<'a>, AllocError>,
        unhexer: Option<Unhexer>,
    ) -> Result<Show<'a>, MakeError>
        requires new { HasRead decoder [] [] }
        requires taken { IsTaken unhexer [] [] }
        requires set { IfOk fronts (λ f. tree_of (set_of f).now ≡ tree decoder) }
        ensures made { IfOk result (λ s. Progress (tree decoder.entry) decoder.entry.limits (is_some unhexer) s [] [] []) }
        ensures refused { IfErr result (λ e. e ≡ MakeError.Memory) }
    {
        match fronts {
            Ok(fronts) => Ok(Show {
                fronts,
                decoder,
                unhexer,
            }),
            Err(_) => Err(MakeError::Memory),
        }
    }

    /// Reads a piece of the input, and writes the lines of its events. Returns how the run ends, if it ends here.
    fn take<T: Target>(&mut self, piece: &[u8], writer: &mut T) -> Option<Result<ShowEnd, RunFault>>
        requires few { length piece.now ≤ READ_SIZE }
        requires counted { (account self.old.decoder).consumed + length piece.now < 2 ^ 64 }
        requires room { HasRoom self.old.unhexer (length piece.now) }
        ensures { (t : Tree) (l : Limits) (hex : Bool) (text b : List ℕ) (es : List EventData)
            → Progress t l hex self.old text b es →
            (let w = changed T.written T.has_failed writer.old writer.new in
            MatchOption result (GoesOn t l hex self.new (text ++ piece.now) es w)
            (Ended t l hex ⊥ (text ++ piece.now) es w)) }
    {
        let mut room = [0; READ_SIZE];
        let bytes = bytes_of(&mut self.unhexer, piece, &mut room);
        let fed = feed(&mut self.decoder, &self.fronts, bytes, writer);
        self.behind(fed, writer)
    }

    /// Returns how the run ends after a feed, if it ends here.
    fn behind<T: Target>(
        &self,
        fed: Result<(), Fault>,
        writer: &mut T,
    ) -> Option<Result<ShowEnd, RunFault>>
        ensures unchanged { OnOk fed (writer.new ≡ writer.old) }
        ensures read { OnOk fed (MatchOption result (Unit {0})
            (λ r. (place : ℕ) × (r ≡ Err (RunFault.BadHex place)) × IsBadPlace self.now.unhexer place)) }
        ensures closed { IfErr fed (λ fault. MatchOption result ⊥
            (IsClosedAt fault fault.code (changed T.written T.has_failed writer.old writer.new))) }
    {
        match fed {
            Ok(()) => match bad_character(&self.unhexer) {
                None => None,
                Some(place) => Some(Err(RunFault::BadHex(place))),
            },
            Err(fault) => Some(close(fault, writer)),
        }
    }

    /// Returns how the run ends at the end of the input.
    fn end<T: Target>(&self, writer: &mut T) -> Result<ShowEnd, RunFault>
        ensures { (t : Tree) (l : Limits) (hex : Bool) (text b : List ℕ) (es : List EventData)
            → Progress t l hex self.now text b es →
            Ended t l hex (Unit {0}) text es (changed T.written T.has_failed writer.old writer.new) result }
    {
        if let Some(place) = bad_end(&self.unhexer) {
            return Err(RunFault::BadHex(place));
        }
        let Some(consumed) = self.cut_at() else {
            return Ok(ShowEnd::Good);
        };
        match write_truncated(consumed, writer) {
            Ok(()) => Ok(ShowEnd::Truncated(consumed)),
            Err(_) => Err(RunFault::Write),
        }
    }

    /// Returns the number of bytes after which the stream ends inside a message, if it does.
    fn cut_at(&self) -> Option<u64>
        ensures whole { IfNone result ((account self.now.decoder).is_between ≡ true) }
        ensures cut { IfSome result
            (λ n. ((account self.now.decoder).is_between ≡ false) × (n ≡ (account self.now.decoder).consumed)) }
    {
        if self.decoder.between() {
            return None;
        }
        Some(self.decoder.consumed())
    }
}

/// Shows a stream: writes a line for each event, and a line for a fault or for an end inside a message.
///
/// With `hex`, the input is pairs of hexadecimal digits, with blanks between them. After `max_reads` reads that returned bytes, the run
/// ends with `RunFault::Read`; one read returns at most 4,096 bytes. The writer is flushed before each read, which may block, so that all
/// lines are visible by then. The caller flushes the writer at the end.
pub fn run_show<S: Source, T: Target>(
    alloc: Global,
    templates: &Templates,
    limits: Limits,
    hex: bool,
    max_reads: u64,
    reader: &mut S,
    writer: &mut T,
) -> Result<ShowEnd, RunFault>
    requires { max_reads ≤ 2 ^ 40 }
    ensures shown { (text out : List ℕ) × Reads (S.left reader.old) (S.left reader.new) text
        × Appends (T.written writer.old) (T.written writer.new) out
        × IsShown (tree_of templates.now) limits hex (IsRefusal templates.now limits) (IsAtEnd (S.left reader.new))
        (IsTrue (S.has_failed reader.new) ⊎ (max_reads ≤ length text)) (IsTrue (T.has_failed writer.new)) text out
        result }
    // A writer or a reader that fails is reported.
    ensures writer_told { (result ≡ Err RunFault.Write) ⊎ (T.has_failed writer.new ≡ T.has_failed writer.old) }
    ensures reader_told { (result ≡ Err RunFault.Read) ⊎ (S.has_failed reader.new ≡ S.has_failed reader.old) }
    ensures bad_limits { AreBadLimits limits → result ≡ Err (RunFault.Make MakeError.BadLimits) }
    ensures long_initial { IsRefusal templates.now limits MakeError.InitialTooLong
        → result ≡ Err (RunFault.Make MakeError.InitialTooLong) }
{
    match Show::new(alloc, templates, limits, hex) {
        Ok(mut show) => show_reads(&mut show, templates, limits, hex, max_reads, reader, writer),
        Err(error) => Err(refusal(error)),
    }
}

/// Reads and shows, up to the end of the input or of the run. Set, limits and `hex` are parameters only for the contract.
fn show_reads<S: Source, T: Target>(
    show: &mut Show<'_>,
    templates: &Templates,
    limits: Limits,
    hex: bool,
    max_reads: u64,
    reader: &mut S,
    writer: &mut T,
) -> Result<ShowEnd, RunFault>
    requires made { Progress (tree_of templates.now) limits hex show.old [] [] [] }
    requires few { max_reads ≤ 2 ^ 40 }
    ensures shown { (text out : List ℕ) × Reads (S.left reader.old) (S.left reader.new) text
        × Appends (T.written writer.old) (T.written writer.new) out
        × IsShown (tree_of templates.now) limits hex (IsRefusal templates.now limits) (IsAtEnd (S.left reader.new))
        (IsTrue (S.has_failed reader.new) ⊎ (max_reads ≤ length text)) (IsTrue (T.has_failed writer.new)) text out
        result }
    ensures writer_told { (result ≡ Err RunFault.Write) ⊎ (T.has_failed writer.new ≡ T.has_failed writer.old) }
    ensures reader_told { (result ≡ Err RunFault.Read) ⊎ (S.has_failed reader.new ≡ S.has_failed reader.old) }
{
    let _ = templates;
    let _ = limits;
    let _ = hex;
    let mut buffer = [0; READ_SIZE];
    for _read in 0..max_reads {
        if writer.flush().is_err() {
            return Err(RunFault::Write);
        }
        let count = match reader.read(&mut buffer) {
            Ok(count) => count,
            Err(_) => return Err(RunFault::Read),
        };
        if count == 0 {
            return show.end(writer);
        }
        if let Some(result) = show.take(&buffer[..count], writer) {
            return result;
        }
    }
    Err(RunFault::Read)
}

/// Returns whether a run that ended in this way had a decoder.
fn has_begun(ending: &Result<ShowEnd, RunFault>) -> bool
    ensures { result ≡ has_begun ending.now }
{
    !matches!(ending, Err(RunFault::Make(_) | RunFault::Memory))
}

/// Shows a stream, as [`run_show`] does, and flushes the writer at the end: after a good result, all lines are written. If the flush fails,
/// so does the run, unless nothing was shown since there is no decoder.
pub fn show_all<S: Source, T: Target>(
    alloc: Global,
    templates: &Templates,
    limits: Limits,
    hex: bool,
    max_reads: u64,
    reader: &mut S,
    writer: &mut T,
) -> Result<ShowEnd, RunFault>
    requires { max_reads ≤ 2 ^ 40 }
    ensures shown { (text out : List ℕ) × Reads (S.left reader.old) (S.left reader.new) text
        × Appends (T.written writer.old) (T.written writer.new) out
        × IsShown (tree_of templates.now) limits hex (IsRefusal templates.now limits) (IsAtEnd (S.left reader.new))
        (IsTrue (S.has_failed reader.new) ⊎ (max_reads ≤ length text)) (IsTrue (T.has_failed writer.new)) text out
        result }
    ensures writer_told { (result ≡ Err RunFault.Write) ⊎ (T.has_failed writer.new ≡ T.has_failed writer.old) }
    ensures bad_limits { AreBadLimits limits → result ≡ Err (RunFault.Make MakeError.BadLimits) }
    ensures long_initial { IsRefusal templates.now limits MakeError.InitialTooLong
        → result ≡ Err (RunFault.Make MakeError.InitialTooLong) }
{
    let ending = run_show(alloc, templates, limits, hex, max_reads, reader, writer);
    if !has_begun(&ending) {
        return ending;
    }
    match writer.flush() {
        Ok(()) => ending,
        Err(_) => Err(RunFault::Write),
    }
}
