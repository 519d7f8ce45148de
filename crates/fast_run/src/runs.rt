//! A run that shows the chosen messages of a stream.

ghost use Rattle.std.specs.Prelude.{◌≡◌, ◌⊎◌, ℕ, ◌+◌, ◌<◌, ◌≤◌, ◌^◌, List, [], Bool, true, false, IsTrue, length, is_some};
ghost use Rattle.std.specs.Io.KnownBytes.{IsAtEnd};
ghost use Rattle.fast_value.specs.declared.settings.Limits.{Limits};
ghost use Rattle.fast_tree.specs.meaning.Tree.{Tree};
ghost use Rattle.fast_template.specs.meaning.Flat.{tree_of};
ghost use Rattle.fast_stream.specs.meaning.Events.{EventData};
ghost use Rattle.fast_decoder.specs.meaning.Decoding.{HasRead, account, answer, tree};
ghost use Rattle.fast_text.specs.meaning.Streams.{Reads};
ghost use Rattle.fast_select.specs.meaning.Choosing.{is_none_left};
ghost use Rattle.fast_command.specs.meaning.Showing.{IsRefusal};
ghost use Rattle.fast_command.specs.device.Progress.{HasRoom, IsTaken};
ghost use Rattle.fast_select.specs.meaning.Selecting.{Gives};
ghost use Rattle.fast_run.specs.meaning.Runs.{Puts, Shows, Ran};
ghost use Rattle.fast_run.specs.device.Progress.{Progress, Fed, ending_at, EndsAt};

use crate::digits::{bad_character, bad_end, bytes_of, unhexer_of};
use crate::outputs::Output;
use fast_command::show::refusal;
use fast_command::unhexer::Unhexer;
use fast_command::{RunFault, ShowEnd};
use fast_decoder::{Decoder, Fault, FaultCode};
use fast_select::Selected;
use fast_template::Templates;
use fast_text::Source;
use fast_value::Limits;
use std::alloc::Global;

/// The greatest number of bytes of one read.
const READ_SIZE: usize = 4096;

/// A run over a stream.
#[derive(Drop)]
struct Run<'t> {
    decoder: Decoder<'t>,
    unhexer: Option<Unhexer>,
}

/// Returns how a run ends at the fault of a feed: well, if the sink has stopped since it has passed on the last message that can be chosen.
fn ending_at(fault: Fault, is_full: bool) -> Result<ShowEnd, RunFault>
    ensures { result ≡ ending_at fault fault.code is_full }
{
    match fault.code {
        FaultCode::SinkStopped => {
            if is_full {
                Ok(ShowEnd::Good)
            } else {
                Err(RunFault::Write)
            }
        }
        FaultCode::Stream(_) | FaultCode::L4 => Ok(ShowEnd::Faulted(fault)),
    }
}

impl Run<'_> {
    /// Feeds a piece of the input to the decoder, which passes its events on.
    fn feed<O: Output>(&mut self, piece: &[u8], output: &mut Selected<'_, O>) -> Result<(), Fault>
        requires few { length piece.now ≤ READ_SIZE }
        requires room { HasRoom self.old.unhexer (length piece.now) }
        ensures fed { (text b : List ℕ) (es : List EventData) → HasRead self.old.decoder b es
            → IsTaken self.old.unhexer text b
            → Fed O.takes O.stops self.old text b es piece.now output.old result self.new output.new }
        ensures answer { result ≡ answer self.new.decoder.fault }
        ensures same_set { (tree self.new.decoder ≡ tree self.old.decoder)
            × (self.new.decoder.limits ≡ self.old.decoder.limits) }
        ensures hex { is_some self.new.unhexer ≡ is_some self.old.unhexer }
    {
        let mut room = [0; READ_SIZE];
        let bytes = bytes_of(&mut self.unhexer, piece, &mut room);
        self.decoder.feed(bytes, output)
    }

    /// Returns how the run ends at the end of the input.
    fn end(&self) -> Result<ShowEnd, RunFault>
        ensures { (t : Tree) (l : Limits) (hex : Bool) (text b : List ℕ) (es : List EventData)
            → Progress t l hex self.now text b es → EndsAt t l hex text b es result }
    {
        if let Some(place) = bad_end(&self.unhexer) {
            return Err(RunFault::BadHex(place));
        }
        if self.decoder.between() {
            return Ok(ShowEnd::Good);
        }
        Ok(ShowEnd::Truncated(self.decoder.consumed()))
    }

    /// Reads the input, up to its end or that of the run, and passes the events on. The output is flushed before each read.
    fn read<S: Source, O: Output>(
        &mut self,
        max_reads: u64,
        reader: &mut S,
        output: &mut Selected<'_, O>,
    ) -> Result<ShowEnd, RunFault>
        requires begun { Progress (tree self.old.decoder) self.old.decoder.limits (is_some self.old.unhexer) self.old [] [] [] }
        requires fresh { output.old.is_full ≡ is_none_left output.old.chooser.rest }
        requires few { max_reads ≤ 2 ^ 40 }
        ensures { (text : List ℕ) × Reads (S.left reader.old) (S.left reader.new) text
            × Ran (tree self.old.decoder) self.old.decoder.limits (is_some self.old.unhexer) output.old.chooser (λ _. ⊥)
            (IsAtEnd (S.left reader.new)) (IsTrue (S.has_failed reader.new) ⊎ (max_reads ≤ length text))
            (IsTrue (O.has_failed output.new.inner))
            (λ es. Gives O.takes O.flushes output.old.inner es output.new.inner) text result }
    {
        let mut buffer = [0; READ_SIZE];
        for _read in 0..max_reads {
            if output.is_full() {
                return Ok(ShowEnd::Good);
            }
            if output.inner.flush().is_err() {
                return Err(RunFault::Write);
            }
            let count = match reader.read(&mut buffer) {
                Ok(count) => count,
                Err(_) => return Err(RunFault::Read),
            };
            if count == 0 {
                return self.end();
            }
            match self.feed(&buffer[..count], output) {
                Ok(()) => {}
                Err(fault) => {
                    let full = output.is_full();
                    return ending_at(fault, full);
                }
            }
            if let Some(place) = bad_character(&self.unhexer) {
                return Err(RunFault::BadHex(place));
            }
        }
        Err(RunFault::Read)
    }
}

/// Writes what closes a stream after its events. Returns whether that was written.
fn put_end<O: Output>(ending: &Result<ShowEnd, RunFault>, output: &mut O) -> bool
    ensures put { result ≡ true → Puts O.puts_fault O.puts_cut ending.now output.old output.new }
    ensures fails { result ≡ false → IsTrue (O.has_failed output.new) }
{
    match ending {
        Ok(ShowEnd::Faulted(fault)) => match output.put_fault(*fault) {
            Ok(()) => true,
            Err(_) => false,
        },
        Ok(ShowEnd::Truncated(consumed)) => match output.put_cut(*consumed) {
            Ok(()) => true,
            Err(_) => false,
        },
        Ok(ShowEnd::Good) | Err(_) => true,
    }
}

/// Shows the chosen messages of a stream.
///
/// The events of these messages are passed on to the output, and nothing else. The run ends well at the end of the last message that can be
/// chosen, and reads no further. A fault before that, or an end inside a message, is shown after the events, also if it falls into a message
/// that is not shown. With `hex`, the input is pairs of hexadecimal digits, with blanks between them. After `max_reads` reads that returned
/// bytes, the run ends with `RunFault::Read`; one read returns at most 4,096 bytes. The output is flushed before each read and at the end.
/// If it fails, so does the run, with `RunFault::Write`.
pub fn show_over<S: Source, O: Output>(
    alloc: Global,
    templates: &Templates,
    limits: Limits,
    hex: bool,
    max_reads: u64,
    reader: &mut S,
    output: &mut Selected<'_, O>,
) -> Result<ShowEnd, RunFault>
    requires fresh { output.old.is_full ≡ is_none_left output.old.chooser.rest }
    requires few { max_reads ≤ 2 ^ 40 }
    ensures { (text : List ℕ) × Reads (S.left reader.old) (S.left reader.new) text
        × Ran (tree_of templates.now) limits hex output.old.chooser (IsRefusal templates.now limits)
        (IsAtEnd (S.left reader.new)) (IsTrue (S.has_failed reader.new) ⊎ (max_reads ≤ length text))
        (IsTrue (O.has_failed output.new.inner))
        (λ es. Shows O.takes O.flushes O.puts_fault O.puts_cut result output.old.inner es output.new.inner) text result }
{
    let decoder = match Decoder::new(alloc, templates, limits) {
        Ok(decoder) => decoder,
        Err(error) => return Err(refusal(error)),
    };
    let mut run = Run {
        decoder,
        unhexer: unhexer_of(hex),
    };
    let ending = run.read(max_reads, reader, output);
    if !put_end(&ending, &mut output.inner) {
        return Err(RunFault::Write);
    }
    match output.inner.flush() {
        Ok(()) => ending,
        Err(_) => Err(RunFault::Write),
    }
}
