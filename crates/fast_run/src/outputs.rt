//! Where a run writes what it shows.

ghost use Rattle.std.specs.Prelude.{◌≡◌, ℕ, Bool, IsTrue, OnOk, OnErr};
ghost use Rattle.fast_stream.specs.declared.faults.Fault.{Fault};
ghost use Rattle.fast_stream.specs.meaning.Events.{EventData};

use fast_command::closing::{write_fault, write_truncated};
use fast_stream::{Event, Fault, Sink, Stop};
use fast_text::{Failed, Fronts, LineSink, Target};

/// A sink that writes events, and after them what closes a stream. It stops only if it has failed.
pub trait Output: Sink {
    // Relates the old output and the new one, after a call that has not failed.
    ghost flushes: { Self → Self → Type 0 };

    ghost puts_fault: { Self → Fault → Self → Type 0 };

    ghost puts_cut: { Self → ℕ → Self → Type 0 };

    ghost has_failed: { Self → Bool };

    /// Writes out whatever is buffered.
    fn flush(&mut self) -> Result<(), Failed>
        ensures flushed { OnOk result (flushes self.old self.new) }
        ensures fails { OnErr result (IsTrue (has_failed self.new)) }
        ensures stays { OnOk result (has_failed self.new ≡ has_failed self.old) };

    /// Writes the fault of a stream, after its events.
    fn put_fault(&mut self, fault: Fault) -> Result<(), Failed>
        ensures put { OnOk result (puts_fault self.old fault self.new) }
        ensures fails { OnErr result (IsTrue (has_failed self.new)) };

    /// Writes that the stream ends inside a message, after this many bytes.
    fn put_cut(&mut self, consumed: u64) -> Result<(), Failed>
        ensures put { OnOk result (puts_cut self.old consumed self.new) }
        ensures fails { OnErr result (IsTrue (has_failed self.new)) };

    // A sink that has stopped has failed.
    ghost stops_failed: { (old : Self) (e : EventData) (new : Self) → Self.stops old e new → IsTrue (has_failed new) };
}

/// An output of lines: one for each event, and one for a fault or for an end inside a message.
#[derive(Drop)]
pub struct Lines<'a, T> {
    fronts: &'a Fronts<'a>,
    target: T,
}

impl<'a, T> Lines<'a, T> {
    /// Makes an output that writes to a target, with the names of a set.
    pub fn new(fronts: &'a Fronts<'a>, target: T) -> Lines<'a, T>
        ensures fronts { result.fronts ≡ fronts.entry }
        ensures target { result.target ≡ target }
    {
        Lines { fronts, target }
    }
}

impl<T: Target> Sink for Lines<'_, T> {
    ghost use Rattle.fast_run.specs.meaning.Outputs.{WritesLine, FailsInLine};

    ghost takes = { WritesLine T.written T.has_failed };

    ghost stops = { FailsInLine T.written T.has_failed };

    #[inline]
    fn take(&mut self, event: Event<'_>) -> Result<(), Stop> {
        let mut lines = LineSink::with_fronts(self.fronts, &mut self.target);
        lines.take(event)
    }
}

impl<T: Target> Output for Lines<'_, T> {
    ghost use Rattle.fast_run.specs.meaning.Outputs.{Flushes, WritesFault, WritesCut};

    ghost flushes = { Flushes T.written T.has_failed };

    ghost puts_fault = { WritesFault T.written T.has_failed };

    ghost puts_cut = { WritesCut T.written T.has_failed };

    ghost has_failed = { λ s. T.has_failed s.target };

    ghost stops_failed = { λ old e new h. h.has_failed };

    fn flush(&mut self) -> Result<(), Failed> {
        self.target.flush()
    }

    fn put_fault(&mut self, fault: Fault) -> Result<(), Failed> {
        write_fault(fault, &mut self.target)
    }

    fn put_cut(&mut self, consumed: u64) -> Result<(), Failed> {
        write_truncated(consumed, &mut self.target)
    }
}
