//! The template file and the input of a run, and why a read or a write of them failed.

use fast_command::sets::TEXT_LIMIT;
use fast_command::{RunFault, built_in, read_templates, read_whole};
use fast_explain::{Cause, Channel, Note, explain_templates, explain_templates_cause};
use fast_template::Templates;
use fast_text::{BlockWriter, FromBytes, Source, Watched};
use fast_words::{BUILT_IN, Origin, Plan};
use std::alloc::Global;
use std::cell::Cell;
use std::fs;
use std::io::{self, Error, ErrorKind, Read, Stdout, Write};

/// Why a read and a write of a run failed, if one did.
#[derive(Drop)]
pub(crate) struct Causes {
    pub(crate) of_reads: Cell<Option<Cause>>,
    pub(crate) of_writes: Cell<Option<Cause>>,
}

/// A reader or a writer of std, and a cell that keeps why a call of it failed.
#[derive(Drop)]
pub(crate) struct Noted<'a, T> {
    inner: T,
    cause: &'a Cell<Option<Cause>>,
}

/// Standard output, written in large pieces.
pub(crate) type Output<'a> = BlockWriter<Watched<Noted<'a, Stdout>>>;

impl Causes {
    /// Returns the causes of a run that has read and written nothing.
    pub(crate) fn new() -> Causes {
        Causes {
            of_reads: Cell::new(None),
            of_writes: Cell::new(None),
        }
    }

    /// Makes a reader of a file or of standard input.
    pub(crate) fn input<R>(&self, reader: R) -> Watched<Noted<'_, R>> {
        Watched::new(Noted {
            inner: reader,
            cause: &self.of_reads,
        })
    }

    /// Makes a writer to standard output.
    pub(crate) fn writer(&self, rt: &HostRuntime) -> Watched<Noted<'_, Stdout>> {
        Watched::new(Noted {
            inner: rt.stdout(),
            cause: &self.of_writes,
        })
    }

    /// Makes a writer to standard output that writes in large pieces.
    pub(crate) fn output(&self, rt: &HostRuntime) -> Output<'_> {
        BlockWriter::new(self.writer(rt))
    }

    /// Returns whether a write failed since standard output is a pipe without a reader.
    pub(crate) fn has_no_reader(&self) -> bool {
        self.of_writes.get() == Some(Cause::Refused(ErrorKind::BrokenPipe))
    }

    /// Keeps why a file cannot be opened, and returns the fault of the run.
    pub(crate) fn unopened(&self, error: &Error) -> RunFault {
        self.of_reads.set(Some(Cause::of(error)));
        RunFault::Read
    }
}

impl<T> Noted<'_, T> {
    /// Keeps why a call failed, if it did.
    fn note<V>(&self, outcome: &io::Result<V>) {
        if let Err(error) = outcome {
            self.cause.set(Some(Cause::of(error)));
        }
    }
}

impl<R: Read> Read for Noted<'_, R> {
    fn read(&mut self, buf: &mut [u8]) -> io::Result<usize> {
        let outcome = self.inner.read(buf);
        self.note(&outcome);
        outcome
    }
}

impl<W: Write> Write for Noted<'_, W> {
    fn write(&mut self, buf: &[u8]) -> io::Result<usize> {
        let outcome = self.inner.write(buf);
        self.note(&outcome);
        outcome
    }

    fn flush(&mut self) -> io::Result<()> {
        let outcome = self.inner.flush();
        self.note(&outcome);
        outcome
    }
}

/// Returns the name of an input for an explanation.
pub(crate) fn channel_of<'a>(origin: Origin<'a>) -> Channel<'a> {
    match origin {
        Origin::File(path) => Channel::File(path),
        Origin::BuiltIn | Origin::StandardInput => Channel::StandardInput,
    }
}

/// Reads a template set, and notes an explanation if it is refused.
fn read_explained<S: Source>(
    alloc: Global,
    reader: &mut S,
    note: &mut Note,
) -> Result<Templates, RunFault> {
    let text = read_whole(alloc, TEXT_LIMIT, reader)?;
    let templates = read_templates(alloc, &mut FromBytes::new(&text));
    if let Err(RunFault::Templates(fault)) = &templates {
        *note = explain_templates(alloc, &text, *fault);
    }
    templates
}

/// Reads a template set, and notes an explanation if it is refused and a failure is explained.
fn read_set<S: Source>(
    alloc: Global,
    mut reader: S,
    explains: bool,
    note: &mut Note,
) -> Result<Templates, RunFault>
where
    S: Drop,
{
    if explains {
        read_explained(alloc, &mut reader, note)
    } else {
        read_templates(alloc, &mut reader)
    }
}

/// Returns the template set that a plan names, and notes an explanation if there is none.
pub(crate) fn templates_of(
    rt: &HostRuntime,
    plan: &Plan<'_>,
    causes: &Causes,
    note: &mut Note,
) -> Result<Templates, RunFault> {
    let alloc = rt.alloc();
    let origin = plan.templates_origin();
    let templates = match origin {
        Origin::BuiltIn => Ok(built_in(alloc)?),
        Origin::StandardInput => read_set(alloc, causes.input(rt.stdin()), plan.explain, note),
        Origin::File(path) => match fs::open(rt, path) {
            Ok(file) => read_set(alloc, causes.input(file), plan.explain, note),
            Err(error) => Err(causes.unopened(&error)),
        },
    };
    if let Err(RunFault::Read) = &templates {
        let cause = causes
            .of_reads
            .get()
            .unwrap_or(Cause::TooLong(TEXT_LIMIT as u64));
        *note = explain_templates_cause(channel_of(origin), cause, BUILT_IN);
    }
    templates
}
