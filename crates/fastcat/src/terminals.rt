//! The terminal: colors, and how far the input has been read.

ghost use Rattle.std.specs.Prelude.{◌≡◌};

use fast_terminal::{Meter, When, is_colored};
use fast_text::{Failed, Source};
use fast_words::Plan;
use std::env;
use std::fs::OpenFile;
use std::io::IsTerminal;
use std::time::Instant;

/// Returns when a plan colors its lines; the error is a word that says nothing of it.
pub fn when_of<'a>(plan: &Plan<'a>) -> Result<When, &'a str> {
    match plan.color {
        None => Ok(When::Auto),
        Some(word) => When::of(word).ok_or(word),
    }
}

/// Returns whether the environment says that nothing is colored.
fn says_no(rt: &HostRuntime) -> bool {
    match env::var(rt, "NO_COLOR") {
        Ok(value) => !value.is_empty(),
        Err(env::VarError::NotPresent) => false,
        Err(_) => true,
    }
}

/// Returns whether standard output is colored.
pub fn colors(rt: &HostRuntime, when: When) -> bool {
    is_colored(when, rt.stdout().is_terminal(), says_no(rt))
}

/// A reader that shows on standard error how far it has read its input, until it is dropped. It returns the bytes of the inner reader.
pub struct Metered<'a, S> {
    rt: &'a HostRuntime,
    inner: S,
    meter: Meter,
    /// The time at which the run began; none if nothing is shown.
    start: Option<Instant>,
    /// True if a line is shown.
    is_shown: bool,
}

/// Returns how many bytes a file has whose reading is shown: if standard error is a terminal, and standard output is none.
pub fn shown_bytes<F: OpenFile>(rt: &HostRuntime, file: &F) -> Option<u64> {
    if rt.stdout().is_terminal() || !rt.stderr().is_terminal() {
        return None;
    }
    match file.metadata() {
        Ok(found) if found.is_file() => Some(found.len()),
        _ => None,
    }
}

impl<'a, S> Metered<'a, S> {
    /// Makes a reader that shows how much of this many bytes it has read, or nothing.
    pub fn new(rt: &'a HostRuntime, inner: S, bytes: Option<u64>) -> Metered<'a, S>
        ensures { result.inner ≡ inner }
    {
        let start = match bytes {
            Some(_) => Instant::now(rt).ok(),
            None => None,
        };
        Metered {
            rt,
            inner,
            meter: Meter::new(bytes.unwrap_or(0)),
            start,
            is_shown: false,
        }
    }

    /// Counts bytes that were read, and shows the count if that is due.
    fn count(&mut self, bytes: usize)
        ensures { self.new.inner ≡ self.old.inner }
    {
        let Some(start) = self.start else {
            return;
        };
        self.meter.add(bytes);
        let Ok(elapsed) = start.elapsed(self.rt) else {
            return;
        };
        let millis = u64::from(elapsed.subsec_millis());
        if self.meter.is_due(
            elapsed
                .as_secs()
                .saturating_mul(1000)
                .saturating_add(millis),
        ) {
            let _ = eprint!(self.rt; "\r{}\x1b[K", self.meter);
            self.is_shown = true;
        }
    }
}

impl<S: Source> Source for Metered<'_, S> {
    ghost left = { λ s. S.left s.inner };

    ghost has_failed = { λ s. S.has_failed s.inner };

    fn read(&mut self, buf: &mut [u8]) -> Result<usize, Failed> {
        let outcome = self.inner.read(buf);
        if let Ok(count) = outcome {
            self.count(count);
        }
        outcome
    }

    fn failed(&self) -> bool {
        self.inner.failed()
    }
}

impl<S: Drop> Drop for Metered<'_, S> {
    fn drop(self) {
        let Metered {
            rt,
            inner: _,
            meter: _,
            start: _,
            is_shown,
        } = self;
        if is_shown {
            let _ = eprint!(rt; "\r\x1b[K");
        }
    }
}
