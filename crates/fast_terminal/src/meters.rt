//! How far an input has been read.

ghost use Rattle.std.specs.Prelude.{◌≡◌, ◌↔◌, ◌+◌, ◌*◌, ◌/◌, ◌%◌, ◌≤◌, IsTrue};
ghost use Rattle.fast_terminal.specs.meaning.Meters.{after_bytes, after_draw};

use std::fmt;
use std::fmt::{Display, Formatter, Write};

/// The shortest time between two lines, in milliseconds.
const PAUSE: u64 = 100;

/// A count of the bytes of an input that were read, with the times at which it is shown.
#[derive(Clone, Copy, Debug)]
pub struct Meter {
    /// The number of bytes of the input.
    pub total: u64,
    /// The number of bytes that were read.
    pub read: u64,
    /// The time at which the count was last shown, in milliseconds after the start.
    pub shown: u64,
}

impl Meter {
    /// Makes a meter of an input, at the start.
    pub fn new(total: u64) -> Meter
        ensures { result ≡ record { total = total; read = 0; shown = 0 } }
    {
        Meter {
            total,
            read: 0,
            shown: 0,
        }
    }

    /// Counts bytes that were read.
    pub fn add(&mut self, count: usize)
        ensures { self.new ≡ after_bytes self.old count }
    {
        self.read = self.read.saturating_add(count as u64);
    }

    /// Returns whether the count is to be shown again at a time, in milliseconds after the start: at most ten times a second. If so, it is
    /// noted as shown.
    pub fn is_due(&mut self, now: u64) -> bool
        ensures due { IsTrue result ↔ (self.old.shown + PAUSE ≤ now) }
        ensures after { self.new ≡ after_draw result now self.old }
    {
        if now.saturating_sub(self.shown) < PAUSE {
            return false;
        }
        self.shown = now;
        true
    }
}

/// The number of bytes of a MiB.
const MIB: u64 = 1_048_576;

/// Returns a number of bytes in tenths of a MiB.
fn tenths_of(bytes: u64) -> u64
    ensures { result ≡ bytes / MIB * 10 + bytes % MIB * 10 / MIB }
{
    bytes / MIB * 10 + bytes % MIB * 10 / MIB
}

/// A number of bytes, in MiB with one decimal place.
#[derive(Clone, Copy, Debug)]
struct Size(u64);

impl Display for Size {
    fn fmt<W: Write>(&self, f: &mut Formatter<W>) -> fmt::Result {
        let tenths = tenths_of(self.0);
        write!(f, "{}.{}", tenths / 10, tenths % 10)
    }
}

impl Meter {
    /// Returns how many bytes were read in a second, on average until the count was last shown.
    fn rate(&self) -> u64 {
        (self.read / (self.shown / PAUSE).max(1)).saturating_mul(10)
    }

    /// Returns how many seconds the rest takes at that rate.
    fn left(&self) -> u64 {
        self.total.saturating_sub(self.read) / self.rate().max(1)
    }

    /// Returns how much of the input was read, in hundredths.
    fn share(&self) -> u64
        ensures { result ≤ 100 }
    {
        (self.read / (self.total / 100).max(1)).min(100)
    }
}

/// Writes bytes, share, rate and the time that is left.
impl Display for Meter {
    fn fmt<W: Write>(&self, f: &mut Formatter<W>) -> fmt::Result {
        let (read, total, rate) = (Size(self.read), Size(self.total), Size(self.rate()));
        write!(f, "{read} of {total} MiB ({} %), ", self.share())?;
        write!(f, "{rate} MiB/s, {} s left", self.left())
    }
}
