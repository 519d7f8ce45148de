//! Runs of the callers of fast_callers over a stream, for tests.

use crate::decoding::{BETWEEN, INSIDE, read_set, status_of};
use fast_callers::{Columns, last_price, messages_in, up_to_fault};
use fast_template::Templates;
use fast_value::Limits;
use std::alloc::Global;

/// The number that stands for a refused stream.
const REFUSED: u64 = u64::MAX;

/// The results of the callers for a stream.
#[derive(Clone, Copy)]
pub struct Called {
    /// The number of messages, or 2^64 - 1 if the stream is refused.
    pub messages: u64,
    /// 1 if there is a price of the symbol, 0 if not, or 2^64 - 1 if the stream is refused.
    pub has_price: u64,
    /// The exponent of the price.
    pub exponent: i64,
    /// The mantissa of the price.
    pub mantissa: i64,
    /// The number of messages up to the first fault.
    pub whole: u64,
    /// The number of bytes up to the first fault.
    pub bytes: u64,
    /// The status at the first fault or the end, as that of an [`Answer`](crate::decoding::Answer).
    pub status: u64,
    /// The offset of the fault.
    pub place: u64,
}

impl Called {
    /// Returns the results if nothing is called, or all callers refuse.
    fn none() -> Called {
        Called {
            messages: REFUSED,
            has_price: REFUSED,
            exponent: 0,
            mantissa: 0,
            whole: REFUSED,
            bytes: 0,
            status: REFUSED,
            place: 0,
        }
    }

    /// Writes the eight numbers, each as eight bytes, the least significant first.
    pub fn write_to(&self, out: &mut [u8; 64]) {
        out[..8].copy_from_slice(&self.messages.to_le_bytes());
        out[8..16].copy_from_slice(&self.has_price.to_le_bytes());
        out[16..24].copy_from_slice(&self.exponent.to_le_bytes());
        out[24..32].copy_from_slice(&self.mantissa.to_le_bytes());
        out[32..40].copy_from_slice(&self.whole.to_le_bytes());
        out[40..48].copy_from_slice(&self.bytes.to_le_bytes());
        out[48..56].copy_from_slice(&self.status.to_le_bytes());
        out[56..].copy_from_slice(&self.place.to_le_bytes());
    }

    /// Counts the messages of a stream that is fed in two pieces.
    fn count(&mut self, alloc: Global, set: &Templates, stream: &[u8], cut: usize) {
        let (front, rest) = stream.split_at(cut.min(stream.len()));
        if let Ok(messages) = messages_in(alloc, set, Limits::default(), &[front, rest]) {
            self.messages = messages;
        }
    }

    /// Finds the last price of a symbol; node 0 is the symbol and node 1 the price.
    fn look(&mut self, alloc: Global, set: &Templates, stream: &[u8], symbol: &[u8]) {
        let columns = Columns {
            symbol: 0,
            price: 1,
        };
        let found = last_price(alloc, set, Limits::default(), columns, symbol, stream);
        if let Ok(found) = found {
            self.has_price = found.is_some() as u64;
            if let Some(price) = found {
                self.exponent = price.exponent as i64;
                self.mantissa = price.mantissa;
            }
        }
    }

    /// Reads a stream up to its first fault.
    fn read(&mut self, alloc: Global, set: &Templates, stream: &[u8]) {
        if let Ok(stopped) = up_to_fault(alloc, set, Limits::default(), stream) {
            self.whole = stopped.messages;
            self.bytes = stopped.bytes;
            self.status = if stopped.is_between { BETWEEN } else { INSIDE };
            if let Some(fault) = stopped.fault {
                self.status = status_of(fault.code);
                self.place = fault.place;
            }
        }
    }
}

/// Calls each caller over a stream, with the default limits.
pub fn call_all(
    alloc: Global,
    templates: &[u8],
    stream: &[u8],
    cut: usize,
    symbol: &[u8],
) -> Called {
    let mut called = Called::none();
    if let Ok(set) = read_set(alloc, templates) {
        called.count(alloc, &set, stream, cut);
        called.look(alloc, &set, stream, symbol);
        called.read(alloc, &set, stream);
    }
    called
}
