//! The buffers of a sink at its start, with the events that had no room before.

ghost use Rattle.fast_records.specs.meaning.Waiting.{pending};
ghost use Rattle.fast_records.specs.meaning.Sink.{Shows};
ghost use Rattle.fast_records.specs.device.Starts.{IsWithin, IsStarted};
ghost use Rattle.fast_records.specs.declared.sink.RecordSink.{RecordSink};

use crate::records::Record;
use crate::room::Room;
use crate::waiting::{Waiting, hand_over};

/// How much of two buffers is filled by the events that waited.
#[derive(Clone, Copy)]
pub(crate) struct Filled {
    /// The number of records that are filled.
    pub records: usize,
    /// The number of records that may be filled.
    pub limit: usize,
    /// The number of bytes of strings that are filled.
    pub texts: usize,
}

/// Moves the events that wait into empty buffers, as far as they have room. Most often none waits, and nothing is called then.
#[inline(always)]
pub(crate) fn started(records: &mut [Record], texts: &mut [u8], waiting: &mut Waiting) -> Filled
    ensures within { IsWithin result records.new texts.new }
    ensures shows { (s : RecordSink) → IsStarted result records.new texts.new waiting.new s → Shows s (pending waiting.old) }
{
    if waiting.is_empty() {
        return Filled {
            records: 0,
            limit: records.len(),
            texts: 0,
        };
    }
    handed(records, texts, waiting)
}

/// Moves the events that wait as [`started`] does.
#[cold]
#[inline(never)]
fn handed(records: &mut [Record], texts: &mut [u8], waiting: &mut Waiting) -> Filled
    ensures within { IsWithin result records.new texts.new }
    ensures shows { (s : RecordSink) → IsStarted result records.new texts.new waiting.new s → Shows s (pending waiting.old) }
{
    let mut room = Room::new(&mut *records, &mut *texts);
    hand_over(&mut room, &mut *waiting);
    Filled {
        records: room.filled(),
        limit: room.limit(),
        texts: room.used(),
    }
}
