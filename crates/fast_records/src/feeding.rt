//! Decoding to records: bytes in, records out.

ghost use Rattle.std.specs.Prelude.{◌≡◌, ◌≢◌, ℕ, ◌+◌, ◌-◌, ◌*◌, ◌≤◌, [], ◌==◌, ◌&&◌, nat_lt, List, length, take, IsSome, Some, Err, Ok};
ghost use Rattle.fast_stream.specs.declared.faults.Fault.{Fault};
ghost use Rattle.fast_stream.specs.meaning.Events.{EventData};
ghost use Rattle.fast_decoder.specs.meaning.Decoding.{HasRead, tree, account, answer};
ghost use Rattle.fast_records.specs.meaning.Waiting.{pending};
ghost use Rattle.fast_records.specs.meaning.Feeding.{Delivers, HandsOver, HasNoRoom, unfinished, outcome_of};

use crate::records::Record;
use crate::sink::{RecordSink, fed_at_once};
use crate::waiting::Waiting;
use fast_decoder::{Decoder, Fault, FaultCode};

/// How a call of [`feed_records`] ended.
#[derive(Clone, Copy, Debug, PartialEq, Eq)]
pub enum Outcome {
    /// The whole piece was consumed, and no event waits.
    Done,
    /// Events wait, or bytes are left: call again with the rest of the piece.
    More,
    /// The buffers are too small for the next record and its string: nothing was consumed or written.
    NoRoom,
    /// The decoder is at a fault. The records of all events before it were written.
    Fault(FaultCode),
}

/// The result of [`feed_records`].
#[derive(Clone, Copy, Debug, PartialEq, Eq)]
pub struct Fed {
    /// The number of bytes of the piece that were consumed.
    pub taken: usize,
    /// The number of records written.
    pub records: usize,
    /// The number of bytes written to the buffer of strings.
    pub texts: usize,
    /// How the call ended.
    pub outcome: Outcome,
}

/// Returns how a call ended that is not `Done`: `NoRoom` if nothing was consumed or written, else `More`.
fn unfinished(nothing: bool) -> Outcome
    ensures { result ≡ unfinished nothing }
{
    if nothing {
        Outcome::NoRoom
    } else {
        Outcome::More
    }
}

/// Returns whether no byte was consumed and no record written.
fn is_nothing(taken: usize, filled: usize) -> bool
    ensures { result ≡ (taken == 0 && filled == 0) }
{
    taken == 0 && filled == 0
}

/// Returns how a call ended, from whether events wait, the decoder, whether the whole piece was consumed, and whether nothing was consumed or
/// written. Most calls are done.
#[inline(always)]
fn outcome_of(waits: bool, decoder: &Decoder<'_>, all: bool, nothing: bool) -> Outcome
    ensures { result ≡ outcome_of waits (answer decoder.now.fault) all nothing }
{
    if !waits && all {
        if let None = decoder.fault() {
            return Outcome::Done;
        }
    }
    other_outcome(waits, decoder, all, nothing)
}

/// Returns how a call ended, as [`outcome_of`] does.
#[cold]
#[inline(never)]
fn other_outcome(waits: bool, decoder: &Decoder<'_>, all: bool, nothing: bool) -> Outcome
    ensures { result ≡ outcome_of waits (answer decoder.now.fault) all nothing }
{
    if waits {
        return unfinished(nothing);
    }
    match decoder.fault() {
        Some(fault) => Outcome::Fault(fault.code),
        None => if all {
            Outcome::Done
        } else {
            unfinished(nothing)
        },
    }
}

/// Feeds a piece to a decoder, as far as its events have room, and writes their records and strings from the start of two buffers. The next
/// call goes on after the bytes that were consumed (`taken`).
///
/// A call feeds at most half as many bytes as there are free records, rounded up, and none while events wait. So events seldom have to
/// wait; those that do wait in memory, at most the cap of a message for each of these bytes. If that allocation fails, the decoder is at
/// `SinkStopped`.
#[inline(always)]
pub fn feed_records(
    decoder: &mut Decoder<'_>,
    waiting: &mut Waiting,
    piece: &[u8],
    records: &mut [Record],
    texts: &mut [u8],
) -> Fed
    ensures delivers { (w : List ℕ) (es : List EventData) → HasRead decoder.old w es
        → Delivers (tree decoder.old) decoder.old.limits w es piece.now (pending waiting.old) decoder.new
        (take result.records records.new)
        (take result.texts texts.new) (pending waiting.new) }
    // For a decoder that had already stopped, at any fault.
    ensures waited { (f : Fault) → decoder.old.fault ≡ Some f
        → HandsOver (pending waiting.old) f records.new texts.new result (pending waiting.new) }
    ensures room { (w : List ℕ) (es : List EventData) → HasRead decoder.old w es
        → (result.records ≤ length records.new) × (result.texts ≤ length texts.new) }
    // If events wait, the first had no room after the records that were written.
    ensures full { (w : List ℕ) (es : List EventData) → HasRead decoder.old w es → pending waiting.new ≢ []
        → HasNoRoom (length records.new - result.records) (length texts.new - result.texts) (pending waiting.new) }
    ensures outcome { (w : List ℕ) (es : List EventData) → HasRead decoder.old w es
        → result.outcome ≡ outcome_of (nat_lt 0 (length (pending waiting.new))) (answer decoder.new.fault)
        (result.taken == length piece.now) (result.taken == 0 && result.records == 0) }
    // A call makes no progress only if there is no room for a record, or the string of the first event that waits is longer than `texts`.
    ensures progress { (w : List ℕ) (es : List EventData) → HasRead decoder.old w es → result.outcome ≡ Outcome.NoRoom
        → HasNoRoom (length records.new) (length texts.new) (pending waiting.new) }
    ensures consumed { decoder.new.consumed ≡ decoder.old.consumed + result.taken }
    ensures taken { result.taken ≤ length piece.now }
    // The events that wait come from these bytes, by `late` of `delivers`.
    ensures few { (w : List ℕ) (es : List EventData) → HasRead decoder.old w es
        → 2 * result.taken ≤ length records.new + 1 }
    ensures same_set { (tree decoder.new ≡ tree decoder.old) × (decoder.new.limits ≡ decoder.old.limits) }
    ensures stopped { IsSome decoder.old.fault → account decoder.new ≡ account decoder.old }
{
    let before = decoder.consumed();
    let mut sink = RecordSink::new(records, texts, waiting, before, piece.len());
    let front = &piece[..fed_at_once(piece.len(), sink.left())];
    let _ = decoder.feed(front, &mut sink);
    let taken = (decoder.consumed() - before) as usize;
    let filled = sink.filled();
    Fed {
        taken,
        records: filled,
        texts: sink.used(),
        outcome: outcome_of(
            sink.waits(),
            decoder,
            taken == piece.len(),
            is_nothing(taken, filled),
        ),
    }
}
