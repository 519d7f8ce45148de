//! Events that wait for room in a caller's buffers.

ghost use Rattle.std.specs.Prelude.{◌≡◌, [], ◌∷◌, ◌++◌, ◌==◌, ◌<◌, ◌+◌, length, OnOk, OnErr};
ghost use Rattle.std.specs.Bool.{OnTrue, OnFalse};
ghost use Rattle.fast_stream.specs.meaning.Handed.{event_data};
ghost use Rattle.fast_records.specs.device.Room.{SameBuffers, IsOpen, IsFull};
ghost use Rattle.fast_records.specs.device.Waiting.{Moves};
ghost use Rattle.fast_records.specs.meaning.Waiting.{pending, kept_data};

use crate::records::{ending_at, record_of, text_of};
use crate::room::Room;
use fast_decoder::{Event, Recorded, Stop};
use std::alloc::Global;
use std::collections::VecDeque;

/// An event that was kept, and the value of its record if it is the end of a message.
#[derive(Drop)]
struct Kept {
    event: Recorded,
    value: u64,
}

/// Events for whose records a call had no room. The next call writes them first.
#[derive(Drop)]
pub struct Waiting {
    alloc: Global,
    events: VecDeque<Kept>,
}

impl Waiting {
    /// Makes an empty list of events.
    pub fn new(alloc: Global) -> Waiting
        ensures { pending result ≡ [] }
    {
        Waiting {
            alloc,
            events: VecDeque::new(alloc),
        }
    }

    /// Returns whether no event waits.
    pub fn is_empty(&self) -> bool
        ensures { result ≡ (length (pending self.now) == 0) }
    {
        self.events.is_empty()
    }

    /// Drops all events that wait.
    pub fn clear(&mut self)
        ensures { pending self.new ≡ [] }
    {
        self.events.clear();
    }

    /// Appends an event, with the value of its record if it is the end of a message.
    pub(crate) fn add(&mut self, event: Event<'_>, value: u64) -> Result<(), Stop>
        ensures ok { OnOk result (pending self.new ≡ pending self.old ++ event_data event.entry ∷ []) }
        ensures err { OnErr result (pending self.new ≡ pending self.old) }
    {
        let Ok(event) = Recorded::copy_of(self.alloc, event) else {
            return Err(Stop);
        };
        match self.events.push_back(Kept { event, value }) {
            Ok(()) => Ok(()),
            Err(_) => Err(Stop),
        }
    }
}

/// Returns an event that was kept, with its string borrowed.
fn lent(kept: &Kept) -> Event<'_>
    ensures { event_data result ≡ kept_data kept.now }
{
    match &kept.event {
        Recorded::MessageStart { template } => Event::MessageStart {
            template: *template,
        },
        Recorded::Field { node, value } => Event::Field {
            node: *node,
            value: value.as_scalar(),
        },
        Recorded::GroupStart { node } => Event::GroupStart { node: *node },
        Recorded::GroupEnd => Event::GroupEnd,
        Recorded::SequenceStart { node, count } => Event::SequenceStart {
            node: *node,
            count: *count,
        },
        Recorded::ElementStart => Event::ElementStart,
        Recorded::ElementEnd => Event::ElementEnd,
        Recorded::SequenceEnd => Event::SequenceEnd,
        Recorded::MessageEnd => Event::MessageEnd,
    }
}

/// Writes the first event that waits, if there is one and it has room. Returns whether it did.
fn hand_next(room: &mut Room<'_>, waiting: &mut Waiting) -> bool
    ensures same { SameBuffers room.old room.new }
    ensures moved { Moves room.old waiting.old room.new waiting.new }
    ensures unclosed { IsOpen room.old → IsOpen room.new }
    ensures one { OnTrue result (length (pending waiting.old) ≡ length (pending waiting.new) + 1) }
    ensures none { OnFalse result (IsOpen room.new → IsFull room.new (pending waiting.new)) }
{
    let Some(first) = waiting.events.front() else {
        return false;
    };
    let event = lent(first);
    let next = ending_at(first.value, record_of(event, room.used() as u64));
    if !room.put(next, text_of(event)) {
        return false;
    }
    let _ = waiting.events.pop_front();
    true
}

/// Writes the events that wait, as far as they have room. If one has none, no later event may be written.
pub(crate) fn hand_over(room: &mut Room<'_>, waiting: &mut Waiting)
    requires unclosed { IsOpen room.old }
    ensures same { SameBuffers room.old room.new }
    ensures moved { Moves room.old waiting.old room.new waiting.new }
    ensures in_order { room.new.filled < room.new.limit → pending waiting.new ≡ [] }
    ensures unclosed { pending waiting.new ≡ [] → IsOpen room.new }
    ensures full { IsFull room.new (pending waiting.new) }
{
    'first: while hand_next(room, waiting) {}
    if !waiting.is_empty() {
        room.close();
    }
}
