//! The events that a decoder emits, and the sink that receives them.

ghost use Rattle.std.specs.Prelude.{◌≡◌, OnOk, OnErr};
ghost use Rattle.std.specs.Bool.{OnTrue, OnFalse};
ghost use Rattle.fast_stream.specs.meaning.Handed.{event_data};

use fast_value::Scalar;
use std::error::Error;
use std::fmt;

/// An event of a stream, emitted as soon as the bytes decide it. Absent fields, groups and sequences give no event.
#[derive(Clone, Copy, Debug, PartialEq, Eq)]
pub enum Event<'a> {
    /// A message begins: its template identifier is known.
    MessageStart {
        /// The number of the template in its set, from 0.
        template: u32,
    },
    /// A field has a value.
    Field {
        /// The number of the field's node in its set.
        node: u32,
        /// The value, which is borrowed for the call.
        value: Scalar<'a>,
    },
    /// A group begins.
    GroupStart {
        /// The number of the group's node in its set.
        node: u32,
    },
    /// The innermost group ends.
    GroupEnd,
    /// A sequence begins.
    SequenceStart {
        /// The number of the sequence's node in its set.
        node: u32,
        /// The number of elements that follow.
        count: u32,
    },
    /// An element of the innermost sequence begins.
    ElementStart,
    /// An element of the innermost sequence ends.
    ElementEnd,
    /// The innermost sequence ends.
    SequenceEnd,
    /// The message ends.
    MessageEnd,
}

/// A sink's refusal of an event: it receives no more of them.
#[derive(Clone, Copy, Debug, PartialEq, Eq)]
pub struct Stop;

impl fmt::Display for Stop {
    fn fmt<W: fmt::Write>(&self, f: &mut fmt::Formatter<W>) -> fmt::Result {
        f.write_str("the sink takes no more events")
    }
}

impl Error for Stop {}

/// Receives events, one after the other.
pub trait Sink {
    ghost use Rattle.fast_stream.specs.meaning.Events.{EventData, MessageStart, MessageEnd};

    // Relates the old sink, an event and the new sink: `takes` if the sink accepts the event, `stops` if it stops at it.
    ghost takes: { Self → EventData → Self → Type 0 };

    ghost stops: { Self → EventData → Self → Type 0 };

    /// Receives an event, and returns `Err(Stop)` to stop. A sink that has stopped is not called again.
    fn take(&mut self, event: Event<'_>) -> Result<(), Stop>
        ensures takes { OnOk result (takes self.old (event_data event.entry) self.new) }
        ensures stops { OnErr result (stops self.old (event_data event.entry) self.new) };

    /// Receives the end of a message, as `take` does. `left` is the number of bytes of the piece after the message, for sinks that store
    /// where messages end.
    #[inline(always)]
    fn end_message(&mut self, left: usize) -> Result<(), Stop>
        ensures takes { OnOk result (takes self.old MessageEnd self.new) }
        ensures stops { OnErr result (stops self.old MessageEnd self.new) }
    {
        let _ = left;
        self.take(Event::MessageEnd)
    }

    /// Receives the end of a message and the start of the next in one call, or neither: `false` asks for a call for each.
    #[inline(always)]
    fn turn_message(&mut self, left: usize, template: u32) -> bool
        ensures both { OnTrue result
            ((between : Self) × takes self.old MessageEnd between × takes between (MessageStart template) self.new) }
        ensures none { OnFalse result (self.new ≡ self.old) }
    {
        let _ = left;
        let _ = template;
        false
    }
}
