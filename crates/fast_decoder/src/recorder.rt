//! A sink that keeps the events that it receives.

use fast_stream::{Event, Sink, Stop};
use fast_value::Value;
use std::alloc::{AllocError, Global};

/// An event that owns its value.
#[derive(Debug, Drop, PartialEq)]
pub enum Recorded {
    /// A message begins.
    MessageStart {
        /// The number of the template.
        template: u32,
    },
    /// A field has a value.
    Field {
        /// The number of the field's node.
        node: u32,
        /// The value.
        value: Value,
    },
    /// A group begins.
    GroupStart {
        /// The number of the group's node.
        node: u32,
    },
    /// The innermost group ends.
    GroupEnd,
    /// A sequence begins.
    SequenceStart {
        /// The number of the sequence's node.
        node: u32,
        /// The number of elements that follow.
        count: u32,
    },
    /// An element of the innermost sequence begins.
    ElementStart,
    /// An element of the innermost sequence ends.
    ElementEnd,
    /// The innermost sequence ends.
    SequenceEnd,
    /// The message ends.
    MessageEnd,
}

impl Recorded {
    ghost use Rattle.std.specs.Prelude.{◌≡◌, IfOk};
    ghost use Rattle.fast_stream.specs.meaning.Handed.{event_data};
    ghost use Rattle.fast_decoder.specs.meaning.Recorded.{recorded_data};

    /// Copies an event into memory of its own. Fails only if an allocation fails.
    pub fn copy_of(alloc: Global, event: Event<'_>) -> Result<Recorded, AllocError>
        ensures { IfOk result (λ kept. recorded_data kept ≡ event_data event.entry) }
    {
        match event {
            Event::MessageStart { template } => Ok(Recorded::MessageStart { template }),
            Event::Field { node, value } => {
                let value = Value::copy_of(alloc, value)?;
                Ok(Recorded::Field { node, value })
            }
            Event::GroupStart { node } => Ok(Recorded::GroupStart { node }),
            Event::GroupEnd => Ok(Recorded::GroupEnd),
            Event::SequenceStart { node, count } => Ok(Recorded::SequenceStart { node, count }),
            Event::ElementStart => Ok(Recorded::ElementStart),
            Event::ElementEnd => Ok(Recorded::ElementEnd),
            Event::SequenceEnd => Ok(Recorded::SequenceEnd),
            Event::MessageEnd => Ok(Recorded::MessageEnd),
        }
    }
}

/// A sink that keeps a list of the events, and stops when an allocation fails.
#[derive(Drop)]
pub struct Recorder {
    alloc: Global,
    events: Vec<Recorded>,
}

impl Recorder {
    ghost use Rattle.std.specs.Prelude.{◌≡◌, [], map};
    ghost use Rattle.fast_decoder.specs.meaning.Recorded.{recorded, recorded_data};

    /// Makes a recorder that has kept nothing.
    pub fn new(alloc: Global) -> Recorder
        ensures { recorded result ≡ [] }
    {
        Recorder {
            alloc,
            events: Vec::new(alloc),
        }
    }

    /// Returns the events that were kept, in order.
    pub fn events(&self) -> &[Recorded]
        ensures { map recorded_data result.now ≡ recorded self.now }
    {
        self.events.as_slice()
    }
}

impl Sink for Recorder {
    ghost use Rattle.std.specs.Prelude.{◌≡◌, [], ◌∷◌, ◌++◌};
    ghost use Rattle.fast_decoder.specs.meaning.Recorded.{recorded};

    ghost takes = { λ old event new. recorded new ≡ recorded old ++ event ∷ [] };

    ghost stops = { λ old _ new. recorded new ≡ recorded old };

    fn take(&mut self, event: Event<'_>) -> Result<(), Stop> {
        let kept = match Recorded::copy_of(self.alloc, event) {
            Ok(kept) => kept,
            Err(_) => return Err(Stop),
        };
        match self.events.push(kept) {
            Ok(()) => Ok(()),
            Err(_) => Err(Stop),
        }
    }
}
