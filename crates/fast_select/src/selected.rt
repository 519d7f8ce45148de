//! A sink that passes on the events of some messages.

ghost use Rattle.std.specs.Prelude.{◌≡◌, false};
ghost use Rattle.fast_stream.specs.meaning.Handed.{event_data};
ghost use Rattle.fast_stream.specs.meaning.Events.{MessageStart, MessageEnd};
ghost use Rattle.fast_select.specs.meaning.Choosing.{is_none_left, is_among, begins, is_chosen, after};

use fast_stream::{Event, Sink, Stop};

/// The messages that are chosen of those that follow in a stream: from a number on, those with one of some templates, and of these the
/// first ones.
#[derive(Clone, Copy, Debug)]
pub struct Chooser<'a> {
    /// The number of messages that are skipped.
    skip: u32,
    /// The greatest number of messages that are chosen; `None` for all.
    rest: Option<u32>,
    /// The templates whose messages are chosen, by number; `None` for all.
    only: Option<&'a [u32]>,
    /// True inside a chosen message.
    is_in: bool,
}

impl<'a> Chooser<'a> {
    /// Makes a chooser between two messages. It skips `skip` messages, and then chooses at most `limit` of those with a template of `only`.
    pub fn new(skip: u32, limit: Option<u32>, only: Option<&'a [u32]>) -> Chooser<'a>
        ensures { result ≡ record { skip = skip; rest = limit; only = only.entry; is_in = false } }
    {
        Chooser {
            skip,
            rest: limit,
            only,
            is_in: false,
        }
    }

    /// Returns whether no message that follows is chosen, since as many were as may be.
    pub fn is_full(&self) -> bool
        ensures { result ≡ is_none_left self.now.rest }
    {
        match self.rest {
            None => false,
            Some(rest) => rest == 0,
        }
    }

    /// Returns whether messages of a template may be chosen.
    fn has(&self, template: u32) -> bool
        ensures { result ≡ is_among self.now.only template }
    {
        match self.only {
            None => true,
            Some(only) => only.contains(&template),
        }
    }

    /// Notes the start of a message, and returns whether the message is chosen.
    fn begin(&mut self, template: u32) -> bool
        ensures chosen { result ≡ begins self.old template }
        ensures after { self.new ≡ after self.old (MessageStart template) }
    {
        self.is_in = self.skip == 0 && !self.is_full() && self.has(template);
        self.skip = self.skip.saturating_sub(1);
        self.is_in
    }

    /// Notes the end of a message, and returns whether the message was chosen.
    fn end(&mut self) -> bool
        ensures chosen { result ≡ self.old.is_in }
        ensures after { self.new ≡ after self.old MessageEnd }
    {
        let was_in = self.is_in;
        if was_in {
            if let Some(rest) = self.rest {
                self.rest = Some(rest.saturating_sub(1));
            }
        }
        self.is_in = false;
        was_in
    }

    /// Notes an event, and returns whether it belongs to a chosen message.
    fn note(&mut self, event: Event<'_>) -> bool
        ensures chosen { result ≡ is_chosen self.old (event_data event.entry) }
        ensures after { self.new ≡ after self.old (event_data event.entry) }
    {
        match event {
            Event::MessageStart { template } => self.begin(template),
            Event::MessageEnd => self.end(),
            Event::Field { .. }
            | Event::GroupStart { .. }
            | Event::GroupEnd
            | Event::SequenceStart { .. }
            | Event::ElementStart
            | Event::ElementEnd
            | Event::SequenceEnd => self.is_in,
        }
    }
}

/// A sink that passes the events of chosen messages on to another sink. It stops with the last event of the last message that can be
/// chosen, after it has passed that event on, and where the other sink stops.
#[derive(Drop)]
pub struct Selected<'a, S> {
    chooser: Chooser<'a>,
    /// True if the last message that can be chosen has been passed on.
    is_full: bool,
    /// The sink to which the events are passed.
    pub inner: S,
}

impl<'a, S> Selected<'a, S> {
    /// Makes a sink that passes on the events of the messages that a chooser chooses.
    pub fn new(chooser: Chooser<'a>, inner: S) -> Selected<'a, S>
        ensures chooser { result.chooser ≡ chooser.entry }
        ensures full { result.is_full ≡ is_none_left chooser.entry.rest }
        ensures inner { result.inner ≡ inner }
    {
        Selected {
            chooser,
            is_full: chooser.is_full(),
            inner,
        }
    }

    /// Returns whether the last message that can be chosen has been passed on.
    pub fn is_full(&self) -> bool
        ensures { result ≡ self.now.is_full }
    {
        self.is_full
    }
}

impl<S: Sink> Sink for Selected<'_, S> {
    ghost use Rattle.fast_select.specs.meaning.Selecting.{TakesOn, StopsOn};

    ghost takes = { TakesOn S.takes };

    ghost stops = { StopsOn S.takes S.stops };

    fn take(&mut self, event: Event<'_>) -> Result<(), Stop> {
        if self.chooser.note(event) {
            self.inner.take(event)?;
        }
        self.is_full = self.chooser.is_full();
        if self.is_full { Err(Stop) } else { Ok(()) }
    }
}
