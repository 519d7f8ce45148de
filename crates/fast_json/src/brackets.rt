//! The brackets that are open in the object of a message.

ghost use Rattle.std.specs.Prelude.{◌≡◌, ◌≤◌};
ghost use Rattle.fast_stream.specs.meaning.Handed.{event_data};
ghost use Rattle.fast_json.specs.meaning.Json.{between_messages, begun, ended, after_event};

use fast_stream::Event;

/// The most brackets that are kept. A template set has at most 64 levels of groups and sequences, so that a message has at most 129 of them
/// open: its own, and two for each sequence and its element.
const MOST: usize = 160;

/// The bracket that ends an object.
const OBJECT: u8 = b'}';

/// The bracket that ends an array.
const ARRAY: u8 = b']';

/// The brackets that end what is open, and whether the next item is the first of its object or array.
#[derive(Debug, Drop)]
pub struct Brackets {
    cells: [u8; MOST],
    /// The offset in `cells` of the innermost bracket.
    start: usize,
    is_first: bool,
    ghost within: { start ≤ 160 },
}

impl Brackets {
    ghost use Rattle.fast_json.specs.meaning.Brackets.{nesting_of};

    /// Makes the brackets between two messages: none.
    pub fn new() -> Brackets
        ensures { nesting_of result ≡ between_messages }
    {
        Brackets {
            cells: [OBJECT; MOST],
            start: MOST,
            is_first: true,
        }
    }

    /// Returns whether the next item is the first of its object or array.
    #[inline(always)]
    pub fn is_first(&self) -> bool
        ensures { result ≡ (nesting_of self.now).is_first }
    {
        self.is_first
    }

    /// Returns the brackets that end what is open, the innermost first.
    pub fn as_slice(&self) -> &[u8]
        ensures { result.now ≡ (nesting_of self.now).brackets }
    {
        &self.cells[self.start..]
    }

    /// Begins an object or an array, which a bracket ends.
    fn begin(&mut self, bracket: u8)
        ensures { nesting_of self.new ≡ begun bracket (nesting_of self.old) }
    {
        if self.start > 0 {
            self.start -= 1;
            self.cells[self.start] = bracket;
        }
        self.is_first = true;
    }

    /// Ends the innermost object or array.
    fn end(&mut self)
        ensures { nesting_of self.new ≡ ended (nesting_of self.old) }
    {
        self.is_first = false;
        if self.start < MOST {
            self.start += 1;
        }
    }

    /// Notes an event, after its text.
    pub fn note(&mut self, event: Event<'_>)
        ensures { nesting_of self.new ≡ after_event (nesting_of self.old) (event_data event.entry) }
    {
        match event {
            Event::MessageStart { .. } | Event::GroupStart { .. } | Event::ElementStart => {
                self.begin(OBJECT);
            }
            Event::SequenceStart { .. } => self.begin(ARRAY),
            Event::Field { .. } => self.is_first = false,
            Event::GroupEnd | Event::ElementEnd | Event::SequenceEnd | Event::MessageEnd => {
                self.end();
            }
        }
    }
}
