//! A sink that writes each message as an object of JSON.

ghost use Rattle.std.specs.Prelude.{◌≡◌, [], ◌++◌, IsTrue, OnOk, OnErr, slice_get, is_ok};
ghost use Rattle.fast_template.specs.meaning.Flat.{tree_of};
ghost use Rattle.fast_stream.specs.meaning.Handed.{event_data};
ghost use Rattle.fast_lines.specs.meaning.Lines.{template_name};
ghost use Rattle.fast_text.specs.meaning.LineWriter.{Writes};
ghost use Rattle.fast_text.specs.meaning.Streams.{Appends, AppendsFront};
ghost use Rattle.fast_json.specs.meaning.Json.{between_messages, event_text, message_words, template_words, id_if, id_of, before_last, json_fault, json_truncated, json_incomplete};
ghost use Rattle.fast_json.specs.meaning.Keys.{set_of, repeats_in};

use crate::brackets::Brackets;
use crate::keys::{Keys, put_comma, put_key};
use crate::values::put_value;
use fast_lines::holding::event_holds_bytes;
use fast_run::Output;
use fast_stream::{Event, Fault, Sink, Stop};
use fast_template::Templates;
use fast_text::{Failed, LineWriter, Room, Target};

/// A sink that writes each message as an object of JSON on a line of its own, with the names of a template set. It allocates nothing, and
/// stops only if the target fails.
#[derive(Drop)]
pub struct JsonSink<'a, T> {
    keys: &'a Keys<'a>,
    target: T,
    kept: Room,
    brackets: Brackets,
}

/// Returns the name of a template, or an empty string if the set has no such template.
fn template_text(templates: &Templates, template: u32) -> &str
    ensures { result.now ≡ template_name (tree_of templates.now) template }
{
    if template < templates.count() {
        templates.template(template).name.as_str()
    } else {
        ""
    }
}

/// Returns the identifier of a template, or `None` if it has none or the set has no such template.
fn template_id(templates: &Templates, template: u32) -> Option<u32>
    ensures { id_if result ≡ id_of (slice_get (tree_of templates.now).templates template) }
{
    if template < templates.count() {
        templates.template(template).id
    } else {
        None
    }
}

/// Writes an identifier, or `null` for a template without one, which no message has.
fn put_id<T: Target>(line: &mut LineWriter<'_, T>, id: Option<u32>)
    ensures { Writes T.written T.has_failed line.old (id_if id) line.new }
{
    match id {
        Some(id) => line.put_unsigned(u64::from(id)),
        None => line.put(b"null"),
    }
}

/// Writes the name and the identifier of a template, and what is between them.
fn put_template<T: Target>(line: &mut LineWriter<'_, T>, templates: &Templates, number: u32)
    ensures { Writes T.written T.has_failed line.old (template_words (tree_of templates.now) number) line.new }
{
    line.put(template_text(templates, number).as_bytes());
    line.put(b"\",\"id\":");
    put_id(line, template_id(templates, number));
}

/// Writes the start of a message's object.
fn put_message<T: Target>(line: &mut LineWriter<'_, T>, templates: &Templates, number: u32)
    ensures { Writes T.written T.has_failed line.old (message_words (tree_of templates.now) number) line.new }
{
    line.put(b"{\"template\":\"");
    put_template(line, templates, number);
    line.put(b",\"message\":{");
}

/// Writes the text of an event.
fn put_event<T: Target>(
    line: &mut LineWriter<'_, T>,
    keys: &Keys<'_>,
    is_first: bool,
    event: Event<'_>,
)
    ensures { Writes T.written T.has_failed line.old
        (event_text (tree_of (set_of keys.now)) (repeats_in keys.now) is_first (event_data event.entry)) line.new }
{
    match event {
        Event::MessageStart { template } => put_message(line, keys.templates, template),
        Event::Field { node, value } => {
            put_key(line, keys, is_first, node);
            put_value(line, value);
        }
        Event::GroupStart { node } => {
            put_key(line, keys, is_first, node);
            line.put(b"{");
        }
        Event::SequenceStart { node, .. } => {
            put_key(line, keys, is_first, node);
            line.put(b"[");
        }
        Event::ElementStart => {
            put_comma(line, is_first);
            line.put(b"{");
        }
        Event::GroupEnd => line.put(b"}"),
        Event::ElementEnd => line.put(b"}"),
        Event::SequenceEnd => line.put(b"]"),
        Event::MessageEnd => line.put(b"}}\n"),
    }
}

/// Writes what comes before the last keys of an object: the brackets that are open and a comma, or the start of an object if none is.
fn put_open<T: Target>(line: &mut LineWriter<'_, T>, brackets: &[u8])
    ensures { Writes T.written T.has_failed line.old (before_last brackets.now) line.new }
{
    if brackets.is_empty() {
        line.put(b"{");
    } else {
        line.put(brackets);
        line.put(b",");
    }
}

/// Writes the end of an object whose rest is not known, if one is open.
fn put_unknown<T: Target>(line: &mut LineWriter<'_, T>, brackets: &[u8])
    ensures { Writes T.written T.has_failed line.old (json_incomplete brackets.now) line.new }
{
    if !brackets.is_empty() {
        line.put(brackets);
        line.put(b",\"incomplete\":true}\n");
    }
}

/// Turns a failure of the target into a stop.
#[inline(always)]
fn stop_where_failed(outcome: Result<(), Failed>) -> Result<(), Stop>
    ensures { is_ok result ≡ is_ok outcome }
{
    match outcome {
        Ok(()) => Ok(()),
        Err(_) => Err(Stop),
    }
}

impl<'a, T: Target> JsonSink<'a, T> {
    ghost use Rattle.fast_json.specs.meaning.JsonSink.{target_of, keys_of, nesting_in};

    /// Makes a sink that writes to a target.
    pub fn new(keys: &'a Keys<'a>, target: T) -> JsonSink<'a, T>
        ensures keys { keys_of result ≡ keys.entry.now }
        ensures target { target_of result ≡ target }
        ensures nesting { nesting_in result ≡ between_messages }
    {
        JsonSink {
            keys,
            target,
            kept: Room::new(),
            brackets: Brackets::new(),
        }
    }

    /// Ends what is open, with the code and the offset of a fault as its last keys; or writes an object of these alone, between messages.
    pub fn put_fault(&mut self, fault: Fault) -> Result<(), Failed>
        ensures written { OnOk result (Appends (T.written (target_of self.old)) (T.written (target_of self.new))
            (json_fault (nesting_in self.old).brackets fault.code fault.place)) }
        ensures part { OnErr result (AppendsFront (T.written (target_of self.old)) (T.written (target_of self.new))
            (json_fault (nesting_in self.old).brackets fault.code fault.place)) }
        ensures fails { OnErr result (IsTrue (T.has_failed (target_of self.new))) }
        ensures stays { OnOk result (T.has_failed (target_of self.new) ≡ T.has_failed (target_of self.old)) }
        ensures nesting { nesting_in self.new ≡ between_messages }
        ensures keys { keys_of self.new ≡ keys_of self.old }
    {
        let mut line = LineWriter::new(&mut self.target, &mut self.kept);
        put_open(&mut line, self.brackets.as_slice());
        line.put(b"\"fault\":\"");
        line.put(fault.code.name().as_bytes());
        line.put(b"\",\"offset\":");
        line.put_unsigned(fault.place);
        line.put(b"}\n");
        let outcome = line.finish();
        self.brackets = Brackets::new();
        outcome
    }

    /// Ends what is open, with the number of bytes after which the stream ends inside a message as its last key; or writes an object of
    /// this alone, between messages.
    pub fn put_truncated(&mut self, consumed: u64) -> Result<(), Failed>
        ensures written { OnOk result (Appends (T.written (target_of self.old)) (T.written (target_of self.new))
            (json_truncated (nesting_in self.old).brackets consumed)) }
        ensures part { OnErr result (AppendsFront (T.written (target_of self.old)) (T.written (target_of self.new))
            (json_truncated (nesting_in self.old).brackets consumed)) }
        ensures fails { OnErr result (IsTrue (T.has_failed (target_of self.new))) }
        ensures stays { OnOk result (T.has_failed (target_of self.new) ≡ T.has_failed (target_of self.old)) }
        ensures nesting { nesting_in self.new ≡ between_messages }
        ensures keys { keys_of self.new ≡ keys_of self.old }
    {
        let mut line = LineWriter::new(&mut self.target, &mut self.kept);
        put_open(&mut line, self.brackets.as_slice());
        line.put(b"\"truncated\":");
        line.put_unsigned(consumed);
        line.put(b"}\n");
        let outcome = line.finish();
        self.brackets = Brackets::new();
        outcome
    }

    /// Ends what is open, if anything is, with a key that says that the rest of the message is not known.
    pub fn put_incomplete(&mut self) -> Result<(), Failed>
        ensures written { OnOk result (Appends (T.written (target_of self.old)) (T.written (target_of self.new))
            (json_incomplete (nesting_in self.old).brackets)) }
        ensures part { OnErr result (AppendsFront (T.written (target_of self.old)) (T.written (target_of self.new))
            (json_incomplete (nesting_in self.old).brackets)) }
        ensures fails { OnErr result (IsTrue (T.has_failed (target_of self.new))) }
        ensures stays { OnOk result (T.has_failed (target_of self.new) ≡ T.has_failed (target_of self.old)) }
        ensures nesting { nesting_in self.new ≡ between_messages }
        ensures keys { keys_of self.new ≡ keys_of self.old }
    {
        let mut line = LineWriter::new(&mut self.target, &mut self.kept);
        put_unknown(&mut line, self.brackets.as_slice());
        let outcome = line.finish();
        self.brackets = Brackets::new();
        outcome
    }

    /// Writes out the bytes that the target buffers.
    pub fn flush(&mut self) -> Result<(), Failed>
        ensures kept { Appends (T.written (target_of self.old)) (T.written (target_of self.new)) [] }
        ensures fails { OnErr result (IsTrue (T.has_failed (target_of self.new))) }
        ensures stays { OnOk result (T.has_failed (target_of self.new) ≡ T.has_failed (target_of self.old)) }
        ensures nesting { nesting_in self.new ≡ nesting_in self.old }
        ensures keys { keys_of self.new ≡ keys_of self.old }
    {
        self.target.flush()
    }
}

impl<T: Target> Sink for JsonSink<'_, T> {
    ghost use Rattle.fast_json.specs.meaning.JsonSink.{TakesEvent, StopsInEvent};

    ghost takes = { TakesEvent T.written T.has_failed };

    ghost stops = { StopsInEvent T.written T.has_failed };

    fn take(&mut self, event: Event<'_>) -> Result<(), Stop> {
        event_holds_bytes(event);
        let mut line = LineWriter::new(&mut self.target, &mut self.kept);
        put_event(&mut line, self.keys, self.brackets.is_first(), event);
        let outcome = line.finish();
        self.brackets.note(event);
        stop_where_failed(outcome)
    }
}

impl<T: Target> Output for JsonSink<'_, T> {
    ghost use Rattle.fast_json.specs.meaning.JsonSink.{Flushes, PutsFault, PutsCut, target_of};

    ghost flushes = { Flushes T.written T.has_failed };

    ghost puts_fault = { PutsFault T.written T.has_failed };

    ghost puts_cut = { PutsCut T.written T.has_failed };

    ghost has_failed = { λ s. T.has_failed (target_of s) };

    ghost stops_failed = { λ old e new h. h.has_failed };

    fn flush(&mut self) -> Result<(), Failed> {
        self.flush()
    }

    fn put_fault(&mut self, fault: Fault) -> Result<(), Failed> {
        self.put_fault(fault)
    }

    fn put_cut(&mut self, consumed: u64) -> Result<(), Failed> {
        self.put_truncated(consumed)
    }
}
