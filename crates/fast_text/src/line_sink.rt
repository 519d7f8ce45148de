//! A sink that writes a line for each event.

ghost use Rattle.std.specs.Prelude.{◌≡◌, [], ◌∷◌, ◌++◌, is_ok};
ghost use Rattle.fast_template.specs.meaning.Flat.{tree_of};
ghost use Rattle.fast_stream.specs.meaning.Events.{GroupStart, SequenceStart};
ghost use Rattle.fast_stream.specs.meaning.Handed.{event_data};
ghost use Rattle.fast_lines.specs.meaning.Lines.{line_of, node as node_words};
ghost use Rattle.fast_text.specs.device.Front.{AreFronts, field_front, message_front};
ghost use Rattle.fast_text.specs.meaning.LineWriter.{Writes};

use crate::front::Front;
use crate::fronts::Fronts;
use crate::line_writer::LineWriter;
use crate::name_texts::{node_text, template_text};
use crate::room::Room;
use crate::streams::{Failed, Target};
use fast_lines::holding::event_holds_bytes;
use fast_stream::{Event, Sink, Stop};
use fast_template::Templates;

/// A sink that writes a line for each event, with the names of a template set. It allocates nothing, and stops only if the target fails.
#[derive(Drop)]
pub struct LineSink<'a, T> {
    templates: &'a Templates,
    /// The prefixes of field lines, by node; empty, or those of the first nodes.
    fronts: &'a [Front],
    /// The lines that start messages, by template; empty, or those of the first templates.
    messages: &'a [Front],
    target: &'a mut T,
    kept: Room,
    ghost right: { AreFronts (field_front (tree_of templates.now)) fronts.now },
    ghost begun: { AreFronts (message_front (tree_of templates.now)) messages.now },
}

/// Writes a node's number and its name.
fn put_node<T: Target>(line: &mut LineWriter<'_, T>, templates: &Templates, node: u32)
    ensures { Writes T.written T.has_failed line.old (node_words (tree_of templates.now) node) line.new }
{
    line.put_unsigned(u64::from(node));
    line.put(b" ");
    line.put(node_text(templates, node).as_bytes());
}

/// Writes the prefix of a field's line, up to its value.
#[inline(always)]
fn put_field<T: Target>(
    line: &mut LineWriter<'_, T>,
    templates: &Templates,
    fronts: &[Front],
    node: u32,
)
    requires { AreFronts (field_front (tree_of templates.now)) fronts.now }
    ensures { Writes T.written T.has_failed line.old (field_front (tree_of templates.now) node) line.new }
{
    let place = node as usize;
    if place < fronts.len() && fronts[place].len > 0 {
        line.put_front(&fronts[place].cells, fronts[place].len);
    } else {
        line.put(b"field ");
        put_node(line, templates, node);
        line.put(b" ");
    }
}

/// Writes the line that starts a message.
#[inline(always)]
fn put_message<T: Target>(
    line: &mut LineWriter<'_, T>,
    templates: &Templates,
    messages: &[Front],
    template: u32,
)
    requires { AreFronts (message_front (tree_of templates.now)) messages.now }
    ensures { Writes T.written T.has_failed line.old (message_front (tree_of templates.now) template) line.new }
{
    let place = template as usize;
    if place < messages.len() && messages[place].len > 0 {
        line.put_front(&messages[place].cells, messages[place].len);
    } else {
        line.put(b"message ");
        line.put(template_text(templates, template).as_bytes());
        line.put(b"\n");
    }
}

/// Writes the line that starts a group.
#[inline(always)]
fn put_group<T: Target>(line: &mut LineWriter<'_, T>, templates: &Templates, node: u32)
    ensures { Writes T.written T.has_failed line.old
        (line_of (tree_of templates.now) (GroupStart node) ++ 0x0A ∷ []) line.new }
{
    line.put(b"group ");
    put_node(line, templates, node);
    line.put(b"\n");
}

/// Writes the line that starts a sequence.
#[inline(always)]
fn put_sequence<T: Target>(
    line: &mut LineWriter<'_, T>,
    templates: &Templates,
    node: u32,
    count: u32,
)
    ensures { Writes T.written T.has_failed line.old
        (line_of (tree_of templates.now) (SequenceStart node count) ++ 0x0A ∷ []) line.new }
{
    line.put(b"sequence ");
    put_node(line, templates, node);
    line.put(b" ");
    line.put_unsigned(u64::from(count));
    line.put(b"\n");
}

/// Writes the line of an event.
#[inline(always)]
fn put_event<T: Target>(
    line: &mut LineWriter<'_, T>,
    templates: &Templates,
    fronts: &[Front],
    messages: &[Front],
    event: Event<'_>,
)
    requires fields { AreFronts (field_front (tree_of templates.now)) fronts.now }
    requires messages { AreFronts (message_front (tree_of templates.now)) messages.now }
    ensures { Writes T.written T.has_failed line.old
        (line_of (tree_of templates.now) (event_data event.entry) ++ 0x0A ∷ []) line.new }
{
    match event {
        Event::MessageStart { template } => put_message(line, templates, messages, template),
        Event::Field { node, value } => {
            put_field(line, templates, fronts, node);
            line.put_value_line(value);
        }
        Event::GroupStart { node } => put_group(line, templates, node),
        Event::GroupEnd => line.put(b"end group\n"),
        Event::SequenceStart { node, count } => put_sequence(line, templates, node, count),
        Event::ElementStart => line.put(b"element\n"),
        Event::ElementEnd => line.put(b"end element\n"),
        Event::SequenceEnd => line.put(b"end sequence\n"),
        Event::MessageEnd => line.put(b"end message\n"),
    }
}

/// Turns a failure of the target into a stop.
#[inline(always)]
fn stop_where_failed(outcome: Result<(), Failed>) -> Result<(), Stop>
    ensures { is_ok result ≡ is_ok outcome }
{
    match outcome {
        Ok(()) => Ok(()),
        Err(_) => Err(Stop),
    }
}

impl<'a, T: Target> LineSink<'a, T> {
    ghost use Rattle.fast_text.specs.meaning.Fronts.{set_of};
    ghost use Rattle.fast_text.specs.meaning.LineSink.{IsOver};

    /// Makes a sink that writes to a target.
    pub fn new(templates: &'a Templates, target: &'a mut T) -> LineSink<'a, T>
        ensures { IsOver templates.entry target.entry result }
    {
        LineSink {
            templates,
            fronts: &[],
            messages: &[],
            target,
            kept: Room::new(),
        }
    }

    /// Makes a sink that writes to a target, and uses the prefixes of a set's lines. It writes the lines of [`LineSink::new`] in less time.
    pub fn with_fronts(fronts: &'a Fronts<'_>, target: &'a mut T) -> LineSink<'a, T>
        ensures { IsOver (set_of fronts.entry.now) target.entry result }
    {
        LineSink {
            templates: fronts.templates,
            fronts: fronts.fields.as_slice(),
            messages: fronts.messages.as_slice(),
            target,
            kept: Room::new(),
        }
    }
}

impl<T: Target> Sink for LineSink<'_, T> {
    ghost use Rattle.fast_text.specs.meaning.LineSink.{TakesLine, StopsInLine};

    ghost takes = { TakesLine T.written T.has_failed };

    ghost stops = { StopsInLine T.written T.has_failed };

    fn take(&mut self, event: Event<'_>) -> Result<(), Stop> {
        event_holds_bytes(event);
        let mut line = LineWriter::new(&mut *self.target, &mut self.kept);
        put_event(&mut line, self.templates, self.fronts, self.messages, event);
        stop_where_failed(line.finish())
    }
}
