//! The position in a message by its events: which instruction is next in each open segment.

use arrayvec::ArrayVec;
use fast_stream::Event;
use fast_template::Templates;
use fast_tree::Shape;

/// The greatest depth to which groups and sequences nest, and one for the message.
const DEPTH: usize = 65;

/// The segment that instructions are of.
#[derive(Clone, Copy, Debug, PartialEq, Eq)]
enum Segment {
    /// A message of this template.
    Message(u32),
    /// The group or the elements of the sequence of this node.
    Node(u32),
}

impl Default for Segment {
    fn default() -> Segment {
        Segment::Message(0)
    }
}

/// An open segment, and the number of its instructions that are past.
#[derive(Clone, Copy, Debug, Default, PartialEq, Eq)]
struct Open {
    segment: Segment,
    past: usize,
}

/// The open segments, the outermost first.
#[derive(Drop)]
pub struct Track {
    open: ArrayVec<Open, DEPTH>,
}

/// Returns the nodes of a segment's instructions.
fn body_of(templates: &Templates, segment: Segment) -> &[u32] {
    match segment {
        Segment::Message(number) if number < templates.count() => {
            templates.template(number).body.as_slice()
        }
        Segment::Node(number) if number < templates.nodes() => {
            match &templates.node(number).shape {
                Shape::Field(_) | Shape::Decimal { .. } => &[],
                Shape::Group { body, .. } | Shape::Sequence { body, .. } => body.as_slice(),
            }
        }
        _ => &[],
    }
}

/// Returns the number of instructions before this node's; 0 if there is none of this node.
fn number_before(instructions: &[u32], node: u32) -> usize {
    match instructions.iter().position(|number| *number == node) {
        Some(count) => count,
        None => 0,
    }
}

impl Track {
    /// Makes a track before the first message.
    pub fn new() -> Track {
        Track {
            open: ArrayVec::new(),
        }
    }

    /// Returns whether the template of a message is known.
    pub fn is_in_message(&self) -> bool {
        !self.open.is_empty()
    }

    /// Returns the instructions of the innermost segment that are left.
    fn left<'t>(&self, templates: &'t Templates) -> &'t [u32] {
        match self.open.last() {
            None => &[],
            Some(open) => {
                let body = body_of(templates, open.segment);
                if open.past < body.len() {
                    &body[open.past..]
                } else {
                    &[]
                }
            }
        }
    }

    /// Returns the next instruction of the innermost segment, if one is left.
    pub fn next(&self, templates: &Templates) -> Option<u32> {
        self.left(templates).first().copied()
    }

    /// Returns the number of instructions that are left of the innermost segment before this node's.
    pub fn skipped(&self, templates: &Templates, node: u32) -> usize {
        number_before(self.left(templates), node)
    }

    /// Passes an instruction of the innermost segment.
    pub fn pass(&mut self) {
        if let Some(open) = self.open.last_mut() {
            open.past = open.past.saturating_add(1);
        }
    }

    /// Opens a segment.
    fn begin(&mut self, segment: Segment) {
        let _ = self.open.try_push(Open { segment, past: 0 });
    }

    /// Follows an event, after the instructions before its own were passed.
    pub fn follow(&mut self, event: Event<'_>) {
        match event {
            Event::MessageStart { template } => {
                self.open.clear();
                self.begin(Segment::Message(template));
            }
            Event::Field { .. } => self.pass(),
            Event::GroupStart { node } | Event::SequenceStart { node, .. } => {
                self.pass();
                self.begin(Segment::Node(node));
            }
            Event::ElementStart => {
                if let Some(open) = self.open.last_mut() {
                    open.past = 0;
                }
            }
            Event::ElementEnd => {}
            Event::GroupEnd | Event::SequenceEnd => {
                let _ = self.open.pop();
            }
            Event::MessageEnd => self.open.clear(),
        }
    }

    /// Returns the number of instructions that are absent if this event comes next.
    pub fn absent_before(&self, templates: &Templates, event: Event<'_>) -> usize {
        match event {
            Event::Field { node, .. }
            | Event::GroupStart { node }
            | Event::SequenceStart { node, .. } => self.skipped(templates, node),
            Event::GroupEnd | Event::ElementEnd | Event::MessageEnd => self.left(templates).len(),
            Event::MessageStart { .. } | Event::ElementStart | Event::SequenceEnd => 0,
        }
    }
}
