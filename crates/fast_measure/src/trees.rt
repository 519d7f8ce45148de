//! A sink that keeps messages as trees.

use fast_decoder::{Event, Sink, Stop};
use fast_template::{Shape, Templates};
use fast_value::{Item, Message, Scalar, Value};
use std::alloc::{AllocError, Global};
use std::mem;

/// The slots of a message, a group or an element.
type Slots = Vec<Option<Item>>;

/// A message, a group or a sequence that is not complete.
#[derive(Drop)]
struct Open<'t> {
    /// The number of its template or node.
    number: u32,
    /// The nodes of its instructions, in order.
    body: &'t [u32],
    /// The slots so far; those of the open element, for a sequence.
    slots: Slots,
    /// The elements that are complete.
    elements: Vec<Slots>,
}

impl<'t> Open<'t> {
    /// Makes one without slots.
    fn new(alloc: Global, number: u32, body: &'t [u32]) -> Open<'t> {
        Open {
            number,
            body,
            slots: Vec::new(alloc),
            elements: Vec::new(alloc),
        }
    }

    /// Adds an item of a node, after absent slots for the instructions that had no event.
    fn add(&mut self, node: u32, item: Item) -> Result<(), AllocError> {
        for next in self.body.iter().skip(self.slots.len()) {
            if *next == node {
                break;
            }
            self.slots.push(None)?;
        }
        self.slots.push(Some(item))?;
        Ok(())
    }

    /// Adds absent slots for all remaining instructions, and returns the slots.
    fn end(&mut self, alloc: Global) -> Result<Slots, AllocError> {
        for _ in self.slots.len()..self.body.len() {
            self.slots.push(None)?;
        }
        Ok(mem::replace(&mut self.slots, Vec::new(alloc)))
    }
}

/// A sink that keeps messages as trees. It stops if an allocation fails.
#[derive(Drop)]
pub struct Trees<'t> {
    alloc: Global,
    templates: &'t Templates,
    /// The open parts of the current message, the innermost last.
    open: Vec<Open<'t>>,
    /// The messages that are complete.
    pub messages: Vec<Message>,
}

impl<'t> Trees<'t> {
    /// Makes a sink without messages.
    pub fn new(alloc: Global, templates: &'t Templates) -> Trees<'t> {
        Trees {
            alloc,
            templates,
            open: Vec::new(alloc),
            messages: Vec::new(alloc),
        }
    }

    /// Begins a message, a group or a sequence.
    fn begin(&mut self, number: u32, body: &'t [u32]) -> Result<(), AllocError> {
        self.open.push(Open::new(self.alloc, number, body))?;
        Ok(())
    }

    /// Adds an item of a node to the innermost open part.
    fn add(&mut self, node: u32, item: Item) -> Result<(), AllocError> {
        match self.open.last_mut() {
            Some(innermost) => innermost.add(node, item),
            None => Ok(()),
        }
    }

    /// Adds a field of a node.
    fn add_field(&mut self, node: u32, value: Scalar<'_>) -> Result<(), AllocError> {
        let value = Value::copy_of(self.alloc, value)?;
        self.add(node, Item::One(value))
    }

    /// Ends an element.
    fn end_element(&mut self) -> Result<(), AllocError> {
        if let Some(sequence) = self.open.last_mut() {
            let slots = sequence.end(self.alloc)?;
            sequence.elements.push(slots)?;
        }
        Ok(())
    }

    /// Ends a group.
    fn end_group(&mut self) -> Result<(), AllocError> {
        match self.open.pop() {
            Some(mut group) => {
                let slots = group.end(self.alloc)?;
                self.add(group.number, Item::Group(slots))
            }
            None => Ok(()),
        }
    }

    /// Ends a sequence.
    fn end_sequence(&mut self) -> Result<(), AllocError> {
        match self.open.pop() {
            Some(sequence) => self.add(sequence.number, Item::Sequence(sequence.elements)),
            None => Ok(()),
        }
    }

    /// Ends a message.
    fn end_message(&mut self) -> Result<(), AllocError> {
        if let Some(mut message) = self.open.pop() {
            let items = message.end(self.alloc)?;
            let template = message.number;
            self.messages.push(Message { template, items })?;
        }
        Ok(())
    }

    /// Receives an event.
    fn hold(&mut self, event: Event<'_>) -> Result<(), AllocError> {
        match event {
            Event::MessageStart { template } => self.begin(
                template,
                body_of_template(self.templates, template),
            ),
            Event::Field { node, value } => self.add_field(node, value),
            Event::GroupStart { node } | Event::SequenceStart { node, count: _ } => self.begin(
                node,
                body_of(self.templates, node),
            ),
            Event::ElementStart => Ok(()),
            Event::ElementEnd => self.end_element(),
            Event::GroupEnd => self.end_group(),
            Event::SequenceEnd => self.end_sequence(),
            Event::MessageEnd => self.end_message(),
        }
    }
}

/// Returns the nodes of a template's instructions.
fn body_of_template(templates: &Templates, template: u32) -> &[u32] {
    if template >= templates.count() {
        return &[];
    }
    templates.template(template).body.as_slice()
}

/// Returns the nodes of a group's or an element's instructions.
fn body_of(templates: &Templates, node: u32) -> &[u32] {
    if node >= templates.nodes() {
        return &[];
    }
    match &templates.node(node).shape {
        Shape::Group { body, .. } | Shape::Sequence { body, .. } => body.as_slice(),
        Shape::Field(_) | Shape::Decimal { .. } => &[],
    }
}

impl Sink for Trees<'_> {
    ghost takes = { λ _ _ _. Unit {0} };

    ghost stops = { λ _ _ _. Unit {0} };

    fn take(&mut self, event: Event<'_>) -> Result<(), Stop> {
        match self.hold(event) {
            Ok(()) => Ok(()),
            Err(AllocError) => Err(Stop),
        }
    }
}
