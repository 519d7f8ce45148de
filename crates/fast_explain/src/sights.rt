//! A second decoder of the same input, which ends at the same byte as the first and finds the field there.

use crate::notes::{Note, put, put_number, put_quoted};
use crate::tails::{is_digit, value_of};
use arrayvec::ArrayVec;
use fast_decoder::{Decoder, Due, Event, FaultCode, Sink, Stop};
use fast_template::Templates;
use fast_tree::{Node, Shape, Template};
use fast_value::{Code, Limits};
use std::alloc::Global;

/// The greatest depth to which groups and sequences nest.
const DEPTH: usize = 64;

/// A sink that keeps the template of the current message, and its open groups and sequences.
#[derive(Drop)]
struct Hearer {
    /// The number of the current message's template, if there is a message.
    template: Option<u32>,
    /// The nodes of the open groups and sequences, the outermost first.
    open: ArrayVec<u32, DEPTH>,
    /// True if a message has ended.
    is_past_first: bool,
}

impl Sink for Hearer {
    ghost takes = { λ _ _ _. Unit {0} };

    ghost stops = { λ _ _ _. Unit {0} };

    fn take(&mut self, event: Event<'_>) -> Result<(), Stop> {
        match event {
            Event::MessageStart { template } => self.template = Some(template),
            Event::MessageEnd => {
                self.template = None;
                self.is_past_first = true;
            }
            Event::GroupStart { node } | Event::SequenceStart { node, .. } => {
                let _ = self.open.try_push(node);
            }
            Event::GroupEnd | Event::SequenceEnd => {
                let _ = self.open.pop();
            }
            Event::Field { .. } | Event::ElementStart | Event::ElementEnd => {}
        }
        Ok(())
    }
}

/// A decoder that is fed the input of another one.
#[derive(Drop)]
pub(crate) struct Shadow<'t> {
    templates: &'t Templates,
    decoder: Decoder<'t>,
    hearer: Hearer,
    /// The first digit of a byte whose second digit has not been read.
    half: Option<u8>,
}

/// Returns whether a code is about presence maps.
fn is_of_maps(code: Option<FaultCode>) -> bool {
    matches!(
        code,
        Some(FaultCode::Stream(Code::R7 | Code::R8 | Code::L3))
    )
}

/// Returns whether a code is about sequences with too many elements.
fn is_of_counts(code: Option<FaultCode>) -> bool {
    matches!(code, Some(FaultCode::Stream(Code::L2 | Code::L5)))
}

/// Returns the part of a message that is at fault with a code, or truncated, before its template is known.
fn part_of_message(code: Option<FaultCode>) -> &'static str {
    if code.is_none() {
        "  the presence map or the template identifier of a message"
    } else if is_of_maps(code) {
        "  the presence map of a message"
    } else {
        "  the template identifier of a message"
    }
}

/// Returns the nodes of a group's or sequence's segment.
fn body_of(node: &Node) -> &[u32] {
    match &node.shape {
        Shape::Field(_) | Shape::Decimal { .. } => &[],
        Shape::Group { body, .. } | Shape::Sequence { body, .. } => body.as_slice(),
    }
}

/// Returns the last node of a segment before another one, or the last of all.
fn last_before(body: &[u32], next: Option<u32>) -> Option<u32> {
    let mut last = None;
    for number in body {
        match next {
            Some(next) if *number >= next => {}
            _ => last = Some(*number),
        }
    }
    last
}

/// Writes a node.
fn tell_node(number: u32, node: &Node, note: &mut Note) {
    let word = match &node.shape {
        Shape::Field(_) | Shape::Decimal { .. } => "field",
        Shape::Group { .. } => "group",
        Shape::Sequence { .. } => "sequence",
    };
    let _ = put(note, &[", ", word, " "])
        && put_number(note, u64::from(number))
        && put(note, &[" "])
        && put_quoted(note, node.name.as_str());
}

impl<'t> Shadow<'t> {
    /// Makes a decoder that has read nothing; `None` if no decoder can be made, for example if an allocation fails.
    pub(crate) fn new(
        alloc: Global,
        templates: &'t Templates,
        limits: Limits,
    ) -> Option<Shadow<'t>> {
        match Decoder::new(alloc, templates, limits) {
            Err(_) => None,
            Ok(decoder) => Some(Shadow {
                templates,
                decoder,
                hearer: Hearer {
                    template: None,
                    open: ArrayVec::new(),
                    is_past_first: false,
                },
                half: None,
            }),
        }
    }

    /// Reads a piece of the stream, or of its hexadecimal digits.
    pub(crate) fn take_in(&mut self, piece: &[u8], is_hex: bool) {
        if is_hex {
            self.take_digits(piece);
        } else {
            self.take(piece);
        }
    }

    /// Reads bytes of the stream.
    fn take(&mut self, bytes: &[u8]) {
        let _ = self.decoder.feed(bytes, &mut self.hearer);
    }

    /// Reads bytes of the stream from hexadecimal digits.
    fn take_digits(&mut self, text: &[u8]) {
        for character in text {
            if is_digit(*character) {
                let value = value_of(*character);
                match self.half {
                    None => self.half = Some(value),
                    Some(high) => {
                        self.half = None;
                        self.take(&[high << 4 | value]);
                    }
                }
            }
        }
    }

    /// Returns the nodes of the innermost open segment, in a message of this template.
    fn segment<'a>(&'a self, template: &'a Template) -> &'a [u32] {
        if let Some(number) = self.hearer.open.last().copied() {
            if number < self.templates.nodes() {
                return body_of(self.templates.node(number));
            }
        }
        template.body.as_slice()
    }

    /// Writes a node, if the set has it.
    fn tell_number(&self, number: u32, note: &mut Note) {
        if number < self.templates.nodes() {
            tell_node(number, self.templates.node(number), note);
        }
    }

    /// Writes which part of the innermost open segment is at fault or truncated: this node, or the part before it.
    fn tell_due(
        &self,
        template: &Template,
        code: Option<FaultCode>,
        next: Option<u32>,
        note: &mut Note,
    ) {
        if is_of_maps(code) {
            let _ = put(note, &[", its presence map"]);
            return;
        }
        // A sequence with too many elements is past already.
        let place = if is_of_counts(code) {
            last_before((&*self).segment(&*template), next)
        } else {
            next
        };
        if let Some(number) = place {
            self.tell_number(number, note);
        }
    }

    /// Writes which part of a message is at fault with a code, or truncated: the groups and sequences that are open, and the part of the
    /// innermost one.
    fn tell_way(&self, template: &Template, code: Option<FaultCode>, note: &mut Note) {
        let _ = put(note, &["  template "]) && put_quoted(note, template.name.as_str());
        for number in self.hearer.open.iter() {
            self.tell_number(*number, note);
        }
        match self.decoder.in_hand() {
            Due::SegmentMap => {
                let _ = put(note, &[", its presence map"]);
            }
            Due::Instruction(number) => self.tell_due(template, code, Some(number), note),
            Due::Nothing => self.tell_due(template, code, None, note),
        }
    }

    /// Returns the template of the current message, if there is one.
    fn template(&self) -> Option<&Template> {
        let number = self.hearer.template?;
        if number < self.templates.count() {
            return Some(self.templates.template(number));
        }
        None
    }

    /// Writes what is at fault with a code, or truncated: a field, or a presence map.
    pub(crate) fn tell_place(&self, code: Option<FaultCode>, note: &mut Note) {
        match self.template() {
            Some(template) => self.tell_way(template, code, note),
            None => {
                let _ = put(note, &[part_of_message(code)]);
            }
        }
        let _ = put(note, &["\n"]);
    }

    /// Returns whether no message has ended.
    pub(crate) fn is_in_first(&self) -> bool {
        !self.hearer.is_past_first
    }
}
