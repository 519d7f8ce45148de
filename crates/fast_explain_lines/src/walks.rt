//! The position in a template that the lines before another one lead to.

use crate::misfits::{part, rest, text_of};
use arrayvec::ArrayVec;
use fast_lines::forms::{Line, parse_line};
use fast_template::Templates;
use fast_tree::Shape;
use memchr::memchr;

/// The greatest number of open segments and sequences: that of a message, and two for each of the groups and sequences that nest.
const OPEN: usize = 130;

/// The lines of a file, one after the other.
#[derive(Clone, Copy)]
pub(crate) struct Lines<'a> {
    left: &'a [u8],
}

impl<'a> Lines<'a> {
    /// Starts before the first line.
    pub(crate) fn new(text: &'a [u8]) -> Lines<'a> {
        Lines { left: text }
    }

    /// Returns the next line without its LF, if there is one. The last line may have no LF.
    pub(crate) fn next(&mut self) -> Option<&'a [u8]> {
        let left = self.left;
        if left.is_empty() {
            return None;
        }
        match memchr(b'\n', left) {
            Some(at) => {
                self.left = rest(left, at.saturating_add(1));
                Some(part(left, 0, at))
            }
            None => {
                self.left = &[];
                Some(left)
            }
        }
    }
}

/// A segment or a sequence that has begun and not ended.
#[derive(Clone, Copy)]
pub(crate) enum Open {
    /// The message, a group, or an element of a sequence.
    Segment {
        /// The node of the group or the sequence.
        node: Option<u32>,
        /// The number of its instructions that were passed.
        passed: usize,
    },
    /// A sequence, between two elements.
    Sequence {
        node: u32,
        /// The number of its line.
        line: u64,
        /// The number of elements in that line.
        count: u32,
        /// The number of elements that have begun.
        begun: u32,
    },
}

impl Default for Open {
    fn default() -> Open {
        Open::Segment {
            node: None,
            passed: 0,
        }
    }
}

/// The current message.
#[derive(Clone, Copy)]
pub(crate) struct Start {
    /// The number of its template.
    pub(crate) template: u32,
    /// The number of its first line.
    pub(crate) line: u64,
}

/// A walk over lines that are valid.
#[derive(Drop)]
pub(crate) struct Walk<'t> {
    pub(crate) templates: &'t Templates,
    /// The current message, if there is one.
    pub(crate) start: Option<Start>,
    /// The segments and sequences that are open, the outermost first.
    open: ArrayVec<Open, OPEN>,
}

/// The lines that can come next: those of some nodes, or after all of them an ending.
#[derive(Clone, Copy)]
pub(crate) struct Choices<'t> {
    pub(crate) nodes: &'t [u32],
    pub(crate) ending: Option<&'static str>,
}

/// Returns the nodes of the segment of a group or sequence, or of a message of a template.
fn body_of(templates: &Templates, start: Option<Start>, node: Option<u32>) -> &[u32] {
    match (node, start) {
        (Some(node), _) if node < templates.nodes() => match &templates.node(node).shape {
            Shape::Field(_) | Shape::Decimal { .. } => &[],
            Shape::Group { body, .. } | Shape::Sequence { body, .. } => body.as_slice(),
        },
        (None, Some(start)) if start.template < templates.count() => {
            templates.template(start.template).body.as_slice()
        }
        _ => &[],
    }
}

/// Returns whether the node of a number is optional.
pub(crate) fn is_optional(templates: &Templates, number: u32) -> bool {
    number < templates.nodes() && templates.is_optional(number)
}

/// Returns the line that ends the segment of a node, or of a message.
fn ending_of(templates: &Templates, node: Option<u32>) -> &'static str {
    match node {
        Some(node) if node < templates.nodes() => match &templates.node(node).shape {
            Shape::Group { .. } => "end group",
            _ => "end element",
        },
        _ => "end message",
    }
}

impl<'t> Walk<'t> {
    /// Starts before the first line.
    pub(crate) fn new(templates: &'t Templates) -> Walk<'t> {
        Walk {
            templates,
            start: None,
            open: ArrayVec::new(),
        }
    }

    /// Passes a line. Returns false if it cannot be there.
    pub(crate) fn pass(&mut self, number: u64, line: &[u8]) -> bool {
        match parse_line(line) {
            Some(Line::Message { name }) => self.begin(number, name),
            Some(Line::Field { node, .. }) => self.pass_node(node),
            Some(Line::Group { node, .. }) => {
                self.pass_node(node)
                    && self.enter(Open::Segment {
                        node: Some(node),
                        passed: 0,
                    })
            }
            Some(Line::Sequence { node, count, .. }) => {
                self.pass_node(node)
                    && self.enter(Open::Sequence {
                        node,
                        line: number,
                        count,
                        begun: 0,
                    })
            }
            Some(Line::Element) => self.pass_element(),
            Some(Line::GroupEnd | Line::ElementEnd | Line::SequenceEnd) => self
                .open
                .pop()
                .is_some(),
            Some(Line::MessageEnd) => {
                self.start = None;
                self.open.pop().is_some()
            }
            None => false,
        }
    }

    /// Opens a segment or a sequence.
    fn enter(&mut self, open: Open) -> bool {
        self.open.try_push(open).is_ok()
    }

    /// Begins a message.
    fn begin(&mut self, line: u64, name: &[u8]) -> bool {
        match self.templates.by_name(text_of(name)) {
            Some(template) => {
                self.start = Some(Start { template, line });
                self.enter(Open::Segment {
                    node: None,
                    passed: 0,
                })
            }
            None => false,
        }
    }

    /// Passes an instruction of the innermost segment.
    fn pass_node(&mut self, number: u32) -> bool {
        let Some(Open::Segment { node, passed }) = self.open.pop() else {
            return false;
        };
        let body = body_of(self.templates, self.start, node);
        match rest_of(body, passed).iter().position(|it| *it == number) {
            Some(more) => self.enter(Open::Segment {
                node,
                passed: passed.saturating_add(more).saturating_add(1),
            }),
            None => false,
        }
    }

    /// Begins an element of the innermost sequence.
    fn pass_element(&mut self) -> bool {
        match self.open.pop() {
            Some(
                Open::Sequence {
                    node,
                    line,
                    count,
                    begun,
                },
            ) => {
                self.enter(Open::Sequence {
                    node,
                    line,
                    count,
                    begun: begun.saturating_add(1),
                }) && self.enter(Open::Segment {
                    node: Some(node),
                    passed: 0,
                })
            }
            _ => false,
        }
    }

    /// Returns the innermost segment or sequence that is open.
    pub(crate) fn innermost(&self) -> Option<Open> {
        self.open.last().copied()
    }

    /// Returns the instructions of the innermost segment: those that were passed, and those that are left.
    pub(crate) fn segment(&self) -> (&'t [u32], &'t [u32]) {
        match self.innermost() {
            Some(Open::Segment { node, passed }) => {
                let body = body_of(self.templates, self.start, node);
                (first_of(body, passed), rest_of(body, passed))
            }
            _ => (&[], &[]),
        }
    }

    /// Returns what can come next.
    pub(crate) fn choices(&self) -> Choices<'t> {
        match self.innermost() {
            None => Choices {
                nodes: &[],
                ending: None,
            },
            Some(Open::Sequence { count, begun, .. }) => Choices {
                nodes: &[],
                ending: Some(if begun < count {
                    "element"
                } else {
                    "end sequence"
                }),
            },
            Some(Open::Segment { node, .. }) => {
                let (_, left) = self.segment();
                match self.mandatory(left) {
                    Some(k) => Choices {
                        nodes: first_of(left, k.saturating_add(1)),
                        ending: None,
                    },
                    None => Choices {
                        nodes: left,
                        ending: Some(ending_of(self.templates, node)),
                    },
                }
            }
        }
    }

    /// Returns the index of the first mandatory one of these nodes.
    pub(crate) fn mandatory(&self, nodes: &[u32]) -> Option<usize> {
        for (k, number) in nodes.iter().enumerate() {
            if !is_optional(self.templates, *number) {
                return Some(k);
            }
        }
        None
    }
}

/// Returns the nodes from an index on.
fn rest_of(nodes: &[u32], from: usize) -> &[u32] {
    match nodes.get(from..nodes.len()) {
        Some(nodes) => nodes,
        None => &[],
    }
}

/// Returns the first of these nodes, at most that many.
fn first_of(nodes: &[u32], count: usize) -> &[u32] {
    match nodes.get(0..count.min(nodes.len())) {
        Some(nodes) => nodes,
        None => &[],
    }
}
