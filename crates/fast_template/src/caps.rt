//! The nesting depth of a set, and the most events that a message of it can have.

ghost use Rattle.std.specs.Prelude.{◌≡◌, ℕ, ◌+◌, ◌*◌, ◌^◌, max, ◌<◌, ◌≤◌, length, slice_index_or};
ghost use Rattle.fast_template.specs.meaning.Flat.{tree_of, body_of, instructions_from, no_instruction};
ghost use Rattle.fast_tree.specs.meaning.Numbers.{AreBelow, NameLaterNodes};
ghost use Rattle.fast_template.specs.device.Saturation.{in_32_bits, in_64_bits};
ghost use Rattle.fast_template.specs.device.Counts.{AreCounts, AreCountsOf, AreCountsOfBody};
ghost use Rattle.fast_tree.specs.meaning.Sizes.{depth, body_depth, set_depth, message_cap};

use crate::sets::Templates;
use fast_tree::{Node, Shape};
use fast_value::Limits;

impl Templates {
    /// Returns the depth to which groups and sequences nest: 0 for a set without any.
    pub fn depth(&self) -> u32
        ensures greatest { result ≡ set_depth (tree_of self.now) }
        ensures few { result ≤ 65536 }
    {
        let mut deepest: u32 = 0;
        for template in &self.templates {
            deepest = deepest.max(body_depth(&self.nodes, &template.body));
        }
        deepest
    }

    /// Returns the most events that a message can have under these limits: the lesser of two bounds, one by the limit on the elements of
    /// each sequence, one by the limit on the elements of the whole message.
    pub fn message_cap(&self, limits: Limits) -> u64
        ensures { result ≡ message_cap (tree_of self.now) limits }
    {
        let max_total = widened(limits.max_total);
        let mut by_sequence: u64 = 0;
        let mut by_message: u64 = 0;
        for template in &self.templates {
            let message = group_counts(body_counts(&self.nodes, limits, &template.body));
            by_sequence = by_sequence.max(message.all);
            by_message = by_message.max(with_elements(message, max_total));
        }
        by_sequence.min(by_message)
    }
}

/// Returns the limit in 64 bits.
fn widened(limit: u32) -> u64
    ensures value { result ≡ limit }
    ensures small { result < 2 ^ 32 }
{
    u64::from(limit)
}

/// Returns the most events of a message with `max_total` elements.
fn with_elements(message: Counts, max_total: u64) -> u64
    ensures { (a o w : ℕ) → AreCounts message a o w → result ≡ in_64_bits (o + max_total * w) }
{
    message
        .widest
        .saturating_mul(max_total)
        .saturating_add(message.outer)
}

/// Returns the depth to which groups and sequences nest in a body.
#[cycle(depth)]
fn body_depth(nodes: &[Node], body: &[u32]) -> u32
    requires later { NameLaterNodes nodes.now }
    requires below { AreBelow (length nodes.now) body.now }
    ensures { result ≡ in_32_bits (body_depth (body_of 0 (instructions_from 0 nodes.now) body.now)) }
{
    let mut deepest: u32 = 0;
    for number in body {
        deepest = deepest.max(node_depth(nodes, *number as usize));
    }
    deepest
}

/// Returns the depth to which groups and sequences nest in a node.
#[cycle(depth)]
fn node_depth(nodes: &[Node], number: usize) -> u32
    requires later { NameLaterNodes nodes.now }
    requires below { number < length nodes.now }
    ensures { result ≡ in_32_bits (depth (slice_index_or (instructions_from 0 nodes.now) number no_instruction)) }
{
    match &nodes[number].shape {
        Shape::Field(_) => 0,
        Shape::Decimal { .. } => 0,
        Shape::Group { body, .. } => body_depth(nodes, body).saturating_add(1),
        Shape::Sequence { body, .. } => body_depth(nodes, body).saturating_add(1),
    }
}

/// The number of events of a part of a message, counted in three ways. Each count stops at `u64::MAX`.
#[derive(Clone, Copy, Debug)]
struct Counts {
    /// With as many elements as each sequence may have.
    all: u64,
    /// Without the elements of its sequences.
    outer: u64,
    /// The greatest element in it, without the elements of that element's own sequences.
    widest: u64,
}

/// Counts the events of a body.
#[cycle(counts)]
fn body_counts(nodes: &[Node], limits: Limits, body: &[u32]) -> Counts
    requires later { NameLaterNodes nodes.now }
    requires below { AreBelow (length nodes.now) body.now }
    ensures { AreCountsOfBody result limits (body_of 0 (instructions_from 0 nodes.now) body.now) }
{
    let mut counts = Counts {
        all: 0,
        outer: 0,
        widest: 0,
    };
    for number in body {
        counts = counts_of_both(counts, node_counts(nodes, limits, *number as usize));
    }
    counts
}

/// Counts the events of a node.
#[cycle(counts)]
fn node_counts(nodes: &[Node], limits: Limits, number: usize) -> Counts
    requires later { NameLaterNodes nodes.now }
    requires below { number < length nodes.now }
    ensures { AreCountsOf result limits (slice_index_or (instructions_from 0 nodes.now) number no_instruction) }
{
    match &nodes[number].shape {
        Shape::Field(_) => field_counts(),
        Shape::Decimal { .. } => field_counts(),
        Shape::Group { body, .. } => group_counts(body_counts(nodes, limits, body)),
        Shape::Sequence { body, .. } => {
            sequence_counts(body_counts(nodes, limits, body), limits.max_elements)
        }
    }
}

/// Counts the events of one part of a body and the next together.
fn counts_of_both(first: Counts, next: Counts) -> Counts
    ensures { (a o w b p v : ℕ) → AreCounts first a o w → AreCounts next b p v
        → AreCounts result (a + b) (o + p) (max w v) }
{
    Counts {
        all: first.all.saturating_add(next.all),
        outer: first.outer.saturating_add(next.outer),
        widest: first.widest.max(next.widest),
    }
}

/// Counts the events of a field.
fn field_counts() -> Counts
    ensures { AreCounts result 1 1 0 }
{
    Counts {
        all: 1,
        outer: 1,
        widest: 0,
    }
}

/// Counts the events of a group, from those of its body.
fn group_counts(body: Counts) -> Counts
    ensures { (a o w : ℕ) → AreCounts body a o w → AreCounts result (2 + a) (2 + o) w }
{
    Counts {
        all: body.all.saturating_add(2),
        outer: body.outer.saturating_add(2),
        widest: body.widest,
    }
}

/// Counts the events of a sequence, from those of an element's body.
fn sequence_counts(body: Counts, max_elements: u32) -> Counts
    ensures { (a o w : ℕ) → AreCounts body a o w → AreCounts result (2 + max_elements * (2 + a)) 2 (max (2 + o) w) }
{
    let element = group_counts(body);
    Counts {
        all: element
            .all
            .saturating_mul(u64::from(max_elements))
            .saturating_add(2),
        outer: 2,
        widest: element.outer.max(element.widest),
    }
}
