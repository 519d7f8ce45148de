//! Messages as trees of values.

use crate::values::Value;

/// A message: its template, and the values of its instructions.
#[derive(Debug, Drop, PartialEq)]
pub struct Message {
    /// The number of the template in its set, from 0.
    pub template: u32,
    /// One slot for each instruction of the template, in order; `None` if it is absent.
    pub items: Vec<Option<Item>>,
}

/// The contents of one slot of a message.
#[derive(Debug, Drop, PartialEq)]
pub enum Item {
    /// The value of a field.
    One(Value),
    /// A group, with one slot for each of its instructions.
    Group(Vec<Option<Item>>),
    /// The elements of a sequence, each with one slot for each of the sequence's instructions.
    Sequence(Vec<Vec<Option<Item>>>),
}
