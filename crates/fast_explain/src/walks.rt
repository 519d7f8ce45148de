//! The fields of a template in the order of the file, and the path to each.

use crate::keys::{items_of, name_of};
use crate::notes::{Note, put, put_number, put_quoted};
use std::alloc::{AllocError, Global};
use toml::Value;

/// The number of fields that a path names at its start and at its end; it omits those in between.
const NAMED: usize = 8;

/// The fields of one table.
#[derive(Clone, Copy)]
struct Level<'a> {
    fields: &'a [Value],
    /// The number of them that were visited.
    passed: usize,
}

/// A walk over the fields of a template, each one before those in it.
#[derive(Drop)]
pub(crate) struct Walk<'a> {
    /// The tables around the last visited field, the outermost first.
    levels: Vec<Level<'a>>,
    last: Option<&'a Value>,
}

impl<'a> Walk<'a> {
    /// Starts before the first field of a template.
    pub(crate) fn new(alloc: Global, template: &'a Value) -> Walk<'a> {
        Walk {
            levels: Vec::new(alloc),
            last: Some(template),
        }
    }

    /// Returns the next field, if there is one.
    pub(crate) fn next(&mut self) -> Result<Option<&'a Value>, AllocError> {
        if let Some(last) = self.last {
            self.levels.push(Level {
                fields: items_of(last, "fields"),
                passed: 0,
            })?;
        }
        self.last = self.following();
        Ok(self.last)
    }

    /// Returns the first field of the innermost table that has one left, and leaves the tables that have none.
    fn following(&mut self) -> Option<&'a Value> {
        for _level in 0..=self.levels.len() {
            let level = self.levels.last_mut()?;
            if let Some(field) = level.fields.get(level.passed) {
                level.passed = level.passed.saturating_add(1);
                return Some(field);
            }
            let _ = self.levels.pop();
        }
        None
    }

    /// Returns the number of groups and sequences around the last visited field.
    pub(crate) fn depth(&self) -> usize {
        self.levels.len().saturating_sub(1)
    }

    /// Writes the path to the last visited field.
    pub(crate) fn tell_way(&self, note: &mut Note) {
        let count = self.levels.len();
        for (k, level) in self.levels.iter().enumerate() {
            let number = level.passed.saturating_sub(1);
            if k == NAMED && count > 2 * NAMED {
                let _ = put(note, &[", .."]);
            }
            if k < NAMED || count - k <= NAMED {
                tell_field(note, number, level.fields.get(number));
            }
        }
    }
}

/// Writes the number and the name of a field of a table.
fn tell_field(note: &mut Note, number: usize, field: Option<&Value>) {
    let _ = put(note, &[", field "]) && put_number(note, number as u64);
    if let Some(field) = field {
        if let Some(name) = name_of(field) {
            let _ = put(note, &[" "]) && put_quoted(note, name);
        }
    }
}

/// Begins the line of a position with a template.
pub(crate) fn tell_template(note: &mut Note, number: usize, template: &Value) {
    let begun = put(note, &["  template "]);
    let _ = begun
        && match name_of(template) {
            Some(name) => put_quoted(note, name),
            None => put_number(note, number as u64),
        };
}
