//! The prefixes of lines for all nodes and templates of a template set.

ghost use Rattle.std.specs.Prelude.{◌≡◌, IfOk};
ghost use Rattle.fast_template.specs.meaning.Flat.{tree_of};
ghost use Rattle.fast_text.specs.device.Front.{field_front, message_front, AreFronts};

use crate::front::{Front, field_at, message_at};
use fast_template::Templates;
use std::alloc::{AllocError, Global};

/// The prefixes of field lines, and the lines that start messages, made once for a template set.
#[derive(Debug, Drop)]
pub struct Fronts<'a> {
    pub(crate) templates: &'a Templates,
    pub(crate) fields: Vec<Front>,
    pub(crate) messages: Vec<Front>,
    ghost right: { AreFronts (field_front (tree_of templates.now)) fields.items },
    ghost begun: { AreFronts (message_front (tree_of templates.now)) messages.items },
}

/// Returns the prefixes of the field lines of all nodes.
fn all_fields(alloc: Global, templates: &Templates) -> Result<Vec<Front>, AllocError>
    ensures { IfOk result (λ fronts. AreFronts (field_front (tree_of templates.now)) fronts.items) }
{
    let mut fronts = Vec::with_capacity(alloc, templates.nodes() as usize)?;
    for n in 0..templates.nodes() {
        fronts.push(field_at(alloc, templates, n)?)?;
    }
    Ok(fronts)
}

/// Returns the lines that start the messages of all templates.
fn all_messages(alloc: Global, templates: &Templates) -> Result<Vec<Front>, AllocError>
    ensures { IfOk result (λ fronts. AreFronts (message_front (tree_of templates.now)) fronts.items) }
{
    let mut fronts = Vec::with_capacity(alloc, templates.count() as usize)?;
    for n in 0..templates.count() {
        fronts.push(message_at(alloc, templates, n)?)?;
    }
    Ok(fronts)
}

impl<'a> Fronts<'a> {
    ghost use Rattle.fast_text.specs.meaning.Fronts.{set_of};

    /// Makes the prefixes for the nodes and templates of a set.
    ///
    /// # Errors
    ///
    /// An allocation failed.
    pub fn new(alloc: Global, templates: &'a Templates) -> Result<Fronts<'a>, AllocError>
        ensures { IfOk result (λ fronts. (set_of fronts).now ≡ templates.entry.now) }
    {
        let fields = all_fields(alloc, templates)?;
        let messages = all_messages(alloc, templates)?;
        Ok(Fronts {
            templates,
            fields,
            messages,
        })
    }
}
