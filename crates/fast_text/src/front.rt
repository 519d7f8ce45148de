//! The prefix of a field's line, up to its value, made once for each node; and the line that starts a message, once for each template.

ghost use Rattle.std.specs.Prelude.{◌≡◌, ◌<◌, ◌≤◌, IfOk, length, take};
ghost use Rattle.fast_template.specs.meaning.Flat.{tree_of};
ghost use Rattle.fast_text.specs.device.Front.{field_front, message_front, IsFront};

use crate::name_texts::{node_text, template_text};
use fast_template::Templates;
use itoa::Buffer;
use std::alloc::{AllocError, Global};

/// The greatest length of a prefix in bytes, so that it is copied as one block.
const FRONT: usize = 56;

/// The prefix of a field's line, up to its value, or the line that starts a message. It is empty if it would be longer than 56 bytes.
#[derive(Clone, Copy, Debug)]
pub struct Front {
    pub(crate) cells: [u8; FRONT],
    pub(crate) len: usize,
}

/// Returns the prefix of a field's line, up to its value.
///
/// # Errors
///
/// An allocation failed.
fn front_text(alloc: Global, templates: &Templates, node: u32) -> Result<Vec<u8>, AllocError>
    ensures { IfOk result (λ text. text.items ≡ field_front (tree_of templates.now) node) }
{
    let mut text = Vec::from_slice(alloc, b"field ")?;
    text.extend_from_slice(Buffer::new().format(node).as_bytes())?;
    text.extend_from_slice(b" ")?;
    text.extend_from_slice(node_text(templates, node).as_bytes())?;
    text.extend_from_slice(b" ")?;
    Ok(text)
}

/// Returns the line that starts a message of a template, with its LF.
///
/// # Errors
///
/// An allocation failed.
fn message_text(alloc: Global, templates: &Templates, template: u32) -> Result<Vec<u8>, AllocError>
    ensures { IfOk result (λ text. text.items ≡ message_front (tree_of templates.now) template) }
{
    let mut text = Vec::from_slice(alloc, b"message ")?;
    text.extend_from_slice(template_text(templates, template).as_bytes())?;
    text.extend_from_slice(b"\n")?;
    Ok(text)
}

/// Copies bytes to a [`Front`], which is empty if they are too long.
fn front_of(text: &[u8]) -> Front
    ensures short { result.len ≤ length result.cells }
    ensures made { 0 < result.len → take result.len result.cells ≡ text.now }
{
    let mut cells = [0; FRONT];
    if text.len() > FRONT {
        return Front { cells, len: 0 };
    }
    cells[..text.len()].copy_from_slice(text);
    Front {
        cells,
        len: text.len(),
    }
}

/// Returns the prefix of the field lines of a node.
///
/// # Errors
///
/// An allocation failed.
pub(crate) fn field_at(alloc: Global, templates: &Templates, node: u32) -> Result<Front, AllocError>
    ensures { IfOk result (IsFront (field_front (tree_of templates.now)) node) }
{
    let text = front_text(alloc, templates, node)?;
    Ok(front_of(text.as_slice()))
}

/// Returns the line that starts the messages of a template.
///
/// # Errors
///
/// An allocation failed.
pub(crate) fn message_at(
    alloc: Global,
    templates: &Templates,
    template: u32,
) -> Result<Front, AllocError>
    ensures { IfOk result (IsFront (message_front (tree_of templates.now)) template) }
{
    let text = message_text(alloc, templates, template)?;
    Ok(front_of(text.as_slice()))
}
