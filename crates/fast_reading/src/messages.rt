//! Messages from the lines of their events.

ghost use Rattle.std.specs.Prelude.{map, IfOk, IfErr};
ghost use Rattle.fast_value.specs.meaning.Views.{message_data};
ghost use Rattle.fast_template.specs.meaning.Flat.{tree_of};
ghost use Rattle.fast_messages.specs.meaning.Reading.{Says, OnBadLine, IsLineOf};
ghost use Rattle.fast_messages.specs.meaning.Unsaid.{SaysNothing};

use fast_messages::cursors::Cursor;
use fast_messages::faults::TextFault;
use fast_messages::messages::{push, read_message};
use fast_template::Templates;
use fast_value::Message;
use std::alloc::Global;

/// Returns the messages whose events have these lines. The last LF may be missing.
///
/// Memory and time are linear in the input: no allocation depends on a number of elements that the input claims.
///
/// # Errors
///
/// `BadLine` for the first invalid line; `Memory` if an allocation failed.
pub fn read_lines(
    alloc: Global,
    templates: &Templates,
    text: &[u8],
) -> Result<Vec<Message>, TextFault>
    ensures ok { IfOk result (λ ms. Says (tree_of templates.now) text.now (map message_data ms.items)) }
    ensures line { IfErr result (IsLineOf text.now) }
    ensures err { IfErr result (OnBadLine (SaysNothing (tree_of templates.now) text.now)) }
{
    let mut at = Cursor::new(alloc, text)?;
    let mut messages = Vec::new(alloc);
    while at.line.is_some() {
        let (message, next) = read_message(alloc, templates, at)?;
        push(&mut messages, message)?;
        at = next;
    }
    Ok(messages)
}
