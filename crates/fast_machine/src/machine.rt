//! The machine that reads the units of a stream, one after the other.
//!
//! A unit is a presence map or a field, such as the length of a sequence or a part of a decimal. Nothing changes before a unit is complete: if
//! a piece splits a unit, its bytes are only kept. So to go on with a message is to wait for the same unit again.

use crate::turns::Turns;
use fast_cursor::cursor::Cursor;
use fast_dict::Slots;
use fast_fields::carry::Carry;
use fast_program::Start;
use fast_template::FieldInstruction;
use fast_units::scratch::Scratch;

/// The unit that a machine waits for.
#[derive(Clone, Copy, Debug, PartialEq, Eq)]
pub enum Waiting {
    /// The presence map of a message. If none of its bytes has been read, no message has begun.
    Map,
    /// The template identifier.
    Identifier,
    /// The presence map of a group or an element, whose instructions use this number of bits.
    SegmentMap(usize),
    /// The field of the next instruction: itself, its exponent or its length.
    Field,
    /// The mantissa of the next instruction, a decimal by parts with this exponent.
    Mantissa(i32),
}

/// The end of a turn, a step of a machine that reads no byte.
#[derive(Clone, Copy, Debug)]
pub enum Turn {
    /// It emitted nothing, and the machine goes on.
    Silent,
    /// It emitted events, and the machine goes on.
    Handed,
    /// The machine waits for a byte.
    Waits,
}

/// The state of a machine between two units. It allocates memory only when it is made.
#[derive(Drop)]
pub struct Machine<'t> {
    /// The previous values.
    pub slots: Slots,
    /// The unit that it waits for.
    pub waiting: Waiting,
    /// The position in the message.
    pub cursor: Cursor<'t>,
    /// The bytes of a field that a piece has split.
    pub carry: Carry,
    /// The last string that was not borrowed from its bytes.
    pub text: Scratch,
    /// The number of elements of the message's sequences so far.
    pub counted: u32,
    /// The template identifier, as a field.
    pub identifier: FieldInstruction,
    /// The number of turns of the last call.
    pub turns: Turns,
    /// The start of the last message's template, which is most likely that of the next one.
    pub latest: Option<&'t Start>,
}
