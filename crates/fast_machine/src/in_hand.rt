//! The part of a stream that a decoder waits for, to report where a stream is at fault.

ghost use Rattle.std.specs.Prelude.{◌≡◌};

use crate::machine::{Machine, Waiting};

/// The part of a stream that a decoder waits for.
#[derive(Clone, Copy, Debug, PartialEq, Eq)]
pub enum Due {
    /// No instruction: a message is to begin, or the innermost segment has none left.
    Nothing,
    /// The presence map of the group or the element that began last.
    SegmentMap,
    /// The instruction of this node.
    Instruction(u32),
}

impl Machine<'_> {
    ghost use Rattle.fast_machine.specs.device.AtHand.{stopped_at, awaited};

    /// Returns the next instruction, if one is left of the innermost segment.
    pub fn stopped_at(&self) -> Due
        ensures { result ≡ stopped_at self.now }
    {
        match self.cursor.next() {
            None => Due::Nothing,
            Some(node) => Due::Instruction(node),
        }
    }

    /// Returns the part of the stream that the machine waits for.
    pub fn awaited(&self) -> Due
        ensures { result ≡ awaited self.now }
    {
        match self.waiting {
            Waiting::SegmentMap(_) => Due::SegmentMap,
            _ => self.stopped_at(),
        }
    }
}
