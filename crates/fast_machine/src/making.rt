//! A machine before the first message, and its queries between two pieces.

ghost use Rattle.std.specs.Prelude.{◌≡◌, ◌<◌, ◌≤◌, false, IfOk, Some, None, Ok};
ghost use Rattle.fast_template.specs.meaning.Flat.{nodes_of};
ghost use Rattle.fast_value.specs.declared.settings.Limits.{Limits};
ghost use Rattle.fast_tree.specs.meaning.Tree.{identifier};
ghost use Rattle.fast_dict.specs.meaning.EntryTexts.{HasLongInitial};
ghost use Rattle.fast_machine.specs.declared.machine.Machine.{Machine};
ghost use Rattle.fast_dict.specs.meaning.Dictionary.{reset};
ghost use Rattle.fast_machine.specs.device.Positions.{Set, set_of, IsSupplied, IsFresh, is_idle};

use crate::layout::make_slots;
use crate::machine::{Machine, Waiting};
use crate::turns::Turns;
use fast_cursor::cursor::Cursor;
use fast_dict::Store;
use fast_fields::carry::Carry;
use fast_template::{FieldInstruction, Operator, Templates};
use fast_units::scratch::Scratch;
use fast_value::{Kind, Limits};
use std::alloc::{AllocError, Global};

impl<'t> Machine<'t> {
    /// Makes a machine before the first message of streams of the set.
    ///
    /// # Errors
    ///
    /// An allocation failed.
    pub fn new(
        alloc: Global,
        templates: &'t Templates,
        limits: Limits,
    ) -> Result<Machine<'t>, AllocError>
        requires least { 16 ≤ limits.max_text }
        requires initial { ¬ (HasLongInitial limits.max_text (nodes_of templates.now)) }
        ensures fresh { IfOk result (λ m. IsFresh (set_of templates.entry.now) m) }
        ensures supplied { IfOk result (λ m. IsSupplied (set_of templates.entry.now) limits m) }
    {
        Ok(Machine {
            waiting: Waiting::Map,
            cursor: Cursor::new(alloc, templates.program(), templates.depth() as usize)?,
            slots: make_slots(alloc, templates, limits.max_text)?,
            carry: Carry::new(alloc, limits.max_text)?,
            text: Scratch::new(alloc, limits.max_text)?,
            counted: 0,
            identifier: FieldInstruction {
                kind: Kind::UInt32,
                optional: false,
                operator: Operator::Copy,
                initial: None,
                entry: Some(0),
            },
            turns: Turns::none(),
            latest: None,
        })
    }

    /// Discards all that was read.
    pub fn reset(&mut self)
        ensures fresh { (set : Set) (l : Limits) → IsSupplied set l self.old → IsFresh set self.new }
        ensures supplied { (set : Set) (l : Limits) → IsSupplied set l self.old → IsSupplied set l self.new }
    {
        self.waiting = Waiting::Map;
        self.cursor.reset();
        self.slots.reset_all();
        self.counted = 0;
        self.turns = Turns::none();
    }

    /// Restarts the count of turns.
    #[inline]
    pub fn begin_turns(&mut self)
        ensures same { self.new ≡ record self.old { turns = self.new.turns } }
        ensures none { self.new.turns.count ≡ 0 }
    {
        self.turns = Turns::none();
    }

    /// Returns whether no message has begun.
    pub fn is_idle(&self) -> bool
        ensures { result ≡ is_idle self.now }
    {
        match self.waiting {
            Waiting::Map => self.cursor.map_len() == 0,
            Waiting::Identifier | Waiting::SegmentMap(_) | Waiting::Field | Waiting::Mantissa(_) =>
                false,
        }
    }
}
