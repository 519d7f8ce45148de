//! Steps on the general path: a field that is in the stream, or a turn of the machine and the unit that it waits for then.

ghost use Rattle.std.specs.Prelude.{◌≡◌, ◌≢◌, ◌<◌, ℕ, length, drop, true, false, Ok, Err, IfSome};
ghost use Rattle.fast_machine.specs.declared.machine.Waiting.{Waiting};
ghost use Rattle.fast_stream.specs.declared.faults.FaultCode.{FaultCode};
ghost use Rattle.fast_machine.specs.device.Handing.{Hands};
ghost use Rattle.fast_tree.specs.meaning.Nodes.{field_data};
ghost use Rattle.fast_dict.specs.meaning.Slots.{slots_dictionary};
ghost use Rattle.fast_units.specs.device.UnitFronts.{IsSent};
ghost use Rattle.fast_machine.specs.device.Words.{IsServedBy};
ghost use Rattle.fast_machine.specs.device.Positions.{set_of, state_in, bit_of, IsAtField, CanTurn, IsReady, IsTurn, turning, meaning};
ghost use Rattle.fast_machine.specs.device.TurnsLeft.{Way, HasTurns, HasTurnsWaiting, HasTurnsBehind};
ghost use Rattle.fast_machine.specs.declared.machine.Machine.{Machine};
ghost use Rattle.fast_machine.specs.device.Steps.{IsStep};
ghost use Rattle.fast_machine.specs.declared.machine.Turn.{Turn};

use crate::machine::{Machine, Turn, Waiting};
use crate::taking::UnitTaken;
use crate::turns::Turns;
use fast_stream::{FaultCode, Sink};
use fast_template::{FieldInstruction, Shape, Templates};
use fast_units::fields::needs_bytes;
use fast_value::Limits;

impl UnitTaken {
    /// Returns whether the machine goes on, or the fault at which it stopped.
    #[inline(always)]
    pub fn outcome(&self) -> Result<(), FaultCode>
        ensures ok { (t : Turn) → self.now.turn ≡ Ok t → result ≡ Ok tt }
        ensures err { (c : FaultCode) → self.now.turn ≡ Err c → result ≡ Err c }
    {
        match self.turn {
            Ok(_) => Ok(()),
            Err(code) => Err(code),
        }
    }

    /// Returns whether the machine goes on without a byte.
    #[inline(always)]
    pub fn goes_on(&self) -> bool
        ensures on { result ≡ true → (t : Turn) × (self.now.turn ≡ Ok t) × (t ≢ Turn.Waits) }
        ensures off { result ≡ false → (t : Turn) → self.now.turn ≡ Ok t → t ≡ Turn.Waits }
    {
        match self.turn {
            Ok(turn) => match turn {
                Turn::Waits => false,
                Turn::Silent | Turn::Handed => true,
            },
            Err(_) => false,
        }
    }
}

impl<'t> Machine<'t> {
    /// Waits for the first unit of the next instruction. The machine most often does so already, and nothing is written then.
    #[inline(always)]
    pub fn wait_for_field(&mut self)
        ensures { self.new ≡ record self.old { waiting = Waiting.Field } }
    {
        match self.waiting {
            Waiting::Field => {}
            _ => self.waiting = Waiting::Field,
        }
    }

    /// Returns the next instruction and its node, if it is a field.
    #[inline(always)]
    pub fn next_field(
        &self,
        templates: &'t Templates,
        limits: Limits,
    ) -> Option<(u32, &'t FieldInstruction)>
        requires turn { CanTurn (set_of templates.now) limits self.now }
        ensures next { IfSome result
            (λ r. IsAtField (set_of templates.now) self.now.cursor r.0 (field_data r.1.now)) }
        ensures serves { IfSome result (λ r. IsServedBy (set_of templates.now) self.now (field_data r.1.now)) }
    {
        let _ = limits;
        let number = self.cursor.next()?;
        let Shape::Field(field) = &templates.node(number).shape else {
            return None;
        };
        Some((number, field))
    }

    /// Reads the next instruction, a field that is in the stream, or the part of it that is there. Without a byte the machine waits for it.
    #[inline(always)]
    fn take_sent_field<S: Sink>(
        &mut self,
        templates: &'t Templates,
        limits: &Limits,
        node: u32,
        field: &FieldInstruction,
        rest: &[u8],
        sink: &mut S,
    ) -> UnitTaken
        requires turn { CanTurn (set_of templates.now) limits.now self.old }
        requires next { IsAtField (set_of templates.now) self.old.cursor node (field_data field.now) }
        requires sent { IsSent (field_data field.now) (bit_of (field_data field.now)
            (state_in (slots_dictionary self.old.slots) self.old.counted self.old.cursor)) }
        requires serves { IsServedBy (set_of templates.now) self.old (field_data field.now) }
        ensures step { IsStep S.takes S.stops (set_of templates.now) limits.now self.old rest.now sink.old result
            sink.new self.new }
    {
        self.wait_first(field);
        if rest.is_empty() {
            return UnitTaken {
                bytes: 0,
                turn: Ok(Turn::Waits),
            };
        }
        if self.gathers(templates, *limits, rest) {
            return UnitTaken::cut(rest);
        }
        self.turns = Turns::after(&self.turns);
        self.take_field(templates, limits, node, field, rest, sink)
    }

    /// Reads the next instruction, a field, or passes it if nothing is sent of it. If the machine goes on, it waits for a field.
    #[inline(always)]
    pub fn step_by_field<S: Sink>(
        &mut self,
        templates: &'t Templates,
        limits: &Limits,
        node: u32,
        field: &FieldInstruction,
        rest: &[u8],
        sink: &mut S,
    ) -> UnitTaken
        requires turn { CanTurn (set_of templates.now) limits.now self.old }
        requires next { IsAtField (set_of templates.now) self.old.cursor node (field_data field.now) }
        requires serves { IsServedBy (set_of templates.now) self.old (field_data field.now) }
        ensures step { IsStep S.takes S.stops (set_of templates.now) limits.now self.old rest.now sink.old result
            sink.new self.new }
        ensures waits { (t : Turn) → result.turn ≡ Ok t → t ≢ Turn.Waits → self.new.waiting ≡ Waiting.Field }
    {
        // each operator for which the bit counts uses one
        if !needs_bytes(field, self.cursor.bit()) {
            let turn = self.turn_at_field(templates, *limits, node, field, sink);
            return self.step_after(templates, limits, turn, rest, sink);
        }
        let unit = self.take_sent_field(templates, limits, node, field, rest, sink);
        if unit.goes_on() {
            self.wait_for_field();
        }
        unit
    }

    /// Returns whether the next instruction is a field that is in the stream: the machine then waits for its first unit. Nothing is
    /// emitted; the sink is an argument for the clauses on the step.
    #[inline(always)]
    pub fn waits_at_once<S: Sink>(
        &mut self,
        templates: &'t Templates,
        limits: Limits,
        sink: &mut S,
    ) -> bool
        requires turn { CanTurn (set_of templates.now) limits self.old }
        ensures none { result ≡ false → self.new ≡ self.old }
        ensures hands { result ≡ true → Hands S.takes S.stops (turning (set_of templates.now) limits self.old) sink.old
            (Ok tt) sink.new (meaning (set_of templates.now) limits self.new) }
        ensures ready { result ≡ true → IsReady (set_of templates.now) limits self.new }
        ensures turns { result ≡ true → (way : Way) (n : ℕ) → HasTurns way (set_of templates.now) limits 0 n self.old
            → HasTurnsWaiting way (set_of templates.now) limits n self.new }
        ensures same { sink.new ≡ sink.old }
    {
        let Some((_, field)) = self.next_field(templates, limits) else {
            return false;
        };
        let bit = self.cursor.bit();
        if !needs_bytes(field, bit) {
            return false;
        }
        self.wait_first(field);
        true
    }

    /// Makes a turn of the machine, and reads the unit that it waits for after that, or the part of it that is there.
    #[inline(always)]
    pub fn step_by_turn<S: Sink>(
        &mut self,
        templates: &'t Templates,
        limits: &Limits,
        rest: &[u8],
        sink: &mut S,
    ) -> UnitTaken
        requires turn { CanTurn (set_of templates.now) limits.now self.old }
        ensures step { IsStep S.takes S.stops (set_of templates.now) limits.now self.old rest.now sink.old result
            sink.new self.new }
        ensures waits { (t : Turn) → result.turn ≡ Ok t → t ≢ Turn.Waits → self.new.waiting ≡ Waiting.Field }
    {
        let turn = self.turn(templates, *limits, rest.len(), sink);
        self.step_after(templates, limits, turn, rest, sink)
    }

    /// Ends a step after its turn: reads the unit that the machine waits for then, if it does, or the part of it that is there.
    #[inline(always)]
    fn step_after<S: Sink>(
        &mut self,
        templates: &'t Templates,
        limits: &Limits,
        turn: Result<Turn, FaultCode>,
        rest: &[u8],
        sink: &mut S,
    ) -> UnitTaken
        requires ready { turn ≡ Ok Turn.Waits → IsReady (set_of templates.now) limits.now self.old }
        ensures step { (m : Machine) (s : S)
            → IsTurn S.takes S.stops (set_of templates.now) limits.now (turning (set_of templates.now) limits.now m) s
            turn sink.old self.old
            → (turn ≡ Ok Turn.Silent
            → (0 < length m.cursor.left) × (self.old.cursor.left ≡ drop 1 m.cursor.left))
            → ((way : Way) (n : ℕ) → HasTurns way (set_of templates.now) limits.now 0 n m
            → HasTurnsBehind turn way (set_of templates.now) limits.now n self.old)
            → IsStep S.takes S.stops (set_of templates.now) limits.now m rest.now s result sink.new self.new }
        ensures waits { (t : Turn) → result.turn ≡ Ok t → t ≢ Turn.Waits → self.new.waiting ≡ Waiting.Field }
    {
        match turn {
            Err(code) => UnitTaken {
                bytes: 0,
                turn: Err(code),
            },
            Ok(next) => match next {
                Turn::Waits => self.take_behind(templates, limits, rest, sink),
                _ => {
                    self.wait_for_field();
                    UnitTaken {
                        bytes: 0,
                        turn: Ok(next),
                    }
                }
            },
        }
    }

    /// Reads the unit that the machine waits for after a turn, or the part of it that is there.
    #[inline(always)]
    pub fn take_behind<S: Sink>(
        &mut self,
        templates: &'t Templates,
        limits: &Limits,
        rest: &[u8],
        sink: &mut S,
    ) -> UnitTaken
        requires ready { IsReady (set_of templates.now) limits.now self.old }
        ensures step { (m : Machine) (s : S)
            → Hands S.takes S.stops (turning (set_of templates.now) limits.now m) s (Ok tt) sink.old
            (meaning (set_of templates.now) limits.now self.old)
            → ((way : Way) (n : ℕ) → HasTurns way (set_of templates.now) limits.now 0 n m
            → HasTurnsWaiting way (set_of templates.now) limits.now n self.old)
            → IsStep S.takes S.stops (set_of templates.now) limits.now m rest.now s result sink.new self.new }
        ensures waits { (t : Turn) → result.turn ≡ Ok t → t ≢ Turn.Waits → self.new.waiting ≡ Waiting.Field }
        ensures some { (t : Turn) → result.turn ≡ Ok t → t ≢ Turn.Waits → 0 < result.bytes }
    {
        if rest.is_empty() {
            return UnitTaken {
                bytes: 0,
                turn: Ok(Turn::Waits),
            };
        }
        if self.gathers(templates, *limits, rest) {
            return UnitTaken::cut(rest);
        }
        let unit = self.take_unit(templates, limits, rest, sink);
        if unit.goes_on() {
            self.wait_for_field();
        }
        unit
    }
}
