//! Reads the units of a machine: keeps the bytes of each until they are all there, and then makes the changes that it decides.

ghost use Rattle.std.specs.Prelude.{◌≡◌, ◌+◌, ◌<◌, true, false, ℕ, length, Err, Some, None, Ok};
ghost use Rattle.fast_value.specs.declared.settings.Limits.{Limits};
ghost use Rattle.fast_machine.specs.declared.machine.Machine.{Machine};
ghost use Rattle.fast_machine.specs.device.Gathered.{IsGatheredBy};
ghost use Rattle.fast_machine.specs.device.Words.{TakesUnit};
ghost use Rattle.fast_machine.specs.device.TurnsLeft.{Way, HasTurnsWaiting, HasTurnsBehind, turns_begun_at};
ghost use Rattle.fast_machine.specs.device.Positions.{set_of, tree_in, IsReady};

use crate::machine::{Machine, Turn, Waiting};
use crate::turns::Turns;
use fast_stream::{FaultCode, Sink};
use fast_template::Templates;
use fast_value::{Code, Limits};

/// A unit, or the part of it that is there, and the turn after it.
#[derive(Clone, Copy, Debug)]
pub struct UnitTaken {
    /// The number of bytes that were read.
    pub bytes: usize,
    /// The end of the turn. After a unit that is split the machine waits.
    pub turn: Result<Turn, FaultCode>,
}

impl UnitTaken {
    /// Returns the result for a unit that is split: all bytes of the rest are read.
    #[inline]
    pub fn cut(rest: &[u8]) -> UnitTaken
        ensures bytes { result.bytes ≡ length rest.now }
        ensures turn { result.turn ≡ Ok Turn.Waits }
    {
        UnitTaken {
            bytes: rest.len(),
            turn: Ok(Turn::Waits),
        }
    }

    /// Returns the result for a fault that the last of this number of bytes decides.
    #[inline]
    pub fn wrong(code: Code, bytes: usize) -> UnitTaken
        ensures bytes { result.bytes ≡ bytes }
        ensures turn { result.turn ≡ Err (FaultCode.Stream code) }
    {
        UnitTaken {
            bytes,
            turn: Err(FaultCode::Stream(code)),
        }
    }
}

impl<'t> Machine<'t> {
    /// Buffers all of the rest, if none of its bytes is the last one of the unit that the machine waits for: nothing else is to be done for
    /// it then. If the result is `false`, nothing has changed, and one of them may be the last one.
    #[inline(always)]
    pub fn gathers(&mut self, templates: &'t Templates, limits: Limits, rest: &[u8]) -> bool
        requires ready { IsReady (set_of templates.now) limits self.old }
        ensures gathered { result ≡ true → IsGatheredBy (set_of templates.now) limits self.old self.new rest.now }
        ensures same { result ≡ false → self.new ≡ self.old }
    {
        let _ = templates;
        let _ = limits;
        match self.waiting {
            Waiting::Identifier | Waiting::Field | Waiting::Mantissa(_) => self.carry.keeps(rest),
            Waiting::Map | Waiting::SegmentMap(_) => false,
        }
    }

    /// Returns the number of bytes of the rest that are buffered: all of them, if they are known to be bytes of the unit that the machine
    /// waits for, of which none is the last one, else none.
    #[inline(always)]
    pub fn gather(&mut self, templates: &'t Templates, limits: Limits, rest: &[u8]) -> usize
        requires ready { IsReady (set_of templates.now) limits self.old }
        ensures kept { 0 < result → (result ≡ length rest.now)
            × IsGatheredBy (set_of templates.now) limits self.old self.new rest.now }
        ensures none { result ≡ 0 → self.new ≡ self.old }
    {
        if rest.is_empty() {
            return 0;
        }
        if self.gathers(templates, limits, rest) {
            return rest.len();
        }
        0
    }

    /// Reads one unit, or the part of it that is there.
    #[inline(never)]
    pub fn take_unit<S: Sink>(
        &mut self,
        templates: &'t Templates,
        limits: &Limits,
        rest: &[u8],
        sink: &mut S,
    ) -> UnitTaken
        requires ready { IsReady (set_of templates.now) limits.now self.old }
        requires some { 0 < length rest.now }
        ensures taken { TakesUnit S.takes S.stops (set_of templates.now) limits.now self.old rest.now sink.old result
            sink.new self.new }
        ensures turns { (way : Way) (n : ℕ) → HasTurnsWaiting way (set_of templates.now) limits.now n self.old
            → HasTurnsBehind result.turn way (set_of templates.now) limits.now
            (1 + n + turns_begun_at self.old.waiting self.old.cursor.map way (tree_in (set_of templates.now))
            limits.now)
            self.new }
    {
        self.turns = Turns::after(&self.turns);
        self.take_awaited(templates, limits, rest, sink)
    }

    /// Reads bytes of the unit that the machine waits for.
    #[inline(always)]
    fn take_awaited<S: Sink>(
        &mut self,
        templates: &'t Templates,
        limits: &Limits,
        rest: &[u8],
        sink: &mut S,
    ) -> UnitTaken
        requires ready { IsReady (set_of templates.now) limits.now self.old }
        requires some { 0 < length rest.now }
        ensures taken { TakesUnit S.takes S.stops (set_of templates.now) limits.now self.old rest.now sink.old result
            sink.new self.new }
        ensures turns { (way : Way) (n : ℕ) → HasTurnsWaiting way (set_of templates.now) limits.now n self.old
            → HasTurnsBehind result.turn way (set_of templates.now) limits.now
            (n + turns_begun_at self.old.waiting self.old.cursor.map way (tree_in (set_of templates.now)) limits.now)
            self.new }
    {
        match self.waiting {
            Waiting::Field => self.take_instruction(templates, limits, rest, sink),
            Waiting::Map => self.take_map(templates, *limits, rest, sink),
            Waiting::Identifier => self.take_identifier(templates, limits, rest, sink),
            Waiting::SegmentMap(width) => self.take_segment_map(
                templates, *limits, width, rest, sink,
            ),
            Waiting::Mantissa(exponent) => self.take_mantissa(
                templates, limits, exponent, rest, sink,
            ),
        }
    }
}
