//! The starts and ends of the segments of groups and elements. The result is the number of bits that the instructions of the segment use
//! that now begins, and 0 if none does.

ghost use Rattle.std.specs.Prelude.{◌≡◌, ◌⊎◌, ◌+◌, ◌<◌, ◌≤◌, ℕ, suc, [], Bool, length};
ghost use Rattle.std.specs.Prelude.{IfErr, MatchResult};
ghost use Rattle.fast_stream.specs.meaning.Events.{ElementStart, ElementEnd};
ghost use Rattle.fast_value.specs.meaning.Limits.{bounds};
ghost use Rattle.fast_tree.specs.meaning.Numbers.{AreBelow};
ghost use Rattle.fast_tree.specs.meaning.Sizes.{body_depth};
ghost use Rattle.fast_tree.specs.meaning.Tree.{bits_of};
ghost use Rattle.fast_dict.specs.meaning.Slots.{slots_dictionary};
ghost use Rattle.fast_stream.specs.declared.faults.FaultCode.{FaultCode};
ghost use Rattle.fast_stream.specs.device.GrammarReaders.{reader_of};
ghost use Rattle.fast_cursor.specs.device.Places.{place_left};
ghost use Rattle.fast_cursor.specs.device.Runs.{IsRun};
ghost use Rattle.fast_machine.specs.device.Positions.{placed, set_of, run_in, IsBodyOf, body_in, IsAtGroup, CanTurn, IsTurn, turning};
ghost use Rattle.fast_machine.specs.device.Opening.{opened_result, opened_by};
ghost use Rattle.fast_machine.specs.device.Passing.{group_from, elements_from};
ghost use Rattle.fast_machine.specs.device.TurnsLeft.{Way, HasTurns, HasTurnsFrom, HasTurnsBehind};

use crate::machine::Machine;
use crate::settling::hand;
use crate::turns::Turns;
use fast_cursor::frames::Elements;
use fast_cursor::place::Place;
use fast_stream::{Event, FaultCode, Sink};
use fast_template::Templates;
use fast_value::Limits;

/// Emits that an element ends and that the next one begins.
#[inline(always)]
fn hand_next<S: Sink>(sink: &mut S) -> Result<(), FaultCode>
    ensures { MatchResult result
        (λ _. (mid : S) × S.takes sink.old ElementEnd mid × S.takes mid ElementStart sink.new)
        (λ code. (code ≡ FaultCode.SinkStopped) × (S.stops sink.old ElementEnd sink.new
        ⊎ ((mid : S) × S.takes sink.old ElementEnd mid × S.stops mid ElementStart sink.new))) }
{
    hand(sink, Event::ElementEnd)?;
    hand(sink, Event::ElementStart)
}

impl<'t> Machine<'t> {
    /// Begins the next instruction, a group. Its bit is used, if it has one.
    #[inline(always)]
    pub fn enter_group<S: Sink>(
        &mut self,
        templates: &'t Templates,
        limits: Limits,
        node: u32,
        start: usize,
        sink: &mut S,
    ) -> Result<usize, FaultCode>
        requires turn { CanTurn (set_of templates.now) limits self.old }
        requires left { 0 < length self.old.cursor.left }
        requires run { IsRun (set_of templates.now).program start }
        requires below { AreBelow (length (set_of templates.now).nodes) (run_in (set_of templates.now) start) }
        requires nested { suc (length self.old.cursor.frames)
            + body_depth (body_in (set_of templates.now) (run_in (set_of templates.now) start))
            ≤ self.old.cursor.depth }
        requires body { IsBodyOf (set_of templates.now) node start }
        requires node { node < length (set_of templates.now).nodes }
        ensures turn { IsTurn S.takes S.stops (set_of templates.now) limits
            (reader_of limits.strict
            (group_from (set_of templates.now) (bounds limits) node (run_in (set_of templates.now) start)
            (slots_dictionary self.old.slots) self.old.counted self.old.cursor))
            sink.old (opened_result result) sink.new (opened_by result self.new) }
        ensures turns { (way : Way) (n : ℕ) (optional : Bool)
            → IsAtGroup (set_of templates.now) self.old.cursor node optional (run_in (set_of templates.now) start)
            → HasTurns way (set_of templates.now) limits 1 n self.old
            → HasTurnsBehind (opened_result result) way (set_of templates.now) limits n (opened_by result self.new) }
        ensures stopped { IfErr result (λ code. code ≡ FaultCode.SinkStopped) }
        ensures same { self.new ≡ record self.old { cursor = self.new.cursor } }
    {
        hand(sink, Event::GroupStart { node })?;
        let width = templates.segment_bits(node);
        self.cursor.advance();
        self.cursor.open_group(start);
        Ok(width)
    }

    /// Begins the next element of a sequence of which `count` elements remain, or ends the sequence if none does. An element that begins is
    /// a turn of its own.
    #[inline(always)]
    pub fn begin_element<S: Sink>(
        &mut self,
        templates: &'t Templates,
        limits: Limits,
        count: u32,
        start: usize,
        width: usize,
        sink: &mut S,
    ) -> Result<usize, FaultCode>
        requires turn { CanTurn (set_of templates.now) limits self.old }
        requires run { IsRun (set_of templates.now).program start }
        requires below { AreBelow (length (set_of templates.now).nodes) (run_in (set_of templates.now) start) }
        requires nested { suc (length self.old.cursor.frames)
            + body_depth (body_in (set_of templates.now) (run_in (set_of templates.now) start))
            ≤ self.old.cursor.depth }
        requires width { width ≡ bits_of (body_in (set_of templates.now) (run_in (set_of templates.now) start)) }
        ensures turn { IsTurn S.takes S.stops (set_of templates.now) limits
            (reader_of limits.strict
            (elements_from (set_of templates.now) (bounds limits) count (run_in (set_of templates.now) start)
            (slots_dictionary self.old.slots) self.old.counted self.old.cursor))
            sink.old (opened_result result) sink.new (opened_by result self.new) }
        ensures turns { (way : Way) (n : ℕ)
            → HasTurnsFrom way (set_of templates.now) limits n count (run_in (set_of templates.now) start) self.old
            → HasTurnsBehind (opened_result result) way (set_of templates.now) limits n (opened_by result self.new) }
        ensures stopped { IfErr result (λ code. code ≡ FaultCode.SinkStopped) }
        ensures same { self.new ≡ record self.old { cursor = self.new.cursor; turns = self.new.turns } }
    {
        if count == 0 {
            hand(sink, Event::SequenceEnd)?;
            return Ok(0);
        }
        hand(sink, Event::ElementStart)?;
        self.cursor.open_element(Elements {
            more: count - 1,
            start,
            width,
        });
        self.turns = Turns::after(&self.turns);
        Ok(width)
    }

    /// Ends the innermost segment, a group or an element. After an element the next one begins, if there is one: then the frame around it
    /// stays. The position at which the segment ends is an argument for the clauses: the cursor leaves it, and need not be there.
    #[inline(always)]
    pub fn leave_segment<S: Sink>(
        &mut self,
        templates: &'t Templates,
        limits: Limits,
        place: Place<'t>,
        sink: &mut S,
    ) -> Result<usize, FaultCode>
        requires turn { CanTurn (set_of templates.now) limits (placed self.old place) }
        requires end { place_left place ≡ [] }
        requires inner { ¬ (self.old.cursor.frames ≡ []) }
        ensures turn { IsTurn S.takes S.stops (set_of templates.now) limits
            (turning (set_of templates.now) limits (placed self.old place.entry))
            sink.old (opened_result result) sink.new (opened_by result self.new) }
        ensures turns { (way : Way) (n : ℕ)
            → HasTurns way (set_of templates.now) limits 1 n (placed self.old place.entry)
            → HasTurnsBehind (opened_result result) way (set_of templates.now) limits n (opened_by result self.new) }
        ensures stopped { IfErr result (λ code. code ≡ FaultCode.SinkStopped) }
        ensures same { self.new ≡ record self.old { cursor = self.new.cursor; turns = self.new.turns } }
    {
        let Some(width) = self.cursor.next_element() else {
            return self.close_segment(templates, limits, place, sink);
        };
        hand_next(sink)?;
        self.turns = Turns::after(&self.turns);
        Ok(width)
    }

    /// Ends the innermost segment, a group or the last element of a sequence, and goes on with the segment around it.
    #[inline(always)]
    fn close_segment<S: Sink>(
        &mut self,
        templates: &'t Templates,
        limits: Limits,
        place: Place<'t>,
        sink: &mut S,
    ) -> Result<usize, FaultCode>
        requires turn { CanTurn (set_of templates.now) limits (placed self.old place) }
        requires end { place_left place ≡ [] }
        requires inner { ¬ (self.old.cursor.frames ≡ []) }
        ensures turn { IsTurn S.takes S.stops (set_of templates.now) limits
            (turning (set_of templates.now) limits (placed self.old place.entry))
            sink.old (opened_result result) sink.new (opened_by result self.new) }
        ensures turns { (way : Way) (n : ℕ)
            → HasTurns way (set_of templates.now) limits 1 n (placed self.old place.entry)
            → HasTurnsBehind (opened_result result) way (set_of templates.now) limits n (opened_by result self.new) }
        ensures stopped { IfErr result (λ code. code ≡ FaultCode.SinkStopped) }
        ensures same { self.new ≡ record self.old { cursor = self.new.cursor; turns = self.new.turns } }
    {
        let _ = place;
        match self.cursor.close() {
            None => {
                hand(sink, Event::GroupEnd)?;
                Ok(0)
            }
            Some(elements) => {
                hand(sink, Event::ElementEnd)?;
                self.begin_element(
                    templates,
                    limits,
                    elements.more,
                    elements.start,
                    elements.width,
                    sink,
                )
            }
        }
    }
}
