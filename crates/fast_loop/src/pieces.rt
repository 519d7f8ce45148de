//! Reads the units of a piece, and makes the changes that they decide.

ghost use Rattle.std.specs.Prelude.{◌≡◌, ◌+◌, ◌*◌, ◌<◌, ◌≤◌, ℕ, length, Err, take, IsOk, OnOk, Ok};
ghost use Rattle.fast_value.specs.declared.settings.Limits.{Limits};
ghost use Rattle.fast_machine.specs.declared.machine.Machine.{Machine};
ghost use Rattle.fast_machine.specs.device.Handing.{Fed, waiting_at};
ghost use Rattle.fast_machine.specs.device.Steps.{IsCountedBy, IsStep};
ghost use Rattle.fast_machine.specs.device.TurnsLeft.{Way, most_by, HasTurnsWaiting, HasTurnsBehind, turns_begun_at};
ghost use Rattle.fast_machine.specs.device.Words.{TakesUnit};
ghost use Rattle.fast_machine.specs.device.Positions.{set_of, tree_in, CanTurn, IsSupplied, IsReady, meaning};
ghost use Rattle.fast_machine.specs.declared.machine.Turn.{Turn};

use crate::start_arms::begin_first;
use crate::walking::walk;
use fast_fronts::Rest;
use fast_machine::machine::{Machine, Turn};
use fast_machine::taking::UnitTaken;
use fast_stream::{FaultCode, Sink};
use fast_template::Templates;
use fast_value::Limits;

/// The result of reading a piece: the number of bytes, and why the machine stopped after them, if it did.
#[derive(Clone, Copy, Debug)]
pub struct PieceTaken {
    /// The number of bytes that were read.
    pub bytes: usize,
    /// The fault or stop at which the machine ended, if any.
    pub outcome: Result<(), FaultCode>,
}

/// Reads the units of a piece, up to its end, a fault, or the sink's stop. A piece that ends inside a partial unit, as most do of a string
/// that arrives byte by byte, is buffered here.
#[inline(always)]
pub fn take_all<'t, S: Sink>(
    machine: &mut Machine<'t>,
    templates: &'t Templates,
    limits: &Limits,
    piece: &[u8],
    sink: &mut S,
) -> PieceTaken
    requires ready { IsReady (set_of templates.now) limits.now machine.old }
    ensures within { result.bytes ≤ length piece.now }
    ensures all { IsOk result.outcome → result.bytes ≡ length piece.now }
    ensures fed { Fed S.takes S.stops (tree_in (set_of templates.now)) limits.now
        (waiting_at (meaning (set_of templates.now) limits.now machine.old)) (take result.bytes piece.now)
        sink.old result.outcome sink.new (waiting_at (meaning (set_of templates.now) limits.now machine.new)) }
    ensures ready { OnOk result.outcome (IsReady (set_of templates.now) limits.now machine.new) }
    ensures supplied { IsSupplied (set_of templates.now) limits.now machine.new }
    ensures turns { (way : Way) → machine.old.turns.count ≡ 0
        → HasTurnsWaiting way (set_of templates.now) limits.now (most_by way (tree_in (set_of templates.now)) limits.now)
        machine.old
        → (machine.new.turns.count ≤ result.bytes * (1 + most_by way (tree_in (set_of templates.now)) limits.now))
        × OnOk result.outcome ((k : ℕ) × HasTurnsWaiting way (set_of templates.now) limits.now k machine.new) }
{
    let kept = machine.gather(templates, *limits, piece);
    if kept > 0 {
        return PieceTaken {
            bytes: kept,
            outcome: Ok(()),
        };
    }
    take_units(machine, templates, limits, piece, sink)
}

/// Reads the units of a piece that is not known to end inside a partial unit.
#[inline(always)]
fn take_units<'t, S: Sink>(
    machine: &mut Machine<'t>,
    templates: &'t Templates,
    limits: &Limits,
    piece: &[u8],
    sink: &mut S,
) -> PieceTaken
    requires ready { IsReady (set_of templates.now) limits.now machine.old }
    ensures within { result.bytes ≤ length piece.now }
    ensures all { IsOk result.outcome → result.bytes ≡ length piece.now }
    ensures fed { Fed S.takes S.stops (tree_in (set_of templates.now)) limits.now
        (waiting_at (meaning (set_of templates.now) limits.now machine.old)) (take result.bytes piece.now)
        sink.old result.outcome sink.new (waiting_at (meaning (set_of templates.now) limits.now machine.new)) }
    ensures ready { OnOk result.outcome (IsReady (set_of templates.now) limits.now machine.new) }
    ensures supplied { IsSupplied (set_of templates.now) limits.now machine.new }
    ensures turns { (way : Way) → machine.old.turns.count ≡ 0
        → HasTurnsWaiting way (set_of templates.now) limits.now (most_by way (tree_in (set_of templates.now)) limits.now)
        machine.old
        → (machine.new.turns.count ≤ result.bytes * (1 + most_by way (tree_in (set_of templates.now)) limits.now))
        × OnOk result.outcome ((k : ℕ) × HasTurnsWaiting way (set_of templates.now) limits.now k machine.new) }
{
    let mut bytes = 0;
    while bytes < piece.len() {
        let taken = take_some(machine, templates, limits, &piece[bytes..], sink);
        bytes += taken.bytes;
        if taken.outcome.is_err() {
            return PieceTaken {
                bytes,
                outcome: taken.outcome,
            };
        }
    }
    PieceTaken {
        bytes,
        outcome: Ok(()),
    }
}

/// Reads the first unit of the rest, or the part of it that is there. A piece that begins with a message, as a packet does, has the
/// shortest way.
#[inline(always)]
fn take_first<'t, S: Sink>(
    machine: &mut Machine<'t>,
    templates: &'t Templates,
    limits: Limits,
    rest: &[u8],
    sink: &mut S,
) -> UnitTaken
    requires ready { IsReady (set_of templates.now) limits machine.old }
    requires some { 0 < length rest.now }
    ensures taken { TakesUnit S.takes S.stops (set_of templates.now) limits machine.old rest.now sink.old result
        sink.new machine.new }
    ensures turns { (way : Way) (n : ℕ) → HasTurnsWaiting way (set_of templates.now) limits n machine.old
        → HasTurnsBehind result.turn way (set_of templates.now) limits
        (1 + n + turns_begun_at machine.old.waiting machine.old.cursor.map way (tree_in (set_of templates.now)) limits)
        machine.new }
{
    if let Some(unit) = begin_first(machine, templates, limits, rest, sink) {
        return unit;
    }
    // made anew: a result that a call writes stays in memory, on the path above too
    let unit = machine.take_unit(templates, &limits, rest, sink);
    UnitTaken {
        bytes: unit.bytes,
        turn: unit.turn,
    }
}

/// Reads one unit, or the part of it that is there, and all units after it that are for the loop.
#[inline(always)]
fn take_some<'t, S: Sink>(
    machine: &mut Machine<'t>,
    templates: &'t Templates,
    limits: &Limits,
    rest: &[u8],
    sink: &mut S,
) -> PieceTaken
    requires ready { IsReady (set_of templates.now) limits.now machine.old }
    requires some { 0 < length rest.now }
    ensures some { 0 < result.bytes }
    ensures within { result.bytes ≤ length rest.now }
    ensures fed { Fed S.takes S.stops (tree_in (set_of templates.now)) limits.now
        (waiting_at (meaning (set_of templates.now) limits.now machine.old)) (take result.bytes rest.now)
        sink.old result.outcome sink.new (waiting_at (meaning (set_of templates.now) limits.now machine.new)) }
    ensures ready { OnOk result.outcome (IsReady (set_of templates.now) limits.now machine.new) }
    ensures supplied { IsSupplied (set_of templates.now) limits.now machine.new }
    ensures turns { (way : Way) → IsCountedBy result.outcome way (set_of templates.now) limits.now result.bytes machine.old
        machine.new }
{
    let unit = take_first(machine, templates, *limits, rest, sink);
    match unit.turn {
        Err(code) => PieceTaken {
            bytes: unit.bytes,
            outcome: Err(code),
        },
        Ok(turn) => match turn {
            Turn::Waits => PieceTaken {
                bytes: unit.bytes + machine.gather(templates, *limits, &rest[unit.bytes..]),
                outcome: Ok(()),
            },
            _ => {
                let run = go_on(machine, templates, limits, &rest[unit.bytes..], sink);
                PieceTaken {
                    bytes: unit.bytes + run.bytes,
                    outcome: run.outcome(),
                }
            }
        },
    }
}

/// Makes steps as [`walk`] does. If there is no byte, and the next instruction waits for one, that is all.
#[inline(always)]
pub fn go_on<'t, S: Sink>(
    machine: &mut Machine<'t>,
    templates: &'t Templates,
    limits: &Limits,
    piece: &[u8],
    sink: &mut S,
) -> UnitTaken
    requires turn { CanTurn (set_of templates.now) limits.now machine.old }
    ensures step { IsStep S.takes S.stops (set_of templates.now) limits.now machine.old piece.now sink.old result sink.new
        machine.new }
    ensures ends { (t : Turn) → result.turn ≡ Ok t → t ≡ Turn.Waits }
{
    if piece.is_empty() && machine.waits_at_once(templates, *limits, sink) {
        return UnitTaken {
            bytes: 0,
            turn: Ok(Turn::Waits),
        };
    }
    walk(machine, templates, limits, Rest::new(piece), sink)
}
