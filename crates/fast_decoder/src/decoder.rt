//! The decoder: a machine with its template set, its limits, and the count of its bytes.

ghost use Rattle.std.specs.Prelude.{◌≡◌, ◌↔◌, ℕ, ◌+◌, ◌-◌, ◌*◌, ◌<◌, ◌≤◌, ◌^◌, List, [], ◌∷◌, length, IfOk, IsSome, None, Some, Err};
ghost use Rattle.fast_template.specs.meaning.Flat.{tree_of, nodes_of};
ghost use Rattle.fast_tree.specs.meaning.Sizes.{message_cap, turn_cap, stored_cap};
ghost use Rattle.fast_dict.specs.meaning.EntryTexts.{HasLongInitial};
ghost use Rattle.fast_stream.specs.meaning.Events.{EventData};
ghost use Rattle.fast_stream.specs.meaning.Streams.{End};
ghost use Rattle.fast_stream.specs.meaning.Begins.{Begins};
ghost use Rattle.fast_stream.specs.meaning.Account.{TellsStream, account_at, held};
ghost use Rattle.fast_decoder.specs.meaning.Decoding.{DecoderData, tree, AreBadLimits, IsUncounted, HasRead, turns, stored, account, answer, Carried};
ghost use Rattle.fast_decoder.specs.device.InHand.{in_hand};
ghost use Rattle.fast_decoder.specs.meaning.Feeding.{IsAtPlace, ConsumesAtMost, all_bytes, Followed};

use fast_loop::pieces::take_all;
use fast_machine::in_hand::Due;
use fast_machine::layout::has_long_initial;
use fast_machine::machine::Machine;
use fast_stream::{Fault, FaultCode, MakeError, Sink};
use fast_template::Templates;
use fast_value::{Limits, MAX_TEXT, MIN_TEXT};
use std::alloc::Global;
use std::fmt;
use std::marker::Model;

/// Decodes a stream of FAST messages that arrives in pieces, split anywhere. It allocates memory only when it is made.
#[derive(Drop)]
pub struct Decoder<'t> {
    templates: &'t Templates,
    limits: Limits,
    machine: Machine<'t>,
    consumed: u64,
    fault: Option<Fault>,
}

impl<'t> Model for Decoder<'t> {
    ghost use Rattle.fast_machine.specs.device.Positions.{set_of};
    ghost use Rattle.fast_decoder.specs.meaning.Decoding.{DecoderData, IsSound};

    ghost Value = { DecoderData };

    ghost view = { λ d. record {
      set = set_of d.templates.now;
      limits = d.limits;
      machine = d.machine;
      consumed = d.consumed;
      fault = d.fault;
    } };

    ghost invariant = { λ d. IsSound (record {
      set = set_of d.templates.now;
      limits = d.limits;
      machine = d.machine;
      consumed = d.consumed;
      fault = d.fault;
    }) };
}

/// Formats the limits, the number of bytes consumed, and the fault at which the decoder stopped.
impl<'t> fmt::Debug for Decoder<'t> {
    fn fmt<W: fmt::Write>(&self, f: &mut fmt::Formatter<W>) -> fmt::Result {
        f.debug_struct("Decoder")
            .field("limits", &self.limits)
            .field("consumed", &self.consumed)
            .field("fault", &self.fault)
            .finish_non_exhaustive()
    }
}

impl<'t> Decoder<'t> {
    /// Makes a decoder for streams of a template set, under these limits, before the first byte.
    ///
    /// # Errors
    ///
    /// `BadLimits` if `max_text` is not in 16 to 1,048,576; else `InitialTooLong` if a field has an initial value, a string or byte vector,
    /// that is longer than `max_text`; else `Memory` if an allocation failed.
    pub fn new(
        alloc: Global,
        templates: &'t Templates,
        limits: Limits,
    ) -> Result<Decoder<'t>, MakeError>
        ensures made { IfOk result (λ d. HasRead d [] [] × (tree d ≡ tree_of templates.entry.now)
            × (d.limits ≡ limits)) }
        ensures bad_limits { (result ≡ Err MakeError.BadLimits) ↔ (AreBadLimits limits) }
        ensures long_initial { (result ≡ Err MakeError.InitialTooLong)
            ↔ (¬ (AreBadLimits limits) × HasLongInitial limits.max_text (nodes_of templates.entry.now)) }
        ensures no_turn { IfOk result (λ d. turns d ≡ 0) }
        // The bytes and records stored are at most the cap of the set.
        ensures bounded { IfOk result (λ d. held (stored d) ≤ stored_cap (tree d) d.limits) }
    {
        if limits.max_text < MIN_TEXT || limits.max_text > MAX_TEXT {
            return Err(MakeError::BadLimits);
        }
        if has_long_initial(templates, limits.max_text) {
            return Err(MakeError::InitialTooLong);
        }
        match Machine::new(alloc, templates, limits) {
            Err(_) => Err(MakeError::Memory),
            Ok(machine) => Ok(Decoder {
                templates,
                limits,
                machine,
                consumed: 0,
                fault: None,
            }),
        }
    }

    /// Reads the next piece of the stream, which may be split anywhere, and passes its events to the sink.
    ///
    /// At a fault the bytes up to its offset (`place`) are consumed, and each further feed returns the same fault, until `reset`.
    #[inline(always)]
    pub fn feed<S: Sink>(&mut self, piece: &[u8], sink: &mut S) -> Result<(), Fault>
        // The decoder has then read the piece after what it had read before, and the sink receives the events of the piece.
        ensures carried { (w : List ℕ) (es : List EventData) → HasRead self.old w es
            → Carried S.takes S.stops self.old w es piece.now sink.old result self.new sink.new }
        ensures answer { result ≡ answer self.new.fault }
        ensures same_set { (tree self.new ≡ tree self.old) × (self.new.limits ≡ self.old.limits) }
        // A fault stays: the decoder's account does not change, and the sink receives nothing.
        ensures stopped { IsSome self.old.fault → (account self.new ≡ account self.old) × (sink.new ≡ sink.old) }
        // L4 is returned exactly where the bytes can no longer be counted.
        ensures counted { self.old.fault ≡ None
            → (IsUncounted result ↔ (2 ^ 64 ≤ self.old.consumed + length piece.now)) }
        ensures bounded { held (stored self.new) ≤ stored_cap (tree self.new) self.new.limits }
        // At every fault the number of bytes consumed is the fault's offset.
        ensures at_place { IsAtPlace self.new }
        ensures consumed { ConsumesAtMost (length piece.now) self.old self.new }
        // `carried` in terms of the stream, with the bound on the events, which holds at L4 and when the sink stops too.
        ensures followed { (w : List ℕ) (es : List EventData) → HasRead self.old w es
            → Followed S.takes S.stops (tree self.old) self.old.limits w es piece.now sink.old result self.new
            sink.new }
        // The call makes at most `1 + turn_cap` turns for each byte that it consumes. A turn is a part settled, or a frame or element
        // opened or closed; docs/DEFINITIONS.md says what counts as one.
        ensures turns { turns self.new
            ≤ (self.new.consumed - self.old.consumed) * (1 + turn_cap (tree self.new) self.new.limits) }
    {
        self.machine.begin_turns();
        if let Some(fault) = self.fault {
            return Err(fault);
        }
        if piece.len() as u64 > u64::MAX - self.consumed {
            let fault = Fault {
                code: FaultCode::L4,
                place: self.consumed,
            };
            self.fault = Some(fault);
            return Err(fault);
        }
        let taken = take_all(&mut self.machine, self.templates, &self.limits, piece, sink);
        self.consumed += taken.bytes as u64;
        match taken.outcome {
            Ok(()) => Ok(()),
            Err(code) => {
                let fault = Fault {
                    code,
                    place: self.consumed,
                };
                self.fault = Some(fault);
                Err(fault)
            }
        }
    }

    /// Reads one byte of the stream and passes its events to the sink, as `feed` does with a piece of one byte.
    pub fn push<S: Sink>(&mut self, byte: u8, sink: &mut S) -> Result<(), Fault>
        ensures carried { (w : List ℕ) (es : List EventData) → HasRead self.old w es
            → Carried S.takes S.stops self.old w es (byte ∷ []) sink.old result self.new sink.new }
        ensures answer { result ≡ answer self.new.fault }
        ensures same_set { (tree self.new ≡ tree self.old) × (self.new.limits ≡ self.old.limits) }
        ensures stopped { IsSome self.old.fault → (account self.new ≡ account self.old) × (sink.new ≡ sink.old) }
        ensures counted { self.old.fault ≡ None → (IsUncounted result ↔ (2 ^ 64 ≤ self.old.consumed + 1)) }
        ensures bounded { held (stored self.new) ≤ stored_cap (tree self.new) self.new.limits }
        ensures at_place { IsAtPlace self.new }
        ensures consumed { ConsumesAtMost 1 self.old self.new }
        ensures followed { (w : List ℕ) (es : List EventData) → HasRead self.old w es
            → Followed S.takes S.stops (tree self.old) self.old.limits w es (byte ∷ []) sink.old result self.new
            sink.new }
        ensures turns { turns self.new
            ≤ (self.new.consumed - self.old.consumed) * (1 + turn_cap (tree self.new) self.new.limits) }
    {
        self.feed(&[byte], sink)
    }

    /// Feeds the pieces of a stream in order, up to the first fault, which it returns.
    ///
    /// The sink receives exactly the events of the stream; where the stream is at fault, the error says which fault and at which offset.
    /// The number of events is at most the cap of a message for each byte consumed, and that of the bytes and records stored at most the
    /// cap of the set. Both bounds are clauses of `feed`, which reads each piece, so they hold after each piece, and with pieces of one
    /// byte after each byte.
    pub fn feed_all<S: Sink>(&mut self, pieces: &[&[u8]], sink: &mut S) -> Result<(), Fault>
        // The pieces are read as if they were one, after the bytes that the decoder had read before.
        ensures followed { (w : List ℕ) (es : List EventData) → HasRead self.old w es
            → Followed S.takes S.stops (tree self.old) self.old.limits w es (all_bytes pieces.now) sink.old result
            self.new sink.new }
        // For a decoder that was just made or reset, the stream is that of the pieces alone.
        ensures from_start { HasRead self.old [] []
            → Followed S.takes S.stops (tree self.old) self.old.limits [] [] (all_bytes pieces.now) sink.old result
            self.new sink.new }
        ensures answer { result ≡ answer self.new.fault }
        ensures same_set { (tree self.new ≡ tree self.old) × (self.new.limits ≡ self.old.limits) }
        ensures stopped { IsSome self.old.fault → (account self.new ≡ account self.old) × (sink.new ≡ sink.old) }
        ensures bounded { held (stored self.new) ≤ stored_cap (tree self.new) self.new.limits }
        ensures at_place { IsAtPlace self.new }
        ensures consumed { ConsumesAtMost (length (all_bytes pieces.now)) self.old self.new }
    {
        // An empty piece first: a decoder that has stopped returns its fault, even if there is no piece.
        self.feed(&[], sink)?;
        for piece in pieces {
            self.feed(piece, sink)?;
        }
        Ok(())
    }

    /// Restores the decoder to the state in which it was made: before the first byte, without a fault.
    pub fn reset(&mut self)
        ensures so { HasRead self.new [] [] }
        ensures no_turn { turns self.new ≡ 0 }
        ensures bounded { held (stored self.new) ≤ stored_cap (tree self.new) self.new.limits }
        ensures same_set { (tree self.new ≡ tree self.old) × (self.new.limits ≡ self.old.limits) }
    {
        self.machine.reset();
        self.consumed = 0;
        self.fault = None;
    }

    /// Returns the number of bytes consumed since the decoder was made or reset.
    pub fn consumed(&self) -> u64
        ensures { result ≡ (account self.now).consumed }
    {
        self.consumed
    }

    /// Returns whether the decoder is between two messages: it has no fault, and each message that began is complete.
    pub fn between(&self) -> bool
        ensures { result ≡ (account self.now).is_between }
    {
        self.fault.is_none() && self.machine.is_idle()
    }

    /// Returns the fault at which the decoder stopped, if it did.
    pub fn fault(&self) -> Option<Fault>
        ensures { result ≡ (account self.now).fault }
    {
        self.fault
    }

    /// Returns what the decoder waits for, or where it has stopped, to report where a stream is truncated or at fault.
    ///
    /// At a fault it is the next instruction: in a presence map (R7, R8, L3) the first one after the map, at a sequence that is too long
    /// (L2, L5) the one after the sequence.
    pub fn in_hand(&self) -> Due
        ensures { result ≡ in_hand self.now }
    {
        match self.fault {
            None => self.machine.awaited(),
            Some(_) => self.machine.stopped_at(),
        }
    }
}

/// The bytes that a decoder has read are a stream with these events, and the decoder reports how it ends: whether it is between two
/// messages, its fault, and the number of bytes consumed.
pub fn read_is_stream()
    ensures { (d : DecoderData) (w : List ℕ) (es : List EventData) → HasRead d w es
        → TellsStream (tree d) d.limits w es (account d) }
{}

/// The events that a decoder has emitted are no more than the cap of a message for each byte consumed.
pub fn read_bounds_events()
    ensures { (d : DecoderData) (w : List ℕ) (es : List EventData) → HasRead d w es
        → length es ≤ (account d).consumed * message_cap (tree d) d.limits }
{}

/// The events that a decoder has emitted are no more than the cap of a message for each message of which a byte was read: complete ones,
/// and then perhaps one that is truncated or wrong.
pub fn read_bounds_messages()
    ensures { (d : DecoderData) (w : List ℕ) (es : List EventData) → HasRead d w es
        → (e : End) × (n : ℕ) × (account d ≡ account_at w e)
        × Begins (tree d) d.limits w e n × (length es ≤ n * message_cap (tree d) d.limits) }
{}

/// The theorem of the decoder, for every template set, limits and bytes: the bytes read are a stream with these events, whose end the
/// decoder reports; the bytes and records stored are at most the cap of the set; and the events are no more than the cap of a message for
/// each byte consumed. That a sink receives these events is a clause of each call: of `Decoder::feed_all`, `feed` and `push`.
pub fn headline()
    ensures { (d : DecoderData) (w : List ℕ) (es : List EventData) → HasRead d w es
        → TellsStream (tree d) d.limits w es (account d)
        × (held (stored d) ≤ stored_cap (tree d) d.limits)
        × (length es ≤ (account d).consumed * message_cap (tree d) d.limits) }
{}
