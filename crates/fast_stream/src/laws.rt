//! Laws of streams: which bytes encode which messages, where a fault is decided, and which events are emitted. They speak of the
//! definitions alone, over all template sets, limits and bytes.

ghost use Rattle.std.specs.Prelude.{true, ◌++◌, ◌≡◌, ◌≤◌, ◌+◌, ◌*◌, ℕ, List, length, map, max, min};
ghost use Rattle.fast_value.specs.declared.settings.Limits.{Limits};
ghost use Rattle.fast_value.specs.meaning.Limits.{in_mode};
ghost use Rattle.fast_value.specs.declared.codes.Code.{Code};
ghost use Rattle.fast_value.specs.meaning.Messages.{MessageData};
ghost use Rattle.fast_tree.specs.meaning.Tree.{Tree, Label, FieldData, sequence, Body};
ghost use Rattle.fast_tree.specs.meaning.Sizes.{Weights, event_weights, turn_weights, size, body_size, body_outer, widest, body_widest, greatest, message_cap, turn_cap};
ghost use Rattle.fast_dict.specs.meaning.Dictionary.{Dictionary};
ghost use Rattle.fast_stream.specs.meaning.Events.{EventData, events};
ghost use Rattle.fast_stream.specs.meaning.Phrases.{Reached, whole};
ghost use Rattle.fast_stream.specs.meaning.Messages.{message, SpellsMessage};
ghost use Rattle.fast_stream.specs.meaning.Streams.{Stream, Chain, End, between, faulted, AreBytes};
ghost use Rattle.fast_stream.specs.meaning.Begins.{Begins, joined};
ghost use Rattle.fast_stream.specs.device.Running.{reading, run, message_begun, end_of};

/// A stream has at most one meaning: the same events, and the same end.
pub fn one_answer()
    ensures { (t : Tree) (l : Limits) (w : List ℕ) (es fs : List EventData) (e f : End) → Stream t l w es e
        → Stream t l w fs f → (es ≡ fs) × (e ≡ f) }
{}

/// Each stream of bytes has a meaning.
pub fn some_answer()
    ensures { (t : Tree) (l : Limits) (w : List ℕ) → AreBytes w
        → (es : List EventData) × (e : End) × Stream t l w es e }
{}

/// The result of reading bytes, one after the other, is their stream.
pub fn reading_is_the_stream()
    ensures { (t : Tree) (l : Limits) (w : List ℕ) → AreBytes w
        → Stream t l w (reading t l w).0 (end_of (reading t l w).1) }
{}

/// Bytes may be read in two pieces: the second is read from the state after the first.
pub fn reading_in_pieces()
    ensures { (t : Tree) (l : Limits) (w v : List ℕ)
        → ((reading t l (w ++ v)).0 ≡ (reading t l w).0 ++ (run (message_begun t l) (length w) (reading t l w).1 v).0)
        × ((reading t l (w ++ v)).1 ≡ (run (message_begun t l) (length w) (reading t l w).1 v).1) }
{}

/// The events that a complete message emits are the events of the message.
pub fn message_events()
    ensures { (t : Tree) (l : Limits) (d : Dictionary) (w : List ℕ) (es : List EventData) (r : MessageData × Dictionary)
        → message t l d w es (whole r) → es ≡ events t r.0 }
{}

/// Lenient mode accepts all that strict mode accepts: bytes that encode a message in strict mode encode it in lenient mode too.
pub fn strict_is_lenient()
    ensures { (t : Tree) (l : Limits) (d : Dictionary) (m : MessageData) (w : List ℕ) (d' : Dictionary)
        → SpellsMessage t (in_mode true l) d m w d' → SpellsMessage t l d m w d' }
{}

/// A chain of messages, followed by one that is encoded in strict mode, is a stream between messages and a chain, in both modes.
pub fn read_back()
    ensures { (t : Tree) (l : Limits) (w v : List ℕ) (es : List EventData) (m : MessageData) (d d' : Dictionary)
        → Chain t l w es d → SpellsMessage t (in_mode true l) d m v d'
        → Stream t l (w ++ v) (es ++ events t m) between × Chain t l (w ++ v) (es ++ events t m) d' }
{}

/// A message that has begun emits no more events than the cap of the set, whether it is complete, truncated or at fault.
pub fn message_bound()
    ensures { (t : Tree) (l : Limits) (d : Dictionary) (w : List ℕ) (es : List EventData)
        (r : Reached (MessageData × Dictionary)) → message t l d w es r → length es ≤ message_cap t l }
{}

/// A stream emits no more events than its bytes times the cap of the set.
pub fn events_bound()
    ensures { (t : Tree) (l : Limits) (w : List ℕ) (es : List EventData) (e : End) → Stream t l w es e
        → length es ≤ length w * message_cap t l }
{}

/// Each stream begins a number of messages: complete ones, and then perhaps one that is truncated or wrong. It emits no more events than
/// the cap of the set for each.
pub fn begun_bound()
    ensures some { (t : Tree) (l : Limits) (w : List ℕ) (es : List EventData) (e : End) → Stream t l w es e
        → (n : ℕ) × Begins t l w e n }
    ensures bound { (t : Tree) (l : Limits) (w : List ℕ) (es : List EventData) (e : End) (n : ℕ) → Stream t l w es e
        → Begins t l w e n → length es ≤ n * message_cap t l }
{}

/// The caps of a message, on its events and on its turns, are each the lesser of two numbers: the greatest template where each
/// sequence has as many elements as one may have, and the greatest without elements but with as many of its widest one as a
/// message may have.
pub fn message_caps()
    ensures events { (t : Tree) (l : Limits) → message_cap t l ≡ min
        (greatest (map (λ u. 2 + body_size event_weights l u.body) t.templates))
        (greatest (map (λ u. 2 + body_outer event_weights u.body + l.max_total * body_widest event_weights u.body)
        t.templates)) }
    ensures turns { (t : Tree) (l : Limits) → turn_cap t l ≡ min
        (greatest (map (λ u. 4 + body_size turn_weights l u.body) t.templates))
        (greatest (map (λ u. 4 + body_outer turn_weights u.body + l.max_total * body_widest turn_weights u.body)
        t.templates)) }
{}

/// A body in two parts counts the sum of both, with the elements of its sequences and without, and its widest element is the
/// wider one of the two.
pub fn body_parts()
    ensures size { (u : Weights) (l : Limits) (a b : Body)
        → body_size u l (joined a b) ≡ body_size u l a + body_size u l b }
    ensures outer { (u : Weights) (a b : Body) → body_outer u (joined a b) ≡ body_outer u a + body_outer u b }
    ensures widest { (u : Weights) (a b : Body) → body_widest u (joined a b) ≡ max (body_widest u a) (body_widest u b) }
{}

/// An element counts at most what its sequence counts, where a sequence may have one; without the elements in it, it counts at
/// most what the widest one does.
pub fn element_within()
    ensures size { (u : Weights) (l : Limits) (at : Label) (f : FieldData) (body : Body) → 1 ≤ l.max_elements
        → 2 + body_size u l body ≤ size u l (sequence at f body) }
    ensures widest { (u : Weights) (at : Label) (f : FieldData) (body : Body)
        → 2 + body_outer u body ≤ widest u (sequence at f body) }
{}

/// After a fault nothing is read: more bytes change neither the events nor the end.
pub fn faults_stay()
    ensures { (t : Tree) (l : Limits) (w v : List ℕ) (es : List EventData) (c : Code) (place : ℕ)
        → Stream t l w es (faulted c place) → Stream t l (w ++ v) es (faulted c place) }
{}
