//! Laws of the encoding. They are about the definitions alone, for all template sets, limits and messages.

ghost use Rattle.std.specs.Prelude.{◌≡◌, ◌⊎◌, ◌≤◌, All, length, ℕ, List, [], ◌∷◌, Bool, true, Option, Some, ◌++◌};
ghost use Rattle.toml.specs.Data.{Members};
ghost use Rattle.fast_value.specs.declared.settings.Limits.{Limits};
ghost use Rattle.fast_value.specs.meaning.Kinds.{ScalarData, U};
ghost use Rattle.fast_value.specs.meaning.Limits.{in_mode};
ghost use Rattle.fast_value.specs.meaning.Messages.{Slots, MessageData};
ghost use Rattle.fast_tree.specs.meaning.Sizes.{segment_limit};
ghost use Rattle.fast_tree.specs.declared.operators.Operator.TheVariants.{Delta, Tail};
ghost use Rattle.fast_tree.specs.meaning.Tree.{FieldData, identifier, Body, bits_of, TemplateData, message_bits, Tree, HasDistinctIds};
ghost use Rattle.fast_notation.specs.meaning.Checked.{IsTree};
ghost use Rattle.fast_dict.specs.meaning.Dictionary.{Dictionary, PreviousData, fresh};
ghost use Rattle.fast_dict.specs.meaning.Operators.{Op, Sent};
ghost use Rattle.fast_stream.specs.meaning.Events.{EventData, events};
ghost use Rattle.fast_stream.specs.meaning.Fields.{field_phrase};
ghost use Rattle.fast_stream.specs.meaning.Messages.{SpellsMessage};
ghost use Rattle.fast_stream.specs.meaning.Phrases.{whole};
ghost use Rattle.fast_stream.specs.meaning.Streams.{Stream, Chain, between, SpellsAll, AreBytes};
ghost use Rattle.fast_spelling.specs.declared.faults.EncodeFault.{EncodeFault};
ghost use Rattle.fast_spelling.specs.declared.faults.EncodeFault.TheVariants.{R9};
ghost use Rattle.fast_spelling.specs.meaning.Again.{IsGrantedTree, IsShortTree, IsSound, IsPlainTree, HaveNoZero, EncodesAll};
ghost use Rattle.fast_spelling.specs.meaning.Encoding.{EncodesField, EncodesBody, EncodesMessage, SpellsSent};
ghost use Rattle.fast_spelling.specs.meaning.Refusals.{HaveNoMap, IsRefused};
ghost use Rattle.fast_spelling.specs.meaning.Refused.{IsReadButRefused};
ghost use Rattle.fast_spelling.specs.meaning.Suiting.{IsKnown, SuitsTemplate, FitsLimits};

/// The bytes of an item that the operator reads are a field of the stream in strict mode.
pub fn field_spelled()
    ensures { (l : Limits) (f : FieldData) (p : PreviousData) (bit : Bool) (x : Sent) (v : Option ScalarData)
        (next : PreviousData) (w : List ℕ) → SpellsSent (in_mode true l) f p x w → Op f p bit x v next
        → field_phrase (in_mode true l) f p bit w [] (whole (record { value = v; next = next })) }
{}

/// The bytes that the encoder writes for a message that suits its template and the limits encode the message in strict mode. So it writes
/// no presence map that strict mode refuses as too long.
pub fn encoded_is_spelled()
    ensures { (t : Tree) (l : Limits) (d : Dictionary) (m : MessageData) (w : List ℕ) (d' : Dictionary)
        → HasDistinctIds t → SuitsTemplate t m → FitsLimits l m.slots → EncodesMessage t l d m w d'
        → SpellsMessage t (in_mode true l) d m w d' }
{}

/// From one dictionary a message has exactly one encoding, and it leads to one dictionary.
pub fn one_encoding()
    ensures { (t : Tree) (l : Limits) (d : Dictionary) (m : MessageData) (v w : List ℕ) (a b : Dictionary) → AreBytes v
        → AreBytes w → EncodesMessage t l d m v a → EncodesMessage t l d m w b → (v ≡ w) × (a ≡ b) }
{}

/// The decoder reads back what the encoder appends after a chain of messages, in both modes: the events of the message follow, and the
/// chain ends at the encoder's dictionary.
pub fn encoded_is_read_back()
    ensures { (t : Tree) (l : Limits) (w v : List ℕ) (es : List EventData) (m : MessageData) (d d' : Dictionary)
        → HasDistinctIds t → SuitsTemplate t m → FitsLimits l m.slots → Chain t l w es d → EncodesMessage t l d m v d'
        → Stream t l (w ++ v) (es ++ events t m) between × Chain t l (w ++ v) (es ++ events t m) d' }
{}

/// A message that suits its template and the limits is not refused if it has an encoding, and not encoded if it is refused.
pub fn refused_is_not_encoded()
    ensures { (t : Tree) (l : Limits) (d d' : Dictionary) (m : MessageData) (w : List ℕ) (c : EncodeFault)
        → SuitsTemplate t m → FitsLimits l m.slots → EncodesMessage t l d m w d' → ¬ (IsRefused t l d m c) }
{}

/// A message is refused with at most one fault.
pub fn one_refusal()
    ensures { (t : Tree) (l : Limits) (d : Dictionary) (m : MessageData) (a b : EncodeFault) → IsRefused t l d m a
        → IsRefused t l d m b → a ≡ b }
{}

/// The presence bits that the encoder writes for a group or an element fit in a presence map if its instructions use at most 1,022, as they
/// do in a checked set. So no group or element of such a set is refused for its presence map.
pub fn segment_has_map()
    ensures { (l : Limits) (body : Body) (d d' : Dictionary) (vs : Slots) (b : List Bool) (w : List ℕ)
        → EncodesBody l body d vs b w d' → bits_of body ≤ segment_limit → ¬ (HaveNoMap b) }
{}

/// The presence bits of a message's own segment, with that of the template identifier, fit in a presence map, if its instructions use at
/// most 1,022.
pub fn message_has_map()
    ensures { (l : Limits) (u : TemplateData) (id : ℕ) (d mid e d' : Dictionary) (vs : Slots) (b c : List Bool)
        (v w : List ℕ) → EncodesField l identifier d (Some (U id)) b v mid → EncodesBody l u.body e vs c w d'
        → message_bits u ≤ segment_limit → ¬ (HaveNoMap (b ++ c)) }
{}

/// A checked set meets the premises of the laws after this one, if no initial value is longer than `max_text`.
pub fn read_is_granted()
    ensures { (document : Members) (t : Tree) (l : Limits) → IsTree document t → IsShortTree l t → IsGrantedTree l t }
{}

/// A message that was decoded suits its template and the limits, and keeps the previous values sound.
pub fn spelled_suits()
    ensures { (t : Tree) (l : Limits) (d : Dictionary) (m : MessageData) (w : List ℕ) (d' : Dictionary)
        → IsGrantedTree l t → IsSound l d → SpellsMessage t l d m w d'
        → IsKnown t m × SuitsTemplate t m × FitsLimits l m.slots × IsSound l d' }
{}

/// A message that was decoded, in either mode, is encoded again and leads to the same dictionary, or it is refused with R9 and no other
/// fault. The encoding has no more bytes than were read, except where an optional field is a delta of a string or a tail of an ASCII
/// string.
pub fn encoded_again()
    ensures { (t : Tree) (l : Limits) (d : Dictionary) (m : MessageData) (w : List ℕ) (d' : Dictionary)
        → IsGrantedTree l t → IsSound l d → SpellsMessage t l d m w d'
        → ((v : List ℕ) × EncodesMessage t l d m v d' × (IsPlainTree t → length v ≤ length w)) ⊎ IsRefused t l d m R9 }
{}

/// A message that was decoded is not refused if none of its ASCII strings contains U+0000.
pub fn encoded_without_zero()
    ensures { (t : Tree) (l : Limits) (d : Dictionary) (m : MessageData) (w : List ℕ) (d' : Dictionary)
        → IsGrantedTree l t → IsSound l d → HaveNoZero m.slots → SpellsMessage t l d m w d'
        → (v : List ℕ) × EncodesMessage t l d m v d' × (IsPlainTree t → length v ≤ length w) }
{}

/// All messages of a chain are encoded again, from the same dictionaries, if no ASCII string contains U+0000.
pub fn all_encoded_again()
    ensures { (t : Tree) (l : Limits) (ms : List MessageData) (w : List ℕ) (d : Dictionary) → IsGrantedTree l t
        → All (λ m. HaveNoZero m.slots) ms → SpellsAll t l (fresh t.entries) ms w d
        → (v : List ℕ) × EncodesAll t l (fresh t.entries) ms v d × (IsPlainTree t → length v ≤ length w) }
{}

/// Two ASCII strings that are decoded, but refused when they are encoded: one under delta, one under tail.
pub fn read_but_refused()
    ensures { IsReadButRefused Delta (0xC0 ∷ 0x81 ∷ 0x80 ∷ 0x41 ∷ 0xC3 ∷ 0x80 ∷ 0x82 ∷ 0x41 ∷ 0x00 ∷ 0xC2 ∷ [])
        (0x41 ∷ 0x43 ∷ []) (0x41 ∷ 0x00 ∷ 0x42 ∷ [])
        × IsReadButRefused Tail (0xE0 ∷ 0x81 ∷ 0x41 ∷ 0x41 ∷ 0xC3 ∷ 0xA0 ∷ 0x41 ∷ 0x00 ∷ 0xC2 ∷ [])
        (0x41 ∷ 0x41 ∷ 0x43 ∷ []) (0x41 ∷ 0x00 ∷ 0x42 ∷ []) }
{}
