//! The laws. They are about the definitions alone, for all sets, limits and bytes.

ghost use Rattle.std.specs.Prelude.{◌≡◌, ◌≢◌, ◌≤◌, ◌<◌, ◌+◌, ◌⊎◌, ◌↔◌, [], Bool, Option, None, ◌++◌, ◌∷◌, true, false, length, List, ℕ, All};
ghost use Rattle.toml.specs.Data.{Members};
ghost use Rattle.fast_value.specs.declared.codes.Code.{Code};
ghost use Rattle.fast_value.specs.declared.settings.Limits.{Limits};
ghost use Rattle.fast_value.specs.meaning.Kinds.{ScalarData};
ghost use Rattle.fast_value.specs.meaning.Limits.{bounds};
ghost use Rattle.fast_value.specs.meaning.Messages.{MessageData, total};
ghost use Rattle.fast_tree.specs.declared.operators.Operator.TheVariants.{Copy};
ghost use Rattle.fast_tree.specs.meaning.Tree.{FieldData, Tree};
ghost use Rattle.fast_notation.specs.meaning.Checked.{IsTree};
ghost use Rattle.fast_template.specs.declared.sets.Templates.{Templates};
ghost use Rattle.fast_template.specs.meaning.Flat.{nodes_of, tree_of};
ghost use Rattle.fast_dict.specs.meaning.Dictionary.{Dictionary, PreviousData, fresh};
ghost use Rattle.fast_dict.specs.meaning.EntryTexts.{HasLongInitial};
ghost use Rattle.fast_stream.specs.meaning.Events.{EventData, SequenceStart, events};
ghost use Rattle.fast_stream.specs.meaning.Fields.{field_phrase};
ghost use Rattle.fast_stream.specs.meaning.Grammar.{phrase_of};
ghost use Rattle.fast_stream.specs.meaning.Messages.{State, Found, field_in};
ghost use Rattle.fast_stream.specs.meaning.Phrases.{whole};
ghost use Rattle.fast_stream.specs.meaning.Streams.{End, faulted, Stream};
ghost use Rattle.fast_spelling.specs.declared.faults.EncodeFault.{EncodeFault};
ghost use Rattle.fast_spelling.specs.declared.faults.EncodeFault.TheVariants.{E3, R9};
ghost use Rattle.fast_spelling.specs.meaning.Again.{IsGrantedTree};
ghost use Rattle.fast_spelling.specs.meaning.Encoding.{EncodesMessage};
ghost use Rattle.fast_spelling.specs.meaning.Refusals.{IsRefused};
ghost use Rattle.fast_spelling.specs.meaning.Refused.{ascii_field, set_of, wide};
ghost use Rattle.fast_spelling.specs.meaning.Suiting.{IsKnown, SuitsTemplate, FitsLimits};
ghost use Rattle.fast_laws.specs.meaning.Counting.{counted, AreFew, HasFew};
ghost use Rattle.fast_laws.specs.meaning.Items.{IsByItem, SpellsFound};
ghost use Rattle.fast_laws.specs.meaning.Naming.{IsNamed};
ghost use Rattle.fast_laws.specs.meaning.Nesting.{AreNested};
ghost use Rattle.fast_laws.specs.meaning.Proper.{AreOfMessages};
ghost use Rattle.fast_laws.specs.meaning.Raising.{IsOtherEnd, IsPassed, is_count_code, with_room};
ghost use Rattle.fast_laws.specs.meaning.Settling.{CanEncode, HasEncoding, text_message};

/// A set that was read meets the next law's premise on its tree, under limits that no initial value exceeds.
pub fn set_is_granted()
    // `Templates::read` ensures IsTree of the set, and no `Decoder` or `Encoder` is made if an initial value is too long.
    ensures { (document : Members) (t : Templates) (l : Limits) → IsTree document (tree_of t)
        → ¬ (HasLongInitial l.max_text (nodes_of t)) → IsGrantedTree l (tree_of t) }
{}

/// The events of a stream are those of messages that suit their templates and the limits, and then the first events of one more such
/// message, however the stream ends.
pub fn events_are_of_messages()
    // IsGrantedTree is given by `set_is_granted`, and Stream by `Decoder::feed_all`, `feed` and `push` (`followed`).
    ensures { (t : Tree) (l : Limits) (w : List ℕ) (es : List EventData) (e : End) → IsGrantedTree l t
        → Stream t l w es e → AreOfMessages t l es e }
{}

/// Every value that is emitted is a value of its field: each event names a node of the set (or a template) of its own type, the value is in
/// the range of the field's type, and starts and ends nest. This holds at each moment, since each prefix of a stream is a stream.
pub fn events_are_of_fields()
    // The premises are those of the two laws above, which the same contracts provide.
    ensures named { (document : Members) (t : Templates) (l : Limits) (w : List ℕ) (es : List EventData) (e : End)
        → IsTree document (tree_of t) → ¬ (HasLongInitial l.max_text (nodes_of t))
        → Stream (tree_of t) l w es e → All (IsNamed t l) es }
    ensures nested { (t : Tree) (l : Limits) (w : List ℕ) (es : List EventData) (e : End) → IsGrantedTree l t
        → Stream t l w es e → AreNested es e }
{}

/// The number of elements of a message, those of inner sequences included, is the sum that its events announce.
pub fn total_is_counted()
    // SuitsTemplate is given by `events_are_of_messages`.
    ensures { (t : Tree) (m : MessageData) → SuitsTemplate t m → counted (events t m) ≡ total m.slots }
{}

/// No sequence has more elements than `max_elements`, and at no moment has a message more than `max_total`.
pub fn elements_are_few()
    // IsGrantedTree and Stream are given as for `events_are_of_messages`.
    ensures each { (t : Tree) (l : Limits) (w : List ℕ) (es : List EventData) (e : End) → IsGrantedTree l t
        → Stream t l w es e → All (HasFew l) es }
    ensures all { (t : Tree) (l : Limits) (w : List ℕ) (es : List EventData) (e : End) → IsGrantedTree l t
        → Stream t l w es e → AreFew l es }
{}

/// L2 and L5 occur exactly where the next sequence would exceed a limit. A stream that ends with one of them announced such a sequence with
/// the byte at the offset of the fault (`place`): under higher limits the same bytes emit its start. A stream that ends otherwise is the
/// same under higher limits; so if a sequence exceeds a limit there, the stream ends with one of the two.
pub fn limits_come_where_passed()
    // `Decoder::feed_all`, `feed` and `push` ensure Stream (`followed`); under other limits another decoder does, or `some_answer`.
    ensures passed { (t : Tree) (l : Limits) (w : List ℕ) (es : List EventData) (c : Code) (place : ℕ)
        → is_count_code c ≡ true → Stream t l w es (faulted c place) → IsPassed t l w es c place }
    ensures same { (t : Tree) (l : Limits) (m n : ℕ) (w : List ℕ) (es : List EventData) (e : End) → l.max_elements ≤ m
        → l.max_total ≤ n → IsOtherEnd e → Stream t l w es e → Stream t (with_room m n l) w es e }
    ensures ends { (t : Tree) (l : Limits) (m n : ℕ) (w : List ℕ) (es fs gs : List EventData) (node k : ℕ) (e e' : End)
        → IsGrantedTree l t → l.max_elements ≤ m → l.max_total ≤ n → Stream t l w es e
        → Stream t (with_room m n l) w (fs ++ SequenceStart node k ∷ gs) e'
        → (l.max_elements < k) ⊎ (l.max_total < counted fs + k) → ¬ (IsOtherEnd e) }
{}

/// The bytes of a field are those of an item that its operator reads, in the encoding of its type; its value or absence and the entry's
/// next value are those of the operator table, in each row, deltas included. So the table and the encodings of types govern streams.
pub fn field_is_an_item()
    ensures item { (l : Limits) (f : FieldData) (p : PreviousData) (bit : Bool) (v : Option ScalarData)
        (next : PreviousData) (w : List ℕ)
        → field_phrase l f p bit w [] (whole (record { value = v; next = next })) ↔ IsByItem l f p bit v next w }
    // A message reads its fields in this way.
    ensures found { (l : Limits) (f : FieldData) (s : State) (w : List ℕ) (es : List EventData) (r : Found)
        → phrase_of l.strict (field_in (bounds l) f s) w es (whole r) ↔ ((es ≡ []) × SpellsFound l f s w r) }
{}

/// Messages can be encoded from an empty dictionary, under a set that was read and limits that an encoder accepts, and from the dictionary
/// after each message that was encoded.
pub fn can_encode()
    // `Templates::read` ensures IsTree of the set, and `Encoder::new` the other premises.
    ensures new { (document : Members) (t : Templates) (l : Limits) → IsTree document (tree_of t) → l.max_text ≤ 1048576
        → ¬ (HasLongInitial l.max_text (nodes_of t)) → CanEncode (tree_of t) l (fresh (tree_of t).entries) }
    // `Encoder::encode` ensures the premises (`ok`).
    ensures next { (t : Tree) (l : Limits) (d : Dictionary) (m : MessageData) (w : List ℕ) (d' : Dictionary)
        → CanEncode t l d → SuitsTemplate t m → FitsLimits l m.slots → EncodesMessage t l d m w d' → CanEncode t l d' }
{}

/// A message that suits its template and the limits is encoded, or refused with E3 or R9. So every message is encoded or refused; never
/// both, by `refused_is_not_encoded`.
pub fn some_encoding()
    // CanEncode is given by `can_encode`.
    ensures suited { (t : Tree) (l : Limits) (d : Dictionary) (m : MessageData) → CanEncode t l d → IsKnown t m
        → SuitsTemplate t m → FitsLimits l m.slots
        → HasEncoding t l d m ⊎ (IsRefused t l d m E3 ⊎ IsRefused t l d m R9) }
    ensures any { (t : Tree) (l : Limits) (d : Dictionary) (m : MessageData) → CanEncode t l d
        → (SuitsTemplate t m × FitsLimits l m.slots × HasEncoding t l d m)
        ⊎ ((c : EncodeFault) × IsRefused t l d m c) }
{}

/// An example set: under a mandatory ASCII field with the operator copy, each string without U+0000 is encoded as the first message.
pub fn text_is_encoded()
    ensures { (v : List ℕ) → length v ≤ 64 → All (λ c. c < 128) v → All (λ c. c ≢ 0) v
        → HasEncoding (set_of (ascii_field Copy false None)) wide (fresh 2) (text_message v) }
{}
