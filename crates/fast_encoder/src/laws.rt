//! Laws of the encoder, and of the encoder and the decoder together.

ghost use Rattle.std.specs.Prelude.{◌≡◌, ◌⊎◌, ℕ, ◌+◌, ◌<◌, ◌^◌, true, List, [], length, Result, Ok};
ghost use Rattle.toml.specs.Data.{Members};
ghost use Rattle.fast_value.specs.meaning.Limits.{in_mode};
ghost use Rattle.fast_value.specs.meaning.Messages.{MessageData};
ghost use Rattle.fast_notation.specs.meaning.Checked.{IsTree};
ghost use Rattle.fast_template.specs.declared.sets.Templates.{Templates};
ghost use Rattle.fast_template.specs.meaning.Flat.{nodes_of, tree_of};
ghost use Rattle.fast_dict.specs.meaning.Dictionary.{fresh};
ghost use Rattle.fast_dict.specs.meaning.EntryTexts.{HasLongInitial};
ghost use Rattle.fast_stream.specs.declared.faults.Fault.{Fault};
ghost use Rattle.fast_stream.specs.meaning.Events.{EventData};
ghost use Rattle.fast_decoder.specs.meaning.Decoding.{AreBadLimits, DecoderData, HasRead, Carried, answer, tree as decoded_tree};
ghost use Rattle.fast_spelling.specs.declared.faults.EncodeFault.{EncodeFault};
ghost use Rattle.fast_spelling.specs.meaning.Refusals.{IsRefused};
ghost use Rattle.fast_encoder.specs.meaning.Encoders.{EncoderData, IsEncoded, CanBeEncoded, IsAble, tree};
ghost use Rattle.fast_encoder.specs.meaning.ReadBack.{AreLevel, IsSinkStop, IsReadBack};

use fast_decoder::Sink;
pub use fast_laws::laws::{can_encode, some_encoding};
pub use fast_spelling::laws::{
    encoded_is_read_back, encoded_is_spelled, message_has_map, one_encoding, one_refusal,
    refused_is_not_encoded, segment_has_map,
};
pub use fast_stream::laws::read_back;

/// Every message is either encoded or refused, never both. So if `encode` returns `Memory`, a call with enough memory encodes the message,
/// or returns its one fault.
pub fn encoded_or_refused()
    // IsAble is given by `stays_able`.
    ensures either { (e : EncoderData) (m : MessageData) (out : List ℕ) → IsAble e
        → CanBeEncoded e m out ⊎ ((c : EncodeFault) × IsRefused (tree e) e.limits e.dictionary m c) }
    ensures never_both { (e : EncoderData) (m : MessageData) (out : List ℕ) (c : EncodeFault) → CanBeEncoded e m out
        → ¬ (IsRefused (tree e) e.limits e.dictionary m c) }
{}

/// A new encoder of a set that was read can encode or refuse every message, and stays so. The functions of `Encoder` ensure the premises.
pub fn stays_able()
    // `Templates::read` gives the tree, and `Encoder::new` the rest.
    ensures new { (document : Members) (t : Templates) (e : EncoderData) → IsTree document (tree_of t) → tree e ≡ tree_of t
        → e.dictionary ≡ fresh (tree_of t).entries → ¬ (AreBadLimits e.limits)
        → ¬ (HasLongInitial e.limits.max_text (nodes_of t)) → IsAble e }
    ensures reset { (e f : EncoderData) → IsAble e → f.dictionary ≡ fresh (tree e).entries → f.set ≡ e.set
        → f.limits ≡ e.limits → IsAble f }
    ensures next { (e f : EncoderData) (m : MessageData) (out longer : List ℕ) → IsAble e → IsEncoded e m out f longer
        → f.set ≡ e.set → f.limits ≡ e.limits → IsAble f }
{}

/// `feed` reads back what `encode` wrote. If an encoder and a decoder are level before a call of `encode` and the feed of its bytes, they
/// are level afterwards (`from` is the sink before the feed, `to` after it), and the sink received the message's events, unless the sink
/// stopped. The proof uses only the contracts of the two calls.
pub fn reading_back<S: Sink>(from: &S, to: &S)
    ensures { (e f : EncoderData) (d g : DecoderData) (m : MessageData) (out longer w : List ℕ) (es : List EventData)
        (r : Result Unit Fault)
        → AreLevel e d w es → (written : IsEncoded e m out f longer) → (tree f ≡ tree e) → (f.limits ≡ e.limits)
        → ¬ (IsSinkStop r) → d.consumed + length written.bytes < 2 ^ 64
        → Carried S.takes S.stops d w es written.bytes from.now r g to.now → r ≡ answer g.fault
        → (decoded_tree g ≡ decoded_tree d) → (g.limits ≡ d.limits)
        → (r ≡ Ok tt) × IsReadBack S.takes m written.bytes w es from.now f g to.now }
{}

/// An encoder and a decoder of one set and equal limits (`strict` may differ) are level when they are made, and when both are reset.
pub fn new_are_level()
    ensures { (e : EncoderData) (d : DecoderData) → HasRead d [] [] → (decoded_tree d ≡ tree e)
        → (in_mode true d.limits ≡ in_mode true e.limits) → (e.dictionary ≡ fresh (tree e).entries)
        → AreLevel e d [] [] }
{}
