//! Laws of lines and messages. They are about the definitions alone, for all sets, messages and strings.

ghost use Rattle.std.specs.Prelude.{◌≡◌, ℕ, List, All, IsUtf8, Result, flat_map};
ghost use Rattle.std.specs.declared.alloc.Global.{Global};
ghost use Rattle.std.specs.declared.vec.Vec.{Vec};
ghost use Rattle.fast_value.specs.declared.messages.Message.{Message};
ghost use Rattle.fast_value.specs.declared.kinds.Kind.{Kind};
ghost use Rattle.fast_value.specs.declared.settings.Limits.{Limits};
ghost use Rattle.fast_value.specs.meaning.Kinds.{ScalarData, IsOfKind};
ghost use Rattle.fast_value.specs.meaning.Messages.{MessageData};
ghost use Rattle.fast_tree.specs.declared.instructions.Node.{Node};
ghost use Rattle.fast_tree.specs.meaning.Tree.{Tree};
ghost use Rattle.toml.specs.Data.{Members};
ghost use Rattle.fast_notation.specs.meaning.Checked.{IsTree};
ghost use Rattle.fast_notation.specs.meaning.Labels.{template_labels, labels_from};
ghost use Rattle.fast_template.specs.declared.sets.Templates.{Templates};
ghost use Rattle.fast_template.specs.meaning.Flat.{tree_of};
ghost use Rattle.fast_stream.specs.meaning.Events.{EventData, events};
ghost use Rattle.fast_stream.specs.meaning.Streams.{Stream, between};
ghost use Rattle.fast_lines.specs.meaning.Lines.{lines, written};
ghost use Rattle.fast_lines.specs.meaning.Values.{IsHeld, HasBytes, HoldsBytes};
ghost use Rattle.fast_spelling.specs.meaning.Again.{IsGrantedTree};
ghost use Rattle.fast_spelling.specs.meaning.Suiting.{SuitsTemplate};
ghost use Rattle.fast_messages.specs.meaning.Distinct.{HasDistinctBodies};
ghost use Rattle.fast_messages.specs.meaning.Lined.{IsLined, HasNames, HasDistinctNames, IsShown};
ghost use Rattle.fast_messages.specs.declared.faults.TextFault.{TextFault};
ghost use Rattle.fast_messages.specs.meaning.Back.{IsRead, IsReadAs, IsReadAgain};
ghost use Rattle.fast_messages.specs.meaning.Reading.{closed, Says};
ghost use Rattle.fast_messages.specs.meaning.Unsaid.{SaysNothing};

/// A list of events belongs to at most one list of messages.
pub fn one_list()
    ensures { (t : Tree) (ms ns : List MessageData) → HasDistinctBodies t
        → All (SuitsTemplate t) ms → All (SuitsTemplate t) ns
        → flat_map (events t) ms ≡ flat_map (events t) ns → ms ≡ ns }
{}

/// If nodes are numbered in preorder, the instructions of a body have distinct numbers.
pub fn distinct_bodies()
    ensures { (t : Tree) (nodes : List Node) → template_labels t.templates ≡ labels_from 0 nodes → HasDistinctBodies t }
{}

/// A list of lines belongs to at most one list of events.
pub fn one_list_of_events()
    ensures { (t : Tree) (es fs : List EventData) → HasDistinctNames t → All (IsLined t) es → All (IsLined t) fs
        → lines t es ≡ lines t fs → es ≡ fs }
{}

/// A file of lines belongs to at most one list of messages.
pub fn one_reading()
    ensures { (t : Tree) (text : List ℕ) (ms ns : List MessageData) → HasDistinctBodies t
        → HasDistinctNames t → HasNames t → Says t text ms → Says t text ns → ms ≡ ns }
{}

/// The lines of messages are read as these messages, if no allocation fails.
pub fn lines_are_read_back()
    // `read_lines` ensures Read of its result, by `ok` and `err`.
    ensures { (t : Tree) (ms : List MessageData) (text : List ℕ) (r : Result (Vec Message Global) TextFault)
        → HasDistinctBodies t
        → HasDistinctNames t → HasNames t → All (SuitsTemplate t) ms → All IsShown (flat_map (events t) ms)
        → closed text ≡ lines t (flat_map (events t) ms) → IsRead t text r → IsReadAs ms r }
{}

/// The lines of events end with an LF.
pub fn lines_are_closed()
    ensures { (t : Tree) (es : List EventData) → closed (lines t es) ≡ lines t es }
{}

/// No two templates of a set that was read have the same name.
pub fn distinct_names()
    // `Templates::read` ensures IsTree of the set.
    ensures { (document : Members) (t : Tree) → IsTree document t → HasDistinctNames t }
{}

/// Lines can hold all names of a set that was read, those of its nodes and of its templates.
pub fn all_named()
    // `Templates::read` ensures IsTree of the set.
    ensures { (document : Members) (t : Tree) → IsTree document t → HasNames t }
{}

/// A file that `read_lines` refuses is not the lines of any messages whose values can be read back. If the set was read, that holds without
/// a premise on its names.
pub fn refused_says_nothing()
    // `read_lines` ensures SaysNothing by `err`, and `Templates::read` ensures IsTree of the set.
    ensures { (document : Members) (t : Tree) (text : List ℕ) → IsTree document t → SaysNothing t text
        → (ms : List MessageData) → All IsShown (flat_map (events t) ms) → ¬ (Says t text ms) }
{}

/// A value of a type can be read back from its line: the types of values hold it, and its string is UTF-8.
pub fn values_are_shown()
    // `events_are_of_fields` of fast_laws ensures IsOfKind of each value of a stream; HasBytes holds for all values of the Rust type.
    ensures { (l : Limits) (kind : Kind) (v : ScalarData) → IsOfKind l kind v → HasBytes v
        → IsHeld v × IsUtf8 (written v) }
{}

/// The events of messages that suit their templates can be read back, if the elements of byte vectors are below 256.
pub fn messages_are_shown()
    // `LineSink` ensures HoldsBytes of each event that it receives (`holds` of TakesLine), and any other sink can by a call of
    // `event_holds_bytes` of fast_lines; it also holds for the events of a `Message`.
    ensures { (t : Tree) (ms : List MessageData) → All (SuitsTemplate t) ms → All HoldsBytes (flat_map (events t) ms)
        → All IsShown (flat_map (events t) ms) }
{}

/// The lines of a stream of whole messages are read as the messages that its bytes encode, if no allocation fails, and these can be encoded
/// again, except for ASCII strings with U+0000.
pub fn shown_lines_are_read()
    // `Templates::read` ensures IsTree of the set, and `set_is_granted` of fast_laws gives IsGrantedTree. `run_show` ensures Stream,
    // HoldsBytes of the events and their lines at a good end (`shown`), and `read_lines` ensures IsRead: the law `shown_is_read` of
    // fast_convert has these contracts alone as its premises. `Decoder::feed_all`, `feed` and `push` ensure Stream too (`followed`), and
    // any sink can ensure HoldsBytes by a call of `event_holds_bytes` of fast_lines.
    ensures { (document : Members) (t : Templates) (l : Limits) (w : List ℕ) (es : List EventData) (text : List ℕ)
        (r : Result (Vec Message Global) TextFault)
        → IsTree document (tree_of t) → IsGrantedTree l (tree_of t) → Stream (tree_of t) l w es between
        → All HoldsBytes es
        → closed text ≡ lines (tree_of t) es → IsRead (tree_of t) text r → IsReadAgain (tree_of t) l w es r }
{}
