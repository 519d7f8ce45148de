//! Laws of lines. They are about the definitions alone, for all sets, events and strings.

ghost use Rattle.std.specs.Prelude.{◌≡◌, ℕ, List, Option};
ghost use Rattle.fast_value.specs.meaning.Kinds.{ScalarData};
ghost use Rattle.fast_tree.specs.meaning.AsWritten.{IsName};
ghost use Rattle.fast_tree.specs.meaning.Tree.{Tree};
ghost use Rattle.fast_stream.specs.meaning.Events.{EventData};
ghost use Rattle.fast_lines.specs.meaning.Forms.{LineData, IsWord, IsForm, text_of_line, line_of_event};
ghost use Rattle.fast_lines.specs.meaning.Hex.{Unhexed};
ghost use Rattle.fast_lines.specs.meaning.Lines.{line_of, quoted, written};
ghost use Rattle.fast_lines.specs.meaning.Values.{IsHeld};

/// The line of an event has the form of a line, apart from its names.
pub fn line_of_event_is_its_line()
    ensures { (t : Tree) (e : EventData) → line_of t e ≡ text_of_line (line_of_event t e) }
{}

/// A string is the written form of at most one line.
pub fn one_line()
    ensures { (d e : LineData) → IsForm d → IsForm e → text_of_line d ≡ text_of_line e → d ≡ e }
{}

/// A string in quotes stands for one string.
pub fn one_quoted()
    ensures { (v w : List ℕ) → quoted v ≡ quoted w → v ≡ w }
{}

/// A string is the written form of at most one value.
pub fn one_value()
    ensures { (v w : ScalarData) → IsHeld v → IsHeld w → written v ≡ written w → v ≡ w }
{}

/// Hexadecimal digits with blanks between them stand for one list of bytes, and have at most one first offset that is invalid.
pub fn one_unhexed()
    ensures { (t v w : List ℕ) (p q : Option ℕ) → Unhexed t v p → Unhexed t w q → (v ≡ w) × (p ≡ q) }
{}

/// The names in template sets are words.
pub fn names_are_words()
    ensures { (name : List ℕ) → IsName name → IsWord name }
{}
