//! The texts of the rows that are no lines of `show`.

ghost use Rattle.std.specs.Prelude.{◌≡◌, ◌++◌, flat_map, codes};
ghost use Rattle.fast_template.specs.meaning.Flat.{tree_of};
ghost use Rattle.fast_lines.specs.meaning.Lines.{node_name, node as node_words};
ghost use Rattle.fast_rows.specs.meaning.Notes.{word as word_before, named, bits, part_text, note_text};
ghost use Rattle.fast_text.specs.meaning.LineWriter.{Writes};

use crate::bits::put_bits;
use fast_template::Templates;
use fast_text::{LineWriter, Target};
use fast_tree::Shape;

/// The word before the number of a node.
#[derive(Clone, Copy, Debug, PartialEq, Eq)]
pub enum Word {
    /// A field.
    Field,
    /// A group.
    Group,
    /// A sequence.
    Sequence,
}

/// A part of a stream that is waited for.
#[derive(Clone, Copy, Debug, PartialEq, Eq)]
pub enum Part {
    /// A presence map.
    Map,
    /// The template identifier of a message.
    TemplateId,
    /// An instruction, by the number of its node.
    Instruction(Word, u32),
    /// The end of the message.
    End,
}

/// A text that is no line of `show`.
#[derive(Clone, Copy, Debug, PartialEq, Eq)]
pub enum Note {
    /// The bytes are of a presence map, which has these bits.
    Bits,
    /// The instruction of this node is absent.
    Absent(Word, u32),
    /// The stream ends or is at fault while this part is waited for.
    Waiting(Part),
}

/// Returns the word for a node, or that for a field if the set has no such node.
pub fn word_of(templates: &Templates, node: u32) -> Word {
    if node >= templates.nodes() {
        return Word::Field;
    }
    match templates.node(node).shape {
        Shape::Group { .. } => Word::Group,
        Shape::Sequence { .. } => Word::Sequence,
        Shape::Field(_) | Shape::Decimal { .. } => Word::Field,
    }
}

/// Returns the text of a word, and a space.
fn word_text(word: Word) -> &'static str
    ensures { result.now ≡ word_before word }
{
    match word {
        Word::Field => "field ",
        Word::Group => "group ",
        Word::Sequence => "sequence ",
    }
}

/// Returns the name of a node, or an empty string if the set has no such node.
fn name_of(templates: &Templates, node: u32) -> &str
    ensures { result.now ≡ node_name (tree_of templates.now) node }
{
    if node < templates.nodes() {
        templates.node(node).name.as_str()
    } else {
        ""
    }
}

/// Writes the number of a node, and its name.
fn put_node<T: Target>(line: &mut LineWriter<'_, T>, templates: &Templates, node: u32)
    ensures { Writes T.written T.has_failed line.old (node_words (tree_of templates.now) node) line.new }
{
    line.put_unsigned(u64::from(node));
    line.put(b" ");
    line.put(name_of(templates, node).as_bytes());
}

/// Writes the word for a node, its number, and its name.
fn put_named<T: Target>(line: &mut LineWriter<'_, T>, templates: &Templates, word: Word, node: u32)
    ensures { Writes T.written T.has_failed line.old (named (tree_of templates.now) word node) line.new }
{
    line.put(word_text(word).as_bytes());
    put_node(line, templates, node);
}

/// Writes that an instruction is absent.
fn put_absent<T: Target>(line: &mut LineWriter<'_, T>, templates: &Templates, word: Word, node: u32)
    ensures { Writes T.written T.has_failed line.old
        (named (tree_of templates.now) word node ++ codes " absent") line.new }
{
    put_named(line, templates, word, node);
    line.put(b" absent");
}

/// Writes the name of a part.
fn put_part<T: Target>(line: &mut LineWriter<'_, T>, templates: &Templates, part: Part)
    ensures { Writes T.written T.has_failed line.old (part_text (tree_of templates.now) part) line.new }
{
    match part {
        Part::Map => line.put(b"a presence map"),
        Part::TemplateId => line.put(b"the template identifier"),
        Part::Instruction(word, node) => put_named(line, templates, word, node),
        Part::End => line.put(b"the end of the message"),
    }
}

/// Writes what is waited for.
fn put_waiting<T: Target>(line: &mut LineWriter<'_, T>, templates: &Templates, part: Part)
    ensures { Writes T.written T.has_failed line.old
        (codes "waiting for " ++ part_text (tree_of templates.now) part) line.new }
{
    line.put(b"waiting for ");
    put_part(line, templates, part);
}

/// Writes the bits of bytes of a presence map.
fn put_map<T: Target>(line: &mut LineWriter<'_, T>, bytes: &[u8])
    ensures { Writes T.written T.has_failed line.old (codes "map bits" ++ flat_map bits bytes.now) line.new }
{
    line.put(b"map bits");
    put_bits(line, bytes);
}

/// Writes the text of a note on a row with these bytes.
pub fn put_note<T: Target>(
    line: &mut LineWriter<'_, T>,
    templates: &Templates,
    bytes: &[u8],
    note: Note,
)
    ensures { Writes T.written T.has_failed line.old (note_text (tree_of templates.now) bytes.now note) line.new }
{
    match note {
        Note::Bits => put_map(line, bytes),
        Note::Absent(word, node) => put_absent(line, templates, word, node),
        Note::Waiting(part) => put_waiting(line, templates, part),
    }
}
