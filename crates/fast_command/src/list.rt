//! The lines of `check --list`: one for each template and one for each node.

ghost use Rattle.std.specs.Prelude.{◌≡◌, ◌<◌, ℕ, List, Some, IsTrue, OnOk, OnErr, length, slice_get, slice_index_or};
ghost use Rattle.fast_command.specs.device.Paths.{path_text};
ghost use Rattle.fast_command.specs.meaning.Listing.{presence, entry_words, initial_words, id_words, flag_word, operator_words, instruction_words, node_line, template_line, lines_of_template, instruction_lines, body_lines, list_lines};
ghost use Rattle.fast_notation.specs.meaning.Notation.{kind_name, operator_name};
ghost use Rattle.fast_template.specs.meaning.Flat.{nodes_of, templates_of, tree_of, field_data, label_of, instruction_of, instructions_from, no_instruction, template_data};
ghost use Rattle.fast_text.specs.meaning.LineWriter.{Writes};
ghost use Rattle.fast_text.specs.meaning.Streams.{Appends, AppendsFront};
ghost use Rattle.fast_tree.specs.declared.instructions.Template.{Template};
ghost use Rattle.fast_tree.specs.meaning.Nodes.{body_among};
ghost use Rattle.fast_tree.specs.meaning.Numbers.{AreBelow};
ghost use Rattle.fast_tree.specs.meaning.Tree.{Label, Instruction};

use fast_template::Templates;
use fast_text::{Failed, LineWriter, Room, Target};
use fast_tree::{FieldInstruction, Node, Operator, Shape};
use fast_value::Kind;

/// The names of the groups and sequences around a node, from the outermost on.
#[derive(Clone, Copy)]
enum Path<'a> {
    /// The node is in no group or sequence.
    Top,
    /// The path of a group or a sequence, and its name.
    Within(&'a Path<'a>, &'a str),
}

/// Returns the name of a type in the notation.
fn kind_text(kind: Kind) -> &'static str
    ensures { result.now ≡ kind_name kind }
{
    match kind {
        Kind::UInt32 => "uInt32",
        Kind::Int32 => "int32",
        Kind::UInt64 => "uInt64",
        Kind::Int64 => "int64",
        Kind::Decimal => "decimal",
        Kind::Ascii => "ascii",
        Kind::Unicode => "unicode",
        Kind::Bytes => "bytes",
    }
}

/// Returns the name of an operator in the notation.
fn operator_text(operator: Operator) -> &'static str
    ensures { result.now ≡ operator_name operator }
{
    match operator {
        Operator::None => "none",
        Operator::Constant => "constant",
        Operator::Default => "default",
        Operator::Copy => "copy",
        Operator::Increment => "increment",
        Operator::Delta => "delta",
        Operator::Tail => "tail",
    }
}

/// Returns the word for the presence of an instruction, and the spaces around it.
fn presence_text(optional: bool) -> &'static str
    ensures { result.now ≡ presence optional }
{
    if optional { " optional" } else { " mandatory" }
}

/// Returns the word for a flag.
fn flag_text(flag: bool) -> &'static str
    ensures { result.now ≡ flag_word flag }
{
    if flag { "true" } else { "false" }
}

/// Writes the number of a dictionary entry, if there is one.
fn put_entry<T: Target>(line: &mut LineWriter<'_, T>, entry: Option<u32>)
    ensures { Writes T.written T.has_failed line.old (entry_words entry) line.new }
{
    match entry {
        Some(number) => {
            line.put(b" entry ");
            line.put_unsigned(u64::from(number));
        }
        None => {}
    }
}

/// Writes an initial value, if there is one.
fn put_initial<T: Target>(line: &mut LineWriter<'_, T>, field: &FieldInstruction)
    ensures { Writes T.written T.has_failed line.old (initial_words (field_data field.now).initial) line.new }
{
    match &field.initial {
        Some(value) => {
            line.put(b" initial ");
            line.put_value(value.as_scalar());
        }
        None => {}
    }
}

/// Writes the operator of a field, with its dictionary entry and its initial value.
fn put_operator<T: Target>(line: &mut LineWriter<'_, T>, field: &FieldInstruction)
    ensures { Writes T.written T.has_failed line.old (operator_words (field_data field.now)) line.new }
{
    line.put(operator_text(field.operator).as_bytes());
    put_entry(line, field.entry);
    put_initial(line, field);
}

/// Writes the names of a path, with a point after each.
fn put_path<T: Target>(line: &mut LineWriter<'_, T>, path: &Path<'_>)
    ensures { Writes T.written T.has_failed line.old (path_text path.now) line.new }
{
    match path {
        Path::Top => {}
        Path::Within(outer, name) => {
            put_path(line, outer);
            line.put(name.as_bytes());
            line.put(b".");
        }
    }
}

/// Writes the words of an instruction: its type, its presence and its operators.
fn put_words<T: Target>(line: &mut LineWriter<'_, T>, shape: &Shape)
    ensures { (at : Label) (first : ℕ) (is : List Instruction)
        → Writes T.written T.has_failed line.old (instruction_words (instruction_of at first is shape.now)) line.new }
{
    match shape {
        Shape::Field(field) => {
            line.put(kind_text(field.kind).as_bytes());
            line.put(presence_text(field.optional).as_bytes());
            line.put(b" ");
            put_operator(line, field);
        }
        Shape::Decimal { exponent, mantissa } => {
            line.put(b"decimal");
            line.put(presence_text(exponent.optional).as_bytes());
            line.put(b" exponent ");
            put_operator(line, exponent);
            line.put(b" mantissa ");
            put_operator(line, mantissa);
        }
        Shape::Group { optional, .. } => {
            line.put(b"group");
            line.put(presence_text(*optional).as_bytes());
        }
        Shape::Sequence { length, .. } => {
            line.put(b"sequence");
            line.put(presence_text(length.optional).as_bytes());
            line.put(b" length ");
            put_operator(line, length);
        }
    }
}

/// Writes the line of a node.
fn put_node_line<T: Target>(line: &mut LineWriter<'_, T>, path: &Path<'_>, number: u32, node: &Node)
    ensures { (first : ℕ) (is : List Instruction)
        → Writes T.written T.has_failed line.old (node_line (path_text path.now) (label_of number node.now)
        (instruction_words (instruction_of (label_of number node.now) first is node.now.shape))) line.new }
{
    line.put(b"node ");
    line.put_unsigned(u64::from(number));
    line.put(b" ");
    put_path(line, path);
    line.put(node.name.as_bytes());
    line.put(b" ");
    put_words(line, &node.shape);
    line.put(b"\n");
}

/// Writes the lines of a body's nodes, and of the nodes in them.
#[cycle(lines)]
fn put_body<T: Target>(
    line: &mut LineWriter<'_, T>,
    templates: &Templates,
    path: &Path<'_>,
    body: &[u32],
)
    requires { AreBelow (length (nodes_of templates.now)) body.now }
    ensures { Writes T.written T.has_failed line.old
        (body_lines (path_text path.now) (body_among (nodes_of templates.now) body.now)) line.new }
{
    for number in body {
        put_node(line, templates, &*path, *number);
    }
}

/// Writes the line of a node, and those of the nodes in it.
#[cycle(lines)]
fn put_node<T: Target>(
    line: &mut LineWriter<'_, T>,
    templates: &Templates,
    path: &Path<'_>,
    number: u32,
)
    requires { number < length (nodes_of templates.now) }
    ensures { Writes T.written T.has_failed line.old
        (instruction_lines (path_text path.now)
        (slice_index_or (instructions_from 0 (nodes_of templates.now)) number no_instruction)) line.new }
{
    let node = templates.node(number);
    put_node_line(line, path, number, node);
    let inner = Path::Within(&*path, node.name.as_str());
    match &node.shape {
        Shape::Field(_) => {}
        Shape::Decimal { .. } => {}
        Shape::Group { body, .. } => put_body(line, templates, &inner, body),
        Shape::Sequence { body, .. } => put_body(line, templates, &inner, body),
    }
}

/// Writes the identifier of a template.
fn put_id<T: Target>(line: &mut LineWriter<'_, T>, id: Option<u32>)
    ensures { Writes T.written T.has_failed line.old (id_words id) line.new }
{
    match id {
        Some(id) => line.put_unsigned(u64::from(id)),
        None => line.put(b"-"),
    }
}

/// Writes the line of a template.
fn put_template_line<T: Target>(line: &mut LineWriter<'_, T>, templates: &Templates, number: u32)
    requires { number < length (templates_of templates.now) }
    ensures { (t : Template) → slice_get (templates_of templates.now) number ≡ Some t
        → Writes T.written T.has_failed line.old
        (template_line number (template_data (instructions_from 0 (nodes_of templates.now)) t)) line.new }
{
    let template = templates.template(number);
    line.put(b"template ");
    line.put_unsigned(u64::from(number));
    line.put(b" ");
    line.put(template.name.as_bytes());
    line.put(b" id ");
    put_id(line, template.id);
    line.put(b" reset ");
    line.put(flag_text(template.reset).as_bytes());
    line.put(b" bits ");
    line.put_unsigned(templates.message_bits(number) as u64);
    line.put(b"\n");
}

/// Writes the lines of a template and of its nodes.
fn put_template<T: Target>(line: &mut LineWriter<'_, T>, templates: &Templates, number: u32)
    requires { number < length (templates_of templates.now) }
    ensures { (t : Template) → slice_get (templates_of templates.now) number ≡ Some t
        → Writes T.written T.has_failed line.old
        (lines_of_template number (template_data (instructions_from 0 (nodes_of templates.now)) t)) line.new }
{
    put_template_line(line, templates, number);
    let template = templates.template(number);
    put_body(line, templates, &Path::Top, &template.body);
}

/// Writes the lines of all templates and nodes of a set.
fn put_templates<T: Target>(line: &mut LineWriter<'_, T>, templates: &Templates)
    ensures { Writes T.written T.has_failed line.old (list_lines (tree_of templates.now)) line.new }
{
    for number in 0..templates.count() {
        put_template(line, templates, number);
    }
}

/// Writes the list of a set's templates and nodes.
pub(crate) fn write_list<T: Target>(templates: &Templates, target: &mut T) -> Result<(), Failed>
    ensures written { OnOk result
        (Appends (T.written target.old) (T.written target.new) (list_lines (tree_of templates.now))) }
    ensures part { OnErr result
        (AppendsFront (T.written target.old) (T.written target.new) (list_lines (tree_of templates.now))) }
    ensures fails { OnErr result (IsTrue (T.has_failed target.new)) }
    ensures stays { OnOk result (T.has_failed target.new ≡ T.has_failed target.old) }
{
    let mut room = Room::new();
    let mut line = LineWriter::new(target, &mut room);
    put_templates(&mut line, templates);
    line.finish()
}
