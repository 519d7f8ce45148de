//! Queries of a template set. No query allocates.

ghost use Rattle.std.specs.Prelude.{◌≡◌, ◌<◌, ◌≤◌, [], length, slice_get, Some, string_bytes};
ghost use Rattle.fast_tree.specs.declared.instructions.Node.{Node as NodeData};
ghost use Rattle.fast_tree.specs.declared.instructions.Template.{Template as TemplateData};
ghost use Rattle.fast_tree.specs.meaning.Numbers.{AreBelow, numbers_of};
ghost use Rattle.fast_tree.specs.meaning.Sizes.{message_cap, set_depth};
ghost use Rattle.fast_template.specs.meaning.Flat.{nodes_of, templates_of, tree_of};
ghost use Rattle.fast_c.specs.meaning.Opening.{limits_of};
ghost use Rattle.fast_c.specs.meaning.Queries.{kind_number, operator_number, number_or_none, template_info, field_info, node_info, first_named, first_that, has_node, names_node, IsFirstWith};
ghost use Rattle.fast_c.specs.meaning.Written.{IsWritten};

use crate::limits_of;
use crate::sets::SetHandle;
use fast_template::{FieldInstruction, Node, Operator, Shape, Template, Templates};
use fast_value::Kind;

/// The number that no template, node or entry has.
const NONE: u32 = u32::MAX;

/// A template, without its name and its body.
#[repr(C)]
#[derive(Clone, Copy)]
pub struct FastTemplateInfo {
    /// 1 if messages of the template can be sent: they have the identifier `id`.
    has_id: u32,
    /// The template identifier, or 0.
    id: u32,
    /// 1 if a message of the template resets the dictionary.
    reset: u32,
}

/// The instruction of a node, without its name and its body.
#[repr(C)]
#[derive(Clone, Copy)]
pub struct FastNodeInfo {
    /// The number of its type.
    kind: u32,
    /// 1 if it is optional.
    optional: u32,
    /// The number of its operator; of a sequence that of the length, of a decimal in two parts that of the exponent.
    op: u32,
    /// The dictionary entry that the operator reads and writes, or `NONE`.
    entry: u32,
    /// The number of the operator of the mantissa, of a decimal in two parts; else 0.
    mantissa_op: u32,
    /// The dictionary entry of the mantissa, of a decimal in two parts; else `NONE`.
    mantissa_entry: u32,
}

/// The number of a decimal in two parts.
const DECIMAL_PARTS: u32 = 9;
/// The number of a group.
const GROUP: u32 = 10;
/// The number of a sequence.
const SEQUENCE: u32 = 11;

/// Returns a number, or `NONE`.
fn number_or_none(number: Option<u32>) -> u32
    ensures { result ≡ number_or_none number }
{
    match number {
        Some(number) => number,
        None => NONE,
    }
}

/// Returns the number of a type.
fn kind_number(kind: Kind) -> u32
    ensures { result ≡ kind_number kind }
{
    match kind {
        Kind::UInt32 => 1,
        Kind::Int32 => 2,
        Kind::UInt64 => 3,
        Kind::Int64 => 4,
        Kind::Decimal => 5,
        Kind::Ascii => 6,
        Kind::Unicode => 7,
        Kind::Bytes => 8,
    }
}

/// Returns the number of an operator.
fn operator_number(operator: Operator) -> u32
    ensures { result ≡ operator_number operator }
{
    match operator {
        Operator::None => 0,
        Operator::Constant => 1,
        Operator::Default => 2,
        Operator::Copy => 3,
        Operator::Increment => 4,
        Operator::Delta => 5,
        Operator::Tail => 6,
    }
}

/// Returns the template without its name and its body.
fn template_info(template: &Template) -> FastTemplateInfo
    ensures { result ≡ template_info template.now }
{
    FastTemplateInfo {
        has_id: u32::from(template.id.is_some()),
        id: template.id.unwrap_or(0),
        reset: u32::from(template.reset),
    }
}

/// Returns what a field instruction says of a node of this type.
fn field_info(kind: u32, field: &FieldInstruction) -> FastNodeInfo
    ensures { result ≡ field_info kind field.now }
{
    FastNodeInfo {
        kind,
        optional: u32::from(field.optional),
        op: operator_number(field.operator),
        entry: number_or_none(field.entry),
        mantissa_op: 0,
        mantissa_entry: NONE,
    }
}

/// Returns the instruction of a node without its name and its body.
fn node_info(node: &Node) -> FastNodeInfo
    ensures { result ≡ node_info node.now }
{
    match &node.shape {
        Shape::Field(field) => field_info(kind_number(field.kind), field),
        Shape::Decimal { exponent, mantissa } => FastNodeInfo {
            mantissa_op: operator_number(mantissa.operator),
            mantissa_entry: number_or_none(mantissa.entry),
            ..field_info(DECIMAL_PARTS, exponent)
        },
        Shape::Group { optional, .. } => FastNodeInfo {
            kind: GROUP,
            optional: u32::from(*optional),
            op: 0,
            entry: NONE,
            mantissa_op: 0,
            mantissa_entry: NONE,
        },
        Shape::Sequence { length, .. } => field_info(SEQUENCE, length),
    }
}

/// Returns the nodes of the instructions of a node's body.
fn body_of(node: &Node) -> &[u32]
    ensures { result.now ≡ numbers_of node.now.shape }
{
    match &node.shape {
        Shape::Field(_) | Shape::Decimal { .. } => &[],
        Shape::Group { body, .. } | Shape::Sequence { body, .. } => body,
    }
}

/// Writes the first of these numbers, as many as there is room for, and returns how many there are.
fn write_numbers(numbers: &[u32], out: &mut [u32]) -> usize
    ensures { IsWritten numbers.now out.old out.new result }
{
    let front = numbers.len().min(out.len());
    out[..front].copy_from_slice(&numbers[..front]);
    numbers.len()
}

/// Returns the first node of a body that has a name, or `NONE`.
fn first_named(set: &Templates, body: &[u32], name: &[u8]) -> u32
    requires { AreBelow (length (nodes_of set.now)) body.now }
    ensures { result ≡ first_named (nodes_of set.now) body.now name.now }
{
    for number in body {
        if set.node(*number).name.as_bytes() == name {
            return *number;
        }
    }
    NONE
}

/// Returns the template with an identifier, or `NONE`.
fn with_id(set: &Templates, id: u32) -> u32
    ensures { IsFirstWith (λ t. t.id ≡ Some id) (templates_of set.now) result }
{
    number_or_none(set.by_id(id))
}

/// Returns the template with a name, or `NONE`.
fn with_name(set: &Templates, name: &[u8]) -> u32
    ensures { IsFirstWith (λ t. string_bytes t.name ≡ name.now) (templates_of set.now) result }
{
    let Ok(name) = std::str::from_utf8(name) else {
        return NONE;
    };
    number_or_none(set.by_name(name))
}

/// Returns the first group or sequence whose body has a node, or `NONE`.
fn parent_of(set: &Templates, node: u32) -> u32
    ensures { result ≡ first_that (names_node node) 0 (nodes_of set.now) }
{
    for parent in 0..set.nodes() {
        if body_of(set.node(parent)).contains(&node) {
            return parent;
        }
    }
    NONE
}

/// Returns the first template whose body has a node, or `NONE`.
fn template_of(set: &Templates, node: u32) -> u32
    ensures { result ≡ first_that (has_node node) 0 (templates_of set.now) }
{
    for template in 0..set.count() {
        if set.template(template).body.contains(&node) {
            return template;
        }
    }
    NONE
}

/// Returns the number of dictionary entries of a set.
#[unsafe(no_mangle)]
pub extern "C" fn fast_set_entries(set: SetHandle) -> u32
    ensures { result ≡ (tree_of set.value).entries }
{
    set.lent().entries()
}

/// Returns how deep groups and sequences of a set nest.
#[unsafe(no_mangle)]
pub extern "C" fn fast_set_depth(set: SetHandle) -> u32
    ensures { result ≡ set_depth (tree_of set.value) }
{
    set.lent().depth()
}

/// Returns the greatest number of events that a message of a set can have under limits.
#[unsafe(no_mangle)]
pub extern "C" fn fast_set_cap(set: SetHandle, max_elements: u32, max_total: u32) -> u64
    ensures { result ≡ message_cap (tree_of set.value) (limits_of 0 1024 max_elements max_total) }
{
    let limits = limits_of(0, 1024, max_elements, max_total);
    set.lent().message_cap(limits)
}

/// Returns the template with an identifier, or `NONE`.
#[unsafe(no_mangle)]
pub extern "C" fn fast_template_by_id(set: SetHandle, id: u32) -> u32
    ensures { IsFirstWith (λ t. t.id ≡ Some id) (templates_of set.value) result }
{
    with_id(set.lent(), id)
}

/// Returns the template with a name, or `NONE`.
#[unsafe(no_mangle)]
pub extern "C" fn fast_template_by_name(set: SetHandle, name: &[u8]) -> u32
    ensures { IsFirstWith (λ t. string_bytes t.name ≡ name.now) (templates_of set.value) result }
{
    with_name(set.lent(), name)
}

/// Describes a template: 1, or 0 where the set has none of the number, and then nothing is written.
#[unsafe(no_mangle)]
pub extern "C" fn fast_template_describe(
    set: SetHandle,
    template: u32,
    out: &mut FastTemplateInfo,
) -> u32
    ensures some { (t : TemplateData) → slice_get (templates_of set.value) template ≡ Some t
        → (result ≡ 1) × (out.new ≡ template_info t) }
    ensures none { length (templates_of set.value) ≤ template → (result ≡ 0) × (out.new ≡ out.old) }
{
    let set = set.lent();
    if template >= set.count() {
        return 0;
    }
    *out = template_info(set.template(template));
    1
}

/// Describes the instruction of a node: 1, or 0 where the set has none of the number, and then nothing is written.
#[unsafe(no_mangle)]
pub extern "C" fn fast_node_describe(set: SetHandle, node: u32, out: &mut FastNodeInfo) -> u32
    ensures some { (n : NodeData) → slice_get (nodes_of set.value) node ≡ Some n
        → (result ≡ 1) × (out.new ≡ node_info n) }
    ensures none { length (nodes_of set.value) ≤ node → (result ≡ 0) × (out.new ≡ out.old) }
{
    let set = set.lent();
    if node >= set.nodes() {
        return 0;
    }
    *out = node_info(set.node(node));
    1
}

/// Writes the nodes of a template's body, as many as there is room for, and returns how many it has; 0 where there is no such template.
#[unsafe(no_mangle)]
pub extern "C" fn fast_template_body(set: SetHandle, template: u32, out: &mut [u32]) -> usize
    ensures some { (t : TemplateData) → slice_get (templates_of set.value) template ≡ Some t
        → IsWritten t.body.items out.old out.new result }
    ensures none { length (templates_of set.value) ≤ template → IsWritten [] out.old out.new result }
{
    let set = set.lent();
    if template >= set.count() {
        return 0;
    }
    write_numbers(&set.template(template).body, out)
}

/// Writes the nodes of a group's or an element's body, as many as there is room for, and returns how many it has; 0 where there is no such node.
#[unsafe(no_mangle)]
pub extern "C" fn fast_node_body(set: SetHandle, node: u32, out: &mut [u32]) -> usize
    ensures some { (n : NodeData) → slice_get (nodes_of set.value) node ≡ Some n
        → IsWritten (numbers_of n.shape) out.old out.new result }
    ensures none { length (nodes_of set.value) ≤ node → IsWritten [] out.old out.new result }
{
    let set = set.lent();
    if node >= set.nodes() {
        return 0;
    }
    write_numbers(body_of(set.node(node)), out)
}

/// Returns the first node of a template's body that has a name, or `NONE`.
#[unsafe(no_mangle)]
pub extern "C" fn fast_template_child(set: SetHandle, template: u32, name: &[u8]) -> u32
    ensures some { (t : TemplateData) → slice_get (templates_of set.value) template ≡ Some t
        → result ≡ first_named (nodes_of set.value) t.body.items name.now }
    ensures none { length (templates_of set.value) ≤ template → result ≡ first_named (nodes_of set.value) [] name.now }
{
    let set = set.lent();
    if template >= set.count() {
        return NONE;
    }
    first_named(set, &set.template(template).body, name)
}

/// Returns the first node of a group's or an element's body that has a name, or `NONE`.
#[unsafe(no_mangle)]
pub extern "C" fn fast_node_child(set: SetHandle, node: u32, name: &[u8]) -> u32
    ensures some { (n : NodeData) → slice_get (nodes_of set.value) node ≡ Some n
        → result ≡ first_named (nodes_of set.value) (numbers_of n.shape) name.now }
    ensures none { length (nodes_of set.value) ≤ node → result ≡ first_named (nodes_of set.value) [] name.now }
{
    let set = set.lent();
    if node >= set.nodes() {
        return NONE;
    }
    first_named(set, body_of(set.node(node)), name)
}

/// Returns the group or sequence whose body has a node, or `NONE` where it is in none.
#[unsafe(no_mangle)]
pub extern "C" fn fast_node_parent(set: SetHandle, node: u32) -> u32
    ensures { result ≡ first_that (names_node node) 0 (nodes_of set.value) }
{
    parent_of(set.lent(), node)
}

/// Returns the template whose body has a node, or `NONE` where it is in a group, in a sequence or nowhere.
#[unsafe(no_mangle)]
pub extern "C" fn fast_node_template(set: SetHandle, node: u32) -> u32
    ensures { result ≡ first_that (has_node node) 0 (templates_of set.value) }
{
    template_of(set.lent(), node)
}
