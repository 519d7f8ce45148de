//! The dictionary of a decoder, laid out once, when the decoder is made.

ghost use Rattle.std.specs.Prelude.{◌≡◌, ◌⊎◌, ◌↔◌, ℕ, ◌<◌, length, slice_index_or, false, Some, IsTrue, IfOk};
ghost use Rattle.fast_value.specs.meaning.Kinds.{family, texts, text_of};
ghost use Rattle.fast_value.specs.meaning.Values.{value_data};
ghost use Rattle.fast_template.specs.meaning.Flat.{tree_of, nodes_of, field_data};
ghost use Rattle.fast_tree.specs.meaning.NodeData.{shape_data};
ghost use Rattle.fast_tree.specs.meaning.Usable.{IsUsableShape};
ghost use Rattle.fast_dict.specs.meaning.Dictionary.{fresh};
ghost use Rattle.fast_dict.specs.meaning.Slots.{slots_dictionary, slots_terms};
ghost use Rattle.fast_dict.specs.meaning.Stores.{IsText};
ghost use Rattle.fast_dict.specs.meaning.EntryTexts.{AnyField, IsLongText, HasLongInitial, MayHoldText, HoldsTextAt, NeedsText};
ghost use Rattle.fast_machine.specs.device.Serving.{ServesNodes};

use fast_dict::Slots;
use fast_template::{FieldInstruction, Node, Shape, Templates};
use fast_value::{Kind, Value};
use std::alloc::{AllocError, Global};

/// Returns the length of a string or byte vector, 0 of a number.
fn text_len(value: &Value) -> usize
    ensures { result ≡ length (text_of (value_data value.now)) }
{
    match value {
        Value::U(_) | Value::I(_) | Value::Dec { .. } => 0,
        Value::Ascii(text) | Value::Unicode(text) | Value::Bytes(text) => text.len(),
    }
}

/// Returns whether the initial value of the field is a string or byte vector longer than `max_text`.
fn is_long(field: &FieldInstruction, max_text: usize) -> bool
    ensures { IsTrue result ↔ IsLongText max_text (field_data field.now).initial }
{
    matches!(&field.initial, Some(value) if text_len(value) > max_text)
}

/// Returns whether an initial value within the node is a string or byte vector longer than `max_text`.
fn has_long_field(node: &Node, max_text: usize) -> bool
    ensures { IsTrue result ↔ AnyField (λ f. IsLongText max_text f.initial) (shape_data node.now.shape) }
{
    match &node.shape {
        Shape::Field(field) => is_long(field, max_text),
        Shape::Decimal { exponent, mantissa } => is_long(exponent, max_text)
            || is_long(mantissa, max_text),
        Shape::Group { .. } => false,
        Shape::Sequence { length, .. } => is_long(length, max_text),
    }
}

/// Returns whether an initial value of the set is a string or byte vector longer than `max_text`.
pub fn has_long_initial(templates: &Templates, max_text: usize) -> bool
    ensures { IsTrue result ↔ HasLongInitial max_text (nodes_of templates.now) }
{
    for n in 0..templates.nodes() {
        if has_long_field(templates.node(n), max_text) {
            return true;
        }
    }
    false
}

/// Returns whether values of the type are strings or byte vectors.
fn is_text_kind(kind: Kind) -> bool
    ensures { IsTrue result ↔ (family kind ≡ texts) }
{
    match kind {
        Kind::UInt32 | Kind::Int32 | Kind::UInt64 | Kind::Int64 | Kind::Decimal => false,
        Kind::Ascii | Kind::Unicode | Kind::Bytes => true,
    }
}

/// Returns whether the value is a string or byte vector.
fn is_text(value: &Value) -> bool
    ensures { IsTrue result ↔ IsText (value_data value.now) }
{
    match value {
        Value::U(_) | Value::I(_) | Value::Dec { .. } => false,
        Value::Ascii(_) | Value::Unicode(_) | Value::Bytes(_) => true,
    }
}

/// Returns whether the field may store a string or byte vector at its entry.
fn may_hold_text(field: &FieldInstruction) -> bool
    ensures { IsTrue result ↔ MayHoldText (field_data field.now) }
{
    is_text_kind(field.kind) || matches!(&field.initial, Some(value) if is_text(value))
}

/// Marks the entry of the field, if the field may store a string or byte vector there.
fn mark_field(marks: &mut [bool], field: &FieldInstruction)
    requires { (e : ℕ) → field.now.entry ≡ Some e → e < length marks.old }
    ensures long { length marks.new ≡ length marks.old }
    ensures marked { (e : ℕ)
        → IsTrue (slice_index_or marks.new e false)
        ↔ (IsTrue (slice_index_or marks.old e false) ⊎ HoldsTextAt e (field_data field.now)) }
{
    if let Some(entry) = field.entry
        && may_hold_text(field)
    {
        marks[entry as usize] = true;
    }
}

/// Marks the entries of the fields within the node that may store a string or byte vector there.
fn mark_node(marks: &mut [bool], node: &Node)
    requires { IsUsableShape (length marks.old) (shape_data node.now.shape) }
    ensures long { length marks.new ≡ length marks.old }
    ensures marked { (e : ℕ)
        → IsTrue (slice_index_or marks.new e false)
        ↔ (IsTrue (slice_index_or marks.old e false) ⊎ AnyField (HoldsTextAt e) (shape_data node.now.shape)) }
{
    match &node.shape {
        Shape::Field(field) => mark_field(marks, field),
        Shape::Decimal { exponent, mantissa } => {
            mark_field(marks, exponent);
            mark_field(marks, mantissa);
        }
        Shape::Group { .. } => {}
        Shape::Sequence { length, .. } => mark_field(marks, length),
    }
}

/// Marks the entries of the dictionary that can hold a string or byte vector: those of fields of such a type, and those of fields with such
/// an initial value.
///
/// # Errors
///
/// An allocation failed.
pub fn text_marks(alloc: Global, templates: &Templates) -> Result<Vec<bool>, AllocError>
    ensures long { IfOk result (λ v. length v.items ≡ (tree_of templates.now).entries) }
    ensures marked { IfOk result
        (λ v. (e : ℕ) → IsTrue (slice_index_or v.items e false) ↔ NeedsText (nodes_of templates.now) e) }
{
    let mut marks = vec![in alloc; false; templates.entries() as usize]?;
    for n in 0..templates.nodes() {
        mark_node(&mut marks, templates.node(n));
    }
    Ok(marks)
}

/// Makes the dictionary of a decoder: with room for a string or byte vector of at most `max_text` bytes at each entry that can hold one.
///
/// # Errors
///
/// An allocation failed.
pub fn make_slots(
    alloc: Global,
    templates: &Templates,
    max_text: usize,
) -> Result<Slots, AllocError>
    requires { ¬ (HasLongInitial max_text (nodes_of templates.now)) }
    ensures fresh { IfOk result (λ s. slots_dictionary s ≡ fresh (tree_of templates.now).entries) }
    ensures max_text { IfOk result (λ s. (slots_terms s).max_text ≡ max_text) }
    ensures serves { IfOk result
        (λ s. ServesNodes (tree_of templates.now).entries (slots_terms s) (nodes_of templates.now)) }
{
    let marks = text_marks(alloc, templates)?;
    Slots::new(alloc, &marks, max_text)
}
