//! The reader of one message from the lines of its events.

ghost use Rattle.std.specs.Prelude.{◌≡◌, ◌<◌, ◌↔◌, ◌+◌, ℕ, List, [], ◌∷◌, ◌++◌, length, Some, IsTrue, IfOk, IfErr, OnOk, option_map};
ghost use Rattle.fast_value.specs.meaning.Kinds.{U, I, Dec};
ghost use Rattle.fast_value.specs.meaning.Values.{value_data};
ghost use Rattle.fast_value.specs.meaning.Views.{item_data, slots_data, elements_data, message_data};
ghost use Rattle.fast_tree.specs.meaning.Numbers.{AreBelow};
ghost use Rattle.fast_tree.specs.meaning.Nodes.{body_among};
ghost use Rattle.fast_template.specs.meaning.Flat.{nodes_of, tree_of};
ghost use Rattle.fast_lines.specs.meaning.Forms.{line_data, sequence as sequence_line};
ghost use Rattle.fast_spelling.specs.device.Nodes.{instruction_in};
ghost use Rattle.fast_messages.specs.meaning.Reading.{OnBadLine};
ghost use Rattle.fast_messages.specs.device.Cursors.{IsNear};
ghost use Rattle.fast_messages.specs.declared.faults.LineFault.TheVariants as LineFault;
ghost use Rattle.fast_messages.specs.declared.faults.TextFault.TheVariants.{BadLine};
ghost use Rattle.fast_messages.specs.meaning.Lined.{IsTold};
ghost use Rattle.fast_messages.specs.device.Naming.{IsValue, Names};
ghost use Rattle.fast_messages.specs.device.Runs.{IsBodyRead, IsItemRead, AreRowsRead, IsMessageRead};
ghost use Rattle.fast_messages.specs.meaning.Unsaid.{HasNoBody, HasNoItem, HasNoRows, HasNoMessage};

use crate::cursors::Cursor;
use crate::endings::{Ending, is_element, is_ending, is_sequence_end};
use crate::faults::{LineFault, TextFault};
use crate::kinds::{may_be_passed, misplaced, passed_over};
use crate::naming::{names, number_of};
use fast_lines::forms::Line;
use fast_spelling::suiting::suits_item;
use fast_template::{Shape, Templates};
use fast_value::{Item, Message, Value};
use std::alloc::Global;

/// Reads the message that begins with the next line. Returns it with the cursor after it.
pub fn read_message<'a>(
    alloc: Global,
    templates: &Templates,
    at: Cursor<'a>,
) -> Result<(Message, Cursor<'a>), TextFault>
    ensures ok { IfOk result (λ r. IsMessageRead (tree_of templates.now) (message_data r.0) at.entry r.1) }
    ensures line { IfErr result (IsNear at.entry) }
    ensures refused { IfErr result (OnBadLine (HasNoMessage (tree_of templates.now) at.entry)) }
{
    let Some(Line::Message { name }) = at.line else {
        return Err(at.fault(misplaced(templates, at.line)));
    };
    let Some(template) = number_of(templates, name) else {
        return Err(at.fault(misplaced(templates, at.line)));
    };
    let body = &templates.template(template).body;
    let next = at.advance(alloc)?;
    let (items, next) = read_body(alloc, templates, body, Ending::Message, next)?;
    Ok((Message { template, items }, next))
}

/// Reads the slots of a body up to the line that ends it. Returns them with the cursor after that line.
#[cycle(reading)]
fn read_body<'a>(
    alloc: Global,
    templates: &Templates,
    body: &[u32],
    ending: Ending,
    at: Cursor<'a>,
) -> Result<(Vec<Option<Item>>, Cursor<'a>), TextFault>
    requires { AreBelow (length (nodes_of templates.now)) body.now }
    ensures ok { IfOk result
        (λ r. IsBodyRead (tree_of templates.now) (body_among (nodes_of templates.now) body.now) ending
        (slots_data r.0.items) at.entry r.1) }
    ensures line { IfErr result (IsNear at.entry) }
    ensures refused { IfErr result
        (OnBadLine (HasNoBody (tree_of templates.now) (body_among (nodes_of templates.now) body.now) ending at.entry)) }
{
    let mut place = at;
    let mut slots = Vec::new(alloc);
    for (i, node) in body.iter().enumerate() {
        if names(templates, *node, place.line) {
            let (item, next) = read_item(alloc, templates, *node, place)?;
            push(&mut slots, Some(item))?;
            place = next;
        } else if may_be_passed(templates, body, i) {
            push(&mut slots, None)?;
        } else {
            return Err(TextFault::BadLine {
                line: place.number,
                kind: passed_over(templates, &body[i..], ending, place),
            });
        }
    }
    if !is_ending(ending, place.line) {
        return Err(place.fault(misplaced(templates, place.line)));
    }
    let next = place.advance(alloc)?;
    Ok((slots, next))
}

/// Reads the item of a node, whose line is next. Returns it with the cursor after it.
#[cycle(reading)]
fn read_item<'a>(
    alloc: Global,
    templates: &Templates,
    node: u32,
    at: Cursor<'a>,
) -> Result<(Item, Cursor<'a>), TextFault>
    requires node { node < length (nodes_of templates.now) }
    requires named { Names (tree_of templates.now) node (instruction_in (nodes_of templates.now) node)
        (option_map line_data at.line) }
    ensures ok { IfOk result
        (λ r. IsItemRead (tree_of templates.now) (instruction_in (nodes_of templates.now) node) (item_data r.0) at.entry
        r.1) }
    ensures line { IfErr result (IsNear at.entry) }
    ensures refused { IfErr result
        (OnBadLine (HasNoItem (tree_of templates.now) (instruction_in (nodes_of templates.now) node) at.entry)) }
{
    match &templates.node(node).shape {
        Shape::Field(_) | Shape::Decimal { .. } => read_value(alloc, templates, node, at),
        Shape::Group { body, .. } => {
            let next = at.advance(alloc)?;
            let (slots, next) = read_body(alloc, templates, body, Ending::Group, next)?;
            Ok((Item::Group(slots), next))
        }
        Shape::Sequence { body, .. } => {
            let count = count_of(at.line);
            let next = at.advance(alloc)?;
            let (rows, next) = read_rows(alloc, templates, body, count, next)?;
            Ok((Item::Sequence(rows), next))
        }
    }
}

/// Returns whether `len` elements are as many as the sequence's line says.
#[inline(always)]
fn has_all(len: usize, count: u32) -> bool
    ensures { IsTrue result ↔ len ≡ count }
{
    len == count as usize
}

/// Returns whether `len` elements are fewer than the sequence's line says.
#[inline(always)]
fn lacks_some(len: usize, count: u32) -> bool
    ensures { IsTrue result ↔ len < count }
{
    len < count as usize
}

/// Reads that many elements of a sequence, up to the line that ends it. Returns them with the cursor after that line.
#[cycle(reading)]
fn read_rows<'a>(
    alloc: Global,
    templates: &Templates,
    body: &[u32],
    count: u32,
    at: Cursor<'a>,
) -> Result<(Vec<Vec<Option<Item>>>, Cursor<'a>), TextFault>
    requires { AreBelow (length (nodes_of templates.now)) body.now }
    ensures ok { IfOk result
        (λ r. AreRowsRead (tree_of templates.now) (body_among (nodes_of templates.now) body.now) count
        (elements_data r.0.items) at.entry r.1) }
    ensures line { IfErr result (IsNear at.entry) }
    ensures refused { IfErr result
        (OnBadLine (HasNoRows (tree_of templates.now) (body_among (nodes_of templates.now) body.now) count at.entry)) }
{
    let mut place = at;
    let mut rows = Vec::new(alloc);
    while is_element(place.line) {
        if has_all(rows.len(), count) {
            return Err(place.fault(LineFault::WrongCount));
        }
        let next = place.advance(alloc)?;
        let (row, next) = read_body(alloc, templates, body, Ending::Element, next)?;
        push(&mut rows, row)?;
        place = next;
    }
    if !is_sequence_end(place.line) {
        return Err(place.fault(misplaced(templates, place.line)));
    }
    if lacks_some(rows.len(), count) {
        return Err(place.fault(LineFault::WrongCount));
    }
    let next = place.advance(alloc)?;
    Ok((rows, next))
}

/// Appends an item.
#[inline(always)]
pub fn push<T: Drop>(items: &mut Vec<T>, item: T) -> Result<(), TextFault>
    ensures ok { OnOk result (items.new.items ≡ items.old.items ++ item ∷ []) }
    ensures err { IfErr result (λ e. e ≡ TextFault.Memory) }
{
    match items.push(item) {
        Ok(()) => Ok(()),
        Err(_) => Err(TextFault::Memory),
    }
}

/// Returns the number of elements in a sequence's line, 0 for any other line.
fn count_of(line: Option<Line<'_>>) -> u32
    ensures { (n : ℕ) (name : List ℕ) (count : ℕ) → option_map line_data line.entry ≡ Some (sequence_line n name count)
        → result ≡ count }
{
    match line {
        Some(Line::Sequence { count, .. }) => count,
        _ => 0,
    }
}

/// Returns the fault of a value that is not one of its field. The types of values bound its numbers.
fn wrong_value(value: &Value, line: u64) -> TextFault
    ensures fault { result ≡ BadLine line LineFault.WrongValue }
    ensures told { IsTold (value_data value.now) }
{
    let kind = match value {
        Value::U(number) => told_unsigned(*number),
        Value::I(number) => told_signed(*number),
        Value::Dec { exponent, mantissa } => told_decimal(*exponent, *mantissa),
        Value::Ascii(_) | Value::Unicode(_) | Value::Bytes(_) => LineFault::WrongValue,
    };
    TextFault::BadLine { line, kind }
}

/// Returns `WrongValue`, and proves that an unsigned integer is in the range of its Rust type.
fn told_unsigned(number: u64) -> LineFault
    ensures kind { result ≡ LineFault.WrongValue }
    ensures told { IsTold (U number) }
{
    let _ = number;
    LineFault::WrongValue
}

/// Returns `WrongValue`, and proves that a signed integer is in the range of its Rust type.
fn told_signed(number: i64) -> LineFault
    ensures kind { result ≡ LineFault.WrongValue }
    ensures told { IsTold (I number) }
{
    let _ = number;
    LineFault::WrongValue
}

/// Returns `WrongValue`, and proves that the parts of a decimal are in the range of their Rust types.
fn told_decimal(exponent: i32, mantissa: i64) -> LineFault
    ensures kind { result ≡ LineFault.WrongValue }
    ensures told { IsTold (Dec exponent mantissa) }
{
    let _ = (exponent, mantissa);
    LineFault::WrongValue
}

/// Reads the value of a field, whose line is next. Returns it with the cursor after it.
fn read_value<'a>(
    alloc: Global,
    templates: &Templates,
    node: u32,
    at: Cursor<'a>,
) -> Result<(Item, Cursor<'a>), TextFault>
    requires node { node < length (nodes_of templates.now) }
    requires field { IsValue (instruction_in (nodes_of templates.now) node) }
    requires named { Names (tree_of templates.now) node (instruction_in (nodes_of templates.now) node)
        (option_map line_data at.line) }
    ensures ok { IfOk result
        (λ r. IsItemRead (tree_of templates.now) (instruction_in (nodes_of templates.now) node) (item_data r.0) at.entry
        r.1) }
    ensures line { IfErr result (IsNear at.entry) }
    ensures refused { IfErr result
        (OnBadLine (HasNoItem (tree_of templates.now) (instruction_in (nodes_of templates.now) node) at.entry)) }
{
    let Cursor {
        line: _,
        value,
        number,
        rest,
        is_utf8,
    } = at;
    let Some(value) = value else {
        return Err(TextFault::BadLine {
            line: number,
            kind: LineFault::WrongValue,
        });
    };
    let fault = wrong_value(&value, number);
    let item = Item::One(value);
    if !suits_item(templates, node, &item) {
        return Err(fault);
    }
    let next = Cursor::behind(alloc, number, rest, is_utf8)?;
    Ok((item, next))
}
