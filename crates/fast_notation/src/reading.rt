//! Reads the tables of a template file into written template sets.

ghost use Rattle.std.specs.Prelude.{◌≡◌, codes, option_map, Some, None, Err, IfOk, string_bytes};
ghost use Rattle.toml.specs.Data.{get_member};
ghost use Rattle.toml.specs.View.{view, items_view, table_view};
ghost use Rattle.fast_notation.specs.device.Reading.{kind_named, own_name_of, length_of, scalar_of, parts_of, group_of, sequence_of, reference_of, field_of, has_part, all_fields, fields_of, declared_of};
ghost use Rattle.fast_notation.specs.device.WrittenSets.{operator_data, instruction_data, fields_data};

use crate::keys::{
    Unread, flag_at, has_only, is_name_or_none, items_at, name_at, owned, string_at, text_at,
    value_at,
};
use crate::operators::{operator_in, part_at, plain};
use crate::written::{WrittenInstruction, WrittenOperator};
use fast_value::Kind;
use std::alloc::Global;
use toml::{Table, Value};

/// Returns the type of a name.
fn kind_named(name: &str) -> Option<Kind>
    ensures { result ≡ kind_named name.now }
{
    match name {
        "uInt32" => Some(Kind::UInt32),
        "int32" => Some(Kind::Int32),
        "uInt64" => Some(Kind::UInt64),
        "int64" => Some(Kind::Int64),
        "decimal" => Some(Kind::Decimal),
        "ascii" => Some(Kind::Ascii),
        "unicode" => Some(Kind::Unicode),
        "bytes" => Some(Kind::Bytes),
        _ => None,
    }
}

/// Returns the name of a length, if it has one.
fn own_name_at(alloc: Global, table: &Table) -> Result<Option<String>, Unread>
    ensures name { IfOk result (λ o. own_name_of (get_member (codes "name") (table_view table.now))
        ≡ Some (option_map string_bytes o)) }
    ensures shape { result ≡ Err Unread.Shape → own_name_of (get_member (codes "name") (table_view table.now)) ≡ None }
{
    let name = string_at(alloc, table, "name")?;
    if !is_name_or_none(name.as_ref()) {
        return Err(Unread::Shape);
    }
    Ok(name)
}

/// The length of a sequence.
#[derive(Drop)]
struct WrittenLength {
    name: Option<String>,
    operator: WrittenOperator,
}

/// Reads the length that a table writes.
fn length_at(alloc: Global, table: &Table) -> Result<WrittenLength, Unread>
    ensures length { IfOk result (λ l. length_of (get_member (codes "length") (table_view table.now))
        ≡ Some (option_map string_bytes l.name, operator_data l.operator)) }
    ensures shape { result ≡ Err Unread.Shape → length_of (get_member (codes "length") (table_view table.now)) ≡ None }
{
    let Some(value) = value_at(table, "length") else {
        return Ok(WrittenLength {
            name: None,
            operator: plain(),
        });
    };
    let Some(length) = value.as_table() else {
        return Err(Unread::Shape);
    };
    if !has_only(length, &["name", "op", "value", "key", "dictionary"]) {
        return Err(Unread::Shape);
    }
    let name = own_name_at(alloc, length)?;
    let operator = operator_in(alloc, length)?;
    Ok(WrittenLength { name, operator })
}

/// Reads a field of a type.
fn scalar_in(alloc: Global, table: &Table, kind: Kind) -> Result<WrittenInstruction, Unread>
    ensures scalar { IfOk result (λ w. scalar_of kind (table_view table.now) ≡ Some (instruction_data w)) }
    ensures shape { result ≡ Err Unread.Shape → scalar_of kind (table_view table.now) ≡ None }
{
    if !has_only(
        table,
        &[
            "kind",
            "name",
            "optional",
            "op",
            "value",
            "key",
            "dictionary",
        ],
    ) {
        return Err(Unread::Shape);
    }
    let name = name_at(table, "name")?;
    let optional = flag_at(table, "optional")?;
    let operator = operator_in(alloc, table)?;
    let name = owned(alloc, name)?;
    Ok(WrittenInstruction::Scalar {
        name,
        optional,
        kind,
        operator,
    })
}

/// Reads a decimal by parts.
fn parts_in(alloc: Global, table: &Table) -> Result<WrittenInstruction, Unread>
    ensures parts { IfOk result (λ w. parts_of (table_view table.now) ≡ Some (instruction_data w)) }
    ensures shape { result ≡ Err Unread.Shape → parts_of (table_view table.now) ≡ None }
{
    if !has_only(table, &["kind", "name", "optional", "exponent", "mantissa"]) {
        return Err(Unread::Shape);
    }
    let name = name_at(table, "name")?;
    let optional = flag_at(table, "optional")?;
    let exponent = part_at(alloc, table, "exponent")?;
    let mantissa = part_at(alloc, table, "mantissa")?;
    let name = owned(alloc, name)?;
    Ok(WrittenInstruction::Parts {
        name,
        optional,
        exponent,
        mantissa,
    })
}

/// Reads a group of these instructions.
fn group_in(
    alloc: Global,
    table: &Table,
    fields: Vec<WrittenInstruction>,
) -> Result<WrittenInstruction, Unread>
    ensures group { IfOk result (λ w. group_of (table_view table.now) (Some (fields_data fields.items))
        ≡ Some (instruction_data w)) }
    ensures shape { result ≡ Err Unread.Shape
        → group_of (table_view table.now) (Some (fields_data fields.items)) ≡ None }
{
    if !has_only(table, &["kind", "name", "optional", "fields"]) {
        return Err(Unread::Shape);
    }
    let name = name_at(table, "name")?;
    let optional = flag_at(table, "optional")?;
    let name = owned(alloc, name)?;
    Ok(WrittenInstruction::Group {
        name,
        optional,
        fields,
    })
}

/// Reads a sequence of elements of these instructions.
fn sequence_in(
    alloc: Global,
    table: &Table,
    fields: Vec<WrittenInstruction>,
) -> Result<WrittenInstruction, Unread>
    ensures sequence { IfOk result (λ w. sequence_of (table_view table.now) (Some (fields_data fields.items))
        ≡ Some (instruction_data w)) }
    ensures shape { result ≡ Err Unread.Shape
        → sequence_of (table_view table.now) (Some (fields_data fields.items)) ≡ None }
{
    if !has_only(table, &["kind", "name", "optional", "fields", "length"]) {
        return Err(Unread::Shape);
    }
    let name = name_at(table, "name")?;
    let optional = flag_at(table, "optional")?;
    let length = length_at(alloc, table)?;
    let name = owned(alloc, name)?;
    Ok(WrittenInstruction::Sequence {
        name,
        optional,
        length_name: length.name,
        length: length.operator,
        fields,
    })
}

/// Reads a reference to a template.
fn reference_in(alloc: Global, table: &Table) -> Result<WrittenInstruction, Unread>
    ensures reference { IfOk result (λ w. reference_of (table_view table.now) ≡ Some (instruction_data w)) }
    ensures shape { result ≡ Err Unread.Shape → reference_of (table_view table.now) ≡ None }
{
    if !has_only(table, &["kind", "name"]) {
        return Err(Unread::Shape);
    }
    let name = owned(alloc, name_at(table, "name")?)?;
    Ok(WrittenInstruction::Reference(name))
}

/// Reads a field of a type, which is a decimal by parts if the table has a part.
fn field_in(alloc: Global, table: &Table, kind: Kind) -> Result<WrittenInstruction, Unread>
    ensures field { IfOk result (λ w. field_of kind (table_view table.now) ≡ Some (instruction_data w)) }
    ensures shape { result ≡ Err Unread.Shape → field_of kind (table_view table.now) ≡ None }
{
    match kind {
        Kind::Decimal if has_part(table) => parts_in(alloc, table),
        _ => scalar_in(alloc, table, kind),
    }
}

/// Returns whether a decimal's table has a part.
fn has_part(table: &Table) -> bool
    ensures { result ≡ has_part (table_view table.now) }
{
    value_at(table, "exponent").is_some() || value_at(table, "mantissa").is_some()
}

/// Reads the instructions of the items of an array.
#[cycle(fields)]
fn fields_in(alloc: Global, items: &[Value]) -> Result<Vec<WrittenInstruction>, Unread>
    ensures fields { IfOk result (λ v. all_fields (items_view items.now) ≡ Some (fields_data v.items)) }
    ensures shape { result ≡ Err Unread.Shape → all_fields (items_view items.now) ≡ None }
{
    let mut fields = Vec::new(alloc);
    for item in items {
        let field = instruction_in(alloc, item)?;
        match fields.push(field) {
            Ok(()) => {}
            Err(_) => return Err(Unread::Memory),
        }
    }
    Ok(fields)
}

/// Reads the instructions at the key `fields` of a table, if there are any.
#[cycle(fields)]
pub(crate) fn nested_fields(alloc: Global, table: &Table) -> Result<Vec<WrittenInstruction>, Unread>
    ensures fields { IfOk result (λ v. fields_of (table_view table.now) ≡ Some (fields_data v.items)) }
    ensures shape { result ≡ Err Unread.Shape → fields_of (table_view table.now) ≡ None }
{
    let items = items_at(table, "fields")?;
    fields_in(alloc, items)
}

/// Reads the instruction of a table.
#[cycle(fields)]
fn instruction_in(alloc: Global, value: &Value) -> Result<WrittenInstruction, Unread>
    ensures instruction { IfOk result (λ w. declared_of (view value.now) ≡ Some (instruction_data w)) }
    ensures shape { result ≡ Err Unread.Shape → declared_of (view value.now) ≡ None }
{
    let Some(table) = value.as_table() else {
        return Err(Unread::Shape);
    };
    let Some(kind) = text_at(table, "kind")? else {
        return Err(Unread::Shape);
    };
    match kind {
        "group" => {
            let fields = nested_fields(alloc, table)?;
            group_in(alloc, table, fields)
        }
        "sequence" => {
            let fields = nested_fields(alloc, table)?;
            sequence_in(alloc, table, fields)
        }
        "ref" => reference_in(alloc, table),
        _ => match kind_named(kind) {
            Some(kind) => field_in(alloc, table, kind),
            None => Err(Unread::Shape),
        },
    }
}
