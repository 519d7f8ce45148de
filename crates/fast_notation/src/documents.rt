//! The first pass, whose fault is S1: reads a TOML file into a written set.

ghost use Rattle.std.specs.Prelude.{◌≡◌, ◌<◌, ◌^◌, codes, option_map, length, true, Some, None, Err, ℕ, IfOk, IfErr, IfSome, IsSome};
ghost use Rattle.toml.specs.Data.{Data, Members, get_member, get_item, as_array};
ghost use Rattle.toml.specs.Parse.{parse_document};
ghost use Rattle.toml.specs.View.{view, items_view, array_view, table_view};
ghost use Rattle.fast_notation.specs.meaning.Firsts.{IsFirstUnwritten};
ghost use Rattle.fast_notation.specs.meaning.Notation.{WritesSet};
ghost use Rattle.fast_notation.specs.device.Reading.{id_of, dictionary_of, template_of, template_in, all_templates, tables_of, are_tables, are_templates};
ghost use Rattle.fast_notation.specs.meaning.Unwritten.{IsUnwritten};
ghost use Rattle.fast_notation.specs.device.WrittenReading.{IsUnread};
ghost use Rattle.fast_notation.specs.device.WrittenSets.{written_data, templates_data};

use crate::codes::{StaticCode, StaticFault};
use crate::keys::{Unread, flag_at, has_only, is_dictionary, name_at, owned, text_at, value_at};
use crate::reading::nested_fields;
use crate::written::WrittenTemplate;
use std::alloc::Global;
use std::mem;
use toml::{Table, Value};

/// Returns the identifier of a template, if it has one.
fn id_at(table: &Table) -> Result<Option<u32>, Unread>
    ensures id { IfOk result (λ o. id_of (get_member (codes "id") (table_view table.now)) ≡ Some o) }
    ensures shape { result ≡ Err Unread.Shape → id_of (get_member (codes "id") (table_view table.now)) ≡ None }
{
    let Some(value) = value_at(table, "id") else {
        return Ok(None);
    };
    let Some(number) = value.as_integer() else {
        return Err(Unread::Shape);
    };
    match u32::try_from(number) {
        Ok(id) => Ok(Some(id)),
        Err(_) => Err(Unread::Shape),
    }
}

/// Returns the dictionary of a template, which is the global one if none is written.
fn dictionary_at<'a>(table: &'a Table) -> Result<&'a str, Unread>
    ensures dictionary { IfOk result (λ s. dictionary_of (get_member (codes "dictionary") (table_view table.now))
        ≡ Some s.now) }
    ensures shape { result ≡ Err Unread.Shape
        → dictionary_of (get_member (codes "dictionary") (table_view table.now)) ≡ None }
{
    let Some(dictionary) = text_at(table, "dictionary")? else {
        return Ok("global");
    };
    if !is_dictionary(dictionary) {
        return Err(Unread::Shape);
    }
    Ok(dictionary)
}

/// Reads the template of a table.
fn template_in(alloc: Global, table: &Table) -> Result<WrittenTemplate, Unread>
    ensures template { IfOk result (λ t. template_of (table_view table.now) ≡ Some (written_data t)) }
    ensures shape { result ≡ Err Unread.Shape → template_of (table_view table.now) ≡ None }
{
    if !has_only(table, &["name", "id", "reset", "dictionary", "fields"]) {
        return Err(Unread::Shape);
    }
    let name = name_at(table, "name")?;
    let id = id_at(table)?;
    let reset = flag_at(table, "reset")?;
    let dictionary = dictionary_at(table)?;
    let fields = nested_fields(alloc, table)?;
    let name = owned(alloc, name)?;
    let dictionary = owned(alloc, dictionary)?;
    Ok(WrittenTemplate {
        name,
        id,
        reset,
        dictionary,
        fields,
    })
}

/// Returns whether each value is a table.
fn are_tables(items: &[Value]) -> bool
    ensures { result ≡ are_tables (items_view items.now) }
{
    for item in items {
        if item.as_table().is_none() {
            return false;
        }
    }
    true
}

/// Returns whether there are 1 to 4,294,967,295 values, each a table.
fn are_templates(items: &[Value]) -> bool
    ensures test { result ≡ are_templates (items_view items.now) }
    ensures few { result ≡ true → length items.now < 2 ^ 32 }
{
    let count = items.len();
    if count == 0 {
        return false;
    }
    if count > u32::MAX as usize {
        return false;
    }
    are_tables(items)
}

/// Removes the value at a key from a table, and returns it.
fn taken_at(table: &mut Table, key: &str) -> Option<Value>
    ensures { option_map view result ≡ get_member key.now (table_view table.old) }
{
    table.remove(key)
}

/// Returns the items of an array.
fn items_of(value: Value) -> Option<Vec<Value>>
    ensures { option_map array_view result ≡ as_array (view value) }
{
    match value {
        Value::Array(items) => Some(items),
        _ => None,
    }
}

/// Removes the tables of templates from a document, and returns them.
fn tables_in(mut document: Table) -> Option<Vec<Value>>
    ensures tables { option_map array_view result ≡ tables_of (table_view document) }
    ensures few { IfSome result (λ v. length v.items < 2 ^ 32) }
{
    if document.len() != 1 {
        return None;
    }
    let Some(value) = taken_at(&mut document, "template") else {
        return None;
    };
    let Some(items) = items_of(value) else {
        return None;
    };
    if !are_templates(items.as_slice()) {
        return None;
    }
    Some(items)
}

/// Returns a fault at a template.
fn fault_at(fault: Unread, template: usize) -> StaticFault
    requires { template < 2 ^ 32 }
    ensures shape { fault ≡ Unread.Shape → result ≡ record { code = StaticCode.S1; template = Some template } }
    ensures memory { fault ≡ Unread.Memory → result ≡ record { code = StaticCode.Memory; template = None } }
{
    match fault {
        Unread::Shape => StaticFault {
            code: StaticCode::S1,
            template: Some(template as u32),
        },
        Unread::Memory => StaticFault {
            code: StaticCode::Memory,
            template: None,
        },
    }
}

/// Reads the template of a value.
fn template_at(alloc: Global, value: &Value) -> Result<WrittenTemplate, Unread>
    ensures template { IfOk result (λ t. template_in (view value.now) ≡ Some (written_data t)) }
    ensures shape { result ≡ Err Unread.Shape → template_in (view value.now) ≡ None }
{
    match value.as_table() {
        Some(table) => template_in(alloc, table),
        None => Err(Unread::Shape),
    }
}

/// Reads the templates of tables, each of which is dropped once it is read: the tree of a file needs many times the file's length.
fn templates_in(alloc: Global, items: &mut [Value]) -> Result<Vec<WrittenTemplate>, StaticFault>
    requires { length items.old < 2 ^ 32 }
    ensures templates { IfOk result (λ v. all_templates (items_view items.old) ≡ Some (templates_data v.items)) }
    ensures fault { IfErr result (λ e. IsUnread (items_view items.old) e.code e.template) }
    ensures first { IfErr result (λ e. IfSome e.template (λ k. (e.code ≡ StaticCode.S1)
        × ((j : ℕ) (d : Data) → j < k → get_item j (items_view items.old) ≡ Some d → IsSome (template_in d)))) }
{
    let mut templates = Vec::new(alloc);
    for k in 0..items.len() {
        let item = mem::replace(&mut items[k], Value::Boolean(false));
        let template = match template_at(alloc, &item) {
            Ok(template) => template,
            Err(fault) => return Err(fault_at(fault, k)),
        };
        match templates.push(template) {
            Ok(()) => {}
            Err(_) => return Err(fault_at(Unread::Memory, k)),
        }
    }
    Ok(templates)
}

/// Reads the written set of a TOML file's contents.
pub(crate) fn read_written(alloc: Global, text: &str) -> Result<Vec<WrittenTemplate>, StaticFault>
    ensures written { IfOk result (λ v. (document : Members) × (parse_document text.now ≡ Some document)
        × WritesSet document (templates_data v.items)) }
    ensures fault { IfErr result (λ e. IsUnwritten (parse_document text.now) e.code e.template) }
    ensures first { IfErr result (λ e. IfSome e.template (λ k. (e.code ≡ StaticCode.S1)
        × IsFirstUnwritten (parse_document text.now) k)) }
{
    let document = match toml::table_from_str(alloc, text) {
        Ok(document) => document,
        Err(error) if error.is_memory() => {
            return Err(StaticFault {
                code: StaticCode::Memory,
                template: None,
            });
        }
        Err(_) => return Err(no_set()),
    };
    match tables_in(document) {
        Some(mut items) => templates_in(alloc, &mut items),
        None => Err(no_set()),
    }
}

/// Returns the fault of a file that has no tables of templates.
fn no_set() -> StaticFault
    ensures { result ≡ record { code = StaticCode.S1; template = None } }
{
    StaticFault {
        code: StaticCode::S1,
        template: None,
    }
}
