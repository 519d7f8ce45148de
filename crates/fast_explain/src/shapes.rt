//! Tables that have not the form of a template or of a field.

use crate::keys::{has_key, is_one_of, text_of, unknown_key, value_at};
use crate::notes::{Found, Misfit, Part, Right};
use toml::{Table, Value};

/// The keys of a template.
static TEMPLATE_KEYS: [&str; 5] = ["name", "id", "reset", "dictionary", "fields"];

/// All keys of fields.
static FIELD_KEYS: [&str; 11] = [
    "kind",
    "name",
    "optional",
    "op",
    "value",
    "key",
    "dictionary",
    "exponent",
    "mantissa",
    "fields",
    "length",
];

/// The keys of a field with an operator.
static SCALAR_KEYS: [&str; 7] = [
    "kind",
    "name",
    "optional",
    "op",
    "value",
    "key",
    "dictionary",
];

/// The keys of a decimal by parts.
static PARTS_KEYS: [&str; 5] = ["kind", "name", "optional", "exponent", "mantissa"];

/// The keys of a part of a decimal.
static OPERATOR_KEYS: [&str; 4] = ["op", "value", "key", "dictionary"];

/// The keys of a group.
static GROUP_KEYS: [&str; 4] = ["kind", "name", "optional", "fields"];

/// The keys of a sequence.
static SEQUENCE_KEYS: [&str; 5] = ["kind", "name", "optional", "fields", "length"];

/// The keys of a length.
static LENGTH_KEYS: [&str; 5] = ["name", "op", "value", "key", "dictionary"];

/// The keys of a reference.
static REFERENCE_KEYS: [&str; 2] = ["kind", "name"];

/// The values of a field's `kind`.
static KINDS: [&str; 11] = [
    "uInt32", "int32", "uInt64", "int64", "decimal", "ascii", "unicode", "bytes", "group",
    "sequence", "ref",
];

/// The operators.
static OPERATORS: [&str; 7] = [
    "none",
    "constant",
    "default",
    "copy",
    "increment",
    "delta",
    "tail",
];

/// The parts of fields, in the order in which they are checked.
static PARTS: [Part; 3] = [Part::Length, Part::Exponent, Part::Mantissa];

/// The form that the value of a key must have.
#[derive(Clone, Copy)]
enum Form {
    /// A name; the key is mandatory.
    OwnName,
    Name,
    Dictionary,
    Flag,
    Fields,
    Id,
    /// The type of a field; the key is mandatory.
    Kind,
    Operator,
    Text,
    /// No value, since there is no operator.
    NoValue,
    /// No value, since the operator keeps no previous value.
    NoKey,
}

/// A key, and the form of its value.
type Rule = (&'static str, Form);

/// The rules of a template.
static TEMPLATE_RULES: [Rule; 5] = [
    ("name", Form::OwnName),
    ("id", Form::Id),
    ("reset", Form::Flag),
    ("dictionary", Form::Dictionary),
    ("fields", Form::Fields),
];

/// The rules of all fields.
static FIELD_RULES: [Rule; 3] = [
    ("kind", Form::Kind),
    ("name", Form::OwnName),
    ("optional", Form::Flag),
];

/// The rules of a group or a sequence.
static SEGMENT_RULES: [Rule; 1] = [("fields", Form::Fields)];

/// The rules of a part of a field.
static PART_RULES: [Rule; 1] = [("name", Form::Name)];

/// The rules of an operator.
static OPERATOR_RULES: [Rule; 2] = [("op", Form::Operator), ("value", Form::Text)];

/// The rules for a field without operator.
static NONE_RULES: [Rule; 3] = [
    ("value", Form::NoValue),
    ("key", Form::NoKey),
    ("dictionary", Form::NoKey),
];

/// The rules for the keys next to an operator that keeps no previous value.
static CONSTANT_RULES: [Rule; 2] = [("key", Form::NoKey), ("dictionary", Form::NoKey)];

/// The rules for the keys next to an operator that keeps a previous value.
static KEPT_RULES: [Rule; 2] = [("key", Form::Name), ("dictionary", Form::Dictionary)];

/// Returns what would be valid for a value that has not this form.
fn right_of(form: Form) -> Right {
    match form {
        Form::Kind => Right::OneOf(&KINDS),
        Form::Operator => Right::OneOf(&OPERATORS),
        Form::NoValue => Right::NoValue("not allowed without an operator"),
        Form::NoKey => Right::NoValue(
            "not allowed unless the operator is copy, increment, delta or tail",
        ),
        _ => Right::Said(words_of(form)),
    }
}

/// Returns the phrase for a form.
fn words_of(form: Form) -> &'static str {
    match form {
        Form::OwnName | Form::Name => "a name, of 1 to 64 letters, digits, _, - and points",
        Form::Dictionary => "a name other than type, of 1 to 64 letters, digits, _, - and points",
        Form::Flag => "true or false",
        Form::Fields => "an array of tables",
        Form::Id => "a number of 0 to 4294967295",
        Form::Kind | Form::Operator | Form::Text | Form::NoValue | Form::NoKey =>
            "a text between quotes",
    }
}

/// Returns the error at a key.
fn at<'a>(key: &'a str, found: Found<'a>, right: Right) -> Option<Misfit<'a>> {
    Some(Misfit {
        part: Part::Whole,
        key: Some(key),
        found,
        right,
    })
}

/// Returns whether a name can contain the byte.
fn is_name_byte(byte: u8) -> bool {
    byte.is_ascii_alphanumeric() || matches!(byte, b'_' | b'-' | b'.')
}

/// Returns whether the string is a name.
fn is_name(text: &str) -> bool {
    for byte in text.as_bytes() {
        if !is_name_byte(*byte) {
            return false;
        }
    }
    !text.is_empty() && text.len() <= 64
}

/// Returns whether a string has a form.
fn suits(text: &str, form: Form) -> bool {
    match form {
        Form::Kind => is_one_of(&KINDS, text),
        Form::Operator => is_one_of(&OPERATORS, text),
        Form::Dictionary => is_name(text) && text != "type",
        _ => is_name(text),
    }
}

/// Returns whether a value has a form.
fn fits(value: &Value, form: Form) -> bool {
    match form {
        Form::Flag => value.is_bool(),
        Form::Fields => value.is_array(),
        Form::Text => value.is_str(),
        Form::Id => matches!(value.as_integer(), Some(0..=4_294_967_295)),
        Form::NoValue | Form::NoKey => false,
        _ => match value.as_str() {
            Some(text) => suits(text, form),
            None => false,
        },
    }
}

/// Returns the error at the key of a rule, if the rule is broken.
fn broken<'a>(table: &'a Table, key: &'static str, form: Form) -> Option<Misfit<'a>> {
    let found = match value_at(table, key) {
        Some(value) if fits(value, form) => return None,
        Some(value) => Found::Of(value),
        None if matches!(form, Form::OwnName | Form::Kind) => Found::Nothing,
        None => return None,
    };
    at(key, found, right_of(form))
}

/// Returns the error of the first rule that is broken.
fn first_broken<'a>(table: &'a Table, rules: &[Rule]) -> Option<Misfit<'a>> {
    for (key, form) in rules {
        let misfit = broken(table, *key, *form);
        if misfit.is_some() {
            return misfit;
        }
    }
    None
}

/// Returns the error of a key that is not one of these, else that of the first rule that is broken.
fn unfit<'a>(
    table: &'a Table,
    keys: &'static [&'static str],
    rules: &[Rule],
) -> Option<Misfit<'a>> {
    match unknown_key(table, keys) {
        Some(key) => at(key, Found::Key, Right::OneOf(keys)),
        None => first_broken(table, rules),
    }
}

/// Returns the error of a value that is not a table.
fn no_table<'a>(value: &'a Value) -> Option<Misfit<'a>> {
    Some(Misfit {
        part: Part::Whole,
        key: None,
        found: Found::Of(value),
        right: Right::Said("a table"),
    })
}

/// Returns the error of a template, its fields aside.
pub(crate) fn template_misfit<'a>(template: &'a Value) -> Option<Misfit<'a>> {
    match template.as_table() {
        Some(table) => unfit(table, &TEMPLATE_KEYS, &TEMPLATE_RULES),
        None => no_table(template),
    }
}

/// Returns the rules for the keys next to an operator.
fn rules_beside(operator: &str) -> &'static [Rule] {
    match operator {
        "none" => &NONE_RULES,
        "constant" | "default" => &CONSTANT_RULES,
        _ => &KEPT_RULES,
    }
}

/// Returns the error of an operator and of the keys next to it.
fn operator_misfit<'a>(table: &'a Table) -> Option<Misfit<'a>> {
    let misfit = first_broken(table, &OPERATOR_RULES);
    if misfit.is_some() {
        return misfit;
    }
    first_broken(
        table,
        match text_of(table, "op") {
            Some(operator) => rules_beside(operator),
            None => &NONE_RULES,
        },
    )
}

/// Returns the error of the value of a part of a field.
fn inner_misfit<'a>(value: &'a Value, keys: &'static [&'static str]) -> Option<Misfit<'a>> {
    let Some(table) = value.as_table() else {
        return no_table(value);
    };
    let misfit = unfit(table, keys, &PART_RULES);
    if misfit.is_some() {
        return misfit;
    }
    operator_misfit(table)
}

/// Returns the error of a part of a field, with that part.
fn part_misfit<'a>(table: &'a Table, part: Part) -> Option<Misfit<'a>> {
    let value = value_at(table, part.key())?;
    let misfit = inner_misfit(
        value,
        match part {
            Part::Length => &LENGTH_KEYS,
            _ => &OPERATOR_KEYS,
        },
    )?;
    Some(Misfit { part, ..misfit })
}

/// Returns the keys of a field of this type.
fn keys_of(table: &Table, kind: &str) -> &'static [&'static str] {
    match kind {
        "group" => &GROUP_KEYS,
        "sequence" => &SEQUENCE_KEYS,
        "ref" => &REFERENCE_KEYS,
        "decimal" if has_key(table, "exponent") || has_key(table, "mantissa") => &PARTS_KEYS,
        _ => &SCALAR_KEYS,
    }
}

/// Returns the error of a field of this type, the fields in it aside. Keys that the type does not have come first, so that the rules can be
/// those of all types.
fn misfit_of_kind<'a>(table: &'a Table, kind: &str) -> Option<Misfit<'a>> {
    let misfit = unfit(table, keys_of(table, kind), &SEGMENT_RULES);
    if misfit.is_some() {
        return misfit;
    }
    for part in &PARTS {
        let misfit = part_misfit(table, *part);
        if misfit.is_some() {
            return misfit;
        }
    }
    operator_misfit(table)
}

/// Returns the error of a field, the fields in it aside.
pub(crate) fn field_misfit<'a>(field: &'a Value) -> Option<Misfit<'a>> {
    let Some(table) = field.as_table() else {
        return no_table(field);
    };
    let misfit = unfit(table, &FIELD_KEYS, &FIELD_RULES);
    if misfit.is_some() {
        return misfit;
    }
    misfit_of_kind(table, text_of(table, "kind")?)
}
