//! Operators that do not suit their types, and initial values that are missing or invalid.

use crate::keys::{has_flag, has_key, is_one_of, table_at, text_of, value_at};
use crate::notes::{Found, Misfit, Part, Right};
use fast_notation::StaticCode;
use fast_value::{InitialFault, Kind, Value as Initial, parse_initial};
use std::alloc::Global;
use toml::{Table, Value};

/// The operators of integers.
static FOR_INTEGERS: [&str; 6] = ["none", "constant", "default", "copy", "increment", "delta"];

/// The operators of strings and byte vectors.
static FOR_TEXTS: [&str; 6] = ["none", "constant", "default", "copy", "delta", "tail"];

/// The operators of decimals.
static FOR_DECIMALS: [&str; 5] = ["none", "constant", "default", "copy", "delta"];

/// The use of an operator.
#[derive(Clone, Copy)]
struct Use<'a> {
    /// The table with the keys of the operator.
    table: &'a Table,
    part: Part,
    kind: Kind,
    optional: bool,
}

/// Returns the type of a name, decimals aside.
fn kind_named(name: &str) -> Option<Kind> {
    match name {
        "uInt32" => Some(Kind::UInt32),
        "int32" => Some(Kind::Int32),
        "uInt64" => Some(Kind::UInt64),
        "int64" => Some(Kind::Int64),
        "ascii" => Some(Kind::Ascii),
        "unicode" => Some(Kind::Unicode),
        "bytes" => Some(Kind::Bytes),
        _ => None,
    }
}

/// Returns the operators that suit a type.
fn operators_of(kind: Kind) -> &'static [&'static str] {
    match kind {
        Kind::UInt32 | Kind::Int32 | Kind::UInt64 | Kind::Int64 => &FOR_INTEGERS,
        Kind::Ascii | Kind::Unicode | Kind::Bytes => &FOR_TEXTS,
        Kind::Decimal => &FOR_DECIMALS,
    }
}

/// Returns the phrase for the form of a type's initial values.
fn initial_of(kind: Kind) -> &'static str {
    match kind {
        Kind::UInt32 => "1 to 20 digits, for a number of 0 to 4294967295",
        Kind::Int32 =>
            "1 to 20 digits, perhaps after a -, for a number of -2147483648 to 2147483647",
        Kind::UInt64 => "1 to 20 digits, for a number of 0 to 18446744073709551615",
        Kind::Int64 =>
            "1 to 20 digits, perhaps after a -, for a number of -9223372036854775808 to 9223372036854775807",
        Kind::Decimal => "an int64 in digits, and perhaps e and an exponent of -63 to 63 after it",
        Kind::Ascii => "characters below U+0080",
        Kind::Unicode => "a text",
        Kind::Bytes => "hexadecimal digits in pairs",
    }
}

/// Returns whether an initial value is invalid for its use.
fn is_no_initial(alloc: Global, used: Use<'_>, text: &str) -> bool {
    match parse_initial(alloc, used.kind, text) {
        Ok(Initial::I(number)) => matches!(used.part, Part::Exponent)
            && !(-63 <= number && number <= 63),
        Ok(_) => false,
        Err(InitialFault::S3) => true,
        Err(InitialFault::Memory) => false,
    }
}

/// Returns the phrase for what a mandatory default needs.
fn right_default(used: Use<'_>) -> &'static str {
    match used.part {
        Part::Mantissa => "the value that is taken by default",
        _ => "the value that is taken by default, or optional = true",
    }
}

/// Returns the phrase for the form of an initial value of a use.
fn right_initial(used: Use<'_>) -> &'static str {
    match used.part {
        Part::Exponent => "1 to 20 digits, perhaps after a -, for a number of -63 to 63",
        _ => initial_of(used.kind),
    }
}

/// Returns what would be valid in place of an initial value, if the code is about that.
fn other_initial(alloc: Global, used: Use<'_>, text: &str, code: StaticCode) -> Option<Right> {
    match code {
        StaticCode::S3 if is_no_initial(alloc, used, text) => Some(Right::Said(right_initial(
            used,
        ))),
        _ => None,
    }
}

/// Returns what would be valid for a missing initial value, if the code is about that.
fn missing_initial(used: Use<'_>, operator: &str, code: StaticCode) -> Option<Right> {
    match code {
        StaticCode::S4 if operator == "constant" => Some(Right::Said("the value of the constant")),
        StaticCode::S5 if operator == "default" && !used.optional => Some(Right::Said(right_default(
            used,
        ))),
        _ => None,
    }
}

/// Returns what would be valid for the use of an operator, if it has the fault of the code.
fn right_of(alloc: Global, used: Use<'_>, operator: &str, code: StaticCode) -> Option<Right> {
    if matches!(code, StaticCode::S2) {
        let suiting = operators_of(used.kind);
        if is_one_of(suiting, operator) {
            return None;
        }
        return Some(Right::OneOf(suiting));
    }
    match text_of(used.table, "value") {
        Some(text) => other_initial(alloc, used, text, code),
        None => missing_initial(used, operator, code),
    }
}

/// Returns the error of the use of an operator, if it has the fault of the code.
fn use_misfit<'a>(alloc: Global, used: Use<'a>, code: StaticCode) -> Option<Misfit<'a>> {
    let operator = text_of(used.table, "op").unwrap_or("none");
    let right = right_of(alloc, used, operator, code)?;
    let key = match code {
        StaticCode::S2 => "op",
        _ => "value",
    };
    let found = match value_at(used.table, key) {
        Some(value) if value.is_str() => Found::Of(value),
        _ => Found::Nothing,
    };
    Some(Misfit {
        part: used.part,
        key: Some(key),
        found,
        right,
    })
}

/// Returns the error of the use of an operator in a part of a field, if it has the fault of the code.
fn part_misfit<'a>(
    alloc: Global,
    table: &'a Table,
    part: Part,
    kind: Kind,
    optional: bool,
    code: StaticCode,
) -> Option<Misfit<'a>> {
    let used = Use {
        table: table_at(table, part.key())?,
        part,
        kind,
        optional,
    };
    use_misfit(alloc, used, code)
}

/// Returns the error of the use of an operator in a field without parts, if it has the fault of the code.
fn whole_misfit<'a>(
    alloc: Global,
    table: &'a Table,
    kind: Option<Kind>,
    optional: bool,
    code: StaticCode,
) -> Option<Misfit<'a>> {
    let used = Use {
        table,
        part: Part::Whole,
        kind: kind?,
        optional,
    };
    use_misfit(alloc, used, code)
}

/// Returns the error of the uses of operators in a decimal, if one has the fault of the code.
fn decimal_misfit<'a>(
    alloc: Global,
    table: &'a Table,
    optional: bool,
    code: StaticCode,
) -> Option<Misfit<'a>> {
    if !has_key(table, "exponent") && !has_key(table, "mantissa") {
        return whole_misfit(alloc, table, Some(Kind::Decimal), optional, code);
    }
    let exponent = part_misfit(alloc, table, Part::Exponent, Kind::Int32, optional, code);
    let mantissa = part_misfit(alloc, table, Part::Mantissa, Kind::Int64, false, code);
    exponent.or(mantissa)
}

/// Returns the error of the uses of operators in a field of this type, if one has the fault of the code.
fn misfit_of_kind<'a>(
    alloc: Global,
    table: &'a Table,
    name: &str,
    optional: bool,
    code: StaticCode,
) -> Option<Misfit<'a>> {
    match name {
        "sequence" => part_misfit(alloc, table, Part::Length, Kind::UInt32, optional, code),
        "decimal" => decimal_misfit(alloc, table, optional, code),
        _ => whole_misfit(alloc, table, kind_named(name), optional, code),
    }
}

/// Returns the error of the uses of operators in a field, if one has the fault of the code.
pub(crate) fn field_misfit<'a>(
    alloc: Global,
    field: &'a Value,
    code: StaticCode,
) -> Option<Misfit<'a>> {
    let table = field.as_table()?;
    let name = text_of(table, "kind")?;
    misfit_of_kind(alloc, table, name, has_flag(table, "optional"), code)
}
