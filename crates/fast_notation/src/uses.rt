//! The fourth pass: operators suit their types, and initial values are values of their types.

ghost use Rattle.std.specs.Prelude.{◌≡◌, ◌≢◌, ◌↔◌, IsTrue, IfOk, IfErr, OnOk, Err, All, [], option_map, string_bytes};
ghost use Rattle.fast_value.specs.declared.kinds.Kind.{Kind};
ghost use Rattle.fast_value.specs.meaning.Kinds.{family, integer_of, exponent_range, IsWithin, ScalarData};
ghost use Rattle.fast_value.specs.meaning.Values.{value_data};
ghost use Rattle.fast_tree.specs.meaning.AsWritten.{uses, length_use};
ghost use Rattle.fast_notation.specs.meaning.Uses.{suits};
ghost use Rattle.fast_notation.specs.device.Sound.{bare_use, IsInitialAt, IsSound, IsUnsound, HasFault, uses_in};
ghost use Rattle.fast_notation.specs.device.WrittenSets.{operator_data, instruction_data};

use crate::codes::StaticCode;
use crate::written::{WrittenInstruction, WrittenOperator};
use fast_tree::Operator;
use fast_value::{InitialFault, Kind, Value, parse_initial};
use std::alloc::Global;

/// The part that an operator is used on: a scalar, the exponent or the mantissa of a decimal, or the length of a sequence.
#[derive(Clone, Copy, PartialEq, Eq, Hash)]
pub(crate) enum OperatorPart {
    /// A scalar, or a length with a name of its own.
    Whole,
    /// The exponent of a decimal.
    Exponent,
    /// The mantissa of a decimal.
    Mantissa,
    /// The length of a sequence.
    Length,
}

/// Returns whether an operator suits a type.
fn suits(operator: Operator, kind: Kind) -> bool
    ensures { result ≡ suits operator (family kind) }
{
    match operator {
        Operator::Increment => match kind {
            Kind::UInt32 | Kind::Int32 | Kind::UInt64 | Kind::Int64 => true,
            Kind::Decimal | Kind::Ascii | Kind::Unicode | Kind::Bytes => false,
        },
        Operator::Tail => match kind {
            Kind::Ascii | Kind::Unicode | Kind::Bytes => true,
            Kind::UInt32 | Kind::Int32 | Kind::UInt64 | Kind::Int64 | Kind::Decimal => false,
        },
        _ => true,
    }
}

/// Returns whether an initial value lies in the range of exponents.
fn is_exponent(value: &Value) -> bool
    ensures { IsTrue result ↔ IsWithin exponent_range (integer_of (value_data value.now)) }
{
    match value {
        Value::U(number) => *number <= 63,
        Value::I(number) => -63 <= *number && *number <= 63,
        _ => true,
    }
}

/// Returns the initial value that a string gives for a part of a field of this type.
pub(crate) fn initial_in(
    alloc: Global,
    part: OperatorPart,
    kind: Kind,
    text: &str,
) -> Result<Value, StaticCode>
    requires { part ≡ OperatorPart.Exponent → kind ≡ Kind.Int32 }
    ensures value { IfOk result (λ v. IsInitialAt part kind text.now (value_data v)) }
    ensures none { result ≡ Err StaticCode.S3 → (v : ScalarData) → ¬ (IsInitialAt part kind text.now v) }
    ensures codes { IfErr result (λ c. c ≢ StaticCode.S3 → c ≡ StaticCode.Memory) }
{
    let value = match parse_initial(alloc, kind, text) {
        Ok(value) => value,
        Err(InitialFault::S3) => return Err(StaticCode::S3),
        Err(InitialFault::Memory) => return Err(StaticCode::Memory),
    };
    match part {
        OperatorPart::Exponent => {
            if is_exponent(&value) {
                Ok(value)
            } else {
                Err(StaticCode::S3)
            }
        }
        _ => Ok(value),
    }
}

/// Checks one use of an operator.
fn check_use(
    alloc: Global,
    part: OperatorPart,
    kind: Kind,
    optional: bool,
    written: &WrittenOperator,
) -> Result<(), StaticCode>
    requires { part ≡ OperatorPart.Exponent → kind ≡ Kind.Int32 }
    ensures sound { OnOk result (IsSound (bare_use part kind optional (operator_data written.now))) }
    ensures fault { IfErr result (λ c. IsUnsound c (bare_use part kind optional (operator_data written.now))) }
{
    if !suits(written.operator, kind) {
        return Err(StaticCode::S2);
    }
    let Some(text) = &written.value else {
        return match written.operator {
            Operator::Constant => Err(StaticCode::S4),
            Operator::Default if !optional => Err(StaticCode::S5),
            _ => Ok(()),
        };
    };
    match initial_in(alloc, part, kind, text.as_str()) {
        Ok(_) => Ok(()),
        Err(code) => Err(code),
    }
}

/// Checks the use of an operator by a length, which is a scalar if it has a name of its own.
fn check_length(
    alloc: Global,
    optional: bool,
    name: &Option<String>,
    written: &WrittenOperator,
) -> Result<(), StaticCode>
    ensures sound { OnOk result (IsSound
        (length_use [] optional (option_map string_bytes name.now) (operator_data written.now))) }
    ensures fault { IfErr result (λ c. IsUnsound c
        (length_use [] optional (option_map string_bytes name.now) (operator_data written.now))) }
{
    match name {
        Some(_) => check_use(alloc, OperatorPart::Whole, Kind::UInt32, optional, written),
        None => check_use(alloc, OperatorPart::Length, Kind::UInt32, optional, written),
    }
}

/// Checks the uses of operators by instructions, in the order of the file.
#[cycle(uses)]
pub(crate) fn check_fields(alloc: Global, fields: &[WrittenInstruction]) -> Result<(), StaticCode>
    ensures sound { OnOk result (All IsSound (uses_in fields.now)) }
    ensures fault { IfErr result (λ c. HasFault c (uses_in fields.now)) }
{
    for field in fields {
        check_instruction(alloc, field)?;
    }
    Ok(())
}

/// Checks the uses of operators by an instruction: an exponent before a mantissa, a length before an element.
#[cycle(uses)]
fn check_instruction(alloc: Global, instruction: &WrittenInstruction) -> Result<(), StaticCode>
    ensures sound { OnOk result (All IsSound (uses (instruction_data instruction.now))) }
    ensures fault { IfErr result (λ c. HasFault c (uses (instruction_data instruction.now))) }
{
    match instruction {
        WrittenInstruction::Scalar {
            optional,
            kind,
            operator,
            ..
        } => check_use(alloc, OperatorPart::Whole, *kind, *optional, operator),
        WrittenInstruction::Parts {
            optional,
            exponent,
            mantissa,
            ..
        } => {
            check_use(
                alloc,
                OperatorPart::Exponent,
                Kind::Int32,
                *optional,
                exponent,
            )?;
            check_use(alloc, OperatorPart::Mantissa, Kind::Int64, false, mantissa)
        }
        WrittenInstruction::Group { fields, .. } => check_fields(alloc, fields),
        WrittenInstruction::Sequence {
            optional,
            length_name,
            length,
            fields,
            ..
        } => {
            check_length(alloc, *optional, length_name, length)?;
            check_fields(alloc, fields)
        }
        WrittenInstruction::Reference(_) => Ok(()),
    }
}
