//! The uses of operators, and the templates in whose scope they are.

ghost use Rattle.std.specs.Prelude.{◌≡◌, option_map, string_bytes};
ghost use Rattle.fast_tree.specs.meaning.AsWritten.{scalar_use, exponent_use, mantissa_use, length_use};
ghost use Rattle.fast_notation.specs.device.EntryKeys.{use_data};
ghost use Rattle.fast_notation.specs.device.WrittenSets.{operator_data};

use crate::uses::OperatorPart;
use crate::written::WrittenOperator;
use fast_value::Kind;

/// The scope of a template: its number, and the dictionary of the operators that name none.
#[derive(Clone, Copy)]
pub(crate) struct TextScope<'a> {
    pub(crate) template: u32,
    pub(crate) dictionary: &'a str,
}

/// A use of an operator, with the key that it has if none is written.
#[derive(Clone, Copy)]
pub(crate) struct OperatorUse<'a> {
    pub(crate) kind: Kind,
    pub(crate) optional: bool,
    pub(crate) name: &'a str,
    pub(crate) part: OperatorPart,
    pub(crate) written: &'a WrittenOperator,
}

/// Returns the use of an operator by a field.
pub(crate) fn scalar_use<'a>(
    name: &'a str,
    optional: bool,
    kind: Kind,
    written: &'a WrittenOperator,
) -> OperatorUse<'a>
    ensures use_of { use_data result ≡ scalar_use name.now optional kind (operator_data written.now) }
    ensures exponent { result.part ≡ OperatorPart.Exponent → result.kind ≡ Kind.Int32 }
{
    OperatorUse {
        kind,
        optional,
        name,
        part: OperatorPart::Whole,
        written,
    }
}

/// Returns the use of an operator by the exponent of a decimal.
pub(crate) fn exponent_use<'a>(
    name: &'a str,
    optional: bool,
    written: &'a WrittenOperator,
) -> OperatorUse<'a>
    ensures use_of { use_data result ≡ exponent_use name.now optional (operator_data written.now) }
    ensures exponent { result.part ≡ OperatorPart.Exponent → result.kind ≡ Kind.Int32 }
{
    OperatorUse {
        kind: Kind::Int32,
        optional,
        name,
        part: OperatorPart::Exponent,
        written,
    }
}

/// Returns the use of an operator by the mantissa of a decimal.
pub(crate) fn mantissa_use<'a>(name: &'a str, written: &'a WrittenOperator) -> OperatorUse<'a>
    ensures use_of { use_data result ≡ mantissa_use name.now (operator_data written.now) }
    ensures exponent { result.part ≡ OperatorPart.Exponent → result.kind ≡ Kind.Int32 }
{
    OperatorUse {
        kind: Kind::Int64,
        optional: false,
        name,
        part: OperatorPart::Mantissa,
        written,
    }
}

/// Returns the use of an operator by the length of a sequence, which is a field if it has a name of its own.
pub(crate) fn length_use<'a>(
    name: &'a str,
    optional: bool,
    own: &'a Option<String>,
    written: &'a WrittenOperator,
) -> OperatorUse<'a>
    ensures use_of { use_data result ≡ length_use name.now optional (option_map string_bytes own.now)
        (operator_data written.now) }
    ensures exponent { result.part ≡ OperatorPart.Exponent → result.kind ≡ Kind.Int32 }
{
    match own {
        Some(own) => scalar_use(own.as_str(), optional, Kind::UInt32, written),
        None => OperatorUse {
            kind: Kind::UInt32,
            optional,
            name,
            part: OperatorPart::Length,
            written,
        },
    }
}
