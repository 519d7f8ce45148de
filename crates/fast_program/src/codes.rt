//! The code of a node: the case of the decoder's loop that decodes it, as one number.

ghost use Rattle.fast_program.specs.device.Codes.{IsCodeFor};
ghost use Rattle.fast_value.specs.declared.kinds.Kind.{Kind};
ghost use Rattle.fast_value.specs.declared.kinds.Kind.TheVariants.{UInt32 as uint32, Int32 as int32, UInt64 as uint64, Int64 as int64};
ghost use Rattle.fast_value.specs.declared.kinds.Kind.TheVariants.{Decimal as decimal, Ascii as ascii, Unicode as unicode, Bytes as bytes};

use fast_tree::Operator;
use fast_value::Kind;

/// The case of a decoder's loop that decodes a node, as one number, so that one jump leads there. A field is named by its type, by whether
/// it is optional, and by its operator.
#[derive(Clone, Copy, Debug, PartialEq, Eq)]
pub enum Code {
    /// All nodes that have no code of their own.
    General,
    /// No node: the end of a body.
    End,
    /// `UInt32` without an operator.
    UInt32Plain,
    /// `UInt32` without an operator, optional.
    UInt32NullablePlain,
    /// `UInt32` under Default.
    UInt32Default,
    /// `UInt32` under Default, optional.
    UInt32NullableDefault,
    /// `UInt32` under Copy.
    UInt32Copy,
    /// `UInt32` under Copy, optional.
    UInt32NullableCopy,
    /// `UInt32` under Increment.
    UInt32Increment,
    /// `UInt32` under Increment, optional.
    UInt32NullableIncrement,
    /// `UInt32` under Delta.
    UInt32Delta,
    /// `UInt32` under Delta, optional.
    UInt32NullableDelta,
    /// `Int32` without an operator.
    Int32Plain,
    /// `Int32` without an operator, optional.
    Int32NullablePlain,
    /// `Int32` under Default.
    Int32Default,
    /// `Int32` under Default, optional.
    Int32NullableDefault,
    /// `Int32` under Copy.
    Int32Copy,
    /// `Int32` under Copy, optional.
    Int32NullableCopy,
    /// `Int32` under Increment.
    Int32Increment,
    /// `Int32` under Increment, optional.
    Int32NullableIncrement,
    /// `Int32` under Delta.
    Int32Delta,
    /// `Int32` under Delta, optional.
    Int32NullableDelta,
    /// `UInt64` without an operator.
    UInt64Plain,
    /// `UInt64` without an operator, optional.
    UInt64NullablePlain,
    /// `UInt64` under Default.
    UInt64Default,
    /// `UInt64` under Default, optional.
    UInt64NullableDefault,
    /// `UInt64` under Copy.
    UInt64Copy,
    /// `UInt64` under Copy, optional.
    UInt64NullableCopy,
    /// `UInt64` under Increment.
    UInt64Increment,
    /// `UInt64` under Increment, optional.
    UInt64NullableIncrement,
    /// `UInt64` under Delta.
    UInt64Delta,
    /// `UInt64` under Delta, optional.
    UInt64NullableDelta,
    /// `Int64` without an operator.
    Int64Plain,
    /// `Int64` without an operator, optional.
    Int64NullablePlain,
    /// `Int64` under Default.
    Int64Default,
    /// `Int64` under Default, optional.
    Int64NullableDefault,
    /// `Int64` under Copy.
    Int64Copy,
    /// `Int64` under Copy, optional.
    Int64NullableCopy,
    /// `Int64` under Increment.
    Int64Increment,
    /// `Int64` under Increment, optional.
    Int64NullableIncrement,
    /// `Int64` under Delta.
    Int64Delta,
    /// `Int64` under Delta, optional.
    Int64NullableDelta,
    /// A constant that is mandatory, of any type.
    Constant,
    /// `Decimal` without an operator.
    DecimalPlain,
    /// `Decimal` without an operator, optional.
    DecimalNullablePlain,
    /// `Decimal` under Copy.
    DecimalCopy,
    /// `Decimal` under Copy, optional.
    DecimalNullableCopy,
    /// `Decimal` under Delta.
    DecimalDelta,
    /// `Decimal` under Delta, optional.
    DecimalNullableDelta,
    /// `Ascii` without an operator.
    AsciiPlain,
    /// `Ascii` without an operator, optional.
    AsciiNullablePlain,
    /// `Ascii` under Default.
    AsciiDefault,
    /// `Ascii` under Default, optional.
    AsciiNullableDefault,
    /// `Ascii` under Copy.
    AsciiCopy,
    /// `Ascii` under Copy, optional.
    AsciiNullableCopy,
    /// `Ascii` under Tail.
    AsciiTail,
    /// `Ascii` under Tail, optional.
    AsciiNullableTail,
    /// `Ascii` under Delta.
    AsciiDelta,
    /// `Ascii` under Delta, optional.
    AsciiNullableDelta,
    /// `Unicode` without an operator.
    UnicodePlain,
    /// `Unicode` without an operator, optional.
    UnicodeNullablePlain,
    /// `Unicode` under Delta.
    UnicodeDelta,
    /// `Unicode` under Delta, optional.
    UnicodeNullableDelta,
    /// `Bytes` without an operator.
    BytesPlain,
    /// `Bytes` without an operator, optional.
    BytesNullablePlain,
    /// `Bytes` under Tail.
    BytesTail,
    /// `Bytes` under Tail, optional.
    BytesNullableTail,
    /// A decimal by parts.
    Parts,
    /// A decimal by parts: an exponent under Default, followed by a mantissa under Delta.
    PartsDefault,
    /// A decimal by parts: an optional exponent under Default, followed by a mantissa under Delta. The decimal is then optional.
    PartsNullableDefault,
    /// A decimal by parts: an exponent under Copy, followed by a mantissa under Delta.
    PartsCopy,
    /// A decimal by parts: an optional exponent under Copy, followed by a mantissa under Delta. The decimal is then optional.
    PartsNullableCopy,
    /// A mandatory group.
    Group,
    /// An optional group.
    OptionalGroup,
    /// A sequence whose length has no operator.
    Sequence,
    /// An optional sequence whose length has no operator.
    OptionalSequence,
}

impl Code {
    /// Returns the code of a field of type `UInt32`.
    #[tactic(auto, unfolding(crate::specs::device::Codes::IsCoded))]
    fn of_uint32(operator: Operator, optional: bool) -> Code
        ensures { IsCodeFor uint32 operator optional result }
    {
        match (operator, optional) {
            (Operator::None, false) => Code::UInt32Plain,
            (Operator::None, true) => Code::UInt32NullablePlain,
            (Operator::Default, false) => Code::UInt32Default,
            (Operator::Default, true) => Code::UInt32NullableDefault,
            (Operator::Copy, false) => Code::UInt32Copy,
            (Operator::Copy, true) => Code::UInt32NullableCopy,
            (Operator::Increment, false) => Code::UInt32Increment,
            (Operator::Increment, true) => Code::UInt32NullableIncrement,
            (Operator::Delta, false) => Code::UInt32Delta,
            (Operator::Delta, true) => Code::UInt32NullableDelta,
            (Operator::Constant, false) => Code::Constant,
            (Operator::Constant, true) => Code::General,
            (Operator::Tail, _) => Code::General,
        }
    }

    /// Returns the code of a field of type `Int32`.
    #[tactic(auto, unfolding(crate::specs::device::Codes::IsCoded))]
    fn of_int32(operator: Operator, optional: bool) -> Code
        ensures { IsCodeFor int32 operator optional result }
    {
        match (operator, optional) {
            (Operator::None, false) => Code::Int32Plain,
            (Operator::None, true) => Code::Int32NullablePlain,
            (Operator::Default, false) => Code::Int32Default,
            (Operator::Default, true) => Code::Int32NullableDefault,
            (Operator::Copy, false) => Code::Int32Copy,
            (Operator::Copy, true) => Code::Int32NullableCopy,
            (Operator::Increment, false) => Code::Int32Increment,
            (Operator::Increment, true) => Code::Int32NullableIncrement,
            (Operator::Delta, false) => Code::Int32Delta,
            (Operator::Delta, true) => Code::Int32NullableDelta,
            (Operator::Constant, false) => Code::Constant,
            (Operator::Constant, true) => Code::General,
            (Operator::Tail, _) => Code::General,
        }
    }

    /// Returns the code of a field of type `UInt64`.
    #[tactic(auto, unfolding(crate::specs::device::Codes::IsCoded))]
    fn of_uint64(operator: Operator, optional: bool) -> Code
        ensures { IsCodeFor uint64 operator optional result }
    {
        match (operator, optional) {
            (Operator::None, false) => Code::UInt64Plain,
            (Operator::None, true) => Code::UInt64NullablePlain,
            (Operator::Default, false) => Code::UInt64Default,
            (Operator::Default, true) => Code::UInt64NullableDefault,
            (Operator::Copy, false) => Code::UInt64Copy,
            (Operator::Copy, true) => Code::UInt64NullableCopy,
            (Operator::Increment, false) => Code::UInt64Increment,
            (Operator::Increment, true) => Code::UInt64NullableIncrement,
            (Operator::Delta, false) => Code::UInt64Delta,
            (Operator::Delta, true) => Code::UInt64NullableDelta,
            (Operator::Constant, false) => Code::Constant,
            (Operator::Constant, true) => Code::General,
            (Operator::Tail, _) => Code::General,
        }
    }

    /// Returns the code of a field of type `Int64`.
    #[tactic(auto, unfolding(crate::specs::device::Codes::IsCoded))]
    fn of_int64(operator: Operator, optional: bool) -> Code
        ensures { IsCodeFor int64 operator optional result }
    {
        match (operator, optional) {
            (Operator::None, false) => Code::Int64Plain,
            (Operator::None, true) => Code::Int64NullablePlain,
            (Operator::Default, false) => Code::Int64Default,
            (Operator::Default, true) => Code::Int64NullableDefault,
            (Operator::Copy, false) => Code::Int64Copy,
            (Operator::Copy, true) => Code::Int64NullableCopy,
            (Operator::Increment, false) => Code::Int64Increment,
            (Operator::Increment, true) => Code::Int64NullableIncrement,
            (Operator::Delta, false) => Code::Int64Delta,
            (Operator::Delta, true) => Code::Int64NullableDelta,
            (Operator::Constant, false) => Code::Constant,
            (Operator::Constant, true) => Code::General,
            (Operator::Tail, _) => Code::General,
        }
    }

    /// Returns the code of a field of type `Decimal`.
    #[tactic(auto, unfolding(crate::specs::device::Codes::IsCoded))]
    fn of_decimal(operator: Operator, optional: bool) -> Code
        ensures { IsCodeFor decimal operator optional result }
    {
        match (operator, optional) {
            (Operator::None, false) => Code::DecimalPlain,
            (Operator::None, true) => Code::DecimalNullablePlain,
            (Operator::Copy, false) => Code::DecimalCopy,
            (Operator::Copy, true) => Code::DecimalNullableCopy,
            (Operator::Delta, false) => Code::DecimalDelta,
            (Operator::Delta, true) => Code::DecimalNullableDelta,
            (Operator::Constant, false) => Code::Constant,
            (Operator::Constant, true) => Code::General,
            (Operator::Default | Operator::Increment | Operator::Tail, _) => Code::General,
        }
    }

    /// Returns the code of a field of type `Ascii`.
    #[tactic(auto, unfolding(crate::specs::device::Codes::IsCoded))]
    fn of_ascii(operator: Operator, optional: bool) -> Code
        ensures { IsCodeFor ascii operator optional result }
    {
        match (operator, optional) {
            (Operator::None, false) => Code::AsciiPlain,
            (Operator::None, true) => Code::AsciiNullablePlain,
            (Operator::Default, false) => Code::AsciiDefault,
            (Operator::Default, true) => Code::AsciiNullableDefault,
            (Operator::Copy, false) => Code::AsciiCopy,
            (Operator::Copy, true) => Code::AsciiNullableCopy,
            (Operator::Tail, false) => Code::AsciiTail,
            (Operator::Tail, true) => Code::AsciiNullableTail,
            (Operator::Delta, false) => Code::AsciiDelta,
            (Operator::Delta, true) => Code::AsciiNullableDelta,
            (Operator::Constant, false) => Code::Constant,
            (Operator::Constant, true) => Code::General,
            (Operator::Increment, _) => Code::General,
        }
    }

    /// Returns the code of a field of type `Unicode`.
    #[tactic(auto, unfolding(crate::specs::device::Codes::IsCoded))]
    fn of_unicode(operator: Operator, optional: bool) -> Code
        ensures { IsCodeFor unicode operator optional result }
    {
        match (operator, optional) {
            (Operator::None, false) => Code::UnicodePlain,
            (Operator::None, true) => Code::UnicodeNullablePlain,
            (Operator::Delta, false) => Code::UnicodeDelta,
            (Operator::Delta, true) => Code::UnicodeNullableDelta,
            (Operator::Constant, false) => Code::Constant,
            (Operator::Constant, true) => Code::General,
            (Operator::Default | Operator::Copy | Operator::Increment | Operator::Tail, _) =>
                Code::General,
        }
    }

    /// Returns the code of a field of type `Bytes`.
    #[tactic(auto, unfolding(crate::specs::device::Codes::IsCoded))]
    fn of_bytes(operator: Operator, optional: bool) -> Code
        ensures { IsCodeFor bytes operator optional result }
    {
        match (operator, optional) {
            (Operator::None, false) => Code::BytesPlain,
            (Operator::None, true) => Code::BytesNullablePlain,
            (Operator::Tail, false) => Code::BytesTail,
            (Operator::Tail, true) => Code::BytesNullableTail,
            (Operator::Constant, false) => Code::Constant,
            (Operator::Constant, true) => Code::General,
            (Operator::Default | Operator::Copy | Operator::Increment | Operator::Delta, _) =>
                Code::General,
        }
    }

    /// Returns the code of a field of the type under the operator, optional or mandatory.
    #[tactic(auto, unfolding(crate::specs::device::Codes::IsCoded))]
    pub(crate) fn of_field(kind: Kind, operator: Operator, optional: bool) -> Code
        ensures { IsCodeFor kind operator optional result }
    {
        match kind {
            Kind::UInt32 => Code::of_uint32(operator, optional),
            Kind::Int32 => Code::of_int32(operator, optional),
            Kind::UInt64 => Code::of_uint64(operator, optional),
            Kind::Int64 => Code::of_int64(operator, optional),
            Kind::Decimal => Code::of_decimal(operator, optional),
            Kind::Ascii => Code::of_ascii(operator, optional),
            Kind::Unicode => Code::of_unicode(operator, optional),
            Kind::Bytes => Code::of_bytes(operator, optional),
        }
    }
}
