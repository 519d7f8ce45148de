//! Forms: the type and the operator of a node's field as one number, by which the encoder selects its code, and what the absence of a node
//! writes.

ghost use Rattle.std.specs.Prelude.{◌≡◌, ◌<◌, Some, length, slice_get, IfOk};
ghost use Rattle.fast_value.specs.declared.kinds.Kind.TheVariants.{UInt32, Int32, UInt64, Int64, Decimal, Ascii, Unicode, Bytes};
ghost use Rattle.fast_tree.specs.declared.instructions.Node.{Node};
ghost use Rattle.fast_tree.specs.meaning.Numbers.{AreBelow, numbers_of};
ghost use Rattle.fast_template.specs.meaning.Flat.{nodes_of, templates_of};
ghost use Rattle.fast_spelling.specs.device.Forms.{form_by, parts_by, absence_by, step_by, step_of, body_steps, AreBodies, AreRoots};

use fast_template::{FieldInstruction, Operator, Shape, Templates};
use fast_value::Kind;
use std::alloc::{AllocError, Global};

/// The type and the operator of a field, if the encoder has dedicated code for the pair.
#[derive(Clone, Copy, Debug, PartialEq, Eq)]
pub enum Form {
    /// A field of `uInt32` without operator.
    PlainUInt32,
    /// A field of `int32` without operator.
    PlainInt32,
    /// A field of `uInt64` without operator.
    PlainUInt64,
    /// A field of `int64` without operator.
    PlainInt64,
    /// A field of `uInt32` under constant.
    ConstantUInt32,
    /// A field of `int32` under constant.
    ConstantInt32,
    /// A field of `uInt64` under constant.
    ConstantUInt64,
    /// A field of `int64` under constant.
    ConstantInt64,
    /// A field of `uInt32` under default.
    DefaultUInt32,
    /// A field of `int32` under default.
    DefaultInt32,
    /// A field of `uInt64` under default.
    DefaultUInt64,
    /// A field of `int64` under default.
    DefaultInt64,
    /// A field of `uInt32` under copy.
    CopyUInt32,
    /// A field of `int32` under copy.
    CopyInt32,
    /// A field of `uInt64` under copy.
    CopyUInt64,
    /// A field of `int64` under copy.
    CopyInt64,
    /// A field of `uInt32` under increment.
    IncrementUInt32,
    /// A field of `int32` under increment.
    IncrementInt32,
    /// A field of `uInt64` under increment.
    IncrementUInt64,
    /// A field of `int64` under increment.
    IncrementInt64,
    /// A field of `uInt32` under delta.
    DeltaUInt32,
    /// A field of `int32` under delta.
    DeltaInt32,
    /// A field of `uInt64` under delta.
    DeltaUInt64,
    /// A field of `int64` under delta.
    DeltaInt64,
    /// A field of ASCII strings without operator.
    PlainAscii,
    /// A field of ASCII strings under constant.
    ConstantAscii,
    /// A field of ASCII strings under default.
    DefaultAscii,
    /// A field of ASCII strings under copy.
    CopyAscii,
    /// A field of ASCII strings under tail.
    TailAscii,
    /// A field of ASCII strings under delta.
    DeltaAscii,
    /// A field of Unicode strings without operator.
    PlainUnicode,
    /// A field of Unicode strings under delta.
    DeltaUnicode,
    /// A field of byte vectors without operator.
    PlainBytes,
    /// A field of byte vectors under tail.
    TailBytes,
    /// A field of decimals without operator.
    PlainDecimal,
    /// A field of decimals under copy.
    CopyDecimal,
    /// A field of decimals under delta.
    DeltaDecimal,
    /// A decimal by parts: an exponent under default, and a mantissa under delta.
    DefaultParts,
    /// A decimal by parts: an exponent under copy, and a mantissa under delta.
    CopyParts,
    /// All else: groups and sequences, and the less frequent fields and decimals by parts.
    Other,
}

impl Form {
    /// Returns the form of a field.
    fn of_field(field: &FieldInstruction) -> Form
        ensures { result ≡ form_by field.now.kind field.now.operator }
    {
        match field.kind {
            Kind::UInt32 => Form::of_uint32(field.operator),
            Kind::Int32 => Form::of_int32(field.operator),
            Kind::UInt64 => Form::of_uint64(field.operator),
            Kind::Int64 => Form::of_int64(field.operator),
            Kind::Decimal => Form::of_decimal(field.operator),
            Kind::Ascii => Form::of_ascii(field.operator),
            Kind::Unicode => Form::of_unicode(field.operator),
            Kind::Bytes => Form::of_bytes(field.operator),
        }
    }

    /// Returns the form of a decimal by parts.
    fn of_parts(exponent: &FieldInstruction, mantissa: &FieldInstruction) -> Form
        ensures { result ≡ parts_by exponent.now.operator mantissa.now.operator }
    {
        match (exponent.operator, mantissa.operator) {
            (Operator::Default, Operator::Delta) => Form::DefaultParts,
            (Operator::Copy, Operator::Delta) => Form::CopyParts,
            _ => Form::Other,
        }
    }

    /// Returns the form of a field of `uInt32`.
    fn of_uint32(operator: Operator) -> Form
        ensures { result ≡ form_by UInt32 operator }
    {
        match operator {
            Operator::None => Form::PlainUInt32,
            Operator::Constant => Form::ConstantUInt32,
            Operator::Default => Form::DefaultUInt32,
            Operator::Copy => Form::CopyUInt32,
            Operator::Increment => Form::IncrementUInt32,
            Operator::Delta => Form::DeltaUInt32,
            Operator::Tail => Form::Other,
        }
    }

    /// Returns the form of a field of `int32`.
    fn of_int32(operator: Operator) -> Form
        ensures { result ≡ form_by Int32 operator }
    {
        match operator {
            Operator::None => Form::PlainInt32,
            Operator::Constant => Form::ConstantInt32,
            Operator::Default => Form::DefaultInt32,
            Operator::Copy => Form::CopyInt32,
            Operator::Increment => Form::IncrementInt32,
            Operator::Delta => Form::DeltaInt32,
            Operator::Tail => Form::Other,
        }
    }

    /// Returns the form of a field of `uInt64`.
    fn of_uint64(operator: Operator) -> Form
        ensures { result ≡ form_by UInt64 operator }
    {
        match operator {
            Operator::None => Form::PlainUInt64,
            Operator::Constant => Form::ConstantUInt64,
            Operator::Default => Form::DefaultUInt64,
            Operator::Copy => Form::CopyUInt64,
            Operator::Increment => Form::IncrementUInt64,
            Operator::Delta => Form::DeltaUInt64,
            Operator::Tail => Form::Other,
        }
    }

    /// Returns the form of a field of `int64`.
    fn of_int64(operator: Operator) -> Form
        ensures { result ≡ form_by Int64 operator }
    {
        match operator {
            Operator::None => Form::PlainInt64,
            Operator::Constant => Form::ConstantInt64,
            Operator::Default => Form::DefaultInt64,
            Operator::Copy => Form::CopyInt64,
            Operator::Increment => Form::IncrementInt64,
            Operator::Delta => Form::DeltaInt64,
            Operator::Tail => Form::Other,
        }
    }

    /// Returns the form of a field of decimals.
    fn of_decimal(operator: Operator) -> Form
        ensures { result ≡ form_by Decimal operator }
    {
        match operator {
            Operator::None => Form::PlainDecimal,
            Operator::Copy => Form::CopyDecimal,
            Operator::Delta => Form::DeltaDecimal,
            Operator::Constant | Operator::Default | Operator::Increment | Operator::Tail =>
                Form::Other,
        }
    }

    /// Returns the form of a field of ASCII strings.
    fn of_ascii(operator: Operator) -> Form
        ensures { result ≡ form_by Ascii operator }
    {
        match operator {
            Operator::None => Form::PlainAscii,
            Operator::Constant => Form::ConstantAscii,
            Operator::Default => Form::DefaultAscii,
            Operator::Copy => Form::CopyAscii,
            Operator::Tail => Form::TailAscii,
            Operator::Delta => Form::DeltaAscii,
            Operator::Increment => Form::Other,
        }
    }

    /// Returns the form of a field of Unicode strings.
    fn of_unicode(operator: Operator) -> Form
        ensures { result ≡ form_by Unicode operator }
    {
        match operator {
            Operator::None => Form::PlainUnicode,
            Operator::Delta => Form::DeltaUnicode,
            Operator::Constant
            | Operator::Default
            | Operator::Copy
            | Operator::Increment
            | Operator::Tail => Form::Other,
        }
    }

    /// Returns the form of a field of byte vectors.
    fn of_bytes(operator: Operator) -> Form
        ensures { result ≡ form_by Bytes operator }
    {
        match operator {
            Operator::None => Form::PlainBytes,
            Operator::Tail => Form::TailBytes,
            Operator::Constant
            | Operator::Default
            | Operator::Copy
            | Operator::Increment
            | Operator::Delta => Form::Other,
        }
    }
}

/// The content of the stream for the absence of a node's field, group or sequence. It is decided by the head of the node: the field itself,
/// the exponent of a decimal by parts, or the length of a sequence.
#[derive(Clone, Copy, Debug, PartialEq, Eq)]
pub enum Absence {
    /// None: it may not be absent.
    Refused,
    /// NULL without a presence bit, as without operator and under delta.
    Null,
    /// A clear presence bit: a group, or a field under default without initial value.
    Clear,
    /// A clear presence bit if the entry is empty, and NULL if it holds a value, as under copy, increment and tail. If it is undefined, the
    /// rule chooses.
    ByEntry,
    /// Any, by the rule that chooses what is sent.
    Chosen,
}

impl Absence {
    /// Returns the absence of a field.
    fn of_field(field: &FieldInstruction) -> Absence
        ensures { result ≡ absence_by field.now.optional field.now.operator field.now.initial }
    {
        if !field.optional {
            return Absence::Refused;
        }
        match field.operator {
            Operator::None | Operator::Delta => Absence::Null,
            Operator::Copy | Operator::Increment | Operator::Tail => Absence::ByEntry,
            Operator::Constant => Absence::Chosen,
            Operator::Default => match field.initial {
                None => Absence::Clear,
                Some(_) => Absence::Chosen,
            },
        }
    }
}

/// A step: the form of a node, what its absence writes, and the properties of its head that the code of its form reads. It has 8 bytes, a
/// node has about 140.
#[derive(Clone, Copy, Debug)]
pub struct Step {
    /// The form.
    pub form: Form,
    /// Its absence.
    pub absence: Absence,
    /// True if it may be absent: the values of a field are nullable then.
    pub nullable: bool,
    /// The entry of its head in the dictionary, or 0 if there is none.
    pub entry: u32,
}

impl Step {
    /// Returns the step of a node that has a head.
    fn of_head(form: Form, head: &FieldInstruction) -> Step
        ensures { result ≡ step_by form head.now }
    {
        Step {
            form,
            absence: Absence::of_field(head),
            nullable: head.optional,
            entry: head.entry.unwrap_or(0),
        }
    }

    /// Returns the step of a node.
    fn of(shape: &Shape) -> Step
        ensures { result ≡ step_of shape.now }
    {
        match shape {
            Shape::Field(field) => Step::of_head(Form::of_field(field), field),
            Shape::Decimal { exponent, mantissa } => {
                Step::of_head(Form::of_parts(exponent, mantissa), exponent)
            }
            Shape::Sequence { length, .. } => Step::of_head(Form::Other, length),
            Shape::Group { optional, .. } => Step {
                form: Form::Other,
                absence: if *optional {
                    Absence::Clear
                } else {
                    Absence::Refused
                },
                nullable: *optional,
                entry: 0,
            },
        }
    }
}

/// A step of a body: the number of a node, and its step.
#[derive(Clone, Copy, Debug)]
pub struct BodyStep {
    /// The number of the node.
    pub node: u32,
    /// Its step.
    pub step: Step,
}

/// Returns the steps of the nodes of a body.
fn steps_along(
    alloc: Global,
    templates: &Templates,
    body: &[u32],
) -> Result<Vec<BodyStep>, AllocError>
    requires { AreBelow (length (nodes_of templates.now)) body.now }
    ensures { IfOk result (λ v. v.items ≡ body_steps (nodes_of templates.now) body.now) }
{
    let mut steps = Vec::with_capacity(alloc, body.len())?;
    for i in 0..body.len() {
        let node = body[i];
        steps.push(BodyStep {
            node,
            step: Step::of(&templates.node(node).shape),
        })?;
    }
    Ok(steps)
}

/// Returns the steps of the body of a node; none if it has no body.
fn node_steps(alloc: Global, templates: &Templates, node: u32) -> Result<Vec<BodyStep>, AllocError>
    requires { node < length (nodes_of templates.now) }
    ensures { IfOk result (λ v. (x : Node) → slice_get (nodes_of templates.now) node ≡ Some x
        → v.items ≡ body_steps (nodes_of templates.now) (numbers_of x.shape)) }
{
    match &templates.node(node).shape {
        Shape::Field(_) | Shape::Decimal { .. } => Ok(Vec::new(alloc)),
        Shape::Group { body, .. } => steps_along(alloc, templates, body),
        Shape::Sequence { body, .. } => steps_along(alloc, templates, body),
    }
}

/// Returns the steps of the bodies of all nodes, by node number.
///
/// # Errors
///
/// An allocation failed.
pub fn bodies_of(alloc: Global, templates: &Templates) -> Result<Vec<Vec<BodyStep>>, AllocError>
    ensures { IfOk result (λ v. AreBodies (nodes_of templates.now) v.items) }
{
    let mut bodies = Vec::with_capacity(alloc, templates.nodes() as usize)?;
    for node in 0..templates.nodes() {
        bodies.push(node_steps(alloc, templates, node)?)?;
    }
    Ok(bodies)
}

/// Returns the steps of the bodies of all templates, by template number.
///
/// # Errors
///
/// An allocation failed.
pub fn roots_of(alloc: Global, templates: &Templates) -> Result<Vec<Vec<BodyStep>>, AllocError>
    ensures { IfOk result (λ v. AreRoots (nodes_of templates.now) (templates_of templates.now) v.items) }
{
    let mut roots = Vec::with_capacity(alloc, templates.count() as usize)?;
    for template in 0..templates.count() {
        roots.push(steps_along(alloc, templates, &templates.template(template).body)?)?;
    }
    Ok(roots)
}
