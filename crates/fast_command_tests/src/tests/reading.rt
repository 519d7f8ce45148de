//! Tests of files of lines, with the invalid line and its fault.

mod cuts;
mod wrong_lines;

use fast_reading::{TextFault, read_lines};
use fast_template::Templates;
use std::alloc::Global;
use std::process::Abort;

/// A template with an instruction of every type, most of them optional, and one without instructions.
const SET: &str = r#"
[[template]]
name = "Order"
id = 1
fields = [
    {kind="uInt32", name="size"},
    {kind="int64", name="shift", optional=true},
    {kind="decimal", name="price", optional=true},
    {kind="group", name="party", optional=true, fields=[{kind="bytes", name="key"}, {kind="ascii", name="desk", optional=true}]},
    {kind="sequence", name="legs", fields=[{kind="unicode", name="venue"}, {kind="uInt64", name="lots", optional=true}]},
]
[[template]]
name = "Beat"
"#;

/// A message with all of its instructions, one with only the mandatory ones, and one of the template without instructions.
const ALL: &str = "message Order
field 0 size u 5
field 1 shift i -3
field 2 price d 15e-1
group 3 party
field 4 key b 01ff
field 5 desk a \"A\\\"B\\x0a\"
end group
sequence 6 legs 2
element
field 7 venue s \"é\"
field 8 lots u 18446744073709551615
end element
element
field 7 venue s \"\"
end element
end sequence
end message
message Order
field 0 size u 0
sequence 6 legs 0
end sequence
end message
message Beat
end message
";

/// Returns the number of messages of a file of lines. It has no contract, so that a call is cheap to prove.
fn count_of(alloc: Global, set: &Templates, text: &[u8]) -> Result<usize, TextFault> {
    let messages = read_lines(alloc, set, text)?;
    Ok(messages.len())
}

/// Reads the set.
fn set_of(rt: &impl Abort, alloc: Global) -> Templates {
    super::set_of(rt, alloc, SET)
}
