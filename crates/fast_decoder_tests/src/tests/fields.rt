//! Single fields, read from the bytes that they begin with: what is decided after each of them, and in which order.

ghost use Rattle.std.specs.Prelude.{◌≡◌, ◌≤◌, IfOk};
ghost use Rattle.fast_template.specs.meaning.Flat.{tree_of, nodes_of};
ghost use Rattle.fast_dict.specs.meaning.Slots.{slots_terms};
ghost use Rattle.fast_machine.specs.device.Serving.{ServesNodes};

use super::rows::{Columns, bytes_of, stream_name_of};
use super::script::Script;
use super::{LENIENT, expect, set_of};
use fast_dict::Slots;
use fast_fields::reading::{Reading, read_field};
use fast_machine::layout::{has_long_initial, make_slots};
use fast_template::{Operator, Shape, Templates};
use fast_units::scratch::Scratch;
use fast_value::Limits;
use std::alloc::Global;
use std::process::Abort;
use std::test::Fail;

/// The most bytes that a string may have here.
const ROOM: usize = 16;

/// The fields, by their number.
const FIELDS: &str = r#"
[[template]]
name = "fields"
id = 1
fields = [
    {kind="uInt32", name="0", op="copy", key="k"},
    {kind="ascii", name="1"},
    {kind="ascii", name="2", optional=true},
    {kind="bytes", name="3", optional=true},
    {kind="unicode", name="4"},
    {kind="decimal", name="5"},
    {kind="decimal", name="6", op="delta"},
    {kind="decimal", name="7", op="delta", key="k"},
    {kind="decimal", name="8", optional=true, op="copy", key="e"},
    {kind="decimal", name="9", op="delta", key="e"},
    {kind="ascii", name="10", op="delta"},
    {kind="bytes", name="11", op="delta", value="414243"},
    {kind="ascii", name="12", op="tail", value="ABC"},
    {kind="int64", name="13", op="delta"},
]
"#;

/// Lines of a name | the field that is read before, with its bytes, if any | the field | its bytes | the results for none of the bytes, for
/// the first, for two of them and so on. `+n`: nothing more is decided before a stop bit, or n more bytes; `#n`: before n more bytes;
/// `=b:n`: a field of n bytes, whose value begins at offset b, if it is among them; `D2@10`: this fault, after ten bytes.
const READ: &str = "\
an integer | | 0 | 01 82 | +10 +9 =0:2
an integer of ten bytes without a stop bit | | 0 | 00*10 | +10 +9 +8 +7 +6 +5 +4 +3 +2 +1 D2@10
an integer over the greatest one | | 0 | 1F 7F 7F 7F FF | +10 +9 +8 +7 +6 D2@5
a delta over the greatest one | 13 00 7F 7F 7F 7F 7F 7F 7F 7F FF | 13 | 81 | +10 D2@1
a text | | 1 | 41 42 C3 | +1 +16 +15 =0:3
a text as long as there is room | | 1 | 41*15 C1 | +1 +16 +15 +14 +13 +12 +11 +10 +9 +8 +7 +6 +5 +4 +3 +2 =0:16
a text that is too long | | 1 | 41*17 | +1 +16 +15 +14 +13 +12 +11 +10 +9 +8 +7 +6 +5 +4 +3 +2 +1 L1@17
an empty text | | 1 | 80 | +1 =0:1
a zero in front of a text | | 1 | 00 C1 | +1 R9@1 R9@1
an empty text, optional | | 2 | 00 80 | +1 +1 =0:2
a zero in front of a character, optional | | 2 | 00 C1 | +1 +1 R9@2
a vector | | 3 | 83 41 FF | +10 #2 #1 =1:3
no vector | | 3 | 80 | +10 =1:1
an empty vector | | 3 | 81 | +10 =1:1
a vector that is too long | | 3 | 92 41 | +10 L1@1 L1@1
a string that is no UTF-8 | | 4 | 82 41 FF | +10 #2 #1 R2@3
a decimal | | 5 | 82 01 83 | +10 +10 +9 =0:3
a decimal whose exponent is too great | | 5 | 00 C0 81 | +10 +9 R1@2 R1@2
a decimal whose exponent becomes too great | 6 BF 81 | 6 | 81 81 | +10 R1@1 R1@1
the value before is an integer | 0 81 | 7 | 81 81 | +10 D4@1 D4@1
there is no value before | 8 80 | 9 | 81 81 | +10 D6@1 D6@1
more is taken away than there is | | 10 | 81 C1 | +10 D7@1 D7@1
a part in front of what is kept | 10 80 41 C2 | 10 | FE 43 C4 | +10 +1 +15 =1:3
a part of a vector | | 11 | 81 82 44 45 | +10 +10 #2 #1 =2:4
a part of no bytes | | 11 | 81 80 | +10 +10 =1:2
a part that leaves no room | | 11 | 80 8E | +10 +10 L1@2
a tail | | 12 | 44 C5 | +1 +16 =0:2
";

/// The previous values of a set's fields, and the buffers of their reader.
#[derive(Drop)]
struct Values {
    slots: Slots,
    scratch: Scratch,
}

/// Makes the buffers of a reader, without previous values.
fn values_of(alloc: Global, set: &Templates) -> Result<Values, Fail>
    ensures serves { IfOk result (λ v. ServesNodes (tree_of set.now).entries (slots_terms v.slots) (nodes_of set.now)) }
    ensures entries { IfOk result (λ v. (slots_terms v.slots).entries ≡ (tree_of set.now).entries) }
    ensures limit { IfOk result (λ v. (slots_terms v.slots).max_text ≡ 16) }
    ensures room { IfOk result (λ v. 16 ≤ v.scratch.capacity) }
{
    if has_long_initial(set, ROOM) {
        return Err(Fail::new("an initial value is too long"));
    }
    let slots = make_slots(alloc, set, ROOM)?;
    let scratch = Scratch::new(alloc, ROOM)?;
    Ok(Values { slots, scratch })
}

/// Reads the field of a node.
fn read_node(set: &Templates, values: &mut Values, node: u32, bytes: &[u8]) -> Option<Reading>
    requires serves { ServesNodes (tree_of set.now).entries (slots_terms values.old.slots) (nodes_of set.now) }
    requires entries { (slots_terms values.old.slots).entries ≡ (tree_of set.now).entries }
    requires limit { (slots_terms values.old.slots).max_text ≡ 16 }
    requires room { 16 ≤ values.old.scratch.capacity }
    ensures terms { slots_terms values.new.slots ≡ slots_terms values.old.slots }
    ensures room { 16 ≤ values.new.scratch.capacity }
{
    if node >= set.nodes() {
        return None;
    }
    let Shape::Field(field) = &set.node(node).shape else {
        return None;
    };
    if field.operator == Operator::Constant {
        return None;
    }
    let limits = Limits {
        max_text: ROOM,
        ..LENIENT
    };
    Some(read_field(
        &mut values.slots,
        &mut values.scratch,
        field,
        bytes,
        &limits,
    ))
}

/// Writes the results for none of the bytes, for the first, for two of them and so on.
fn write_readings(
    set: &Templates,
    values: &mut Values,
    node: u32,
    bytes: &[u8],
    script: &mut Script<'_>,
)
    requires serves { ServesNodes (tree_of set.now).entries (slots_terms values.old.slots) (nodes_of set.now) }
    requires entries { (slots_terms values.old.slots).entries ≡ (tree_of set.now).entries }
    requires limit { (slots_terms values.old.slots).max_text ≡ 16 }
    requires room { 16 ≤ values.old.scratch.capacity }
{
    write_reading(script, read_node(set, values, node, &[]));
    for count in 0..bytes.len() {
        script.write(b" ");
        write_reading(script, read_node(set, values, node, &bytes[..=count]));
    }
}

/// Writes a result as the table has it.
fn write_reading(script: &mut Script<'_>, reading: Option<Reading>) {
    match reading {
        Some(Reading::Whole(taken)) => {
            script.write_number(b"=", taken.from);
            script.write_number(b":", taken.bytes);
        }
        Some(Reading::Wrong(code, bytes)) => {
            script.write(stream_name_of(code));
            script.write_number(b"@", bytes);
        }
        Some(Reading::More(missing)) if missing.stops => script.write_number(b"+", missing.bytes),
        Some(Reading::More(missing)) => script.write_number(b"#", missing.bytes),
        None => script.write(b"no field"),
    }
}

/// Checks a line.
fn expect_read(rt: &impl Abort, alloc: Global, set: &Templates, line: &str) -> Result<(), Fail> {
    let row = Columns::of(line);
    let (first, before) = row.limits.split_once(' ').unwrap_or(("0", ""));
    let (first, before) = (first.parse()?, bytes_of(alloc, before)?);
    let (node, bytes) = (row.bytes.parse()?, bytes_of(alloc, row.events)?);
    let mut values = values_of(alloc, set)?;
    let _ = read_node(set, &mut values, first, &before);
    let mut script = Script::of(row.end);
    write_readings(set, &mut values, node, &bytes, &mut script);
    expect(rt, script.is_played(), row.name, bytes.len());
    Ok(())
}

#[test]
fn fields_byte_by_byte(rt: HostRuntime) -> Result<(), Fail> {
    let set = set_of(rt.alloc(), FIELDS)?;
    for line in READ.lines() {
        expect_read(&rt, rt.alloc(), &set, line)?;
    }
    Ok(())
}
