//! Strings of every type under every operator.

use super::expect_rows;
use std::test::Fail;

/// A template for each string type, mandatory and optional. Its fields are: no operator, constant, default, copy, delta, tail.
const OPERATORS: &str = r#"
[[template]]
name = "ascii"
id = 1
dictionary = "template"
fields = [
    {kind="ascii", name="n"},
    {kind="ascii", name="c", op="constant", value="AB"},
    {kind="ascii", name="d", op="default", value="CD"},
    {kind="ascii", name="k", op="copy"},
    {kind="ascii", name="p", op="delta"},
    {kind="ascii", name="t", op="tail"},
]
[[template]]
name = "ascii_optional"
id = 2
dictionary = "template"
fields = [
    {kind="ascii", name="n", optional=true},
    {kind="ascii", name="c", optional=true, op="constant", value="AB"},
    {kind="ascii", name="d", optional=true, op="default", value="CD"},
    {kind="ascii", name="k", optional=true, op="copy"},
    {kind="ascii", name="p", optional=true, op="delta"},
    {kind="ascii", name="t", optional=true, op="tail"},
]
[[template]]
name = "unicode"
id = 3
dictionary = "template"
fields = [
    {kind="unicode", name="n"},
    {kind="unicode", name="c", op="constant", value="AB"},
    {kind="unicode", name="d", op="default", value="CD"},
    {kind="unicode", name="k", op="copy"},
    {kind="unicode", name="p", op="delta"},
    {kind="unicode", name="t", op="tail"},
]
[[template]]
name = "unicode_optional"
id = 4
dictionary = "template"
fields = [
    {kind="unicode", name="n", optional=true},
    {kind="unicode", name="c", optional=true, op="constant", value="AB"},
    {kind="unicode", name="d", optional=true, op="default", value="CD"},
    {kind="unicode", name="k", optional=true, op="copy"},
    {kind="unicode", name="p", optional=true, op="delta"},
    {kind="unicode", name="t", optional=true, op="tail"},
]
[[template]]
name = "bytes"
id = 5
dictionary = "template"
fields = [
    {kind="bytes", name="n"},
    {kind="bytes", name="c", op="constant", value="01FF"},
    {kind="bytes", name="d", op="default", value="C0"},
    {kind="bytes", name="k", op="copy"},
    {kind="bytes", name="p", op="delta"},
    {kind="bytes", name="t", op="tail"},
]
[[template]]
name = "bytes_optional"
id = 6
dictionary = "template"
fields = [
    {kind="bytes", name="n", optional=true},
    {kind="bytes", name="c", optional=true, op="constant", value="01FF"},
    {kind="bytes", name="d", optional=true, op="default", value="C0"},
    {kind="bytes", name="k", optional=true, op="copy"},
    {kind="bytes", name="p", optional=true, op="delta"},
    {kind="bytes", name="t", optional=true, op="tail"},
]
"#;

const ASCII: &str = "\
sent, not sent, cut at the front, cut to nothing | strict \
    | F8 81 58 D9 45 C6 47 C8 80 49 CA 4B 4C CD 80 80 81 DA 88 C1 FE D1 CE 88 C1 82 80 80 \
    | m0 a0='XY' a1='AB' a2='EF' a3='GH' a4='IJ' a5='KLM' /m m0 a0='' a1='AB' a2='CD' a3='GH' a4='IZ' a5='KLM' /m m0 \
    a0='A' a1='AB' a2='CD' a3='GH' a4='QZ' a5='KLN' /m m0 a0='A' a1='AB' a2='CD' a3='GH' a4='' a5='KLN' /m | between
sent, absent, empty, not sent, put in front | strict \
    | FC 82 58 D9 80 47 C8 81 49 CA 4B 4C CD 80 00 80 80 8C 80 80 82 DA 80 84 80 80 57 D8 80 80 FF D6 \
    | m1 a6='XY' a7='AB' a9='GH' a10='IJ' a11='KLM' /m m1 a6='' a8='CD' a9='GH' a11='KLM' /m m1 a8='CD' a10='IZ' /m \
    m1 a8='CD' a11='WX' /m m1 a8='CD' a10='VIZ' a11='WX' /m | between
";

const UNICODE: &str = "\
sent, not sent, cut at the front, cut to nothing | strict \
    | F8 83 82 C3 A9 82 45 46 82 47 48 80 82 49 4A 83 4B 4C 4D 80 80 81 81 5A 88 81 41 FE 81 51 81 4E 88 81 41 82 80 \
    80 \
    | m2 t12='é' t13='AB' t14='EF' t15='GH' t16='IJ' t17='KLM' /m m2 t12='' t13='AB' t14='CD' t15='GH' t16='IZ' \
    t17='KLM' /m m2 t12='A' t13='AB' t14='CD' t15='GH' t16='QZ' t17='KLN' /m m2 t12='A' t13='AB' t14='CD' t15='GH' \
    t16='' t17='KLN' /m | between
sent, absent, empty, not sent, put in front | strict \
    | FC 84 83 C3 A9 80 83 47 48 81 82 49 4A 84 4B 4C 4D 80 81 80 8C 80 80 82 81 5A 80 84 80 80 83 57 58 80 80 FF 81 \
    56 \
    | m3 t18='é' t19='AB' t21='GH' t22='IJ' t23='KLM' /m m3 t18='' t20='CD' t21='GH' t23='KLM' /m m3 t20='CD' \
    t22='IZ' /m m3 t20='CD' t23='WX' /m m3 t20='CD' t22='VIZ' t23='WX' /m | between
";

const BYTES: &str = "\
sent, not sent, cut at the front, cut to nothing | strict \
    | F8 85 83 FF 00 80 82 45 46 82 47 48 80 82 49 4A 83 4B 4C 4D 80 80 81 81 5A 88 81 41 FE 81 51 81 4E 88 81 41 82 \
    80 80 \
    | m4 b24=FF0080 b25=01FF b26=4546 b27=4748 b28=494A b29=4B4C4D /m m4 b24= b25=01FF b26=C0 b27=4748 b28=495A \
    b29=4B4C4D /m m4 b24=41 b25=01FF b26=C0 b27=4748 b28=515A b29=4B4C4E /m m4 b24=41 b25=01FF b26=C0 b27=4748 b28= \
    b29=4B4C4E /m | between
sent, absent, empty, not sent, put in front | strict \
    | FC 86 84 FF 00 80 80 83 47 48 81 82 49 4A 84 4B 4C 4D 80 81 80 8C 80 80 82 81 5A 80 84 80 80 83 57 58 80 80 FF \
    81 56 \
    | m5 b30=FF0080 b31=01FF b33=4748 b34=494A b35=4B4C4D /m m5 b30= b32=C0 b33=4748 b35=4B4C4D /m m5 b32=C0 \
    b34=495A /m m5 b32=C0 b35=5758 /m m5 b32=C0 b34=56495A b35=5758 /m | between
";

#[test]
fn rows_of_operators(rt: HostRuntime) -> Result<(), Fail> {
    expect_rows(&rt, rt.alloc(), OPERATORS, &[ASCII, UNICODE, BYTES])
}

/// Strings under one key: of several operators, and of several types.
const SHARED: &str = r#"
[[template]]
name = "copy"
id = 1
fields = [{kind="ascii", name="a", op="copy", optional=true, key="k"}]
[[template]]
name = "delta"
id = 2
fields = [{kind="ascii", name="a", op="delta", key="k"}]
[[template]]
name = "tail"
id = 3
fields = [{kind="ascii", name="a", op="tail", key="k"}]
[[template]]
name = "vector_delta"
id = 4
fields = [{kind="bytes", name="b", op="delta", key="k", optional=true}]
[[template]]
name = "vector_tail"
id = 5
fields = [{kind="unicode", name="u", op="tail", key="k", optional=true}]
[[template]]
name = "unicode_tail"
id = 6
fields = [{kind="unicode", name="w", op="tail"}]
[[template]]
name = "raw_delta"
id = 7
fields = [{kind="bytes", name="r", op="delta"}]
[[template]]
name = "initial"
id = 8
fields = [{kind="ascii", name="i", op="delta", value="WXYZ"}, {kind="ascii", name="j", op="tail", value="WXYZ"}]
[[template]]
name = "optional_initial"
id = 9
fields = [{kind="ascii", name="o", op="tail", optional=true, value="WXYZ"}]
[[template]]
name = "reset"
id = 10
reset = true
fields = [{kind="ascii", name="a", op="tail", key="k"}]
"#;

const THE_ROOM_BEHIND_A_BASE: &str = "\
the base alone fills the room | lenient text=16 | E0 81 41*15 C1 C0 82 80 80 \
    | m0 a0='AAAAAAAAAAAAAAAA' /m m1 a1='AAAAAAAAAAAAAAAA' /m | between
a character without room | lenient text=16 | E0 81 41*15 C1 C0 82 80 C2 | m0 a0='AAAAAAAAAAAAAAAA' /m m1 | L1@22
a character without room, of which more follow | lenient text=16 | E0 81 41*15 C1 C0 82 80 42 \
    | m0 a0='AAAAAAAAAAAAAAAA' /m m1 | L1@22
a leading zero comes before the room | lenient text=16 | E0 81 41*15 C1 C0 82 80 00 | m0 a0='AAAAAAAAAAAAAAAA' /m m1 \
    | R9@22
room for one | lenient text=16 | E0 81 41*15 C1 C0 82 81 C2 \
    | m0 a0='AAAAAAAAAAAAAAAA' /m m1 a1='AAAAAAAAAAAAAAAB' /m | between
room for one, and two come | lenient text=16 | E0 81 41*15 C1 C0 82 81 42 C2 | m0 a0='AAAAAAAAAAAAAAAA' /m m1 | L1@23
a vector that fits behind its base | lenient text=16 | C0 87 80 83 09 08 07 80 80 8D 01*13 \
    | m6 b6=090807 /m m6 b6=09080701010101010101010101010101 /m | between
a size without room behind the base | lenient text=16 | C0 87 80 83 09 08 07 80 80 8E | m6 b6=090807 /m m6 | L1@10
";

const BASES: &str = "\
an initial value is the base of a delta and of a tail | strict | C0 88 82 C1 80 FF C2 \
    | m7 a7='WXA' a8='WXYZ' /m m7 a7='BWXA' a8='WXYZ' /m | between
a tail replaces the end of an initial value | strict | E0 88 80 80 C1 | m7 a7='WXYZ' a8='WXYA' /m | between
a tail of characters that do not join to UTF-8 | lenient | E0 86 82 C3 A9 A0 81 41 | m5 t5='é' /m m5 | R2@8
a tail that does join | lenient | E0 86 82 C3 A9 A0 81 A8 | m5 t5='é' /m m5 t5='è' /m | between
a delta of an empty previous value | lenient | E0 81 C1 A0 80 C0 82 80 | m0 a0='A' /m m0 /m m1 | D6@8
a tail of an empty previous value | lenient | E0 81 C1 A0 80 E0 83 C2 | m0 a0='A' /m m0 /m m2 a2='B' /m | between
no tail, and an empty previous value | lenient | E0 81 C1 A0 80 C0 83 | m0 a0='A' /m m0 /m m2 | D6@7
no tail, and no previous value | lenient | C0 83 | m2 | D5@2
no tail, and a previous value of another kind | lenient | E0 81 C1 C0 85 | m0 a0='A' /m m4 | D4@5
a tail of another kind, at its last byte | lenient | E0 81 C1 E0 85 83 42 43 | m0 a0='A' /m m4 | D4@8
a null tail of another kind empties the entry | lenient | E0 81 C1 E0 85 80 C0 85 | m0 a0='A' /m m4 /m m4 /m | between
a delta of another kind, at its subtraction length | lenient | E0 81 C1 C0 84 81 | m0 a0='A' /m m3 | D4@6
a null delta of another kind leaves the entry | lenient | E0 81 C1 C0 84 80 C0 81 | m0 a0='A' /m m3 /m m0 a0='A' /m \
    | between
a copy that is sent takes the place of another kind | lenient | E0 85 83 42 43 E0 81 C1 C0 81 \
    | m4 t4='BC' /m m0 a0='A' /m m0 a0='A' /m | between
";

const FIRST_TAILS: &str = "\
a first tail is kept | lenient | E0 83 41 C2 80 A0 C3 | m2 a2='AB' /m m2 a2='AB' /m m2 a2='AC' /m | between
a first tail of more than a block | lenient | E0 83 41*19 C2 A0 43 C4 \
    | m2 a2='AAAAAAAAAAAAAAAAAAAB' /m m2 a2='AAAAAAAAAAAAAAAAAACD' /m | between
a first tail that fills the room | lenient text=16 | E0 83 41*15 C2 80 \
    | m2 a2='AAAAAAAAAAAAAAAB' /m m2 a2='AAAAAAAAAAAAAAAB' /m | between
a first tail past the room | lenient text=16 | E0 83 41*16 C2 | m2 | L1@19
a first tail of no character | lenient | E0 83 80 A0 C1 | m2 a2='' /m m2 a2='A' /m | between
a first tail behind a reset | lenient | E0 83 41 42 C3 E0 8A C4 E0 8A 45 C6 E0 83 C7 \
    | m2 a2='ABC' /m m9 a10='D' /m m9 a10='EF' /m m2 a2='EG' /m | between
a first tail behind NULL | lenient | E0 81 41 42 C3 A0 80 E0 83 C4 80 \
    | m0 a0='ABC' /m m0 /m m2 a2='D' /m m2 a2='D' /m | between
a first tail, and one behind NULL, of an initial value | lenient | E0 89 C1 A0 80 A0 42 C3 \
    | m8 a9='WXYA' /m m8 /m m8 a9='WXBC' /m | between
first tails of more than an initial value | lenient | E0 89 41 42 43 44 C5 A0 80 A0 46 47 48 49 CA \
    | m8 a9='ABCDE' /m m8 /m m8 a9='FGHIJ' /m | between
a first tail of an initial value behind a reset | lenient | E0 89 C1 E0 8A C2 E0 89 C3 \
    | m8 a9='WXYA' /m m9 a10='B' /m m8 a9='WXYC' /m | between
a tail, and a previous value of another kind | lenient | E0 85 83 42 43 E0 83 C2 | m4 t4='BC' /m m2 | D4@8
";

#[test]
fn rows_of_shared(rt: HostRuntime) -> Result<(), Fail> {
    expect_rows(
        &rt,
        rt.alloc(),
        SHARED,
        &[THE_ROOM_BEHIND_A_BASE, BASES, FIRST_TAILS],
    )
}
