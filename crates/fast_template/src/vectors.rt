//! The TOML source of the built-in template set.

/// The TOML source of the built-in set: 19 templates, which have fields of each type and each operator. The streams and messages of the
/// tests are encoded with it.
pub const VECTORS: &str = r#"
[[template]]
name = "T1"
id = 1
fields = [{kind="uInt32", name="x"}]
[[template]]
name = "T2"
id = 2
fields = [{kind="sequence", name="s", fields=[{kind="uInt32", name="c", op="constant", value="7"}]}]
[[template]]
name = "T3"
id = 3
fields = [{kind="ascii", name="t", op="tail"}]
[[template]]
name = "T4"
id = 4
fields = [{kind="ascii", name="d", op="delta"}]
[[template]]
name = "T5"
id = 5
fields = [{kind="uInt32", name="n", op="increment"}]
[[template]]
name = "T6"
id = 6
fields = [{kind="uInt32", name="x", optional=true, op="copy"}]
[[template]]
name = "T7"
id = 7
fields = [{kind="decimal", name="p", optional=true, exponent={op="copy"}, mantissa={op="copy"}}, {kind="uInt32", name="y", op="copy"}]
[[template]]
name = "T8"
id = 8
fields = [{kind="unicode", name="u"}]
[[template]]
name = "T9"
id = 9
reset = true
[[template]]
name = "T10"
id = 10
fields = [{kind="uInt32", name="z", op="copy"}]
[[template]]
name = "T11"
id = 11
fields = [{kind="ascii", name="w", op="copy", key="x"}]
[[template]]
name = "T12"
id = 12
fields = [{kind="int64", name="i"}]
[[template]]
name = "T13"
id = 13
fields = [{kind="uInt32", name="o", optional=true}]
[[template]]
name = "T14"
id = 14
fields = [{kind="int64", name="q", optional=true}]
[[template]]
name = "T15"
id = 15
fields = [{kind="ref", name="T1"}, {kind="group", name="g", optional=true, fields=[{kind="bytes", name="b"}]}, {kind="sequence", name="legs", optional=true, fields=[{kind="ascii", name="sym", op="copy"}, {kind="int32", name="px", op="delta"}]}]
[[template]]
name = "T16"
id = 16
fields = [{kind="int32", name="v", optional=true, op="delta"}]
[[template]]
name = "T17"
id = 17
fields = [{kind="unicode", name="e", op="delta"}]
[[template]]
name = "T18"
id = 18
fields = [{kind="decimal", name="a"}, {kind="decimal", name="b", optional=true}]
[[template]]
name = "T19"
id = 19
fields = [{kind="ascii", name="r", optional=true}]
"#;
