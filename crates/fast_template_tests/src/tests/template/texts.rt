//! The forms of a template file, and the faults of each pass.

use super::{Faults, expect_faults, finds, set_of};
use StaticCode::{C1, C2, D8, S1, S2, S3, S4, S5};
use fast_template::StaticCode;
use std::alloc::{AllocError, Global};
use std::process::Abort;
use std::test::Fail;

const ALL_FORMS: &str =
    "[[template]]\nname = 'A'\nid = 4294967295\nreset = true\ndictionary = 'd'\nfields = [
        {kind='ref', name='B'}, {kind='uInt32', name='x', optional=true, op='increment', value='0', key='k', dictionary='template'},
        {kind='decimal', name='p', exponent={op='copy', value='-63'}, mantissa={}},
        {kind='group', name='g', fields=[{kind='bytes', name='b', op='tail', value='0aF0'}]},
        {kind='sequence', name='s', length={name='n', op='delta'}, fields=[]}, {kind='sequence', name='t'}]
        [[template]]\nname = 'B'\n";

#[test]
fn all_forms_are_read(rt: HostRuntime) -> Result<(), Fail> {
    let set = set_of(rt.alloc(), ALL_FORMS)?;
    let ids = [(4294967295, Some(0)), (0, None)];
    let are_found = finds(&set, 2, &ids, &[("B", Some(1))]);
    assert!(rt; are_found);
    Ok(())
}

/// Files that are no set.
const WHOLE: Faults = &[(
    Some((S1, None)),
    &[
        "",
        "template = []",
        "template = 1",
        "template = [1]",
        "[[template]]\nname='A'\n[other]",
        "= ",
        "[[template]]\nname='A'\nid=9223372036854775808",
    ],
)];

/// Fields of the second template that are no instructions.
const SECOND_FIELDS: Faults = &[(
    Some((S1, Some(1))),
    &[
        "{kind='uInt32'}",
        "{name='x'}",
        "{kind='uint32', name='x'}",
        "{kind='uInt32', name='a b'}",
        "{kind='uInt32', name=''}",
        "{kind='uInt32', name='x', value='1'}",
        "{kind='uInt32', name='x', op='constant', value='1', key='k'}",
        "{kind='uInt32', name='x', op='copy', dictionary='type'}",
        "{kind='uInt32', name='x', op='copy', value=1}",
        "{kind='uInt32', name='x', optional='yes'}",
        "{kind='uInt32', name='x', exponent={}}",
        "{kind='decimal', name='x', op='copy', exponent={}}",
        "{kind='group', name='x', fields=[1]}",
        "{kind='sequence', name='x', length={kind='uInt32'}}",
        "{kind='ref', name='x', optional=true}",
        "1",
    ],
)];

/// Keys that no template has, or with values that it cannot have.
const KEYS: Faults = &[(
    Some((S1, Some(0))),
    &[
        "id = -1",
        "id = 4294967296",
        "id = '1'",
        "dictionary = 'type'",
        "kind = 'x'",
        "reset = 1",
    ],
)];

/// Fields of the first template: operators and initial values.
#[rattlefmt::skip]
const FIELDS: Faults = &[
    (
        Some((S2, Some(0))),
        &[
            "{kind='ascii', name='x', op='increment'}",
            "{kind='decimal', name='x', op='increment'}",
            "{kind='uInt32', name='x', op='tail'}",
            "{kind='decimal', name='x', exponent={op='tail', value='a'}}",
        ],
    ),
    (
        Some((S3, Some(0))),
        &[
            "{kind='uInt32', name='x', op='copy', value='4294967296'}",
            "{kind='decimal', name='x', op='copy', value='1.5'}",
            "{kind='decimal', name='x', exponent={op='copy', value='64'}}",
            "{kind='bytes', name='x', op='copy', value='abc'}",
        ],
    ),
    (
        Some((S4, Some(0))),
        &[
            "{kind='uInt32', name='x', op='constant'}",
            "{kind='sequence', name='x', length={op='constant'}}",
            "{kind='group', name='g', fields=[{kind='uInt32', name='x', op='constant'}]}",
        ],
    ),
    (
        Some((S5, Some(0))),
        &[
            "{kind='uInt32', name='x', op='default'}",
            "{kind='decimal', name='x', optional=true, mantissa={op='default'}}",
            "{kind='sequence', name='x', length={op='default'}}",
        ],
    ),
    (
        Some((D8, Some(0))),
        &[
            "{kind='ref', name='B'}",
            "{kind='group', name='g', fields=[{kind='ref', name='a'}]}",
            "{kind='sequence', name='g', fields=[{kind='ref', name='AA'}]}",
        ],
    ),
    (None, &["{kind='uInt32', name='x', op='default', optional=true}"]),
];

/// Fields of the first template that have two codes: the first in the order of the instructions is reported. Within one instruction an
/// operator comes before an initial value; an exponent before a mantissa, and a length before its sequence's fields, for any order of keys.
const TWO_CODES: Faults = &[
    (
        Some((S2, Some(0))),
        &[
            // and S3
            "{kind='uInt32', name='x', op='tail', value='a'}",
            "{kind='uInt32', name='x', value='a', op='tail'}",
            "{kind='decimal', name='x', exponent={value='a', op='tail'}}",
            // and S4, S5 and S3 of what comes later
            "{kind='ascii', name='x', op='increment'}, {kind='uInt32', name='y', op='constant'}",
            "{kind='decimal', name='x', mantissa={op='default'}, exponent={op='tail'}}",
            "{kind='sequence', name='s', fields=[{kind='uInt32', name='x', op='constant'}], length={op='tail'}}",
        ],
    ),
    (
        Some((S3, Some(0))),
        &[
            // and S4, S5, S2 of what comes later
            "{kind='uInt32', name='x', op='constant', value='a'}, {kind='uInt32', name='y', op='constant'}",
            "{kind='decimal', name='x', mantissa={op='constant'}, exponent={op='copy', value='64'}}",
            "{kind='decimal', name='x', mantissa={op='tail'}, exponent={op='copy', value='a'}}",
            "{kind='sequence', name='s', fields=[{kind='uInt32', name='x', op='tail'}], length={op='copy', value='-1'}}",
            "{kind='group', name='g', fields=[{kind='uInt32', name='x', op='copy', value='a'}]}, {kind='ascii', name='y', op='increment'}",
        ],
    ),
    (
        Some((S4, Some(0))),
        &[
            // and S2, S5, S3 of what comes later
            "{kind='uInt32', name='x', op='constant'}, {kind='ascii', name='y', op='increment'}",
            "{kind='decimal', name='x', mantissa={op='default'}, exponent={op='constant'}}",
            "{kind='sequence', name='s', fields=[{kind='uInt32', name='x', op='copy', value='a'}], length={op='constant'}}",
        ],
    ),
    (
        Some((S5, Some(0))),
        &[
            // and S2, S4, S3 of what comes later
            "{kind='uInt32', name='x', op='default'}, {kind='ascii', name='y', op='increment'}",
            "{kind='decimal', name='x', mantissa={op='copy', value='a'}, exponent={op='default'}}",
            "{kind='sequence', name='s', fields=[{kind='uInt32', name='x', op='constant'}], length={op='default'}}",
        ],
    ),
];

/// The faults of files after a template with faults of three passes: earlier passes come first.
#[rattlefmt::skip]
const REST: Faults = &[
    (Some((C1, Some(1))), &["[[template]]\nname='A'\nid=1"]),
    (Some((C2, Some(1))), &["[[template]]\nname='B'\nid=1"]),
    (Some((S4, Some(0))), &["[[template]]\nname='B'"]),
    (Some((S1, Some(1))), &["[[template]]\nname='B'\nid='1'", "[[template]]\nname='B'\nfields=1\n[[template]]\nname='A'"]),
];

const SECOND: (&str, &str) = (
    "[[template]]\nname='A'\n[[template]]\nname='B'\nfields=[",
    "]",
);

const FIRST: (&str, &str) = ("[[template]]\nname='A'\nfields=[", "]");

const BEHIND: (&str, &str) = (
    "[[template]]\nname='A'\nid=1\nfields=[{kind='ref', name='X'}, {kind='uInt32', name='x', op='constant'}]\n",
    "",
);

/// Checks the faults of files and templates. A table of all that surrounds a file, and of its faults, would be slow to prove.
fn expect_templates(rt: &impl Abort, alloc: Global) -> Result<(), AllocError> {
    expect_faults(rt, alloc, ("", ""), WHOLE)?;
    expect_faults(rt, alloc, SECOND, SECOND_FIELDS)?;
    expect_faults(rt, alloc, ("[[template]]\nname='A'\n", ""), KEYS)
}

/// Checks the faults of fields and later templates.
fn expect_fields(rt: &impl Abort, alloc: Global) -> Result<(), AllocError> {
    expect_faults(rt, alloc, FIRST, FIELDS)?;
    expect_faults(rt, alloc, FIRST, TWO_CODES)?;
    expect_faults(rt, alloc, BEHIND, REST)
}

#[test]
fn texts_have_the_faults_of_the_passes(rt: HostRuntime) -> Result<(), Fail> {
    expect_templates(&rt, rt.alloc())?;
    expect_fields(&rt, rt.alloc())?;
    Ok(())
}
