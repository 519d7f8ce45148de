//! Tests of the arguments of fastcat and their plans.

use super::super::expect;
use clap::Error;
use clap::error::ErrorKind;
use fast_words::{BUILT_IN, Conflict, Origin, Plan, Task, plan};
use std::alloc::Global;

const DEFAULTS: Plan<'static> = Plan {
    task: Task::Show,
    templates: "t.toml",
    input: None,
    hex: false,
    strict: false,
    list: false,
    bytes: false,
    json: false,
    from: 0,
    limit: None,
    only: None,
    color: None,
    explain: false,
    no_explain: false,
    max_text: 1024,
    max_elements: 1000,
    max_total: 1000,
};

const CHECK: Plan<'static> = Plan {
    task: Task::Check,
    ..DEFAULTS
};

/// Arguments, and their plans.
const PLANS: &[(&str, Plan<'static>)] = &[
    ("fastcat show t.toml", DEFAULTS),
    ("fastcat check t.toml", CHECK),
    (
        "fastcat show t.toml stream --strict",
        Plan {
            input: Some("stream"),
            strict: true,
            ..DEFAULTS
        },
    ),
    (
        "fastcat show --strict --max-text 16 a b",
        Plan {
            templates: "a",
            input: Some("b"),
            strict: true,
            max_text: 16,
            ..DEFAULTS
        },
    ),
    (
        "fastcat check --list t.toml",
        Plan {
            list: true,
            ..CHECK
        },
    ),
    (
        "fastcat check --explain t.toml",
        Plan {
            explain: true,
            ..CHECK
        },
    ),
    (
        "fastcat convert --no-explain t.toml",
        Plan {
            task: Task::Convert,
            no_explain: true,
            ..DEFAULTS
        },
    ),
    (
        "fastcat show t.toml --bytes --limit 0",
        Plan {
            bytes: true,
            limit: Some(0),
            ..DEFAULTS
        },
    ),
    (
        "fastcat show t.toml --json --from=7",
        Plan {
            json: true,
            from: 7,
            ..DEFAULTS
        },
    ),
    (
        "fastcat show t.toml --only Trade,31 --color never",
        Plan {
            only: Some("Trade,31"),
            color: Some("never"),
            ..DEFAULTS
        },
    ),
    (
        "fastcat codes",
        Plan {
            task: Task::Codes,
            templates: BUILT_IN,
            ..DEFAULTS
        },
    ),
    (
        "fastcat show --hex @vectors",
        Plan {
            templates: BUILT_IN,
            hex: true,
            ..DEFAULTS
        },
    ),
    (
        "fastcat convert t.toml lines --hex",
        Plan {
            task: Task::Convert,
            input: Some("lines"),
            hex: true,
            ..DEFAULTS
        },
    ),
    (
        "fastcat check --max-text=16 --max-elements 4294967295 t.toml --max-total=0",
        Plan {
            max_text: 16,
            max_elements: 4294967295,
            max_total: 0,
            ..CHECK
        },
    ),
];

/// Splits a line into its arguments, of which there are at most eight.
fn words_of<'r, 't>(line: &'t str, room: &'r mut [&'t str; 8]) -> &'r [&'t str] {
    let mut count = 0_usize;
    for word in line.split(' ') {
        if let Some(cell) = room.get_mut(count) {
            *cell = word;
            count = count.saturating_add(1);
        }
    }
    room.get(..count).unwrap_or(&[])
}

/// Returns the plan of the arguments, or why they are refused.
fn asked<'w>(alloc: Global, words: &'w [&'w str]) -> Result<Plan<'w>, Error> {
    plan(alloc, words)
}

/// Returns whether the arguments of a line have this plan.
fn is_plan(alloc: Global, line: &str, wanted: &Plan<'_>) -> bool {
    let mut room = [""; 8];
    match asked(alloc, words_of(line, &mut room)) {
        Ok(found) => found == *wanted,
        Err(_) => false,
    }
}

#[test]
fn words_and_their_plans(rt: HostRuntime) {
    for (line, wanted) in PLANS {
        expect(&rt, is_plan(rt.alloc(), line, wanted), line, line.len());
    }
}

/// Arguments that are refused, with the error and the status.
#[rattlefmt::skip]
const REFUSALS: &[(&str, ErrorKind, i32)] = &[
    ("fastcat", ErrorKind::MissingSubcommand, 2),
    ("fastcat frob", ErrorKind::InvalidSubcommand, 2),
    ("fastcat check", ErrorKind::MissingRequiredArgument, 2),
    ("fastcat check t.toml --strict", ErrorKind::UnknownArgument, 2),
    ("fastcat check t.toml stream", ErrorKind::UnknownArgument, 2),
    ("fastcat show t.toml --list", ErrorKind::UnknownArgument, 2),
    ("fastcat show t.toml --max-total=4294967296", ErrorKind::ValueValidation, 2),
    ("fastcat convert t.toml --strict", ErrorKind::UnknownArgument, 2),
    ("fastcat show t.toml --limit x", ErrorKind::ValueValidation, 2),
    ("fastcat convert t.toml --json", ErrorKind::UnknownArgument, 2),
    ("fastcat codes t.toml", ErrorKind::UnknownArgument, 2),
    ("fastcat show --help", ErrorKind::DisplayHelp, 0),
    ("fastcat --version", ErrorKind::DisplayVersion, 0),
    ("fastcat show --version", ErrorKind::UnknownArgument, 2),
];

/// Returns whether the arguments of a line are refused with this error and this status.
fn is_refused(alloc: Global, line: &str, kind: ErrorKind, status: i32) -> bool {
    let mut room = [""; 8];
    match asked(alloc, words_of(line, &mut room)) {
        Ok(_) => false,
        Err(error) => error.kind() == kind && error.exit_code() == status,
    }
}

#[test]
fn words_that_are_refused(rt: HostRuntime) {
    for (line, kind, status) in REFUSALS {
        let is_refused = is_refused(rt.alloc(), line, *kind, *status);
        expect(&rt, is_refused, line, line.len());
    }
}

/// Arguments; where T and F are read; the conflict; whether a failure is explained, without a terminal and on one.
type Decision = (
    &'static str,
    Origin<'static>,
    Origin<'static>,
    Option<Conflict>,
    bool,
    bool,
);

/// Arguments, and what follows from them.
#[rattlefmt::skip]
const DECISIONS: &[Decision] = &[
    ("fastcat check t.toml", Origin::File("t.toml"), Origin::StandardInput, None, false, true),
    ("fastcat check @vectors --explain", Origin::BuiltIn, Origin::StandardInput, None, true, true),
    ("fastcat check - --no-explain", Origin::StandardInput, Origin::StandardInput, None, false, false),
    ("fastcat show t.toml s.fast", Origin::File("t.toml"), Origin::File("s.fast"), None, false, true),
    ("fastcat show - s.fast", Origin::StandardInput, Origin::File("s.fast"), None, false, true),
    ("fastcat show @vectors -", Origin::BuiltIn, Origin::StandardInput, None, false, true),
    ("fastcat show ./- @vectors", Origin::File("./-"), Origin::File("@vectors"), None, false, true),
    ("fastcat show -", Origin::StandardInput, Origin::StandardInput, Some(Conflict::StandardInput), false, true),
    ("fastcat convert - -", Origin::StandardInput, Origin::StandardInput, Some(Conflict::StandardInput), false, true),
    ("fastcat show t --explain --no-explain", Origin::File("t"), Origin::StandardInput, Some(Conflict::Explanation), true, true),
];

/// Returns whether the arguments of a line have these consequences.
fn is_decided(alloc: Global, row: &Decision) -> bool {
    let (line, templates, input, conflict, silent, terminal) = *row;
    let mut room = [""; 8];
    match asked(alloc, words_of(line, &mut room)) {
        Ok(plan) => plan.templates_origin() == templates
            && plan.input_origin() == input
            && plan.conflict() == conflict
            && plan.explains(false) == silent
            && plan.explains(true) == terminal,
        Err(_) => false,
    }
}

#[test]
fn words_and_what_follows_from_them(rt: HostRuntime) {
    for row in DECISIONS {
        expect(&rt, is_decided(rt.alloc(), row), row.0, row.0.len());
    }
}
