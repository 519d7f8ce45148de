//! The command fastcat: shows FAST streams as lines, converts lines back to streams, and checks template files.
#![tactic(auto)]

mod choices;
mod codes;
mod explaining;
mod inputs;
mod json;
mod opening;
mod terminals;
mod usage;

use crate::choices::{Failure, View, choice_of};
use crate::explaining::{CLOSED_PIPE, ended, ended_explained};
use crate::inputs::{note_digits, note_lines};
use crate::opening::{Causes, channel_of, templates_of};
use crate::terminals::{Metered, colors, shown_bytes, when_of};
use crate::usage::{
    conflicting, explained, mistaken, not_a_time, not_text, print_codes, tell_waiting,
};
use fast_command::{RunFault, ShowEnd, run_check};
use fast_convert::run_convert;
use fast_explain::{Cause, Kept, Note, explain_cause, explain_stream, warn_of_twins};
use fast_explain_lines::{Digits, Stored};
use fast_template::Templates;
use fast_terminal::When;
use fast_text::{Source, Watched};
use fast_words::{BUILT_IN, Origin, Plan, Task, plan};
use std::alloc::{AllocError, Global};
use std::io::IsTerminal;
use std::process::ExitCode;
use std::{env, fs, io};

/// The arguments that a call without arguments stands for.
const NO_WORDS: [&str; 4] = ["fastcat", "show", "--hex", BUILT_IN];

/// The greatest number of reads of a run.
const MAX_READS: u64 = 1 << 40;

/// The greatest number of bytes of the lines that are converted.
const LINES_LIMIT: u64 = 67_108_864;

/// Shows a reader's stream on standard output, and notes an explanation of a fault.
fn explain_from<S: Source + Drop>(
    rt: &HostRuntime,
    templates: &Templates,
    plan: &Plan<'_>,
    view: &View,
    causes: &Causes,
    reader: S,
    note: &mut Note,
) -> Result<ShowEnd, RunFault> {
    let kept = Kept::new(rt.alloc(), reader, templates, plan.limits(), plan.hex);
    let mut reader = Digits::new(kept);
    let ending = view.show(rt.alloc(), templates, plan, &mut reader, causes.output(rt));
    match ending {
        Ok(ShowEnd::Faulted(fault)) => {
            *note = explain_stream(Some(fault.code), fault.place, reader.inner());
        }
        Ok(ShowEnd::Truncated(consumed)) => *note = explain_stream(None, consumed, reader.inner()),
        _ => {}
    }
    note_digits(plan, &ending, &reader, note);
    ending
}

/// Converts a reader's lines, and writes the stream to standard output in large pieces.
fn convert_from<S: Source>(
    rt: &HostRuntime,
    templates: &Templates,
    plan: &Plan<'_>,
    causes: &Causes,
    reader: &mut S,
) -> Result<ShowEnd, RunFault> {
    run_convert(
        rt.alloc(),
        templates,
        plan.limits(),
        plan.hex,
        reader,
        &mut causes.output(rt),
    )?;
    Ok(ShowEnd::Good)
}

/// Converts a reader's lines, and notes an explanation of a line or a message that is refused.
fn explain_lines_from<S: Source + Drop>(
    rt: &HostRuntime,
    templates: &Templates,
    plan: &Plan<'_>,
    causes: &Causes,
    reader: S,
    note: &mut Note,
) -> Result<ShowEnd, RunFault> {
    let mut reader = Stored::new(rt.alloc(), reader);
    let ending = convert_from(rt, templates, plan, causes, &mut reader);
    note_lines(rt, templates, plan, &ending, &reader, note);
    ending
}

/// Processes a reader's input as a plan asks for.
fn read_from<S: Source + Drop>(
    rt: &HostRuntime,
    templates: &Templates,
    plan: &Plan<'_>,
    view: &View,
    causes: &Causes,
    mut reader: S,
    note: &mut Note,
) -> Result<ShowEnd, RunFault> {
    match plan.task {
        Task::Convert if plan.explain => {
            explain_lines_from(rt, templates, plan, causes, reader, note)
        }
        Task::Convert => convert_from(rt, templates, plan, causes, &mut reader),
        _ if plan.explain => explain_from(rt, templates, plan, view, causes, reader, note),
        _ => view.show(rt.alloc(), templates, plan, &mut reader, causes.output(rt)),
    }
}

/// Returns why an input cannot be read if no read of it has failed: it exceeds a limit.
fn limit_cause(task: Task) -> Cause {
    match task {
        Task::Convert => Cause::TooLong(LINES_LIMIT),
        _ => Cause::TooManyReads(MAX_READS),
    }
}

/// Processes the input of a plan, and notes an explanation if that fails.
fn read_input(
    rt: &HostRuntime,
    templates: &Templates,
    plan: &Plan<'_>,
    view: &View,
    causes: &Causes,
    note: &mut Note,
) -> Result<ShowEnd, RunFault> {
    let origin = plan.input_origin();
    let ending = match origin {
        Origin::File(path) => match fs::open(rt, path) {
            Ok(file) => {
                let bytes = shown_bytes(rt, &file);
                let reader = Metered::new(rt, causes.input(file), bytes);
                read_from(rt, templates, plan, view, causes, reader, note)
            }
            Err(error) => Err(causes.unopened(&error)),
        },
        Origin::BuiltIn | Origin::StandardInput => {
            let reader = causes.input(rt.stdin());
            read_from(rt, templates, plan, view, causes, reader, note)
        }
    };
    if let Err(RunFault::Read) = &ending {
        let cause = causes.of_reads.get().unwrap_or(limit_cause(plan.task));
        *note = explain_cause(channel_of(origin), cause);
    }
    ending
}

/// Prints the size of a set on standard output. With a list of its nodes, it warns on standard error of fields that are hard to tell apart.
fn check_set(
    rt: &HostRuntime,
    templates: &Templates,
    plan: &Plan<'_>,
    causes: &Causes,
) -> Result<ShowEnd, RunFault> {
    run_check(templates, plan.limits(), plan.list, &mut causes.writer(rt))?;
    if !plan.list {
        return Ok(ShowEnd::Good);
    }
    match warn_of_twins(rt.alloc(), templates, &mut Watched::new(rt.stderr())) {
        Ok(()) => Ok(ShowEnd::Good),
        Err(_) => Err(RunFault::Memory),
    }
}

/// Executes a plan, and notes an explanation if it fails.
fn carry_out<'a>(
    rt: &HostRuntime,
    plan: &Plan<'a>,
    when: When,
    causes: &Causes,
    note: &mut Note,
) -> Result<ShowEnd, Failure<'a>> {
    let templates = templates_of(rt, plan, causes, note)?;
    if plan.task == Task::Check {
        return Ok(check_set(rt, &templates, plan, causes)?);
    }
    let view = View {
        choice: choice_of(rt.alloc(), &templates, plan)?,
        is_colored: colors(rt, when),
    };
    Ok(read_input(rt, &templates, plan, &view, causes, note)?)
}

/// Executes a plan, and explains a failure if that is asked for. If the pipe of standard output has no reader left, it ends quietly.
fn run_plan(rt: &HostRuntime, plan: &Plan<'_>, when: When) -> ExitCode {
    let causes = Causes::new();
    let mut note = Note::new();
    let ending = carry_out(rt, plan, when, &causes, &mut note);
    if causes.has_no_reader() {
        return ExitCode::from(CLOSED_PIPE);
    }
    let ending = match ending {
        Ok(end) => Ok(end),
        Err(Failure::Run(fault)) => Err(fault),
        Err(Failure::Unknown(unknown)) => return mistaken(rt, &unknown),
    };
    if plan.explain {
        return ended_explained(rt, &ending, &causes, &mut note);
    }
    ended(rt, &ending)
}

/// Executes a plan whose options go together.
fn run_sound(rt: &HostRuntime, plan: Plan<'_>) -> ExitCode {
    match when_of(&plan) {
        Ok(when) => run_plan(
            rt,
            &Plan {
                explain: plan.explains(rt.stderr().is_terminal()),
                ..plan
            },
            when,
        ),
        Err(word) => not_a_time(rt, word),
    }
}

/// Runs the command on its arguments, of which the first is the program's name.
fn run(rt: &HostRuntime, words: &[&str]) -> ExitCode {
    match plan(rt.alloc(), words) {
        Ok(plan) if plan.task == Task::Codes => print_codes(rt),
        Ok(plan) => match plan.conflict().or(plan.form_conflict()) {
            Some(conflict) => conflicting(rt, conflict),
            None => run_sound(rt, plan),
        },
        Err(error) => explained(rt, &error),
    }
}

/// Borrows the arguments as strings.
fn texts_of<'a>(alloc: Global, words: &'a [String]) -> Result<Vec<&'a str>, AllocError> {
    let mut texts = Vec::new(alloc);
    for word in words {
        texts.push(word.as_str())?;
    }
    Ok(texts)
}

fn main(rt: HostRuntime) -> ExitCode {
    let alloc = rt.alloc();
    let words: Vec<String> = match env::args(&rt) {
        Ok(args) => match args.collect(alloc) {
            Ok(words) => words,
            Err(_) => return ended(&rt, &Err(RunFault::Memory)),
        },
        Err(error) if error.kind() == io::ErrorKind::InvalidData => return not_text(&rt),
        Err(_) => return ended(&rt, &Err(RunFault::Memory)),
    };
    if words.len() < 2 {
        tell_waiting(&rt);
        return run(&rt, &NO_WORDS);
    }
    match texts_of(rt.alloc(), &words) {
        Ok(texts) => run(&rt, &texts),
        Err(_) => ended(&rt, &Err(RunFault::Memory)),
    }
}
