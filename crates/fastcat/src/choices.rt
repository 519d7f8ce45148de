//! The choice of what a call shows of a stream: which messages, and in which form.

use crate::MAX_READS;
use crate::json::show_json;
use fast_command::{RunFault, ShowEnd, show_all};
use fast_dump::dump_all;
use fast_run::{Lines, show_over};
use fast_select::{Choice, ChoiceError, Selected, UnknownTemplate, templates_named};
use fast_template::Templates;
use fast_terminal::Painted;
use fast_text::{Fronts, Source, Target};
use fast_words::Plan;
use std::alloc::Global;

/// The failure of a call.
#[derive(Drop)]
pub enum Failure<'a> {
    /// A run failed.
    Run(RunFault),
    /// A word of `--only` names no template.
    Unknown(UnknownTemplate<'a>),
}

impl<'a> From<RunFault> for Failure<'a> {
    fn from(fault: RunFault) -> Failure<'a> {
        Failure::Run(fault)
    }
}

/// Returns the messages that a plan shows.
pub fn choice_of<'a>(
    alloc: Global,
    templates: &Templates,
    plan: &Plan<'a>,
) -> Result<Choice, Failure<'a>> {
    let only = match plan.only {
        None => None,
        Some(words) => match templates_named(alloc, templates, words) {
            Ok(numbers) => Some(numbers),
            Err(ChoiceError::Unknown(unknown)) => return Err(Failure::Unknown(unknown)),
            Err(ChoiceError::Memory) => return Err(Failure::Run(RunFault::Memory)),
        },
    };
    Ok(Choice {
        from: plan.from,
        limit: plan.limit,
        only,
    })
}

/// Shows the chosen messages of a reader's stream by a target of lines.
fn show_to<S: Source, T: Target + Drop>(
    alloc: Global,
    templates: &Templates,
    plan: &Plan<'_>,
    choice: &Choice,
    reader: &mut S,
    mut target: T,
) -> Result<ShowEnd, RunFault> {
    let (limits, hex) = (plan.limits(), plan.hex);
    if choice.is_all() {
        return show_all(
            alloc,
            templates,
            limits,
            hex,
            MAX_READS,
            reader,
            &mut target,
        );
    }
    let Ok(fronts) = Fronts::new(alloc, templates) else {
        return Err(RunFault::Memory);
    };
    let mut output = Selected::new(choice.chooser(), Lines::new(&fronts, target));
    show_over(
        alloc,
        templates,
        limits,
        hex,
        MAX_READS,
        reader,
        &mut output,
    )
}

/// The choice of what is shown of a stream.
#[derive(Drop)]
pub struct View {
    /// The messages that are shown.
    pub choice: Choice,
    /// True if their lines are colored. JSON never is.
    pub is_colored: bool,
}

impl View {
    /// Shows a reader's stream by a target.
    pub(crate) fn show<S: Source, T: Target + Drop>(
        &self,
        alloc: Global,
        templates: &Templates,
        plan: &Plan<'_>,
        reader: &mut S,
        target: T,
    ) -> Result<ShowEnd, RunFault> {
        if plan.bytes {
            let (limits, hex) = (plan.limits(), plan.hex);
            return dump_all(alloc, templates, limits, hex, MAX_READS, reader, target).0;
        }
        if plan.json {
            return show_json(alloc, templates, plan, &self.choice, reader, target);
        }
        if self.is_colored {
            let target = Painted::new(target);
            return show_to(alloc, templates, plan, &self.choice, reader, target);
        }
        show_to(alloc, templates, plan, &self.choice, reader, target)
    }
}
