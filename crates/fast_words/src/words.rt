//! The parser of a call's arguments.

ghost use Rattle.std.specs.Prelude.{◌≡◌, List, map, Some, IfOk};
ghost use Rattle.clap.specs.Walk.{Row, Text, rows_of};
ghost use Rattle.clap.specs.Simple.{subcommand_of};
ghost use Rattle.clap.specs.Faults.{fault_of};
ghost use Rattle.clap.specs.Kinds.{FailsBy};
ghost use Rattle.clap.specs.Matches.{found_of};
ghost use Rattle.fast_usage.specs.meaning.Commands.{fastcat_app};
ghost use Rattle.fast_words.specs.meaning.Words.{task_named, IsPlanOf, IsNumberAt, IsNumberIfAt};

use crate::plans::{BUILT_IN, Plan, Task};
use clap::{ArgMatches, Error};
use fast_usage::fastcat_command;
use fast_value::Limits;
use std::alloc::Global;

/// Returns the task of a subcommand's name.
fn task_named(name: &str) -> Task
    ensures { result ≡ task_named name.now }
{
    if name == "check" {
        Task::Check
    } else if name == "convert" {
        Task::Convert
    } else if name == "codes" {
        Task::Codes
    } else {
        Task::Show
    }
}

/// Returns the number of an option, or its default.
fn number_or(matches: &ArgMatches<'_>, name: &str, otherwise: u32) -> u32
    ensures { IsNumberAt name.now (rows_of (found_of matches.now)) otherwise result }
{
    matches.get_one::<u32>(name).unwrap_or(otherwise)
}

/// Returns the number of an option, if it was given.
fn number_if(matches: &ArgMatches<'_>, name: &str) -> Option<u32>
    ensures { IsNumberIfAt name.now (rows_of (found_of matches.now)) result }
{
    matches.get_one::<u32>(name)
}

/// Returns the plan of a subcommand with its matches.
fn plan_of<'a>(name: &str, matches: &ArgMatches<'a>) -> Plan<'a>
    ensures { IsPlanOf name.now (rows_of (found_of matches.now)) result }
{
    let limits = Limits::default();
    Plan {
        task: task_named(name),
        templates: matches.get_str("templates").unwrap_or(BUILT_IN),
        input: matches.get_str("input"),
        hex: matches.get_flag("hex"),
        strict: matches.get_flag("strict"),
        list: matches.get_flag("list"),
        bytes: matches.get_flag("bytes"),
        json: matches.get_flag("json"),
        from: number_or(matches, "from", 0),
        limit: number_if(matches, "limit"),
        only: matches.get_str("only"),
        color: matches.get_str("color"),
        explain: matches.get_flag("explain"),
        no_explain: matches.get_flag("no-explain"),
        max_text: number_or(matches, "max-text", limits.max_text as u32),
        max_elements: number_or(matches, "max-elements", limits.max_elements),
        max_total: number_or(matches, "max-total", limits.max_total),
    }
}

/// Parses arguments to a plan; the first argument is the program's name. An error has the help or the version if that was asked for, or the
/// message of a usage error.
pub fn plan<'a>(alloc: Global, words: &'a [&'a str]) -> Result<Plan<'a>, Error>
    ensures plan { IfOk result
        (λ p. (name : Text) × (rows : List Row)
        × (subcommand_of fastcat_app (map (λ w. w.now) words.entry.now) ≡ Some (name, rows)) × IsPlanOf name rows p) }
    ensures fault { FailsBy (fault_of fastcat_app (map (λ w. w.now) words.entry.now)) result }
{
    let matches = fastcat_command(alloc)?.try_get_matches_from(words)?;
    Ok(match matches.subcommand() {
        Some((name, given)) => plan_of(name, given),
        // clap refuses a call without a subcommand before this.
        None => plan_of("show", &matches),
    })
}
