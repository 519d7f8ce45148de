//! The commands, options and arguments of fastcat, for clap.

ghost use Rattle.std.specs.Prelude.{◌≡◌, false, IfOk, Ok};
ghost use Rattle.clap.specs.Built.{AddsArg, AddsSubcommand};
ghost use Rattle.clap.specs.Walk.{rule_of};
ghost use Rattle.clap.specs.Simple.{app_of};
ghost use Rattle.clap.specs.declared.builder.command.Command.{Command};
ghost use Rattle.clap.specs.declared.builder.command.Command.TheViews.{out-Command};
ghost use Rattle.clap.specs.Simple.{App};
ghost use Rattle.fast_usage.specs.meaning.Commands.{number_rule, text_rule, flag_rule, templates_rule, input_rule, with_limits, with_options, with_input, with_choice, with_form, check_app, show_app, convert_app, codes_app, fastcat_app, MakesApp};

use clap::{Arg, ArgAction, Command, value_parser};
use std::alloc::{AllocError, Global};

/// The version that `fastcat --version` prints.
const VERSION: &str = "0.1.0";

/// The text after the help of the whole command.
const TEMPLATES_HELP: &str = "T is @vectors or a text in TOML such as
  [[template]]
  name = \"Trade\"
  id = 1
  fields = [{ kind = \"uInt32\", name = \"price\" }]

Examples:
  fastcat check templates.toml
  fastcat show templates.toml stream.fast
  fastcat convert templates.toml lines.txt >stream.fast";

/// Returns the argument for the templates.
fn templates_arg<'a>(alloc: Global) -> Arg<'a>
    ensures rule { rule_of result ≡ templates_rule }
    ensures local { result.global ≡ false }
{
    Arg::new(alloc, "templates")
        .value_name("T")
        .required(true)
        .help("The path of a template text, or @vectors for the built-in set")
}

/// Returns the argument for the input.
fn input_arg<'a>(alloc: Global, help: &'a str) -> Arg<'a>
    ensures rule { rule_of result ≡ input_rule }
    ensures local { result.global ≡ false }
{
    Arg::new(alloc, "input").value_name("F").help(help)
}

/// Returns a flag.
fn flag_arg<'a>(alloc: Global, name: &'a str, help: &'a str) -> Arg<'a>
    ensures rule { rule_of result ≡ flag_rule name.entry.now }
    ensures local { result.global ≡ false }
{
    Arg::new(alloc, name)
        .long(name)
        .action(ArgAction::SetTrue)
        .help(help)
}

/// Returns an option with a number of 32 bits.
fn number_arg<'a>(alloc: Global, name: &'a str, help: &'a str) -> Arg<'a>
    ensures rule { rule_of result ≡ number_rule name.entry.now }
    ensures local { result.global ≡ false }
{
    Arg::new(alloc, name)
        .long(name)
        .value_name("N")
        .value_parser(value_parser!(u32))
        .help(help)
}

/// Returns an option with a text.
fn text_arg<'a>(alloc: Global, name: &'a str, value: &'a str, help: &'a str) -> Arg<'a>
    ensures rule { rule_of result ≡ text_rule name.entry.now }
    ensures local { result.global ≡ false }
{
    Arg::new(alloc, name)
        .long(name)
        .value_name(value)
        .help(help)
}

/// Adds an argument to a command.
fn with_arg<'a>(
    command: Result<Command<'a>, AllocError>,
    arg: Arg<'a>,
) -> Result<Command<'a>, AllocError>
    ensures { IfOk result (λ new. (old : Command) × (command.entry ≡ Ok old) × AddsArg old arg.entry new) }
{
    command?.arg(arg)
}

/// Adds a subcommand to a command.
fn with_subcommand<'a>(
    command: Command<'a>,
    subcommand: Result<Command<'a>, AllocError>,
) -> Result<Command<'a>, AllocError>
    ensures { IfOk result (λ new. (inner : Command) × (subcommand.entry ≡ Ok inner)
        × AddsSubcommand command.entry inner new) }
{
    command.subcommand(subcommand?)
}

/// Adds the options for the limits to a command.
fn with_limits<'a>(alloc: Global, command: Command<'a>) -> Result<Command<'a>, AllocError>
    requires { (out-Command command).has_globals ≡ false }
    ensures { IfOk result (MakesApp (with_limits (app_of command.entry))) }
{
    let texts = "The most bytes of a text, 16 to 1048576 [1024]";
    let elements = "The most elements of a sequence [1000]";
    let total = "The most elements of all sequences of a message [1000]";
    let command = command.arg(number_arg(alloc, "max-text", texts));
    let command = with_arg(command, number_arg(alloc, "max-elements", elements));
    with_arg(command, number_arg(alloc, "max-total", total))
}

/// Adds the options that all commands have.
fn with_options<'a>(alloc: Global, command: Command<'a>) -> Result<Command<'a>, AllocError>
    requires { (out-Command command).has_globals ≡ false }
    ensures { IfOk result (MakesApp (with_options (app_of command.entry))) }
{
    let explain = "Explains a failure on standard error";
    let no_explain = "Explains no failure, not even on a terminal";
    let command = with_arg(
        with_limits(alloc, command),
        flag_arg(alloc, "explain", explain),
    );
    with_arg(command, flag_arg(alloc, "no-explain", no_explain))
}

/// Adds the options that all commands have.
fn and_options<'a>(
    alloc: Global,
    command: Result<Command<'a>, AllocError>,
) -> Result<Command<'a>, AllocError>
    requires { IfOk command (λ c. (out-Command c).has_globals ≡ false) }
    ensures { IfOk result (λ new. (old : Command) × (command.entry ≡ Ok old)
        × MakesApp (with_options (app_of old)) new) }
{
    with_options(alloc, command?)
}

/// Adds the arguments for the templates and the input, and the flag for hexadecimal digits.
fn with_input<'a>(
    alloc: Global,
    command: Command<'a>,
    input: &'a str,
    hex: &'a str,
) -> Result<Command<'a>, AllocError>
    requires { (out-Command command).has_globals ≡ false }
    ensures { IfOk result (MakesApp (with_input (app_of command.entry))) }
{
    let command = command.arg(templates_arg(alloc));
    let command = with_arg(command, input_arg(alloc, input));
    with_arg(command, flag_arg(alloc, "hex", hex))
}

/// Adds the options that choose messages to a command.
fn with_choice<'a>(
    alloc: Global,
    command: Result<Command<'a>, AllocError>,
) -> Result<Command<'a>, AllocError>
    ensures { (app : App) → IfOk command.entry (MakesApp app) → IfOk result (MakesApp (with_choice app)) }
{
    let from = "Begins with message number N, counted from 0";
    let limit = "Ends after N messages";
    let only = "Shows these templates alone, by name or identifier";
    let command = with_arg(command, number_arg(alloc, "from", from));
    let command = with_arg(command, number_arg(alloc, "limit", limit));
    with_arg(command, text_arg(alloc, "only", "T1,T2", only))
}

/// Adds the options for the form of what is shown to a command.
fn with_form<'a>(
    alloc: Global,
    command: Result<Command<'a>, AllocError>,
) -> Result<Command<'a>, AllocError>
    ensures { (app : App) → IfOk command.entry (MakesApp app) → IfOk result (MakesApp (with_form app)) }
{
    let bytes = "Shows the offset and the bytes before each line";
    let json = "Shows each message as a line of JSON";
    let color = "Colors the lines: auto (the default), always, never";
    let command = with_arg(command, flag_arg(alloc, "bytes", bytes));
    let command = with_arg(command, flag_arg(alloc, "json", json));
    with_arg(command, text_arg(alloc, "color", "WHEN", color))
}

/// Returns the subcommand that checks a template file.
fn check_command<'a>(alloc: Global) -> Result<Command<'a>, AllocError>
    ensures { IfOk result (MakesApp check_app) }
{
    let list = "Prints a line for each template and each node too";
    let command = Command::new(alloc, "check")
        .about("Checks a template text, and says how large its set is")
        .after_help("Example: fastcat check templates.toml")
        .arg(templates_arg(alloc));
    let command = with_arg(command, flag_arg(alloc, "list", list));
    and_options(alloc, command)
}

/// Returns the subcommand that shows a stream.
fn show_command<'a>(alloc: Global) -> Result<Command<'a>, AllocError>
    ensures { IfOk result (MakesApp show_app) }
{
    let hex = "Reads hexadecimal digits, with blanks between them";
    let input = "The path of the stream; without it, standard input is read";
    let strict = "Refuses integers and presence maps with needless bytes";
    let command = Command::new(alloc, "show").about(
        "Shows the messages of a FAST stream, a line for each event",
    );
    let command = with_input(alloc, command, input, hex);
    let command = with_arg(command, flag_arg(alloc, "strict", strict));
    let command = with_form(alloc, with_choice(alloc, command));
    and_options(alloc, command)
}

/// Returns the subcommand that converts lines to a stream.
fn convert_command<'a>(alloc: Global) -> Result<Command<'a>, AllocError>
    ensures { IfOk result (MakesApp convert_app) }
{
    let input = "The path of the lines; without it, standard input is read";
    let hex = "Writes hexadecimal digits, a line for each message";
    let command = Command::new(alloc, "convert")
        .about("Turns lines, as show writes them, into a FAST stream")
        .after_help("Example: fastcat convert --hex @vectors lines.txt");
    let command = with_input(alloc, command, input, hex);
    and_options(alloc, command)
}

/// Returns the subcommand that lists the codes.
fn codes_command<'a>(alloc: Global) -> Result<Command<'a>, AllocError>
    ensures { IfOk result (MakesApp codes_app) }
{
    Ok(Command::new(alloc, "codes").about(
        "Lists the codes of faults and refusals, each with its sentence",
    ))
}

/// Returns the whole command.
///
/// # Errors
///
/// An allocation failed.
pub fn fastcat_command<'a>(alloc: Global) -> Result<Command<'a>, AllocError>
    ensures { IfOk result (MakesApp fastcat_app) }
{
    let command = Command::new(alloc, "fastcat")
        .about("Reads and writes streams in the FAST encoding, version 1.1, by templates in TOML")
        .version(VERSION)
        .after_help(TEMPLATES_HELP)
        .subcommand_required(true);
    let command = with_subcommand(command, check_command(alloc))?;
    let command = with_subcommand(command, show_command(alloc))?;
    let command = with_subcommand(command, convert_command(alloc))?;
    with_subcommand(command, codes_command(alloc))
}
