//! The help, the version, the codes, and mistakes in the command line.

use crate::codes::all_codes;
use crate::explaining::{ended, ended_unwritten};
use clap::Error;
use clap::error::ErrorKind;
use fast_command::{RunFault, ShowEnd};
use fast_select::UnknownTemplate;
use fast_words::Conflict;
use std::io::{IsTerminal, Write};
use std::process::ExitCode;

/// The exit status of a usage error.
const MISTAKE: u8 = 2;

/// Prints all codes, and returns the exit status.
pub(crate) fn print_codes(rt: &HostRuntime) -> ExitCode {
    match rt.stdout().write_all(all_codes().as_str().as_bytes()) {
        Ok(()) => ended(rt, &Ok(ShowEnd::Good)),
        Err(error) => ended_unwritten(rt, rt.stderr().is_terminal(), &error),
    }
}

/// Prints the help, the version, or the message of a usage error, and returns the exit status.
pub(crate) fn explained(rt: &HostRuntime, error: &Error) -> ExitCode {
    if error.kind() == ErrorKind::OutOfMemory {
        return ended(rt, &Err(RunFault::Memory));
    }
    match error.print(rt) {
        Err(cause) if !error.use_stderr() => ended_unwritten(rt, rt.stderr().is_terminal(), &cause),
        // A usage error has its status even if its message cannot be written.
        _ => ExitCode::from(error.exit_code() as u8),
    }
}

/// Reports that an argument is not UTF-8, which is a usage error too.
pub(crate) fn not_text(rt: &HostRuntime) -> ExitCode {
    let _ = eprintln!(rt; "error: a word is not UTF-8");
    ExitCode::from(MISTAKE)
}

/// Reports that arguments conflict, which is a usage error too.
pub(crate) fn conflicting(rt: &HostRuntime, conflict: Conflict) -> ExitCode {
    let message = conflict.message();
    let _ = eprintln!(rt; "error: {message}\n\nFor more information, try '--help'.");
    ExitCode::from(MISTAKE)
}

/// Reports a word that names no template, which is a usage error.
pub(crate) fn mistaken(rt: &HostRuntime, unknown: &UnknownTemplate<'_>) -> ExitCode {
    let _ = eprintln!(rt; "fastcat: {unknown}");
    ExitCode::from(MISTAKE)
}

/// Reports a word that does not say when lines are colored, which is a usage error.
pub(crate) fn not_a_time(rt: &HostRuntime, word: &str) -> ExitCode {
    let _ = eprintln!(rt; "error: --color is auto, always or never, not \"{word}\"");
    ExitCode::from(MISTAKE)
}

/// Says on a terminal what a call without arguments waits for.
pub(crate) fn tell_waiting(rt: &HostRuntime) {
    if rt.stdin().is_terminal() {
        let _ = eprintln!(rt;
            "fastcat: waiting for hexadecimal digits under @vectors; Ctrl-D ends; see --help"
        );
    }
}
