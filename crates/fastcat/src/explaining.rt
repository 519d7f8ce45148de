//! Reports and explanations at the end of a run.

use crate::opening::Causes;
use fast_command::{RunFault, ShowEnd, report};
use fast_explain::{Cause, Channel, Note, explain_cause};
use fast_text::{Target, Watched};
use std::fmt::Write;
use std::io::{Error, ErrorKind};
use std::process::ExitCode;

/// The exit status after a write to a pipe without a reader: the one that a shell reports of a program that SIGPIPE has ended.
pub(crate) const CLOSED_PIPE: u8 = 141;

/// Reports the end of a run, and returns the exit status.
pub(crate) fn ended(rt: &HostRuntime, ending: &Result<ShowEnd, RunFault>) -> ExitCode {
    let mut errors = Watched::new(rt.stderr());
    ExitCode::from(report(ending, &mut errors))
}

/// Reports the end of a run and then the explanation, and returns the exit status.
fn ended_with(rt: &HostRuntime, ending: &Result<ShowEnd, RunFault>, note: &Note) -> ExitCode {
    let status = ended(rt, ending);
    let _ = Watched::new(rt.stderr()).write_all(note.as_str().as_bytes());
    status
}

/// Reports the end of a run and its explanation: the one that was noted in the run, or the sentence of its end.
pub(crate) fn ended_explained(
    rt: &HostRuntime,
    ending: &Result<ShowEnd, RunFault>,
    causes: &Causes,
    note: &mut Note,
) -> ExitCode {
    match ending {
        Err(RunFault::Make(cause)) => {
            let _ = writeln!(note, "  {cause}");
        }
        Err(RunFault::Write) => *note = unwritten(causes.of_writes.get()),
        _ => {}
    }
    ended_with(rt, ending, note)
}

/// Explains why standard output cannot be written.
fn unwritten(cause: Option<Cause>) -> Note {
    let cause = cause.unwrap_or(Cause::Refused(ErrorKind::WriteZero));
    explain_cause(Channel::StandardOutput, cause)
}

/// Reports that the help, the version or the codes cannot be written, with an explanation if `explains`, and returns the exit status. It
/// says nothing if the pipe of standard output has no reader left.
pub(crate) fn ended_unwritten(rt: &HostRuntime, explains: bool, error: &Error) -> ExitCode {
    if error.kind() == ErrorKind::BrokenPipe {
        return ExitCode::from(CLOSED_PIPE);
    }
    let ending = Err(RunFault::Write);
    if explains {
        return ended_with(rt, &ending, &unwritten(Some(Cause::of(error))));
    }
    ended(rt, &ending)
}
