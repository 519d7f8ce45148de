//! Tests of the ends of runs: the status, and the line on standard error.

use super::super::expect;
use fast_command::{RunFault, ShowEnd, report};
use fast_decoder::{Fault, FaultCode, MakeError};
use fast_reading::LineFault;
use fast_spelling::EncodeFault;
use fast_template::{StaticCode, StaticFault};
use fast_text::ToBytes;
use fast_value::Code;
use std::process::Abort;

/// Checks the status and the line of an end.
fn expect_report(rt: &impl Abort, ending: &Result<ShowEnd, RunFault>, status: u8, line: &str) {
    let mut cells = [0; 64];
    let mut target = ToBytes::new(&mut cells);
    let is_right = report(ending, &mut target) == status && target.bytes() == line.as_bytes();
    expect(rt, is_right, line, usize::from(status));
}

/// The end of a run, its status, and its line.
#[rattlefmt::skip]
const ENDS: &[(Result<ShowEnd, RunFault>, u8, &str)] = &[
    (Ok(ShowEnd::Good), 0, ""),
    (Ok(ShowEnd::Faulted(Fault { code: FaultCode::Stream(Code::D9), place: 2 })), 1, ""),
    (Ok(ShowEnd::Truncated(1)), 1, ""),
    (
        Err(RunFault::Templates(StaticFault { code: StaticCode::S2, template: Some(0) })),
        2,
        "fastcat: templates S2 in template 0\n",
    ),
    (
        Err(RunFault::Templates(StaticFault { code: StaticCode::S1, template: None })),
        2,
        "fastcat: templates S1\n",
    ),
    (Err(RunFault::Make(MakeError::BadLimits)), 2, "fastcat: limits 1\n"),
    (Err(RunFault::Make(MakeError::InitialTooLong)), 2, "fastcat: limits 2\n"),
    (
        Err(RunFault::Text { line: 3, kind: LineFault::UnknownTemplate }),
        1,
        "fastcat: line 3 kind 2\n",
    ),
    (
        Err(RunFault::Encode { message: 0, fault: EncodeFault::E3 }),
        1,
        "fastcat: message 0 E3\n",
    ),
    (Err(RunFault::Read), 3, "fastcat: reading failed\n"),
    (Err(RunFault::Write), 3, "fastcat: writing failed\n"),
    (Err(RunFault::BadHex(4)), 3, "fastcat: hex at 4\n"),
    (Err(RunFault::Memory), 3, "fastcat: no memory\n"),
];

#[test]
fn each_end_has_its_status_and_its_line(rt: HostRuntime) {
    for (ending, status, line) in ENDS {
        expect_report(&rt, ending, *status, line);
    }
}

#[test]
fn a_status_does_not_need_its_line(rt: HostRuntime) {
    let mut target = ToBytes::new(&mut []);
    let status = report(&Err(RunFault::Read), &mut target);
    expect(&rt, status == 3, "without a line", 3);
}
