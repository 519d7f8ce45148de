//! Tests of the ends of runs, and of the bytes written by then.

use super::super::sinks::Taker;
use super::super::{LENIENT, built_in_set, expect, set_of, show};
use super::convert;
use fast_command::RunFault;
use fast_decoder::MakeError;
use fast_reading::LineFault;
use fast_spelling::EncodeFault;
use fast_template::Templates;
use fast_text::{FromBytes, Watched};
use fast_value::Limits;
use std::alloc::Global;
use std::process::Abort;

/// Checks the end of a run over these lines, and its output.
fn expect_end(
    rt: &impl Abort,
    alloc: Global,
    set: &Templates,
    limits: Limits,
    text: &str,
    wanted: Result<(), RunFault>,
    written: &str,
) {
    let mut cells = [0; 512];
    let mut target = Watched::new(Taker::whole(&mut cells));
    let mut source = FromBytes::new(text.as_bytes());
    let end = convert(alloc, set, limits, true, &mut source, &mut target);
    let taker = target.into_inner();
    let is_right = end == wanted && taker.bytes() == written.as_bytes();
    expect(rt, is_right, text, taker.kept);
}

const X: &str = "message T1\nfield 0 x u 942755\nend message\n";

/// The greatest size of a file, lines, the end of a run over them, and its output.
#[rattlefmt::skip]
const ENDS: &[(usize, &str, Result<(), RunFault>, &str)] = &[
    // Lines are written as a stream.
    (1024, "", Ok(()), ""),
    (1024, X, Ok(()), "c0813945a3\n"),
    (
        1024,
        "message T1\nfield 0 x u 942755\nend message\nmessage T1\nfield 0 x u 0\nend message",
        Ok(()),
        "c0813945a3\n8080\n",
    ),
    (
        1024,
        "message T6\nfield 6 x u 0\nend message\nmessage T9\nend message\nmessage T9\nend message\nmessage T6\nend message\n",
        Ok(()),
        "e08681\nc089\n80\nc086\n",
    ),
    // An invalid line is reported, and nothing is written for the lines before it.
    (
        1024,
        "message T1\nfield 0 x u 5\nend message\nmessage TX\n",
        Err(RunFault::Text { line: 4, kind: LineFault::UnknownTemplate }),
        "",
    ),
    (
        1024,
        "message T1\nfield 1 x u 5\n",
        Err(RunFault::Text { line: 2, kind: LineFault::OutOfPlace }),
        "",
    ),
    (1024, "message T1\nfield 0 x u 05\n", Err(RunFault::Text { line: 2, kind: LineFault::Form }), ""),
    (
        1024,
        "message T1\nfield 0 x i 5\n",
        Err(RunFault::Text { line: 2, kind: LineFault::WrongValue }),
        "",
    ),
    (1024, "message T1\nend message\n", Err(RunFault::Text { line: 2, kind: LineFault::PassedOver }), ""),
    (1024, "message T1\nfield 0 x u 5\n", Err(RunFault::Text { line: 3, kind: LineFault::Missing }), ""),
    // The messages before one that is refused are written.
    (
        1024,
        "message T3\nfield 3 t a \"ABCDE\"\nend message\nmessage T3\nfield 3 t a \"AB\"\nend message\n",
        Err(RunFault::Encode { message: 1, fault: EncodeFault::E3 }),
        "e08341424344c5\n",
    ),
    // Limits are refused before the input is read.
    (15, "message TX", Err(RunFault::Make(MakeError::BadLimits)), ""),
];

#[test]
fn a_run_over_lines_ends_so_and_has_written_this(rt: HostRuntime) {
    let set = built_in_set(&rt, rt.alloc());
    for (max_text, text, end, written) in ENDS {
        let limits = Limits {
            max_text: *max_text,
            ..LENIENT
        };
        expect_end(&rt, rt.alloc(), &set, limits, text, *end, written);
    }
}

#[test]
fn a_long_initial_value_is_refused_before_the_text_is_read(rt: HostRuntime) {
    let text =
        "[[template]]\nname = 'N'\nid = 1\nfields = [{ kind = 'ascii', name = 's', op = 'copy', value = 'seventeen letters' }]\n";
    let set = set_of(&rt, rt.alloc(), text);
    let short = Limits {
        max_text: 16,
        ..LENIENT
    };
    let end = Err(RunFault::Make(MakeError::InitialTooLong));
    expect_end(&rt, rt.alloc(), &set, short, "message TX", end, "");
}

/// Lines of whole messages, which are shown again unchanged.
const THERE_AND_BACK: &[&str] = &[
    "message T3\nfield 3 t a \"ABCDE\"\nend message\nmessage T3\nfield 3 t a \"ABCXY\"\nend message\nmessage T3\nfield 3 t a \"ABCXY\"\nend message\n",
    "message T4\nfield 4 d a \"GEH6\"\nend message\nmessage T4\nfield 4 d a \"GEM6\"\nend message\nmessage T4\nfield 4 d a \"ZZGEM6\"\nend message\n",
    "message T5\nfield 5 n u 4294967295\nend message\nmessage T5\nfield 5 n u 0\nend message\nmessage T5\nfield 5 n u 1\nend message\n",
    "message T6\nfield 6 x u 0\nend message\nmessage T6\nend message\nmessage T6\nend message\n",
    "message T7\nfield 8 y u 5\nend message\n",
    "message T6\nfield 6 x u 0\nend message\nmessage T9\nend message\nmessage T9\nend message\nmessage T6\nend message\n",
    "message T15\nfield 15 x u 5\ngroup 16 g\nfield 17 b b 01ff\nend group\nsequence 18 legs 2\nelement\nfield 19 sym a \"AB\"\nfield 20 px i 100\nend element\nelement\nfield 19 sym a \"AB\"\nfield 20 px i 98\nend element\nend sequence\nend message\n",
    "message T16\nfield 21 v i 5\nend message\nmessage T16\nend message\nmessage T16\nfield 21 v i 6\nend message\n",
];

#[test]
fn what_is_written_is_shown_as_it_was(rt: HostRuntime) {
    let set = built_in_set(&rt, rt.alloc());
    for text in THERE_AND_BACK {
        expect(&rt, comes_back(rt.alloc(), &set, text), text, text.len());
    }
}

/// Returns whether the stream that is written from the lines is shown as these lines.
fn comes_back(alloc: Global, set: &Templates, text: &str) -> bool {
    let mut cells = [0; 512];
    let mut target = Watched::new(Taker::whole(&mut cells));
    let mut source = FromBytes::new(text.as_bytes());
    let end = convert(alloc, set, LENIENT, false, &mut source, &mut target);
    let stream = target.into_inner();
    end == Ok(()) && is_shown_as(alloc, set, stream.bytes(), text)
}

/// Returns whether a stream is shown as these lines.
fn is_shown_as(alloc: Global, set: &Templates, stream: &[u8], text: &str) -> bool {
    let mut cells = [0; 512];
    let mut target = Watched::new(Taker::whole(&mut cells));
    let mut source = FromBytes::new(stream);
    let end = show(alloc, set, LENIENT, false, 1000, &mut source, &mut target);
    end.is_ok() && target.into_inner().bytes() == text.as_bytes()
}
