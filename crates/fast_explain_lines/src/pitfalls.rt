//! Lines that are none for a reason that concerns the whole line or the whole file.

use crate::misfits::{Found, Misfit, found_at};

/// Returns an error with a phrase for what is found.
fn said(at: usize, found: &'static str, right: &'static str) -> Option<Misfit<'static>> {
    Some(Misfit {
        at,
        found: Found::Said(found),
        right,
    })
}

/// Returns the error of a file that begins with a byte order mark.
fn mark_misfit(line: &[u8]) -> Option<Misfit<'_>> {
    match line {
        [0xEF, 0xBB, 0xBF, ..] => said(
            0,
            "a byte order mark",
            "expected none; save the lines as UTF-8 without it",
        ),
        [0xFF, 0xFE, ..] | [0xFE, 0xFF, ..] => said(
            0,
            "a byte order mark of UTF-16",
            "expected UTF-8; save the lines in that encoding",
        ),
        _ => None,
    }
}

/// Returns the error of a line that is not UTF-8.
fn utf8_misfit(line: &[u8]) -> Option<Misfit<'_>> {
    match str::from_utf8(line) {
        Ok(_) => None,
        Err(error) => said(
            error.valid_up_to(),
            "a byte that is not UTF-8",
            "expected UTF-8",
        ),
    }
}

/// Returns the first NUL of a line, if no string comes before it.
fn nul_misfit(line: &[u8]) -> Option<Misfit<'_>> {
    let at = line.iter().position(|byte| *byte == 0 || *byte == b'"')?;
    match line.get(at).copied() {
        Some(0) => said(at, "a NUL character", "expected text in UTF-8"),
        _ => None,
    }
}

/// Returns whether a line is hexadecimal digits, some of them decimal, and blanks.
fn is_hex(line: &[u8]) -> bool {
    line.iter().any(|byte| byte.is_ascii_digit())
        && line
            .iter()
            .all(|byte| byte.is_ascii_hexdigit() || *byte == b' ')
}

/// Returns whether a line is the last one of a stream that `show` could not show to its end.
fn is_last_of_show(line: &[u8]) -> bool {
    line.starts_with(b"fault ".as_slice()) || line.starts_with(b"truncated at ".as_slice())
}

/// Returns the error of a line that begins like no line.
fn start_misfit(line: &[u8]) -> Option<Misfit<'_>> {
    if line.is_empty() {
        return said(0, "an empty line", "expected none");
    }
    if line.starts_with(b"#".as_slice()) || line.starts_with(b"//".as_slice()) {
        return said(
            0,
            "a comment",
            "expected none, since lines have no comments",
        );
    }
    if line.starts_with(b" ".as_slice()) || line.starts_with(b"\t".as_slice()) {
        return Some(Misfit {
            at: 0,
            found: found_at(line, 0),
            right: "expected a line without indentation",
        });
    }
    other_misfit(line)
}

/// Returns the error of a line that is one of another output, or of a stream in digits.
fn other_misfit(line: &[u8]) -> Option<Misfit<'_>> {
    if is_last_of_show(line) {
        return said(
            0,
            "the last line of a stream at fault",
            "expected none; remove it, and the lines of an incomplete message before it",
        );
    }
    if line.starts_with(b"packet ".as_slice()) {
        return said(
            0,
            "the line of a packet",
            "expected none; remove such lines",
        );
    }
    if is_hex(line) {
        return said(
            0,
            "hexadecimal digits",
            "expected lines; digits of a stream are shown by fastcat show --hex",
        );
    }
    None
}

/// Returns the error of a line as a whole, of which `is_first` says whether it is the first of the file.
pub(crate) fn whole_misfit(line: &[u8], is_first: bool) -> Option<Misfit<'_>> {
    if is_first {
        if let Some(misfit) = mark_misfit(line) {
            return Some(misfit);
        }
    }
    if let Some(misfit) = utf8_misfit(line) {
        return Some(misfit);
    }
    if line.ends_with(b"\r".as_slice()) {
        return said(
            line.len().saturating_sub(1),
            "a carriage return",
            "expected lines that end with LF, not CR LF (dos2unix)",
        );
    }
    if let Some(misfit) = nul_misfit(line) {
        return Some(misfit);
    }
    start_misfit(line)
}
