//! The decoder and the encoder for callers from C. include/fast.h says what each function does, and what its caller has to ensure.
//!
//! A handle is a pointer to a box, which C holds between two calls: it is passed by value, and stored back as the same pointer. The set
//! that a decoder or an encoder borrows lives as long as C keeps it open.
#![tactic(auto)]

mod decoding;
mod encoding;
mod queries;
mod sets;
mod threads;

ghost use Rattle.std.specs.Prelude.{◌≡◌, ◌≢◌, ◌≤◌, [], List, ℕ, length, IfOk, IfErr};
ghost use Rattle.fast_records.specs.declared.status.Status.{Status as StatusData};
ghost use Rattle.fast_records.specs.meaning.Status.{status_number};
ghost use Rattle.fast_c.specs.meaning.Opening.{limits_of};
ghost use Rattle.fast_c.specs.meaning.Written.{IsWritten};

use arrayvec::ArrayString;
use fast_decoder::MakeError;
use fast_records::Status;
use fast_value::Limits;
use std::alloc::Global;
use std::fmt::Write;

/// The version of this interface. It changes with the size of a struct, the parameters of a function or the meaning of a number.
const INTERFACE: u32 = 2;

/// Returns the limits from the arguments of a call.
fn limits_of(strict: u32, max_text: u32, max_elements: u32, max_total: u32) -> Limits
    ensures { result ≡ limits_of strict max_text max_elements max_total }
{
    Limits {
        strict: strict != 0,
        max_text: max_text as usize,
        max_elements,
        max_total,
    }
}

/// Moves a value into a box.
fn boxed<T: Drop>(alloc: Global, value: T) -> Result<Box<T, Global>, Status>
    ensures ok { IfOk result (λ it. it.value ≡ value) }
    ensures err { IfErr result (λ status. status ≡ Status.Make MakeError.Memory) }
{
    match Box::new(alloc, value) {
        Ok(it) => Ok(it),
        Err(_) => Err(Status::Make(MakeError::Memory)),
    }
}

/// Writes the start of a string, as many bytes as have room, and returns the length of the whole string.
fn write_front(text: &[u8], out: &mut [u8]) -> usize
    ensures { IsWritten text.now out.old out.new result }
{
    let front = text.len().min(out.len());
    out[..front].copy_from_slice(&text[..front]);
    text.len()
}

/// Returns the version of this interface, which has to equal `FAST_INTERFACE` of the header.
#[unsafe(no_mangle)]
pub extern "C" fn fast_interface() -> u32
    ensures { result ≡ 2 }
{
    INTERFACE
}

/// Writes the sentence of a status, in English, as many bytes as have room, and returns its whole length; 0 if no status has this number.
#[unsafe(no_mangle)]
pub extern "C" fn fast_status_words(status: u32, out: &mut [u8]) -> usize
    ensures written { (words : List ℕ) × (length words ≤ 256) × IsWritten words out.old out.new result }
    ensures none { ((s : StatusData) → status_number s ≢ status) → IsWritten [] out.old out.new result }
{
    let Some(status) = Status::of_number(status) else {
        return 0;
    };
    let mut words = ArrayString::<256>::new();
    let _ = write!(words, "{status}");
    write_front(words.as_bytes(), out)
}
