//! Encoders for callers from C: records in, bytes out.

ghost use Rattle.std.specs.Prelude.{◌≡◌, IfOk, IfErr, Err};
ghost use Rattle.fast_c.specs.contracts.encoding.Encoding.{the_row};
ghost use Rattle.fast_c.specs.declared.encoding.Encoding.{Encoding};
ghost use Rattle.fast_c.specs.meaning.Opening.{limits_of, IsNotMade, Opens};
ghost use Rattle.fast_c.specs.meaning.Encoders.{IsNewEncoding, IsResetEncoding, misplaced, HasCome, IsTaken};

use crate::sets::SetHandle;
use crate::{boxed, limits_of};
use fast_encoder::Encoder;
use fast_records::{PutFault, PutRefusal, Record, Status, put_records};
use fast_value::Limits;
use std::alloc::Global;
use std::marker::Model;

/// An encoder, and the bytes of encoded messages that the caller has not fetched yet.
#[derive(Drop)]
pub struct Encoding {
    alloc: Global,
    encoder: Encoder<'static>,
    bytes: Vec<u8>,
}

/// The type that a C caller's pointer to an encoder has.
#[repr(C)]
#[derive(Drop)]
pub struct FastEncoder {
    unseen: u8,
}

/// A pointer to an encoder, passed by value. The handle of the allocator is zero-sized.
#[repr(C)]
pub struct EncoderHandle {
    at: *mut FastEncoder,
    alloc: Global,
    ghost value: { Encoding } by { the_row.coded },
}

impl Model for EncoderHandle {
    ghost use Rattle.std.specs.Box.Ownership.{box_owns};
    ghost use Rattle.std.specs.contracts.impls.GlobalAllocator.TheImpl.{ghosts};
    ghost use Rattle.fast_c.specs.contracts.encoding.Encoding.{the_row};

    // The value at the pointer, and the right to free its block.
    ghost also_owns = { λ h. box_owns (ghosts.dealloc_token h.alloc) the_row h.at h.value };
}

// An encoder is `Send`, and any thread may free its block.
unsafe impl Send for EncoderHandle {}

impl EncoderHandle {
    ghost use Rattle.std.specs.Prelude.{◌≡◌};

    /// Returns the box of the encoder.
    fn into_box(self) -> Box<Encoding, Global>
        ensures { result.value ≡ self.value }
    {
        let EncoderHandle { at, alloc } = self;
        unsafe { Box::from_raw(alloc, at as *mut Encoding) }
    }
}

/// The result of encoding a message (`fast_put` of the header).
#[repr(C)]
#[derive(Clone, Copy)]
pub struct FastPut {
    /// The number of bytes of encoded messages that wait to be fetched.
    waiting: u64,
    /// The number, from 0, of the record that may not come next, if the status says that there is one.
    record: u64,
    /// The number of the status.
    status: u32,
    /// Always 0.
    unused: u32,
}

/// Makes an encoder in a box.
fn made(alloc: Global, set: SetHandle, limits: Limits) -> Result<Box<Encoding, Global>, Status>
    ensures ok { IfOk result (λ encoding. IsNewEncoding set.value limits encoding.value) }
    ensures err { IfErr result (IsNotMade set.value limits) }
{
    let templates = set.lent();
    match Encoder::new(alloc, templates, limits) {
        Ok(encoder) => {
            let bytes = Vec::new(alloc);
            let encoding = Encoding {
                alloc,
                encoder,
                bytes,
            };
            boxed(alloc, encoding)
        }
        Err(error) => Err(Status::Make(error)),
    }
}

/// Makes an encoder for the messages of a set, and stores a pointer to it in `out`. Returns 0, or the status that says why there is none.
#[unsafe(no_mangle)]
pub extern "C" fn fast_encoder_open(
    alloc: Global,
    set: SetHandle,
    max_text: u32,
    max_elements: u32,
    max_total: u32,
    out: &mut *mut FastEncoder,
) -> u32
    ensures { Opens (IsNewEncoding set.value (limits_of 0 max_text max_elements max_total))
        (IsNotMade set.value (limits_of 0 max_text max_elements max_total)) out.old out.new result }
{
    let limits = limits_of(0, max_text, max_elements, max_total);
    match made(alloc, set, limits) {
        Ok(encoding) => {
            *out = Box::into_raw(encoding) as *mut FastEncoder;
            0
        }
        Err(status) => status.number(),
    }
}

/// Encodes the message of these records, and appends it to the bytes that wait.
fn put(encoding: &mut Encoding, records: &[Record], texts: &[u8]) -> FastPut
    ensures { HasCome encoding.old records.now texts.now result encoding.new }
{
    let Encoding {
        alloc,
        encoder,
        bytes,
    } = encoding;
    let (status, record) = match put_records(*alloc, encoder, records, texts, bytes) {
        Ok(()) => (Status::Done, 0),
        Err(refusal) => (Status::from(refusal), record_of(refusal)),
    };
    FastPut {
        waiting: bytes.len() as u64,
        record: record as u64,
        status: status.number(),
        unused: 0,
    }
}

/// Returns the number of the record that may not come next, 0 if the records are those of a message.
fn record_of(refusal: PutRefusal) -> usize
    ensures { result ≡ misplaced (Err refusal) }
{
    match refusal {
        PutRefusal::Records(PutFault::Misplaced { record }) => record,
        _ => 0,
    }
}

/// Encodes one message from its records. If it is refused, nothing changes.
#[unsafe(no_mangle)]
pub extern "C" fn fast_encoder_put(
    encoder: EncoderHandle,
    back: &mut *mut FastEncoder,
    records: &[Record],
    texts: &[u8],
    came: &mut FastPut,
)
    ensures { (new : Encoding) × HasCome encoder.value records.now texts.now came.new new }
{
    let mut encoding = encoder.into_box();
    *came = put(&mut encoding, records, texts);
    *back = Box::into_raw(encoding) as *mut FastEncoder;
}

/// Moves the first of the bytes that wait to `out`, as many as have room, and returns their number.
fn take(encoding: &mut Encoding, out: &mut [u8]) -> usize
    ensures { IsTaken encoding.old out.old out.new result encoding.new }
{
    let count = encoding.bytes.len().min(out.len());
    out[..count].copy_from_slice(&encoding.bytes[..count]);
    let left = encoding.bytes.len() - count;
    encoding.bytes.copy_within(count.., 0);
    encoding.bytes.truncate(left);
    count
}

/// Moves the first of the bytes that wait to `out`, as many as have room, and returns their number.
#[unsafe(no_mangle)]
pub extern "C" fn fast_encoder_take(
    encoder: EncoderHandle,
    back: &mut *mut FastEncoder,
    out: &mut [u8],
) -> usize
    ensures { (new : Encoding) × IsTaken encoder.value out.old out.new result new }
{
    let mut encoding = encoder.into_box();
    let count = take(&mut encoding, out);
    *back = Box::into_raw(encoding) as *mut FastEncoder;
    count
}

/// Resets an encoder to the state in which it was made, and drops the bytes that wait.
fn reset(encoding: &mut Encoding)
    ensures { IsResetEncoding encoding.old encoding.new }
{
    encoding.encoder.reset();
    encoding.bytes.clear();
}

/// Resets an encoder to the state in which it was made, and drops the bytes that wait.
#[unsafe(no_mangle)]
pub extern "C" fn fast_encoder_reset(encoder: EncoderHandle, back: &mut *mut FastEncoder)
    ensures { (new : Encoding) × IsResetEncoding encoder.value new }
{
    let mut encoding = encoder.into_box();
    reset(&mut encoding);
    *back = Box::into_raw(encoding) as *mut FastEncoder;
}

/// Frees an encoder's memory. Its set stays open.
#[unsafe(no_mangle)]
pub extern "C" fn fast_encoder_close(encoder: EncoderHandle) {
    drop(encoder.into_box());
}
