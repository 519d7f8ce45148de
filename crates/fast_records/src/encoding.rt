//! Encoding of records: the message that they describe, appended as bytes.

ghost use Rattle.std.specs.Prelude.{◌≡◌, IfErr, OnOk, OnErr};
ghost use Rattle.fast_encoder.specs.meaning.Encoders.{tree};
ghost use Rattle.fast_records.specs.meaning.Putting.{IsPut, IsToldOfPut, IsPlacedPut};

use crate::putting::{PutFault, message_of_records};
use crate::records::Record;
use fast_encoder::{EncodeFault, Encoder};
use std::alloc::Global;
use std::error::Error;
use std::fmt;

/// The error of [`put_records`]: why records were not encoded.
#[derive(Clone, Copy, Debug, PartialEq, Eq)]
pub enum PutRefusal {
    /// The records are not those of one message.
    Records(PutFault),
    /// The encoder refused the message.
    Message(EncodeFault),
}

impl fmt::Display for PutRefusal {
    fn fmt<W: fmt::Write>(&self, f: &mut fmt::Formatter<W>) -> fmt::Result {
        match self {
            PutRefusal::Records(fault) => write!(f, "{fault}"),
            PutRefusal::Message(fault) => write!(f, "{fault}"),
        }
    }
}

impl Error for PutRefusal {}

/// Encodes one message from its records and string bytes (`texts`), under the encoder's template set, and appends its bytes to `out`. On an
/// error, the encoder and `out` are unchanged.
///
/// # Errors
///
/// `Records` if the records are not those of one message; `Message` as [`Encoder::encode`] refuses it.
pub fn put_records(
    alloc: Global,
    encoder: &mut Encoder<'_>,
    records: &[Record],
    texts: &[u8],
    out: &mut Vec<u8>,
) -> Result<(), PutRefusal>
    ensures ok { OnOk result
        (IsPut (tree encoder.old) encoder.old records.now texts.now out.old.items encoder.new out.new.items) }
    ensures err { IfErr result (IsToldOfPut (tree encoder.old) encoder.old records.now texts.now) }
    ensures placed { IfErr result (IsPlacedPut records.now texts.now) }
    ensures unchanged { OnErr result ((encoder.new ≡ encoder.old) × (out.new.items ≡ out.old.items)) }
    ensures same_set { (encoder.new.set ≡ encoder.old.set) × (encoder.new.limits ≡ encoder.old.limits) }
{
    match message_of_records(alloc, encoder.templates(), records, texts) {
        Ok(message) => match encoder.encode(&message, out) {
            Ok(()) => Ok(()),
            Err(fault) => Err(PutRefusal::Message(fault)),
        },
        Err(fault) => Err(PutRefusal::Records(fault)),
    }
}
