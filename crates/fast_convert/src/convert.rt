//! Converts the lines of a stream, as `show` prints them, back to the stream.

ghost use Rattle.std.specs.Prelude.{◌≡◌, ◌⊎◌, ℕ, Bool, List, Option, map, Err, IsTrue, OnOk, OnErr};
ghost use Rattle.fast_value.specs.meaning.Views.{message_data};
ghost use Rattle.fast_template.specs.meaning.Flat.{tree_of};
ghost use Rattle.fast_dict.specs.meaning.Dictionary.{fresh};
ghost use Rattle.fast_stream.specs.meaning.Streams.{AreBytes};
ghost use Rattle.fast_decoder.specs.meaning.Decoding.{AreBadLimits};
ghost use Rattle.fast_encoder.specs.meaning.Encoders.{tree};
ghost use Rattle.fast_text.specs.meaning.Streams.{Appends, AppendsFront};
ghost use Rattle.fast_command.specs.meaning.Showing.{IsRefusal};
ghost use Rattle.fast_convert.specs.meaning.Converting.{form, AreWritten, IsWhole, IsConverted};

use fast_command::show::refusal;
use fast_command::{RunFault, read_whole};
use fast_encoder::{EncodeFault, Encoder, MakeError};
use fast_reading::{TextFault, read_lines};
use fast_template::Templates;
use fast_text::{Failed, LineWriter, Room, Source, Target};
use fast_value::{Limits, Message};
use std::alloc::Global;

/// The greatest size of a file of lines, in bytes.
const LIMIT: usize = 67_108_864;

/// Writes the bytes of a message, or a line with their hexadecimal digits.
fn write_bytes<T: Target>(bytes: &[u8], hex: bool, writer: &mut T) -> Result<(), Failed>
    ensures written { OnOk result (Appends (T.written writer.old) (T.written writer.new) (form hex bytes.now)) }
    ensures part { OnErr result (AppendsFront (T.written writer.old) (T.written writer.new) (form hex bytes.now)) }
    ensures fails { OnErr result (IsTrue (T.has_failed writer.new)) }
    ensures stays { OnOk result (T.has_failed writer.new ≡ T.has_failed writer.old) }
    ensures bytes { AreBytes bytes.now }
{
    if !hex {
        return writer.write_all(bytes);
    }
    let mut room = Room::new();
    let mut line = LineWriter::new(writer, &mut room);
    line.put_hex(bytes);
    line.put(b"\n");
    line.finish()
}

/// Encodes messages in order, and writes the bytes of each.
fn write_messages<T: Target>(
    alloc: Global,
    encoder: &mut Encoder<'_>,
    messages: &[Message],
    hex: bool,
    writer: &mut T,
) -> Result<(), RunFault>
    ensures written { AreWritten (tree encoder.old) encoder.old.limits hex encoder.old.dictionary
        (map message_data messages.now) (T.written writer.old) (T.written writer.new) (IsTrue (T.has_failed writer.new))
        result }
    ensures told { (result ≡ Err RunFault.Write) ⊎ (T.has_failed writer.new ≡ T.has_failed writer.old) }
{
    let mut bytes = Vec::new(alloc);
    for (number, message) in messages.iter().enumerate() {
        bytes.clear();
        match encoder.encode(message, &mut bytes) {
            Ok(()) => {}
            Err(EncodeFault::Memory) => return Err(RunFault::Memory),
            Err(fault) => {
                return Err(RunFault::Encode {
                    message: number as u64,
                    fault,
                });
            }
        }
        if write_bytes(&bytes, hex, writer).is_err() {
            return Err(RunFault::Write);
        }
    }
    Ok(())
}

/// Converts lines to the stream of their messages: its bytes, or with `hex` a line of lower case digits for each message. The last LF of
/// the lines may be missing.
///
/// It reads the whole input, of at most 67,108,864 bytes, and parses all lines before it writes anything. If a message is not encoded, the
/// messages before it have been written. The writer is flushed at the end, in either case.
///
/// # Errors
///
/// In this order: no encoder can be made with these limits; the input cannot be read, or is too long; it is not the lines of messages; a
/// message is not encoded. Also, wherever it occurs: an allocation failed, or the writer failed.
pub fn run_convert<S: Source, T: Target>(
    alloc: Global,
    templates: &Templates,
    limits: Limits,
    hex: bool,
    reader: &mut S,
    writer: &mut T,
) -> Result<(), RunFault>
    ensures converted { IsConverted templates.now limits hex (S.left reader.old) (S.left reader.new)
        (T.written writer.old) (T.written writer.new) (IsTrue (S.has_failed reader.new))
        (IsTrue (T.has_failed writer.new)) result }
    // A writer or a reader that fails is reported.
    ensures writer_told { (result ≡ Err RunFault.Write) ⊎ (T.has_failed writer.new ≡ T.has_failed writer.old) }
    ensures reader_told { (result ≡ Err RunFault.Read) ⊎ (S.has_failed reader.new ≡ S.has_failed reader.old) }
    ensures bad_limits { AreBadLimits limits → result ≡ Err (RunFault.Make MakeError.BadLimits) }
    ensures long_initial { IsRefusal templates.now limits MakeError.InitialTooLong
        → result ≡ Err (RunFault.Make MakeError.InitialTooLong) }
{
    let mut encoder = match Encoder::new(alloc, templates, limits) {
        Ok(encoder) => encoder,
        Err(error) => return Err(refusal(error)),
    };
    convert_read(alloc, templates, &mut encoder, hex, reader, writer)
}

/// Reads lines, and converts them to the stream that a new encoder writes for them.
fn convert_read<S: Source, T: Target>(
    alloc: Global,
    templates: &Templates,
    encoder: &mut Encoder<'_>,
    hex: bool,
    reader: &mut S,
    writer: &mut T,
) -> Result<(), RunFault>
    requires set { tree encoder.old ≡ tree_of templates.now }
    requires fresh { encoder.old.dictionary ≡ fresh (tree_of templates.now).entries }
    ensures converted { IsConverted templates.now encoder.old.limits hex (S.left reader.old) (S.left reader.new)
        (T.written writer.old) (T.written writer.new) (IsTrue (S.has_failed reader.new))
        (IsTrue (T.has_failed writer.new)) result }
    ensures writer_told { (result ≡ Err RunFault.Write) ⊎ (T.has_failed writer.new ≡ T.has_failed writer.old) }
    ensures reader_told { (result ≡ Err RunFault.Read) ⊎ (S.has_failed reader.new ≡ S.has_failed reader.old) }
{
    let text = match read_whole(alloc, LIMIT, reader) {
        Ok(text) => text,
        Err(fault) => return Err(fault),
    };
    convert_text(alloc, templates, encoder, &text, hex, writer)
}

/// Converts lines in memory to the stream that a new encoder writes for them.
fn convert_text<T: Target>(
    alloc: Global,
    templates: &Templates,
    encoder: &mut Encoder<'_>,
    text: &[u8],
    hex: bool,
    writer: &mut T,
) -> Result<(), RunFault>
    requires set { tree encoder.old ≡ tree_of templates.now }
    requires fresh { encoder.old.dictionary ≡ fresh (tree_of templates.now).entries }
    // For any reader that has returned the whole input.
    ensures converted { (left_old left_new : Option (List ℕ)) (reader_failed : Bool) → IsWhole left_old left_new text.now
        → IsConverted templates.now encoder.old.limits hex left_old left_new (T.written writer.old) (T.written writer.new)
        (IsTrue reader_failed) (IsTrue (T.has_failed writer.new)) result }
    ensures writer_told { (result ≡ Err RunFault.Write) ⊎ (T.has_failed writer.new ≡ T.has_failed writer.old) }
{
    let messages = match read_lines(alloc, templates, text) {
        Ok(messages) => messages,
        Err(TextFault::BadLine { line, kind }) => return Err(RunFault::Text { line, kind }),
        Err(TextFault::Memory) => return Err(RunFault::Memory),
    };
    let ending = write_messages(alloc, encoder, &messages, hex, writer);
    match writer.flush() {
        Ok(()) => ending,
        Err(_) => Err(RunFault::Write),
    }
}
