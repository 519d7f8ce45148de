//! Inputs that are read whole.

ghost use Rattle.std.specs.Prelude.{◌≡◌, ◌⊎◌, ◌≤◌, length, Err, IfOk, IfErr, IsTrue};
ghost use Rattle.std.specs.Io.KnownBytes.{IsAtEnd};
ghost use Rattle.fast_text.specs.meaning.Streams.{Reads};
ghost use Rattle.fast_command.specs.meaning.Texts.{IsUnread};

use crate::faults::RunFault;
use fast_text::Source;
use std::alloc::Global;

/// The greatest number of bytes of one read.
const READ_SIZE: usize = 4096;

/// Reads a whole input, of at most `limit` bytes. A longer one cannot be read.
pub fn read_whole<S: Source>(
    alloc: Global,
    limit: usize,
    reader: &mut S,
) -> Result<Vec<u8>, RunFault>
    ensures whole { IfOk result (λ v. Reads (S.left reader.old) (S.left reader.new) v.items) }
    ensures end { IfOk result (λ v. IsAtEnd (S.left reader.new)) }
    ensures short { IfOk result (λ v. length v.items ≤ limit) }
    ensures unread { IfErr result
        (IsUnread limit (S.left reader.old) (S.left reader.new) (IsTrue (S.has_failed reader.new))) }
    ensures told { (result ≡ Err RunFault.Read) ⊎ (S.has_failed reader.new ≡ S.has_failed reader.old) }
{
    let mut text = Vec::new(alloc);
    let mut buffer = [0; READ_SIZE];
    for _read in 0..=limit {
        let Ok(count) = reader.read(&mut buffer) else {
            return Err(RunFault::Read);
        };
        if count == 0 {
            return Ok(text);
        }
        if text.extend_from_slice(&buffer[..count]).is_err() {
            return Err(RunFault::Memory);
        }
        if text.len() > limit {
            return Err(RunFault::Read);
        }
    }
    Err(RunFault::Read)
}
