//! The template set of a call.

ghost use Rattle.std.specs.Prelude.{IfOk, IfErr, IsTrue};
ghost use Rattle.fast_command.specs.meaning.Sets.{IsSetRead, IsSetRefused};

use crate::faults::RunFault;
use crate::texts::read_whole;
use fast_template::{StaticCode, StaticFault, Templates};
use fast_text::Source;
use std::alloc::Global;

/// The greatest size of a template file in bytes.
pub const TEXT_LIMIT: usize = 16_777_216;

/// Reads a template set from a TOML file of at most 16,777,216 bytes.
///
/// # Errors
///
/// - `Read` if the file cannot be read, or is larger.
/// - Then `Templates` if it is not a template set; S1 if it is not UTF-8.
/// - `Memory` if an allocation failed.
pub fn read_templates<S: Source>(alloc: Global, reader: &mut S) -> Result<Templates, RunFault>
    ensures set { IfOk result (λ t. IsSetRead (S.left reader.old) (S.left reader.new) t) }
    ensures refused { IfErr result
        (λ e. IsSetRefused (S.left reader.old) (S.left reader.new) (IsTrue (S.has_failed reader.new)) e) }
{
    let text = read_whole(alloc, TEXT_LIMIT, reader)?;
    match str::from_utf8(&text) {
        Ok(text) => Ok(Templates::read(alloc, text)?),
        Err(_) => Err(RunFault::Templates(StaticFault {
            code: StaticCode::S1,
            template: None,
        })),
    }
}
