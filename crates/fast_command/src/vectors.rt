//! The built-in template set.

ghost use Rattle.std.specs.Prelude.{◌≡◌, Some, IfOk};
ghost use Rattle.toml.specs.Data.{Members};
ghost use Rattle.toml.specs.Parse.{parse_document};
ghost use Rattle.fast_notation.specs.meaning.Checked.{IsTree};
ghost use Rattle.fast_template.specs.meaning.Flat.{tree_of};

pub use fast_template::VECTORS;
use fast_template::{StaticFault, Templates};
use std::alloc::Global;

/// Reads the built-in set from its TOML text.
///
/// # Errors
///
/// An allocation failed.
pub fn built_in(alloc: Global) -> Result<Templates, StaticFault>
    ensures { IfOk result (λ t. (document : Members) × (parse_document VECTORS.now ≡ Some document)
        × IsTree document (tree_of t)) }
{
    Templates::read(alloc, VECTORS)
}
