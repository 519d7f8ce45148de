//! Reads a template set from a TOML file's contents.

ghost use Rattle.std.specs.Prelude.{◌≡◌, ◌≢◌, None, Some, IfOk, IfErr};
ghost use Rattle.toml.specs.Data.{Members};
ghost use Rattle.toml.specs.Parse.{parse_document};
ghost use Rattle.fast_notation.specs.meaning.Checked.{IsTree};
ghost use Rattle.fast_notation.specs.meaning.Firsts.{IsFirstFault};
ghost use Rattle.fast_notation.specs.meaning.FivePasses.{IsAtFault};
ghost use Rattle.fast_template.specs.meaning.Flat.{tree_of};
ghost use Rattle.fast_tree.specs.meaning.Tree.{Tree};

use crate::sets::Templates;
use crate::widths::{message_widths_of, segment_widths_of};
use fast_notation::{CheckedSet, StaticCode, StaticFault};
use fast_program::Program;
use std::alloc::Global;

/// Returns the fault of a failed allocation.
fn no_memory() -> StaticFault
    ensures code { result.code ≡ StaticCode.Memory }
    ensures template { result.template ≡ None }
{
    StaticFault {
        code: StaticCode::Memory,
        template: None,
    }
}

impl Templates {
    /// Reads a template set from the contents of a TOML file: the array `template` of tables, one for each template.
    ///
    /// # Errors
    ///
    /// The fault of the first pass that finds one, at the first template that has it: S1, C1, C2, S2 to S5, D8, C3, C4, C6, C5. Or that an
    /// allocation failed.
    pub fn read(alloc: Global, text: &str) -> Result<Templates, StaticFault>
        ensures read { IfOk result (λ t. (document : Members) × (parse_document text.now ≡ Some document)
            × IsTree document (tree_of t)) }
        ensures fault { IfErr result (λ e. IsAtFault (parse_document text.now) e.code e.template) }
        ensures first { IfErr result (λ e. IsFirstFault (parse_document text.now) e.code e.template) }
        ensures none { IfErr result (λ e. e.code ≢ StaticCode.Memory → (document : Members) (t : Tree)
            → parse_document text.now ≡ Some document → ¬ (IsTree document t)) }
    {
        let set = CheckedSet::read(alloc, text)?;
        let Ok(program) = Program::of(alloc, &set.templates, &set.nodes) else {
            return Err(no_memory());
        };
        let Ok(segment_widths) = segment_widths_of(alloc, &set.nodes) else {
            return Err(no_memory());
        };
        let Ok(message_widths) = message_widths_of(alloc, &set.templates, &set.nodes) else {
            return Err(no_memory());
        };
        Ok(Templates {
            templates: set.templates,
            nodes: set.nodes,
            program,
            segment_widths,
            message_widths,
            entries: set.entries,
            names: set.names,
            ids: set.ids,
        })
    }
}
