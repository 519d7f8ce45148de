//! Reads a template file into templates and nodes.

ghost use Rattle.std.specs.Prelude.{◌≡◌, ◌≢◌, Some, IfOk, IfErr};
ghost use Rattle.toml.specs.Data.{Members};
ghost use Rattle.toml.specs.Parse.{parse_document};
ghost use Rattle.fast_notation.specs.meaning.Checked.{IsTree};
ghost use Rattle.fast_notation.specs.meaning.Firsts.{IsFirstFault};
ghost use Rattle.fast_notation.specs.meaning.FivePasses.{IsAtFault};
ghost use Rattle.fast_notation.specs.meaning.SetTrees.{tree_of_set};
ghost use Rattle.fast_tree.specs.meaning.Tree.{Tree};

use crate::building::build_set;
use crate::chains::check_chains;
use crate::codes::{StaticCode, StaticFault};
use crate::passes::read_set;
use crate::segments::check_segments;
use crate::sets::CheckedSet;
use std::alloc::Global;

impl CheckedSet {
    /// Reads a set from the contents of a TOML file: the array `template` of tables, one for each template.
    ///
    /// # Errors
    ///
    /// The fault of the first pass that finds one, at the first template that has it: S1, C1, C2, S2 to S5, D8, C3, C4, C6, C5. Or that an
    /// allocation failed.
    pub fn read(alloc: Global, text: &str) -> Result<CheckedSet, StaticFault>
        ensures read { IfOk result (λ s. (document : Members) × (parse_document text.now ≡ Some document)
            × IsTree document (tree_of_set s)) }
        ensures fault { IfErr result (λ e. IsAtFault (parse_document text.now) e.code e.template) }
        ensures first { IfErr result (λ e. IsFirstFault (parse_document text.now) e.code e.template) }
        ensures none { IfErr result (λ e. e.code ≢ StaticCode.Memory → (document : Members) (t : Tree)
            → parse_document text.now ≡ Some document → ¬ (IsTree document t)) }
    {
        let set = read_set(alloc, text)?;
        check_chains(alloc, &set)?;
        let Ok(built) = build_set(alloc, &set) else {
            return Err(StaticFault {
                code: StaticCode::Memory,
                template: None,
            });
        };
        if let Err(template) = check_segments(&built.nodes, &built.templates) {
            return Err(StaticFault {
                code: StaticCode::C5,
                template: Some(template),
            });
        }
        Ok(CheckedSet {
            templates: built.templates,
            nodes: built.nodes,
            entries: built.entries,
            names: set.names,
            ids: set.ids,
        })
    }
}
