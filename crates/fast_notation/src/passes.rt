//! The first five passes over a template file, in their order.

ghost use Rattle.std.specs.Prelude.{◌≡◌, ℕ, List, nat_eq, IfOk, IfErr};
ghost use Rattle.std.specs.HashMap.{get, get_by_text};
ghost use Rattle.toml.specs.Parse.{parse_document};
ghost use Rattle.fast_notation.specs.meaning.Firsts.{IsFirstFault};
ghost use Rattle.fast_notation.specs.meaning.FivePasses.{IsWellWritten, IsAtFault};
ghost use Rattle.fast_tree.specs.device.Places.{place_of_name, place_of_id};
ghost use Rattle.fast_notation.specs.device.WrittenSets.{templates_data};

use crate::checks::{check_references, check_uses, index_ids, index_names};
use crate::codes::StaticFault;
use crate::documents::read_written;
use crate::written::WrittenTemplate;
use std::alloc::Global;
use std::collections::HashMap;

/// A written set, with the number of each template by its name and by its identifier.
#[derive(Drop)]
pub(crate) struct WrittenSet {
    pub(crate) templates: Vec<WrittenTemplate>,
    pub(crate) names: HashMap<String, u32>,
    pub(crate) ids: HashMap<u32, u32>,
}

/// Reads the written set of a file, in which the first five passes find no fault: shape, names, identifiers, operators, references.
pub(crate) fn read_set(alloc: Global, text: &str) -> Result<WrittenSet, StaticFault>
    ensures set { IfOk result (λ s. IsWellWritten (parse_document text.now) (templates_data s.templates.items)) }
    ensures names { IfOk result (λ s. (q : List ℕ)
        → get_by_text s.names q ≡ place_of_name q (templates_data s.templates.items)) }
    ensures ids { IfOk result (λ s. (q : ℕ) → get nat_eq s.ids q ≡ place_of_id q (templates_data s.templates.items)) }
    ensures fault { IfErr result (λ e. IsAtFault (parse_document text.now) e.code e.template) }
    ensures first { IfErr result (λ e. IsFirstFault (parse_document text.now) e.code e.template) }
{
    let templates = read_written(alloc, text)?;
    let names = index_names(alloc, &templates)?;
    let ids = index_ids(alloc, &templates)?;
    check_uses(alloc, &templates)?;
    check_references(&names, &templates)?;
    Ok(WrittenSet {
        templates,
        names,
        ids,
    })
}
