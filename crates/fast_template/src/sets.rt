//! Checked template sets.

ghost use Rattle.std.specs.Prelude.{◌≡◌, ℕ, List, ◌≤◌, ◌<◌, ◌^◌, length, nat_eq};
ghost use Rattle.std.specs.HashMap.{get, get_by_text};
ghost use Rattle.fast_notation.specs.meaning.Labels.{AreInPreorder};
ghost use Rattle.fast_tree.specs.device.Numbers.{HaveDistinctIds, number_of_name, number_of_id};
ghost use Rattle.fast_tree.specs.meaning.Numbers.{NameNodes, NameLaterNodes};
ghost use Rattle.fast_program.specs.device.Programs.{IsProgramOf};
ghost use Rattle.fast_tree.specs.device.Usable.{AreUsable};
ghost use Rattle.fast_tree.specs.device.Bodies.{AreNodeWidths, AreTemplateWidths};

use fast_program::Program;
use fast_tree::{Node, Template};
use std::collections::HashMap;

/// A checked template set. Templates are numbered from 0 in the order of the file; nodes, which are the instructions of all templates with
/// references expanded in place, from 0 in preorder.
#[derive(Debug, Drop)]
pub struct Templates {
    pub(crate) templates: Vec<Template>,
    pub(crate) nodes: Vec<Node>,
    pub(crate) program: Program,
    pub(crate) segment_widths: Vec<usize>,
    pub(crate) message_widths: Vec<usize>,
    pub(crate) entries: u32,
    pub(crate) names: HashMap<String, u32>,
    pub(crate) ids: HashMap<u32, u32>,
    ghost few_templates: { length templates.items < 2 ^ 32 },
    ghost few_nodes: { length nodes.items ≤ 65536 },
    ghost has_identifier: { 1 ≤ entries },
    ghost templates_name_nodes: { NameNodes (length nodes.items) templates.items },
    ghost nodes_name_later_nodes: { NameLaterNodes nodes.items },
    ghost nodes_usable: { AreUsable entries nodes.items },
    ghost nodes_in_preorder: { AreInPreorder nodes.items templates.items },
    ghost program_of_set: { ∥ IsProgramOf program templates.items nodes.items ∥₁ },
    ghost widths_of_nodes: { AreNodeWidths nodes.items segment_widths.items },
    ghost widths_of_templates: { AreTemplateWidths nodes.items templates.items message_widths.items },
    ghost distinct_ids: { HaveDistinctIds templates.items },
    ghost names_index: { (q : List ℕ) → get_by_text names q ≡ number_of_name q templates.items },
    ghost ids_index: { (q : ℕ) → get nat_eq ids q ≡ number_of_id q templates.items },
}
