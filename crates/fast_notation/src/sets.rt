//! Sets that were read from a file.

ghost use Rattle.std.specs.Prelude.{◌≡◌, ℕ, List, ◌≤◌, ◌<◌, ◌^◌, length, nat_eq};
ghost use Rattle.std.specs.HashMap.{get, get_by_text};
ghost use Rattle.fast_notation.specs.meaning.Labels.{AreInPreorder};
ghost use Rattle.fast_tree.specs.device.Numbers.{HaveDistinctIds, number_of_name, number_of_id};
ghost use Rattle.fast_tree.specs.meaning.Numbers.{NameNodes, NameLaterNodes};
ghost use Rattle.fast_tree.specs.device.Usable.{AreUsable};

use fast_tree::{Node, Template};
use std::collections::HashMap;

/// A set in which no pass finds a fault: its templates, its nodes in preorder with references expanded, the number of its dictionary
/// entries, and the number of each template by its name and by its identifier.
#[derive(Debug, Drop)]
pub struct CheckedSet {
    /// The templates, in the order of the file.
    pub templates: Vec<Template>,
    /// The nodes of all templates.
    pub nodes: Vec<Node>,
    /// The number of entries, with the template identifier's.
    pub entries: u32,
    /// The number of each template by its name.
    pub names: HashMap<String, u32>,
    /// The number of each template that has an identifier by it.
    pub ids: HashMap<u32, u32>,
    ghost few_templates: { length templates.items < 2 ^ 32 },
    ghost few_nodes: { length nodes.items ≤ 65536 },
    ghost has_identifier: { 1 ≤ entries },
    ghost templates_name_nodes: { NameNodes (length nodes.items) templates.items },
    ghost nodes_name_later_nodes: { NameLaterNodes nodes.items },
    ghost nodes_usable: { AreUsable entries nodes.items },
    ghost nodes_in_preorder: { AreInPreorder nodes.items templates.items },
    ghost distinct_ids: { HaveDistinctIds templates.items },
    ghost names_index: { (q : List ℕ) → get_by_text names q ≡ number_of_name q templates.items },
    ghost ids_index: { (q : ℕ) → get nat_eq ids q ≡ number_of_id q templates.items },
}
