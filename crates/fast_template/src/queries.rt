//! Queries of a template set. None of them allocates.

ghost use Rattle.std.specs.Prelude.{◌≡◌, ◌≢◌, ◌≤◌, ◌<◌, ℕ, length, slice_get, Some, IfSome, IfNone, string_bytes};
ghost use Rattle.fast_tree.specs.declared.instructions.Template.{Template};
ghost use Rattle.fast_tree.specs.declared.instructions.Node.{Node};
ghost use Rattle.fast_template.specs.meaning.Flat.{templates_of, nodes_of, tree_of};
ghost use Rattle.fast_notation.specs.meaning.Labels.{template_labels, labels_from};
ghost use Rattle.fast_tree.specs.meaning.Tree.{HasDistinctIds};
ghost use Rattle.fast_tree.specs.meaning.NodeData.{shape_data};
ghost use Rattle.fast_tree.specs.meaning.Usable.{IsUsableShape};
ghost use Rattle.fast_tree.specs.meaning.Numbers.{numbers_of, AreBelow, AreBetween};

use crate::sets::Templates;
use fast_tree::{Node, Template};

impl Templates {
    /// Returns the number of templates.
    pub fn count(&self) -> u32
        ensures { result ≡ length (templates_of self.now) }
    {
        self.templates.len() as u32
    }

    /// Returns the number of nodes, at most 65,536.
    pub fn nodes(&self) -> u32
        ensures number { result ≡ length (nodes_of self.now) }
        ensures few { result ≤ 65536 }
        ensures preorder { template_labels (tree_of self.now).templates ≡ labels_from 0 (nodes_of self.now) }
    {
        self.nodes.len() as u32
    }

    /// Returns the number of dictionary entries. Entry 0 is that of the template identifier.
    pub fn entries(&self) -> u32
        ensures number { result ≡ (tree_of self.now).entries }
        ensures some { 1 ≤ result }
    {
        self.entries
    }

    /// Returns template `i`, numbered from 0.
    #[inline]
    pub fn template(&self, i: u32) -> &Template
        requires { i < length (templates_of self.now) }
        ensures found { slice_get (templates_of self.now) i ≡ Some result.now }
        ensures body { AreBelow (length (nodes_of self.now)) result.now.body.items }
    {
        &self.templates[i as usize]
    }

    /// Returns node `n`, numbered from 0.
    #[inline]
    pub fn node(&self, n: u32) -> &Node
        requires { n < length (nodes_of self.now) }
        ensures found { slice_get (nodes_of self.now) n ≡ Some result.now }
        ensures body { AreBetween n (length (nodes_of self.now)) (numbers_of result.now.shape) }
        ensures usable { IsUsableShape (tree_of self.now).entries (shape_data result.now.shape) }
    {
        &self.nodes[n as usize]
    }

    /// Returns the number of the template with this identifier, if there is one.
    #[inline]
    pub fn by_id(&self, id: u32) -> Option<u32>
        ensures found { IfSome result (λ i. (t : Template) × (slice_get (templates_of self.now) i ≡ Some t)
            × (t.id ≡ Some id)) }
        ensures first { IfSome result (λ i. (j : ℕ) (t : Template) → j < i
            → slice_get (templates_of self.now) j ≡ Some t → t.id ≢ Some id) }
        ensures none { IfNone result ((j : ℕ) (t : Template) → slice_get (templates_of self.now) j ≡ Some t
            → t.id ≢ Some id) }
        ensures distinct { HasDistinctIds (tree_of self.now) }
    {
        self.ids.get(&id).copied()
    }

    /// Returns the number of the template with this name, if there is one.
    pub fn by_name(&self, name: &str) -> Option<u32>
        ensures found { IfSome result (λ i. (t : Template) × (slice_get (templates_of self.now) i ≡ Some t)
            × (string_bytes t.name ≡ name.now)) }
        ensures first { IfSome result (λ i. (j : ℕ) (t : Template) → j < i
            → slice_get (templates_of self.now) j ≡ Some t → string_bytes t.name ≢ name.now) }
        ensures none { IfNone result ((j : ℕ) (t : Template) → slice_get (templates_of self.now) j ≡ Some t
            → string_bytes t.name ≢ name.now) }
    {
        self.names.get(name).copied()
    }
}
