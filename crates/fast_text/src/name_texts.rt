//! The names of a template set's nodes and templates.

ghost use Rattle.std.specs.Prelude.{◌≡◌};
ghost use Rattle.fast_template.specs.meaning.Flat.{tree_of};
ghost use Rattle.fast_lines.specs.meaning.Lines.{template_name, node_name};

use fast_template::Templates;

/// Returns the name of a template, or an empty string if the set has no such template.
pub(crate) fn template_text(templates: &Templates, template: u32) -> &str
    ensures { result.now ≡ template_name (tree_of templates.now) template }
{
    if template < templates.count() {
        templates.template(template).name.as_str()
    } else {
        ""
    }
}

/// Returns the name of a node, or an empty string if the set has no such node.
pub(crate) fn node_text(templates: &Templates, node: u32) -> &str
    ensures { result.now ≡ node_name (tree_of templates.now) node }
{
    if node < templates.nodes() {
        templates.node(node).name.as_str()
    } else {
        ""
    }
}
