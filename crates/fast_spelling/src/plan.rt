//! The constant part of an encoder, and the state that changes with each message.

ghost use Rattle.std.specs.Prelude.{◌≡◌, ◌<◌, Some, length, slice_get, IfOk};
ghost use Rattle.fast_tree.specs.declared.instructions.Node.{Node};
ghost use Rattle.fast_tree.specs.declared.instructions.Template.{Template};
ghost use Rattle.fast_tree.specs.meaning.Numbers.{numbers_of};
ghost use Rattle.fast_template.specs.meaning.Flat.{nodes_of, templates_of};
ghost use Rattle.fast_spelling.specs.device.Forms.{body_steps, AreBodies, AreRoots};

use crate::draft::Draft;
use crate::forms::{BodyStep, bodies_of, roots_of};
use crate::ledger::Ledger;
use fast_template::Templates;
use fast_value::Limits;
use std::alloc::{AllocError, Global};

/// The part of an encoder that is the same for all messages.
#[derive(Drop)]
pub struct Plan<'t> {
    /// The template set.
    pub templates: &'t Templates,
    /// The limits.
    pub limits: Limits,
    /// The steps of the bodies of the templates, by template number.
    pub roots: Vec<Vec<BodyStep>>,
    /// The steps of the bodies of groups and sequences, by node number; none for other nodes.
    pub bodies: Vec<Vec<BodyStep>>,
    ghost roots_fit: { AreRoots (nodes_of templates.now) (templates_of templates.now) roots.items },
    ghost bodies_fit: { AreBodies (nodes_of templates.now) bodies.items },
}

impl<'t> Plan<'t> {
    /// Makes the constant part of an encoder.
    ///
    /// # Errors
    ///
    /// An allocation failed.
    pub fn new(
        alloc: Global,
        templates: &'t Templates,
        limits: Limits,
    ) -> Result<Plan<'t>, AllocError>
        ensures { IfOk result (λ p. (p.templates ≡ templates.entry) × (p.limits ≡ limits)) }
    {
        Ok(Plan {
            templates,
            limits,
            roots: roots_of(alloc, templates)?,
            bodies: bodies_of(alloc, templates)?,
        })
    }

    /// Returns the steps of a template's body.
    #[inline(always)]
    pub fn root(&self, template: u32) -> &[BodyStep]
        requires { template < length (templates_of self.now.templates.now) }
        ensures { (t : Template) → slice_get (templates_of self.now.templates.now) template ≡ Some t
            → result.now ≡ body_steps (nodes_of self.now.templates.now) t.body.items }
    {
        &self.roots[template as usize]
    }

    /// Returns the steps of the body of a node.
    #[inline(always)]
    pub fn body(&self, node: u32) -> &[BodyStep]
        requires { node < length (nodes_of self.now.templates.now) }
        ensures { (x : Node) → slice_get (nodes_of self.now.templates.now) node ≡ Some x
            → result.now ≡ body_steps (nodes_of self.now.templates.now) (numbers_of x.shape) }
    {
        &self.bodies[node as usize]
    }
}

/// The message that is being encoded, and the dictionary.
#[derive(Drop)]
pub struct Work {
    /// The bytes and presence bits so far.
    pub draft: Draft,
    /// The dictionary.
    pub ledger: Ledger,
    /// The number of elements that the message may still have.
    pub room: u32,
}
