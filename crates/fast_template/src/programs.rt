//! The bodies of a set as a program of ops, which the decoder's loop runs.

ghost use Rattle.std.specs.Prelude.{◌≡◌, ◌<◌, [], Some, length, map, slice_get};
ghost use Rattle.fast_tree.specs.declared.instructions.Node.{Node};
ghost use Rattle.fast_tree.specs.declared.instructions.Template.{Template};
ghost use Rattle.fast_tree.specs.meaning.Numbers.{numbers_of};
ghost use Rattle.fast_program.specs.device.Ops.{general_op};
ghost use Rattle.fast_program.specs.device.Runs.{AreNumbered, Begins};
ghost use Rattle.fast_program.specs.device.Programs.{SuitNodes};
ghost use Rattle.fast_program.specs.device.Starts.{IsStartOf};
ghost use Rattle.fast_template.specs.meaning.Flat.{templates_of, nodes_of, tree_of};
ghost use Rattle.fast_template.specs.device.Programs.{program_of};

use crate::sets::Templates;
use fast_program::{Op, Start};

impl Templates {
    /// Returns the bodies of all templates, groups and sequences, each a run of its nodes' ops followed by an end. The first op is an end.
    #[inline(always)]
    pub fn program(&self) -> &[Op]
        ensures is { result.now ≡ program_of self.now }
        ensures rests { Begins result.now 0 [] }
        ensures numbered { AreNumbered result.now }
        ensures suits { SuitNodes result.now (nodes_of self.now) }
    {
        &self.program.ops
    }

    /// Returns the start of the messages of template `i`.
    #[inline(always)]
    pub fn start_of(&self, i: u32) -> &Start
        requires { i < length (templates_of self.now) }
        ensures start { (t : Template) × (slice_get (templates_of self.now) i ≡ Some t)
            × IsStartOf (program_of self.now) result.now t }
        ensures number { result.now.number ≡ i }
    {
        &self.program.template_starts[i as usize]
    }

    /// Returns the index in the program at which the body of node `n` begins: that of a group, or of an element of a sequence.
    #[inline]
    pub fn body_start(&self, n: u32) -> usize
        requires { n < length (nodes_of self.now) }
        ensures { (x : Node) → slice_get (nodes_of self.now) n ≡ Some x
            → Begins (program_of self.now) result (numbers_of x.shape) }
    {
        self.program.body_starts[n as usize]
    }

    /// Returns the set without specialized opcodes: a decoder then reads each field on its general path. The events of every stream are
    /// the same. This is for tests.
    pub fn on_general_path(mut self) -> Templates
        ensures templates { templates_of result ≡ templates_of self }
        ensures nodes { nodes_of result ≡ nodes_of self }
        ensures tree { tree_of result ≡ tree_of self }
        ensures program { program_of result ≡ map general_op (program_of self) }
    {
        self.program.generalize();
        self
    }
}
