//! A template set as one list of ops.

ghost use Rattle.std.specs.Prelude.{◌≡◌, ◌<◌, ◌≤◌, ◌^◌, [], IfOk, OnOk, List, length, map};
ghost use Rattle.fast_tree.specs.declared.instructions.Node.{Node};
ghost use Rattle.fast_tree.specs.declared.instructions.Template.{Template};
ghost use Rattle.fast_tree.specs.meaning.Numbers.{numbers_of, AreBelow, NameNodes, NameLaterNodes};
ghost use Rattle.fast_program.specs.device.Ops.{general_op};
ghost use Rattle.fast_program.specs.device.Runs.{Begins};
ghost use Rattle.fast_program.specs.device.Starts.{IsStartOf, AreInOrder};
ghost use Rattle.fast_program.specs.device.Programs.{Extends, AreStarts, BeginsNode, IsProgramOf};

use crate::codes::Code;
use crate::ops::Op;
use crate::starts::Start;
use fast_tree::{Node, Shape, Template};
use std::alloc::{AllocError, Global};

/// The bodies of a template set, each a run of its nodes' ops followed by an end, and where they begin. The first op is an end: all empty
/// bodies begin there.
#[derive(Debug, Drop)]
pub struct Program {
    /// The runs, one after the other.
    pub ops: Vec<Op>,
    /// Where the messages of each template start.
    pub template_starts: Vec<Start>,
    /// The index at which the body of each node begins: that of a group, of an element of a sequence, or an empty one.
    pub body_starts: Vec<usize>,
}

/// Returns the end of a body.
fn end(at: u32) -> Op
    ensures code { result.code ≡ Code.End }
    ensures at { result.at ≡ at }
{
    Op {
        code: Code::End,
        node: 0,
        entry: 0,
        at,
    }
}

/// Returns the nodes within a node.
fn body_of(node: &Node) -> &[u32]
    ensures { result.now ≡ numbers_of node.now.shape }
{
    match &node.shape {
        Shape::Field(_) | Shape::Decimal { .. } => &[],
        Shape::Group { body, .. } | Shape::Sequence { body, .. } => body.as_slice(),
    }
}

/// Returns the index of the next op. A program of more ops than a `u32` can count fails as if an allocation had failed.
fn next_place(ops: &Vec<Op>) -> Result<u32, AllocError>
    ensures { IfOk result (λ at. at ≡ length ops.now.items) }
{
    u32::try_from(ops.len()).map_err(|_| AllocError)
}

/// Appends the run of a body, and returns where it begins.
fn add_body(ops: &mut Vec<Op>, nodes: &[Node], body: &[u32]) -> Result<usize, AllocError>
    requires few { length nodes.now ≤ 65536 }
    requires below { AreBelow (length nodes.now) body.now }
    requires rests { Begins ops.old.items 0 [] }
    ensures begins { IfOk result (λ at. Begins ops.new.items at body.now) }
    ensures extends { OnOk result (Extends nodes.now ops.old.items ops.new.items) }
{
    if body.is_empty() {
        return Ok(0);
    }
    let start = ops.len();
    for number in body {
        let node = &nodes[*number as usize];
        let at = next_place(ops)?;
        ops.push(Op::of(at, *number as u16, &node.shape))?;
    }
    let at = next_place(ops)?;
    ops.push(end(at))?;
    Ok(start)
}

/// Appends the runs of templates, and returns where their messages start.
fn add_templates(
    alloc: Global,
    ops: &mut Vec<Op>,
    templates: &[Template],
    nodes: &[Node],
) -> Result<Vec<Start>, AllocError>
    requires few { length nodes.now ≤ 65536 }
    requires few_templates { length templates.now < 2 ^ 32 }
    requires below { NameNodes (length nodes.now) templates.now }
    requires rests { Begins ops.old.items 0 [] }
    ensures starts { IfOk result (λ starts. AreStarts IsStartOf ops.new.items starts.items templates.now) }
    ensures order { IfOk result (λ starts. AreInOrder starts.items) }
    ensures extends { OnOk result (Extends nodes.now ops.old.items ops.new.items) }
{
    let mut starts = Vec::with_capacity(alloc, templates.len())?;
    for (number, template) in templates.iter().enumerate() {
        let at = add_body(ops, nodes, &template.body)?;
        starts.push(Start::of(template, number as u32, at))?;
    }
    Ok(starts)
}

/// Appends the runs of groups and sequences, and returns where they begin.
fn add_bodies(alloc: Global, ops: &mut Vec<Op>, nodes: &[Node]) -> Result<Vec<usize>, AllocError>
    requires few { length nodes.now ≤ 65536 }
    requires later { NameLaterNodes nodes.now }
    requires rests { Begins ops.old.items 0 [] }
    ensures starts { IfOk result (λ starts. AreStarts BeginsNode ops.new.items starts.items nodes.now) }
    ensures extends { OnOk result (Extends nodes.now ops.old.items ops.new.items) }
{
    let mut starts = Vec::with_capacity(alloc, nodes.len())?;
    for node in nodes {
        let start = add_body(ops, nodes, body_of(node))?;
        starts.push(start)?;
    }
    Ok(starts)
}

/// Gives each op but an end the code `General`.
fn generalize_ops(ops: &mut [Op])
    ensures { ops.new ≡ map general_op ops.old }
{
    for op in ops.iter_mut() {
        *op = op.generalized();
    }
}

impl Program {
    /// Makes the program of a template set. Fails only if an allocation fails, or the program has more ops than a `u32` can count.
    pub fn of(alloc: Global, templates: &[Template], nodes: &[Node]) -> Result<Program, AllocError>
        requires few { length nodes.now ≤ 65536 }
        requires few_templates { length templates.now < 2 ^ 32 }
        requires below { NameNodes (length nodes.now) templates.now }
        requires later { NameLaterNodes nodes.now }
        ensures { IfOk result (λ program. IsProgramOf program templates.now nodes.now) }
    {
        let mut ops = Vec::with_capacity(alloc, nodes.len())?;
        ops.push(end(0))?;
        let template_starts = add_templates(alloc, &mut ops, templates, nodes)?;
        let body_starts = add_bodies(alloc, &mut ops, nodes)?;
        Ok(Program {
            ops,
            template_starts,
            body_starts,
        })
    }

    /// Gives each op but an end the code `General`: the decoder's loop then leaves every node to the general path.
    pub fn generalize(&mut self)
        ensures ops { self.new.ops.items ≡ map general_op self.old.ops.items }
        ensures template_starts { self.new.template_starts ≡ self.old.template_starts }
        ensures body_starts { self.new.body_starts ≡ self.old.body_starts }
        ensures is { (ts : List Template) (ns : List Node) → IsProgramOf self.old ts ns → IsProgramOf self.new ts ns }
    {
        generalize_ops(&mut self.ops);
    }
}
