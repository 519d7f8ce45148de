//! Builds the nodes of a set from its written form, and expands references in place.

mod parts;

ghost use Rattle.std.specs.Prelude.{ℕ, suc, Bool, List, Option, ◌≡◌, ◌<◌, ◌≤◌, ◌*◌, ◌^◌, All, sum_by, length, map, option_map, IfOk, OnOk, string_bytes};
ghost use Rattle.std.specs.HashMap.{get_by_text};
ghost use Rattle.fast_tree.specs.meaning.Entries.{scope_of};
ghost use Rattle.fast_tree.specs.meaning.AsWritten.{Written, scalar, by_parts, group, sequence, reference, no_more, more, length_use};
ghost use Rattle.fast_notation.specs.device.Built.{data_of, IsReady, AreBuilt};
ghost use Rattle.fast_notation.specs.device.Chains.{Fits, nodes_in};
ghost use Rattle.fast_notation.specs.device.EntryKeys.{scope_data, use_data};
ghost use Rattle.fast_notation.specs.device.ReadSets.{IsChecked, IsSetBuilt};
ghost use Rattle.fast_tree.specs.meaning.NodeData.{node_data, outline};
ghost use Rattle.fast_tree.specs.meaning.Nodes.{field_data};
ghost use Rattle.fast_tree.specs.meaning.Sizes.{nesting_limit, node_limit};
ghost use Rattle.fast_notation.specs.meaning.Uses.{IsField};
ghost use Rattle.fast_notation.specs.device.WrittenSets.{instruction_data, operator_data, fields_data, written_data, templates_data};
ghost use Rattle.fast_notation.specs.device.Builders.{templates_in, entries_in, IsBuilder, CanBuildAt, IsBuiltAt};

use crate::entries::{Entries, collect_entries};
use crate::limits::NESTING_LIMIT;
use crate::passes::WrittenSet;
use crate::scopes::{OperatorUse, TextScope, exponent_use, length_use, mantissa_use, scalar_use};
use crate::uses::OperatorPart;
use crate::written::{WrittenInstruction, WrittenOperator, WrittenTemplate};
use fast_tree::{FieldInstruction, Node, Shape, Template};
use fast_value::Kind;
use parts::{add_node, empty_group, initial_of, set_shape, template_of};
use std::alloc::{AllocError, Global};

/// The context of instructions: the scope of the template that contains them, and the number of references that may still be followed.
#[derive(Clone, Copy)]
pub(crate) struct BuildContext<'a> {
    pub(crate) scope: TextScope<'a>,
    pub(crate) chain: usize,
}

impl BuildContext<'_> {
    /// Returns the context of the instructions of the template that a reference names.
    fn behind_reference<'a>(self, number: u32, template: &'a WrittenTemplate) -> BuildContext<'a>
        requires { 1 ≤ self.chain }
        ensures scope { scope_data result.scope ≡ scope_of number (written_data template.now) }
        ensures chain { suc result.chain ≡ self.entry.chain }
    {
        let scope = TextScope {
            template: number,
            dictionary: template.dictionary.as_str(),
        };
        BuildContext {
            scope,
            chain: self.chain - 1,
        }
    }
}

/// Templates with their nodes, and the number of entries.
#[derive(Drop)]
pub(crate) struct BuiltSet {
    pub(crate) templates: Vec<Template>,
    pub(crate) nodes: Vec<Node>,
    pub(crate) entries: u32,
}

/// A set whose nodes are built, with its entries.
#[derive(Clone, Copy)]
pub(crate) struct Builder<'a> {
    pub(crate) alloc: Global,
    pub(crate) set: &'a WrittenSet,
    pub(crate) entries: &'a Entries,
}

impl Builder<'_> {
    /// Builds the nodes of all templates.
    pub(crate) fn build(&self) -> Result<BuiltSet, AllocError>
        requires many { length self.now.set.now.templates.items < 2 ^ 32 }
        requires set { IsBuilder self.now }
        requires fits { All (λ t. Fits (templates_in self.now) nesting_limit t.fields) (templates_in self.now) }
        requires few { sum_by (λ t. nodes_in (templates_in self.now) nesting_limit t.fields) (templates_in self.now)
            ≤ node_limit }
        ensures entries { IfOk result (λ b. b.entries ≡ suc (length (entries_in self.now))) }
        ensures built { IfOk result (λ b. AreBuilt (templates_in self.now) (entries_in self.now) (templates_in self.now)
            (map node_data b.nodes.items) (map outline b.templates.items)) }
    {
        let mut nodes = Vec::new(self.alloc);
        let mut templates = Vec::new(self.alloc);
        for (k, written) in self.set.templates.iter().enumerate() {
            let scope = TextScope {
                template: k as u32,
                dictionary: written.dictionary.as_str(),
            };
            let at = BuildContext {
                scope,
                chain: NESTING_LIMIT as usize,
            };
            let mut body = Vec::new(self.alloc);
            self.build_fields(&mut nodes, &mut body, at, &written.fields)?;
            templates.push(template_of(self.alloc, written, body)?)?;
        }
        Ok(BuiltSet {
            templates,
            nodes,
            entries: self.entries.count(),
        })
    }

    /// Returns the field instruction of a value under an operator.
    fn field_of(
        &self,
        scope: TextScope<'_>,
        used: OperatorUse<'_>,
    ) -> Result<FieldInstruction, AllocError>
        requires few { length (entries_in self.now) ≤ 2 * node_limit }
        requires ready { IsReady (entries_in self.now) (scope_data scope) (use_data used) }
        requires exponent { used.part ≡ OperatorPart.Exponent → used.kind ≡ Kind.Int32 }
        ensures { IfOk result (λ f. IsField (entries_in self.now) (scope_data scope.entry) (use_data used.entry)
            (field_data f)) }
    {
        let entry = self.entries.number_of(self.alloc, scope, used)?;
        Ok(FieldInstruction {
            kind: used.kind,
            optional: used.optional,
            operator: used.written.operator,
            initial: initial_of(self.alloc, used)?,
            entry,
        })
    }

    /// Returns the field instruction of the length of a sequence.
    fn length_of(
        &self,
        scope: TextScope<'_>,
        name: &str,
        optional: bool,
        own: &Option<String>,
        written: &WrittenOperator,
    ) -> Result<FieldInstruction, AllocError>
        requires few { length (entries_in self.now) ≤ 2 * node_limit }
        requires ready { IsReady (entries_in self.now) (scope_data scope)
            (length_use name.now optional (option_map string_bytes own.now) (operator_data written.now)) }
        ensures { IfOk result (λ f. IsField (entries_in self.now) (scope_data scope.entry)
            (length_use name.now optional (option_map string_bytes own.now) (operator_data written.now))
            (field_data f)) }
    {
        self.field_of(scope, length_use(name, optional, own, written))
    }

    /// Builds the node of a field.
    fn build_scalar(
        &self,
        nodes: &mut Vec<Node>,
        body: &mut Vec<u32>,
        at: BuildContext<'_>,
        name: &str,
        optional: bool,
        kind: Kind,
        written: &WrittenOperator,
    ) -> Result<(), AllocError>
        requires set { IsBuilder self.now }
        requires can { CanBuildAt self.now at
            (more (scalar name.now optional kind (operator_data written.now)) no_more) (length (data_of nodes.old)) }
        ensures { OnOk result (IsBuiltAt self.now at.entry
            (more (scalar name.now optional kind (operator_data written.now)) no_more) nodes.old nodes.new
            body.old.items body.new.items) }
    {
        let field = self.field_of(at.scope, scalar_use(name, optional, kind, written))?;
        add_node(self.alloc, nodes, body, name, Shape::Field(field))
    }

    /// Builds the node of a decimal that is sent in two parts.
    fn build_parts(
        &self,
        nodes: &mut Vec<Node>,
        body: &mut Vec<u32>,
        at: BuildContext<'_>,
        name: &str,
        optional: bool,
        exponent: &WrittenOperator,
        mantissa: &WrittenOperator,
    ) -> Result<(), AllocError>
        requires set { IsBuilder self.now }
        requires can { CanBuildAt self.now at (more
            (by_parts name.now optional (operator_data exponent.now) (operator_data mantissa.now)) no_more)
            (length (data_of nodes.old)) }
        ensures { OnOk result (IsBuiltAt self.now at.entry (more
            (by_parts name.now optional (operator_data exponent.now) (operator_data mantissa.now)) no_more) nodes.old
            nodes.new body.old.items body.new.items) }
    {
        let exponent = self.field_of(at.scope, exponent_use(name, optional, exponent))?;
        let mantissa = self.field_of(at.scope, mantissa_use(name, mantissa))?;
        let shape = Shape::Decimal { exponent, mantissa };
        add_node(self.alloc, nodes, body, name, shape)
    }

    /// Builds the nodes of instructions, and appends their numbers to those of the body.
    #[cycle(building)]
    pub(crate) fn build_fields(
        &self,
        nodes: &mut Vec<Node>,
        body: &mut Vec<u32>,
        at: BuildContext<'_>,
        fields: &[WrittenInstruction],
    ) -> Result<(), AllocError>
        requires set { IsBuilder self.now }
        requires can { CanBuildAt self.now at (fields_data fields.now) (length (data_of nodes.old)) }
        ensures { OnOk result (IsBuiltAt self.now at.entry (fields_data fields.now) nodes.old nodes.new body.old.items
            body.new.items) }
    {
        for field in fields {
            self.build_instruction(nodes, body, at, field)?;
        }
        Ok(())
    }

    /// Builds the node of an instruction, and those of all that it contains.
    #[cycle(building)]
    fn build_instruction(
        &self,
        nodes: &mut Vec<Node>,
        body: &mut Vec<u32>,
        at: BuildContext<'_>,
        instruction: &WrittenInstruction,
    ) -> Result<(), AllocError>
        requires set { IsBuilder self.now }
        requires can { CanBuildAt self.now at (more (instruction_data instruction.now) no_more)
            (length (data_of nodes.old)) }
        ensures { OnOk result (IsBuiltAt self.now at.entry (more (instruction_data instruction.now) no_more) nodes.old
            nodes.new body.old.items body.new.items) }
    {
        match instruction {
            WrittenInstruction::Scalar {
                name,
                optional,
                kind,
                operator,
            } => {
                let name = name.as_str();
                self.build_scalar(nodes, body, at, name, *optional, *kind, operator)
            }
            WrittenInstruction::Parts {
                name,
                optional,
                exponent,
                mantissa,
            } => {
                let name = name.as_str();
                self.build_parts(nodes, body, at, name, *optional, exponent, mantissa)
            }
            WrittenInstruction::Group {
                name,
                optional,
                fields,
            } => self.build_group(nodes, body, at, name.as_str(), *optional, fields),
            WrittenInstruction::Sequence {
                name,
                optional,
                length_name,
                length,
                fields,
            } => {
                let name = name.as_str();
                let length = self.length_of(at.scope, name, *optional, length_name, length)?;
                self.build_sequence(nodes, body, at, name, length, fields)
            }
            WrittenInstruction::Reference(name) => {
                self.build_reference(nodes, body, at, name.as_str())
            }
        }
    }

    /// Builds the node of a group before those of its instructions.
    #[cycle(building)]
    fn build_group(
        &self,
        nodes: &mut Vec<Node>,
        body: &mut Vec<u32>,
        at: BuildContext<'_>,
        name: &str,
        optional: bool,
        fields: &[WrittenInstruction],
    ) -> Result<(), AllocError>
        requires set { IsBuilder self.now }
        requires can { CanBuildAt self.now at (fields_data fields.now) (suc (length (data_of nodes.old))) }
        ensures { OnOk result (IsBuiltAt self.now at.entry
            (more (group name.now optional (fields_data fields.now)) no_more) nodes.old nodes.new body.old.items
            body.new.items) }
    {
        let number = nodes.len();
        add_node(self.alloc, nodes, body, name, empty_group(self.alloc))?;
        let mut inner = Vec::new(self.alloc);
        self.build_fields(nodes, &mut inner, at, fields)?;
        let shape = Shape::Group {
            optional,
            body: inner,
        };
        set_shape(nodes, number, shape);
        Ok(())
    }

    /// Builds the node of a sequence before those of an element's instructions.
    #[cycle(building)]
    fn build_sequence(
        &self,
        nodes: &mut Vec<Node>,
        body: &mut Vec<u32>,
        at: BuildContext<'_>,
        name: &str,
        sent: FieldInstruction,
        fields: &[WrittenInstruction],
    ) -> Result<(), AllocError>
        requires set { IsBuilder self.now }
        requires can { CanBuildAt self.now at (fields_data fields.now) (suc (length (data_of nodes.old))) }
        ensures { OnOk result ((optional : Bool) (own : Option (List ℕ)) (w : Written)
            → IsField (entries_in self.now) (scope_data at.entry.scope) (length_use name.now optional own w)
            (field_data sent)
            → IsBuiltAt self.now at.entry (more (sequence name.now optional own w (fields_data fields.now)) no_more)
            nodes.old nodes.new body.old.items body.new.items) }
    {
        let number = nodes.len();
        add_node(self.alloc, nodes, body, name, empty_group(self.alloc))?;
        let mut inner = Vec::new(self.alloc);
        self.build_fields(nodes, &mut inner, at, fields)?;
        let shape = Shape::Sequence {
            length: sent,
            body: inner,
        };
        set_shape(nodes, number, shape);
        Ok(())
    }

    /// Builds the nodes of the instructions of the template that a reference names.
    #[cycle(building)]
    fn build_reference(
        &self,
        nodes: &mut Vec<Node>,
        body: &mut Vec<u32>,
        at: BuildContext<'_>,
        name: &str,
    ) -> Result<(), AllocError>
        requires set { IsBuilder self.now }
        requires can { CanBuildAt self.now at (more (reference name.now) no_more) (length (data_of nodes.old)) }
        ensures { OnOk result (IsBuiltAt self.now at.entry (more (reference name.now) no_more) nodes.old nodes.new
            body.old.items body.new.items) }
    {
        let Some(number) = self.set.names.get(name).copied() else {
            unreachable!();
        };
        let template = &self.set.templates[number as usize];
        let at = at.behind_reference(number, template);
        self.build_fields(nodes, body, at, template.instructions())
    }
}

/// Numbers the entries of a set, and builds its nodes.
pub(crate) fn build_set(alloc: Global, set: &WrittenSet) -> Result<BuiltSet, AllocError>
    requires { IsChecked (get_by_text set.now.names) (templates_data set.now.templates.items) }
    ensures { IfOk result (λ b. IsSetBuilt (templates_data set.now.templates.items) b) }
{
    let entries = collect_entries(alloc, &set.templates)?;
    let builder = Builder {
        alloc,
        set,
        entries: &entries,
    };
    builder.build()
}
