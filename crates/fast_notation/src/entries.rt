//! The dictionary entries of a set, numbered in the order of the file.

ghost use Rattle.std.specs.Prelude.{◌≡◌, ◌⊎◌, ◌++◌, ◌∷◌, [], suc, ◌<◌, ◌≤◌, ◌*◌, ◌^◌, slice_get, length, Contains, Some, IfSome, IfNone, IfOk, OnOk};
ghost use Rattle.fast_tree.specs.meaning.AsWritten.{uses};
ghost use Rattle.fast_tree.specs.meaning.Entries.{IsPlace, IsEntry, EntryNumber, keeps_value, Collects, in_scope, uses_from};
ghost use Rattle.fast_notation.specs.device.EntryKeys.{scope_data, use_data, place_data, key_data, entries_of, HasEntry};
ghost use Rattle.fast_tree.specs.meaning.Sizes.{node_limit};
ghost use Rattle.fast_notation.specs.device.Sound.{uses_in};
ghost use Rattle.fast_notation.specs.device.WrittenSets.{instruction_data, templates_data};

use crate::scopes::{OperatorUse, TextScope, exponent_use, length_use, mantissa_use, scalar_use};
use crate::uses::OperatorPart;
use crate::written::{WrittenInstruction, WrittenTemplate};
use fast_tree::Operator;
use indexmap::IndexSet;
use std::alloc::{AllocError, Global};

/// The dictionary of an entry: the global one, that of a template, or one with a name.
#[derive(PartialEq, Eq, Hash, Drop)]
pub(crate) enum EntryPlace {
    Global,
    Template(u32),
    Named(String),
}

/// An entry: its dictionary, and its key there. Parts of decimals and lengths without a name have entries of their own, apart from that of
/// the name.
#[derive(PartialEq, Eq, Hash, Drop)]
pub(crate) struct EntryKey {
    pub(crate) place: EntryPlace,
    pub(crate) key: String,
    pub(crate) part: OperatorPart,
}

/// The entries of a set in the order of the file, without that of the template identifier, which comes first.
#[derive(Drop)]
pub(crate) struct Entries {
    pub(crate) keys: IndexSet<EntryKey>,
}

/// Returns whether the operator keeps a value in the dictionary.
fn keeps_value(operator: Operator) -> bool
    ensures { result ≡ keeps_value operator }
{
    match operator {
        Operator::Copy | Operator::Increment | Operator::Delta | Operator::Tail => true,
        Operator::None | Operator::Constant | Operator::Default => false,
    }
}

/// Returns the dictionary that a name means in a template.
fn place_in(alloc: Global, scope: TextScope<'_>, name: &str) -> Result<EntryPlace, AllocError>
    ensures { IfOk result (λ p. IsPlace (scope_data scope.entry) name.now (place_data p)) }
{
    match name {
        "global" => Ok(EntryPlace::Global),
        "template" => Ok(EntryPlace::Template(scope.template)),
        _ => Ok(EntryPlace::Named(String::from_str(alloc, name)?)),
    }
}

/// Returns the entry of an operator in a template.
fn key_of(
    alloc: Global,
    scope: TextScope<'_>,
    used: OperatorUse<'_>,
) -> Result<EntryKey, AllocError>
    ensures { IfOk result (λ k. IsEntry (scope_data scope.entry) (use_data used.entry) (key_data k)) }
{
    let dictionary = match &used.written.dictionary {
        Some(name) => name.as_str(),
        None => scope.dictionary,
    };
    let place = place_in(alloc, scope, dictionary)?;
    match &used.written.key {
        Some(key) => Ok(EntryKey {
            place,
            key: String::from_str(alloc, key.as_str())?,
            part: OperatorPart::Whole,
        }),
        None => Ok(EntryKey {
            place,
            key: String::from_str(alloc, used.name)?,
            part: used.part,
        }),
    }
}

impl Entries {
    /// Appends an entry, if it is none of those that are there.
    fn add(&mut self, key: EntryKey) -> Result<(), AllocError>
        ensures { OnOk result (Contains (entries_of self.old) (key_data key)
            × (entries_of self.new ≡ entries_of self.old)
            ⊎ ¬ (Contains (entries_of self.old) (key_data key))
            × (entries_of self.new ≡ entries_of self.old ++ key_data key ∷ [])) }
    {
        match self.keys.insert_full(key) {
            Ok(_) => Ok(()),
            Err(_) => Err(AllocError),
        }
    }

    /// Returns the index of an entry.
    fn place_of(&self, key: &EntryKey) -> Option<usize>
        ensures found { IfSome result (λ k. slice_get (entries_of self.now) k ≡ Some (key_data key.now)) }
        ensures none { IfNone result (¬ (Contains (entries_of self.now) (key_data key.now))) }
    {
        self.keys.get_index_of(key)
    }

    /// Returns the number of entries, with the template identifier's.
    pub(crate) fn count(&self) -> u32
        requires { length (entries_of self.now) ≤ 2 * node_limit }
        ensures { result ≡ suc (length (entries_of self.now)) }
    {
        self.keys.len() as u32 + 1
    }

    /// Returns the number of the entry of an operator in a template, if it keeps a value there. The template identifier's is 0.
    pub(crate) fn number_of(
        &self,
        alloc: Global,
        scope: TextScope<'_>,
        used: OperatorUse<'_>,
    ) -> Result<Option<u32>, AllocError>
        requires few { length (entries_of self.now) ≤ 2 * node_limit }
        requires there { HasEntry (entries_of self.now) (scope_data scope) (use_data used) }
        ensures { IfOk result (λ n. EntryNumber (entries_of self.now) (scope_data scope.entry) (use_data used.entry)
            n) }
    {
        if !keeps_value(used.written.operator) {
            return Ok(None);
        }
        let key = key_of(alloc, scope, used)?;
        match self.place_of(&key) {
            Some(place) => Ok(Some(place as u32 + 1)),
            None => unreachable!(),
        }
    }

    /// Adds the entry of an operator in a template, if it has one.
    fn add_use(
        &mut self,
        alloc: Global,
        scope: TextScope<'_>,
        used: OperatorUse<'_>,
    ) -> Result<(), AllocError>
        ensures { OnOk result (Collects (entries_of self.old) ((scope_data scope.entry, use_data used.entry) ∷ [])
            (entries_of self.new)) }
    {
        if keeps_value(used.written.operator) {
            let key = key_of(alloc, scope, used)?;
            self.add(key)?;
        }
        Ok(())
    }

    /// Adds the entries of instructions in a template.
    #[cycle(entries)]
    fn add_fields(
        &mut self,
        alloc: Global,
        scope: TextScope<'_>,
        fields: &[WrittenInstruction],
    ) -> Result<(), AllocError>
        ensures { OnOk result (Collects (entries_of self.old) (in_scope (scope_data scope.entry) (uses_in fields.now))
            (entries_of self.new)) }
    {
        for field in fields {
            self.add_instruction(alloc, scope, field)?;
        }
        Ok(())
    }

    /// Adds the entries of an instruction in a template: an exponent's before a mantissa's, a length's before an element's.
    #[cycle(entries)]
    fn add_instruction(
        &mut self,
        alloc: Global,
        scope: TextScope<'_>,
        instruction: &WrittenInstruction,
    ) -> Result<(), AllocError>
        ensures { OnOk result (Collects (entries_of self.old)
            (in_scope (scope_data scope.entry) (uses (instruction_data instruction.now))) (entries_of self.new)) }
    {
        match instruction {
            WrittenInstruction::Scalar {
                name,
                optional,
                kind,
                operator,
            } => self.add_use(
                alloc,
                scope,
                scalar_use(name.as_str(), *optional, *kind, operator),
            ),
            WrittenInstruction::Parts {
                name,
                optional,
                exponent,
                mantissa,
            } => {
                self.add_use(
                    alloc,
                    scope,
                    exponent_use(name.as_str(), *optional, exponent),
                )?;
                self.add_use(alloc, scope, mantissa_use(name.as_str(), mantissa))
            }
            WrittenInstruction::Group { fields, .. } => self.add_fields(alloc, scope, fields),
            WrittenInstruction::Sequence {
                name,
                optional,
                length_name,
                length,
                fields,
            } => {
                self.add_use(
                    alloc,
                    scope,
                    length_use(name.as_str(), *optional, length_name, length),
                )?;
                self.add_fields(alloc, scope, fields)
            }
            WrittenInstruction::Reference(_) => Ok(()),
        }
    }
}

/// Returns the entries of templates, in the order in which they are first used.
pub(crate) fn collect_entries(
    alloc: Global,
    templates: &[WrittenTemplate],
) -> Result<Entries, AllocError>
    requires { length templates.now < 2 ^ 32 }
    ensures { IfOk result (λ es. Collects [] (uses_from 0 (templates_data templates.now)) (entries_of es)) }
{
    let mut entries = Entries {
        keys: IndexSet::new(alloc),
    };
    for (k, template) in templates.iter().enumerate() {
        let scope = TextScope {
            template: k as u32,
            dictionary: template.dictionary.as_str(),
        };
        entries.add_fields(alloc, scope, &template.fields)?;
    }
    Ok(entries)
}
