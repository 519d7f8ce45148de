//! The passes over a written set, each of which looks at the whole set.

ghost use Rattle.std.specs.Prelude.{◌≡◌, ◌≢◌, ◌<◌, ◌^◌, ℕ, List, nat_eq, is_some, length, take, All, AllPairs, Some, IfSome, IsSome, IfOk, IfErr, OnOk};
ghost use Rattle.std.specs.List.{list_all};
ghost use Rattle.std.specs.HashMap.{get, get_by_text};
ghost use Rattle.fast_tree.specs.meaning.AsWritten.{all_uses, references, all_references};
ghost use Rattle.fast_notation.specs.meaning.Faults.{IsFaultAt, fault_of};
ghost use Rattle.fast_notation.specs.meaning.Firsts.{pass_of};
ghost use Rattle.fast_tree.specs.device.Places.{place_of_name, place_of_id};
ghost use Rattle.fast_notation.specs.device.References.{references_in, KnowsReferences};
ghost use Rattle.fast_notation.specs.device.Sound.{IsSound};
ghost use Rattle.fast_notation.specs.device.WrittenSets.{instruction_data, templates_data};

use crate::codes::{StaticCode, StaticFault};
use crate::uses::check_fields;
use crate::written::{WrittenInstruction, WrittenTemplate};
use std::alloc::Global;
use std::collections::HashMap;

/// Returns a fault at a template. A failed allocation names none.
fn fault_at(code: StaticCode, template: usize) -> StaticFault
    requires { template < 2 ^ 32 }
    ensures { result ≡ fault_of code template }
{
    match code {
        StaticCode::Memory => StaticFault {
            code,
            template: None,
        },
        _ => StaticFault {
            code,
            template: Some(template as u32),
        },
    }
}

/// Makes the fourth pass: operators that do not suit their types, and initial values that are missing or not of their types.
pub(crate) fn check_uses(alloc: Global, templates: &[WrittenTemplate]) -> Result<(), StaticFault>
    requires { length templates.now < 2 ^ 32 }
    ensures sound { OnOk result (All (λ t. All IsSound (all_uses t.fields)) (templates_data templates.now)) }
    ensures fault { IfErr result (λ e. IsFaultAt (templates_data templates.now) e.code e.template) }
    ensures first { IfErr result (λ e. IfSome e.template (λ k. (pass_of e.code ≡ 3)
        × All (λ t. All IsSound (all_uses t.fields)) (take k (templates_data templates.now)))) }
{
    for (k, template) in templates.iter().enumerate() {
        if let Err(code) = check_fields(alloc, &template.fields) {
            return Err(fault_at(code, k));
        }
    }
    Ok(())
}

/// Makes the second pass, which finds a name that two templates have. Returns the number of each template by its name.
pub(crate) fn index_names(
    alloc: Global,
    templates: &[WrittenTemplate],
) -> Result<HashMap<String, u32>, StaticFault>
    requires { length templates.now < 2 ^ 32 }
    ensures names { OnOk result (AllPairs (λ a b. a.name ≢ b.name) (templates_data templates.now)) }
    ensures index { IfOk result (λ m. (q : List ℕ) → get_by_text m q ≡ place_of_name q (templates_data templates.now)) }
    ensures fault { IfErr result (λ e. IsFaultAt (templates_data templates.now) e.code e.template) }
    ensures first { IfErr result (λ e. IfSome e.template (λ k. (e.code ≡ StaticCode.C1)
        × AllPairs (λ a b. a.name ≢ b.name) (take k (templates_data templates.now)))) }
{
    let mut names = HashMap::new(alloc);
    for (k, template) in templates.iter().enumerate() {
        if names.get(template.name.as_str()).is_some() {
            return Err(fault_at(StaticCode::C1, k));
        }
        let Ok(name) = String::from_str(alloc, template.name.as_str()) else {
            return Err(fault_at(StaticCode::Memory, k));
        };
        let Ok(_) = names.insert(name, k as u32) else {
            return Err(fault_at(StaticCode::Memory, k));
        };
    }
    Ok(names)
}

/// Makes the third pass, which finds an identifier that two templates have. Returns the number of each template by its identifier.
pub(crate) fn index_ids(
    alloc: Global,
    templates: &[WrittenTemplate],
) -> Result<HashMap<u32, u32>, StaticFault>
    requires { length templates.now < 2 ^ 32 }
    ensures ids { OnOk result (AllPairs (λ a b. (id : ℕ) → a.id ≡ Some id → b.id ≢ Some id)
        (templates_data templates.now)) }
    ensures index { IfOk result (λ m. (q : ℕ) → get nat_eq m q ≡ place_of_id q (templates_data templates.now)) }
    ensures fault { IfErr result (λ e. IsFaultAt (templates_data templates.now) e.code e.template) }
    ensures first { IfErr result (λ e. IfSome e.template (λ k. (e.code ≡ StaticCode.C2)
        × AllPairs (λ a b. (id : ℕ) → a.id ≡ Some id → b.id ≢ Some id) (take k (templates_data templates.now)))) }
{
    let mut ids = HashMap::new(alloc);
    for (k, template) in templates.iter().enumerate() {
        let Some(id) = template.id else {
            continue;
        };
        if ids.get(&id).is_some() {
            return Err(fault_at(StaticCode::C2, k));
        }
        let Ok(_) = ids.insert(id, k as u32) else {
            return Err(fault_at(StaticCode::Memory, k));
        };
    }
    Ok(ids)
}

/// Returns whether each reference of the instructions names a template.
#[cycle(references)]
fn are_known(names: &HashMap<String, u32>, fields: &[WrittenInstruction]) -> bool
    ensures { result ≡ list_all (λ q. is_some (get_by_text names.now q)) (references_in fields.now) }
{
    for field in fields {
        if !is_known(names, field) {
            return false;
        }
    }
    true
}

/// Returns whether each reference of an instruction names a template.
#[cycle(references)]
fn is_known(names: &HashMap<String, u32>, instruction: &WrittenInstruction) -> bool
    ensures { result ≡ list_all (λ q. is_some (get_by_text names.now q))
        (references (instruction_data instruction.now)) }
{
    match instruction {
        WrittenInstruction::Scalar { .. } | WrittenInstruction::Parts { .. } => true,
        WrittenInstruction::Group { fields, .. } => are_known(names, fields),
        WrittenInstruction::Sequence { fields, .. } => are_known(names, fields),
        WrittenInstruction::Reference(name) => names.get(name.as_str()).is_some(),
    }
}

/// Makes the fifth pass: each reference names a template.
pub(crate) fn check_references(
    names: &HashMap<String, u32>,
    templates: &[WrittenTemplate],
) -> Result<(), StaticFault>
    requires few { length templates.now < 2 ^ 32 }
    requires index { (q : List ℕ) → get_by_text names.now q ≡ place_of_name q (templates_data templates.now) }
    ensures known { OnOk result (KnowsReferences (templates_data templates.now)) }
    ensures fault { IfErr result (λ e. IsFaultAt (templates_data templates.now) e.code e.template) }
    ensures first { IfErr result (λ e. IfSome e.template (λ k. (e.code ≡ StaticCode.D8)
        × All (λ t. All (λ name. IsSome (place_of_name name (templates_data templates.now))) (all_references t.fields))
        (take k (templates_data templates.now)))) }
{
    for (k, template) in templates.iter().enumerate() {
        if !are_known(names, &template.fields) {
            return Err(fault_at(StaticCode::D8, k));
        }
    }
    Ok(())
}
