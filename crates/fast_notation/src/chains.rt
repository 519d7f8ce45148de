//! Chains of references: which of them never end or are too long, and the number of nodes that they expand to, all of it computed before
//! any reference is expanded.

ghost use Rattle.std.specs.Prelude.{◌≡◌, ◌≢◌, ◌↔◌, ◌<◌, ◌≤◌, ◌^◌, ℕ, suc, List, is_some, length, replicate, take, sum_by, All, AllPairs, Some, None, IsTrue, IfSome, IfOk, IfErr, OnOk};
ghost use Rattle.std.specs.List.{list_all};
ghost use Rattle.std.specs.HashMap.{get_by_text};
ghost use Rattle.fast_tree.specs.meaning.AsWritten.{all_uses};
ghost use Rattle.fast_notation.specs.device.Chains.{Fits, nodes_in, depth_in};
ghost use Rattle.fast_notation.specs.device.Extents.{named_extent, next_extents, known_nodes, AreExtents, IsShallow, IsDeepAt};
ghost use Rattle.fast_notation.specs.meaning.Faults.{IsFaultAt};
ghost use Rattle.fast_notation.specs.meaning.Firsts.{IsFirstInChains};
ghost use Rattle.fast_tree.specs.device.Places.{place_of_name};
ghost use Rattle.fast_notation.specs.meaning.Refused.{StandsAt};
ghost use Rattle.fast_notation.specs.device.References.{KnowsReferences};
ghost use Rattle.fast_tree.specs.meaning.Sizes.{nesting_limit, node_limit};
ghost use Rattle.fast_notation.specs.device.Sound.{IsSound};
ghost use Rattle.fast_notation.specs.device.WrittenSets.{templates_data};

use crate::codes::{StaticCode, StaticFault};
use crate::cycles::first_cyclic;
use crate::extents::{Extent, extent_of_fields};
use crate::limits::{NESTING_LIMIT, NODE_LIMIT};
use crate::passes::WrittenSet;
use crate::written::WrittenTemplate;
use std::alloc::{AllocError, Global};
use std::collections::HashMap;

/// The fault of a failed allocation.
const NO_MEMORY: StaticFault = StaticFault {
    code: StaticCode::Memory,
    template: None,
};

/// Returns `count` extents, none of which is known.
fn nothing_known(alloc: Global, count: usize) -> Result<Vec<Option<Extent>>, AllocError>
    ensures { IfOk result (λ v. v.items ≡ replicate count None) }
{
    vec![in alloc; None; count]
}

/// Returns whether the extent of each template is known.
fn are_known(extents: &[Option<Extent>]) -> bool
    ensures { result ≡ list_all is_some extents.now }
{
    for extent in extents {
        if extent.is_none() {
            return false;
        }
    }
    true
}

/// Computes one round: the extents that were known, and those of templates that refer only to such.
fn next_extents(
    alloc: Global,
    names: &HashMap<String, u32>,
    templates: &[WrittenTemplate],
    extents: &[Option<Extent>],
) -> Result<Vec<Option<Extent>>, AllocError>
    requires { length extents.now ≡ length templates.now }
    ensures { IfOk result (λ v. v.items
        ≡ next_extents (named_extent (get_by_text names.now) extents.now) extents.now (templates_data templates.now)) }
{
    let mut next = Vec::new(alloc);
    for (k, template) in templates.iter().enumerate() {
        let extent = match extents[k] {
            Some(extent) => Some(extent),
            None => extent_of_fields(names, extents, &template.fields),
        };
        next.push(extent)?;
    }
    Ok(next)
}

/// Returns the extents of all templates from which no chain of more than 64 references leads on.
fn extents_of(
    alloc: Global,
    names: &HashMap<String, u32>,
    templates: &[WrittenTemplate],
) -> Result<Vec<Option<Extent>>, AllocError>
    requires index { (q : List ℕ) → get_by_text names.now q ≡ place_of_name q (templates_data templates.now) }
    requires apart { AllPairs (λ a b. a.name ≢ b.name) (templates_data templates.now) }
    requires known { KnowsReferences (templates_data templates.now) }
    ensures { IfOk result (λ v. AreExtents (templates_data templates.now) (suc nesting_limit) v.items) }
{
    let mut extents = nothing_known(alloc, templates.len())?;
    for _round in 0..=NESTING_LIMIT {
        if are_known(&extents) {
            return Ok(extents);
        }
        extents = next_extents(alloc, names, templates, &extents)?;
    }
    Ok(extents)
}

/// Returns whether the extent is known and not too deep.
fn is_shallow(extent: Option<Extent>) -> bool
    ensures { IsTrue result ↔ IsShallow extent }
{
    matches!(extent, Some(e) if e.depth <= NESTING_LIMIT)
}

/// Checks that no chain of references is too long, and that groups and sequences do not nest too deep.
fn check_depths(extents: &[Option<Extent>]) -> Result<(), StaticFault>
    requires { length extents.now < 2 ^ 32 }
    ensures shallow { OnOk result (All IsShallow extents.now) }
    ensures fault { IfErr result (λ e. (k : ℕ) × (e.code ≡ StaticCode.C4) × (e.template ≡ Some k)
        × IsDeepAt extents.now k) }
    ensures first { IfErr result (λ e. (k : ℕ) × (e.code ≡ StaticCode.C4) × (e.template ≡ Some k)
        × All IsShallow (take k extents.now)) }
{
    for (k, extent) in extents.iter().enumerate() {
        if !is_shallow(*extent) {
            return Err(StaticFault {
                code: StaticCode::C4,
                template: Some(k as u32),
            });
        }
    }
    Ok(())
}

/// Returns the number of nodes, if the extent is known.
fn known_nodes(extent: Option<Extent>) -> u32
    ensures { result ≡ known_nodes extent }
{
    extent.map_or(0, |e| e.nodes)
}

/// Checks that the templates have no more nodes than a set may have.
fn check_nodes(extents: &[Option<Extent>]) -> Result<(), StaticFault>
    requires { length extents.now < 2 ^ 32 }
    ensures few { OnOk result (sum_by known_nodes extents.now ≤ node_limit) }
    ensures fault { IfErr result (λ e. (k : ℕ) × (e.code ≡ StaticCode.C6) × (e.template ≡ Some k)
        × (k < length extents.now) × (node_limit < sum_by known_nodes (take (suc k) extents.now))) }
    ensures first { IfErr result (λ e. (k : ℕ) × (e.code ≡ StaticCode.C6) × (e.template ≡ Some k)
        × (sum_by known_nodes (take k extents.now) ≤ node_limit)) }
{
    let mut room = NODE_LIMIT;
    for (k, extent) in extents.iter().enumerate() {
        let nodes = known_nodes(*extent);
        if nodes > room {
            return Err(StaticFault {
                code: StaticCode::C6,
                template: Some(k as u32),
            });
        }
        room -= nodes;
    }
    Ok(())
}

/// Checks that no template refers to itself, directly or through others.
fn check_cycles(
    alloc: Global,
    names: &HashMap<String, u32>,
    templates: &[WrittenTemplate],
) -> Result<(), StaticFault>
    requires few { length templates.now < 2 ^ 32 }
    requires index { (q : List ℕ) → get_by_text names.now q ≡ place_of_name q (templates_data templates.now) }
    ensures fault { IfErr result (λ e. IsFaultAt (templates_data templates.now) e.code e.template) }
    ensures first { AllPairs (λ a b. a.name ≢ b.name) (templates_data templates.now)
        → IfErr result (λ e. IfSome e.template (λ k. (e.code ≡ StaticCode.C3)
        × ((j : ℕ) → j < k → ¬ (StandsAt (templates_data templates.now) StaticCode.C3 j)))) }
{
    match first_cyclic(alloc, names, templates) {
        Ok(None) => Ok(()),
        Ok(Some(template)) => Err(StaticFault {
            code: StaticCode::C3,
            template: Some(template as u32),
        }),
        Err(_) => Err(NO_MEMORY),
    }
}

/// Makes the sixth, seventh and eighth pass over a set in which the first five find no fault: no template refers to itself; no chain of
/// references is too long, and no template too deep; and there are not too many nodes.
pub(crate) fn check_chains(alloc: Global, set: &WrittenSet) -> Result<(), StaticFault>
    requires few { length set.now.templates.items < 2 ^ 32 }
    requires names { (q : List ℕ) → get_by_text set.now.names q
        ≡ place_of_name q (templates_data set.now.templates.items) }
    requires apart { AllPairs (λ a b. a.name ≢ b.name) (templates_data set.now.templates.items) }
    requires known { KnowsReferences (templates_data set.now.templates.items) }
    requires sound { All (λ t. All IsSound (all_uses t.fields)) (templates_data set.now.templates.items) }
    ensures fits { OnOk result (All (λ t. Fits (templates_data set.now.templates.items) nesting_limit t.fields)
        (templates_data set.now.templates.items)) }
    ensures shallow { OnOk result (All (λ t. depth_in (templates_data set.now.templates.items) nesting_limit t.fields
        ≤ nesting_limit) (templates_data set.now.templates.items)) }
    ensures few_nodes { OnOk result (sum_by
        (λ t. nodes_in (templates_data set.now.templates.items) nesting_limit t.fields)
        (templates_data set.now.templates.items) ≤ node_limit) }
    ensures fault { IfErr result (λ e. IsFaultAt (templates_data set.now.templates.items) e.code e.template) }
    ensures first { IfErr result (λ e. IfSome e.template
        (IsFirstInChains (templates_data set.now.templates.items) e.code)) }
{
    let Ok(extents) = extents_of(alloc, &set.names, &set.templates) else {
        return Err(NO_MEMORY);
    };
    if !are_known(&extents) {
        check_cycles(alloc, &set.names, &set.templates)?;
    }
    check_depths(&extents)?;
    check_nodes(&extents)
}
