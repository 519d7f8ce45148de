//! Templates that refer to themselves, directly or through others.

ghost use Rattle.std.specs.Prelude.{◌≡◌, ◌<◌, ◌^◌, ◌≢◌, ◌++◌, ℕ, List, true, map, length, All, AllPairs, IsTrue, IfOk, IfSome, OnOk};
ghost use Rattle.std.specs.List.{filter_map};
ghost use Rattle.std.specs.HashMap.{get_by_text};
ghost use Rattle.fast_tree.specs.meaning.AsWritten.{references};
ghost use Rattle.fast_notation.specs.device.Cycles.{numbers, targets_of, IsReached, IsCyclic, AreWithin, LeadsDown, AreRanked};
ghost use Rattle.fast_tree.specs.device.Places.{place_of_name};
ghost use Rattle.fast_notation.specs.meaning.Refused.{StandsAt};
ghost use Rattle.fast_notation.specs.device.References.{references_in};
ghost use Rattle.fast_notation.specs.device.WrittenSets.{instruction_data, templates_data};

use crate::codes::StaticCode;
use crate::components::components_of;
use crate::written::{WrittenInstruction, WrittenTemplate};
use std::alloc::{AllocError, Global};
use std::collections::HashMap;

/// Appends the numbers of the templates that the instructions refer to.
#[cycle(targets)]
fn add_targets(
    targets: &mut Vec<u32>,
    names: &HashMap<String, u32>,
    fields: &[WrittenInstruction],
) -> Result<(), AllocError>
    ensures { OnOk result (targets.new.items
        ≡ targets.old.items ++ filter_map (get_by_text names.now) (references_in fields.now)) }
{
    for field in fields {
        add_target(targets, names, field)?;
    }
    Ok(())
}

/// Appends the numbers of the templates that the instruction refers to.
#[cycle(targets)]
fn add_target(
    targets: &mut Vec<u32>,
    names: &HashMap<String, u32>,
    instruction: &WrittenInstruction,
) -> Result<(), AllocError>
    ensures { OnOk result (targets.new.items
        ≡ targets.old.items ++ filter_map (get_by_text names.now) (references (instruction_data instruction.now))) }
{
    match instruction {
        WrittenInstruction::Scalar { .. } | WrittenInstruction::Parts { .. } => Ok(()),
        WrittenInstruction::Group { fields, .. } => add_targets(targets, names, fields),
        WrittenInstruction::Sequence { fields, .. } => add_targets(targets, names, fields),
        WrittenInstruction::Reference(name) => {
            if let Some(number) = names.get(name.as_str()) {
                targets.push(*number)?;
            }
            Ok(())
        }
    }
}

/// Returns the numbers of the templates that each template refers to.
fn graph_of(
    alloc: Global,
    names: &HashMap<String, u32>,
    templates: &[WrittenTemplate],
) -> Result<Vec<Vec<u32>>, AllocError>
    ensures { IfOk result (λ v. map numbers v.items
        ≡ map (targets_of (get_by_text names.now)) (templates_data templates.now)) }
{
    let mut graph = Vec::new(alloc);
    for template in templates {
        let mut targets = Vec::new(alloc);
        add_targets(&mut targets, names, &template.fields)?;
        graph.push(targets)?;
    }
    Ok(graph)
}

/// Follows the references of a template. Returns whether one of them leads to the start; otherwise those that were not met before are added
/// to `ahead`.
fn follow(
    graph: &[Vec<u32>],
    start: usize,
    template: usize,
    met: &mut [bool],
    ahead: &mut Vec<usize>,
) -> Result<bool, AllocError>
    requires within { AreWithin graph.now }
    requires met { length met.old ≡ length graph.now }
    requires here { IsReached graph.now start template }
    requires reached { All (IsReached graph.now start) ahead.old.items }
    ensures met { length met.new ≡ length graph.now }
    ensures reached { OnOk result (All (IsReached graph.now start) ahead.new.items) }
    ensures cyclic { IfOk result (λ b. b ≡ true → IsCyclic graph.now start) }
{
    for target in &graph[template] {
        let target = *target as usize;
        if target == start {
            return Ok(true);
        }
        if met[target] {
            continue;
        }
        met[target] = true;
        ahead.push(target)?;
    }
    Ok(false)
}

/// Returns whether references lead from the template back to it.
fn is_cyclic(alloc: Global, graph: &[Vec<u32>], start: usize) -> Result<bool, AllocError>
    requires within { AreWithin graph.now }
    requires inside { start < length graph.now }
    ensures { IfOk result (λ b. b ≡ true → IsCyclic graph.now start) }
{
    let mut met = vec![in alloc; false; graph.len()]?;
    let mut ahead = Vec::new(alloc);
    ahead.push(start)?;
    // Each template is ahead at most once.
    for _turn in 0..graph.len() {
        let Some(template) = ahead.pop() else {
            return Ok(false);
        };
        if follow(graph, start, template, &mut met, &mut ahead)? {
            return Ok(true);
        }
    }
    Ok(false)
}

/// Returns whether references lead to templates of no greater rank, or, if `is_strict`, of a lesser one.
fn lead_down(targets: &[u32], ranks: &[usize], rank: usize, is_strict: bool) -> bool
    ensures { IsTrue result → All (LeadsDown ranks.now is_strict rank) targets.now }
{
    for target in targets {
        let Some(next) = ranks.get(*target as usize) else {
            return false;
        };
        if *next > rank || is_strict && *next == rank {
            return false;
        }
    }
    true
}

/// Returns whether no reference leads to a template of a greater rank, and none from the templates before the first to one of the same
/// rank. Then none of those refers to itself, directly or through others.
fn are_ranked(graph: &[Vec<u32>], ranks: &[usize], first: usize) -> bool
    ensures { IsTrue result → AreRanked graph.now ranks.now first }
{
    for (k, targets) in graph.iter().enumerate() {
        let Some(rank) = ranks.get(k) else {
            return false;
        };
        if !lead_down(targets, ranks, *rank, k < first) {
            return false;
        }
    }
    true
}

/// Returns the first template that refers to itself, directly or through others.
pub(crate) fn first_cyclic(
    alloc: Global,
    names: &HashMap<String, u32>,
    templates: &[WrittenTemplate],
) -> Result<Option<usize>, AllocError>
    requires few { length templates.now < 2 ^ 32 }
    requires index { (q : List ℕ) → get_by_text names.now q ≡ place_of_name q (templates_data templates.now) }
    ensures cyclic { IfOk result (λ o. IfSome o (λ k. (k < 2 ^ 32)
        × StandsAt (templates_data templates.now) StaticCode.C3 k)) }
    ensures first { AllPairs (λ a b. a.name ≢ b.name) (templates_data templates.now)
        → IfOk result (λ o. IfSome o (λ k. (j : ℕ) → j < k
        → ¬ (StandsAt (templates_data templates.now) StaticCode.C3 j))) }
{
    let graph = graph_of(alloc, names, templates)?;
    let components = components_of(alloc, &graph)?;
    let Some(first) = components.first else {
        return Ok(None);
    };
    // The walk proposes the template. Its ranks show that no earlier one refers to itself, and the search that it does.
    if first >= graph.len() || !are_ranked(&graph, &components.ranks, first) {
        return Ok(None);
    }
    if is_cyclic(alloc, &graph, first)? {
        return Ok(Some(first));
    }
    Ok(None)
}
