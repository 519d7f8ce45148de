//! The strongly connected components of the templates that refer to one another.

ghost use Rattle.std.specs.Prelude.{◌≡◌, ◌<◌, length, vec_len, All};
ghost use Rattle.fast_notation.specs.device.Cycles.{AreWithin};

use std::alloc::{AllocError, Global};

/// The result of a walk.
#[derive(Drop)]
pub(crate) struct Components {
    /// The first template that was found to refer to itself, directly or through others.
    pub(crate) first: Option<usize>,
    /// For each template a number: no reference leads to a greater one, and to the same one only in a component.
    pub(crate) ranks: Vec<usize>,
}

/// A template on the path from where the walk began.
#[derive(Clone, Copy)]
struct Step {
    template: usize,
    /// The index of the template on the stack, from 1 on.
    place: usize,
    /// The number of its references that have been followed.
    followed: usize,
}

/// A depth-first walk along all references that finds the strongly connected components (Tarjan's algorithm, without
/// recursion).
#[derive(Drop)]
struct Walk<'a> {
    graph: &'a [Vec<u32>],
    /// For each template the lowest index on the stack that it is known to lead to; 0 if it was not met, and the number of its component
    /// once that is closed.
    lowlinks: Vec<usize>,
    /// The templates that were met and whose components are not closed.
    stack: Vec<usize>,
    path: Vec<Step>,
    /// The number of the component that was closed last, after each index on the stack.
    closed: usize,
    /// The first template that was found to refer to itself, directly or through others.
    first: Option<usize>,
    ghost graph_within: { AreWithin graph.now },
    ghost lowlinks_long: { vec_len lowlinks ≡ length graph.now },
    ghost stack_within: { All (λ k. k < length graph.now) stack.items },
    ghost path_within: { All (λ s. s.template < length graph.now) path.items },
}

impl<'a> Walk<'a> {
    ghost use Rattle.std.specs.Prelude.{◌≡◌, ◌<◌, length, IfOk};
    ghost use Rattle.fast_notation.specs.device.Cycles.{AreWithin};

    fn new(alloc: Global, graph: &'a [Vec<u32>]) -> Result<Walk<'a>, AllocError>
        requires { AreWithin graph.now }
        ensures { IfOk result (λ w. w.graph.now ≡ graph.now) }
    {
        Ok(Walk {
            graph,
            lowlinks: vec![in alloc; 0; graph.len()]?,
            stack: Vec::new(alloc),
            path: Vec::new(alloc),
            closed: graph.len(),
            first: None,
        })
    }

    /// Records that a template leads to the one at this index on the stack.
    fn lower(&mut self, template: usize, place: usize)
        requires { template < length self.old.graph.now }
        ensures { self.new.graph ≡ self.old.graph }
    {
        self.lowlinks[template] = self.lowlinks[template].min(place);
    }

    /// Records that a template refers to itself.
    fn note(&mut self, template: usize)
        requires { template < length self.old.graph.now }
        ensures { self.new.graph ≡ self.old.graph }
    {
        self.first = Some(match self.first {
            Some(first) => first.min(template),
            None => template,
        });
    }

    /// Goes on to a template that was not met.
    fn enter(&mut self, template: usize) -> Result<(), AllocError>
        requires { template < length self.old.graph.now }
        ensures { self.new.graph ≡ self.old.graph }
    {
        self.stack.push(template)?;
        let place = self.stack.len();
        self.lowlinks[template] = place;
        self.path.push(Step {
            template,
            place,
            followed: 0,
        })?;
        Ok(())
    }

    /// Follows one reference or goes back one template. Returns `false` at the end of the walk.
    fn turn(&mut self) -> Result<bool, AllocError>
        ensures { self.new.graph ≡ self.old.graph }
    {
        let Some(mut step) = self.path.pop() else {
            return Ok(false);
        };
        if let Some(target) = self.graph[step.template].get(step.followed) {
            let target = *target as usize;
            let template = step.template;
            step.followed += 1;
            self.path.push(step)?;
            self.follow(template, target)?;
        } else {
            self.leave(step);
        }
        Ok(true)
    }

    /// Follows at most `turns` references or steps back, fewer if the walk ends before.
    fn take_turns(&mut self, turns: usize) -> Result<(), AllocError>
        ensures { self.new.graph ≡ self.old.graph }
    {
        for _ in 0..turns {
            if !self.turn()? {
                return Ok(());
            }
        }
        Ok(())
    }

    /// Walks from a template, unless it was met before.
    fn walk_from(&mut self, template: usize, turns: usize) -> Result<(), AllocError>
        requires { template < length self.old.graph.now }
        ensures { self.new.graph ≡ self.old.graph }
    {
        if self.lowlinks[template] != 0 {
            return Ok(());
        }
        self.enter(template)?;
        self.take_turns(turns)
    }

    /// Follows a reference.
    fn follow(&mut self, template: usize, target: usize) -> Result<(), AllocError>
        requires template { template < length self.old.graph.now }
        requires target { target < length self.old.graph.now }
        ensures { self.new.graph ≡ self.old.graph }
    {
        if template == target {
            self.note(target);
        }
        match self.lowlinks[target] {
            0 => self.enter(target)?,
            place => self.lower(template, place),
        }
        Ok(())
    }

    /// Goes back from a template whose references have all been followed.
    fn leave(&mut self, step: Step)
        requires { step.template < length self.old.graph.now }
        ensures { self.new.graph ≡ self.old.graph }
    {
        let place = self.lowlinks[step.template];
        if place == step.place {
            self.close(place);
        } else if let Some(before) = self.path.last() {
            let template = before.template;
            self.lower(template, place);
        }
    }

    /// Closes the component of the templates on the stack from an index on. If they are more than one, they refer to each other.
    fn close(&mut self, place: usize)
        ensures { self.new.graph ≡ self.old.graph }
    {
        self.closed = self.closed.saturating_add(1);
        let is_cycle = self.stack.len() > place;
        for _ in place..=self.stack.len() {
            self.close_last(is_cycle);
        }
    }

    /// Closes the last template on the stack.
    fn close_last(&mut self, is_cycle: bool)
        ensures { self.new.graph ≡ self.old.graph }
    {
        let Some(template) = self.stack.pop() else {
            return;
        };
        self.lowlinks[template] = self.closed;
        if is_cycle {
            self.note(template);
        }
    }
}

/// Returns the number of steps of a walk along all references: each template is left once, and each reference followed once.
fn turns_of(graph: &[Vec<u32>]) -> usize {
    let mut turns: usize = 1;
    for targets in graph {
        turns = turns.saturating_add(targets.len()).saturating_add(1);
    }
    turns
}

/// Returns the components of all templates.
pub(crate) fn components_of(alloc: Global, graph: &[Vec<u32>]) -> Result<Components, AllocError>
    requires { AreWithin graph.now }
{
    let turns = turns_of(graph);
    let mut walk = Walk::new(alloc, graph)?;
    for template in 0..graph.len() {
        walk.walk_from(template, turns)?;
    }
    Ok(Components {
        first: walk.first,
        ranks: walk.lowlinks,
    })
}
