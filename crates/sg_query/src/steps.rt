ghost use Rattle.std.specs.Prelude.{◌≡◌, ◌<◌, ◌≤◌, [], ◌∷◌, ◌++◌, length, take, IfSome, IfOk, OnOk};
ghost use Rattle.std.specs.List.{Contains};
ghost use Rattle.sg_base.specs.declared.step.Step.{Step as StepOf};
ghost use Rattle.sg_base.specs.Path.{end_of, reached_by};
ghost use Rattle.sg_query.specs.Steps.{is_fresh, if_any};

use sg_base::{Path, Scope, Step};
use std::alloc::{AllocError, Global};
use std::collections::BTreeSet;
use std::marker::Model;

/// The steps of the path on which a walk stands, which contracts see as a list. No two reach one scope.
#[derive(Drop)]
pub struct Steps {
    items: Vec<Step>,
    reached: BTreeSet<Scope>,
}

impl Model for Steps {
    ghost use Rattle.std.specs.Prelude.{List};
    ghost use Rattle.sg_base.specs.declared.step.Step.{Step};
    ghost use Rattle.sg_base.specs.List.{IsDistinct};
    ghost use Rattle.sg_base.specs.Path.{reached_by};
    ghost use Rattle.sg_query.specs.Steps.{AreReached};

    ghost Value = { List Step };

    ghost view = { λ s. s.items.items };

    ghost invariant = { λ s. IsDistinct (reached_by s.items.items) × AreReached s.items.items s.reached };
}

impl Steps {
    /// No step.
    pub fn none(alloc: Global) -> Steps
        ensures { result ≡ [] }
    {
        Steps {
            items: Vec::new(alloc),
            reached: BTreeSet::new(alloc),
        }
    }

    /// How many steps there are.
    pub fn len(&self) -> usize
        ensures { result ≡ length self.now }
    {
        self.items.len()
    }

    /// The scope where the steps end.
    pub fn end(&self, start: Scope) -> Scope
        ensures { result ≡ end_of start self.now }
    {
        match self.items.as_slice() {
            [] => start,
            [.., last] => last.to,
        }
    }

    /// The scope where the steps, and the last one if it is given, end.
    pub fn end_with(&self, start: Scope, last: &Option<Step>) -> Scope
        ensures { result ≡ end_of start (self.now ++ if_any last.now) }
    {
        match last {
            Some(step) => step.to,
            None => self.end(start),
        }
    }

    /// Whether the steps from the start pass by a scope nowhere, by a look-up among the scopes that they reach.
    pub fn is_fresh(&self, start: Scope, s: Scope) -> bool
        ensures { result ≡ is_fresh start self.now s }
    {
        s != start && !self.reached.contains(&s)
    }

    /// A path of a copy of the steps, and of the last one if it is given.
    pub fn path(&self, alloc: Global, start: Scope, last: &Option<Step>) -> Result<Path, AllocError>
        ensures { IfOk result (λ r. r ≡ record { start = start; steps = self.now ++ if_any last.now }) }
    {
        let mut items = Vec::with_capacity(alloc, self.len().saturating_add(1))?;
        items.extend_from_slice(self.items.as_slice())?;
        if let Some(step) = last {
            items.push(*step)?;
        }
        Ok(Path::new(start, items))
    }

    /// Goes back to the first steps, and takes one more if it is given, in the time of a look-up for each step that
    /// goes and for the one that comes.
    pub fn go_to(&mut self, depth: usize, last: Option<Step>) -> Result<(), AllocError>
        requires within { depth ≤ length self.old }
        requires fresh { IfSome last (λ x. Contains (reached_by (take depth self.old)) x.to → ⊥) }
        ensures { OnOk result (self.new ≡ take depth self.old ++ if_any last) }
    {
        while self.len() > depth {
            self.pop();
        }
        if let Some(step) = last {
            self.push(step)?;
        }
        Ok(())
    }

    /// Takes back the last step.
    fn pop(&mut self)
        requires { 0 < length self.old }
        ensures { (x : StepOf) × (self.old ≡ self.new ++ x ∷ []) }
    {
        if let Some(step) = self.items.pop() {
            self.reached.remove(&step.to);
        }
    }

    /// Takes a step to a scope that none reaches.
    fn push(&mut self, step: Step) -> Result<(), AllocError>
        requires { Contains (reached_by self.old) step.to → ⊥ }
        ensures { OnOk result (self.new ≡ self.old ++ step ∷ []) }
    {
        let to = step.to;
        self.items.push(step)?;
        if let Err(error) = self.reached.insert(to) {
            self.items.pop();
            return Err(error.into());
        }
        Ok(())
    }
}
