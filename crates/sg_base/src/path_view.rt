ghost use Rattle.std.specs.Prelude.{◌≡◌, ◌<◌, [], ◌∷◌, ◌++◌, length, IfOk, MatchOption};
ghost use Rattle.sg_base.specs.Path.{end_of};
ghost use Rattle.sg_base.specs.PathTree.{path_in};

use crate::path::Path;
use crate::path_tree::PathTree;
use crate::scope::Scope;
use crate::step::Step;
use std::alloc::{AllocError, Global};
use std::marker::Model;

/// A path that is read in a tree of paths, from its end to its start.
#[derive(Debug, Drop)]
pub struct PathView<'a> {
    tree: &'a PathTree,
    place: usize,
}

impl<'a> Model for PathView<'a> {
    ghost use Rattle.std.specs.Prelude.{◌<◌, length};
    ghost use Rattle.sg_base.specs.Path.{PathOf};
    ghost use Rattle.sg_base.specs.PathTree.{path_in};

    ghost Value = { PathOf };

    ghost view = { λ v. path_in v.tree.now v.place };

    ghost invariant = { λ v. v.place < length v.tree.now.paths };
}

impl<'a> PathView<'a> {
    /// The path at a place of a tree.
    pub(crate) fn new(tree: &'a PathTree, place: usize) -> PathView<'a>
        requires { place < length tree.now.paths }
        ensures { result ≡ path_in tree.now place }
    {
        PathView { tree, place }
    }

    /// The same path once more, which takes no memory.
    pub fn copy(&self) -> PathView<'a>
        ensures { result ≡ self.now }
    {
        PathView::new(self.tree, self.place)
    }

    /// The scope where the path starts.
    pub fn start(&self) -> Scope
        ensures { result ≡ self.now.start }
    {
        self.tree.start()
    }

    /// How many steps the path has.
    pub fn len(&self) -> usize
        ensures { result ≡ length self.now.steps }
    {
        self.tree.steps_len(self.place)
    }

    /// The scope where the path ends: the target of its last step, or its start where it has no step.
    pub fn end(&self) -> Scope
        ensures { result ≡ end_of self.now.start self.now.steps }
    {
        self.tree.end(self.place)
    }

    /// The path without its last step, and that step; none where the path has no step.
    pub fn split_last(&self) -> Option<(PathView<'a>, Step)>
        ensures { MatchOption result (self.now.steps ≡ []) (λ p. (p.0.start ≡ self.now.start) × (self.now.steps ≡ p.0.steps ++ p.1 ∷ [])) }
    {
        match self.tree.last(self.place) {
            None => None,
            Some((before, step)) => Some((PathView::new(self.tree, before), step)),
        }
    }

    /// A path of its own with the same steps, which are copied.
    pub fn path(&self, alloc: Global) -> Result<Path, AllocError>
        ensures { IfOk result (λ p. p ≡ self.now) }
    {
        let mut steps = Vec::with_capacity(alloc, self.len())?;
        let mut at = self.copy();
        while let Some((before, step)) = at.split_last() {
            steps.push(step)?;
            at = before;
        }
        steps.reverse();
        Ok(Path::new(at.start(), steps))
    }
}
