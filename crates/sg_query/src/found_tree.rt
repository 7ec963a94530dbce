ghost use Rattle.std.specs.Prelude.{◌≡◌, [], map, OnOk, OnErr};
ghost use Rattle.sg_query.specs.Found.{found_in, with_path, AreThere};

use crate::found_at::FoundAt;
use sg_base::{PathTree, Scope, Step};
use std::alloc::{AllocError, Global};
use std::marker::Model;

/// Paths that were found from one scope, each with the datum at its end. They share their fronts.
#[derive(Debug, Drop)]
pub struct FoundTree<D> {
    pub(crate) paths: PathTree,
    pub(crate) found: Vec<FoundAt<D>>,
}

impl<D> Model for FoundTree<D> {
    ghost use Rattle.std.specs.Prelude.{map};
    ghost use Rattle.sg_query.specs.Found.{FoundTreeOf, found_in, AreThere};

    ghost Value = { FoundTreeOf D };

    ghost view = { λ t. record { start = t.paths.start; found = map (found_in t.paths) t.found.items } };

    ghost invariant = { λ t. AreThere t.paths t.found.items };
}

impl<D: Drop> FoundTree<D> {
    /// No path. Takes no memory.
    pub fn new(alloc: Global, start: Scope) -> FoundTree<D>
        ensures { result ≡ record { start = start; found = [] } }
    {
        FoundTree {
            paths: PathTree::new(alloc, start),
            found: Vec::new(alloc),
        }
    }

    /// These paths of a tree, which are moved.
    pub fn of(paths: PathTree, found: Vec<FoundAt<D>>) -> FoundTree<D>
        requires { AreThere paths found.items }
        ensures { result ≡ record { start = paths.start; found = map (found_in paths) found.items } }
    {
        FoundTree { paths, found }
    }

    /// The tree of the paths, and where each ends in it. They are moved.
    pub(crate) fn parts(self) -> (PathTree, Vec<FoundAt<D>>)
        ensures there { AreThere result.0 result.1.items }
        ensures start { self.start ≡ result.0.start }
        ensures found { self.found ≡ map (found_in result.0) result.1.items }
    {
        let FoundTree { paths, found } = self;
        (paths, found)
    }

    /// Adds a path by its steps, which shares no front with another. Takes the time of the steps.
    pub fn add(&mut self, steps: &[Step], datum: D) -> Result<(), AllocError>
        ensures ok { OnOk result (self.new ≡ with_path self.old steps.now datum) }
        ensures err { OnErr result (self.new ≡ self.old) }
    {
        let mut place = self.paths.first();
        for step in steps {
            place = self.paths.push(place, *step)?;
        }
        self.found.push(FoundAt { place, datum })?;
        Ok(())
    }
}
