ghost use Rattle.std.specs.Prelude.{◌≡◌, ◌<◌, length, slice_index_or, IfOk};
ghost use Rattle.sg_query.specs.Found.{ShareSteps};

use crate::found_tree::FoundTree;
use crate::found_view::FoundView;
use std::alloc::{AllocError, Global};
use std::marker::Model;
use std::sync::Arc;

/// Paths that a query found, which contracts see as a list. They share their fronts, and whoever keeps them shares one tree,
/// which lives as long as one of them does.
#[derive(Debug, Drop)]
pub struct FoundPaths<D: Drop> {
    tree: Arc<FoundTree<D>, Global>,
}

impl<D: Drop> Model for FoundPaths<D> {
    ghost use Rattle.std.specs.Arc.{arc_value};
    ghost use Rattle.std.specs.Prelude.{List};
    ghost use Rattle.sg_query.specs.declared.found.Found.{Found};

    ghost Value = { List (Found D) };

    ghost view = { λ f. (arc_value f.tree).found };
}

impl<D: Drop> FoundPaths<D> {
    /// These paths, which are moved. Takes memory for a count, whatever their number.
    pub fn new(alloc: Global, tree: FoundTree<D>) -> Result<FoundPaths<D>, AllocError>
        ensures { IfOk result (λ r. r ≡ tree.found) }
    {
        let tree = Arc::new(alloc, tree)?;
        Ok(FoundPaths { tree })
    }

    /// How many paths there are.
    pub fn len(&self) -> usize
        ensures { result ≡ length self.now }
    {
        let tree = &*self.tree;
        tree.found.len()
    }

    /// The path at an index, with its datum.
    pub fn at(&self, k: usize) -> FoundView<'_, D>
        requires { k < length self.now }
        ensures { result ≡ slice_index_or self.now k result }
    {
        let tree = &*self.tree;
        let found = &tree.found[k];
        FoundView {
            path: tree.paths.path(found.place),
            datum: &found.datum,
        }
    }

    /// How many steps are the same at the beginning of the paths at two indices, which all start at one scope. It takes the
    /// time of the steps behind the place where the two part in their tree.
    pub fn shared_len(&self, j: usize, k: usize) -> usize
        requires first { j < length self.now }
        requires second { k < length self.now }
        ensures { ShareSteps self.now j k result }
    {
        let tree = &*self.tree;
        tree.paths
            .shared_len(tree.found[j].place, tree.found[k].place)
    }

    /// The same paths once more, which costs a count: no path is copied. An error where too many share them.
    pub fn share(&self) -> Result<FoundPaths<D>, AllocError>
        ensures { IfOk result (λ r. r ≡ self.now) }
    {
        let tree = Arc::try_clone(&self.tree)?;
        Ok(FoundPaths { tree })
    }
}
