ghost use Rattle.std.specs.Prelude.{◌≡◌, IfOk};
ghost use Rattle.std.specs.List.{Contains};
ghost use Rattle.sg_query.specs.declared.found.Found.{Found as FoundOf};

use crate::found::Found;
use crate::found_tree::FoundTree;
use sg_base::Scope;
use std::alloc::{AllocError, Global};

/// Paths from one scope, as a tree. They share no front. Takes the time of their steps.
pub(crate) fn laid_out<D: Drop>(
    alloc: Global,
    start: Scope,
    all: Vec<Found<D>>,
) -> Result<FoundTree<D>, AllocError>
    requires { (f : FoundOf D) → Contains all.items f → f.path.start ≡ start }
    ensures { IfOk result (λ t. t ≡ record { start = start; found = all.items }) }
{
    let mut tree = FoundTree::new(alloc, start);
    for found in all {
        let Found { path, datum } = found;
        tree.add(path.steps(), datum)?;
    }
    Ok(tree)
}
