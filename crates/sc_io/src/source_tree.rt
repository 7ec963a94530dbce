ghost use Rattle.std.specs.Prelude.{◌≡◌, ◌≤◌, ℕ, List, Option, IfOk, Err, IfSome, map, string_bytes};
ghost use Rattle.std.specs.Option.{ForSome};
ghost use Rattle.sc_io.specs.Faults.{HasRisen};
ghost use Rattle.sc_io.specs.SourceTree.{FileOf, HasDistinctPaths, HasFile, IsWithin, ListsSources, ReadsFile};

use crate::content::Content;
use crate::fault::TreeFault;
use std::alloc::Global;

/// Source files under paths. A tree may tell its files, and then says exactly what it lists and reads.
pub trait SourceTree {
    /// The files, where the tree tells them. No call changes them.
    ghost files: { Self → Option (List FileOf) };

    /// How many calls have failed.
    ghost faults: { Self → ℕ };

    /// The paths that end in `.java`, with `/` between their parts, in any order.
    fn list(&mut self, alloc: Global) -> Result<Vec<String>, TreeFault>
        ensures same { files self.new ≡ files self.old }
        ensures distinct { IfSome (files self.new) HasDistinctPaths }
        ensures count { faults self.old ≤ faults self.new }
        ensures listed { IfOk result
            (λ names. IfSome (files self.new) (λ fs. ListsSources fs (map string_bytes names.items))) }
        ensures failed { result ≡ Err TreeFault.Failed → HasRisen (faults self.old) (faults self.new) };

    /// The bytes of a file, or that it has more than `limit` of them.
    fn read(&mut self, alloc: Global, path: &str, limit: u64) -> Result<Content, TreeFault>
        requires { ForSome (files self.old) (λ fs. HasFile fs path.now) }
        ensures same { files self.new ≡ files self.old }
        ensures count { faults self.old ≤ faults self.new }
        ensures read { IfOk result
            (λ c. IfSome (files self.new) (λ fs. ReadsFile fs path.now limit c)) }
        ensures within { IfOk result (IsWithin limit) }
        ensures failed { result ≡ Err TreeFault.Failed → HasRisen (faults self.old) (faults self.new) };
}
