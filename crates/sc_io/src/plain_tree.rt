ghost use Rattle.std.specs.Prelude.{◌≡◌, ◌≢◌, Err, IfOk, Some, map, string_bytes};
ghost use Rattle.sc_io.specs.FileList.{files_of};
ghost use Rattle.sc_io.specs.SourceTree.{HasDistinctPaths, HasFile, IsWithin, ListsSources, ReadsFile};

use crate::content::Content;
use crate::fault::TreeFault;
use crate::file_list::FileList;
use crate::source_tree::SourceTree;
use std::alloc::Global;
use std::marker::Model;

/// Source files in memory, whose calls never fail. Contracts see it as the list of its files.
///
/// `list` costs the length of all paths. `read` costs the length of the file, and a search through
/// the paths where the file is not the one behind that read last.
#[derive(Drop)]
pub struct PlainTree {
    list: FileList,
}

impl Model for PlainTree {
    ghost use Rattle.std.specs.Prelude.{List};
    ghost use Rattle.sc_io.specs.FileList.{files_of};
    ghost use Rattle.sc_io.specs.SourceTree.{FileOf, HasDistinctPaths};

    ghost Value = { List FileOf };

    ghost view = { λ t. files_of t.list.files.items };

    ghost invariant = { λ t. HasDistinctPaths (files_of t.list.files.items) };
}

impl PlainTree {
    /// The tree of these files, each a path and its bytes. Takes no memory.
    pub fn new(files: Vec<(String, Vec<u8>)>) -> PlainTree
        requires { HasDistinctPaths (files_of files.items) }
        ensures { result ≡ files_of files.items }
    {
        PlainTree {
            list: FileList::new(files),
        }
    }
}

impl SourceTree for PlainTree {
    ghost use Rattle.std.specs.Prelude.{Some};

    ghost files = { λ t. Some t };

    ghost faults = { λ _. 0 };

    fn list(&mut self, alloc: Global) -> Result<Vec<String>, TreeFault>
        ensures same { self.new ≡ self.old }
        ensures distinct { HasDistinctPaths self.new }
        ensures listed { IfOk result
            (λ names. ListsSources self.new (map string_bytes names.items)) }
        ensures never_fails { result ≢ Err TreeFault.Failed }
    {
        Ok(self.list.java_paths(alloc)?)
    }

    fn read(&mut self, alloc: Global, path: &str, limit: u64) -> Result<Content, TreeFault>
        requires { HasFile self.old path.now }
        ensures same { self.new ≡ self.old }
        ensures read { IfOk result (ReadsFile self.new path.now limit) }
        ensures within { IfOk result (IsWithin limit) }
        ensures never_fails { result ≢ Err TreeFault.Failed }
    {
        Ok(self.list.read(alloc, path, limit)?)
    }
}
