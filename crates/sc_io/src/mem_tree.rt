ghost use Rattle.std.specs.Prelude.{◌≡◌, ◌≤◌, ◌↔◌, Contains, Err, IfOk, map, string_bytes};
ghost use Rattle.sc_io.specs.Faults.{HasRisen};
ghost use Rattle.sc_io.specs.FileList.{files_of};
ghost use Rattle.sc_io.specs.MemTree.{after_call};
ghost use Rattle.sc_io.specs.SourceTree.{HasDistinctPaths, HasFile, IsWithin, ListsSources, ReadsFile};

use crate::content::Content;
use crate::fault::TreeFault;
use crate::file_list::FileList;
use crate::source_tree::SourceTree;
use std::alloc::Global;
use std::marker::Model;

/// Source files in memory, of whose calls chosen ones fail.
///
/// The calls of `list` and `read` are numbered from 0 in the order in which they are made. A call
/// whose number is among those that are to fail gives `Failed` and raises the count of faults; no
/// other call does. Numbers and counts stand still at `u64::MAX`. A call costs what it does in a
/// `PlainTree`, and a search through the numbers.
#[derive(Drop)]
pub struct MemTree {
    list: FileList,
    failing: Vec<u64>,
    calls: u64,
    faults: u64,
}

impl Model for MemTree {
    ghost use Rattle.sc_io.specs.FileList.{files_of};
    ghost use Rattle.sc_io.specs.MemTree.{MemTreeOf};
    ghost use Rattle.sc_io.specs.SourceTree.{HasDistinctPaths};

    ghost Value = { MemTreeOf };

    ghost view = { λ t. record {
      files = files_of t.list.files.items;
      failing = t.failing.items;
      calls = t.calls;
      faults = t.faults;
    } };

    ghost invariant = { λ t. HasDistinctPaths (files_of t.list.files.items) };
}

impl MemTree {
    /// The tree of these files, each a path and its bytes, and the numbers of the calls that are to
    /// fail. Takes no memory.
    pub fn new(files: Vec<(String, Vec<u8>)>, failing: Vec<u64>) -> MemTree
        requires { HasDistinctPaths (files_of files.items) }
        ensures { result ≡ record {
          files = files_of files.items;
          failing = failing.items;
          calls = 0;
          faults = 0;
        } }
    {
        MemTree {
            list: FileList::new(files),
            failing,
            calls: 0,
            faults: 0,
        }
    }

    /// Counts a call, and fails where its number is among those that are to fail.
    fn begin_call(&mut self) -> Result<(), TreeFault>
        ensures distinct { HasDistinctPaths self.new.files }
        ensures count { self.old.faults ≤ self.new.faults }
        ensures fails { result ≡ Err TreeFault.Failed ↔ Contains self.old.failing self.old.calls }
        ensures after { self.new ≡ after_call self.old result }
    {
        let number = self.calls;
        self.calls = number.saturating_add(1);
        if self.failing.contains(&number) {
            self.faults = self.faults.saturating_add(1);
            return Err(TreeFault::Failed);
        }
        Ok(())
    }
}

impl SourceTree for MemTree {
    ghost use Rattle.std.specs.Prelude.{Some};

    ghost files = { λ t. Some t.files };

    ghost faults = { λ t. t.faults };

    fn list(&mut self, alloc: Global) -> Result<Vec<String>, TreeFault>
        ensures same { self.new.files ≡ self.old.files }
        ensures count { self.old.faults ≤ self.new.faults }
        ensures fails { result ≡ Err TreeFault.Failed ↔ Contains self.old.failing self.old.calls }
        ensures after { self.new ≡ after_call self.old result }
        ensures distinct { HasDistinctPaths self.new.files }
        ensures listed { IfOk result
            (λ names. ListsSources self.new.files (map string_bytes names.items)) }
        ensures failed { result ≡ Err TreeFault.Failed → HasRisen self.old.faults self.new.faults }
    {
        self.begin_call()?;
        Ok(self.list.java_paths(alloc)?)
    }

    fn read(&mut self, alloc: Global, path: &str, limit: u64) -> Result<Content, TreeFault>
        requires { HasFile self.old.files path.now }
        ensures same { self.new.files ≡ self.old.files }
        ensures count { self.old.faults ≤ self.new.faults }
        ensures fails { result ≡ Err TreeFault.Failed ↔ Contains self.old.failing self.old.calls }
        ensures after { self.new ≡ after_call self.old result }
        ensures read { IfOk result (ReadsFile self.new.files path.now limit) }
        ensures within { IfOk result (IsWithin limit) }
        ensures failed { result ≡ Err TreeFault.Failed → HasRisen self.old.faults self.new.faults }
    {
        self.begin_call()?;
        Ok(self.list.read(alloc, path, limit)?)
    }
}
