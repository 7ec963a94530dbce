ghost use Rattle.std.specs.Prelude.{◌≡◌, ◌≤◌, Err, IfOk};
ghost use Rattle.sc_io.specs.Faults.{HasRisen, risen};
ghost use Rattle.sc_io.specs.DirTree.{AreSources, CountsFault};
ghost use Rattle.sc_io.specs.SourceTree.{IsWithin};

use crate::content::Content;
use crate::fault::TreeFault;
use crate::source_tree::SourceTree;
use crate::walk::{MAX_ENTRIES, fault_of, java_paths_below, joined};
use std::alloc::Global;
use std::fs::File;
use std::io::Read;
use std::marker::Model;
use std::rt::Files;

/// The Java sources below a folder of the file system. Contracts see it as the count of its faults.
///
/// A symbolic link is what it leads to, a file or a folder, since sources may be linked together
/// from several places. One that leads nowhere is neither, and is skipped, as a device or a socket
/// is. The root is at level 1. A folder at level 65 is a fault, which ends each circle of links. So
/// is the 1,000,001st entry, a name that is not text, and whatever the system refuses. The count of
/// faults stands still at `u64::MAX`.
#[derive(Drop)]
pub struct DirTree<R> {
    rt: R,
    dir: String,
    faults: u64,
}

impl<R> Model for DirTree<R> {
    ghost use Rattle.std.specs.Prelude.{ℕ};

    ghost Value = { ℕ };

    ghost view = { λ t. t.faults };
}

impl<R: Files + AllocGlobal + Drop> DirTree<R> {
    /// The tree below the folder `dir`. Takes no memory, and looks at no folder yet.
    pub fn new(rt: R, dir: String) -> DirTree<R>
        ensures { result ≡ 0 }
    {
        DirTree { rt, dir, faults: 0 }
    }

    /// Counts a fault.
    fn counted<T>(&mut self, answer: Result<T, TreeFault>) -> Result<T, TreeFault>
        ensures same { result ≡ answer }
        ensures count { self.old ≤ self.new }
        ensures counts { CountsFault self.old result self.new }
    {
        if let Err(TreeFault::Failed) = &answer {
            self.faults = self.faults.saturating_add(1);
        }
        answer
    }
}

impl<R: Files + AllocGlobal + Drop> SourceTree for DirTree<R> {
    ghost use Rattle.std.specs.Prelude.{None};

    ghost files = { λ _. None };

    ghost faults = { λ t. t };

    /// Walks through all folders, with one open at a time. Costs a few calls of the system for each
    /// entry.
    fn list(&mut self, alloc: Global) -> Result<Vec<String>, TreeFault>
        ensures counts { CountsFault self.old result self.new }
        ensures count { self.old ≤ self.new }
        ensures sources { IfOk result (λ paths. AreSources paths.items) }
        ensures failed { result ≡ Err TreeFault.Failed → HasRisen self.old self.new }
    {
        let paths = java_paths_below(&self.rt, alloc, self.dir.as_str(), MAX_ENTRIES);
        self.counted(paths)
    }

    /// Reads one byte more than `limit` at most. Costs the number of bytes that are read.
    fn read(&mut self, alloc: Global, path: &str, limit: u64) -> Result<Content, TreeFault>
        ensures counts { CountsFault self.old result self.new }
        ensures count { self.old ≤ self.new }
        ensures within { IfOk result (IsWithin limit) }
        ensures failed { result ≡ Err TreeFault.Failed → HasRisen self.old self.new }
    {
        let content = content_at(&self.rt, alloc, self.dir.as_str(), path, limit);
        self.counted(content)
    }
}

fn content_at<R: Files>(
    rt: &R,
    alloc: Global,
    dir: &str,
    path: &str,
    limit: u64,
) -> Result<Content, TreeFault>
    ensures { IfOk result (IsWithin limit) }
{
    let full_path = joined(alloc, dir, path)?;
    let file = File::open(rt, full_path.as_str()).map_err(fault_of)?;
    let mut bytes = Vec::new(alloc);
    file.take(limit.saturating_add(1))
        .read_to_end(&mut bytes)
        .map_err(fault_of)?;
    if bytes.len() as u64 > limit {
        return Ok(Content::TooLong);
    }
    Ok(Content::Whole(bytes))
}
