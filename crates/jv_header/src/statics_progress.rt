use jv_diag::DiagList;
use std::alloc::{AllocError, Global};
use std::mem;

/// How far the single static imports of a file were read: how many of its first imports were, and what is said of those.
#[derive(Drop)]
pub struct StaticsProgress {
    pub(crate) count: usize,
    pub(crate) diags: DiagList,
}

impl StaticsProgress {
    ghost use Rattle.std.specs.Prelude.{◌≡◌, ◌+◌, ◌<◌, ◌^◌, [], ◌++◌, OnOk, OnErr};

    /// No import was read yet. It takes no memory.
    pub fn new(alloc: Global) -> StaticsProgress
        ensures count { result.count ≡ 0 }
        ensures diags { result.diags ≡ [] }
    {
        StaticsProgress {
            count: 0,
            diags: DiagList::empty(alloc),
        }
    }

    /// Goes on behind an import, by what is said of it. After want of memory it is what it was.
    pub(crate) fn pass(&mut self, part: DiagList) -> Result<(), AllocError>
        requires { self.old.count + 1 < 2 ^ 64 }
        ensures count { OnOk result (self.new.count ≡ self.old.count + 1) }
        ensures diags { OnOk result (self.new.diags ≡ self.old.diags ++ part) }
        ensures stays { OnErr result ((self.new.count ≡ self.old.count) × (self.new.diags ≡ self.old.diags)) }
    {
        self.diags.append(part)?;
        self.count += 1;
        Ok(())
    }

    /// Moves out what was said, so that no import was read yet. It takes no memory.
    pub(crate) fn take(&mut self, alloc: Global) -> DiagList
        ensures taken { result ≡ self.old.diags }
        ensures count { self.new.count ≡ 0 }
        ensures diags { self.new.diags ≡ [] }
    {
        self.count = 0;
        mem::replace(&mut self.diags, DiagList::empty(alloc))
    }
}
