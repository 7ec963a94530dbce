ghost use Rattle.std.specs.Prelude.{◌≡◌, ◌+◌, ◌≤◌, IfOk, OnOk};
ghost use Rattle.sc_io.specs.DirTree.{AreSources};
ghost use Rattle.sc_io.specs.Walk.{FindsSources, work_left};

use crate::fault::TreeFault;
use crate::java_path::is_java_path;
use std::alloc::{AllocError, Global};
use std::fs;
use std::io::{self, ErrorKind};
use std::path::Path;
use std::rt::Files;

/// The root has level 1.
const MAX_LEVEL: u32 = 64;

/// How many entries a walk takes.
pub(crate) const MAX_ENTRIES: u32 = 1_000_000;

/// A folder that is still to be read: its path below the root, which is empty at the root itself, and
/// its level.
#[derive(Drop)]
struct Folder {
    path: String,
    level: u32,
}

/// What a walk has found and what it still has to read.
#[derive(Drop)]
struct Walk {
    folders: Vec<Folder>,
    paths: Vec<String>,
    /// How many entries may still come.
    room: u32,
}

/// The paths of the Java sources below a folder, where it has at most `room` entries in all its folders.
pub(crate) fn java_paths_below<R: Files + AllocGlobal + Drop>(
    rt: &R,
    alloc: Global,
    dir: &str,
    room: u32,
) -> Result<Vec<String>, TreeFault>
    ensures { IfOk result (λ paths. AreSources paths.items) }
{
    let root = Folder {
        path: String::new(alloc),
        level: 1,
    };
    let mut walk = Walk {
        folders: vec![in alloc; root]?,
        paths: Vec::new(alloc),
        room,
    };
    while let Some(folder) = walk.folders.pop() {
        walk.read_folder(rt, alloc, dir, &folder)?;
    }
    Ok(walk.paths)
}

impl Walk {
    fn read_folder<R: Files + AllocGlobal + Drop>(
        &mut self,
        rt: &R,
        alloc: Global,
        dir: &str,
        folder: &Folder,
    ) -> Result<(), TreeFault>
        requires { FindsSources self.old }
        ensures sources { FindsSources self.new }
        ensures ends { OnOk result (work_left self.new ≤ work_left self.old) }
    {
        let full_path = joined(alloc, dir, folder.path.as_str())?;
        let entries = fs::read_dir(&rt, full_path.as_str()).map_err(fault_of)?;
        for entry in entries {
            let entry = entry.map_err(fault_of)?;
            let path = joined(alloc, folder.path.as_str(), entry.file_name())?;
            self.take_entry(rt, entry.path(), path, folder.level)?;
        }
        Ok(())
    }

    /// What stands at `place` in a folder of this level, with its path below the root. What is neither
    /// a file nor a folder is skipped, and so is a link that leads nowhere.
    fn take_entry<R: Files>(
        &mut self,
        rt: &R,
        place: Path<'_>,
        path: String,
        level: u32,
    ) -> Result<(), TreeFault>
        requires { FindsSources self.old }
        ensures sources { FindsSources self.new }
        ensures ends { OnOk result (work_left self.new ≤ work_left self.old) }
    {
        match fs::metadata(rt, place) {
            Ok(metadata) if metadata.is_dir() => self.add_folder(path, level),
            Ok(metadata) => self.add_file(path, metadata.is_file()),
            Err(error) if error.kind() == ErrorKind::NotFound => self.add_file(path, false),
            Err(error) => Err(fault_of(error)),
        }
    }

    fn count_entry(&mut self) -> Result<(), TreeFault>
        ensures ok { OnOk result (self.new.room + 1 ≡ self.old.room) }
        ensures folders { self.new.folders ≡ self.old.folders }
        ensures paths { self.new.paths ≡ self.old.paths }
    {
        if self.room == 0 {
            return Err(TreeFault::Failed);
        }
        self.room -= 1;
        Ok(())
    }

    fn add_folder(&mut self, path: String, above: u32) -> Result<(), TreeFault>
        requires { FindsSources self.old }
        ensures sources { FindsSources self.new }
        ensures ends { OnOk result (work_left self.new ≤ work_left self.old) }
    {
        self.count_entry()?;
        if above >= MAX_LEVEL {
            return Err(TreeFault::Failed);
        }
        self.folders.push(Folder {
            path,
            level: above + 1,
        })?;
        Ok(())
    }

    fn add_file(&mut self, path: String, is_file: bool) -> Result<(), TreeFault>
        requires { FindsSources self.old }
        ensures sources { FindsSources self.new }
        ensures ends { OnOk result (work_left self.new ≤ work_left self.old) }
    {
        self.count_entry()?;
        if is_file && is_java_path(path.as_str()) {
            self.paths.push(path)?;
        }
        Ok(())
    }
}

/// The path of something in a folder.
pub(crate) fn joined(alloc: Global, folder: &str, name: &str) -> Result<String, AllocError> {
    let mut path = String::from_str(alloc, folder)?;
    if !folder.is_empty() && !folder.ends_with('/') {
        path.push('/')?;
    }
    path.push_str(name)?;
    Ok(path)
}

pub(crate) fn fault_of(error: io::Error) -> TreeFault {
    if error.kind() == ErrorKind::OutOfMemory {
        TreeFault::OutOfMemory
    } else {
        TreeFault::Failed
    }
}
