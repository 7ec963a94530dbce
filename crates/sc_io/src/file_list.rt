ghost use Rattle.std.specs.Prelude.{◌≡◌, ◌<◌, ◌↔◌, IfOk, IsTrue, length, map, string_bytes};
ghost use Rattle.sc_io.specs.FileList.{IsPathAt, files_of};
ghost use Rattle.sc_io.specs.SourceTree.{HasFile, IsContent, ListsSources, ReadsFile};

use crate::content::Content;
use crate::java_path::is_java_path;
use std::alloc::{AllocError, Global};

/// The files of a tree over memory, in the order in which they came.
#[derive(Drop)]
pub(crate) struct FileList {
    files: Vec<(String, Vec<u8>)>,
    /// Where the next look-up begins: behind the file that was found last.
    next: usize,
}

impl FileList {
    pub(crate) fn new(files: Vec<(String, Vec<u8>)>) -> FileList
        ensures { result.files.items ≡ files.items }
    {
        FileList { files, next: 0 }
    }

    pub(crate) fn java_paths(&self, alloc: Global) -> Result<Vec<String>, AllocError>
        ensures { IfOk result (λ names.
            ListsSources (files_of self.now.files.items) (map string_bytes names.items)) }
    {
        java_paths_of(alloc, self.files.as_slice())
    }

    pub(crate) fn read(
        &mut self,
        alloc: Global,
        path: &str,
        limit: u64,
    ) -> Result<Content, AllocError>
        requires { HasFile (files_of self.old.files.items) path.now }
        ensures same { self.new.files ≡ self.old.files }
        ensures read { IfOk result (ReadsFile (files_of self.old.files.items) path.now limit) }
    {
        let index = position(self.files.as_slice(), self.next, path);
        self.next = index + 1;
        content_of(alloc, self.files[index].1.as_slice(), limit)
    }
}

fn java_paths_of(alloc: Global, files: &[(String, Vec<u8>)]) -> Result<Vec<String>, AllocError>
    ensures { IfOk result
        (λ names. ListsSources (files_of files.now) (map string_bytes names.items)) }
{
    let mut paths = Vec::new(alloc);
    for (path, _) in files {
        if is_java_path(path.as_str()) {
            paths.push(String::from_str(alloc, path.as_str())?)?;
        }
    }
    Ok(paths)
}

/// Files are mostly read in their order, so the place behind the last one is tried first.
fn position(files: &[(String, Vec<u8>)], next: usize, path: &str) -> usize
    requires { HasFile (files_of files.now) path.now }
    ensures in_range { result < length files.now }
    ensures found { IsPathAt (files_of files.now) result path.now }
{
    if next < files.len() && has_path(&files[next], path) {
        return next;
    }
    for (index, file) in files.iter().enumerate() {
        if has_path(file, path) {
            return index;
        }
    }
    unreachable!()
}

fn has_path(file: &(String, Vec<u8>), path: &str) -> bool
    ensures { IsTrue result ↔ (string_bytes file.now.0 ≡ path.now) }
{
    file.0.as_str() == path
}

fn content_of(alloc: Global, bytes: &[u8], limit: u64) -> Result<Content, AllocError>
    ensures { IfOk result (IsContent bytes.now limit) }
{
    if bytes.len() as u64 > limit {
        return Ok(Content::TooLong);
    }
    Ok(Content::Whole(bytes.to_vec(alloc)?))
}
