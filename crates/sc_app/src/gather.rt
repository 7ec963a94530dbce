//! The sources of a tree, within the limits on them.

ghost use Rattle.std.specs.Prelude.{◌≡◌, ◌≤◌, Err, IfOk, IfSome, length, map, string_bytes};
ghost use Rattle.sc_app.specs.Gathered.{IsGathered, ListsInOrder, StaysWithin};
ghost use Rattle.sc_io.specs.Faults.{HasRisen};

use crate::status::Which;
use sc_io::{Content, SourceFile, SourceTree, TreeFault};
use std::alloc::Global;

/// The most files that a folder may have.
const MOST_FILES: usize = 4_096;

/// The most bytes that a file may have: 1 MiB.
const MOST_BYTES: u64 = 1_048_576;

/// The most bytes that all files may have together: 4 MiB.
const MOST_TOTAL: usize = 4_194_304;

/// What reading the sources of a tree comes to.
#[derive(Drop)]
pub(crate) enum Gathered {
    /// All of them, in rising order of their paths.
    Sources(Vec<SourceFile>),
    /// The limit that they pass first.
    Passed(Which),
}

/// Reads the sources of a tree: at most 4,096 files of at most 1 MiB each, and of at most 4 MiB together. The number of files is
/// looked at first, and then each file in the order of the paths, first alone and then with those before it; nothing is read
/// behind one that passes a limit. It sorts the paths, and takes time and memory linear in what is read.
pub(crate) fn gather<T: SourceTree>(alloc: Global, tree: &mut T) -> Result<Gathered, TreeFault>
    ensures same { T.files tree.new ≡ T.files tree.old }
    ensures count { T.faults tree.old ≤ T.faults tree.new }
    ensures gathered { IfOk result (λ g. IfSome (T.files tree.old) (λ fs. IsGathered fs g)) }
    ensures within { IfOk result StaysWithin }
    ensures failed { result ≡ Err TreeFault.Failed → HasRisen (T.faults tree.old) (T.faults tree.new) }
{
    let paths = sorted_paths(alloc, tree)?;
    if paths.len() > MOST_FILES {
        return Ok(Gathered::Passed(Which::Files));
    }
    read_files(alloc, tree, paths)
}

/// The paths of the sources in rising order, each once.
fn sorted_paths<T: SourceTree>(alloc: Global, tree: &mut T) -> Result<Vec<String>, TreeFault>
    ensures same { T.files tree.new ≡ T.files tree.old }
    ensures count { T.faults tree.old ≤ T.faults tree.new }
    ensures listed { IfOk result (λ v. IfSome (T.files tree.old) (λ fs. ListsInOrder fs (map string_bytes v.items))) }
    ensures failed { result ≡ Err TreeFault.Failed → HasRisen (T.faults tree.old) (T.faults tree.new) }
{
    let mut paths = tree.list(alloc)?;
    paths.sort()?;
    paths.dedup();
    Ok(paths)
}

/// Reads the files of these paths, one after another.
fn read_files<T: SourceTree>(
    alloc: Global,
    tree: &mut T,
    paths: Vec<String>,
) -> Result<Gathered, TreeFault>
    requires few { length paths.items ≤ 4096 }
    requires listed { IfSome (T.files tree.old) (λ fs. ListsInOrder fs (map string_bytes paths.items)) }
    ensures same { T.files tree.new ≡ T.files tree.old }
    ensures count { T.faults tree.old ≤ T.faults tree.new }
    ensures gathered { IfOk result (λ g. IfSome (T.files tree.old) (λ fs. IsGathered fs g)) }
    ensures within { IfOk result StaysWithin }
    ensures failed { result ≡ Err TreeFault.Failed → HasRisen (T.faults tree.old) (T.faults tree.new) }
{
    let mut files = Vec::new(alloc);
    let mut total = 0;
    for path in paths {
        let Content::Whole(bytes) = tree.read(alloc, path.as_str(), MOST_BYTES)? else {
            return Ok(Gathered::Passed(Which::FileBytes));
        };
        total += bytes.len();
        if total > MOST_TOTAL {
            return Ok(Gathered::Passed(Which::TotalBytes));
        }
        files.push(SourceFile { path, bytes })?;
    }
    Ok(Gathered::Sources(files))
}
