//! The files of folders that stand in texts.

ghost use Rattle.std.specs.Prelude.{◌≡◌, false, map, IfOk, OnOk};
ghost use Rattle.std.specs.List.{Contains};
ghost use Rattle.sc_io.specs.FileList.{files_of};
ghost use Rattle.sc_io.specs.SourceTree.{HasDistinctPaths};

use std::alloc::Global;
use std::test::Fail;

/// Files in a text: for each a line with two dashes and its path, and the lines of its source, of which the last one's end is left out.
pub(crate) type Files<'a> = &'a str;

/// A file: its path and its bytes.
type File = (String, Vec<u8>);

/// The files of a folder, and the report that stands behind them.
pub(crate) fn files_and_report(folder: &str) -> Result<(Files<'_>, &str), Fail> {
    match folder.split_once("=>\n") {
        Some(parts) => Ok(parts),
        None => Err(Fail::new("a folder without a report")),
    }
}

/// The path of a file, and its source.
pub(crate) fn path_and_source(file: &str) -> Option<(&str, &str)> {
    let (path, source) = file.split_once('\n')?;
    Some((path, source.strip_suffix('\n').unwrap_or(source)))
}

/// Whether a file has this path.
fn has_path(files: &[File], path: &str) -> bool
    ensures { result ≡ false → Contains (map (λ f. f.path) (files_of files.now)) path.now → ⊥ }
{
    for (other, _) in files {
        if other.as_str() == path {
            return true;
        }
    }
    false
}

/// Adds a file behind others.
fn add_file(alloc: Global, files: &mut Vec<File>, path: &str, bytes: &[u8]) -> Result<(), Fail>
    requires { HasDistinctPaths (files_of files.old.items) }
    ensures { OnOk result (HasDistinctPaths (files_of files.new.items)) }
{
    let path = String::from_str(alloc, path)?;
    if has_path(files.as_slice(), path.as_str()) {
        return Err(Fail::new("a path stands twice"));
    }
    let bytes = Vec::from_slice(alloc, bytes)?;
    files.push((path, bytes))?;
    Ok(())
}

/// The files of a folder.
pub(crate) fn folder(alloc: Global, files: Files) -> Result<Vec<File>, Fail>
    ensures { IfOk result (λ v. HasDistinctPaths (files_of v.items)) }
{
    let mut all = Vec::new(alloc);
    for file in files.split("-- ") {
        if let Some((path, source)) = path_and_source(file) {
            add_file(alloc, &mut all, path, source.as_bytes())?;
        }
    }
    Ok(all)
}
