//! How listings print scopes, and which scopes they tell of.

ghost use Rattle.std.specs.Prelude.{◌≡◌, ◌+◌, ◌≤◌, ◌^◌, ◌++◌, length, IfOk, OnOk};
ghost use Rattle.std.specs.String.{string_bytes};
ghost use Rattle.sc_io.specs.SourceFile.{sources_of};
ghost use Rattle.sc_listing.specs.Listed.{listed_of};
ghost use Rattle.sc_listing.specs.Titles.{listed_files, listed_types, path_of, title};

use crate::listed::Listed;
use jv_layout::Place;
use sc_io::SourceFile;
use sg_base::Scope;
use std::alloc::{AllocError, Global};

/// The path of a file by its number, and no text where there is no such file of the folder's own.
fn path_of<'a>(files: &'a [SourceFile], f: u32) -> &'a str
    ensures { result.now ≡ path_of (sources_of files.now) f }
{
    if f < 2 {
        return "";
    }
    match files.get((f - 2) as usize) {
        Some(file) => file.path.as_str(),
        None => "",
    }
}

/// Adds the title of a scope, which for a file is its path.
pub(crate) fn push_title(
    alloc: Global,
    w: &Listed<'_>,
    text: &mut String,
    s: Scope,
) -> Result<(), AllocError>
    ensures { OnOk result (string_bytes text.new ≡ string_bytes text.old ++ title (listed_of w.now) s) }
{
    if let Place::File(f) = w.layout.place(s) {
        return text.push_str(path_of(w.files, f));
    }
    let title = w.layout.title(alloc, w.names, s)?;
    text.push_str(title.as_str())
}

/// The scopes of the folder's own files.
pub(crate) fn listed_files(alloc: Global, w: &Listed<'_>) -> Result<Vec<Scope>, AllocError>
    requires { length w.now.files.now + 2 ≤ 2 ^ 31 }
    ensures { IfOk result (λ v. v.items ≡ listed_files (listed_of w.now)) }
{
    let mut files = Vec::new(alloc);
    for k in 0..w.files.len() {
        files.push(w.layout.file_scope(2 + k as u32))?;
    }
    Ok(files)
}

/// The types that stand in the folder's own files.
pub(crate) fn listed_types(alloc: Global, w: &Listed<'_>) -> Result<Vec<Scope>, AllocError>
    ensures { IfOk result (λ v. v.items ≡ listed_types (listed_of w.now)) }
{
    let mut types = Vec::new(alloc);
    for t in w.layout.types() {
        if w.layout.file_of(*t) >= 2 {
            types.push(*t)?;
        }
    }
    Ok(types)
}
