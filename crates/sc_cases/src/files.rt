//! The files of a case.

ghost use Rattle.std.specs.Prelude.{◌≡◌, false, map, IfOk, OnOk};
ghost use Rattle.std.specs.List.{Contains};
ghost use Rattle.sc_io.specs.FileList.{files_of};
ghost use Rattle.sc_io.specs.SourceTree.{HasDistinctPaths};

use std::alloc::{AllocError, Global};

/// A file: its path and its bytes.
type File = (String, Vec<u8>);

/// The files of a text: before each but the first stand a line's end and two dashes, and then its path in a line, and its lines
/// without the end of the last one. Of files with one path the first counts.
pub(crate) fn files_of_text(alloc: Global, text: Option<&str>) -> Result<Vec<File>, AllocError>
    ensures { IfOk result (λ v. HasDistinctPaths (files_of v.items)) }
{
    let mut files = Vec::new(alloc);
    let Some(text) = text else {
        return Ok(files);
    };
    for file in text.split("\n-- ") {
        let (path, lines) = path_and_lines(file);
        add_file(
            &mut files,
            String::from_str(alloc, path)?,
            bytes_of(alloc, lines)?,
        )?;
    }
    Ok(files)
}

/// The path of a file, and its lines.
fn path_and_lines(file: &str) -> (&str, &str) {
    match file.split_once('\n') {
        Some(parts) => parts,
        None => (file, ""),
    }
}

/// Adds a file behind others, where its path is not there.
fn add_file(files: &mut Vec<File>, path: String, bytes: Vec<u8>) -> Result<(), AllocError>
    requires { HasDistinctPaths (files_of files.old.items) }
    ensures { OnOk result (HasDistinctPaths (files_of files.new.items)) }
{
    if has_path(files.as_slice(), path.as_str()) {
        return Ok(());
    }
    files.push((path, bytes))?;
    Ok(())
}

/// Whether a file has this path.
fn has_path(files: &[File], path: &str) -> bool
    ensures { result ≡ false → Contains (map (λ f. f.path) (files_of files.now)) path.now → ⊥ }
{
    for (other, _) in files {
        if other.as_str() == path {
            return true;
        }
    }
    false
}

/// The bytes of a source: `\x` with two hexadecimal digits stands for a byte, and all else for itself.
fn bytes_of(alloc: Global, lines: &str) -> Result<Vec<u8>, AllocError> {
    let mut bytes = Vec::new(alloc);
    for (index, part) in lines.split("\\x").enumerate() {
        if index == 0 {
            bytes.extend_from_slice(part.as_bytes())?;
            continue;
        }
        match byte_and_rest(part) {
            Some((byte, rest)) => {
                bytes.push(byte)?;
                bytes.extend_from_slice(rest.as_bytes())?;
            }
            None => {
                bytes.extend_from_slice(b"\\x")?;
                bytes.extend_from_slice(part.as_bytes())?;
            }
        }
    }
    Ok(bytes)
}

/// The byte that two hexadecimal digits stand for, and what is behind them.
fn byte_and_rest(text: &str) -> Option<(u8, &str)> {
    let (digits, rest) = text.split_at_checked(2)?;
    let byte = u8::from_str_radix(digits, 16).ok()?;
    Some((byte, rest))
}
