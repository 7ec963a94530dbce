//! The files of a project.

ghost use Rattle.std.specs.Prelude.{◌≡◌, ◌<◌, ◌≤◌, ◌/◌, ◌++◌, All, length, IfOk, OnOk, decimal, string_bytes};
ghost use Rattle.std.specs.List.Sorted.{IsPermutation};
ghost use Rattle.sc_io.specs.SourceFile.{source_of, sources_of};
ghost use Rattle.sc_gen.specs.Project.{body_text, class_file, class_text, extends_text, half, path_of, project_files, IsProject};

use itoa::Buffer;
use sc_io::SourceFile;
use std::alloc::{AllocError, Global};

/// Adds a number.
fn push_number(text: &mut Vec<u8>, number: u32) -> Result<(), AllocError>
    ensures { OnOk result (text.new.items ≡ text.old.items ++ decimal number) }
{
    let mut buffer = Buffer::new();
    text.extend_from_slice(buffer.format(number).as_bytes())
}

/// The path of the class with a number.
fn path(alloc: Global, i: u32) -> Result<String, AllocError>
    ensures { IfOk result (λ p. string_bytes p ≡ path_of i) }
{
    let mut number = Buffer::new();
    let mut path = String::from_str(alloc, "g/C")?;
    path.push_str(number.format(i))?;
    path.push_str(".java")?;
    Ok(path)
}

/// Adds the words that name the class that is extended.
fn push_extends(text: &mut Vec<u8>, i: u32) -> Result<(), AllocError>
    ensures { OnOk result (text.new.items ≡ text.old.items ++ extends_text i) }
{
    if i == 0 {
        return Ok(());
    }
    let above = i / 2;
    text.extend_from_slice(b"extends C")?;
    push_number(text, above)?;
    text.extend_from_slice(b" ")
}

/// Adds the body of a class.
fn push_body(text: &mut Vec<u8>, i: u32) -> Result<(), AllocError>
    ensures { OnOk result (text.new.items ≡ text.old.items ++ body_text i) }
{
    let read = i / 2;
    text.extend_from_slice(b"{ int f")?;
    push_number(text, i)?;
    text.extend_from_slice(b"; int m")?;
    push_number(text, i)?;
    text.extend_from_slice(b"() { return f")?;
    push_number(text, read)?;
    text.extend_from_slice(b" + 1; } }")
}

/// The text of the class with a number.
fn class(alloc: Global, i: u32) -> Result<Vec<u8>, AllocError>
    ensures { IfOk result (λ v. v.items ≡ class_text i) }
{
    let mut text = Vec::from_slice(alloc, b"package g; class C")?;
    push_number(&mut text, i)?;
    text.extend_from_slice(b" ")?;
    push_extends(&mut text, i)?;
    push_body(&mut text, i)?;
    Ok(text)
}

/// The files of the classes, by their numbers.
fn classes(alloc: Global, n: u32) -> Result<Vec<SourceFile>, AllocError>
    ensures { IfOk result (λ v. sources_of v.items ≡ project_files n) }
{
    let mut files = Vec::new(alloc);
    for i in 0..n {
        files.push(SourceFile {
            path: path(alloc, i)?,
            bytes: class(alloc, i)?,
        })?;
    }
    Ok(files)
}

/// The source files of the project with so many classes, in rising order of the bytes of their paths, as the files of a folder
/// are gathered: so they take the place of a tree that is read. The class `Ci` stands in `g/Ci.java`, for each i below `n`. It
/// takes time and memory linear in the texts, and sorts the paths.
pub fn project(alloc: Global, n: u32) -> Result<Vec<SourceFile>, AllocError>
    requires few { n ≤ 1000 }
    ensures project { IfOk result (λ v. IsProject n (sources_of v.items)) }
    ensures count { IfOk result (λ v. length v.items ≡ n) }
    ensures short { IfOk result (λ v. All (λ f. length f.bytes ≤ 100) (sources_of v.items)) }
{
    let mut files = classes(alloc, n)?;
    files.sort_unstable_by(|a, b| a.path.as_str().cmp(b.path.as_str()));
    Ok(files)
}
