//! Reports on small sources, against lines that were written by hand.

ghost use Rattle.std.specs.Prelude.{◌≡◌, ◌<◌, ◌≤◌, ◌^◌, IfOk, length};
ghost use Rattle.std.specs.List.{All};
ghost use Rattle.sc_io.specs.SourceFile.{sources_of};

use crate::{report_text, sorted_diags};
use jv_diag::Diag;
use sc_io::SourceFile;
use std::alloc::{AllocError, Global};
use std::test::Fail;

/// The files `A.java` and `b/B.java` with these sources.
fn two_files(alloc: Global, first: &str, second: &str) -> Result<Vec<SourceFile>, AllocError>
    requires first { length first.now ≤ 1048576 }
    requires second { length second.now ≤ 1048576 }
    ensures two { IfOk result (λ v. length v.items ≡ 2) }
    ensures each { IfOk result (λ v. All (λ f. length f.bytes ≤ 1048576) (sources_of v.items)) }
{
    let mut files = Vec::new(alloc);
    files.push(SourceFile {
        path: String::from_str(alloc, "A.java")?,
        bytes: first.as_bytes().to_vec(alloc)?,
    })?;
    files.push(SourceFile {
        path: String::from_str(alloc, "b/B.java")?,
        bytes: second.as_bytes().to_vec(alloc)?,
    })?;
    Ok(files)
}

/// The text of the report on files.
fn report(
    alloc: Global,
    files: &[SourceFile],
    diags: Vec<Diag>,
    types: u32,
) -> Result<Vec<u8>, AllocError>
    requires few { length files.now < 2 ^ 31 }
    requires each { All (λ f. length f.bytes ≤ 1048576) (sources_of files.now) }
{
    let sorted = sorted_diags(diags);
    report_text(alloc, files, sorted.as_slice(), types)
}

fn found(alloc: Global, file: u32, at: u32, code: u8, text: &str) -> Result<Diag, AllocError> {
    let text = String::from_str(alloc, text)?;
    Ok(Diag {
        file,
        at,
        code,
        text,
    })
}

#[test]
fn nothing_is_wrong(rt: HostRuntime) -> Result<(), Fail> {
    let alloc = rt.alloc();
    let none = report(alloc, &[], Vec::new(alloc), 2)?;
    assert_eq!(rt; none.as_slice(), b"ok files 0 types 2\n".as_slice());
    let files = two_files(alloc, "class A {}", "package b; class B {}")?;
    let two = report(alloc, files.as_slice(), Vec::new(alloc), 4)?;
    assert_eq!(rt; two.as_slice(), b"ok files 2 types 4\n".as_slice());
    Ok(())
}

#[test]
fn diagnostics_are_sorted_and_told_once(rt: HostRuntime) -> Result<(), Fail> {
    let alloc = rt.alloc();
    let files = two_files(alloc, "class A {\n  int x;\n  int y;\n}\n", "class B {}\n")?;
    let diags = Vec::from_array(
        alloc,
        [
            found(alloc, 3, 6, 10, "duplicate type B")?,
            found(alloc, 2, 25, 18, "duplicate field y")?,
            found(alloc, 2, 6, 10, "duplicate type A")?,
            found(alloc, 2, 25, 18, "duplicate field y")?,
            found(alloc, 2, 16, 18, "duplicate field x")?,
            found(alloc, 3, 6, 10, "duplicate type B")?,
        ],
    )?;
    let text = report(alloc, files.as_slice(), diags, 4)?;
    assert_eq!(rt;
        text.as_slice(),
        b"A.java:1:7: E10 duplicate type A\nA.java:2:7: E18 duplicate field x\nA.java:3:7: E18 duplicate field y\nb/B.java:1:7: E10 duplicate type B\nerrors 4\n".as_slice()
    );
    Ok(())
}

#[test]
fn codes_and_texts_at_one_place(rt: HostRuntime) -> Result<(), Fail> {
    let alloc = rt.alloc();
    let files = two_files(alloc, "class A {}", "class B {}")?;
    let diags = Vec::from_array(
        alloc,
        [
            found(alloc, 2, 6, 20, "cannot find type Z")?,
            found(alloc, 2, 6, 5, "bad token")?,
            found(alloc, 2, 6, 20, "cannot find type C")?,
        ],
    )?;
    let text = report(alloc, files.as_slice(), diags, 4)?;
    assert_eq!(rt;
        text.as_slice(),
        b"A.java:1:7: E05 bad token\nA.java:1:7: E20 cannot find type C\nA.java:1:7: E20 cannot find type Z\nerrors 3\n".as_slice()
    );
    Ok(())
}

#[test]
fn lines_end_and_characters_count(rt: HostRuntime) -> Result<(), Fail> {
    let alloc = rt.alloc();
    let files = two_files(alloc, "a\nb\r\nc\rd", "äb\nöx")?;
    let diags = Vec::from_array(
        alloc,
        [
            found(alloc, 2, 2, 5, "behind LF")?,
            found(alloc, 2, 5, 5, "behind CR LF")?,
            found(alloc, 2, 7, 5, "behind CR")?,
            found(alloc, 3, 2, 5, "behind two bytes")?,
            found(alloc, 3, 6, 5, "behind two bytes of line 2")?,
        ],
    )?;
    let text = report(alloc, files.as_slice(), diags, 4)?;
    assert_eq!(rt;
        text.as_slice(),
        b"A.java:2:1: E05 behind LF\nA.java:3:1: E05 behind CR LF\nA.java:4:1: E05 behind CR\nb/B.java:1:2: E05 behind two bytes\nb/B.java:2:2: E05 behind two bytes of line 2\nerrors 5\n".as_slice()
    );
    Ok(())
}

#[test]
fn places_behind_the_end(rt: HostRuntime) -> Result<(), Fail> {
    let alloc = rt.alloc();
    let files = two_files(alloc, "ab\ncd", "")?;
    let diags = Vec::from_array(
        alloc,
        [
            found(alloc, 4, 9, 2, "syntax error")?,
            found(alloc, 3, 9, 2, "syntax error")?,
            found(alloc, 2, 9, 2, "syntax error")?,
        ],
    )?;
    let text = report(alloc, files.as_slice(), diags, 4)?;
    assert_eq!(rt;
        text.as_slice(),
        b"A.java:2:3: E02 syntax error\nb/B.java:1:1: E02 syntax error\n:1:1: E02 syntax error\nerrors 3\n".as_slice()
    );
    Ok(())
}
