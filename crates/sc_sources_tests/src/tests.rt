//! Folders of sources with faults and without, written by hand.

ghost use Rattle.std.specs.Prelude.{IsTrue};
ghost use Rattle.sc_io.specs.SourceFile.{sources_of};
ghost use Rattle.sc_sources.specs.Read.{AreWithinLimits};

use sc_io::SourceFile;
use sc_sources::{Sources, read_in_threads, read_sources};
use std::alloc::{AllocError, Global};
use std::fmt::Write;
use std::test::Fail;
use std::thread::Threads;

/// Whether files are within the limits.
fn are_within_limits(files: &[SourceFile]) -> bool
    ensures { IsTrue result → AreWithinLimits (sources_of files.now) }
{
    if files.len() > 4096 {
        return false;
    }
    let mut total = 0usize;
    for file in files {
        if file.bytes.len() > 1_048_576 {
            return false;
        }
        total += file.bytes.len();
    }
    total <= 4_194_304
}

/// Files of these bytes.
fn files_of(alloc: Global, sources: &[&[u8]]) -> Result<Vec<SourceFile>, AllocError> {
    let mut files = Vec::new(alloc);
    for source in sources {
        files.push(SourceFile {
            path: String::from_str(alloc, "A.java")?,
            bytes: Vec::from_slice(alloc, source)?,
        })?;
    }
    Ok(files)
}

/// How many trees there are, and how many names, or each fault by its file, its place and its code.
fn shown(alloc: Global, sources: &[&[u8]]) -> Result<String, Fail> {
    let files = files_of(alloc, sources)?;
    if !are_within_limits(&files) {
        return Err(Fail::new("too many bytes"));
    }
    told(alloc, read_sources(alloc, &files)?)
}

/// How many trees there are, and how many names, or each fault by its file, its place and its code.
fn told(alloc: Global, sources: Sources) -> Result<String, Fail> {
    let mut text = String::new(alloc);
    match sources {
        Sources::Trees { names, units } => {
            write!(text, "{} trees, {} names", units.len(), names.len())?;
        }
        Sources::Faults(faults) => {
            for fault in faults.as_slice() {
                write!(
                    text,
                    "{}:{}: {} {}; ",
                    fault.file, fault.at, fault.code, fault.text
                )?;
            }
        }
    }
    Ok(text)
}

/// The prelude has 14 names: `java`, `lang`, `Object`, `equals`, `o`, `hashCode`, `String`, `toString`, `length`,
/// `charAt`, `i`, `isEmpty`, `concat` and `s`.
const FOLDERS: [(&[&[u8]], &str); 13] = [
    (&[], "2 trees, 14 names"),
    (&[b"class A {}"], "3 trees, 15 names"),
    (
        &[b"class A { String s; }", b"class B {}"],
        "4 trees, 16 names",
    ),
    (&[b"class A {} \xFF"], "2:11: 1 not UTF-8; "),
    (&[b"class A { int f( }"], "2:17: 2 syntax error; "),
    (&[b"class A {"], "2:9: 2 syntax error; "),
    (&[b"class A { // end\n"], "2:17: 2 syntax error; "),
    (&[b"/* \xC3\xBC */ enum A {}"], "2:9: 2 syntax error; "),
    (
        &[b"class A { int a = 2147483648; }"],
        "2:18: 3 bad literal; ",
    ),
    (&[b"class A { int a = -2147483648; }"], "3 trees, 16 names"),
    (&[b"class A { # }"], "2:10: 5 bad token; "),
    (
        &[b"class A {} \xFF", b"class B {}", b"class C {"],
        "2:11: 1 not UTF-8; 4:9: 2 syntax error; ",
    ),
    (&[b"class A {}", b"#", b"class C {}"], "3:0: 5 bad token; "),
];

#[test]
fn folders(rt: HostRuntime) -> Result<(), Fail> {
    for (sources, want) in FOLDERS {
        let found = shown(rt.alloc(), sources)?;
        assert_eq!(rt; found.as_str(), want);
    }
    Ok(())
}

/// A field whose value stands between so many pairs of parentheses.
fn nested(alloc: Global, times: u32) -> Result<String, AllocError> {
    let mut source = String::from_str(alloc, "class A { int a = ")?;
    for _time in 0..times {
        source.push('(')?;
    }
    source.push('1')?;
    for _time in 0..times {
        source.push(')')?;
    }
    source.push_str("; }")?;
    Ok(source)
}

#[test]
fn nested_too_deep(rt: HostRuntime) -> Result<(), Fail> {
    let source = nested(rt.alloc(), 40)?;
    let found = shown(rt.alloc(), &[source.as_bytes()])?;
    assert_eq!(rt; found.as_str(), "3 trees, 16 names");
    let deep = nested(rt.alloc(), 199)?;
    let found = shown(rt.alloc(), &[deep.as_bytes(), b"#", b"class B {}"])?;
    assert_eq!(rt;
        found.as_str(),
        "2:216: 4 nested too deep; 3:0: 5 bad token; "
    );
    Ok(())
}

/// A source, which blanks behind it make as long as it is to be, in bytes.
fn padded(alloc: Global, source: &str, bytes: usize) -> Result<String, AllocError> {
    let mut text = String::from_str(alloc, source)?;
    for _byte in source.len()..bytes {
        text.push(' ')?;
    }
    Ok(text)
}

/// Files of these sources, one a line, of which each is as long as it is to be.
fn padded_files(alloc: Global, lines: &str, bytes: usize) -> Result<Vec<SourceFile>, AllocError> {
    let mut files = Vec::new(alloc);
    for line in lines.lines() {
        let bytes = padded(alloc, line, bytes)?.into_bytes();
        let path = String::from_str(alloc, "A.java")?;
        files.push(SourceFile { path, bytes })?;
    }
    Ok(files)
}

/// What files come to that so many threads read.
fn shown_in_threads<R: Threads + Sync>(
    rt: &R,
    alloc: Global,
    files: &[SourceFile],
    workers: u32,
) -> Result<String, Fail> {
    if !are_within_limits(files) {
        return Err(Fail::new("too many bytes"));
    }
    told(alloc, read_in_threads(rt, alloc, files, workers)?)
}

/// Six files, one a line, and what they come to with 20,000 bytes a file: all to trees, four to faults, and each to a fault.
const SIX_FILES: [(&str, &str); 3] = [
    (
        "class A {}
class B {}
class C {}
class D { A a; }
class E {}
class F { int b; }",
        "8 trees, 22 names",
    ),
    (
        "class A { # }
class B {}
class C { int a = 2147483648; }
enum D {}
class E {}
class F { int b }",
        "2:10: 5 bad token; 4:18: 3 bad literal; 5:0: 2 syntax error; 7:16: 2 syntax error; ",
    ),
    (
        "class A { # }
class B {
class C { int a = 2147483648; }
enum D {}
#
class F { int b }",
        "2:10: 5 bad token; 3:20000: 2 syntax error; 4:18: 3 bad literal; 5:0: 2 syntax error; 6:0: 5 bad token; 7:16: 2 syntax error; ",
    ),
];

/// Whether files of these lines, with 20,000 bytes a file, come to this by so many threads.
fn come_to<R: Threads + Sync>(
    rt: &R,
    alloc: Global,
    lines: &str,
    wanted: &str,
    workers: u32,
) -> Result<bool, Fail> {
    let files = padded_files(alloc, lines, 20_000)?;
    let found = shown_in_threads(rt, alloc, &files, workers)?;
    Ok(found.as_str() == wanted)
}

#[test]
fn threads_read_the_same(rt: HostRuntime) -> Result<(), Fail> {
    for (lines, wanted) in SIX_FILES {
        for workers in [0, 1, 2, 3, 7, 64] {
            assert!(rt; come_to(&rt, rt.alloc(), lines, wanted, workers)?);
        }
    }
    Ok(())
}

/// Files of which each nests as deep as a source may, and the last one deeper.
fn deep_files(alloc: Global) -> Result<Vec<SourceFile>, AllocError> {
    let mut lines = String::new(alloc);
    for times in [190, 190, 190, 199] {
        lines.push_str(&nested(alloc, times)?)?;
        lines.push('\n')?;
    }
    padded_files(alloc, &lines, 40_000)
}

#[test]
fn threads_have_room_for_the_deepest(rt: HostRuntime) -> Result<(), Fail> {
    let files = deep_files(rt.alloc())?;
    let found = shown_in_threads(&rt, rt.alloc(), &files, 4)?;
    assert_eq!(rt; found.as_str(), "5:216: 4 nested too deep; ");
    Ok(())
}
