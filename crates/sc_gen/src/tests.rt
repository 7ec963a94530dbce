//! Small projects, against texts that were written by hand.

use crate::project;
use sc_io::SourceFile;
use std::alloc::{AllocError, Global};
use std::test::Fail;

/// The paths and the texts of files, each behind a line end.
fn told(alloc: Global, files: &[SourceFile]) -> Result<Vec<u8>, AllocError> {
    let mut text = Vec::new(alloc);
    for file in files {
        text.extend_from_slice(b"\n")?;
        text.extend_from_slice(file.path.as_bytes())?;
        text.extend_from_slice(b"\n")?;
        text.extend_from_slice(&file.bytes)?;
    }
    Ok(text)
}

#[test]
fn projects_of_no_class_of_one_and_of_two(rt: HostRuntime) -> Result<(), Fail> {
    let alloc = rt.alloc();
    for (n, wanted) in [
        (0, ""),
        (
            1,
            "\ng/C0.java\npackage g; class C0 { int f0; int m0() { return f0 + 1; } }",
        ),
        (
            2,
            "\ng/C0.java\npackage g; class C0 { int f0; int m0() { return f0 + 1; } }\ng/C1.java\npackage g; class C1 extends C0 { int f1; int m1() { return f0 + 1; } }",
        ),
    ] {
        let files = project(alloc, n)?;
        let text = told(alloc, &files)?;
        assert_eq!(rt; text.as_slice(), wanted.as_bytes());
    }
    Ok(())
}

#[test]
fn paths_stand_by_their_bytes(rt: HostRuntime) -> Result<(), Fail> {
    let alloc = rt.alloc();
    let files = project(alloc, 11)?;
    let mut paths = String::new(alloc);
    for file in &files {
        paths.push_str(file.path.as_str())?;
        paths.push(' ')?;
    }
    assert_eq!(rt;
        paths.as_str(),
        "g/C0.java g/C1.java g/C10.java g/C2.java g/C3.java g/C4.java g/C5.java g/C6.java g/C7.java g/C8.java g/C9.java "
    );
    assert_eq!(rt;
        files[2].bytes.as_slice(),
        b"package g; class C10 extends C5 { int f10; int m10() { return f5 + 1; } }".as_slice()
    );
    assert_eq!(rt;
        files[10].bytes.as_slice(),
        b"package g; class C9 extends C4 { int f9; int m9() { return f4 + 1; } }".as_slice()
    );
    Ok(())
}

#[test]
fn the_largest_project(rt: HostRuntime) -> Result<(), Fail> {
    let files = project(rt.alloc(), 1000)?;
    assert_eq!(rt; files.len(), 1000);
    assert_eq!(rt; files[999].path.as_str(), "g/C999.java");
    assert_eq!(rt; files[3].path.as_str(), "g/C100.java");
    assert_eq!(rt;
        files[999].bytes.as_slice(),
        b"package g; class C999 extends C499 { int f999; int m999() { return f499 + 1; } }".as_slice()
    );
    Ok(())
}
