//! Lines, texts and last lines, written by hand.

use crate::texts::text_of;
use crate::{diag, last_line, line};
use std::test::Fail;

const SOURCE: &str = "class A {\n  äB c; }";

#[test]
fn lines_of_diagnostics(rt: HostRuntime) -> Result<(), Fail> {
    let none = diag(rt.alloc(), 2, 0, 2, &[])?;
    assert_eq!(rt;
        line(rt.alloc(), "A.java", SOURCE.as_bytes(), &none)?.as_slice(),
        b"A.java:1:1: E02 syntax error\n".as_slice()
    );
    let one = diag(rt.alloc(), 2, 14, 20, &["B"])?;
    assert_eq!(rt;
        line(rt.alloc(), "p/A.java", SOURCE.as_bytes(), &one)?.as_slice(),
        b"p/A.java:2:4: E20 cannot find type B\n".as_slice()
    );
    let two = diag(rt.alloc(), 2, 12, 45, &["long", "int"])?;
    assert_eq!(rt;
        line(rt.alloc(), "A.java", SOURCE.as_bytes(), &two)?.as_slice(),
        b"A.java:2:3: E45 found long, need int\n".as_slice()
    );
    assert!(rt; two < one && none < two && one.file == 2);
    Ok(())
}

#[test]
fn last_lines(rt: HostRuntime) -> Result<(), Fail> {
    let clean = last_line(rt.alloc(), 0, 4, 5)?;
    assert_eq!(rt; clean.as_slice(), b"ok files 4 types 5\n".as_slice());
    let found = last_line(rt.alloc(), 12, 4, 5)?;
    assert_eq!(rt; found.as_slice(), b"errors 12\n".as_slice());
    Ok(())
}

/// The text of each code.
const TEXTS: [(u8, &str); 52] = [
    (1, "not UTF-8"),
    (2, "syntax error"),
    (3, "bad literal"),
    (4, "nested too deep"),
    (5, "bad token"),
    (10, "duplicate type $"),
    (11, "second constructor: overloading is not in this profile"),
    (12, "cannot find import $"),
    (13, "import $ clashes with a type of this file"),
    (14, "import $ clashes with another import"),
    (16, "$ is a type and a package"),
    (17, "$ has the name of an enclosing type"),
    (18, "duplicate field $"),
    (19, "modifiers of $"),
    (20, "cannot find type $"),
    (21, "type $ is ambiguous"),
    (22, "$ is not accessible"),
    (25, "$ depends on itself"),
    (26, "$ is not a class"),
    (27, "$ is not an interface"),
    (28, "$ is final"),
    (29, "$ is repeated"),
    (30, "header of $ waits for the header of $"),
    (31, "$: static and instance methods meet"),
    (32, "$ overrides a final method"),
    (33, "$ has weaker access"),
    (34, "$ has another result type"),
    (35, "must implement $"),
    (36, "$: overloading is not in this profile"),
    (37, "body of $"),
    (38, "no constructor without arguments in $"),
    (39, "duplicate variable $"),
    (40, "cannot find $"),
    (41, "too many paths for $"),
    (42, "cannot find method $"),
    (43, "$ is ambiguous"),
    (44, "$ is not accessible"),
    (45, "found $, need $"),
    (46, "operator $ does not take $"),
    (47, "wrong number of arguments for $"),
    (48, "$ needs an instance"),
    (49, "$ is abstract"),
    (50, "not a variable"),
    (52, "not in a loop"),
    (53, "result does not fit the method"),
    (55, "$ cannot be cast to $"),
    (56, "$ is final"),
    (57, "no enclosing instance for $"),
    (58, "defaults of $ meet"),
    (59, "$ is a static method of an interface"),
    (60, "unreachable statement"),
    (61, "missing return in $"),
];

#[test]
fn texts_of_codes(rt: HostRuntime) -> Result<(), Fail> {
    for (code, text) in TEXTS {
        assert!(rt; code < 62, "{code} is no code");
        assert_eq!(rt; text_of(code), text, "at {code}");
    }
    Ok(())
}
