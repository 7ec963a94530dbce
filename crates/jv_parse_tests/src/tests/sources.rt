//! The token at which a source is refused, the files of a project, the imports and the types of a file, and the methods of an interface.
//! All else that is read of sources is told as text: `tests/bodies/faults.txt` has the places, `operators.txt`, `statements.txt` and `declarations.txt` the trees.

ghost use Rattle.std.specs.Prelude.{◌≤◌, ◌<◌, ◌+◌, All, length};
ghost use Rattle.jv_lex.specs.Source.{IsPlaced};

use jv_lex::{Token, lex};
use jv_parse::{ParseFault, parse};
use jv_tree::{Base, Ident, Import, Member, Method, Names, Stmt, StmtKind, TypeDecl, Unit};
use std::alloc::{AllocError, Global};
use std::fmt::Write;
use std::test::Fail;

fn place_of_fault(fault: ParseFault) -> Result<Option<u32>, Fail> {
    match fault {
        ParseFault::NotInGrammar { token } => Ok(Some(token)),
        _ => Err(Fail::new("another fault")),
    }
}

/// Where tokens are refused, or nothing where they are a file.
fn place(alloc: Global, source: &str, tokens: &[Token]) -> Result<Option<u32>, Fail>
    requires placed { All (IsPlaced source.now) tokens.now }
    requires few { length tokens.now ≤ 1048576 }
{
    match parse(alloc, source, tokens, &mut Names::new(alloc)) {
        Ok(_) => Ok(None),
        Err(fault) => place_of_fault(fault),
    }
}

/// Where a source is refused, or nothing where it is a file.
fn place_in(alloc: Global, source: &str) -> Result<Option<u32>, Fail>
    requires { length source.now ≤ 1000 }
{
    let tokens = lex(alloc, source.as_bytes())?;
    if tokens.len() > 1000 {
        return Err(Fail::new("too many tokens"));
    }
    place(alloc, source, &tokens)
}

/// A source and the number of the token that is refused, from 0.
const NUMBERS: [(&str, u32); 19] = [
    ("class A {", 3),
    ("class A { int = 1; }", 4),
    ("class A { void m() { a + b; } }", 11),
    ("class A { int f( }", 6),
    ("class", 1),
    ("class int {}", 1),
    ("enum A {}", 0),
    ("class A {} }", 4),
    ("interface I { int f() = 1; }", 7),
    ("interface I { default int x; }", 6),
    ("interface I { default int f() { return 1; }", 13),
    ("class default { }", 1),
    ("import static A; class A {}", 3),
    ("import static A", 3),
    ("import static A B;", 3),
    ("import static ;", 2),
    ("import static static p.A;", 2),
    ("import static p.;", 4),
    ("import static *;", 2),
];

/// The line and the column of a token, or nothing where there is none.
fn place_of_token(source: &str, tokens: &[Token], number: u32) -> Option<(u32, u32)> {
    let token = tokens.get(number as usize)?;
    if token.start as usize > source.len() {
        return None;
    }
    Some(jv_lex::place(source.as_bytes(), token.start))
}

/// The line and the column at which a source is refused, or nothing where it is a file.
fn line_and_column_in(alloc: Global, source: &str) -> Result<Option<(u32, u32)>, Fail>
    requires { length source.now ≤ 1000 }
{
    let tokens = lex(alloc, source.as_bytes())?;
    if tokens.len() > 1000 {
        return Err(Fail::new("too many tokens"));
    }
    match place(alloc, source, &tokens)? {
        Some(number) => Ok(place_of_token(source, &tokens, number)),
        None => Ok(None),
    }
}

#[test]
fn places_of_refused_tokens(rt: HostRuntime) -> Result<(), Fail> {
    for (source, wanted) in [
        ("interface I { int f() = 1; }", (1u32, 23u32)),
        ("class default { }", (1, 7)),
    ] {
        assert!(rt; source.len() < 1000);
        let found = line_and_column_in(rt.alloc(), source)?;
        assert_eq!(rt; found, Some(wanted), "{source}");
    }
    Ok(())
}

#[test]
fn numbers_of_refused_tokens(rt: HostRuntime) -> Result<(), Fail> {
    for (source, wanted) in &NUMBERS {
        assert!(rt; source.len() < 1000);
        let found = place_in(rt.alloc(), source)?;
        assert_eq!(rt; found, Some(*wanted), "{source}");
    }
    Ok(())
}

/// The files of a small project.
const PROJECT: [&str; 4] = [
    "package app;
import shapes.*;
import shapes.util.Text;
public class Main {
  static int total(Shape[] all) {
    int sum = 0;
    for (int i = 0; i < all.length; i++) { sum += all[i].area(); }
    return sum;
  }
  static String show(Shape s) { return Text.join(\"area \", s.area()) + '\\n'; }
  public static void main(String[] args) {
    Shape[] all = { new Square(2), new Square(3) };
    String out = show(all[0]) + total(all);
  }
}
",
    "package shapes;
public interface Shape { int SIDES = 4; int area(); }
",
    "package shapes;
public class Square implements Shape {
  private final int side;
  public Square(int side) { this.side = side; }
  public int area() { return new Corner().twice() / 2 * side; }
  class Corner { int twice() { return side + side; } }
  public String toString() { return \"square \" + side; }
}
",
    "package shapes.util;
public final class Text {
  public static String join(String a, int b) { return a.concat(\"\" + b); }
}
",
];

#[test]
fn files_of_a_project(rt: HostRuntime) -> Result<(), Fail> {
    for source in &PROJECT {
        assert!(rt; source.len() < 1000);
        let found = place_in(rt.alloc(), source)?;
        assert_eq!(rt; found, None, "{source}");
    }
    Ok(())
}

/// Adds the text of an identifier and a blank.
fn add_ident(text: &mut String, names: &Names, ident: Ident) -> Result<(), AllocError> {
    if ident.id.0 < names.len() {
        text.push_str(names.text(ident.id))?;
    }
    text.push(' ')
}

/// The names of a file's types, each with a blank behind it.
fn types_told(alloc: Global, names: &Names, unit: &Unit) -> Result<String, AllocError> {
    let mut text = String::new(alloc);
    for decl in &unit.types {
        add_ident(&mut text, names, decl.name)?;
    }
    Ok(text)
}

/// The tree of a source.
fn unit_of(alloc: Global, source: &str, tokens: &[Token], names: &mut Names) -> Result<Unit, Fail>
    requires placed { All (IsPlaced source.now) tokens.now }
    requires room { length names.old + length tokens.now < u32.MAX }
{
    match parse(alloc, source, tokens, names) {
        Ok(unit) => Ok(unit),
        Err(_) => Err(Fail::new("it is refused")),
    }
}

/// The names of the types of a source.
fn types_in(alloc: Global, source: &str, tokens: &[Token]) -> Result<String, Fail>
    requires placed { All (IsPlaced source.now) tokens.now }
    requires few { length tokens.now ≤ 1048576 }
{
    let mut names = Names::new(alloc);
    let unit = unit_of(alloc, source, tokens, &mut names)?;
    Ok(types_told(alloc, &names, &unit)?)
}

#[test]
fn a_file_has_its_types(rt: HostRuntime) -> Result<(), Fail> {
    let source = "import a.B; ; class A {} interface B { class C {} } class D {}";
    let tokens = lex(rt.alloc(), source.as_bytes())?;
    assert!(rt; tokens.len() < 1000);
    let found = types_in(rt.alloc(), source, &tokens)?;
    assert_eq!(rt; found.as_str(), "A B D ");
    Ok(())
}

/// Adds an import: its words, its name and what stands behind it.
fn add_import(text: &mut String, names: &Names, import: &Import) -> Result<(), AllocError> {
    if import.is_static {
        text.push_str("static ")?;
    }
    for ident in &import.name.ids {
        add_ident(text, names, *ident)?;
    }
    if import.all {
        text.push_str("* ")?;
    }
    text.push_str("; ")
}

/// The imports of a source.
fn imports_in(alloc: Global, source: &str, tokens: &[Token]) -> Result<String, Fail>
    requires placed { All (IsPlaced source.now) tokens.now }
    requires few { length tokens.now ≤ 1048576 }
{
    let mut names = Names::new(alloc);
    let unit = unit_of(alloc, source, tokens, &mut names)?;
    let mut text = String::new(alloc);
    for import in &unit.imports {
        add_import(&mut text, &names, import)?;
    }
    Ok(text)
}

#[test]
fn a_file_has_its_imports(rt: HostRuntime) -> Result<(), Fail> {
    let source =
        "import a.b; import a.*; import static a.b; import static a.*; import static a.b.c; import static a.b.*;";
    let tokens = lex(rt.alloc(), source.as_bytes())?;
    assert!(rt; tokens.len() < 1000);
    let found = imports_in(rt.alloc(), source, &tokens)?;
    assert_eq!(rt;
        found.as_str(),
        "a b ; a * ; static a b ; static a * ; static a b c ; static a b * ; "
    );
    Ok(())
}

/// What a statement is, where it returns a value.
fn statement_word(statement: &Stmt) -> &'static str {
    match &statement.kind {
        StmtKind::Return(Some(_)) => "return ",
        _ => "another ",
    }
}

/// Adds a body in braces, or a `;` where there is none.
fn add_body(text: &mut String, body: &Option<Vec<Stmt>>) -> Result<(), AllocError> {
    let Some(statements) = body else {
        return text.push_str("; ");
    };
    text.push_str("{ ")?;
    for statement in statements {
        text.push_str(statement_word(statement))?;
    }
    text.push_str("} ")
}

/// Adds a method: the numbers of its modifiers, its result where it is `int`, its name, how many parameters it has, and its body.
fn add_method(text: &mut String, names: &Names, method: &Method) -> Result<(), Fail> {
    for word in &method.mods.words {
        write!(text, "{} ", *word)?;
    }
    if let Base::Int = &method.result.base {
        text.push_str("int ")?;
    }
    add_ident(text, names, method.name)?;
    write!(text, "{} ", method.params.len())?;
    add_body(text, &method.body)?;
    Ok(())
}

/// Adds a class or an interface with its methods.
fn add_type(text: &mut String, names: &Names, decl: &TypeDecl) -> Result<(), Fail> {
    text.push_str(if decl.interface {
        "interface "
    } else {
        "class "
    })?;
    add_ident(text, names, decl.name)?;
    for member in &decl.members {
        if let Member::Method(method) = member {
            add_method(text, names, method)?;
        }
    }
    Ok(())
}

/// The types of a source with their methods.
fn methods_in(alloc: Global, source: &str, tokens: &[Token]) -> Result<String, Fail>
    requires placed { All (IsPlaced source.now) tokens.now }
    requires few { length tokens.now ≤ 1048576 }
{
    let mut names = Names::new(alloc);
    let unit = unit_of(alloc, source, tokens, &mut names)?;
    let mut text = String::new(alloc);
    for decl in &unit.types {
        add_type(&mut text, &names, decl)?;
    }
    Ok(text)
}

/// A source, and its types with their methods. The numbers are those of `default`, `static`, `abstract` and `private`.
const METHODS: [(&str, &str); 3] = [
    (
        "interface I { default int f() { return 1; } static int g() { return 2; } int h(); }",
        "interface I 11 int f 0 { return } 37 int g 0 { return } int h 0 ; ",
    ),
    (
        "interface I { void f(int a) {} abstract default private int g(); }",
        "interface I f 1 { } 0 11 32 int g 0 ; ",
    ),
    (
        "class A { default int f() { return 1; } }",
        "class A 11 int f 0 { return } ",
    ),
];

#[test]
fn methods_have_bodies_in_interfaces_too(rt: HostRuntime) -> Result<(), Fail> {
    for (source, wanted) in &METHODS {
        let tokens = lex(rt.alloc(), source.as_bytes())?;
        assert!(rt; tokens.len() < 1000);
        let found = methods_in(rt.alloc(), source, &tokens)?;
        assert_eq!(rt; found.as_str(), *wanted, "{source}");
    }
    Ok(())
}
