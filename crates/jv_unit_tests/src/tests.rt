//! What is checked of one body, of one initializer and of one signature, in a class whose queries are answered by hand: each member has a signature with a
//! parameter and a result of type `int`, and each field that is asked for is the first member of the class.

use jv_diag::{Diag, DiagList};
use jv_instance::{JavaDatum, JavaPred, Ty, TypeBase, TypeList, labels};
use jv_layout::{Layout, is_folder, layout, prelude};
use jv_lex::lex;
use jv_names::{Oracle, kinds};
use jv_parse::parse;
use jv_tree::{NameId, Names, TypeDecl, Unit};
use jv_unit::{check_body, check_init, check_signature};
use sg_base::{Label, Scope, Step};
use sg_query::{Answer, FoundPaths, FoundTree, Query};
use sg_reading::Known;
use std::alloc::{AllocError, Global};
use std::fmt::Write;
use std::test::Fail;

/// The field `x` is blank, so that the constructor may assign it.
const BLANK: &str =
    "class A { final int x; int y = true; A(int a) { x = a; } int m() { return true; } }";

/// It is not.
const SEALED: &str =
    "class A { final int x = 0; int y = true; A(int a) { x = a; } int m() { return true; } }";

/// The file of the class behind the two of the prelude, and the class behind their types.
const FILE: usize = 2;

const CLASS: usize = 2;

/// More than the queries of a body.
const MANY: u32 = 10;

const INT: Ty = Ty {
    base: TypeBase::Int,
    dims: 0,
};

/// What is checked of a member.
#[derive(Clone, Copy)]
enum Part {
    Body,
    Init,
}

/// The class with its folder, and one of its members.
#[derive(Clone, Copy)]
struct Place<'a> {
    alloc: Global,
    names: &'a Names,
    layout: &'a Layout,
    decl: &'a TypeDecl,
    ty: Scope,
    member: Scope,
}

/// Adds a path of one step.
fn add_step(
    found: &mut FoundTree<JavaDatum>,
    label: u8,
    to: Scope,
    datum: JavaDatum,
) -> Result<(), AllocError> {
    let step = Step {
        label: Label::new(label % 16),
        to,
    };
    found.add(&[step], datum)
}

/// A signature with a parameter and a result of type `int`.
fn int_signature(alloc: Global) -> Result<JavaDatum, AllocError> {
    Ok(JavaDatum::Signature {
        name: NameId(0),
        result: INT,
        params: TypeList::new(Vec::from_slice(alloc, &[INT])?),
    })
}

impl Place<'_> {
    /// Adds the path to a signature, or to the first member of the class; none to anything else.
    fn add_path(
        &self,
        found: &mut FoundTree<JavaDatum>,
        query: &Query<JavaPred>,
    ) -> Result<(), AllocError> {
        if query.kind == kinds::SIG {
            let signature = self.layout.signature_scope(query.start);
            return add_step(found, labels::SIG, signature, int_signature(self.alloc)?);
        }
        if query.kind == kinds::FIELDS {
            if let Some(first) = self.layout.members(self.ty).first() {
                let datum = JavaDatum::Member { name: NameId(0) };
                return add_step(found, labels::FIELD, *first, datum);
            }
        }
        Ok(())
    }

    /// Adds the kind of a query, and answers it.
    fn put_reply(
        &self,
        text: &mut String,
        oracle: &mut Oracle,
        query: Query<JavaPred>,
    ) -> Result<(), Fail> {
        write!(text, "asks {} ", query.kind)?;
        let mut found = FoundTree::new(self.alloc, query.start);
        self.add_path(&mut found, &query)?;
        let answer = Answer::Paths(FoundPaths::new(self.alloc, found)?);
        oracle.put(query, answer)?;
        Ok(())
    }

    /// What is checked of the member by these replies.
    fn checked(
        &self,
        part: Part,
        oracle: &Oracle,
    ) -> Result<Known<DiagList, Query<JavaPred>>, AllocError> {
        let (names, decl) = (self.names, self.decl);
        match part {
            Part::Body => check_body(
                self.alloc,
                self.layout,
                names,
                oracle,
                decl,
                self.ty,
                self.member,
            ),
            Part::Init => check_init(
                self.alloc,
                self.layout,
                names,
                oracle,
                decl,
                self.ty,
                self.member,
            ),
        }
    }

    /// Adds what is asked, and then the diagnostics.
    fn add_checked(&self, text: &mut String, part: Part) -> Result<(), Fail> {
        let mut oracle = Oracle::new(self.alloc);
        for _ in 0..MANY {
            match self.checked(part, &oracle)? {
                Known::Is(diags) => return add_diags(text, diags.as_slice()),
                Known::Need(query) => self.put_reply(text, &mut oracle, query)?,
            }
        }
        Err(Fail::new("too many queries"))
    }
}

/// Adds diagnostics with their places and texts.
fn add_diags(text: &mut String, diags: &[Diag]) -> Result<(), Fail> {
    for diag in diags {
        write!(
            text,
            "E{} at {}: {}",
            diag.code,
            diag.at,
            diag.text.as_str()
        )?;
    }
    Ok(())
}

/// The tree of a source.
fn parsed(alloc: Global, source: &str, names: &mut Names) -> Result<Unit, Fail> {
    if source.len() > 1_048_576 {
        return Err(Fail::new("a source is too long"));
    }
    let tokens = lex(alloc, source.as_bytes())?;
    if tokens.len() > 1_048_576 || names.len() > 1_048_576 {
        return Err(Fail::new("too many names"));
    }
    Ok(parse(alloc, source, &tokens, names)?)
}

/// The trees of the prelude, and behind them that of a source.
fn trees(alloc: Global, source: &str, names: &mut Names) -> Result<Vec<Unit>, Fail> {
    let units = vec![in alloc;
        parsed(alloc, prelude::OBJECT, names)?,
        parsed(alloc, prelude::STRING, names)?,
        parsed(alloc, source, names)?,
    ]?;
    Ok(units)
}

fn laid_out(alloc: Global, names: &Names, units: &[Unit]) -> Result<Layout, Fail> {
    if !is_folder(units) {
        return Err(Fail::new("too many names are declared"));
    }
    Ok(layout(alloc, names, units)?)
}

fn first_decl(units: &[Unit]) -> Result<&TypeDecl, Fail> {
    match units.get(FILE) {
        Some(unit) => match unit.types.first() {
            Some(decl) => Ok(decl),
            None => Err(Fail::new("no class")),
        },
        None => Err(Fail::new("no file")),
    }
}

fn scope_at(scopes: &[Scope], number: usize) -> Result<Scope, Fail> {
    match scopes.get(number) {
        Some(scope) => Ok(*scope),
        None => Err(Fail::new("no such scope")),
    }
}

/// What is checked of a member of the class of these trees.
fn checked_in(
    alloc: Global,
    names: &Names,
    units: &[Unit],
    number: usize,
    part: Part,
) -> Result<String, Fail> {
    let layout = laid_out(alloc, names, units)?;
    let ty = scope_at(layout.types(), CLASS)?;
    let place = Place {
        alloc,
        names,
        layout: &layout,
        decl: first_decl(units)?,
        ty,
        member: scope_at(layout.members(ty), number)?,
    };
    let mut text = String::new(alloc);
    place.add_checked(&mut text, part)?;
    Ok(text)
}

/// Whether this is what is checked of a member.
fn is_checked(
    alloc: Global,
    source: &str,
    number: usize,
    part: Part,
    wanted: &str,
) -> Result<bool, Fail> {
    let mut names = Names::new(alloc);
    let units = trees(alloc, source, &mut names)?;
    let text = checked_in(alloc, &names, &units, number, part)?;
    Ok(text.as_str() == wanted)
}

/// The members are numbered: `x`, `y`, the constructor and `m`.
const CASES: [(&str, usize, Part, &str); 9] = [
    (BLANK, 0, Part::Init, ""),
    (
        BLANK,
        1,
        Part::Init,
        "asks 8 E45 at 31: found boolean, need int",
    ),
    (BLANK, 1, Part::Body, ""),
    (BLANK, 2, Part::Body, "asks 8 asks 4 asks 8 "),
    (BLANK, 2, Part::Init, ""),
    (
        BLANK,
        3,
        Part::Body,
        "asks 8 E45 at 74: found boolean, need int",
    ),
    (BLANK, 3, Part::Init, ""),
    (SEALED, 0, Part::Init, "asks 8 "),
    (
        SEALED,
        2,
        Part::Body,
        "asks 8 asks 4 asks 8 E56 at 52: x is final",
    ),
];

#[test]
fn members_are_checked_by_their_declaration(rt: HostRuntime) -> Result<(), Fail> {
    for (source, number, part, wanted) in CASES {
        assert!(rt; is_checked(rt.alloc(), source, number, part, wanted)?);
    }
    Ok(())
}

impl Place<'_> {
    /// The number of the parameters of the member's signature, without a reply; none where one is missing, or something is wrong.
    fn params(&self) -> Result<Option<usize>, AllocError> {
        let oracle = Oracle::new(self.alloc);
        let found = check_signature(
            self.alloc,
            self.layout,
            self.names,
            &oracle,
            self.decl,
            self.ty,
            self.member,
        )?;
        let Known::Is(signature) = found else {
            return Ok(None);
        };
        match &signature.datum {
            JavaDatum::Signature { params, .. } if signature.diags.as_slice().is_empty() => {
                Ok(Some(params.as_slice().len()))
            }
            _ => Ok(None),
        }
    }
}

/// The number of the parameters of a member of the first class.
fn params_in(alloc: Global, number: usize) -> Result<Option<usize>, Fail> {
    let mut names = Names::new(alloc);
    let units = trees(alloc, BLANK, &mut names)?;
    let layout = laid_out(alloc, &names, &units)?;
    let ty = scope_at(layout.types(), CLASS)?;
    let place = Place {
        alloc,
        names: &names,
        layout: &layout,
        decl: first_decl(&units)?,
        ty,
        member: scope_at(layout.members(ty), number)?,
    };
    Ok(place.params()?)
}

#[test]
fn members_have_signatures_by_their_declaration(rt: HostRuntime) -> Result<(), Fail> {
    for (number, wanted) in [(1, 0), (2, 1), (3, 0)] {
        assert!(rt; params_in(rt.alloc(), number)? == Some(wanted));
    }
    Ok(())
}
