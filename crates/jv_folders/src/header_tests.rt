//! What the rules of imports, of headers and of dependence ask in a small folder, and what they come to by answers that are made up. What they
//! say of whole folders stands in `tests/bodies`.

use crate::sources::{laid_out, trees};
use jv_diag::Diag;
use jv_header::{
    FileImports, Header, ImportsProgress, read_imports, resolve_depends, resolve_header,
    resolve_imports,
};
use jv_instance::{JavaDatum, JavaPred, labels};
use jv_layout::Layout;
use jv_names::Oracle;
use jv_tree::{NameId, Names, TypeDecl, Unit};
use sg_base::{Label, Scope, Step};
use sg_query::{Answer, FoundPaths, FoundTree, Query};
use sg_reading::Known;
use std::alloc::Global;
use std::fmt::Write;
use std::test::Fail;

/// A file behind the two of the prelude, whose types are 2 and 3.
const SOURCE: &str = "import p.T; import q.*; class A extends T {} class B {}";

const FILE: u32 = 2;

const A: usize = 2;

const B: usize = 3;

/// More than the queries of a rule.
const MANY: u32 = 10;

/// What is read.
#[derive(Clone, Copy)]
enum Reading {
    /// The imports of the file.
    Imports,
    /// The header of a type.
    Header(usize),
    /// Whether `A` depends on itself, where this type is above it.
    Dependence(usize),
}

/// The folder, and how each query is answered: by no path, or by one with a label to a type.
#[derive(Clone, Copy)]
struct Folder<'a> {
    alloc: Global,
    names: &'a Names,
    units: &'a [Unit],
    layout: &'a Layout,
    reply: Option<(u8, usize)>,
}

/// Adds the codes of diagnostics with their places.
fn add_diags(text: &mut String, diags: &[Diag]) -> Result<(), Fail> {
    for diag in diags {
        write!(text, "E{} at {} ", diag.code, diag.at)?;
    }
    Ok(())
}

/// Adds a path of one step.
fn add_step(found: &mut FoundTree<JavaDatum>, label: u8, to: Scope) -> Result<(), Fail> {
    let step = Step {
        label: Label::new(label % 16),
        to,
    };
    found.add(&[step], JavaDatum::TypeName { name: NameId(0) })?;
    Ok(())
}

impl<'a> Folder<'a> {
    /// The file.
    fn unit(&self) -> Result<&'a Unit, Fail> {
        match self.units.get(FILE as usize) {
            Some(unit) => Ok(unit),
            None => Err(Fail::new("no such file")),
        }
    }

    /// The declaration of a type.
    fn decl(&self, number: usize) -> Result<&'a TypeDecl, Fail> {
        match self.unit()?.types.get(number.saturating_sub(2)) {
            Some(decl) => Ok(decl),
            None => Err(Fail::new("no such type")),
        }
    }
}

impl Folder<'_> {
    /// The scope of a type.
    fn ty(&self, number: usize) -> Result<Scope, Fail> {
        match self.layout.types().get(number) {
            Some(ty) => Ok(*ty),
            None => Err(Fail::new("no such type")),
        }
    }

    /// The answer to a query from a scope.
    fn answer(&self, start: Scope) -> Result<Answer<JavaDatum>, Fail> {
        let mut found = FoundTree::new(self.alloc, start);
        if let Some((label, number)) = self.reply {
            add_step(&mut found, label, self.ty(number)?)?;
        }
        Ok(Answer::Paths(FoundPaths::new(self.alloc, found)?))
    }

    /// Adds the kind of a query, and answers it.
    fn put_reply(
        &self,
        text: &mut String,
        oracle: &mut Oracle,
        query: Query<JavaPred>,
    ) -> Result<(), Fail> {
        write!(text, "asks {} ", query.kind)?;
        let answer = self.answer(query.start)?;
        oracle.put(query, answer)?;
        Ok(())
    }

    /// The query whose answer the imports lack; none where they can be read.
    fn import_query(&self, oracle: &Oracle) -> Result<Option<Query<JavaPred>>, Fail> {
        let unit = self.unit()?;
        match resolve_imports(self.alloc, self.layout, self.names, oracle, FILE, unit)? {
            Known::Is(_) => Ok(None),
            Known::Need(query) => Ok(Some(query)),
        }
    }

    /// What the imports give by these answers.
    #[tactic(auto, using(jv_header::proofs::ImportsSoFar::imports_so_far_new))]
    fn read_imports(&self, oracle: &Oracle) -> Result<FileImports, Fail> {
        let unit = self.unit()?;
        let mut progress = ImportsProgress::new(self.alloc);
        let found = read_imports(
            self.alloc,
            self.layout,
            self.names,
            oracle,
            FILE,
            unit,
            &mut progress,
        )?;
        Ok(found)
    }

    /// What the imports give.
    fn imports(&self, text: &mut String) -> Result<FileImports, Fail> {
        let mut oracle = Oracle::new(self.alloc);
        for _ in 0..MANY {
            match self.import_query(&oracle)? {
                Some(query) => self.put_reply(text, &mut oracle, query)?,
                None => return self.read_imports(&oracle),
            }
        }
        Err(Fail::new("too many queries"))
    }

    /// Adds what the imports give.
    fn add_imports(&self, text: &mut String) -> Result<(), Fail> {
        let found = self.imports(text)?;
        write!(
            text,
            "{} {} ",
            found.singles().len(),
            found.on_demand().len()
        )?;
        add_diags(text, found.diags.as_slice())
    }

    /// The header of a type.
    fn header(&self, text: &mut String, decl: &TypeDecl, ty: Scope) -> Result<Header, Fail> {
        let mut oracle = Oracle::new(self.alloc);
        for _ in 0..MANY {
            match resolve_header(self.alloc, self.layout, self.names, &oracle, decl, ty)? {
                Known::Is(header) => return Ok(header),
                Known::Need(query) => self.put_reply(text, &mut oracle, query)?,
            }
        }
        Err(Fail::new("too many queries"))
    }

    /// Adds the title of a type.
    fn add_title(&self, text: &mut String, ty: Scope) -> Result<(), Fail> {
        let title = self.layout.title(self.alloc, self.names, ty)?;
        write!(text, "{} ", title.as_str())?;
        Ok(())
    }

    /// Adds the supertypes that a header gives, and its diagnostics.
    fn add_header(&self, text: &mut String, number: usize) -> Result<(), Fail> {
        let header = self.header(text, self.decl(number)?, self.ty(number)?)?;
        for ty in header.row.as_slice() {
            self.add_title(text, *ty)?;
        }
        add_diags(text, header.diags.as_slice())
    }

    /// Adds what is said of the dependence of a type on itself.
    fn add_dependence(
        &self,
        text: &mut String,
        decl: &TypeDecl,
        row: &[Scope],
    ) -> Result<(), Fail> {
        let mut oracle = Oracle::new(self.alloc);
        let ty = self.ty(A)?;
        let name = decl.name;
        for _ in 0..MANY {
            match resolve_depends(self.alloc, self.layout, self.names, &oracle, name, ty, row)? {
                Known::Is(diags) => return add_diags(text, diags.as_slice()),
                Known::Need(query) => self.put_reply(text, &mut oracle, query)?,
            }
        }
        Err(Fail::new("too many queries"))
    }

    /// Adds what is read.
    fn add_read(&self, text: &mut String, reading: Reading) -> Result<(), Fail> {
        match reading {
            Reading::Imports => self.add_imports(text),
            Reading::Header(number) => self.add_header(text, number),
            Reading::Dependence(number) => {
                self.add_dependence(text, self.decl(A)?, &[self.ty(number)?])
            }
        }
    }
}

/// What is read of the folder by these replies.
fn read_by(
    alloc: Global,
    names: &Names,
    units: &[Unit],
    reading: Reading,
    reply: Option<(u8, usize)>,
) -> Result<String, Fail> {
    let layout = laid_out(alloc, names, units)?;
    let folder = Folder {
        alloc,
        names,
        units,
        layout: &layout,
        reply,
    };
    let mut text = String::new(alloc);
    folder.add_read(&mut text, reading)?;
    Ok(text)
}

/// Whether this is what is read of the folder.
fn is_read(
    alloc: Global,
    reading: Reading,
    reply: Option<(u8, usize)>,
    wanted: &str,
) -> Result<bool, Fail> {
    let mut names = Names::new(alloc);
    let units = trees(alloc, SOURCE, &mut names)?;
    let text = read_by(alloc, &names, &units, reading, reply)?;
    Ok(text.as_str() == wanted)
}

#[test]
fn imports_ask_for_their_packages(rt: HostRuntime) -> Result<(), Fail> {
    let wanted = "asks 0 asks 0 0 0 E12 at 7 E12 at 19 ";
    assert!(rt; is_read(rt.alloc(), Reading::Imports, None, wanted)?);
    Ok(())
}

#[test]
fn headers_ask_for_their_references(rt: HostRuntime) -> Result<(), Fail> {
    let wanted = "asks 3 java.lang.Object E20 at 40 ";
    assert!(rt; is_read(rt.alloc(), Reading::Header(A), None, wanted)?);
    let reply = Some((labels::SELF, B));
    assert!(rt; is_read(rt.alloc(), Reading::Header(A), reply, "asks 3 B ")?);
    assert!(rt; is_read(rt.alloc(), Reading::Header(B), None, "java.lang.Object ")?);
    Ok(())
}

#[test]
fn dependence_asks_for_supertypes(rt: HostRuntime) -> Result<(), Fail> {
    assert!(rt; is_read(rt.alloc(), Reading::Dependence(B), None, "asks 9 ")?);
    let reply = Some((labels::EXT, A));
    assert!(rt;
        is_read(
            rt.alloc(),
            Reading::Dependence(B),
            reply,
            "asks 9 E25 at 30 "
        )?
    );
    Ok(())
}
