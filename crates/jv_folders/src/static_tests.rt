//! What the static imports of a file ask, and what is said of them by answers that are made up: by what their names mean, and of single ones by the
//! members that they bring.

use crate::sources::{laid_out, trees};
use jv_diag::Diag;
use jv_header::{StaticsProgress, read_statics, resolve_imports};
use jv_instance::{JavaDatum, JavaPred, labels};
use jv_layout::Layout;
use jv_names::Oracle;
use jv_tree::{NameId, Names, Unit};
use sg_base::{Label, Scope, Step};
use sg_query::{Answer, FoundPaths, FoundTree, Query};
use sg_reading::{Known, Stop};
use std::alloc::Global;
use std::fmt::Write;
use std::test::Fail;

/// A file behind the two of the prelude, whose types are 2 and 3.
const SOURCE: &str =
    "package p; import static p.B.x; import static p.B.*; import static p.B.y; class A {} class B { static int x; }";

const FILE: u32 = 2;

const B: usize = 3;

/// The field of `B` behind its default constructor.
const FIELD: usize = 1;

/// What is read.
#[derive(Clone, Copy)]
enum Reading {
    /// What the imports mean.
    Imports,
    /// What the single static ones bring.
    Statics,
}

/// The folder, and what answers lead to: the package, the class that the imports name, and its field.
#[derive(Clone, Copy)]
struct Folder<'a> {
    alloc: Global,
    names: &'a Names,
    unit: &'a Unit,
    layout: &'a Layout,
    package: Scope,
    class: Scope,
    field: Scope,
}

/// Adds the codes of diagnostics with their places.
fn add_diags(text: &mut String, diags: &[Diag]) -> Result<(), Fail> {
    for diag in diags {
        write!(text, "E{} at {} ", diag.code, diag.at)?;
    }
    Ok(())
}

/// Adds a path of one step.
fn add_step(found: &mut FoundTree<JavaDatum>, label: u8, to: Scope) -> Result<(), Fail> {
    let step = Step {
        label: Label::new(label % 16),
        to,
    };
    found.add(&[step], JavaDatum::Member { name: NameId(0) })?;
    Ok(())
}

impl Folder<'_> {
    /// Adds the path that a letter stands for: to the package, the class or the field; none for any other.
    fn add_path(&self, found: &mut FoundTree<JavaDatum>, letter: u8) -> Result<(), Fail> {
        match letter {
            b'p' => add_step(found, labels::PKG, self.package),
            b'B' => add_step(found, labels::TYPE, self.class),
            b'x' => add_step(found, labels::FIELD, self.field),
            _ => Ok(()),
        }
    }

    /// The answer that a letter stands for: too many paths, one, or none.
    fn answer(&self, start: Scope, letter: u8) -> Result<Answer<JavaDatum>, Fail> {
        if letter == b'!' {
            return Ok(Answer::TooMany);
        }
        let mut found = FoundTree::new(self.alloc, start);
        self.add_path(&mut found, letter)?;
        Ok(Answer::Paths(FoundPaths::new(self.alloc, found)?))
    }

    /// Adds the kind of a query, and answers it.
    fn put_reply(
        &self,
        text: &mut String,
        oracle: &mut Oracle,
        query: Query<JavaPred>,
        letter: u8,
    ) -> Result<(), Fail> {
        write!(text, "asks {} ", query.kind)?;
        let answer = self.answer(query.start, letter)?;
        oracle.put(query, answer)?;
        Ok(())
    }

    /// The query whose answer the imports lack; none where it is known what they mean, and then that is added.
    fn lacked_by_imports(
        &self,
        text: &mut String,
        oracle: &Oracle,
    ) -> Result<Option<Query<JavaPred>>, Fail> {
        match resolve_imports(self.alloc, self.layout, self.names, oracle, FILE, self.unit)? {
            Known::Need(query) => Ok(Some(query)),
            Known::Is(found) => {
                let (singles, on_demand) = (found.singles().len(), found.on_demand().len());
                write!(text, "{singles} {on_demand} ")?;
                add_diags(text, found.diags.as_slice())?;
                Ok(None)
            }
        }
    }

    /// The query whose answer the static imports lack; none where it is known what they bring, and then that is added.
    #[tactic(auto, using(jv_header::proofs::StaticSteps::statics_so_far_new))]
    fn lacked_by_statics(
        &self,
        text: &mut String,
        oracle: &Oracle,
    ) -> Result<Option<Query<JavaPred>>, Fail> {
        let imports = self.unit.imports.as_slice();
        let mut progress = StaticsProgress::new(self.alloc);
        match read_statics(
            self.alloc,
            self.layout,
            self.names,
            oracle,
            FILE,
            imports,
            &mut progress,
        ) {
            Ok(diags) => {
                add_diags(text, diags.as_slice())?;
                Ok(None)
            }
            Err(Stop::NoReply(query)) => Ok(Some(query)),
            Err(Stop::OutOfMemory) => Err(Fail::new("out of memory")),
        }
    }

    /// The query whose answer is lacked; none where what is read is known, and then that is added.
    fn lacked(
        &self,
        text: &mut String,
        oracle: &Oracle,
        reading: Reading,
    ) -> Result<Option<Query<JavaPred>>, Fail> {
        match reading {
            Reading::Imports => self.lacked_by_imports(text, oracle),
            Reading::Statics => self.lacked_by_statics(text, oracle),
        }
    }

    /// Adds what is asked by these replies, one for each query in turn, and what is read.
    fn add_read(&self, text: &mut String, reading: Reading, replies: &str) -> Result<(), Fail> {
        let mut oracle = Oracle::new(self.alloc);
        for letter in replies.as_bytes() {
            match self.lacked(text, &oracle, reading)? {
                Some(query) => self.put_reply(text, &mut oracle, query, *letter)?,
                None => return Err(Fail::new("too many replies")),
            }
        }
        match self.lacked(text, &oracle, reading)? {
            Some(_) => Err(Fail::new("too few replies")),
            None => Ok(()),
        }
    }
}

/// The scope with a number among some.
fn scope_at(scopes: &[Scope], number: usize) -> Result<Scope, Fail> {
    match scopes.get(number) {
        Some(scope) => Ok(*scope),
        None => Err(Fail::new("no such scope")),
    }
}

/// The file of the source.
fn file_of(units: &[Unit]) -> Result<&Unit, Fail> {
    match units.get(FILE as usize) {
        Some(unit) => Ok(unit),
        None => Err(Fail::new("no such file")),
    }
}

/// What is read of the folder by these replies.
fn read_by(
    alloc: Global,
    names: &Names,
    units: &[Unit],
    reading: Reading,
    replies: &str,
) -> Result<String, Fail> {
    let layout = laid_out(alloc, names, units)?;
    let class = scope_at(layout.types(), B)?;
    let folder = Folder {
        alloc,
        names,
        unit: file_of(units)?,
        layout: &layout,
        package: layout.package_of(class),
        class,
        field: scope_at(layout.members(class), FIELD)?,
    };
    let mut text = String::new(alloc);
    folder.add_read(&mut text, reading, replies)?;
    Ok(text)
}

/// Whether this is asked and read by these replies: `p` leads to the package, `B` to the class, `x` to its field, `-` nowhere, and `!` has too
/// many paths.
fn is_read(alloc: Global, reading: Reading, replies: &str, wanted: &str) -> Result<bool, Fail> {
    let mut names = Names::new(alloc);
    let units = trees(alloc, SOURCE, &mut names)?;
    let text = read_by(alloc, &names, &units, reading, replies)?;
    Ok(text.as_str() == wanted)
}

/// A static import is looked up by the name of its type, and gives no edge.
#[test]
fn static_imports_ask_for_their_types(rt: HostRuntime) -> Result<(), Fail> {
    let alloc = rt.alloc();
    let unknown = "asks 0 0 0 E12 at 25 E12 at 46 E12 at 67 ";
    assert!(rt; is_read(alloc, Reading::Imports, "-", unknown)?);
    assert!(rt; is_read(alloc, Reading::Imports, "pB", "asks 0 asks 1 0 0 ")?);
    Ok(())
}

/// Each single one asks for types, fields and methods, also behind too many paths.
#[test]
fn single_static_imports_ask_for_members(rt: HostRuntime) -> Result<(), Fail> {
    let alloc = rt.alloc();
    assert!(rt; is_read(alloc, Reading::Statics, "-", "asks 0 ")?);
    let unknown = "asks 0 asks 1 asks 2 asks 4 asks 5 asks 2 asks 4 asks 5 E12 at 67 ";
    assert!(rt; is_read(alloc, Reading::Statics, "pB-x----", unknown)?);
    let many = "asks 0 asks 1 asks 2 asks 4 asks 5 asks 2 asks 4 asks 5 E41 at 25 E12 at 67 ";
    assert!(rt; is_read(alloc, Reading::Statics, "pB!-----", many)?);
    Ok(())
}
