//! Listings of a small folder, against texts that were written by hand.

ghost use Rattle.std.specs.Prelude.{◌≡◌, length, IfOk};

use crate::small_folder::{
    B, M, P, X, scope, small_graph, small_layout, small_names, small_skeleton, small_sources,
};
use jv_diag::DiagList;
use jv_instance::{Java, JavaDatum, JavaPred, labels};
use jv_layout::Layout;
use jv_tree::{NameId, Names};
use sc_io::SourceFile;
use sc_listing::{Listed, answers_text, graph_text};
use sg_base::{Graph, Label, Scope, Step};
use sg_query::{Answer, FoundPaths, FoundTree, Query};
use sg_unit::{Entry, Op, Reply};
use std::alloc::{AllocError, Global};
use std::test::Fail;

/// What is listed of the graph at the opening, and of the whole graph.
const GRAPHS: [&str; 2] = [
    "file p/A.java\nodi java.lang\nfile r/I.java\nodi java.lang\ntype p.A\ntype p.A.B\ntype p.A\ntype I\ntype I.B\nend\n",
    "file p/A.java\nsimp I\nodi java.lang\nfile r/I.java\nodi java.lang\nodi p\nodi p.A\ntype p.A\next java.lang.Object\nconstructor()\nfield x int\nmethod x(int,java.lang.Object) p.A.B[]\nmethod m(?,char,java.lang.String[][]) void\ntype p.A.B\next p.A\nconstructor(p.A)\ntype p.A\next java.lang.Object\nconstructor()\ntype I\nfield x java.lang.String\ntype I.B\next java.lang.Object\nend\n",
];

/// What a listing of the small folder is about, which `Listed` borrows.
#[derive(Drop)]
struct Folder {
    names: Names,
    layout: Layout,
    files: Vec<SourceFile>,
}

fn make_small(alloc: Global) -> Result<Folder, Fail>
    ensures { IfOk result (λ s. length s.files.items ≡ 2) }
{
    let names = small_names(alloc)?;
    let layout = small_layout(alloc, &names)?;
    let files = small_sources(alloc)?;
    Ok(Folder {
        names,
        layout,
        files,
    })
}

/// What a listing of the folder is about.
fn about(s: &Folder) -> Listed<'_>
    ensures { result.files.now ≡ s.now.files.items }
{
    Listed {
        layout: &s.layout,
        names: &s.names,
        files: &s.files,
    }
}

fn text_of(alloc: Global, s: &Folder, graph: &Graph<JavaDatum>) -> Result<Vec<u8>, AllocError>
    requires { length s.now.files.items ≡ 2 }
{
    graph_text(alloc, &about(s), graph)
}

fn graph_of(alloc: Global, s: &Folder, is_whole: bool) -> Result<Graph<JavaDatum>, AllocError> {
    if is_whole {
        small_graph(alloc, &s.layout)
    } else {
        small_skeleton(alloc, &s.layout)
    }
}

fn text_of_graph(alloc: Global, s: &Folder, is_whole: bool) -> Result<Vec<u8>, AllocError>
    requires { length s.now.files.items ≡ 2 }
{
    let graph = graph_of(alloc, s, is_whole)?;
    text_of(alloc, s, &graph)
}

/// What is listed of the graph at the opening, or of the whole graph.
fn listed_graph(alloc: Global, is_whole: bool) -> Result<Vec<u8>, Fail> {
    let s = make_small(alloc)?;
    Ok(text_of_graph(alloc, &s, is_whole)?)
}

#[test]
fn graphs_of_a_small_folder(rt: HostRuntime) -> Result<(), Fail> {
    let skeleton = listed_graph(rt.alloc(), false)?;
    assert_eq!(rt; skeleton.as_slice(), GRAPHS[0].as_bytes());
    let whole = listed_graph(rt.alloc(), true)?;
    assert_eq!(rt; whole.as_slice(), GRAPHS[1].as_bytes());
    Ok(())
}

/// The first scope with this title.
fn scope_titled(alloc: Global, w: &Listed<'_>, title: &str) -> Result<Option<Scope>, AllocError> {
    for serial in 0..28 {
        let found = w.layout.title(alloc, w.names, scope(serial))?;
        if found.as_str() == title {
            return Ok(Some(scope(serial)));
        }
    }
    Ok(None)
}

/// The label of a line's word, and the title behind it.
fn edge_line(line: &str) -> Option<(u8, &str)> {
    if let Some(title) = line.strip_prefix("simp ") {
        return Some((labels::SIMP, title));
    }
    if let Some(title) = line.strip_prefix("odi ") {
        return Some((labels::ODI, title));
    }
    match line.strip_prefix("ext ") {
        Some(title) => Some((labels::EXT, title)),
        None => None,
    }
}

/// Whether the graph has the edge that a line tells of the scope above it.
fn is_told_edge(
    alloc: Global,
    w: &Listed<'_>,
    graph: &Graph<JavaDatum>,
    from: Scope,
    label: u8,
    title: &str,
) -> Result<bool, AllocError> {
    match scope_titled(alloc, w, title)? {
        Some(to) => Ok(label < 16 && graph.edges_of(from, Label::new(label)).contains(&to)),
        None => Ok(false),
    }
}

/// How many edges of these labels leave the folder's own files and types.
fn edge_count(graph: &Graph<JavaDatum>) -> usize {
    let mut count: usize = 0;
    for serial in 7..16 {
        for label in [labels::SIMP, labels::ODI, labels::EXT] {
            if (serial < 9 || serial > 10) && label < 16 {
                let targets = graph.edges_of(scope(serial), Label::new(label)).len();
                count = count.saturating_add(targets);
            }
        }
    }
    count
}

/// The serial of the file or the type that a line names, the next behind that of the last one, or else that of the last one.
fn serial_at(line: &str, last: u32) -> u32 {
    if !line.starts_with("file ") && !line.starts_with("type ") {
        return last;
    }
    if last == 8 {
        11
    } else {
        last.saturating_add(1)
    }
}

/// How many edges a text tells. It fails with the line of one that the graph has not.
fn told_edges(
    alloc: Global,
    w: &Listed<'_>,
    graph: &Graph<JavaDatum>,
    text: &str,
) -> Result<usize, Fail> {
    let mut told: usize = 0;
    let mut at: u32 = 6;
    for line in text.lines() {
        at = serial_at(line, at);
        if let Some((label, title)) = edge_line(line) {
            if !is_told_edge(alloc, w, graph, scope(at), label, title)? {
                return Err(Fail::new(line));
            }
            told = told.saturating_add(1);
        }
    }
    Ok(told)
}

/// How many edges the text of a graph tells.
fn told_of(alloc: Global, s: &Folder, graph: &Graph<JavaDatum>) -> Result<usize, Fail>
    requires { length s.now.files.items ≡ 2 }
{
    let bytes = text_of(alloc, s, graph)?;
    match std::str::from_utf8(&bytes) {
        Ok(text) => told_edges(alloc, &about(s), graph, text),
        Err(_) => Err(Fail::new("no text")),
    }
}

fn told_and_there_in(alloc: Global, s: &Folder) -> Result<(usize, usize), Fail>
    requires { length s.now.files.items ≡ 2 }
{
    let graph = small_graph(alloc, &s.layout)?;
    Ok((told_of(alloc, s, &graph)?, edge_count(&graph)))
}

/// How many edges the text of the whole graph tells, and how many leave the folder's own files and types there.
fn told_and_there(alloc: Global) -> Result<(usize, usize), Fail> {
    let s = make_small(alloc)?;
    told_and_there_in(alloc, &s)
}

#[test]
fn a_text_tells_the_edges_of_its_graph(rt: HostRuntime) -> Result<(), Fail> {
    let (told, there) = told_and_there(rt.alloc())?;
    assert_eq!(rt; told, there);
    assert_eq!(rt; told, 9);
    Ok(())
}

type LogEntry = Entry<Java, DiagList>;

/// Adds a path by the labels and serials of its steps, with a datum.
fn add(
    alloc: Global,
    found: &mut FoundTree<JavaDatum>,
    steps: &[(u8, u32)],
) -> Result<(), AllocError> {
    let mut made = Vec::new(alloc);
    for (label, serial) in steps {
        if *label < 16 {
            made.push(Step {
                label: Label::new(*label),
                to: scope(*serial),
            })?;
        }
    }
    found.add(made.as_slice(), JavaDatum::Member { name: NameId(M) })
}

/// Paths from a scope by the labels and serials of their steps.
fn paths(alloc: Global, start: u32, all: &[&[(u8, u32)]]) -> Result<Answer<JavaDatum>, AllocError> {
    let mut found = FoundTree::new(alloc, scope(start));
    for steps in all {
        add(alloc, &mut found, steps)?;
    }
    Ok(Answer::Paths(FoundPaths::new(alloc, found)?))
}

/// What a unit did: it asked a query by its kind, the serial of its start and what it wants, its search came to the end or
/// to a wait, or it took paths, by the serial of their start, or took that there are too many.
#[derive(Clone, Copy)]
enum Did {
    Ask(u8, u32, JavaPred),
    Ready,
    Suspended,
    Take(u32, &'static [&'static [(u8, u32)]]),
    TooMany,
}

/// Asks and answers of the units of `p/A.java` and of `p.A`, some twice, between those of others.
const DONE: [(u32, Did); 23] = [
    (6, Did::Ask(3, 7, JavaPred::Named(NameId(B)))),
    (2, Did::Ask(0, 0, JavaPred::Named(NameId(P)))),
    (6, Did::Suspended),
    (2, Did::Ready),
    (6, Did::Ready),
    (2, Did::Take(0, &[&[(labels::PKG, 4)]])),
    (
        6,
        Did::Take(7, &[&[(labels::PKGOF, 4), (labels::TYPE, 11)]]),
    ),
    (4, Did::Ask(9, 9, JavaPred::Any)),
    (4, Did::TooMany),
    (6, Did::Ask(5, 11, JavaPred::Named(NameId(M)))),
    (
        6,
        Did::Take(
            11,
            &[
                &[(labels::METH, 24)],
                &[(labels::EXT, 9), (labels::METH, 17)],
            ],
        ),
    ),
    (6, Did::Ask(3, 7, JavaPred::Named(NameId(B)))),
    (
        6,
        Did::Take(7, &[&[(labels::PKGOF, 4), (labels::TYPE, 11)]]),
    ),
    (6, Did::Ask(9, 11, JavaPred::Any)),
    (6, Did::Take(11, &[&[]])),
    (6, Did::Ask(4, 11, JavaPred::Named(NameId(X)))),
    (6, Did::Take(11, &[])),
    (9, Did::Ask(9, 14, JavaPred::Any)),
    (9, Did::TooMany),
    (9, Did::Ask(8, 26, JavaPred::Any)),
    (9, Did::Take(26, &[&[(labels::SIG, 38)]])),
    (10, Did::Ask(7, 15, JavaPred::Any)),
    (10, Did::Suspended),
];

fn asked(unit: u32, kind: u8, start: u32, pred: JavaPred) -> LogEntry {
    Entry {
        unit,
        op: Op::Ask(Query {
            start: scope(start),
            kind,
            pred,
        }),
        reply: Reply::Moved,
    }
}

fn advanced(unit: u32, reply: Reply<Java>) -> LogEntry {
    Entry {
        unit,
        op: Op::Advance,
        reply,
    }
}

fn taken(unit: u32, answer: Answer<JavaDatum>) -> LogEntry {
    Entry {
        unit,
        op: Op::Take,
        reply: Reply::Answer(answer),
    }
}

fn entry_of(alloc: Global, unit: u32, did: Did) -> Result<LogEntry, AllocError> {
    match did {
        Did::Ask(kind, start, pred) => Ok(asked(unit, kind, start, pred)),
        Did::Ready => Ok(advanced(unit, Reply::Ready)),
        Did::Suspended => Ok(advanced(unit, Reply::Suspended)),
        Did::Take(start, all) => Ok(taken(unit, paths(alloc, start, all)?)),
        Did::TooMany => Ok(taken(unit, Answer::TooMany)),
    }
}

fn small_log(alloc: Global) -> Result<Vec<LogEntry>, AllocError> {
    let mut log = Vec::new(alloc);
    for (unit, did) in DONE {
        log.push(entry_of(alloc, unit, did)?)?;
    }
    Ok(log)
}

/// What is listed of no log, and of the small one: nothing of the prelude's units, and nothing of an ask whose answer was not
/// taken.
const ANSWERS: [&str; 2] = [
    "unit p/A.java\nunit r/I.java\nunit p.A\nunit p.A.B\nunit p.A\nunit I\nunit I.B\nend\n",
    "unit p/A.java\nSUBPKG (root) p: (root) PKG p\nunit r/I.java\nunit p.A\nFIELDS p.A x: -\nFILETYPE p/A.java B: p/A.java PKGOF p TYPE p.A\nMETHODS p.A m: p.A METH p.A#m(); p.A EXT java.lang.Object METH java.lang.Object#m()\nSUPERS p.A *: p.A\nunit p.A.B\nunit p.A\nunit I\nSIG I#x *: I#x SIG I#x!\nSUPERS I *: *\nunit I.B\nend\n",
];

fn listed_answers(alloc: Global, log: &[LogEntry]) -> Result<Vec<u8>, Fail> {
    let s = make_small(alloc)?;
    Ok(answers_text(alloc, &about(&s), log)?)
}

#[test]
fn answers_of_a_small_folder(rt: HostRuntime) -> Result<(), Fail> {
    let none = listed_answers(rt.alloc(), &[])?;
    assert_eq!(rt; none.as_slice(), ANSWERS[0].as_bytes());
    let log = small_log(rt.alloc())?;
    let some = listed_answers(rt.alloc(), &log)?;
    assert_eq!(rt; some.as_slice(), ANSWERS[1].as_bytes());
    Ok(())
}
