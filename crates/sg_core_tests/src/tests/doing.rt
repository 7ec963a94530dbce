//! What units do by the words of a line.

use crate::tests::openings::Run;
use crate::tests::telling::put_reply;
use sg_base::{Label, LabelSet, Scope};
use sg_numbers::{FIRST, Numbers, SECOND};
use sg_query::Query;
use sg_unit::{Op, Reply};
use std::alloc::AllocError;
use std::test::Fail;

/// The first scope that unit 0 makes.
const FRESH: Scope = Scope { unit: 0, serial: 0 };

/// The second scope that unit 0 makes.
const FRESH_TOO: Scope = Scope { unit: 0, serial: 1 };

/// The names of scopes.
const NAMES: [(Scope, &str); 4] = [(FIRST, "a"), (SECOND, "b"), (FRESH, "c"), (FRESH_TOO, "d")];

/// The name of a scope.
pub(crate) fn name_of(scope: Scope) -> &'static str {
    for (named, name) in NAMES {
        if named == scope {
            return name;
        }
    }
    "another"
}

/// The scope of a name.
pub(crate) fn scope_of(word: &str) -> Result<Scope, Fail> {
    for (scope, name) in NAMES {
        if name == word {
            return Ok(scope);
        }
    }
    Err(Fail::new("no such scope"))
}

/// The number that a word is, if it is one.
pub(crate) fn number_of(word: &str) -> Option<u32> {
    match word.parse::<u32>() {
        Ok(number) => Some(number),
        Err(_) => None,
    }
}

/// The number that a word has to be.
pub(crate) fn number_in(word: &str) -> Result<u32, Fail> {
    match number_of(word) {
        Some(number) => Ok(number),
        None => Err(Fail::new("not a number")),
    }
}

/// The first word of a text, and what follows it.
pub(crate) fn first_word(text: &str) -> (&str, &str) {
    match text.split_once(' ') {
        Some(parts) => parts,
        None => (text, ""),
    }
}

/// The label of a word, which may be left out: 0 then.
fn label_of(word: &str) -> Label {
    if word == "1" {
        Label::new(1)
    } else {
        Label::new(0)
    }
}

/// An ask of a query that wants 7. The kind may be left out: 0 then.
fn ask_of(start: Scope, kind: &str) -> Op<Numbers, u64> {
    Op::Ask(Query {
        start,
        kind: if kind == "1" { 1 } else { 0 },
        pred: 7,
    })
}

/// The operation of words, where it writes nothing.
fn search_of(verb: &str, rest: &str) -> Result<Op<Numbers, u64>, Fail> {
    if verb == "ask" {
        let (start, kind) = first_word(rest);
        return Ok(ask_of(scope_of(start)?, kind));
    }
    if verb == "advance" {
        return Ok(Op::Advance);
    }
    if verb == "take" {
        return Ok(Op::Take);
    }
    if verb == "end" {
        return Ok(Op::End(number_in(rest)? as u64));
    }
    Err(Fail::new("no such operation"))
}

/// An edge by words: from where, to where, and its label.
fn edge_of(rest: &str) -> Result<Op<Numbers, u64>, Fail> {
    let (from, rest) = first_word(rest);
    let (to, label) = first_word(rest);
    Ok(Op::AddEdge {
        from: scope_of(from)?,
        label: label_of(label),
        to: scope_of(to)?,
    })
}

/// A datum by words: the scope and the number.
fn datum_of(rest: &str) -> Result<Op<Numbers, u64>, Fail> {
    let (scope, datum) = first_word(rest);
    Ok(Op::SetDatum {
        scope: scope_of(scope)?,
        datum: number_in(datum)? as u64,
    })
}

/// The operation of words.
fn op_of(what: &str) -> Result<Op<Numbers, u64>, Fail> {
    let (verb, rest) = first_word(what);
    if verb == "make" {
        return Ok(Op::Fresh {
            labels: LabelSet::none().with(Label::new(0)),
            datum: true,
        });
    }
    if verb == "link" {
        return edge_of(rest);
    }
    if verb == "set" {
        return datum_of(rest);
    }
    if verb == "close" {
        return Ok(Op::CloseRow {
            scope: scope_of(rest)?,
            label: Label::new(0),
        });
    }
    search_of(verb, rest)
}

/// What a unit is told of an operation, if it may do this.
fn serve(
    run: &mut Run,
    unit: u32,
    op: Op<Numbers, u64>,
) -> Result<Option<Reply<Numbers>>, AllocError> {
    if !run.may(unit, &op) {
        return Ok(None);
    }
    Ok(Some(run.apply(unit, op)?))
}

/// Lets a unit do what words say, and writes what it is told. Whether it may do this.
pub(crate) fn act(run: &mut Run, unit: u32, what: &str, text: &mut String) -> Result<bool, Fail> {
    let op = op_of(what)?;
    match serve(run, unit, op)? {
        Some(reply) => {
            put_reply(text, &reply)?;
            Ok(true)
        }
        None => {
            text.push_str("no")?;
            Ok(false)
        }
    }
}
