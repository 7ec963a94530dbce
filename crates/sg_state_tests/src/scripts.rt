//! Openings and held graphs in texts: what an opening lists, what units do, and what a graph is to say then. A scope is written
//! as its unit, or `n` for nobody, a point and its serial. All rows have one label.

ghost use Rattle.std.specs.Prelude.{◌<◌, IfSome};
ghost use Rattle.sg_state.specs.Held.{HoldsRow};

use sg_base::{Instance, Label, LabelSet, Scope};
use sg_state::{DatumState, Held, Need, Opening};
use std::alloc::{AllocError, Global};
use std::test::Fail;

/// Numbers as data, each its own key. A predicate wants one number.
#[derive(Drop)]
pub(crate) struct Numbers;

impl Instance for Numbers {
    ghost use Rattle.std.specs.Prelude.{◌==◌, Some};
    ghost use Rattle.std.proofs.Common.{arith};
    ghost use Rattle.std.proofs.lemmas.Bool.Decides.{nat_tests};

    type Datum = u64;

    type Pred = u64;

    ghost wants = { λ p d. p == d };

    ghost same_datum = { λ a b. a == b };

    ghost pred_key = { λ p. Some p };

    ghost datum_key = { λ d. d };

    fn matches(p: &u64, d: &u64) -> bool {
        *p == *d
    }

    fn same(a: &u64, b: &u64) -> bool {
        *a == *b
    }

    fn key_of_pred(p: &u64) -> Option<u64> {
        Some(*p)
    }

    fn key_of_datum(d: &u64) -> u64 {
        *d
    }

    fn copy_datum(_alloc: Global, d: &u64) -> Result<u64, AllocError> {
        Ok(*d)
    }

    fn copy_pred(_alloc: Global, p: &u64) -> Result<u64, AllocError> {
        Ok(*p)
    }

    ghost sameness = { record {
      reflexive = λ a. Prim.grind (arith, nat_tests);
      symmetric = λ a b h. Prim.grind (arith, nat_tests);
      transitive = λ a b c h k. Prim.grind (arith, nat_tests);
    } };

    ghost keyed = { λ p d k e t. Prim.grind (arith, nat_tests) };

    ghost one_key = { λ a b h. Prim.grind (arith, nat_tests) };
}

/// The label of all rows.
fn label() -> Label {
    Label::new(3)
}

/// A text up to a character and from there on, of which the second is empty where there is no such character.
pub(crate) fn halves(text: &str, at: char) -> (&str, &str) {
    match text.split_once(at) {
        Some(both) => both,
        None => (text, ""),
    }
}

/// The number of a word.
fn number(word: &str) -> Result<u32, Fail> {
    Ok(word.parse::<u32>()?)
}

/// What `true` and `false` say.
pub(crate) fn truth(word: &str) -> Result<bool, Fail> {
    match word {
        "true" => Ok(true),
        "false" => Ok(false),
        _ => Err(Fail::new("neither true nor false")),
    }
}

/// The scope of a word.
fn scope(word: &str) -> Result<Scope, Fail> {
    let (unit, serial) = halves(word, '.');
    let serial = number(serial)?;
    if unit == "n" {
        return Ok(Scope {
            unit: u32::MAX,
            serial,
        });
    }
    let unit = number(unit)?;
    Ok(Scope { unit, serial })
}

/// The need of a word: `row` or `datum`, a colon and a scope.
fn need(word: &str) -> Result<Need, Fail> {
    let (kind, at) = halves(word, ':');
    let s = scope(at)?;
    match kind {
        "row" => Ok(Need::Row(s, label())),
        "datum" => Ok(Need::Datum(s)),
        _ => Err(Fail::new("no such need")),
    }
}

/// The units of words.
fn units(alloc: Global, words: &str) -> Result<Vec<u32>, Fail> {
    let mut all = Vec::new(alloc);
    for word in words.split_whitespace() {
        all.push(number(word)?)?;
    }
    Ok(all)
}

/// The scopes of words.
fn scopes(alloc: Global, words: &str) -> Result<Vec<Scope>, Fail> {
    let mut all = Vec::new(alloc);
    for word in words.split_whitespace() {
        all.push(scope(word)?)?;
    }
    Ok(all)
}

/// The needs of words.
fn needs(alloc: Global, words: &str) -> Result<Vec<Need>, Fail> {
    let mut all = Vec::new(alloc);
    for word in words.split_whitespace() {
        all.push(need(word)?)?;
    }
    Ok(all)
}

/// Adds a scope to an opening, behind the others.
fn list_scope(o: &mut Opening<u64>, s: Scope) -> Result<(), Fail> {
    Ok(o.scopes.push(s)?)
}

/// Adds a scope to an opening, in front of the others.
fn list_in_front(o: &mut Opening<u64>, s: Scope) -> Result<(), Fail> {
    Ok(o.scopes.insert(0, s)?)
}

/// Adds an edge to an opening.
fn list_edge(o: &mut Opening<u64>, from: Scope, to: Scope) -> Result<(), Fail> {
    Ok(o.edges.push((from, label(), to))?)
}

/// Adds a datum that is given to an opening.
fn list_given(o: &mut Opening<u64>, s: Scope, d: u32) -> Result<(), Fail> {
    Ok(o.given.push((s, d as u64))?)
}

/// Adds a row that a unit holds to an opening.
fn list_row(o: &mut Opening<u64>, unit: u32, s: Scope) -> Result<(), Fail> {
    Ok(o.row_holds.push((unit, s, label()))?)
}

/// Adds a datum that a unit holds to an opening.
fn list_datum(o: &mut Opening<u64>, unit: u32, s: Scope) -> Result<(), Fail> {
    Ok(o.datum_holds.push((unit, s))?)
}

/// Adds what a line lists of a scope to an opening.
fn change_scope(o: &mut Opening<u64>, kind: &str, s: Scope, about: &str) -> Result<(), Fail> {
    match kind {
        "scope" => list_scope(o, s),
        "front" => list_in_front(o, s),
        "edge" => list_edge(o, s, scope(about)?),
        "given" => list_given(o, s, number(about)?),
        _ => Err(Fail::new("an opening has no such line")),
    }
}

/// Adds nobody's scopes with the serials from 0 to a last one to an opening. Each but the first has its serial as its datum,
/// and the first has edges to them, the last one first.
fn list_fan(o: &mut Opening<u64>, last: u32) -> Result<(), Fail> {
    let first = Scope {
        unit: u32::MAX,
        serial: 0,
    };
    list_scope(o, first)?;
    for serial in 0..last {
        let s = Scope {
            unit: u32::MAX,
            serial: serial + 1,
        };
        list_scope(o, s)?;
        list_given(o, s, serial + 1)?;
        list_edge(
            o,
            first,
            Scope {
                unit: u32::MAX,
                serial: last - serial,
            },
        )?;
    }
    Ok(())
}

/// Adds what a line lists to an opening. An empty line lists nothing.
pub(crate) fn change(o: &mut Opening<u64>, line: &str) -> Result<(), Fail> {
    let (kind, about) = halves(line, ' ');
    let (first, second) = halves(about, ' ');
    match kind {
        "" => Ok(()),
        "units" => {
            o.units = number(first)?;
            Ok(())
        }
        "fan" => list_fan(o, number(first)?),
        "row" => list_row(o, number(first)?, scope(second)?),
        "datum" => list_datum(o, number(first)?, scope(second)?),
        _ => change_scope(o, kind, scope(first)?, second),
    }
}

/// The opening of a text.
pub(crate) fn opening(alloc: Global, text: &str) -> Result<Opening<u64>, Fail> {
    let mut o = Opening {
        scopes: Vec::new(alloc),
        edges: Vec::new(alloc),
        given: Vec::new(alloc),
        row_holds: Vec::new(alloc),
        datum_holds: Vec::new(alloc),
        units: 0,
    };
    for line in text.lines() {
        change(&mut o, line)?;
    }
    Ok(o)
}

/// The held graph of an opening that is sound.
pub(crate) fn opened(alloc: Global, o: Opening<u64>) -> Result<Held<Numbers>, Fail> {
    if o.is_sound() {
        Ok(Held::<Numbers>::open(alloc, o)?)
    } else {
        Err(Fail::new("an opening is not sound"))
    }
}

/// The first unit that holds a row.
fn first_holder(held: &Held<Numbers>, s: Scope, l: Label) -> Option<u32>
    ensures { IfSome result (λ u. HoldsRow held.now u s l) }
{
    match held.holders(s, l) {
        [unit, ..] => Some(*unit),
        [] => None,
    }
}

/// The set of the label of all rows.
fn labels() -> LabelSet {
    LabelSet::none().with(label())
}

/// Makes the next scope of a scope's unit, and says whether it is that scope.
fn fresh(held: &mut Held<Numbers>, wanted: Scope) -> Result<bool, AllocError> {
    if !held.has_room(wanted.unit) {
        return Ok(false);
    }
    let made = held.fresh(wanted.unit, labels(), true)?;
    Ok(made == wanted)
}

/// Has the first holder of a row add an edge, and says whether there is one and the target is there.
fn add_edge(held: &mut Held<Numbers>, from: Scope, to: Scope) -> Result<bool, AllocError> {
    let l = label();
    match first_holder(held, from, l) {
        Some(unit) => {
            if !held.has_scope(to) {
                return Ok(false);
            }
            held.add_edge(unit, from, l, to)?;
            Ok(true)
        }
        None => Ok(false),
    }
}

/// Has the holder of a datum set it, and says whether there is one.
fn set_datum(held: &mut Held<Numbers>, s: Scope, d: u64) -> bool {
    match held.datum_holder(s) {
        Some(unit) => {
            held.set_datum(unit, s, d);
            true
        }
        None => false,
    }
}

/// Has the first holder of a row give it up, and says whether there is one.
fn close_row(held: &mut Held<Numbers>, s: Scope) -> bool {
    let l = label();
    match first_holder(held, s, l) {
        Some(unit) => {
            held.close_row(unit, s, l);
            true
        }
        None => false,
    }
}

/// Takes a step, and says whether it could be taken.
fn takes(held: &mut Held<Numbers>, step: &str) -> Result<bool, Fail> {
    let (name, about) = halves(step, ' ');
    let (first, second) = halves(about, ' ');
    match name {
        "fresh" => Ok(fresh(held, scope(first)?)?),
        "edge" => Ok(add_edge(held, scope(first)?, scope(second)?)?),
        "set" => Ok(set_datum(held, scope(first)?, number(second)? as u64)),
        "close" => Ok(close_row(held, scope(first)?)),
        "end" => {
            held.end_unit(number(first)?);
            Ok(true)
        }
        _ => Err(Fail::new("no such step")),
    }
}

/// Whether these are the scopes of words.
fn are_scopes(alloc: Global, found: &[Scope], words: &str) -> Result<bool, Fail> {
    let wanted = scopes(alloc, words)?;
    Ok(found == wanted.as_slice())
}

/// Whether the units that hold a row are those of words.
fn has_holders(alloc: Global, held: &Held<Numbers>, s: Scope, words: &str) -> Result<bool, Fail> {
    let wanted = units(alloc, words)?;
    Ok(held.holders(s, label()) == wanted.as_slice())
}

/// Whether what a unit frees are the needs of words.
fn has_freed(alloc: Global, held: &Held<Numbers>, unit: u32, words: &str) -> Result<bool, Fail> {
    let wanted = needs(alloc, words)?;
    let freed = held.frees(unit)?;
    Ok(freed.as_slice() == wanted.as_slice())
}

/// Whether the targets of a closed row are those of words, or the row is open where that is said.
fn has_closed(alloc: Global, held: &Held<Numbers>, s: Scope, words: &str) -> Result<bool, Fail> {
    match held.closed_row(s, label()) {
        Some(row) => are_scopes(alloc, row, words),
        None => Ok(words == "open"),
    }
}

/// Whether the datum of a scope is that of a word.
fn has_datum(held: &Held<Numbers>, s: Scope, word: &str) -> Result<bool, Fail> {
    match held.datum(s) {
        DatumState::Set(d) => Ok(*d == number(word)? as u64),
        DatumState::Unset => Ok(word == "unset"),
        DatumState::Absent => Ok(word == "absent"),
    }
}

/// Whether the unit that holds the datum of a scope is that of a word.
fn has_datum_holder(held: &Held<Numbers>, s: Scope, word: &str) -> Result<bool, Fail> {
    let wanted = number(word)?;
    Ok(held.datum_holder(s) == Some(wanted))
}

/// Whether the targets of a row with a key are those of words.
fn has_keyed(alloc: Global, held: &Held<Numbers>, about: &str, words: &str) -> Result<bool, Fail> {
    let (at, key) = halves(about, ' ');
    let s = scope(at)?;
    let key = number(key)? as u64;
    are_scopes(alloc, held.row_keyed(s, label(), key), words)
}

/// Whether the scopes of a copy of the graph are those of words.
fn has_copied_scopes(alloc: Global, held: &Held<Numbers>, words: &str) -> Result<bool, Fail> {
    let graph = held.graph(alloc)?;
    are_scopes(alloc, graph.scopes(), words)
}

/// Whether the targets of a row in a copy of the graph are those of words.
fn has_copied_row(
    alloc: Global,
    held: &Held<Numbers>,
    s: Scope,
    words: &str,
) -> Result<bool, Fail> {
    let graph = held.graph(alloc)?;
    are_scopes(alloc, graph.edges_of(s, label()), words)
}

/// Whether the datum of a scope in a copy of the graph is that of a word.
fn has_copied_datum(
    alloc: Global,
    held: &Held<Numbers>,
    s: Scope,
    word: &str,
) -> Result<bool, Fail> {
    let graph = held.graph(alloc)?;
    match graph.datum(s) {
        Some(d) => Ok(*d == number(word)? as u64),
        None => Ok(word == "absent"),
    }
}

/// Whether the first of two needs comes before the second.
fn comes_before(needs: &str) -> Result<bool, Fail> {
    let (first, second) = halves(needs, ' ');
    Ok(need(first)? < need(second)?)
}

/// Whether a graph says this of the row of a scope.
fn says_of_row(
    alloc: Global,
    held: &Held<Numbers>,
    name: &str,
    s: Scope,
    reply: &str,
) -> Result<bool, Fail> {
    match name {
        "row" => are_scopes(alloc, held.row(s, label()), reply),
        "rest" => are_scopes(alloc, held.row_rest(s, label()), reply),
        "whole" => has_closed(alloc, held, s, reply),
        "closed" => Ok(held.is_closed(s, label()) == truth(reply)?),
        "holders" => has_holders(alloc, held, s, reply),
        _ => Err(Fail::new("no such question")),
    }
}

/// Whether a graph says this of a scope.
fn says_of_scope(
    alloc: Global,
    held: &Held<Numbers>,
    name: &str,
    s: Scope,
    reply: &str,
) -> Result<bool, Fail> {
    match name {
        "there" => Ok(held.has_scope(s) == truth(reply)?),
        "datum" => has_datum(held, s, reply),
        "holder" => has_datum_holder(held, s, reply),
        "copied_row" => has_copied_row(alloc, held, s, reply),
        "copied_datum" => has_copied_datum(alloc, held, s, reply),
        _ => says_of_row(alloc, held, name, s, reply),
    }
}

/// Whether a graph says this where it is asked so.
fn says(alloc: Global, held: &Held<Numbers>, ask: &str, reply: &str) -> Result<bool, Fail> {
    let (name, about) = halves(ask, ' ');
    match name {
        "room" => Ok(held.has_room(number(about)?) == truth(reply)?),
        "frees" => has_freed(alloc, held, number(about)?, reply),
        "keyed" => has_keyed(alloc, held, about, reply),
        "copied" => has_copied_scopes(alloc, held, reply),
        "before" => Ok(comes_before(about)? == truth(reply)?),
        _ => says_of_scope(alloc, held, name, scope(about)?, reply),
    }
}

/// Whether a line holds: a step that could be taken, or a question and the reply to it, with ` =` between them.
fn holds(alloc: Global, held: &mut Held<Numbers>, line: &str) -> Result<bool, Fail> {
    match line.split_once(" =") {
        Some((ask, reply)) => says(alloc, held, ask, reply.trim()),
        None => takes(held, line),
    }
}

/// Goes through the lines of a text, and fails at the first that does not hold.
pub(crate) fn follow(alloc: Global, held: &mut Held<Numbers>, text: &str) -> Result<(), Fail> {
    for line in text.lines() {
        if !holds(alloc, held, line)? {
            return Err(Fail::new(line));
        }
    }
    Ok(())
}
