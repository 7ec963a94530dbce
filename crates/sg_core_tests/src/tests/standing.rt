//! How a run stands, in words.

use crate::tests::doing::{name_of, number_in, scope_of};
use crate::tests::openings::{Run, one_step, table_of};
use crate::tests::telling::put_answer;
use sg_base::{Graph, Label, Scope};
use sg_core::{AskState, Phase};
use sg_numbers::Numbers;
use sg_query::{KindTable, Query, ans_plain};
use sg_state::Need;
use sg_waits::ShownItem;
use std::alloc::Global;
use std::fmt::Write;
use std::test::Fail;

/// The word of a phase.
fn phase_word(phase: Phase) -> &'static str {
    match phase {
        Phase::Running => "running",
        Phase::Ended => "ended",
        Phase::Stuck => "stuck",
    }
}

/// Writes the phase of a run, how many units there are, and the least that may go on.
fn put_phase(text: &mut String, run: &Run) -> Result<(), Fail> {
    let word = phase_word(run.phase());
    write!(text, "{word}, {} units, least ", run.units())?;
    match run.least_runnable() {
        Some(unit) => write!(text, "{unit}")?,
        None => text.push_str("none")?,
    }
    Ok(())
}

/// Writes what a unit waits for.
fn put_need(text: &mut String, need: &Need) -> Result<(), Fail> {
    match need {
        Need::Row(scope, label) => write!(text, "row {} {}", name_of(*scope), label.number())?,
        Need::Datum(scope) => write!(text, "datum {}", name_of(*scope))?,
    }
    Ok(())
}

/// The word of what a unit asks.
fn ask_word(ask: AskState) -> &'static str {
    match ask {
        AskState::Idle => "idle",
        AskState::Open => "open",
        AskState::Ready => "ready",
    }
}

/// Writes the needs of a unit.
fn put_needs(text: &mut String, needs: &[Need]) -> Result<(), Fail> {
    for need in needs {
        text.push_str(", waits for ")?;
        put_need(text, need)?;
    }
    Ok(())
}

/// Writes what a unit came to, if it has ended.
fn put_outcome(text: &mut String, outcome: Option<&u64>) -> Result<(), Fail> {
    match outcome {
        Some(outcome) => write!(text, ", ended with {}", *outcome)?,
        None => {}
    }
    Ok(())
}

/// Writes what a unit asks, whether it may go on, what it waits for, and what it came to.
fn put_unit(text: &mut String, run: &Run, unit: u32) -> Result<(), Fail> {
    text.push_str(ask_word(run.ask(unit)))?;
    if run.is_runnable(unit) {
        text.push_str(", may go on")?;
    }
    put_needs(text, run.needs(unit))?;
    put_outcome(text, run.result(unit))
}

/// Writes items that a run shows.
fn put_items(text: &mut String, items: &[ShownItem]) -> Result<(), Fail> {
    let mut mark = "";
    for item in items {
        write!(text, "{mark}{} waits for ", item.unit)?;
        put_need(text, &item.need)?;
        write!(text, " of {}", item.holder)?;
        mark = ", ";
    }
    Ok(())
}

/// Writes what a run shows.
fn put_shown(text: &mut String, run: &Run) -> Result<(), Fail> {
    match run.shown() {
        Some(shown) => put_items(text, shown.items.as_slice()),
        None => Ok(text.push_str("none")?),
    }
}

/// Writes the targets of edges.
fn put_targets(text: &mut String, targets: &[Scope]) -> Result<(), Fail> {
    for to in targets {
        write!(text, " to {}", name_of(*to))?;
    }
    Ok(())
}

/// Writes a scope, its datum, and the targets of its row with label 0.
fn put_scope(text: &mut String, graph: &Graph<u64>, scope: Scope) -> Result<(), Fail> {
    text.push_str(name_of(scope))?;
    match graph.datum(scope) {
        Some(datum) => write!(text, " {}", *datum)?,
        None => {}
    }
    put_targets(text, graph.edges_of(scope, Label::new(0)))
}

/// Writes the scopes of a graph.
fn put_graph(text: &mut String, graph: &Graph<u64>) -> Result<(), Fail> {
    let mut mark = "";
    for scope in graph.scopes() {
        text.push_str(mark)?;
        put_scope(text, graph, *scope)?;
        mark = ", ";
    }
    Ok(())
}

/// Writes what the plain resolver answers in a graph.
fn put_plain(
    alloc: Global,
    text: &mut String,
    graph: &Graph<u64>,
    table: &KindTable,
    start: Scope,
) -> Result<(), Fail> {
    let query = Query {
        start,
        kind: 0,
        pred: 7,
    };
    if query.kind >= table.len() || !graph.has_scope(query.start) {
        return Err(Fail::new("no such query"));
    }
    let answer = ans_plain::<Numbers>(alloc, graph, table, &query)?;
    put_answer(text, &answer)
}

/// Writes what a query from the scope of a name finds in a graph, by a table of one kind.
fn put_plain_of(
    alloc: Global,
    text: &mut String,
    graph: &Graph<u64>,
    name: &str,
) -> Result<(), Fail> {
    let table = table_of(alloc, one_step())?;
    put_plain(alloc, text, graph, &table, scope_of(name)?)
}

/// Writes what words ask of the graph of a run.
fn look_at_graph(
    alloc: Global,
    run: &Run,
    word: &str,
    rest: &str,
    text: &mut String,
) -> Result<(), Fail> {
    let graph = run.graph()?;
    if word == "graph" {
        return put_graph(text, &graph);
    }
    if word == "plain" {
        return put_plain_of(alloc, text, &graph, rest);
    }
    Err(Fail::new("no such words"))
}

/// Writes what words ask of how a run stands.
pub(crate) fn look(
    alloc: Global,
    run: &Run,
    word: &str,
    rest: &str,
    text: &mut String,
) -> Result<(), Fail> {
    if word == "phase" {
        return put_phase(text, run);
    }
    if word == "unit" {
        return put_unit(text, run, number_in(rest)?);
    }
    if word == "shown" {
        return put_shown(text, run);
    }
    look_at_graph(alloc, run, word, rest, text)
}
