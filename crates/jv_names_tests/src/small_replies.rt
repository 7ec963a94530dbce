//! The small folder with the replies to all queries of its names.

use crate::small_folder::{scope, small_graph, small_layout};
use jv_instance::{Java, JavaDatum, JavaPred};
use jv_layout::Layout;
use jv_names::{Oracle, java_kinds};
use jv_tree::NameId;
use sg_base::{Graph, Scope};
use sg_query::{KindTable, Query, ans_plain};
use std::alloc::{AllocError, Global};
use std::test::Fail;

/// Puts the reply to a query, where its kind and its scope are there.
pub fn put_reply(
    alloc: Global,
    graph: &Graph<JavaDatum>,
    table: &KindTable,
    oracle: &mut Oracle,
    query: Query<JavaPred>,
) -> Result<(), AllocError> {
    if query.kind < table.len() && graph.has_scope(query.start) {
        let answer = ans_plain::<Java>(alloc, graph, table, &query)?;
        oracle.put(query, answer)?;
    }
    Ok(())
}

/// Puts the replies to the queries of a kind from a scope.
fn put_replies_from(
    alloc: Global,
    graph: &Graph<JavaDatum>,
    table: &KindTable,
    oracle: &mut Oracle,
    kind: u8,
    start: Scope,
) -> Result<(), AllocError> {
    for number in 0..13 {
        let pred = JavaPred::Named(NameId(number));
        put_reply(alloc, graph, table, oracle, Query { start, kind, pred })?;
    }
    let pred = JavaPred::Any;
    put_reply(alloc, graph, table, oracle, Query { start, kind, pred })
}

/// Puts the replies to the queries of a kind.
fn put_replies_of(
    alloc: Global,
    graph: &Graph<JavaDatum>,
    table: &KindTable,
    oracle: &mut Oracle,
    kind: u8,
) -> Result<(), AllocError> {
    for serial in 0..16 {
        put_replies_from(alloc, graph, table, oracle, kind, scope(serial))?;
    }
    Ok(())
}

/// The replies to all queries of all kinds for each name, from the scopes of packages, files and types.
pub fn all_replies(alloc: Global) -> Result<Oracle, AllocError> {
    let graph = small_graph(alloc)?;
    let table = java_kinds(alloc)?;
    let mut oracle = Oracle::new(alloc);
    for kind in 0..10 {
        put_replies_of(alloc, &graph, &table, &mut oracle, kind)?;
    }
    Ok(oracle)
}

/// The layout of the small folder, and the replies to all queries.
#[derive(Drop)]
pub struct SmallFolder {
    pub layout: Layout,
    pub oracle: Oracle,
}

/// The small folder, as one value for a test to hold.
pub fn small_folder(alloc: Global) -> Result<Box<SmallFolder>, Fail> {
    let layout = small_layout(alloc)?;
    let oracle = all_replies(alloc)?;
    Ok(Box::new(alloc, SmallFolder { layout, oracle })?)
}
