use crate::idle::is_idle_at;
use sg_base::{Instance, Scope};
use sg_state::Held;
use std::alloc::Global;

/// Where a holder was seen last, among the scopes of a held graph. It tells cheaply that somebody holds something, and never
/// that nobody does.
#[derive(Drop)]
pub(crate) struct Watch {
    scopes: Option<Vec<Scope>>,
    at: usize,
}

/// The scopes of a held graph, by a copy of it.
fn scopes_of<I: Instance>(alloc: Global, held: &Held<I>) -> Option<Vec<Scope>> {
    let Ok(graph) = held.graph(alloc) else {
        return None;
    };
    match Vec::from_slice(alloc, graph.scopes()) {
        Ok(scopes) => Some(scopes),
        Err(_) => None,
    }
}

/// Where the first scope from here on is of which somebody holds something; behind the last one where there is none.
fn next_held<I: Instance>(held: &Held<I>, scopes: &[Scope], from: usize) -> usize {
    for at in from..scopes.len() {
        if !is_idle_at(held, scopes[at]) {
            return at;
        }
    }
    scopes.len()
}

impl Watch {
    /// At the first scope. Takes no memory.
    pub(crate) fn new() -> Watch {
        Watch {
            scopes: None,
            at: 0,
        }
    }

    /// Whether somebody holds something, as far as is seen from the scope on where a holder was seen last. Costs look-ups at
    /// each scope that is passed, and the first time a copy of the graph.
    pub(crate) fn sees_holder<I: Instance>(&mut self, alloc: Global, held: &Held<I>) -> bool {
        if self.scopes.is_none() {
            self.scopes = scopes_of(alloc, held);
        }
        match &self.scopes {
            Some(scopes) => {
                self.at = next_held(held, scopes, self.at);
                self.at < scopes.len()
            }
            None => false,
        }
    }
}
