//! The trees and the faults of many files, by several threads.

ghost use Rattle.std.specs.Prelude.{◌≡◌, ℕ, ◌+◌, ◌<◌, ◌≤◌, ◌^◌, List, ◌∷◌, [], ◌++◌, length, slice_get, IfOk, OnOk};
ghost use Rattle.std.specs.Thread.{IsSync};
ghost use Rattle.jv_grammar.specs.declared.terminal.Terminal.{Terminal as TerminalOf};
ghost use Rattle.sc_sources.specs.declared.naming.Named.{Named as NamedOf};
ghost use Rattle.sc_sources.specs.Reading.{outcome_of, IsPlain};
ghost use Rattle.sc_sources.specs.Threads.{ComesTo, IsGrown, place_in, place_of};

use crate::naming::{Named, same_fault};
use crate::source_read::{NO_TREE, SourceRead, TOO_DEEP, without_tokens};
use crate::terminals::Terminals;
use jv_diag::DiagList;
use jv_grammar::Terminal;
use jv_parse::{ParseFault, parse_terminals};
use jv_tree::Unit;
use std::alloc::{AllocError, Global};
use std::thread::{Threads, join};

/// The trees of files that have one, and the faults of the others.
#[derive(Drop)]
pub(crate) struct Grown {
    pub(crate) units: Vec<Unit>,
    pub(crate) faults: DiagList,
}

/// What files of these terminals come to, the first of which has this number, by so many threads, which get about as many terminals each. The
/// terminals of a file are let go as soon as it has come to its tree or its fault.
pub(crate) fn grow_all<R: Threads + Sync>(
    rt: &R,
    alloc: Global,
    first: u32,
    named: Vec<Named>,
    workers: u32,
) -> Result<Grown, AllocError>
    requires { first + length named.items < 2 ^ 32 }
    ensures { IfOk result (IsGrown first named.items) }
{
    if workers < 2 || named.len() < 2 {
        return grow_each(alloc, first, named);
    }
    let fewer = workers / 2;
    let others = workers - fewer;
    let mut front = named;
    let size = cut(&front, fewer, workers);
    let back = front.split_off(size)?;
    let next = first + size as u32;
    let (one, other) = join(
        rt,
        move || -> Result<Grown, AllocError>
            requires { IsSync R.row × (first + length front.items < 2 ^ 32) }
            ensures { IfOk result (IsGrown first front.items) }
        { grow_all(rt, alloc, first, front, fewer) },
        move || -> Result<Grown, AllocError>
            requires { IsSync R.row × (next + length back.items < 2 ^ 32) }
            ensures { IfOk result (IsGrown next back.items) }
        { grow_all(rt, alloc, next, back, others) },
    );
    joined(one?, other?)
}

/// The ones and then the others.
pub(crate) fn joined(one: Grown, other: Grown) -> Result<Grown, AllocError>
    ensures units { IfOk result (λ g. g.units.items ≡ one.units.items ++ other.units.items) }
    ensures faults { IfOk result (λ g. g.faults ≡ one.faults ++ other.faults) }
{
    let Grown { units, faults } = one;
    let Grown {
        units: more_units,
        faults: more_faults,
    } = other;
    let mut units = units;
    let mut faults = faults;
    let mut more_units = more_units;
    units.append(&mut more_units)?;
    faults.append(more_faults)?;
    Ok(Grown { units, faults })
}

/// What files of these terminals come to, one after another.
fn grow_each(alloc: Global, first: u32, named: Vec<Named>) -> Result<Grown, AllocError>
    requires { first + length named.items < 2 ^ 32 }
    ensures { IfOk result (IsGrown first named.items) }
{
    let mut grown = Grown {
        units: Vec::new(alloc),
        faults: DiagList::empty(alloc),
    };
    let mut number = first;
    for item in named {
        grown.add(alloc, number, &item)?;
        number += 1;
    }
    Ok(grown)
}

impl Grown {
    /// Adds what the file of a number comes to.
    fn add(&mut self, alloc: Global, number: u32, item: &Named) -> Result<(), AllocError>
        ensures { OnOk result ((first : ℕ) (items : List NamedOf) → IsGrown first items self.old → number ≡ first + length items → IsGrown first (items ++ item.now ∷ []) self.new) }
    {
        match grow_one(alloc, item)? {
            SourceRead::Tree(unit) => self.units.push(unit)?,
            SourceRead::Fault { at, code } => self.faults.add(alloc, number, at, code, &[])?,
        }
        Ok(())
    }
}

/// What a file comes to.
fn grow_one(alloc: Global, item: &Named) -> Result<SourceRead, AllocError>
    ensures comes { IfOk result (λ r. ComesTo item.now (outcome_of r)) }
    ensures plain { IfOk result IsPlain }
{
    match item {
        Named::Listed(terminals) => grow_listed(alloc, terminals),
        Named::NotListed(fault) => without_tokens(same_fault(fault)),
    }
}

/// What a source of these terminals comes to.
fn grow_listed(alloc: Global, terminals: &Terminals) -> Result<SourceRead, AllocError>
    ensures comes { IfOk result (λ r. ComesTo (NamedOf.Listed terminals.now) (outcome_of r)) }
    ensures plain { IfOk result IsPlain }
{
    match parse_terminals(alloc, &terminals.list) {
        Ok(unit) => Ok(SourceRead::Tree(unit)),
        Err(ParseFault::TooDeep { token }) => Ok(SourceRead::Fault {
            at: place_in(&terminals.list, terminals.end, token),
            code: TOO_DEEP,
        }),
        Err(ParseFault::NotInGrammar { token }) => Ok(SourceRead::Fault {
            at: place_in(&terminals.list, terminals.end, token),
            code: NO_TREE,
        }),
        Err(ParseFault::OutOfMemory) => Err(AllocError),
    }
}

/// Where the terminal of a number stands, or where there is none the end.
fn place_in(terminals: &[Terminal], end: u32, number: u32) -> u32
    ensures { result ≡ place_in end (slice_get terminals.now number) }
{
    match terminals.get(number as usize) {
        Some(terminal) => place_of(*terminal),
        None => end,
    }
}

/// The place of a terminal.
fn place_of(terminal: Terminal) -> u32
    ensures { result ≡ place_of terminal }
{
    match terminal {
        Terminal::Ident(name) => name.at,
        Terminal::Keyword(at, _) => at,
        Terminal::Literal(at, _) => at,
        Terminal::Minimum(at) => at,
        Terminal::MinimumLong(at) => at,
        Terminal::Punct(at, _) => at,
    }
}

/// How many files have about such a part of all terminals, as `lexing::cut` has it of bytes.
fn cut(items: &[Named], part: u32, whole: u32) -> usize
    requires { 0 < whole }
    ensures { result ≤ length items.now }
{
    let mut total = 0u64;
    for item in items {
        total = total.saturating_add(size_of_item(item));
    }
    let share = total.saturating_mul(u64::from(part)) / u64::from(whole);
    let mut sum = 0u64;
    for i in 0..items.len() {
        let size = size_of_item(&items[i]);
        if sum.saturating_add(size / 2) >= share {
            return i;
        }
        sum = sum.saturating_add(size);
    }
    items.len()
}

/// How many terminals a file has.
fn size_of_item(item: &Named) -> u64 {
    match item {
        Named::Listed(terminals) => terminals.list.len() as u64,
        Named::NotListed(_) => 0,
    }
}
