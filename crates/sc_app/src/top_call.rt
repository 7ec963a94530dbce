ghost use Rattle.std.specs.Prelude.{◌≡◌, ◌≤◌, ◌⊎◌, ℕ, codes, false, true, IfSome, None, Option, map};
ghost use Rattle.sc_app.specs.Causes.{EndsUnlessFailed, TellsLimits};
ghost use Rattle.sc_app.specs.declared.command.Command.{Command as CommandOf};
ghost use Rattle.sc_app.specs.Command.{Asks, IsCommand};
ghost use Rattle.sc_app.specs.Lines.{line};
ghost use Rattle.sc_app.specs.Ran.{HandsBackAsked, HandsBackReport, IsNoReport};
ghost use Rattle.sc_app.specs.Told.{IsPut, IsRefusal, Writes};
ghost use Rattle.sc_io.specs.Faults.{HasRisen};
ghost use Rattle.sc_io.specs.Sink.{AddsAll};

use crate::asked::asked_of;
use crate::check::check;
use crate::outcome::Outcome;
use crate::ran::Ran;
use crate::report::Report;
use crate::status::Status;
use sc_io::{Sink, SinkFault, SourceTree, TreeFault};
use sg_unit::{Gate, NoGate};
use std::alloc::Global;
use std::sync::Wait;
use std::thread::Threads;

/// Runs the command that the words name over a tree, as `run_gated` does, with nobody told of the checkers' steps, and gives its status.
pub fn run<R: Threads + Wait + Sync, T: SourceTree, S: Sink>(
    rt: &R,
    alloc: Global,
    words: &[&str],
    tree: &mut T,
    out: &mut S,
) -> Status
    // What is told is written: all of it, or after a fault a front of it.
    ensures told { IfSome (T.files tree.old) (λ fs. Writes (map (λ w. w.now) words.now) fs result (S.written out.old) (S.written out.new)) }

    // Usage comes exactly where the words are no command, unless a put failed, and whatever the tree tells.
    ensures usage { result ≡ Status.Usage → (IsCommand (map (λ w. w.now) words.now) → ⊥)
        × AddsAll (S.written out.old) (line (codes "usage")) (S.written out.new) }
    ensures no_command { (IsCommand (map (λ w. w.now) words.now) → ⊥) → IsRefusal result }

    // A fault comes only where the count of its object rose in this call; nothing is written where the tree failed. For `gen` no call of
    // the tree is made that may fail, and no read fault comes, also where the tree's count stands at its last value.
    ensures read_fault { result ≡ Status.ReadFault → HasRisen (T.faults tree.old) (T.faults tree.new)
        × (S.written out.new ≡ S.written out.old) }
    ensures unread { (n : ℕ) (workers : Option ℕ) → Asks (map (λ w. w.now) words.now) (CommandOf.Gen n) workers → T.faults tree.new ≡ T.faults tree.old }
    ensures no_read_fault { (n : ℕ) (workers : Option ℕ) → Asks (map (λ w. w.now) words.now) (CommandOf.Gen n) workers → result ≡ Status.ReadFault → ⊥ }
    ensures write_fault { result ≡ Status.WriteFault → HasRisen (S.faults out.old) (S.faults out.new) }

    // A limit is told only where the sources of the command pass it, and its whole line is written.
    ensures limit { TellsLimits (map (λ w. w.now) words.now) (T.files tree.old) result (S.written out.old) (S.written out.new) }

    // Where the words are a command and no call failed, only want of memory keeps the report from its end.
    ensures complete { EndsUnlessFailed (map (λ w. w.now) words.now) (T.files tree.old) result (T.faults tree.old) (T.faults tree.new) (S.faults out.old)
        (S.faults out.new) }

    ensures files { T.files tree.new ≡ T.files tree.old }
{
    run_gated(rt, alloc, words, tree, out, &NoGate).status
}

/// Runs the command that the words name over a tree, and writes what it tells to the sink.
///
/// The words are those behind the program's name. The command is `check DIR`, `graph DIR`, `answers DIR` or `gen N`, each with
/// `--workers=N` between them or without, N from 1 to 64; DIR itself is not looked at, since the tree is that folder's. `check` writes the
/// report on its sources; in its place `graph` writes the graph that their checkers made, and `answers` the questions that these asked
/// with their answers, where all of them have ended. `gen N` writes the report on a project of N classes, from 1 to 1,000, which is made
/// in memory; the tree is not read. The status is always that of the report.
///
/// The sources of a tree are the files whose paths end in `.java`: at most 4,096 files of at most 1 MiB (1,048,576 bytes) each and
/// 4 MiB together, which declare at most 32,768 types. Where they pass a limit its line is written in place of their report: the
/// number of files is looked at first, then each file in the order of the paths, and the number of types last, and only where no
/// file has a fault. The bytes are put in one piece.
///
/// So many threads check the folder as the words ask for, or one for each checker where those are fewer; where the words do not say, as
/// many as there are files, at least 1 and at most 16, and no more than there are processors. Neither the status nor what `check`,
/// `graph` and `gen` write depends on them. The gate is told of each step of a checker. Up to logarithms it takes time linear in the
/// paths and the sources, beside what the queries of their checkers take and what is listed, and may wait for its threads.
pub fn run_gated<R: Threads + Wait + Sync, T: SourceTree, S: Sink, G: Gate>(
    rt: &R,
    alloc: Global,
    words: &[&str],
    tree: &mut T,
    out: &mut S,
    gate: &G,
) -> Ran
    // What is told is written: all of it, or after a fault a front of it.
    ensures told { IfSome (T.files tree.old) (λ fs. Writes (map (λ w. w.now) words.now) fs result.status (S.written out.old) (S.written out.new)) }

    // Usage comes exactly where the words are no command, unless a put failed, and whatever the tree tells.
    ensures usage { result.status ≡ Status.Usage → (IsCommand (map (λ w. w.now) words.now) → ⊥)
        × AddsAll (S.written out.old) (line (codes "usage")) (S.written out.new) }
    ensures no_command { (IsCommand (map (λ w. w.now) words.now) → ⊥) → IsRefusal result.status }

    // A fault comes only where the count of its object rose in this call; nothing is written where the tree failed. For `gen` no call of
    // the tree is made that may fail, and no read fault comes, also where the tree's count stands at its last value.
    ensures read_fault { result.status ≡ Status.ReadFault → HasRisen (T.faults tree.old) (T.faults tree.new)
        × (S.written out.new ≡ S.written out.old) }
    ensures unread { (n : ℕ) (workers : Option ℕ) → Asks (map (λ w. w.now) words.now) (CommandOf.Gen n) workers → T.faults tree.new ≡ T.faults tree.old }
    ensures no_read_fault { (n : ℕ) (workers : Option ℕ) → Asks (map (λ w. w.now) words.now) (CommandOf.Gen n) workers → result.status ≡ Status.ReadFault → ⊥ }
    ensures write_fault { result.status ≡ Status.WriteFault → HasRisen (S.faults out.old) (S.faults out.new) }

    // A limit is told only where the sources of the command pass it, and its whole line is written.
    ensures limit { TellsLimits (map (λ w. w.now) words.now) (T.files tree.old) result.status (S.written out.old) (S.written out.new) }

    // Where the words are a command and no call failed, only want of memory keeps the report from its end.
    ensures complete { EndsUnlessFailed (map (λ w. w.now) words.now) (T.files tree.old) result.status (T.faults tree.old) (T.faults tree.new) (S.faults out.old)
        (S.faults out.new) }

    // Where all was written that the command shows of an outcome, that is handed back; and none is where the words are no command.
    ensures outcome { HandsBackAsked (map (λ w. w.now) words.now) (T.files tree.old) result (S.written out.old) (S.written out.new) }
    ensures no_outcome { (IsCommand (map (λ w. w.now) words.now) → ⊥) → result.outcome ≡ None }

    ensures files { T.files tree.new ≡ T.files tree.old }
{
    let Some(asked) = asked_of(words) else {
        return ended(put_all(out, b"usage\n", Status::Usage));
    };
    match check(rt, alloc, tree, asked, gate) {
        Ok(report) => put_report(out, report),
        Err(TreeFault::Failed) => ended(Status::ReadFault),
        Err(TreeFault::OutOfMemory) => ended(Status::OutOfMemory),
    }
}

/// A run that came to no report.
fn ended(status: Status) -> Ran
    ensures { result ≡ record { status = status; outcome = None } }
{
    Ran {
        status,
        outcome: None,
    }
}

/// Writes a report, and hands its outcome back where all of it was written.
fn put_report<S: Sink>(out: &mut S, report: Report) -> Ran
    ensures put { IsPut report.status report.bytes.items (S.written out.old) (S.written out.new) result.status }
    ensures failed { result.status ≡ Status.WriteFault → (report.status ≡ Status.WriteFault) ⊎ HasRisen (S.faults out.old) (S.faults out.new) }
    ensures outcome { HandsBackReport report result (S.written out.old) (S.written out.new) }
{
    let Report {
        bytes,
        status,
        outcome,
    } = report;
    let put = put_all(out, bytes.as_slice(), status);
    Ran {
        status: put,
        outcome: outcome_of_written(put, outcome),
    }
}

/// Whether a status is that of a report.
fn is_report(status: Status) -> bool
    ensures report { result ≡ true → IsNoReport status → ⊥ }
    ensures none { result ≡ false → IsNoReport status }
{
    match status {
        Status::Clean => true,
        Status::Found => true,
        Status::Usage => false,
        Status::ReadFault => false,
        Status::WriteFault => false,
        Status::Limit(_) => false,
        Status::OutOfMemory => false,
    }
}

/// The outcome of a report, where all of it was written.
fn outcome_of_written(status: Status, outcome: Option<Outcome>) -> Option<Outcome>
    ensures fault { IsNoReport status → result ≡ None }
    ensures whole { (IsNoReport status → ⊥) → result ≡ outcome }
{
    if is_report(status) { outcome } else { None }
}

/// Writes bytes, and gives their status, or that of the fault.
fn put_all<S: Sink>(out: &mut S, bytes: &[u8], status: Status) -> Status
    ensures put { IsPut status bytes.now (S.written out.old) (S.written out.new) result }
    ensures failed { result ≡ Status.WriteFault → (status ≡ Status.WriteFault) ⊎ HasRisen (S.faults out.old) (S.faults out.new) }
{
    match out.put(bytes) {
        Ok(()) => status,
        Err(SinkFault::Failed) => Status::WriteFault,
        Err(SinkFault::OutOfMemory) => Status::OutOfMemory,
    }
}
