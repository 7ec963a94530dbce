//! Runs the cases of a text on standard input, each by the top call over a tree and a sink in memory, and prints what differs.
//! `tests/README.md` says how a case stands in a text.
//!
//! Behind what differs stands the line `N passed, N failed`. The status is 0 where all passed, 1 where some did not, and 2 where
//! standard input is no text, standard output does not take all of it, or memory runs out.
#![tactic(auto)]

mod case;
mod files;
mod showing;

use case::Case;
use sc_app::run_gated;
use sc_io::{PlainSink, PlainTree};
use sg_unit::NoGate;
use std::alloc::{AllocError, Global};
use std::io::{self, Read};
use std::process::ExitCode;
use std::sync::Wait;
use std::thread::Threads;

fn main(rt: HostRuntime) -> ExitCode {
    ExitCode::from(match run_cases(&rt) {
        Ok(0) => 0,
        Ok(_) => 1,
        Err(_) => 2,
    })
}

/// Runs all cases of standard input, and gives the number of those that failed.
fn run_cases<R: Input + Print + AllocGlobal + Threads + Wait + Sync>(rt: &R) -> io::Result<usize> {
    let alloc = rt.alloc();
    // A case begins behind the end of a line, and the first one too.
    let mut text = String::from_str(alloc, "\n")?;
    rt.reader().read_to_string(&mut text)?;
    let mut passed = 0usize;
    let mut failed = 0usize;
    for text in text.as_str().split("\n== ").skip(1) {
        if passes(rt, alloc, text)? {
            passed = passed.saturating_add(1);
        } else {
            failed = failed.saturating_add(1);
        }
    }
    println!(rt; "{passed} passed, {failed} failed")?;
    Ok(failed)
}

/// Whether a case passes. Where it does not, what differs is printed.
fn passes<R: Print + Threads + Wait + Sync>(rt: &R, alloc: Global, text: &str) -> io::Result<bool> {
    let Some(case) = Case::of_text(text) else {
        println!(rt; "FAILED {}: it is no case", case::first_line(text))?;
        return Ok(false);
    };
    let (status, out) = ran(rt, alloc, &case)?;
    let Some(shown) = showing::shown(out.taken(), case.is_whole) else {
        println!(rt; "FAILED {}: what is written are no lines", case.name)?;
        return Ok(false);
    };
    if showing::is_wanted(shown, case.wanted, status, case.status) {
        return Ok(true);
    }
    println!(rt;
        "FAILED {}: status {status}, wanted {}",
        case.name, case.status
    )?;
    for line in case.wanted.lines() {
        println!(rt; "- {line}")?;
    }
    for line in shown.lines() {
        println!(rt; "+ {line}")?;
    }
    Ok(false)
}

/// Runs the top call on a case, and gives its status and all that it wrote.
fn ran<R: Threads + Wait + Sync>(
    rt: &R,
    alloc: Global,
    case: &Case,
) -> Result<(u8, PlainSink), AllocError> {
    let mut words = Vec::new(alloc);
    for word in case.words.split_whitespace() {
        // An empty word is written as two marks.
        words.push(if word == "\"\"" { "" } else { word })?;
    }
    let mut tree = PlainTree::new(files::files_of_text(alloc, case.files)?);
    let mut out = PlainSink::new(alloc);
    let ran = run_gated(rt, alloc, words.as_slice(), &mut tree, &mut out, &NoGate);
    Ok((ran.status.code(), out))
}
