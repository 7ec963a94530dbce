//! The program: it fetches the words, makes the real tree and the real sink, makes the top call and ends with its
//! status. It prints nothing itself: what is printed, and when, stands in the contract of `sc_app::run_gated`.
#![tactic(auto)]

use sc_app::{Status, run_gated};
use sc_io::{DirTree, StdSink};
use sg_unit::NoGate;
use std::alloc::AllocError;
use std::io::{self, ErrorKind};
use std::process::ExitCode;
use std::rt::{Env, Files};
use std::sync::Wait;
use std::thread::Threads;
use std::{env, mem};

fn main(rt: HostRuntime) -> ExitCode {
    let status = match words(&rt) {
        Ok(words) => run_words(rt, words.as_slice()),
        // Words that are not text are no command.
        Err(error) if error.kind() == ErrorKind::InvalidData => run_words(rt, &[]),
        Err(_) => Err(AllocError),
    };
    ExitCode::from(status.unwrap_or(Status::OutOfMemory).code())
}

/// The words behind the program's name.
fn words<R: Env + AllocGlobal>(rt: &R) -> io::Result<Vec<String>> {
    let mut words = Vec::new(rt.alloc());
    for word in env::args(rt)?.skip(1) {
        words.push(word)?;
    }
    Ok(words)
}

/// The top call over the folder that the last word names.
fn run_words<R: Files + Print + AllocGlobal + Threads + Wait + Sync + Clone + Copy>(
    rt: R,
    words: &[String],
) -> Result<Status, AllocError> {
    let alloc = rt.alloc();
    let mut texts = Vec::with_capacity(alloc, words.len())?;
    for word in words {
        texts.push(word.as_str())?;
    }
    let folder = match words.last() {
        Some(word) => word.clone()?,
        None => String::new(alloc),
    };
    let mut tree = DirTree::new(rt, folder);
    let mut out = StdSink::new(rt);
    let ran = run_gated(&rt, alloc, texts.as_slice(), &mut tree, &mut out, &NoGate);
    let status = ran.status;
    // The system takes back all at once what the run made.
    mem::forget(ran);
    Ok(status)
}
