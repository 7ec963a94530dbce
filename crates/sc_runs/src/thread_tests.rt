//! Runs by several workers.

use crate::folders::{Files, files_and_report, folder};
use crate::tables::{CIRCLES, FAULTS, FIELDS, FOUR_FILES, IMPORTS, METHODS, NO_SOURCE, SMALL};
use crate::tests::status_of;
use sc_app::{Outcome, Status, run, run_gated};
use sc_io::{PlainSink, PlainTree};
use sg_unit::Gate;
use std::alloc::Global;
use std::sync::Wait;
use std::sync::atomic::{AtomicU64, Ordering};
use std::test::Fail;
use std::thread::Threads;

/// The words that ask for some numbers of workers.
const WORKERS: [&str; 5] = [
    "--workers=1",
    "--workers=2",
    "--workers=3",
    "--workers=8",
    "--workers=64",
];

/// How many times each folder is checked by each number of workers.
const TIMES: u32 = 40;

/// What these words write of a folder, and how the run ends.
fn written<R: Threads + Wait + Sync>(
    rt: &R,
    alloc: Global,
    words: &[&str],
    files: Files,
) -> Result<(Status, PlainSink), Fail> {
    let mut tree = PlainTree::new(folder(alloc, files)?);
    let mut out = PlainSink::new(alloc);
    let status = run(rt, alloc, words, &mut tree, &mut out);
    Ok((status, out))
}

/// Whether these words write this text of a folder, and the run ends so.
pub(crate) fn is_written<R: Threads + Wait + Sync>(
    rt: &R,
    alloc: Global,
    words: &[&str],
    files: Files,
    text: &str,
    end: Status,
) -> Result<bool, Fail> {
    let (status, out) = written(rt, alloc, words, files)?;
    Ok(out.taken() == text.as_bytes() && status == end)
}

/// Whether each number of workers writes the report of a folder, each time.
fn is_reported_by_all<R: Threads + Wait + Sync>(
    rt: &R,
    alloc: Global,
    row: &str,
) -> Result<bool, Fail> {
    let (files, report) = files_and_report(row)?;
    for workers in WORKERS {
        for _time in 0..TIMES {
            let words = ["check", workers, "x"];
            if !is_written(rt, alloc, &words, files, report, status_of(report))? {
                return Ok(false);
            }
        }
    }
    Ok(true)
}

/// Folders that are checked by several workers. Each list has a test of its own, since a test may take a minute, and many threads take
/// their time on few processors.
const REPORTS: [&str; 3] = [SMALL, NO_SOURCE, FAULTS];

/// The same.
const NAMES: [&str; 1] = [IMPORTS];

/// The same.
const TYPES: [&str; 4] = [CIRCLES, FIELDS, METHODS, FOUR_FILES];

#[test]
fn any_number_of_workers_writes_the_same(rt: HostRuntime) -> Result<(), Fail> {
    let alloc = rt.alloc();
    for table in REPORTS {
        for row in table.split("==\n") {
            assert!(rt; is_reported_by_all(&rt, alloc, row)?, "{row}");
        }
    }
    Ok(())
}

#[test]
fn any_number_of_workers_writes_the_same_of_imports(rt: HostRuntime) -> Result<(), Fail> {
    let alloc = rt.alloc();
    for table in NAMES {
        for row in table.split("==\n") {
            assert!(rt; is_reported_by_all(&rt, alloc, row)?, "{row}");
        }
    }
    Ok(())
}

#[test]
fn any_number_of_workers_writes_the_same_of_types(rt: HostRuntime) -> Result<(), Fail> {
    let alloc = rt.alloc();
    for table in TYPES {
        for row in table.split("==\n") {
            assert!(rt; is_reported_by_all(&rt, alloc, row)?, "{row}");
        }
    }
    Ok(())
}

/// How many times a unit looks whether the other came.
const PATIENCE: u64 = 1_000_000_000;

/// A gate at which the first steps of the first two units wait for each other.
#[derive(Drop)]
struct Meeting {
    first: AtomicU64,
    second: AtomicU64,
    /// How many of the two were met by the other in time.
    met: AtomicU64,
    /// How many steps were told of before they were made.
    before: AtomicU64,
    /// How many steps were answered.
    answered: AtomicU64,
}

/// Whether the other unit came in time.
fn comes(other: &AtomicU64) -> bool {
    for _turn in 0..PATIENCE {
        if other.load(Ordering::SeqCst) > 0 {
            return true;
        }
    }
    false
}

impl Gate for Meeting {
    fn before(&self, unit: u32, step: u64) {
        self.before.fetch_add(1, Ordering::SeqCst);
        if step != 1 || unit > 1 {
            return;
        }
        let (own, other) = if unit == 0 {
            (&self.first, &self.second)
        } else {
            (&self.second, &self.first)
        };
        own.store(1, Ordering::SeqCst);
        if comes(other) {
            self.met.fetch_add(1, Ordering::SeqCst);
        }
    }

    fn answered(&self, _unit: u32, _step: u64) {
        self.answered.fetch_add(1, Ordering::SeqCst);
    }
}

/// How many entries the log of an outcome's core has, where one was handed back.
fn entries_of(outcome: &Option<Outcome>) -> Option<u64> {
    let Some(outcome) = outcome else {
        return None;
    };
    match &outcome.core {
        Some(core) => Some(core.log().len() as u64),
        None => None,
    }
}

/// How many entries the log has of a run by two workers that go through this gate, where it writes the report of a folder.
fn entries_through<R: Threads + Wait + Sync>(
    rt: &R,
    alloc: Global,
    row: &str,
    meeting: &Meeting,
) -> Result<Option<u64>, Fail> {
    let (files, report) = files_and_report(row)?;
    let mut tree = PlainTree::new(folder(alloc, files)?);
    let mut out = PlainSink::new(alloc);
    let words = ["check", "--workers=2", "x"];
    let ran = run_gated(rt, alloc, &words, &mut tree, &mut out, meeting);
    if out.taken() != report.as_bytes() || ran.status != status_of(report) {
        return Ok(None);
    }
    Ok(entries_of(&ran.outcome))
}

#[test]
fn two_workers_check_at_once(rt: HostRuntime) -> Result<(), Fail> {
    let meeting = Meeting {
        first: AtomicU64::new(0),
        second: AtomicU64::new(0),
        met: AtomicU64::new(0),
        before: AtomicU64::new(0),
        answered: AtomicU64::new(0),
    };
    let entries = entries_through(&rt, rt.alloc(), FOUR_FILES, &meeting)?;
    assert_eq!(rt; meeting.met.load(Ordering::SeqCst), 2);
    // Each step is one entry of the log.
    assert_eq!(rt; entries, Some(meeting.before.load(Ordering::SeqCst)));
    assert_eq!(rt; entries, Some(meeting.answered.load(Ordering::SeqCst)));
    Ok(())
}
