//! Sources that are checked without words, a tree or a sink.

ghost use Rattle.std.specs.Prelude.{◌≤◌};

use crate::folders::{Files, files_and_report};
use crate::order_tests::sources;
use crate::tables::{CIRCLES, FAULTS, FOUR_FILES, SMALL};
use sc_app::check_project;
use sc_report::report_text;
use std::alloc::Global;
use std::sync::Wait;
use std::test::Fail;
use std::thread::Threads;

/// The report on a folder whose checkers so many workers run.
fn report_by<R: Threads + Wait + Sync>(
    rt: &R,
    alloc: Global,
    files: Files,
    workers: u32,
) -> Result<Vec<u8>, Fail>
    requires { 1 ≤ workers }
{
    let sources = sources(alloc, files)?;
    match check_project(rt, alloc, sources, workers) {
        Ok(outcome) => {
            let files = outcome.sources.as_slice();
            Ok(report_text(alloc, files, outcome.diags.as_slice(), outcome.types)?)
        }
        Err(_) => Err(Fail::new("a folder was not checked")),
    }
}

/// Whether one worker and three write the report of a folder.
fn is_reported<R: Threads + Wait + Sync>(rt: &R, alloc: Global, row: &str) -> Result<bool, Fail> {
    let (files, report) = files_and_report(row)?;
    let by_one = report_by(rt, alloc, files, 1)?;
    let by_three = report_by(rt, alloc, files, 3)?;
    Ok(by_one.as_slice() == report.as_bytes() && by_three.as_slice() == report.as_bytes())
}

#[test]
fn projects_are_reported(rt: HostRuntime) -> Result<(), Fail> {
    let alloc = rt.alloc();
    for table in [SMALL, CIRCLES, FAULTS, FOUR_FILES] {
        for row in table.split("==\n") {
            assert!(rt; is_reported(&rt, alloc, row)?, "{row}");
        }
    }
    Ok(())
}
