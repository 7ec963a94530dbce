//! Runs of a folder's checkers on one thread, in several orders of their steps.

ghost use Rattle.std.specs.Prelude.{IfOk, OnOk};
ghost use Rattle.sc_io.specs.SourceFile.{sources_of};
ghost use Rattle.sc_runs.specs.Small.{AreSmall};

use crate::folders::{Files, files_and_report, path_and_source};
use crate::tables::TABLES;
use sc_app::check_in_order;
use sc_io::SourceFile;
use sc_report::report_text;
use std::alloc::Global;
use std::test::Fail;

/// The orders in which each folder is checked: the least checker that can go on first, the greatest first, and one from each end in turn.
const ORDERS: [&[u32]; 3] = [
    &[],
    &[
        12, 12, 12, 12, 11, 11, 11, 11, 10, 10, 10, 10, 9, 9, 9, 9, 8, 8, 8, 8, 7, 7, 7, 7, 6, 6,
        6, 6, 5, 5, 5, 5, 4, 4, 4, 4, 3, 3, 3, 3, 2, 2, 2, 2,
    ],
    &[
        2, 9, 3, 8, 4, 7, 5, 6, 2, 9, 3, 8, 4, 7, 5, 6, 2, 9, 3, 8, 4, 7, 5, 6, 2, 9, 3, 8, 4, 7,
        5, 6, 2, 9, 3, 8, 4, 7, 5, 6,
    ],
];

/// The most sources of a folder here, and the most bytes of each.
const MOST: usize = 1000;

/// Adds a source behind others.
fn add_source(
    alloc: Global,
    sources: &mut Vec<SourceFile>,
    path: &str,
    source: &str,
) -> Result<(), Fail>
    requires { AreSmall (sources_of sources.old.items) }
    ensures { OnOk result (AreSmall (sources_of sources.new.items)) }
{
    if sources.len() >= MOST {
        return Err(Fail::new("too many sources"));
    }
    if source.len() > MOST {
        return Err(Fail::new("a source is too long"));
    }
    let path = String::from_str(alloc, path)?;
    let bytes = Vec::from_slice(alloc, source.as_bytes())?;
    sources.push(SourceFile { path, bytes })?;
    Ok(())
}

/// The sources of a folder.
pub(crate) fn sources(alloc: Global, files: Files) -> Result<Vec<SourceFile>, Fail>
    ensures { IfOk result (λ v. AreSmall (sources_of v.items)) }
{
    let mut all = Vec::new(alloc);
    for file in files.split("-- ") {
        if let Some((path, source)) = path_and_source(file) {
            add_source(alloc, &mut all, path, source)?;
        }
    }
    Ok(all)
}

/// The report on a folder whose checkers step in an order.
fn report_in_order(alloc: Global, files: Files, order: &[u32]) -> Result<Vec<u8>, Fail> {
    let sources = sources(alloc, files)?;
    match check_in_order(alloc, sources, order) {
        Ok(outcome) => {
            let files = outcome.sources.as_slice();
            Ok(report_text(alloc, files, outcome.diags.as_slice(), outcome.types)?)
        }
        Err(_) => Err(Fail::new("a folder was not checked")),
    }
}

/// Whether a folder has the same report in each order.
fn is_same_in_each_order(alloc: Global, row: &str) -> Result<bool, Fail> {
    let (files, report) = files_and_report(row)?;
    for order in ORDERS {
        if report_in_order(alloc, files, order)?.as_slice() != report.as_bytes() {
            return Ok(false);
        }
    }
    Ok(true)
}

#[test]
fn any_order_of_steps_reports_the_same(rt: HostRuntime) -> Result<(), Fail> {
    let alloc = rt.alloc();
    for table in TABLES {
        for row in table.split("==\n") {
            assert!(rt; is_same_in_each_order(alloc, row)?, "{row}");
        }
    }
    Ok(())
}
