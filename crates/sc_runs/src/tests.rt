//! Whole runs over folders in memory, with memory enough, and with trees and sinks that fail: what is written, and how they end.

ghost use Rattle.std.specs.Prelude.{◌≡◌, ◌≤◌, Err};
ghost use Rattle.sc_io.specs.Faults.{HasRisen};

use crate::folders::{Files, files_and_report, folder};
use crate::tables::FOUR_FILES;
use crate::thread_tests::is_written;
use sc_app::{Status, Which, run};
use sc_io::{CutSink, MemSink, MemTree, PlainSink, PlainTree, Sink, SinkFault};
use std::alloc::Global;
use std::sync::Wait;
use std::test::Fail;
use std::thread::Threads;

/// The bytes of the longest file that is taken.
const MEBIBYTE: usize = 1_048_576;

/// Two files without a fault.
pub(crate) const TWO_FILES: Files<'static> = "\
-- A.java
class A extends B {}
-- B.java
class B {}
";

/// Their graph.
const GRAPH_OF_TWO: &str = "\
file A.java
odi java.lang
file B.java
odi java.lang
type A
ext B
constructor()
type B
ext java.lang.Object
constructor()
end
";

/// The status of a report.
pub(crate) fn status_of(report: &str) -> Status {
    if report.starts_with("ok ") {
        Status::Clean
    } else {
        Status::Found
    }
}

#[test]
fn memory_is_enough(rt: HostRuntime) -> Result<(), Fail> {
    let words = ["check", "x"];
    let files = "-- A.java\nclass A {}\n";
    let report = "ok files 1 types 1\n";
    let holds = is_written(&rt, rt.alloc(), &words, files, report, Status::Clean)?;
    assert!(rt; holds);
    Ok(())
}

/// Whether a command over files of whose tree this call fails writes this text, and ends so.
fn ends_failing_at<R: Threads + Wait + Sync>(
    rt: &R,
    alloc: Global,
    files: Files,
    words: &[&str],
    call: u64,
    text: &str,
    end: Status,
) -> Result<bool, Fail> {
    let mut tree = MemTree::new(folder(alloc, files)?, vec![in alloc; call]?);
    let mut out = PlainSink::new(alloc);
    let status = run(rt, alloc, words, &mut tree, &mut out);
    Ok(out.taken() == text.as_bytes() && status == end)
}

#[test]
fn each_call_of_the_tree_may_fail(rt: HostRuntime) -> Result<(), Fail> {
    let alloc = rt.alloc();
    let (files, _) = files_and_report(FOUR_FILES)?;
    // The paths are listed, and each file is read.
    for call in 0..5u64 {
        let words = ["check", "x"];
        assert!(rt;
            ends_failing_at(&rt, alloc, files, &words, call, "", Status::ReadFault)?,
            "{call}"
        );
    }
    let words = ["check", "x"];
    assert!(rt; ends_failing_at(&rt, alloc, TWO_FILES, &words, 2, "", Status::ReadFault)?);
    // No other call is made, and none at all for a project.
    let rows: [(&[&str], u64, &str); 3] = [
        (&["check", "x"], 5, "ok files 4 types 5\n"),
        (&["gen", "1"], 0, "ok files 1 types 1\n"),
        (&["gen", "--workers=2", "12"], 0, "ok files 12 types 12\n"),
    ];
    for (words, call, report) in rows {
        assert!(rt;
            ends_failing_at(&rt, alloc, files, words, call, report, Status::Clean)?,
            "{report}"
        );
    }
    Ok(())
}

/// Whether a run whose sink fails at a put, and takes so many bytes of it, writes this text, and ends so.
fn is_cut<R: Threads + Wait + Sync>(
    rt: &R,
    alloc: Global,
    cut: (u64, u64),
    text: &str,
    end: Status,
) -> Result<bool, Fail> {
    let mut tree = PlainTree::new(folder(alloc, "-- A.java\nclass A extends B {}\n")?);
    let mut out = CutSink::new(alloc, vec![in alloc; cut]?);
    let status = run(rt, alloc, &["check", "x"], &mut tree, &mut out);
    Ok(out.taken() == text.as_bytes() && status == end)
}

#[test]
fn no_put_follows_one_that_failed(rt: HostRuntime) -> Result<(), Fail> {
    let alloc = rt.alloc();
    let report = "A.java:1:17: E20 cannot find type B\nerrors 1\n";
    assert!(rt; is_cut(&rt, alloc, (0, 0), "", Status::WriteFault)?);
    assert!(rt; is_cut(&rt, alloc, (0, 7), "A.java:", Status::WriteFault)?);
    // The first put is the only one, so a cut of the second changes nothing.
    assert!(rt; is_cut(&rt, alloc, (1, 0), report, Status::Found)?);
    Ok(())
}

/// A sink that takes nothing, and counts the puts, all of which fail.
#[derive(Drop)]
struct Closed {
    puts: u64,
}

impl Sink for Closed {
    ghost use Rattle.std.specs.Prelude.{None};

    ghost written = { λ _. None };

    ghost faults = { λ s. s.puts };

    fn put(&mut self, piece: &[u8]) -> Result<(), SinkFault>
        ensures count { self.old.puts ≤ self.new.puts }
        ensures fails { result ≡ Err SinkFault.Failed }
        ensures failed { result ≡ Err SinkFault.Failed → HasRisen self.old.puts self.new.puts }
    {
        let _refused = piece;
        self.puts = self.puts.saturating_add(1);
        Err(SinkFault::Failed)
    }
}

/// How many puts a run makes whose sink takes nothing, where it ends with that fault.
fn puts_onto_closed<R: Threads + Wait + Sync>(
    rt: &R,
    alloc: Global,
    words: &[&str],
) -> Result<Option<u64>, Fail> {
    let mut tree = PlainTree::new(folder(alloc, TWO_FILES)?);
    let mut out = Closed { puts: 0 };
    let status = run(rt, alloc, words, &mut tree, &mut out);
    if status == Status::WriteFault {
        Ok(Some(out.puts))
    } else {
        Ok(None)
    }
}

#[test]
fn no_empty_piece_follows_a_put_that_failed(rt: HostRuntime) -> Result<(), Fail> {
    let alloc = rt.alloc();
    let rows: [&[&str]; 5] = [
        &["print", "x"],
        &["check", "x"],
        &["graph", "x"],
        &["answers", "x"],
        &["gen", "2"],
    ];
    for words in rows {
        assert_eq!(rt; puts_onto_closed(&rt, alloc, words)?, Some(1));
    }
    Ok(())
}

/// Runs over files with a sink of each room up to that of the whole text, and sees that a front of the text is written.
fn fills_rooms<R: Threads + Wait + Sync>(
    rt: &R,
    alloc: Global,
    files: Files,
    words: &[&str],
    whole: &str,
    end: Status,
) -> Result<(), Fail> {
    let all = whole.len() as u64;
    for room in 0..all + 1 {
        let mut tree = PlainTree::new(folder(alloc, files)?);
        let mut out = MemSink::new(alloc, Some(room));
        let status = run(rt, alloc, words, &mut tree, &mut out);
        let wanted = if room < all { Status::WriteFault } else { end };
        if status != wanted
            || out.taken().len() as u64 != room
            || !whole.as_bytes().starts_with(out.taken())
        {
            return Err(Fail::new("another front of the text was written"));
        }
    }
    Ok(())
}

/// The text of a folder with a file that is one byte too long.
fn long_file(alloc: Global) -> Result<String, Fail> {
    let mut text = String::from_str(alloc, "-- A.java\n")?;
    for _ in 0..MEBIBYTE + 1 {
        text.push(' ')?;
    }
    Ok(text)
}

#[test]
fn the_sink_may_have_any_room(rt: HostRuntime) -> Result<(), Fail> {
    let alloc = rt.alloc();
    let rows: [(&[&str], &str, Status); 3] = [
        (&["print", "x"], "usage\n", Status::Usage),
        (&["graph", "x"], GRAPH_OF_TWO, Status::Clean),
        (&["check", "x"], "ok files 2 types 2\n", Status::Clean),
    ];
    for (words, whole, end) in rows {
        fills_rooms(&rt, alloc, TWO_FILES, words, whole, end)?;
    }
    let long = long_file(alloc)?;
    let end = Status::Limit(Which::FileBytes);
    fills_rooms(
        &rt,
        alloc,
        long.as_str(),
        &["check", "x"],
        "limit file bytes\n",
        end,
    )
}
