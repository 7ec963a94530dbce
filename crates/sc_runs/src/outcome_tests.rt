//! What runs hand back beside what they write.

use crate::folders::folder;
use crate::tests::TWO_FILES;
use sc_app::run_gated;
use sc_io::{PlainSink, PlainTree};
use sg_unit::NoGate;
use std::alloc::Global;
use std::sync::Wait;
use std::test::Fail;
use std::thread::Threads;

/// Whether a run over two files hands its outcome back.
fn hands_back<R: Threads + Wait + Sync>(
    rt: &R,
    alloc: Global,
    words: &[&str],
) -> Result<bool, Fail> {
    let mut tree = PlainTree::new(folder(alloc, TWO_FILES)?);
    let mut out = PlainSink::new(alloc);
    let ran = run_gated(rt, alloc, words, &mut tree, &mut out, &NoGate);
    Ok(ran.outcome.is_some())
}

#[test]
fn outcomes_are_handed_back_beside_listings(rt: HostRuntime) -> Result<(), Fail> {
    let alloc = rt.alloc();
    assert!(rt; hands_back(&rt, alloc, &["graph", "x"])?);
    assert!(rt; hands_back(&rt, alloc, &["answers", "x"])?);
    assert!(rt; hands_back(&rt, alloc, &["gen", "2"])?);
    assert!(rt; !hands_back(&rt, alloc, &["gen", "0"])?);
    Ok(())
}
