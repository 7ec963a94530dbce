//! Links in a ring, a chain and a star, run by several workers and on one thread.

ghost use Rattle.std.specs.Prelude.{◌≡◌, ◌<◌, ◌≤◌, [], length, IfOk, IfSome};
ghost use Rattle.sg_small.specs.Link.{AreNewLinks, BeginsWithLinks};

use crate::tests::link::Link;
use crate::tests::one_step;
use sg_base::Label;
use sg_broker::run_threads;
use sg_core::{Core, Phase};
use sg_numbers::{Numbers, scope};
use sg_query::KindTable;
use sg_serial::run_serial;
use sg_state::Opening;
use sg_unit::NoGate;
use std::alloc::{AllocError, Global};
use std::sync::Wait;
use std::test::Fail;
use std::thread::Threads;

/// Along whose rows links ask that stand at places from 0: each along that of the next one, and the last along that of the
/// first, or of a place that nobody holds; or all along that of the first, which asks along the row that nobody holds.
#[derive(Clone, Copy)]
enum Shape {
    Ring,
    Chain,
    Star,
}

/// The place along whose row the link at a place asks, where so many links stand at the places from 0.
fn looks_at(shape: Shape, number: u32, count: u32) -> u32
    requires { number < count }
{
    match shape {
        Shape::Ring => { if number + 1 < count { number + 1 } else { 0 } }
        Shape::Chain => number + 1,
        Shape::Star => { if number == 0 { count } else { 0 } }
    }
}

/// The scopes of so many places and of one more, where each unit holds the row with label 0 of its place.
fn opening(alloc: Global, count: u32) -> Result<Opening<u64>, AllocError> {
    let mut scopes = Vec::new(alloc);
    let mut row_holds = Vec::new(alloc);
    for number in 0..count {
        scopes.push(scope(number))?;
        row_holds.push((number, scope(number), Label::new(0)))?;
    }
    scopes.push(scope(count))?;
    Ok(Opening {
        scopes,
        edges: Vec::new(alloc),
        given: Vec::new(alloc),
        row_holds,
        datum_holds: Vec::new(alloc),
        units: count,
    })
}

/// The links of a core, one for each unit.
fn links(
    alloc: Global,
    core: &Core<Numbers, u64>,
    shape: Shape,
) -> Result<Option<Vec<Link>>, AllocError>
    requires opening { core.now.log ≡ [] }
    requires kinds { 0 < length core.now.kinds }
    ensures { IfOk result (λ o. IfSome o (λ v. AreNewLinks (λ l. l.number) (λ l. l.looks) (λ l. l.given) (λ l. l.core.value) core.now (length core.now.opening.made) v.items)) }
{
    let graph = core.graph()?;
    let count = core.units();
    let mut units = Vec::new(alloc);
    for number in 0..count {
        let looks = scope(looks_at(shape, number, count));
        let Some(link) = Link::new(core, &graph, number, looks) else {
            return Ok(None);
        };
        units.push(link)?;
    }
    Ok(Some(units))
}

/// A core at its opening, with a link for each of so many units.
fn begin(
    alloc: Global,
    table: KindTable,
    shape: Shape,
    count: u32,
) -> Result<Option<(Core<Numbers, u64>, Vec<Link>)>, AllocError>
    requires { length table ≡ 1 }
    ensures { IfOk result (λ o. IfSome o (λ p. BeginsWithLinks (λ l. l.number) (λ l. l.looks) (λ l. l.given) (λ l. l.core.value) p.0 p.1.items)) }
{
    let o = opening(alloc, count)?;
    if !o.is_sound() {
        return Ok(None);
    }
    let core = Core::<Numbers, u64>::open(alloc, o, table)?;
    let Some(units) = links(alloc, &core, shape)? else {
        return Ok(None);
    };
    Ok(Some((core, units)))
}

/// The core of a run of so many links, one at a time.
fn alone(
    alloc: Global,
    shape: Shape,
    count: u32,
) -> Result<Option<Core<Numbers, u64>>, AllocError> {
    let Some(table) = one_step(alloc)? else {
        return Ok(None);
    };
    let Some((core, units)) = begin(alloc, table, shape, count)? else {
        return Ok(None);
    };
    let run = run_serial::<Link>(alloc, core, units, &[])?;
    Ok(Some(run))
}

/// The core of a run of so many links by workers.
fn together<Rt: Threads + Wait + Sync>(
    rt: &Rt,
    alloc: Global,
    shape: Shape,
    count: u32,
    workers: u32,
) -> Result<Option<Core<Numbers, u64>>, AllocError>
    requires { 1 ≤ workers }
{
    let Some(table) = one_step(alloc)? else {
        return Ok(None);
    };
    let Some((core, units)) = begin(alloc, table, shape, count)? else {
        return Ok(None);
    };
    let run = run_threads::<Link, NoGate, Rt>(rt, alloc, core, units, workers, &NoGate)?;
    Ok(Some(run))
}

/// Whether so many units ended, each with its number, or none of them did.
fn came_to(core: &Core<Numbers, u64>, phase: Phase, count: u32) -> bool {
    for unit in 0..count {
        let comes = match phase {
            Phase::Ended => core.result(unit) == Some(&(unit as u64)),
            Phase::Stuck => core.result(unit).is_none(),
            Phase::Running => false,
        };
        if !comes {
            return false;
        }
    }
    core.phase() == phase && core.units() == count && core.result(count).is_none()
}

/// Whether there was a run, and it came to this.
fn ran_to(ran: &Option<Core<Numbers, u64>>, phase: Phase, count: u32) -> bool {
    match ran {
        Some(core) => came_to(core, phase, count),
        None => false,
    }
}

/// Whether a run of so many links, one at a time, came to this.
fn alone_comes_to(
    alloc: Global,
    shape: Shape,
    phase: Phase,
    count: u32,
) -> Result<bool, AllocError> {
    let ran = alone(alloc, shape, count)?;
    Ok(ran_to(&ran, phase, count))
}

/// Whether a run of so many links by workers came to this.
fn together_comes_to<Rt: Threads + Wait + Sync>(
    rt: &Rt,
    alloc: Global,
    shape: Shape,
    phase: Phase,
    count: u32,
    workers: u32,
) -> Result<bool, AllocError>
    requires { 1 ≤ workers }
{
    let ran = together(rt, alloc, shape, count, workers)?;
    Ok(ran_to(&ran, phase, count))
}

#[test]
fn workers_come_to_what_one_thread_comes_to(rt: HostRuntime) -> Result<(), Fail> {
    let cases = [
        (Shape::Ring, 200, Phase::Stuck),
        (Shape::Chain, 200, Phase::Ended),
        (Shape::Star, 200, Phase::Ended),
        (Shape::Ring, 1, Phase::Stuck),
        (Shape::Chain, 1, Phase::Ended),
        (Shape::Star, 3, Phase::Ended),
        (Shape::Chain, 0, Phase::Ended),
    ];
    for (shape, count, phase) in cases {
        assert!(rt; alone_comes_to(rt.alloc(), shape, phase, count)?);
        for workers in [1, 2, 8, 64] {
            assert!(rt; together_comes_to(&rt, rt.alloc(), shape, phase, count, workers)?);
        }
    }
    Ok(())
}
