//! Units that follow scripts, run by threads.

ghost use Rattle.std.specs.Prelude.{◌≡◌, ◌≤◌, [], IfOk};
ghost use Rattle.sc_app.specs.Followers.{AreNewFollowers, HasRunFollowers};

use sg_base::Instance;
use sg_broker::run_threads;
use sg_core::Core;
use sg_script::{Follower, Script};
use sg_unit::Gate;
use std::alloc::{AllocError, Global};
use std::sync::Wait;
use std::thread::Threads;

/// Runs units that follow scripts, to which no reply has come, on a core at its opening, in so many threads, until none of them can
/// go on. The core that is answered has ended, or each of its live units waits.
pub(crate) fn run_followers<S: Script + Send, G: Gate, R: Threads + Wait + Sync>(
    rt: &R,
    alloc: Global,
    core: Core<S::Inst, S::Outcome>,
    units: Vec<Follower<S>>,
    workers: u32,
    gate: &G,
) -> Result<Core<S::Inst, S::Outcome>, AllocError>
where
    S::Inst: Send,
    <S::Inst as Instance>::Datum: Send + Sync,
    <S::Inst as Instance>::Pred: Send,
    S::Outcome: Send,
    requires opening { core.log ≡ [] }
    requires new { AreNewFollowers S.plan S.reply S.is_ready core.opening core.kinds units.items }
    requires workers { 1 ≤ workers }
    ensures ran { IfOk result (HasRunFollowers S.plan S.reply S.is_ready S.Inst.wants S.Inst.same_datum core units.items) }
{
    run_threads::<Follower<S>, G, R>(rt, alloc, core, units, workers, gate)
}
