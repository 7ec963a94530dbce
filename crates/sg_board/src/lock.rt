//! The lock, and what each worker knows.
ghost use Rattle.std.specs.Prelude.{◌≡◌, ◌<◌, ℕ, List};
ghost use Rattle.crossbeam_queue.specs.Passes.{view, IsPassOf};
ghost use Rattle.sg_board.specs.Weighing.{Took, Gave};

use crate::worker_view::WorkerView;
use crossbeam_queue::protocol::{Join, Lesson, Outcome, Protocol, Split};
use crossbeam_queue::{Pass, RuledArrayQueue};
use std::alloc::Global;
use std::sync::Wait;
use std::{hint, thread};

/// So many looks at the lock before a worker yields between two of them. Who has the board keeps it for a short time alone.
const SPIN_LOOKS: u32 = 64;

/// What lies under the lock, by the numbers of its tasks.
pub(crate) trait TaskHolder {
    /// The numbers of its tasks.
    ghost numbers: { Self → List ℕ };
}

/// The rule of the lock: on the board are the tasks that were given with it and not taken with it.
pub(crate) struct BoardRule;

impl<B: TaskHolder> Protocol<B, WorkerView> for BoardRule {
    ghost use Rattle.std.specs.Prelude.{[]};
    ghost use Rattle.sg_board.specs.Weighing.{KeptOne, account, all_parts};

    ghost holds = { KeptOne B.numbers };

    ghost first = { account all_parts [] [] 1 };
}

/// One part goes to another pass, which has done nothing.
pub(crate) struct OnePart;

impl Split<WorkerView> for OnePart {
    ghost use Rattle.std.specs.Prelude.{[], ◌-◌};
    ghost use Rattle.sg_board.specs.Weighing.{account};

    ghost left = { λ v. account (v.parts - 1) v.given v.taken v.boards };

    ghost right = { λ v. account 1 [] [] 0 };
}

impl Join<WorkerView> for OnePart {
    ghost use Rattle.std.specs.Prelude.{[], ◌+◌, ◌++◌};
    ghost use Rattle.sg_board.specs.Weighing.{account};

    ghost both = { λ v w. account (v.parts + w.parts) (v.given ++ w.given) (v.taken ++ w.taken) (v.boards + w.boards) };

    ghost spent = { account 0 [] [] 0 };
}

/// The board is taken.
pub(crate) struct TakesBoard;

impl<B: TaskHolder> Outcome<B, WorkerView> for TakesBoard {
    ghost then = { λ v x w. Took v (B.numbers x) 1 w };
}

/// The board is given back, or for the first time.
pub(crate) struct GivesBoard;

impl<B: TaskHolder> Outcome<B, WorkerView> for GivesBoard {
    ghost then = { λ v x w. Gave v (B.numbers x) 0 w };
}

/// Who has the board knows that it is not in its place.
impl<B: TaskHolder> Lesson<B, WorkerView> for GivesBoard {
    ghost use Rattle.std.specs.Prelude.{◌≡◌, length};

    ghost fact = { λ v items. v.boards ≡ 1 → length items ≡ 0 };
}

/// Who has every part and the board knows that no other has one.
pub(crate) struct KnowsAll;

impl<B: TaskHolder> Lesson<B, WorkerView> for KnowsAll {
    ghost use Rattle.std.specs.Prelude.{◌≡◌};
    ghost use Rattle.sg_board.specs.Weighing.{IsBalanced};

    ghost fact = { λ v items. v.boards ≡ 1 → IsBalanced v };
}

/// The lock, in whose one place the board lies while no worker has it.
pub(crate) type Lock<B> = RuledArrayQueue<B, WorkerView, BoardRule, Global>;

/// Waits for the board, and takes it.
pub(crate) fn take<B: TaskHolder, R: Wait>(
    rt: &R,
    lock: &Lock<B>,
    pass: &mut Pass<B, WorkerView>,
) -> B
    requires pass { IsPassOf lock.now pass.old × (0 < (view pass.old).parts) }
    ensures pass { IsPassOf lock.now pass.new }
    ensures took { Took (view pass.old) (B.numbers result) 1 (view pass.new) }
{
    let mut looks = 0u32;
    for _ in rt.forever() {
        if let Some(board) = lock.try_pop_as::<TakesBoard>(pass) {
            return board;
        }
        pause(looks);
        looks = looks.saturating_add(1);
    }
    unreachable!()
}

/// Lets time pass between two looks at the lock, of which so many were made before. Nobody sleeps here, so nobody has to be
/// woken: who waits for the board looks again by itself.
fn pause(looks: u32) {
    if looks < SPIN_LOOKS {
        hint::spin_loop();
    } else {
        thread::yield_now();
    }
}

/// Gives the board back, with the tasks that lie on it now.
pub(crate) fn give<B: TaskHolder, R: Wait>(
    rt: &R,
    lock: &Lock<B>,
    pass: &mut Pass<B, WorkerView>,
    board: B,
)
    requires pass { IsPassOf lock.now pass.old × ((view pass.old).boards ≡ 1) }
    ensures pass { IsPassOf lock.now pass.new }
    ensures gave { Gave (view pass.old) (B.numbers board) 0 (view pass.new) }
{
    let given = lock.push_as::<GivesBoard, R>(rt, pass, board);
    let Ok(()) = given else { unreachable!() };
}
