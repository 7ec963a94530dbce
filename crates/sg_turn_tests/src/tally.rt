//! A value that is taken in turns, and a turn that adds a list of entries.
ghost use Rattle.std.specs.Prelude.{◌≡◌, ◌<◌, ◌++◌, OnOk, OnErr, All, length, false, true};
ghost use Rattle.sg_turn.specs.Turn.{IsOf};

use sg_turn::{Storied, Turn, TurnSeat};
use std::alloc::AllocError;
use std::sync::Wait;

/// The number of a seat, and how many notes it had before.
pub type Note = (u32, u32);

/// Notes, and a name that stays.
#[derive(Drop)]
pub struct Tally {
    pub notes: Vec<Note>,
    pub name: u8,
}

impl Storied for Tally {
    type Entry = Note;

    type Root = u8;

    ghost use Rattle.std.proofs.Common.{arith};

    ghost entries = { λ t. t.notes.items };

    ghost root = { λ t. t.name };

    ghost teller = { λ e. e.0 };

    ghost few = { λ t. Prim.omega arith };
}

/// Adds these notes in one turn. Where no memory is found for them, the value is given back as it was.
pub fn tell_list<R: Wait>(
    rt: &R,
    turn: &Turn<Tally>,
    seat: &mut TurnSeat<Tally>,
    notes: &[Note],
) -> Result<(), AllocError>
    requires own { IsOf turn.now seat.old }
    requires outside { (seat.old.inside ≡ false) × (seat.old.spent ≡ false) }
    requires notes { (0 < length notes.now) × All (λ e. e.0 ≡ seat.old.number) notes.now }
    ensures ok { OnOk result ((seat.new.spent ≡ false) × (seat.new.mine ≡ seat.old.mine ++ notes.now)) }
    ensures err { OnErr result ((seat.new.spent ≡ true) × (seat.new.mine ≡ seat.old.mine)) }
    ensures seat { IsOf turn.now seat.new × (seat.new.number ≡ seat.old.number) × (seat.new.inside ≡ false) × (seat.new.kept ≡ seat.old.kept) }
{
    let mut tally = turn.lock(rt, seat);
    match tally.notes.extend_from_slice(notes) {
        Ok(()) => {
            turn.unlock_all(seat, tally);
            Ok(())
        }
        Err(refused) => {
            turn.unlock(seat, tally);
            Err(refused)
        }
    }
}
