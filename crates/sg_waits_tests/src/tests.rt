//! Small tables of units, with answers worked out by hand.

ghost use Rattle.std.specs.Prelude.{◌≡◌, ◌<◌, ◌^◌, [], ◌∷◌, IfOk};
ghost use Rattle.sg_state.specs.declared.need.Need.TheVariants.{Row};
ghost use Rattle.sg_waits.specs.declared.status.Status.TheVariants.{Waits as WaitsFor};

use sg_base::{Label, Scope};
use sg_state::Need;
use sg_waits::{ShownItem, Waits};
use std::alloc::{AllocError, Global};
use std::process::Abort;
use std::test::Fail;

/// One of the rows that the tests wait for.
fn row(serial: u32) -> Need
    ensures { result ≡ Row (record { unit = 9; serial = serial }) 3 }
{
    Need::Row(Scope { unit: 9, serial }, Label::new(3))
}

/// Makes a unit wait for one row, if it is live.
fn note(waits: &mut Waits, unit: u32, serial: u32) -> Result<(), AllocError> {
    if waits.live(unit) {
        waits.note(unit, &[row(serial)])?;
    }
    Ok(())
}

/// Makes a unit wait for two rows, if it is live.
fn note_two(waits: &mut Waits, unit: u32, low: u32, high: u32) -> Result<(), AllocError>
    requires { low < high }
{
    if waits.live(unit) {
        waits.note(unit, &[row(low), row(high)])?;
    }
    Ok(())
}

/// Two units, each of which waits for one row.
fn two(alloc: Global, first: &Need, second: &Need) -> Result<Waits, AllocError>
    ensures { IfOk result (λ w. w ≡ WaitsFor (first.now ∷ []) ∷ WaitsFor (second.now ∷ []) ∷ []) }
{
    let mut waits = Waits::open(alloc, 2)?;
    waits.note(0, &[*first])?;
    waits.note(1, &[*second])?;
    Ok(waits)
}

/// Whether these units wait for one of the rows.
fn is_waited_for(waits: &Waits, gone: &[Need], units: &[u32]) -> Result<bool, AllocError> {
    let found = waits.waiting_for(gone)?;
    Ok(found.as_slice() == units)
}

/// Whether the rows wake these units.
fn wakes(waits: &mut Waits, gone: &[Need], units: &[u32]) -> Result<bool, AllocError> {
    let woken = waits.woken_by(gone)?;
    let is_slice = woken.as_slice() == units;
    let listed = woken.into_vec();
    Ok(is_slice && listed.as_slice() == units)
}

/// Makes one of three units wait for two rows and the others for one each.
fn note_three(rt: &impl Abort, waits: &mut Waits) -> Result<(), AllocError> {
    note_two(waits, 0, 1, 2)?;
    note(waits, 1, 2)?;
    assert!(rt; !waits.runnable(0) && waits.live(0) && !waits.is_stuck());
    note(waits, 2, 5)?;
    assert!(rt; waits.is_stuck());
    assert_eq!(rt; waits.needs(0), [row(1), row(2)].as_slice());
    Ok(())
}

/// Wakes two of these units, and once more none.
fn wake_two(rt: &impl Abort, waits: &mut Waits) -> Result<(), AllocError> {
    assert!(rt; is_waited_for(waits, &[row(2), row(5)], &[0, 1, 2])?);
    assert!(rt; wakes(waits, &[row(1), row(2)], &[0, 1])?);
    assert!(rt; waits.runnable(0) && waits.runnable(1) && !waits.runnable(2));
    assert!(rt; !waits.is_stuck() && waits.needs(0).is_empty());
    assert!(rt; wakes(waits, &[row(2), row(1)], &[])?);
    Ok(())
}

#[test]
fn two_needs_wake_once(rt: HostRuntime) -> Result<(), Fail> {
    let mut waits = Waits::open(rt.alloc(), 3)?;
    assert!(rt; waits.live(2) && !waits.live(3) && !waits.is_stuck());
    note_three(&rt, &mut waits)?;
    wake_two(&rt, &mut waits)?;
    Ok(())
}

/// Makes two units wait for a row, the first of them after another row, which then wakes none.
fn note_later(rt: &impl Abort, waits: &mut Waits) -> Result<(), AllocError> {
    note(waits, 0, 4)?;
    note(waits, 0, 6)?;
    note(waits, 1, 6)?;
    assert!(rt; wakes(waits, &[row(4)], &[])?);
    Ok(())
}

/// Forgets one of these units. Their row then wakes the other.
fn forget_one(rt: &impl Abort, waits: &mut Waits) -> Result<(), AllocError> {
    if waits.live(1) {
        waits.forget(1);
    }
    assert!(rt; waits.runnable(1) && !waits.runnable(0));
    assert!(rt; wakes(waits, &[row(6)], &[0])?);
    Ok(())
}

/// Ends the other unit where it waits. Its row then wakes none.
fn end_other(rt: &impl Abort, waits: &mut Waits) -> Result<(), AllocError> {
    note(waits, 0, 6)?;
    if waits.live(0) {
        waits.end(0);
    }
    assert!(rt; !waits.live(0) && !waits.runnable(0) && waits.needs(0).is_empty());
    assert!(rt; wakes(waits, &[row(6)], &[])?);
    Ok(())
}

#[test]
fn forgotten_units_do_not_wake(rt: HostRuntime) -> Result<(), Fail> {
    let mut waits = Waits::open(rt.alloc(), 2)?;
    note_later(&rt, &mut waits)?;
    forget_one(&rt, &mut waits)?;
    end_other(&rt, &mut waits)?;
    Ok(())
}

#[test]
fn a_circle_of_two_is_shown(rt: HostRuntime) -> Result<(), Fail> {
    let first = row(1);
    let second = row(0);
    let waits = two(rt.alloc(), &first, &second)?;
    assert!(rt; waits.is_stuck());
    let shown = waits.shown(&[(first, 7), (second, 0), (first, 1)])?;
    let wanted = [
        ShownItem {
            unit: 0,
            need: row(1),
            holder: 1,
        },
        ShownItem {
            unit: 1,
            need: row(0),
            holder: 0,
        },
    ];
    assert_eq!(rt; shown.items.as_slice(), wanted.as_slice());
    Ok(())
}
