//! Small honest units, driven by hand.

ghost use Rattle.std.specs.Prelude.{◌≡◌, ◌<◌, ◌-◌, ◌^◌, ◌++◌, ◌∷◌, [], ℕ, true, false, length, IfOk, OnErr};
ghost use Rattle.sg_unit.specs.Example.{corner_query, number_pair, AskerStands, IsAskersEdge, MakerStands, desk_reply};
ghost use Rattle.sg_unit.specs.Own.{CanReply, IsOwnRun};
ghost use Rattle.sg_unit.specs.Run.{run_of, IsFreeUnit};
ghost use Rattle.sg_unit.specs.Served.{IsServedUnit};
ghost use Rattle.sg_unit.specs.Unit.{setting_at, CanBeHanded, GoesOn, GivesOwed};

use crate::{Desk, Entry, Gate, NoGate, Op, Reply, Seat, Unit, Woken};
use sg_base::{Label, LabelSet, Scope};
use sg_numbers::{FIRST, Numbers};
use sg_query::{Answer, Query};
use std::alloc::{AllocError, Global};
use std::sync::Wait;
use std::test::Fail;
use std::thread::Threads;

/// Unit 1 of two: it asks from the only scope for 5, adds an edge from it to itself, and ends with 7.
#[derive(Drop)]
struct Asker {
    given: u8,
}

impl Unit for Asker {
    ghost use Rattle.std.specs.Prelude.{◌≡◌, ◌-◌};
    ghost use Rattle.sg_unit.specs.Example.{corner_query, one_step, pair, AskerStands, IsAskersEdge};

    type Inst = Numbers;

    type Outcome = u64;

    ghost Fixed = { Unit {0} };

    ghost fixed = { λ _. tt };

    ghost number = { λ _. 1 };

    ghost opening = { λ _. pair };

    ghost kinds = { λ _. one_step };

    ghost owes_edge = { λ _ _. IsAskersEdge };

    ghost owes_datum = { λ _ _ _ _. ⊥ };

    ghost may_ask = { λ _ _ q. q ≡ corner_query 5 };

    ghost comes_to = { λ _ _ x. x ≡ 7 };

    ghost stands = { λ a. AskerStands 5 7 a.given };

    ghost measure = { λ a. 3 - a.given };

    fn id(&self) -> u32 {
        1
    }

    fn next(&mut self, last: Option<Reply<Numbers>>) -> Result<Op<Numbers, u64>, AllocError>
        requires { CanBeHanded {R = ℕ} number_pair 1 (AskerStands 5 7 self.old.given) last }
        ensures gives { IfOk result (GoesOn number_pair 1 (AskerStands 5 7 self.old.given) (AskerStands 5 7 self.new.given) last) }
        ensures owed { IfOk result (GivesOwed number_pair 1 (λ _. IsAskersEdge) (λ _ _ _. ⊥) (λ _ q. q ≡ corner_query 5) (λ _ x. x ≡ 7) (AskerStands 5 7 self.old.given) last) }
        ensures falls { IfOk result (λ _. 3 - self.new.given < 3 - self.old.given) }
        ensures same { OnErr result (self.new ≡ self.old) }
    {
        let _handed = last;
        match self.given {
            0 => {
                self.given = 1;
                Ok(Op::Ask(Query {
                    start: FIRST,
                    kind: 0,
                    pred: 5,
                }))
            }
            1 => {
                self.given = 2;
                Ok(Op::AddEdge {
                    from: FIRST,
                    label: Label::new(0),
                    to: FIRST,
                })
            }
            _ => {
                self.given = 3;
                Ok(Op::End(7))
            }
        }
    }
}

/// Unit 0 of two: it makes two scopes, and ends with 7.
#[derive(Drop)]
struct Maker {
    given: u8,
}

impl Unit for Maker {
    ghost use Rattle.std.specs.Prelude.{◌≡◌, ◌-◌};
    ghost use Rattle.sg_unit.specs.Example.{one_step, pair, MakerStands};

    type Inst = Numbers;

    type Outcome = u64;

    ghost Fixed = { Unit {0} };

    ghost fixed = { λ _. tt };

    ghost number = { λ _. 0 };

    ghost opening = { λ _. pair };

    ghost kinds = { λ _. one_step };

    ghost owes_edge = { λ _ _ _ _ _. ⊥ };

    ghost owes_datum = { λ _ _ _ _. ⊥ };

    ghost may_ask = { λ _ _ _. ⊥ };

    ghost comes_to = { λ _ _ x. x ≡ 7 };

    ghost stands = { λ m. MakerStands 7 m.given };

    ghost measure = { λ m. 3 - m.given };

    fn id(&self) -> u32 {
        0
    }

    fn next(&mut self, last: Option<Reply<Numbers>>) -> Result<Op<Numbers, u64>, AllocError>
        requires { CanBeHanded {R = ℕ} number_pair 0 (MakerStands 7 self.old.given) last }
        ensures gives { IfOk result (GoesOn number_pair 0 (MakerStands 7 self.old.given) (MakerStands 7 self.new.given) last) }
        ensures owed { IfOk result (GivesOwed number_pair 0 (λ _ _ _ _. ⊥) (λ _ _ _. ⊥) (λ _ _. ⊥) (λ _ x. x ≡ 7) (MakerStands 7 self.old.given) last) }
        ensures falls { IfOk result (λ _. 3 - self.new.given < 3 - self.old.given) }
        ensures same { OnErr result (self.new ≡ self.old) }
    {
        let _handed = last;
        match self.given {
            0 => {
                self.given = 1;
                Ok(Op::Fresh {
                    labels: LabelSet::none(),
                    datum: false,
                })
            }
            1 => {
                self.given = 2;
                Ok(Op::Fresh {
                    labels: LabelSet::none(),
                    datum: false,
                })
            }
            _ => {
                self.given = 3;
                Ok(Op::End(7))
            }
        }
    }
}

/// The seat of unit 1, which keeps its entries.
#[derive(Drop)]
struct OwnSeat {
    alloc: Global,
    log: Vec<Entry<Numbers, u64>>,
    spent: bool,
}

impl Seat for OwnSeat {
    ghost use Rattle.sg_unit.specs.Example.{one_step, pair};

    type Inst = Numbers;

    type Outcome = u64;

    ghost number = { λ _. 1 };

    ghost mine = { λ s. s.log.items };

    ghost spent = { λ s. s.spent };

    ghost opening = { λ _. pair };

    ghost kinds = { λ _. one_step };

    fn number(&self) -> u32 {
        1
    }
}

/// A desk of one seat without room for scopes, at which every ask is ready at once and has too many paths.
struct OwnDesk;

fn reply_to(alloc: Global, op: &Op<Numbers, u64>) -> Option<Reply<Numbers>>
    ensures { result ≡ desk_reply op.now }
{
    match op {
        Op::Fresh { .. } => None,
        Op::Ask(_) => Some(Reply::Moved),
        Op::Advance => Some(Reply::Ready),
        Op::Take => Some(Reply::Answer(Answer::TooMany)),
        _ => Some(Reply::Done {
            woken: Woken::new(Vec::new(alloc)),
        }),
    }
}

impl Desk for OwnDesk {
    type Inst = Numbers;

    type Outcome = u64;

    type Place = OwnSeat;

    ghost sits = { λ _ _. Unit {0} };

    fn apply<Rt: Threads + Wait + Sync>(
        &self,
        _rt: &Rt,
        seat: &mut OwnSeat,
        op: Op<Numbers, u64>,
    ) -> Result<Reply<Numbers>, AllocError>
        requires { seat.old.spent ≡ false }
        ensures added { IfOk result (λ reply. seat.new.log.items ≡ seat.old.log.items ++ (record { unit = 1; op = op; reply = reply }) ∷ []) }
        ensures reply { IfOk result (CanReply (run_of number_pair seat.old.log.items) 1 op) }
        ensures short { IfOk result (λ _. length seat.new.log.items < 2 ^ 63) }
        ensures unspent { IfOk result (λ _. seat.new.spent ≡ false) }
        ensures err { OnErr result ((seat.new.log.items ≡ seat.old.log.items) × (seat.new.spent ≡ true)) }
    {
        let Some(kept) = reply_to(seat.alloc, &op) else {
            seat.spent = true;
            return Err(AllocError);
        };
        let Some(told) = reply_to(seat.alloc, &op) else {
            unreachable!()
        };
        match seat.log.push(Entry {
            unit: 1,
            op,
            reply: kept,
        }) {
            Ok(()) => Ok(told),
            Err(_) => {
                seat.spent = true;
                Err(AllocError)
            }
        }
    }
}

/// One operation of a unit that asks nothing, at a desk. The reply that waits for the unit is handed to it, and the next one
/// waits then.
fn step<U: Unit, K: Desk<Inst = U::Inst, Outcome = U::Outcome>, Rt: Threads + Wait + Sync>(
    rt: &Rt,
    unit: &mut U,
    desk: &K,
    seat: &mut K::Place,
    last: &mut Option<Reply<U::Inst>>,
) -> Result<(), AllocError>
    requires seat { K.sits desk.now seat.old × (K.Place.spent seat.old ≡ false) }
    requires run { (K.Place.opening seat.old ≡ U.opening (U.fixed unit.old)) × (K.Place.kinds seat.old ≡ U.kinds (U.fixed unit.old)) }
    requires own { IsOwnRun (setting_at U.Inst.wants U.Inst.same_datum U.opening U.kinds (U.fixed unit.old)) (K.Place.number seat.old) (K.Place.mine seat.old) }
    requires free { IsFreeUnit (run_of (setting_at U.Inst.wants U.Inst.same_datum U.opening U.kinds (U.fixed unit.old)) (K.Place.mine seat.old)) (K.Place.number seat.old) }
    requires served { IsServedUnit U.Inst.wants U.Inst.same_datum U.Unit (K.Place.mine seat.old) (K.Place.number seat.old) (U.fixed unit.old) unit.old last.old }
    ensures own { IfOk result (λ _. IsOwnRun (setting_at U.Inst.wants U.Inst.same_datum U.opening U.kinds (U.fixed unit.old)) (K.Place.number seat.old) (K.Place.mine seat.new)) }
    ensures served { IfOk result (λ _. IsServedUnit U.Inst.wants U.Inst.same_datum U.Unit (K.Place.mine seat.new) (K.Place.number seat.old) (U.fixed unit.old) unit.new last.new) }
    ensures short { IfOk result (λ _. length (K.Place.mine seat.new) < 2 ^ 63) }
{
    let handed = last.take();
    let op = unit.next(handed)?;
    let asks = op.is_ask();
    let reply = desk.apply(rt, seat, op)?;
    if !asks {
        *last = Some(reply);
    }
    Ok(())
}

#[test]
fn an_asker_asks_adds_and_ends(rt: HostRuntime) -> Result<(), Fail> {
    let mut new = Asker { given: 0 };
    assert_eq!(rt; new.id(), 1);
    let first = new.next(None)?;
    assert!(rt; matches!(&first, Op::Ask(q) if q.start == FIRST && q.kind == 0 && q.pred == 5));
    let mut answered = Asker { given: 1 };
    let second = answered.next(Some(Reply::Answer(Answer::TooMany)))?;
    assert!(rt;
        matches!(&second, Op::AddEdge { from, label, to } if *from == FIRST && label.number() == 0 && *to == FIRST)
    );
    let woken = Woken::new(Vec::new(rt.alloc()));
    let mut added = Asker { given: 2 };
    let third = added.next(Some(Reply::Done { woken }))?;
    assert!(rt; matches!(&third, Op::End(7)));
    Ok(())
}

#[test]
fn a_desk_replies_and_keeps_entries(rt: HostRuntime) -> Result<(), Fail> {
    let mut seat = OwnSeat {
        alloc: rt.alloc(),
        log: Vec::new(rt.alloc()),
        spent: false,
    };
    assert_eq!(rt; seat.number(), 1);
    let ask = Op::Ask(Query {
        start: FIRST,
        kind: 0,
        pred: 5,
    });
    NoGate.before(seat.number(), 1);
    let reply = OwnDesk.apply(&rt, &mut seat, ask)?;
    NoGate.answered(seat.number(), 1);
    assert!(rt; matches!(&reply, Reply::Moved));
    let kept = seat.log.as_slice();
    assert!(rt;
        matches!(
            kept,
            [Entry {
                op: Op::Ask(_),
                reply: Reply::Moved,
                ..
            }]
        )
    );
    Ok(())
}

#[test]
fn woken_units_are_listed(rt: HostRuntime) -> Result<(), Fail> {
    let woken = Woken::new(vec![in rt.alloc(); 0u32, 2]?);
    assert_eq!(rt; woken.as_slice(), [0, 2].as_slice());
    let units = woken.into_vec();
    assert_eq!(rt; units.as_slice(), [0, 2].as_slice());
    Ok(())
}

#[test]
fn a_maker_makes_two_scopes(rt: HostRuntime) -> Result<(), Fail> {
    let mut new = Maker { given: 0 };
    assert_eq!(rt; new.id(), 0);
    let first = new.next(None)?;
    assert!(rt; matches!(&first, Op::Fresh { datum: false, .. }));
    let made = Scope { unit: 0, serial: 0 };
    let mut one = Maker { given: 1 };
    let second = one.next(Some(Reply::Made(made)))?;
    assert!(rt; matches!(&second, Op::Fresh { datum: false, .. }));
    let made = Scope { unit: 0, serial: 1 };
    let mut two = Maker { given: 2 };
    let third = two.next(Some(Reply::Made(made)))?;
    assert!(rt; matches!(&third, Op::End(7)));
    Ok(())
}

#[test]
fn an_asker_steps_at_a_desk(rt: HostRuntime) -> Result<(), Fail> {
    let mut unit = Asker { given: 0 };
    let mut seat = OwnSeat {
        alloc: rt.alloc(),
        log: Vec::new(rt.alloc()),
        spent: false,
    };
    let mut last = None;
    step(&rt, &mut unit, &OwnDesk, &mut seat, &mut last)?;
    assert!(rt; last.is_none());
    assert!(rt;
        matches!(
            seat.log.as_slice(),
            [Entry {
                op: Op::Ask(_),
                reply: Reply::Moved,
                ..
            }]
        )
    );
    Ok(())
}
