ghost use Rattle.std.specs.Prelude.{◌≡◌, ◌++◌, ◌∷◌, [], false, IsTrue, IfSome, IfNone};
ghost use Rattle.sg_core.specs.declared.found_ask.FoundAsk.TheVariants.{Nothing};
ghost use Rattle.sg_core.specs.Beside.{AsksFound, TellsReady, TakesReady};

use crate::found_ask::FoundAsk;
use sg_base::Instance;
use sg_query::{Answer, Query};
use sg_unit::{Entry, Op, Reply};
use std::alloc::Global;
use std::mem;

/// Events of a unit that were kept beside the turn, first to last, and what the unit asks by them.
#[derive(Drop)]
pub struct Kept<I: Instance, R> {
    pub events: Vec<Entry<I, R>>,
    pub ask: FoundAsk<I::Datum>,
}

impl<I: Instance, R: Drop> Kept<I, R> {
    /// No event. Takes no memory.
    pub fn new(alloc: Global) -> Kept<I, R>
        ensures { (result.events.items ≡ []) × (result.ask ≡ Nothing) }
    {
        Kept {
            events: Vec::new(alloc),
            ask: FoundAsk::Nothing,
        }
    }

    /// Whether the unit asks nothing by these events.
    pub fn asks_nothing(&self) -> bool
        ensures { IsTrue result → self.now.ask ≡ Nothing }
    {
        matches!(&self.ask, FoundAsk::Nothing)
    }

    /// Lets the unit ask this by these events.
    pub(crate) fn set_ask(&mut self, ask: FoundAsk<I::Datum>)
        ensures ask { self.new.ask ≡ ask }
        ensures events { self.new.events ≡ self.old.events }
    {
        self.ask = ask;
    }

    /// Keeps the ask of a query whose answer was found. Gives both back, and keeps nothing, where memory is wanting.
    pub fn keep_ask(
        &mut self,
        unit: u32,
        query: Query<I::Pred>,
        answer: Answer<I::Datum>,
    ) -> Option<(Query<I::Pred>, Answer<I::Datum>)>
        ensures kept { IfNone result (AsksFound unit query answer self.old.events.items self.new.events.items self.new.ask) }
        ensures back { IfSome result (λ p. (p.0 ≡ query) × (p.1 ≡ answer) × (self.new.events.items ≡ self.old.events.items) × (self.new.ask ≡ self.old.ask)) }
    {
        if self.events.reserve(1).is_err() {
            return Some((query, answer));
        }
        self.events.push_reserved(Entry {
            unit,
            op: Op::Ask(query),
            reply: Reply::Moved,
        });
        self.ask = FoundAsk::Found(answer);
        None
    }

    /// Keeps the advance that tells that an answer is ready, where one was found and is not told yet, and memory is there.
    /// Whether it did.
    pub fn keep_advance(&mut self, unit: u32) -> bool
        ensures kept { IsTrue result → TellsReady unit self.old.ask self.old.events.items self.new.events.items self.new.ask }
        ensures same { result ≡ false → (self.new.events.items ≡ self.old.events.items) × (self.new.ask ≡ self.old.ask) }
    {
        if self.events.reserve(1).is_err() {
            return false;
        }
        match mem::replace(&mut self.ask, FoundAsk::Nothing) {
            FoundAsk::Found(answer) => {
                self.events.push_reserved(Entry {
                    unit,
                    op: Op::Advance,
                    reply: Reply::Ready,
                });
                self.ask = FoundAsk::Ready(answer);
                true
            }
            other => {
                self.ask = other;
                false
            }
        }
    }

    /// Keeps the take of an answer that is ready, which the events share, where there is one and memory is there.
    pub fn keep_take(&mut self, unit: u32) -> Option<Answer<I::Datum>>
        ensures kept { IfSome result (λ a. TakesReady unit a self.old.ask self.old.events.items self.new.events.items self.new.ask) }
        ensures same { IfNone result ((self.new.events.items ≡ self.old.events.items) × (self.new.ask ≡ self.old.ask)) }
    {
        let FoundAsk::Ready(answer) = &self.ask else {
            return None;
        };
        let Ok(copy) = answer.share() else {
            return None;
        };
        if self.events.reserve(1).is_err() {
            return None;
        }
        let FoundAsk::Ready(answer) = mem::replace(&mut self.ask, FoundAsk::Nothing) else {
            unreachable!()
        };
        self.events.push_reserved(Entry {
            unit,
            op: Op::Take,
            reply: Reply::Answer(copy),
        });
        Some(answer)
    }
}
