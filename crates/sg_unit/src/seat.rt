ghost use Rattle.std.specs.Prelude.{◌≡◌, ℕ, List, Bool};
ghost use Rattle.sg_query.specs.Query.{KindOf};
ghost use Rattle.sg_state.specs.Held.{HeldOf};
ghost use Rattle.sg_unit.specs.declared.entry.Entry.{Entry as EntryOf};

use sg_base::Instance;

/// The place of a unit at a desk, which knows the entries of its unit.
pub trait Seat: Drop {
    /// What the graph's data and the queries' predicates are.
    type Inst: Instance;

    /// What a unit comes to.
    type Outcome: Drop;

    /// The number of the seat's unit.
    ghost number: { Self → ℕ };

    /// The entries of its unit.
    ghost mine: { Self → List (EntryOf Self.Inst Self.Outcome Self.Inst.Datum Self.Inst.Pred) };

    /// Whether want of memory was met, after which the seat is of no more use.
    ghost spent: { Self → Bool };

    /// The held graph that the desk's run begins with.
    ghost opening: { Self → HeldOf Self.Inst.Datum };

    /// The kinds of its queries.
    ghost kinds: { Self → List KindOf };

    /// The number of the seat's unit.
    fn number(&self) -> u32
        ensures { result ≡ number self.now };
}
