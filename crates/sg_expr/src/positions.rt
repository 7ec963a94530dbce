ghost use Rattle.std.specs.Prelude.{◌≡◌, ◌≢◌, ℕ, ◌≤◌, [], ◌∷◌, ◌↔◌, IsTrue, IfOk, slice_index};
ghost use Rattle.sg_base.specs.Label.{Has, Word};
ghost use Rattle.sg_expr.specs.Positions.{Accepts, first_of};
ghost use Rattle.sg_expr.specs.Tree.{expr_of};
ghost use Rattle.sg_expr.specs.Word.{In, ones_of};

use crate::expr::Expr;
use crate::laying::{Laying, begin_at};
use sg_base::{Label, LabelSet};
use std::alloc::{AllocError, Global};
use std::marker::Model;

/// The bit of a set that says that a word may end.
const END: u64 = 1 << 63;

/// The positions of an expression, which are the places where labels stand in it: a deterministic run through its words
/// goes on by sets of them, which are the bits of a number (Glushkov, "The abstract theory of automata", Russian
/// Mathematical Surveys 16:5, 1961). Only the build takes memory.
#[derive(Debug, Drop)]
pub struct Positions {
    first: u64,
    all: u64,
    behind: Vec<u64>,
    places: [u64; 16],
}

impl Model for Positions {
    ghost use Rattle.std.specs.Prelude.{◌≡◌, ℕ, ◌↔◌, length, slice_index};
    ghost use Rattle.sg_base.specs.Label.{Has};
    ghost use Rattle.sg_expr.specs.Laying.{AreLive, AreWithin};
    ghost use Rattle.sg_expr.specs.Positions.{PositionsOf};

    ghost Value = { PositionsOf };

    ghost view = { λ p. record { first = p.first; behind = p.behind.items; places = p.places } };

    ghost invariant = { λ p. (length p.places ≡ 16) × AreWithin p.behind.items p.places × AreLive (record { first = p.first; behind = p.behind.items; places = p.places }) × ((n : ℕ) → (Has p.all n) ↔ ((l : ℕ) × Has (slice_index p.places l) n)) };
}

impl Positions {
    /// The positions of an expression with at most 63 labels, each counted as often as it stands there. Takes the time
    /// of the expression's size times the square of its depth.
    pub fn build(alloc: Global, e: &Expr) -> Result<Positions, AllocError>
        requires { ones_of (expr_of e.now) ≤ 63 }
        ensures { IfOk result (λ p. (w : Word) → (Accepts p (first_of p) w) ↔ (In (expr_of e.now) w)) }
    {
        let mut laying = Laying {
            behind: Vec::new(alloc),
            places: [0; 16],
        };
        let first = begin_at(e, 0, END);
        laying.lay(e, END)?;
        let Laying { behind, places } = laying;
        let all = union_of(&places);
        Ok(Positions {
            first,
            all,
            behind,
            places,
        })
    }

    /// The set with which each word of the expression begins.
    pub fn first(&self) -> u64
        ensures { result ≡ first_of self.now }
    {
        self.first
    }

    /// The set of what may come behind a label that begins with a set, in the time of the label's positions in it.
    pub fn step(&self, set: u64, l: Label) -> u64
        ensures { (w : Word) → (Accepts self.now result w) ↔ (Accepts self.now set (l ∷ w)) }
    {
        let mut next = 0;
        let mut here = set & self.places[usize::from(l.number())];
        while here != 0 {
            let at = here.trailing_zeros();
            next |= self.behind[at as usize];
            here &= !(1 << at);
        }
        next
    }

    /// Whether a word may end.
    pub fn ends(&self, set: u64) -> bool
        ensures { IsTrue result ↔ Accepts self.now set [] }
    {
        (set >> 63) & 1 == 1
    }

    /// Whether a word may go on.
    pub fn goes_on(&self, set: u64) -> bool
        ensures { IsTrue result ↔ ((w : Word) × (w ≢ []) × Accepts self.now set w) }
    {
        set & self.all != 0
    }

    /// The labels with which a word may go on.
    pub fn heads(&self, set: u64) -> LabelSet
        ensures { (l : ℕ) → (Has result l) ↔ ((w : Word) × Accepts self.now set (l ∷ w)) }
    {
        let mut labels = LabelSet::none();
        for number in 0..16 {
            if set & self.places[usize::from(number)] != 0 {
                labels = labels.with(Label::new(number));
            }
        }
        labels
    }
}

/// The members of all these sets.
fn union_of(sets: &[u64; 16]) -> u64
    ensures { (n : ℕ) → (Has result n) ↔ ((l : ℕ) × Has (slice_index sets.now l) n) }
{
    let mut all = 0;
    for set in sets {
        all |= *set;
    }
    all
}
