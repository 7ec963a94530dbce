ghost use Rattle.std.specs.Prelude.{◌≡◌, Bool, ℕ, Option, Some, IfOk, IsTrue};
ghost use Rattle.sg_base.specs.Instance.{IsSameness};

use std::alloc::{AllocError, Global};

/// What a graph's data and a query's predicates are.
pub trait Instance {
    /// What stands at a scope.
    type Datum: Drop;

    /// What a query asks of the datum at a path's end.
    type Pred: Drop;

    /// Whether a datum is one that a predicate wants.
    ghost wants: { Self.Pred → Self.Datum → Bool };

    /// Whether two data count as one.
    ghost same_datum: { Self.Datum → Self.Datum → Bool };

    /// The key of all data that a predicate wants, where it has one.
    ghost pred_key: { Self.Pred → Option ℕ };

    /// The key of a datum.
    ghost datum_key: { Self.Datum → ℕ };

    /// Whether a datum is one that the predicate wants.
    fn matches(p: &Self::Pred, d: &Self::Datum) -> bool
        ensures { result ≡ wants p.now d.now };

    /// Whether two data count as one.
    fn same(a: &Self::Datum, b: &Self::Datum) -> bool
        ensures { result ≡ same_datum a.now b.now };

    /// The key of all data that the predicate wants, or none.
    fn key_of_pred(p: &Self::Pred) -> Option<u64>
        ensures { result ≡ pred_key p.now };

    /// The key of a datum.
    fn key_of_datum(d: &Self::Datum) -> u64
        ensures { result ≡ datum_key d.now };

    /// A copy of a datum, which equals it.
    fn copy_datum(alloc: Global, d: &Self::Datum) -> Result<Self::Datum, AllocError>
        ensures { IfOk result (λ c. c ≡ d.now) };

    /// A copy of a predicate, which equals it.
    fn copy_pred(alloc: Global, p: &Self::Pred) -> Result<Self::Pred, AllocError>
        ensures { IfOk result (λ c. c ≡ p.now) };

    /// Counting as one is an equivalence.
    ghost sameness: { IsSameness same_datum };

    /// Data that count as one have one key.
    ghost one_key: { (a b : Self.Datum) → IsTrue (same_datum a b) → datum_key a ≡ datum_key b };

    /// A datum that a predicate with a key wants has that key.
    ghost keyed: { (p : Self.Pred) (d : Self.Datum) (k : ℕ) → pred_key p ≡ Some k → IsTrue (wants p d) → datum_key d ≡ k };
}
