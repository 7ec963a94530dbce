use sg_base::Instance;
use std::alloc::{AllocError, Global};

/// Numbers as data, each its own key. A predicate wants one number.
#[derive(Drop)]
pub struct Numbers;

impl Instance for Numbers {
    ghost use Rattle.std.specs.Prelude.{◌==◌, Some};
    ghost use Rattle.std.proofs.Common.{arith};
    ghost use Rattle.std.proofs.lemmas.Bool.Decides.{nat_tests};

    type Datum = u64;

    type Pred = u64;

    ghost wants = { λ p d. p == d };

    ghost same_datum = { λ a b. a == b };

    ghost pred_key = { λ p. Some p };

    ghost datum_key = { λ d. d };

    fn matches(p: &u64, d: &u64) -> bool {
        *p == *d
    }

    fn same(a: &u64, b: &u64) -> bool {
        *a == *b
    }

    fn key_of_pred(p: &u64) -> Option<u64> {
        Some(*p)
    }

    fn key_of_datum(d: &u64) -> u64 {
        *d
    }

    fn copy_datum(_alloc: Global, d: &u64) -> Result<u64, AllocError> {
        Ok(*d)
    }

    fn copy_pred(_alloc: Global, p: &u64) -> Result<u64, AllocError> {
        Ok(*p)
    }

    ghost sameness = { record {
      reflexive = λ a. Prim.grind (arith, nat_tests);
      symmetric = λ a b h. Prim.grind (arith, nat_tests);
      transitive = λ a b c h k. Prim.grind (arith, nat_tests);
    } };

    ghost keyed = { λ p d k e t. Prim.grind (arith, nat_tests) };

    ghost one_key = { λ a b h. Prim.grind (arith, nat_tests) };
}
