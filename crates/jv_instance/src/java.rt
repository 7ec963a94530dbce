use crate::datum::JavaDatum;
use crate::pred::JavaPred;
use sg_base::Instance;
use std::alloc::{AllocError, Global};

/// Java as an instance: a predicate wants a name or any datum, data count as one where their names are equal, and the
/// key of a name is its number.
pub struct Java;

impl Instance for Java {
    ghost use Rattle.std.specs.Prelude.{◌≡◌, ◌==◌, nat_eq, IsTrue, Some, None, refl};
    ghost use Rattle.std.proofs.Common.{sym, ◌∙◌, eq-eqb, eqb-true, arith};
    ghost use Rattle.std.proofs.lemmas.Bool.Decides.{nat_tests};
    ghost use Rattle.jv_instance.specs.Data.{name_of, is_wanted, key_of};
    ghost use Rattle.jv_instance.specs.declared.pred.JavaPred.TheVariants.{Named, Any};

    type Datum = JavaDatum;

    type Pred = JavaPred;

    ghost wants = { is_wanted };

    ghost same_datum = { λ a b. name_of a == name_of b };

    ghost pred_key = { key_of };

    ghost datum_key = { name_of };

    fn matches(p: &JavaPred, d: &JavaDatum) -> bool {
        match p {
            JavaPred::Named(name) => *name == d.name(),
            JavaPred::Any => true,
        }
    }

    fn same(a: &JavaDatum, b: &JavaDatum) -> bool {
        a.name() == b.name()
    }

    fn key_of_pred(p: &JavaPred) -> Option<u64> {
        match p {
            JavaPred::Named(name) => Some(name.0 as u64),
            JavaPred::Any => None,
        }
    }

    fn key_of_datum(d: &JavaDatum) -> u64 {
        d.name().0 as u64
    }

    fn copy_datum(_alloc: Global, d: &JavaDatum) -> Result<JavaDatum, AllocError> {
        match d {
            JavaDatum::Package { name } => Ok(JavaDatum::Package { name: *name }),
            JavaDatum::TypeName { name } => Ok(JavaDatum::TypeName { name: *name }),
            JavaDatum::Member { name } => Ok(JavaDatum::Member { name: *name }),
            JavaDatum::Signature {
                name,
                result,
                params,
            } => {
                let params = params.copy()?;
                Ok(JavaDatum::Signature {
                    name: *name,
                    result: *result,
                    params,
                })
            }
        }
    }

    fn copy_pred(_alloc: Global, p: &JavaPred) -> Result<JavaPred, AllocError> {
        Ok(*p)
    }

    ghost sameness = { record {
      reflexive = λ a. Prim.grind (arith, nat_tests);
      symmetric = λ a b h. Prim.grind (arith, nat_tests);
      transitive = λ a b c h k. Prim.grind (arith, nat_tests);
    } };

    ghost keyed = { λ p d k. elim p [ Named n ↦ λ e t. Prim.grind (arith, nat_tests) | Any ↦ λ e t. Prim.grind (arith, nat_tests) ] };

    ghost one_key = { λ a b h. Prim.grind (arith, nat_tests) };
}
