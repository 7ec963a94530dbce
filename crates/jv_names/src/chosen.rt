//! Which of several methods counts.

ghost use Rattle.std.specs.Prelude.{◌≡◌};
ghost use Rattle.sg_reading.specs.Stop.{Reads};
ghost use Rattle.jv_names.specs.Chosen.{first_concrete, first_fitting, fits_all, fits_or_bad};
ghost use Rattle.jv_names.specs.Replies.{reply_to};

use crate::oracle::Oracle;
use crate::results::read_result_fits;
use jv_instance::{JavaPred, Ty};
use jv_layout::Layout;
use sg_base::Scope;
use sg_query::Query;
use sg_reading::Stop;

/// The first method that is not abstract. It takes time in the number of methods.
pub fn first_concrete(l: &Layout, methods: &[Scope]) -> Option<Scope>
    ensures { result ≡ first_concrete l.now methods.now }
{
    for method in methods {
        if !l.is_abstract(*method) {
            return Some(*method);
        }
    }
    None
}

/// Whether a result fits another one, or one of the two is bad.
#[tactic(auto, using(crate::proofs::ChosenSteps::all_steps), unfolding(crate::specs::Chosen::fits_or_bad))]
fn read_fits_or_bad(l: &Layout, o: &Oracle, from: Ty, to: Ty) -> Result<bool, Stop<Query<JavaPred>>>
    ensures { Reads (reply_to o.now) (fits_or_bad l.now from to) result }
{
    if from.is_bad() || to.is_bad() {
        return Ok(true);
    }
    read_result_fits(l, o, from, to)
}

/// Whether a result fits each of some others (JLS 8.4.5), as far as the replies tell it, or the first query that has no reply. One
/// of two that is bad fits the other. It takes the time of the answers.
#[tactic(auto, using(crate::proofs::ChosenSteps::all_steps))]
pub fn read_fits_all(
    l: &Layout,
    o: &Oracle,
    from: Ty,
    all: &[Ty],
) -> Result<bool, Stop<Query<JavaPred>>>
    ensures { Reads (reply_to o.now) (fits_all l.now from all.now) result }
{
    for to in all {
        if !read_fits_or_bad(l, o, from, *to)? {
            return Ok(false);
        }
    }
    Ok(true)
}

/// The first method whose result fits those of all, and else this one (JLS 15.12.2.5), as far as the replies tell it, or the first
/// query that has no reply. It takes the time of comparing each pair of results.
#[tactic(auto, using(crate::proofs::ChosenSteps::first_steps))]
pub fn read_first_fitting(
    l: &Layout,
    o: &Oracle,
    all: &[Ty],
    first: Scope,
    methods: &[Scope],
    results: &[Ty],
) -> Result<Scope, Stop<Query<JavaPred>>>
    ensures { Reads (reply_to o.now) (first_fitting l.now all.now first methods.now results.now) result }
{
    let mut rest = methods;
    let mut left = results;
    while let Some((method, later)) = rest.split_first() {
        let Some((ty, more)) = left.split_first() else {
            return Ok(first);
        };
        if read_fits_all(l, o, *ty, all)? {
            return Ok(*method);
        }
        rest = later;
        left = more;
    }
    Ok(first)
}
