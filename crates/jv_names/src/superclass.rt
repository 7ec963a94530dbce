//! The superclass of a class.

ghost use Rattle.std.specs.Prelude.{◌≡◌, map};
ghost use Rattle.sg_reading.specs.Stop.{Reads};
ghost use Rattle.jv_tree.specs.TypeTree.{ids_of};
ghost use Rattle.jv_names.specs.Replies.{reply_to};
ghost use Rattle.jv_names.specs.Superclass.{meant_superclass, named_superclass, superclass};

use crate::meaning::Meaning;
use crate::oracle::Oracle;
use crate::spot::Spot;
use crate::type_names::read_type;
use jv_instance::JavaPred;
use jv_layout::Layout;
use jv_tree::Name;
use sg_base::Scope;
use sg_query::Query;
use sg_reading::Stop;
use std::alloc::Global;

/// The superclass by what the first name of the extends clause means.
fn meant_superclass(l: &Layout, meaning: Meaning) -> Scope
    ensures { result ≡ meant_superclass l.now meaning }
{
    match meaning {
        Meaning::One(s) => s,
        Meaning::Nothing | Meaning::Ambiguous | Meaning::TooMany => l.object(),
    }
}

/// The superclass of a class by the name that it extends. Whether that is accessible is not read.
#[tactic(auto, using(crate::proofs::SuperclassSteps::superclass_steps))]
fn read_named_superclass(
    alloc: Global,
    l: &Layout,
    o: &Oracle,
    ty: Scope,
    name: &Name,
) -> Result<Scope, Stop<Query<JavaPred>>>
    ensures { Reads (reply_to o.now) (named_superclass l.now ty (ids_of name.now)) result }
{
    let spot = Spot::of_header(alloc, l, ty)?;
    let resolved = read_type(alloc, l, o, &spot, name)?;
    Ok(meant_superclass(l, resolved.meaning))
}

/// The superclass of a class by the names that it extends (JLS 8.1.4), as far as the replies tell it, or the first query that has
/// no reply: what the first of them means, even where that is an interface or not accessible, and `Object` where it means no type
/// or none is written. It takes the time of the answers.
#[tactic(auto, using(crate::proofs::SuperclassSteps::superclass_steps))]
pub fn read_superclass(
    alloc: Global,
    l: &Layout,
    o: &Oracle,
    ty: Scope,
    extends: &[Name],
) -> Result<Scope, Stop<Query<JavaPred>>>
    ensures { Reads (reply_to o.now) (superclass l.now ty (map ids_of extends.now)) result }
{
    match extends {
        [] => Ok(l.object()),
        [name, ..] => read_named_superclass(alloc, l, o, ty, name),
    }
}
