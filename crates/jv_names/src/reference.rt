//! A name of a type with its diagnostics.

ghost use Rattle.std.specs.Prelude.{◌≡◌, ◌++◌, [], ◌<◌, ◌^◌, OnOk, OnErr};
ghost use Rattle.sg_reading.specs.Stop.{Reads};
ghost use Rattle.jv_tree.specs.TypeTree.{ids_of};
ghost use Rattle.jv_names.specs.Reference.{refused, reference, meaning_diags, access_diags, reference_diags};
ghost use Rattle.jv_names.specs.Replies.{reply_to};

use crate::access::read_type_accessible;
use crate::meaning::Meaning;
use crate::oracle::Oracle;
use crate::parts::pushed;
use crate::scope_list::ScopeList;
use crate::spot::Spot;
use crate::type_names::read_type;
use crate::writing::{start_of, written};
use jv_diag::{DiagList, codes};
use jv_instance::JavaPred;
use jv_layout::Layout;
use jv_tree::{Ident, Name, Names};
use sg_base::Scope;
use sg_query::Query;
use sg_reading::Stop;
use std::alloc::{AllocError, Global};

/// What a name of a type means, and those of the types that its parts mean which are not accessible at the place, from left to
/// right.
#[derive(Debug, Drop)]
pub struct Reference {
    pub meaning: Meaning,
    pub refused: ScopeList,
}

/// The types that are not accessible at the place.
#[tactic(auto, using(crate::proofs::References::reference_steps))]
fn read_refused(
    alloc: Global,
    l: &Layout,
    o: &Oracle,
    spot: &Spot,
    types: &[Scope],
) -> Result<ScopeList, Stop<Query<JavaPred>>>
    requires { spot.now.file < 2 ^ 31 }
    ensures { Reads (reply_to o.now) (refused l.now spot.now.file spot.now.inside.items [] types.now) result }
{
    let mut refused = ScopeList::empty(alloc);
    for ty in types {
        if !read_type_accessible(l, o, spot, *ty)? {
            refused = pushed(refused, *ty)?;
        }
    }
    Ok(refused)
}

/// A reference to a type as far as the replies tell it: what the name means, and which of its types are not accessible; or the
/// first query that has no reply. It takes the time of the ends that its answers give.
#[tactic(auto, using(crate::proofs::References::reference_steps))]
pub fn read_reference(
    alloc: Global,
    l: &Layout,
    o: &Oracle,
    spot: &Spot,
    name: &Name,
) -> Result<Reference, Stop<Query<JavaPred>>>
    requires { spot.now.file < 2 ^ 31 }
    ensures { Reads (reply_to o.now) (reference l.now spot.now.file spot.now.inside.items (ids_of name.now)) result }
{
    let resolved = read_type(alloc, l, o, spot, name)?;
    let refused = read_refused(alloc, l, o, spot, resolved.types.as_slice())?;
    Ok(Reference {
        meaning: resolved.meaning,
        refused,
    })
}

/// Adds the diagnostic of a name that means no type.
fn add_meaning(
    alloc: Global,
    diags: &mut DiagList,
    names: &Names,
    file: u32,
    ids: &[Ident],
    meaning: Meaning,
) -> Result<(), AllocError>
    ensures ok { OnOk result (diags.new ≡ diags.old ++ meaning_diags names.now file ids.now meaning) }
{
    let code = match meaning {
        Meaning::One(_) => return Ok(()),
        Meaning::Nothing => codes::UNKNOWN_TYPE,
        Meaning::Ambiguous => codes::AMBIGUOUS_TYPE,
        Meaning::TooMany => codes::TOO_MANY_PATHS,
    };
    let text = written(alloc, names, ids)?;
    diags.add(alloc, file, start_of(ids), code, &[text.as_str()])
}

/// Adds the diagnostic of each type that is not accessible.
fn add_refused(
    alloc: Global,
    diags: &mut DiagList,
    l: &Layout,
    names: &Names,
    file: u32,
    ids: &[Ident],
    types: &[Scope],
) -> Result<(), AllocError>
    ensures ok { OnOk result (diags.new ≡ diags.old ++ access_diags l.now names.now file ids.now types.now) }
{
    for ty in types {
        let title = l.title(alloc, names, *ty)?;
        diags.add(
            alloc,
            file,
            start_of(ids),
            codes::INACCESSIBLE_TYPE,
            &[title.as_str()],
        )?;
    }
    Ok(())
}

/// Adds the diagnostics of a reference (JLS 6.5.5, 6.6.1): the name is not found or ambiguous, had too many paths, or some of its
/// types are not accessible. They stand at the name's first token. It takes time in the texts.
pub fn add_reference(
    alloc: Global,
    diags: &mut DiagList,
    l: &Layout,
    names: &Names,
    file: u32,
    ids: &[Ident],
    reference: &Reference,
) -> Result<(), AllocError>
    ensures ok { OnOk result (diags.new ≡ diags.old ++ reference_diags l.now names.now file ids.now reference.now) }
{
    add_meaning(alloc, diags, names, file, ids, reference.meaning)?;
    add_refused(
        alloc,
        diags,
        l,
        names,
        file,
        ids,
        reference.refused.as_slice(),
    )
}
