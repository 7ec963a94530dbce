//! The members of a type by its declaration, and their scopes.

ghost use Rattle.std.specs.Prelude.{◌≡◌, map, IfOk};
ghost use Rattle.jv_member.specs.MemberDecls.{own_of};
ghost use Rattle.jv_member.specs.Members.{placed};
ghost use Rattle.jv_member.specs.Own.{no_own};
ghost use Rattle.jv_unit.specs.DeclaredBodies.{blanks_among, member_with};

use crate::body_rules::is_blank;
use jv_layout::Layout;
use jv_member::MemberDecl;
use jv_names::ScopeList;
use jv_tree::{Ident, NameId};
use sg_base::Scope;
use std::alloc::{AllocError, Global};

/// A member that stands for none.
fn no_member<'a>() -> MemberDecl<'a>
    ensures { own_of result ≡ no_own }
{
    MemberDecl::DefaultCtor(Ident {
        at: 0,
        id: NameId(0),
    })
}

/// The member with this scope among members that have these scopes; where none has it, the one that stands for none. It takes time in
/// their number.
pub(crate) fn member_with<'a>(
    member: Scope,
    scopes: &[Scope],
    members: &[MemberDecl<'a>],
) -> MemberDecl<'a>
    ensures { own_of result ≡ member_with member (placed scopes.now (map own_of members.now)) }
{
    let mut rest = scopes;
    let mut left = members;
    while let [scope, more @ ..] = rest {
        match left {
            [] => return no_member(),
            [own, others @ ..] => {
                if member == *scope {
                    return *own;
                }
                rest = more;
                left = others;
            }
        }
    }
    no_member()
}

/// The blank fields among members that have these scopes. It takes time in their number.
pub(crate) fn blanks_among(
    alloc: Global,
    l: &Layout,
    scopes: &[Scope],
    members: &[MemberDecl<'_>],
) -> Result<ScopeList, AllocError>
    ensures { IfOk result (λ bs. bs ≡ blanks_among l.now (placed scopes.now (map own_of members.now))) }
{
    let mut found = ScopeList::empty(alloc);
    let mut rest = scopes;
    let mut left = members;
    while let [scope, more @ ..] = rest {
        match left {
            [] => return Ok(found),
            [own, others @ ..] => {
                if is_blank(l, *scope, own) {
                    found.push(*scope)?;
                }
                rest = more;
                left = others;
            }
        }
    }
    Ok(found)
}
