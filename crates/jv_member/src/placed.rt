//! Members with their scopes.

ghost use Rattle.std.specs.Prelude.{◌≡◌, map, IfOk};
ghost use Rattle.jv_member.specs.Members.{placed};
ghost use Rattle.jv_member.specs.MemberDecls.{own_of};
ghost use Rattle.jv_member.specs.Placed.{placed_of};

use crate::member_decl::MemberDecl;
use sg_base::Scope;
use std::alloc::{AllocError, Global};

/// A member of a type as its declaration has it, with its scope.
#[derive(Clone, Copy)]
pub struct PlacedDecl<'a> {
    pub scope: Scope,
    pub member: MemberDecl<'a>,
}

/// Members with their scopes, as many as there are of both. It takes time in their number.
pub fn put_in_place<'a>(
    alloc: Global,
    scopes: &[Scope],
    members: &[MemberDecl<'a>],
) -> Result<Vec<PlacedDecl<'a>>, AllocError>
    ensures { IfOk result (λ found. map placed_of found.items ≡ placed scopes.now (map own_of members.now)) }
{
    let mut found = Vec::new(alloc);
    let mut rest = scopes;
    let mut left = members;
    while let [scope, more @ ..] = rest {
        match left {
            [] => return Ok(found),
            [member, others @ ..] => {
                found.push(PlacedDecl {
                    scope: *scope,
                    member: *member,
                })?;
                rest = more;
                left = others;
            }
        }
    }
    Ok(found)
}
