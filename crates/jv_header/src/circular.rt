//! Headers that wait for one another.

ghost use Rattle.std.specs.Prelude.{◌≡◌, ◌<◌, ◌++◌, ◌^◌, length, map, IfOk};
ghost use Rattle.sg_reading.specs.Stop.{Replied};
ghost use Rattle.jv_diag.specs.Plain.{diag_of};
ghost use Rattle.jv_layout.specs.Readers.{file_of};
ghost use Rattle.jv_names.specs.Bodies.{header_bodies};
ghost use Rattle.jv_names.specs.Replies.{reply_to};
ghost use Rattle.jv_tree.specs.TypeTree.{ids_of};
ghost use Rattle.jv_header.specs.Header.{header_rule};
ghost use Rattle.jv_header.specs.Circular.{is_missing, IsCircular, IsFirstOpen, IsHeaderOpen, IsLeast, IsOpenOrRead, IsOpenStart, NeedsSome, references_of};

use jv_diag::{Diag, codes, diag};
use jv_instance::JavaPred;
use jv_layout::Layout;
use jv_names::{Oracle, Reference, Spot, read_reference, start_of};
use jv_tree::{Name, Names, TypeDecl};
use sg_base::Scope;
use sg_query::Query;
use sg_reading::Known;
use std::alloc::{AllocError, Global};

/// Whether a reply is missing.
fn is_missing(known: &Known<Reference, Query<JavaPred>>) -> bool
    ensures { result ≡ is_missing known.now }
{
    matches!(known, Known::Need(_))
}

/// Whether a reference in the header of a type comes to a query that has no reply.
fn is_open(
    alloc: Global,
    l: &Layout,
    o: &Oracle,
    ty: Scope,
    spot: &Spot,
    name: &Name,
) -> Result<bool, AllocError>
    requires few { spot.now.file < 2 ^ 31 }
    requires file { spot.now.file ≡ file_of l.now ty }
    requires inside { spot.now.inside.items ≡ header_bodies l.now ty }
    ensures { IfOk result (IsOpenOrRead (Replied (reply_to o.now)) l.now ty (ids_of name.now)) }
{
    let known = Known::from_found(read_reference(alloc, l, o, spot, name))?;
    Ok(is_missing(&known))
}

/// The place of the first reference of a clause that comes to a query without a reply.
fn first_open(
    alloc: Global,
    l: &Layout,
    o: &Oracle,
    ty: Scope,
    spot: &Spot,
    clause: &[Name],
) -> Result<Option<usize>, AllocError>
    requires few { spot.now.file < 2 ^ 31 }
    requires file { spot.now.file ≡ file_of l.now ty }
    requires inside { spot.now.inside.items ≡ header_bodies l.now ty }
    ensures { IfOk result (IsFirstOpen (Replied (reply_to o.now)) l.now ty (map ids_of clause.now)) }
{
    for i in 0..clause.len() {
        let open = is_open(alloc, l, o, ty, spot, &clause[i])?;
        if open {
            return Ok(Some(i));
        }
    }
    Ok(None)
}

/// Where the first reference of a header starts that comes to a query without a reply.
fn open_start(
    alloc: Global,
    l: &Layout,
    o: &Oracle,
    decl: &TypeDecl,
    ty: Scope,
) -> Result<u32, AllocError>
    requires waits { IsHeaderOpen (Replied (reply_to o.now)) l.now ty (map ids_of decl.now.extends.items) (map ids_of decl.now.implements.items) }
    ensures { IfOk result (IsOpenStart (Replied (reply_to o.now)) l.now ty (map ids_of decl.now.extends.items ++ map ids_of decl.now.implements.items)) }
{
    let spot = Spot::of_header(alloc, l, ty)?;
    if let Some(i) = first_open(alloc, l, o, ty, &spot, decl.extends.as_slice())? {
        return Ok(start_of(decl.extends[i].ids.as_slice()));
    }
    match first_open(alloc, l, o, ty, &spot, decl.implements.as_slice())? {
        Some(i) => Ok(start_of(decl.implements[i].ids.as_slice())),
        None => unreachable!(),
    }
}

/// The least of some scopes.
fn least(scopes: &[Scope]) -> Scope
    requires { 0 < length scopes.now }
    ensures { IsLeast scopes.now result }
{
    let mut least = scopes[0];
    for i in 1..scopes.len() {
        if scopes[i].cmp(&least).is_lt() {
            least = scopes[i];
        }
    }
    least
}

/// The diagnostic of a header that waits for headers which wait for it: at the first token of the first reference that cannot be
/// read, with the titles of the type and of the least type that it needs. It takes the time of the ends that the answers give,
/// and of the texts.
pub fn circular_line(
    alloc: Global,
    l: &Layout,
    names: &Names,
    o: &Oracle,
    decl: &TypeDecl,
    ty: Scope,
    needed: &[Scope],
) -> Result<Diag, AllocError>
    requires waits { NeedsSome (Replied (reply_to o.now)) (header_rule l.now names.now ty (map ids_of decl.now.extends.items) (map ids_of decl.now.implements.items)) }
    requires some { 0 < length needed.now }
    ensures { IfOk result (λ d. IsCircular (Replied (reply_to o.now)) l.now names.now ty (references_of decl.now) needed.now (diag_of d)) }
{
    let at = open_start(alloc, l, o, decl, ty)?;
    let own = l.title(alloc, names, ty)?;
    let other = l.title(alloc, names, least(needed))?;
    diag(
        alloc,
        l.file_of(ty),
        at,
        codes::WAITING_HEADER,
        &[own.as_str(), other.as_str()],
    )
}
