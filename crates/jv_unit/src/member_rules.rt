//! What the unit of a type reads and writes of its members.

ghost use Rattle.std.specs.Prelude.{◌≡◌, ◌<◌, ◌^◌, [], ◌∷◌, length, MatchResult, slice_index_or};
ghost use Rattle.sg_reading.specs.Stop.{Reads};
ghost use Rattle.sg_reading.specs.declared.stop.Stop.TheVariants.{OutOfMemory};
ghost use Rattle.sg_script.specs.declared.write.Write.TheVariants.{SetDatum};
ghost use Rattle.jv_layout.specs.Readers.{members_of_type};
ghost use Rattle.jv_layout.specs.Scopes.{member_scope};
ghost use Rattle.jv_names.specs.Replies.{reply_to};
ghost use Rattle.jv_unit.specs.Kept.{folder_of, IsWhole};
ghost use Rattle.jv_unit.specs.Plans.{member_signature, signature_stage};

use crate::folder::Folder;
use jv_instance::{JavaDatum, JavaPred};
use jv_layout::Place;
use jv_member::{Signature, read_signature};
use jv_names::Oracle;
use sg_base::Scope;
use sg_query::Query;
use sg_reading::Stop;
use sg_script::{Write, Writes};
use std::alloc::Global;

/// How many members a type has.
#[tactic(auto, using(crate::proofs::OwnMembers::member_facts))]
pub(crate) fn member_count(w: &Folder, t: u32) -> usize
    requires whole { IsWhole w.now }
    requires within { t < length w.now.layout.types }
    ensures count { result ≡ length (members_of_type w.now.layout t) }
    ensures few { result < 2 ^ 31 }
{
    w.layout().members(w.ty(t)).len()
}

/// The scope of a member of a type, by its place among them.
#[tactic(auto, using(crate::proofs::OwnMembers::member_facts))]
pub(crate) fn member_at(w: &Folder, t: u32, place: usize) -> Scope
    requires whole { IsWhole w.now }
    requires within { t < length w.now.layout.types }
    requires place { place < length (members_of_type w.now.layout t) }
    ensures { result ≡ member_scope w.now.layout (slice_index_or (members_of_type w.now.layout t) place 0) }
{
    w.layout().members(w.ty(t))[place]
}

/// The number of a member of a type, by its place among them.
#[tactic(auto, using(crate::proofs::OwnMembers::member_facts))]
pub(crate) fn member_number(w: &Folder, t: u32, place: usize) -> u32
    requires whole { IsWhole w.now }
    requires within { t < length w.now.layout.types }
    requires place { place < length (members_of_type w.now.layout t) }
    ensures number { result ≡ slice_index_or (members_of_type w.now.layout t) place 0 }
    ensures within { result < length w.now.layout.members }
{
    match w.layout().place(member_at(w, t, place)) {
        Place::Member(m) => m,
        _ => unreachable!(),
    }
}

/// The signature of a member as far as the replies tell it, or the first query that has no reply.
pub(crate) fn read_member(
    alloc: Global,
    w: &Folder,
    o: &Oracle,
    t: u32,
    m: u32,
) -> Result<Signature, Stop<Query<JavaPred>>>
    requires whole { IsWhole w.now }
    requires ty { t < length w.now.layout.types }
    requires member { m < length w.now.layout.members }
    ensures { Reads (reply_to o.now) (member_signature (folder_of w.now) t m) result }
{
    let decl = w.decl(t);
    let member = w.member(m);
    read_signature(
        alloc,
        w.layout(),
        w.names(),
        o,
        w.ty(t),
        decl.name.id,
        &member,
    )
}

/// The write of one datum.
fn datum_writes(
    alloc: Global,
    scope: Scope,
    datum: JavaDatum,
) -> Result<Writes<JavaDatum>, Stop<Query<JavaPred>>>
    ensures { MatchResult result (λ ws. ws ≡ SetDatum scope datum ∷ []) (λ stop. stop ≡ OutOfMemory) }
{
    let mut writes = Writes::new(alloc);
    writes.push(Write::SetDatum { scope, datum })?;
    Ok(writes)
}

/// The signature of a member, by its place among those of its type, as a write.
#[tactic(auto, using(crate::proofs::OwnMembers::member_facts))]
pub(crate) fn read_datum(
    alloc: Global,
    w: &Folder,
    o: &Oracle,
    t: u32,
    place: usize,
) -> Result<Writes<JavaDatum>, Stop<Query<JavaPred>>>
    requires whole { IsWhole w.now }
    requires within { t < length w.now.layout.types }
    requires place { place < length (members_of_type w.now.layout t) }
    ensures { Reads (reply_to o.now) (signature_stage (folder_of w.now) t (slice_index_or (members_of_type w.now.layout t) place 0)).rule result }
{
    let signature = read_member(alloc, w, o, t, member_number(w, t, place))?;
    let scope = w.layout().signature_scope(member_at(w, t, place));
    datum_writes(alloc, scope, signature.datum)
}
