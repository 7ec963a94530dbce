//! Types that depend on themselves.

ghost use Rattle.std.specs.Prelude.{◌≡◌, ◌++◌, Some, IfOk, MatchResult};
ghost use Rattle.sg_reading.specs.Stop.{Reads, IsKnown};
ghost use Rattle.sg_reading.specs.declared.stop.Stop.TheVariants.{OutOfMemory};
ghost use Rattle.jv_names.specs.declared.kinds.TheConstants.{SUPERS};
ghost use Rattle.jv_names.specs.Replies.{reply_to, for_any};
ghost use Rattle.jv_header.specs.Depends.{with_supertypes, dependence, dependence_diags, depends_rule};
ghost use Rattle.jv_header.specs.RowProgress.{IsDependenceSoFar, IsRowSoFar};
ghost use Rattle.jv_header.specs.Progress.{with_found};
ghost use Rattle.jv_header.specs.Results.{LacksReply};

use crate::begun_dependence::BegunDependence;
use crate::dependence_progress::DependenceProgress;
use jv_diag::{DiagList, codes};
use jv_instance::{JavaDatum, JavaPred};
use jv_layout::{Layout, text_of};
use jv_names::{Counts, Oracle, for_any, has_end, kinds};
use jv_tree::{Ident, Names};
use sg_base::Scope;
use sg_query::{Answer, Query};
use sg_reading::{Known, Stop};
use std::alloc::{AllocError, Global};

/// Whether a type is among its own supertypes, and whether some answer had too many paths to look at.
#[derive(Clone, Copy, Debug, PartialEq, Eq)]
pub struct Dependence {
    pub on_itself: bool,
    pub too_many: bool,
}

/// What was found before, and what the supertypes of one more type tell.
fn with_supertypes(
    l: &Layout,
    ty: Scope,
    before: Dependence,
    answer: &Answer<JavaDatum>,
) -> Dependence
    ensures { result ≡ with_supertypes l.now ty before answer.now }
{
    Dependence {
        on_itself: before.on_itself || has_end(l, Counts::Supertypes, ty, answer),
        too_many: before.too_many || matches!(answer, Answer::TooMany),
    }
}

/// The reply to the query for a type and all its supertypes, or a stop that names it.
fn ask_supertypes(o: &Oracle, ty: Scope) -> Result<&Answer<JavaDatum>, Stop<Query<JavaPred>>>
    ensures { MatchResult result
        (λ answer. reply_to o.now (for_any SUPERS ty) ≡ Some answer.now)
        (λ stop. LacksReply (reply_to o.now) (for_any SUPERS ty) stop) }
{
    o.ask(for_any(kinds::SUPERS, ty))
}

/// What the types of a row that are left tell of a type's dependence, behind those that were read, or the first query that has no
/// reply. Where it stops, those before the type at which it stopped stay read.
#[tactic(auto, using(crate::proofs::RowProgress::row_steps))]
fn read_row(
    l: &Layout,
    o: &Oracle,
    ty: Scope,
    row: &[Scope],
    begun: &mut BegunDependence,
) -> Result<(), Stop<Query<JavaPred>>>
    requires so_far { IsRowSoFar (reply_to o.now) l.now ty row.now begun.old }
    ensures reads { Reads (reply_to o.now) (dependence l.now ty row.now) (with_found result begun.new.found) }
    ensures so_far { IsRowSoFar (reply_to o.now) l.now ty row.now begun.new }
{
    while begun.count < row.len() {
        let above = row[begun.count];
        let answer = ask_supertypes(o, above)?;
        begun.found = with_supertypes(l, ty, begun.found, answer);
        begun.count += 1;
    }
    Ok(())
}

/// A type's dependence by its row, from where the progress says that it came to. The progress keeps how far it came, whatever the
/// result.
#[tactic(auto, using(crate::proofs::RowProgress::row_steps))]
fn read_dependence(
    l: &Layout,
    o: &Oracle,
    ty: Scope,
    row: &[Scope],
    progress: &mut DependenceProgress,
) -> Result<Dependence, Stop<Query<JavaPred>>>
    requires so_far { IsDependenceSoFar (reply_to o.now) l.now ty row.now progress.old }
    ensures reads { Reads (reply_to o.now) (dependence l.now ty row.now) result }
    ensures so_far { IsDependenceSoFar (reply_to o.now) l.now ty row.now progress.new }
{
    let mut begun = progress.begun(ty, row);
    let end = read_row(l, o, ty, row, &mut begun);
    progress.keep(begun);
    match end {
        Ok(()) => Ok(begun.found),
        Err(stop) => Err(stop),
    }
}

/// The diagnostics of a dependence.
fn dependence_diags(
    alloc: Global,
    l: &Layout,
    names: &Names,
    ty: Scope,
    name: Ident,
    found: Dependence,
) -> Result<DiagList, Stop<Query<JavaPred>>>
    ensures { MatchResult result (λ diags. diags ≡ dependence_diags l.now names.now ty name found) (λ stop. stop ≡ OutOfMemory) }
{
    let mut diags = DiagList::empty(alloc);
    let file = l.file_of(ty);
    if found.on_itself {
        let title = l.title(alloc, names, ty)?;
        diags.add(
            alloc,
            file,
            name.at,
            codes::DEPENDS_ON_ITSELF,
            &[title.as_str()],
        )?;
    }
    if found.too_many {
        diags.add(
            alloc,
            file,
            name.at,
            codes::TOO_MANY_PATHS,
            &[text_of(names, name.id)],
        )?;
    }
    Ok(diags)
}

/// The diagnostics of a type's dependence as far as the replies tell it, or the first query that has no reply. It goes on with the
/// first type of the row that was not read so far, and the progress keeps how far it came, whatever the result. All calls with one
/// progress take the time of the supertypes that they look at, each answer's once, and of the diagnostics.
#[tactic(auto, using(crate::proofs::Steps::header_steps))]
pub fn read_depends(
    alloc: Global,
    l: &Layout,
    names: &Names,
    o: &Oracle,
    name: Ident,
    ty: Scope,
    row: &[Scope],
    progress: &mut DependenceProgress,
) -> Result<DiagList, Stop<Query<JavaPred>>>
    requires so_far { IsDependenceSoFar (reply_to o.now) l.now ty row.now progress.old }
    ensures reads { Reads (reply_to o.now) (depends_rule l.now names.now ty name row.now) result }
    ensures so_far { IsDependenceSoFar (reply_to o.now) l.now ty row.now progress.new }
{
    let found = read_dependence(l, o, ty, row, progress)?;
    dependence_diags(alloc, l, names, ty, name, found)
}

/// Whether a type depends on itself (JLS 8.1.4, 9.1.3), by its row: its diagnostics stand at its name. It takes the time of the
/// supertypes that it looks at.
#[tactic(auto, using(crate::proofs::RowProgress::depends_steps))]
pub fn resolve_depends(
    alloc: Global,
    l: &Layout,
    names: &Names,
    o: &Oracle,
    name: Ident,
    ty: Scope,
    row: &[Scope],
) -> Result<Known<DiagList, Query<JavaPred>>, AllocError>
    ensures { IfOk result (IsKnown (reply_to o.now) (depends_rule l.now names.now ty name row.now)) }
{
    let mut progress = DependenceProgress::new();
    Known::from_found(read_depends(alloc, l, names, o, name, ty, row, &mut progress))
}
