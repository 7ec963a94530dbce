//! The members that the single static imports of a file bring.

ghost use Rattle.std.specs.Prelude.{◌≡◌, ◌<◌, ◌^◌, ◌++◌, ◌&&◌, not, true, map, OnOk};
ghost use Rattle.sg_reading.specs.Reading.{and_then, done};
ghost use Rattle.sg_reading.specs.Stop.{Reads};
ghost use Rattle.jv_tree.specs.DeclTree.{import_tree};
ghost use Rattle.jv_names.specs.Replies.{reply_to};
ghost use Rattle.jv_names.specs.Statics.{statics_of_type};
ghost use Rattle.jv_names.specs.Written.{last_name};
ghost use Rattle.jv_names.specs.declared.ends.Ends.TheVariants.{Scopes};
ghost use Rattle.jv_header.specs.Progress.{with_found};
ghost use Rattle.jv_header.specs.Results.{GivesOrLacksMemory};
ghost use Rattle.jv_header.specs.StaticImports.{static_check, static_diags, static_meant, statics_rule};
ghost use Rattle.jv_header.specs.StaticsProgress.{AreStaticsSoFar};

use crate::imports::add_written;
use crate::statics_progress::StaticsProgress;
use jv_diag::{DiagList, codes};
use jv_instance::JavaPred;
use jv_layout::Layout;
use jv_names::{Ends, Meaning, Oracle, last_name, read_import, read_statics_of_type};
use jv_tree::{Ident, Import, Names};
use sg_base::Scope;
use sg_query::Query;
use sg_reading::Stop;
use std::alloc::{AllocError, Global};

/// Whether an import is a single static one.
fn is_single_static(import: &Import) -> bool
    ensures { result ≡ (import.now.is_static && not import.now.all) }
{
    import.is_static && !import.all
}

/// Adds what is said of a name by the members that it brings: something where there is none.
#[tactic(auto, using(crate::proofs::StaticSteps::said_steps))]
fn add_said(
    alloc: Global,
    diags: &mut DiagList,
    names: &Names,
    file: u32,
    ids: &[Ident],
    members: &[Scope],
) -> Result<(), AllocError>
    ensures { OnOk result (diags.new ≡ diags.old ++ static_diags names.now file ids.now (Scopes members.now)) }
{
    match members {
        [] => {
            add_written(alloc, diags, names, file, codes::UNKNOWN_IMPORT, ids)?;
            Ok(())
        }
        [_, ..] => Ok(()),
    }
}

/// What is said of a name by the members that it brings.
fn static_diags(
    alloc: Global,
    names: &Names,
    file: u32,
    ids: &[Ident],
    members: &Ends,
) -> Result<DiagList, Stop<Query<JavaPred>>>
    ensures { GivesOrLacksMemory result (static_diags names.now file ids.now members.now) }
{
    let mut diags = DiagList::empty(alloc);
    match members {
        Ends::TooMany => {
            add_written(alloc, &mut diags, names, file, codes::TOO_MANY_PATHS, ids)?;
            Ok(diags)
        }
        Ends::Scopes(scopes) => {
            add_said(alloc, &mut diags, names, file, ids, scopes.as_slice())?;
            Ok(diags)
        }
    }
}

/// What is said of a single static import whose type is known, or the first query that has no reply.
#[tactic(auto, using(crate::proofs::StaticSteps::brought_steps))]
fn read_brought(
    alloc: Global,
    l: &Layout,
    names: &Names,
    o: &Oracle,
    file: u32,
    ids: &[Ident],
    class: Scope,
) -> Result<DiagList, Stop<Query<JavaPred>>>
    requires { file < 2 ^ 31 }
    ensures { Reads (reply_to o.now) (and_then (statics_of_type l.now file class (last_name ids.now)) (λ e. done (static_diags names.now file ids.now e))) result }
{
    let members = read_statics_of_type(alloc, l, o, file, class, last_name(ids))?;
    static_diags(alloc, names, file, ids, &members)
}

/// What is said of a single static import by what the name of its type means, or the first query that has no reply.
#[tactic(auto, using(crate::proofs::Steps::header_steps))]
fn read_meant(
    alloc: Global,
    l: &Layout,
    names: &Names,
    o: &Oracle,
    file: u32,
    ids: &[Ident],
    meaning: Meaning,
) -> Result<DiagList, Stop<Query<JavaPred>>>
    requires { file < 2 ^ 31 }
    ensures { Reads (reply_to o.now) (static_meant l.now names.now file ids.now meaning) result }
{
    match meaning {
        Meaning::One(class) => read_brought(alloc, l, names, o, file, ids, class),
        Meaning::Nothing | Meaning::Ambiguous | Meaning::TooMany => Ok(DiagList::empty(alloc)),
    }
}

/// What is said of a single static import, or the first query that has no reply.
#[tactic(auto, using(crate::proofs::StaticSteps::check_steps))]
fn read_single_static(
    alloc: Global,
    l: &Layout,
    names: &Names,
    o: &Oracle,
    file: u32,
    import: &Import,
) -> Result<DiagList, Stop<Query<JavaPred>>>
    requires few { file < 2 ^ 31 }
    requires single { (import.now.is_static && not import.now.all) ≡ true }
    ensures { Reads (reply_to o.now) (static_check l.now names.now file (import_tree import.now)) result }
{
    let resolved = read_import(alloc, l, o, import)?;
    let ids = import.name.ids.as_slice();
    read_meant(alloc, l, names, o, file, ids, resolved.meaning)
}

/// What is said of an import by the members that it brings, or the first query that has no reply: something of single static ones
/// alone.
#[tactic(auto, using(crate::proofs::StaticSteps::check_steps))]
fn read_static(
    alloc: Global,
    l: &Layout,
    names: &Names,
    o: &Oracle,
    file: u32,
    import: &Import,
) -> Result<DiagList, Stop<Query<JavaPred>>>
    requires { file < 2 ^ 31 }
    ensures { Reads (reply_to o.now) (static_check l.now names.now file (import_tree import.now)) result }
{
    if is_single_static(import) {
        read_single_static(alloc, l, names, o, file, import)
    } else {
        Ok(DiagList::empty(alloc))
    }
}

/// What is said of the imports that are left, behind what was said so far, or the first query that has no reply. Where it stops, what
/// was said of those before the import at which it stopped stays.
#[tactic(auto, using(crate::proofs::StaticSteps::left_steps))]
fn read_left(
    alloc: Global,
    l: &Layout,
    names: &Names,
    o: &Oracle,
    file: u32,
    imports: &[Import],
    progress: &mut StaticsProgress,
) -> Result<(), Stop<Query<JavaPred>>>
    requires few { file < 2 ^ 31 }
    requires so_far { AreStaticsSoFar (reply_to o.now) l.now names.now file (map import_tree imports.now) progress.old }
    ensures reads { Reads (reply_to o.now) (statics_rule l.now names.now file (map import_tree imports.now)) (with_found result progress.new.diags) }
    ensures so_far { AreStaticsSoFar (reply_to o.now) l.now names.now file (map import_tree imports.now) progress.new }
{
    while progress.count < imports.len() {
        let import = &imports[progress.count];
        let part = read_static(alloc, l, names, o, file, import)?;
        progress.pass(part)?;
    }
    Ok(())
}

/// What is said of the single static imports of a file by the members that they bring (JLS 7.5.3), as far as the replies tell it, or the
/// first query that has no reply: each brings a static member that is accessible from the file, or that is said at the first token of
/// its name; where the name of its type has no meaning, nothing is said here. It goes on with the first import that was not read so
/// far, and the progress keeps how far it came; once all are read, it is as a new one. All calls with one progress take the time of
/// the imports and of the answers, each import starting again alone where a reply is missing.
#[tactic(auto, using(crate::proofs::StaticSteps::statics_steps))]
pub fn read_statics(
    alloc: Global,
    l: &Layout,
    names: &Names,
    o: &Oracle,
    file: u32,
    imports: &[Import],
    progress: &mut StaticsProgress,
) -> Result<DiagList, Stop<Query<JavaPred>>>
    requires few { file < 2 ^ 31 }
    requires so_far { AreStaticsSoFar (reply_to o.now) l.now names.now file (map import_tree imports.now) progress.old }
    ensures reads { Reads (reply_to o.now) (statics_rule l.now names.now file (map import_tree imports.now)) result }
    ensures so_far { AreStaticsSoFar (reply_to o.now) l.now names.now file (map import_tree imports.now) progress.new }
{
    read_left(alloc, l, names, o, file, imports, progress)?;
    Ok(progress.take(alloc))
}
