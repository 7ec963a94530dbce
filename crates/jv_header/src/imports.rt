//! The imports of a file.

ghost use Rattle.std.specs.Prelude.{◌≡◌, cond, not, ◌&&◌, ◌==◌, ◌||◌, ◌++◌, [], ◌∷◌, ◌<◌, ◌^◌, map, IfOk, OnOk, Some, MatchResult};
ghost use Rattle.std.specs.List.{list_any};
ghost use Rattle.std.specs.HashMap.{get_by};
ghost use Rattle.sg_reading.specs.Reading.{each};
ghost use Rattle.sg_reading.specs.Stop.{Reads, IsKnown};
ghost use Rattle.sg_reading.specs.declared.stop.Stop.TheVariants.{OutOfMemory};
ghost use Rattle.jv_diag.specs.declared.codes.TheConstants.{IMPORT_CLASHES_WITH_IMPORT, IMPORT_CLASHES_WITH_TYPE};
ghost use Rattle.jv_diag.specs.Plain.{diagnostic, fault_if};
ghost use Rattle.jv_diag.specs.Text.{takes};
ghost use Rattle.jv_tree.specs.DeclTree.{import_tree, tree_of, type_decl_tree};
ghost use Rattle.jv_names.specs.Reference.{access_diags, refused};
ghost use Rattle.jv_names.specs.Replies.{reply_to};
ghost use Rattle.jv_names.specs.Written.{start_of, written};
ghost use Rattle.jv_header.specs.Clashes.{AreBrought, AreNamesOf, is_other};
ghost use Rattle.jv_header.specs.Imports.{at_import, declares, is_own, import_reference, imports_from, imports_rule, no_imports, with_import, with_meaning, with_single};
ghost use Rattle.jv_header.specs.ImportsProgress.{AreImportsSoFar, ReadsMeanings};
ghost use Rattle.jv_header.specs.Progress.{with_found};
ghost use Rattle.jv_header.specs.Results.{GivesOrLacksMemory};

use crate::clashes::{bring, is_own, is_taken, own_names};
use crate::file_imports::FileImports;
use crate::imports_progress::ImportsProgress;
use crate::references::References;
use jv_diag::{DiagList, codes};
use jv_instance::JavaPred;
use jv_layout::{Layout, text_of};
use jv_names::{
    Meaning, Oracle, Reference, ScopeList, Spot, last_name, read_import, read_type_accessible,
    start_of, written,
};
use jv_tree::{Ident, Import, NameId, Names, Unit};
use sg_base::Scope;
use sg_query::Query;
use sg_reading::{Known, Stop};
use std::alloc::{AllocError, Global};
use std::collections::{HashMap, HashSet};

// ---- what imports mean

/// Some scopes and one more.
fn with_scope(mut scopes: ScopeList, scope: Scope) -> Result<ScopeList, Stop<Query<JavaPred>>>
    ensures { MatchResult result (λ r. r ≡ scopes ++ scope ∷ []) (λ stop. stop ≡ OutOfMemory) }
{
    scopes.push(scope)?;
    Ok(scopes)
}

/// The types that are not accessible at the place.
#[tactic(auto, using(crate::proofs::Steps::header_steps))]
fn read_refused(
    alloc: Global,
    l: &Layout,
    o: &Oracle,
    spot: &Spot,
    types: &[Scope],
) -> Result<ScopeList, Stop<Query<JavaPred>>>
    requires { spot.now.file < 2 ^ 31 }
    ensures { Reads (reply_to o.now) (refused l.now spot.now.file spot.now.inside.items [] types.now) result }
{
    let mut refused = ScopeList::empty(alloc);
    for ty in types {
        if !read_type_accessible(l, o, spot, *ty)? {
            refused = with_scope(refused, *ty)?;
        }
    }
    Ok(refused)
}

/// What an import means, or the first query that has no reply.
#[tactic(auto, using(crate::proofs::Steps::header_steps))]
fn read_import_reference(
    alloc: Global,
    l: &Layout,
    o: &Oracle,
    file: u32,
    import: &Import,
) -> Result<Reference, Stop<Query<JavaPred>>>
    requires { file < 2 ^ 31 }
    ensures { Reads (reply_to o.now) (import_reference l.now file (import_tree import.now)) result }
{
    let resolved = read_import(alloc, l, o, import)?;
    let spot = Spot {
        file,
        inside: Vec::new(alloc),
    };
    let refused = read_refused(alloc, l, o, &spot, resolved.types.as_slice())?;
    Ok(Reference {
        meaning: resolved.meaning,
        refused,
    })
}

/// What the imports of a file mean, behind those found so far, or the first query that has no reply. Where it stops, those before
/// the import at which it stopped stay found.
#[tactic(auto, using(crate::proofs::ImportsSoFar::import_steps))]
fn read_import_references(
    alloc: Global,
    l: &Layout,
    o: &Oracle,
    file: u32,
    imports: &[Import],
    found: &mut References,
) -> Result<(), Stop<Query<JavaPred>>>
    requires few { file < 2 ^ 31 }
    requires so_far { AreImportsSoFar (reply_to o.now) l.now file (map import_tree imports.now) (record { found = found.old }) }
    ensures reads { Reads (reply_to o.now) (each (import_reference l.now file) (map import_tree imports.now)) (with_found result found.new) }
    ensures so_far { AreImportsSoFar (reply_to o.now) l.now file (map import_tree imports.now) (record { found = found.new }) }
{
    while found.len() < imports.len() {
        let import = &imports[found.len()];
        let reference = read_import_reference(alloc, l, o, file, import)?;
        found.push(reference)?;
    }
    Ok(())
}

// ---- what they give

/// Adds a code with the last identifier of a name at its first token.
fn add_at_import(
    alloc: Global,
    diags: &mut DiagList,
    names: &Names,
    file: u32,
    code: u8,
    ids: &[Ident],
) -> Result<(), AllocError>
    requires { takes code ≡ Some 1 }
    ensures { OnOk result (diags.new ≡ diags.old ++ at_import names.now file code ids.now ∷ []) }
{
    diags.add(
        alloc,
        file,
        start_of(ids),
        code,
        &[text_of(names, last_name(ids))],
    )
}

/// Adds the diagnostic of each type that is not accessible.
fn add_access(
    alloc: Global,
    diags: &mut DiagList,
    l: &Layout,
    names: &Names,
    file: u32,
    ids: &[Ident],
    types: &[Scope],
) -> Result<(), AllocError>
    ensures { OnOk result (diags.new ≡ diags.old ++ access_diags l.now names.now file ids.now types.now) }
{
    for ty in types {
        let title = l.title(alloc, names, *ty)?;
        diags.add(
            alloc,
            file,
            start_of(ids),
            codes::INACCESSIBLE_TYPE,
            &[title.as_str()],
        )?;
    }
    Ok(())
}

/// Adds the diagnostics of a single import that clashes.
fn add_clashes(
    alloc: Global,
    diags: &mut DiagList,
    names: &Names,
    file: u32,
    ids: &[Ident],
    hides_own: bool,
    taken: bool,
) -> Result<(), AllocError>
    ensures { OnOk result (diags.new ≡ diags.old ++ (fault_if hides_own (at_import names.now file IMPORT_CLASHES_WITH_TYPE ids.now) ++ fault_if taken (at_import names.now file IMPORT_CLASHES_WITH_IMPORT ids.now))) }
{
    if hides_own {
        add_at_import(
            alloc,
            diags,
            names,
            file,
            codes::IMPORT_CLASHES_WITH_TYPE,
            ids,
        )?;
    }
    if taken {
        add_at_import(
            alloc,
            diags,
            names,
            file,
            codes::IMPORT_CLASHES_WITH_IMPORT,
            ids,
        )?;
    }
    Ok(())
}

/// Brings a type under its name unless it clashes.
fn bring_unless(
    brought: &mut HashMap<NameId, Scope>,
    singles: &mut Vec<(NameId, Scope)>,
    name: NameId,
    s: Scope,
    hides_own: bool,
    taken: bool,
) -> Result<(), AllocError>
    requires before { AreBrought (λ n. get_by (λ k. n.0 == k.0) brought.old) singles.old.items }
    requires taken { taken ≡ is_other (get_by (λ k. name.0 == k.0) brought.old) s }
    ensures singles { OnOk result (singles.new.items ≡ cond (hides_own || taken) singles.old.items (singles.old.items ++ (name, s) ∷ [])) }
    ensures after { OnOk result (AreBrought (λ n. get_by (λ k. n.0 == k.0) brought.new) singles.new.items) }
{
    if hides_own || taken {
        return Ok(());
    }
    bring(brought, singles, name, s)
}

/// Whether a type of the file has the name of another type that is imported.
fn hides_own(
    l: &Layout,
    file: u32,
    unit: &Unit,
    own: &HashSet<NameId>,
    name: NameId,
    s: Scope,
) -> bool
    requires own { AreNamesOf (λ n. list_any (λ k. n.0 == k.0) own.now.keys) (map type_decl_tree unit.now.types.items) }
    ensures { result ≡ (declares (map type_decl_tree unit.now.types.items) name && not (is_own l.now file s)) }
{
    own.contains(&name) && !is_own(l, file, s)
}

/// Adds a single import of a type: it clashes with a type of the file, or with an earlier import, or it stands.
fn add_single(
    alloc: Global,
    l: &Layout,
    names: &Names,
    file: u32,
    unit: &Unit,
    own: &HashSet<NameId>,
    brought: &mut HashMap<NameId, Scope>,
    w: &mut FileImports,
    ids: &[Ident],
    s: Scope,
) -> Result<(), AllocError>
    requires own { AreNamesOf (λ n. list_any (λ k. n.0 == k.0) own.now.keys) (map type_decl_tree unit.now.types.items) }
    requires before { AreBrought (λ n. get_by (λ k. n.0 == k.0) brought.old) w.old.singles }
    ensures given { OnOk result (w.new ≡ with_single l.now names.now file (map type_decl_tree unit.now.types.items) w.old ids.now s) }
    ensures after { OnOk result (AreBrought (λ n. get_by (λ k. n.0 == k.0) brought.new) w.new.singles) }
{
    let name = last_name(ids);
    let hides_own = hides_own(l, file, unit, own, name, s);
    let taken = is_taken(brought, name, s);
    add_clashes(alloc, &mut w.diags, names, file, ids, hides_own, taken)?;
    bring_unless(brought, &mut w.singles, name, s, hides_own, taken)
}

/// Adds the diagnostic of a name with a text at its first token.
pub(crate) fn add_written(
    alloc: Global,
    diags: &mut DiagList,
    names: &Names,
    file: u32,
    code: u8,
    ids: &[Ident],
) -> Result<(), AllocError>
    requires { takes code ≡ Some 1 }
    ensures { OnOk result (diags.new ≡ diags.old ++ diagnostic file (start_of ids.now) code (written names.now ids.now ∷ []) ∷ []) }
{
    let text = written(alloc, names, ids)?;
    diags.add(alloc, file, start_of(ids), code, &[text.as_str()])
}

/// Adds an import by what it means. A static one gives no edge, and clashes with nothing.
fn add_meaning(
    alloc: Global,
    l: &Layout,
    names: &Names,
    file: u32,
    unit: &Unit,
    own: &HashSet<NameId>,
    brought: &mut HashMap<NameId, Scope>,
    w: &mut FileImports,
    import: &Import,
    meaning: Meaning,
) -> Result<(), AllocError>
    requires own { AreNamesOf (λ n. list_any (λ k. n.0 == k.0) own.now.keys) (map type_decl_tree unit.now.types.items) }
    requires before { AreBrought (λ n. get_by (λ k. n.0 == k.0) brought.old) w.old.singles }
    ensures given { OnOk result (w.new ≡ with_meaning l.now names.now file (map type_decl_tree unit.now.types.items) w.old (import_tree import.now) meaning) }
    ensures after { OnOk result (AreBrought (λ n. get_by (λ k. n.0 == k.0) brought.new) w.new.singles) }
{
    let ids = import.name.ids.as_slice();
    match meaning {
        Meaning::One(s) => {
            if import.is_static {
                Ok(())
            } else if import.all {
                w.on_demand.push(s)
            } else {
                add_single(alloc, l, names, file, unit, own, brought, w, ids, s)
            }
        }
        Meaning::TooMany => add_written(
            alloc,
            &mut w.diags,
            names,
            file,
            codes::TOO_MANY_PATHS,
            ids,
        ),
        _ => add_written(alloc, &mut w.diags, names, file, codes::UNKNOWN_IMPORT, ids),
    }
}

/// Adds an import: the access of its types, and what it means.
fn add_import(
    alloc: Global,
    l: &Layout,
    names: &Names,
    file: u32,
    unit: &Unit,
    own: &HashSet<NameId>,
    brought: &mut HashMap<NameId, Scope>,
    w: &mut FileImports,
    import: &Import,
    reference: &Reference,
) -> Result<(), AllocError>
    requires own { AreNamesOf (λ n. list_any (λ k. n.0 == k.0) own.now.keys) (map type_decl_tree unit.now.types.items) }
    requires before { AreBrought (λ n. get_by (λ k. n.0 == k.0) brought.old) w.old.singles }
    ensures given { OnOk result (w.new ≡ with_import l.now names.now file (map type_decl_tree unit.now.types.items) w.old (import_tree import.now) reference.now) }
    ensures after { OnOk result (AreBrought (λ n. get_by (λ k. n.0 == k.0) brought.new) w.new.singles) }
{
    let ids = import.name.ids.as_slice();
    add_access(
        alloc,
        &mut w.diags,
        l,
        names,
        file,
        ids,
        reference.refused.as_slice(),
    )?;
    add_meaning(
        alloc,
        l,
        names,
        file,
        unit,
        own,
        brought,
        w,
        import,
        reference.meaning,
    )
}

/// What the imports of a file give, by what they mean.
fn imports_by(
    alloc: Global,
    l: &Layout,
    names: &Names,
    file: u32,
    unit: &Unit,
    found: &[Reference],
) -> Result<FileImports, AllocError>
    ensures { IfOk result (λ w. w ≡ imports_from l.now names.now file (map type_decl_tree unit.now.types.items) no_imports (map import_tree unit.now.imports.items) found.now) }
{
    let own = own_names(alloc, unit.types.as_slice())?;
    let mut brought = HashMap::new(alloc);
    let mut w = FileImports::empty(alloc);
    let imports = unit.imports.as_slice();
    for i in 0..imports.len().min(found.len()) {
        add_import(
            alloc,
            l,
            names,
            file,
            unit,
            &own,
            &mut brought,
            &mut w,
            &imports[i],
            &found[i],
        )?;
    }
    Ok(w)
}

/// The same, where want of memory is a stop.
fn found_imports(
    alloc: Global,
    l: &Layout,
    names: &Names,
    file: u32,
    unit: &Unit,
    found: &[Reference],
) -> Result<FileImports, Stop<Query<JavaPred>>>
    ensures { GivesOrLacksMemory result (imports_from l.now names.now file (map type_decl_tree unit.now.types.items) no_imports (map import_tree unit.now.imports.items) found.now) }
{
    Ok(imports_by(alloc, l, names, file, unit, found)?)
}

/// Reads what the imports of a file mean as far as the replies tell it, or gives the first query that has no reply. It goes on with the
/// first import that was not read so far, and the progress keeps how far it came, whatever the result. Where all were read, it takes
/// constant time.
pub fn read_meanings(
    alloc: Global,
    l: &Layout,
    o: &Oracle,
    file: u32,
    unit: &Unit,
    progress: &mut ImportsProgress,
) -> Result<(), Stop<Query<JavaPred>>>
    requires few { file < 2 ^ 31 }
    requires so_far { AreImportsSoFar (reply_to o.now) l.now file (map import_tree unit.now.imports.items) progress.old }
    ensures reads { ReadsMeanings (reply_to o.now) l.now file (map import_tree unit.now.imports.items) result progress.new }
    ensures so_far { AreImportsSoFar (reply_to o.now) l.now file (map import_tree unit.now.imports.items) progress.new }
{
    let imports = unit.imports.as_slice();
    read_import_references(alloc, l, o, file, imports, &mut progress.found)
}

/// What the imports of a file give as far as the replies tell it, or the first query that has no reply. It goes on with the first
/// import that was not read so far, and the progress keeps how far it came, whatever the result. All calls with one progress take
/// the time of the imports, each of which starts again alone where a reply is missing; and where all are read, each call takes that
/// of the names of the file's top-level types, and of the texts.
#[tactic(auto, using(crate::proofs::ImportsSoFar::imports_progress_steps))]
pub fn read_imports(
    alloc: Global,
    l: &Layout,
    names: &Names,
    o: &Oracle,
    file: u32,
    unit: &Unit,
    progress: &mut ImportsProgress,
) -> Result<FileImports, Stop<Query<JavaPred>>>
    requires few { file < 2 ^ 31 }
    requires so_far { AreImportsSoFar (reply_to o.now) l.now file (map import_tree unit.now.imports.items) progress.old }
    ensures reads { Reads (reply_to o.now) (imports_rule l.now names.now file (tree_of unit.now)) result }
    ensures so_far { AreImportsSoFar (reply_to o.now) l.now file (map import_tree unit.now.imports.items) progress.new }
{
    let imports = unit.imports.as_slice();
    read_import_references(alloc, l, o, file, imports, &mut progress.found)?;
    found_imports(alloc, l, names, file, unit, progress.found.as_slice())
}

/// What the imports of a file give (JLS 7.5.1, 7.5.2): each single import brings a type under its name, unless it clashes with
/// another type of that name in the file or from an earlier import, and each import on demand a type or a package. Of a static import
/// it is only told what its type's name means; its members are asked for where they are named, or by `read_statics`. Diagnostics
/// stand at the first token of the name. It takes the time of the ends that its answers give, of the names of the file's
/// top-level types, and of the texts.
#[tactic(auto, using(crate::proofs::ImportsSoFar::imports_progress_steps))]
pub fn resolve_imports(
    alloc: Global,
    l: &Layout,
    names: &Names,
    o: &Oracle,
    file: u32,
    unit: &Unit,
) -> Result<Known<FileImports, Query<JavaPred>>, AllocError>
    requires { file < 2 ^ 31 }
    ensures { IfOk result (IsKnown (reply_to o.now) (imports_rule l.now names.now file (tree_of unit.now))) }
{
    let mut progress = ImportsProgress::new(alloc);
    Known::from_found(read_imports(alloc, l, names, o, file, unit, &mut progress))
}
