//! The static members that a file's static imports bring.

ghost use Rattle.std.specs.Prelude.{◌≡◌, ◌<◌, ◌^◌, [], fold, IfOk, MatchResult};
ghost use Rattle.std.specs.List.{filter};
ghost use Rattle.sg_base.specs.List.{IsRising};
ghost use Rattle.sg_base.specs.Scope.{scope_cmp};
ghost use Rattle.sg_reading.specs.Stop.{Reads, IsKnown};
ghost use Rattle.sg_reading.specs.declared.stop.Stop.TheVariants.{OutOfMemory};
ghost use Rattle.sg_state.specs.Held.{put};
ghost use Rattle.jv_tree.specs.DeclTree.{import_tree};
ghost use Rattle.jv_names.specs.Replies.{reply_to};
ghost use Rattle.jv_names.specs.Statics.{kind_members, is_brought, brought_of, kind_brought, together, brought_by, import_brings, is_asked, static_members, statics_of_type};

use crate::counting::opens_to;
use crate::counts::Counts;
use crate::ends::Ends;
use crate::imports::read_import;
use crate::kinds;
use crate::meaning::Meaning;
use crate::members::{find_ends, read_methods};
use crate::oracle::Oracle;
use crate::queries::for_name;
use crate::replacing::kept_with;
use crate::static_kind::StaticKind;
use crate::writing::last_name;
use jv_instance::JavaPred;
use jv_layout::Layout;
use jv_tree::{Import, NameId};
use sg_base::{Scope, ScopeSet};
use sg_query::Query;
use sg_reading::{Known, Stop};
use std::alloc::{AllocError, Global};

// ---- one type

/// The members of a name in a type.
fn read_kind_members(
    alloc: Global,
    l: &Layout,
    o: &Oracle,
    which: StaticKind,
    class: Scope,
    name: NameId,
) -> Result<Ends, Stop<Query<JavaPred>>>
    ensures { Reads (reply_to o.now) (kind_members l.now which class name) result }
{
    match which {
        StaticKind::Types => find_ends(
            alloc,
            l,
            o,
            Counts::MemberTypes,
            for_name(kinds::MEMTYPE, class, name),
        ),
        StaticKind::Fields => find_ends(
            alloc,
            l,
            o,
            Counts::Fields,
            for_name(kinds::FIELDS, class, name),
        ),
        StaticKind::Methods => read_methods(alloc, l, o, class, name),
    }
}

/// Whether a file's static imports bring a member.
fn is_brought(l: &Layout, file: u32, member: Scope) -> bool
    requires { file < 2 ^ 31 }
    ensures { result ≡ is_brought l.now file member }
{
    let home = l.package_of(l.file_scope(file));
    l.is_static(member) && opens_to(l, l.access(member), home, member)
}

/// Those of some members that a file's static imports bring, in rising order.
#[tactic(auto, using(crate::proofs::Brought::by_test))]
fn brought_among(
    alloc: Global,
    l: &Layout,
    file: u32,
    members: &[Scope],
) -> Result<ScopeSet, Stop<Query<JavaPred>>>
    requires { file < 2 ^ 31 }
    ensures { MatchResult result
        (λ brought. brought ≡ fold (put scope_cmp) [] (filter (is_brought l.now file) members.now))
        (λ stop. stop ≡ OutOfMemory) }
{
    let mut brought = ScopeSet::new(alloc);
    for member in members {
        brought = kept_with(brought, !is_brought(l, file, *member), *member)?;
    }
    Ok(brought)
}

/// The same, where there are not too many paths.
fn brought_of(
    alloc: Global,
    l: &Layout,
    file: u32,
    ends: Ends,
) -> Result<Ends, Stop<Query<JavaPred>>>
    requires { file < 2 ^ 31 }
    ensures { MatchResult result (λ brought. brought ≡ brought_of l.now file ends) (λ stop. stop ≡ OutOfMemory) }
{
    match ends {
        Ends::TooMany => Ok(Ends::TooMany),
        Ends::Scopes(members) => {
            let brought = brought_among(alloc, l, file, members.as_slice())?;
            Ok(Ends::Scopes(brought))
        }
    }
}

/// The members of a name that one type has, as far as they are brought.
#[tactic(auto, using(crate::proofs::StaticSteps::static_steps))]
fn read_kind_brought(
    alloc: Global,
    l: &Layout,
    o: &Oracle,
    file: u32,
    which: StaticKind,
    class: Scope,
    name: NameId,
) -> Result<Ends, Stop<Query<JavaPred>>>
    requires { file < 2 ^ 31 }
    ensures { Reads (reply_to o.now) (kind_brought l.now file which class name) result }
{
    let ends = read_kind_members(alloc, l, o, which, class, name)?;
    let brought = brought_of(alloc, l, file, ends)?;
    Ok(brought)
}

// ---- the imports of a file

/// These scopes and some more, in rising order.
fn with_all(found: ScopeSet, more: &[Scope]) -> Result<ScopeSet, Stop<Query<JavaPred>>>
    requires { IsRising scope_cmp found }
    ensures { MatchResult result (λ scopes. scopes ≡ fold (put scope_cmp) found more.now) (λ stop. stop ≡ OutOfMemory) }
{
    let mut scopes = found;
    for scope in more {
        scopes = kept_with(scopes, false, *scope)?;
    }
    Ok(scopes)
}

/// What two imports bring.
fn together(first: Ends, second: Ends) -> Result<Ends, Stop<Query<JavaPred>>>
    ensures { MatchResult result (λ ends. ends ≡ together first second) (λ stop. stop ≡ OutOfMemory) }
{
    match first {
        Ends::TooMany => Ok(Ends::TooMany),
        Ends::Scopes(found) => match second {
            Ends::TooMany => Ok(Ends::TooMany),
            Ends::Scopes(more) => {
                // The slice tells that the scopes rise.
                let _rising = found.as_slice();
                let scopes = with_all(found, more.as_slice())?;
                Ok(Ends::Scopes(scopes))
            }
        },
    }
}

/// What an import brings, by what its name means.
#[tactic(auto, using(crate::proofs::StaticSteps::static_steps))]
fn read_brought_by(
    alloc: Global,
    l: &Layout,
    o: &Oracle,
    file: u32,
    which: StaticKind,
    name: NameId,
    meaning: Meaning,
) -> Result<Ends, Stop<Query<JavaPred>>>
    requires { file < 2 ^ 31 }
    ensures { Reads (reply_to o.now) (brought_by l.now file which name meaning) result }
{
    match meaning {
        Meaning::One(class) => read_kind_brought(alloc, l, o, file, which, class, name),
        Meaning::Nothing => Ok(Ends::Scopes(ScopeSet::new(alloc))),
        Meaning::Ambiguous => Ok(Ends::Scopes(ScopeSet::new(alloc))),
        Meaning::TooMany => Ok(Ends::TooMany),
    }
}

/// The members of a name that an import brings.
#[tactic(auto, using(crate::proofs::StaticSteps::static_steps))]
fn read_import_brings(
    alloc: Global,
    l: &Layout,
    o: &Oracle,
    file: u32,
    which: StaticKind,
    name: NameId,
    import: &Import,
) -> Result<Ends, Stop<Query<JavaPred>>>
    requires { file < 2 ^ 31 }
    ensures { Reads (reply_to o.now) (import_brings l.now file which name (import_tree import.now)) result }
{
    let resolved = read_import(alloc, l, o, import)?;
    read_brought_by(alloc, l, o, file, which, name, resolved.meaning)
}

/// Whether a static import is asked for a name.
fn is_asked(all: bool, name: NameId, import: &Import) -> bool
    ensures { result ≡ is_asked all name (import_tree import.now) }
{
    if all {
        import.all
    } else {
        !import.all && last_name(&import.name.ids) == name
    }
}

/// The static members of a name that the static imports of a file bring, in rising order and each once, as far as the replies tell
/// them, or the first query that has no reply.
#[tactic(auto, using(crate::proofs::StaticSteps::static_steps))]
pub fn read_static_members(
    alloc: Global,
    l: &Layout,
    o: &Oracle,
    file: u32,
    all: bool,
    which: StaticKind,
    name: NameId,
) -> Result<Ends, Stop<Query<JavaPred>>>
    requires { file < 2 ^ 31 }
    ensures { Reads (reply_to o.now) (static_members l.now file all which name) result }
{
    let imports = l.static_imports(file);
    let mut found = Ends::Scopes(ScopeSet::new(alloc));
    for import in imports {
        if is_asked(all, name, import) {
            let brought = read_import_brings(alloc, l, o, file, which, name, import)?;
            found = together(found, brought)?;
        }
    }
    Ok(found)
}

/// All that one type brings of a name into a file, its types, fields and methods, as far as the replies tell it, or the first
/// query that has no reply: too many paths in one answer do not end it. It takes the time of the ends that its answers give.
#[tactic(auto, using(crate::proofs::StaticSteps::static_steps))]
pub fn read_statics_of_type(
    alloc: Global,
    l: &Layout,
    o: &Oracle,
    file: u32,
    class: Scope,
    name: NameId,
) -> Result<Ends, Stop<Query<JavaPred>>>
    requires { file < 2 ^ 31 }
    ensures { Reads (reply_to o.now) (statics_of_type l.now file class name) result }
{
    let types = read_kind_brought(alloc, l, o, file, StaticKind::Types, class, name)?;
    let fields = read_kind_brought(alloc, l, o, file, StaticKind::Fields, class, name)?;
    let methods = read_kind_brought(alloc, l, o, file, StaticKind::Methods, class, name)?;
    let some = together(types, fields)?;
    let ends = together(some, methods)?;
    Ok(ends)
}

/// The static members of a name that the static imports of a file bring (JLS 7.5.3, 7.5.4), in rising order and each once: those
/// of its static imports on demand, or those of its single static imports of this name. A static import means a type, and brings
/// the static members of it that are public, or that are of protected or package access in the package of the file. Where one of
/// the answers has too many paths, there are too many; the answers behind it are read all the same. It takes time in the
/// static imports of the file, and that of the ends that its answers give.
#[tactic(auto, using(crate::proofs::StaticSteps::static_steps))]
pub fn static_members(
    alloc: Global,
    l: &Layout,
    o: &Oracle,
    file: u32,
    all: bool,
    which: StaticKind,
    name: NameId,
) -> Result<Known<Ends, Query<JavaPred>>, AllocError>
    requires { file < 2 ^ 31 }
    ensures { IfOk result (IsKnown (reply_to o.now) (static_members l.now file all which name)) }
{
    Known::from_found(read_static_members(alloc, l, o, file, all, which, name))
}
