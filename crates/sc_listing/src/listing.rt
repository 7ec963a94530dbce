//! The text of a graph.

ghost use Rattle.std.specs.Prelude.{◌≡◌, ◌+◌, ◌≤◌, ◌^◌, ◌++◌, length, IfOk, OnOk};
ghost use Rattle.std.specs.List.{flat_map};
ghost use Rattle.std.specs.String.{string_bytes};
ghost use Rattle.sc_listing.specs.Graph.{file_lines, graph_text, member_line, target_lines, type_lines};
ghost use Rattle.sc_listing.specs.Listed.{listed_of};

use crate::listed::Listed;
use crate::members::push_member;
use crate::titles::{listed_files, listed_types, push_title};
use jv_instance::{JavaDatum, labels};
use sg_base::{Graph, Label, Scope};
use std::alloc::{AllocError, Global};

/// Adds a line for each scope: a word, and the scope's title.
fn push_targets(
    alloc: Global,
    w: &Listed<'_>,
    text: &mut String,
    word: &str,
    targets: &[Scope],
) -> Result<(), AllocError>
    ensures { OnOk result (string_bytes text.new ≡ string_bytes text.old ++ target_lines (listed_of w.now) word.now targets.now) }
{
    for target in targets {
        text.push_str(word)?;
        push_title(alloc, w, text, *target)?;
        text.push_str("\n")?;
    }
    Ok(())
}

/// Adds the lines of a file.
fn push_file(
    alloc: Global,
    w: &Listed<'_>,
    graph: &Graph<JavaDatum>,
    text: &mut String,
    file: Scope,
) -> Result<(), AllocError>
    ensures { OnOk result (string_bytes text.new ≡ string_bytes text.old ++ file_lines (listed_of w.now) graph.now file) }
{
    text.push_str("file ")?;
    push_title(alloc, w, text, file)?;
    text.push_str("\n")?;
    let named = graph.edges_of(file, Label::new(labels::SIMP));
    push_targets(alloc, w, text, "simp ", named)?;
    let on_demand = graph.edges_of(file, Label::new(labels::ODI));
    push_targets(alloc, w, text, "odi ", on_demand)
}

/// Adds the lines of the members of a type.
fn push_members(
    alloc: Global,
    w: &Listed<'_>,
    graph: &Graph<JavaDatum>,
    text: &mut String,
    ty: Scope,
    members: &[Scope],
) -> Result<(), AllocError>
    ensures { OnOk result (string_bytes text.new ≡ string_bytes text.old ++ flat_map (member_line (listed_of w.now) graph.now ty) members.now) }
{
    for member in members {
        push_member(alloc, w, graph, text, ty, *member)?;
    }
    Ok(())
}

/// Adds the lines of a type.
fn push_type(
    alloc: Global,
    w: &Listed<'_>,
    graph: &Graph<JavaDatum>,
    text: &mut String,
    ty: Scope,
) -> Result<(), AllocError>
    ensures { OnOk result (string_bytes text.new ≡ string_bytes text.old ++ type_lines (listed_of w.now) graph.now ty) }
{
    text.push_str("type ")?;
    push_title(alloc, w, text, ty)?;
    text.push_str("\n")?;
    let above = graph.edges_of(ty, Label::new(labels::EXT));
    push_targets(alloc, w, text, "ext ", above)?;
    push_members(alloc, w, graph, text, ty, w.layout.members(ty))
}

/// Adds the lines of files.
fn push_files(
    alloc: Global,
    w: &Listed<'_>,
    graph: &Graph<JavaDatum>,
    text: &mut String,
    files: &[Scope],
) -> Result<(), AllocError>
    ensures { OnOk result (string_bytes text.new ≡ string_bytes text.old ++ flat_map (file_lines (listed_of w.now) graph.now) files.now) }
{
    for file in files {
        push_file(alloc, w, graph, text, *file)?;
    }
    Ok(())
}

/// Adds the lines of types.
fn push_all_types(
    alloc: Global,
    w: &Listed<'_>,
    graph: &Graph<JavaDatum>,
    text: &mut String,
    types: &[Scope],
) -> Result<(), AllocError>
    ensures { OnOk result (string_bytes text.new ≡ string_bytes text.old ++ flat_map (type_lines (listed_of w.now) graph.now) types.now) }
{
    for ty in types {
        push_type(alloc, w, graph, text, *ty)?;
    }
    Ok(())
}

/// The text of a graph of the scopes of a folder's layout. For each of the folder's own files stands its path, and behind it
/// what it imports, by name and on demand (JLS 7.5); then for each type of these files its title, what it extends and
/// implements, and each of its members to which an edge leads, with its types; and last `end`. Files, types, members and the
/// targets of edges stand in the order of their scopes. A member whose signature is not set has no line.
///
/// The files are at most as many as their numbers have room for. It takes the time of the text, and look-ups for each file,
/// type and member.
pub fn graph_text(
    alloc: Global,
    w: &Listed<'_>,
    graph: &Graph<JavaDatum>,
) -> Result<Vec<u8>, AllocError>
    requires { length w.now.files.now + 2 ≤ 2 ^ 31 }
    ensures { IfOk result (λ v. v.items ≡ graph_text (listed_of w.now) graph.now) }
{
    let mut text = String::new(alloc);
    let files = listed_files(alloc, w)?;
    push_files(alloc, w, graph, &mut text, &files)?;
    let types = listed_types(alloc, w)?;
    push_all_types(alloc, w, graph, &mut text, &types)?;
    text.push_str("end\n")?;
    Ok(text.into_bytes())
}
