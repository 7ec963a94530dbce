//! The lines of members.

ghost use Rattle.std.specs.Prelude.{◌≡◌, ◌++◌, IfOk, OnOk, option_copied, codes};
ghost use Rattle.std.specs.List.{flat_map};
ghost use Rattle.std.specs.String.{string_bytes};
ghost use Rattle.jv_layout.specs.Folder.{text_of};
ghost use Rattle.jv_layout.specs.Titles.{type_text};
ghost use Rattle.sc_listing.specs.Graph.{constructor_line, field_line, member_line, method_line, params_text, said_of, types_text};
ghost use Rattle.sc_listing.specs.Listed.{listed_of};

use crate::edges::{datum_of, has_edge};
use crate::listed::Listed;
use jv_instance::{JavaDatum, Ty, labels};
use jv_layout::text_of;
use sg_base::{Graph, Scope};
use std::alloc::{AllocError, Global};

/// Adds the printed name of a type.
fn push_type_text(
    alloc: Global,
    w: &Listed<'_>,
    text: &mut String,
    ty: Ty,
) -> Result<(), AllocError>
    ensures { OnOk result (string_bytes text.new ≡ string_bytes text.old ++ type_text w.now.layout.now w.now.names.now ty) }
{
    let written = w.layout.type_text(alloc, w.names, ty)?;
    text.push_str(written.as_str())
}

/// Adds a comma and a printed name for each type.
fn push_further(
    alloc: Global,
    w: &Listed<'_>,
    text: &mut String,
    types: &[Ty],
) -> Result<(), AllocError>
    ensures { OnOk result (string_bytes text.new ≡ string_bytes text.old ++ flat_map (λ t. codes "," ++ type_text w.now.layout.now w.now.names.now t) types.now) }
{
    for ty in types {
        text.push_str(",")?;
        push_type_text(alloc, w, text, *ty)?;
    }
    Ok(())
}

/// Adds the printed names of types, with commas between them.
fn push_types(
    alloc: Global,
    w: &Listed<'_>,
    text: &mut String,
    types: &[Ty],
) -> Result<(), AllocError>
    ensures { OnOk result (string_bytes text.new ≡ string_bytes text.old ++ types_text (listed_of w.now) types.now) }
{
    match types.split_first() {
        None => Ok(()),
        Some((first, rest)) => {
            push_type_text(alloc, w, text, *first)?;
            push_further(alloc, w, text, rest)
        }
    }
}

/// Adds the printed names of parameters, in parentheses.
fn push_params(
    alloc: Global,
    w: &Listed<'_>,
    text: &mut String,
    types: &[Ty],
) -> Result<(), AllocError>
    ensures { OnOk result (string_bytes text.new ≡ string_bytes text.old ++ params_text (listed_of w.now) types.now) }
{
    text.push_str("(")?;
    push_types(alloc, w, text, types)?;
    text.push_str(")")
}

/// Adds the line of a field, by its signature.
fn push_field(
    alloc: Global,
    w: &Listed<'_>,
    text: &mut String,
    datum: &JavaDatum,
) -> Result<(), AllocError>
    ensures { OnOk result (string_bytes text.new ≡ string_bytes text.old ++ field_line (listed_of w.now) datum.now) }
{
    match datum {
        JavaDatum::Signature {
            name,
            result: ty,
            ..
        } => {
            text.push_str("field ")?;
            text.push_str(text_of(w.names, *name))?;
            text.push_str(" ")?;
            push_type_text(alloc, w, text, *ty)?;
            text.push_str("\n")
        }
        JavaDatum::Package { .. } => Ok(()),
        JavaDatum::TypeName { .. } => Ok(()),
        JavaDatum::Member { .. } => Ok(()),
    }
}

/// Adds the line of a method, by its signature.
fn push_method(
    alloc: Global,
    w: &Listed<'_>,
    text: &mut String,
    datum: &JavaDatum,
) -> Result<(), AllocError>
    ensures { OnOk result (string_bytes text.new ≡ string_bytes text.old ++ method_line (listed_of w.now) datum.now) }
{
    match datum {
        JavaDatum::Signature {
            name,
            result: ty,
            params,
        } => {
            text.push_str("method ")?;
            text.push_str(text_of(w.names, *name))?;
            push_params(alloc, w, text, params.as_slice())?;
            text.push_str(" ")?;
            push_type_text(alloc, w, text, *ty)?;
            text.push_str("\n")
        }
        JavaDatum::Package { .. } => Ok(()),
        JavaDatum::TypeName { .. } => Ok(()),
        JavaDatum::Member { .. } => Ok(()),
    }
}

/// Adds the line of a constructor, by its signature.
fn push_constructor(
    alloc: Global,
    w: &Listed<'_>,
    text: &mut String,
    datum: &JavaDatum,
) -> Result<(), AllocError>
    ensures { OnOk result (string_bytes text.new ≡ string_bytes text.old ++ constructor_line (listed_of w.now) datum.now) }
{
    match datum {
        JavaDatum::Signature { params, .. } => {
            text.push_str("constructor")?;
            push_params(alloc, w, text, params.as_slice())?;
            text.push_str("\n")
        }
        JavaDatum::Package { .. } => Ok(()),
        JavaDatum::TypeName { .. } => Ok(()),
        JavaDatum::Member { .. } => Ok(()),
    }
}

/// Adds the line of a member of a type by the datum of its signature, where an edge leads to the member. It takes look-ups
/// and the time of the line.
pub(crate) fn push_member(
    alloc: Global,
    w: &Listed<'_>,
    graph: &Graph<JavaDatum>,
    text: &mut String,
    ty: Scope,
    member: Scope,
) -> Result<(), AllocError>
    ensures { OnOk result (string_bytes text.new ≡ string_bytes text.old ++ member_line (listed_of w.now) graph.now ty member) }
{
    let Some(datum) = datum_of(graph, w.layout.signature_scope(member)) else {
        return Ok(());
    };
    if has_edge(graph, ty, labels::FIELD, member) {
        push_field(alloc, w, text, datum)
    } else if has_edge(graph, ty, labels::METH, member) {
        push_method(alloc, w, text, datum)
    } else if has_edge(graph, ty, labels::CTOR, member) {
        push_constructor(alloc, w, text, datum)
    } else {
        Ok(())
    }
}
