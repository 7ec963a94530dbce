//! Questions and their answers as lines.

ghost use Rattle.std.specs.Prelude.{◌≡◌, ◌++◌, IfOk, OnOk, codes, drop};
ghost use Rattle.std.specs.List.{flat_map};
ghost use Rattle.std.specs.String.{string_bytes};
ghost use Rattle.sc_listing.specs.Listed.{listed_of};
ghost use Rattle.sc_listing.specs.Questions.{answer_text, path_text, paths_text, pred_text, question_line, step_text};

use crate::listed::Listed;
use crate::titles::push_title;
use crate::words::{kind_name, label_name};
use jv_instance::{JavaDatum, JavaPred};
use jv_layout::text_of;
use sg_base::{Path, Step};
use sg_query::{Answer, FoundPaths, FoundView, Query};
use std::alloc::{AllocError, Global};

/// Adds what is sought.
fn push_pred(w: &Listed<'_>, text: &mut String, pred: &JavaPred) -> Result<(), AllocError>
    ensures { OnOk result (string_bytes text.new ≡ string_bytes text.old ++ pred_text (listed_of w.now) pred.now) }
{
    match pred {
        JavaPred::Named(name) => text.push_str(text_of(w.names, *name)),
        JavaPred::Any => text.push_str("*"),
    }
}

/// Adds the steps of a path.
fn push_steps(
    alloc: Global,
    w: &Listed<'_>,
    text: &mut String,
    steps: &[Step],
) -> Result<(), AllocError>
    ensures { OnOk result (string_bytes text.new ≡ string_bytes text.old ++ flat_map (step_text (listed_of w.now)) steps.now) }
{
    for step in steps {
        text.push_str(" ")?;
        text.push_str(label_name(step.label.number()))?;
        text.push_str(" ")?;
        push_title(alloc, w, text, step.to)?;
    }
    Ok(())
}

/// Adds a path.
fn push_path(
    alloc: Global,
    w: &Listed<'_>,
    text: &mut String,
    path: &Path,
) -> Result<(), AllocError>
    ensures { OnOk result (string_bytes text.new ≡ string_bytes text.old ++ path_text (listed_of w.now) path.now) }
{
    push_title(alloc, w, text, path.start())?;
    push_steps(alloc, w, text, path.steps())
}

/// Adds a path that was found, of which it makes one of its own.
fn push_found(
    alloc: Global,
    w: &Listed<'_>,
    text: &mut String,
    found: &FoundView<'_, JavaDatum>,
) -> Result<(), AllocError>
    ensures { OnOk result (string_bytes text.new ≡ string_bytes text.old ++ path_text (listed_of w.now) found.now.path) }
{
    let path = found.path.path(alloc)?;
    push_path(alloc, w, text, &path)
}

/// Adds a semicolon, a blank and a path for each path that was found behind the first.
fn push_further(
    alloc: Global,
    w: &Listed<'_>,
    text: &mut String,
    found: &FoundPaths<JavaDatum>,
) -> Result<(), AllocError>
    ensures { OnOk result (string_bytes text.new ≡ string_bytes text.old ++ flat_map (λ f. codes "; " ++ path_text (listed_of w.now) f.path) (drop 1 found.now)) }
{
    for k in 1..found.len() {
        let one = found.at(k);
        text.push_str("; ")?;
        push_found(alloc, w, text, &one)?;
    }
    Ok(())
}

/// Adds the paths that were found.
fn push_paths(
    alloc: Global,
    w: &Listed<'_>,
    text: &mut String,
    found: &FoundPaths<JavaDatum>,
) -> Result<(), AllocError>
    ensures { OnOk result (string_bytes text.new ≡ string_bytes text.old ++ paths_text (listed_of w.now) found.now) }
{
    if found.len() == 0 {
        return text.push_str("-");
    }
    let first = found.at(0);
    push_found(alloc, w, text, &first)?;
    push_further(alloc, w, text, found)
}

/// Adds an answer.
fn push_answer(
    alloc: Global,
    w: &Listed<'_>,
    text: &mut String,
    answer: &Answer<JavaDatum>,
) -> Result<(), AllocError>
    ensures { OnOk result (string_bytes text.new ≡ string_bytes text.old ++ answer_text (listed_of w.now) answer.now) }
{
    match answer {
        Answer::Paths(paths) => push_paths(alloc, w, text, paths),
        Answer::TooMany => text.push_str("*"),
    }
}

/// The line of a question and its answer, without its end.
pub(crate) fn question_line(
    alloc: Global,
    w: &Listed<'_>,
    query: &Query<JavaPred>,
    answer: &Answer<JavaDatum>,
) -> Result<String, AllocError>
    ensures { IfOk result (λ s. string_bytes s ≡ question_line (listed_of w.now) query.now answer.now) }
{
    let mut text = String::from_str(alloc, kind_name(query.kind))?;
    text.push_str(" ")?;
    push_title(alloc, w, &mut text, query.start)?;
    text.push_str(" ")?;
    push_pred(w, &mut text, &query.pred)?;
    text.push_str(": ")?;
    push_answer(alloc, w, &mut text, answer)?;
    Ok(text)
}
