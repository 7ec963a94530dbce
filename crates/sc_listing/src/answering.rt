//! The text of the answers that checkers took.

ghost use Rattle.std.specs.Prelude.{◌≡◌, ◌+◌, ◌<◌, ◌≤◌, ◌^◌, ◌++◌, codes, length, All, IfOk, OnOk, map};
ghost use Rattle.std.specs.List.{flat_map};
ghost use Rattle.std.specs.String.{string_bytes};
ghost use Rattle.sc_listing.specs.Answers.{unit_of, AddsUnit, AddsUnits, IsAnswersText};
ghost use Rattle.sc_listing.specs.ByUnit.{entries_at};
ghost use Rattle.sc_listing.specs.Listed.{listed_of};

use crate::answer_lines::answer_lines;
use crate::by_unit::{by_unit, unit_count, unit_of};
use crate::listed::Listed;
use crate::titles::{listed_files, listed_types, push_title};
use jv_diag::DiagList;
use jv_instance::Java;
use sg_base::Scope;
use sg_unit::Entry;
use std::alloc::{AllocError, Global};

/// Adds lines with their ends.
fn push_lines(text: &mut String, lines: &[String]) -> Result<(), AllocError>
    ensures { OnOk result (string_bytes text.new ≡ string_bytes text.old ++ flat_map (λ line. line ++ codes "\n") (map string_bytes lines.now)) }
{
    for line in lines {
        text.push_str(line.as_str())?;
        text.push_str("\n")?;
    }
    Ok(())
}

/// Adds the title of a file or a type and the lines of the unit that checks it, by the unit's entries.
fn push_unit(
    alloc: Global,
    w: &Listed<'_>,
    text: &mut String,
    s: Scope,
    mine: &[&Entry<Java, DiagList>],
) -> Result<(), AllocError>
    ensures { OnOk result (AddsUnit (listed_of w.now) s (map (λ e. e.now) mine.now) (string_bytes text.old) (string_bytes text.new)) }
{
    let lines = answer_lines(alloc, w, mine)?;
    text.push_str("unit ")?;
    push_title(alloc, w, text, s)?;
    text.push_str("\n")?;
    push_lines(text, &lines)
}

/// Adds the texts of the units that check files or types, by the entries of each unit.
fn push_units(
    alloc: Global,
    w: &Listed<'_>,
    text: &mut String,
    scopes: &[Scope],
    entries: &[Vec<&Entry<Java, DiagList>>],
) -> Result<(), AllocError>
    requires { All (λ s. unit_of w.now.layout.now s < length entries.now) scopes.now }
    ensures { OnOk result (AddsUnits (listed_of w.now) (entries_at (map (λ v. map (λ e. e.now) v.items) entries.now)) scopes.now (string_bytes text.old)
        (string_bytes text.new)) }
{
    for s in scopes {
        let mine = &entries[unit_of(w.layout, *s) as usize];
        push_unit(alloc, w, text, *s, mine)?;
    }
    Ok(())
}

/// The text of the answers that the checkers of a folder took, by the log of their run. For each unit of the folder, first of its
/// own files and then of the types in these, stands its path or title, and behind it a line for each question that it asked
/// with the answer that it was told, in the order of the lines' bytes, each once; and last `end`. A line has the name of the
/// kind, the title of the start, the name that is sought or `*`, and the answer: `-` for no path, `*` for too many, and else the
/// paths.
///
/// The files are at most as many as their numbers have room for. It takes one pass over the log, the time of the text, and
/// the sorting of the lines of each unit.
pub fn answers_text(
    alloc: Global,
    w: &Listed<'_>,
    log: &[Entry<Java, DiagList>],
) -> Result<Vec<u8>, AllocError>
    requires { length w.now.files.now + 2 ≤ 2 ^ 31 }
    ensures { IfOk result (λ v. IsAnswersText (listed_of w.now) log.now v.items) }
{
    let entries = by_unit(alloc, unit_count(w), log)?;
    let mut text = String::new(alloc);
    let files = listed_files(alloc, w)?;
    push_units(alloc, w, &mut text, &files, &entries)?;
    let types = listed_types(alloc, w)?;
    push_units(alloc, w, &mut text, &types, &entries)?;
    text.push_str("end\n")?;
    Ok(text.into_bytes())
}
