//! The lines of one checker.

ghost use Rattle.std.specs.Prelude.{◌≡◌, IfOk, map};
ghost use Rattle.std.specs.String.{string_bytes};
ghost use Rattle.sg_unit.specs.Trace.{handed, told};
ghost use Rattle.sc_listing.specs.Answers.{AreAnswerLines};
ghost use Rattle.sc_listing.specs.Heard.{AreTold};
ghost use Rattle.sc_listing.specs.Listed.{listed_of};

use crate::heard::Heard;
use crate::listed::Listed;
use jv_diag::DiagList;
use jv_instance::Java;
use sg_unit::Entry;
use std::alloc::{AllocError, Global};

/// A line for each question of a checker with the answer that it took, as its entries have them.
fn told_lines(
    alloc: Global,
    w: &Listed<'_>,
    mine: &[&Entry<Java, DiagList>],
) -> Result<Vec<String>, AllocError>
    ensures { IfOk result (λ v. AreTold (listed_of w.now) (handed (told (map (λ e. e.now) mine.now))) (map string_bytes v.items)) }
{
    let mut heard = Heard::nothing(alloc);
    for entry in mine {
        heard = heard.after(alloc, w, &entry.op, &entry.reply)?;
    }
    heard.handed(alloc, w)
}

/// The lines of a checker, by its entries: sorted by their bytes, each once. It takes the time of the texts and of sorting them.
pub(crate) fn answer_lines(
    alloc: Global,
    w: &Listed<'_>,
    mine: &[&Entry<Java, DiagList>],
) -> Result<Vec<String>, AllocError>
    ensures { IfOk result (λ v. AreAnswerLines (listed_of w.now) (map (λ e. e.now) mine.now) (map string_bytes v.items)) }
{
    let mut lines = told_lines(alloc, w, mine)?;
    lines.sort_unstable();
    lines.dedup();
    Ok(lines)
}
