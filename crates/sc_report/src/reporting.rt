ghost use Rattle.std.specs.Prelude.{◌≡◌, ◌<◌, ◌≤◌, ◌^◌, length, map, IfOk};
ghost use Rattle.std.specs.List.{All};
ghost use Rattle.jv_diag.specs.Plain.{diag_of};
ghost use Rattle.sc_io.specs.SourceFile.{sources_of};
ghost use Rattle.sc_report.specs.Report.{report_text};

use crate::lines::lines;
use jv_diag::{Diag, last_line};
use sc_io::SourceFile;
use std::alloc::{AllocError, Global};

/// The text of a report on files that declare so many types: a line for each diagnostic, and the last line. The numbers of files
/// count the prelude's two before these. It takes time and memory linear in the lines; where the diagnostics are sorted, each source
/// is walked once.
pub fn report_text(
    alloc: Global,
    files: &[SourceFile],
    diags: &[Diag],
    types: u32,
) -> Result<Vec<u8>, AllocError>
    requires few { length files.now < 2 ^ 31 }
    requires each { All (λ f. length f.bytes ≤ 1048576) (sources_of files.now) }
    ensures { IfOk result (λ text. text.items ≡ report_text (sources_of files.now) (map diag_of diags.now) types) }
{
    let mut text = lines(alloc, files, diags)?;
    let last = last_line(alloc, diags.len() as u64, files.len() as u32, types)?;
    text.extend_from_slice(last.as_slice())?;
    Ok(text)
}
