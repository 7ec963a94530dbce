ghost use Rattle.std.specs.Prelude.{◌≡◌, ◌≤◌, length, map, IfOk};
ghost use Rattle.std.specs.List.{All, flat_map};
ghost use Rattle.jv_diag.specs.Plain.{diag_of};
ghost use Rattle.sc_io.specs.SourceFile.{sources_of};
ghost use Rattle.sc_report.specs.Report.{line_of_diag};

use crate::file::path_of;
use crate::walk::Walk;
use jv_diag::{Diag, push_line};
use sc_io::SourceFile;
use std::alloc::{AllocError, Global};

/// The lines of diagnostics, one after another. Where they are sorted, each source is walked once.
pub(crate) fn lines(
    alloc: Global,
    files: &[SourceFile],
    diags: &[Diag],
) -> Result<Vec<u8>, AllocError>
    requires each { All (λ f. length f.bytes ≤ 1048576) (sources_of files.now) }
    ensures { IfOk result (λ v. v.items ≡ flat_map (line_of_diag (sources_of files.now)) (map diag_of diags.now)) }
{
    let mut text = Vec::new(alloc);
    let mut walk = Walk::start();
    for d in diags {
        walk = walk.moved_to(files, d);
        push_line(&mut text, path_of(files, d.file), walk.place, d)?;
    }
    Ok(text)
}
