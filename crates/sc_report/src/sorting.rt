ghost use Rattle.std.specs.Prelude.{map};
ghost use Rattle.jv_diag.specs.Plain.{diag_of};
ghost use Rattle.sc_report.specs.Report.{AreSorted};

use jv_diag::Diag;

/// Diagnostics by the order of files, places, codes and texts, each once. It takes no memory, and the time of sorting them.
pub fn sorted_diags(diags: Vec<Diag>) -> Vec<Diag>
    ensures { AreSorted (map diag_of diags.items) (map diag_of result.items) }
{
    let mut sorted = diags;
    sorted.sort_unstable();
    sorted.dedup();
    sorted
}
