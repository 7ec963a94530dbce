//! A walk through sources, from one diagnostic to the next.

ghost use Rattle.std.specs.Prelude.{◌≡◌, ◌≤◌, List, length, min};
ghost use Rattle.std.specs.List.{All};
ghost use Rattle.sc_io.specs.SourceFile.{sources_of};
ghost use Rattle.sc_io.specs.SourceTree.{FileOf};
ghost use Rattle.sc_report.specs.Report.{file_of};
ghost use Rattle.sc_report.specs.Walk.{IsWalkIn};

use crate::file::bytes_of;
use jv_diag::Diag;
use jv_lex::Place;
use sc_io::SourceFile;

/// How far a walk through sources went: the number of the file, and the last place in it.
#[derive(Clone, Copy)]
pub(crate) struct Walk {
    pub(crate) file: u32,
    pub(crate) place: Place,
}

impl Walk {
    /// A walk that is at the start of the first file.
    pub(crate) fn start() -> Walk
        ensures { (fs : List FileOf) → IsWalkIn fs result }
    {
        Walk {
            file: 0,
            place: Place::start(),
        }
    }

    /// Where the walk goes for a diagnostic: on to its place where the file is the same, and else to it from the start of
    /// its file. A place behind the end of the file stands at the end. Takes the time of the bytes between the two places.
    pub(crate) fn moved_to(self, files: &[SourceFile], d: &Diag) -> Walk
        requires each { All (λ f. length f.bytes ≤ 1048576) (sources_of files.now) }
        requires walk { IsWalkIn (sources_of files.now) self }
        ensures file { result.file ≡ d.now.file }
        ensures at { result.place.at ≡ min d.now.at (length (file_of (sources_of files.now) d.now.file).bytes) }
        ensures walk { IsWalkIn (sources_of files.now) result }
    {
        let source = bytes_of(files, d.file);
        let at = d.at.min(source.len() as u32);
        let from = if self.file == d.file {
            self.place
        } else {
            Place::start()
        };
        Walk {
            file: d.file,
            place: from.moved_to(source, at),
        }
    }
}
