//! The files by the numbers that diagnostics give.

ghost use Rattle.std.specs.Prelude.{◌≡◌, ◌≤◌, ◌-◌, length};
ghost use Rattle.std.specs.List.{All};
ghost use Rattle.sc_io.specs.SourceFile.{sources_of};
ghost use Rattle.sc_report.specs.Report.{file_of};

use sc_io::SourceFile;

/// The index among the files of the folder, before which the prelude's two are numbered.
fn index_of(file: u32) -> usize
    ensures { result ≡ file - 2 }
{
    file.saturating_sub(2) as usize
}

/// The path of the file with this number, in constant time; the empty one where there is no such file.
pub(crate) fn path_of(files: &[SourceFile], file: u32) -> &str
    ensures { result.now ≡ (file_of (sources_of files.now) file).path }
{
    match files.get(index_of(file)) {
        Some(f) => f.path.as_str(),
        None => "",
    }
}

/// The bytes of the file with this number, in constant time; none where there is no such file.
pub(crate) fn bytes_of(files: &[SourceFile], file: u32) -> &[u8]
    requires { All (λ f. length f.bytes ≤ 1048576) (sources_of files.now) }
    ensures bytes { result.now ≡ (file_of (sources_of files.now) file).bytes }
    ensures few { length result.now ≤ 1048576 }
{
    match files.get(index_of(file)) {
        Some(f) => f.bytes.as_slice(),
        None => &[],
    }
}
