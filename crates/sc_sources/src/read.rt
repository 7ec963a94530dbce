ghost use Rattle.std.specs.Prelude.{◌≡◌, ◌∷◌, [], IfOk};
ghost use Rattle.sc_io.specs.SourceFile.{sources_of};
ghost use Rattle.sc_sources.specs.Read.{AreWithinLimits, IsReadOf};
ghost use Rattle.sc_sources.specs.Reading.{IsReading};
ghost use Rattle.sc_sources.specs.Sources.{object_source, string_source};

use crate::reading::{Reading, read_behind};
use crate::sources::Sources;
use jv_layout::prelude;
use sc_io::SourceFile;
use std::alloc::{AllocError, Global};
use std::thread::Threads;

/// Reads the sources of a folder: at most 4,096 files of at most 1 MiB each, and of at most 4 MiB together. All of them are
/// looked at, whatever faults they have. It takes time and memory linear in the sources, as is expected of a hash.
pub fn read_sources(alloc: Global, files: &[SourceFile]) -> Result<Sources, AllocError>
    requires { AreWithinLimits (sources_of files.now) }
    ensures { IfOk result (IsReadOf (sources_of files.now)) }
{
    let mut reading = Reading::new(alloc);
    reading.add(alloc, object_source())?;
    reading.add(alloc, string_source())?;
    for file in files {
        reading.add(alloc, &file.bytes)?;
    }
    Ok(reading.finish())
}

/// How many bytes a thread reads at least, so that it is worth its start.
const LEAST_SHARE: usize = 1 << 15;

/// Reads the sources of a folder as `read_sources` does, by at most so many threads.
pub fn read_in_threads<R: Threads + Sync>(
    rt: &R,
    alloc: Global,
    files: &[SourceFile],
    workers: u32,
) -> Result<Sources, AllocError>
    requires { AreWithinLimits (sources_of files.now) }
    ensures { IfOk result (IsReadOf (sources_of files.now)) }
{
    let busy = busy_threads(files, workers);
    if busy < 2 {
        return read_sources(alloc, files);
    }
    let prelude = of_prelude(alloc)?;
    Ok(read_behind(rt, alloc, prelude, files, busy)?.finish())
}

/// How many of so many threads have enough to read.
fn busy_threads(files: &[SourceFile], workers: u32) -> u32 {
    let mut shares = 0u32;
    let mut bytes = 0usize;
    for i in 0..files.len() {
        bytes = bytes.saturating_add(files[i].bytes.len());
        if bytes >= LEAST_SHARE {
            bytes = 0;
            shares = shares.saturating_add(1);
        }
    }
    shares.min(workers)
}

/// What the sources of the prelude have come to.
fn of_prelude(alloc: Global) -> Result<Reading, AllocError>
    ensures { IfOk result (IsReading (object_source ∷ string_source ∷ [])) }
{
    let mut reading = Reading::new(alloc);
    reading.add(alloc, object_source())?;
    reading.add(alloc, string_source())?;
    Ok(reading)
}

/// The bytes of the prelude's first file.
fn object_source() -> &'static [u8]
    ensures { result.now ≡ object_source }
{
    prelude::OBJECT.as_bytes()
}

/// The bytes of the prelude's second file.
fn string_source() -> &'static [u8]
    ensures { result.now ≡ string_source }
{
    prelude::STRING.as_bytes()
}
