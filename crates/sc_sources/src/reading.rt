//! What the sources so far have come to.

ghost use Rattle.std.specs.Prelude.{◌≡◌, ℕ, ◌+◌, ◌<◌, ◌≤◌, List, [], ◌∷◌, ◌++◌, length, map, IfOk, OnOk};
ghost use Rattle.sc_io.specs.SourceTree.{FileOf};
ghost use Rattle.sc_sources.specs.Read.{AreWithinLimits, IsReadOf};
ghost use Rattle.sc_sources.specs.Sources.{object_source, string_source};
ghost use Rattle.sc_sources.specs.Reading.{IsReading};
ghost use Rattle.sc_sources.specs.Threads.{AreNamed, bytes_of};
ghost use Rattle.sc_io.specs.SourceFile.{sources_of};

use crate::growing::{Grown, grow_all, joined};
use crate::lexing::lex_all;
use crate::naming::{Named, name_all};
use crate::source_read::{SourceRead, read_source};
use crate::sources::Sources;
use jv_diag::DiagList;
use jv_tree::{Names, Unit};
use sc_io::SourceFile;
use std::alloc::{AllocError, Global};
use std::thread::Threads;

/// The names of the sources so far, the trees and the faults that they came to, and how many they are.
#[derive(Drop)]
pub(crate) struct Reading {
    names: Names,
    units: Vec<Unit>,
    faults: DiagList,
    files: u32,
}

impl Reading {
    /// No source so far.
    pub(crate) fn new(alloc: Global) -> Reading
        ensures { IsReading [] result }
    {
        Reading {
            names: Names::new(alloc),
            units: Vec::new(alloc),
            faults: DiagList::empty(alloc),
            files: 0,
        }
    }

    /// Reads one source more, of at most 1 MiB, with the names of those before it. It takes time and memory linear in the
    /// source, as is expected of a hash.
    pub(crate) fn add(&mut self, alloc: Global, source: &[u8]) -> Result<(), AllocError>
        requires size { length source.now ≤ 1048576 }
        requires room { length self.old.names + length source.now < u32.MAX }
        requires files { self.old.files < u32.MAX }
        ensures { OnOk result ((sources : List (List ℕ)) → IsReading sources self.old → IsReading (sources ++ source.now ∷ []) self.new) }
    {
        match read_source(alloc, source, &mut self.names)? {
            SourceRead::Tree(unit) => self.units.push(unit)?,
            SourceRead::Fault { at, code } => self.faults.add(alloc, self.files, at, code, &[])?,
        }
        self.files += 1;
        Ok(())
    }

    /// What the sources of the prelude and of a folder have come to.
    pub(crate) fn finish(self) -> Sources
        ensures { (fs : List FileOf) → AreWithinLimits fs → IsReading (object_source ∷ string_source ∷ map (λ f. f.bytes) fs) self → IsReadOf fs result }
    {
        if self.faults.as_slice().is_empty() {
            Sources::Trees {
                names: self.names,
                units: self.units,
            }
        } else {
            Sources::Faults(self.faults)
        }
    }
}

/// What the sources so far, and files behind them, have come to. The files are read by so many threads, but their names are numbered one
/// after another.
pub(crate) fn read_behind<R: Threads + Sync>(
    rt: &R,
    alloc: Global,
    reading: Reading,
    files: &[SourceFile],
    workers: u32,
) -> Result<Reading, AllocError>
    requires within { AreWithinLimits (sources_of files.now) }
    requires room { length reading.names ≤ 1000 }
    requires files { reading.files ≤ 1000 }
    ensures { IfOk result (λ r. (sources : List (List ℕ)) → IsReading sources reading → IsReading (sources ++ bytes_of files.now) r) }
{
    let Reading {
        names,
        units,
        faults,
        files: count,
    } = reading;
    let mut names = names;
    let named = list_all(rt, alloc, files, workers, &mut names)?;
    let grown = grow_all(rt, alloc, count, named, workers)?;
    let Grown { units, faults } = joined(Grown { units, faults }, grown)?;
    Ok(Reading {
        names,
        units,
        faults,
        files: count + files.len() as u32,
    })
}

/// The terminals of files, whose tokens so many threads find, with the names so far. The tokens are let go.
fn list_all<R: Threads + Sync>(
    rt: &R,
    alloc: Global,
    files: &[SourceFile],
    workers: u32,
    names: &mut Names,
) -> Result<Vec<Named>, AllocError>
    requires within { AreWithinLimits (sources_of files.now) }
    requires room { length names.old ≤ 1000 }
    ensures { IfOk result (λ v. AreNamed names.old (bytes_of files.now) names.new v.items) }
{
    let lexed = lex_all(rt, alloc, files, workers)?;
    name_all(alloc, files, &lexed, names)
}
