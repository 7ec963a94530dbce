ghost use Rattle.std.specs.Prelude.{◌≡◌, ◌≢◌, ◌≤◌, Err, OnOk, OnErr};
ghost use Rattle.sc_io.specs.Faults.{HasRisen, risen};

use crate::fault::SinkFault;
use crate::sink::Sink;
use std::io::{self, ErrorKind};
use std::marker::Model;

/// The standard output. Contracts see it as the count of its faults, which stands still at
/// `u64::MAX`.
///
/// Nothing is kept back: a piece that was put has been handed to the system.
#[derive(Drop)]
pub struct StdSink<R> {
    rt: R,
    faults: u64,
}

impl<R> Model for StdSink<R> {
    ghost use Rattle.std.specs.Prelude.{ℕ};

    ghost Value = { ℕ };

    ghost view = { λ s. s.faults };
}

impl<R: Print + Drop> StdSink<R> {
    /// The standard output of this runtime. Takes no memory, and writes nothing yet.
    pub fn new(rt: R) -> StdSink<R>
        ensures { result ≡ 0 }
    {
        StdSink { rt, faults: 0 }
    }
}

impl<R: Print + Drop> Sink for StdSink<R> {
    ghost use Rattle.std.specs.Prelude.{None};

    ghost written = { λ _. None };

    ghost faults = { λ s. s };

    /// A write that takes nothing of what is left is a fault, as is whatever the system refuses: a
    /// full device, a closed pipe. Costs the length of the piece, and takes no memory.
    fn put(&mut self, piece: &[u8]) -> Result<(), SinkFault>
        ensures count { self.old ≤ self.new }
        ensures ok { OnOk result (self.new ≡ self.old) }
        ensures err { OnErr result (self.new ≡ risen self.old) }
        ensures failed { result ≡ Err SinkFault.Failed → HasRisen self.old self.new }
        ensures no_memory { result ≢ Err SinkFault.OutOfMemory }
    {
        if write_whole(&self.rt, piece).is_err() {
            self.faults = self.faults.saturating_add(1);
            return Err(SinkFault::Failed);
        }
        Ok(())
    }
}

/// Writes the piece, again and again where a signal cuts a write short.
fn write_whole<R: Print>(rt: &R, piece: &[u8]) -> io::Result<()> {
    let mut rest = piece;
    for _ in 0..u64::MAX {
        if rest.is_empty() {
            return Ok(());
        }
        match rt.write_some(rest) {
            Ok(0) => return Err(io::Error::from(ErrorKind::WriteZero)),
            Ok(count) => rest = &rest[count..],
            Err(error) if error.kind() == ErrorKind::Interrupted => {}
            Err(error) => return Err(error),
        }
    }
    Err(io::Error::from(ErrorKind::Interrupted))
}
