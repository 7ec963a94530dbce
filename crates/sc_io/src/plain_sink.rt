ghost use Rattle.std.specs.Prelude.{◌≡◌, ◌≢◌, [], ◌++◌, Err, OnOk, OnErr};

use crate::fault::SinkFault;
use crate::sink::Sink;
use std::alloc::Global;
use std::marker::Model;

/// Keeps what is written in memory, and never fails. Contracts see it as the bytes that were
/// written.
#[derive(Drop)]
pub struct PlainSink {
    written: Vec<u8>,
}

impl Model for PlainSink {
    ghost use Rattle.std.specs.Prelude.{List, ℕ};

    ghost Value = { List ℕ };

    ghost view = { λ s. s.written.items };
}

impl PlainSink {
    /// A sink into which nothing was written yet. Takes no memory.
    pub fn new(alloc: Global) -> PlainSink
        ensures { result ≡ [] }
    {
        PlainSink {
            written: Vec::new(alloc),
        }
    }

    /// All that was written. Takes no memory.
    pub fn taken(&self) -> &[u8]
        ensures { result.now ≡ self.now }
    {
        self.written.as_slice()
    }
}

impl Sink for PlainSink {
    ghost use Rattle.std.specs.Prelude.{Some};

    ghost written = { λ s. Some s };

    ghost faults = { λ _. 0 };

    /// Costs the length of the piece. For want of memory nothing is written.
    fn put(&mut self, piece: &[u8]) -> Result<(), SinkFault>
        ensures all { OnOk result (self.new ≡ self.old ++ piece.now) }
        ensures unchanged { OnErr result (self.new ≡ self.old) }
        ensures never_fails { result ≢ Err SinkFault.Failed }
    {
        self.written.extend_from_slice(piece)?;
        Ok(())
    }
}
