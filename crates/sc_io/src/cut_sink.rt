ghost use Rattle.std.specs.Prelude.{◌≡◌, ◌≤◌, ℕ, [], ◌++◌, take, Err, OnOk, OnErr, None, Some};
ghost use Rattle.sc_io.specs.CutSink.{cut_at, cut_with};
ghost use Rattle.sc_io.specs.Faults.{HasRisen, risen};
ghost use Rattle.sc_io.specs.Sink.{AddsFront};

use crate::fault::SinkFault;
use crate::sink::Sink;
use std::alloc::Global;
use std::marker::Model;

/// Keeps what is written in memory. Chosen puts take a front of their piece, and then fail.
///
/// The puts are numbered from 0 in the order in which they are made, but for those that find no memory. Numbers and counts stand still
/// at `u64::MAX`. A put costs the length of its piece, and a search through the cuts.
#[derive(Drop)]
pub struct CutSink {
    written: Vec<u8>,
    cuts: Vec<(u64, u64)>,
    puts: u64,
    faults: u64,
}

impl Model for CutSink {
    ghost use Rattle.sc_io.specs.CutSink.{CutSinkOf};

    ghost Value = { CutSinkOf };

    ghost view = { λ s. record { written = s.written.items; cuts = s.cuts.items; puts = s.puts; faults = s.faults } };
}

impl CutSink {
    /// A sink with these cuts: the put whose number is the first of a pair takes at most as many bytes as the second says, and then
    /// fails. The others take all. Takes no memory.
    pub fn new(alloc: Global, cuts: Vec<(u64, u64)>) -> CutSink
        ensures { result ≡ record { written = []; cuts = cuts.items; puts = 0; faults = 0 } }
    {
        CutSink {
            written: Vec::new(alloc),
            cuts,
            puts: 0,
            faults: 0,
        }
    }

    /// All that was written. Takes no memory.
    pub fn taken(&self) -> &[u8]
        ensures { result.now ≡ self.now.written }
    {
        self.written.as_slice()
    }
}

impl Sink for CutSink {
    ghost use Rattle.std.specs.Prelude.{Some};

    ghost written = { λ s. Some s.written };

    ghost faults = { λ s. s.faults };

    fn put(&mut self, piece: &[u8]) -> Result<(), SinkFault>
        ensures count { self.old.faults ≤ self.new.faults }
        ensures all { OnOk result ((cut_at self.old.cuts self.old.puts ≡ None)
            × (self.new ≡ record self.old { written = self.old.written ++ piece.now; puts = risen self.old.puts })) }
        ensures cut { result ≡ Err SinkFault.Failed → (most : ℕ) × (cut_at self.old.cuts self.old.puts ≡ Some most)
            × (self.new ≡ cut_with self.old (take most piece.now)) }
        ensures unchanged { result ≡ Err SinkFault.OutOfMemory → self.new ≡ self.old }
        ensures front { OnErr result
            (AddsFront (Some self.old.written) piece.now (Some self.new.written)) }
        ensures failed { result ≡ Err SinkFault.Failed → HasRisen self.old.faults self.new.faults }
    {
        match cut_at(self.cuts.as_slice(), self.puts) {
            None => {
                self.written.extend_from_slice(piece)?;
                self.puts = self.puts.saturating_add(1);
                Ok(())
            }
            Some(most) => {
                self.written.extend_from_slice(front_of(piece, most))?;
                self.puts = self.puts.saturating_add(1);
                self.faults = self.faults.saturating_add(1);
                Err(SinkFault::Failed)
            }
        }
    }
}

/// How many bytes the put with this number takes at most, if it is cut.
fn cut_at(cuts: &[(u64, u64)], put: u64) -> Option<u64>
    ensures { result ≡ cut_at cuts.now put }
{
    for (number, most) in cuts {
        if *number == put {
            return Some(*most);
        }
    }
    None
}

/// So many of the first bytes of a piece, or all of them.
fn front_of(piece: &[u8], most: u64) -> &[u8]
    ensures { result.now ≡ take most piece.now }
{
    if most < piece.len() as u64 {
        &piece[..most as usize]
    } else {
        piece
    }
}
