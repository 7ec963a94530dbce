ghost use Rattle.std.specs.Prelude.{◌≡◌, ◌≤◌, [], ◌++◌, Err, OnOk, OnErr, Some};
ghost use Rattle.sc_io.specs.Faults.{HasRisen};
ghost use Rattle.sc_io.specs.MemSink.{Fits, filled_with, piece_within};
ghost use Rattle.sc_io.specs.Sink.{AddsFront};

use crate::fault::SinkFault;
use crate::sink::Sink;
use std::alloc::Global;
use std::marker::Model;

/// Keeps what is written in memory, and fails once its room is used up.
#[derive(Drop)]
pub struct MemSink {
    written: Vec<u8>,
    room: Option<u64>,
    faults: u64,
}

impl Model for MemSink {
    ghost use Rattle.sc_io.specs.MemSink.{MemSinkOf, Fits};

    ghost Value = { MemSinkOf };

    ghost view = { λ s. record { written = s.written.items; room = s.room; faults = s.faults } };

    ghost invariant = { λ s. Fits s.room s.written.items };
}

impl MemSink {
    /// A sink with room for so many bytes in all, or for any number where there is no `room`. Takes
    /// no memory.
    pub fn new(alloc: Global, room: Option<u64>) -> MemSink
        ensures { result ≡ record { written = []; room = room; faults = 0 } }
    {
        MemSink {
            written: Vec::new(alloc),
            room,
            faults: 0,
        }
    }

    /// All that was written. Takes no memory.
    pub fn taken(&self) -> &[u8]
        ensures { result.now ≡ self.now.written }
    {
        self.written.as_slice()
    }
}

impl Sink for MemSink {
    ghost use Rattle.std.specs.Prelude.{Some};

    ghost written = { λ s. Some s.written };

    ghost faults = { λ s. s.faults };

    /// Costs the length of the piece. Where the piece does not fit into the room that is left, as
    /// much of it as fits is written. For want of memory nothing is written.
    fn put(&mut self, piece: &[u8]) -> Result<(), SinkFault>
        ensures count { self.old.faults ≤ self.new.faults }
        ensures all { OnOk result (Fits self.old.room (self.old.written ++ piece.now)
            × (self.new ≡ record self.old { written = self.old.written ++ piece.now })) }
        ensures full { result ≡ Err SinkFault.Failed →
            (¬ Fits self.old.room (self.old.written ++ piece.now))
            × (self.new ≡ filled_with self.old piece.now) }
        ensures unchanged { result ≡ Err SinkFault.OutOfMemory → self.new ≡ self.old }
        ensures front { OnErr result
            (AddsFront (Some self.old.written) piece.now (Some self.new.written)) }
        ensures failed { result ≡ Err SinkFault.Failed → HasRisen self.old.faults self.new.faults }
    {
        let front = front_of(piece, self.written.len(), self.room);
        self.written.extend_from_slice(front)?;
        if front.len() < piece.len() {
            self.faults = self.faults.saturating_add(1);
            return Err(SinkFault::Failed);
        }
        Ok(())
    }
}

/// What fits of the piece behind so many bytes.
fn front_of(piece: &[u8], written: usize, room: Option<u64>) -> &[u8]
    ensures { result.now ≡ piece_within room written piece.now }
{
    let Some(room) = room else {
        return piece;
    };
    let left = room.saturating_sub(written as u64);
    if left < piece.len() as u64 {
        &piece[..left as usize]
    } else {
        piece
    }
}
