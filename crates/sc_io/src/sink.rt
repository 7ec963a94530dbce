ghost use Rattle.std.specs.Prelude.{◌≡◌, ◌≤◌, ℕ, List, Option, OnOk, OnErr, Err};
ghost use Rattle.sc_io.specs.Faults.{HasRisen};
ghost use Rattle.sc_io.specs.Sink.{AddsAll, AddsFront};

use crate::fault::SinkFault;

/// Takes pieces of output, one behind the other.
pub trait Sink {
    /// What was written so far, where the sink tells it.
    ghost written: { Self → Option (List ℕ) };

    /// How many calls have failed.
    ghost faults: { Self → ℕ };

    /// Writes the piece. After a fault a front of it was written: nothing, all of it or a part.
    fn put(&mut self, piece: &[u8]) -> Result<(), SinkFault>
        ensures count { faults self.old ≤ faults self.new }
        ensures all { OnOk result (AddsAll (written self.old) piece.now (written self.new)) }
        ensures front { OnErr result (AddsFront (written self.old) piece.now (written self.new)) }
        ensures failed { result ≡ Err SinkFault.Failed → HasRisen (faults self.old) (faults self.new) };
}
