ghost use Rattle.std.specs.Prelude.{◌≡◌};

use mqb_outside::{MemoryNet, Net};

/// A net that is told how long a silent peer is waited for.
pub trait PatientNet: Net {
    /// From now on a read of the connections to come finds the end of what comes where it has
    /// waited so many seconds without a byte; without seconds it fails there, as before.
    fn end_by_silence(&mut self, seconds: Option<u32>)
        ensures faults { Self.faults self.new ≡ Self.faults self.old }
        ensures lost { Self.lost self.new ≡ Self.lost self.old }
        ensures idle { Self.idle self.new ≡ Self.idle self.old }
        ensures finished { Self.finished self.new ≡ Self.finished self.old }
        ensures unfinished { Self.unfinished self.new ≡ Self.unfinished self.old };
}

/// In memory nobody waits.
impl PatientNet for MemoryNet {
    fn end_by_silence(&mut self, _seconds: Option<u32>) {}
}
