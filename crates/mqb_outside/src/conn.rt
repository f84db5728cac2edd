ghost use Rattle.std.specs.Borrow.{GName};
ghost use Rattle.std.specs.Prelude.{[], ◌≡◌, ℕ, List, Option};
ghost use Rattle.mqb_outside.specs.Told.{Reads, Writes};
ghost use Rattle.mqb_outside.specs.Faults.{HasCause};

use crate::{Sink, Source};
use mqb_base::Failed;

/// A connection: a source and a sink, each with its own count of faults.
///
/// `receive` and `send` are `read` and `write` with what these cannot say of the other half: a
/// receive leaves what was sent, and a send leaves what is still to come.
pub trait Conn: Source + Sink {
    /// What it held when it was given, where it tells that.
    ghost given: { Self → Option (List ℕ) };

    /// The address that was asked for, where it tells one.
    ghost address: { Self → Option (List ℕ) };

    /// The references that it holds: whoever lent them finds behind them what the connection left.
    ghost lent: { Self → List GName } = { λ _. [] };

    /// Fills the front of `buf`, and says how much of it. For a `buf` that is not empty, 0 is
    /// the end of what comes.
    fn receive(&mut self, buf: &mut [u8]) -> Result<usize, Failed>
        ensures reads { Reads (Self.held self.old) (Self.held self.new) buf.old buf.new result }
        ensures cause { HasCause (Self.read_faults self.old) (Self.read_faults self.new) result }
        ensures taken { Self.taken self.new ≡ Self.taken self.old }
        ensures write_faults { Self.write_faults self.new ≡ Self.write_faults self.old }
        ensures given { given self.new ≡ given self.old }
        ensures address { address self.new ≡ address self.old }
        ensures lent { lent self.new ≡ lent self.old };

    /// Takes a front of `bytes`, and says how much of it: at least one byte, where there is one.
    fn send(&mut self, bytes: &[u8]) -> Result<usize, Failed>
        ensures writes { Writes (Self.taken self.old) (Self.taken self.new) bytes.now result }
        ensures cause { HasCause (Self.write_faults self.old) (Self.write_faults self.new) result }
        ensures held { Self.held self.new ≡ Self.held self.old }
        ensures read_faults { Self.read_faults self.new ≡ Self.read_faults self.old }
        ensures given { given self.new ≡ given self.old }
        ensures address { address self.new ≡ address self.old }
        ensures lent { lent self.new ≡ lent self.old };
}
