ghost use Rattle.std.specs.Prelude.{◌≡◌, ◌≢◌, ◌+◌, ◌-◌, ◌<◌, ℕ, List, [], ◌∷◌, ◌++◌, Option, Some};
ghost use Rattle.std.specs.Prelude.{None, Ok, false, IfOk, OnOk, OnErr, IfSome, IsSome};
ghost use Rattle.std.specs.Option.{option_map};
ghost use Rattle.mqb_outside.specs.Faults.{Rose, HasCause};
ghost use Rattle.mqb_outside.specs.Net.{Ended};

use crate::conn::Conn;
use mqb_base::Failed;

/// Gives connections and takes them back. It counts the calls that gave none, the waits in which no
/// peer came, and the connections that were lost.
pub trait Net {
    type C: Conn;

    /// How often `accept` and `connect` have failed.
    ghost faults: { Self → ℕ };

    /// How often it was waited for a peer and none came.
    ghost idle: { Self → ℕ };

    /// How many connections had a fault when they were taken back.
    ghost lost: { Self → ℕ };

    /// The connections that were taken back, in order, where the net tells them.
    ghost finished: { Self → Option (List Ended) };

    /// How many it gave that are not taken back, where it tells that.
    ghost unfinished: { Self → Option ℕ };

    /// Waits for a peer that connects, for so many seconds at most, and says whether one came:
    /// `accept` then gives its connection.
    fn await_peer(&mut self, seconds: u32) -> Result<bool, Failed>
        ensures none_came { result ≡ Ok false → Rose (idle self.old) (idle self.new) }
        ensures came { result ≢ Ok false → idle self.new ≡ idle self.old }
        ensures unfinished { unfinished self.new ≡ unfinished self.old }
        ensures finished { finished self.new ≡ finished self.old }
        ensures lost { lost self.new ≡ lost self.old }
        ensures cause { HasCause (faults self.old) (faults self.new) result };

    /// A connection that a peer made.
    fn accept(&mut self) -> Result<Self::C, Failed>
        ensures faultless { IfOk result
            (λ c. (Self.C.read_faults c ≡ 0) × (Self.C.write_faults c ≡ 0)) }
        ensures given { IfOk result (λ c. Self.C.given c ≡ Self.C.held c) }
        ensures taken { IfOk result (λ c. IfSome (Self.C.taken c) (λ text. text ≡ [])) }
        ensures address { IfOk result (λ c. Self.C.address c ≡ None) }
        ensures opened { OnOk result
            (unfinished self.new ≡ option_map (λ n. n + 1) (unfinished self.old)) }
        ensures unchanged { OnErr result (unfinished self.new ≡ unfinished self.old) }
        ensures finished { finished self.new ≡ finished self.old }
        ensures lost { lost self.new ≡ lost self.old }
        ensures idle { idle self.new ≡ idle self.old }
        ensures cause { HasCause (faults self.old) (faults self.new) result };

    /// A connection to a peer.
    fn connect(&mut self, address: [u8; 4]) -> Result<Self::C, Failed>
        ensures faultless { IfOk result
            (λ c. (Self.C.read_faults c ≡ 0) × (Self.C.write_faults c ≡ 0)) }
        ensures given { IfOk result (λ c. Self.C.given c ≡ Self.C.held c) }
        ensures taken { IfOk result (λ c. IfSome (Self.C.taken c) (λ text. text ≡ [])) }
        ensures address { IfOk result (λ c. IsSome (finished self.old)
            → Self.C.address c ≡ Some address) }
        ensures opened { OnOk result
            (unfinished self.new ≡ option_map (λ n. n + 1) (unfinished self.old)) }
        ensures unchanged { OnErr result (unfinished self.new ≡ unfinished self.old) }
        ensures finished { finished self.new ≡ finished self.old }
        ensures lost { lost self.new ≡ lost self.old }
        ensures idle { idle self.new ≡ idle self.old }
        ensures cause { HasCause (faults self.old) (faults self.new) result };

    /// Takes a connection back and ends it. It is lost where one of its counts is not 0.
    fn finish(&mut self, conn: Self::C)
        requires { IfSome (unfinished self.old) (λ n. 0 < n) }
        ensures finished { finished self.new ≡ option_map (λ ended. ended ++ record {
          address = Self.C.address conn;
          read_faults = Self.C.read_faults conn;
          write_faults = Self.C.write_faults conn;
          given = Self.C.given conn;
          held = Self.C.held conn;
          taken = Self.C.taken conn;
        } ∷ []) (finished self.old) }
        ensures lost { 0 < Self.C.read_faults conn + Self.C.write_faults conn
            → Rose (lost self.old) (lost self.new) }
        ensures kept { Self.C.read_faults conn + Self.C.write_faults conn ≡ 0
            → lost self.new ≡ lost self.old }
        ensures closed { unfinished self.new ≡ option_map (λ n. n - 1) (unfinished self.old) }
        ensures idle { idle self.new ≡ idle self.old }
        ensures faults { faults self.new ≡ faults self.old };

    /// A net that tells the connections that were taken back tells how many are not.
    ghost tells: { (net : Self) → IsSome (finished net) → IsSome (unfinished net) };
}
