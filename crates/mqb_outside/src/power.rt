ghost use Rattle.std.specs.Prelude.{◌≡◌, ◌≤◌, ℕ, List, Bool, Option, Some, None, false};
ghost use Rattle.mqb_outside.specs.declared.power.Mode.{Mode};
ghost use Rattle.mqb_outside.specs.Images.{Each};
ghost use Rattle.mqb_outside.specs.Disk.{View, IsSettled, Unchanged, Elapses, Counted};

use crate::disk::Disk;

/// What an armed call does.
#[derive(Clone, Copy, Debug, PartialEq, Eq)]
pub enum Mode {
    /// It takes place and is not synced, and it and all later calls fail until a restart.
    Stop,
    /// It fails without effect, and later calls work.
    Fail,
}

/// What a restart leaves of each range that was written and not synced.
#[derive(Clone, Copy, Debug, PartialEq, Eq)]
pub enum Pick {
    /// The bytes from before; nothing past the old end.
    Old,
    /// The bytes that were written.
    New,
    /// The first half, rounded down, of those that were written.
    Half,
    /// Each byte is 1.
    Ones,
}

/// A disk whose power can be cut off. It always tells what a read gives.
pub trait Power: Disk {
    /// The calls left until the armed one and its mode, where one is armed.
    ghost armed: { Self → Option (ℕ × Mode) };

    ghost is_stopped: { Self → Bool };

    /// Arms the device call that comes as the `call`-th from now, counted from 1, in place
    /// of one that was armed.
    fn arm(&mut self, call: u32, mode: Mode)
        requires { 1 ≤ call }
        ensures armed { armed self.new ≡ Some (call, mode) }
        ensures arms { Counted 1 (Self.view self.old).switch.arms (Self.view self.new).switch.arms }
        ensures restarts { (Self.view self.new).switch.restarts
            ≡ (Self.view self.old).switch.restarts }
        ensures pick { (Self.view self.new).switch.last_pick
            ≡ (Self.view self.old).switch.last_pick }
        ensures last_left { (Self.view self.new).switch.last_left
            ≡ (Self.view self.old).switch.last_left }
        ensures stopped { is_stopped self.new ≡ is_stopped self.old }
        ensures unchanged { Unchanged (Self.view self.old) (Self.view self.new) }
        ensures time { Elapses (Self.view self.old) (Self.view self.new) }
        ensures reached { (Self.view self.new).reached ≡ (Self.view self.old).reached }
        ensures calls { (Self.view self.new).calls ≡ (Self.view self.old).calls }
        ensures faults { (Self.view self.new).faults ≡ (Self.view self.old).faults };

    fn stopped(&self) -> bool
        ensures { result ≡ is_stopped self.now };

    /// Leaves what a crash may leave, by this pick. No call is armed after it.
    fn restart(&mut self, pick: Pick)
        ensures settled { IsSettled (Self.view self.new) }
        ensures one_of { Each (Self.view self.new).reads (Self.view self.old).leaves }
        ensures armed { armed self.new ≡ None }
        ensures arms { (Self.view self.new).switch.arms ≡ (Self.view self.old).switch.arms }
        ensures restarts { Counted 1 (Self.view self.old).switch.restarts
            (Self.view self.new).switch.restarts }
        ensures pick { (Self.view self.new).switch.last_pick ≡ Some pick }
        ensures last_left { Each (Self.view self.new).reads
            (λ c. (Self.view self.new).switch.last_left ≡ Some c) }
        ensures stopped { is_stopped self.new ≡ false }
        ensures time { Elapses (Self.view self.old) (Self.view self.new) }
        ensures reached { (Self.view self.new).reached ≡ (Self.view self.old).reached }
        ensures calls { (Self.view self.new).calls ≡ (Self.view self.old).calls }
        ensures faults { (Self.view self.new).faults ≡ (Self.view self.old).faults };

    /// It tells what a read gives.
    ghost tells: { (d : Self) → (c : List ℕ) × (Self.view d).reads c };
}
