ghost use Rattle.std.specs.Prelude.{◌≡◌, ◌+◌, ◌^◌, ◌<◌, ◌≤◌, length, take, drop, IfOk, OnOk};
ghost use Rattle.mqb_outside.specs.Faults.{HasCause};
ghost use Rattle.mqb_outside.specs.Images.{Each, Same, Follows, Written, Torn, IsCut, MayBeCut};
ghost use Rattle.mqb_outside.specs.Disk.{View, IsSettled, Unchanged, OnlyReads, Elapses, Counted};
ghost use Rattle.mqb_outside.specs.Disk.{Lawful, reached_by};

use mqb_base::Failed;

/// The greatest length of a disk, in bytes.
pub const MAX_DISK: u64 = 1 << 62;

/// Where the furthest read ends after one more, of `n` bytes from a place on.
pub fn reach(reached: u64, at: u64, n: usize) -> u64
    ensures { result ≡ reached_by at n reached }
{
    reached.max(at.saturating_add(n as u64))
}

/// A store of bytes that a crash may tear. What was written is safe once a sync
/// after it has answered Ok.
///
/// A write or a cut that answers `Failed` counts as made and not synced, whether or not it took
/// effect. No disk is longer than `MAX_DISK`.
pub trait Disk {
    /// All that is told of it.
    ghost view: { Self → View };

    fn len(&mut self) -> Result<u64, Failed>
        ensures length { IfOk result (λ n. Each (view self.old).reads (λ c. n ≡ length c)) }
        ensures bound { IfOk result (λ n. n ≤ MAX_DISK) }
        ensures reads { OnlyReads (view self.old) (view self.new) }
        ensures reached { (view self.new).reached ≡ (view self.old).reached }
        ensures calls { Counted 1 (view self.old).calls (view self.new).calls }
        ensures cause { HasCause (view self.old).faults (view self.new).faults result };

    /// Fills `buf` from this place on.
    fn read_at(&mut self, at: u64, buf: &mut [u8]) -> Result<(), Failed>
        requires { Each (view self.old).reads (λ c. at + length buf.old ≤ length c) }
        ensures bytes { OnOk result
            (Each (view self.old).reads (λ c. buf.new ≡ take (length buf.old) (drop at c))) }
        ensures reads { OnlyReads (view self.old) (view self.new) }
        ensures reached { (view self.new).reached
            ≡ reached_by at (length buf.old) (view self.old).reached }
        ensures calls { Counted 1 (view self.old).calls (view self.new).calls }
        ensures cause { HasCause (view self.old).faults (view self.new).faults result };

    /// Writes over what is there, and past the end. Until a sync a crash may leave
    /// any bytes in the range.
    fn write_at(&mut self, at: u64, bytes: &[u8]) -> Result<(), Failed>
        requires place { Each (view self.old).reads (λ c. at ≤ length c) }
        requires range { at + length bytes.now < 2 ^ 64 }
        ensures written { OnOk result
            (Follows (Written at bytes.now) (view self.old).reads (view self.new).reads) }
        ensures bound { OnOk result (at + length bytes.now ≤ MAX_DISK) }
        ensures leaves { Follows (Torn at (length bytes.now)) (view self.old).leaves
            (view self.new).leaves }
        ensures time { Elapses (view self.old) (view self.new) }
        ensures switch { (view self.new).switch ≡ (view self.old).switch }
        ensures reached { (view self.new).reached ≡ (view self.old).reached }
        ensures calls { Counted 1 (view self.old).calls (view self.new).calls }
        ensures cause { HasCause (view self.old).faults (view self.new).faults result };

    /// Cuts the disk to a length. Until a sync a crash may leave it made or not made.
    fn cut(&mut self, len: u64) -> Result<(), Failed>
        requires { Each (view self.old).reads (λ c. len ≤ length c) }
        ensures cut { OnOk result
            (Follows (IsCut len) (view self.old).reads (view self.new).reads) }
        ensures leaves { Follows (MayBeCut len) (view self.old).leaves (view self.new).leaves }
        ensures time { Elapses (view self.old) (view self.new) }
        ensures switch { (view self.new).switch ≡ (view self.old).switch }
        ensures reached { (view self.new).reached ≡ (view self.old).reached }
        ensures calls { Counted 1 (view self.old).calls (view self.new).calls }
        ensures cause { HasCause (view self.old).faults (view self.new).faults result };

    /// After it a crash leaves what a read gives.
    fn sync(&mut self) -> Result<(), Failed>
        ensures durable { OnOk result (IsSettled (view self.new)) }
        ensures reads { Same (view self.old).reads (view self.new).reads }
        ensures leaves { Each (view self.new).leaves (view self.old).leaves }
        ensures time { Elapses (view self.old) (view self.new) }
        ensures switch { (view self.new).switch ≡ (view self.old).switch }
        ensures reached { (view self.new).reached ≡ (view self.old).reached }
        ensures calls { Counted 1 (view self.old).calls (view self.new).calls }
        ensures cause { HasCause (view self.old).faults (view self.new).faults result };

    ghost lawful: { (d : Self) → Lawful (view d) };
}
