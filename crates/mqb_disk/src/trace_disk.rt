ghost use Rattle.std.specs.Prelude.{◌≡◌, ◌+◌, ◌-◌, ◌≤◌, ◌<◌, [], ◌∷◌, ◌++◌, length, min, IfOk};
ghost use Rattle.std.specs.Prelude.{OnOk, OnErr, IsTrue, vec_len, vec_capacity};
ghost use Rattle.mqb_outside.specs.Disk.{IsSettled};
ghost use Rattle.mqb_outside.specs.Faults.{Rose};
ghost use Rattle.std.specs.List.{All};
ghost use Rattle.mqb_disk.specs.History.{fits, held, history, reaches_within};
ghost use Rattle.mqb_outside.specs.declared.disk.TheConstants.{MAX_DISK};

use crate::image::Image;
use mqb_base::{Failed, Memory};
use mqb_outside::{Disk, MAX_DISK, reach};
use std::alloc::Global;

/// A call that changed a disk. The bytes of a write stand among those of all
/// writes, from `from` on.
#[derive(Clone, Copy, Debug, PartialEq, Eq)]
pub enum Call {
    Wrote { at: usize, from: usize, len: usize },
    Cut { len: usize },
    Synced,
}

/// A disk in memory that keeps its calls, so that it tells what a crash at each earlier moment
/// might have left. It begins empty.
#[derive(Debug, Drop)]
pub struct TraceDisk {
    current: Image,
    // How many calls are still kept.
    left: u32,
    calls: Vec<Call>,
    bytes: Vec<u8>,
    reads: Vec<(u64, u64)>,
    // Where the furthest read ends.
    reached: u64,
    made: u64,
    faults: u64,
    ghost within: { All (fits (vec_len bytes)) calls.items },
    ghost same: { current.contents ≡ held (history bytes.items calls.items) },
    ghost calls_room: { vec_len calls + left ≤ vec_capacity calls },
    ghost reads_room: { vec_len reads + left ≤ vec_capacity reads },
    ghost grown: { length current.contents ≤ vec_len bytes },
    ghost bytes_fit: { vec_len bytes ≤ current.room },
    ghost bytes_room: { current.room ≤ vec_capacity bytes },
    ghost bounded: { All (reaches_within current.room) (history bytes.items calls.items) },
    ghost small: { current.room ≤ MAX_DISK },
}

impl TraceDisk {
    ghost use Rattle.mqb_disk.specs.History.{Wrote as wrote, WasCut as was_cut};
    ghost use Rattle.mqb_disk.specs.TraceViews.{history_of, calls_of, written_of, reads_of, room};
    ghost use Rattle.mqb_disk.specs.TraceViews.{bytes_left, calls_left};

    /// It keeps `calls` calls and `capacity` written bytes, and at most `MAX_DISK` of these. A
    /// call past that fails.
    pub fn new(alloc: Global, capacity: usize, calls: u32) -> Result<TraceDisk, Memory>
        ensures empty { IfOk result (λ disk. (⟦<TraceDisk as Disk>⟧.view disk).reads []) }
        ensures room { IfOk result (λ disk. room disk ≡ min capacity MAX_DISK) }
        ensures left { IfOk result (λ disk. calls_left disk ≡ calls) }
        ensures bytes_left { IfOk result (λ disk. bytes_left disk ≡ room disk) }
        ensures reached { IfOk result (λ disk. (⟦<TraceDisk as Disk>⟧.view disk).reached ≡ 0) }
        ensures calls { IfOk result (λ disk. (⟦<TraceDisk as Disk>⟧.view disk).calls ≡ 0) }
        ensures settled { IfOk result (λ disk. IsSettled (⟦<TraceDisk as Disk>⟧.view disk)) }
        ensures faults { IfOk result (λ disk. (⟦<TraceDisk as Disk>⟧.view disk).faults ≡ 0) }
    {
        let room = capacity.min(MAX_DISK as usize);
        Ok(TraceDisk {
            current: Image::new(alloc, room)?,
            left: calls,
            calls: Vec::with_capacity(alloc, calls as usize)?,
            bytes: Vec::with_capacity(alloc, room)?,
            reads: Vec::with_capacity(alloc, calls as usize)?,
            reached: 0,
            made: 0,
            faults: 0,
        })
    }

    /// The calls that changed it so far, in order.
    pub fn calls(&self) -> &[Call]
        ensures { result.now ≡ calls_of self.now }
    {
        self.calls.as_slice()
    }

    /// The bytes of all writes so far, in order.
    pub fn written(&self) -> &[u8]
        ensures { result.now ≡ written_of self.now }
    {
        self.bytes.as_slice()
    }

    /// The place and the length of each read so far, in order.
    pub fn reads(&self) -> &[(u64, u64)]
        ensures { result.now ≡ reads_of self.now }
    {
        self.reads.as_slice()
    }

    fn fail(&mut self) -> Failed
        ensures fault { Rose self.old.faults self.new.faults }
        ensures kept { history_of self.new ≡ history_of self.old }
        ensures listed { reads_of self.new ≡ reads_of self.old }
        ensures left { calls_left self.new ≡ calls_left self.old }
        ensures written { written_of self.new ≡ written_of self.old }
        ensures room { room self.new ≡ room self.old }
        ensures reached { self.new.reached ≡ self.old.reached }
        ensures made { self.new.made ≡ self.old.made }
    {
        self.faults = self.faults.saturating_add(1);
        Failed
    }

    // Writes, and keeps the call with its bytes.
    fn put(&mut self, at: usize, bytes: &[u8])
        requires place { at ≤ length self.old.current.contents }
        requires left { 0 < self.old.left }
        requires fits { vec_len self.old.bytes + length bytes.now ≤ self.old.current.room }
        ensures kept { history_of self.new ≡ wrote at bytes.now ∷ history_of self.old }
        ensures listed { reads_of self.new ≡ reads_of self.old }
        ensures left { calls_left self.new + 1 ≡ calls_left self.old }
        ensures written { written_of self.new ≡ written_of self.old ++ bytes.now }
        ensures room { room self.new ≡ room self.old }
        ensures reached { self.new.reached ≡ self.old.reached }
        ensures made { self.new.made ≡ self.old.made }
        ensures faults { self.new.faults ≡ self.old.faults }
    {
        let call = Call::Wrote {
            at,
            from: self.bytes.len(),
            len: bytes.len(),
        };
        self.current.write(at, bytes);
        self.left -= 1;
        let Ok(()) = self.bytes.extend_from_slice(bytes) else {
            unreachable!();
        };
        self.calls.push_reserved(call);
    }

    // Cuts, and keeps the call.
    fn shorten(&mut self, len: usize)
        requires place { len ≤ length self.old.current.contents }
        requires left { 0 < self.old.left }
        ensures kept { history_of self.new ≡ was_cut len ∷ history_of self.old }
        ensures listed { reads_of self.new ≡ reads_of self.old }
        ensures left { calls_left self.new + 1 ≡ calls_left self.old }
        ensures written { written_of self.new ≡ written_of self.old }
        ensures room { room self.new ≡ room self.old }
        ensures reached { self.new.reached ≡ self.old.reached }
        ensures made { self.new.made ≡ self.old.made }
        ensures faults { self.new.faults ≡ self.old.faults }
    {
        self.current.cut(len);
        self.left -= 1;
        self.calls.push_reserved(Call::Cut { len });
    }
}

impl Disk for TraceDisk {
    ghost use Rattle.std.specs.Prelude.{◌↔◌, ◌^◌, take, drop, IsOk};
    ghost use Rattle.mqb_outside.specs.Images.{Each, Same, Follows, Written, Torn, IsCut, MayBeCut};
    ghost use Rattle.mqb_outside.specs.Disk.{OnlyReads, Elapses, Counted, reached_by};
    ghost use Rattle.mqb_outside.specs.Faults.{HasCause};
    ghost use Rattle.mqb_disk.specs.History.{Wrote as wrote, WasCut as was_cut};
    ghost use Rattle.mqb_disk.specs.History.{Synced as was_synced};
    ghost use Rattle.mqb_disk.specs.TraceViews.{trace_view, history_of, written_of, reads_of, room};
    ghost use Rattle.mqb_disk.specs.TraceViews.{bytes_left, calls_left, Keeps, Lists, Uses};
    ghost use Rattle.mqb_disk.specs.lemmas.TraceViews.{trace_lawful};

    ghost view = { trace_view };

    ghost lawful = { trace_lawful };

    fn len(&mut self) -> Result<u64, Failed>
        ensures kept { history_of self.new ≡ history_of self.old }
        ensures listed { reads_of self.new ≡ reads_of self.old }
        ensures uses { Uses self.old self.new result }
        ensures written_bytes { written_of self.new ≡ written_of self.old }
        ensures room { room self.new ≡ room self.old }
        ensures works { IsOk result ↔ (0 < calls_left self.old) }
        ensures length { IfOk result (λ n. Each (trace_view self.old).reads (λ c. n ≡ length c)) }
        ensures bound { IfOk result (λ n. n ≤ MAX_DISK) }
        ensures reads { OnlyReads (trace_view self.old) (trace_view self.new) }
        ensures reached { (trace_view self.new).reached ≡ (trace_view self.old).reached }
        ensures calls { Counted 1 (trace_view self.old).calls (trace_view self.new).calls }
        ensures cause { HasCause (trace_view self.old).faults (trace_view self.new).faults result }
    {
        self.made = self.made.saturating_add(1);
        if self.left == 0 {
            return Err(self.fail());
        }
        self.left -= 1;
        Ok(self.current.len() as u64)
    }

    fn read_at(&mut self, at: u64, buf: &mut [u8]) -> Result<(), Failed>
        requires { Each (trace_view self.old).reads (λ c. at + length buf.old ≤ length c) }
        ensures kept { history_of self.new ≡ history_of self.old }
        ensures uses { Uses self.old self.new result }
        ensures written_bytes { written_of self.new ≡ written_of self.old }
        ensures room { room self.new ≡ room self.old }
        ensures works { IsOk result ↔ (0 < calls_left self.old) }
        ensures listed { Lists at (length buf.old) self.old self.new result }
        ensures bytes { OnOk result
            (Each (trace_view self.old).reads (λ c. buf.new ≡ take (length buf.old) (drop at c))) }
        ensures reads { OnlyReads (trace_view self.old) (trace_view self.new) }
        ensures reached { (trace_view self.new).reached
            ≡ reached_by at (length buf.old) (trace_view self.old).reached }
        ensures calls { Counted 1 (trace_view self.old).calls (trace_view self.new).calls }
        ensures cause { HasCause (trace_view self.old).faults (trace_view self.new).faults result }
    {
        self.made = self.made.saturating_add(1);
        self.reached = reach(self.reached, at, buf.len());
        if self.left == 0 {
            return Err(self.fail());
        }
        self.left -= 1;
        self.reads.push_reserved((at, buf.len() as u64));
        self.current.read(at as usize, buf);
        Ok(())
    }

    fn write_at(&mut self, at: u64, bytes: &[u8]) -> Result<(), Failed>
        requires place { Each (trace_view self.old).reads (λ c. at ≤ length c) }
        requires range { at + length bytes.now < 2 ^ 64 }
        ensures kept { Keeps (wrote at bytes.now) self.old self.new result }
        ensures listed { reads_of self.new ≡ reads_of self.old }
        ensures uses { Uses self.old self.new result }
        ensures taken { OnOk result (written_of self.new ≡ written_of self.old ++ bytes.now) }
        ensures not_taken { OnErr result (written_of self.new ≡ written_of self.old) }
        ensures room { room self.new ≡ room self.old }
        ensures works { IsOk result
            ↔ ((0 < calls_left self.old) × (length bytes.now ≤ bytes_left self.old)) }
        ensures written { OnOk result
            (Follows (Written at bytes.now) (trace_view self.old).reads
            (trace_view self.new).reads) }
        ensures bound { OnOk result (at + length bytes.now ≤ MAX_DISK) }
        ensures leaves { Follows (Torn at (length bytes.now)) (trace_view self.old).leaves
            (trace_view self.new).leaves }
        ensures time { Elapses (trace_view self.old) (trace_view self.new) }
        ensures switch { (trace_view self.new).switch ≡ (trace_view self.old).switch }
        ensures reached { (trace_view self.new).reached ≡ (trace_view self.old).reached }
        ensures calls { Counted 1 (trace_view self.old).calls (trace_view self.new).calls }
        ensures cause { HasCause (trace_view self.old).faults (trace_view self.new).faults result }
    {
        self.made = self.made.saturating_add(1);
        let room = self.current.room() - self.bytes.len();
        if self.left == 0 || bytes.len() > room {
            return Err(self.fail());
        }
        self.put(at as usize, bytes);
        Ok(())
    }

    fn cut(&mut self, len: u64) -> Result<(), Failed>
        requires { Each (trace_view self.old).reads (λ c. len ≤ length c) }
        ensures kept { Keeps (was_cut len) self.old self.new result }
        ensures listed { reads_of self.new ≡ reads_of self.old }
        ensures uses { Uses self.old self.new result }
        ensures written_bytes { written_of self.new ≡ written_of self.old }
        ensures room { room self.new ≡ room self.old }
        ensures works { IsOk result ↔ (0 < calls_left self.old) }
        ensures cut { OnOk result
            (Follows (IsCut len) (trace_view self.old).reads (trace_view self.new).reads) }
        ensures leaves { Follows (MayBeCut len) (trace_view self.old).leaves
            (trace_view self.new).leaves }
        ensures time { Elapses (trace_view self.old) (trace_view self.new) }
        ensures switch { (trace_view self.new).switch ≡ (trace_view self.old).switch }
        ensures reached { (trace_view self.new).reached ≡ (trace_view self.old).reached }
        ensures calls { Counted 1 (trace_view self.old).calls (trace_view self.new).calls }
        ensures cause { HasCause (trace_view self.old).faults (trace_view self.new).faults result }
    {
        self.made = self.made.saturating_add(1);
        if self.left == 0 {
            return Err(self.fail());
        }
        self.shorten(len as usize);
        Ok(())
    }

    fn sync(&mut self) -> Result<(), Failed>
        ensures kept { Keeps was_synced self.old self.new result }
        ensures listed { reads_of self.new ≡ reads_of self.old }
        ensures uses { Uses self.old self.new result }
        ensures written_bytes { written_of self.new ≡ written_of self.old }
        ensures room { room self.new ≡ room self.old }
        ensures works { IsOk result ↔ (0 < calls_left self.old) }
        ensures durable { OnOk result (IsSettled (trace_view self.new)) }
        ensures reads { Same (trace_view self.old).reads (trace_view self.new).reads }
        ensures leaves { Each (trace_view self.new).leaves (trace_view self.old).leaves }
        ensures time { Elapses (trace_view self.old) (trace_view self.new) }
        ensures switch { (trace_view self.new).switch ≡ (trace_view self.old).switch }
        ensures reached { (trace_view self.new).reached ≡ (trace_view self.old).reached }
        ensures calls { Counted 1 (trace_view self.old).calls (trace_view self.new).calls }
        ensures cause { HasCause (trace_view self.old).faults (trace_view self.new).faults result }
    {
        self.made = self.made.saturating_add(1);
        if self.left == 0 {
            return Err(self.fail());
        }
        self.left -= 1;
        self.calls.push_reserved(Call::Synced);
        Ok(())
    }
}
