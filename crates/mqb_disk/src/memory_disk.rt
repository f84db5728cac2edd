ghost use Rattle.std.specs.Prelude.{◌≡◌, ◌+◌, ◌≤◌, ◌<◌, ◌^◌, ◌↔◌, [], ◌∷◌, ◌++◌, length, take, min};
ghost use Rattle.std.specs.Prelude.{IfOk, vec_len, vec_capacity, false, None, true, IsTrue};
ghost use Rattle.mqb_outside.specs.Images.{Written, IsCut};
ghost use Rattle.mqb_outside.specs.Disk.{IsSettled};
ghost use Rattle.mqb_outside.specs.declared.disk.TheConstants.{MAX_DISK};
ghost use Rattle.mqb_disk.specs.Picks.{lies_within};
ghost use Rattle.mqb_disk.specs.declared.memory_disk.TheConstants.{MAX_CHANGES};
ghost use Rattle.std.specs.List.{All};

use crate::change::{Change, replay};
use crate::image::Image;
use crate::switch::{PowerSwitch, Turn};
use mqb_base::{Failed, Memory};
use mqb_outside::{Disk, MAX_DISK, Mode, Pick, Power, reach};
use std::alloc::Global;

/// How many ranges a disk in memory keeps between two syncs.
const MAX_CHANGES: usize = 64;

/// A disk in memory whose power can be cut off. It begins empty.
///
/// A write past its capacity fails, and so does a write or a cut that would be the 65th
/// since the last sync.
#[derive(Debug, Drop)]
pub struct MemoryDisk {
    // What a read gives.
    current: Image,
    // What was safe at the last sync.
    safe: Image,
    // Up to here the two are alike.
    clean: usize,
    changes: Vec<Change>,
    // Where the furthest read ends.
    reached: u64,
    switch: PowerSwitch,
    ghost same_room: { current.room ≡ safe.room },
    ghost clean_current: { clean ≤ length current.contents },
    ghost clean_safe: { clean ≤ length safe.contents },
    ghost alike: { take clean current.contents ≡ take clean safe.contents },
    ghost changes_room: { MAX_CHANGES ≤ vec_capacity changes },
    ghost fit: { All (lies_within current.room) changes.items },
    ghost within: { length current.contents ≤ current.room },
    ghost safe_within: { length safe.contents ≤ current.room },
    ghost bounded: { current.room ≤ MAX_DISK },
}

impl MemoryDisk {
    ghost use Rattle.mqb_disk.specs.Turns.{switched_on};
    ghost use Rattle.mqb_disk.specs.Views.{memory_view, stored, power_of, room, noted, Takes};
    ghost use Rattle.mqb_disk.specs.declared.change.Change.TheVariants.{Wrote, Cut};

    /// It has room for `capacity` bytes, and for `MAX_DISK` at most.
    pub fn new(alloc: Global, capacity: usize) -> Result<MemoryDisk, Memory>
        ensures empty { IfOk result (λ disk. (⟦<MemoryDisk as Disk>⟧.view disk).reads []) }
        ensures room { IfOk result (λ disk. room disk ≡ min capacity MAX_DISK) }
        ensures settled { IfOk result (λ disk. IsSettled (⟦<MemoryDisk as Disk>⟧.view disk)) }
        ensures faults { IfOk result (λ disk. (⟦<MemoryDisk as Disk>⟧.view disk).faults ≡ 0) }
        ensures calls { IfOk result (λ disk. (⟦<MemoryDisk as Disk>⟧.view disk).calls ≡ 0) }
        ensures reached { IfOk result (λ disk. (⟦<MemoryDisk as Disk>⟧.view disk).reached ≡ 0) }
        ensures last_left { IfOk result
            (λ disk. (⟦<MemoryDisk as Disk>⟧.view disk).switch.last_left ≡ None) }
        ensures noted { IfOk result (λ disk. noted disk ≡ 0) }
        ensures power { IfOk result (λ disk. power_of disk ≡ switched_on) }
    {
        let room = capacity.min(MAX_DISK as usize);
        Ok(MemoryDisk {
            current: Image::new(alloc, room)?,
            safe: Image::new(alloc, room)?,
            clean: 0,
            changes: Vec::with_capacity(alloc, MAX_CHANGES)?,
            reached: 0,
            switch: PowerSwitch::new(),
        })
    }

    /// Lets the first device call after the next restart fail without effect.
    pub fn arm_restart(&mut self)
        ensures power { power_of self.new ≡ record (power_of self.old) { restart_is_armed = true } }
        ensures stored { stored self.new ≡ stored self.old }
        ensures reached { (memory_view self.new).reached ≡ (memory_view self.old).reached }
        ensures calls { (memory_view self.new).calls ≡ (memory_view self.old).calls }
        ensures faults { (memory_view self.new).faults ≡ (memory_view self.old).faults }
        ensures switch { (memory_view self.new).switch ≡ (memory_view self.old).switch }
    {
        self.switch.restart_is_armed = true;
    }

    // Whether one change more is kept, which reaches to `end`.
    fn takes(&self, end: u64) -> bool
        ensures takes { IsTrue result ↔ Takes self.now end }
        ensures bound { IsTrue result → end ≤ MAX_DISK }
    {
        self.changes.len() < MAX_CHANGES && end <= self.current.room() as u64
    }

    // Writes, and notes the range.
    fn put(&mut self, at: usize, bytes: &[u8])
        requires place { at ≤ length self.old.current.contents }
        requires fits { at + length bytes.now ≤ self.old.current.room }
        requires few { noted self.old < MAX_CHANGES }
        ensures written { Written at bytes.now self.old.current.contents self.new.current.contents }
        ensures noted { self.new.changes.items ≡ self.old.changes.items
            ++ Wrote at (length bytes.now) ∷ [] }
        ensures safe { self.new.safe ≡ self.old.safe }
        ensures reached { self.new.reached ≡ self.old.reached }
        ensures switch { self.new.switch ≡ self.old.switch }
    {
        self.current.write(at, bytes);
        self.clean = self.clean.min(at);
        let change = Change::Wrote {
            at,
            len: bytes.len(),
        };
        if self.changes.push(change).is_err() {
            unreachable!();
        }
    }

    // Cuts, and notes it.
    fn shorten(&mut self, len: usize)
        requires place { len ≤ length self.old.current.contents }
        requires few { noted self.old < MAX_CHANGES }
        ensures cut { IsCut len self.old.current.contents self.new.current.contents }
        ensures noted { self.new.changes.items ≡ self.old.changes.items ++ Cut len ∷ [] }
        ensures safe { self.new.safe ≡ self.old.safe }
        ensures reached { self.new.reached ≡ self.old.reached }
        ensures switch { self.new.switch ≡ self.old.switch }
    {
        self.current.cut(len);
        self.clean = self.clean.min(len);
        if self.changes.push(Change::Cut { len }).is_err() {
            unreachable!();
        }
    }
}

impl Disk for MemoryDisk {
    ghost use Rattle.std.specs.Prelude.{◌≢◌, drop, IsOk, OnOk, OnErr};
    ghost use Rattle.mqb_outside.specs.Faults.{HasCause};
    ghost use Rattle.mqb_outside.specs.Images.{Each, Same, Follows, Torn, MayBeCut};
    ghost use Rattle.mqb_outside.specs.Disk.{OnlyReads, Elapses, Counted, reached_by};
    ghost use Rattle.mqb_disk.specs.Turns.{turn_of, after_turn};
    ghost use Rattle.mqb_disk.specs.Views.{memory_view, stored, changes_of, contents, power_of};
    ghost use Rattle.mqb_disk.specs.Views.{room, noted, Takes};
    ghost use Rattle.mqb_disk.specs.lemmas.Views.{memory_lawful};
    ghost use Rattle.mqb_disk.specs.declared.change.Change.TheVariants.{Wrote, Cut};

    ghost view = { memory_view };

    ghost lawful = { memory_lawful };

    fn len(&mut self) -> Result<u64, Failed>
        ensures power { power_of self.new ≡ after_turn (power_of self.old) }
        ensures works { IsOk result ↔ (turn_of (power_of self.old) ≡ Turn.Works) }
        ensures stored { stored self.new ≡ stored self.old }
        ensures length { IfOk result (λ n. n ≡ length (contents self.old)) }
        ensures bound { IfOk result (λ n. n ≤ MAX_DISK) }
        ensures reads { OnlyReads (memory_view self.old) (memory_view self.new) }
        ensures reached { (memory_view self.new).reached ≡ (memory_view self.old).reached }
        ensures calls { Counted 1 (memory_view self.old).calls (memory_view self.new).calls }
        ensures cause { HasCause (memory_view self.old).faults
            (memory_view self.new).faults result }
    {
        if self.switch.turn() == Turn::Works {
            Ok(self.current.len() as u64)
        } else {
            Err(Failed)
        }
    }

    fn read_at(&mut self, at: u64, buf: &mut [u8]) -> Result<(), Failed>
        requires { at + length buf.old ≤ length (contents self.old) }
        ensures power { power_of self.new ≡ after_turn (power_of self.old) }
        ensures works { IsOk result ↔ (turn_of (power_of self.old) ≡ Turn.Works) }
        ensures stored { stored self.new ≡ stored self.old }
        ensures bytes { OnOk result
            (buf.new ≡ take (length buf.old) (drop at (contents self.old))) }
        ensures reads { OnlyReads (memory_view self.old) (memory_view self.new) }
        ensures reached { (memory_view self.new).reached
            ≡ reached_by at (length buf.old) (memory_view self.old).reached }
        ensures calls { Counted 1 (memory_view self.old).calls (memory_view self.new).calls }
        ensures cause { HasCause (memory_view self.old).faults
            (memory_view self.new).faults result }
    {
        self.reached = reach(self.reached, at, buf.len());
        let turn = self.switch.turn();
        if turn != Turn::Fails {
            self.current.read(at as usize, buf);
        }
        if turn == Turn::Works {
            Ok(())
        } else {
            Err(Failed)
        }
    }

    fn write_at(&mut self, at: u64, bytes: &[u8]) -> Result<(), Failed>
        requires place { at ≤ length (contents self.old) }
        requires range { at + length bytes.now < 2 ^ 64 }
        ensures power { power_of self.new ≡ after_turn (power_of self.old) }
        ensures works { IsOk result
            ↔ ((turn_of (power_of self.old) ≡ Turn.Works)
            × Takes self.old (at + length bytes.now)) }

        // A call at which the power is cut off takes place too.
        ensures made { turn_of (power_of self.old) ≢ Turn.Fails
            → Takes self.old (at + length bytes.now)
            → Written at bytes.now (contents self.old) (contents self.new) }
        ensures noted { turn_of (power_of self.old) ≢ Turn.Fails
            → Takes self.old (at + length bytes.now)
            → noted self.new ≡ noted self.old + 1 }
        ensures changes { turn_of (power_of self.old) ≢ Turn.Fails
            → Takes self.old (at + length bytes.now)
            → changes_of self.new ≡ changes_of self.old ++ Wrote at (length bytes.now) ∷ [] }
        ensures safe { (stored self.new).safe ≡ (stored self.old).safe }
        ensures fails { turn_of (power_of self.old) ≡ Turn.Fails
            → stored self.new ≡ stored self.old }
        ensures full { (Takes self.old (at + length bytes.now) → ⊥)
            → stored self.new ≡ stored self.old }
        ensures room { room self.new ≡ room self.old }
        ensures written { OnOk result
            (Follows (Written at bytes.now) (memory_view self.old).reads
            (memory_view self.new).reads) }
        ensures bound { OnOk result (at + length bytes.now ≤ MAX_DISK) }
        ensures leaves { Follows (Torn at (length bytes.now)) (memory_view self.old).leaves
            (memory_view self.new).leaves }
        ensures time { Elapses (memory_view self.old) (memory_view self.new) }
        ensures switch { (memory_view self.new).switch ≡ (memory_view self.old).switch }
        ensures reached { (memory_view self.new).reached ≡ (memory_view self.old).reached }
        ensures calls { Counted 1 (memory_view self.old).calls (memory_view self.new).calls }
        ensures cause { HasCause (memory_view self.old).faults
            (memory_view self.new).faults result }
    {
        let turn = self.switch.turn();
        if turn == Turn::Fails {
            return Err(Failed);
        }
        if !self.takes(at + bytes.len() as u64) {
            self.switch.fault();
            return Err(Failed);
        }
        self.put(at as usize, bytes);
        if turn == Turn::Works {
            Ok(())
        } else {
            Err(Failed)
        }
    }

    fn cut(&mut self, len: u64) -> Result<(), Failed>
        requires { len ≤ length (contents self.old) }
        ensures power { power_of self.new ≡ after_turn (power_of self.old) }
        ensures works { IsOk result
            ↔ ((turn_of (power_of self.old) ≡ Turn.Works) × Takes self.old len) }
        ensures made { turn_of (power_of self.old) ≢ Turn.Fails → Takes self.old len
            → IsCut len (contents self.old) (contents self.new) }
        ensures noted { turn_of (power_of self.old) ≢ Turn.Fails → Takes self.old len
            → noted self.new ≡ noted self.old + 1 }
        ensures changes { turn_of (power_of self.old) ≢ Turn.Fails → Takes self.old len
            → changes_of self.new ≡ changes_of self.old ++ Cut len ∷ [] }
        ensures safe { (stored self.new).safe ≡ (stored self.old).safe }
        ensures fails { turn_of (power_of self.old) ≡ Turn.Fails
            → stored self.new ≡ stored self.old }
        ensures full { (Takes self.old len → ⊥) → stored self.new ≡ stored self.old }
        ensures room { room self.new ≡ room self.old }
        ensures cut { OnOk result
            (Follows (IsCut len) (memory_view self.old).reads (memory_view self.new).reads) }
        ensures leaves { Follows (MayBeCut len) (memory_view self.old).leaves
            (memory_view self.new).leaves }
        ensures time { Elapses (memory_view self.old) (memory_view self.new) }
        ensures switch { (memory_view self.new).switch ≡ (memory_view self.old).switch }
        ensures reached { (memory_view self.new).reached ≡ (memory_view self.old).reached }
        ensures calls { Counted 1 (memory_view self.old).calls (memory_view self.new).calls }
        ensures cause { HasCause (memory_view self.old).faults
            (memory_view self.new).faults result }
    {
        let turn = self.switch.turn();
        if turn == Turn::Fails {
            return Err(Failed);
        }
        if !self.takes(len) {
            self.switch.fault();
            return Err(Failed);
        }
        self.shorten(len as usize);
        if turn == Turn::Works {
            Ok(())
        } else {
            Err(Failed)
        }
    }

    fn sync(&mut self) -> Result<(), Failed>
        ensures power { power_of self.new ≡ after_turn (power_of self.old) }
        ensures works { IsOk result ↔ (turn_of (power_of self.old) ≡ Turn.Works) }
        ensures noted { OnOk result (noted self.new ≡ 0) }
        ensures unsynced { OnErr result (stored self.new ≡ stored self.old) }
        ensures room { room self.new ≡ room self.old }
        ensures durable { OnOk result (IsSettled (memory_view self.new)) }
        ensures reads { Same (memory_view self.old).reads (memory_view self.new).reads }
        ensures leaves { Each (memory_view self.new).leaves (memory_view self.old).leaves }
        ensures time { Elapses (memory_view self.old) (memory_view self.new) }
        ensures switch { (memory_view self.new).switch ≡ (memory_view self.old).switch }
        ensures reached { (memory_view self.new).reached ≡ (memory_view self.old).reached }
        ensures calls { Counted 1 (memory_view self.old).calls (memory_view self.new).calls }
        ensures cause { HasCause (memory_view self.old).faults
            (memory_view self.new).faults result }
    {
        if self.switch.turn() != Turn::Works {
            return Err(Failed);
        }
        self.safe.follow(&self.current, self.clean);
        self.changes.clear();
        self.clean = self.current.len();
        Ok(())
    }
}

impl Power for MemoryDisk {
    ghost armed = { λ d. d.switch.armed };

    ghost is_stopped = { λ d. d.switch.stopped };

    ghost use Rattle.std.specs.Prelude.{refl, Some};
    ghost use Rattle.mqb_outside.specs.Images.{Each};
    ghost use Rattle.mqb_outside.specs.Disk.{Unchanged, Elapses, Counted};
    ghost use Rattle.mqb_disk.specs.Turns.{after_restart};
    ghost use Rattle.mqb_disk.specs.Views.{memory_view, stored, power_of, room, noted, left_after};

    ghost tells = { λ d. (d.current.contents, refl) };

    fn arm(&mut self, call: u32, mode: Mode)
        ensures power { power_of self.new
            ≡ record (power_of self.old) { armed = Some (call, mode) } }
        ensures stored { stored self.new ≡ stored self.old }
        ensures arms { Counted 1 (memory_view self.old).switch.arms
            (memory_view self.new).switch.arms }
        ensures restarts { (memory_view self.new).switch.restarts
            ≡ (memory_view self.old).switch.restarts }
        ensures pick { (memory_view self.new).switch.last_pick
            ≡ (memory_view self.old).switch.last_pick }
        ensures last_left { (memory_view self.new).switch.last_left
            ≡ (memory_view self.old).switch.last_left }
        ensures unchanged { Unchanged (memory_view self.old) (memory_view self.new) }
        ensures time { Elapses (memory_view self.old) (memory_view self.new) }
        ensures reached { (memory_view self.new).reached ≡ (memory_view self.old).reached }
        ensures calls { (memory_view self.new).calls ≡ (memory_view self.old).calls }
        ensures faults { (memory_view self.new).faults ≡ (memory_view self.old).faults }
    {
        self.switch.arm(call, mode);
    }

    fn stopped(&self) -> bool {
        self.switch.stopped
    }

    fn restart(&mut self, pick: Pick)
        ensures left { (memory_view self.new).reads (left_after pick self.old) }
        ensures settled { IsSettled (memory_view self.new) }
        ensures one_of { Each (memory_view self.new).reads (memory_view self.old).leaves }
        ensures power { power_of self.new ≡ after_restart (power_of self.old) }
        ensures noted { noted self.new ≡ 0 }
        ensures room { room self.new ≡ room self.old }
        ensures arms { (memory_view self.new).switch.arms ≡ (memory_view self.old).switch.arms }
        ensures restarts { Counted 1 (memory_view self.old).switch.restarts
            (memory_view self.new).switch.restarts }
        ensures pick { (memory_view self.new).switch.last_pick ≡ Some pick }
        ensures last_left { Each (memory_view self.new).reads
            (λ c. (memory_view self.new).switch.last_left ≡ Some c) }
        ensures reached { (memory_view self.new).reached ≡ (memory_view self.old).reached }
        ensures calls { (memory_view self.new).calls ≡ (memory_view self.old).calls }
        ensures time { Elapses (memory_view self.old) (memory_view self.new) }
        ensures faults { (memory_view self.new).faults ≡ (memory_view self.old).faults }
    {
        replay(&mut self.safe, &self.current, &self.changes, pick);
        self.current.follow(&self.safe, 0);
        self.switch.restart(pick, &self.current);
        self.changes.clear();
        self.clean = self.current.len();
    }
}
