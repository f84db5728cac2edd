ghost use Rattle.std.specs.Prelude.{◌≡◌, ◌≢◌, ◌↔◌, ◌+◌, ◌^◌, ◌<◌, ◌≤◌, max, ℕ, List, [], ◌∷◌, ◌++◌};
ghost use Rattle.std.specs.Prelude.{length, true, false, Err, IfOk, OnOk, OnErr};
ghost use Rattle.mqb_outside.specs.Faults.{HasCause};
ghost use Rattle.mqb_outside.specs.Images.{Each, Follows, Written};
ghost use Rattle.mqb_outside.specs.Disk.{IsSettled, LeavesOnly, OnlyReads, Counted, AtMost};
ghost use Rattle.mqb_outside.specs.declared.disk.TheConstants.{MAX_DISK};
ghost use Rattle.mqb_journal.specs.Blocks.{IsBlock, record_of_block};
ghost use Rattle.mqb_journal.specs.Store.{Base, Nothing, IsBeforeOrAfter, bytes_in, framed};
ghost use Rattle.mqb_layout.specs.Layouts.{IsWithinStore};
ghost use Rattle.mqb_layout.specs.Store.{header};
ghost use Rattle.mqb_layout.specs.declared.limits.TheConstants.{MOST_HEAD, HEAD, AREA};
ghost use Rattle.mqb_journal.specs.States.{appended};
ghost use Rattle.mqb_journal.specs.Scan.{HasNoFront, ReadsOnlyFront};
ghost use Rattle.mqb_journal.specs.Causes.{FaultsAsSaid, open_failed, append_failed};

use crate::durable::{write_behind, write_durably};
use crate::faults::{AppendFault, OpenFault};
use crate::framing::{begin_block, close_block};
use crate::front::front_at;
use crate::limits::{FIRST_BLOCK, MAX_RECORD};
use crate::reading::reserve;
use crate::scan::Scan;
use mqb_base::{Failed, Guid};
use mqb_layout::{HEADER, Layout, MIN_STORE, empty_store, is_open_at};
use mqb_outside::Disk;
use std::alloc::Global;
use std::marker::Model;
use std::mem::replace;

/// The journal of one store. It is used with the disk on which it was formatted or begun, and
/// nobody else writes that.
#[derive(Debug, Drop)]
pub struct Journal {
    pub(crate) alloc: Global,
    pub(crate) guid: Guid,
    pub(crate) later: Option<Layout>,
    // Where the closed gate stands.
    pub(crate) end: u64,
    pub(crate) count: u64,
    pub(crate) down: bool,
    block: Vec<u8>,
}

impl Model for Journal {
    ghost use Rattle.std.specs.Prelude.{◌+◌, ◌^◌, ◌<◌, ◌≤◌, vec_capacity};
    ghost use Rattle.mqb_outside.specs.declared.disk.TheConstants.{MAX_DISK};
    ghost use Rattle.mqb_journal.specs.States.{JournalState};
    ghost use Rattle.mqb_layout.specs.Layouts.{IsWithinStore};

    ghost Value = { JournalState };

    ghost view = { λ j. record {
      guid = j.guid;
      later = j.later;
      end = j.end;
      count = j.count;
      down = j.down;
      room = vec_capacity j.block;
    } };

    ghost invariant = { λ j. (j.end < MAX_DISK) × (j.count ≤ 2 ^ 63 + j.end)
        × IsWithinStore j.later j.end };
}

impl Journal {
    ghost use Rattle.mqb_journal.specs.Journals.{GoesOn, Lent, Refused};

    /// Makes an empty disk a store without records. The first record of at most 128 bytes
    /// then needs no memory.
    pub fn format<D: Disk>(alloc: Global, disk: &mut D, guid: Guid) -> Result<Journal, OpenFault>
        ensures formatted { IfOk result (λ journal. GoesOn (D.view disk.new) journal Nothing []) }
        ensures wrote { OnOk result
            (Each (D.view disk.new).reads (λ c. c ≡ header guid.0 ++ 0 ∷ [])) }
        ensures settled { OnOk result (IsSettled (D.view disk.new)) }
        ensures guid { IfOk result (λ journal. journal.guid ≡ guid) }
        ensures room { IfOk result (λ journal. FIRST_BLOCK ≤ journal.room) }
        ensures empty { OnOk result (Each (D.view disk.old).reads (λ c. c ≡ [])) }
        ensures not_empty { result ≡ Err OpenFault.NotEmpty
            → Each (D.view disk.old).reads (λ c. 0 < length c) }
        ensures not_written { result ≡ Err OpenFault.NotEmpty
            → OnlyReads (D.view disk.old) (D.view disk.new) }

        // A disk that is not empty is only read, whatever is answered.
        ensures only_reads { (c : List ℕ) → (D.view disk.old).reads c → 0 < length c
            → OnlyReads (D.view disk.old) (D.view disk.new) }
        ensures memory { result ≡ Err OpenFault.Memory → disk.new ≡ disk.old }
        ensures never { (at : ℕ) → result ≢ Err (OpenFault.BadStore at) }
        ensures reached { (D.view disk.new).reached ≡ (D.view disk.old).reached }
        ensures calls { OnOk result (Counted 3 (D.view disk.old).calls (D.view disk.new).calls) }
        ensures most { AtMost 3 (D.view disk.old).calls (D.view disk.new).calls }
        ensures switch { (D.view disk.new).switch ≡ (D.view disk.old).switch }
        ensures cause { FaultsAsSaid open_failed (D.view disk.old).faults
            (D.view disk.new).faults result }
    {
        let block = Vec::with_capacity(alloc, FIRST_BLOCK).map_err(|_| OpenFault::Memory)?;
        if disk.len()? > 0 {
            return Err(OpenFault::NotEmpty);
        }
        write_durably(disk, 0, &empty_store(guid))?;
        Ok(Journal {
            alloc,
            guid,
            later: None,
            end: HEADER,
            count: 0,
            down: false,
            block,
        })
    }

    /// Begins to read the store on a disk, by what stands before its first gate. It reserves one
    /// buffer for the longest record, and room for the base.
    pub fn begin<D: Disk>(alloc: Global, disk: &mut D) -> Result<Scan, OpenFault>
        ensures begun { IfOk result (λ scan. (base : Base)
            × Lent (D.view disk.new) scan base [] × (scan.base ≡ bytes_in base)) }
        ensures going { IfOk result (λ scan. scan.ended ≡ false) }
        ensures place { IfOk result (λ scan. scan.place ≡ scan.gate) }
        ensures within { IfOk result (λ scan. scan.gate < scan.len) }
        ensures bad { (at : ℕ) → result ≡ Err (OpenFault.BadStore at)
            → Each (D.view disk.old).reads (HasNoFront at) }
        ensures not_bad { OnOk result
            (Each (D.view disk.old).reads (λ c. (at : ℕ) → HasNoFront at c → ⊥)) }
        ensures never { result ≢ Err OpenFault.NotEmpty }
        ensures reads { OnlyReads (D.view disk.old) (D.view disk.new) }
        // Nothing behind the first gate, which in version 1 stands behind the header.
        ensures reached { IfOk result
            (λ scan. (D.view disk.new).reached ≤ max (D.view disk.old).reached (scan.gate + 1)) }
        ensures bad_reached { (at : ℕ) → result ≡ Err (OpenFault.BadStore at)
            → (D.view disk.new).reached
            ≤ max (D.view disk.old).reached (max (MOST_HEAD + HEAD) (at + AREA)) }
        // However it ends.
        ensures no_further { Each (D.view disk.old).reads
            (ReadsOnlyFront (D.view disk.old).reached (D.view disk.new).reached) }
        ensures most { AtMost 8 (D.view disk.old).calls (D.view disk.new).calls }
        ensures cause { FaultsAsSaid open_failed (D.view disk.old).faults
            (D.view disk.new).faults result }
    {
        let buffer = reserve(alloc)?;
        let len = disk.len()?;
        if len < MIN_STORE {
            return Err(OpenFault::BadStore { at: 0 });
        }
        let front = front_at(alloc, disk, len)?;
        let is_open = is_open_at(disk, front.first)?;
        Ok(Scan::new(alloc, front, len, is_open, buffer))
    }

    /// The journal behind so many records, whose closed gate stands at `end`.
    pub(crate) fn after(
        alloc: Global,
        guid: Guid,
        later: Option<Layout>,
        end: u64,
        count: u64,
    ) -> Journal
        requires within { end < MAX_DISK }
        requires count { count ≤ 2 ^ 63 + end }
        requires laid { IsWithinStore later end }
        ensures { result ≡ record {
          guid = guid;
          later = later;
          end = end;
          count = count;
          down = false;
          room = result.room;
        } }
    {
        Journal {
            alloc,
            guid,
            later,
            end,
            count,
            down: false,
            block: Vec::new(alloc),
        }
    }

    /// Adds a record, by four calls of the disk. At `Ok` each crash from then on leaves it.
    pub fn append<D: Disk>(&mut self, disk: &mut D, entry: &[u8]) -> Result<(), AppendFault>
        requires { self.old.down ≡ false
            → Each (D.view disk.old).reads (λ c. self.old.end < length c) }
        ensures done { (base : Base) (records : List (List ℕ))
            → GoesOn (D.view disk.old) self.old base records
            → OnOk result (GoesOn (D.view disk.new) self.new base (records ++ entry.now ∷ [])) }
        // The gate is opened, behind it stand the length, the record and a closed gate, and
        // all else is as it was.
        ensures wrote { OnOk result (Follows (Written self.old.end (framed entry.now ++ 0 ∷ []))
            (D.view disk.old).reads (D.view disk.new).reads) }
        ensures settled { OnOk result (IsSettled (D.view disk.new)) }

        // A crash at any moment of the call leaves the records from before it, with
        // the new one or without.
        ensures moments { (base : Base) (records : List (List ℕ))
            → GoesOn (D.view disk.old) self.old base records
            → IsSettled (D.view disk.old)
            → LeavesOnly (D.view disk.old) (D.view disk.new)
            (IsBeforeOrAfter self.old.guid.0 base records entry.now) }
        ensures down { (result ≡ Err AppendFault.Down) ↔ (self.old.down ≡ true) }
        ensures too_large { (result ≡ Err AppendFault.TooLarge)
            ↔ ((self.old.down ≡ false) × (MAX_RECORD < length entry.now)) }
        ensures ready { length entry.now + 5 ≤ self.old.room → result ≢ Err AppendFault.Memory }
        ensures appended { OnOk result
            (self.new ≡ record (appended self.old (length entry.now)) { room = self.new.room }) }
        ensures refused { Refused result
            → (disk.new ≡ disk.old) × (self.new ≡ record self.old { room = self.new.room }) }
        ensures failed { result ≡ Err AppendFault.DiskFault
            → self.new ≡ record self.old { down = true; room = self.new.room } }
        ensures room { self.old.room ≤ self.new.room }
        ensures reached { (D.view disk.new).reached ≡ (D.view disk.old).reached }
        ensures calls { OnOk result (Counted 4 (D.view disk.old).calls (D.view disk.new).calls) }
        ensures most { AtMost 4 (D.view disk.old).calls (D.view disk.new).calls }
        ensures switch { (D.view disk.new).switch ≡ (D.view disk.old).switch }
        ensures cause { FaultsAsSaid append_failed (D.view disk.old).faults
            (D.view disk.new).faults result }
    {
        if self.down {
            return Err(AppendFault::Down);
        }
        if entry.len() > MAX_RECORD {
            return Err(AppendFault::TooLarge);
        }
        begin_block(&mut self.block)?;
        if self.block.extend_from_slice(entry).is_err() {
            return Err(AppendFault::Memory);
        }
        close_block(&mut self.block)?;
        let block = replace(&mut self.block, Vec::new(self.alloc));
        let done = self.append_block(disk, &block);
        self.block = block;
        match done {
            Ok(()) => Ok(()),
            Err(_) => Err(AppendFault::DiskFault),
        }
    }

    /// Adds the record of a closed block, by four calls of the disk. At `Ok` each crash
    /// from then on leaves it.
    pub fn append_block<D: Disk>(&mut self, disk: &mut D, block: &[u8]) -> Result<(), Failed>
        requires up { self.old.down ≡ false }
        requires gate { Each (D.view disk.old).reads (λ c. self.old.end < length c) }
        requires closed { IsBlock block.now }
        ensures done { (base : Base) (records : List (List ℕ))
            → GoesOn (D.view disk.old) self.old base records
            → OnOk result (GoesOn (D.view disk.new) self.new base
            (records ++ record_of_block block.now ∷ [])) }
        // The gate is opened, behind it stands the block, and all else is as it was.
        ensures wrote { OnOk result (Follows (Written self.old.end (1 ∷ block.now))
            (D.view disk.old).reads (D.view disk.new).reads) }
        ensures settled { OnOk result (IsSettled (D.view disk.new)) }

        // A crash at any moment of the call leaves the records from before it, with
        // the new one or without.
        ensures moments { (base : Base) (records : List (List ℕ))
            → GoesOn (D.view disk.old) self.old base records
            → IsSettled (D.view disk.old)
            → LeavesOnly (D.view disk.old) (D.view disk.new)
            (IsBeforeOrAfter self.old.guid.0 base records (record_of_block block.now)) }
        ensures appended { OnOk result
            (self.new ≡ appended self.old (length (record_of_block block.now))) }
        ensures failed { OnErr result (self.new ≡ record self.old { down = true }) }
        ensures reached { (D.view disk.new).reached ≡ (D.view disk.old).reached }
        ensures calls { OnOk result (Counted 4 (D.view disk.old).calls (D.view disk.new).calls) }
        ensures most { AtMost 4 (D.view disk.old).calls (D.view disk.new).calls }
        ensures switch { (D.view disk.new).switch ≡ (D.view disk.old).switch }
        ensures cause { HasCause (D.view disk.old).faults (D.view disk.new).faults result }
    {
        let Ok(()) = write_behind(disk, self.end, block) else {
            self.down = true;
            return Err(Failed);
        };
        self.end += block.len() as u64;
        self.count += 1;
        Ok(())
    }

    /// How many records there were since the store was formatted.
    pub fn lsn(&self) -> u64
        ensures { result ≡ self.now.count }
    {
        self.count
    }

    /// Whether an append or a checkpoint has failed.
    pub fn is_down(&self) -> bool
        ensures { result ≡ self.now.down }
    {
        self.down
    }

    /// The GUID in the store's header.
    pub fn guid(&self) -> Guid
        ensures { result ≡ self.now.guid }
    {
        self.guid
    }
}
