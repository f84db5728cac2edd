ghost use Rattle.std.specs.Prelude.{◌≡◌, ◌+◌, ◌<◌, ◌≤◌, max, ℕ, List, [], ◌∷◌, ◌++◌, length, take};
ghost use Rattle.std.specs.Prelude.{vec_len, true, false, None, Err, IfOk, IfSome, OnOk};
ghost use Rattle.mqb_outside.specs.Images.{Each};
ghost use Rattle.mqb_outside.specs.Disk.{OnlyReads, AtMost};
ghost use Rattle.mqb_outside.specs.declared.disk.TheConstants.{MAX_DISK};
ghost use Rattle.std.specs.Option.{option_map, option_map_or};
ghost use Rattle.mqb_layout.specs.declared.limits.TheConstants.{MOST_COUNT};
ghost use Rattle.mqb_layout.specs.Layouts.{IsWithinStore};
ghost use Rattle.mqb_journal.specs.Store.{Base};
ghost use Rattle.mqb_journal.specs.States.{begun, advanced, ended, finished};
ghost use Rattle.mqb_layout.specs.Gates.{HasGate, IsClosedAt};
ghost use Rattle.mqb_journal.specs.Scan.{HasNext, IsBadAt, ReadsOnlyAt};
ghost use Rattle.mqb_journal.specs.Causes.{FaultsAsSaid, scan_failed};

use crate::faults::ScanFault;
use crate::front::Front;
use crate::journal::Journal;
use crate::limits::MAX_RECORD;
use crate::reading::read_next;
use mqb_base::Guid;
use mqb_layout::Layout;
use mqb_outside::Disk;
use std::alloc::Global;
use std::marker::Model;

/// A store that is read one record at a time. It is used with the disk on which it was begun, and
/// nobody writes that meanwhile.
#[derive(Debug, Drop)]
pub struct Scan {
    alloc: Global,
    guid: Guid,
    later: Option<Layout>,
    len: u64,
    // Where the next gate stands.
    gate: u64,
    // The gate of the record that was lent last, or the first gate.
    place: u64,
    count: u64,
    base: Option<Vec<u8>>,
    // Whether the next gate is open, which was read with what stands before it.
    is_open: bool,
    ended: bool,
    // How long the record is that stands at the buffer's front.
    held: u32,
    buffer: Vec<u8>,
}

impl Model for Scan {
    ghost use Rattle.std.specs.Prelude.{◌≡◌, ◌<◌, ◌≤◌, take, vec_len};
    ghost use Rattle.mqb_outside.specs.declared.disk.TheConstants.{MAX_DISK};
    ghost use Rattle.mqb_journal.specs.declared.limits.TheConstants.{MAX_RECORD};
    ghost use Rattle.std.specs.Option.{option_map};
    ghost use Rattle.mqb_journal.specs.States.{ScanState, IsWithin};

    ghost Value = { ScanState };

    ghost view = { λ s. record {
      guid = s.guid;
      later = s.later;
      len = s.len;
      gate = s.gate;
      place = s.place;
      count = s.count;
      base = option_map (λ v. v.items) s.base;
      lent = take s.held s.buffer.items;
      is_open = s.is_open;
      ended = s.ended;
    } };

    ghost invariant = { λ s.
        IsWithin s.len s.gate s.place s.count s.held (vec_len s.buffer) s.later };
}

impl Scan {
    ghost use Rattle.std.specs.Borrow.{sem};
    ghost use Rattle.mqb_journal.specs.Journals.{Lent};
    ghost use Rattle.mqb_journal.specs.Next.{EndsAs};

    /// Before the first record.
    pub(crate) fn new(alloc: Global, front: Front, len: u64, is_open: bool, buffer: Vec<u8>) -> Scan
        requires bound { len ≤ MAX_DISK }
        requires within { front.first < len }
        requires laid { IsWithinStore front.later front.first }
        requires counted { front.count ≤ MOST_COUNT }
        requires room { vec_len buffer ≡ MAX_RECORD + 1 }
        ensures { result ≡ begun front.guid front.later len front.first front.count
            (option_map (λ v. v.items) front.base) is_open [] }
    {
        Scan {
            alloc,
            guid: front.guid,
            later: front.later,
            len,
            gate: front.first,
            place: front.first,
            count: front.count,
            base: front.base,
            is_open,
            ended: false,
            held: 0,
            buffer,
        }
    }

    /// The base behind which the chain stands, once. None where the store has none.
    pub fn take_base(&mut self) -> Option<Vec<u8>>
        ensures taken { option_map (λ v. v.items) result ≡ self.old.base }
        ensures gone { self.new ≡ record self.old { base = None } }
    {
        self.base.take()
    }

    /// Where the area in use stands; 0 in a store that has none.
    pub fn area(&self) -> u64
        ensures { result ≡ option_map_or (λ l. l.place) self.now.later 0 }
    {
        match self.later {
            Some(later) => later.place,
            None => 0,
        }
    }

    /// Reads the next record, and answers whether there is one. `record` lends it.
    pub fn advance<D: Disk>(&mut self, disk: &mut D) -> Result<bool, ScanFault>
        requires going { self.old.ended ≡ false }
        requires long { Each (D.view disk.old).reads (λ c. self.old.len ≡ length c) }
        requires gate { Each (D.view disk.old).reads (HasGate self.old.gate self.old.is_open) }
        ensures more { (base : Base) (records : List (List ℕ))
            → Lent (D.view disk.old) self.old base records
            → IfOk result (λ more. more ≡ true
            → Lent (D.view disk.new) self.new base (records ++ self.new.lent ∷ [])) }
        ensures all { (base : Base) (records : List (List ℕ))
            → Lent (D.view disk.old) self.old base records
            → IfOk result (λ more. more ≡ false → Lent (D.view disk.new) self.new base records) }
        ensures next { IfOk result (λ more. more ≡ true
            → Each (D.view disk.old).reads (HasNext self.old.gate self.new.lent)) }
        ensures none { IfOk result (λ more. more ≡ false
            → Each (D.view disk.old).reads (IsClosedAt self.old.gate)) }
        ensures advanced { IfOk result (λ more. more ≡ true
            → self.new ≡ advanced self.old self.new.lent self.new.is_open) }
        ensures ended { IfOk result (λ more. more ≡ false → self.new ≡ ended self.old) }
        ensures within { self.new.gate < self.new.len }
        ensures bad { (at : ℕ) → result ≡ Err (ScanFault.BadStore at)
            → (at ≡ self.old.gate) × Each (D.view disk.old).reads (IsBadAt at) }
        ensures not_bad { OnOk result
            (Each (D.view disk.old).reads (λ c. IsBadAt self.old.gate c → ⊥)) }
        ensures reads { OnlyReads (D.view disk.old) (D.view disk.new) }
        // No further than the gate behind the record that it lends.
        ensures reached { OnOk result
            ((D.view disk.new).reached ≤ max (D.view disk.old).reached (self.new.gate + 1)) }
        ensures bad_reached { (at : ℕ) → result ≡ Err (ScanFault.BadStore at)
            → (D.view disk.new).reached ≤ max (D.view disk.old).reached (at + 5) }
        ensures furthest { (D.view disk.new).reached
            ≤ max (D.view disk.old).reached (self.old.gate + 6 + MAX_RECORD) }
        // However it ends.
        ensures no_further { Each (D.view disk.old).reads (ReadsOnlyAt self.old.gate
            (D.view disk.old).reached (D.view disk.new).reached) }
        ensures most { AtMost 2 (D.view disk.old).calls (D.view disk.new).calls }
        ensures cause { FaultsAsSaid scan_failed (D.view disk.old).faults
            (D.view disk.new).faults result }
    {
        if !self.is_open {
            self.ended = true;
            return Ok(false);
        }
        let (n, is_open) = read_next(disk, self.gate, self.len, &mut self.buffer)?;
        self.place = self.gate;
        self.held = n;
        self.count += 1;
        self.gate += 5 + u64::from(n);
        self.is_open = is_open;
        Ok(true)
    }

    /// The next record, lent from the buffer. None exactly at a gate that is not open. After a
    /// fault the scan is used no more.
    pub fn next<D: Disk>(&mut self, disk: &mut D) -> Result<Option<&[u8]>, ScanFault>
        requires going { self.old.ended ≡ false }
        requires long { Each (D.view disk.old).reads (λ c. self.old.len ≡ length c) }
        requires gate { Each (D.view disk.old).reads (HasGate self.old.gate self.old.is_open) }
        ensures* rests { sem 𝓛 (EndsAs (D.view disk.old) (D.view disk.new) self.entry result) }
        ensures next { IfOk result
            (λ next. IfSome next
            (λ entry. Each (D.view disk.old).reads (HasNext self.old.gate entry.now))) }
        ensures none { IfOk result (λ next. next ≡ None
            → Each (D.view disk.old).reads (IsClosedAt self.old.gate)) }
        ensures bad { (at : ℕ) → result ≡ Err (ScanFault.BadStore at)
            → (at ≡ self.old.gate) × Each (D.view disk.old).reads (IsBadAt at) }
        ensures not_bad { OnOk result
            (Each (D.view disk.old).reads (λ c. IsBadAt self.old.gate c → ⊥)) }
        ensures reads { OnlyReads (D.view disk.old) (D.view disk.new) }
        ensures bad_reached { (at : ℕ) → result ≡ Err (ScanFault.BadStore at)
            → (D.view disk.new).reached ≤ max (D.view disk.old).reached (at + 5) }
        ensures furthest { (D.view disk.new).reached
            ≤ max (D.view disk.old).reached (self.old.gate + 6 + MAX_RECORD) }
        // However it ends.
        ensures no_further { Each (D.view disk.old).reads (ReadsOnlyAt self.old.gate
            (D.view disk.old).reached (D.view disk.new).reached) }
        ensures most { AtMost 2 (D.view disk.old).calls (D.view disk.new).calls }
        ensures cause { FaultsAsSaid scan_failed (D.view disk.old).faults
            (D.view disk.new).faults result }
    {
        if self.advance(disk)? {
            Ok(Some(self.record()))
        } else {
            Ok(None)
        }
    }

    /// The record that was lent last; nothing before the first.
    pub fn record(&self) -> &[u8]
        ensures lent { result.now ≡ self.now.lent }
        ensures small { length result.now ≤ MAX_RECORD }
    {
        &self.buffer[..self.held as usize]
    }

    /// The gate of the record that was lent last; before the first, the first gate of the chain.
    pub fn place(&self) -> u64
        ensures place { result ≡ self.now.place }
        ensures bound { result ≤ MAX_DISK }
    {
        self.place
    }

    /// The length of the record that was lent last.
    pub fn held(&self) -> u32
        ensures length { result ≡ length self.now.lent }
        ensures small { result ≤ MAX_RECORD }
    {
        self.held
    }

    /// The GUID in the store's header.
    pub fn guid(&self) -> Guid
        ensures { result ≡ self.now.guid }
    {
        self.guid
    }

    /// The journal that goes on from the records that were lent.
    pub fn finish(self) -> Journal
        requires { self.ended ≡ true }
        ensures { result ≡ finished self result.room }
    {
        Journal::after(self.alloc, self.guid, self.later, self.gate, self.count)
    }
}
