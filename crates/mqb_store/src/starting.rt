ghost use Rattle.std.specs.Prelude.{[], ◌+◌, ◌<◌, ◌≡◌, ◌≢◌, ◌≤◌, Err, IfOk, List, OnOk, length};
ghost use Rattle.std.specs.Prelude.{max, ℕ};
ghost use Rattle.mqb_outside.specs.Disk.{AtMost, Counted, IsSettled, OnlyReads};
ghost use Rattle.mqb_outside.specs.Images.{Each};
ghost use Rattle.mqb_journal.specs.Causes.{FaultsAsSaid, open_failed};
ghost use Rattle.mqb_model.specs.state.Durable.{durable};
ghost use Rattle.mqb_model.specs.state.State.{empty};
ghost use Rattle.mqb_store.specs.Reaching.{ReadsInOrder};
ghost use Rattle.mqb_store.specs.States.{IsStoredOn, IsUp};
ghost use Rattle.mqb_store_laws.specs.Faults.{IsBadStore};
ghost use Rattle.mqb_store_laws.specs.Images.{HasLastLines, OpensTo};
ghost use Rattle.mqb_store_laws.specs.Settling.{OnlySettles};

use crate::replaying::{first, replay_durably};
use crate::spelling::identity_block;
use crate::store::Store;
use mqb_base::{Identity, Roomed};
use mqb_journal::{Journal, OpenFault};
use mqb_outside::Disk;
use mqb_state::State;
use mqb_store_laws::entries_begin;
use std::alloc::Global;

/// How a store begins.
impl Store {
    /// Makes an empty disk the store of a manager with this identity, and nothing else.
    ///
    /// # Errors
    /// `NotEmpty`, `Memory` and `DiskFault`. After `DiskFault` the disk may have any part of the
    /// store, and is formatted anew once it was emptied.
    pub fn format<D: Disk>(
        alloc: Global,
        disk: &mut D,
        identity: &Identity,
    ) -> Result<Store, OpenFault>
        ensures on { IfOk result (IsStoredOn (D.view disk.new)) }
        ensures up { IfOk result IsUp }
        ensures settled { OnOk result (IsSettled (D.view disk.new)) }
        ensures state { IfOk result (λ w. w.state ≡ empty identity.now) }
        ensures guid { IfOk result (λ w. w.journal.guid ≡ identity.now.guid) }
        ensures count { IfOk result (λ w. w.journal.count ≡ 1) }
        ensures lines { IfOk result (λ w. w.lines ≡ []) }
        ensures empty { OnOk result (Each (D.view disk.old).reads (λ c. c ≡ [])) }
        ensures not_empty { result ≡ Err OpenFault.NotEmpty
            → Each (D.view disk.old).reads (λ c. 0 < length c) }
        ensures only_reads { (c : List ℕ) → (D.view disk.old).reads c → 0 < length c
            → OnlyReads (D.view disk.old) (D.view disk.new) }
        ensures not_written { result ≡ Err OpenFault.NotEmpty
            → OnlyReads (D.view disk.old) (D.view disk.new) }
        ensures memory { result ≡ Err OpenFault.Memory → disk.new ≡ disk.old }
        ensures never { (at : ℕ) → result ≢ Err (OpenFault.BadStore at) }
        ensures most { AtMost 7 (D.view disk.old).calls (D.view disk.new).calls }
        ensures calls { OnOk result (Counted 7 (D.view disk.old).calls (D.view disk.new).calls) }
        ensures switch { (D.view disk.new).switch ≡ (D.view disk.old).switch }
        ensures cause { FaultsAsSaid open_failed (D.view disk.old).faults
            (D.view disk.new).faults result }
    {
        entries_begin();
        let block = identity_block(alloc, identity)?;
        let state = State::empty(alloc, identity)?;
        let mut journal = match Journal::format(alloc, disk, identity.guid) {
            Ok(journal) => journal,
            Err(fault) => {
                state.close();
                return Err(fault);
            }
        };
        match journal.append_block(disk, &block) {
            Ok(()) => Ok(Store {
                state,
                journal,
                block,
                lines: Roomed::new(alloc),
                alloc,
            }),
            Err(_) => {
                state.close();
                Err(OpenFault::DiskFault)
            }
        }
    }

    /// The store on a disk: its base is read back, and each record is made on that state as it is
    /// read. Nothing is written, and a sync makes safe what was read.
    ///
    /// # Errors
    /// `BadStore` with the first place where the disk is no store of a manager;
    /// `Memory`; `DiskFault`.
    pub fn start<D: Disk>(alloc: Global, disk: &mut D) -> Result<Store, OpenFault>
        ensures on { IfOk result (IsStoredOn (D.view disk.new)) }
        ensures up { IfOk result IsUp }
        ensures settled { OnOk result (IsSettled (D.view disk.new)) }
        ensures durable { IfOk result (λ w. durable w.state ≡ w.state) }
        ensures opens { IfOk result (λ w. Each (D.view disk.old).reads
            (OpensTo w.journal.guid w.journal.count w.state)) }
        ensures lines { IfOk result (λ w. Each (D.view disk.old).reads
            (HasLastLines w.journal.guid w.lines)) }
        ensures bad { (at : ℕ) → result ≡ Err (OpenFault.BadStore at)
            → Each (D.view disk.old).reads (IsBadStore at) }
        ensures never { result ≢ Err OpenFault.NotEmpty }
        ensures reads { OnlySettles (D.view disk.old) (D.view disk.new) }
        // No further than the gate behind the last record.
        ensures reached { IfOk result (λ w. (D.view disk.new).reached
            ≤ max (D.view disk.old).reached (w.journal.end + 1)) }
        // However it ends: in the order of the records, and no further than the
        // one at which it stops.
        ensures no_further { Each (D.view disk.old).reads
            (ReadsInOrder (D.view disk.old).reached (D.view disk.new).reached) }
        ensures cause { FaultsAsSaid open_failed (D.view disk.old).faults
            (D.view disk.new).faults result }
    {
        let mut scan = Journal::begin(alloc, disk)?;
        let mut state = first(alloc, disk, &mut scan)?;
        match replay_durably(alloc, disk, &mut scan, &mut state) {
            Ok(lines) => Ok(Store {
                state,
                journal: scan.finish(),
                block: Vec::new(alloc),
                lines,
                alloc,
            }),
            Err(fault) => {
                state.close();
                Err(fault)
            }
        }
    }
}
