ghost use Rattle.std.specs.Prelude.{[], ◌≡◌, ◌≢◌, ◌<◌, ◌≤◌, ◌+◌, Err, IfOk, List, OnOk, false, length, max, ℕ};
ghost use Rattle.mqb_outside.specs.Disk.{AtMost, Counted, IsSettled, OnlyReads};
ghost use Rattle.mqb_outside.specs.Images.{Each};
ghost use Rattle.mqb_journal.specs.Causes.{FaultsAsSaid, open_failed};
ghost use Rattle.mqb_model.specs.managers.Manager.{new_manager, unlinked};
ghost use Rattle.mqb_model.specs.managers.Valid.{IsValidManager};
ghost use Rattle.mqb_model.specs.state.Durable.{durable};
ghost use Rattle.mqb_manager.specs.States.{IsOnDisk, IsUp, manager_of};
ghost use Rattle.mqb_store.specs.Reaching.{ReadsInOrder};
ghost use Rattle.mqb_store.specs.mqb_store_laws.Faults.{IsBadStore};
ghost use Rattle.mqb_store.specs.mqb_store_laws.Images.{HasLastLines, OpensTo};
ghost use Rattle.mqb_store.specs.mqb_store_laws.Settling.{OnlySettles};

use mqb_base::Identity;
use mqb_model::{new_is_valid, restarted_is_valid};
use mqb_outside::Disk;
use mqb_session::Session;
use mqb_store::{OpenFault, Store};
use std::alloc::Global;
use std::marker::Model;

/// One manager. It is used with the disk on which it was formatted or started, and writes it alone.
#[derive(Debug, Drop)]
pub struct Manager {
    pub(crate) store: Store,
    pub(crate) session: Option<Session>,
    // For each outgoing row the number that was sent last in it. Rows behind the end have none.
    pub(crate) cursors: Vec<u32>,
    // For each incoming row whether an acknowledgement is owed. Rows behind the end owe none.
    pub(crate) owes: Vec<bool>,
    pub(crate) alloc: Global,
}

impl Model for Manager {
    ghost use Rattle.mqb_manager.specs.States.{ManagerState, manager_of};
    ghost use Rattle.mqb_manager.specs.Seen.{seen};
    ghost use Rattle.mqb_model.specs.managers.Valid.{IsValidManager};

    ghost Value = { ManagerState };

    ghost view = { λ m. seen m.store m.session m.cursors.items m.owes.items };

    ghost invariant = { λ m.
        IsValidManager (manager_of (seen m.store m.session m.cursors.items m.owes.items)) };
}

/// A manager that is not linked.
fn unlinked(alloc: Global, store: Store) -> Manager
    requires up { store.journal.down ≡ false }
    requires valid { IsValidManager (unlinked store.state) }
    ensures store { result.store ≡ store }
    ensures manager { manager_of result ≡ unlinked store.state }
{
    Manager {
        store,
        session: None,
        cursors: Vec::new(alloc),
        owes: Vec::new(alloc),
        alloc,
    }
}

impl Manager {
    /// Makes an empty disk the store of a manager with this identity, and nothing else.
    ///
    /// # Errors
    /// `NotEmpty`: the disk was only read. `Memory`: it was not called. `DiskFault`: a call failed.
    pub fn format<D: Disk>(
        alloc: Global,
        disk: &mut D,
        identity: &Identity,
    ) -> Result<Manager, OpenFault>
        ensures manager { IfOk result (λ n. manager_of n ≡ new_manager identity.now) }
        ensures on { IfOk result (IsOnDisk (D.view disk.new)) }
        ensures up { IfOk result IsUp }
        ensures settled { OnOk result (IsSettled (D.view disk.new)) }
        ensures lines { IfOk result (λ n. n.store.lines ≡ []) }
        ensures guid { IfOk result (λ n. n.store.journal.guid ≡ identity.now.guid) }
        ensures count { IfOk result (λ n. n.store.journal.count ≡ 1) }
        ensures empty { OnOk result (Each (D.view disk.old).reads (λ c. c ≡ [])) }
        ensures not_empty { result ≡ Err OpenFault.NotEmpty
            → Each (D.view disk.old).reads (λ c. 0 < length c) }
        ensures only_reads { (c : List ℕ) → (D.view disk.old).reads c → 0 < length c
            → OnlyReads (D.view disk.old) (D.view disk.new) }
        ensures not_written { result ≡ Err OpenFault.NotEmpty
            → OnlyReads (D.view disk.old) (D.view disk.new) }
        ensures memory { result ≡ Err OpenFault.Memory → disk.new ≡ disk.old }
        ensures never { (at : ℕ) → result ≢ Err (OpenFault.BadStore at) }
        ensures most { AtMost 7 (D.view disk.old).calls (D.view disk.new).calls }
        ensures calls { OnOk result (Counted 7 (D.view disk.old).calls (D.view disk.new).calls) }
        ensures switch { (D.view disk.new).switch ≡ (D.view disk.old).switch }
        ensures cause { FaultsAsSaid open_failed (D.view disk.old).faults
            (D.view disk.new).faults result }
    {
        new_is_valid();
        match Store::format(alloc, disk, identity) {
            Ok(store) => Ok(unlinked(alloc, store)),
            Err(fault) => Err(fault),
        }
    }

    /// The manager on a disk, which is read and synced, and not written. It is up and not linked.
    ///
    /// # Errors
    /// `BadStore` with the first place where the disk is no manager's store; `Memory`; `DiskFault`.
    pub fn start<D: Disk>(alloc: Global, disk: &mut D) -> Result<Manager, OpenFault>
        ensures manager { IfOk result (λ n. manager_of n ≡ unlinked n.store.state) }
        ensures durable { IfOk result (λ n. durable n.store.state ≡ n.store.state) }
        ensures on { IfOk result (IsOnDisk (D.view disk.new)) }
        ensures up { IfOk result IsUp }
        ensures settled { OnOk result (IsSettled (D.view disk.new)) }
        ensures opens { IfOk result (λ n. Each (D.view disk.old).reads
            (OpensTo n.store.journal.guid n.store.journal.count n.store.state)) }
        ensures lines { IfOk result (λ n. Each (D.view disk.old).reads
            (HasLastLines n.store.journal.guid n.store.lines)) }
        ensures bad { (at : ℕ) → result ≡ Err (OpenFault.BadStore at)
            → Each (D.view disk.old).reads (IsBadStore at) }
        ensures never { result ≢ Err OpenFault.NotEmpty }
        ensures reads { OnlySettles (D.view disk.old) (D.view disk.new) }
        ensures reached { IfOk result (λ n. (D.view disk.new).reached
            ≤ max (D.view disk.old).reached (n.store.journal.end + 1)) }
        ensures no_further { Each (D.view disk.old).reads
            (ReadsInOrder (D.view disk.old).reached (D.view disk.new).reached) }
        ensures cause { FaultsAsSaid open_failed (D.view disk.old).faults
            (D.view disk.new).faults result }
    {
        restarted_is_valid();
        match Store::start(alloc, disk) {
            Ok(store) => {
                let _state = store.state();
                Ok(unlinked(alloc, store))
            }
            Err(fault) => Err(fault),
        }
    }

    /// Lets the manager go; whatever it recorded stays on its disk. Where a manager ends by this call, how it ends is not proved again.
    pub fn close(self) {
        self.store.close();
    }
}
