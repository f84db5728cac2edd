ghost use Rattle.std.specs.Prelude.{◌≡◌, IfErr, IfOk, OnOk};
ghost use Rattle.mqb_outside.specs.Disk.{IsSettled};
ghost use Rattle.mqb_commands.specs.Opened.{IsNotOpened, OpensAs};
ghost use Rattle.mqb_journal.specs.Causes.{FaultsAsSaid};
ghost use Rattle.mqb_commands.specs.Causes.{is_disk_fault, open_status};
ghost use Rattle.mqb_answers.specs.mqb_manager.States.{IsOnDisk};
ghost use Rattle.mqb_store_laws.specs.Settling.{OnlySettles};

use crate::Status;
use mqb_answers::{Manager, OpenFault};
use mqb_outside::Disk;
use std::alloc::Global;

/// The end that a fault of opening is.
pub(crate) fn open_status(fault: OpenFault) -> Status
    ensures { result ≡ open_status fault }
{
    match fault {
        OpenFault::NotEmpty => Status::NotEmpty,
        OpenFault::BadStore { at } => Status::BadStore { at },
        OpenFault::Memory => Status::Memory,
        OpenFault::DiskFault => Status::DiskFault,
    }
}

/// The manager of the store that a disk is. It is up, and not linked.
///
/// # Errors
/// `BadStore`, `DiskFault` or `Memory`.
pub fn open<D: Disk>(alloc: Global, disk: &mut D) -> Result<Manager, Status>
    ensures opened { IfOk result (OpensAs (D.view disk.old)) }
    ensures fails { IfErr result (IsNotOpened (D.view disk.old) (D.view disk.new)) }
    ensures reads { OnlySettles (D.view disk.old) (D.view disk.new) }
    ensures settled { OnOk result (IsSettled (D.view disk.new)) }
    ensures on { IfOk result (IsOnDisk (D.view disk.new)) }
    ensures cause { FaultsAsSaid is_disk_fault (D.view disk.old).faults
        (D.view disk.new).faults result }
{
    match Manager::start(alloc, disk) {
        Ok(manager) => Ok(manager),
        Err(fault) => Err(open_status(fault)),
    }
}
