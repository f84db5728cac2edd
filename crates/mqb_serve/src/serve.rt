ghost use Rattle.std.specs.Prelude.{◌≡◌, ◌≢◌, Err, None};
ghost use Rattle.mqb_journal.specs.Causes.{FaultsAsSaid};
ghost use Rattle.mqb_manager.specs.States.{IsOnDisk, IsUp};
ghost use Rattle.mqb_manager.specs.Keeping.{KeepsDisk};
ghost use Rattle.mqb_serve.specs.Talking.{Keeps, stored_of};
ghost use Rattle.mqb_serving.specs.Serving.{Serves, ServesWhole, answer_of, is_disk_fault};
ghost use Rattle.mqb_serving.specs.Serving.{is_read_fault, is_write_fault};
ghost use Rattle.mqb_serving.specs.Steps.{Converses, Stands};
ghost use Rattle.mqb_serving.specs.Conversations.{Conversation, no_bytes};

use crate::talk::{End, Talk};
use mqb_manager::Manager;
use mqb_outside::{Conn, Disk};
use mqb_serving::{ConnFault, Errand, Purpose, WINDOW};
use std::alloc::Global;

/// The most bytes that are read at a time.
const MAX_PIECE: usize = 65_536;

/// Converses over a connection, from a manager that was linked.
fn converse<D: Disk, C: Conn>(
    alloc: Global,
    disk: &mut D,
    manager: &mut Manager,
    purpose: Purpose,
    conn: &mut C,
    now: u32,
) -> Result<End, ConnFault>
    requires up { IsUp manager.old }
    requires on { IsOnDisk (D.view disk.old) manager.old }
    ensures converses { (c : Conversation) →
        Stands c purpose now (stored_of manager.old) no_bytes →
        Converses c (C.held conn.old) (C.held conn.new) (C.taken conn.old) (C.taken conn.new)
        (stored_of manager.new) result }
    ensures keeps { Keeps (D.view disk.old) (D.view disk.new) manager.old manager.new result }
    ensures write_faults { FaultsAsSaid is_write_fault (C.write_faults conn.old)
        (C.write_faults conn.new) result }
    ensures read_faults { FaultsAsSaid is_read_fault (C.read_faults conn.old)
        (C.read_faults conn.new) result }
    ensures given { C.given conn.new ≡ C.given conn.old }
    ensures address { C.address conn.new ≡ C.address conn.old }
    ensures lent { C.lent conn.new ≡ C.lent conn.old }
{
    let mut talk = Talk::new(alloc, purpose, now)?;
    let Ok(mut buffer) = Vec::from_elem(alloc, 0, MAX_PIECE) else {
        return Err(ConnFault::Memory);
    };
    talk.converse(disk, manager, conn, &mut buffer)
}

/// An end as an answer.
fn answer_of(end: End) -> Result<(), ConnFault>
    ensures { result ≡ answer_of end }
{
    match end {
        Ok(()) => Ok(()),
        Err(why) => Err(ConnFault::Peer(why)),
    }
}

fn is_disk_fault(fault: &ConnFault) -> bool
    ensures { result ≡ is_disk_fault fault.now }
{
    matches!(fault, ConnFault::DiskFault)
}

/// Links a manager, converses for a purpose, and forgets the connection. A manager that is
/// down has forgotten it.
fn serve<D: Disk, C: Conn>(
    alloc: Global,
    disk: &mut D,
    manager: &mut Manager,
    purpose: Purpose,
    conn: &mut C,
    now: u32,
) -> Result<(), ConnFault>
    requires up { IsUp manager.old }
    requires on { IsOnDisk (D.view disk.old) manager.old }
    ensures served { Serves purpose now (stored_of manager.old) (stored_of manager.new)
        (C.held conn.old) (C.held conn.new) (C.taken conn.old) (C.taken conn.new) result }
    ensures whole { ServesWhole result purpose now (stored_of manager.old) (stored_of manager.new)
        (C.held conn.old) (C.taken conn.old) (C.taken conn.new) }
    ensures unlinked { manager.new.session ≡ None }
    ensures up { result ≢ Err ConnFault.DiskFault → IsUp manager.new }
    ensures disk { KeepsDisk (D.view disk.old) (D.view disk.new) manager.old manager.new }
    ensures disk_faults { FaultsAsSaid is_disk_fault (D.view disk.old).faults
        (D.view disk.new).faults result }
    ensures read_faults { FaultsAsSaid is_read_fault (C.read_faults conn.old)
        (C.read_faults conn.new) result }
    ensures write_faults { FaultsAsSaid is_write_fault (C.write_faults conn.old)
        (C.write_faults conn.new) result }
    ensures given { C.given conn.new ≡ C.given conn.old }
    ensures address { C.address conn.new ≡ C.address conn.old }
    ensures lent { C.lent conn.new ≡ C.lent conn.old }
{
    let _linked = manager.link(purpose.role(), WINDOW);
    match converse(alloc, disk, manager, purpose, conn, now) {
        Ok(end) => {
            manager.unlink();
            answer_of(end)
        }
        Err(fault) => {
            if is_disk_fault(&fault) {
                return Err(fault);
            }
            manager.unlink();
            Err(fault)
        }
    }
}

/// Serves one connection that a peer made: the manager waits to be asked for a session. All calls
/// have the moment `now`, in seconds.
///
/// # Errors
/// `Peer`: the connection ended badly, by what the peer did. `ReadFault`, `WriteFault`, `Memory`:
/// it was cut short. `DiskFault`: the manager is down.
pub fn serve_one<D: Disk, C: Conn>(
    alloc: Global,
    disk: &mut D,
    manager: &mut Manager,
    conn: &mut C,
    now: u32,
) -> Result<(), ConnFault>
    requires up { IsUp manager.old }
    requires on { IsOnDisk (D.view disk.old) manager.old }
    ensures served { Serves Purpose.Serve now (stored_of manager.old) (stored_of manager.new)
        (C.held conn.old) (C.held conn.new) (C.taken conn.old) (C.taken conn.new) result }
    ensures whole { ServesWhole result Purpose.Serve now (stored_of manager.old)
        (stored_of manager.new) (C.held conn.old) (C.taken conn.old) (C.taken conn.new) }
    ensures unlinked { manager.new.session ≡ None }
    ensures up { result ≢ Err ConnFault.DiskFault → IsUp manager.new }
    ensures disk { KeepsDisk (D.view disk.old) (D.view disk.new) manager.old manager.new }
    ensures disk_faults { FaultsAsSaid is_disk_fault (D.view disk.old).faults
        (D.view disk.new).faults result }
    ensures read_faults { FaultsAsSaid is_read_fault (C.read_faults conn.old)
        (C.read_faults conn.new) result }
    ensures write_faults { FaultsAsSaid is_write_fault (C.write_faults conn.old)
        (C.write_faults conn.new) result }
    ensures given { C.given conn.new ≡ C.given conn.old }
    ensures address { C.address conn.new ≡ C.address conn.old }
    ensures lent { C.lent conn.new ≡ C.lent conn.old }
{
    serve(alloc, disk, manager, Purpose::Serve, conn, now)
}

/// Pushes to the peer at an index, over a connection to it: the manager asks for a session, and
/// the connection ends as soon as nothing for the peer is outstanding. All calls have the
/// moment `now`, in seconds.
///
/// # Errors
/// As of `serve_one`.
pub fn push_one<D: Disk, C: Conn>(
    alloc: Global,
    disk: &mut D,
    manager: &mut Manager,
    peer: u32,
    conn: &mut C,
    now: u32,
) -> Result<(), ConnFault>
    requires up { IsUp manager.old }
    requires on { IsOnDisk (D.view disk.old) manager.old }
    ensures served { Serves (Purpose.Reach Errand.Push peer) now (stored_of manager.old)
        (stored_of manager.new) (C.held conn.old) (C.held conn.new) (C.taken conn.old)
        (C.taken conn.new) result }
    ensures whole { ServesWhole result (Purpose.Reach Errand.Push peer) now (stored_of manager.old)
        (stored_of manager.new) (C.held conn.old) (C.taken conn.old) (C.taken conn.new) }
    ensures unlinked { manager.new.session ≡ None }
    ensures up { result ≢ Err ConnFault.DiskFault → IsUp manager.new }
    ensures disk { KeepsDisk (D.view disk.old) (D.view disk.new) manager.old manager.new }
    ensures disk_faults { FaultsAsSaid is_disk_fault (D.view disk.old).faults
        (D.view disk.new).faults result }
    ensures read_faults { FaultsAsSaid is_read_fault (C.read_faults conn.old)
        (C.read_faults conn.new) result }
    ensures write_faults { FaultsAsSaid is_write_fault (C.write_faults conn.old)
        (C.write_faults conn.new) result }
    ensures given { C.given conn.new ≡ C.given conn.old }
    ensures address { C.address conn.new ≡ C.address conn.old }
    ensures lent { C.lent conn.new ≡ C.lent conn.old }
{
    serve(
        alloc,
        disk,
        manager,
        Purpose::Reach {
            errand: Errand::Push,
            peer,
        },
        conn,
        now,
    )
}

/// Pushes to the peer at an index, and goes on when it is through, for what waits there: the
/// connection ends where no more bytes come. All calls have the moment `now`, in seconds.
///
/// # Errors
/// As of `serve_one`.
pub fn fetch_one<D: Disk, C: Conn>(
    alloc: Global,
    disk: &mut D,
    manager: &mut Manager,
    peer: u32,
    conn: &mut C,
    now: u32,
) -> Result<(), ConnFault>
    requires up { IsUp manager.old }
    requires on { IsOnDisk (D.view disk.old) manager.old }
    ensures served { Serves (Purpose.Reach Errand.Fetch peer) now (stored_of manager.old)
        (stored_of manager.new) (C.held conn.old) (C.held conn.new) (C.taken conn.old)
        (C.taken conn.new) result }
    ensures whole { ServesWhole result (Purpose.Reach Errand.Fetch peer) now (stored_of manager.old)
        (stored_of manager.new) (C.held conn.old) (C.taken conn.old) (C.taken conn.new) }
    ensures unlinked { manager.new.session ≡ None }
    ensures up { result ≢ Err ConnFault.DiskFault → IsUp manager.new }
    ensures disk { KeepsDisk (D.view disk.old) (D.view disk.new) manager.old manager.new }
    ensures disk_faults { FaultsAsSaid is_disk_fault (D.view disk.old).faults
        (D.view disk.new).faults result }
    ensures read_faults { FaultsAsSaid is_read_fault (C.read_faults conn.old)
        (C.read_faults conn.new) result }
    ensures write_faults { FaultsAsSaid is_write_fault (C.write_faults conn.old)
        (C.write_faults conn.new) result }
    ensures given { C.given conn.new ≡ C.given conn.old }
    ensures address { C.address conn.new ≡ C.address conn.old }
    ensures lent { C.lent conn.new ≡ C.lent conn.old }
{
    serve(
        alloc,
        disk,
        manager,
        Purpose::Reach {
            errand: Errand::Fetch,
            peer,
        },
        conn,
        now,
    )
}
