ghost use Rattle.std.specs.Prelude.{◌≡◌, IfOk, OnErr};
ghost use Rattle.std.specs.Result.{IsOkAnd};
ghost use Rattle.mqb_answers.specs.Calls.{IsPrinted, IsTold};
ghost use Rattle.mqb_answers.specs.Outcomes.{outcome_of};
ghost use Rattle.mqb_answers.specs.Texts.{hosts_of};
ghost use Rattle.mqb_replies.specs.mqb_manager.States.{IsOnDisk, IsUp, manager_of};
ghost use Rattle.mqb_words.specs.Formed.{IsFormedCall};

use crate::calls::{add_peer, tell_request};
use crate::told::CallEnd;
use mqb_outside::Disk;
use mqb_replies::{AnswerFault, Manager, Request};
use mqb_words::Call;
use std::alloc::Global;

/// Each call is told.
fn tell_call<D: Disk>(
    alloc: Global,
    manager: &mut Manager,
    disk: &mut D,
    call: &Call,
    now: u32,
    out: &mut Vec<u8>,
) -> Result<CallEnd, AnswerFault>
    requires formed { IsFormedCall call.now }
    requires on { IsUp manager.old → IsOnDisk (D.view disk.old) manager.old }
    ensures { IsTold (D.view disk.old) (D.view disk.new) (disk.new ≡ disk.old) manager.old
        manager.new (outcome_of call.now (manager_of manager.old) now)
        out.old.items out.new.items result }
{
    match call {
        Call::AddPeer(peer) => add_peer(alloc, manager, disk, peer, out),
        Call::CreateQueue(plan) => {
            tell_request(alloc, manager, disk, Request::CreateQueue(plan), out)
        }
        Call::Send { recoverable, draft } => {
            let request = Request::Send {
                now,
                recoverable: *recoverable,
                draft,
            };
            tell_request(alloc, manager, disk, request, out)
        }
        Call::Commit(ops) => {
            let ops = ops.as_slice();
            tell_request(alloc, manager, disk, Request::Commit { now, ops }, out)
        }
        Call::Take(place) => {
            tell_request(alloc, manager, disk, Request::Take { now, place }, out)
        }
        Call::Purge(place) => {
            tell_request(alloc, manager, disk, Request::Purge { now, place }, out)
        }
        Call::Tick => tell_request(alloc, manager, disk, Request::Tick { now }, out),
        Call::SetRoll { count } => {
            tell_request(alloc, manager, disk, Request::SetRoll(*count), out)
        }
    }
}

/// Makes a call of a store command at a moment in seconds, and appends what is printed of it: the
/// line of its reply, and one for each message that was taken. The manager and its peers are
/// printed as their hosts.
///
/// # Errors
/// `Memory`: the call was made, or it was not; `out` is as before. `DiskFault`:
/// the manager is down.
pub fn answer<D: Disk>(
    alloc: Global,
    manager: &mut Manager,
    disk: &mut D,
    call: &Call,
    now: u32,
    out: &mut Vec<u8>,
) -> Result<CallEnd, AnswerFault>
    requires formed { IsFormedCall call.now }
    requires on { IsUp manager.old → IsOnDisk (D.view disk.old) manager.old }
    ensures told { IfOk result (λ end.
        IsOkAnd (outcome_of call.now (manager_of manager.old) now).answer
        (IsPrinted (hosts_of manager.new.store.state) out.old.items out.new.items end)) }
    ensures stays { OnErr result (out.new.items ≡ out.old.items) }
    ensures call { IsTold (D.view disk.old) (D.view disk.new) (disk.new ≡ disk.old) manager.old
        manager.new (outcome_of call.now (manager_of manager.old) now)
        out.old.items out.new.items result }
{
    tell_call(alloc, manager, disk, call, now, out)
}
