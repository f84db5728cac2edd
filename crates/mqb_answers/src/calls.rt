//! A call is made, and told.
ghost use Rattle.std.specs.Prelude.{◌≡◌};
ghost use Rattle.mqb_answers.specs.Calls.{IsTold, Tells};
ghost use Rattle.mqb_answers.specs.Outcomes.{asked_told, told_by};
ghost use Rattle.mqb_answers.specs.Texts.{hosts_of};
ghost use Rattle.mqb_answers.specs.Told.{peer_told};
ghost use Rattle.mqb_replies.specs.mqb_manager.States.{IsOnDisk, IsUp, manager_of};
ghost use Rattle.mqb_model.specs.calls.AddPeer.{add_peer};
ghost use Rattle.mqb_replies.specs.Requests.{IsFormed, seen_request};

use crate::hosts::hosts_of;
use crate::texts::print_told;
use crate::told::{CallEnd, Told, answer_told, peer_told};
use mqb_base::Identity;
use mqb_outside::Disk;
use mqb_replies::{AnswerFault, Manager, Request, ask, lines_since, requests_are_replied};
use std::alloc::Global;

/// Appends what is told of a call. After a refusal `out` is as before.
fn tell(
    alloc: Global,
    manager: &Manager,
    told: Result<Told, AnswerFault>,
    out: &mut Vec<u8>,
) -> Result<CallEnd, AnswerFault>
    ensures { Tells (hosts_of manager.now.store.state) told out.old.items out.new.items result }
{
    let told = told?;
    let hosts = hosts_of(alloc, manager)?;
    print_told(alloc, &told, hosts.as_slice(), out)?;
    Ok(told.end)
}

pub(crate) fn add_peer<D: Disk>(
    alloc: Global,
    manager: &mut Manager,
    disk: &mut D,
    peer: &Identity,
    out: &mut Vec<u8>,
) -> Result<CallEnd, AnswerFault>
    requires { IsUp manager.old → IsOnDisk (D.view disk.old) manager.old }
    ensures { IsTold (D.view disk.old) (D.view disk.new) (disk.new ≡ disk.old) manager.old
        manager.new (told_by peer_told (add_peer (manager_of manager.old) peer.now))
        out.old.items out.new.items result }
{
    let answer = manager.add_peer(disk, peer);
    tell(alloc, manager, peer_told(answer), out)
}

/// A request.
pub(crate) fn tell_request<D: Disk>(
    alloc: Global,
    manager: &mut Manager,
    disk: &mut D,
    request: Request<'_>,
    out: &mut Vec<u8>,
) -> Result<CallEnd, AnswerFault>
    requires formed { IsFormed (seen_request request) }
    requires on { IsUp manager.old → IsOnDisk (D.view disk.old) manager.old }
    ensures { IsTold (D.view disk.old) (D.view disk.new) (disk.new ≡ disk.old) manager.old
        manager.new (asked_told (manager_of manager.old) (seen_request request.entry))
        out.old.items out.new.items result }
{
    requests_are_replied();
    let before = manager.lsn();
    let answer = ask(manager, disk, request);
    let lines = lines_since(alloc, manager, before)?;
    tell(alloc, manager, answer_told(answer, lines), out)
}
