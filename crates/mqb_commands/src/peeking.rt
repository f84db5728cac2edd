ghost use Rattle.std.specs.Prelude.{◌≡◌, ◌≤◌, IfOk};
ghost use Rattle.mqb_answers.specs.Texts.{hosts_of};
ghost use Rattle.mqb_commands.specs.Called.{TellsFaults};
ghost use Rattle.mqb_commands.specs.Causes.{DiskFaultHasCause};
ghost use Rattle.mqb_commands.specs.Outputs.{IsLookEnd};
ghost use Rattle.mqb_commands.specs.Peeked.{IsRefused, Peeks, PeeksOn, TellsFirst, TellsPlace};
ghost use Rattle.mqb_outside.specs.Disk.{Counted};
ghost use Rattle.mqb_queue.specs.Places.{place_named};

use crate::turns::put_taken;
use crate::{Answer, Status, open};
use mqb_answers::{Manager, hosts_of};
use mqb_base::{EntryPlace, Identity, Memory, Place};
use mqb_outside::{Clock, Disk};
use mqb_queue::Queues;
use mqb_transcript::{Printer, Reply, print_reply};
use std::alloc::Global;

/// A refusal and its line.
fn refuse(alloc: Global, hosts: &[Identity], why: &Reply) -> Result<Answer, Memory>
    ensures refuses { IfOk result (λ answer.
        IsRefused hosts.now why.now answer.text.items answer.end) }
    ensures ends { IfOk result (λ answer. IsLookEnd answer.end) }
{
    let mut text = Vec::new(alloc);
    print_reply(alloc, None, why, hosts, &mut text)?;
    Ok(Answer::new(text, Status::Refused))
}

/// A line for each of the first messages of a place that is there.
fn tell_place(
    alloc: Global,
    hosts: &[Identity],
    queues: &Queues,
    at: EntryPlace,
    count: u32,
    now: u32,
) -> Result<Answer, Memory>
    ensures tells { IfOk result (λ answer.
        TellsPlace hosts.now queues.now.lists at count now answer.text.items answer.end) }
    ensures ends { IfOk result (λ answer. IsLookEnd answer.end) }
{
    let mut printer = Printer::new(alloc, hosts);
    put_taken(alloc, &mut printer, queues, at, count, now)?;
    if printer.text().is_empty() {
        return refuse(alloc, hosts, &Reply::QueueEmpty { op: None });
    }
    let text = Vec::from_slice(alloc, printer.text())?;
    Ok(Answer::new(text, Status::Done))
}

fn tell_first(
    alloc: Global,
    manager: &Manager,
    place: &Place,
    count: u32,
    now: u32,
) -> Result<Answer, Memory>
    ensures tells { IfOk result (λ answer. TellsFirst manager.now.store.state place.now count now
        answer.text.items answer.end) }
    ensures ends { IfOk result (λ answer. IsLookEnd answer.end) }
{
    let hosts = hosts_of(alloc, manager)?;
    let queues = manager.state().queues();
    match queues.place(place) {
        Some(at) => tell_place(alloc, &hosts, queues, at, count, now),
        None => refuse(alloc, &hosts, &Reply::NoQueue { op: None }),
    }
}

/// The first messages of a place of a manager, at most `count`: those that `take` would give one
/// after another at a moment. None is taken.
pub fn answer_peek(alloc: Global, manager: &Manager, place: &Place, count: u32, now: u32) -> Answer
    requires { 1 ≤ count }
    ensures peeks { PeeksOn place.now count now manager.now result.text.items result.end }
    ensures ends { IsLookEnd result.end }
{
    match tell_first(alloc, manager, place, count, now) {
        Ok(answer) => answer,
        Err(Memory) => Answer::memory(alloc),
    }
}

/// The first messages of a place of a store, as of `answer_peek` at the moment of the clock.
pub fn peek<D: Disk, C: Clock>(
    alloc: Global,
    disk: &mut D,
    clock: &mut C,
    place: &Place,
    count: u32,
) -> Answer
    requires { 1 ≤ count }
    ensures peeks { Peeks place.now count (C.steady clock.old) (D.view disk.old)
        (D.view disk.new) result.text.items result.end }
    ensures cause { DiskFaultHasCause (D.view disk.old).faults (D.view disk.new).faults
        result.end }
    ensures faults { TellsFaults (D.view disk.old).faults (D.view disk.new).faults
        result.text.items result.end }
    ensures clock { C.steady clock.new ≡ C.steady clock.old }
    ensures asked { Counted 1 (C.asked clock.old) (C.asked clock.new) }
{
    let now = clock.now();
    let manager = match open(alloc, disk) {
        Ok(manager) => manager,
        Err(fault) => return Answer::fault(alloc, fault),
    };
    let answer = answer_peek(alloc, &manager, place, count, now);
    manager.close();
    answer
}
