ghost use Rattle.std.specs.Option.{option_map_or};
ghost use Rattle.std.specs.Prelude.{◌≡◌, ◌≤◌, ◌<◌, ◌^◌, ◌+◌, Err, IfErr, IfOk, None, Ok, OnOk};
ghost use Rattle.std.specs.Prelude.{fold, option_map};
ghost use Rattle.mqb_model.specs.declared.faults.OpFault.TheVariants as op_fault;
ghost use Rattle.mqb_model.specs.state.Rows.{last_sequence};
ghost use Rattle.mqb_queue.specs.Places.{numbered};
ghost use Rattle.mqb_trying.specs.Notes.{IsWritable};
ghost use Rattle.mqb_trying.specs.Sends.{CanGo, count_in, end_of, last_end, last_leads_to};
ghost use Rattle.mqb_trying.specs.Sends.{leads_to, next_route, peer_route, put_by, put_route};
ghost use Rattle.mqb_trying.specs.Sends.{route_to, sent_by, target_of, try_send, with_end};
ghost use Rattle.mqb_trying.specs.Sends.{with_join, with_put, with_route};
ghost use Rattle.mqb_trying.specs.Trying.{IsRefusedBy, at_op};
ghost use Rattle.mqb_trying.specs.declared.notes.PlannedOp.TheVariants as planned;

use crate::messages::recorded_message;
use crate::notes::{Notes, PlannedOp, Route, SequenceEnd, push_op};
use mqb_base::{
    Draft, EntryPlace, Memory, Message, MessageId, QueueName, QueuePlan, SequenceId, same_name,
};
use mqb_contents::Contents;
use mqb_model::{CommitFault, Done, MAX_ORDINAL, OpFault, Target};
use mqb_rules::{guid_at, resolved};

// Into a queue here.

fn count_in(queue: u32, puts: &[u32]) -> usize
    ensures { result ≡ count_in queue puts.now }
{
    puts.iter().filter(|number| **number == queue).count()
}

/// A transactional queue of this length takes a message while that, with the messages that were
/// put, is below its quota.
fn put_by(plan: &QueuePlan, len: u32, puts: &[u32], queue: u32) -> Result<Route, OpFault>
    ensures { result ≡ put_by plan.now len puts.now queue }
{
    if !plan.transactional {
        return Err(OpFault::NotTransactional);
    }
    if plan.quota.saturating_sub(len) as usize <= count_in(queue, puts) {
        return Err(OpFault::QueueFull);
    }
    Ok(Route::Put { queue })
}

fn put_route(contents: &Contents, puts: &[u32], queue: u32) -> Result<Route, OpFault>
    ensures { result ≡ option_map_or (put_route puts.now queue)
        (numbered contents.now.lists.places.queues queue) (Err op_fault.NoQueue) }
{
    let Some(plan) = contents.queues().plan_numbered(queue) else {
        return Err(OpFault::NoQueue);
    };
    let Some(len) = contents.queues().len_at(EntryPlace::Queue(queue)) else {
        return Err(OpFault::NoQueue);
    };
    put_by(plan, len, puts, queue)
}

// To a peer.

fn last_row(contents: &Contents, peer: u32, destination: &QueueName) -> Option<(SequenceId, u32)>
    ensures { result ≡ option_map end_of
        (last_sequence contents.now.lists peer destination.now) }
{
    let row = contents.out(contents.last_sequence(peer, destination)?);
    Some((row.sequence, row.committed))
}

/// The end is of a sequence to this destination at this peer.
fn leads_to(end: &SequenceEnd, peer: u32, destination: &QueueName) -> bool
    ensures { result ≡ leads_to peer destination.now end.now }
{
    end.peer == peer && same_name(&end.destination, destination)
}

/// How far the last sequence to a destination at a peer has come: the last end that leads there
/// says it, or else its last row.
fn last_end(
    contents: &Contents,
    ends: &[SequenceEnd],
    peer: u32,
    destination: &QueueName,
) -> Option<(SequenceId, u32)>
    ensures { result ≡ last_end contents.now.lists ends.now peer destination.now }
{
    for end in ends.iter().rev() {
        if leads_to(end, peer, destination) {
            return Some((end.sequence, end.number));
        }
    }
    last_row(contents, peer, destination)
}

impl Notes {
    /// A message joins the last sequence, unless that is full, or begins a new one.
    fn peer_route(
        &self,
        contents: &Contents,
        peer: u32,
        destination: &QueueName,
    ) -> Result<Route, OpFault>
        ensures { result ≡ peer_route contents.now.lists self.now peer destination.now }
    {
        match last_end(contents, &self.ends, peer, destination) {
            Some((sequence, number)) if number < contents.roll() => Ok(Route::Join {
                peer,
                sequence,
                number: number + 1,
            }),
            _ if self.next_ordinal <= MAX_ORDINAL => Ok(Route::Begin { peer }),
            _ => Err(OpFault::SequenceSpent),
        }
    }

    /// The route of the next message that is sent to a destination.
    fn next_route(&self, contents: &Contents, destination: &QueueName) -> Result<Route, OpFault>
        ensures route { result ≡ next_route contents.now.lists self.now destination.now }
        ensures can_go { IfOk result (CanGo self.now) }
    {
        match resolved(contents, destination) {
            Target::Here(Some(queue)) => put_route(contents, &self.puts, queue),
            Target::Here(None) => Err(OpFault::NoQueue),
            Target::AtPeer(peer) => self.peer_route(contents, peer, destination),
            Target::Nowhere => Err(OpFault::UnknownPeer),
        }
    }
}

// It is sent.

fn target_of(route: Route) -> Target
    ensures { result ≡ target_of route }
{
    match route {
        Route::Put { queue } => Target::Here(Some(queue)),
        Route::Join { peer, .. } | Route::Begin { peer } => Target::AtPeer(peer),
    }
}

/// The last end leads to this destination at this peer.
fn last_leads_to(ends: &[SequenceEnd], peer: u32, destination: &QueueName) -> bool
    ensures { result ≡ last_leads_to peer destination.now ends.now }
{
    match ends.last() {
        Some(end) => leads_to(end, peer, destination),
        None => false,
    }
}

/// A sequence comes to a number. Messages in a row to one destination have one end.
fn note_end(
    ends: &mut Vec<SequenceEnd>,
    peer: u32,
    destination: &QueueName,
    sequence: SequenceId,
    number: u32,
) -> Result<(), Memory>
    ensures { OnOk result (ends.new.items ≡ with_end ends.old.items (record {
      peer = peer;
      destination = destination.now;
      sequence = sequence;
      number = number;
    })) }
{
    if last_leads_to(ends, peer, destination) {
        let Some(last) = ends.last_mut() else {
            unreachable!();
        };
        last.sequence = sequence;
        last.number = number;
        return Ok(());
    }
    ends.push(SequenceEnd {
        peer,
        destination: destination.clone()?,
        sequence,
        number,
    })?;
    Ok(())
}

impl Notes {
    /// A message joins a sequence under a number.
    fn note_join(
        &mut self,
        peer: u32,
        message: &Message,
        sequence: SequenceId,
        number: u32,
    ) -> Result<(), Memory>
        ensures { OnOk result (self.new ≡
            with_join self.old peer message.now sequence number) }
    {
        note_end(&mut self.ends, peer, &message.destination, sequence, number)?;
        self.done.push(Done::Sent {
            id: message.id,
            sequence,
            number,
        })?;
        Ok(())
    }

    fn note_put(&mut self, queue: u32, message: &Message) -> Result<(), Memory>
        ensures { OnOk result (self.new ≡ with_put self.old queue message.now) }
    {
        self.puts.push(queue)?;
        self.done.push(Done::Put(message.id))?;
        Ok(())
    }

    /// A message goes by a route.
    fn note_route(&mut self, now: u32, message: &Message, route: Route) -> Result<(), Memory>
        requires { CanGo self.old route }
        ensures { OnOk result (self.new ≡ with_route self.old now message.now route) }
    {
        match route {
            Route::Put { queue } => self.note_put(queue, message),
            Route::Join {
                peer,
                sequence,
                number,
            } => self.note_join(peer, message, sequence, number),
            Route::Begin { peer } => {
                let sequence = SequenceId {
                    ordinal: self.next_ordinal,
                    stamp: now,
                };
                self.note_join(peer, message, sequence, 1)?;
                self.next_ordinal += 1;
                Ok(())
            }
        }
    }

    /// A message that goes by a route is sent, and takes a number.
    fn note_send(
        &mut self,
        contents: &Contents,
        now: u32,
        message: Message,
        route: Route,
    ) -> Result<(), Memory>
        requires can_go { CanGo self.old route }
        requires writable { IsWritable (planned.Send message contents.now.lists.identity.guid) }
        requires number { self.old.next_number + 1 < 2 ^ 32 }
        ensures { OnOk result
            (self.new ≡ sent_by contents.now.lists self.old now message route) }
    {
        self.note_route(now, &message, route)?;
        let to = guid_at(contents, target_of(route));
        push_op(&mut self.ops, PlannedOp::Send { message, to })?;
        self.next_number += 1;
        Ok(())
    }

    /// The next message is sent.
    pub(crate) fn try_send(
        &mut self,
        contents: &Contents,
        now: u32,
        index: u32,
        draft: &Draft,
    ) -> Result<(), CommitFault>
        requires { self.old.next_number + 1 < 2 ^ 32 }
        ensures ok { OnOk result
            (try_send contents.now.lists now self.old draft.now ≡ Ok self.new) }
        ensures refused { IfErr result
            (IsRefusedBy (at_op index (try_send contents.now.lists now self.old draft.now))) }
    {
        let parts = draft.parts();
        match self.next_route(contents, &parts.destination) {
            Ok(route) => {
                let id = MessageId {
                    qm: contents.identity().guid,
                    number: self.next_number,
                };
                let message = recorded_message(id, now, parts)?;
                self.note_send(contents, now, message, route)?;
                Ok(())
            }
            Err(fault) => Err(CommitFault::AtOp { index, fault }),
        }
    }
}
