ghost use Rattle.std.specs.Prelude.{◌≡◌};
ghost use Rattle.mqb_queue.specs.Places.{no_rooms, nothing};

use crate::samples::{ALPHA, SAMPLE, Sample, message, plan, taken};
use mqb_base::{
    Delivery, EntryPlace, Lane, Memory, Message, MessageId, Name, Place, QueuePlan, UNLIMITED,
};
use mqb_queue::{NewQueue, Queues};
use std::alloc::Global;
use std::test::Fail;

/// How many queues there are with a new one, whether there is no second one, and its quota. Then
/// the quota of the one that is taken back, and how many there are.
type TakenBack = (u32, bool, u32, u32, u32);

/// Adds a queue where there is none, and takes it back.
fn taken_back(queues: &mut Queues, alloc: Global, name: Name) -> Result<TakenBack, Memory>
    requires { queues.old ≡ record { lists = nothing; rooms = no_rooms } }
{
    if let Err(memory) = queues.reserve_queue(&name) {
        drop(name);
        return Err(memory);
    }
    queues.push_queue(NewQueue::new(alloc, plan(name)));
    let count = queues.count();
    let is_alone = queues.plan_numbered(2).is_none();
    let quota = queues.plan(0).quota;
    let queue = queues.pop_queue();
    let quota_back = queue.plan().quota;
    drop(queue);
    Ok((count, is_alone, quota, quota_back, queues.count()))
}

#[test]
fn an_added_queue_is_taken_back(rt: HostRuntime) -> Result<(), Fail> {
    let name = Name::new(rt.alloc(), b"orders")?;
    let mut queues = Queues::new(rt.alloc());
    let taken_back = taken_back(&mut queues, rt.alloc(), name);
    drop(queues);
    assert!(rt; taken_back? == (1, true, 2, 2, 0));
    Ok(())
}

/// What a call answered that hands back what it did not take. That falls.
fn settled<T: Drop>(answer: Result<(), (T, Memory)>) -> Result<(), Memory> {
    match answer {
        Ok(()) => Ok(()),
        Err((value, memory)) => {
            drop(value);
            Err(memory)
        }
    }
}

/// Adds a queue with a new name.
fn add(queues: &mut Queues, plan: QueuePlan) -> Result<(), Memory> {
    if queues.find(&plan.name).is_some() {
        drop(plan);
        return Ok(());
    }
    settled(queues.add_queue(plan))
}

/// Puts a message into a place that is there.
fn put(queues: &mut Queues, place: &Place, message: Message) -> Result<(), Memory> {
    if queues.len(place).is_none() {
        drop(message);
        return Ok(());
    }
    settled(match message.delivery.lane() {
        Lane::Durable => queues.put(place, message),
        Lane::Express => queues.put_express(place, message),
    })
}

/// How a message travels, its number, its priority, and its time to be received.
type Row = (Delivery, u32, u8, u32);

static FIVE: [Row; 5] = [
    (Delivery::Recoverable, 1, 7, 3),
    (Delivery::Recoverable, 2, 3, UNLIMITED),
    (Delivery::Recoverable, 3, 3, UNLIMITED),
    (Delivery::Express, 4, 6, 5),
    (Delivery::Express, 5, 3, 9),
];

fn put_row(queues: &mut Queues, alloc: Global, place: &Place, row: &Row) -> Result<(), Memory> {
    let (delivery, number, priority, life) = *row;
    let sample = Sample {
        delivery,
        number,
        priority,
        life,
        ..SAMPLE
    };
    let message = message(alloc, &sample)?;
    put(queues, place, message)
}

/// Puts five messages into a place that is there, and has room for two of them before.
fn put_five(queues: &mut Queues, alloc: Global, place: &Place) -> Result<(), Memory> {
    if queues.len(place).is_none() {
        return Ok(());
    }
    queues.reserve(place, 1, 1)?;
    for row in FIVE.iter() {
        put_row(queues, alloc, place, row)?;
    }
    Ok(())
}

/// How many messages each lane of a place has, and the first one.
type Told = Option<(usize, usize, u32)>;

fn told(queues: &Queues, place: &Place) -> Told {
    let durable = queues.durable(place)?.len();
    let express = queues.express(place)?.len();
    Some((durable, express, queues.first(place, 1000)?.id.number))
}

fn take(queues: &mut Queues, place: &Place, k: u32) -> Option<u32> {
    if k as usize >= queues.durable(place)?.len() {
        return None;
    }
    Some(taken(queues.remove(place, k)))
}

fn take_express(queues: &mut Queues, place: &Place, k: u32) -> Option<u32> {
    if k as usize >= queues.express(place)?.len() {
        return None;
    }
    Some(taken(queues.remove_express(place, k)))
}

/// What a place has, which durable and which express message is taken from it, and what it has
/// then.
type Taken = (Told, [Option<u32>; 2], Told);

fn taken_from(queues: &mut Queues, place: &Place) -> Taken {
    let before = told(queues, place);
    let durable = take(queues, place, 0);
    let express = take_express(queues, place, 1);
    (before, [durable, express], told(queues, place))
}

#[test]
fn messages_are_put_and_taken_by_name(rt: HostRuntime) -> Result<(), Fail> {
    let place = Place::DeadXact;
    let mut queues = Queues::new(rt.alloc());
    let put = put_five(&mut queues, rt.alloc(), &place);
    let at = queues.place(&place);
    let (before, taken, behind) = taken_from(&mut queues, &place);
    drop(queues);
    drop(place);
    put?;
    assert!(rt; at == Some(EntryPlace::DeadXact));
    assert!(rt; before == Some((3, 2, 1)));
    assert!(rt; taken == [Some(1), Some(5)]);
    assert!(rt; behind == Some((2, 1, 4)));
    Ok(())
}

/// Puts five messages into a new queue.
fn fill(queues: &mut Queues, alloc: Global) -> Result<(), Fail> {
    let name = Name::new(alloc, b"notes")?;
    add(queues, plan(name))?;
    let place = Place::Queue(Name::new(alloc, b"notes")?);
    let put = put_five(queues, alloc, &place);
    drop(place);
    Ok(put?)
}

/// The index of a message among the durable ones of the queue that are not due.
fn index_of(queues: &Queues, number: u32) -> Option<u32> {
    let id = MessageId { qm: ALPHA, number };
    queues.index_named(EntryPlace::Queue(1), id, 1005)
}

/// The indexes of the first four messages.
fn found(queues: &Queues) -> [Option<u32>; 4] {
    [
        index_of(queues, 1),
        index_of(queues, 2),
        index_of(queues, 3),
        index_of(queues, 4),
    ]
}

/// Message 1 is due, and message 4 is an express one.
#[test]
fn messages_are_found_by_identifier(rt: HostRuntime) -> Result<(), Fail> {
    let mut queues = Queues::new(rt.alloc());
    let filled = fill(&mut queues, rt.alloc());
    let found = found(&queues);
    drop(queues);
    filled?;
    assert!(rt; found == [None, Some(1), Some(2), None]);
    Ok(())
}
