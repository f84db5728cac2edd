ghost use Rattle.std.specs.Prelude.{◌≡◌};
ghost use Rattle.mqb_queue.specs.Places.{new_queue, no_queue_room};
ghost use Rattle.mqb_queue.specs.Seen.{queue_of, rooms_of};

use crate::lists::Lists;
use crate::queue::Queue;
use mqb_base::{Message, QueuePlan};
use mqb_deque::GapBuffer;
use std::alloc::Global;
use std::marker::Model;

/// A queue without messages, which is to join the others or was the last of them. Contracts see its plan, and the room that its lists have.
#[derive(Debug, Drop)]
pub struct NewQueue {
    plan: QueuePlan,
    lists: (GapBuffer<Message>, GapBuffer<Message>),
    journal: (GapBuffer<Message>, GapBuffer<Message>),
}

impl Model for NewQueue {
    ghost use Rattle.mqb_queue.specs.Empty.{AreEmpty, seen_empty};
    ghost use Rattle.mqb_queue.specs.Places.{Empty};

    ghost Value = { Empty };

    ghost view = { λ n. seen_empty n.plan n.lists n.journal };

    ghost invariant = { λ n. AreEmpty n.lists × AreEmpty n.journal };
}

impl NewQueue {
    /// A queue without room.
    pub fn new(alloc: Global, plan: QueuePlan) -> NewQueue
        ensures { result ≡ record { plan = plan; rooms = no_queue_room } }
    {
        NewQueue {
            plan,
            lists: Lists::new(alloc).into_empty(),
            journal: Lists::new(alloc).into_empty(),
        }
    }

    pub(crate) fn from_queue(queue: Queue) -> NewQueue
        requires { queue_of queue ≡ new_queue queue.plan }
        ensures { result ≡ record { plan = queue.plan; rooms = rooms_of queue } }
    {
        NewQueue {
            plan: queue.plan,
            lists: queue.lists.into_empty(),
            journal: queue.journal.into_empty(),
        }
    }

    pub(crate) fn into_queue(self) -> Queue
        ensures queue { queue_of result ≡ new_queue self.plan }
        ensures plan { result.plan ≡ self.plan }
        ensures rooms { rooms_of result ≡ self.rooms }
    {
        Queue {
            plan: self.plan,
            lists: Lists::from_empty(self.lists),
            journal: Lists::from_empty(self.journal),
        }
    }

    pub fn plan(&self) -> &QueuePlan
        ensures { result.now ≡ self.now.plan }
    {
        &self.plan
    }
}
