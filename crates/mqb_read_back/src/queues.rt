ghost use Rattle.std.specs.Prelude.{◌≡◌, ◌+◌, ◌<◌, IfOk, None, OnOk, false, length};
ghost use Rattle.std.specs.List.{list_any};
ghost use Rattle.std.specs.Option.{option_map_or};
ghost use Rattle.mqb_base.specs.Same.{same_guid};
ghost use Rattle.mqb_model.specs.declared.limits.TheConstants.{MAX_QUEUES};
ghost use Rattle.mqb_model.specs.state.Resolving.{is_registered};
ghost use Rattle.mqb_queue.specs.Places.{found};
ghost use Rattle.mqb_snapshot.specs.Fields.{is_queue_taken, queue_guid_at};
ghost use Rattle.mqb_snapshot.specs.Fields.{queue_name_at, registered_at};
ghost use Rattle.mqb_read_back.specs.Answers.{Gives, Joins};
ghost use Rattle.mqb_snapshot.specs.Reading.{plan_at, queue_joined, queues_joined};

use crate::faults::BackFault;
use crate::fields::{flag_field, guid_field, name_field, u32_field, within_field};
use crate::parts::ReadParts;
use mqb_base::{Guid, Name, QueuePlan};
use mqb_contents::{Change, Contents};
use mqb_fate::is_order_name;
use mqb_fields::Cursor;
use mqb_model::MAX_QUEUES;
use mqb_queue::{NewQueue, Queues};
use std::alloc::Global;

fn is_queue_taken(contents: &Contents, name: &Name) -> bool
    ensures { result ≡ is_queue_taken contents.now.lists name.now }
{
    is_order_name(name) || contents.queues().find(name).is_some()
}

fn is_registered(plan: &QueuePlan, guid: Guid) -> bool
    ensures { result ≡ option_map_or (same_guid guid) plan.now.public false }
{
    match plan.public {
        Some(public) => guid == public,
        None => false,
    }
}

fn guid_registered(queues: &Queues, guid: Guid) -> bool
    ensures { result ≡ list_any (is_registered guid) queues.now.lists.queues }
{
    for k in 0..queues.count() {
        if is_registered(queues.plan(k), guid) {
            return true;
        }
    }
    false
}

/// The name of a queue that is new.
#[tactic(auto, unfolding(mqb_snapshot::specs::Fields::queue_name_at))]
fn queue_name_field(
    alloc: Global,
    contents: &Contents,
    cursor: &mut Cursor<'_>,
) -> Result<Name, BackFault>
    ensures read { Gives (queue_name_at contents.now.lists) cursor.old cursor.new result }
    ensures free { IfOk result (λ name. found contents.now.lists.places.queues name ≡ None) }
{
    let at = cursor.at();
    let name = name_field(alloc, cursor)?;
    if is_queue_taken(contents, &name) {
        return Err(BackFault::Bad { at });
    }
    Ok(name)
}

/// The GUID of a queue that is new.
#[tactic(auto, unfolding(mqb_snapshot::specs::Fields::queue_guid_at))]
fn queue_guid_field(contents: &Contents, cursor: &mut Cursor<'_>) -> Result<Guid, BackFault>
    ensures { Gives (queue_guid_at contents.now.lists) cursor.old cursor.new result }
{
    let at = cursor.at();
    let guid = guid_field(cursor)?;
    if guid_registered(contents.queues(), guid) {
        return Err(BackFault::Bad { at });
    }
    Ok(guid)
}

/// A flag, and the GUID of a queue that is new where it is 1.
#[tactic(auto, unfolding(mqb_snapshot::specs::Fields::registered_at))]
fn registered_field(contents: &Contents, cursor: &mut Cursor<'_>) -> Result<Option<Guid>, BackFault>
    ensures { Gives (registered_at contents.now.lists) cursor.old cursor.new result }
{
    if flag_field(cursor)? {
        Ok(Some(queue_guid_field(contents, cursor)?))
    } else {
        Ok(None)
    }
}

/// The plan of a queue that is new.
#[tactic(auto, unfolding(mqb_snapshot::specs::Reading::plan_at))]
fn plan_field(
    alloc: Global,
    contents: &Contents,
    cursor: &mut Cursor<'_>,
) -> Result<QueuePlan, BackFault>
    ensures read { Gives (plan_at contents.now.lists) cursor.old cursor.new result }
    ensures free { IfOk result (λ plan. found contents.now.lists.places.queues plan.name ≡ None) }
{
    Ok(QueuePlan {
        name: queue_name_field(alloc, contents, cursor)?,
        public: registered_field(contents, cursor)?,
        transactional: flag_field(cursor)?,
        quota: u32_field(cursor)?,
        journal: flag_field(cursor)?,
    })
}

impl ReadParts {
    /// A queue joins the others.
    #[tactic(auto, unfolding(mqb_snapshot::specs::Reading::queue_joined))]
    fn queue(&mut self, cursor: &mut Cursor<'_>) -> Result<(), BackFault>
        requires { length self.old.state.places.queues < MAX_QUEUES }
        ensures joined { Joins queue_joined self.old cursor.old self.new cursor.new result }
        ensures queues { OnOk result (length self.new.state.places.queues ≡
            length self.old.state.places.queues + 1) }
    {
        let plan = plan_field(self.alloc, &self.contents, cursor)?;
        self.change(Change::AddQueue(NewQueue::new(self.alloc, plan)))?;
        Ok(())
    }

    /// All queues, behind their count.
    #[tactic(auto, unfolding(mqb_snapshot::specs::Reading::queues_joined))]
    pub(crate) fn queues(&mut self, cursor: &mut Cursor<'_>) -> Result<(), BackFault>
        requires { length self.old.state.places.queues ≡ 0 }
        ensures { Joins queues_joined self.old cursor.old self.new cursor.new result }
    {
        let count = within_field(cursor, 0, MAX_QUEUES as u32)?;
        for _ in 0..count {
            self.queue(cursor)?;
        }
        Ok(())
    }
}
