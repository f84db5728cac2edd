ghost use Rattle.std.specs.Prelude.{◌||◌, ◌≡◌, ◌≤◌, Err, IfOk, OnOk, false, true};
ghost use Rattle.std.specs.List.{list_any};
ghost use Rattle.std.specs.Option.{option_map_or};
ghost use Rattle.mqb_base.specs.Same.{same_guid, same_ignoring_case};
ghost use Rattle.mqb_contents.specs.Rooms.{IsGrown};
ghost use Rattle.mqb_model.specs.records.Peer.{is_taken_by, queue_fits};
ghost use Rattle.mqb_model.specs.records.Peer.{queue_there, with_new_queue};
ghost use Rattle.mqb_model.specs.records.Reading.{plan_of};
ghost use Rattle.mqb_model.specs.rules.Effects.{begun, joined};
ghost use Rattle.mqb_arrivals.specs.declared.faults.RecordFault.TheVariants as fault;

use crate::peers::owned_name;
use mqb_arrivals::RecordFault;
use mqb_base::{Memory, QueuePlan};
use mqb_contents::Contents;
use mqb_drafts::Draft;
use mqb_entries::QueueView;
use mqb_fate::is_order_name;
use mqb_model::MAX_QUEUES;
use mqb_queue::Queues;
use mqb_rules::is_registered;
use std::alloc::Global;

fn owned_plan(alloc: Global, view: &QueueView<'_>) -> Result<QueuePlan, Memory>
    ensures { IfOk result (λ owned. owned ≡ plan_of view.now) }
{
    Ok(QueuePlan {
        name: owned_name(alloc, &view.name)?,
        public: view.public,
        transactional: view.transactional,
        quota: view.quota,
        journal: view.journal,
    })
}

fn shares_guid(plan: &QueuePlan, other: &QueuePlan) -> bool
    ensures { result ≡ option_map_or
        (λ guid. option_map_or (same_guid guid) other.now.public false) plan.now.public false }
{
    match plan.public {
        Some(guid) => is_registered(other, guid),
        None => false,
    }
}

/// Whether the queue of a plan has the name or the GUID of another one.
fn is_taken_by(plan: &QueuePlan, other: &QueuePlan) -> bool
    ensures { result ≡ (same_ignoring_case other.now.name plan.now.name
        || option_map_or
        (λ guid. option_map_or (same_guid guid) other.now.public false) plan.now.public false) }
{
    other.name.eq_ignore_ascii_case(&plan.name) || shares_guid(plan, other)
}

fn any_takes(queues: &Queues, plan: &QueuePlan) -> bool
    ensures { result ≡ list_any (is_taken_by plan.now) queues.now.lists.queues }
{
    for k in 0..queues.count() {
        if is_taken_by(plan, queues.plan(k)) {
            return true;
        }
    }
    false
}

/// Whether a queue is there that has the name or the GUID of a plan, or the name
/// is the order layer's.
pub fn queue_there(contents: &Contents, plan: &QueuePlan) -> bool
    ensures { result ≡ queue_there contents.now.lists plan.now }
{
    is_order_name(&plan.name) || any_takes(contents.queues(), plan)
}

fn queue_fits(contents: &Contents, number: u32, plan: &QueuePlan) -> bool
    ensures { result ≡ queue_fits contents.now.lists number plan.now }
{
    let count = contents.queues().count();
    number == count + 1 && !queue_there(contents, plan) && (count as usize) < MAX_QUEUES
}

/// A queue joins the others.
#[tactic(auto, using(crate::proofs::Framing::joined_begun))]
pub(crate) fn create_queue(draft: &mut Draft, view: &QueueView<'_>) -> Result<(), RecordFault>
    ensures ok { OnOk result (draft.new.effect ≡ joined draft.old.effect
        (begun (with_new_queue draft.old.effect.state (plan_of view.now)))) }
    ensures fit { OnOk result
        (queue_fits draft.old.effect.state view.now.number (plan_of view.now) ≡ true) }
    ensures start { draft.new.start ≡ draft.old.start }
    ensures grown { IsGrown draft.old.rooms draft.new.rooms }
    ensures held { OnOk result (draft.new.held ≤ draft.old.held) }
    ensures unfit { result ≡ Err fault.Unfit →
        queue_fits draft.old.effect.state view.now.number (plan_of view.now) ≡ false }
{
    let plan = owned_plan(draft.alloc(), view)?;
    if !queue_fits(draft.contents(), view.number, &plan) {
        return Err(RecordFault::Unfit);
    }
    draft.add_queue(plan)?;
    Ok(())
}
