ghost use Rattle.std.specs.Prelude.{◌≡◌, option_copied};
ghost use Rattle.mqb_queue.specs.Arrival.{arrival_refusal, queue_refusal};

use mqb_base::{Class, QueuePlan};

/// Why a queue of this plan and length refuses an arrival.
pub fn queue_refusal(plan: &QueuePlan, length: u32, transactional: bool) -> Option<Class>
    ensures { result ≡ queue_refusal plan.now length transactional }
{
    if transactional && !plan.transactional {
        return Some(Class::QUEUE_NOT_TRANSACTIONAL);
    }
    if !transactional && plan.transactional {
        return Some(Class::MESSAGE_NOT_TRANSACTIONAL);
    }
    if length >= plan.quota {
        return Some(Class::QUOTA_EXCEEDED);
    }
    None
}

/// Why an arrival is refused at the queue of this plan and length, or at none. `remaining` is the
/// time in seconds that it has left to reach the queue.
pub fn arrival_refusal(
    plan: Option<&QueuePlan>,
    length: u32,
    transactional: bool,
    remaining: u32,
) -> Option<Class>
    ensures { result ≡ arrival_refusal (option_copied plan.entry) length transactional remaining }
{
    if remaining == 0 {
        return Some(Class::REACH_TIMEOUT);
    }
    match plan {
        Some(plan) => queue_refusal(plan, length, transactional),
        None => Some(Class::BAD_DESTINATION),
    }
}
