ghost use Rattle.std.specs.Prelude.{◌≡◌, ◌+◌, ◌*◌, ◌≤◌, OnOk};
ghost use Rattle.mqb_contents.specs.Rooms.{IsGrown};
ghost use Rattle.mqb_model.specs.rules.Timeouts.{lane_due, lane_ticked};

use crate::lapses::lapse_peers;
use crate::sweeps::sweep_queues;
use mqb_base::{Lane, Memory};
use mqb_rules::Draft;

/// Plain messages of a lane that are due lapse, peer by peer, and then those of queues are
/// swept, queue by queue.
pub fn lane_ticked(draft: &mut Draft, lane: Lane, now: u32) -> Result<(), Memory>
    ensures ok { OnOk result (draft.new.effect ≡ lane_ticked lane now draft.old.effect) }
    ensures start { draft.new.start ≡ draft.old.start }
    ensures grown { IsGrown draft.old.rooms draft.new.rooms }
    ensures held { OnOk result (draft.new.held ≤
        draft.old.held + 3 * lane_due lane draft.old.effect.state now) }
{
    let queues = draft.contents().queues().count();
    lapse_peers(draft, lane, now)?;
    sweep_queues(draft, lane, queues, now)
}
