//! How many messages are due: none leaves.
ghost use Rattle.std.specs.Prelude.{◌≡◌, ◌+◌, ◌*◌, ◌≤◌, sum_by};
ghost use Rattle.mqb_base.specs.declared.message.Lane.TheVariants.{Express};
ghost use Rattle.mqb_base.specs.declared.roomed.TheConstants.{MAX_MEMBERS};
ghost use Rattle.mqb_model.specs.declared.limits.TheConstants.{MAX_PEERS, MAX_QUEUES, MAX_ROLL};
ghost use Rattle.mqb_model.specs.rules.Timeouts.{durable_due, expiring_in, lane_due};
ghost use Rattle.mqb_model.specs.rules.Timeouts.{lapsing_in, sweeping_in};
ghost use Rattle.mqb_model.specs.state.Valid.{IsValidState};

use mqb_base::Lane;
use mqb_contents::Contents;
use mqb_timeouts::{count_expiring, count_lapsing, count_swept};

/// How many messages of all outgoing rows expire.
fn expiring(contents: &Contents, now: u32) -> u64
    requires { IsValidState contents.now.lists }
    ensures count { result ≡ sum_by (expiring_in now) contents.now.lists.outs }
    ensures few { result ≤ MAX_MEMBERS * MAX_ROLL }
{
    let mut count = 0;
    for k in 0..contents.outs().len() as u32 {
        count += count_expiring(contents, k, now) as u64;
    }
    count
}

/// How many plain messages of a lane for all peers lapse.
fn lapsing(contents: &Contents, lane: Lane, now: u32) -> u64
    ensures count { result ≡ sum_by (lapsing_in lane now) contents.now.lists.plain }
    ensures few { result ≤ MAX_PEERS * MAX_MEMBERS }
{
    let mut count = 0;
    for k in 0..contents.peers().len() as u32 {
        count += count_lapsing(contents, lane, k, now) as u64;
    }
    count
}

/// How many messages of a lane of all queues are swept.
fn sweeping(contents: &Contents, lane: Lane, now: u32) -> u64
    ensures count { result ≡ sum_by (sweeping_in lane now) contents.now.lists.places.queues }
    ensures few { result ≤ MAX_QUEUES * MAX_MEMBERS }
{
    let mut count = 0;
    for k in 0..contents.queues().count() {
        count += count_swept(contents, lane, k, now) as u64;
    }
    count
}

fn lane_due(contents: &Contents, lane: Lane, now: u32) -> u64
    ensures count { result ≡ lane_due lane contents.now.lists now }
    ensures few { result ≤ (MAX_PEERS + MAX_QUEUES) * MAX_MEMBERS }
{
    lapsing(contents, lane, now) + sweeping(contents, lane, now)
}

pub(crate) fn durable_due(contents: &Contents, now: u32) -> u64
    requires { IsValidState contents.now.lists }
    ensures { result ≡ durable_due contents.now.lists now }
{
    expiring(contents, now) + lane_due(contents, Lane::Durable, now)
}

pub(crate) fn express_due(contents: &Contents, now: u32) -> u64
    ensures { result ≡ lane_due Express contents.now.lists now }
{
    lane_due(contents, Lane::Express, now)
}
