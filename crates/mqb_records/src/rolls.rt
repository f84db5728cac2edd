ghost use Rattle.std.specs.Prelude.{◌≡◌, ◌≤◌, Err, OnOk, false, true};
ghost use Rattle.mqb_contents.specs.Rooms.{IsGrown};
ghost use Rattle.mqb_model.specs.records.Applying.{is_roll};
ghost use Rattle.mqb_model.specs.rules.Effects.{begun, joined};
ghost use Rattle.mqb_arrivals.specs.declared.faults.RecordFault.TheVariants as fault;

use mqb_arrivals::RecordFault;
use mqb_drafts::Draft;
use mqb_model::MAX_ROLL;

fn is_roll(count: u32) -> bool
    ensures { result ≡ is_roll count }
{
    1 <= count && count <= MAX_ROLL
}

/// Sequences are full at another count.
#[tactic(auto, using(crate::proofs::Framing::joined_begun))]
pub(crate) fn set_roll(draft: &mut Draft, count: u32) -> Result<(), RecordFault>
    ensures ok { OnOk result (draft.new.effect ≡ joined draft.old.effect
        (begun (record draft.old.effect.state { roll = count }))) }
    ensures fit { OnOk result (is_roll count ≡ true) }
    ensures start { draft.new.start ≡ draft.old.start }
    ensures grown { IsGrown draft.old.rooms draft.new.rooms }
    ensures held { OnOk result (draft.new.held ≤ draft.old.held) }
    ensures unfit { result ≡ Err fault.Unfit → is_roll count ≡ false }
{
    if !is_roll(count) {
        return Err(RecordFault::Unfit);
    }
    draft.set_roll(count)?;
    Ok(())
}
