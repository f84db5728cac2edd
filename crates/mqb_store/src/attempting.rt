ghost use Rattle.std.specs.Prelude.{◌≡◌, IfOk, IfSome, OnErr, option_copied};
ghost use Rattle.mqb_state.specs.Work.{beside_of};
ghost use Rattle.mqb_state.specs.Attempts.{LeadsBack};
ghost use Rattle.mqb_state.specs.Together.{LeavesValid, effect_with};
ghost use Rattle.mqb_store.specs.Writing.{CanWrite, change_in};

use mqb_base::Memory;
use mqb_entries::Entry;
use mqb_state::{Attempt, ExpressWork, PrepareFault, State};

/// Does what an entry that can be written does, where there is one, and what is done beside it.
/// The answer leads back.
pub(crate) fn attempt(
    state: &mut State,
    entry: Option<&Entry<'_>>,
    work: ExpressWork,
) -> Result<Attempt, Memory>
    requires can { IfSome (option_copied entry) (CanWrite state.old.lists) }
    requires valid { LeavesValid state.old.lists (option_copied entry) (beside_of work) }
    ensures ok { IfOk result (λ a. effect_with state.old.lists
        (change_in (option_copied entry.entry)) (beside_of work)
        ≡ record { state = state.new.lists; lines = a.lines }) }
    ensures back { IfOk result (λ a. LeadsBack state.new a.back state.old) }
    ensures refused { OnErr result (state.new.lists ≡ state.old.lists) }
{
    match state.attempt(entry, work) {
        Ok(attempt) => Ok(attempt),
        Err(PrepareFault::Memory) => Err(Memory),
        Err(PrepareFault::Unfit) => unreachable!(),
    }
}
