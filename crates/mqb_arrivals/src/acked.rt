ghost use Rattle.std.specs.Prelude.{◌≡◌, ◌≤◌, Err, OnOk, false, true};
ghost use Rattle.std.specs.Option.{option_map_or};
ghost use Rattle.mqb_contents.specs.Rooms.{IsGrown};
ghost use Rattle.mqb_model.specs.records.Arrived.{raises_ack};
ghost use Rattle.mqb_model.specs.rules.Effects.{without_line};
ghost use Rattle.mqb_model.specs.state.Rows.{row_of_ordinal, with_row};
ghost use Rattle.mqb_orders.specs.Rows.{acknowledged, row_of};
ghost use Rattle.mqb_arrivals.specs.declared.faults.RecordFault.TheVariants as fault;

use crate::faults::RecordFault;
use mqb_drafts::Draft;
use mqb_orders::OutRow;

fn raises_ack(number: u32, row: &OutRow) -> bool
    ensures { result ≡ raises_ack number (row_of row.now) }
{
    row.acked < number && number <= row.offered
}

/// The sequence of an ordinal is acknowledged up to a number.
pub(crate) fn acknowledge(draft: &mut Draft, ordinal: u32, number: u32) -> Result<(), RecordFault>
    ensures ok { OnOk result (draft.new.effect ≡ without_line draft.old.effect
        (with_row (acknowledged number) draft.old.effect.state ordinal)) }
    ensures fit { OnOk result (option_map_or (raises_ack number)
        (row_of_ordinal draft.old.effect.state ordinal) false ≡ true) }
    ensures start { draft.new.start ≡ draft.old.start }
    ensures grown { IsGrown draft.old.rooms draft.new.rooms }
    ensures held { OnOk result (draft.new.held ≤ draft.old.held) }
    ensures unfit { result ≡ Err fault.Unfit → option_map_or (raises_ack number)
        (row_of_ordinal draft.old.effect.state ordinal) false ≡ false }
{
    let Some(row) = draft.contents().row_of_ordinal(ordinal) else {
        return Err(RecordFault::Unfit);
    };
    if !raises_ack(number, draft.contents().out(row)) {
        return Err(RecordFault::Unfit);
    }
    draft.acknowledge(row, number)?;
    Ok(())
}
