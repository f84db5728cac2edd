ghost use Rattle.mqb_network.specs.Laws.{CheckpointsWriteNothing, LedgerIsWritten, MovesAreEvents};

/// In each run the ledger has the lines of the records that were written or found kept, in order.
pub fn ledger_is_written()
    ensures { LedgerIsWritten }
{}

/// A move of a run is its event in the course of the run.
pub fn moves_are_events()
    ensures { MovesAreEvents }
{}

/// A checkpoint writes no record, adds no line to the ledger and sends no packet.
pub fn checkpoints_write_nothing()
    ensures { CheckpointsWriteNothing }
{}
