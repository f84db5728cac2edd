ghost use Rattle.std.specs.Prelude.{◌≡◌, length};
ghost use Rattle.mqb_model.specs.records.Applying.{apply};
ghost use Rattle.mqb_model.specs.records.Record.{Peer};
ghost use Rattle.mqb_model.specs.runs.Samples.{alpha, beta};
ghost use Rattle.mqb_model.specs.state.State.{empty};
ghost use Rattle.mqb_snapshot.specs.Laws.{SnapshotsAreReadBack};
ghost use Rattle.mqb_snapshot.specs.Snapshot.{snapshot};

/// A manager that knows one other, and has nothing else, is 95 bytes.
pub fn one_peer_is_spelled()
    ensures { length (snapshot (apply (empty alpha) (Peer beta))) ≡ 95 }
{}

/// The bytes of a valid state are read as what a store of it stands for.
pub fn snapshots_are_read_back()
    ensures { SnapshotsAreReadBack }
{}
