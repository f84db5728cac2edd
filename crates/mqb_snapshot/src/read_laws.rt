ghost use Rattle.mqb_snapshot.specs.ReadLaws.{ReadStatesAreDurable, ReadStatesAreSpelled};
ghost use Rattle.mqb_snapshot.specs.ReadLaws.{ReadStatesAreValid, ReadStatesFit};

/// What bytes are read as is valid.
pub fn read_states_are_valid()
    ensures { ReadStatesAreValid }
{}

/// Its numbers fit their types, its names are names, and its lists are counted in four bytes.
pub fn read_states_fit()
    ensures { ReadStatesFit }
{}

/// It has nothing beside what a store of it stands for: no express message, and no
/// mark of a connection.
pub fn read_states_are_durable()
    ensures { ReadStatesAreDurable }
{}

/// Its own bytes are read as it.
pub fn read_states_are_spelled()
    ensures { ReadStatesAreSpelled }
{}
