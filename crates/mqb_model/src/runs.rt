ghost use Rattle.mqb_model.specs.runs.Worked.{OneIsCommitted, OneIsPut, OneIsTaken, OneIsReleased};
ghost use Rattle.mqb_model.specs.runs.Worked.{OneIsRefused, OneExpires, OneRolls, OneIsExpress};
ghost use Rattle.mqb_model.specs.runs.Worked.{OneIsDropped, OneIsUnseen, OneIsInDoubt};

/// A message is committed as the first of its sequence.
pub fn one_is_committed()
    ensures { OneIsCommitted }
{}

/// It is offered, sent, put, acknowledged and taken.
pub fn one_is_put()
    ensures { OneIsPut }
{}

/// A message that is taken leaves a copy in its queue's journal.
pub fn one_is_taken()
    ensures { OneIsTaken }
{}

/// A recoverable message is released once its peer has stored it.
pub fn one_is_released()
    ensures { OneIsReleased }
{}

/// A message that finds no queue is refused, and its source is told.
pub fn one_is_refused()
    ensures { OneIsRefused }
{}

/// A message that was not offered in time expires, an offered one does not, and the next one goes
/// with the one before it.
pub fn one_expires()
    ensures { OneExpires }
{}

/// A message for a sequence that is full begins a new one.
pub fn one_rolls()
    ensures { OneRolls }
{}

/// An express message is gone after a restart.
pub fn one_is_express()
    ensures { OneIsExpress }
{}

/// A dropped notice takes no number.
pub fn one_is_dropped()
    ensures { OneIsDropped }
{}

/// A take sees no send of its own transaction.
pub fn one_is_unseen()
    ensures { OneIsUnseen }
{}

/// A record in doubt is kept, lost, or still in doubt.
pub fn one_is_in_doubt()
    ensures { OneIsInDoubt }
{}
