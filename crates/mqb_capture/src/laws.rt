ghost use Rattle.mqb_capture.specs.Chains.{AgainIsTheSame, NeighboursAreEnough};
ghost use Rattle.mqb_capture.specs.Cuts.{EventsAreCut};
ghost use Rattle.mqb_capture.specs.Laws.{IsDecided, MomentsDoNotMatter, SaysOne};
ghost use Rattle.mqb_capture.specs.Worked.{AckAlone, HeadAlone};

/// Wherever pieces end, the bytes of each way are the frames of its packets, one after
/// another, and a rest.
pub fn events_are_cut()
    ensures { EventsAreCut }
{}

/// Of no bytes two answers are said: a verdict has one index and one cause, and no fault of the
/// capture stands beside it.
pub fn says_one()
    ensures { SaysOne }
{}

/// Of all bytes one answer is said, which `judged` computes.
pub fn is_decided()
    ensures { IsDecided }
{}

/// A set-up packet that is owed at some moment is owed at the one that it bears, and
/// leaves the same session.
pub fn moments_do_not_matter()
    ensures { MomentsDoNotMatter }
{}

/// Where a list in rising order keeps what came of a sequence, the two neighbours of a new number
/// decide whether its message may come.
pub fn neighbours_are_enough()
    ensures { NeighboursAreEnough }
{}

/// A message whose number came already may come again exactly where it is the same.
pub fn again_is_the_same()
    ensures { AgainIsTheSame }
{}

/// A head alone is lawful.
pub fn head_alone()
    ensures { HeadAlone }
{}

/// An acceptor that first hears an acknowledgement is closed by it, and the first
/// bytes of one are a rest.
pub fn ack_alone()
    ensures { AckAlone }
{}
