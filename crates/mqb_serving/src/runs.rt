ghost use Rattle.mqb_serving.specs.Worked.{OneIsAsked, OneIsBad, OneIsCutOff};
ghost use Rattle.mqb_serving.specs.Worked.{OneIsEarly, OneIsPushed};

/// A manager that is asked for a session and then left alone answers, and ends well.
pub fn one_is_asked()
    ensures { OneIsAsked }
{}

/// Bytes that end in a base header end a connection too soon.
pub fn one_is_cut_off()
    ensures { OneIsCutOff }
{}

/// A packet before its phase closes the session.
pub fn one_is_early()
    ensures { OneIsEarly }
{}

/// Bytes that begin no packet end a connection at their place.
pub fn one_is_bad()
    ensures { OneIsBad }
{}

/// A message is pushed over one connection, and each end writes what the other reads.
pub fn one_is_pushed()
    ensures { OneIsPushed }
{}
