ghost use Rattle.mqb_moves.specs.Counting.{PumpsAreCounted};
ghost use Rattle.mqb_moves.specs.Downs.{DownRefusesAll};
ghost use Rattle.mqb_moves.specs.Never.{DefinitionsDoNotFail};

/// What is heard and pumped never answers, by its definition, that the disk failed.
pub fn definitions_do_not_fail()
    ensures { DefinitionsDoNotFail }
{}

/// A manager that is down refuses each call.
pub fn down_refuses_all()
    ensures { DownRefusesAll }
{}

/// A pump answers how many packets it gives out.
pub fn pumps_are_counted()
    ensures { PumpsAreCounted }
{}
