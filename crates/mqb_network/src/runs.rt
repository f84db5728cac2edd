ghost use Rattle.mqb_network.specs.Worked.{OneArrives, OneIsUnheard, OneIsLost};
ghost use Rattle.mqb_network.specs.Worked.{OneIsKept, OneCloses};

/// A message is committed, sent, put and acknowledged.
pub fn one_arrives()
    ensures { OneArrives }
{}

/// A receiver whose disk fails hears nothing more, and keeps its record in doubt.
pub fn one_is_unheard()
    ensures { OneIsUnheard }
{}

/// A record that was lost is as if its call had never been.
pub fn one_is_lost()
    ensures { OneIsLost }
{}

/// A record that was kept is as if its call had gone well.
pub fn one_is_kept()
    ensures { OneIsKept }
{}

/// A set-up packet that comes again ends the connection.
pub fn one_closes()
    ensures { OneCloses }
{}
