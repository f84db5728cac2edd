//! A law of served connections: where one ends well, what its end gave and heard is a lawful
//! capture. Each function here stands for a law: its contract is the law, and its body is empty.
#![tactic(auto)]

ghost use Rattle.mqb_law_captures.specs.Laws.{AnsweredIsLawful, ServedIsLawful};
ghost use Rattle.mqb_law_captures.specs.Worked.{OneIsTraced};

/// Where a connection ends well, and the heard packets keep to what is demanded of a peer, each
/// capture of it is lawful.
pub fn served_is_lawful()
    ensures { ServedIsLawful }
{}

/// So is each capture of what `serve_one`, `push_one` or `fetch_one` gave and heard where it
/// is answered with `Ok`.
pub fn answered_is_lawful()
    ensures { AnsweredIsLawful }
{}

/// What a manager that pushes a message sends and hears, in its order.
pub fn one_is_traced()
    ensures { OneIsTraced }
{}
