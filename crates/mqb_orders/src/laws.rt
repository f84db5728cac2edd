//! What follows from the definitions. Each function stands for a law: its contract is the law,
//! and its body is empty.
ghost use Rattle.mqb_orders.specs.Laws.{NextLeavesNoneOut, NextIsAbove, DecidedIsDuplicate};
ghost use Rattle.mqb_orders.specs.Laws.{LinkIsGreatest, NextKeptIsLeast, BeforeStays, LinkIsBefore};

/// What is judged next leaves out no kept number.
pub fn next_leaves_none_out()
    ensures { NextLeavesNoneOut }
{}

/// What is judged next is new.
pub fn next_is_above()
    ensures { NextIsAbove }
{}

/// What was decided is a duplicate from then on.
pub fn decided_is_duplicate()
    ensures { DecidedIsDuplicate }
{}

/// `OutRow::link_before` answers the greatest number.
pub fn link_is_greatest()
    ensures { LinkIsGreatest }
{}

/// `OutRow::next_kept` answers the least number.
pub fn next_kept_is_least()
    ensures { NextKeptIsLeast }
{}

/// The number that stands before an offered one never changes: nothing up to it is committed
/// or expires any more.
pub fn before_stays()
    ensures { BeforeStays }
{}

/// `OutRow::link_before` answers the number that stands before in the stream.
pub fn link_is_before()
    ensures { LinkIsBefore }
{}
