//! What follows from the definitions. The contract of each function is a law; its body is empty.
ghost use Rattle.mqb_queue.specs.Laws.{AtMostOneFirst, OldestIsFirst, OnePlaceChanges, OneNamedPlaceChanges, PlansStay, FoundByItsName};

/// The first message of a place is determined.
pub fn at_most_one_first()
    ensures { AtMostOneFirst }
{}

/// `Queues::first` answers it.
pub fn oldest_is_first()
    ensures { OldestIsFirst }
{}

/// A call that changes a place leaves every other place.
pub fn one_place_changes()
    ensures { OnePlaceChanges }
{}

/// So does one that names the place by its queue's name.
pub fn one_named_place_changes()
    ensures { OneNamedPlaceChanges }
{}

/// A call that changes a place leaves the plans of the queues, and so their names and numbers.
pub fn plans_stay()
    ensures { PlansStay }
{}

/// `Queues::find` answers a queue's place in the list for its name.
pub fn found_by_its_name()
    ensures { FoundByItsName }
{}
