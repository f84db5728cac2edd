ghost use Rattle.mqb_store_laws.specs.Laws.{BadAtOnePlace, BasesBegin, EntriesBegin, EntriesGoOn};
ghost use Rattle.mqb_store_laws.specs.Laws.{ImagesOpenToOne, OpenedIsNotBad};
ghost use Rattle.mqb_store_laws.specs.Laws.{RecordsJoin, StatesAreOwn};

use mqb_journal::{
    bad_at_one_place as one_place, chains_begin_alike, records_are_not_bad, stands_for_one_list,
};
use mqb_model::{durable_is_applied, durable_is_fitted, records_keep_identities};

/// The first entry stands for a manager that has nothing but its identity, where it is one; in a
/// store, where that has the store's GUID.
pub fn entries_begin()
    ensures { EntriesBegin }
{}

/// One entry more stands for what its record, where it fits, makes of the state.
pub fn entries_go_on()
    ensures { EntriesGoOn }
{}

/// A record that fits a valid state joins the entries that stand for what a store has of it, and
/// adds the lines that it has there.
pub fn records_join()
    ensures { RecordsJoin }
{
    durable_is_applied();
    durable_is_fitted();
}

/// The base of a state, with no entries behind it, stands for what a store has of the state.
pub fn bases_begin()
    ensures { BasesBegin }
{}

/// The state that entries stand for in a store has its GUID, since no record changes an identity.
pub fn states_are_own()
    ensures { StatesAreOwn }
{
    records_keep_identities();
}

/// An image opens to one state at most, by one count of records.
pub fn images_open_to_one()
    ensures { ImagesOpenToOne }
{
    stands_for_one_list();
}

/// What opens is bad nowhere.
pub fn opened_is_not_bad()
    ensures { OpenedIsNotBad }
{
    chains_begin_alike();
    records_are_not_bad();
    stands_for_one_list();
    one_place();
}

/// A store is bad at one place at most.
pub fn bad_at_one_place()
    ensures { BadAtOnePlace }
{
    chains_begin_alike();
    records_are_not_bad();
    stands_for_one_list();
    one_place();
}
