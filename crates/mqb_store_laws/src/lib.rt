//! Laws of the store of a manager: what its entries stand for, what an image of its disk opens to,
//! and where it is bad.
#![tactic(auto)]

mod laws;

pub use laws::{
    bad_at_one_place, bases_begin, entries_begin, entries_go_on, images_open_to_one,
    opened_is_not_bad, records_join, states_are_own,
};
