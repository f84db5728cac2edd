//! The replies of a replay, and their texts.
//!
//! `Texts` of the definitions has the text of each reply. `print_reply` writes a line of a
//! transcript, `make_script` a script with orders in it. A `Printer` has the parts that all printed
//! texts share, for crates above too.
#![tactic(auto)]

mod arrivals;
mod generator;
mod laws;
mod ledger;
mod lists;
mod printer;
mod replies;
mod reply_texts;

pub use arrivals::{Arrival, Outcome};
pub use generator::make_script;
pub use laws::texts_tell_apart;
pub use lists::Listed;
pub use printer::Printer;
pub use replies::Reply;
pub use reply_texts::print_reply;
