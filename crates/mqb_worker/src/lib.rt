//! A worker: it takes the first message that waits in a queue, and sends what is made of it in
//! the same transaction.
//!
//! Of the definitions, `Work` has what a worker makes of the message that waits, `Steps`
//! what one step comes to, `Refusals` why one is refused, and `Laws` what holds of every
//! list of calls in which only steps take from the queue. `Twice` has that none is taken
//! twice, in a run of a network.
#![tactic(auto)]

mod handlers;
mod laws;
mod ops;
mod stepping;
mod telling;
mod waiting;

pub use handlers::{Handler, Prefix};
pub use laws::{each_taken_is_answered, none_is_taken_twice};
pub use mqb_replies::{Manager, OpenFault};
pub use stepping::step;
pub use telling::Step;
