//! The commands of the program but for connections and replays: what each says, how it ends, and
//! what the disk is left as.
//!
//! A store is opened, formatted or listed, or its manager called at one moment of a clock; a
//! command answers its whole text, which is written in one place. The packets of an input are shown
//! as they come, a line for each, and no more than one packet is kept. How the program ends and
//! what it says of a fault stand here too.
//!
//! Of the definitions, `Opened` has what a store is opened as, `Said` what each command says,
//! `Called` what a call says, and `Shown` what is shown.
#![tactic(auto)]

mod answer;
mod calling;
mod checkpointing;
mod faults;
mod helping;
mod lines;
mod listing;
mod making;
mod message_lines;
mod opening;
mod output;
mod peeking;
mod showing;
mod shown_faults;
mod status;
mod turns;
mod viewer;

pub use answer::Answer;
pub use calling::{answer_call, call};
pub use checkpointing::{answer_checkpoint, checkpoint};
pub use faults::{append_fault, put_end};
pub use helping::{help, version};
pub use listing::{answer_list, list};
pub use making::{init, make};
pub use opening::open;
pub use output::{tell, write_all};
pub use peeking::{answer_peek, peek};
pub use showing::show;
pub use status::Status;
