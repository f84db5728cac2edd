ghost use Rattle.std.specs.Prelude.{◌≡◌};
ghost use Rattle.mqb_tables.specs.mqb_model.rules.Numbers.{express_after};

use mqb_tables::{FIRST_EXPRESS, MAX_EXPRESS};

/// The numbers of the next durable message, of the next sequence and of the next express message,
/// and the count of messages at which a sequence is full.
#[derive(Clone, Copy, Debug, PartialEq, Eq)]
pub struct Counters {
    pub next_number: u32,
    pub next_ordinal: u32,
    pub roll: u32,
    pub next_express: u32,
}

/// Behind the greatest express number comes the first again.
fn express_after(number: u32) -> u32
    ensures { result ≡ express_after number }
{
    if number == MAX_EXPRESS {
        FIRST_EXPRESS
    } else {
        number + 1
    }
}

impl Counters {
    /// The counters once an express number is taken.
    pub fn with_express_taken(self) -> Counters
        ensures { result ≡ record self { next_express = express_after self.next_express } }
    {
        Counters {
            next_express: express_after(self.next_express),
            ..self
        }
    }
}
