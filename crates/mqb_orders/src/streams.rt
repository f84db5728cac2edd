ghost use Rattle.std.specs.Prelude.{◌≡◌, ◌↔◌, true};
ghost use Rattle.mqb_orders.specs.Streams.{same_stream};

use mqb_base::{Stream, same_name, same_sequence};

/// The test `same_stream` of the definitions, which is true of equal streams alone.
pub fn same_stream(a: &Stream, b: &Stream) -> bool
    ensures test { result ≡ same_stream a.now b.now }
    ensures equal { (same_stream a.now b.now ≡ true) ↔ (a.now ≡ b.now) }
{
    let destination = same_name(&a.destination, &b.destination);
    let sequence = same_sequence(a.sequence, b.sequence);
    a.source == b.source && (destination && sequence)
}
