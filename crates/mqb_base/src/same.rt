ghost use Rattle.std.specs.Prelude.{◌≡◌, ◌↔◌, true};
ghost use Rattle.mqb_base.specs.Same.{same_name};
ghost use Rattle.mqb_base.specs.Sequences.{same_sequence, earlier};

use crate::ids::SequenceId;
use crate::queue_names::QueueName;

/// The test `same_name` of the definitions: `==` of names is this test, and it is true
/// of equal names alone.
pub fn same_name(a: &QueueName, b: &QueueName) -> bool
    ensures test { result ≡ same_name a.now b.now }
    ensures equal { (same_name a.now b.now ≡ true) ↔ (a.now ≡ b.now) }
{
    a == b
}

/// The test `same_sequence` of the definitions, which is true of equal sequences alone.
pub fn same_sequence(a: SequenceId, b: SequenceId) -> bool
    ensures test { result ≡ same_sequence a b }
    ensures equal { (same_sequence a b ≡ true) ↔ (a ≡ b) }
{
    a == b
}

/// The test `earlier` of the definitions: `<` of sequences is this test.
pub fn earlier(a: SequenceId, b: SequenceId) -> bool
    ensures { result ≡ earlier a b }
{
    a < b
}
